// A list of bytes with a room and a peak.
ghost use Rattle.std.specs.Borrow.{sem};
ghost use Rattle.std.specs.Prelude.{◌≡◌, ◌+◌, ◌-◌, ◌<◌, ◌≤◌, ◌==◌, [], length, max, take, drop, replicate, vec_capacity, vec_len, IfOk, OnOk, OnErr};
ghost use Rattle.tds_meter.specs.Lent.{LendsNew, LendsTail};
ghost use Rattle.tds_meter.specs.Space.{Grows, appended, empty, holding};

use std::alloc::Global;
use std::marker::Model;

/// The most bytes that an area may have room for: 64 MiB.
pub(crate) const GREATEST_ROOM: usize = 67_108_864;

/// Memory was refused.
#[derive(Debug, Clone, Copy, PartialEq, Eq)]
pub struct OutOfMemory;

/// An area has no room for what was to be added.
#[derive(Debug, Clone, Copy, PartialEq, Eq)]
pub struct Full;

/// A list of bytes with a room, the most bytes that it may hold, and a peak, the most that it held
/// since it was made or last restarted. Its memory is taken once, when it is made, and written to as far as it is used.
#[derive(Drop)]
pub struct Area {
    // with memory for the room, and as long as it was ever needed; the bytes are the first `len`
    store: Vec<u8>,
    room: usize,
    len: usize,
    peak: usize,
}

impl Model for Area {
    ghost use Rattle.std.specs.Prelude.{◌≤◌, take, vec_capacity, vec_len};
    ghost use Rattle.tds_meter.specs.Space.{Space};
    ghost use Rattle.tds_meter.specs.declared.area.TheConstants.{GREATEST_ROOM};

    ghost Value = { Space };

    ghost view = { λ a. record { bytes = take a.len a.store.items; room = a.room; peak = a.peak } };

    ghost invariant = { λ a. (a.len ≤ a.peak) × (a.peak ≤ vec_len a.store)
        × (vec_len a.store ≤ a.room) × (a.room ≤ vec_capacity a.store) × (a.room ≤ GREATEST_ROOM) };
}

// Makes a store at least this long, within its memory.
fn reach(store: &mut Vec<u8>, end: usize)
    requires { end ≤ vec_capacity store.old }
    ensures long { end ≤ vec_len store.new }
    ensures most { vec_len store.new ≤ max (vec_len store.old) end }
    ensures kept { take (vec_len store.old) store.new.items ≡ store.old.items }
    ensures capacity { vec_capacity store.old ≤ vec_capacity store.new }
{
    if end > store.len() {
        let Ok(()) = store.resize(end, 0) else {
            unreachable!()
        };
    }
}

impl Area {
    /// An empty area with this room, in bytes, 64 MiB at most. It takes the memory of the whole room;
    /// [`OutOfMemory`] if that is refused.
    pub fn new(alloc: Global, room: usize) -> Result<Area, OutOfMemory>
        requires { room ≤ GREATEST_ROOM }
        ensures { IfOk result (λ area. area ≡ empty room) }
    {
        match Vec::with_capacity(alloc, room) {
            Ok(store) => Ok(Area {
                store,
                room,
                len: 0,
                peak: 0,
            }),
            Err(_) => Err(OutOfMemory),
        }
    }

    // Adds `n` bytes at the end, whatever is in them.
    fn add(&mut self, n: usize)
        requires { length self.old.bytes + n ≤ self.old.room }
        ensures { Grows self.old self.new n }
    {
        let end = self.len + n;
        reach(&mut self.store, end);
        self.len = end;
        self.peak = self.peak.max(end);
    }

    /// The bytes that it holds.
    pub fn bytes(&self) -> &[u8]
        ensures value { result.now ≡ self.now.bytes }
        ensures fits { length self.now.bytes ≤ self.now.room }
    {
        &self.store[..self.len]
    }

    /// How many bytes it holds.
    pub fn len(&self) -> usize
        ensures value { result ≡ length self.now.bytes }
        ensures bound { result ≤ GREATEST_ROOM }
    {
        self.len
    }

    /// Whether it holds no byte.
    pub fn is_empty(&self) -> bool
        ensures { result ≡ (length self.now.bytes == 0) }
    {
        self.len == 0
    }

    /// The most bytes that it may hold.
    pub fn room(&self) -> usize
        ensures { result ≡ self.now.room }
    {
        self.room
    }

    /// How many more bytes it may hold.
    pub fn free(&self) -> usize
        ensures value { result ≡ self.now.room - length self.now.bytes }
        ensures fits { length self.now.bytes + result ≡ self.now.room }
    {
        self.room() - self.len
    }

    /// The most bytes that stood in it since it was made or last restarted.
    pub fn peak(&self) -> usize
        ensures value { result ≡ self.now.peak }
        ensures bound { result ≤ GREATEST_ROOM }
    {
        self.peak
    }

    /// Takes all bytes away. The peak stays.
    pub fn clear(&mut self)
        ensures value { self.new ≡ holding self.old [] }
        ensures peak { self.new.peak ≤ self.new.room }
    {
        self.len = 0;
    }

    /// Takes all but the first `n` bytes away. The peak stays.
    pub fn truncate(&mut self, n: usize)
        ensures { self.new ≡ holding self.old (take n self.old.bytes) }
    {
        self.len = self.len.min(n);
    }

    /// Takes the first `n` bytes away. The peak stays.
    pub fn drop_front(&mut self, n: usize)
        requires { n ≤ length self.old.bytes }
        ensures { self.new ≡ holding self.old (drop n self.old.bytes) }
    {
        self.store.copy_within(n..self.len, 0);
        self.len -= n;
    }

    /// Adds a piece at the end. [`Full`] if there is no room for it: nothing has changed then.
    pub fn append(&mut self, piece: &[u8]) -> Result<(), Full>
        ensures ok { OnOk result (self.new ≡ appended self.old piece.now) }
        ensures err { OnErr result (self.new ≡ self.old) }
        ensures full { OnErr result (self.old.room < length self.old.bytes + length piece.now) }
        ensures fits { OnOk result (length self.old.bytes + length piece.now ≤ self.old.room) }
    {
        if piece.len() > self.free() {
            return Err(Full);
        }
        let len = self.len;
        self.add(piece.len());
        self.tail(len).copy_from_slice(piece);
        Ok(())
    }

    /// Adds `n` zero bytes at the end. [`Full`] if there is no room: nothing has changed then.
    pub fn extend(&mut self, n: usize) -> Result<(), Full>
        ensures ok { OnOk result (self.new ≡ appended self.old (replicate n 0)) }
        ensures err { OnErr result (self.new ≡ self.old) }
        ensures full { OnErr result (self.old.room < length self.old.bytes + n) }
        ensures fits { OnOk result (length self.old.bytes + n ≤ self.old.room) }
    {
        if n > self.free() {
            return Err(Full);
        }
        let len = self.len;
        self.add(n);
        self.tail(len).fill(0);
        Ok(())
    }

    /// The bytes from a place on, to be written over.
    pub fn tail(&mut self, from: usize) -> &mut [u8]
        requires { from ≤ length self.old.bytes }
        ensures* lends { sem 𝓛 (LendsTail self.entry from result) }
        ensures value { result.now ≡ drop from self.old.bytes }
    {
        self.store.slice_mut(from..self.len)
    }

    /// Adds `n` bytes at the end, and lends them for writing. What is in them before they are
    /// written isn't promised: bytes that were in this area before, or zeros that it was made with.
    pub fn grow_within(&mut self, n: usize) -> &mut [u8]
        requires { length self.old.bytes + n ≤ self.old.room }
        ensures* lends { sem 𝓛 (LendsNew self.entry result) }
        ensures value { length result.now ≡ n }
    {
        let end = self.len;
        self.add(n);
        self.tail(end)
    }

    /// Takes all bytes away, and sets the peak to 0.
    pub(crate) fn restart(&mut self)
        ensures { self.new ≡ empty self.old.room }
    {
        self.clear();
        self.peak = 0;
    }
}
