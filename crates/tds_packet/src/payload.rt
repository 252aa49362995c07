// The bytes that the packets of one message carry.
ghost use Rattle.std.specs.Borrow.{sem};
ghost use Rattle.std.specs.Prelude.{◌≡◌, ℕ, ◌+◌, ◌^◌, ◌<◌, ◌≤◌, [], ◌∷◌, None, Some, length, take, IfErr, IfOk, MatchResult, OnOk, is_ok, if◌then◌else◌};
ghost use Rattle.tds_meter.specs.LimitFaults.{IsPacketSize};
ghost use Rattle.tds_packet.specs.Payloads.{AnswersAgain, AnswersInPlace, CutsFill, CutsPass, EndsMessage, IsNewPayload, IsGoing, IsSound, LendsPiece, NeedsPacket, PassesOver, RestsPayload, TakesOrEnds, TellsEnd, buffered, further, seen};
ghost use Rattle.tds_packet.specs.Reads.{IsOfPackets};
ghost use Rattle.tds_packet.specs.PayloadView.{IsBetween, Takes, began_at};

use crate::counted::Counted;
use crate::fault::{Fault, Place, Stop};
use crate::packet::read_packet;
use std::io::Read;
use tds_meter::Area;

/// The payload of one message: the bodies of its packets, joined. A packet is read only when a byte
/// is asked for, or the end, and the packets before it are used up and none of them was the last;
/// its bytes are handed out only when the whole packet has been read. Not one byte after the last
/// packet is read. After a stop each later call returns the same stop and reads nothing.
#[derive(Drop)]
pub struct Payload<'a, R> {
    from: &'a mut Counted<R>,
    packet: &'a mut Area,
    // how many bytes of the packet are handed out
    at: usize,
    // whether the packet is the last
    last: bool,
    // the bytes of the packets read, headers included
    wire: u64,
    max_wire: u64,
    place: u64,
    stopped: Option<Stop>,
}

impl<'a, R: Read> Payload<'a, R> {
    /// The message that comes next. The area's room is the greatest packet size, in bytes; the area
    /// is emptied. The limit counts the bytes of the wire, headers included.
    pub fn new(from: &'a mut Counted<R>, packet: &'a mut Area, max_wire: u64) -> Payload<'a, R>
        requires room { IsPacketSize packet.old.room }
        requires limit { max_wire ≤ 2 ^ 56 }
        ensures from { result.from.ghost_name ≡ from.entry.ghost_name }
        ensures packet { result.packet.ghost_name ≡ packet.entry.ghost_name }
        ensures begun { IsNewPayload R.remaining result from.old packet.old.room max_wire }
    {
        packet.clear();
        Payload {
            from,
            packet,
            at: 0,
            last: false,
            wire: 0,
            max_wire,
            place: 0,
            stopped: None,
        }
    }

    /// How many bytes were handed out. Those of a call that stopped aren't.
    pub fn place(&self) -> u64
        ensures { result ≡ self.now.place }
    {
        self.place
    }

    /// The stop of a call that stopped.
    pub fn stopped(&self) -> Option<Stop>
        ensures { result ≡ self.now.stopped }
    {
        self.stopped
    }

    // Reads a packet.
    fn advance(&mut self) -> Result<(), Stop>
        requires { NeedsPacket self.old }
        ensures payload { AnswersInPlace self.old self.new result }
        ensures further { OnOk result (self.old.wire < self.new.wire) }
        ensures fault { IfErr result (λ stop. IsOfPackets stop.fault) }
        ensures gives { TakesOrEnds R.remaining self.old self.new (λ _. []) result }
    {
        match read_packet(self.from, self.packet, self.max_wire, self.wire) {
            Ok(head) => {
                self.at = 0;
                self.last = head.last;
                self.wire += u64::from(head.length);
                Ok(())
            }
            Err(fault) => {
                self.packet.clear();
                self.at = 0;
                let stop = Stop {
                    fault,
                    place: Place::Wire(self.wire),
                };
                self.stopped = Some(stop);
                Err(stop)
            }
        }
    }

    // Sees to it that a byte is ready.
    #[inline(always)]
    fn ready(&mut self) -> Result<(), Stop>
        requires { IsSound self.old }
        ensures payload { AnswersInPlace self.old self.new result }
        ensures stands { OnOk result (self.new.at < length self.new.packet.now.bytes) }
        ensures lazy { self.old.at < length self.old.packet.now.bytes → self.new.from.now ≡ self.old.from.now }
        ensures gives { TakesOrEnds R.remaining self.old self.new (λ _. []) result }
        ensures ended { IfErr result (λ stop. stop.fault ≡ Fault.MessageEnded → self.old.stopped ≡ None →
            EndsMessage R.remaining self.old self.new) }
    {
        if self.stopped.is_none() && self.at < self.packet.len() {
            return Ok(());
        }
        self.read_on()
    }

    // Sees to it that a byte is ready, as `ready` does, by packets that it reads if there is none.
    #[inline(never)]
    fn read_on(&mut self) -> Result<(), Stop>
        requires { IsSound self.old }
        ensures payload { AnswersInPlace self.old self.new result }
        ensures stands { OnOk result (self.new.at < length self.new.packet.now.bytes) }
        ensures lazy { self.old.at < length self.old.packet.now.bytes → self.new.from.now ≡ self.old.from.now }
        ensures gives { TakesOrEnds R.remaining self.old self.new (λ _. []) result }
        ensures ended { IfErr result (λ stop. stop.fault ≡ Fault.MessageEnded → self.old.stopped ≡ None →
            EndsMessage R.remaining self.old self.new) }
    {
        if let Some(stop) = self.stopped {
            return Err(stop);
        }
        while self.at == self.packet.len() {
            if self.last {
                let stop = Stop::in_payload(Fault::MessageEnded, self.place);
                self.stopped = Some(stop);
                return Err(stop);
            }
            self.advance()?;
        }
        Ok(())
    }

    /// The next byte. Stops with `MessageEnded` if the message is over, and at a packet that has to be read
    /// with `ReadFailed`, `InputEnded`, `WrongPacketType`, `BadPacketLength` or `ResponseTooLong`.
    pub fn next(&mut self) -> Result<u8, Stop>
        requires { IsSound self.old }
        ensures payload { AnswersAgain self.old self.new result }
        ensures place { self.new.place ≡ (if is_ok result then self.old.place + 1 else self.old.place) }
        ensures gives { TakesOrEnds R.remaining self.old self.new (λ byte. byte ∷ []) result }
        ensures between { OnOk result (IsBetween (seen R.remaining self.new)) }
        ensures lazy { self.old.at < length self.old.packet.now.bytes → self.new.from.now ≡ self.old.from.now }
    {
        self.ready()?;
        Ok(self.take())
    }

    // Hands out a byte that is ready.
    fn take(&mut self) -> u8
        requires going { IsGoing self.old }
        requires stands { self.old.at < length self.old.packet.now.bytes }
        ensures going { IsGoing self.new }
        ensures rest { self.new ≡ further self.old 1 }
        ensures gives { Takes (seen R.remaining self.old) (seen R.remaining self.new) (result ∷ []) 1 }
    {
        let byte = self.packet.bytes()[self.at];
        self.at += 1;
        self.place += 1;
        byte
    }

    /// Fills a slice with the next bytes. A message that ends before the slice is full stops the
    /// call at the place where it began, and none of its bytes counts as handed out.
    #[inline(always)]
    pub fn fill(&mut self, to: &mut [u8]) -> Result<(), Stop>
        requires { IsSound self.old }
        ensures payload { AnswersAgain self.old self.new result }
        ensures place { self.new.place ≡ (if is_ok result then self.old.place + length to.new else self.old.place) }
        ensures all { OnOk result (Takes (seen R.remaining self.old) (seen R.remaining self.new)
            to.new (length to.new)) }
        ensures between { OnOk result (IsBetween (seen R.remaining self.new)) }
        ensures part { IfErr result (λ stop. self.old.stopped ≡ None →
            CutsFill R.remaining self.old self.new to.new stop) }
    {
        let n = to.len();
        if self.stopped.is_some() || n > self.packet.len() - self.at {
            return self.fill_on(to);
        }
        let held = self.buffered();
        to.copy_from_slice(&held[..n]);
        self.consume(n);
        Ok(())
    }

    // Fills a slice as `fill` does, piece by piece.
    #[inline(never)]
    fn fill_on(&mut self, to: &mut [u8]) -> Result<(), Stop>
        requires { IsSound self.old }
        ensures payload { AnswersAgain self.old self.new result }
        ensures place { self.new.place ≡ (if is_ok result then self.old.place + length to.new else self.old.place) }
        ensures all { OnOk result (Takes (seen R.remaining self.old) (seen R.remaining self.new)
            to.new (length to.new)) }
        ensures between { OnOk result (IsBetween (seen R.remaining self.new)) }
        ensures part { IfErr result (λ stop. self.old.stopped ≡ None →
            CutsFill R.remaining self.old self.new to.new stop) }
    {
        if let Some(stop) = self.stopped {
            return Err(stop);
        }
        let start = self.place;
        let mut at = 0;
        while at < to.len() {
            match self.piece(to.len() - at) {
                Ok(bytes) => {
                    let end = at + bytes.len();
                    to[at..end].copy_from_slice(bytes);
                    at = end;
                }
                Err(stop) => return Err(self.cut(stop, start)),
            }
        }
        Ok(())
    }

    /// Hands out the next `n` bytes and passes over them in place: nothing is kept. A message
    /// that ends before the last of them stops the call at the place where it began, and none of them
    /// counts as handed out.
    #[inline(always)]
    pub fn pass(&mut self, n: usize) -> Result<(), Stop>
        requires { IsSound self.old }
        ensures payload { AnswersAgain self.old self.new result }
        ensures place { self.new.place ≡ (if is_ok result then self.old.place + n else self.old.place) }
        ensures all { OnOk result (PassesOver R.remaining self.old self.new n) }
        ensures between { OnOk result (IsBetween (seen R.remaining self.new)) }
        ensures part { IfErr result (λ stop. self.old.stopped ≡ None → CutsPass R.remaining self.old self.new n stop) }
    {
        if self.stopped.is_some() || n > self.packet.len() - self.at {
            return self.pass_on(n);
        }
        self.consume(n);
        Ok(())
    }

    // Passes over the next `n` bytes as `pass` does, piece by piece.
    #[inline(never)]
    fn pass_on(&mut self, n: usize) -> Result<(), Stop>
        requires { IsSound self.old }
        ensures payload { AnswersAgain self.old self.new result }
        ensures place { self.new.place ≡ (if is_ok result then self.old.place + n else self.old.place) }
        ensures all { OnOk result (PassesOver R.remaining self.old self.new n) }
        ensures between { OnOk result (IsBetween (seen R.remaining self.new)) }
        ensures part { IfErr result (λ stop. self.old.stopped ≡ None → CutsPass R.remaining self.old self.new n stop) }
    {
        if let Some(stop) = self.stopped {
            return Err(stop);
        }
        let began = self.place;
        let mut passed = 0;
        while passed < n {
            match self.piece(n - passed) {
                Ok(bytes) => passed += bytes.len(),
                Err(stop) => return Err(self.cut(stop, began)),
            }
        }
        Ok(())
    }

    // The stop of a call of many bytes: if the message ended, it is at the call's beginning.
    fn cut(&mut self, stop: Stop, start: u64) -> Stop
        requires sound { IsSound self.old }
        requires stopped { self.old.stopped ≡ Some stop }
        requires start { start ≤ self.old.place }
        ensures sound { IsSound self.new }
        ensures rest { self.new ≡ record self.old { place = start; stopped = Some result } }
        ensures value { result ≡ began_at start stop }
    {
        self.place = start;
        match stop.fault {
            Fault::MessageEnded => {
                let cut = Stop::in_payload(stop.fault, start);
                self.stopped = Some(cut);
                cut
            }
            _ => stop,
        }
    }

    /// Whether every byte was handed out, and the last packet is among those read. Stops as
    /// [`next`](Payload::next) does at a packet that has to be read to tell, but not at the message's end.
    pub fn at_end(&mut self) -> Result<bool, Stop>
        requires { IsSound self.old }
        ensures payload { AnswersInPlace self.old self.new result }
        ensures gives { TakesOrEnds R.remaining self.old self.new (λ _. []) result }
        ensures between { OnOk result (IsBetween (seen R.remaining self.new)) }
        ensures tells { IfOk result (TellsEnd R.remaining self.new) }
        ensures goes_on { IfErr result (λ stop. self.old.stopped ≡ None → stop.fault ≡ Fault.MessageEnded → ⊥) }
    {
        if let Some(stop) = self.stopped {
            return Err(stop);
        }
        match self.ready() {
            Ok(()) => Ok(false),
            Err(stop) => match stop.fault {
                Fault::MessageEnded => {
                    self.stopped = None;
                    Ok(true)
                }
                _ => Err(stop),
            },
        }
    }

    /// Between 1 and `max` next bytes, in place in the packet area; `max` is at least 1. Stops as
    /// [`next`](Payload::next) does.
    pub fn piece(&mut self, max: usize) -> Result<&[u8], Stop>
        requires sound { IsSound self.old }
        requires some { 0 < max }
        ensures len { IfOk result (λ bytes. (0 < length bytes.now) × (length bytes.now ≤ max)) }
        ensures* after { sem 𝓛 (RestsPayload R.row self.entry (λ new.
            LendsPiece R.remaining self.old new (λ bytes. bytes.now) result)) }
    {
        self.ready()?;
        let start = self.at;
        let n = max.min(self.packet.len() - start);
        self.at += n;
        self.place += n as u64;
        let bytes = self.packet.bytes();
        Ok(&bytes[start..start + n])
    }

    /// The bytes that come next, as far as they are in the packet area already. It reads nothing.
    pub fn buffered(&self) -> &[u8]
        requires { IsSound self.now }
        ensures { result.now ≡ buffered self.now }
    {
        &self.packet.bytes()[self.at..]
    }

    /// Hands out the first `n` of the bytes in the packet area. It reads nothing.
    pub fn consume(&mut self, n: usize)
        requires sound { IsSound self.old }
        requires within { n ≤ length (buffered self.old) }
        ensures sound { IsSound self.new }
        ensures rest { self.new ≡ further self.old n }
        ensures gives { Takes (seen R.remaining self.old) (seen R.remaining self.new) (take n (buffered self.old)) 0 }
        ensures between { self.old.stopped ≡ None → IsBetween (seen R.remaining self.new) }
    {
        let held = self.packet.len();
        prove!(self.at + n <= held);
        self.at += n;
        self.place += n as u64;
    }
}
