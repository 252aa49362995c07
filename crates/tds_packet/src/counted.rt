// A device, and how often it failed.
ghost use Rattle.std.specs.Io.KnownBytes.{Appends, Consumes, IsAtEnd, Keeps};
ghost use Rattle.std.specs.Prelude.{◌≡◌, ◌-◌, ◌^◌, ◌<◌, ◌≤◌, length, take, IfErr, IfOk, IsTrue, OnErr, OnOk, false};
ghost use Rattle.tds_meter.specs.Counts.{one_more};
ghost use Rattle.tds_packet.specs.Devices.{device};
ghost use Rattle.tds_packet.specs.Filling.{CountsCall, FillsSlice, Rises, Stays, TellsInputEnd};

use std::io::{BufRead, Read, Write};

/// A reader or writer whose failed calls are counted: a read or write that returns an error, a
/// write of a nonempty slice that returns 0, a failed flush. The count stops at
/// 18,446,744,073,709,551,615; a device whose count is there isn't asked any more, and each of
/// its calls counts as failed.
#[derive(Drop)]
pub struct Counted<T> {
    device: T,
    failures: u64,
}

/// A call of a device failed, and was counted.
#[derive(Debug, Clone, Copy)]
pub struct Failed;

/// Why bytes are lacking.
#[derive(Debug, Clone, Copy)]
pub(crate) enum Short {
    /// The input ended.
    Ended,
    /// A read failed.
    Failed,
}

impl<T> Counted<T> {
    /// A device none of whose calls has failed.
    pub fn new(device: T) -> Counted<T>
        ensures { result ≡ record { device = device; failures = 0 } }
    {
        Counted {
            device,
            failures: 0,
        }
    }

    /// How many calls of the device failed.
    pub fn failures(&self) -> u64
        ensures { result ≡ self.now.failures }
    {
        self.failures
    }

    /// The device.
    pub fn device(&self) -> &T
        ensures { result.now ≡ self.now.device }
    {
        &self.device
    }

    /// The device, taken out.
    pub fn into_device(self) -> T
        ensures { result ≡ self.device }
    {
        self.device
    }

    fn count(&mut self)
        ensures { self.new ≡ record self.old { failures = one_more self.old.failures } }
    {
        self.failures = self.failures.saturating_add(1);
    }
}

impl<R: Read> Counted<R> {
    // One read.
    fn read(&mut self, to: &mut [u8]) -> Result<usize, Failed>
        ensures bound { IfOk result (λ n. n ≤ length to.old) }
        ensures ok { IfOk result (λ n.
            Consumes (R.remaining self.old.device) (R.remaining self.new.device) (take n to.new)) }
        ensures end { IfOk result (λ n. n ≡ 0 → 0 < length to.old → IsAtEnd (R.remaining self.new.device)) }
        ensures counts { CountsCall self.old.failures self.new.failures result }
        ensures err { OnErr result (Keeps (R.remaining self.old.device) (R.remaining self.new.device)) }
    {
        if self.failures == u64::MAX {
            return Err(Failed);
        }
        match self.device.read(to) {
            Ok(n) => Ok(n),
            Err(_) => {
                self.count();
                Err(Failed)
            }
        }
    }

    // Reads until the slice is full.
    pub(crate) fn fill(&mut self, to: &mut [u8]) -> Result<(), Short>
        ensures { let at = device R.remaining in FillsSlice (at self.old) (at self.new) to.new result }
    {
        let mut at = 0;
        while at < to.len() {
            match self.read(&mut to[at..]) {
                Ok(0) => return Err(Short::Ended),
                Ok(n) => at += n,
                Err(_) => return Err(Short::Failed),
            }
        }
        Ok(())
    }
}

impl<R: BufRead> Counted<R> {
    /// Whether the input is over, as an empty buffer tells it: of a reader whose buffer has no room it always does. No byte is
    /// taken, but the reader may read ahead. [`Failed`] if that failed.
    pub fn is_over(&mut self) -> Result<bool, Failed>
        ensures keeps { Keeps (R.remaining self.old.device) (R.remaining self.new.device) }
        ensures over { IfOk result (TellsInputEnd (R.remaining self.old.device)) }
        ensures counts { CountsCall self.old.failures self.new.failures result }
    {
        if self.failures == u64::MAX {
            return Err(Failed);
        }
        let over = match self.device.fill_buf() {
            Ok(ahead) => Some(ahead.is_empty()),
            Err(_) => None,
        };
        let Some(over) = over else {
            self.count();
            return Err(Failed);
        };
        Ok(over)
    }
}

impl<W: Write> Counted<W> {
    // One write of a slice that isn't empty.
    fn write(&mut self, bytes: &[u8]) -> Result<usize, Failed>
        ensures bound { IfOk result (λ n. (0 < n) × (n ≤ length bytes.now)) }
        ensures ok { IfOk result (λ n.
            Appends (W.contents self.old.device) (W.contents self.new.device) (take n bytes.now)) }
        ensures counts { CountsCall self.old.failures self.new.failures result }
        ensures err { OnErr result (Keeps (W.contents self.old.device) (W.contents self.new.device)) }
    {
        if self.failures == u64::MAX {
            return Err(Failed);
        }
        match self.device.write(bytes) {
            Ok(0) => {
                self.count();
                Err(Failed)
            }
            Ok(n) => Ok(n),
            Err(_) => {
                self.count();
                Err(Failed)
            }
        }
    }

    /// Writes all bytes, with as many calls of `write` as it takes. `Err` has the number of those
    /// that the writer took: a call failed then.
    pub fn deliver(&mut self, bytes: &[u8]) -> Result<(), usize>
        ensures ok { OnOk result (Appends (W.contents self.old.device) (W.contents self.new.device) bytes.now) }
        ensures stays { OnOk result (Stays self.old.failures self.new.failures bytes.now) }
        ensures err { IfErr result (λ k.
            Appends (W.contents self.old.device) (W.contents self.new.device) (take k bytes.now)) }
        ensures part { IfErr result (λ k. k < length bytes.now) }
        ensures counted { IfErr result (λ k. Rises self.old.failures self.new.failures (take k bytes.now)) }
    {
        let mut taken = 0;
        while taken < bytes.len() {
            match self.write(&bytes[taken..]) {
                Ok(n) => taken += n,
                Err(_) => return Err(taken),
            }
        }
        Ok(())
    }

    /// Flushes the writer. False if that failed.
    pub fn flush(&mut self) -> bool
        ensures bytes { Keeps (W.contents self.old.device) (W.contents self.new.device) }
        ensures ok { IsTrue result → (self.new.failures ≡ self.old.failures) × (self.old.failures < 2 ^ 64 - 1) }
        ensures counted { result ≡ false → self.new.failures ≡ one_more self.old.failures }
    {
        if self.failures == u64::MAX {
            return false;
        }
        match self.device.flush() {
            Ok(()) => true,
            Err(_) => {
                self.count();
                false
            }
        }
    }
}
