// A writer that takes few bytes a call, and may fail.
ghost use Rattle.std.specs.Prelude.{◌≡◌, min, take};

use crate::rig::copy_front;
use std::io;
use std::io::{ErrorKind, Write};

/// How many bytes a [`ScriptedWriter`] keeps.
pub const KEPT: usize = 8192;

/// How a [`ScriptedWriter`] fails.
#[derive(Debug, Clone, Copy, PartialEq, Eq)]
pub enum Failing {
    /// Not at all.
    Never,
    /// It takes this number of bytes, and then each write returns an error.
    AfterBytes(usize),
    /// It takes this number of bytes, and then each write returns 0.
    ZeroAfterBytes(usize),
    /// The write of this number returns an error, and no other. The first is number 0.
    AtWrite(usize),
    /// Each flush returns an error, and no write.
    InFlush,
}

/// A writer that takes at most `most` bytes a call, one at least. It keeps the first [`KEPT`] bytes
/// that it takes, and counts its calls and all bytes.
#[derive(Drop)]
pub struct ScriptedWriter {
    kept: [u8; KEPT],
    taken: usize,
    writes: usize,
    flushes: usize,
    most: usize,
    failing: Failing,
}

impl ScriptedWriter {
    /// A writer that took nothing yet.
    pub fn new(most: usize, failing: Failing) -> ScriptedWriter
        ensures most { result.most ≡ most }
        ensures failing { result.failing ≡ failing }
        ensures taken { result.taken ≡ 0 }
        ensures writes { result.writes ≡ 0 }
        ensures flushes { result.flushes ≡ 0 }
    {
        ScriptedWriter {
            kept: [0; KEPT],
            taken: 0,
            writes: 0,
            flushes: 0,
            most,
            failing,
        }
    }

    /// How many bytes it took.
    pub fn taken(&self) -> usize
        ensures { result ≡ self.now.taken }
    {
        self.taken
    }

    /// How many writes were asked of it, failed ones included.
    pub fn writes(&self) -> usize
        ensures { result ≡ self.now.writes }
    {
        self.writes
    }

    /// How many flushes were asked of it, failed ones included.
    pub fn flushes(&self) -> usize
        ensures { result ≡ self.now.flushes }
    {
        self.flushes
    }

    /// The bytes that it took, the first [`KEPT`] at most.
    pub fn kept(&self) -> &[u8]
        ensures { result.now ≡ take (min self.now.taken 8192) self.now.kept }
    {
        &self.kept[..self.taken.min(KEPT)]
    }
}

impl Write for ScriptedWriter {
    fn write(&mut self, bytes: &[u8]) -> io::Result<usize> {
        let number = self.writes;
        self.writes = self.writes.saturating_add(1);
        let room = match self.failing {
            Failing::Never | Failing::InFlush => usize::MAX,
            Failing::AfterBytes(n) => {
                if self.taken >= n {
                    return Err(io::Error::from(ErrorKind::TimedOut));
                }
                n - self.taken
            }
            Failing::ZeroAfterBytes(n) => n.saturating_sub(self.taken),
            Failing::AtWrite(n) => {
                if number == n {
                    return Err(io::Error::from(ErrorKind::TimedOut));
                }
                usize::MAX
            }
        };
        let n = self.most.max(1).min(room).min(bytes.len());
        let start = self.taken.min(KEPT);
        copy_front(&bytes[..n], &mut self.kept[start..]);
        self.taken = self.taken.saturating_add(n);
        Ok(n)
    }

    fn flush(&mut self) -> io::Result<()> {
        self.flushes = self.flushes.saturating_add(1);
        if self.failing == Failing::InFlush {
            return Err(io::Error::from(ErrorKind::TimedOut));
        }
        Ok(())
    }
}
