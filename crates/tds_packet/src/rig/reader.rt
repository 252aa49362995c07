// A reader that gives few bytes a call, and may fail.
ghost use Rattle.std.specs.Prelude.{◌≡◌, None, Some};

use crate::rig::copy_front;
use std::io;
use std::io::{BufRead, ErrorKind, Read};

/// A reader of a slice. It gives at most `most` bytes a call, one at least; if it is to fail, it
/// first gives some bytes, and then each read returns an error.
#[derive(Drop)]
pub struct ScriptedReader<'a> {
    left: &'a [u8],
    most: usize,
    fails_after: Option<usize>,
}

impl<'a> ScriptedReader<'a> {
    /// A reader that ends after the bytes.
    pub fn new(bytes: &'a [u8], most: usize) -> ScriptedReader<'a>
        ensures bytes { result.left.now ≡ bytes.now }
        ensures most { result.most ≡ most }
        ensures fails { result.fails_after ≡ None }
    {
        ScriptedReader {
            left: bytes,
            most,
            fails_after: None,
        }
    }

    /// A reader that fails once it gave the first `fails_at` of the bytes.
    pub fn failing(bytes: &'a [u8], most: usize, fails_at: usize) -> ScriptedReader<'a>
        ensures bytes { result.left.now ≡ bytes.now }
        ensures most { result.most ≡ most }
        ensures fails { result.fails_after ≡ Some fails_at }
    {
        ScriptedReader {
            left: bytes,
            most,
            fails_after: Some(fails_at),
        }
    }

    /// The bytes that it has not given.
    pub fn left(&self) -> &[u8]
        ensures { result.now ≡ self.now.left.now }
    {
        self.left
    }
}

impl Read for ScriptedReader<'_> {
    ghost remaining = { λ r. Some r.left.now };

    fn read(&mut self, to: &mut [u8]) -> io::Result<usize> {
        let n = copy_front(self.fill_buf()?, to);
        self.consume(n);
        Ok(n)
    }
}

impl BufRead for ScriptedReader<'_> {
    fn fill_buf(&mut self) -> io::Result<&[u8]> {
        let most = self.most.max(1).min(self.left.len());
        let n = match self.fails_after {
            None => most,
            Some(0) => return Err(io::Error::from(ErrorKind::TimedOut)),
            Some(k) => most.min(k),
        };
        Ok(&self.left[..n])
    }

    fn consume(&mut self, amount: usize) {
        let n = amount.min(self.left.len());
        self.left = &self.left[n..];
        if let Some(k) = self.fails_after {
            self.fails_after = Some(k.saturating_sub(n));
        }
    }
}
