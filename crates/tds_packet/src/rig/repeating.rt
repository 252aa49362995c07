// A reader that gives a slice many times.
ghost use Rattle.std.specs.Prelude.{◌≡◌, IsSomeAnd};

use crate::rig::copy_front;
use std::io;
use std::io::Read;

/// A reader of one slice, then of a second one `times` times, then of a third.
#[derive(Drop)]
pub struct RepeatingReader<'a> {
    left: &'a [u8],
    again: &'a [u8],
    times: u64,
    last: Option<&'a [u8]>,
}

impl<'a> RepeatingReader<'a> {
    /// A reader that ends after the third.
    pub fn new(first: &'a [u8], again: &'a [u8], times: u64, last: &'a [u8]) -> RepeatingReader<'a>
        ensures first { result.left.now ≡ first.now }
        ensures again { result.again.now ≡ again.now }
        ensures times { result.times ≡ times }
        ensures last { IsSomeAnd result.last (λ bytes. bytes.now ≡ last.now) }
    {
        RepeatingReader {
            left: first,
            again,
            times,
            last: Some(last),
        }
    }
}

impl Read for RepeatingReader<'_> {
    fn read(&mut self, to: &mut [u8]) -> io::Result<usize> {
        if self.again.is_empty() {
            self.times = 0;
        }
        if self.left.is_empty() && self.times > 0 {
            self.left = self.again;
            self.times -= 1;
        }
        if self.left.is_empty() {
            if let Some(last) = self.last {
                self.left = last;
                self.last = None;
            }
        }
        let n = copy_front(self.left, to);
        self.left = &self.left[n..];
        Ok(n)
    }
}
