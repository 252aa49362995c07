//! Readers and writers for tests, in memory: they give or take few bytes a call, and fail where a test asks for it.
ghost use Rattle.std.specs.Prelude.{◌≡◌, ◌++◌, drop, length, min, take};

mod reader;
mod repeating;
mod writer;

pub use reader::ScriptedReader;
pub use repeating::RepeatingReader;
pub use writer::{Failing, KEPT, ScriptedWriter};

// Copies as many bytes as both have, and says how many.
pub(crate) fn copy_front(from: &[u8], to: &mut [u8]) -> usize
    ensures count { result ≡ min (length from.now) (length to.old) }
    ensures copied { to.new ≡ take result from.now ++ drop result to.old }
{
    let n = from.len().min(to.len());
    to[..n].copy_from_slice(&from[..n]);
    n
}
