// Hexadecimal digits of 16 bytes at once.
ghost use Rattle.std.specs.Prelude.{◌≡◌, ◌+◌, ◌*◌, ◌≤◌, ◌++◌, length, take};
ghost use Rattle.std.specs.Simd.Lanes.{chunk};
ghost use Rattle.hex.specs.Hex.{encode_lower};
ghost use Rattle.tds_text.specs.Plain.{LiesIn};

use crate::lanes::{LANES, WIDE};
use std::simd::prelude::*;
use tds_values::hex_lanes;

// Writes the digits of the next 16 bytes.
#[inline(always)]
pub(crate) fn put_digits(bytes: &[u8], at: usize, to: &mut [u8])
    requires bytes { at + LANES ≤ length bytes.now }
    requires room { 2 * at + 2 * LANES ≤ length to.old }
    ensures { take (2 * at + 2 * LANES) to.new ≡ take (2 * at) to.old ++ encode_lower (chunk at LANES bytes.now) }
{
    let (first, second) = hex_lanes(u8x16::from_slice(&bytes[at..]));
    first.copy_to_slice(&mut to[2 * at..]);
    second.copy_to_slice(&mut to[2 * at + LANES..]);
}

// Writes the digits of the next 32 bytes.
#[inline(always)]
fn put_wide_digits(bytes: &[u8], at: usize, to: &mut [u8])
    requires bytes { at + WIDE ≤ length bytes.now }
    requires room { 2 * at + 2 * WIDE ≤ length to.old }
    ensures { take (2 * at + 2 * WIDE) to.new ≡ take (2 * at) to.old ++ encode_lower (chunk at WIDE bytes.now) }
{
    put_digits(bytes, at, to);
    put_digits(bytes, at + LANES, to);
}

// Writes the digits of bytes to a slice, as long as 64 of them are left, and returns of how many.
#[inline(always)]
#[tactic(auto, using(crate::proofs::SingleLaws::hex_laws))]
fn encode_wide(bytes: &[u8], to: &mut [u8]) -> usize
    requires { length to.old ≡ 2 * length bytes.now }
    ensures within { result ≤ length bytes.now }
    ensures digits { take (2 * result) to.new ≡ encode_lower (take result bytes.now) }
{
    let mut at = 0;
    while bytes.len() - at >= 2 * WIDE {
        put_wide_digits(bytes, at, to);
        put_wide_digits(bytes, at + WIDE, to);
        at += 2 * WIDE;
    }
    at
}

// Writes the digits of bytes to a slice, which they fill.
pub(crate) fn encode(bytes: &[u8], to: &mut [u8])
    requires { length to.old ≡ 2 * length bytes.now }
    ensures { to.new ≡ encode_lower bytes.now }
{
    let mut at = encode_wide(bytes, to);
    while bytes.len() - at >= LANES {
        put_digits(bytes, at, to);
        at += LANES;
    }
    let Ok(()) = hex::encode_to_slice(&bytes[at..], &mut to[2 * at..]) else {
        unreachable!()
    };
}

// Writes the digits of bytes to the front of a slice, and returns how many those are. What follows the bytes in the source may be
// looked at, and more of the slice written to.
#[inline(always)]
pub(crate) fn convert(bytes: &[u8], source: &[u8], to: &mut [u8]) -> usize
    requires source { LiesIn bytes.now source.now }
    requires room { 3 * length bytes.now + LANES ≤ length to.old }
    ensures made { result ≡ 2 * length bytes.now }
    ensures digits { take result to.new ≡ encode_lower bytes.now }
{
    let made = 2 * bytes.len();
    let whole = bytes.len().div_ceil(LANES) * LANES;
    if whole <= source.len() && 2 * whole <= to.len() {
        encode(&source[..whole], &mut to[..2 * whole]);
        return made;
    }
    encode(bytes, &mut to[..made]);
    made
}
