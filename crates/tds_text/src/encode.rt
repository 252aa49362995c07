// Bytes and characters, written to a slice from a place on. A place that a call returns is the one after
// what it wrote.
ghost use Rattle.std.specs.Prelude.{◌≡◌, ◌+◌, ◌<◌, ◌≤◌, [], ◌∷◌, ◌++◌, length, take, drop};
ghost use Rattle.std.specs.Char.{encode_utf8};
ghost use Rattle.std.specs.Simd.Lanes.{chunk};
ghost use Rattle.tds_text.specs.Plain.{ArePlain, LiesAhead, first_set};
ghost use Rattle.tds_text.specs.Quoting.{doubled};

use crate::lanes::{BLOCK, WIDE, first_set, plain_stops};
use std::simd::prelude::*;
use tds_values::put_byte;

// Writes a character beyond ASCII.
#[inline(always)]
#[tactic(auto, using(crate::proofs::Characters::two_more, crate::proofs::Characters::three_more, crate::proofs::Characters::four_more, crate::proofs::Characters::of_two, crate::proofs::Characters::of_three, crate::proofs::Characters::of_four, std::proofs::lemmas::Grind::common_steps))]
fn put_wide(to: &mut [u8], at: usize, code: u32) -> usize
    requires low { 128 ≤ code }
    requires high { code < 1114112 }
    requires room { at + 4 ≤ length to.old }
    ensures end { result ≡ at + length (encode_utf8 code) }
    ensures written { take result to.new ≡ take at to.old ++ encode_utf8 code }
{
    let last = (0x80 + code % 64) as u8;
    if code < 0x800 {
        let at = put_byte(to, at, (0xC0 + code / 64) as u8);
        return put_byte(to, at, last);
    }
    let third = (0x80 + code / 64 % 64) as u8;
    if code < 0x1_0000 {
        let at = put_byte(to, at, (0xE0 + code / 4096) as u8);
        let at = put_byte(to, at, third);
        return put_byte(to, at, last);
    }
    let at = put_byte(to, at, (0xF0 + code / 262144) as u8);
    let at = put_byte(to, at, (0x80 + code / 4096 % 64) as u8);
    let at = put_byte(to, at, third);
    put_byte(to, at, last)
}

/// Writes a character in UTF-8.
#[inline(always)]
pub fn put_character(to: &mut [u8], at: usize, code: u32) -> usize
    requires range { code < 1114112 }
    requires room { at + 4 ≤ length to.old }
    ensures end { result ≡ at + length (encode_utf8 code) }
    ensures written { take result to.new ≡ take at to.old ++ encode_utf8 code }
{
    if code < 0x80 {
        return put_byte(to, at, code as u8);
    }
    put_wide(to, at, code)
}

/// Writes a character in UTF-8, and a quote twice.
#[inline(always)]
#[tactic(auto, using(crate::proofs::Characters::doubled_as_long, crate::proofs::Characters::added_doubled))]
pub fn put_quoted(to: &mut [u8], at: usize, code: u32) -> usize
    requires range { code < 1114112 }
    requires room { at + 4 ≤ length to.old }
    ensures end { result ≡ at + length (doubled (encode_utf8 code)) }
    ensures written { take result to.new ≡ take at to.old ++ doubled (encode_utf8 code) }
{
    if code >= 0x80 {
        return put_wide(to, at, code);
    }
    let end = put_byte(to, at, code as u8);
    to[end] = 0x22;
    end + (code == 0x22) as usize
}

// Writes a byte, and a quote twice.
#[inline(always)]
pub(crate) fn put_doubled(to: &mut [u8], at: usize, byte: u8) -> usize
    requires { at + 2 ≤ length to.old }
    ensures most { result ≤ at + 2 }
    ensures written { take result to.new ≡ take at to.old ++ doubled (byte ∷ []) }
{
    let end = put_byte(to, at, byte);
    to[end] = byte;
    end + (byte == 0x22) as usize
}

// Writes the first `n` of `N` bytes.
#[inline(always)]
#[tactic(auto, using(tds_values::proofs::LaneLemmas::taken_put))]
pub(crate) fn put_lanes<const N: usize>(to: &mut [u8], at: usize, lanes: Simd<u8, N>, n: usize)
    requires lanes { length lanes ≡ N }
    requires within { n ≤ N }
    requires room { at + N ≤ length to.old }
    ensures { take (at + n) to.new ≡ take at to.old ++ take n lanes.entry }
{
    lanes.copy_to_slice(&mut to[at..]);
}

// Writes the next bytes of ASCII up to a quote, at most `N`, to a place, and returns how many. The source begins with the
// bytes, and what follows them may be looked at too.
#[inline(always)]
#[tactic(auto, using(crate::proofs::Singles::plain_runs))]
pub(crate) fn take_plain<const N: usize>(
    bytes: &[u8],
    source: &[u8],
    at: usize,
    to: &mut [u8],
    made: usize,
) -> usize
    requires few { N ≤ BLOCK }
    requires ahead { LiesAhead bytes.now source.now at N }
    requires room { made + N ≤ length to.old }
    ensures most { result ≤ N }
    ensures within { at + result ≤ length bytes.now }
    ensures plain { ArePlain (take result (drop at bytes.now)) }
    ensures taken { take (made + result) to.new ≡ take made to.old ++ take result (drop at bytes.now) }
{
    let n = first_set(plain_stops::<N>(source, at), N).min(bytes.len() - at);
    let lanes = Simd::<u8, N>::from_slice(&source[at..]);
    put_lanes(to, made, lanes, n);
    n
}

// Writes the next bytes before the first of these stops, at most 32, to a place, and returns how many.
#[inline(always)]
pub(crate) fn take_before(bytes: &[u8], at: usize, stops: u64, to: &mut [u8], made: usize) -> usize
    requires wide { at + WIDE ≤ length bytes.now }
    requires stops { first_set stops WIDE ≤ WIDE }
    requires room { made + WIDE ≤ length to.old }
    ensures first { result ≡ first_set stops WIDE }
    ensures taken { take (made + result) to.new ≡ take made to.old ++ take result (chunk at WIDE bytes.now) }
{
    let lanes = u8x32::from_slice(&bytes[at..]);
    if stops == 0 {
        put_lanes(to, made, lanes, WIDE);
        return WIDE;
    }
    let n = first_set(stops, WIDE);
    put_lanes(to, made, lanes, n);
    n
}

// Writes bytes as they are, `N` at a time, as long as all of them are of ASCII, none is a quote, and there is room. Returns the
// place after them, where those before `from` are so, and are written.
#[inline(always)]
pub(crate) fn put_plain<const N: usize>(bytes: &[u8], from: usize, to: &mut [u8]) -> usize
    requires some { 1 ≤ N }
    requires few { N ≤ BLOCK }
    requires from { from ≤ length bytes.now }
    requires room { from ≤ length to.old }
    requires plain { ArePlain (take from bytes.now) }
    requires before { take from to.old ≡ take from bytes.now }
    ensures within { result ≤ length bytes.now }
    ensures fits { result ≤ length to.new }
    ensures plain { ArePlain (take result bytes.now) }
    ensures text { take result to.new ≡ take result bytes.now }
{
    let end = bytes.len().min(to.len());
    let mut at = from;
    while end - at >= N && plain_stops::<N>(bytes, at) == 0 {
        let lanes = Simd::<u8, N>::from_slice(&bytes[at..]);
        put_lanes(to, at, lanes, N);
        at += N;
    }
    at
}
