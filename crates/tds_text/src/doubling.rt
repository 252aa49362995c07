// Text whose quotes are doubled on the way from one slice to another.
ghost use Rattle.std.specs.Prelude.{◌≡◌, ◌+◌, ◌<◌, ◌*◌, ◌≤◌, ◌-◌, ◌++◌, length, take, drop, IfSome};
ghost use Rattle.tds_text.specs.Quoting.{doubled};

use crate::encode::{put_doubled, put_lanes, take_before};
use crate::lanes::{LANES, PART, WIDE, first_set, quote_stops};
use std::simd::prelude::*;
use tds_values::Span;

// Writes the next bytes up to a quote, at most 16, to a place, and returns how many. Writes none if fewer than
// 16 bytes are left.
#[inline(always)]
#[tactic(auto, using(crate::proofs::LaneMasks::run_most, crate::proofs::Singles::unquoted_lanes, std::proofs::lemmas::Grind::common_steps))]
fn take_unquoted(bytes: &[u8], at: usize, to: &mut [u8], made: usize) -> usize
    requires from { at ≤ length bytes.now }
    requires room { made + LANES ≤ length to.old }
    ensures most { result ≤ LANES }
    ensures within { at + result ≤ length bytes.now }
    ensures taken { let run = take result (drop at bytes.now) in
        take (made + result) to.new ≡ take made to.old ++ doubled run }
{
    if bytes.len() - at < LANES {
        return 0;
    }
    let n = first_set(quote_stops::<LANES>(bytes, at), LANES);
    put_lanes(to, made, u8x16::from_slice(&bytes[at..]), n);
    n
}

// Writes the next bytes up to a quote, at most 32, to a place, and returns how many.
#[inline(always)]
fn take_wide(bytes: &[u8], at: usize, to: &mut [u8], made: usize) -> usize
    requires wide { at + WIDE ≤ length bytes.now }
    requires room { made + WIDE ≤ length to.old }
    ensures most { result ≤ WIDE }
    ensures taken { let run = take result (drop at bytes.now) in
        take (made + result) to.new ≡ take made to.old ++ doubled run }
{
    take_before(bytes, at, quote_stops::<WIDE>(bytes, at), to, made)
}

// Writes the bytes with their quotes doubled, as long as 32 of them are left and there is room for more.
#[inline(never)]
#[tactic(auto, using(crate::proofs::JoiningLemmas::doubled_runs, std::proofs::lemmas::Grind::common_steps))]
pub(crate) fn convert_wide(bytes: &[u8], to: &mut [u8]) -> Span
    ensures within { result.used ≤ length bytes.now }
    ensures fits { result.made ≤ length to.new }
    ensures some { WIDE ≤ length bytes.now → PART ≤ length to.old → 0 < result.used }
    ensures short { result.made ≤ 2 * result.used }
    ensures text { take result.made to.new ≡ doubled (take result.used bytes.now) }
{
    let mut at = 0;
    let mut made = 0;
    if bytes.len() < WIDE || to.len() < PART {
        return Span { used: at, made };
    }
    let last = bytes.len() - WIDE;
    let limit = to.len() - PART;
    while at <= last && made <= limit {
        let n = take_wide(bytes, at, to, made);
        at += n;
        made += n;
        if n == WIDE {
            continue;
        }
        made = put_doubled(to, made, bytes[at]);
        at += 1;
    }
    Span { used: at, made }
}

// Writes the bytes with their quotes doubled, as long as 32 of them are left. It makes no call for fewer.
#[inline(always)]
fn convert_front(bytes: &[u8], to: &mut [u8]) -> Span
    ensures within { result.used ≤ length bytes.now }
    ensures fits { result.made ≤ length to.new }
    ensures short { result.made ≤ 2 * result.used }
    ensures text { take result.made to.new ≡ doubled (take result.used bytes.now) }
{
    if bytes.len() < WIDE {
        return Span { used: 0, made: 0 };
    }
    convert_wide(bytes, to)
}

// Goes on with the bytes, their quotes doubled, and returns how many they are then.
#[inline(always)]
#[tactic(auto, using(crate::proofs::JoiningLemmas::doubled_runs, std::proofs::lemmas::Grind::common_steps))]
fn convert_rest(bytes: &[u8], after: Span, to: &mut [u8]) -> usize
    requires within { after.used ≤ length bytes.now }
    requires room { after.made + 2 * (length bytes.now - after.used) + LANES ≤ length to.old }
    requires before { take after.made to.old ≡ doubled (take after.used bytes.now) }
    ensures short { result ≤ after.made + 2 * (length bytes.now - after.used) }
    ensures text { take result to.new ≡ doubled bytes.now }
{
    let mut at = after.used;
    let mut made = after.made;
    while at < bytes.len() {
        let n = take_unquoted(bytes, at, to, made);
        at += n;
        made += n;
        if n == LANES || at == bytes.len() {
            continue;
        }
        made = put_doubled(to, made, bytes[at]);
        at += 1;
    }
    made
}

// Writes bytes with their quotes doubled, and returns how many they are then.
pub(crate) fn convert(bytes: &[u8], to: &mut [u8]) -> usize
    requires { 2 * length bytes.now + LANES ≤ length to.old }
    ensures short { result ≤ 2 * length bytes.now }
    ensures text { take result to.new ≡ doubled bytes.now }
{
    let done = convert_front(bytes, to);
    convert_rest(bytes, done, to)
}

// Writes bytes as `convert` does, if there is surely room for them.
pub(crate) fn convert_within(bytes: &[u8], to: &mut [u8]) -> Option<usize>
    ensures most { IfSome result (λ made. made + LANES ≤ length to.old) }
    ensures text { IfSome result (λ made. take made to.new ≡ doubled bytes.now) }
{
    let done = convert_front(bytes, to);
    let room = to.len() - done.made;
    if room < LANES || (room - LANES) / 2 < bytes.len() - done.used {
        return None;
    }
    Some(convert_rest(bytes, done, to))
}
