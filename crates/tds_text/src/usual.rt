// Short text in UTF-8, judged while it is converted from one slice to another.
ghost use Rattle.std.specs.Prelude.{◌≡◌, ◌+◌, ◌*◌, ◌<◌, ◌≤◌, ◌++◌, length, take, drop};
ghost use Rattle.std.specs.Int.{is_in_range};
ghost use Rattle.tds_text.specs.Joined.{is_lead};
ghost use Rattle.tds_text.specs.Plain.{LiesAhead, LiesIn};
ghost use Rattle.tds_text.specs.Quoting.{doubled};
ghost use Rattle.tds_text.specs.Utf8Scan.{AreUnquoted, Converts};

use crate::encode::{put_doubled, put_lanes, take_plain};
use crate::lanes::{LANES, joined_run};
use std::simd::prelude::*;
use tds_values::{Span, put_byte};

// Whether a byte goes on with a character.
#[inline(always)]
fn goes_on(byte: u8) -> bool
    ensures { result ≡ is_in_range 0x80 0xBF byte }
{
    0x80 <= byte && byte <= 0xBF
}

// How many bytes the next character has if it is a whole one of two bytes, or one of three whose second byte has no range of
// its own, and 0 if not (Unicode, table 3-7).
#[inline(always)]
fn character_of_few(bytes: &[u8], at: usize) -> usize
    requires { at < length bytes.now }
    ensures some { 0 < result → 2 ≤ result }
    ensures most { result ≤ 3 }
    ensures next { AreUnquoted bytes.now at result }
{
    let first = bytes[at];
    let left = bytes.len() - at;
    if left < 2 || first < 0xC2 || !goes_on(bytes[at + 1]) {
        return 0;
    }
    if first < 0xE0 {
        return 2;
    }
    if left < 3 || first == 0xE0 || first == 0xED || first > 0xEF || !goes_on(bytes[at + 2]) {
        return 0;
    }
    3
}

// Writes the next two or three bytes to a place, and returns the place after them.
#[inline(always)]
fn put_few(bytes: &[u8], at: usize, n: usize, to: &mut [u8], made: usize) -> usize
    requires some { 2 ≤ n }
    requires few { n ≤ 3 }
    requires within { at + n ≤ length bytes.now }
    requires room { made + 3 ≤ length to.old }
    ensures end { result ≡ made + n }
    ensures written { take result to.new ≡ take made to.old ++ take n (drop at bytes.now) }
{
    let one = put_byte(to, made, bytes[at]);
    let two = put_byte(to, one, bytes[at + 1]);
    if n == 2 {
        return two;
    }
    put_byte(to, two, bytes[at + 2])
}

// Whether a byte begins a character of two bytes.
#[inline(always)]
fn begins_two(byte: u8) -> bool
    ensures { result ≡ is_lead byte }
{
    0xC2 <= byte && byte <= 0xDF
}

// How many of the next 16 bytes are whole characters of one or two bytes, and no quotes.
#[inline(always)]
#[tactic(auto, using(crate::proofs::LaneMasks::pairs_most, crate::proofs::JoinedText::run_text, crate::proofs::JoinedText::run_text_before))]
fn joined_characters(bytes: &[u8], source: &[u8], at: usize) -> usize
    requires { LiesAhead bytes.now source.now at (LANES + 1) }
    ensures most { result ≤ LANES }
    ensures next { AreUnquoted bytes.now at result }
{
    let n = joined_run(source, at).min(bytes.len() - at);
    if n == 0 || goes_on(source[at]) {
        return 0;
    }
    if begins_two(source[at + n - 1]) {
        return n - 1;
    }
    n
}

// Writes the next whole characters of one or two bytes, up to a quote and of at most 16 bytes, or else one character that
// `character_of_few` knows, and returns how many bytes they have.
#[inline(always)]
fn take_beyond(bytes: &[u8], source: &[u8], at: usize, to: &mut [u8], made: usize) -> usize
    requires from { at < length bytes.now }
    requires ahead { LiesAhead bytes.now source.now at (LANES + 1) }
    requires room { made + LANES ≤ length to.old }
    ensures next { AreUnquoted bytes.now at result }
    ensures taken { take (made + result) to.new ≡ take made to.old ++ take result (drop at bytes.now) }
{
    if bytes[at] < 0xE0 {
        let n = joined_characters(bytes, source, at);
        put_lanes(to, made, u8x16::from_slice(&source[at..]), n);
        return n;
    }
    let n = character_of_few(bytes, at);
    if n > 0 {
        put_few(bytes, at, n, to, made);
    }
    n
}

// Goes on with the text of characters beyond ASCII, and of those between them, as long as they begin before `end`.
#[inline(always)]
fn convert_beyond(
    bytes: &[u8],
    source: &[u8],
    end: usize,
    from: usize,
    to: &mut [u8],
    start: usize,
) -> Span
    requires ahead { 0 < end → LiesAhead bytes.now source.now end LANES }
    requires room { 2 * length bytes.now + LANES ≤ length to.old }
    requires before { Converts bytes.now to.old from start }
    ensures more { from ≤ result.used }
    ensures after { Converts bytes.now to.new result.used result.made }
{
    let mut at = from;
    let mut made = start;
    while at < end {
        let n = take_beyond(bytes, source, at, to, made);
        if n == 0 {
            break;
        }
        at += n;
        made += n;
    }
    Span { used: at, made }
}

// Writes the text of the first bytes, as far as they are characters of ASCII or such as `character_of_few` knows, and enough bytes
// follow them. What follows the bytes in the source may be looked at.
#[inline(always)]
pub(crate) fn convert_front(bytes: &[u8], source: &[u8], to: &mut [u8]) -> Span
    requires source { LiesIn bytes.now source.now }
    requires room { 2 * length bytes.now + LANES ≤ length to.old }
    ensures { Converts bytes.now to.new result.used result.made }
{
    let mut at = 0;
    let mut made = 0;
    let end = bytes.len().min(source.len().saturating_sub(LANES));
    while at < end {
        if bytes[at] >= 0x80 {
            let run = convert_beyond(bytes, source, end, at, to, made);
            if run.used == at {
                break;
            }
            at = run.used;
            made = run.made;
            continue;
        }
        let n = take_plain::<LANES>(bytes, source, at, to, made);
        at += n;
        made += n;
        if n == LANES || at == bytes.len() || bytes[at] >= 0x80 {
            continue;
        }
        made = put_doubled(to, made, bytes[at]);
        at += 1;
    }
    Span { used: at, made }
}
