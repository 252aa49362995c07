// Characters of text in UTF-16.
ghost use Rattle.std.specs.Prelude.{◌≡◌, ◌||◌, ◌+◌, ◌-◌, ◌*◌, ◌<◌, ◌≤◌, ◌%◌, ◌++◌, false, true, length, min, take, drop, slice_index, if◌then◌else◌, MatchOption, IfSome};
ghost use Rattle.std.specs.Char.{encode_utf8};
ghost use Rattle.std.specs.Char.Utf16.{is_high_surrogate, is_low_surrogate};
ghost use Rattle.tds_text.specs.Joining.{emit};
ghost use Rattle.tds_text.specs.Plain.{LiesIn};
ghost use Rattle.tds_text.specs.Utf16 as utf16;
ghost use Rattle.tds_text.specs.Utf16Next.{Converts, ConvertsIn, ConvertsSingles, GoesOn, IsCharacter, IsNext, LeavesRest};
ghost use Rattle.tds_text.specs.Utf16Next.{MayConvertSingles, StopsAtWide};

use crate::beyond_ascii::put_units;
use crate::encode::{put_lanes, put_quoted};
use crate::lanes::{BLOCK, LANES, WIDE, first_set};
use crate::lanes_utf16::{
    MANY_UNITS, UNITS, all_low_bytes, are_all_plain, are_many_plain, are_plain, low_bytes,
    surrogate_units, units_of,
};
use std::simd::prelude::*;
use tds_values::Span;

/// How many bytes a text has at least of which 32 units are taken at a time; a shorter one is better off without.
pub(crate) const LONG: usize = 4 * BLOCK;

/// A character, and how many bytes it takes.
#[derive(Clone, Copy)]
pub struct Character {
    pub code: u32,
    pub len: usize,
}

// The unit at a place.
fn unit(bytes: &[u8], at: usize) -> u32
    requires { at + 1 < length bytes.now }
    ensures value { result ≡ slice_index bytes.now at + 256 * slice_index bytes.now (at + 1) }
    ensures range { result < 65536 }
{
    u32::from(bytes[at]) + 256 * u32::from(bytes[at + 1])
}

// Whether a unit is a surrogate, one half of a pair.
fn is_surrogate(unit: u32) -> bool
    ensures { result ≡ (is_high_surrogate unit || is_low_surrogate unit) }
{
    0xD800 <= unit && unit < 0xE000
}

// Whether a unit is a low surrogate, the second of a pair.
fn is_low(unit: u32) -> bool
    ensures { result ≡ is_low_surrogate unit }
{
    0xDC00 <= unit && unit < 0xE000
}

// The character at a place: U+FFFD for a surrogate without a partner. `None` if that depends on what follows.
pub(crate) fn next_character(bytes: &[u8], at: usize) -> Option<Character>
    requires { at ≤ length bytes.now }
    ensures gives { MatchOption result
        (utf16.rest (drop at bytes.now) ≡ drop at bytes.now)
        (λ next. IsNext (drop at bytes.now) next.code next.len) }
    ensures character { IfSome result (λ next. IsCharacter next.code next.len) }
    ensures within { IfSome result (λ next. at + next.len ≤ length bytes.now) }
{
    if bytes.len() - at < 2 {
        return None;
    }
    let first = unit(bytes, at);
    if !is_surrogate(first) {
        return Some(Character {
            code: first,
            len: 2,
        });
    }
    if is_low(first) {
        return Some(Character {
            code: 0xFFFD,
            len: 2,
        });
    }
    if bytes.len() - at < 4 {
        return None;
    }
    let second = unit(bytes, at + 2);
    if !is_low(second) {
        return Some(Character {
            code: 0xFFFD,
            len: 2,
        });
    }
    Some(Character {
        code: 0x1_0000 + (first - 0xD800) * 0x400 + (second - 0xDC00),
        len: 4,
    })
}

/// The character at a place in whole data: U+FFFD for a surrogate without a partner.
pub fn character_at(bytes: &[u8], at: usize) -> Character
    requires some { at + 2 ≤ length bytes.now }
    requires whole { (length bytes.now - at) % 2 ≡ 0 }
    ensures spells { let later = drop (at + result.len) bytes.now in
        utf16.characters (drop at bytes.now) ≡ encode_utf8 result.code ++ utf16.characters later }
    ensures character { IsCharacter result.code result.len }
    ensures within { at + result.len ≤ length bytes.now }
{
    match next_character(bytes, at) {
        Some(next) => next,
        None => Character {
            code: 0xFFFD,
            len: 2,
        },
    }
}

// Goes on with the text by one character, if that doesn't depend on what follows.
#[inline(always)]
#[tactic(auto, using(crate::proofs::Characters::doubled_length, std::proofs::lemmas::Grind::common_steps))]
pub(crate) fn convert_one(bytes: &[u8], from: usize, to: &mut [u8], start: usize) -> Span
    requires long { 3 * length bytes.now + 2 * LANES ≤ 2 * length to.old }
    requires before { Converts bytes.now to.old from start }
    ensures gives { GoesOn bytes.now to.new from result }
    ensures held { result.used ≡ from → utf16.rest (drop from bytes.now) ≡ drop from bytes.now }
{
    let Some(next) = next_character(bytes, from) else {
        return Span {
            used: from,
            made: start,
        };
    };
    let made = put_quoted(to, start, next.code);
    Span {
        used: from + next.len,
        made,
    }
}

// Goes on with the text by 32 units, as long as all of them are characters of ASCII, none is a quote, and they come before `end`.
#[inline(always)]
fn convert_blocks(bytes: &[u8], from: usize, end: usize, to: &mut [u8], start: usize) -> Span
    requires { MayConvertSingles bytes.now to.old from end start }
    ensures { ConvertsSingles bytes.now to.new from end start result }
{
    let mut at = from;
    let mut made = start;
    if end - from < BLOCK {
        return Span { used: at, made };
    }
    let last_block = end - BLOCK;
    while at <= last_block {
        let first = u8x16::from_slice(&bytes[at..]);
        let second = u8x16::from_slice(&bytes[at + LANES..]);
        let third = u8x16::from_slice(&bytes[at + WIDE..]);
        let fourth = u8x16::from_slice(&bytes[at + WIDE + LANES..]);
        if !are_many_plain(first, second, third, fourth) {
            break;
        }
        put_lanes(to, made, all_low_bytes(first, second), MANY_UNITS);
        put_lanes(
            to,
            made + MANY_UNITS,
            all_low_bytes(third, fourth),
            MANY_UNITS,
        );
        at += BLOCK;
        made += 2 * MANY_UNITS;
    }
    Span { used: at, made }
}

// Goes on with the text by sixteen units, as long as all of them are characters of ASCII, none is a quote, and they come before `end`.
#[inline(always)]
fn convert_plain(bytes: &[u8], from: usize, end: usize, to: &mut [u8], start: usize) -> Span
    requires { MayConvertSingles bytes.now to.old from end start }
    ensures gives { ConvertsSingles bytes.now to.new from end start result }
    ensures ends { StopsAtWide bytes.now result.used end }
{
    let mut at = from;
    let mut made = start;
    if end - from < WIDE {
        return Span { used: at, made };
    }
    let last = end - WIDE;
    while at <= last {
        let first = u8x16::from_slice(&bytes[at..]);
        let second = u8x16::from_slice(&bytes[at + LANES..]);
        if !are_all_plain(first, second) {
            break;
        }
        put_lanes(to, made, all_low_bytes(first, second), MANY_UNITS);
        at += WIDE;
        made += MANY_UNITS;
    }
    Span { used: at, made }
}

/// Goes on with long text by 32 units and then by sixteen, as long as all of them are characters of ASCII, none is a quote, and they
/// come before `end`.
#[inline(always)]
pub fn convert_ascii(bytes: &[u8], from: usize, end: usize, to: &mut [u8], start: usize) -> Span
    requires { MayConvertSingles bytes.now to.old from end start }
    ensures gives { ConvertsSingles bytes.now to.new from end start result }
    ensures ends { StopsAtWide bytes.now result.used end }
{
    let front = convert_blocks(bytes, from, end, to, start);
    convert_plain(bytes, front.used, end, to, front.made)
}

// Goes on with the text by eight units, of which the last begin at `last` at the latest, up to the next surrogate.
#[inline(always)]
fn convert_full(bytes: &[u8], last: usize, from: usize, to: &mut [u8], start: usize) -> Span
    requires some { from ≤ last }
    requires last { last + LANES ≤ length bytes.now }
    requires long { 3 * length bytes.now + 2 * LANES ≤ 2 * length to.old }
    requires before { Converts bytes.now to.old from start }
    ensures { GoesOn bytes.now to.new from result }
{
    let mut at = from;
    let mut made = start;
    loop {
        let lanes = u8x16::from_slice(&bytes[at..]);
        let Some(end) = put_units(to, made, lanes, UNITS) else {
            break;
        };
        at += LANES;
        made = end;
        if at > last {
            break;
        }
    }
    Span { used: at, made }
}

// Whether there is room for any text of eight units from a place on. `ROOMY` says that there is.
#[inline(always)]
fn has_room<const ROOMY: bool>(to: &[u8], made: usize) -> bool
    requires within { made ≤ length to.now }
    requires roomy { ROOMY ≡ true → made + 3 * UNITS + LANES ≤ length to.now }
    ensures room { result ≡ true → made + 3 * UNITS + LANES ≤ length to.now }
    ensures other { result ≡ false → length to.now < made + 3 * UNITS + LANES }
{
    ROOMY || to.len() - made >= 3 * UNITS + LANES
}

// Where characters of ASCII end at the latest, for which there is a byte of room each. `ROOMY` says that there is for all.
#[inline(always)]
fn plain_end<const ROOMY: bool>(bytes: &[u8], at: usize, to: &[u8], made: usize) -> usize
    requires within { (at ≤ length bytes.now) × (made ≤ length to.now) }
    requires roomy { ROOMY ≡ true → length bytes.now - at + 2 * made ≤ 2 * length to.now }
    ensures within { (at ≤ result) × (result ≤ length bytes.now) }
    ensures room { result - at + 2 * made ≤ 2 * length to.now }
    ensures ends { result ≡ (if ROOMY then length bytes.now else at + min (length bytes.now - at) (2 * (length to.now - made))) }
{
    if ROOMY {
        return bytes.len();
    }
    at + (bytes.len() - at).min(2 * (to.len() - made))
}

// Goes on with the text by eight units, and by sixteen after eight characters of ASCII without a quote, up to the next surrogate.
// `ROOMY` says that there is room for any text; it ends otherwise where there isn't for any of eight.
#[inline(always)]
pub(crate) fn convert_mixed<const ROOMY: bool>(
    bytes: &[u8],
    from: usize,
    to: &mut [u8],
    start: usize,
) -> Span
    requires fits { start ≤ length to.old }
    requires roomy { ROOMY ≡ true → 3 * length bytes.now + 2 * LANES ≤ 2 * length to.old }
    requires before { Converts bytes.now to.old from start }
    ensures gives { GoesOn bytes.now to.new from result }
    ensures fits { result.made ≤ length to.old }
    ensures whole { result.used % 2 ≡ from % 2 }
{
    let mut at = from;
    let mut made = start;
    if bytes.len() - at < LANES {
        return Span { used: at, made };
    }
    let last = bytes.len() - LANES;
    while at <= last && has_room::<ROOMY>(to, made) {
        let lanes = u8x16::from_slice(&bytes[at..]);
        if are_plain(units_of(lanes)) {
            put_lanes(to, made, low_bytes(lanes), UNITS);
            let end = plain_end::<ROOMY>(bytes, at + LANES, to, made + UNITS);
            let run = convert_plain(bytes, at + LANES, end, to, made + UNITS);
            at = run.used;
            made = run.made;
            continue;
        }
        let Some(end) = put_units(to, made, lanes, UNITS) else {
            break;
        };
        at += LANES;
        made = end;
    }
    Span { used: at, made }
}

// Goes on with the text by the next `n` units, if none of these is a surrogate. What comes after the bytes in the source may be
// looked at.
#[inline(always)]
fn convert_some(
    bytes: &[u8],
    source: &[u8],
    from: usize,
    to: &mut [u8],
    start: usize,
    n: usize,
) -> Span
    requires most { n ≤ UNITS }
    requires within { from + 2 * n ≤ length bytes.now }
    requires before { ConvertsIn bytes.now source.now to.old from start }
    ensures { GoesOn bytes.now to.new from result }
{
    let nothing = Span {
        used: from,
        made: start,
    };
    if n == 0 || source.len() - from < LANES {
        return nothing;
    }
    let Some(made) = put_units(to, start, u8x16::from_slice(&source[from..]), n) else {
        return nothing;
    };
    Span {
        used: from + 2 * n,
        made,
    }
}

// Goes on with the text up to the next surrogate: by the units that are left over when eight are taken at a time, then by sixteen
// as long as all are characters of ASCII, and then by eight.
#[inline(always)]
fn convert_run(bytes: &[u8], source: &[u8], from: usize, to: &mut [u8], start: usize) -> Span
    requires { ConvertsIn bytes.now source.now to.old from start }
    ensures { GoesOn bytes.now to.new from result }
{
    let few = (bytes.len() - from) / 2 % UNITS;
    let run = convert_some(bytes, source, from, to, start, few);
    let plain = convert_plain(bytes, run.used, bytes.len(), to, run.made);
    if bytes.len() - plain.used < LANES {
        return plain;
    }
    convert_full(bytes, bytes.len() - LANES, plain.used, to, plain.made)
}

// How many of the next eight units come before the first surrogate among them.
#[tactic(auto, using(crate::proofs::LaneMasks::first_few))]
fn units_before(source: &[u8], at: usize) -> usize
    requires { at ≤ length source.now }
    ensures { result ≤ UNITS }
{
    if source.len() - at < LANES {
        return 0;
    }
    let units = units_of(u8x16::from_slice(&source[at..]));
    first_set(surrogate_units(units), UNITS)
}

// Goes on with the text of the characters that are fixed, with surrogates.
#[inline(never)]
#[tactic(auto, using(crate::proofs::Utf16Steps::ends_held))]
fn convert_from(bytes: &[u8], source: &[u8], after: Span, to: &mut [u8]) -> Span
    requires { ConvertsIn bytes.now source.now to.old after.used after.made }
    ensures text { take result.made to.new ≡ emit utf16.rest utf16.text bytes.now }
    ensures used { LeavesRest bytes.now 0 result.used }
    ensures short { 2 * result.made ≤ 3 * result.used }
{
    let mut run = after;
    loop {
        let n = units_before(source, run.used).min((bytes.len() - run.used) / 2);
        let done = convert_some(bytes, source, run.used, to, run.made, n);
        let next = convert_one(bytes, done.used, to, done.made);
        if next.used == done.used {
            return next;
        }
        run = convert_run(bytes, source, next.used, to, next.made);
    }
}

// Writes the text of the first units of a long piece, as `convert_blocks` does.
#[inline(always)]
fn convert_front(bytes: &[u8], to: &mut [u8]) -> Span
    requires room { length bytes.now ≤ 2 * length to.old }
    ensures { Converts bytes.now to.new result.used result.made }
{
    if bytes.len() < LONG {
        return Span { used: 0, made: 0 };
    }
    convert_blocks(bytes, 0, bytes.len(), to, 0)
}

/// Writes the text of the characters that are fixed. What follows the bytes in the source may be looked at.
#[inline(always)]
#[tactic(auto, using(crate::proofs::Utf16Steps::ends_short))]
pub fn convert(bytes: &[u8], source: &[u8], to: &mut [u8]) -> Span
    requires source { LiesIn bytes.now source.now }
    requires long { 3 * length bytes.now + 2 * LANES ≤ 2 * length to.old }
    ensures short { 2 * result.made ≤ 3 * result.used }
    ensures text { take result.made to.new ≡ emit utf16.rest utf16.text bytes.now }
    ensures used { LeavesRest bytes.now 0 result.used }
{
    let front = convert_front(bytes, to);
    let run = convert_run(bytes, source, front.used, to, front.made);
    if bytes.len() - run.used < 2 {
        return run;
    }
    convert_from(bytes, source, run, to)
}

// Goes on with the text of whole data, with surrogates, and returns its length. A high surrogate at the end has no partner.
#[inline(never)]
fn convert_last(bytes: &[u8], source: &[u8], after: Span, to: &mut [u8]) -> usize
    requires whole { length bytes.now % 2 ≡ 0 }
    requires before { ConvertsIn bytes.now source.now to.old after.used after.made }
    ensures short { 2 * result ≤ 3 * length bytes.now }
    ensures text { take result to.new ≡ utf16.text bytes.now }
{
    let done = convert_from(bytes, source, after, to);
    if done.used == bytes.len() {
        return done.made;
    }
    put_quoted(to, done.made, 0xFFFD)
}

// Ends the text of whole data after a run up to the first surrogate, and returns its length. A high surrogate at the end has no
// partner.
#[inline(always)]
fn convert_end(bytes: &[u8], source: &[u8], run: Span, to: &mut [u8]) -> usize
    requires whole { length bytes.now % 2 ≡ 0 }
    requires before { ConvertsIn bytes.now source.now to.old run.used run.made }
    ensures short { 2 * result ≤ 3 * length bytes.now }
    ensures text { take result to.new ≡ utf16.text bytes.now }
{
    if run.used == bytes.len() {
        return run.made;
    }
    convert_last(bytes, source, run, to)
}

// Writes the text of whole data, and returns its length. A high surrogate at the end has no partner.
#[inline(always)]
pub(crate) fn convert_whole(bytes: &[u8], source: &[u8], to: &mut [u8]) -> usize
    requires source { LiesIn bytes.now source.now }
    requires whole { length bytes.now % 2 ≡ 0 }
    requires room { 3 * length bytes.now + 2 * LANES ≤ 2 * length to.old }
    ensures short { 2 * result ≤ 3 * length bytes.now }
    ensures text { take result to.new ≡ utf16.text bytes.now }
{
    let run = convert_run(bytes, source, 0, to, 0);
    convert_end(bytes, source, run, to)
}

// Writes the text of long data as `convert_whole` does: by 32 units as long as all are characters of ASCII, by the units that are left
// over when eight are taken at a time, and then by eight and by sixteen in turn.
#[inline(always)]
pub(crate) fn convert_long(bytes: &[u8], source: &[u8], to: &mut [u8]) -> usize
    requires source { LiesIn bytes.now source.now }
    requires whole { length bytes.now % 2 ≡ 0 }
    requires room { 3 * length bytes.now + 2 * LANES ≤ 2 * length to.old }
    ensures short { 2 * result ≤ 3 * length bytes.now }
    ensures text { take result to.new ≡ utf16.text bytes.now }
{
    let front = convert_blocks(bytes, 0, bytes.len(), to, 0);
    let few = (bytes.len() - front.used) / 2 % UNITS;
    let some = convert_some(bytes, source, front.used, to, front.made, few);
    let run = convert_mixed::<true>(bytes, some.used, to, some.made);
    convert_end(bytes, source, run, to)
}

/// Writes the text of whole data of at most eight units, which are the first of these lanes, and returns its length.
#[inline(always)]
pub(crate) fn convert_few(bytes: &[u8], lanes: u8x16, to: &mut [u8]) -> usize
    requires few { length bytes.now ≤ 16 }
    requires lanes { LiesIn bytes.now lanes }
    requires whole { length bytes.now % 2 ≡ 0 }
    requires room { 3 * length bytes.now + 2 * LANES ≤ 2 * length to.old }
    ensures short { 2 * result ≤ 3 * length bytes.now }
    ensures text { take result to.new ≡ utf16.text bytes.now }
{
    let Some(made) = put_units(to, 0, lanes, bytes.len() / 2) else {
        return convert_last(bytes, bytes, Span { used: 0, made: 0 }, to);
    };
    made
}
