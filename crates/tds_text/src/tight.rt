// The field of text where there isn't room for any of that length: text of ASCII without quotes, for which there is a byte for each
// character and a few more, and other text if any has room from some place on.
ghost use Rattle.std.specs.Prelude.{◌≡◌, ◌+◌, ◌*◌, ◌/◌, ◌%◌, ◌≤◌, length, take, true, IfSome};
ghost use Rattle.tds_text.specs.Conversion.{Utf16Text, Utf8Text, Windows1252Text};
ghost use Rattle.tds_text.specs.Fields.{IsField, conversion_of};
ghost use Rattle.tds_text.specs.Plain.{ArePlain, LiesIn};
ghost use Rattle.tds_text.specs.Utf16 as utf16;

use crate::beyond_ascii::put_units;
use crate::encode::{put_plain, take_plain};
use crate::fields::{Content, close_quoted};
use crate::framing::QUOTE;
use crate::lanes::{BLOCK, LANES, WIDE};
use crate::lanes_utf16::{MANY_UNITS, UNITS, units_of, wide_units};
use crate::utf16::{convert_ascii, convert_mixed, convert_whole};
use crate::{utf8, windows_1252};
use std::simd::prelude::*;

// How many bytes of room such a field wants besides one for each character.
const SPARE: usize = 50;

// How many of the first eight units of text in UTF-16 may have longer texts: of text with more there is seldom room for all.
const MOST_WIDE: u32 = 2;

// Writes the text of whole data in UTF-16, if most of its first eight units have a byte of text each, up to where there is room for
// any text of those that are left.
#[inline(always)]
fn convert_utf16(bytes: &[u8], to: &mut [u8]) -> Option<usize>
    requires many { WIDE ≤ length bytes.now }
    requires whole { length bytes.now % 2 ≡ 0 }
    requires room { length bytes.now / 2 + 49 ≤ length to.old }
    ensures most { IfSome result (λ made. made + 3 ≤ length to.old) }
    ensures text { IfSome result (λ made. take made to.new ≡ utf16.text bytes.now) }
{
    let front = u8x16::from_slice(bytes);
    if wide_units(units_of(front)).count_ones() > MOST_WIDE {
        return None;
    }
    let few = bytes.len() / 2 % MANY_UNITS;
    let some = few % UNITS;
    let first = put_units(to, 0, front, some)?;
    let second = put_units(to, first, u8x16::from_slice(&bytes[2 * some..]), few - some)?;
    let plain = convert_ascii(bytes, 2 * few, bytes.len(), to, second);
    let run = convert_mixed::<false>(bytes, plain.used, to, plain.made);
    let (rest, room) = (&bytes[run.used..], &mut to[run.made..]);
    if rest.len() + rest.len() / 2 + LANES > room.len() {
        return None;
    }
    Some(run.made + convert_whole(rest, rest, room))
}

// Writes text in UTF-16, the first `n` of these bytes, as a field.
#[tactic(auto, using(crate::proofs::QuotedFields::quoted, std::proofs::lemmas::Grind::common_steps))]
fn write_utf16(source: &[u8], n: usize, to: &mut [u8]) -> Option<usize>
    requires within { n ≤ length source.now }
    ensures { IfSome result (λ made. IsField Utf16Text (take n source.now) to.new made) }
{
    if n % 2 == 1 || n < WIDE || to.len() < n / 2 + SPARE {
        return None;
    }
    to[0] = QUOTE;
    let made = convert_utf16(&source[..n], &mut to[1..])?;
    Some(close_quoted(to, 1 + made))
}

// Writes bytes as they are, and returns whether it did: if all of them are of ASCII and none is a quote. What follows them in the
// source may be looked at.
#[inline(always)]
fn put_all_plain(bytes: &[u8], source: &[u8], to: &mut [u8]) -> bool
    requires source { LiesIn bytes.now source.now }
    requires room { length bytes.now + LANES ≤ length to.old }
    ensures plain { result ≡ true → ArePlain bytes.now }
    ensures text { result ≡ true → take (length bytes.now) to.new ≡ bytes.now }
{
    let many = put_plain::<BLOCK>(bytes, 0, to);
    let mut at = put_plain::<WIDE>(bytes, many, to);
    while at < bytes.len() {
        if source.len() - at < LANES {
            return false;
        }
        let n = take_plain::<LANES>(bytes, source, at, to, at);
        at += n;
        if n < LANES && at < bytes.len() {
            return false;
        }
    }
    true
}

// Writes text in Windows-1252, the first `n` of these bytes, as a field.
#[tactic(auto, using(crate::proofs::QuotedFields::quoted, crate::proofs::Singles::plain_text, std::proofs::lemmas::Grind::common_steps))]
fn write_windows_1252(source: &[u8], n: usize, to: &mut [u8]) -> Option<usize>
    requires within { n ≤ length source.now }
    ensures { IfSome result (λ made. IsField Windows1252Text (take n source.now) to.new made) }
{
    if to.len() < n + SPARE {
        return None;
    }
    to[0] = QUOTE;
    if put_all_plain(&source[..n], source, &mut to[1..]) {
        return Some(close_quoted(to, 1 + n));
    }
    let made = windows_1252::convert_within(&source[..n], source, &mut to[1..])?;
    Some(close_quoted(to, 1 + made))
}

// Writes text in UTF-8, the first `n` of these bytes, as a field.
#[tactic(auto, using(crate::proofs::QuotedFields::quoted, std::proofs::lemmas::Grind::common_steps))]
fn write_utf8(source: &[u8], n: usize, to: &mut [u8]) -> Option<usize>
    requires within { n ≤ length source.now }
    ensures { IfSome result (λ made. IsField Utf8Text (take n source.now) to.new made) }
{
    if to.len() < n + SPARE {
        return None;
    }
    to[0] = QUOTE;
    if put_all_plain(&source[..n], source, &mut to[1..]) {
        return Some(close_quoted(to, 1 + n));
    }
    let made = utf8::convert_within(&source[..n], &mut to[1..])?;
    Some(close_quoted(to, 1 + made))
}

/// Writes the field of a whole value as [`write_field`](crate::write_field) does, for which there isn't the room that any text
/// may want, or returns `None`. It tries text for which there is a byte for each of its bytes, or of its units in UTF-16, and 50
/// to spare: that of ASCII without quotes, and other text if any has room from some place on. In UTF-16 it tries 16 units or
/// more, of which at most two of the first eight have longer texts.
#[inline(never)]
pub(crate) fn write_tight(source: &[u8], n: usize, to: &mut [u8], content: Content) -> Option<usize>
    requires within { n ≤ length source.now }
    ensures { IfSome result (λ made. IsField (conversion_of content) (take n source.now) to.new made) }
{
    match content {
        Content::Binary => None,
        Content::Utf16 => write_utf16(source, n, to),
        Content::Windows1252 => write_windows_1252(source, n, to),
        Content::Utf8 => write_utf8(source, n, to),
    }
}
