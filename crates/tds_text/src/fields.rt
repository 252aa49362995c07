// The field of a whole value of a long kind, written to a slice.
ghost use Rattle.std.specs.Prelude.{◌≡◌, ◌⊎◌, ◌+◌, ◌*◌, ◌%◌, ◌<◌, ◌≤◌, ◌++◌, ◌∷◌, [], false, length, take, MatchOption};
ghost use Rattle.tds_text.specs.Conversion.{HexDigits, Utf16Text, Utf8Text, Windows1252Text, is_fit};
ghost use Rattle.tds_text.specs.Fields.{IsField, conversion_of, field_room};
ghost use Rattle.tds_text.specs.Plain.{LiesIn};
ghost use Rattle.tds_text.specs.Quoting.{quote};

use crate::framing::{BINARY_MARK, QUOTE};
use crate::lanes::{LANES, MANY};
use crate::lanes_hex::{encode, put_digits};
use crate::tight::write_tight;
use crate::utf16::LONG;
use crate::{utf8, utf16, windows_1252};
use std::simd::prelude::*;

// How many bytes of room a field may want besides its text.
const FIELD_SPARE: usize = 20;

/// What the data of a long value is.
#[derive(Clone, Copy)]
pub enum Content {
    /// Bytes, which become hexadecimal digits.
    Binary,
    /// Text in UTF-16, low byte first.
    Utf16,
    /// Text in the code page Windows-1252.
    Windows1252,
    /// Text in UTF-8.
    Utf8,
}

/// How many bytes of room the field of `n` bytes of data may want, a few to spare.
#[inline(always)]
pub fn field_room(content: Content, n: usize) -> usize
    requires { n ≤ 65535 }
    ensures { result ≡ field_room (conversion_of content) n }
{
    match content {
        Content::Binary => 2 * n + FIELD_SPARE,
        Content::Utf16 => n + n / 2 + FIELD_SPARE,
        Content::Windows1252 => 3 * n + FIELD_SPARE,
        Content::Utf8 => 2 * n + FIELD_SPARE,
    }
}

// Writes the quote after the text of a field, and returns how many bytes the field has.
#[inline(always)]
pub(crate) fn close_quoted(to: &mut [u8], made: usize) -> usize
    requires { made < length to.old }
    ensures end { result ≡ made + 1 }
    ensures text { take result to.new ≡ take made to.old ++ quote ∷ [] }
{
    to[made] = QUOTE;
    made + 1
}

// Writes binary data, the first `n` of these bytes, as a field.
fn write_binary(source: &[u8], n: usize, to: &mut [u8]) -> usize
    requires within { n ≤ length source.now }
    requires room { field_room HexDigits n ≤ length to.old }
    ensures { IsField HexDigits (take n source.now) to.new result }
{
    let end = 2 + 2 * n;
    to[0] = BINARY_MARK[0];
    to[1] = BINARY_MARK[1];
    if n <= LANES && source.len() >= LANES && to.len() >= 2 + 2 * LANES {
        put_digits(source, 0, &mut to[2..]);
        return end;
    }
    encode(&source[..n], &mut to[2..end]);
    end
}

// Writes text in UTF-16, the first `n` of these bytes, as a field.
#[inline(never)]
#[tactic(auto, using(crate::proofs::QuotedFields::closed, std::proofs::lemmas::Grind::common_steps))]
fn write_long_utf16(source: &[u8], n: usize, to: &mut [u8]) -> usize
    requires within { n ≤ length source.now }
    requires whole { n % 2 ≡ 0 }
    requires room { field_room Utf16Text n ≤ length to.old }
    ensures { IsField Utf16Text (take n source.now) to.new result }
{
    to[0] = QUOTE;
    let rest = &mut to[1..];
    let made = utf16::convert_long(&source[..n], source, rest);
    1 + close_quoted(rest, made)
}

/// Writes text in UTF-16, the first `n` of these bytes, as a field.
#[inline(never)]
#[tactic(auto, using(crate::proofs::QuotedFields::closed, std::proofs::lemmas::Grind::common_steps))]
pub fn write_utf16(source: &[u8], n: usize, to: &mut [u8]) -> usize
    requires within { n ≤ length source.now }
    requires whole { n % 2 ≡ 0 }
    requires room { field_room Utf16Text n ≤ length to.old }
    ensures { IsField Utf16Text (take n source.now) to.new result }
{
    if n >= LONG {
        return write_long_utf16(source, n, to);
    }
    to[0] = QUOTE;
    let rest = &mut to[1..];
    let made = utf16::convert_whole(&source[..n], source, rest);
    1 + close_quoted(rest, made)
}

/// Writes text in UTF-16 of at most eight units, which are the first of these lanes, as [`write_utf16`] does, without a call if none is
/// a surrogate.
#[inline(always)]
#[tactic(auto, using(crate::proofs::QuotedFields::quoted, std::proofs::lemmas::Grind::common_steps))]
pub fn write_few_utf16(units: &[u8], lanes: u8x16, to: &mut [u8]) -> usize
    requires few { length units.now ≤ 16 }
    requires lanes { LiesIn units.now lanes }
    requires whole { length units.now % 2 ≡ 0 }
    requires room { field_room Utf16Text (length units.now) ≤ length to.old }
    ensures { IsField Utf16Text units.now to.new result }
{
    to[0] = QUOTE;
    let made = utf16::convert_few(units, lanes, &mut to[1..]);
    close_quoted(to, 1 + made)
}

// Writes text in Windows-1252, the first `n` of these bytes, as a field.
#[inline(never)]
#[tactic(auto, using(crate::proofs::QuotedFields::quoted, std::proofs::lemmas::Grind::common_steps))]
fn write_long_windows_1252(source: &[u8], n: usize, to: &mut [u8]) -> usize
    requires within { n ≤ length source.now }
    requires room { field_room Windows1252Text n ≤ length to.old }
    ensures { IsField Windows1252Text (take n source.now) to.new result }
{
    to[0] = QUOTE;
    let made = windows_1252::convert(&source[..n], source, &mut to[1..]);
    close_quoted(to, 1 + made)
}

// Writes text in Windows-1252 as `write_long_windows_1252` does, which is called only if there are many bytes.
#[tactic(auto, using(crate::proofs::QuotedFields::quoted, std::proofs::lemmas::Grind::common_steps))]
fn write_windows_1252(source: &[u8], n: usize, to: &mut [u8]) -> usize
    requires within { n ≤ length source.now }
    requires room { field_room Windows1252Text n ≤ length to.old }
    ensures { IsField Windows1252Text (take n source.now) to.new result }
{
    if n >= MANY {
        return write_long_windows_1252(source, n, to);
    }
    to[0] = QUOTE;
    let made = windows_1252::convert_few(&source[..n], source, &mut to[1..]);
    close_quoted(to, 1 + made)
}

// Writes text in UTF-8, the first `n` of these bytes, as a field. `None` if they are no text.
#[inline(never)]
#[tactic(auto, using(crate::proofs::QuotedFields::quoted, std::proofs::lemmas::Grind::common_steps))]
fn write_utf8(source: &[u8], n: usize, to: &mut [u8]) -> Option<usize>
    requires within { n ≤ length source.now }
    requires room { field_room Utf8Text n ≤ length to.old }
    ensures { MatchOption result (is_fit Utf8Text (take n source.now) ≡ false)
        (λ made. IsField Utf8Text (take n source.now) to.new made) }
{
    to[0] = QUOTE;
    let made = utf8::convert_whole(&source[..n], source, &mut to[1..])?;
    Some(close_quoted(to, 1 + made))
}

/// Writes the field of a whole value, the first `n` of these bytes, to the front of a slice: `0x` and
/// digits, or the text in quotes. Returns how many bytes it has, or `None` if the data isn't whole: an odd
/// number of bytes in UTF-16, or bytes that are no UTF-8; or if it may want more room than there is
/// ([`field_room`]).
#[inline(always)]
pub fn write_field(content: Content, source: &[u8], n: usize, to: &mut [u8]) -> Option<usize>
    requires within { n ≤ length source.now }
    requires few { n ≤ 65535 }
    ensures gives { MatchOption result
        ((is_fit (conversion_of content) (take n source.now) ≡ false) ⊎ (length to.old < field_room (conversion_of content) n))
        (λ made. IsField (conversion_of content) (take n source.now) to.new made) }
{
    if to.len() < field_room(content, n) {
        return write_tight(source, n, to, content);
    }
    match content {
        Content::Binary => Some(write_binary(source, n, to)),
        Content::Windows1252 => Some(write_windows_1252(source, n, to)),
        Content::Utf16 => {
            if n % 2 == 1 {
                return None;
            }
            Some(write_utf16(source, n, to))
        }
        Content::Utf8 => write_utf8(source, n, to),
    }
}
