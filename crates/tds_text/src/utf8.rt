// Text in UTF-8, and where bytes stop being it.
ghost use Rattle.std.specs.Prelude.{◌≡◌, ◌+◌, ◌*◌, ◌≤◌, length, take, is_some, true, if◌then◌else◌, IfSome};
ghost use Rattle.std.specs.Str.{is_utf8};
ghost use Rattle.std.specs.Int.{is_in_range};
ghost use Rattle.tds_text.specs.Joining.{emit};
ghost use Rattle.tds_text.specs.Plain.{LiesIn};
ghost use Rattle.tds_text.specs.Quoting.{doubled};
ghost use Rattle.tds_text.specs.Utf8 as utf8;
ghost use Rattle.tds_text.specs.Utf8Scan.{BegunConverted, Converts, IsScan};

use crate::lanes::LANES;
use crate::{doubling, usual};
use tds_values::Span;

/// How many bytes a text has at least that is judged before it is converted: blocks of 64 are judged at once.
const LONG: usize = 64;

/// What is found in bytes: how many of the first are whole characters, and how many begin a text.
#[derive(Clone, Copy)]
pub struct Scan {
    pub whole: usize,
    pub good: usize,
}

// How many bytes of a fault could begin a character, by its first byte and its length.
fn good_of(first: u8, len: usize) -> usize
    ensures { result ≡ (if is_in_range 0xC2 0xF4 first then len else 0) }
{
    if 0xC2 <= first && first <= 0xF4 {
        len
    } else {
        0
    }
}

/// How many of the first bytes are whole characters, and how many begin a text.
#[tactic(auto, using(crate::proofs::Utf8Laws::scan_laws, std::proofs::lemmas::Grind::common_steps))]
pub fn scan_text(bytes: &[u8]) -> Scan
    ensures text { emit utf8.rest utf8.text bytes.now ≡ doubled (take result.whole bytes.now) }
    ensures scan { IsScan bytes.now result.whole result.good }
{
    match simdutf8::compat::from_utf8(bytes) {
        Ok(_) => Scan {
            whole: bytes.len(),
            good: bytes.len(),
        },
        Err(error) => {
            let whole = error.valid_up_to();
            let good = match error.error_len() {
                Some(len) => whole + good_of(bytes[whole], len),
                None => bytes.len(),
            };
            Scan { whole, good }
        }
    }
}

// Writes the text of the first bytes, as far as it is of the usual characters, if there are few bytes.
#[inline(always)]
fn convert_front(bytes: &[u8], source: &[u8], to: &mut [u8]) -> Span
    requires source { LiesIn bytes.now source.now }
    requires room { 2 * length bytes.now + LANES ≤ length to.old }
    ensures { Converts bytes.now to.new result.used result.made }
{
    if bytes.len() < LONG {
        return usual::convert_front(bytes, source, to);
    }
    Span { used: 0, made: 0 }
}

// Writes the text of bytes, all of which are judged first, and returns its length. `None` if they are no text.
#[inline(never)]
#[tactic(auto, using(crate::proofs::ConversionLaws::utf8_tests, std::proofs::lemmas::Grind::common_steps))]
fn convert_judged(bytes: &[u8], to: &mut [u8]) -> Option<usize>
    requires room { 2 * length bytes.now + LANES ≤ length to.old }
    ensures fit { is_some result ≡ is_utf8 bytes.now }
    ensures short { IfSome result (λ made. made ≤ 2 * length bytes.now) }
    ensures text { IfSome result (λ made. take made to.new ≡ utf8.text bytes.now) }
{
    if simdutf8::compat::from_utf8(bytes).is_err() {
        return None;
    }
    Some(doubling::convert(bytes, to))
}

// Writes the text of bytes, if there is surely room for it, and returns its length. `None` also if they are no text.
#[inline(never)]
pub(crate) fn convert_within(bytes: &[u8], to: &mut [u8]) -> Option<usize>
    ensures most { IfSome result (λ made. made + LANES ≤ length to.old) }
    ensures fit { IfSome result (λ _. is_utf8 bytes.now ≡ true) }
    ensures text { IfSome result (λ made. take made to.new ≡ utf8.text bytes.now) }
{
    if simdutf8::compat::from_utf8(bytes).is_err() {
        return None;
    }
    doubling::convert_within(bytes, to)
}

// Writes the text of bytes, and returns its length. `None` if they are no text. What follows them in the source may be looked at.
pub(crate) fn convert_whole(bytes: &[u8], source: &[u8], to: &mut [u8]) -> Option<usize>
    requires source { LiesIn bytes.now source.now }
    requires room { 2 * length bytes.now + LANES ≤ length to.old }
    ensures fit { is_some result ≡ is_utf8 bytes.now }
    ensures short { IfSome result (λ made. made ≤ 2 * length bytes.now) }
    ensures text { IfSome result (λ made. take made to.new ≡ utf8.text bytes.now) }
{
    let front = convert_front(bytes, source, to);
    if front.used == bytes.len() {
        return Some(front.made);
    }
    convert_judged(bytes, to)
}

// Goes on with the text of the whole characters of bytes. `None` if they begin no text.
#[inline(never)]
fn convert_rest(bytes: &[u8], after: Span, to: &mut [u8]) -> Option<Span>
    requires room { 2 * length bytes.now + LANES ≤ length to.old }
    requires before { Converts bytes.now to.old after.used after.made }
    ensures { BegunConverted bytes.now to.new result }
{
    let rest = &bytes[after.used..];
    let scan = scan_text(rest);
    if scan.good < rest.len() {
        return None;
    }
    let made = doubling::convert(&rest[..scan.whole], &mut to[after.made..]);
    Some(Span {
        used: after.used + scan.whole,
        made: after.made + made,
    })
}

/// Writes the text of the whole characters of bytes, and says how many those have. `None` if the bytes begin no text. What follows
/// them in the source may be looked at.
pub fn convert_begun(bytes: &[u8], source: &[u8], to: &mut [u8]) -> Option<Span>
    requires source { LiesIn bytes.now source.now }
    requires room { 2 * length bytes.now + LANES ≤ length to.old }
    ensures { BegunConverted bytes.now to.new result }
{
    let front = convert_front(bytes, source, to);
    if front.used == bytes.len() {
        return Some(front);
    }
    convert_rest(bytes, front, to)
}
