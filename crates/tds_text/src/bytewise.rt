// Conversions in which each byte has a text of its own.
ghost use Rattle.std.specs.Prelude.{◌+◌, ◌*◌, ◌≤◌, List, ℕ, length};
ghost use Rattle.tds_text.specs.Binary as binary;
ghost use Rattle.tds_text.specs.Joining.{HasPart, HasText, IsBytewise};
ghost use Rattle.tds_text.specs.Plain.{LiesIn};
ghost use Rattle.tds_text.specs.Quoting.{doubled};
ghost use Rattle.tds_text.specs.Windows1252 as windows_1252;

use crate::lanes::{LANES, PART, WIDE};
use crate::lanes_hex::encode;
use crate::{doubling, lanes_hex, windows_1252};
use tds_values::Span;

/// A conversion in which each byte has a text of its own.
pub trait Bytewise {
    /// The text of bytes.
    ghost text: { List ℕ → List ℕ };

    /// Writes the text of bytes, and returns its length. What follows them in the source may be looked at.
    fn convert(bytes: &[u8], source: &[u8], to: &mut [u8]) -> usize
        requires source { LiesIn bytes.now source.now }
        requires room { 3 * length bytes.now + LANES ≤ length to.old }
        ensures { HasText text bytes.now to.new result };

    /// Writes the text of the first bytes, as far as there is room, and says how many those are.
    fn convert_part(bytes: &[u8], to: &mut [u8]) -> Span
        requires wide { WIDE ≤ length bytes.now }
        requires room { PART ≤ length to.old }
        ensures { HasPart text bytes.now to.new result.used result.made };

    /// Does nothing: its clause is the law of the text.
    fn laws()
        ensures { IsBytewise text };
}

/// The digits of bytes.
pub struct Hex;

impl Bytewise for Hex {
    ghost text = { binary.text };

    fn convert(bytes: &[u8], source: &[u8], to: &mut [u8]) -> usize {
        lanes_hex::convert(bytes, source, to)
    }

    fn convert_part(bytes: &[u8], to: &mut [u8]) -> Span {
        let used = bytes.len().min(to.len() / 2) / LANES * LANES;
        let made = 2 * used;
        encode(&bytes[..used], &mut to[..made]);
        Span { used, made }
    }

    #[tactic(auto, using(crate::proofs::SingleLaws::hex_laws))]
    fn laws() {}
}

/// The text of bytes in Windows-1252.
pub struct Windows1252;

impl Bytewise for Windows1252 {
    ghost text = { windows_1252.text };

    fn convert(bytes: &[u8], source: &[u8], to: &mut [u8]) -> usize {
        windows_1252::convert(bytes, source, to)
    }

    fn convert_part(bytes: &[u8], to: &mut [u8]) -> Span {
        windows_1252::convert_wide(bytes, to)
    }

    fn laws() {}
}

/// Text in UTF-8 whose quotes are doubled.
pub struct QuoteEscaped;

impl Bytewise for QuoteEscaped {
    ghost text = { doubled };

    fn convert(bytes: &[u8], _source: &[u8], to: &mut [u8]) -> usize {
        doubling::convert(bytes, to)
    }

    fn convert_part(bytes: &[u8], to: &mut [u8]) -> Span {
        doubling::convert_wide(bytes, to)
    }

    fn laws() {}
}
