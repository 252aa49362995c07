//! The text of character and binary data, and the fields of CSV (RFC 4180), from a slice to a slice.
//!
//! # Calling it
//!
//! `write_field` writes the field of a value whose bytes are together, `write_null`, `write_comma` and
//! `write_line_end` write what is around fields. Of data that comes in pieces a [`Bytewise`] writes the text of bytes
//! that each stand alone, `utf16::convert` that of the characters that are whole, and `utf8::scan_text` says where bytes
//! stop being text.
//!
//! # The way in
//!
//! `fields.rt` and `framing.rt` have the fields and what is around them, `tight.rt` those at the end of the room. `usual.rt` has the loop for short text in
//! UTF-8, `beyond_ascii.rt` the text of units beyond ASCII, `encode.rt` that of one character, and the other files what
//! is done with vectors of bytes. `specs/Conversion` says what the text of data is, and `specs/Quoting` what a field is.
#![tactic(auto)]

mod beyond_ascii;
mod bytewise;
mod doubling;
pub mod encode;
mod fields;
pub mod framing;
pub mod lanes;
mod lanes_hex;
mod lanes_utf16;
mod laws;
mod places;
mod tight;
mod usual;
pub mod utf16;
pub mod utf8;
mod windows_1252;

pub use bytewise::{Bytewise, Hex, QuoteEscaped, Windows1252};
pub use fields::{Content, field_room, write_few_utf16, write_field, write_utf16};
pub use framing::{COMMA, NULL_ROOM, write_comma, write_line_end, write_null};
pub use laws::begins_by_test;
