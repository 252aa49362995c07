//! The kinds of column of a TDS 7.4 result, the character sets of their text, and the values and texts of
//! the scalar kinds (MS-TDS, Data Type Definitions).
//!
//! # Calling it
//!
//! A [`Kind`] is what type information says of a column. `write_scalar` judges the bytes of a value of a scalar kind
//! and writes its text to the front of a slice of [`TEXT_ROOM`] bytes:
//!
//! ```text
//! let mut to = [0; TEXT_ROOM];
//! let made = write_scalar::<false>(&Kind::Int4, &[42, 0, 0, 0], &mut to)?; // to[..made] is "42"
//! ```
//!
//! `read_scalar` returns the value itself and `scalar_text` its text, by crates of the kit: slower, and the same by
//! their contracts. The tests of `parts_tests/src/values` make both calls for each kind.
//!
//! # The way in
//!
//! `kind.rt` has the kinds, `scalar.rt` the values and what is refused, `write.rt` the text of each kind, `front.rt`
//! that of a value with other bytes after it, and `text.rt` that of each value. Below them are `numbers.rt`, `wide.rt` (decimals of up to 128 bits), `moments.rt`,
//! `guid.rt`, `lanes.rt`, `digits.rt`, and `tables.rt` with texts that are looked up. What a value and its text are is
//! in `specs/Scalar` and `specs/ScalarText`.
#![tactic(auto)]

mod charset;
mod digits;
mod front;
mod guid;
mod kind;
mod lanes;
mod laws;
mod moments;
mod numbers;
mod ranges;
mod reference_text;
mod scalar;
mod span;
mod tables;
mod text;
mod wide;
mod write;

pub use charset::Charset;
pub use digits::put_byte;
pub use front::{FRONT_SIZE, write_front};
pub use kind::{Kind, Reach};
pub use lanes::hex_lanes;
pub use laws::{one_date, one_type_info, short_texts};
pub use reference_text::{ScalarText, scalar_text, text_room};
pub use scalar::{Scalar, ScalarValue, ValueFault, read_scalar};
pub use span::Span;
pub use text::{LONGEST_TEXT, TEXT_ROOM};
pub use write::{INTEGER_ROOM, LONGEST_INT4, write_int4, write_scalar};
