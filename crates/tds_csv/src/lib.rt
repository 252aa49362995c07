//! Text on its way to a writer, and values that come in pieces, as fields of CSV (RFC 4180).
//!
//! # Calling it
//!
//! A [`Sink`] holds text in an area that is lent to it, and delivers it to a writer in blocks of 4,096 bytes. A
//! [`Joiner`] puts the text of a value whose bytes come in pieces, cut anywhere:
//!
//! ```text
//! let mut sink = Sink::new(&mut to, &mut area);
//! let mut joiner = Utf16Joiner::new();
//! sink.open_quoted()?;
//! joiner.push(first, &mut sink)?;
//! joiner.push(second, &mut sink)?;
//! joiner.end(&mut sink)?;
//! sink.close_quoted()?;
//! sink.finish()?; // all of it is delivered
//! ```
//!
//! The tests of `parts_tests/src/csv.rt` make these calls, with values cut at each place.
//!
//! # The way in
//!
//! `sink.rt` has the sink, `names.rt` the field of a column's name, and `joiners/` a file for each kind of data.
//! `tds_text` converts the bytes. `specs/Sinks` says what a sink has put.
#![tactic(auto)]

mod joiners;
mod laws;
mod names;
mod sink;

pub use joiners::bytewise::{Cp1252Joiner, HexJoiner};
pub use joiners::into_area::utf16_into;
pub use joiners::utf8::Utf8Joiner;
pub use joiners::utf16::Utf16Joiner;
pub use joiners::{JoinFault, Joiner};
pub use laws::joiners_suit;
pub use names::{name_room, put_name, write_name};
pub use sink::Sink;
