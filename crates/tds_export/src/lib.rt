//! Reads one response of SQL Server and writes the rows of its result sets as quoted CSV in UTF-8
//! while they come (MS-TDS, Packet Data Token Stream Definition).
//!
//! # Calling it
//!
//! [`export`] is the one call. A caller makes, in this order:
//!
//! ```text
//! let limits = Limits::new(4096, 1_048_576, 1 << 40)?; // greatest packet, column room, wire bytes
//! let mut areas = Areas::new(alloc, limits)?; // the last call that takes memory
//! let mut from = Counted::new(reader); // anything that reads
//! let mut to = Counted::new(writer); // anything that writes
//! match export(&mut areas, &mut from, &mut to, Charset::Windows1252) {
//!     Ok(report) => report.rows, // all of the response was read and all of its text written
//!     Err(stopped) => stopped.written, // up to stopped.place, where stopped.fault was found
//! };
//! ```
//!
//! The crate `example` is a whole program that does this. The areas are made once and serve any number
//! of exports, one after another, whatever their results: `export` begins by restarting them. Each
//! call needs a counted reader that is at the first byte of a packet. After a whole message the
//! reader is at the first byte of what follows it, so the next response can be exported from it.
//!
//! A set begins with a line of its column names, each row is a line, and an empty line separates
//! two sets. What the server said besides the rows is in the [`Report`]: how many sets, rows, errors and
//! messages there were, the first error, the last return status.
//!
//! # What each result leaves
//!
//! - After a [`Report`] the writer has all of the text and is flushed, nothing waits, and the reader
//!   has given the packets of the message and not one byte more. `areas.error_text()` has the message of
//!   the first error, if there was one, until the next export. An error of the server is a part of a
//!   response, so look at `report.errors`: the result is `Ok` all the same.
//! - After a fault of the input ([`Stopped`], at a place of the payload or of the wire) the text of all
//!   that was read before the fault is still delivered. Nothing is taken back: the last line may be open, and a
//!   caller who needs only whole responses has to drop it. If the fault names a refused element, no
//!   bytes after it would make a response of what was read, so asking again for the rest is no use.
//! - After a failed write (`WriteFailed`, at a place of the text) the writer took the first `written`
//!   bytes of the text, the next `unwritten` are in `areas.waiting()`, and the input isn't read further.
//! - After a failed read the text of what came before it is delivered, as after a fault of the input.
//!
//! No call panics, waits for more than the reader and the writer do, or takes memory.
//!
//! # Changing it
//!
//! `run.rt` has the call, `exporter.rt` the course of a run with a method for each kind of token,
//! `tokens.rt` what a token's first byte means, `header.rt` the header line of a set, `notice.rt` and
//! `return_value.rt` the bodies that are judged here, `progress.rt` and `report.rt` what is counted.
//!
//! - The definitions come first. `specs/TokenGrammar` says how each token is read, element by element, and the
//!   contract of `export` (`specs/Outcome`, `specs/Exports`) is stated over it and over whole responses and their
//!   text (`specs/Response`, `specs/Tokens`). Code that reads otherwise isn't proved; a change of the grammar that
//!   no code follows isn't either.
//! - Each method of the exporter is one step from a state of the grammar to another, for success and for each
//!   stop (`specs/Steps`). A stop names the first fault of the element that is read, never a later one, and
//!   leaves the text of what came before it.
//! - An area is borrowed by itself, so that columns can be looked at in the description area while the payload
//!   moves on. What stays from one read to the next is in an area, but for the 3 bytes at most that a joiner
//!   withholds: no method here keeps bytes of its own.
//! - Rows are the hot path. What is in the packet goes to the output area once, by runs of cells in `tds_rows`;
//!   nothing is done here for each cell, and nothing but a count for each row.
#![tactic(auto)]

mod exporter;
mod header;
pub mod laws;
mod notice;
mod progress;
mod report;
mod return_value;
mod run;
mod token_bytes;
mod tokens;

pub use report::{Report, ServerError, Stopped};
pub use run::export;
pub use tds_values::Charset;
