//! Cells and runs of cells that are whole in a packet, written from a slice to a slice (MS-TDS, ROW, NBCROW and Data
//! Stream Types).
//!
//! A [`RowFormat`] knows of each column of a description, or of the first 1,024, how its cells are written: its [`CellFormat`]. A
//! run writes the text of cell after cell, from a place in a row, as far as their bytes are whole and there is room, and
//! says how many bytes it used and made, and where it ended. Nothing is read or delivered here, and no fault is named: a
//! cell that isn't whole or is refused is left to the caller, and so may be one that comes in several chunks or may want more
//! room; `write_one` says why ([`Left`]).
//!
//! # The way in
//!
//! `layout.rt` has the formats, `row_format.rt` the row formats and the places in a row, `whole.rt` one cell, and `chunks.rt` a
//! value in several chunks. `run.rt` has the loops over the cells of ROWs, with those over formats in `run/formats.rt`, and
//! `nulls.rt` those of NBCROWs. `specs/Cells` and `specs/Rows` have the one grammar of cells and rows, to which `tds_rows` is
//! held too.
#![tactic(auto, using(tds_packet::proofs::Passing::passed))]

mod chunks;
pub mod laws;
mod layout;
mod nulls;
mod row_format;
mod run;
mod whole;

pub use layout::{CellFormat, Layout};
pub use nulls::{NBCROW, Nulls, WholeRows, bitmap_size};
pub use row_format::{
    Cursor, FEW_COLUMNS, Learnt, MANY_COLUMNS, ROW, RowFormat, SOME_COLUMNS, blank,
};
pub use run::RowsSpan;
pub use whole::{CELL_ROOM, LOOKAHEAD, Left, NULL_LENGTH, NULL_TOTAL, UNKNOWN_TOTAL};
