// What an export returns.
use tds_packet::{Fault, Place};

/// The first error that the server reported (MS-TDS, ERROR).
#[derive(Debug, Clone, Copy, PartialEq, Eq)]
pub struct ServerError {
    pub number: i32,
    pub state: u8,
    pub class: u8,
    pub line: i32,
}

/// What a response reported. All counts are exact.
#[derive(Debug, Clone, Copy, PartialEq, Eq)]
pub struct Report {
    /// The descriptions with columns, each of which begins a set.
    pub sets: u64,
    /// The rows of all sets.
    pub rows: u64,
    /// The errors that the server reported.
    pub errors: u64,
    /// Its messages that are no errors.
    pub infos: u64,
    /// The first of the errors.
    pub first_error: Option<ServerError>,
    /// The last status that a procedure returned.
    pub return_status: Option<i32>,
    /// The bytes of the text.
    pub written: u64,
    /// The values that procedures returned.
    pub return_values: u64,
}

/// What stopped an export: the first fault and its place, the bytes that the writer took, and those
/// that wait in the output area.
#[derive(Debug, Clone, Copy, PartialEq, Eq)]
pub struct Stopped {
    pub fault: Fault,
    pub place: Place,
    pub written: u64,
    pub unwritten: u64,
}
