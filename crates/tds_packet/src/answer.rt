// What a recut returns.

use crate::fault::Stop;

/// What a recut wrote: its packets, and their payload bytes.
#[derive(Debug, Clone, Copy, PartialEq, Eq)]
pub struct Recut {
    pub packets: u64,
    pub payload: u64,
}

/// Why a recut stopped, how many bytes the writer took, and how many of the packet under way it
/// didn't take.
#[derive(Debug, Clone, Copy, PartialEq, Eq)]
pub struct RecutStop {
    pub stop: Stop,
    pub written: u64,
    pub unwritten: u64,
}
