//! Limits of a run, and the areas of bounded room in which it keeps bytes.
#![tactic(auto)]

mod area;
mod areas;
mod limits;

pub use area::{Area, Full, OutOfMemory};
pub use areas::{Areas, NOTICE_ROOM, OUTPUT_ROOM, SMALL_ROOM, TOKEN_ROOM};
pub use limits::{
    GREATEST_COLUMN_ROOM, GREATEST_MAX_WIRE, GREATEST_PACKET_SIZE, LEAST_COLUMN_ROOM,
    LEAST_MAX_WIRE, LEAST_PACKET_SIZE, LimitFault, Limits,
};
