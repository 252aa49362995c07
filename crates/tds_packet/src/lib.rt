//! Faults, counted devices, and the payload of a message in packets (MS-TDS, Packets).
//!
//! # Calling it
//!
//! A [`Counted`] reader or writer counts the calls that failed. A [`Payload`] hands out the bytes of one message from
//! such a reader, whatever packets they came in, and holds one packet at most, in an area that is lent to it:
//!
//! ```text
//! let mut from = Counted::new(reader);
//! let mut payload = Payload::new(&mut from, &mut area, max_wire);
//! while !payload.at_end()? {
//!     let piece = payload.piece(4096)?; // bytes of one packet, as many as are there, lent in place
//! }
//! ```
//!
//! `next`, `fill` and `pass` take a byte, a slice and a number of bytes over the ends of packets. After a [`Stop`]
//! every call returns that stop again. [`recut`] writes a message in packets of another size. The tests of
//! `parts_tests/src/packet.rt` make each of these calls.
//!
//! # The way in
//!
//! `fault.rt` has the 21 faults and the places where they are found, `counted.rt` the devices, `packet.rt` a packet
//! from its header to its last byte, `payload.rt` what is made of packets. What packets are, and what comes of a reader
//! that ends or fails, is in `specs/Packets` and `specs/Coming`. `rig.rt` has devices for tests.
#![tactic(auto, using(crate::proofs::Passing::passed))]

mod answer;
mod counted;
mod fault;
pub mod laws;
mod packet;
mod payload;
mod recutting;
pub mod rig;

pub use answer::{Recut, RecutStop};
pub use counted::{Counted, Failed};
pub use fault::{Fault, Place, RefusedKind, Stop};
pub use payload::Payload;
pub use recutting::recut;
