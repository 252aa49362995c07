// Values of a RETURNVALUE, which are passed over, and where reading them stops. `examples/worked.txt` has more of them.
use super::in_packets;
use crate::checks::expect_at;
use std::alloc::{AllocError, Global};
use std::test::Fail;
use tds_meter::{Area, SMALL_ROOM};
use tds_packet::rig::ScriptedReader;
use tds_packet::{Counted, Fault, Payload, Place, Stop};
use tds_rows::pass_over;
use tds_values::{Kind, Reach};

// A value of a kind, the place after it, or the stop, and the most bytes that the small area had.
struct Value {
    what: &'static str,
    kind: Kind,
    bytes: &'static [u8],
    answer: Result<u64, Stop>,
    peak: usize,
}

const VALUES: [Value; 4] = [
    Value {
        what: "a whole number",
        kind: Kind::IntN(4),
        bytes: &[4, 7, 0, 0, 0],
        answer: Ok(5),
        peak: 5,
    },
    Value {
        what: "any bytes of narrow text",
        kind: Kind::Narrow(Reach::Short),
        bytes: &[3, 0, 0x81, 0xC0, 0x80],
        answer: Ok(5),
        peak: 0,
    },
    Value {
        what: "a length that isn't allowed",
        kind: Kind::IntN(4),
        bytes: &[2, 7, 0, 0, 0],
        answer: Err(Stop {
            fault: Fault::BadValueLength { column: 65535 },
            place: Place::Payload(0),
        }),
        peak: 1,
    },
    Value {
        what: "a chunk that passes the total",
        kind: Kind::Binary(Reach::Chunked),
        bytes: &[3, 0, 0, 0, 0, 0, 0, 0, 4, 0, 0, 0],
        answer: Err(Stop {
            fault: Fault::PlpLength { column: 65535 },
            place: Place::Payload(8),
        }),
        peak: 0,
    },
];

// Passes over a value in packets of `size` bytes of the payload.
fn came(alloc: Global, value: &Value, size: usize) -> Result<(Result<u64, Stop>, usize), Fail> {
    if !value.kind.is_valid() {
        return Err(Fail::from(AllocError));
    }
    let wire = in_packets(alloc, value.bytes, size)?;
    let mut from = Counted::new(ScriptedReader::new(&wire, 5));
    let mut packet = Area::new(alloc, 4096)?;
    let mut small = Area::new(alloc, SMALL_ROOM)?;
    let mut payload = Payload::new(&mut from, &mut packet, 1_000_000);
    let answer = match pass_over(&mut payload, &value.kind, &mut small) {
        Ok(()) => Ok(payload.place()),
        Err(stop) => Err(stop),
    };
    Ok((answer, small.peak()))
}

#[test]
fn values_are_passed_over(rt: HostRuntime) -> Result<(), Fail> {
    for value in &VALUES {
        for size in [1, 3, 4000] {
            let out = came(rt.alloc(), value, size)?;
            expect_at(&rt, value.what, size, out == (value.answer, value.peak));
        }
    }
    Ok(())
}
