// Payloads written anew, by devices that give and take few bytes a call or fail. `examples/worked.txt` has more, by the
// program.
ghost use Rattle.std.specs.Prelude.{◌≤◌};

use super::*;
use crate::checks::{expect, expect_at};
use std::io::Write;

// So many bytes, no two neighbours alike.
fn some_bytes(alloc: Global, n: usize) -> Result<Vec<u8>, AllocError> {
    let mut bytes = Vec::new(alloc);
    for i in 0..n {
        bytes.push((i % 251) as u8)?;
    }
    Ok(bytes)
}

// The header of a packet with a body of `body` bytes.
fn header(last: bool, id: u8, body: usize) -> [u8; 8] {
    let [high, low] = ((8 + body.min(1000)) as u16).to_be_bytes();
    [0x04, u8::from(last), high, low, 0x00, 0x00, id, 0x00]
}

// A payload in packets with bodies of at most `most` bytes, numbered from 1 on.
fn in_packets(alloc: Global, payload: &[u8], most: usize) -> Result<Vec<u8>, AllocError> {
    let mut wire = Vec::new(alloc);
    let mut left = payload;
    for i in 0..1000u32 {
        let n = left.len().min(most);
        let last = n == left.len();
        wire.extend_from_slice(&header(last, ((i + 1) % 256) as u8, n))?;
        wire.extend_from_slice(&left[..n])?;
        left = &left[n..];
        if last {
            break;
        }
    }
    Ok(wire)
}

// What came of recutting.
#[derive(Clone, Copy, PartialEq, Eq)]
struct RecutOutcome {
    answer: Result<Recut, RecutStop>,
    // how many bytes the writer took, the first of those that are wanted
    written: Option<usize>,
    flushes: usize,
}

// Recuts to packets of `size` bytes.
fn recut_to<R: Read, W: Write>(
    alloc: Global,
    size: usize,
    from: &mut Counted<R>,
    to: &mut Counted<W>,
) -> Result<Result<Recut, RecutStop>, Fail>
    requires { (512 ≤ size) × (size ≤ 32767) }
{
    let mut input = Area::new(alloc, 512)?;
    let mut output = Area::new(alloc, size)?;
    Ok(recut(from, to, &mut input, &mut output, 1_000_000))
}

// What came of recutting, where these bytes are wanted, and how many bytes were left.
fn recut_wire(
    alloc: Global,
    size: usize,
    wire: ScriptedReader<'_>,
    to: ScriptedWriter,
    wanted: &[u8],
) -> Result<(RecutOutcome, usize), Fail> {
    let mut from = Counted::new(wire);
    let mut to = Counted::new(to);
    let answer = recut_to(alloc, size.max(512).min(32767), &mut from, &mut to)?;
    let device = to.device();
    let out = RecutOutcome {
        answer,
        written: front_of(device.kept(), wanted),
        flushes: device.flushes(),
    };
    Ok((out, from.device().left().len()))
}

// All was written, `written` bytes.
const fn all_of(packets: usize, payload: usize, written: usize) -> RecutOutcome {
    RecutOutcome {
        answer: Ok(Recut {
            packets: packets as u64,
            payload: payload as u64,
        }),
        written: Some(written),
        flushes: 1,
    }
}

// What came of the packet's body in packets of one byte each, where devices give and take so much.
fn recut_single_bytes(
    alloc: Global,
    empty: bool,
    most: usize,
    taken: usize,
) -> Result<RecutOutcome, Fail> {
    let wire = in_single_bytes(alloc, empty)?;
    let reader = ScriptedReader::new(&wire, most);
    let writer = ScriptedWriter::new(taken, Failing::Never);
    let (out, _) = recut_wire(alloc, 512, reader, writer, &PACKET)?;
    Ok(out)
}

#[test]
fn small_packets_become_one(rt: HostRuntime) -> Result<(), Fail> {
    for (name, empty, most, taken) in [
        ("a byte a read", false, 1, 1000),
        ("a byte a write", false, 1000, 1),
        ("empty packets between", true, 1000, 1000),
    ] {
        let out = recut_single_bytes(rt.alloc(), empty, most, taken)?;
        expect(&rt, name, out == all_of(1, 31, 39));
    }
    Ok(())
}

// The input is over, or its reader fails, after `cut` bytes of the wire.
fn cut_at(wire: &[u8], cut: usize, fault: Fault) -> ScriptedReader<'_> {
    match fault {
        Fault::ReadFailed => ScriptedReader::failing(wire, 1000, cut),
        _ => ScriptedReader::new(wire.get(..cut).unwrap_or(&[]), 1000),
    }
}

// A stop after whole packets, of 109 bytes each where they were read. One was written where 505
// bytes of the payload were read, and two where 1,010 were.
fn stopped_after(fault: Fault, cut: usize) -> RecutOutcome {
    let whole = cut / 109;
    let stands = match whole {
        0..=4 => 0,
        5..=9 => 512,
        _ => 1024,
    };
    let answer = Err(RecutStop {
        stop: at_wire(fault, whole as u64 * 109),
        written: stands as u64,
        unwritten: 0,
    });
    RecutOutcome {
        answer,
        written: Some(stands),
        flushes: 1,
    }
}

#[test]
fn whole_packets_stand_where_the_input_stops(rt: HostRuntime) -> Result<(), Fail> {
    let alloc = rt.alloc();
    let payload = some_bytes(alloc, 1111)?;
    let wire = in_packets(alloc, &payload, 101)?;
    let wanted = in_packets(alloc, &payload, 504)?;
    for cut in 0..1199 {
        for failing in [Failing::Never, Failing::InFlush] {
            for fault in [Fault::InputEnded, Fault::ReadFailed] {
                let writer = ScriptedWriter::new(1000, failing);
                let reader = cut_at(&wire, cut, fault);
                let (out, _) = recut_wire(alloc, 512, reader, writer, &wanted)?;
                expect_at(&rt, "cut at", cut, out == stopped_after(fault, cut));
            }
        }
    }
    Ok(())
}

// What came of 505 bytes in packets of 101, to a writer that takes at most `most` bytes a call.
fn recut_505(alloc: Global, most: usize, failing: Failing) -> Result<RecutOutcome, Fail> {
    let payload = some_bytes(alloc, 505)?;
    let wire = in_packets(alloc, &payload, 101)?;
    let wanted = in_packets(alloc, &payload, 504)?;
    let reader = ScriptedReader::new(&wire, 1000);
    let writer = ScriptedWriter::new(most, failing);
    let (out, _) = recut_wire(alloc, 512, reader, writer, &wanted)?;
    Ok(out)
}

// A writer that failed after `taken` bytes, of packets that end after 512 and 521.
fn write_failed(taken: usize, flushes: usize) -> RecutOutcome {
    let end: usize = if taken < 512 { 512 } else { 521 };
    let answer = Err(RecutStop {
        stop: Stop {
            fault: Fault::WriteFailed,
            place: Place::Text(taken as u64),
        },
        written: taken as u64,
        unwritten: end.saturating_sub(taken) as u64,
    });
    RecutOutcome {
        answer,
        written: Some(taken),
        flushes,
    }
}

#[test]
fn a_failed_write_leaves_a_beginning(rt: HostRuntime) -> Result<(), Fail> {
    for taken in 0..521 {
        for failing in [Failing::AfterBytes(taken), Failing::ZeroAfterBytes(taken)] {
            let out = recut_505(rt.alloc(), 100, failing)?;
            assert!(rt; out == write_failed(taken, 0));
        }
    }
    let out = recut_505(rt.alloc(), 1000, Failing::InFlush)?;
    assert!(rt; out == write_failed(521, 1));
    Ok(())
}
