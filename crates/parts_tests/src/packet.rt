// Packets and devices in memory. `examples/worked.txt` has packets that are refused or cut, by the program.
ghost use Rattle.tds_packet.specs.Payloads.{IsSound};

use crate::checks::{expect, expect_at};
use std::alloc::{AllocError, Global};
use std::io::Read;
use std::test::Fail;
use tds_meter::Area;
use tds_packet::rig::{Failing, RepeatingReader, ScriptedReader, ScriptedWriter};
use tds_packet::*;

mod recuts;

// One packet of 39 bytes.
const PACKET: [u8; 39] = [
    0x04, 0x01, 0x00, 0x27, 0x00, 0x00, 0x01, 0x00, 0x81, 0x01, 0x00, 0x00, 0x00, 0x00, 0x00, 0x08,
    0x00, 0x38, 0x01, 0x61, 0x00, 0xD1, 0x2A, 0x00, 0x00, 0x00, 0xFD, 0x10, 0x00, 0xC1, 0x00, 0x01,
    0x00, 0x00, 0x00, 0x00, 0x00, 0x00, 0x00,
];

// A packet with no body that isn't the last.
const EMPTY: [u8; 8] = [0x04, 0x00, 0x00, 0x08, 0x00, 0x00, 0x01, 0x00];

// How a payload is read to its end.
#[derive(Clone, Copy)]
enum By {
    Next,
    Fill,
    Piece,
}

// What came of a payload.
#[derive(Clone, Copy, PartialEq, Eq)]
struct Outcome {
    // how many bytes it handed out, the first of the packet's body
    handed: Option<usize>,
    stop: Option<Stop>,
    place: u64,
    // each call after the stop answered the same stop
    again: bool,
    failures: u64,
}

// The first bytes of the packet's body, and then a stop that stays.
const fn handed_out(handed: usize, stop: Stop, failures: u64) -> Outcome {
    Outcome {
        handed: Some(handed),
        stop: Some(stop),
        place: handed as u64,
        again: true,
        failures,
    }
}

const fn at_wire(fault: Fault, place: u64) -> Stop {
    Stop {
        fault,
        place: Place::Wire(place),
    }
}

// How many bytes there are, if a longer list begins with them.
fn front_of(bytes: &[u8], longer: &[u8]) -> Option<usize> {
    if longer.starts_with(bytes) {
        Some(bytes.len())
    } else {
        None
    }
}

// The packet's payload in packets of one byte each, with an empty one before each but the first.
fn in_single_bytes(alloc: Global, empty: bool) -> Result<Vec<u8>, AllocError> {
    let mut wire = Vec::new(alloc);
    for (i, byte) in PACKET[8..].iter().enumerate() {
        if empty && i > 0 {
            wire.extend_from_slice(&EMPTY)?;
        }
        let status = if i == 30 { 0x01 } else { 0x00 };
        wire.extend_from_slice(&[0x04, status, 0x00, 0x09, 0x00, 0x00, 0x01, 0x00, *byte])?;
    }
    Ok(wire)
}

// Reads to the stop, and no more than 100 calls.
fn drain<R: Read>(
    payload: &mut Payload<'_, R>,
    by: By,
    bytes: &mut Vec<u8>,
) -> Result<Option<Stop>, AllocError>
    requires { IsSound payload.old }
    ensures { IsSound payload.new }
{
    for _ in 0..100 {
        match by {
            By::Next => match payload.next() {
                Ok(byte) => bytes.push(byte)?,
                Err(stop) => return Ok(Some(stop)),
            },
            By::Fill => {
                let mut part = [0; 4];
                match payload.fill(&mut part) {
                    Ok(()) => bytes.extend_from_slice(&part)?,
                    Err(stop) => return Ok(Some(stop)),
                }
            }
            By::Piece => match payload.piece(3) {
                Ok(part) => bytes.extend_from_slice(part)?,
                Err(stop) => return Ok(Some(stop)),
            },
        }
    }
    Ok(None)
}

// Each call answers this stop.
fn stays_stopped<R: Read>(payload: &mut Payload<'_, R>, stop: Stop) -> bool
    requires { IsSound payload.old }
    ensures { IsSound payload.new }
{
    payload.next() == Err(stop)
        && payload.at_end() == Err(stop)
        && payload.fill(&mut [0; 2]) == Err(stop)
        && payload.pass(1) == Err(stop)
        && payload.buffered().is_empty()
        && payload.piece(1).err() == Some(stop)
}

// What came of the packet's body in packets of one byte each.
fn read(alloc: Global, by: By, empty: bool, most: usize, fails_at: usize) -> Result<Outcome, Fail> {
    let wire = in_single_bytes(alloc, empty)?;
    let mut from = Counted::new(ScriptedReader::failing(&wire, most, fails_at));
    let mut area = Area::new(alloc, 512)?;
    let mut bytes = Vec::new(alloc);
    let mut payload = Payload::new(&mut from, &mut area, 4096);
    let stop = drain(&mut payload, by, &mut bytes)?;
    let place = payload.place();
    let again = match stop {
        Some(stop) => stays_stopped(&mut payload, stop),
        None => false,
    };
    Ok(Outcome {
        handed: front_of(&bytes, &PACKET[8..]),
        stop,
        place,
        again,
        failures: from.failures(),
    })
}

#[test]
fn faults_have_numbers(rt: HostRuntime) {
    let column = 7;
    let index = 7;
    let kind = RefusedKind::Xml;
    for (fault, number) in [
        (Fault::ReadFailed, 1),
        (Fault::InputEnded, 2),
        (Fault::WrongPacketType(3), 3),
        (Fault::BadPacketLength(7), 4),
        (Fault::ResponseTooLong, 5),
        (Fault::RefusedToken(1), 6),
        (Fault::MessageEnded, 7),
        (Fault::EndWithoutDone, 8),
        (Fault::NoColumns, 9),
        (Fault::RefusedColumn { index, kind }, 10),
        (Fault::UnknownType { index, byte: 1 }, 11),
        (Fault::BadTypeInfo { index }, 12),
        (Fault::DescriptionTooLong, 13),
        (Fault::RowWithoutColumns, 14),
        (Fault::BadValueLength { column }, 15),
        (Fault::BadValue { column }, 16),
        (Fault::OddText { column }, 17),
        (Fault::PlpLength { column }, 18),
        (Fault::BadNotice, 19),
        (Fault::WriteFailed, 20),
        (Fault::BadText { column }, 21),
    ] {
        assert!(rt; fault.number() == number);
    }
}

const DELIVERED: &[u8] = b"delivered";

// What came of a delivery and a flush after it.
#[derive(Clone, Copy, PartialEq, Eq)]
struct Delivery {
    answer: Result<(), usize>,
    failures: u64,
    writes: usize,
    // how many bytes the writer took, the first of those to be delivered
    taken: Option<usize>,
    flushed: bool,
    failures_then: u64,
    flushes: usize,
}

fn deliver(most: usize, failing: Failing) -> Delivery {
    let mut to = Counted::new(ScriptedWriter::new(most, failing));
    let answer = to.deliver(DELIVERED);
    let failures = to.failures();
    let flushed = to.flush();
    let failures_then = to.failures();
    let device = to.device();
    Delivery {
        answer,
        failures,
        writes: device.writes(),
        taken: front_of(device.kept(), DELIVERED),
        flushed,
        failures_then,
        flushes: device.flushes(),
    }
}

// A delivery of so many writes that takes all, and then a flush.
const fn whole_in(writes: usize) -> Delivery {
    Delivery {
        answer: Ok(()),
        failures: 0,
        writes,
        taken: Some(9),
        flushed: true,
        failures_then: 0,
        flushes: 1,
    }
}

// A delivery that fails in its last write, once so many bytes are taken, and then a flush.
const fn cut_after(taken: usize, writes: usize) -> Delivery {
    Delivery {
        answer: Err(taken),
        failures: 1,
        taken: Some(taken),
        failures_then: 1,
        ..whole_in(writes)
    }
}

// All is delivered, in three writes, and the flush fails.
const fn unflushed() -> Delivery {
    Delivery {
        flushed: false,
        failures_then: 1,
        ..whole_in(3)
    }
}

#[test]
fn bytes_are_delivered(rt: HostRuntime) {
    for (what, most, failing, want) in [
        ("a byte a write", 1, Failing::Never, whole_in(9)),
        ("four a write", 4, Failing::Never, whole_in(3)),
        ("a late error", 2, Failing::AfterBytes(5), cut_after(5, 4)),
        (
            "a late zero",
            2,
            Failing::ZeroAfterBytes(5),
            cut_after(5, 4),
        ),
        ("an early error", 4, Failing::AfterBytes(0), cut_after(0, 1)),
        ("the second write", 4, Failing::AtWrite(1), cut_after(4, 2)),
        ("the flush", 4, Failing::InFlush, unflushed()),
    ] {
        expect(&rt, what, deliver(most, failing) == want);
    }
}

const fn message_ended(place: u64) -> Stop {
    Stop {
        fault: Fault::MessageEnded,
        place: Place::Payload(place),
    }
}

#[test]
fn packets_of_one_byte_are_joined(rt: HostRuntime) -> Result<(), Fail> {
    for (by, length) in [(By::Next, 31), (By::Fill, 28), (By::Piece, 31)] {
        let want = handed_out(length, message_ended(length as u64), 0);
        for (what, empty) in [("alone", false), ("among empty ones", true)] {
            for most in [1, 5, 1000] {
                let out = read(rt.alloc(), by, empty, most, 4096)?;
                expect_at(&rt, what, most, out == want);
            }
        }
    }
    Ok(())
}

// Passes over `n` bytes, and gives the byte after them, or what stopped it, and the place then.
fn byte_after<R: Read>(payload: &mut Payload<'_, R>, n: usize) -> (Result<u8, Stop>, u64)
    requires { IsSound payload.old }
{
    let came = match payload.pass(n) {
        Ok(()) => payload.next(),
        Err(stop) => Err(stop),
    };
    (came, payload.place())
}

// Passes over `n` bytes of the packet's body in packets of one byte each.
fn pass_single_bytes(
    alloc: Global,
    empty: bool,
    n: usize,
) -> Result<(Result<u8, Stop>, u64), Fail> {
    let wire = in_single_bytes(alloc, empty)?;
    let mut area = Area::new(alloc, 512)?;
    let mut from = Counted::new(ScriptedReader::new(&wire, 1000));
    let mut payload = Payload::new(&mut from, &mut area, 4096);
    Ok(byte_after(&mut payload, n))
}

#[test]
fn bytes_are_passed_over(rt: HostRuntime) -> Result<(), Fail> {
    for (n, came, place) in [
        (0, Ok(0x81), 1),
        (13, Ok(0xD1), 14),
        (30, Ok(0x00), 31),
        (31, Err(message_ended(31)), 31),
        (32, Err(message_ended(0)), 0),
    ] {
        for empty in [false, true] {
            let out = pass_single_bytes(rt.alloc(), empty, n)?;
            expect_at(&rt, "passed", n, out == (came, place));
        }
    }
    Ok(())
}

// The length of a piece of at most four bytes, the first of the packet's body.
fn front_piece<R: Read>(payload: &mut Payload<'_, R>) -> Option<usize>
    requires { IsSound payload.old }
    ensures { IsSound payload.new }
{
    match payload.piece(4) {
        Ok(piece) => front_of(piece, &PACKET[8..]),
        Err(_) => None,
    }
}

// How many bytes were ready, the last of the packet's body. They are consumed.
fn consume_rest<R: Read>(payload: &mut Payload<'_, R>) -> Option<usize>
    requires { IsSound payload.old }
    ensures { IsSound payload.new }
{
    let ready = payload.buffered();
    let n = ready.len();
    let last = PACKET[8..].ends_with(ready);
    payload.consume(n);
    if last { Some(n) } else { None }
}

#[test]
fn a_piece_lies_at_the_front(rt: HostRuntime) -> Result<(), Fail> {
    let mut from = Counted::new(ScriptedReader::new(&PACKET, 1000));
    let mut area = Area::new(rt.alloc(), 512)?;
    let mut payload = Payload::new(&mut from, &mut area, 1000);
    let before = payload.at_end();
    let n = front_piece(&mut payload).unwrap_or(0);
    let place = payload.place();
    let rest = consume_rest(&mut payload);
    let after = (payload.place(), payload.at_end());
    assert!(rt; 1 <= n && n <= 4);
    assert!(rt; (before, place, rest) == (Ok(false), n as u64, Some(31 - n)));
    assert!(rt; after == (31, Ok(true)));
    Ok(())
}

#[test]
fn a_failed_read_stops_after_whole_packets(rt: HostRuntime) -> Result<(), Fail> {
    for (what, fails_at, whole) in [
        ("before any byte", 0, 0),
        ("after a header", 8, 0),
        ("after a packet", 9, 1),
        ("in the header of the twelfth", 100, 11),
        ("after the last header", 278, 30),
    ] {
        let out = read(rt.alloc(), By::Next, false, 4, fails_at)?;
        let stop = at_wire(Fault::ReadFailed, 9 * whole as u64);
        expect(&rt, what, out == handed_out(whole, stop, 1));
    }
    Ok(())
}
