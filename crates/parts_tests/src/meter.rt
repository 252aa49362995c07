// Areas and limits with ample memory.
use crate::checks::{expect, same};
use std::alloc::Global;
use std::mem::swap;
use std::process::Abort;
use std::test::Fail;
use tds_meter::*;

const LEAST: (u16, u32, u64) = (512, 10, 8);

const GREATEST: (u16, u32, u64) = (32_767, 67_108_864, 72_057_594_037_927_936);

#[test]
fn accepts_the_edges_of_each_range(rt: HostRuntime) -> Result<(), Fail> {
    for (what, (packet_size, column_room, max_wire)) in [
        ("the least of each", LEAST),
        ("usual numbers", (4_096, 1_048_576, 1 << 40)),
        ("the greatest of each", GREATEST),
    ] {
        let limits = Limits::new(packet_size, column_room, max_wire)?;
        expect(&rt, what, limits.packet_size() == packet_size);
        expect(&rt, what, limits.column_room() == column_room);
        expect(&rt, what, limits.max_wire() == max_wire);
    }
    Ok(())
}

// Numbers of limits, and the fault of the first one that is out of its range.
struct Refused(&'static str, (u16, u32, u64), LimitFault);

// A number past the greatest wire limit.
const PAST: u64 = 72_057_594_037_927_937;

const REFUSED: [Refused; 10] = [
    Refused("a small packet size", (511, 10, 8), LimitFault::PacketSize),
    Refused(
        "a large packet size",
        (32_768, 10, 8),
        LimitFault::PacketSize,
    ),
    Refused("a small column room", (512, 9, 8), LimitFault::ColumnRoom),
    Refused(
        "a large column room",
        (512, 67_108_865, 8),
        LimitFault::ColumnRoom,
    ),
    Refused("a small wire limit", (512, 10, 7), LimitFault::MaxWire),
    Refused("a large wire limit", (512, 10, PAST), LimitFault::MaxWire),
    Refused("three zeros", (0, 0, 0), LimitFault::PacketSize),
    Refused(
        "each too large",
        (65_535, 4_294_967_295, u64::MAX),
        LimitFault::PacketSize,
    ),
    Refused("two zeros", (512, 0, 0), LimitFault::ColumnRoom),
    Refused(
        "two too large",
        (32_767, 67_108_865, PAST),
        LimitFault::ColumnRoom,
    ),
];

fn text_of(fault: LimitFault) -> &'static str {
    match fault {
        LimitFault::PacketSize => "the packet size isn't 512 to 32,767",
        LimitFault::ColumnRoom => "the column room isn't 10 to 67,108,864 bytes",
        LimitFault::MaxWire => "the wire limit isn't 8 to 72,057,594,037,927,936 bytes",
    }
}

fn check_refused(alloc: Global, row: &Refused) -> Result<(), Fail> {
    let Refused(what, (packet_size, column_room, max_wire), fault) = row;
    let came = Limits::new(*packet_size, *column_room, *max_wire).err();
    same(what, &came, &Some(*fault))?;
    let shown = format!(in alloc; "{fault}")?;
    same(what, &shown.as_str(), &text_of(*fault))
}

#[test]
fn names_the_first_number_out_of_its_range(rt: HostRuntime) -> Result<(), Fail> {
    for row in &REFUSED {
        check_refused(rt.alloc(), row)?;
    }
    Ok(())
}

// What an area of room 6 holds, and its peak.
fn check_area(rt: &impl Abort, what: &str, area: &Area, bytes: &[u8], peak: usize) {
    let came = (
        area.len(),
        area.is_empty(),
        area.room(),
        area.free(),
        area.peak(),
    );
    let n = bytes.len();
    expect(rt, what, area.bytes() == bytes);
    expect(
        rt,
        what,
        came == (n, n == 0, 6, 6usize.saturating_sub(n), peak),
    );
}

// A call of an area.
enum Call {
    Append(&'static [u8]),
    Extend(usize),
    DropFront(usize),
    Truncate(usize),
    Clear,
}

// A call, whether there is room for what it adds, and what the area holds after it, with its peak.
const STEPS: [(&str, Call, bool, &[u8], usize); 12] = [
    ("four bytes", Call::Append(b"abcd"), true, b"abcd", 4),
    ("three for two", Call::Append(b"efg"), false, b"abcd", 4),
    ("three zeros for two", Call::Extend(3), false, b"abcd", 4),
    ("most zeros", Call::Extend(usize::MAX), false, b"abcd", 4),
    ("two for two", Call::Append(b"ef"), true, b"abcdef", 6),
    ("none for none", Call::Append(b""), true, b"abcdef", 6),
    ("one for none", Call::Append(b"g"), false, b"abcdef", 6),
    ("the front dropped", Call::DropFront(2), true, b"cdef", 6),
    ("cut after its end", Call::Truncate(9), true, b"cdef", 6),
    ("cut to one byte", Call::Truncate(1), true, b"c", 6),
    ("zeros for others", Call::Extend(2), true, b"c\0\0", 6),
    ("cleared", Call::Clear, true, b"", 6),
];

fn perform(area: &mut Area, call: &Call) -> Result<(), Full> {
    match call {
        Call::Append(piece) => area.append(piece),
        Call::Extend(n) => area.extend(*n),
        Call::DropFront(n) => {
            area.drop_front((*n).min(area.len()));
            Ok(())
        }
        Call::Truncate(n) => {
            area.truncate(*n);
            Ok(())
        }
        Call::Clear => {
            area.clear();
            Ok(())
        }
    }
}

#[test]
fn an_area_keeps_its_bytes_and_its_peak(rt: HostRuntime) -> Result<(), Fail> {
    let mut area = Area::new(rt.alloc(), 6)?;
    check_area(&rt, "a new area", &area, b"", 0);
    for (what, call, fits, bytes, peak) in &STEPS {
        let answer = perform(&mut area, call);
        expect(&rt, what, answer.is_ok() == *fits);
        check_area(&rt, what, &area, bytes, *peak);
    }
    Ok(())
}

#[test]
fn an_area_lends_its_end(rt: HostRuntime) -> Result<(), Fail> {
    let mut area = Area::new(rt.alloc(), 6)?;
    assert!(rt; area.append(b"ab") == Ok(()));
    assert!(rt; area.free() >= 3);
    let lent = area.grow_within(3);
    assert!(rt; lent.len() == 3);
    lent.copy_from_slice(b"cde");
    check_area(&rt, "written at its end", &area, b"abcde", 5);
    assert!(rt; area.len() == 5);
    area.tail(1).reverse();
    check_area(&rt, "turned round", &area, b"aedcb", 5);
    assert!(rt; area.len() == 5);
    assert!(rt; area.tail(5).len() == 0);
    Ok(())
}

// The areas of these limits.
fn areas_of(
    alloc: Global,
    packet_size: u16,
    column_room: u32,
    max_wire: u64,
) -> Result<Areas, Fail> {
    let limits = Limits::new(packet_size, column_room, max_wire)?;
    Ok(Areas::new(alloc, limits)?)
}

// What is held, by the description too, and the most of that and of the others.
fn meters(areas: &Areas) -> (u64, u64, u64, u64) {
    (
        areas.held(),
        areas.description_held(),
        areas.description_peak(),
        areas.peak_rest(),
    )
}

// The rooms of the six.
fn rooms(areas: &Areas) -> [usize; 6] {
    [
        areas.packet.room(),
        areas.description.room(),
        areas.token.room(),
        areas.output.room(),
        areas.notice.room(),
        areas.small.room(),
    ]
}

// The lengths are such that no two sums of them are the same.
#[test]
fn areas_count_what_they_hold(rt: HostRuntime) -> Result<(), Fail> {
    let mut areas = areas_of(rt.alloc(), 512, 10, 8)?;
    assert!(rt; areas.limits().packet_size() == 512);
    assert!(rt; (meters(&areas), areas.restarts()) == ((0, 0, 0, 0), 0));
    assert!(rt; rooms(&areas) == [512, 10, 65_536, 4_096, 512, 128]);
    let _ = areas.packet.extend(1);
    let _ = areas.description.extend(2);
    let _ = areas.token.extend(4);
    let _ = areas.output.append(b"12345678");
    let _ = areas.notice.append(b"0123456789abcdef");
    let _ = areas.small.extend(32);
    assert!(rt; meters(&areas) == (63, 2, 2, 61));
    assert!(rt; areas.waiting() == b"12345678".as_slice());
    assert!(rt; areas.error_text() == b"0123456789abcdef".as_slice());
    areas.token.clear();
    areas.description.clear();
    assert!(rt; meters(&areas) == (57, 0, 2, 61));
    areas.restart();
    assert!(rt; (meters(&areas), areas.restarts()) == ((0, 0, 0, 0), 1));
    assert!(rt; areas.intact());
    Ok(())
}

// Two areas of equal rooms may be exchanged, others not.
#[test]
fn exchanged_areas_are_not_intact(rt: HostRuntime) -> Result<(), Fail> {
    let mut areas = areas_of(rt.alloc(), 4_096, 65_536, 8)?;
    swap(&mut areas.packet, &mut areas.output);
    assert!(rt; areas.intact());
    swap(&mut areas.notice, &mut areas.small);
    assert!(rt; !areas.intact());
    areas.restart();
    assert!(rt; !areas.intact());
    Ok(())
}

// The greatest rooms are had where memory is ample, and none at all.
#[test]
fn the_greatest_rooms_are_had(rt: HostRuntime) -> Result<(), Fail> {
    let (packet_size, column_room, max_wire) = GREATEST;
    let areas = areas_of(rt.alloc(), packet_size, column_room, max_wire)?;
    assert!(rt; areas.intact());
    assert!(rt; Area::new(rt.alloc(), 0)?.room() == 0);
    Ok(())
}
