// Descriptions from packets in memory, and the columns that are seen in them. `examples/worked.txt` has more of them, and
// those that are refused or cut, by the program.
ghost use Rattle.std.specs.Prelude.{◌≤◌, ◌≡◌, IfOk};
ghost use Rattle.tds_meter.specs.Space.{empty};
ghost use Rattle.tds_packet.specs.Payloads.{IsSound};

use crate::checks::{expect, same};
use std::alloc::{AllocError, Global};
use std::io::Read;
use std::test::Fail;
use tds_columns::{Columns, Described, gather, gather_next, read_into, read_type_info};
use tds_meter::Area;
use tds_packet::rig::{RepeatingReader, ScriptedReader};
use tds_packet::{Counted, Fault, Payload, Place, Stop};
use tds_values::Kind;
use tds_values::Reach::{Chunked, Short};

// A room that most descriptions fit.
const ROOM: usize = 1024;

const MAX_WIRE: u64 = 1_000_000_000;

// A description of a four-byte integer named a.
const ONE_INT: &[u8] = &[1, 0, 0, 0, 0, 0, 8, 0, 0x38, 1, 0x61, 0];

// One that is as long, named b.
const OTHER_INT: &[u8] = &[1, 0, 0, 0, 0, 0, 8, 0, 0x38, 1, 0x62, 0];

// Two of the first.
const TWO_INTS: &[u8] = &[
    2, 0, 0, 0, 0, 0, 0, 0, 0x38, 1, 0x61, 0, 0, 0, 0, 0, 0, 0, 0x38, 1, 0x61, 0,
];

// The name of a column, a.
const NAME: &[u8] = &[0x61, 0];

fn new_area(alloc: Global, room: usize) -> Result<Area, Fail>
    requires { room ≤ 1048576 }
    ensures { IfOk result (λ area. area ≡ empty room) }
{
    let area = Area::new(alloc, room)?;
    Ok(area)
}

// Puts each byte into a packet of its own, none of which is the last.
fn put(wire: &mut Vec<u8>, bytes: &[u8]) -> Result<(), AllocError> {
    for byte in bytes {
        wire.extend_from_slice(&[0x04, 0x00, 0x00, 0x09, 0x00, 0x00, 0x01, 0x00, *byte])?;
    }
    Ok(())
}

// Pieces of a payload.
fn wire_of(alloc: Global, pieces: &[&[u8]]) -> Result<Vec<u8>, AllocError> {
    let mut wire = Vec::new(alloc);
    for piece in pieces {
        put(&mut wire, piece)?;
    }
    Ok(wire)
}

// Reads a description, and answers how many columns it has, and how many of them are of a kind and of a name.
fn read_columns<R: Read>(
    payload: &mut Payload<R>,
    area: &mut Area,
    kind: Kind,
    name: &[u8],
) -> Result<(u16, usize), Stop>
    requires sound { IsSound payload.old }
    requires room { 2 ≤ area.old.room }
    ensures { IsSound payload.new }
{
    match gather(payload, area) {
        Ok(Described::Columns(_)) => {
            let columns = Columns::view(area.bytes());
            let mut alike: usize = 0;
            for column in columns.walk() {
                if column.kind == kind && column.name == name {
                    alike = alike.saturating_add(1);
                }
            }
            Ok((columns.count(), alike))
        }
        Ok(Described::NoMetadata) => Ok((0, 0)),
        Err(stop) => Err(stop),
    }
}

// Reads the type of a value that a procedure returns, from its status on.
fn read_returned<R: Read>(payload: &mut Payload<R>, small: &mut Area) -> Result<Kind, Stop>
    requires sound { IsSound payload.old }
    requires small { small.old ≡ empty 128 }
{
    read_into(payload, small, 8)?;
    read_type_info(payload, small)
}

// A type of the profile, the bytes of its type information, and its kind.
struct Known(&'static str, &'static [u8], Kind);

const DECIMAL_5_2: Kind = Kind::Decimal {
    length: 5,
    precision: 5,
    scale: 2,
};

const NUMERIC_38_37: Kind = Kind::Decimal {
    length: 17,
    precision: 38,
    scale: 37,
};

// Each type byte of the profile. The type information of text ends with a collation.
const KNOWN: [Known; 30] = [
    Known("tinyint", &[0x30], Kind::Int1),
    Known("bit", &[0x32], Kind::Bit),
    Known("smallint", &[0x34], Kind::Int2),
    Known("int", &[0x38], Kind::Int4),
    Known("bigint", &[0x7F], Kind::Int8),
    Known("smalldatetime", &[0x3A], Kind::DateTime4),
    Known("datetime", &[0x3D], Kind::DateTime8),
    Known("smallmoney", &[0x7A], Kind::Money4),
    Known("money", &[0x3C], Kind::Money8),
    Known("date", &[0x28], Kind::Date),
    Known("uniqueidentifier", &[0x24, 16], Kind::Guid),
    Known("a nullable tinyint", &[0x26, 1], Kind::IntN(1)),
    Known("a nullable bigint", &[0x26, 8], Kind::IntN(8)),
    Known("a nullable bit", &[0x68, 1], Kind::BitN),
    Known("a nullable money", &[0x6E, 8], Kind::MoneyN(8)),
    Known("a nullable smalldatetime", &[0x6F, 4], Kind::DateTimeN(4)),
    Known("time(7)", &[0x29, 7], Kind::Time(7)),
    Known("datetime2(3)", &[0x2A, 3], Kind::DateTime2(3)),
    Known("datetimeoffset(0)", &[0x2B, 0], Kind::DateTimeOffset(0)),
    Known("decimal(5, 2)", &[0x6A, 5, 5, 2], DECIMAL_5_2),
    Known("numeric(38, 37)", &[0x6C, 17, 38, 37], NUMERIC_38_37),
    Known("varbinary(10)", &[0xA5, 10, 0], Kind::Binary(Short)),
    Known("varbinary(max)", &[0xA5, 0xFF, 0xFF], Kind::Binary(Chunked)),
    Known(
        "the longest binary",
        &[0xAD, 0xFE, 0xFF],
        Kind::Binary(Short),
    ),
    Known(
        "varchar(10)",
        &[0xA7, 10, 0, 9, 4, 0xD0, 0, 0x34],
        Kind::Narrow(Short),
    ),
    Known(
        "varchar(max)",
        &[0xA7, 0xFF, 0xFF, 9, 4, 0xD0, 0, 0x34],
        Kind::Narrow(Chunked),
    ),
    Known(
        "char(255)",
        &[0xAF, 0xFF, 0, 9, 4, 0xD0, 0, 0x34],
        Kind::Narrow(Short),
    ),
    Known(
        "nvarchar(10)",
        &[0xE7, 20, 0, 9, 4, 0xD0, 0, 0x34],
        Kind::Wide(Short),
    ),
    Known(
        "nvarchar(max)",
        &[0xE7, 0xFF, 0xFF, 9, 4, 0xD0, 0, 0x34],
        Kind::Wide(Chunked),
    ),
    Known(
        "a long nchar",
        &[0xEF, 0, 0xFF, 9, 4, 0xD0, 0, 0x34],
        Kind::Wide(Short),
    ),
];

// Two columns of a type, and a returned value of it.
fn check_known(alloc: Global, known: &Known) -> Result<(), Fail> {
    let Known(what, info, kind) = known;
    let head: &[u8] = &[0; 6];
    let name: &[u8] = &[1, 0x61, 0];
    let pieces = [
        &[2, 0],
        head,
        info,
        name,
        head,
        info,
        name,
        &[1],
        head,
        info,
    ];
    let wire = wire_of(alloc, &pieces)?;
    let mut from = Counted::new(ScriptedReader::new(&wire, 5));
    let mut packet = Area::new(alloc, 512)?;
    let mut area = new_area(alloc, ROOM)?;
    let mut small = new_area(alloc, 128)?;
    let mut payload = Payload::new(&mut from, &mut packet, MAX_WIRE);
    let columns = read_columns(&mut payload, &mut area, *kind, NAME);
    let returned = read_returned(&mut payload, &mut small);
    same(what, &(columns, returned), &(Ok((2, 2)), Ok(*kind)))
}

#[test]
fn types_are_known(rt: HostRuntime) -> Result<(), Fail> {
    for known in &KNOWN {
        check_known(rt.alloc(), known)?;
    }
    Ok(())
}

// A description, the room that it has, what comes of it, and what the area keeps.
struct Roomed {
    what: &'static str,
    payload: &'static [u8],
    room: usize,
    answer: Result<(u16, usize), Stop>,
    kept: &'static [u8],
}

// Rooms below the least that the limits allow among them. Of what is refused the whole elements before it are kept.
const ROOMS: [Roomed; 6] = [
    Roomed {
        what: "an int",
        payload: ONE_INT,
        room: 12,
        answer: Ok((1, 1)),
        kept: ONE_INT,
    },
    Roomed {
        what: "two ints",
        payload: TWO_INTS,
        room: 22,
        answer: Ok((2, 2)),
        kept: TWO_INTS,
    },
    Roomed {
        what: "a name",
        payload: ONE_INT,
        room: 11,
        answer: Err(Stop {
            fault: Fault::DescriptionTooLong,
            place: Place::Payload(9),
        }),
        kept: &[1, 0, 0, 0, 0, 0, 8, 0, 0x38],
    },
    Roomed {
        what: "a Count",
        payload: ONE_INT,
        room: 9,
        answer: Err(Stop {
            fault: Fault::DescriptionTooLong,
            place: Place::Payload(0),
        }),
        kept: &[],
    },
    Roomed {
        what: "no columns",
        payload: &[0, 0],
        room: 2,
        answer: Err(Stop {
            fault: Fault::NoColumns,
            place: Place::Payload(0),
        }),
        kept: &[],
    },
    Roomed {
        what: "no metadata",
        payload: &[0xFF, 0xFF],
        room: 2,
        answer: Ok((0, 0)),
        kept: &[],
    },
];

fn check_room(alloc: Global, row: &Roomed) -> Result<(), Fail> {
    let wire = wire_of(alloc, &[row.payload])?;
    let mut from = Counted::new(ScriptedReader::new(&wire, 1));
    let mut packet = Area::new(alloc, 512)?;
    let mut area = new_area(alloc, row.room.max(2).min(ROOM))?;
    let mut payload = Payload::new(&mut from, &mut packet, MAX_WIRE);
    let came = read_columns(&mut payload, &mut area, Kind::Int4, NAME);
    same(row.what, &(came, area.bytes()), &(row.answer, row.kept))
}

#[test]
fn rooms_are_kept(rt: HostRuntime) -> Result<(), Fail> {
    for row in &ROOMS {
        check_room(rt.alloc(), row)?;
    }
    Ok(())
}

// A packet of the Count of 65,534 columns, and one of an int without a name.
const MOST_COLUMNS: &[u8] = &[0x04, 0, 0, 0x0A, 0, 0, 1, 0, 0xFE, 0xFF];

const NAMELESS_INT: &[u8] = &[0x04, 0, 0, 0x10, 0, 0, 1, 0, 0, 0, 0, 0, 0, 0, 0x38, 0];

// As many ints as a description can have, each in a packet of its own.
#[test]
fn the_most_columns_are_walked(rt: HostRuntime) -> Result<(), Fail> {
    let reader = RepeatingReader::new(MOST_COLUMNS, NAMELESS_INT, 65_534, &[]);
    let mut from = Counted::new(reader);
    let mut packet = Area::new(rt.alloc(), 512)?;
    let mut area = new_area(rt.alloc(), 524_274)?;
    let mut payload = Payload::new(&mut from, &mut packet, MAX_WIRE);
    let came = read_columns(&mut payload, &mut area, Kind::Int4, b"");
    same("columns", &came, &Ok((65_534, 65_534)))?;
    same("a description", &area.len(), &524_274)
}

// A read fails within the second column's head: the whole elements before it are kept. A payload that stopped before
// gives its stop again, and the area is empty.
#[test]
fn a_failed_read_stops(rt: HostRuntime) -> Result<(), Fail> {
    let wire = wire_of(rt.alloc(), &[TWO_INTS])?;
    let mut from = Counted::new(ScriptedReader::failing(&wire, 5, 130));
    let mut packet = Area::new(rt.alloc(), 512)?;
    let mut area = new_area(rt.alloc(), ROOM)?;
    let mut payload = Payload::new(&mut from, &mut packet, MAX_WIRE);
    let stop = Err(Stop {
        fault: Fault::ReadFailed,
        place: Place::Wire(126),
    });
    let first = gather(&mut payload, &mut area);
    expect(&rt, "a stop", first == stop);
    expect(&rt, "what is kept", area.bytes() == &TWO_INTS[..12]);
    let again = gather(&mut payload, &mut area);
    expect(&rt, "the stop again", again == stop);
    expect(&rt, "nothing is kept", area.is_empty());
    Ok(())
}

// Reads two descriptions, the second into the area that has the first, and answers how many columns each has.
fn read_both<R: Read>(payload: &mut Payload<R>, area: &mut Area) -> Result<(u16, u16), Stop>
    requires sound { IsSound payload.old }
    requires room { 2 ≤ area.old.room }
{
    let first = match gather_next(payload, area, false)? {
        Described::Columns(count) => count,
        Described::NoMetadata => return Ok((0, 0)),
    };
    match gather_next(payload, area, true)? {
        Described::Columns(count) => Ok((first, count)),
        Described::NoMetadata => Ok((first, 0)),
    }
}

// Reads the description of an int, and then another of so many columns, which comes in the same packet.
fn check_second(alloc: Global, second: &[u8], columns: u16) -> Result<(), Fail> {
    let length = (8 + ONE_INT.len() + second.len()).min(255) as u8;
    let mut wire = Vec::new(alloc);
    wire.extend_from_slice(&[0x04, 0x00, 0x00, length, 0x00, 0x00, 0x01, 0x00])?;
    wire.extend_from_slice(ONE_INT)?;
    wire.extend_from_slice(second)?;
    let mut from = Counted::new(ScriptedReader::new(&wire, 512));
    let mut packet = Area::new(alloc, 512)?;
    let mut area = new_area(alloc, ROOM)?;
    let mut payload = Payload::new(&mut from, &mut packet, MAX_WIRE);
    let came = read_both(&mut payload, &mut area);
    same("columns", &came, &Ok((1, columns)))?;
    same("a description", &area.bytes(), &second)
}

// The same description comes again, or another of as many bytes, or of more.
#[test]
fn a_description_comes_again(rt: HostRuntime) -> Result<(), Fail> {
    check_second(rt.alloc(), ONE_INT, 1)?;
    check_second(rt.alloc(), OTHER_INT, 1)?;
    check_second(rt.alloc(), TWO_INTS, 2)
}
