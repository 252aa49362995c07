// Rows by each public call, from the bytes after the token byte to the text, the answer and the use of the small area, and
// writers that fail in them. `examples/worked.txt` has more rows, by the program.
ghost use Rattle.std.specs.Prelude.{◌≡◌, ◌≤◌, None, [], IfOk, true, length};
ghost use Rattle.tds_columns.specs.View.{IsDescription};
ghost use Rattle.tds_csv.specs.Sinks.{IsWriting, LeavesSink};
ghost use Rattle.tds_packet.specs.Payloads.{IsGoing, IsOnSame, IsSound, LeavesPayload};

use crate::checks::{expect, expect_at};
use std::alloc::{AllocError, Global};
use std::io::{Read, Write};
use std::test::Fail;
use tds_columns::{Columns, Described, gather};
use tds_csv::Sink;
use tds_meter::{Area, SMALL_ROOM};
use tds_packet::rig::{Failing, ScriptedReader, ScriptedWriter};
use tds_packet::{Counted, Fault, Payload, Place, Stop};
use tds_rows::*;

mod nulls;
mod passed;
mod streamed;

const INT4: &[u8] = &[0x38];

const INT4_N: &[u8] = &[0x26, 0x04];

const DATE: &[u8] = &[0x28];

const WIDE_DECIMAL: &[u8] = &[0x6A, 0x11, 0x26, 0x26];

const VARCHAR: &[u8] = &[0xA7, 0x0A, 0x00, 0x09, 0x04, 0xD0, 0x00, 0x34];

const NINE: &[&[u8]] = &[
    INT4_N, INT4_N, INT4_N, INT4_N, INT4_N, INT4_N, INT4_N, INT4_N, INT4_N,
];

const MIXED: &[&[u8]] = &[INT4, INT4_N, DATE];

const MIXED_ROW: &[u8] = &[0x2A, 0x00, 0x00, 0x00, 0x00, 0x03, 0xDA, 0xB9, 0x37];

const MIXED_TEXT: &[u8] = b"42,NULL,9999-12-31\r\n";

const NINE_TEXT: &[u8] = b"NULL,NULL,NULL,NULL,NULL,NULL,NULL,NULL,NULL\r\n";

const NINES: &[u8] = &[
    0x11, 0x01, 0xFF, 0xFF, 0xFF, 0xFF, 0x3F, 0x22, 0x8A, 0x09, 0x7A, 0xC4, 0x86, 0x5A, 0xA8, 0x4C,
    0x3B, 0x4B,
];

const NINES_TEXT: &[u8] = b"0.99999999999999999999999999999999999999\r\n";

const FILLER: [u8; 4095] = [b'x'; 4095];

// The token whose row is read.
#[derive(Clone, Copy)]
enum Token {
    Row,
    Rows,
    NbcRow,
    NbcRows,
}

// The areas that rows are read with.
#[derive(Drop)]
struct Rooms {
    bitmap: Area,
    small: Area,
}

// What a row came to.
#[derive(Clone, Copy, PartialEq, Eq)]
struct Outcome {
    answer: Result<u64, Stop>,
    // how many bytes the writer took, the last of which are those that are wanted
    text: Option<usize>,
    // how many bytes after the description were handed out
    place: u64,
    // the most bytes that the small area had
    peak: usize,
}

// Puts a column of a type, without a name.
fn put_column(payload: &mut Vec<u8>, info: &[u8]) -> Result<(), AllocError> {
    payload.extend_from_slice(&[0; 6])?;
    payload.extend_from_slice(info)?;
    payload.push(0)?;
    Ok(())
}

// The description of these columns, without names, and a row after it.
fn payload_of(alloc: Global, columns: &[&[u8]], row: &[u8]) -> Result<Vec<u8>, AllocError> {
    let mut payload = Vec::new(alloc);
    payload.push(columns.len().min(0xFF) as u8)?;
    payload.push(0)?;
    for info in columns {
        put_column(&mut payload, info)?;
    }
    payload.extend_from_slice(row)?;
    Ok(payload)
}

// Puts a packet that isn't the last.
fn put_packet(wire: &mut Vec<u8>, body: &[u8]) -> Result<(), AllocError> {
    let [high, low] = ((8 + body.len().min(4096)) as u16).to_be_bytes();
    wire.extend_from_slice(&[0x04, 0x00, high, low, 0x00, 0x00, 0x01, 0x00])?;
    wire.extend_from_slice(body)
}

// The payload in packets of `size` bytes of it, and an empty last one.
fn in_packets(alloc: Global, payload: &[u8], size: usize) -> Result<Vec<u8>, AllocError> {
    let mut wire = Vec::new(alloc);
    for body in payload.chunks(size.max(1)) {
        put_packet(&mut wire, body)?;
    }
    wire.extend_from_slice(&[0x04, 0x01, 0x00, 0x08, 0x00, 0x00, 0x01, 0x00])?;
    Ok(wire)
}

// Reads a description, and says whether it is one of columns.
fn describe<R: Read>(payload: &mut Payload<R>, area: &mut Area) -> bool
    requires going { IsGoing payload.old }
    requires room { 2 ≤ area.old.room }
    requires empty { area.old.bytes ≡ [] }
    ensures sound { IsSound payload.new }
    ensures same { IsOnSame payload.old payload.new }
    ensures whole { result ≡ true → (payload.new.stopped ≡ None) × IsDescription area.new.bytes }
{
    match gather(payload, area) {
        Ok(Described::Columns(_)) => true,
        _ => false,
    }
}

// How many bytes there are, if they end with others.
fn length_after(bytes: &[u8], end: &[u8]) -> Option<usize> {
    if bytes.ends_with(end) {
        Some(bytes.len())
    } else {
        None
    }
}

// The areas that rows are read with, as large as they may be asked for.
fn make_rooms(alloc: Global) -> Result<Rooms, Fail>
    ensures bits { IfOk result (λ rooms. rooms.bitmap.room ≡ 8192) }
    ensures small { IfOk result (λ rooms. rooms.small.room ≡ SMALL_ROOM) }
{
    Ok(Rooms {
        bitmap: Area::new(alloc, 8192)?,
        small: Area::new(alloc, SMALL_ROOM)?,
    })
}

// Reads what follows a token byte, and says how many rows it was.
fn read_token<R: Read, W: Write>(
    token: Token,
    payload: &mut Payload<R>,
    columns: Columns,
    rooms: &mut Rooms,
    sink: &mut Sink<W>,
) -> Result<u64, Stop>
    requires going { IsGoing payload.old }
    requires writing { IsWriting sink.old }
    requires rooms { (8192 ≤ rooms.old.bitmap.room) × (SMALL_ROOM ≤ rooms.old.small.room) }
    ensures payload { LeavesPayload payload.old payload.new result }
    ensures sink { LeavesSink sink.old sink.new result }
    ensures rooms { (rooms.new.bitmap.room ≡ rooms.old.bitmap.room) × (rooms.new.small.room ≡ rooms.old.small.room) }
{
    let charset = Charset::Windows1252;
    let Rooms { bitmap, small } = rooms;
    match token {
        Token::Row => row(payload, columns, charset, small, sink)?,
        Token::NbcRow => nbc_row(payload, columns, charset, bitmap, small, sink)?,
        Token::Rows => return read_rows(payload, columns, charset, small, sink),
        Token::NbcRows => return read_nbc_rows(payload, columns, charset, bitmap, small, sink),
    }
    Ok(1)
}

// Reads a row in packets of `size` bytes of the payload, into a sink where `waiting` bytes wait.
fn run(
    alloc: Global,
    token: Token,
    columns: &[&[u8]],
    bytes: &[u8],
    size: usize,
    waiting: usize,
    to: ScriptedWriter,
    wanted: &[u8],
) -> Result<Outcome, Fail> {
    let payload = payload_of(alloc, columns, bytes)?;
    let start = (payload.len() - bytes.len().min(payload.len())) as u64;
    let wire = in_packets(alloc, &payload, size)?;
    let mut from = Counted::new(ScriptedReader::new(&wire, 5));
    let mut to = Counted::new(to);
    let mut packet = Area::new(alloc, 4096)?;
    let mut output = Area::new(alloc, 4096)?;
    let mut description = Area::new(alloc, 4096)?;
    let mut rooms = make_rooms(alloc)?;
    let mut payload = Payload::new(&mut from, &mut packet, 1_000_000);
    let mut sink = Sink::new(&mut to, &mut output);
    if !describe(&mut payload, &mut description) {
        return Err(Fail::from(AllocError));
    }
    sink.put(&FILLER[..waiting.min(4095)])?;
    let columns = Columns::view(description.bytes());
    let answer = read_token(token, &mut payload, columns, &mut rooms, &mut sink);
    let place = payload.place().saturating_sub(start);
    let _ = sink.finish();
    Ok(Outcome {
        answer,
        text: length_after(to.device().kept(), wanted),
        place,
        peak: rooms.small.peak(),
    })
}

fn usual_writer() -> ScriptedWriter {
    ScriptedWriter::new(1000, Failing::Never)
}

// The length of a description without names.
fn described(columns: &[&[u8]]) -> u64 {
    let mut n: u64 = 2;
    for info in columns {
        n = n.saturating_add(7).saturating_add(info.len() as u64);
    }
    n
}

// A row, its columns, and its text.
struct Good {
    what: &'static str,
    columns: &'static [&'static [u8]],
    bytes: &'static [u8],
    text: &'static [u8],
}

// A row that a call reads in packets of `size` bytes of the payload, its answer and text, and the longest cell that the
// small area had.
struct Reading {
    what: &'static str,
    token: Token,
    columns: &'static [&'static [u8]],
    bytes: &'static [u8],
    size: usize,
    answer: Result<u64, Stop>,
    text: &'static [u8],
    peak: usize,
}

// A ROW of three kinds, whole in its packet.
const THREE_KINDS: Reading = Reading {
    what: "a row that lies whole in its packet",
    token: Token::Row,
    columns: MIXED,
    bytes: MIXED_ROW,
    size: 4000,
    answer: Ok(1),
    text: MIXED_TEXT,
    peak: 0,
};

// A NULL by its bit and a date, whole in their packet.
const AFTER_A_BITMAP: Reading = Reading {
    what: "no cell after a bitmap that lies whole in its packet",
    token: Token::NbcRow,
    columns: &[INT4, DATE],
    bytes: &[0x01, 3, 0xDA, 0xB9, 0x37],
    size: 4000,
    answer: Ok(1),
    text: b"NULL,9999-12-31\r\n",
    peak: 0,
};

// The description of three kinds has 27 bytes and that of a date 10, and the date of three kinds begins 5 bytes after it.
const READINGS: [Reading; 10] = [
    Reading {
        what: "each cell of a row by itself",
        size: 3,
        peak: 4,
        ..THREE_KINDS
    },
    Reading {
        what: "the longest cell",
        token: Token::Row,
        columns: &[WIDE_DECIMAL],
        bytes: NINES,
        size: 3,
        answer: Ok(1),
        text: NINES_TEXT,
        peak: 18,
    },
    Reading {
        what: "no cell that lies whole in the last bytes of its packet",
        peak: 0,
        ..THREE_KINDS
    },
    Reading {
        what: "no long value",
        token: Token::Row,
        columns: &[VARCHAR],
        bytes: &[3, 0, 0x41, 0x42, 0x43],
        size: 4000,
        answer: Ok(1),
        text: b"\"ABC\"\r\n",
        peak: 0,
    },
    Reading {
        what: "a bad date after two values",
        token: Token::Row,
        columns: MIXED,
        bytes: &[42, 0, 0, 0, 0, 3, 0xDB, 0xB9, 0x37],
        size: 1,
        answer: Err(Stop {
            fault: Fault::BadValue { column: 2 },
            place: Place::Payload(33),
        }),
        text: b"42,NULL",
        peak: 4,
    },
    Reading {
        what: "no cell of many rows that lies whole in its packet",
        token: Token::Rows,
        ..THREE_KINDS
    },
    Reading {
        what: "a date across the end of a packet",
        token: Token::Rows,
        size: 33,
        peak: 4,
        ..THREE_KINDS
    },
    Reading {
        what: "a date whose length isn't allowed",
        token: Token::Rows,
        columns: &[DATE],
        bytes: &[4, 0, 0, 0, 0],
        size: 4000,
        answer: Err(Stop {
            fault: Fault::BadValueLength { column: 0 },
            place: Place::Payload(10),
        }),
        text: b"",
        peak: 0,
    },
    AFTER_A_BITMAP,
    Reading {
        what: "a date after a bitmap, across the end of a packet",
        size: 3,
        peak: 4,
        ..AFTER_A_BITMAP
    },
];

fn read(alloc: Global, reading: &Reading) -> Result<Outcome, Fail> {
    run(
        alloc,
        reading.token,
        reading.columns,
        reading.bytes,
        reading.size,
        0,
        usual_writer(),
        reading.text,
    )
}

#[test]
fn rows_are_read_in_little_room(rt: HostRuntime) -> Result<(), Fail> {
    for reading in &READINGS {
        let out = read(rt.alloc(), reading)?;
        let came = (out.answer, out.text, out.peak);
        let want = (reading.answer, Some(reading.text.len()), reading.peak);
        expect(&rt, reading.what, came == want);
    }
    Ok(())
}

// A row after `waiting` bytes that wait.
fn write_after(
    alloc: Global,
    columns: &[&[u8]],
    bytes: &[u8],
    waiting: usize,
    to: ScriptedWriter,
    wanted: &[u8],
) -> Result<(Result<u64, Stop>, Option<usize>), Fail> {
    let out = run(alloc, Token::Row, columns, bytes, 4000, waiting, to, wanted)?;
    Ok((out.answer, out.text))
}

// The line lies across the end of a block, or after it.
#[test]
fn a_line_lies_across_a_block(rt: HostRuntime) -> Result<(), Fail> {
    for waiting in 4060..=4095 {
        let to = usual_writer();
        let came = write_after(rt.alloc(), MIXED, MIXED_ROW, waiting, to, MIXED_TEXT)?;
        let want = (Ok(1), Some(waiting + MIXED_TEXT.len()));
        expect_at(&rt, "bytes wait", waiting, came == want);
    }
    Ok(())
}

// The type of nvarchar(max), and a character of two units, its four bytes in three chunks. Its line has 8 bytes.
const NVARCHAR_MAX: &[u8] = &[0xE7, 0xFF, 0xFF, 0x09, 0x04, 0xD0, 0x00, 0x34];

const FACE: &[u8] = &[
    4, 0, 0, 0, 0, 0, 0, 0, 1, 0, 0, 0, 0x3D, 2, 0, 0, 0, 0xD8, 0x00, 1, 0, 0, 0, 0xDE, 0, 0, 0, 0,
];

// A block ends after each byte of the line, and the writer takes 4,000 bytes of it and then fails.
#[test]
fn a_write_fails(rt: HostRuntime) -> Result<(), Fail> {
    let stop = Stop {
        fault: Fault::WriteFailed,
        place: Place::Text(4000),
    };
    for n in 1..=20usize {
        let to = ScriptedWriter::new(1000, Failing::AfterBytes(4000));
        let waiting = 4096 - n;
        let came = write_after(rt.alloc(), MIXED, MIXED_ROW, waiting, to, b"")?;
        expect_at(&rt, "three kinds", n, came == (Err(stop), Some(4000)));
    }
    for n in 1..=8usize {
        let to = ScriptedWriter::new(1000, Failing::AfterBytes(4000));
        let waiting = 4096 - n;
        let came = write_after(rt.alloc(), &[NVARCHAR_MAX], FACE, waiting, to, b"")?;
        expect_at(&rt, "a long value", n, came == (Err(stop), Some(4000)));
    }
    Ok(())
}
