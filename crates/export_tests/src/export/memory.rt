// Memory that is refused once, and then granted.
ghost use Rattle.std.specs.Prelude.{IfOk, IsTrue};
ghost use Rattle.tds_meter.specs.Rooms.{is_intact};

use super::*;
use crate::checks::same;
use tds_meter::OutOfMemory;

// The Count of nine columns in the packet's front, a column whose values have a length, with an empty name, and the packet's
// end: an NBCROW of nine NULLs and a DONE.
const NINE: &[u8] = &[0x04, 0x01, 0x00, 0x6C, 0x00, 0x00, 0x01, 0x00, 0x81, 9, 0];

const LENGTHY: &[u8] = &[0, 0, 0, 0, 0, 0, 0x26, 0x04, 0];

const NULLS: &[u8] = &[0xD2, 0xFF, 0x01, 0xFD, 0, 0, 0, 0, 0, 0, 0, 0, 0, 0, 0, 0];

const NINE_TEXT: &[u8] =
    b"\"\",\"\",\"\",\"\",\"\",\"\",\"\",\"\",\"\"\r\nNULL,NULL,NULL,NULL,NULL,NULL,NULL,NULL,NULL\r\n";

// A column of nvarchar(max) named t, a row of one character in three chunks, and a DONE: the first packet ends
// in the length of the third chunk.
const CHUNKS: &[u8] = &[
    0x04, 0x00, 0x00, 0x34, 0x00, 0x00, 0x01, 0x00, 0x81, 0x01, 0x00, 0x00, 0x00, 0x00, 0x00, 0x00,
    0x00, 0xE7, 0xFF, 0xFF, 0x09, 0x04, 0xD0, 0x00, 0x34, 0x01, 0x74, 0x00, 0xD1, 0x04, 0x00, 0x00,
    0x00, 0x00, 0x00, 0x00, 0x00, 0x01, 0x00, 0x00, 0x00, 0x3D, 0x02, 0x00, 0x00, 0x00, 0xD8, 0x00,
    0x01, 0x00, 0x00, 0x00,
];

const LAST_CHUNK: &[u8] = &[
    0x04, 0x01, 0x00, 0x1A, 0x00, 0x00, 0x02, 0x00, 0xDE, 0x00, 0x00, 0x00, 0x00, 0xFD, 0x00, 0x00,
    0x00, 0x00, 0x00, 0x00, 0x00, 0x00, 0x00, 0x00, 0x00, 0x00,
];

const CHUNKS_TEXT: &[u8] = b"\"t\"\r\n\"\xF0\x9F\x98\x80\"\r\n";

// Two sets, of two rows and of one, an INFO in the first and an ERROR after it, in one packet.
const HEADER: &[u8] = &[0x04, 0x01, 0x00, 0x73, 0x00, 0x00, 0x01, 0x00];

const INFO_AND_ERROR: &[u8] = &[
    0x81, 0x01, 0x00, 0x00, 0x00, 0x00, 0x00, 0x00, 0x00, 0x38, 0x01, 0x61, 0x00, 0xD1, 0x01, 0x00,
    0x00, 0x00, 0xAB, 0x10, 0x00, 0x45, 0x16, 0x00, 0x00, 0x02, 0x00, 0x01, 0x00, 0x78, 0x00, 0x00,
    0x00, 0x01, 0x00, 0x00, 0x00, 0xD1, 0x02, 0x00, 0x00, 0x00, 0xFD, 0x01, 0x00, 0x00, 0x00, 0x00,
    0x00, 0x00, 0x00, 0x00, 0x00, 0x00, 0x00, 0xAA, 0x12, 0x00, 0xD0, 0x00, 0x00, 0x00, 0x01, 0x10,
    0x02, 0x00, 0x6E, 0x00, 0x6F, 0x00, 0x00, 0x00, 0x01, 0x00, 0x00, 0x00, 0x81, 0x01, 0x00, 0x00,
    0x00, 0x00, 0x00, 0x00, 0x00, 0x38, 0x01, 0x62, 0x00, 0xD1, 0x03, 0x00, 0x00, 0x00, 0xFD, 0x02,
    0x00, 0x00, 0x00, 0x00, 0x00, 0x00, 0x00, 0x00, 0x00, 0x00, 0x00,
];

const TWO_SETS_TEXT: &[u8] = b"\"a\"\r\n1\r\n2\r\n\r\n\"b\"\r\n3\r\n";

// The error.
const NOT_FOUND: ServerError = ServerError {
    number: 208,
    state: 1,
    class: 16,
    line: 1,
};

// A response in a first slice, one that comes so many times and a last one, its sets, rows and text, the message of its
// error, which comes with an INFO, and how many bytes the description has in the end.
struct Worked {
    what: &'static str,
    first: &'static [u8],
    repeated: (&'static [u8], u64),
    last: &'static [u8],
    sets: u64,
    rows: u64,
    text: &'static [u8],
    message: &'static [u8],
    held: u64,
}

const WORKED: [Worked; 4] = [
    Worked {
        what: "one row",
        first: &WIRE,
        repeated: (NOTHING, 0),
        last: NOTHING,
        sets: 1,
        rows: 1,
        text: TEXT,
        message: NOTHING,
        held: 12,
    },
    Worked {
        what: "nine NULLs",
        first: NINE,
        repeated: (LENGTHY, 9),
        last: NULLS,
        sets: 1,
        rows: 1,
        text: NINE_TEXT,
        message: NOTHING,
        held: 83,
    },
    Worked {
        what: "a value in chunks",
        first: CHUNKS,
        repeated: (NOTHING, 0),
        last: LAST_CHUNK,
        sets: 1,
        rows: 1,
        text: CHUNKS_TEXT,
        message: NOTHING,
        held: 19,
    },
    Worked {
        what: "an INFO and an ERROR",
        first: HEADER,
        repeated: (NOTHING, 0),
        last: INFO_AND_ERROR,
        sets: 2,
        rows: 3,
        text: TWO_SETS_TEXT,
        message: b"no",
        held: 12,
    },
];

// The devices are over arrays, so nothing is allocated here.
fn check_worked(areas: &mut Areas, row: &Worked) -> Result<(), Fail> {
    let (unit, times) = row.repeated;
    let from = RepeatingReader::new(row.first, unit, times, row.last);
    let to = ScriptedWriter::new(4096, Failing::Never);
    let came = run_repeated(areas, from, to, row.text);
    let plain = report(row.sets, row.rows, row.text.len() as u64);
    let answer = if row.message.is_empty() {
        plain
    } else {
        Report {
            errors: 1,
            infos: 1,
            first_error: Some(NOT_FOUND),
            ..plain
        }
    };
    let want = Repeated {
        answer: Ok(answer),
        taken: row.text.len(),
        kept: Some(row.text.len()),
    };
    let said = front_of(areas.error_text(), row.message);
    same(
        row.what,
        &(came, said),
        &(Some(want), Some(row.message.len())),
    )?;
    same(row.what, &areas.description_held(), &row.held)
}

// Areas that are asked for once more where a request for their memory was refused.
fn make_areas_again(alloc: Global) -> Result<Areas, Fail>
    ensures { IfOk result (λ areas. IsTrue (is_intact areas)) }
{
    let limits = Limits::new(PACKET_SIZE, COLUMN_ROOM, MAX_WIRE)?;
    match Areas::new(alloc, limits) {
        Ok(areas) => Ok(areas),
        Err(OutOfMemory) => Ok(Areas::new(alloc, limits)?),
    }
}

// It passes with any one request refused, those of the areas and all that come later: `make refused-memory`
// refuses each of them in turn.
#[test]
fn a_refused_request_changes_no_answer(rt: HostRuntime) -> Result<(), Fail> {
    let mut areas = make_areas_again(rt.alloc())?;
    for row in &WORKED {
        check_worked(&mut areas, row)?;
    }
    Ok(())
}
