// Whole responses, from the wire to the text and the answer, as far as a device that fails, few bytes a call, or a look into
// the areas shows more than a run of the program: `examples/worked.txt` has all that such a run shows.
ghost use Rattle.std.specs.Prelude.{IfOk, IsTrue};
ghost use Rattle.tds_meter.specs.Rooms.{is_intact};

use crate::checks::same;
use std::alloc::{AllocError, Global};
use std::io::Read;
use std::test::Fail;
use tds_export::*;
use tds_meter::{Areas, Limits};
use tds_packet::rig::{Failing, RepeatingReader, ScriptedReader, ScriptedWriter};
use tds_packet::{Counted, Fault, Place, RefusedKind};

mod every_cut;
mod long_values;
mod memory;
mod writers;

// A column of numbers named a, a row of 42, and a DONE, in one packet.
pub(crate) const WIRE: [u8; 39] = [
    0x04, 0x01, 0x00, 0x27, 0x00, 0x00, 0x01, 0x00, 0x81, 0x01, 0x00, 0x00, 0x00, 0x00, 0x00, 0x08,
    0x00, 0x38, 0x01, 0x61, 0x00, 0xD1, 0x2A, 0x00, 0x00, 0x00, 0xFD, 0x10, 0x00, 0xC1, 0x00, 0x01,
    0x00, 0x00, 0x00, 0x00, 0x00, 0x00, 0x00,
];

// Its text.
pub(crate) const TEXT: &[u8] = b"\"a\"\r\n42\r\n";

const NOTHING: &[u8] = b"";

const DONE: &[u8] = &[
    0x04, 0x01, 0x00, 0x15, 0x00, 0x00, 0x01, 0x00, 0xFD, 0, 0, 0, 0, 0, 0, 0, 0, 0, 0, 0, 0,
];

// The rooms and the limit that most responses are read under.
const PACKET_SIZE: u16 = 4096;

const COLUMN_ROOM: u32 = 1_048_576;

const MAX_WIRE: u64 = 1_099_511_627_776;

// What an export came to.
#[derive(Clone, Copy, PartialEq, Eq)]
struct Outcome {
    answer: Result<Report, Stopped>,
    // how many bytes the writer took, the first of the text that is expected
    text: Option<usize>,
    // the bytes that the reader still has
    left: usize,
    read_failures: u64,
    write_failures: u64,
}

// All of the text was written, and all of the input read.
const fn came_to(answer: Result<Report, Stopped>, text: &[u8]) -> Outcome {
    Outcome {
        answer,
        text: Some(text.len()),
        left: 0,
        read_failures: 0,
        write_failures: 0,
    }
}

// What is wanted where the writer fails once it took these bytes, and these wait.
fn broken_after(taken: &[u8], waiting: &[u8]) -> Outcome {
    let answer = Err(Stopped {
        fault: Fault::WriteFailed,
        place: Place::Text(taken.len() as u64),
        written: taken.len() as u64,
        unwritten: waiting.len() as u64,
    });
    Outcome {
        write_failures: 1,
        ..came_to(answer, taken)
    }
}

const fn report(sets: u64, rows: u64, written: u64) -> Report {
    Report {
        sets,
        rows,
        errors: 0,
        infos: 0,
        first_error: None,
        return_status: None,
        written,
        return_values: 0,
    }
}

// The answer to a fault of the input: all of the text was delivered.
const fn stopped(fault: Fault, place: Place, text: &[u8]) -> Result<Report, Stopped> {
    Err(Stopped {
        fault,
        place,
        written: text.len() as u64,
        unwritten: 0,
    })
}

// Areas for packets of up to so many bytes.
fn make_areas(alloc: Global, packet_size: u16) -> Result<Areas, Fail>
    ensures { IfOk result (λ areas. IsTrue (is_intact areas)) }
{
    let limits = Limits::new(packet_size, COLUMN_ROOM, MAX_WIRE)?;
    let areas = Areas::new(alloc, limits)?;
    Ok(areas)
}

// How many bytes there are, if a longer list begins with them.
fn front_of(bytes: &[u8], longer: &[u8]) -> Option<usize> {
    if longer.starts_with(bytes) {
        Some(bytes.len())
    } else {
        None
    }
}

fn front(bytes: &[u8], n: usize) -> &[u8] {
    &bytes[..n.min(bytes.len())]
}

// The answer of an export. Nothing comes of areas that were exchanged.
fn answer_of<R: Read>(
    areas: &mut Areas,
    from: &mut Counted<R>,
    to: &mut Counted<ScriptedWriter>,
    charset: Charset,
) -> Option<Result<Report, Stopped>> {
    if areas.intact() {
        Some(export(areas, from, to, charset))
    } else {
        None
    }
}

// What came of an input under a character set, where this text is expected.
fn run(
    areas: &mut Areas,
    from: ScriptedReader<'_>,
    to: ScriptedWriter,
    charset: Charset,
    text: &[u8],
) -> Option<Outcome> {
    let mut from = Counted::new(from);
    let mut to = Counted::new(to);
    let answer = answer_of(areas, &mut from, &mut to, charset)?;
    Some(Outcome {
        answer,
        text: front_of(to.device().kept(), text),
        left: from.device().left().len(),
        read_failures: from.failures(),
        write_failures: to.failures(),
    })
}

// What came of a wire that repeats: the answer, how many bytes the writer took, and how many of those it
// kept, where the text that is expected begins with them.
#[derive(Clone, Copy, PartialEq, Eq)]
struct Repeated {
    answer: Result<Report, Stopped>,
    taken: usize,
    kept: Option<usize>,
}

fn run_repeated(
    areas: &mut Areas,
    from: RepeatingReader<'_>,
    to: ScriptedWriter,
    text: &[u8],
) -> Option<Repeated> {
    let mut from = Counted::new(from);
    let mut to = Counted::new(to);
    let answer = answer_of(areas, &mut from, &mut to, Charset::Windows1252)?;
    Some(Repeated {
        answer,
        taken: to.device().taken(),
        kept: front_of(to.device().kept(), text),
    })
}

// A response, its sets and rows or the stop in its payload, its text, how many bytes the description has in the end, and
// the most that it had.
struct Metered {
    what: &'static str,
    wire: &'static [u8],
    rows: (u64, u64),
    stop: Option<(Fault, u64)>,
    text: &'static [u8],
    held: u64,
    peak: u64,
}

const METERED: [Metered; 6] = [
    Metered {
        what: "a row",
        wire: &WIRE,
        rows: (1, 1),
        stop: None,
        text: TEXT,
        held: 12,
        peak: 12,
    },
    Metered {
        what: "a DONE alone",
        wire: DONE,
        rows: (0, 0),
        stop: None,
        text: NOTHING,
        held: 0,
        peak: 0,
    },
    // a COLMETADATA without metadata: its Count stood
    Metered {
        what: "no metadata",
        wire: &[
            0x04, 0x01, 0x00, 0x18, 0x00, 0x00, 0x01, 0x00, 0x81, 0xFF, 0xFF, 0xFD, 0, 0, 0, 0, 0,
            0, 0, 0, 0, 0, 0, 0,
        ],
        rows: (0, 0),
        stop: None,
        text: NOTHING,
        held: 0,
        peak: 2,
    },
    // a column of nvarchar(max) and a row of NULL
    Metered {
        what: "a long kind",
        wire: &[
            0x04, 0x01, 0x00, 0x32, 0x00, 0x00, 0x01, 0x00, 0x81, 1, 0, 0, 0, 0, 0, 0, 0, 0xE7,
            0xFF, 0xFF, 9, 4, 0xD0, 0, 0x34, 1, 0x74, 0, 0xD1, 0xFF, 0xFF, 0xFF, 0xFF, 0xFF, 0xFF,
            0xFF, 0xFF, 0xFD, 0, 0, 0, 0, 0, 0, 0, 0, 0, 0, 0, 0,
        ],
        rows: (1, 1),
        stop: None,
        text: b"\"t\"\r\nNULL\r\n",
        held: 19,
        peak: 19,
    },
    // a column of FLT8: the Count stands, and its head of 7 bytes stood
    Metered {
        what: "a refused kind",
        wire: &[
            0x04, 0x01, 0x00, 0x12, 0x00, 0x00, 0x01, 0x00, 0x81, 1, 0, 0, 0, 0, 0, 0, 0, 0x3E,
        ],
        rows: (0, 0),
        stop: Some((
            Fault::RefusedColumn {
                index: 0,
                kind: RefusedKind::Flt8,
            },
            3,
        )),
        text: NOTHING,
        held: 2,
        peak: 9,
    },
    // a row after a COLMETADATA without metadata
    Metered {
        what: "no metadata after a set",
        wire: &[
            0x04, 0x01, 0x00, 0x19, 0x00, 0x00, 0x01, 0x00, 0x81, 1, 0, 0, 0, 0, 0, 0, 0, 0x38, 1,
            0x61, 0, 0x81, 0xFF, 0xFF, 0xD1,
        ],
        rows: (0, 0),
        stop: Some((Fault::RowWithoutColumns, 16)),
        text: b"\"a\"\r\n",
        held: 0,
        peak: 12,
    },
];

// What is wanted of it.
fn wanted(row: &Metered) -> Outcome {
    let (sets, rows) = row.rows;
    let answer = match row.stop {
        None => Ok(report(sets, rows, row.text.len() as u64)),
        Some((fault, place)) => stopped(fault, Place::Payload(place), row.text),
    };
    came_to(answer, row.text)
}

// The devices give and take at most `most` bytes a call.
fn check_metered(areas: &mut Areas, row: &Metered, most: usize, restarts: u64) -> Result<(), Fail> {
    let from = ScriptedReader::new(row.wire, most);
    let to = ScriptedWriter::new(most, Failing::Never);
    let out = run(areas, from, to, Charset::Windows1252, row.text);
    same(row.what, &out, &Some(wanted(row)))?;
    let held = (areas.description_held(), areas.description_peak());
    same(row.what, &held, &(row.held, row.peak))?;
    let is_little = areas.peak_rest() <= 4096 + 65_536 + 4736;
    let meters = (areas.restarts(), is_little, areas.error_text().len());
    same(row.what, &meters, &(restarts, true, 0))
}

// The areas are those of the response before.
#[test]
fn responses_are_written_and_metered(rt: HostRuntime) -> Result<(), Fail> {
    let mut areas = make_areas(rt.alloc(), PACKET_SIZE)?;
    let mut restarts: u64 = 0;
    for row in &METERED {
        for most in [1, 5, 1000] {
            restarts = restarts.saturating_add(1);
            check_metered(&mut areas, row, most, restarts)?;
        }
    }
    Ok(())
}

// A packet of the Count of 65,534 columns, and one of a column of numbers with an empty name.
const COUNT: &[u8] = &[0x04, 0, 0, 0x0B, 0, 0, 1, 0, 0x81, 0xFE, 0xFF];

const COLUMN: &[u8] = &[0x04, 0, 0, 0x10, 0, 0, 1, 0, 0, 0, 0, 0, 0, 0, 0x38, 0];

// The text of two quotes for each column, a comma between them, and the line's end.
#[test]
fn the_longest_description_is_held(rt: HostRuntime) -> Result<(), Fail> {
    let mut areas = make_areas(rt.alloc(), PACKET_SIZE)?;
    let from = RepeatingReader::new(COUNT, COLUMN, 65_534, DONE);
    let to = ScriptedWriter::new(4096, Failing::Never);
    let came = run_repeated(&mut areas, from, to, NOTHING);
    let want = Repeated {
        answer: Ok(report(1, 0, 196_603)),
        taken: 196_603,
        kept: None,
    };
    same("an answer", &came, &Some(want))?;
    let held = (areas.description_held(), areas.description_peak());
    same("its description", &held, &(524_274, 524_274))
}
