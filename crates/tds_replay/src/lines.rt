// The lines on standard error. Those of a response are gathered, and written at once.
ghost use Rattle.std.specs.Prelude.{◌≡◌, Ok, map};
ghost use Rattle.tds_replay.specs.Lines.{FitsNotice, answer_lines, counts_line, error_line, fault_fields, fault_name as name_of_fault, kind_name as name_of_kind, memory_line, place_number, place_unit, recut_lines, responses_line, shown_byte, status_line, stop_line, unreadable_line, values_line};
ghost use Rattle.tds_replay.specs.Saying.{Gathers, Says};

use crate::pieces::{Gathered, NoteFailed, Piece, gather_all, put, say};
use arrayvec::ArrayVec;
use std::io::Write;
use tds_export::{Report, ServerError, Stopped};
use tds_meter::NOTICE_ROOM;
use tds_packet::{Counted, Fault, Place, Recut, RecutStop, RefusedKind};

// The name of a fault.
fn fault_name(fault: &Fault) -> &'static [u8]
    ensures { result.now ≡ name_of_fault fault.now }
{
    match fault {
        Fault::ReadFailed => b"ReadFailed",
        Fault::InputEnded => b"InputEnded",
        Fault::WrongPacketType(_) => b"WrongPacketType",
        Fault::BadPacketLength(_) => b"BadPacketLength",
        Fault::ResponseTooLong => b"ResponseTooLong",
        Fault::RefusedToken(_) => b"RefusedToken",
        Fault::MessageEnded => b"MessageEnded",
        Fault::EndWithoutDone => b"EndWithoutDone",
        Fault::NoColumns => b"NoColumns",
        Fault::RefusedColumn { .. } => b"RefusedColumn",
        Fault::UnknownType { .. } => b"UnknownType",
        Fault::BadTypeInfo { .. } => b"BadTypeInfo",
        Fault::DescriptionTooLong => b"DescriptionTooLong",
        Fault::RowWithoutColumns => b"RowWithoutColumns",
        Fault::BadValueLength { .. } => b"BadValueLength",
        Fault::BadValue { .. } => b"BadValue",
        Fault::OddText { .. } => b"OddText",
        Fault::PlpLength { .. } => b"PlpLength",
        Fault::BadNotice => b"BadNotice",
        Fault::WriteFailed => b"WriteFailed",
        Fault::BadText { .. } => b"BadText",
    }
}

// The name of a refused kind.
fn kind_name(kind: RefusedKind) -> &'static [u8]
    ensures { result.now ≡ name_of_kind kind }
{
    match kind {
        RefusedKind::Flt4 => b"FLT4",
        RefusedKind::Flt8 => b"FLT8",
        RefusedKind::FltN => b"FLTN",
        RefusedKind::Text => b"TEXT",
        RefusedKind::NText => b"NTEXT",
        RefusedKind::Image => b"IMAGE",
        RefusedKind::SsVariant => b"SSVARIANT",
        RefusedKind::Udt => b"UDT",
        RefusedKind::Xml => b"XML",
    }
}

// Adds the fields of a fault in order, each after a space.
fn add_fields<W: Write>(
    notes: &mut Counted<W>,
    gathered: &mut Gathered,
    fault: &Fault,
) -> Result<(), NoteFailed>
    ensures { Gathers W.contents notes.old notes.new gathered.old.items gathered.new.items
        (fault_fields fault.now) result }
{
    match *fault {
        Fault::WrongPacketType(byte) | Fault::RefusedToken(byte) => {
            gather_all(notes, gathered, &[Piece::Byte(b" ", byte)])
        }
        Fault::RefusedColumn { index, kind } => gather_all(
            notes,
            gathered,
            &[
                Piece::Number(b" ", u64::from(index)),
                Piece::Text(b" "),
                Piece::Text(kind_name(kind)),
            ],
        ),
        Fault::UnknownType { index, byte } => gather_all(
            notes,
            gathered,
            &[
                Piece::Number(b" ", u64::from(index)),
                Piece::Byte(b" ", byte),
            ],
        ),
        Fault::BadPacketLength(n)
        | Fault::BadTypeInfo { index: n }
        | Fault::BadValueLength { column: n }
        | Fault::BadValue { column: n }
        | Fault::OddText { column: n }
        | Fault::PlpLength { column: n }
        | Fault::BadText { column: n } => gather_all(
            notes,
            gathered,
            &[Piece::Number(b" ", u64::from(n))],
        ),
        _ => Ok(()),
    }
}

// What a place counts, and how many of them come before it.
fn place_parts(place: &Place) -> (&'static [u8], u64)
    ensures unit { result.0.now ≡ place_unit place.now }
    ensures number { result.1 ≡ place_number place.now }
{
    match *place {
        Place::Wire(n) => (b"wire", n),
        Place::Payload(n) => (b"payload", n),
        Place::Text(n) => (b"text", n),
    }
}

// Adds the line of a stop.
fn add_stop<W: Write>(
    notes: &mut Counted<W>,
    gathered: &mut Gathered,
    stopped: &Stopped,
) -> Result<(), NoteFailed>
    ensures { Gathers W.contents notes.old notes.new gathered.old.items gathered.new.items
        (stop_line stopped.now) result }
{
    gather_all(
        notes,
        gathered,
        &[
            Piece::Number(b"fault ", u64::from(stopped.fault.number())),
            Piece::Text(b" "),
            Piece::Text(fault_name(&stopped.fault)),
        ],
    )?;
    add_fields(notes, gathered, &stopped.fault)?;
    let (unit, number) = place_parts(&stopped.place);
    gather_all(
        notes,
        gathered,
        &[
            Piece::Text(b" at "),
            Piece::Text(unit),
            Piece::Number(b" ", number),
            Piece::Number(b", written ", stopped.written),
            Piece::Number(b", unwritten ", stopped.unwritten),
            Piece::Text(b"\n"),
        ],
    )
}

// Adds the line of a report's counts.
fn add_counts<W: Write>(
    notes: &mut Counted<W>,
    gathered: &mut Gathered,
    report: &Report,
) -> Result<(), NoteFailed>
    ensures { Gathers W.contents notes.old notes.new gathered.old.items gathered.new.items
        (counts_line report.now) result }
{
    gather_all(
        notes,
        gathered,
        &[
            Piece::Number(b"sets ", report.sets),
            Piece::Number(b" rows ", report.rows),
            Piece::Number(b" errors ", report.errors),
            Piece::Number(b" infos ", report.infos),
            Piece::Number(b" written ", report.written),
            Piece::Text(b"\n"),
        ],
    )
}

// Adds the line of the values that procedures returned, if there are any.
fn add_values<W: Write>(
    notes: &mut Counted<W>,
    gathered: &mut Gathered,
    values: u64,
) -> Result<(), NoteFailed>
    ensures { Gathers W.contents notes.old notes.new gathered.old.items gathered.new.items (values_line values) result }
{
    if values == 0 {
        return Ok(());
    }
    gather_all(
        notes,
        gathered,
        &[Piece::Number(b"return values ", values), Piece::Text(b"\n")],
    )
}

// Adds the line of the last return status, if there is one.
fn add_status<W: Write>(
    notes: &mut Counted<W>,
    gathered: &mut Gathered,
    status: Option<i32>,
) -> Result<(), NoteFailed>
    ensures { Gathers W.contents notes.old notes.new gathered.old.items gathered.new.items (status_line status) result }
{
    let Some(status) = status else {
        return Ok(());
    };
    gather_all(
        notes,
        gathered,
        &[Piece::Signed(b"return status ", status), Piece::Text(b"\n")],
    )
}

// A message as it is printed: control characters are spaces.
fn shown(message: &[u8]) -> ArrayVec<u8, NOTICE_ROOM>
    requires { FitsNotice message.now }
    ensures { result.items ≡ map shown_byte message.now }
{
    let mut text = ArrayVec::new();
    'bytes: for &byte in message {
        text.push(if byte < b' ' || byte == 0x7F {
            b' '
        } else {
            byte
        });
    }
    text
}

// Adds the line of the first error with its message, if there is one.
fn add_error<W: Write>(
    notes: &mut Counted<W>,
    gathered: &mut Gathered,
    error: &Option<ServerError>,
    message: &[u8],
) -> Result<(), NoteFailed>
    requires { FitsNotice message.now }
    ensures { Gathers W.contents notes.old notes.new gathered.old.items gathered.new.items
        (error_line error.now message.now) result }
{
    let Some(error) = error else {
        return Ok(());
    };
    let text = shown(message);
    gather_all(
        notes,
        gathered,
        &[
            Piece::Signed(b"server error ", error.number),
            Piece::Number(b", state ", u64::from(error.state)),
            Piece::Number(b", class ", u64::from(error.class)),
            Piece::Signed(b", line ", error.line),
            Piece::Text(b": "),
            Piece::Text(text.as_slice()),
            Piece::Text(b"\n"),
        ],
    )
}

// Adds the lines of a report.
fn add_report<W: Write>(
    notes: &mut Counted<W>,
    gathered: &mut Gathered,
    report: &Report,
    message: &[u8],
) -> Result<(), NoteFailed>
    requires { FitsNotice message.now }
    ensures { Gathers W.contents notes.old notes.new gathered.old.items gathered.new.items
        (answer_lines (Ok report.now) message.now) result }
{
    add_counts(notes, gathered, report)?;
    add_values(notes, gathered, report.return_values)?;
    add_status(notes, gathered, report.return_status)?;
    add_error(notes, gathered, &report.first_error, message)
}

// Adds the lines of an export's result.
fn add_answer<W: Write>(
    notes: &mut Counted<W>,
    gathered: &mut Gathered,
    answer: &Result<Report, Stopped>,
    message: &[u8],
) -> Result<(), NoteFailed>
    requires { FitsNotice message.now }
    ensures { Gathers W.contents notes.old notes.new gathered.old.items gathered.new.items
        (answer_lines answer.now message.now) result }
{
    match answer {
        Ok(report) => add_report(notes, gathered, report, message),
        Err(stopped) => add_stop(notes, gathered, stopped),
    }
}

/// Writes the lines of an export's result, with the message of the first error.
pub fn say_answer<W: Write>(
    notes: &mut Counted<W>,
    answer: &Result<Report, Stopped>,
    message: &[u8],
) -> Result<(), NoteFailed>
    requires { FitsNotice message.now }
    ensures { Says W.contents notes.old notes.new (answer_lines answer.now message.now) result }
{
    let mut gathered = Gathered::new();
    add_answer(notes, &mut gathered, answer, message)?;
    put(notes, gathered.as_slice())
}

/// Writes the line of a stop.
pub(crate) fn say_stop<W: Write>(
    notes: &mut Counted<W>,
    stopped: &Stopped,
) -> Result<(), NoteFailed>
    ensures { Says W.contents notes.old notes.new (stop_line stopped.now) result }
{
    let mut gathered = Gathered::new();
    add_stop(notes, &mut gathered, stopped)?;
    put(notes, gathered.as_slice())
}

/// Writes the line of a recut's result.
pub(crate) fn say_recut_answer<W: Write>(
    notes: &mut Counted<W>,
    answer: &Result<Recut, RecutStop>,
) -> Result<(), NoteFailed>
    ensures { Says W.contents notes.old notes.new (recut_lines answer.now) result }
{
    match answer {
        Ok(done) => say(
            notes,
            &[
                Piece::Number(b"packets ", done.packets),
                Piece::Number(b" payload ", done.payload),
                Piece::Text(b"\n"),
            ],
        ),
        Err(stopped) => say_stop(
            notes,
            &Stopped {
                fault: stopped.stop.fault,
                place: stopped.stop.place,
                written: stopped.written,
                unwritten: stopped.unwritten,
            },
        ),
    }
}

/// Writes the line that counts responses.
pub(crate) fn say_responses<W: Write>(
    notes: &mut Counted<W>,
    responses: u64,
) -> Result<(), NoteFailed>
    ensures { Says W.contents notes.old notes.new (responses_line responses) result }
{
    say(
        notes,
        &[Piece::Number(b"responses ", responses), Piece::Text(b"\n")],
    )
}

/// Writes the line of a file that can't be opened.
pub fn say_unreadable<W: Write>(notes: &mut Counted<W>, path: &str) -> Result<(), NoteFailed>
    ensures { Says W.contents notes.old notes.new (unreadable_line path.now) result }
{
    say(
        notes,
        &[
            Piece::Text(b"cannot read "),
            Piece::Text(path.as_bytes()),
            Piece::Text(b"\n"),
        ],
    )
}

/// Writes the line of want of memory.
pub fn say_want_of_memory<W: Write>(notes: &mut Counted<W>) -> Result<(), NoteFailed>
    ensures { Says W.contents notes.old notes.new memory_line result }
{
    say(notes, &[Piece::Text(b"want of memory\n")])
}
