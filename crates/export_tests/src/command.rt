// The command over devices that fail, and its public calls. `examples/worked.txt` has what it writes and says of responses,
// messages and arguments.
ghost use Rattle.std.specs.Prelude.{IfOk};
ghost use Rattle.tds_arguments.specs.Jobs.{IsInRange};

mod arguments;
mod lines;
mod responses;

use crate::checks::expect;
use crate::export::{TEXT, WIRE};
use csv::{ByteRecord, ReaderBuilder};
use std::alloc::{AllocError, Global};
use std::process::Abort;
use std::test::Fail;
use tds_export::Charset;
use tds_meter::Limits;
use tds_packet::Counted;
use tds_packet::rig::{Failing, ScriptedReader, ScriptedWriter};
use tds_replay::{Job, Usage, parse, perform, say_usage};

// A line of arguments.
fn arguments_of(alloc: Global, line: &[&str]) -> Result<Vec<String>, AllocError> {
    let mut arguments = Vec::new(alloc);
    for word in line {
        arguments.push(String::from_str(alloc, word)?)?;
    }
    Ok(arguments)
}

// The job of a line of arguments.
fn job(rt: &HostRuntime, line: &[&str]) -> Result<Job, Usage>
    ensures { IfOk result IsInRange }
{
    parse(rt.alloc(), arguments_of(rt.alloc(), line)?.as_slice())
}

// The command over a reader and two writers, and its status.
fn run(
    rt: &HostRuntime,
    line: &[&str],
    from: &mut Counted<ScriptedReader>,
    to: &mut Counted<ScriptedWriter>,
    notes: &mut Counted<ScriptedWriter>,
) -> u8 {
    match job(rt, line) {
        Ok(job) => perform(rt.alloc(), &job, from, to, notes),
        Err(usage) => say_usage(&usage, to, notes).number(),
    }
}

fn writer(failing: Failing) -> Counted<ScriptedWriter> {
    Counted::new(ScriptedWriter::new(4096, failing))
}

fn reader(bytes: &[u8]) -> Counted<ScriptedReader<'_>> {
    Counted::new(ScriptedReader::new(bytes, 4096))
}

// Another program's reader of CSV finds the name and the number in the text.
#[test]
fn the_text_reads_back(rt: HostRuntime) -> Result<(), Fail> {
    let (mut to, mut notes) = (writer(Failing::Never), writer(Failing::Never));
    run(&rt, EXPORT, &mut reader(&WIRE), &mut to, &mut notes);
    let mut text = ReaderBuilder::new()
        .has_headers(false)
        .from_reader(rt.alloc(), to.device().kept());
    let mut row = ByteRecord::new(rt.alloc());
    for (what, field) in [
        ("the name", b"a".as_slice()),
        ("the number", b"42".as_slice()),
    ] {
        expect(
            &rt,
            what,
            text.read_byte_record(&mut row).ok() == Some(true),
        );
        expect(&rt, what, row.len() == 1);
        expect(&rt, what, row.get(0) == Some(field));
    }
    assert!(rt; text.read_byte_record(&mut row).ok() == Some(false));
    Ok(())
}

#[test]
fn a_failed_read_ends_with_5(rt: HostRuntime) -> Result<(), Fail> {
    let lines: [&[&str]; 3] = [EXPORT, &["check"], RECUT];
    'lines: for line in lines {
        let (mut to, mut notes) = (writer(Failing::Never), writer(Failing::Never));
        let mut from = Counted::new(ScriptedReader::failing(&WIRE, 4096, 20));
        assert!(rt; run(&rt, line, &mut from, &mut to, &mut notes) == 5);
        assert!(rt; to.device().taken() == 0);
        let said = b"fault 1 ReadFailed at wire 0, written 0, unwritten 0\n";
        assert!(rt; notes.device().kept() == said.as_slice());
    }
    Ok(())
}

const EXPORT: &[&str] = &["export"];

const RECUT: &[&str] = &["recut", "--packet-size", "512"];

// The arguments of a job, how its writer fails, how many bytes it took, and the line. Where it takes some bytes and then fails
// it's as a pipe that is closed.
const BROKEN: [(&[&str], Failing, usize, &[u8]); 13] = [
    (
        EXPORT,
        Failing::AfterBytes(0),
        0,
        b"fault 20 WriteFailed at text 0, written 0, unwritten 9\n",
    ),
    (
        EXPORT,
        Failing::AfterBytes(1),
        1,
        b"fault 20 WriteFailed at text 1, written 1, unwritten 8\n",
    ),
    (
        EXPORT,
        Failing::AfterBytes(2),
        2,
        b"fault 20 WriteFailed at text 2, written 2, unwritten 7\n",
    ),
    (
        EXPORT,
        Failing::AfterBytes(3),
        3,
        b"fault 20 WriteFailed at text 3, written 3, unwritten 6\n",
    ),
    (
        EXPORT,
        Failing::AfterBytes(4),
        4,
        b"fault 20 WriteFailed at text 4, written 4, unwritten 5\n",
    ),
    (
        EXPORT,
        Failing::AfterBytes(5),
        5,
        b"fault 20 WriteFailed at text 5, written 5, unwritten 4\n",
    ),
    (
        EXPORT,
        Failing::AfterBytes(6),
        6,
        b"fault 20 WriteFailed at text 6, written 6, unwritten 3\n",
    ),
    (
        EXPORT,
        Failing::AfterBytes(7),
        7,
        b"fault 20 WriteFailed at text 7, written 7, unwritten 2\n",
    ),
    (
        EXPORT,
        Failing::AfterBytes(8),
        8,
        b"fault 20 WriteFailed at text 8, written 8, unwritten 1\n",
    ),
    (
        RECUT,
        Failing::AfterBytes(0),
        0,
        b"fault 20 WriteFailed at text 0, written 0, unwritten 39\n",
    ),
    (
        RECUT,
        Failing::AfterBytes(8),
        8,
        b"fault 20 WriteFailed at text 8, written 8, unwritten 31\n",
    ),
    (
        RECUT,
        Failing::ZeroAfterBytes(38),
        38,
        b"fault 20 WriteFailed at text 38, written 38, unwritten 1\n",
    ),
    (
        RECUT,
        Failing::InFlush,
        39,
        b"fault 20 WriteFailed at text 39, written 39, unwritten 0\n",
    ),
];

#[test]
fn a_failed_write_ends_with_5(rt: HostRuntime) -> Result<(), Fail> {
    'rows: for (line, failing, taken, said) in &BROKEN {
        let (mut to, mut notes) = (writer(*failing), writer(Failing::Never));
        let status = run(&rt, line, &mut reader(&WIRE), &mut to, &mut notes);
        let whole = if line.len() == 1 {
            TEXT
        } else {
            WIRE.as_slice()
        };
        expect(&rt, "a status", status == 5);
        expect(&rt, "what was taken", to.device().taken() == *taken);
        expect(&rt, "its bytes", whole.starts_with(to.device().kept()));
        expect(&rt, "a line", notes.device().kept() == *said);
    }
    Ok(())
}

#[test]
fn a_failed_note_changes_no_status(rt: HostRuntime) -> Result<(), Fail> {
    let (mut to, mut notes) = (writer(Failing::Never), writer(Failing::AfterBytes(8)));
    let status = run(&rt, &["export"], &mut reader(&WIRE), &mut to, &mut notes);
    assert!(rt; status == 0);
    assert!(rt; to.device().kept() == TEXT);
    assert!(rt; notes.device().kept() == b"sets 1 r".as_slice());
    assert!(rt; notes.failures() == 1);
    Ok(())
}

// Performs a job over the response of one row. Where memory is refused nothing is read or written, the line says
// so, and the job is performed again.
fn perform_again(
    rt: &impl Abort,
    alloc: Global,
    what: &str,
    job: &Job,
    to: &mut Counted<ScriptedWriter>,
) -> u8
    requires { IsInRange job.now }
{
    let (mut from, mut notes) = (reader(&WIRE), writer(Failing::Never));
    let status = perform(alloc, job, &mut from, to, &mut notes);
    if status != 6 {
        return status;
    }
    expect(rt, what, from.device().left() == WIRE.as_slice());
    expect(rt, what, to.device().writes() == 0);
    expect(
        rt,
        what,
        notes.device().kept() == b"want of memory\n".as_slice(),
    );
    perform(alloc, job, &mut from, to, &mut notes)
}

// The jobs are made without memory, so a request that is refused is one of theirs. `make refused-memory` refuses
// each of them in turn.
#[test]
fn want_of_memory_leaves_the_input(rt: HostRuntime) -> Result<(), Fail> {
    let limits = Limits::new(4096, 1024, 4096)?;
    let (charset, file) = (Charset::Windows1252, None);
    let exports = Job::Export {
        limits,
        charset,
        file,
    };
    let recuts = Job::Recut {
        packet_size: 512,
        max_wire: 4096,
        file: None,
    };
    let (mut text, mut wire) = (writer(Failing::Never), writer(Failing::Never));
    let status = perform_again(&rt, rt.alloc(), "an export", &exports, &mut text);
    expect(&rt, "an export", status == 0);
    let status = perform_again(&rt, rt.alloc(), "a recut", &recuts, &mut wire);
    expect(&rt, "a recut", status == 0);
    expect(&rt, "its text", text.device().kept() == TEXT);
    expect(&rt, "its wire", wire.device().taken() == 39);
    Ok(())
}
