// What arguments mean.
use super::{job, run, writer};
use std::process::Abort;
use std::test::Fail;
use tds_export::Charset;
use tds_packet::Counted;
use tds_packet::rig::{Failing, ScriptedReader};
use tds_replay::Job;

// What a command line is held to: one that came out otherwise is named.
fn expect_line(rt: &impl Abort, line: &[&str], holds: bool) {
    assert!(rt; holds, "{line:?}");
}

// A job of a response as a row of a table: its limits, whether its text is UTF-8, and its file.
type Reads<'a> = (u16, u32, u64, bool, Option<&'a str>);

// A job that reads responses.
#[derive(Debug, Clone, Copy, PartialEq, Eq)]
enum Kind {
    Export,
    Check,
    ExportAll,
    CheckAll,
}

// What a job of `export` or `check` reads, and which it is.
fn reads(job: &Job) -> Option<(Reads<'_>, Kind)> {
    let (limits, charset, kind) = match job {
        Job::Export {
            limits,
            charset,
            ..
        } => (limits, charset, Kind::Export),
        Job::Check {
            limits,
            charset,
            ..
        } => (limits, charset, Kind::Check),
        Job::ExportAll {
            limits,
            charset,
            ..
        } => (limits, charset, Kind::ExportAll),
        Job::CheckAll {
            limits,
            charset,
            ..
        } => (limits, charset, Kind::CheckAll),
        Job::Recut { .. } => return None,
    };
    let is_utf_8 = matches!(charset, Charset::Utf8);
    let numbers = (
        limits.packet_size(),
        limits.column_room(),
        limits.max_wire(),
        is_utf_8,
        job.file(),
    );
    Some((numbers, kind))
}

// Words of a job that reads responses, which it is, and what it reads.
const READING: [(&[&str], Kind, Reads); 10] = [
    (
        &["export"],
        Kind::Export,
        (4096, 1_048_576, 1_099_511_627_776, false, None),
    ),
    (
        &["check"],
        Kind::Check,
        (4096, 1_048_576, 1_099_511_627_776, false, None),
    ),
    (
        &["check", "f"],
        Kind::Check,
        (4096, 1_048_576, 1_099_511_627_776, false, Some("f")),
    ),
    (
        &[
            "export",
            "--packet-size",
            "512",
            "--column-room",
            "10",
            "--max-wire",
            "8",
            "--charset",
            "utf-8",
            "f",
        ],
        Kind::Export,
        (512, 10, 8, true, Some("f")),
    ),
    (
        &[
            "export",
            "f",
            "--charset=windows-1252",
            "--max-wire=72057594037927936",
            "--packet-size=32767",
            "--column-room=67108864",
        ],
        Kind::Export,
        (32767, 67_108_864, 72_057_594_037_927_936, false, Some("f")),
    ),
    (
        &["check", "--packet-size", "0512"],
        Kind::Check,
        (512, 1_048_576, 1_099_511_627_776, false, None),
    ),
    (
        &["export", "--", "--help"],
        Kind::Export,
        (4096, 1_048_576, 1_099_511_627_776, false, Some("--help")),
    ),
    (
        &["export", "--all"],
        Kind::ExportAll,
        (4096, 1_048_576, 1_099_511_627_776, false, None),
    ),
    (
        &["check", "f", "--all", "--max-wire", "8"],
        Kind::CheckAll,
        (4096, 1_048_576, 8, false, Some("f")),
    ),
    (
        &["check", "--", "--all"],
        Kind::Check,
        (4096, 1_048_576, 1_099_511_627_776, false, Some("--all")),
    ),
];

#[test]
fn arguments_of_a_response(rt: HostRuntime) -> Result<(), Fail> {
    'rows: for (line, kind, wanted) in &READING {
        let job = job(&rt, line).ok().ok_or("arguments that are refused")?;
        expect_line(&rt, line, reads(&job) == Some((*wanted, *kind)));
    }
    Ok(())
}

#[test]
fn arguments_of_a_recut(rt: HostRuntime) -> Result<(), Fail> {
    let rows: [(&[&str], u16, u64, Option<&str>); 3] = [
        (
            &["recut", "--packet-size", "512", "f"],
            512,
            1_099_511_627_776,
            Some("f"),
        ),
        (
            &["recut", "--packet-size=32767"],
            32767,
            1_099_511_627_776,
            None,
        ),
        (
            &["recut", "--max-wire", "8", "--packet-size", "4096"],
            4096,
            8,
            None,
        ),
    ];
    'rows: for (line, wanted, limit, path) in rows {
        let job = job(&rt, line).ok().ok_or("arguments that are refused")?;
        let Job::Recut {
            packet_size,
            max_wire,
            ..
        } = &job
        else {
            return Err(Fail::from("another job"));
        };
        expect_line(
            &rt,
            line,
            (*packet_size, *max_wire, job.file()) == (wanted, limit, path),
        );
    }
    Ok(())
}

// Arguments that are refused end with status 2 and a message among the notes; those that ask for the version, with 0 and its
// line on the output. Nothing is read.
#[test]
fn arguments_without_a_job_are_refused(rt: HostRuntime) -> Result<(), Fail> {
    let mut from = Counted::new(ScriptedReader::new(b"\x04", 1));
    let (mut to, mut notes) = (writer(Failing::Never), writer(Failing::Never));
    let refused = run(&rt, &["import"], &mut from, &mut to, &mut notes);
    assert!(rt; (refused, to.device().taken()) == (2, 0));
    assert!(rt; notes.device().kept().starts_with(b"error: "));
    let mut notes = writer(Failing::Never);
    let version = run(&rt, &["--version"], &mut from, &mut to, &mut notes);
    assert!(rt; (version, notes.device().taken()) == (0, 0));
    assert!(rt;
        to.device()
            .kept()
            .starts_with(b"tds_replay 1.0.0 (sources ")
    );
    assert!(rt; from.device().left().len() == 1);
    Ok(())
}
