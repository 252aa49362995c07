// The lines of stops and reports.
use super::writer;
use crate::checks::expect;
use std::test::Fail;
use tds_export::{Report, ServerError, Stopped};
use tds_packet::rig::Failing;
use tds_packet::{Fault, Place, RefusedKind};
use tds_replay::say_answer;

// A stop, and its line.
struct StopCase {
    name: &'static str,
    stopped: Stopped,
    line: &'static [u8],
}

const STOPS: [StopCase; 6] = [
    StopCase {
        name: "a cut message",
        stopped: Stopped {
            fault: Fault::MessageEnded,
            place: Place::Payload(40),
            written: 6,
            unwritten: 0,
        },
        line: b"fault 7 MessageEnded at payload 40, written 6, unwritten 0\n",
    },
    StopCase {
        name: "no columns",
        stopped: Stopped {
            fault: Fault::NoColumns,
            place: Place::Payload(1),
            written: 0,
            unwritten: 0,
        },
        line: b"fault 9 NoColumns at payload 1, written 0, unwritten 0\n",
    },
    StopCase {
        name: "a float",
        stopped: Stopped {
            fault: Fault::RefusedColumn {
                index: 1,
                kind: RefusedKind::Flt8,
            },
            place: Place::Payload(13),
            written: 0,
            unwritten: 0,
        },
        line: b"fault 10 RefusedColumn 1 FLT8 at payload 13, written 0, unwritten 0\n",
    },
    StopCase {
        name: "an unknown type",
        stopped: Stopped {
            fault: Fault::UnknownType {
                index: 2,
                byte: 0xAB,
            },
            place: Place::Payload(13),
            written: 0,
            unwritten: 0,
        },
        line: b"fault 11 UnknownType 2 0xab at payload 13, written 0, unwritten 0\n",
    },
    StopCase {
        name: "a bad value",
        stopped: Stopped {
            fault: Fault::BadValue { column: 65535 },
            place: Place::Payload(14),
            written: 5,
            unwritten: 0,
        },
        line: b"fault 16 BadValue 65535 at payload 14, written 5, unwritten 0\n",
    },
    StopCase {
        name: "a failed write",
        stopped: Stopped {
            fault: Fault::WriteFailed,
            place: Place::Text(8192),
            written: 8192,
            unwritten: 4096,
        },
        line: b"fault 20 WriteFailed at text 8192, written 8192, unwritten 4096\n",
    },
];

#[test]
fn lines_of_stops(rt: HostRuntime) -> Result<(), Fail> {
    'cases: for case in &STOPS {
        let mut notes = writer(Failing::Never);
        let said = say_answer(&mut notes, &Err(case.stopped), b"");
        expect(&rt, case.name, said.is_ok());
        expect(&rt, case.name, notes.device().kept() == case.line);
    }
    Ok(())
}

const REPORT: Report = Report {
    sets: 2,
    rows: 3,
    errors: 1,
    infos: 1,
    first_error: Some(ServerError {
        number: 208,
        state: 1,
        class: 16,
        line: 1,
    }),
    return_status: None,
    written: 21,
    return_values: 0,
};

#[test]
fn lines_of_reports(rt: HostRuntime) -> Result<(), Fail> {
    let mut notes = writer(Failing::Never);
    assert!(rt; say_answer(&mut notes, &Ok(REPORT), b"no").is_ok());
    let lines =
        b"sets 2 rows 3 errors 1 infos 1 written 21\nserver error 208, state 1, class 16, line 1: no\n";
    assert!(rt; notes.device().kept() == lines.as_slice());
    let mut report = REPORT;
    report.return_values = 7;
    report.return_status = Some(-6);
    let mut notes = writer(Failing::Never);
    assert!(rt; say_answer(&mut notes, &Ok(report), b"a\tb\x7F\xC2\x80").is_ok());
    let lines =
        b"sets 2 rows 3 errors 1 infos 1 written 21\nreturn values 7\nreturn status -6\nserver error 208, state 1, class 16, line 1: a b \xC2\x80\n";
    assert!(rt; notes.device().kept() == lines.as_slice());
    Ok(())
}
