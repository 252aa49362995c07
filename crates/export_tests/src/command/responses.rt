// Responses one after another, over devices that fail. `examples/worked.txt` has what is written and said of them otherwise.
use super::{run, writer};
use crate::checks::expect;
use std::test::Fail;
use tds_packet::Counted;
use tds_packet::rig::{Failing, ScriptedReader};

/// Two responses of one row each.
const WIRES: [u8; 78] = [
    0x04, 0x01, 0x00, 0x27, 0x00, 0x00, 0x01, 0x00, 0x81, 0x01, 0x00, 0x00, 0x00, 0x00, 0x00, 0x08,
    0x00, 0x38, 0x01, 0x61, 0x00, 0xD1, 0x2A, 0x00, 0x00, 0x00, 0xFD, 0x10, 0x00, 0xC1, 0x00, 0x01,
    0x00, 0x00, 0x00, 0x00, 0x00, 0x00, 0x00, 0x04, 0x01, 0x00, 0x27, 0x00, 0x00, 0x01, 0x00, 0x81,
    0x01, 0x00, 0x00, 0x00, 0x00, 0x00, 0x08, 0x00, 0x38, 0x01, 0x62, 0x00, 0xD1, 0x2B, 0x00, 0x00,
    0x00, 0xFD, 0x10, 0x00, 0xC1, 0x00, 0x01, 0x00, 0x00, 0x00, 0x00, 0x00, 0x00, 0x00,
];

/// A device that fails while two responses are exported, and what comes of them.
struct Case {
    name: &'static str,
    fails_at: usize,
    failing: Failing,
    status: u8,
    text: &'static [u8],
    said: &'static [u8],
}

const CASES: [Case; 7] = [
    Case {
        name: "no failure",
        fails_at: 79,
        failing: Failing::Never,
        status: 0,
        text: b"\"a\"\r\n42\r\n\"b\"\r\n43\r\n",
        said: b"sets 1 rows 1 errors 0 infos 0 written 9\nsets 1 rows 1 errors 0 infos 0 written 9\nresponses 2\n",
    },
    Case {
        name: "a read before the first",
        fails_at: 0,
        failing: Failing::Never,
        status: 5,
        text: b"",
        said: b"fault 1 ReadFailed at wire 0, written 0, unwritten 0\nresponses 0\n",
    },
    Case {
        name: "a read before the second",
        fails_at: 39,
        failing: Failing::Never,
        status: 5,
        text: b"\"a\"\r\n42\r\n",
        said: b"sets 1 rows 1 errors 0 infos 0 written 9\nfault 1 ReadFailed at wire 0, written 0, unwritten 0\nresponses 1\n",
    },
    Case {
        name: "a read within the second",
        fails_at: 50,
        failing: Failing::Never,
        status: 5,
        text: b"\"a\"\r\n42\r\n",
        said: b"sets 1 rows 1 errors 0 infos 0 written 9\nfault 1 ReadFailed at wire 0, written 0, unwritten 0\nresponses 1\n",
    },
    Case {
        name: "a read after the second",
        fails_at: 78,
        failing: Failing::Never,
        status: 5,
        text: b"\"a\"\r\n42\r\n\"b\"\r\n43\r\n",
        said: b"sets 1 rows 1 errors 0 infos 0 written 9\nsets 1 rows 1 errors 0 infos 0 written 9\nfault 1 ReadFailed at wire 0, written 0, unwritten 0\nresponses 2\n",
    },
    Case {
        name: "a write of the second text",
        fails_at: 79,
        failing: Failing::AfterBytes(12),
        status: 5,
        text: b"\"a\"\r\n42\r\n\"b\"",
        said: b"sets 1 rows 1 errors 0 infos 0 written 9\nfault 20 WriteFailed at text 3, written 3, unwritten 6\nresponses 1\n",
    },
    Case {
        name: "a flush of the first text",
        fails_at: 79,
        failing: Failing::InFlush,
        status: 5,
        text: b"\"a\"\r\n42\r\n",
        said: b"fault 20 WriteFailed at text 9, written 9, unwritten 0\nresponses 0\n",
    },
];

#[test]
fn a_device_fails_between_responses(rt: HostRuntime) -> Result<(), Fail> {
    'cases: for case in &CASES {
        let mut from = Counted::new(ScriptedReader::failing(&WIRES, 7, case.fails_at));
        let (mut to, mut notes) = (writer(case.failing), writer(Failing::Never));
        let status = run(&rt, &["export", "--all"], &mut from, &mut to, &mut notes);
        expect(&rt, case.name, status == case.status);
        expect(&rt, case.name, to.device().kept() == case.text);
        expect(&rt, case.name, notes.device().kept() == case.said);
    }
    Ok(())
}

#[test]
fn failed_notes_lose_no_text(rt: HostRuntime) -> Result<(), Fail> {
    let mut from = Counted::new(ScriptedReader::new(&WIRES, 4096));
    let (mut to, mut notes) = (writer(Failing::Never), writer(Failing::AfterBytes(50)));
    let status = run(&rt, &["export", "--all"], &mut from, &mut to, &mut notes);
    assert!(rt; status == 0);
    assert!(rt; to.device().kept() == b"\"a\"\r\n42\r\n\"b\"\r\n43\r\n".as_slice());
    assert!(rt; notes.device().taken() == 50);
    Ok(())
}
