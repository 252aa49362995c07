// Texts worked out by hand, from pieces to the bytes that a writer has. `examples/worked.txt` has more of them, by the
// program.
ghost use Rattle.tds_csv.specs.Sinks.{IsReady};

use crate::checks::{expect, same};
use crate::text::field_of;
use std::alloc::{AllocError, Global};
use std::io::Write;
use std::test::Fail;
use tds_csv::*;
use tds_meter::Area;
use tds_packet::rig::{Failing, ScriptedWriter};
use tds_packet::{Counted, Fault, Place, Stop};
use tds_text::Content;

fn make_writer(failing: Failing) -> Counted<ScriptedWriter> {
    Counted::new(ScriptedWriter::new(4096, failing))
}

// Puts three pieces and their end.
fn join<J: Joiner + Drop, W: Write>(
    sink: &mut Sink<'_, W>,
    pieces: (&[u8], &[u8], &[u8]),
) -> Result<(), JoinFault>
    requires { IsReady sink.old }
    ensures { IsReady sink.new }
{
    let (a, b, c) = pieces;
    let mut joiner = J::new();
    joiner.push(a, sink)?;
    joiner.push(b, sink)?;
    joiner.push(c, sink)?;
    joiner.end(sink)
}

// What three pieces and their end come to: the answer, and whether the writer has this text.
fn joined<J: Joiner + Drop>(
    alloc: Global,
    pieces: (&[u8], &[u8], &[u8]),
    text: &[u8],
) -> Result<(Result<(), JoinFault>, bool), Fail> {
    let mut area = Area::new(alloc, 4096)?;
    let mut to = make_writer(Failing::Never);
    let mut sink = Sink::new(&mut to, &mut area);
    let answer = join::<J, _>(&mut sink, pieces);
    sink.finish()?;
    Ok((answer, to.device().kept() == text))
}

// Bytes have this text, whatever two places they are cut at.
fn check_cuts<J: Joiner + Drop>(
    alloc: Global,
    what: &str,
    bytes: &[u8],
    text: &[u8],
) -> Result<(), Fail> {
    for end in 0..=bytes.len() {
        let (front, c) = bytes.split_at(end);
        for cut in 0..=end {
            let (a, b) = front.split_at(cut);
            let came = joined::<J>(alloc, (a, b, c), text)?;
            same(what, &came, &(Ok(()), true))?;
        }
    }
    Ok(())
}

const UPPER: &[u8; 32] =
    b"\x80\x81\x82\x83\x84\x85\x86\x87\x88\x89\x8A\x8B\x8C\x8D\x8E\x8F\x90\x91\x92\x93\x94\x95\x96\x97\x98\x99\x9A\x9B\x9C\x9D\x9E\x9F";

const UPPER_TEXT: &str =
    "\u{20AC}\u{81}\u{201A}\u{192}\u{201E}\u{2026}\u{2020}\u{2021}\u{2C6}\u{2030}\u{160}\u{2039}\u{152}\u{8D}\u{17D}\u{8F}\u{90}\u{2018}\u{2019}\u{201C}\u{201D}\u{2022}\u{2013}\u{2014}\u{2DC}\u{2122}\u{161}\u{203A}\u{153}\u{9D}\u{17E}\u{178}";

const UPPER_DIGITS: &[u8] = b"808182838485868788898a8b8c8d8e8f909192939495969798999a9b9c9d9e9f";

#[test]
fn pieces_are_joined_wherever_they_are_cut(rt: HostRuntime) -> Result<(), Fail> {
    let alloc = rt.alloc();
    check_cuts::<HexJoiner>(alloc, "digits", b"\x00\x1f\xab\xff", b"001fabff")?;
    check_cuts::<HexJoiner>(alloc, "more digits", UPPER, UPPER_DIGITS)?;
    check_cuts::<Cp1252Joiner>(alloc, "upper bytes", UPPER, UPPER_TEXT.as_bytes())?;
    let text = "a\"\"b\u{E9}\u{FF}c".as_bytes();
    check_cuts::<Cp1252Joiner>(alloc, "a quote", b"a\"b\xE9\xFFc", text)?;
    let text = "\u{E9}\"\"\u{1F600}".as_bytes();
    check_cuts::<Utf8Joiner>(alloc, "UTF-8", b"\xC3\xA9\x22\xF0\x9F\x98\x80", text)?;
    // a quote, a pair and a high surrogate alone
    let text = "\"\"\u{1F600}\u{FFFD}".as_bytes();
    let units = b"\x22\x00\x3D\xD8\x00\xDE\x00\xD8";
    check_cuts::<Utf16Joiner>(alloc, "UTF-16", units, text)
}

// Two pieces of text in UTF-8 and their end, the first bad byte in its piece, and the text before it.
struct BadText {
    what: &'static str,
    first: &'static [u8],
    second: &'static [u8],
    good: usize,
    text: &'static [u8],
}

const BAD_TEXTS: [BadText; 5] = [
    BadText {
        what: "a surrogate",
        first: b"",
        second: b"\x41\xED\xA0",
        good: 2,
        text: b"A",
    },
    BadText {
        what: "an overlong form",
        first: b"",
        second: b"\xC0",
        good: 0,
        text: b"",
    },
    BadText {
        what: "a character that isn't whole",
        first: b"\xF0\x9F",
        second: b"\x41",
        good: 0,
        text: b"",
    },
    BadText {
        what: "beyond the last character",
        first: b"\x41\xED",
        second: b"\x9F\x80\x41\x42\xF4\x90",
        good: 5,
        text: b"A\xED\x9F\x80AB",
    },
    BadText {
        what: "half a character at the end",
        first: b"",
        second: b"\xC3",
        good: 0,
        text: b"",
    },
];

#[test]
fn the_first_bad_byte_is_told(rt: HostRuntime) -> Result<(), Fail> {
    for row in &BAD_TEXTS {
        let came = joined::<Utf8Joiner>(rt.alloc(), (row.first, row.second, b""), row.text)?;
        same(row.what, &came, &(Err(JoinFault::BadText(row.good)), true))?;
    }
    let came = joined::<Utf16Joiner>(rt.alloc(), (b"\x41", b"", b""), b"")?;
    same("an odd byte", &came, &(Err(JoinFault::Odd), true))
}

// Delivers NULL, a number and binary data as one line, and text as another, and answers how many bytes waited before.
fn deliver_two_lines<W: Write>(sink: &mut Sink<'_, W>) -> Result<u64, Stop>
    requires { IsReady sink.old }
{
    sink.null()?;
    sink.comma()?;
    sink.plain(b"-12.50")?;
    sink.comma()?;
    sink.open_binary()?;
    sink.put(b"0aff")?;
    sink.line_end()?;
    sink.open_quoted()?;
    sink.put(b"a")?;
    sink.close_quoted()?;
    sink.line_end()?;
    let waiting = sink.waiting();
    sink.finish()?;
    Ok(waiting)
}

#[test]
fn the_fields_of_two_lines(rt: HostRuntime) -> Result<(), Fail> {
    let mut area = Area::new(rt.alloc(), 4096)?;
    let mut to = make_writer(Failing::Never);
    let mut sink = Sink::new(&mut to, &mut area);
    let waiting = deliver_two_lines(&mut sink)?;
    assert!(rt; (waiting, sink.delivered()) == (25, 25));
    assert!(rt; to.device().kept() == b"NULL,-12.50,0x0aff\r\n\"a\"\r\n".as_slice());
    Ok(())
}

// Puts a pair in three pieces, and answers how many bytes wait after each.
fn put_pair<W: Write>(sink: &mut Sink<'_, W>) -> Result<(u64, u64, u64), JoinFault>
    requires { IsReady sink.old }
{
    let mut joiner = Utf16Joiner::new();
    joiner.push(b"\x3D", sink)?;
    let first = sink.waiting();
    joiner.push(b"\xD8\x00", sink)?;
    let second = sink.waiting();
    joiner.push(b"\xDE", sink)?;
    let third = sink.waiting();
    joiner.end(sink)?;
    Ok((first, second, third))
}

#[test]
fn a_pair_waits_until_it_is_whole(rt: HostRuntime) -> Result<(), Fail> {
    let mut area = Area::new(rt.alloc(), 4096)?;
    let mut to = make_writer(Failing::Never);
    let mut sink = Sink::new(&mut to, &mut area);
    let waiting = put_pair(&mut sink)?;
    assert!(rt; waiting == (0, 0, 4));
    Ok(())
}

// How many bytes are put; how the writer fails; how many bytes are delivered at once, if all are taken; the place of the
// stop, if any; what waits.
struct Delivery {
    name: &'static str,
    len: usize,
    failing: Failing,
    at_once: Option<u64>,
    place: Option<u64>,
    waiting: u64,
}

const DELIVERIES: [Delivery; 6] = [
    Delivery {
        name: "a byte less than a block",
        len: 4095,
        failing: Failing::Never,
        at_once: Some(0),
        place: None,
        waiting: 0,
    },
    Delivery {
        name: "a block",
        len: 4096,
        failing: Failing::Never,
        at_once: Some(4096),
        place: None,
        waiting: 0,
    },
    Delivery {
        name: "a byte less than a block, whose write fails",
        len: 4095,
        failing: Failing::AtWrite(0),
        at_once: Some(0),
        place: Some(0),
        waiting: 4095,
    },
    Delivery {
        name: "a block whose write fails",
        len: 4096,
        failing: Failing::AtWrite(0),
        at_once: None,
        place: Some(0),
        waiting: 4096,
    },
    Delivery {
        name: "a block before a flush that fails",
        len: 4096,
        failing: Failing::InFlush,
        at_once: Some(4096),
        place: Some(4096),
        waiting: 0,
    },
    Delivery {
        name: "a byte more than a block, whose second write fails",
        len: 4097,
        failing: Failing::AtWrite(1),
        at_once: Some(4096),
        place: Some(4096),
        waiting: 1,
    },
];

// So many bytes that are alike.
pub(crate) fn many(alloc: Global, n: usize, byte: u8) -> Result<Vec<u8>, AllocError> {
    let mut bytes = Vec::new(alloc);
    bytes.resize(n, byte)?;
    Ok(bytes)
}

// What came of putting some bytes: how many were delivered at once, if they were taken; how the
// sink finished; what waits; and the writer's failures.
#[derive(Clone, Copy, PartialEq, Eq)]
struct Delivered {
    at_once: Option<u64>,
    finished: Result<(), Stop>,
    waiting: u64,
    failures: u64,
}

fn deliver(alloc: Global, row: &Delivery) -> Result<Delivered, Fail> {
    let piece = many(alloc, row.len, 0x78)?;
    let mut area = Area::new(alloc, 4096)?;
    let mut to = make_writer(row.failing);
    let mut sink = Sink::new(&mut to, &mut area);
    let at_once = match sink.put(&piece) {
        Ok(()) => Some(sink.delivered()),
        Err(_) => None,
    };
    let finished = sink.finish();
    let waiting = sink.waiting();
    Ok(Delivered {
        at_once,
        finished,
        waiting,
        failures: to.failures(),
    })
}

const fn write_failed(place: u64) -> Stop {
    Stop {
        fault: Fault::WriteFailed,
        place: Place::Text(place),
    }
}

fn wanted(row: &Delivery) -> Delivered {
    let (finished, failures) = match row.place {
        Some(place) => (Err(write_failed(place)), 1),
        None => (Ok(()), 0),
    };
    Delivered {
        at_once: row.at_once,
        finished,
        waiting: row.waiting,
        failures,
    }
}

#[test]
fn a_block_is_delivered_at_once(rt: HostRuntime) -> Result<(), Fail> {
    for row in &DELIVERIES {
        expect(&rt, row.name, deliver(rt.alloc(), row)? == wanted(row));
    }
    Ok(())
}

// Two pushes of digits, and what waits then.
fn push_twice<W: Write>(
    sink: &mut Sink<'_, W>,
    piece: &[u8],
) -> (Result<(), JoinFault>, Result<(), JoinFault>, u64)
    requires { IsReady sink.old }
{
    let mut joiner = HexJoiner::new();
    let first = joiner.push(piece, sink);
    let second = joiner.push(b"", sink);
    (first, second, sink.waiting())
}

#[test]
fn a_joiner_stops_with_its_sink(rt: HostRuntime) -> Result<(), Fail> {
    let piece = many(rt.alloc(), 3000, 0x41)?;
    let mut area = Area::new(rt.alloc(), 4096)?;
    let mut to = make_writer(Failing::AtWrite(0));
    let mut sink = Sink::new(&mut to, &mut area);
    let stop = Err(JoinFault::Stopped(write_failed(0)));
    assert!(rt; push_twice(&mut sink, &piece) == (stop, stop, 4096));
    Ok(())
}

// A message in UTF-16 that is cut to a room.
struct CutMessage {
    name: &'static str,
    units: &'static [u8],
    room: usize,
    want: &'static str,
}

// The units of a, e with an acute accent, the euro sign and b; a pair; and a quote before half a pair.
const CUT_MESSAGES: [CutMessage; 4] = [
    CutMessage {
        name: "before the euro sign",
        units: b"\x61\x00\xE9\x00\xAC\x20\x62\x00",
        room: 5,
        want: "a\u{E9}",
    },
    CutMessage {
        name: "all fits",
        units: b"\x61\x00\xE9\x00\xAC\x20\x62\x00",
        room: 7,
        want: "a\u{E9}\u{20AC}b",
    },
    CutMessage {
        name: "a pair that doesn't fit",
        units: b"\x3D\xD8\x00\xDE",
        room: 3,
        want: "",
    },
    CutMessage {
        name: "half a pair",
        units: b"\x22\x00\x3D\xD8",
        room: 4,
        want: "\"\u{FFFD}",
    },
];

#[test]
fn a_message_is_cut_between_characters(rt: HostRuntime) -> Result<(), Fail> {
    for row in &CUT_MESSAGES {
        let mut area = Area::new(rt.alloc(), row.room)?;
        utf16_into(row.units, &mut area);
        expect(&rt, row.name, area.bytes() == row.want.as_bytes());
    }
    Ok(())
}

// What the areas of a sink are lent for: bytes are kept there, with the block delivered where it is full, or without.
#[test]
fn text_is_written_into_the_room(rt: HostRuntime) -> Result<(), Fail> {
    let mut area = Area::new(rt.alloc(), 4096)?;
    let mut to = make_writer(Failing::Never);
    let mut sink = Sink::new(&mut to, &mut area);
    assert!(rt; sink.room() == 4096);
    sink.spare(8)[0] = b'4';
    sink.keep(0, 1)?;
    assert!(rt; (sink.waiting(), sink.room()) == (1, 4095));
    sink.spare(8)[0] = b'2';
    sink.commit(1, 1);
    assert!(rt; sink.waiting() == 2);
    sink.finish()?;
    assert!(rt; to.device().kept() == b"42".as_slice());
    Ok(())
}

// A character in UTF-16, low byte first, or another byte, and its text.
struct Spelt {
    what: &'static str,
    bytes: &'static [u8],
    text: &'static [u8],
}

// Characters of one byte, two and three.
const FILLS: [Spelt; 3] = [
    Spelt {
        what: "a",
        bytes: b"\x61\x00",
        text: b"a",
    },
    Spelt {
        what: "U+044F",
        bytes: b"\x4F\x04",
        text: b"\xD1\x8F",
    },
    Spelt {
        what: "U+6771",
        bytes: b"\x71\x67",
        text: b"\xE6\x9D\xB1",
    },
];

// What stands among them: a quote, other characters, a pair, and each half of one alone.
const AMONG: [Spelt; 8] = [
    Spelt {
        what: "a quote",
        bytes: b"\x22\x00",
        text: b"\"\"",
    },
    Spelt {
        what: "U+007F",
        bytes: b"\x7F\x00",
        text: b"\x7F",
    },
    Spelt {
        what: "U+0080",
        bytes: b"\x80\x00",
        text: b"\xC2\x80",
    },
    Spelt {
        what: "U+07FF",
        bytes: b"\xFF\x07",
        text: b"\xDF\xBF",
    },
    Spelt {
        what: "U+0800",
        bytes: b"\x00\x08",
        text: b"\xE0\xA0\x80",
    },
    Spelt {
        what: "U+1F600",
        bytes: b"\x3D\xD8\x00\xDE",
        text: b"\xF0\x9F\x98\x80",
    },
    Spelt {
        what: "a high surrogate",
        bytes: b"\xFF\xDB",
        text: b"\xEF\xBF\xBD",
    },
    Spelt {
        what: "a low surrogate",
        bytes: b"\x00\xDC",
        text: b"\xEF\xBF\xBD",
    },
];

// So many bytes or characters, another, and so many again.
fn around(
    alloc: Global,
    fill: &[u8],
    before: usize,
    one: &[u8],
    after: usize,
) -> Result<Vec<u8>, AllocError> {
    let mut all = Vec::new(alloc);
    for _ in 0..before {
        all.extend_from_slice(fill)?;
    }
    all.extend_from_slice(one)?;
    for _ in 0..after {
        all.extend_from_slice(fill)?;
    }
    Ok(all)
}

// The joiner has the text of units in two pieces that are cut anywhere.
fn check_pieces(alloc: Global, what: &str, units: &[u8], text: &[u8]) -> Result<(), Fail> {
    for cut in 0..=units.len() {
        let (a, b) = units.split_at(cut);
        let came = joined::<Utf16Joiner>(alloc, (a, b, b""), text)?;
        same(what, &came, &(Ok(()), true))?;
    }
    Ok(())
}

// The field of a value before other bytes has this text between its quotes.
fn check_field(
    alloc: Global,
    what: &str,
    units: &[u8],
    others: &[u8],
    text: &[u8],
) -> Result<(), Fail> {
    let source = around(alloc, units, 1, others, 0)?;
    let field = around(alloc, b"\"", 1, text, 1)?;
    let mut room = [0; 128];
    let came = field_of(Content::Utf16, &source, units.len(), &mut room);
    same(what, &came, &Some(&field[..]))
}

// A character after `before` others, with `after` behind it, in pieces, and as the field of a value before eight units more.
fn check_lane(
    alloc: Global,
    fill: &Spelt,
    one: &Spelt,
    before: usize,
    after: usize,
) -> Result<(), Fail> {
    let units = around(alloc, fill.bytes, before, one.bytes, after)?;
    let text = around(alloc, fill.text, before, one.text, after)?;
    check_pieces(alloc, one.what, &units, &text)?;
    let others = around(alloc, fill.bytes, 8, b"", 0)?;
    check_field(alloc, one.what, &units, &others, &text)
}

#[test]
fn each_unit_of_eight_may_be_of_any_kind(rt: HostRuntime) -> Result<(), Fail> {
    for fill in &FILLS {
        for one in &AMONG {
            for before in 0..=8 {
                check_lane(rt.alloc(), fill, one, before, 0)?;
                check_lane(rt.alloc(), fill, one, before, 17 - before)?;
            }
        }
    }
    Ok(())
}

// A byte after `before` others, with `after` behind it, and its text among theirs.
fn check_byte<J: Joiner + Drop>(
    alloc: Global,
    fill: &Spelt,
    before: usize,
    one: &Spelt,
    after: usize,
) -> Result<(), Fail> {
    let bytes = around(alloc, fill.bytes, before, one.bytes, after)?;
    let text = around(alloc, fill.text, before, one.text, after)?;
    let came = joined::<J>(alloc, (&bytes, b"", b""), &text)?;
    same(one.what, &came, &(Ok(()), true))
}

const LETTER: Spelt = Spelt {
    what: "a letter",
    bytes: b"a",
    text: b"a",
};

const QUOTE: Spelt = Spelt {
    what: "a quote among 32",
    bytes: b"\"",
    text: b"\"\"",
};

const EURO: Spelt = Spelt {
    what: "a euro sign among 32",
    bytes: b"\x80",
    text: b"\xE2\x82\xAC",
};

const A5: Spelt = Spelt {
    what: "a5",
    bytes: b"\xA5",
    text: b"a5",
};

const OTHER_BYTE: Spelt = Spelt {
    what: "3c among a5",
    bytes: b"\x3C",
    text: b"3c",
};

// A quote and a euro sign after `before` letters, with others behind them.
fn check_texts(alloc: Global, before: usize) -> Result<(), Fail> {
    check_byte::<Cp1252Joiner>(alloc, &LETTER, before, &QUOTE, 170)?;
    check_byte::<Cp1252Joiner>(alloc, &LETTER, before, &EURO, 170)?;
    check_byte::<Utf8Joiner>(alloc, &LETTER, before, &QUOTE, 170)
}

// At each lane of 32 bytes, in front of a value and where a block ends.
#[test]
fn each_byte_of_32_may_be_of_any_kind(rt: HostRuntime) -> Result<(), Fail> {
    let alloc = rt.alloc();
    for lane in 0..=66 {
        check_texts(alloc, lane)?;
        check_texts(alloc, 3900 + lane)?;
        check_byte::<HexJoiner>(alloc, &A5, lane, &OTHER_BYTE, 1)?;
        check_byte::<HexJoiner>(alloc, &A5, 2000, &OTHER_BYTE, lane)?;
    }
    Ok(())
}
