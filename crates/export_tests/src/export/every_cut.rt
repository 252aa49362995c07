// Responses whose input ends, or whose devices fail, after each of their bytes. `examples/worked.txt` has the same elements,
// and what is answered where the message or a packet ends after each of them.
use super::*;
use crate::checks::same;

// Bytes of a response, and the text that they add once the last of them is read.
struct Element(&'static [u8], &'static [u8]);

// A ROW of int a.
const ONE_INT: [Element; 3] = [
    Element(b"\x81\x01\0\0\0\0\0\x08\0\x38\x01a\0", b"\"a\"\r\n"),
    Element(b"\xD1\x2A\0\0\0", b"42\r\n"),
    Element(b"\xFD\x10\0\xC1\0\x01\0\0\0\0\0\0\0", b""),
];

// Every token: a set of four columns with a ROW and an NBCROW, what has no text, and a set of one
// column.
const EVERY_TOKEN: [Element; 32] = [
    // COLMETADATA: int a, varchar(10) c, nvarchar(max) w, and an int after a length without a name
    Element(b"\x81\x04\0", b""),
    Element(b"\0\0\0\0\0\0\x38\x01a\0", b""),
    Element(b"\0\0\0\0\0\0\xA7\x0A\0\x09\x04\xD0\0\x34\x01c\0", b""),
    Element(b"\0\0\0\0\0\0\xE7\xFF\xFF\x09\x04\xD0\0\x34\x01w\0", b""),
    Element(b"\0\0\0\0\0\0\x26\x04\0", b"\"a\",\"c\",\"w\",\"\"\r\n"),
    // ROW: 42; three characters, one of them a quote; one of two units in two chunks; NULL
    Element(b"\xD1\x2A\0\0\0", b"42"),
    Element(b"\x03\0", b",\""),
    Element(b"A", b"A"),
    Element(b"\"", b"\"\""),
    Element(b"\xE9", b"\xC3\xA9\""),
    Element(b"\xFE\xFF\xFF\xFF\xFF\xFF\xFF\xFF", b",\""),
    Element(b"\x01\0\0\0\x3D", b""),
    Element(b"\x03\0\0\0\xD8\0\xDE", b"\xF0\x9F\x98\x80"),
    Element(b"\0\0\0\0", b"\""),
    Element(b"\0", b",NULL\r\n"),
    // NBCROW: the first and the third are NULL by their bits; no characters; -1
    Element(b"\xD2\x05", b"NULL"),
    Element(b"\0\0", b",\"\",NULL"),
    Element(b"\x04\xFF\xFF\xFF\xFF", b",-1\r\n"),
    // ORDER, ENVCHANGE
    Element(b"\xA9\x02\0\x01\0", b""),
    Element(b"\xE3\x03\0\x04\x01\x02", b""),
    // ERROR 208 of state 1, class 16 and line 1, with the message no; INFO with the message x
    Element(b"\xAA\x12\0\xD0\0\0\0\x01\x10", b""),
    Element(b"\x02\0n\0o\0\0\0\x01\0\0\0", b""),
    Element(b"\xAB\x10\0\x45\x16\0\0\x02\0", b""),
    Element(b"\x01\0x\0\0\0\x01\0\0\0", b""),
    // RETURNVALUE: the int 7 under the name @p
    Element(b"\xAC\x01\0\x02@\0p\0\x01", b""),
    Element(b"\0\0\0\0\0\0\x26\x04\x04\x07\0\0\0", b""),
    // RETURNSTATUS -1, DONEINPROC, DONEPROC with more to come
    Element(b"\x79\xFF\xFF\xFF\xFF", b""),
    Element(b"\xFF\0\0\0\0\0\0\0\0\0\0\0\0", b""),
    Element(b"\xFE\x01\0\0\0\0\0\0\0\0\0\0\0", b""),
    // COLMETADATA: tinyint b
    Element(b"\x81\x01\0\0\0\0\0\0\0\x30\x01b\0", b"\r\n\"b\"\r\n"),
    // ROW: 7; DONE
    Element(b"\xD1\x07", b"7\r\n"),
    Element(b"\xFD\0\0\0\0\0\0\0\0\0\0\0\0", b""),
];

// Small responses: a debt, two ints, a character in chunks, and narrow text.
const SMALL: [&[Element]; 4] = [
    // A ROW of money a, the greatest debt.
    &[
        Element(b"\x81\x01\0\0\0\0\0\0\0\x3C\x01a\0", b"\"a\"\r\n"),
        Element(b"\xD1\0\0\0\x80\0\0\0\0", b"-922337203685477.5808\r\n"),
        Element(b"\xFD\0\0\0\0\0\0\0\0\0\0\0\0", b""),
    ],
    // An NBCROW of int a and of an int b after a length, which is NULL by its length.
    &[
        Element(b"\x81\x02\0\0\0\0\0\0\0\x38\x01a\0", b""),
        Element(b"\0\0\0\0\0\0\x26\x04\x01b\0", b"\"a\",\"b\"\r\n"),
        Element(b"\xD2\0\x2A\0\0\0", b"42"),
        Element(b"\0", b",NULL\r\n"),
        Element(b"\xFD\0\0\0\0\0\0\0\0\0\0\0\0", b""),
    ],
    // A ROW of nvarchar(max) t: a character of two units whose four bytes lie in three chunks.
    &[
        Element(b"\x81\x01\0\0\0\0\0\0\0\xE7\xFF\xFF", b""),
        Element(b"\x09\x04\xD0\0\x34\x01t\0", b"\"t\"\r\n"),
        Element(b"\xD1\x04\0\0\0\0\0\0\0", b"\""),
        Element(b"\x01\0\0\0\x3D", b""),
        Element(b"\x02\0\0\0\xD8\0", b""),
        Element(b"\x01\0\0\0\xDE", b"\xF0\x9F\x98\x80"),
        Element(b"\0\0\0\0", b"\"\r\n"),
        Element(b"\xFD\0\0\0\0\0\0\0\0\0\0\0\0", b""),
    ],
    // A ROW of varchar(10), whose second character has two bytes in UTF-8.
    &[
        Element(b"\x81\x01\0\0\0\0\0\0\0\xA7\x0A\0", b""),
        Element(b"\x09\x04\xD0\0\x34\x01t\0", b"\"t\"\r\n"),
        Element(b"\xD1\x03\0", b"\""),
        Element(b"A", b"A"),
        Element(b"\xC3\xA9", b"\xC3\xA9\"\r\n"),
        Element(b"\xFD\0\0\0\0\0\0\0\0\0\0\0\0", b""),
    ],
];

// The elements of each response, and its character set. They come by a call, so that no proof reads the tables.
fn responses() -> [(&'static [Element], Charset); 6] {
    let [debt, pair, face, narrow] = SMALL;
    [
        (&EVERY_TOKEN, Charset::Windows1252),
        (&ONE_INT, Charset::Windows1252),
        (debt, Charset::Windows1252),
        (pair, Charset::Windows1252),
        (face, Charset::Windows1252),
        (narrow, Charset::Utf8),
    ]
}

// A packet without a body.
const EMPTY: &[u8] = &[0x04, 0x00, 0x00, 0x08, 0x00, 0x00, 0x01, 0x00];

// The elements' bytes in packets of one byte each, and what is put between each two of them.
fn wire_of(alloc: Global, elements: &[Element], between: &[u8]) -> Result<Vec<u8>, AllocError> {
    let mut wire = Vec::new(alloc);
    for Element(bytes, _) in elements {
        for byte in *bytes {
            if !wire.is_empty() {
                wire.extend_from_slice(between)?;
            }
            wire.extend_from_slice(&[0x04, 0x00, 0x00, 0x09, 0x00, 0x00, 0x01, 0x00, *byte])?;
        }
    }
    Ok(wire)
}

// Marks the last packet, of one byte, as the message's last.
fn mark_last(wire: &mut Vec<u8>) {
    let last = wire.len().saturating_sub(8);
    if let Some(status) = wire.get_mut(last) {
        *status = 0x01;
    }
}

fn text_of(alloc: Global, elements: &[Element]) -> Result<Vec<u8>, AllocError> {
    let mut all = Vec::new(alloc);
    for Element(_, text) in elements {
        all.extend_from_slice(text)?;
    }
    Ok(all)
}

// How many bytes of the text the elements add that are whole within `length` bytes of the payload.
fn written_within(elements: &[Element], length: usize) -> usize {
    let (mut place, mut written) = (0usize, 0usize);
    for Element(bytes, text) in elements {
        place = place.saturating_add(bytes.len());
        if place > length {
            return written;
        }
        written = written.saturating_add(text.len());
    }
    written
}

// The wire of packets of one byte is over after `length` bytes, or its reader fails there.
fn check_wire(
    areas: &mut Areas,
    charset: Charset,
    wire: &[u8],
    length: usize,
    text: &[u8],
) -> Result<(), Fail> {
    let place = Place::Wire(9 * (length / 9) as u64);
    let over = came_to(stopped(Fault::InputEnded, place, text), text);
    let from = ScriptedReader::new(front(wire, length), 4);
    let to = ScriptedWriter::new(4, Failing::Never);
    let out = run(areas, from, to, charset, text);
    same(length, &out, &Some(over))?;
    let failed = Outcome {
        left: wire.len().saturating_sub(length),
        read_failures: 1,
        ..came_to(stopped(Fault::ReadFailed, place, text), text)
    };
    let from = ScriptedReader::failing(wire, 4, length);
    let to = ScriptedWriter::new(1000, Failing::Never);
    let out = run(areas, from, to, charset, text);
    same(length, &out, &Some(failed))
}

// The writer fails once it took `n` bytes of the text.
fn check_writer(
    areas: &mut Areas,
    charset: Charset,
    wire: &[u8],
    text: &[u8],
    n: usize,
    failing: Failing,
) -> Result<(), Fail> {
    let (taken, waiting) = text.split_at(n.min(text.len()));
    let from = ScriptedReader::new(wire, 1000);
    let to = ScriptedWriter::new(4, failing);
    let out = run(areas, from, to, charset, taken);
    let want = broken_after(taken, waiting);
    same(n, &(out, areas.waiting()), &(Some(want), waiting))
}

fn check_response(
    alloc: Global,
    areas: &mut Areas,
    elements: &[Element],
    charset: Charset,
) -> Result<(), Fail> {
    let mut wire = wire_of(alloc, elements, &[])?;
    let text = text_of(alloc, elements)?;
    for length in 0..wire.len() {
        let text = front(&text, written_within(elements, length / 9));
        check_wire(areas, charset, &wire, length, text)?;
    }
    mark_last(&mut wire);
    for n in 0..text.len() {
        check_writer(areas, charset, &wire, &text, n, Failing::AfterBytes(n))?;
        check_writer(areas, charset, &wire, &text, n, Failing::ZeroAfterBytes(n))?;
    }
    Ok(())
}

#[test]
fn devices_fail_after_each_byte(rt: HostRuntime) -> Result<(), Fail> {
    let mut areas = make_areas(rt.alloc(), PACKET_SIZE)?;
    for (elements, charset) in responses() {
        check_response(rt.alloc(), &mut areas, elements, charset)?;
    }
    Ok(())
}

// A ROW in packets of one byte, with these bytes between each two of them, read and written one byte at a time.
fn check_single_bytes(
    alloc: Global,
    areas: &mut Areas,
    what: &str,
    between: &[u8],
) -> Result<(), Fail> {
    let mut wire = wire_of(alloc, &ONE_INT, between)?;
    mark_last(&mut wire);
    let from = ScriptedReader::new(&wire, 1);
    let to = ScriptedWriter::new(1, Failing::Never);
    let out = run(areas, from, to, Charset::Windows1252, TEXT);
    same(what, &out, &Some(came_to(Ok(report(1, 1, 9)), TEXT)))
}

#[test]
fn packets_of_one_byte_have_one_text(rt: HostRuntime) -> Result<(), Fail> {
    let mut areas = make_areas(rt.alloc(), PACKET_SIZE)?;
    check_single_bytes(rt.alloc(), &mut areas, "alone", NOTHING)?;
    check_single_bytes(rt.alloc(), &mut areas, "among empty ones", EMPTY)
}
