// Fields that are written to a slice.
use crate::checks::{expect, same};
use crate::csv::many;
use std::alloc::Global;
use std::test::Fail;
use tds_text::{Content, NULL_ROOM, field_room, write_field, write_null};

// NULL in its line.
struct NullField {
    name: &'static str,
    column: u16,
    last: bool,
    want: &'static [u8],
}

const NULL_FIELDS: [NullField; 4] = [
    NullField {
        name: "the first of some",
        column: 0,
        last: false,
        want: b"NULL",
    },
    NullField {
        name: "the only one",
        column: 0,
        last: true,
        want: b"NULL\r\n",
    },
    NullField {
        name: "in the middle",
        column: 1,
        last: false,
        want: b",NULL",
    },
    NullField {
        name: "the last of some",
        column: 65534,
        last: true,
        want: b",NULL\r\n",
    },
];

#[test]
fn null_in_its_line(rt: HostRuntime) {
    for row in &NULL_FIELDS {
        let mut to = [0; NULL_ROOM];
        let made = write_null(row.column, row.last, &mut to);
        expect(&rt, row.name, &to[..made] == row.want);
    }
}

// A whole value, and its field; none where it isn't whole.
struct Whole {
    what: &'static str,
    content: Content,
    bytes: &'static [u8],
    field: Option<&'static [u8]>,
}

const WHOLE: [Whole; 9] = [
    Whole {
        what: "two bytes",
        content: Content::Binary,
        bytes: &[0x0A, 0xFF],
        field: Some(b"0x0aff"),
    },
    Whole {
        what: "no bytes",
        content: Content::Binary,
        bytes: &[],
        field: Some(b"0x"),
    },
    Whole {
        what: "a quote in Windows-1252",
        content: Content::Windows1252,
        bytes: &[0x80, 0x22, 0xE9],
        field: Some(b"\"\xE2\x82\xAC\"\"\xC3\xA9\""),
    },
    Whole {
        what: "no text",
        content: Content::Windows1252,
        bytes: &[],
        field: Some(b"\"\""),
    },
    Whole {
        what: "a pair",
        content: Content::Utf16,
        bytes: &[0x3D, 0xD8, 0x00, 0xDE],
        field: Some(b"\"\xF0\x9F\x98\x80\""),
    },
    Whole {
        what: "half a pair at the end",
        content: Content::Utf16,
        bytes: &[0x41, 0x00, 0x3D, 0xD8],
        field: Some(b"\"A\xEF\xBF\xBD\""),
    },
    Whole {
        what: "an odd number of bytes",
        content: Content::Utf16,
        bytes: &[0x41, 0x00, 0x42],
        field: None,
    },
    Whole {
        what: "a quote in UTF-8",
        content: Content::Utf8,
        bytes: &[0xC3, 0xA9, 0x22],
        field: Some(b"\"\xC3\xA9\"\"\""),
    },
    Whole {
        what: "a cut character",
        content: Content::Utf8,
        bytes: &[0xE2, 0x82],
        field: None,
    },
];

// The field of the first bytes of a source, as it is written to a slice.
pub(crate) fn field_of<'a>(
    content: Content,
    source: &[u8],
    n: usize,
    to: &'a mut [u8],
) -> Option<&'a [u8]> {
    if n > source.len() || n > 100 || field_room(content, n) > to.len() {
        return None;
    }
    let made = write_field(content, source, n, to)?;
    to.get(..made)
}

// The field of a whole value, alone and before `following` quotes.
fn check_whole(alloc: Global, row: &Whole, following: usize) -> Result<(), Fail> {
    let mut source = Vec::new(alloc);
    source.extend_from_slice(row.bytes)?;
    source.extend_from_slice(&many(alloc, following, 0x22)?)?;
    let mut room = [0; 64];
    let came = field_of(row.content, &source, row.bytes.len(), &mut room);
    same(
        format_args!("{}, {following} after it", row.what),
        &came,
        &row.field,
    )
}

#[test]
fn whole_values_are_written(rt: HostRuntime) -> Result<(), Fail> {
    for row in &WHOLE {
        check_whole(rt.alloc(), row, 0)?;
        check_whole(rt.alloc(), row, 16)?;
    }
    Ok(())
}

// Text of 64 characters, the text of the last one in UTF-8, and the length of the field in less room than any text may want; none
// where the room is too little, or the last isn't whole.
struct Tight {
    what: &'static str,
    content: Content,
    character: &'static [u8],
    last: &'static [u8],
    text: &'static [u8],
    made: Option<usize>,
}

const TIGHT: [Tight; 8] = [
    Tight {
        what: "ASCII in UTF-16",
        content: Content::Utf16,
        character: &[0x61, 0x00],
        last: &[0x62, 0x00],
        text: b"b",
        made: Some(66),
    },
    Tight {
        what: "a character beyond ASCII in UTF-16",
        content: Content::Utf16,
        character: &[0x61, 0x00],
        last: &[0xE9, 0x00],
        text: b"\xC3\xA9",
        made: Some(67),
    },
    Tight {
        what: "ASCII in Windows-1252",
        content: Content::Windows1252,
        character: &[0x61],
        last: &[0x62],
        text: b"b",
        made: Some(66),
    },
    Tight {
        what: "a character beyond ASCII in Windows-1252",
        content: Content::Windows1252,
        character: &[0x61],
        last: &[0xE9],
        text: b"\xC3\xA9",
        made: Some(67),
    },
    Tight {
        what: "ASCII in UTF-8",
        content: Content::Utf8,
        character: &[0x61],
        last: &[0x62],
        text: b"b",
        made: Some(66),
    },
    Tight {
        what: "a quote in UTF-8",
        content: Content::Utf8,
        character: &[0x61],
        last: &[0x22],
        text: b"\"\"",
        made: Some(67),
    },
    Tight {
        what: "no ASCII in Windows-1252",
        content: Content::Windows1252,
        character: &[0xE9],
        last: &[0xE9],
        text: b"\xC3\xA9",
        made: None,
    },
    Tight {
        what: "half a unit",
        content: Content::Utf16,
        character: &[0x61, 0x00],
        last: &[0x62],
        text: b"b",
        made: None,
    },
];

// The field of such text, in room for 114 bytes.
fn check_tight(alloc: Global, row: &Tight) -> Result<(), Fail> {
    let mut source = Vec::new(alloc);
    let mut want = Vec::new(alloc);
    want.push(0x22)?;
    for _ in 0..63 {
        source.extend_from_slice(row.character)?;
        want.push(0x61)?;
    }
    source.extend_from_slice(row.last)?;
    want.extend_from_slice(row.text)?;
    want.push(0x22)?;
    if source.len() > 128 {
        return Err(Fail::new(format_args!("{} is too long", row.what)));
    }
    let mut room = [0; 114];
    let made = write_field(row.content, &source, source.len(), &mut room);
    same(row.what, &made, &row.made)?;
    let Some(n) = made else {
        return Ok(());
    };
    same(row.what, &room.get(..n), &Some(&want[..]))
}

#[test]
fn text_is_written_where_it_fits(rt: HostRuntime) -> Result<(), Fail> {
    for row in &TIGHT {
        check_tight(rt.alloc(), row)?;
    }
    Ok(())
}
