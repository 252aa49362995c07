// Rows with a bitmap of the columns that are NULL, and where reading them stops.
use super::{
    Good, INT4, INT4_N, NINE, NINE_TEXT, Outcome, Token, describe, described, in_packets,
    make_rooms, payload_of, read_token, usual_writer,
};
use crate::checks::expect_at;
use std::alloc::{AllocError, Global};
use std::test::Fail;
use tds_columns::Columns;
use tds_csv::Sink;
use tds_meter::Area;
use tds_packet::rig::{Failing, ScriptedReader, ScriptedWriter};
use tds_packet::{Counted, Fault, Payload, Place, Stop};
use tds_rows::NBCROW;

const TWO: &[&[u8]] = &[INT4, INT4_N];

const FOUR: &[&[u8]] = &[INT4, INT4_N, INT4, INT4_N];

// NULLs before a cell, between two and after one.
const FOUR_ROW: &[u8] = &[0x09, 0x04, 0x2A, 0x00, 0x00, 0x00, 0x07, 0x00, 0x00, 0x00];

const FOUR_TEXT: &[u8] = b"NULL,42,7,NULL\r\n";

const ROWS: [Good; 7] = [
    Good {
        what: "NULL by its bit, and by its length",
        columns: TWO,
        bytes: &[0x01, 0x00],
        text: b"NULL,NULL\r\n",
    },
    Good {
        what: "the second by its bit",
        columns: TWO,
        bytes: &[0x02, 0x2A, 0x00, 0x00, 0x00],
        text: b"42,NULL\r\n",
    },
    Good {
        what: "bits after the last column",
        columns: TWO,
        bytes: &[0xFC, 0x2A, 0x00, 0x00, 0x00, 0x00],
        text: b"42,NULL\r\n",
    },
    Good {
        what: "nine NULLs by their bits",
        columns: NINE,
        bytes: &[0xFF, 0x01],
        text: NINE_TEXT,
    },
    Good {
        what: "nine, with all bits set",
        columns: NINE,
        bytes: &[0xFF, 0xFF],
        text: NINE_TEXT,
    },
    Good {
        what: "the ninth alone has data",
        columns: NINE,
        bytes: &[0xFF, 0xFE, 0x04, 0x2A, 0x00, 0x00, 0x00],
        text: b"NULL,NULL,NULL,NULL,NULL,NULL,NULL,NULL,42\r\n",
    },
    Good {
        what: "NULLs before and after data",
        columns: FOUR,
        bytes: FOUR_ROW,
        text: FOUR_TEXT,
    },
];

fn write_row(alloc: Global, case: &Good, size: usize) -> Result<Outcome, Fail> {
    let to = usual_writer();
    super::run(
        alloc,
        Token::NbcRow,
        case.columns,
        case.bytes,
        size,
        0,
        to,
        case.text,
    )
}

#[test]
fn nbc_rows_are_written(rt: HostRuntime) -> Result<(), Fail> {
    for case in &ROWS {
        let want = (Ok(1), Some(case.text.len()), case.bytes.len() as u64);
        for size in [1, 3, 4000] {
            let out = write_row(rt.alloc(), case, size)?;
            let came = (out.answer, out.text, out.place);
            expect_at(&rt, case.what, size, came == want);
        }
    }
    Ok(())
}

// For a row that is cut after 0, 1, 2 and more bytes: where the cut element begins, and the text before it.
const CUTS: [(u64, &[u8]); 10] = [
    (0, b""),
    (1, b"NULL"),
    (2, b"NULL"),
    (2, b"NULL"),
    (2, b"NULL"),
    (2, b"NULL"),
    (6, b"NULL,42"),
    (6, b"NULL,42"),
    (6, b"NULL,42"),
    (6, b"NULL,42"),
];

// The message ends after each byte of a row.
#[test]
fn an_nbc_row_is_cut(rt: HostRuntime) -> Result<(), Fail> {
    for (n, (at, text)) in CUTS.iter().enumerate() {
        let bytes = &FOUR_ROW[..n.min(FOUR_ROW.len())];
        let stop = Stop {
            fault: Fault::MessageEnded,
            place: Place::Payload(described(FOUR).saturating_add(*at)),
        };
        for size in [1, 4000] {
            let to = usual_writer();
            let out = super::run(rt.alloc(), Token::NbcRow, FOUR, bytes, size, 0, to, text)?;
            let came = (out.answer, out.text);
            let want = (Err(stop), Some(text.len()));
            expect_at(&rt, "cut after", n, came == want);
        }
    }
    Ok(())
}

// A block ends after each byte of the line, and the writer fails in it.
#[test]
fn a_write_of_nulls_fails(rt: HostRuntime) -> Result<(), Fail> {
    let stop = Stop {
        fault: Fault::WriteFailed,
        place: Place::Text(4000),
    };
    for n in 1..=FOUR_TEXT.len() {
        let waiting = 4096 - n.min(4096);
        let to = ScriptedWriter::new(1000, Failing::AfterBytes(4000));
        let out = super::run(
            rt.alloc(),
            Token::NbcRow,
            FOUR,
            FOUR_ROW,
            4000,
            waiting,
            to,
            b"",
        )?;
        let came = (out.answer, out.text);
        expect_at(
            &rt,
            "a block ends after",
            n,
            came == (Err(stop), Some(4000)),
        );
    }
    Ok(())
}

// Three rows, with the token bytes of the second and the third: two end in a packet, and the third is in the next.
const THREE_ROWS: &[u8] = &[
    0x02, 0x2A, 0x00, 0x00, 0x00, 0xD2, 0x00, 0x07, 0x00, 0x00, 0x00, 0x04, 0x08, 0x00, 0x00, 0x00,
    0xD2, 0x03,
];

const THREE_TEXT: &[u8] = b"42,NULL\r\n7,8\r\nNULL,NULL\r\n";

// Rows are read to the end of a packet, a byte after it, and rows again.
#[test]
fn nbc_rows_are_read_to_the_end_of_a_packet(rt: HostRuntime) -> Result<(), Fail> {
    let bytes = payload_of(rt.alloc(), TWO, THREE_ROWS)?;
    let wire = in_packets(rt.alloc(), &bytes, bytes.len().saturating_sub(2))?;
    let mut from = Counted::new(ScriptedReader::new(&wire, 5));
    let mut to = Counted::new(usual_writer());
    let mut packet = Area::new(rt.alloc(), 4096)?;
    let mut output = Area::new(rt.alloc(), 4096)?;
    let mut area = Area::new(rt.alloc(), 4096)?;
    let mut rooms = make_rooms(rt.alloc())?;
    let mut payload = Payload::new(&mut from, &mut packet, 1_000_000);
    let mut sink = Sink::new(&mut to, &mut output);
    if !describe(&mut payload, &mut area) {
        return Err(Fail::from(AllocError));
    }
    let columns = Columns::view(area.bytes());
    let first = read_token(Token::NbcRows, &mut payload, columns, &mut rooms, &mut sink)?;
    let token = payload.next()?;
    let second = read_token(Token::NbcRows, &mut payload, columns, &mut rooms, &mut sink)?;
    assert!(rt; (first, token, second) == (2, NBCROW, 1));
    let _ = sink.finish();
    assert!(rt; to.device().kept() == THREE_TEXT);
    Ok(())
}
