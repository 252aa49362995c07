// Values of many packets and near the end of a block, and writers that fail in them.
use super::*;
use crate::checks::same;

// The header of a packet of 512 bytes, a column of varchar(max), and a row of a value of 100,000,000 bytes in one
// chunk, up to its data.
const VAST: [u8; 41] = [
    0x04, 0x00, 0x02, 0x00, 0x00, 0x00, 0x01, 0x00, 0x81, 1, 0, 0, 0, 0, 0, 0, 0, 0xA7, 0xFF, 0xFF,
    9, 4, 0xD0, 0, 0x34, 1, 0x74, 0, 0xD1, 0x00, 0xE1, 0xF5, 0x05, 0, 0, 0, 0, 0x00, 0xE1, 0xF5,
    0x05,
];

// The header of a packet of 512 bytes.
const HEADER: &[u8] = &[0x04, 0x00, 0x02, 0x00, 0x00, 0x00, 0x01, 0x00];

// The header of a packet of 410 bytes, the last; and the terminator and a DONE in its end.
const LAST: &[u8] = &[0x04, 0x01, 0x01, 0x9A, 0x00, 0x00, 0x01, 0x00];

const END: &[u8] = &[0, 0, 0, 0, 0xFD, 0, 0, 0, 0, 0, 0, 0, 0, 0, 0, 0, 0];

// Bytes, and after them as many of one byte as make `n` in all.
fn filled(alloc: Global, bytes: &[u8], n: usize, byte: u8) -> Result<Vec<u8>, AllocError> {
    let mut all = bytes.to_vec(alloc)?;
    all.resize(n, byte)?;
    Ok(all)
}

// What came of so many packets of 504 quotes between the first, with 471 of them, and the last, with 385.
fn run_vast(
    alloc: Global,
    areas: &mut Areas,
    times: u64,
    to: ScriptedWriter,
    text: &[u8],
) -> Result<Option<Repeated>, AllocError> {
    let first = filled(alloc, &VAST, 512, b'"')?;
    let again = filled(alloc, HEADER, 512, b'"')?;
    let mut last = filled(alloc, LAST, 393, b'"')?;
    last.extend_from_slice(END)?;
    let from = RepeatingReader::new(&first, &again, times, &last);
    Ok(run_repeated(areas, from, to, text))
}

// The header line, and as many quotes as the first two blocks have.
fn vast_text(alloc: Global) -> Result<Vec<u8>, AllocError> {
    filled(alloc, b"\"t\"\r\n", 8192, b'"')
}

#[test]
fn a_vast_value_is_written_in_little_room(rt: HostRuntime) -> Result<(), Fail> {
    let mut areas = make_areas(rt.alloc(), 512)?;
    let to = ScriptedWriter::new(4096, Failing::Never);
    let text = vast_text(rt.alloc())?;
    let came = run_vast(rt.alloc(), &mut areas, 198_411, to, &text)?;
    let want = Repeated {
        answer: Ok(report(1, 1, 200_000_009)),
        taken: 200_000_009,
        kept: Some(8192),
    };
    same("a vast value", &came, &Some(want))?;
    let meters = (areas.peak_rest() <= 70_784, areas.description_peak());
    same("its meters", &meters, &(true, 19))
}

// The first 20 packets.
fn front_of_vast(alloc: Global) -> Result<Vec<u8>, AllocError> {
    let mut wire = filled(alloc, &VAST, 512, b'"')?;
    let packet = filled(alloc, HEADER, 512, b'"')?;
    for _ in 1..20 {
        wire.extend_from_slice(&packet)?;
    }
    Ok(wire)
}

// The writer fails at its third call: 13 packets of 20 were read, and the second block is waiting.
#[test]
fn a_vast_value_is_read_no_further_than_written(rt: HostRuntime) -> Result<(), Fail> {
    let mut areas = make_areas(rt.alloc(), 512)?;
    let wire = front_of_vast(rt.alloc())?;
    let text = vast_text(rt.alloc())?;
    let (_, waiting) = text.split_at(text.len().min(4096));
    let from = ScriptedReader::new(&wire, 1000);
    let to = ScriptedWriter::new(4096, Failing::AtWrite(2));
    let out = run(&mut areas, from, to, Charset::Windows1252, &text);
    let want = Outcome {
        left: 7 * 512,
        ..broken_after(&text, waiting)
    };
    same("a block", &(out, areas.waiting()), &(Some(want), waiting))
}

// A value of varbinary(max) and of 100,000,000 bytes that a procedure returned, up to its first chunk; and the
// terminator and a DONE.
const RETURNED: &[u8] = &[
    0x04, 0x00, 0x00, 0x1E, 0x00, 0x00, 0x01, 0x00, 0xAC, 0x00, 0x00, 0x00, 0x01, 0x00, 0x00, 0x00,
    0x00, 0x00, 0x00, 0xA5, 0xFF, 0xFF, 0x00, 0xE1, 0xF5, 0x05, 0x00, 0x00, 0x00, 0x00,
];

const TERMINATOR: &[u8] = &[
    0x04, 0x01, 0x00, 0x19, 0x00, 0x00, 0x01, 0x00, 0, 0, 0, 0, 0xFD, 0, 0, 0, 0, 0, 0, 0, 0, 0, 0,
    0, 0,
];

// The header of a packet of 512 bytes, and the length of a chunk of 500.
const CHUNK: &[u8] = &[4, 0, 2, 0, 0, 0, 1, 0, 0xF4, 1, 0, 0];

// Each packet but the first and the last has one chunk.
#[test]
fn a_value_of_many_chunks_is_passed_over(rt: HostRuntime) -> Result<(), Fail> {
    let mut areas = make_areas(rt.alloc(), 512)?;
    let chunk = filled(rt.alloc(), CHUNK, 512, b'"')?;
    let from = RepeatingReader::new(RETURNED, &chunk, 200_000, TERMINATOR);
    let to = ScriptedWriter::new(4096, Failing::Never);
    let came = run_repeated(&mut areas, from, to, NOTHING);
    let want = Repeated {
        answer: Ok(Report {
            return_values: 1,
            ..report(0, 0, 0)
        }),
        taken: 0,
        kept: Some(0),
    };
    let is_little = areas.peak_rest() <= 70_784;
    same("many chunks", &(came, is_little), &(Some(want), true))
}

// How many bytes a value has, how the writer fails, and how many bytes are written and wait then.
struct Block(u32, Failing, usize, u64);

const BLOCKS: [Block; 4] = [
    Block(4086, Failing::AtWrite(0), 0, 4095),
    Block(4087, Failing::AtWrite(0), 0, 4096),
    Block(4087, Failing::InFlush, 4096, 0),
    Block(4088, Failing::AtWrite(1), 4096, 1),
];

// A packet of one x.
const ONE_X: &[u8] = &[0x04, 0x00, 0x00, 0x09, 0x00, 0x00, 0x01, 0x00, b'x'];

// The text of a value of n times x, in one chunk of a row of varchar(max).
fn text_of(alloc: Global, n: usize) -> Result<Vec<u8>, AllocError> {
    let mut text = filled(alloc, b"\"t\"\r\n\"", n.saturating_add(6), b'x')?;
    text.extend_from_slice(b"\"\r\n")?;
    Ok(text)
}

// So many of its n + 9 bytes are written before the writer fails, and so many wait.
fn check_block(alloc: Global, areas: &mut Areas, block: &Block) -> Result<(), Fail> {
    let Block(n, failing, written, unwritten) = *block;
    let text = text_of(alloc, n as usize)?;
    let mut first = VAST;
    first[2..4].copy_from_slice(&[0, 41]);
    first[29..33].copy_from_slice(&n.to_le_bytes());
    first[37..].copy_from_slice(&n.to_le_bytes());
    let from = RepeatingReader::new(&first, ONE_X, u64::from(n), TERMINATOR);
    let to = ScriptedWriter::new(4096, failing);
    let came = run_repeated(areas, from, to, &text);
    let answer = Err(Stopped {
        fault: Fault::WriteFailed,
        place: Place::Text(written as u64),
        written: written as u64,
        unwritten,
    });
    let want = Repeated {
        answer,
        taken: written,
        kept: Some(written),
    };
    same(n, &came, &Some(want))
}

// The text fills a block all but a byte, exactly, or passes it by a byte.
#[test]
fn a_value_ends_near_a_block(rt: HostRuntime) -> Result<(), Fail> {
    let mut areas = make_areas(rt.alloc(), 8192)?;
    for block in &BLOCKS {
        check_block(rt.alloc(), &mut areas, block)?;
    }
    Ok(())
}

// A column of bigint, and a row of the least one.
const BIGINT: [u8; 21] = [
    0x04, 0x00, 0x00, 0x15, 0x00, 0x00, 0x01, 0x00, 0x81, 1, 0, 0, 0, 0, 0, 0, 0, 0x7F, 1, 0x61, 0,
];

const LEAST: [u8; 17] = [
    0x04, 0x00, 0x00, 0x11, 0x00, 0x00, 0x01, 0x00, 0xD1, 0, 0, 0, 0, 0, 0, 0, 0x80,
];

// 370 rows have 8,145 bytes of text. The writer fails in the end of the first block.
#[test]
fn a_write_of_many_rows_fails(rt: HostRuntime) -> Result<(), Fail> {
    let mut areas = make_areas(rt.alloc(), PACKET_SIZE)?;
    let from = RepeatingReader::new(&BIGINT, &LEAST, 370, DONE);
    let to = ScriptedWriter::new(1000, Failing::AfterBytes(4090));
    let came = run_repeated(&mut areas, from, to, NOTHING);
    let want = Repeated {
        answer: Err(Stopped {
            fault: Fault::WriteFailed,
            place: Place::Text(4090),
            written: 4090,
            unwritten: 6,
        }),
        taken: 4090,
        kept: None,
    };
    same("many rows", &came, &Some(want))
}
