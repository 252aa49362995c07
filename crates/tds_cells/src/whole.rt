// A cell that is whole in the packet: its bytes are together.
ghost use Rattle.std.specs.Prelude.{◌≡◌, ◌==◌, ◌+◌, ◌-◌, ◌<◌, ◌≤◌, ℕ, drop, length, take, is_ok, false, true, None, Some, IfErr, IfSome, IsTrue, MatchOption, if◌then◌else◌};
ghost use Rattle.std.specs.Result.{result_ok};
ghost use Rattle.tds_cells.specs.CellTexts.{CellWritten, IsLeftFor, WritesField, is_counted, is_int4, whole_size};
ghost use Rattle.tds_values.specs.Front.{value_bytes, value_length, value_start};
ghost use Rattle.tds_values.specs.Scalar.{read_of};
ghost use Rattle.tds_values.specs.declared.charset.Charset.{Charset};
ghost use Rattle.tds_cells.specs.Cells.{LongShape, shape};
ghost use Rattle.byteorder.specs.Endian.{little_number};
ghost use Rattle.tds_cells.specs.LongFields.{HasOneChunk, LongWritten, chunk_end};
ghost use Rattle.tds_values.specs.declared.kind.Reach.{Reach};
ghost use Rattle.tds_values.specs.Kind.{is_scalar};
ghost use Rattle.tds_values.specs.declared.kind.Kind.{Kind};
ghost use Rattle.tds_text.specs.Fields.{conversion_of};
ghost use Rattle.tds_cells.specs.Layouts.{IsLaidOut};

use crate::chunks::{CHUNK_LENGTH_SIZE, LONGEST_DATA, TOTAL_SIZE, write_chunks};
use crate::layout::{CellFormat, Layout};
use crate::row_format::is_counted;
use byteorder::{ByteOrder, LittleEndian};
use tds_text::{Content, NULL_ROOM, write_field, write_null};
use tds_values::{
    Charset, FRONT_SIZE, INTEGER_ROOM, Kind, LONGEST_INT4, Reach, Span, ValueFault, write_front,
    write_int4, write_scalar,
};

/// The length that stands for NULL in a short value.
pub const NULL_LENGTH: u64 = 0xFFFF;

/// The total that stands for NULL.
pub const NULL_TOTAL: u64 = 0xFFFF_FFFF_FFFF_FFFF;

/// The total that stands for an unknown one.
pub const UNKNOWN_TOTAL: u64 = 0xFFFF_FFFF_FFFF_FFFE;

/// How many bytes the text of a scalar in its line may want, and a few to spare.
pub const CELL_ROOM: usize = 66;

/// How many bytes the text of a scalar may want, with the end of its line, and a few to spare.
pub(crate) const VALUE_ROOM: usize = 65;

// Writes the field of a short value of this content, whose cell is at the front of these bytes. `None` if it isn't
// whole, or is no text, or if there isn't the room that its text may need. Two bytes of room are left after it.
#[inline(always)]
fn write_short(content: Content, bytes: &[u8], to: &mut [u8]) -> Option<Span>
    requires room { VALUE_ROOM ≤ length to.old }
    ensures cell { LongWritten (conversion_of content) Reach.Short bytes.now (length to.old + 1) to.new result }
{
    if bytes.len() < 2 {
        return None;
    }
    let n = LittleEndian::read_u16(bytes) as usize;
    if n == NULL_LENGTH as usize {
        let made = write_null(0, false, to);
        return Some(Span { used: 2, made });
    }
    let used = 2 + n;
    if bytes.len() < used {
        return None;
    }
    let made = write_field(content, &bytes[2..], n, to)?;
    Some(Span { used, made })
}

// How many bytes come before the data of the first chunk.
const CHUNK_START: usize = TOTAL_SIZE + CHUNK_LENGTH_SIZE;

// How many bytes of data the value has whose total is at the front of these bytes, if it is whole in one chunk, or in none. `None`
// if it isn't, or if the total isn't the number of its bytes.
#[inline(always)]
fn one_chunk(total: u64, bytes: &[u8]) -> Option<usize>
    requires some { 12 ≤ length bytes.now }
    requires total { total ≡ little_number 8 bytes.now }
    ensures { MatchOption result ((n : ℕ) → HasOneChunk bytes.now n → ⊥) (λ n. HasOneChunk bytes.now n) }
{
    let n = LittleEndian::read_u32(&bytes[TOTAL_SIZE..]) as usize;
    if n > LONGEST_DATA || (total != n as u64 && total != UNKNOWN_TOTAL) {
        return None;
    }
    if n == 0 {
        return Some(0);
    }
    let end = CHUNK_START + n;
    if bytes.len() < end + CHUNK_LENGTH_SIZE {
        return None;
    }
    if LittleEndian::read_u32(&bytes[end..]) != 0 {
        return None;
    }
    Some(n)
}

// How many bytes the cell of a value in one chunk with so much data has, or in none.
#[inline(always)]
fn chunk_end(n: usize) -> usize
    requires { n ≤ 65535 }
    ensures { result ≡ chunk_end n }
{
    if n == 0 {
        return CHUNK_START;
    }
    CHUNK_START + n + CHUNK_LENGTH_SIZE
}

// What was written of a cell, if any of its bytes were used.
#[inline(always)]
fn some_written(written: Span) -> Option<Span>
    ensures { result ≡ (if written.used == 0 then None else Some written) }
{
    if written.used == 0 {
        return None;
    }
    Some(written)
}

// Writes the field of a value of this content, which is NULL or in chunks that each have a text of their own, as `write_short` does
// that of a short one, and uses no byte where that is `None`: a span comes in registers, an option of one in memory.
#[inline(never)]
fn write_apart(content: Content, bytes: &[u8], to: &mut [u8]) -> Span
    requires room { VALUE_ROOM ≤ length to.old }
    ensures cell { LongWritten (conversion_of content) Reach.Chunked bytes.now (length to.old + 1)
        to.new (if result.used == 0 then None else Some result) }
{
    let nothing = Span { used: 0, made: 0 };
    if bytes.len() < CHUNK_START {
        return nothing;
    }
    let total = LittleEndian::read_u64(bytes);
    if total == NULL_TOTAL {
        let made = write_null(0, false, to);
        return Span {
            used: TOTAL_SIZE,
            made,
        };
    }
    let Some(n) = one_chunk(total, bytes) else {
        return write_chunks(content, bytes, to);
    };
    let Some(made) = write_field(content, &bytes[CHUNK_START..], n, to) else {
        return nothing;
    };
    Span {
        used: chunk_end(n),
        made,
    }
}

// Writes as `write_apart` does.
#[inline(always)]
fn write_chunked(content: Content, bytes: &[u8], to: &mut [u8]) -> Option<Span>
    requires room { VALUE_ROOM ≤ length to.old }
    ensures cell { LongWritten (conversion_of content) Reach.Chunked bytes.now (length to.old + 1) to.new result }
{
    some_written(write_apart(content, bytes, to))
}

// Writes the field of a long value of this content as `write_short` and `write_chunked` do.
#[inline(always)]
fn write_long(reach: Reach, content: Content, bytes: &[u8], to: &mut [u8]) -> Option<Span>
    requires room { VALUE_ROOM ≤ length to.old }
    ensures cell { (charset : Charset) (kind : Kind) → shape charset kind ≡ LongShape (conversion_of content) reach →
        CellWritten charset kind bytes.now (length to.old + 1) to.new result }
{
    match reach {
        Reach::Short => write_short(content, bytes, to),
        Reach::Chunked => write_chunked(content, bytes, to),
    }
}

/// Why the cell at the front of some bytes is left.
#[derive(Clone, Copy)]
pub enum Left {
    /// It is of a scalar kind, and isn't whole.
    Cut,
    /// It is of a scalar kind, and its value or the length before it is refused.
    Refused(ValueFault),
    /// It is a long value of this content, which isn't whole, is no text, has a chunk that ends within a character, or may want
    /// more room.
    Long(Content, Reach),
}

/// Writes the field of the cell at the front of these bytes, or says why it is left. Two bytes of room are left after it.
/// `COPY` is that of [`write_front`].
#[inline(always)]
pub(crate) fn write_cell<const COPY: bool>(
    format: &CellFormat,
    charset: Charset,
    bytes: &[u8],
    to: &mut [u8],
) -> Result<Span, Left>
    requires laid { IsLaidOut charset format.now.kind format.now.layout }
    requires room { VALUE_ROOM ≤ length to.old }
    ensures cell { CellWritten charset format.now.kind bytes.now (length to.old + 1) to.new (result_ok result) }
    ensures left { IfErr result (λ left. IsLeftFor charset format.now.kind bytes.now left) }
{
    if let Layout::Short(content) = format.layout {
        return write_long(Reach::Short, content, bytes, to).ok_or(Left::Long(
            content,
            Reach::Short,
        ));
    }
    if let Layout::Chunked(content) = format.layout {
        return write_long(Reach::Chunked, content, bytes, to).ok_or(Left::Long(
            content,
            Reach::Chunked,
        ));
    }
    if bytes.is_empty() {
        return Err(Left::Cut);
    }
    let (start, n) = match format.layout {
        Layout::Fixed(n) => (0, n as usize),
        Layout::Counted => (1, bytes[0] as usize),
        _ => unreachable!(),
    };
    let used = start + n;
    if bytes.len() < used {
        return Err(Left::Cut);
    }
    if n == 0 {
        let made = write_null(0, false, to);
        return Ok(Span { used, made });
    }
    match write_scalar::<COPY>(&format.kind, &bytes[start..used], to) {
        Ok(made) => Ok(Span { used, made }),
        Err(fault) => Err(Left::Refused(fault)),
    }
}

/// How many bytes are there from a cell on that is far from the packet's end: all of a scalar's.
pub const LOOKAHEAD: usize = FRONT_SIZE;

// Writes the field of the cell of a scalar kind at the front of these bytes, where no value is: that of NULL.
#[inline(always)]
fn write_no_value(
    format: &CellFormat,
    charset: Charset,
    bytes: &[u8],
    to: &mut [u8],
) -> Option<Span>
    requires laid { IsLaidOut charset format.now.kind format.now.layout }
    requires scalar { IsTrue (is_scalar format.now.kind) }
    requires far { LOOKAHEAD ≤ length bytes.now }
    requires room { VALUE_ROOM ≤ length to.old }
    requires bad { is_ok (read_of format.now.kind (value_bytes format.now.kind bytes.now)) ≡ false }
    ensures cell { CellWritten charset format.now.kind bytes.now (length to.old + 1) to.new result }
{
    let Layout::Counted = format.layout else {
        return None;
    };
    if bytes[0] != 0 {
        return None;
    }
    let made = write_null(0, false, to);
    Some(Span { used: 1, made })
}

// Writes the field of the cell that begins at `from` as [`write_far_cell`] does, where no value of a scalar kind is: a long
// value, or NULL.
#[inline(always)]
fn write_other(
    format: &CellFormat,
    charset: Charset,
    bytes: &[u8],
    from: usize,
    to: &mut [u8],
    at: usize,
) -> Option<Span>
    requires laid { IsLaidOut charset format.now.kind format.now.layout }
    requires far { from + LOOKAHEAD ≤ length bytes.now }
    requires room { at + VALUE_ROOM ≤ length to.old }
    requires bad { is_ok (read_of format.now.kind (value_bytes format.now.kind (drop from bytes.now))) ≡ false }
    ensures kept { take at to.new ≡ take at to.old }
    ensures cell { CellWritten charset format.now.kind (drop from bytes.now) (length to.old - at + 1)
        (drop at to.new) result }
{
    match format.kind {
        Kind::Binary(reach) => { write_long(reach, Content::Binary, &bytes[from..], &mut to[at..]) }
        Kind::Wide(reach) => write_long(reach, Content::Utf16, &bytes[from..], &mut to[at..]),
        Kind::Narrow(reach) => match charset {
            Charset::Windows1252 => {
                write_long(reach, Content::Windows1252, &bytes[from..], &mut to[at..])
            }
            Charset::Utf8 => write_long(reach, Content::Utf8, &bytes[from..], &mut to[at..]),
        },
        _ => write_no_value(format, charset, &bytes[from..], &mut to[at..]),
    }
}

/// Writes the field of the cell that begins at `from`, far from the packet's end, into the room from `at` on, as
/// [`write_cell`] does. A scalar's kind is matched once, and only other kinds ask how many bytes and how much room are left.
/// `COPY` is that of [`write_front`].
#[inline(always)]
pub(crate) fn write_far_cell<const COPY: bool>(
    format: &CellFormat,
    charset: Charset,
    bytes: &[u8],
    from: usize,
    to: &mut [u8],
    at: usize,
) -> Option<Span>
    requires laid { IsLaidOut charset format.now.kind format.now.layout }
    requires far { from + LOOKAHEAD ≤ length bytes.now }
    requires room { at + VALUE_ROOM ≤ length to.old }
    ensures kept { take at to.new ≡ take at to.old }
    ensures cell { CellWritten charset format.now.kind (drop from bytes.now) (length to.old - at + 1)
        (drop at to.new) result }
{
    let Some(front) = write_front::<COPY>(
        &format.kind,
        &bytes[from..],
        &mut to[at..at + VALUE_ROOM],
    ) else {
        return write_other(format, charset, bytes, from, to, at);
    };
    Some(Span {
        used: front.used,
        made: front.made,
    })
}

/// How many bytes a whole number of four bytes has.
const INT4_SIZE: usize = 4;

/// How many bytes its cell has at most, with a length before it.
pub(crate) const INT4_CELL: usize = 5;

/// How many bytes its field has at most with the comma after it.
pub(crate) const NUMBER_FIELD: usize = LONGEST_INT4 + 1;

/// How much room its field wants, in bytes: some bytes after it are written too.
pub(crate) const NUMBER_ROOM: usize = INTEGER_ROOM;

// Writes the field of a cell whose value is a whole number of four bytes, so far after its front.
#[inline(always)]
fn write_int4_at(kind: &Kind, start: usize, bytes: &[u8], to: &mut [u8]) -> Span
    requires number { (is_int4 kind.now ≡ true) × (value_length kind.now bytes.now ≡ 4) }
    requires start { (start ≡ value_start kind.now) × (start + 4 ≤ length bytes.now) }
    requires room { NUMBER_ROOM ≤ length to.old }
    ensures short { (result.used ≡ start + 4) × (result.made ≤ 11) }
    ensures whole { result.used ≡ whole_size kind.now bytes.now }
    ensures field { (charset : Charset) →
        WritesField charset kind.now (take result.used bytes.now) (take result.made to.new) }
{
    let used = start + INT4_SIZE;
    let made = write_int4(&bytes[start..used], to);
    Span { used, made }
}

// Whether whole numbers of a kind come after their length. `COUNTED` says that they do.
#[inline(always)]
fn comes_counted<const COUNTED: bool>(kind: &Kind) -> bool
    requires { COUNTED ≡ true → is_counted kind.now ≡ true }
    ensures { result ≡ is_counted kind.now }
{
    COUNTED || is_counted(kind)
}

/// Writes the field of the cell at the front of these bytes, as [`write_cell`] does, of a kind whose values are whole
/// numbers of four bytes. `COUNTED` says that it comes after its length. `None` if its length isn't allowed.
#[inline(always)]
pub(crate) fn write_int4_cell<const COUNTED: bool>(
    format: &CellFormat,
    bytes: &[u8],
    to: &mut [u8],
) -> Option<Span>
    requires number { is_int4 format.now.kind ≡ true }
    requires counted { COUNTED ≡ true → is_counted format.now.kind ≡ true }
    requires within { 5 ≤ length bytes.now }
    requires room { NUMBER_ROOM ≤ length to.old }
    ensures most { IfSome result (λ written. (written.used ≤ 5) × (written.made ≤ 11)) }
    ensures cell { (charset : Charset) →
        CellWritten charset format.now.kind bytes.now (length to.old + 1) to.new result }
{
    if !comes_counted::<COUNTED>(&format.kind) {
        return Some(write_int4_at(&format.kind, 0, bytes, to));
    }
    let n = bytes[0] as usize;
    let made = match n {
        4 => write_int4_at(&format.kind, 1, bytes, to).made,
        0 => write_null(0, false, to),
        _ => return None,
    };
    Some(Span { used: 1 + n, made })
}
