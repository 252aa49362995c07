// The name of a column, put as a field of its header line.
ghost use Rattle.byteorder.specs.Endian.{little_number};
ghost use Rattle.std.specs.Prelude.{◌≡◌, ◌+◌, ◌%◌, ◌≤◌, length, take};
ghost use Rattle.tds_text.specs.Conversion.{Utf16Text, long_field};
ghost use Rattle.tds_text.specs.Fields.{IsField, field_room};
ghost use Rattle.tds_text.specs.Plain.{LiesIn};
ghost use Rattle.tds_text.specs.Quoting.{in_line};
ghost use Rattle.tds_csv.specs.Sinks.{IsWriting, PutsPiece};

use crate::sink::Sink;
use byteorder::{ByteOrder, LittleEndian};
use std::io::Write;
use std::simd::prelude::*;
use tds_packet::Stop;
use tds_text::framing::{write_comma, write_line_end};
use tds_text::lanes::LANES;
use tds_text::{Content, field_room, write_few_utf16, write_utf16};

// How many bytes are read as one number.
const WORD: usize = 8;

// The room for a name that is converted with other bytes after it.
const PADDED: usize = 64;

// How many bytes of room the field of a name of 255 units may want in its line.
const NAME_ROOM: usize = 786;

// At most four units as one number, the lowest byte first.
#[inline(always)]
fn four_units(units: &[u8]) -> u64
    requires even { length units.now % 2 ≡ 0 }
    requires few { length units.now ≤ 8 }
    ensures { result ≡ little_number (length units.now) units.now }
{
    match units.len() {
        0 => 0,
        2 => u64::from(LittleEndian::read_u16(units)),
        4 => u64::from(LittleEndian::read_u32(units)),
        6 => {
            let last = u64::from(LittleEndian::read_u16(&units[4..]));
            u64::from(LittleEndian::read_u32(units)) + last * 0x1_0000_0000
        }
        _ => LittleEndian::read_u64(units),
    }
}

// At most eight units, and zeros after them. They pass by registers: a vector of bytes that were just stored in pieces is waited for.
#[inline(always)]
fn padded(units: &[u8]) -> u8x16
    requires even { length units.now % 2 ≡ 0 }
    requires few { length units.now ≤ 16 }
    ensures { LiesIn units.now result }
{
    let words = if units.len() <= WORD {
        [four_units(units), 0]
    } else {
        [LittleEndian::read_u64(units), four_units(&units[WORD..])]
    };
    u64x2::from_array(words).to_le_bytes()
}

// Writes the field of a name of at most eight units, to which others are added.
#[inline(always)]
fn write_few(units: &[u8], to: &mut [u8]) -> usize
    requires even { length units.now % 2 ≡ 0 }
    requires few { length units.now ≤ 16 }
    requires room { field_room Utf16Text (length units.now) ≤ length to.old }
    ensures { IsField Utf16Text units.now to.new result }
{
    write_few_utf16(units, padded(units), to)
}

// Writes the field of a name that may have many units. Up to 24 are copied to where other bytes are after them.
#[inline(never)]
fn write_longer(units: &[u8], to: &mut [u8]) -> usize
    requires even { length units.now % 2 ≡ 0 }
    requires room { field_room Utf16Text (length units.now) ≤ length to.old }
    ensures { IsField Utf16Text units.now to.new result }
{
    let n = units.len();
    if n > PADDED - LANES {
        return write_utf16(units, n, to);
    }
    let mut padded = [0u8; PADDED];
    padded[..n].copy_from_slice(units);
    write_utf16(&padded, n, to)
}

// Writes the field of a name, without a call if it has at most eight units.
#[inline(always)]
fn write_units(units: &[u8], to: &mut [u8]) -> usize
    requires even { length units.now % 2 ≡ 0 }
    requires room { field_room Utf16Text (length units.now) ≤ length to.old }
    ensures { IsField Utf16Text units.now to.new result }
{
    if units.len() <= LANES {
        return write_few(units, to);
    }
    write_longer(units, to)
}

/// How much room [`write_name`] needs for a name of `n` bytes.
#[inline(always)]
pub fn name_room(n: usize) -> usize
    requires { n ≤ 510 }
    ensures { result ≡ field_room Utf16Text n + 1 }
{
    field_room(Content::Utf16, n) + 1
}

/// Writes a name in UTF-16 to the front of a slice as [`put_name`] puts it, and returns how many bytes its text has.
#[inline(always)]
pub fn write_name(units: &[u8], column: u16, last: bool, to: &mut [u8]) -> usize
    requires even { length units.now % 2 ≡ 0 }
    requires few { length units.now ≤ 510 }
    requires room { field_room Utf16Text (length units.now) + 1 ≤ length to.old }
    ensures most { result ≤ length to.old }
    ensures text { take result to.new ≡ in_line column last (long_field Utf16Text units.now) }
{
    let start = write_comma(column, to);
    let made = write_units(units, &mut to[start..]);
    write_line_end(last, start + made, to)
}

// Puts a name as `put_name` does, by a slice of its own.
#[inline(never)]
fn put_name_by_copy<W: Write>(
    units: &[u8],
    column: u16,
    last: bool,
    sink: &mut Sink<'_, W>,
) -> Result<(), Stop>
    requires writing { IsWriting sink.old }
    requires even { length units.now % 2 ≡ 0 }
    requires few { length units.now ≤ 510 }
    ensures { PutsPiece W.contents sink.old sink.new (in_line column last (long_field Utf16Text units.now)) result }
{
    let mut to = [0u8; NAME_ROOM];
    let made = write_name(units, column, last, &mut to);
    sink.put(&to[..made])
}

/// Puts a name of at most 255 units in UTF-16 as a field of its line: after a comma if it isn't the first, and before the
/// line's end if it is the last.
pub fn put_name<W: Write>(
    units: &[u8],
    column: u16,
    last: bool,
    sink: &mut Sink<'_, W>,
) -> Result<(), Stop>
    requires writing { IsWriting sink.old }
    requires even { length units.now % 2 ≡ 0 }
    requires few { length units.now ≤ 510 }
    ensures { PutsPiece W.contents sink.old sink.new (in_line column last (long_field Utf16Text units.now)) result }
{
    let most = name_room(units.len());
    if sink.room() < most {
        return put_name_by_copy(units, column, last, sink);
    }
    let waiting = sink.waiting() as usize;
    let made = write_name(units, column, last, sink.spare(most));
    sink.keep(waiting, made)
}
