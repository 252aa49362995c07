// Values in several chunks that lie whole in the packet (MS-TDS, Partially Length-prefixed Bytes).
ghost use Rattle.std.specs.Prelude.{◌≡◌, ◌≢◌, ◌+◌, ◌-◌, ◌*◌, ◌<◌, ◌≤◌, ◌^◌, ◌++◌, [], drop, length, take, true, IfSome, Some};
ghost use Rattle.byteorder.specs.Endian.{little_number};
ghost use Rattle.tds_cells.specs.Cells.{is_total, known_total};
ghost use Rattle.tds_cells.specs.LongFields.{LongWritten};
ghost use Rattle.tds_text.specs.Conversion.{BeginsData, closing, conversion_rest, conversion_text, is_quoted, open_field};
ghost use Rattle.tds_text.specs.Fields.{conversion_of};
ghost use Rattle.tds_text.specs.Joining.{emit};
ghost use Rattle.tds_text.specs.Plain.{LiesIn};
ghost use Rattle.tds_values.specs.declared.kind.Reach.{Reach};

use crate::whole::{UNKNOWN_TOTAL, VALUE_ROOM};
use byteorder::{ByteOrder, LittleEndian};
use tds_text::framing::{BINARY_MARK, QUOTE};
use tds_text::lanes::LANES;
use tds_text::utf8::convert_begun;
use tds_text::utf16::convert;
use tds_text::{Bytewise, Content, Hex, Windows1252};
use tds_values::Span;

/// How many bytes the total before a value in chunks has.
pub(crate) const TOTAL_SIZE: usize = 8;

/// How many bytes the length of a chunk has; the terminator is one.
pub(crate) const CHUNK_LENGTH_SIZE: usize = 4;

/// The most bytes of data that a value in chunks has which is written at once.
pub(crate) const LONGEST_DATA: usize = 65_535;

// The length of the chunk at a place, if it lies whole in the bytes and isn't long; 0 is the terminator.
#[inline(always)]
fn chunk_at(bytes: &[u8], at: usize) -> Option<usize>
    requires { at ≤ length bytes.now }
    ensures few { IfSome result (λ n. n ≤ 65535) }
    ensures chunk { IfSome result (λ n. (at + 4 + n ≤ length bytes.now) × (n ≡ little_number 4 (drop at bytes.now))) }
{
    if bytes.len() - at < CHUNK_LENGTH_SIZE {
        return None;
    }
    let n = LittleEndian::read_u32(&bytes[at..]) as usize;
    if n > LONGEST_DATA || n > bytes.len() - at - CHUNK_LENGTH_SIZE {
        return None;
    }
    Some(n)
}

// Whether data of this content, of which some is there, surely ends within a character.
#[inline(always)]
fn is_cut(content: Content, part: &[u8]) -> bool
    requires { 0 < length part.now }
{
    let n = part.len();
    match content {
        Content::Utf16 => n % 2 == 1 || part[n - 1] & 0xFC == 0xD8,
        Content::Utf8 => {
            part[n - 1] >= 0xC0 || n > 1 && part[n - 2] >= 0xE0 || n > 2 && part[n - 3] >= 0xF0
        }
        Content::Binary | Content::Windows1252 => false,
    }
}

// Whether the value of this content whose total is at the front of these bytes isn't NULL, is whole by the lengths of its chunks, has at
// most `most` bytes of data, and no chunk that is seen to end within a character: if not, no text is written in vain.
#[inline(always)]
fn lies_whole(content: Content, bytes: &[u8], most: usize) -> bool
    requires { 3 * most < 2 ^ 64 }
    ensures { result ≡ true → (8 ≤ length bytes.now) × (little_number 8 bytes.now ≢ 2 ^ 64 - 1) }
{
    if bytes.len() < TOTAL_SIZE {
        return false;
    }
    let total = LittleEndian::read_u64(bytes);
    if total > most as u64 && total != UNKNOWN_TOTAL {
        return false;
    }
    let cuts = matches!(content, Content::Utf16 | Content::Utf8);
    let mut at = TOTAL_SIZE;
    let mut size = 0;
    while size <= most {
        let Some(n) = chunk_at(bytes, at) else {
            return false;
        };
        if n == 0 {
            return true;
        }
        let end = at + CHUNK_LENGTH_SIZE + n;
        if cuts && is_cut(content, &bytes[at + CHUNK_LENGTH_SIZE..end]) {
            return false;
        }
        at = end;
        size += n;
    }
    false
}

// Whether the data before a terminator is as long as the total says.
#[inline(always)]
fn agrees(total: u64, sum: u64) -> bool
    ensures { result ≡ is_total (known_total total) sum }
{
    total == UNKNOWN_TOTAL || total == sum
}

// Writes what comes before the text of a field.
#[inline(always)]
fn open(content: Content, to: &mut [u8]) -> usize
    requires { 2 ≤ length to.old }
    ensures most { result ≤ 2 }
    ensures text { take result to.new ≡ open_field (conversion_of content) [] }
{
    if let Content::Binary = content {
        to[0] = BINARY_MARK[0];
        to[1] = BINARY_MARK[1];
        return 2;
    }
    to[0] = QUOTE;
    1
}

// Writes what comes after `made` bytes of a field, which are all but its end, and returns how many bytes it has.
#[inline(always)]
fn close(content: Content, made: usize, to: &mut [u8]) -> usize
    requires { made < length to.old }
    ensures most { result ≤ made + 1 }
    ensures text { take result to.new ≡ take made to.old ++ closing (is_quoted (conversion_of content)) }
{
    if let Content::Binary = content {
        return made;
    }
    to[made] = QUOTE;
    made + 1
}

// Writes the text of the data of a chunk, and returns its length. What follows the data in the source may be looked at. `None` if a byte is
// bad, or if the last character may go on in the next chunk.
#[inline(always)]
fn write_text(content: Content, part: &[u8], source: &[u8], to: &mut [u8]) -> Option<usize>
    requires source { LiesIn part.now source.now }
    requires room { 3 * length part.now + LANES ≤ length to.old }
    ensures most { IfSome result (λ made. made ≤ 3 * length part.now) }
    ensures text { let c = conversion_of content in
        IfSome result (λ made. BeginsData c part.now × (conversion_rest c part.now ≡ [])
        × (take made to.new ≡ emit (conversion_rest c) (conversion_text c) part.now)) }
{
    let done = match content {
        Content::Binary => return Some(Hex::convert(part, source, to)),
        Content::Windows1252 => return Some(Windows1252::convert(part, source, to)),
        Content::Utf16 => convert(part, source, to),
        Content::Utf8 => convert_begun(part, source, to)?,
    };
    if done.used < part.len() {
        return None;
    }
    Some(done.made)
}

/// Writes the field of a value of this content in chunks, if they lie whole in these bytes with the terminator and each has a text of
/// its own: else no byte is used. Two bytes of room are left after it.
#[inline(never)]
pub(crate) fn write_chunks(content: Content, bytes: &[u8], to: &mut [u8]) -> Span
    requires room { VALUE_ROOM ≤ length to.old }
    ensures { 0 < result.used → LongWritten (conversion_of content) Reach.Chunked bytes.now (length to.old + 1)
        to.new (Some result) }
{
    let nothing = Span { used: 0, made: 0 };
    if !lies_whole(content, bytes, (to.len() - 2 * LANES) / 3) {
        return nothing;
    }
    let mut made = open(content, to);
    let mut at = TOTAL_SIZE;
    let mut sum: u64 = 0;
    loop {
        let Some(n) = chunk_at(bytes, at) else {
            return nothing;
        };
        if n == 0 {
            break;
        }
        if to.len() - made < 3 * n + LANES {
            return nothing;
        }
        let source = &bytes[at + CHUNK_LENGTH_SIZE..];
        let Some(added) = write_text(content, &source[..n], source, &mut to[made..]) else {
            return nothing;
        };
        at += CHUNK_LENGTH_SIZE + n;
        made += added;
        sum += n as u64;
    }
    if !agrees(LittleEndian::read_u64(bytes), sum) {
        return nothing;
    }
    Span {
        used: at + CHUNK_LENGTH_SIZE,
        made: close(content, made, to),
    }
}
