// The lengths and totals of long values (MS-TDS, Partially Length-prefixed Bytes).
ghost use Rattle.std.specs.Prelude.{◌≡◌, ◌⊎◌, ◌==◌, ◌||◌, ◌%◌, ◌+◌, ◌-◌, ◌^◌, ◌≤◌, ◌<◌, length, None, Some, IfSome, MatchResult, if◌then◌else◌, nat_le};
ghost use Rattle.byteorder.specs.Endian.{little_number};
ghost use Rattle.tds_cells.specs.declared.layout.Layout.TheVariants.{Short};
ghost use Rattle.tds_packet.specs.Payloads.{IsGoing, LeavesPayload, seen};
ghost use Rattle.tds_rows.specs.LongCells.{CutsBytes, LengthTaken, ReadsNumber, chunk_length_fault, end_fault};
ghost use Rattle.tds_cells.specs.Cells.{known_total, unless};
ghost use Rattle.tds_packet.specs.declared.fault.Fault.TheVariants.{OddText};

use byteorder::{ByteOrder, LittleEndian};
use std::io::Read;
use tds_cells::{CellFormat, Layout, NULL_LENGTH, NULL_TOTAL, UNKNOWN_TOTAL};
use tds_packet::{Fault, Payload, Stop};
use tds_text::Content;

// How many bytes the text of a short value has at most that may go to the sink at once.
const LONGEST_AT_ONCE: usize = 974;

// How many bytes the text of `n` bytes of data has at least, without its quotes.
fn least_text(content: Content, n: usize) -> usize
    ensures { result ≤ n }
{
    match content {
        Content::Utf16 => n / 2,
        Content::Binary | Content::Windows1252 | Content::Utf8 => n,
    }
}

// Reads a number of `size` bytes, the lowest first.
#[inline(always)]
fn read_number<R: Read>(payload: &mut Payload<R>, size: usize) -> Result<u64, Stop>
    requires going { IsGoing payload.old }
    requires some { 0 < size }
    requires most { size ≤ 8 }
    ensures payload { LeavesPayload payload.old payload.new result }
    ensures number { MatchResult result
        (λ n. ReadsNumber size (seen R.remaining payload.old) (seen R.remaining payload.new)
        payload.old.place payload.new.place n)
        (λ stop. CutsBytes size (seen R.remaining payload.old) (seen R.remaining payload.new) payload.old.place stop) }
{
    let mut bytes = [0u8; 8];
    payload.fill(&mut bytes[..size])?;
    Ok(LittleEndian::read_uint(&bytes[..size], size))
}

/// What a short value holds that isn't NULL, and goes by a joiner at once: one whose cell isn't whole in these bytes, or whose text
/// is long. `None` for any other cell.
pub(crate) fn joined_content(format: &CellFormat, bytes: &[u8]) -> Option<Content>
    ensures short { IfSome result (λ content. format.now.layout ≡ Short content) }
    ensures joined { IfSome result (λ _. 2 ≤ length bytes.now → let n = little_number 2 bytes.now in
        (length bytes.now < 2 + n) ⊎ (974 < n)) }
{
    let Layout::Short(content) = format.layout else {
        return None;
    };
    if bytes.len() < 2 {
        return Some(content);
    }
    let n = LittleEndian::read_u16(bytes) as usize;
    if n == NULL_LENGTH as usize {
        return None;
    }
    if bytes.len() < 2 + n || least_text(content, n) > LONGEST_AT_ONCE {
        return Some(content);
    }
    None
}

/// Reads the length of a short value, whose data has units of `unit` bytes. `None` if it is NULL.
pub(crate) fn read_short_length<R: Read>(
    payload: &mut Payload<R>,
    column: u16,
    unit: u64,
) -> Result<Option<u64>, Stop>
    requires going { IsGoing payload.old }
    requires some { 0 < unit }
    ensures { LengthTaken R.remaining 2 (λ n. unless ((n == 0xFFFF) || (n % unit == 0)) (OddText column))
        (λ n. if n == 0xFFFF then None else Some n) payload.old payload.new result }
{
    let place = payload.place();
    match read_number(payload, 2)? {
        NULL_LENGTH => Ok(None),
        n if n % unit != 0 => Err(Stop::in_payload(Fault::OddText { column }, place)),
        n => Ok(Some(n)),
    }
}

/// Reads the total of a value in chunks, whose data has units of `unit` bytes: the number of its bytes, if
/// that is known. `None` if it is NULL.
pub(crate) fn read_total<R: Read>(
    payload: &mut Payload<R>,
    column: u16,
    unit: u64,
) -> Result<Option<Option<u64>>, Stop>
    requires going { IsGoing payload.old }
    requires some { 0 < unit }
    ensures { LengthTaken R.remaining 8 (λ n. unless (nat_le (2 ^ 64 - 2) n || (n % unit == 0)) (OddText column))
        (λ n. if n == (2 ^ 64 - 1) then None else Some (known_total n)) payload.old payload.new result }
{
    let place = payload.place();
    match read_number(payload, 8)? {
        NULL_TOTAL => Ok(None),
        UNKNOWN_TOTAL => Ok(Some(None)),
        n if n % unit != 0 => Err(Stop::in_payload(Fault::OddText { column }, place)),
        n => Ok(Some(Some(n))),
    }
}

// The fault of a terminator after `sum` bytes of data, apart from the data's own faults.
fn end_fault(column: u16, unit: u64, total: Option<u64>, sum: u64) -> Option<Fault>
    requires { 0 < unit }
    ensures { result ≡ end_fault column unit total sum }
{
    match total {
        Some(total) if sum != total => Some(Fault::PlpLength { column }),
        _ if sum % unit != 0 => Some(Fault::OddText { column }),
        _ => None,
    }
}

// The fault of the length of a chunk after `sum` bytes of data; 0 is the terminator.
fn chunk_length_fault(column: u16, unit: u64, total: Option<u64>, sum: u64, n: u64) -> Option<Fault>
    requires { 0 < unit }
    ensures { result ≡ chunk_length_fault column unit total sum n }
{
    if n == 0 {
        return end_fault(column, unit, total, sum);
    }
    match total {
        Some(total) if total.saturating_sub(sum) < n => Some(Fault::PlpLength { column }),
        _ => None,
    }
}

/// Reads the length of a chunk after `sum` bytes of data; 0 is the terminator.
pub(crate) fn read_chunk_length<R: Read>(
    payload: &mut Payload<R>,
    column: u16,
    unit: u64,
    total: Option<u64>,
    sum: u64,
) -> Result<u64, Stop>
    requires going { IsGoing payload.old }
    requires some { 0 < unit }
    ensures { LengthTaken R.remaining 4 (λ n. chunk_length_fault column unit total sum n) (λ n. n)
        payload.old payload.new result }
{
    let place = payload.place();
    let n = read_number(payload, 4)?;
    match chunk_length_fault(column, unit, total, sum, n) {
        Some(fault) => Err(Stop::in_payload(fault, place)),
        None => Ok(n),
    }
}
