// The value of a RETURNVALUE, which is passed over (MS-TDS, RETURNVALUE).
ghost use Rattle.std.specs.Prelude.{◌<◌, ◌≤◌, IfOk, [], ◌≡◌, ◌++◌, ℕ, List, true, is_ok, length, None, Err, IfSome, IsTrue, MatchOption, MatchResult};
ghost use Rattle.tds_packet.specs.Payloads.{IsGoing, IsSound, LeavesPayload, seen};
ghost use Rattle.tds_rows.specs.PassedCells.{AnyData, CellPassed, CutsPassing, PassesData};
ghost use Rattle.tds_text.specs.Conversion.{Conversion};
ghost use Rattle.tds_cells.specs.Cells.{ChunkLength, Cell, LongShape, SpellsCell, cell_start, return_charset, shape};
ghost use Rattle.tds_rows.specs.CellSteps.{LeavesGathering};
ghost use Rattle.tds_values.specs.Front.{scalar_size, value_bytes, value_length};
ghost use Rattle.tds_values.specs.Scalar.{read_of};
ghost use Rattle.tds_rows.specs.Successes.{Brings};
ghost use Rattle.tds_meter.specs.Counts.{Rose};
ghost use Rattle.tds_values.specs.declared.kind.Kind.{Kind};
ghost use Rattle.tds_values.specs.Kind as kinds;

use crate::cell::gathered::{gather_scalar, length_size, refusal};
use crate::cell::lengths::{read_chunk_length, read_short_length, read_total};
use std::io::Read;
use tds_columns::RETURN_COLUMN;
use tds_meter::Area;
use tds_packet::{Payload, Stop};
use tds_values::{Kind, Reach, ValueFault, read_scalar};

// Passes over the next bytes that are in the packet, at most `most`, or over the first byte of another packet.
// Returns how many they are.
fn pass_piece<R: Read>(payload: &mut Payload<R>, most: u64) -> Result<u64, Stop>
    requires going { IsGoing payload.old }
    requires some { 0 < most }
    ensures payload { LeavesPayload payload.old payload.new result }
    ensures some { IfOk result (λ n. (0 < n) × (n ≤ most)) }
    ensures piece { MatchResult result
        (λ n. PassesData n (seen R.remaining payload.old) (seen R.remaining payload.new)
        payload.old.place payload.new.place)
        (λ stop. CutsPassing 1 (seen R.remaining payload.old) (seen R.remaining payload.new) payload.old.place stop) }
{
    let held = payload.buffered().len() as u64;
    if held == 0 {
        payload.pass(1)?;
        return Ok(1);
    }
    let n = held.min(most);
    payload.consume(n as usize);
    Ok(n)
}

// Passes over `n` bytes, and stops at the first that is missing.
pub(crate) fn pass_data<R: Read>(payload: &mut Payload<R>, n: u64) -> Result<(), Stop>
    requires going { IsGoing payload.old }
    ensures payload { LeavesPayload payload.old payload.new result }
    ensures data { MatchResult result
        (λ _. PassesData n (seen R.remaining payload.old) (seen R.remaining payload.new)
        payload.old.place payload.new.place)
        (λ stop. CutsPassing n (seen R.remaining payload.old) (seen R.remaining payload.new) payload.old.place stop) }
{
    let mut left = n;
    while left > 0 {
        left -= pass_piece(payload, left)?;
    }
    Ok(())
}

// Passes over the chunks and the terminator.
fn pass_chunks<R: Read>(payload: &mut Payload<R>, unit: u64, total: Option<u64>) -> Result<(), Stop>
    requires going { IsGoing payload.old }
    requires unit { 0 < unit }
    ensures payload { LeavesPayload payload.old payload.new result }
    ensures cell { (c : Conversion) → AnyData c unit →
        CellPassed R.remaining (ChunkLength c total []) payload.old payload.new result }
{
    let mut sum = 0u64;
    loop {
        let n = read_chunk_length(payload, RETURN_COLUMN, unit, total, sum)?;
        if n == 0 {
            return Ok(());
        }
        pass_data(payload, n)?;
        sum += n;
    }
}

// The fault of the value of a whole cell of a scalar kind; NULL has none.
fn value_fault(kind: &Kind, cell: &[u8]) -> Option<ValueFault>
    requires valid { IsTrue (kinds.is_valid kind.now) }
    requires scalar { IsTrue (kinds.is_scalar kind.now) }
    requires whole { length cell.now ≡ scalar_size kind.now cell.now }
    ensures { MatchOption result
        (0 < value_length kind.now cell.now → is_ok (read_of kind.now (value_bytes kind.now cell.now)) ≡ true)
        (λ fault. (0 < value_length kind.now cell.now) × (read_of kind.now (value_bytes kind.now cell.now) ≡ Err fault)) }
{
    let start = length_size(kind);
    if start == cell.len() {
        return None;
    }
    match read_scalar(kind, &cell[start..]) {
        Ok(_) => None,
        Err(fault) => Some(fault),
    }
}

// Passes over a value of a scalar kind, which is judged in the small area.
fn pass_scalar<R: Read>(payload: &mut Payload<R>, kind: &Kind, small: &mut Area) -> Result<(), Stop>
    requires going { IsGoing payload.old }
    requires valid { IsTrue (kinds.is_valid kind.now) }
    requires scalar { IsTrue (kinds.is_scalar kind.now) }
    requires room { 18 ≤ small.old.room }
    ensures leaves { LeavesGathering payload.old payload.new small.old small.new result }
    ensures cell { CellPassed R.remaining (cell_start kind.now (shape return_charset kind.now))
        payload.old payload.new result }
{
    let place = payload.place();
    gather_scalar(payload, kind, RETURN_COLUMN, small)?;
    match value_fault(kind, small.bytes()) {
        Some(fault) => Err(refusal(fault, kind, RETURN_COLUMN, place)),
        None => Ok(()),
    }
}

// Passes over a long value, whose data has units of `unit` bytes.
fn pass_long<R: Read>(payload: &mut Payload<R>, reach: Reach, unit: u64) -> Result<(), Stop>
    requires going { IsGoing payload.old }
    requires unit { 0 < unit }
    ensures payload { LeavesPayload payload.old payload.new result }
    ensures cell { (kind : Kind) (c : Conversion) → AnyData c unit →
        CellPassed R.remaining (cell_start kind (LongShape c reach)) payload.old payload.new result }
{
    match reach {
        Reach::Short => match read_short_length(payload, RETURN_COLUMN, unit)? {
            Some(n) => pass_data(payload, n),
            None => Ok(()),
        },
        Reach::Chunked => match read_total(payload, RETURN_COLUMN, unit)? {
            Some(total) => pass_chunks(payload, unit, total),
            None => Ok(()),
        },
    }
}

/// Passes over the value of a RETURNVALUE, which may be of any kind: reads it from its first byte on, and
/// keeps and puts nothing of it. It stops as a cell of column 65,535 does, but its text may be any
/// bytes. [`Fault::BadValueLength`] and [`Fault::BadValue`] are as in a row, [`Fault::OddText`] is at the
/// length, the total or the terminator of an odd Wide value, and [`Fault::PlpLength`] at the length of the
/// chunk that passes the total or at the terminator before it. Any other stop is the payload's own: if the
/// message ends, it is at the first byte of the element that isn't whole. Each byte of long data is an
/// element. After a stop of the payload the same stop is returned, and nothing changes.
///
/// A scalar value is judged in the small area, which is emptied first and has room for 18 bytes at least.
pub fn pass_over<R: Read>(
    payload: &mut Payload<R>,
    kind: &Kind,
    small: &mut Area,
) -> Result<(), Stop>
    requires sound { IsSound payload.old }
    requires room { 18 ≤ small.old.room }
    requires valid { IsTrue (kinds.is_valid kind.now) }
    ensures leaves { LeavesGathering payload.old payload.new small.old small.new result }
    ensures cell { payload.old.stopped ≡ None →
        CellPassed R.remaining (cell_start kind.now (shape return_charset kind.now))
        payload.old payload.new result }
    ensures succeeds { payload.old.stopped ≡ None → (value : Cell) (bytes more : List ℕ) →
        SpellsCell kind.now (shape return_charset kind.now) value bytes →
        Brings (seen R.remaining payload.old) (bytes ++ more) →
        ¬ Rose payload.old.from.now.failures payload.new.from.now.failures → is_ok result ≡ true }
    ensures again { IfSome payload.old.stopped (λ stop. (result ≡ Err stop)
        × (payload.new ≡ payload.old) × (small.new ≡ small.old)) }
{
    if let Some(stop) = payload.stopped() {
        return Err(stop);
    }
    match *kind {
        Kind::Binary(reach) | Kind::Narrow(reach) => pass_long(payload, reach, 1),
        Kind::Wide(reach) => pass_long(payload, reach, 2),
        _ => pass_scalar(payload, kind, small),
    }
}
