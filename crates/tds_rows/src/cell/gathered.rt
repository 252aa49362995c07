// A scalar cell across the ends of packets: its bytes are gathered in the small area.
ghost use Rattle.std.specs.Prelude.{[], ◌≡◌, ◌+◌, ◌<◌, ◌≤◌, ◌^◌, IsTrue, None, Some};
ghost use Rattle.tds_packet.specs.Payloads.{IsGoing};
ghost use Rattle.tds_cells.specs.Cells.{ScalarBytes, ScalarLength, cell_start, shape};
ghost use Rattle.tds_rows.specs.CellSteps.{CellGathered, LeavesGathering, refusal};
ghost use Rattle.tds_values.specs.Front.{value_start};
ghost use Rattle.tds_values.specs.declared.charset.Charset as sets;
ghost use Rattle.tds_values.specs.Kind as kinds;

use std::io::Read;
use tds_columns::read_into;
use tds_meter::Area;
use tds_packet::{Fault, Payload, Stop};
use tds_values::{Kind, ValueFault};

/// The most bytes that a cell of a scalar kind has: a length and a decimal. A call that gathers such
/// cells needs room for them in the small area.
pub const LONGEST_CELL: usize = 18;

/// The most bytes that a value of a scalar kind has.
const LONGEST_VALUE: usize = 17;

// How many bytes the length before a value of a scalar kind has: none, or one.
#[inline(always)]
pub(crate) fn length_size(kind: &Kind) -> usize
    requires valid { IsTrue (kinds.is_valid kind.now) }
    ensures value { result ≡ value_start kind.now }
    ensures most { result ≤ 1 }
{
    match kind.fixed_length() {
        Some(_) => 0,
        None => 1,
    }
}

/// The stop at a cell of a scalar kind that begins at `place`, whose value, or the length before it, is refused.
pub(crate) fn refusal(fault: ValueFault, kind: &Kind, column: u16, place: u64) -> Stop
    requires valid { IsTrue (kinds.is_valid kind.now) }
    requires within { place + 1 < 2 ^ 64 }
    ensures { result ≡ refusal kind.now column place fault }
{
    match fault {
        ValueFault::Length => Stop::in_payload(Fault::BadValueLength { column }, place),
        ValueFault::Value => {
            let value = place + length_size(kind) as u64;
            Stop::in_payload(Fault::BadValue { column }, value)
        }
    }
}

// Reads a cell that has no length before its value into an empty area.
fn gather_fixed<R: Read>(
    payload: &mut Payload<R>,
    kind: &Kind,
    n: u8,
    column: u16,
    small: &mut Area,
) -> Result<(), Stop>
    requires going { IsGoing payload.old }
    requires small { (small.old.bytes ≡ []) × (18 ≤ small.old.room) }
    requires fixed { kinds.fixed_length kind.now ≡ Some n }
    requires longest { n ≤ LONGEST_VALUE }
    ensures leaves { LeavesGathering payload.old payload.new small.old small.new result }
    ensures cell { CellGathered R.remaining kind.now (ScalarBytes kind.now n) column
        payload.old payload.new small.new.bytes result }
{
    read_into(payload, small, n as usize)
}

// Reads the length of a cell and its value into an empty area.
fn gather_counted<R: Read>(
    payload: &mut Payload<R>,
    kind: &Kind,
    column: u16,
    small: &mut Area,
) -> Result<(), Stop>
    requires going { IsGoing payload.old }
    requires small { (small.old.bytes ≡ []) × (18 ≤ small.old.room) }
    requires valid { IsTrue (kinds.is_valid kind.now) }
    requires counted { IsTrue (kinds.is_scalar kind.now) × (kinds.fixed_length kind.now ≡ None) }
    ensures leaves { LeavesGathering payload.old payload.new small.old small.new result }
    ensures cell { CellGathered R.remaining kind.now (ScalarLength kind.now) column
        payload.old payload.new small.new.bytes result }
{
    let place = payload.place();
    read_into(payload, small, 1)?;
    let n = small.bytes()[0];
    if n == 0 {
        return Ok(());
    }
    if !kind.length_allowed(n) {
        return Err(refusal(ValueFault::Length, kind, column, place));
    }
    read_into(payload, small, n as usize)
}

/// Reads a cell of a scalar kind into the small area, which is emptied first.
pub(crate) fn gather_scalar<R: Read>(
    payload: &mut Payload<R>,
    kind: &Kind,
    column: u16,
    small: &mut Area,
) -> Result<(), Stop>
    requires going { IsGoing payload.old }
    requires valid { IsTrue (kinds.is_valid kind.now) }
    requires scalar { IsTrue (kinds.is_scalar kind.now) }
    requires room { 18 ≤ small.old.room }
    ensures leaves { LeavesGathering payload.old payload.new small.old small.new result }
    ensures cell { (charset : sets.Charset) →
        CellGathered R.remaining kind.now (cell_start kind.now (shape charset kind.now)) column
        payload.old payload.new small.new.bytes result }
{
    small.clear();
    match kind.fixed_length() {
        Some(n) => gather_fixed(payload, kind, n, column, small),
        None => gather_counted(payload, kind, column, small),
    }
}
