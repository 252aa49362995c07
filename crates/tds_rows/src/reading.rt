// The calls that read rows, one or several after one another (MS-TDS, ROW and NBCROW).
ghost use Rattle.std.specs.Prelude.{◌≡◌, ◌⊎◌, ◌≤◌, ◌++◌, ℕ, List, length, None, Some, false, true, IfOk, MatchOption};
ghost use Rattle.tds_columns.specs.View.{columns_of};
ghost use Rattle.tds_csv.specs.Sinks.{held, stop_of};
ghost use Rattle.tds_cells.specs.Cells.{Cell};
ghost use Rattle.tds_rows.specs.RowReading.{AwaitsRows, EndsRows, HadStopped, IsReadyForRow, LeavesBitmap, LeavesLent};
ghost use Rattle.tds_rows.specs.RowSteps.{RowPut, RowsRead, StopsAgain};
ghost use Rattle.tds_cells.specs.Rows.{NbcRow, PlainRow, SpellsRow, row_start};
ghost use Rattle.tds_cells.specs.RowFormats.{Learns};
ghost use Rattle.tds_cells.specs.Rows.{BeginNoRow};
ghost use Rattle.tds_rows.specs.Successes.{SpellsRows, SucceedsOn};

use crate::nbc::{Marks, NoBitmap};
use crate::rows::Rows;
use std::io::{Read, Write};
use tds_cells::{CellFormat, FEW_COLUMNS, Learnt, MANY_COLUMNS, RowFormat, SOME_COLUMNS, blank};
use tds_columns::Columns;
use tds_csv::Sink;
use tds_meter::Area;
use tds_packet::{Payload, Stop};
use tds_values::Charset;

/// The stop of a payload or a sink that had stopped, the payload's first.
pub(crate) fn earlier_stop<R: Read, W: Write>(payload: &Payload<R>, sink: &Sink<W>) -> Option<Stop>
    ensures { MatchOption result ((payload.now.stopped ≡ None) × (sink.now.failed ≡ false))
        (λ stop. (payload.now.stopped ≡ Some stop)
        ⊎ ((payload.now.stopped ≡ None) × (sink.now.failed ≡ true) × (stop ≡ stop_of (held W.contents sink.now)))) }
{
    if let Some(stop) = payload.stopped() {
        return Some(stop);
    }
    sink.failure()
}

/// Reads a ROW after its token byte, and puts its line (MS-TDS, ROW). The cells before a stop count,
/// with their text, and so does the text so far of a long value. [`Fault::BadValueLength`] is at the
/// length byte that isn't allowed, and [`Fault::BadValue`] at the first byte of the value out of range. The
/// faults of long values and their places are as in [`stream_value`](crate::stream_value). Columns are
/// numbered from 0, and single-byte text is read in this set. Any other stop is the payload's or the sink's
/// own. After a stop of the payload or the sink the same stop is returned, and nothing changes.
///
/// A scalar cell that goes on in the next packet is gathered in the small area, which is emptied first and has
/// room for 18 bytes at least.
pub fn row<R: Read, W: Write>(
    payload: &mut Payload<R>,
    columns: Columns<'_>,
    charset: Charset,
    small: &mut Area,
    sink: &mut Sink<W>,
) -> Result<(), Stop>
    requires { IsReadyForRow payload.old sink.old small.old }
    ensures leaves { LeavesLent payload.old payload.new sink.old sink.new small.old small.new result }
    ensures row { payload.old.stopped ≡ None → sink.old.failed ≡ false →
        RowPut R.remaining W.contents charset (row_start PlainRow charset (columns_of columns.entry.bytes.now))
        payload.old payload.new sink.old sink.new result }
    ensures succeeds { payload.old.stopped ≡ None → sink.old.failed ≡ false →
        (cells : List Cell) (bytes more : List ℕ) →
        SpellsRow PlainRow charset (columns_of columns.entry.bytes.now) cells bytes →
        SucceedsOn R.remaining payload.old payload.new sink.old sink.new result (bytes ++ more) }
    ensures again { StopsAgain W.contents payload.old payload.new sink.old sink.new result }
    ensures spared { HadStopped payload.old sink.old → small.new ≡ small.old }
{
    if let Some(stop) = earlier_stop(payload, sink) {
        return Err(stop);
    }
    let row_format = RowFormat::walked(columns, charset);
    let mut rows = Rows {
        payload,
        sink,
        small,
        row_format: &row_format,
    };
    rows.row()
}

// Reads rows as `read_rows` and `read_nbc_rows` do, by a row format of these formats.
#[inline(always)]
fn rows_in<'a, M: Marks, R: Read, W: Write>(
    payload: &mut Payload<R>,
    columns: Columns<'a>,
    charset: Charset,
    formats: &'a [CellFormat],
    learnt: Learnt<'a>,
    marks: &mut M,
    small: &mut Area,
    sink: &mut Sink<W>,
) -> Result<u64, Stop>
    requires learnt { Learns (columns_of columns.bytes.now) charset formats.now learnt }
    requires rows { AwaitsRows payload.old sink.old small.old × (8192 ≤ (M.space marks.old).room) }
    ensures leaves { LeavesLent payload.old payload.new sink.old sink.new small.old small.new result }
    ensures room { LeavesBitmap (M.space marks.old) (M.space marks.new)
        (length (columns_of columns.entry.bytes.now)) }
    ensures ends { IfOk result (λ count. EndsRows M.token payload.old payload.new count) }
    ensures rows { RowsRead R.remaining W.contents M.token charset (columns_of columns.entry.bytes.now)
        payload.old payload.new sink.old sink.new result }
{
    let row_format = RowFormat::of(columns, charset, formats, learnt);
    let mut rows = Rows {
        payload,
        sink,
        small,
        row_format: &row_format,
    };
    rows.rows(marks)
}

// Reads rows so, by a row format that knows the first `N` columns at most. Its room is a local variable, and a call takes time for
// each byte of that, so each room has a function of its own.
#[inline(never)]
#[tactic(auto, using(crate::proofs::RowSteps::each_all))]
fn rows_by<const N: usize, M: Marks, R: Read, W: Write>(
    payload: &mut Payload<R>,
    columns: Columns<'_>,
    charset: Charset,
    marks: &mut M,
    small: &mut Area,
    sink: &mut Sink<W>,
) -> Result<u64, Stop>
    requires few { N ≤ 1024 }
    requires rows { AwaitsRows payload.old sink.old small.old × (8192 ≤ (M.space marks.old).room) }
    ensures leaves { LeavesLent payload.old payload.new sink.old sink.new small.old small.new result }
    ensures room { LeavesBitmap (M.space marks.old) (M.space marks.new)
        (length (columns_of columns.entry.bytes.now)) }
    ensures ends { IfOk result (λ count. EndsRows M.token payload.old payload.new count) }
    ensures rows { RowsRead R.remaining W.contents M.token charset (columns_of columns.entry.bytes.now)
        payload.old payload.new sink.old sink.new result }
{
    let mut formats = [blank(); N];
    let learnt = RowFormat::learn(columns, charset, &mut formats);
    rows_in(
        payload, columns, charset, &formats, learnt, marks, small, sink,
    )
}

// Reads rows so, by a row format with as much room as these columns need.
#[inline(always)]
fn read_marked<M: Marks, R: Read, W: Write>(
    payload: &mut Payload<R>,
    columns: Columns<'_>,
    charset: Charset,
    marks: &mut M,
    small: &mut Area,
    sink: &mut Sink<W>,
) -> Result<u64, Stop>
    requires rows { AwaitsRows payload.old sink.old small.old × (8192 ≤ (M.space marks.old).room) }
    ensures leaves { LeavesLent payload.old payload.new sink.old sink.new small.old small.new result }
    ensures room { LeavesBitmap (M.space marks.old) (M.space marks.new)
        (length (columns_of columns.entry.bytes.now)) }
    ensures ends { IfOk result (λ count. EndsRows M.token payload.old payload.new count) }
    ensures rows { RowsRead R.remaining W.contents M.token charset (columns_of columns.entry.bytes.now)
        payload.old payload.new sink.old sink.new result }
{
    let count = columns.count() as usize;
    if count <= FEW_COLUMNS {
        return rows_by::<FEW_COLUMNS, M, R, W>(payload, columns, charset, marks, small, sink);
    }
    if count <= SOME_COLUMNS {
        return rows_by::<SOME_COLUMNS, M, R, W>(payload, columns, charset, marks, small, sink);
    }
    rows_by::<MANY_COLUMNS, M, R, W>(payload, columns, charset, marks, small, sink)
}

/// Reads a ROW after its token byte, and the ROWs after it as long as the next token byte is in the packet
/// that the row before it ends in. Puts their lines, and returns how many they are. The lines of the whole
/// rows count at a stop, and so does the text so far of the row that it stops in. Faults, places and the use
/// of the small area are as in [`row`] (MS-TDS, ROW).
#[tactic(auto, using(crate::proofs::Successes::rows_succeed))]
pub fn read_rows<R: Read, W: Write>(
    payload: &mut Payload<R>,
    columns: Columns<'_>,
    charset: Charset,
    small: &mut Area,
    sink: &mut Sink<W>,
) -> Result<u64, Stop>
    requires { AwaitsRows payload.old sink.old small.old }
    ensures leaves { LeavesLent payload.old payload.new sink.old sink.new small.old small.new result }
    ensures ends { IfOk result (λ count. EndsRows PlainRow payload.old payload.new count) }
    ensures rows { RowsRead R.remaining W.contents PlainRow charset (columns_of columns.entry.bytes.now)
        payload.old payload.new sink.old sink.new result }
    ensures succeeds { (first : List Cell) (later : List (List Cell)) (bytes more : List ℕ) →
        SpellsRows PlainRow charset (columns_of columns.entry.bytes.now) first later bytes → BeginNoRow PlainRow more →
        SucceedsOn R.remaining payload.old payload.new sink.old sink.new result (bytes ++ more) }
{
    read_marked(payload, columns, charset, &mut NoBitmap, small, sink)
}

/// Reads an NBCROW after its token byte, and puts its line (MS-TDS, NBCROW). The bitmap is read into
/// the area, which is emptied first and has room for at least 8,192 bytes. A column whose bit is set
/// is NULL and has no data, and the bits after the last column's say nothing. The NULLs
/// before the next cell with data, or at the row's end, count with what is read before them: the
/// cell, or the bitmap. Faults and places are as in [`row`](crate::row), and `MessageEnded` is
/// at the bitmap's first byte if the message ends in it. After a stop of the payload or the sink
/// the same stop is returned, and neither changes.
///
/// Cells are taken in runs, as many as are NULL or whole in the packet and have room in the block. The
/// small area is used as in [`row`](crate::row).
pub fn nbc_row<R: Read, W: Write>(
    payload: &mut Payload<R>,
    columns: Columns<'_>,
    charset: Charset,
    bitmap: &mut Area,
    small: &mut Area,
    sink: &mut Sink<W>,
) -> Result<(), Stop>
    requires ready { IsReadyForRow payload.old sink.old small.old }
    requires fits { 8192 ≤ bitmap.old.room }
    ensures leaves { LeavesLent payload.old payload.new sink.old sink.new small.old small.new result }
    ensures bitmap { LeavesBitmap bitmap.old bitmap.new (length (columns_of columns.entry.bytes.now)) }
    ensures row { payload.old.stopped ≡ None → sink.old.failed ≡ false →
        RowPut R.remaining W.contents charset (row_start NbcRow charset (columns_of columns.entry.bytes.now))
        payload.old payload.new sink.old sink.new result }
    ensures succeeds { payload.old.stopped ≡ None → sink.old.failed ≡ false →
        (cells : List Cell) (bytes more : List ℕ) →
        SpellsRow NbcRow charset (columns_of columns.entry.bytes.now) cells bytes →
        SucceedsOn R.remaining payload.old payload.new sink.old sink.new result (bytes ++ more) }
    ensures again { StopsAgain W.contents payload.old payload.new sink.old sink.new result }
    ensures spared { HadStopped payload.old sink.old → small.new ≡ small.old }
{
    bitmap.clear();
    if let Some(stop) = earlier_stop(payload, sink) {
        return Err(stop);
    }
    let row_format = RowFormat::walked(columns, charset);
    let mut rows = Rows {
        payload,
        sink,
        small,
        row_format: &row_format,
    };
    rows.row_by(bitmap)?;
    Ok(())
}

/// Reads an NBCROW after its token byte, and the NBCROWs after it as long as the next token byte is in the
/// packet that the row before it ends in. Puts their lines, and returns how many they are. The lines of the
/// whole rows count at a stop, and so does the text so far of the row that it stops in. A row's bitmap is read
/// into the area, which is emptied before it, unless the row is put whole, away from the ends of packet and
/// block. Faults, places and the areas' rooms are as in [`nbc_row`] (MS-TDS, NBCROW).
#[tactic(auto, using(crate::proofs::Successes::rows_succeed))]
pub fn read_nbc_rows<R: Read, W: Write>(
    payload: &mut Payload<R>,
    columns: Columns<'_>,
    charset: Charset,
    bitmap: &mut Area,
    small: &mut Area,
    sink: &mut Sink<W>,
) -> Result<u64, Stop>
    requires rows { AwaitsRows payload.old sink.old small.old × (8192 ≤ bitmap.old.room) }
    ensures leaves { LeavesLent payload.old payload.new sink.old sink.new small.old small.new result }
    ensures bitmap { LeavesBitmap bitmap.old bitmap.new (length (columns_of columns.entry.bytes.now)) }
    ensures ends { IfOk result (λ count. EndsRows NbcRow payload.old payload.new count) }
    ensures rows { RowsRead R.remaining W.contents NbcRow charset (columns_of columns.entry.bytes.now)
        payload.old payload.new sink.old sink.new result }
    ensures succeeds { (first : List Cell) (later : List (List Cell)) (bytes more : List ℕ) →
        SpellsRows NbcRow charset (columns_of columns.entry.bytes.now) first later bytes → BeginNoRow NbcRow more →
        SucceedsOn R.remaining payload.old payload.new sink.old sink.new result (bytes ++ more) }
{
    read_marked(payload, columns, charset, bitmap, small, sink)
}
