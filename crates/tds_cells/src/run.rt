// A run of cells: as many as are whole in the packet and have room, over the ends of rows.
ghost use Rattle.std.specs.Prelude.{false, true, ◌≡◌, ◌==◌, ◌+◌, ◌-◌, ◌<◌, ◌≤◌, [], drop, length, min, take, IfErr};
ghost use Rattle.std.specs.Result.{result_ok};
ghost use Rattle.tds_cells.specs.CellTexts.{IsLeftFor};
ghost use Rattle.tds_cells.specs.declared.whole.TheConstants.{CELL_ROOM};
ghost use Rattle.tds_cells.specs.FormatRuns.{NumbersEnd};
ghost use Rattle.tds_cells.specs.Layouts.{IsLaidOut};
ghost use Rattle.tds_cells.specs.declared.nulls.Nulls.TheVariants.{Unmarked};
ghost use Rattle.tds_cells.specs.Runs.{AloneWritten, EndsShort, KnownRan, LeavesNext, Ran, StaysWithin, TellsLeft};
ghost use Rattle.tds_cells.specs.MarkedRuns.{CellsWritten, EndsLeft, nulls_of};
ghost use Rattle.tds_cells.specs.RowFormats.{AreAtCursor, BeginsRow, place};
ghost use Rattle.tds_columns.specs.declared.walk.Walk.{Walk};
ghost use Rattle.tds_text.specs.Quoting.{after_comma};

use crate::layout::CellFormat;
use crate::row_format::{Cursor, ROW, RowFormat};
use crate::run::formats::{latest_row, run_formats, run_row};
use crate::whole::{CELL_ROOM, LOOKAHEAD, Left, VALUE_ROOM, write_cell, write_far_cell};
use tds_text::{COMMA, write_comma, write_line_end};
use tds_values::Span;

pub(crate) mod formats;

/// How many bytes a run over rows used, how many it made, and how many rows it began.
#[derive(Clone, Copy)]
pub struct RowsSpan {
    pub used: usize,
    pub made: usize,
    pub rows: usize,
}

impl RowsSpan {
    /// That of a run that took nothing.
    pub(crate) fn none() -> RowsSpan
        ensures { result ≡ record { used = 0; made = 0; rows = 0 } }
    {
        RowsSpan {
            used: 0,
            made: 0,
            rows: 0,
        }
    }

    /// That of a run within a row.
    #[inline(always)]
    pub(crate) fn in_row(span: Span) -> RowsSpan
        ensures { result ≡ record { used = span.used; made = span.made; rows = 0 } }
    {
        RowsSpan {
            used: span.used,
            made: span.made,
            rows: 0,
        }
    }
}

/// What a run over rows did all of whose columns the row format knows: how many bytes it used, how many it made, how many rows it
/// began, and before which column it ended.
#[derive(Clone, Copy)]
pub(crate) struct KnownRun {
    used: usize,
    made: usize,
    rows: usize,
    column: u16,
}

impl KnownRun {
    // A run that took nothing.
    fn none(column: u16) -> KnownRun
        ensures { result ≡ record { used = 0; made = 0; rows = 0; column = column } }
    {
        KnownRun {
            used: 0,
            made: 0,
            rows: 0,
            column,
        }
    }

    // A run that ended before a column.
    #[inline(always)]
    fn ended(used: usize, made: usize, rows: usize, column: usize) -> KnownRun
        requires { column ≤ 65535 }
        ensures { result ≡ record { used = used; made = made; rows = rows; column = column } }
    {
        KnownRun {
            used,
            made,
            rows,
            column: column as u16,
        }
    }
}

/// A run as far as bytes and room go on far enough for any scalar, and whether it ended before a cell that is left.
#[derive(Clone, Copy)]
struct FarRun {
    run: KnownRun,
    left: bool,
}

// How many bytes the comma before the field of a column has.
#[inline(always)]
fn comma_size(column: usize) -> usize
    ensures { result ≡ length (after_comma column []) }
{
    usize::from(column > 0)
}

// That of a run within a row that took nothing.
fn no_span() -> Span
    ensures { result ≡ record { used = 0; made = 0 } }
{
    Span { used: 0, made: 0 }
}

// Whether these bytes begin with the token byte of a ROW.
#[inline(always)]
fn begins_row(bytes: &[u8]) -> bool
    requires some { 0 < length bytes.now }
    ensures begins { result ≡ true → BeginsRow bytes.now }
    ensures other { result ≡ false → BeginsRow bytes.now → ⊥ }
{
    bytes[0] == ROW
}

// Whether the token byte of another ROW comes next.
#[inline(always)]
fn row_follows(rest: &[u8]) -> bool
    ensures begins { result ≡ true → BeginsRow rest.now }
    ensures other { result ≡ false → BeginsRow rest.now → ⊥ }
{
    !rest.is_empty() && begins_row(rest)
}

impl<'a> RowFormat<'a> {
    // Writes cell after cell of a row by the formats of the next ones, as far as they are whole in these bytes and have room, and
    // steps over them.
    #[inline(always)]
    fn run_along(
        &self,
        at: &mut Cursor<'a>,
        end: u16,
        formats: &[CellFormat],
        bytes: &[u8],
        to: &mut [u8],
    ) -> Span
        requires within { end ≤ self.now.count }
        requires ahead { AreAtCursor self.now at.old end formats.now }
        ensures within { StaysWithin at.old at.new end (length bytes.now) (length to.old) result }
        ensures ends { result.used ≡ 0 → EndsLeft self.now (nulls_of Unmarked) at.old bytes.now (length to.old) }
        ensures left { LeavesNext self.now at.old at.new (at.old.column + length formats.now)
            (drop result.used bytes.now) (length to.old - result.made) }
        ensures cells { CellsWritten self.now (nulls_of Unmarked) at.old at.new
            (take result.used bytes.now) (take result.made to.new) }
    {
        let ends = self.ends_after(*at, formats);
        let run = run_formats(formats, self.charset, at.column, ends, bytes, to);
        self.step(at, run.cells);
        Span {
            used: run.used,
            made: run.made,
        }
    }

    // Writes the next cell of a row, which the row format doesn't know, if it is whole in these bytes and has room.
    #[inline(never)]
    fn run_unknown(&self, at: &mut Cursor<'a>, end: u16, bytes: &[u8], to: &mut [u8]) -> Span
        requires within { end ≤ self.now.count }
        requires some { at.old.column < end }
        ensures within { StaysWithin at.old at.new end (length bytes.now) (length to.old) result }
        ensures ends { result.used ≡ 0 → EndsLeft self.now (nulls_of Unmarked) at.old bytes.now (length to.old) }
        ensures cells { CellsWritten self.now (nulls_of Unmarked) at.old at.new
            (take result.used bytes.now) (take result.made to.new) }
    {
        let Some(format) = self.format(*at) else {
            return no_span();
        };
        let one = [format];
        self.run_along(at, end, &one, bytes, to)
    }

    /// Writes cell after cell of a row, as far as they are whole in these bytes and have room, up to the column at which it ends,
    /// and steps over them. `KNOWN` says that the row format knows all columns.
    #[inline(always)]
    pub(crate) fn run_cells<const KNOWN: bool>(
        &self,
        at: &mut Cursor<'a>,
        end: u16,
        bytes: &[u8],
        to: &mut [u8],
    ) -> Span
        requires known { KNOWN ≡ true → self.now.known ≡ self.now.count }
        requires within { end ≤ self.now.count }
        ensures within { StaysWithin at.old at.new end (length bytes.now) (length to.old) result }
        ensures ends { result.used ≡ 0 → at.old.column < end →
            EndsLeft self.now (nulls_of Unmarked) at.old bytes.now (length to.old) }
        ensures left { LeavesNext self.now at.old at.new (min self.now.known end)
            (drop result.used bytes.now) (length to.old - result.made) }
        ensures cells { CellsWritten self.now (nulls_of Unmarked) at.old at.new
            (take result.used bytes.now) (take result.made to.new) }
    {
        if let Some(formats) = (&*self).formats(*at, end) {
            return self.run_along(at, end, formats, bytes, to);
        }
        if KNOWN || at.column >= end {
            return no_span();
        }
        self.run_unknown(at, end, bytes, to)
    }

    /// Writes only the next cell, which is of this format, or says why it is left.
    #[inline(never)]
    pub fn write_one(
        &self,
        at: Cursor<'a>,
        format: &CellFormat,
        bytes: &[u8],
        to: &mut [u8],
    ) -> Result<Span, Left>
        requires within { at.column < self.now.count }
        requires laid { IsLaidOut self.now.charset format.now.kind format.now.layout }
        requires room { CELL_ROOM ≤ length to.old }
        ensures cell { AloneWritten self.now.charset format.now.kind at.entry.column
            (at.entry.column + 1 == self.now.count) bytes.now (length to.old) to.new (result_ok result) }
        ensures left { IfErr result (λ left. IsLeftFor self.now.charset format.now.kind bytes.now left) }
    {
        let start = write_comma(at.column, to);
        let written = write_cell::<true>(format, self.charset, bytes, &mut to[start..])?;
        let made = write_line_end(self.is_last(at), start + written.made, to);
        Ok(Span {
            used: written.used,
            made,
        })
    }

    // Writes whole rows of whole numbers of four bytes, as long as there are bytes and room for any row and none is refused. Ends
    // after the first that no ROW follows. `COUNTED` says that all come after their lengths.
    #[inline(never)]
    fn run_numbers<const COUNTED: bool>(&self, bytes: &[u8], to: &mut [u8]) -> KnownRun
        requires all { self.now.known ≡ self.now.count }
        requires some { 0 < self.now.count }
        requires numbers { self.now.only_numbers ≡ true }
        requires counted { COUNTED ≡ true → self.now.only_counted ≡ true }
        ensures ends { let row = take self.now.known self.now.formats.now in
            NumbersEnd row result.column (drop result.used bytes.now) (length to.old - result.made) }
        ensures rows { KnownRan self.now 0 bytes.now to.new result }
    {
        let row = (&*self).row();
        let Some(latest) = latest_row(row, bytes, to) else {
            return KnownRun::none(0);
        };
        let mut used = 0;
        let mut made = 0;
        let mut rows = 0;
        while used <= latest.used && made <= latest.made {
            let Some(run) = run_row::<COUNTED>(row, Span { used, made }, bytes, to) else {
                break;
            };
            if !begins_row(&bytes[run.used..]) {
                return KnownRun::ended(run.used, run.made, rows, row.len());
            }
            used = run.used + 1;
            made = run.made;
            rows += 1;
        }
        KnownRun {
            used,
            made,
            rows,
            column: 0,
        }
    }

    // Writes cell after cell of rows whose columns the row format all knows, as `run_known` does, as long as bytes and room go on
    // far enough for any scalar. After a cell that isn't a row's last comes the comma of the next one.
    #[inline(always)]
    fn run_unchecked(&self, column: u16, bytes: &[u8], to: &mut [u8]) -> FarRun
        requires all { self.now.known ≡ self.now.count }
        requires some { 0 < self.now.count }
        ensures ends { EndsShort self.now bytes.now (length to.old) result }
        ensures left { TellsLeft self.now bytes.now (length to.old) result }
        ensures rows { KnownRan self.now column bytes.now to.new result.run }
    {
        let (formats, charset) = ((&*self).row(), self.charset);
        let mut cells = column as usize;
        if cells >= formats.len() || bytes.len() < LOOKAHEAD || to.len() < CELL_ROOM {
            let run = KnownRun::none(column);
            return FarRun { run, left: false };
        }
        let most = to.len() - VALUE_ROOM;
        let mut rest = bytes;
        let mut made = write_comma(column, to);
        let mut rows = 0;
        while rest.len() >= LOOKAHEAD && made <= most {
            let format = &formats[cells];
            let Some(written) = write_far_cell::<false>(format, charset, rest, 0, to, made) else {
                let used = bytes.len() - rest.len();
                let run = KnownRun::ended(used, made - comma_size(cells), rows, cells);
                return FarRun { run, left: true };
            };
            cells += 1;
            rest = &rest[written.used..];
            made += written.made;
            to[made] = COMMA;
            made += 1;
            if cells < formats.len() {
                continue;
            }
            made = write_line_end(true, made - 1, to);
            if !row_follows(rest) {
                let used = bytes.len() - rest.len();
                let run = KnownRun::ended(used, made, rows, cells);
                return FarRun { run, left: false };
            }
            cells = 0;
            rest = &rest[1..];
            rows += 1;
        }
        let used = bytes.len() - rest.len();
        let run = KnownRun::ended(used, made - comma_size(cells), rows, cells);
        FarRun { run, left: false }
    }

    // Writes rows in the way that asks least of each cell: as `run_numbers` does before a row, if `INT4` says that all values
    // are whole numbers of four bytes, and as `run_unchecked` does if not all are.
    #[inline(always)]
    fn run_fast<const INT4: bool>(&self, column: u16, bytes: &[u8], to: &mut [u8]) -> FarRun
        requires all { self.now.known ≡ self.now.count }
        requires some { 0 < self.now.count }
        requires numbers { INT4 ≡ true → self.now.only_numbers ≡ true }
        ensures numbers { INT4 ≡ true → column ≡ 0 → let row = take self.now.known self.now.formats.now in
            NumbersEnd row result.run.column (drop result.run.used bytes.now) (length to.old - result.run.made) }
        ensures ends { INT4 ≡ false → EndsShort self.now bytes.now (length to.old) result }
        ensures left { TellsLeft self.now bytes.now (length to.old) result }
        ensures rows { KnownRan self.now column bytes.now to.new result.run }
    {
        if !INT4 {
            return self.run_unchecked(column, bytes, to);
        }
        let run = if column != 0 {
            KnownRun::none(column)
        } else if self.only_counted {
            self.run_numbers::<true>(bytes, to)
        } else {
            self.run_numbers::<false>(bytes, to)
        };
        FarRun { run, left: false }
    }

    // Writes cell after cell of rows whose columns the row format all knows, as far as they are whole in these bytes and have room,
    // over the ends of rows. `NUMBERS` says that all their values are whole numbers of four bytes.
    #[inline(never)]
    fn run_known<const NUMBERS: bool>(&self, from: u16, bytes: &[u8], to: &mut [u8]) -> KnownRun
        requires all { self.now.known ≡ self.now.count }
        requires some { 0 < self.now.count }
        requires numbers { NUMBERS ≡ true → self.now.only_numbers ≡ true }
        ensures ends { (walk : Walk) → EndsLeft self.now (nulls_of Unmarked) (place walk result.column)
            (drop result.used bytes.now) (length to.old - result.made) }
        ensures last { result.column ≡ self.now.count → BeginsRow (drop result.used bytes.now) → ⊥ }
        ensures rows { KnownRan self.now from bytes.now to.new result }
    {
        let mut used = 0;
        let mut made = 0;
        let mut rows = 0;
        let mut column = from;
        loop {
            let fast = self.run_fast::<NUMBERS>(column, &bytes[used..], &mut to[made..]);
            used += fast.run.used;
            made += fast.run.made;
            rows += fast.run.rows;
            column = fast.run.column;
            if fast.left {
                break;
            }
            let Some(formats) = (&*self).rest_of_row(column) else {
                if !row_follows(&bytes[used..]) {
                    break;
                }
                used += 1;
                rows += 1;
                column = 0;
                continue;
            };
            let (rest, room) = (&bytes[used..], &mut to[made..]);
            let run = run_formats(formats, self.charset, column, true, rest, room);
            if run.cells == 0 {
                break;
            }
            used += run.used;
            made += run.made;
            column += run.cells as u16;
        }
        KnownRun {
            used,
            made,
            rows,
            column,
        }
    }

    // Writes rows as `run_rows` does, whose columns the row format doesn't all know.
    #[inline(never)]
    fn run_partly_known(&self, at: &mut Cursor<'a>, bytes: &[u8], to: &mut [u8]) -> RowsSpan
        requires some { 0 < self.now.count }
        ensures ends { EndsLeft self.now (nulls_of Unmarked) at.new
            (drop result.used bytes.now) (length to.old - result.made) }
        ensures last { at.new.column ≡ self.now.count → BeginsRow (drop result.used bytes.now) → ⊥ }
        ensures rows { Ran self.now Unmarked at.old at.new bytes.now to.new result }
    {
        let mut run = RowsSpan::none();
        loop {
            if self.is_end(*at) {
                if !row_follows(&bytes[run.used..]) {
                    break;
                }
                run.used += 1;
                run.rows += 1;
                *at = self.start();
                continue;
            }
            let (rest, room) = (&bytes[run.used..], &mut to[run.made..]);
            let cells = self.run_cells::<false>(at, self.count(), rest, room);
            if cells.used == 0 {
                break;
            }
            run.used += cells.used;
            run.made += cells.made;
        }
        run
    }

    /// Writes cell after cell, as far as they are whole in these bytes and have room, over the ends of rows, and steps over them:
    /// after a whole row it goes on if the byte of the next ROW follows.
    #[inline(always)]
    pub(crate) fn run_rows(&self, at: &mut Cursor<'a>, bytes: &[u8], to: &mut [u8]) -> RowsSpan
        requires some { 0 < self.now.count }
        requires room { CELL_ROOM ≤ length to.old }
        ensures ends { EndsLeft self.now (nulls_of Unmarked) at.new
            (drop result.used bytes.now) (length to.old - result.made) }
        ensures last { at.new.column ≡ self.now.count → BeginsRow (drop result.used bytes.now) → ⊥ }
        ensures rows { Ran self.now Unmarked at.old at.new bytes.now to.new result }
    {
        if !self.knows_all() {
            return self.run_partly_known(at, bytes, to);
        }
        let run = if self.only_numbers {
            self.run_known::<true>(at.column, bytes, to)
        } else {
            self.run_known::<false>(at.column, bytes, to)
        };
        at.column = run.column;
        RowsSpan {
            used: run.used,
            made: run.made,
            rows: run.rows,
        }
    }
}
