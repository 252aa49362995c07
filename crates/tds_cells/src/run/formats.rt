// A run over cells by their formats, whose columns follow one another in a row.
ghost use Rattle.std.specs.Prelude.{◌≡◌, ◌==◌, ◌&&◌, ◌<◌, ◌≤◌, ◌+◌, ◌-◌, ◌*◌, drop, get_or, length, take, true, IfNone, IfSome, MatchOption};
ghost use Rattle.tds_values.specs.declared.charset.Charset.{Charset};
ghost use Rattle.tds_cells.specs.FormatRuns.{AreNumbers, FirstLeft, NumbersWithin, RefusesRow, RunsFormats, WritesFields};
ghost use Rattle.tds_cells.specs.FormatRuns.{run_since};
ghost use Rattle.tds_cells.specs.CellTexts.{IsScalarLeft};
ghost use Rattle.tds_cells.specs.Formats.{Each};
ghost use Rattle.tds_cells.specs.Layouts.{IsLaidOut};
ghost use Rattle.tds_cells.specs.declared.layout.CellFormat.{CellFormat};
ghost use Rattle.tds_cells.specs.Runs.{AloneWritten};

use crate::layout::CellFormat;
use crate::whole::{
    CELL_ROOM, INT4_CELL, LOOKAHEAD, NUMBER_FIELD, NUMBER_ROOM, VALUE_ROOM, write_cell,
    write_far_cell, write_int4_cell,
};
use tds_text::{COMMA, write_comma, write_line_end};
use tds_values::{Charset, Span};

/// How many cells a run wrote, how many bytes they have, and how many their text has.
#[derive(Clone, Copy)]
pub(crate) struct FormatsRun {
    pub(crate) cells: usize,
    pub(crate) used: usize,
    pub(crate) made: usize,
}

// Whether `cells` of `count` columns end the row. `ends` says that the last of them is the row's last.
#[inline(always)]
fn is_last(ends: bool, cells: usize, count: usize) -> bool
    ensures { result ≡ (ends && (cells == count)) }
{
    ends && cells == count
}

// Writes the fields of the next cells, each after a comma unless it is the row's first, and a comma after the last
// of them.
#[inline(always)]
fn write_fields(
    formats: &[CellFormat],
    charset: Charset,
    column: u16,
    bytes: &[u8],
    to: &mut [u8],
) -> FormatsRun
    requires laid { Each (λ f. IsLaidOut charset f.kind f.layout) formats.now }
    requires room { CELL_ROOM ≤ length to.old }
    ensures ends { result.cells ≡ 0 → FirstLeft charset formats.now bytes.now (length to.old) }
    ensures left { FirstLeft charset (drop result.cells formats.now) (drop result.used bytes.now)
        (length to.old - result.made + 1) }
    ensures fields { WritesFields charset formats.now column bytes.now to.new result }
{
    let mut cells = 0;
    let mut rest = bytes;
    let mut made = write_comma(column, to);
    let most = to.len() - VALUE_ROOM;
    while cells < formats.len() && made <= most {
        let format = &formats[cells];
        let Ok(written) = write_cell::<false>(format, charset, rest, &mut to[made..]) else {
            break;
        };
        cells += 1;
        rest = &rest[written.used..];
        made += written.made;
        to[made] = COMMA;
        made += 1;
    }
    FormatsRun {
        cells,
        used: bytes.len() - rest.len(),
        made,
    }
}

/// Where a row of these formats, whose values are whole numbers of four bytes, begins at the latest if there are to be
/// bytes and room for any cells, and a byte after them. `None` if there aren't at the front.
#[inline(always)]
pub(crate) fn latest_row(formats: &[CellFormat], bytes: &[u8], to: &[u8]) -> Option<Span>
    requires { length formats.now ≤ 65535 }
    ensures { MatchOption result (NumbersWithin (length formats.now) (length bytes.now) (length to.now) → ⊥)
        (λ latest. (latest.used + 5 * length formats.now + 1 ≡ length bytes.now)
        × (latest.made + 12 * length formats.now + 26 ≡ length to.now)) }
{
    let (size, room) = (
        INT4_CELL * formats.len(),
        NUMBER_FIELD * formats.len() + NUMBER_ROOM,
    );
    if size >= bytes.len() || room >= to.len() {
        return None;
    }
    Some(Span {
        used: bytes.len() - 1 - size,
        made: to.len() - 1 - room,
    })
}

// Writes the fields of a row's first cells as `write_fields` does, whose values are whole numbers of four bytes, and which
// need no look at the ends of bytes and room. The first of them begins where `from` says, as does its text; the result says
// where the run ended. `COUNTED` says that all come after their lengths.
#[inline(always)]
fn write_numbers<const COUNTED: bool>(
    formats: &[CellFormat],
    from: Span,
    bytes: &[u8],
    to: &mut [u8],
) -> FormatsRun
    requires numbers { AreNumbers COUNTED formats.now (length bytes.now - from.used) (length to.old - from.made) }
    ensures kept { take from.made to.new ≡ take from.made to.old }
    ensures begun { (from.used ≤ result.used) × (from.made ≤ result.made) }
    ensures ends { result.cells < length formats.now → (format : CellFormat) →
        IsScalarLeft (get_or formats.now result.cells format).kind
        (drop (result.used - from.used) (drop from.used bytes.now)) }
    ensures left { result.used < length bytes.now }
    ensures fields { (charset : Charset) →
        WritesFields charset formats.now 0 (drop from.used bytes.now) (drop from.made to.new) (run_since from result) }
{
    let mut cells = 0;
    let mut used = from.used;
    let mut made = from.made;
    while cells < formats.len() {
        let format = &formats[cells];
        let Some(written) = write_int4_cell::<COUNTED>(format, &bytes[used..], &mut to[made..])
        else {
            break;
        };
        cells += 1;
        used += written.used;
        made += written.made;
        to[made] = COMMA;
        made += 1;
    }
    FormatsRun { cells, used, made }
}

/// Writes the text in its line of the cell that begins at `from`, of the column after `column` others, into the room from `at`
/// on, far from the ends of both. `None` as for `write_far_cell`.
#[inline(always)]
pub(crate) fn write_far_alone(
    format: &CellFormat,
    charset: Charset,
    column: u16,
    last: bool,
    bytes: &[u8],
    from: usize,
    to: &mut [u8],
    at: usize,
) -> Option<Span>
    requires laid { IsLaidOut charset format.now.kind format.now.layout }
    requires far { from + LOOKAHEAD ≤ length bytes.now }
    requires room { at + CELL_ROOM ≤ length to.old }
    ensures kept { take at to.new ≡ take at to.old }
    ensures cell { AloneWritten charset format.now.kind column last (drop from bytes.now)
        (length to.old - at) (drop at to.new) result }
{
    let start = at + write_comma(column, &mut to[at..]);
    let written = write_far_cell::<true>(format, charset, bytes, from, to, start)?;
    let end = write_line_end(last, start + written.made, to);
    Some(Span {
        used: written.used,
        made: end - at,
    })
}

/// Writes the cells of the next columns of a row, after its first `column` ones, one after another, as far as they are whole in
/// these bytes and have room. `ends` says that the last of these columns is the row's last.
#[inline(never)]
pub(crate) fn run_formats(
    formats: &[CellFormat],
    charset: Charset,
    column: u16,
    ends: bool,
    bytes: &[u8],
    to: &mut [u8],
) -> FormatsRun
    requires { Each (λ f. IsLaidOut charset f.kind f.layout) formats.now }
    ensures left { FirstLeft charset (drop result.cells formats.now) (drop result.used bytes.now)
        (length to.old - result.made) }
    ensures run { RunsFormats charset formats.now column ends bytes.now (length to.old) to.new result }
{
    let none = FormatsRun {
        cells: 0,
        used: 0,
        made: 0,
    };
    if to.len() < CELL_ROOM {
        return none;
    }
    let run = write_fields(formats, charset, column, bytes, to);
    if run.cells == 0 {
        return none;
    }
    let last = is_last(ends, run.cells, formats.len());
    let made = write_line_end(last, run.made - 1, to);
    FormatsRun { made, ..run }
}

/// Writes the cells of a whole row as [`run_formats`] does, whose values are whole numbers of four bytes, and for which
/// there are bytes and room. The row begins where `from` says, as does its text; the result says where it ended. `COUNTED` says
/// that all numbers come after their lengths. `None` if one of them is refused.
#[inline(always)]
pub(crate) fn run_row<const COUNTED: bool>(
    formats: &[CellFormat],
    from: Span,
    bytes: &[u8],
    to: &mut [u8],
) -> Option<FormatsRun>
    requires some { 0 < length formats.now }
    requires numbers { AreNumbers COUNTED formats.now (length bytes.now - from.used) (length to.old - from.made) }
    ensures kept { take from.made to.new ≡ take from.made to.old }
    ensures refused { IfNone result (RefusesRow formats.now (drop from.used bytes.now)) }
    ensures within { IfSome result (λ run. (from.used ≤ run.used) × (run.used < length bytes.now)
        × (from.made ≤ run.made) × (run.made ≤ length to.old)) }
    ensures row { IfSome result (λ run. (run.cells ≡ length formats.now) × ((charset : Charset) →
        RunsFormats charset formats.now 0 true (drop from.used bytes.now) (length to.old - from.made)
        (drop from.made to.new) (run_since from run))) }
{
    let run = write_numbers::<COUNTED>(formats, from, bytes, to);
    if run.cells < formats.len() {
        return None;
    }
    let made = write_line_end(true, run.made - 1, to);
    Some(FormatsRun { made, ..run })
}
