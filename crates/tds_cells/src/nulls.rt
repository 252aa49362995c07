// Cells of NBCROWs that are whole in the packet or NULL by their bit (MS-TDS, NBCROW).
ghost use Rattle.std.specs.Prelude.{true, false, List, [], ◌≡◌, ◌+◌, ◌-◌, ◌*◌, ◌<◌, ◌≤◌, drop, length, take};
ghost use Rattle.tds_cells.specs.MarkedRows.{EndsNbcRows, WritesWholeRows};
ghost use Rattle.tds_cells.specs.MarkedRuns.{BitsAre, CellsWritten, Covers, EndsFar, EndsLeft, WritesMarked, nulls_of};
ghost use Rattle.tds_cells.specs.Runs.{Ran};
ghost use Rattle.tds_cells.specs.declared.nulls.Nulls.TheVariants.{Unmarked};
ghost use Rattle.tds_columns.specs.Description.{Column};
ghost use Rattle.tds_values.specs.declared.charset.Charset.{Charset};
ghost use Rattle.tds_cells.specs.Rows.{bit, bitmap_length};
ghost use Rattle.tds_cells.specs.RowFormats.{BeginsRow, Knows};

use crate::row_format::{Cursor, RowFormat};
use crate::run::RowsSpan;
use crate::run::formats::write_far_alone;
use crate::whole::{CELL_ROOM, LOOKAHEAD};
use tds_text::write_null;
use tds_values::Span;

/// The token byte of an NBCROW (MS-TDS, NBCROW).
pub const NBCROW: u8 = 0xD2;

/// How many bytes the bitmap of `columns` columns has.
pub fn bitmap_size(columns: u16) -> usize
    ensures value { result ≡ bitmap_length columns }
    ensures most { result ≤ 8192 }
{
    (columns as usize + 7) / 8
}

// Whether the bit of a column is set. The lowest bit of the first byte is the bit of column 0.
fn is_null(bitmap: &[u8], column: u16) -> bool
    requires { column < 8 * length bitmap.now }
    ensures { result ≡ bit bitmap.now column }
{
    (bitmap[column as usize / 8] >> (column % 8) as u32) & 1 == 1
}

/// Which columns of a row are NULL by a bit: none of a ROW, and of an NBCROW those whose bit is set in its bitmap.
#[derive(Clone, Copy)]
pub enum Nulls<'b> {
    Unmarked,
    Marked(&'b [u8]),
}

impl<'b> Nulls<'b> {
    /// Whether a column is NULL by a bit.
    #[inline(always)]
    pub fn is_null(&self, column: u16) -> bool
        requires { Covers self.now (column + 1) }
        ensures { result ≡ nulls_of self.now column }
    {
        match *self {
            Nulls::Unmarked => false,
            Nulls::Marked(bitmap) => is_null(bitmap, column),
        }
    }
}

// The end of the columns from `from` on whose bits are clear. Those before `known` are known to be clear.
#[inline(always)]
fn clear_end(bitmap: &[u8], from: u16, known: u16, count: u16) -> u16
    requires bitmap { count ≤ 8 * length bitmap.now }
    requires within { from ≤ count }
    requires most { known ≤ count }
    requires clear { BitsAre false (bit bitmap.now) from known }
    ensures within { (from ≤ result) × (result ≤ count) }
    ensures ends { BitsAre false (bit bitmap.now) from result × (result < count → bit bitmap.now result ≡ true) }
{
    let mut at = from.max(known) as usize;
    while at < count as usize {
        let bits = bitmap[at / 8] >> (at % 8) as u32;
        if bits != 0 {
            at += bits.trailing_zeros() as usize;
            return (count as usize).min(at) as u16;
        }
        at = at / 8 * 8 + 8;
    }
    count
}

// NULL in eight columns after one another, each after a comma.
const NULLS: [u8; NULLS_SIZE] = *b",NULL,NULL,NULL,NULL,NULL,NULL,NULL,NULL";

// How many bytes that has.
const NULLS_SIZE: usize = 40;

// How many it has for each column.
const NULL_SIZE: usize = 5;

// How many columns from one on have their bit in the same byte and set, and come before the last one.
#[inline(always)]
fn nulls_ahead(bitmap: &[u8], column: u16, count: u16) -> usize
    requires bitmap { count ≤ 8 * length bitmap.now }
    requires within { column < count }
    ensures few { result ≤ 8 }
    ensures within { column + result < count }
    ensures set { BitsAre true (bit bitmap.now) column (column + result) }
{
    let bits = bitmap[column as usize / 8] as u32 >> (column % 8) as u32;
    let left = (count - 1 - column) as usize;
    left.min(bits.trailing_ones() as usize)
}

// In how many columns NULL may be written at once.
const EIGHT: usize = 8;

// In how many columns NULL was written, and how many bytes that made.
#[derive(Clone, Copy)]
struct WrittenNulls {
    columns: usize,
    made: usize,
}

// Writes NULL in its line, in the next column, which is NULL by its bit, and in those after it that are too by the bits of the
// same byte, in `most` columns at most.
#[inline(always)]
fn write_nulls(bitmap: &[u8], column: u16, count: u16, most: usize, to: &mut [u8]) -> WrittenNulls
    requires bitmap { count ≤ 8 * length bitmap.now }
    requires null { (column < count) × (bit bitmap.now column ≡ true) }
    requires most { 0 < most }
    requires room { CELL_ROOM ≤ length to.old }
    ensures within { (0 < result.columns) × (result.columns ≤ most) × (column + result.columns ≤ count)
        × (result.made ≤ 40) }
    ensures nulls { (charset : Charset) (columns : List Column) → length columns ≡ count →
        WritesMarked charset columns (bit bitmap.now) column result.columns [] (take result.made to.new) }
{
    let columns = nulls_ahead(bitmap, column, count).min(most);
    if columns < 2 || column == 0 {
        let made = write_null(column, column + 1 == count, to);
        return WrittenNulls { columns: 1, made };
    }
    to[..NULLS_SIZE].copy_from_slice(&NULLS);
    WrittenNulls {
        columns,
        made: NULL_SIZE * columns,
    }
}

/// A run over whole NBCROWs: those before the token byte of another, and whether one more is the last, which no other follows.
#[derive(Clone, Copy)]
pub struct WholeRows {
    pub span: RowsSpan,
    pub last: bool,
}

impl<'a> RowFormat<'a> {
    // Writes cell after cell of an NBCROW whose columns the row format all knows, as `run_nbc` does, as long as bytes and room go
    // on far enough for any scalar.
    #[inline(always)]
    fn run_far_marked(
        &self,
        at: &mut Cursor<'a>,
        bitmap: &[u8],
        bytes: &[u8],
        to: &mut [u8],
    ) -> Span
        requires known { self.now.known ≡ self.now.count }
        requires bitmap { self.now.count ≤ 8 * length bitmap.now }
        ensures used { result.used ≤ length bytes.now }
        ensures made { result.made ≤ length to.old }
        ensures ends { EndsFar self.now (bit bitmap.now) at.new (drop result.used bytes.now)
            (length to.old - result.made) }
        ensures cells { CellsWritten self.now (bit bitmap.now) at.old at.new
            (take result.used bytes.now) (take result.made to.new) }
    {
        if bytes.len() < LOOKAHEAD || to.len() < CELL_ROOM {
            return Span { used: 0, made: 0 };
        }
        let latest = bytes.len() - LOOKAHEAD;
        let most = to.len() - CELL_ROOM;
        let mut used = 0;
        let mut made = 0;
        while used <= latest && made <= most {
            let Some(format) = self.known_format(*at) else {
                break;
            };
            let (column, last) = (at.column, self.is_last(*at));
            let mut columns = 1;
            if is_null(bitmap, column) {
                let nulls = write_nulls(bitmap, column, self.count(), EIGHT, &mut to[made..]);
                made += nulls.made;
                columns = nulls.columns;
            } else {
                let charset = self.charset;
                let next = write_far_alone(&format, charset, column, last, bytes, used, to, made);
                let Some(written) = next else {
                    break;
                };
                used += written.used;
                made += written.made;
            }
            self.pass(at, columns);
        }
        Span { used, made }
    }

    /// Writes NBCROW after NBCROW as long as each of their cells is as `run_far_marked` takes it, each with the token byte of the
    /// next, or the last without one.
    #[inline(never)]
    pub fn run_far_rows(&self, bytes: &[u8], to: &mut [u8]) -> WholeRows
        requires known { (self.now.known ≡ self.now.count) × (0 < self.now.count) }
        ensures used { result.span.used ≤ length bytes.now }
        ensures made { result.span.made ≤ length to.old }
        ensures few { result.span.rows ≤ result.span.used }
        ensures ends { EndsNbcRows self.now (bitmap_length self.now.count) result.last
            (drop result.span.used bytes.now) (length to.old - result.span.made) }
        ensures rows { (columns : List Column) → Knows self.now columns →
            WritesWholeRows self.now.charset columns result.span.rows result.last
            (take result.span.used bytes.now) (take result.span.made to.new) }
    {
        let size = bitmap_size(self.count());
        let mut whole = RowsSpan::none();
        loop {
            let rest = &bytes[whole.used..];
            if rest.len() < size {
                break;
            }
            let (bitmap, cells) = (&rest[..size], &rest[size..]);
            let mut at = self.start();
            let run = self.run_far_marked(&mut at, bitmap, cells, &mut to[whole.made..]);
            if !self.is_end(at) {
                break;
            }
            whole.used += size + run.used;
            whole.made += run.made;
            let after = &cells[run.used..];
            if after.is_empty() || after[0] != NBCROW {
                return WholeRows {
                    span: whole,
                    last: true,
                };
            }
            whole.used += 1;
            whole.rows += 1;
        }
        WholeRows {
            span: whole,
            last: false,
        }
    }

    // Writes cell after cell of an NBCROW as `run_nbc` does. `KNOWN` says that the row format knows all columns.
    #[inline(never)]
    fn run_marked<const KNOWN: bool>(
        &self,
        at: &mut Cursor<'a>,
        bitmap: &[u8],
        bytes: &[u8],
        to: &mut [u8],
    ) -> Span
        requires known { KNOWN ≡ true → self.now.known ≡ self.now.count }
        requires bitmap { self.now.count ≤ 8 * length bitmap.now }
        ensures used { result.used ≤ length bytes.now }
        ensures made { result.made ≤ length to.old }
        ensures ends { EndsLeft self.now (bit bitmap.now) at.new (drop result.used bytes.now)
            (length to.old - result.made) }
        ensures cells { CellsWritten self.now (bit bitmap.now) at.old at.new
            (take result.used bytes.now) (take result.made to.new) }
    {
        let mut used = 0;
        let mut made = 0;
        let mut end = 0;
        let most = if KNOWN { EIGHT } else { 1 };
        while to.len() - made >= CELL_ROOM && at.column < self.count() {
            end = clear_end(bitmap, at.column, end, self.count());
            if end == at.column {
                let nulls = write_nulls(bitmap, end, self.count(), most, &mut to[made..]);
                made += nulls.made;
                self.step(at, nulls.columns);
                continue;
            }
            let (rest, room) = (&bytes[used..], &mut to[made..]);
            let cells = self.run_cells::<KNOWN>(at, end, rest, room);
            if cells.used == 0 {
                break;
            }
            used += cells.used;
            made += cells.made;
        }
        Span { used, made }
    }

    // Writes cell after cell of an NBCROW, as far as they are NULL by their bit or whole in these bytes, and have room, and steps
    // over them. NULLs are written here.
    #[inline(always)]
    fn run_nbc(&self, at: &mut Cursor<'a>, bitmap: &[u8], bytes: &[u8], to: &mut [u8]) -> Span
        requires bitmap { self.now.count ≤ 8 * length bitmap.now }
        ensures used { result.used ≤ length bytes.now }
        ensures made { result.made ≤ length to.old }
        ensures ends { EndsLeft self.now (bit bitmap.now) at.new (drop result.used bytes.now)
            (length to.old - result.made) }
        ensures cells { CellsWritten self.now (bit bitmap.now) at.old at.new
            (take result.used bytes.now) (take result.made to.new) }
    {
        if self.knows_all() {
            return self.run_marked::<true>(at, bitmap, bytes, to);
        }
        self.run_marked::<false>(at, bitmap, bytes, to)
    }

    /// Writes cell after cell of a row, as far as they are NULL by a bit or whole in these bytes and have room, and steps over
    /// them; over the ends of rows as `run_rows` does, if they are ROWs.
    #[inline(always)]
    pub fn run(&self, at: &mut Cursor<'a>, nulls: Nulls, bytes: &[u8], to: &mut [u8]) -> RowsSpan
        requires some { 0 < self.now.count }
        requires room { CELL_ROOM ≤ length to.old }
        requires covers { Covers nulls self.now.count }
        ensures ends { EndsLeft self.now (nulls_of nulls.entry) at.new
            (drop result.used bytes.now) (length to.old - result.made) }
        ensures last { nulls.entry ≡ Unmarked → at.new.column ≡ self.now.count →
            BeginsRow (drop result.used bytes.now) → ⊥ }
        ensures cells { Ran self.now nulls.entry at.old at.new bytes.now to.new result }
    {
        match nulls {
            Nulls::Unmarked => self.run_rows(at, bytes, to),
            Nulls::Marked(bitmap) => RowsSpan::in_row(self.run_nbc(at, bitmap, bytes, to)),
        }
    }
}
