// What the cells of a description's columns need of them, known once for all its rows.
ghost use Rattle.std.specs.Prelude.{[], ◌≡◌, ◌==◌, ◌&&◌, ◌⊎◌, ◌+◌, ◌-◌, ◌<◌, ◌≤◌, drop, length, take, true, false, IfSome, List, MatchOption, min};
ghost use Rattle.tds_cells.specs.CellTexts.{is_counted, is_int4};
ghost use Rattle.tds_values.specs.declared.charset.Charset.{Charset};
ghost use Rattle.tds_cells.specs.Formats.{Each};
ghost use Rattle.tds_cells.specs.Layouts.{IsLaidOut};

use crate::layout::{CellFormat, Layout};
use tds_columns::{Columns, Walk};
use tds_values::{Charset, Kind};

/// The token byte of a ROW (MS-TDS, ROW).
pub const ROW: u8 = 0xD1;

/// How many columns a row format knows by itself of a description with few of them. It takes 8 bytes for each, in a local variable.
pub const FEW_COLUMNS: usize = 8;

/// How many it knows of a description with some more.
pub const SOME_COLUMNS: usize = 64;

/// How many it knows of any other.
pub const MANY_COLUMNS: usize = 1024;

// Whether the values of a kind are whole numbers of four bytes.
fn is_int4(kind: &Kind) -> bool
    ensures { result ≡ is_int4 kind.now }
{
    matches!(*kind, Kind::Int4 | Kind::IntN(4))
}

// Whether whole numbers of a kind come after their length, or are NULL.
pub(crate) fn is_counted(kind: &Kind) -> bool
    ensures { result ≡ is_counted kind.now }
{
    matches!(*kind, Kind::IntN(_))
}

/// The columns of a description: what the cells of the first ones need, whether these are all and have only whole
/// numbers of four bytes, whether each of these may be NULL, the walk over those after, and the set of single-byte text.
#[derive(Drop)]
pub struct RowFormat<'a> {
    formats: &'a [CellFormat],
    known: usize,
    pub(crate) only_numbers: bool,
    pub(crate) only_counted: bool,
    count: u16,
    rest: Walk<'a>,
    pub charset: Charset,
    ghost there: { known ≤ length formats.now },
    ghost few: { known ≤ count },
    ghost fits: { count ≤ 65535 },
    ghost laid: { Each (λ f. IsLaidOut charset f.kind f.layout) formats.now },
    ghost numbers: { only_numbers ≡ true → Each (λ f. is_int4 f.kind ≡ true) formats.now },
    ghost counted: { only_counted ≡ true → Each (λ f. is_counted f.kind ≡ true) formats.now },
}

/// What was learnt of the first columns of a description: how many they are, whether all have only whole numbers of four bytes, whether
/// their whole numbers may all be NULL, and the walk over those after.
#[derive(Clone, Copy)]
pub struct Learnt<'a> {
    known: usize,
    only_numbers: bool,
    only_counted: bool,
    rest: Walk<'a>,
}

/// What is there before anything is learnt of a column: a format of whole numbers of four bytes that may be NULL.
pub fn blank() -> CellFormat
    ensures number { is_int4 result.kind ≡ true }
    ensures counted { is_counted result.kind ≡ true }
    ensures laid { (charset : Charset) → IsLaidOut charset result.kind result.layout }
{
    CellFormat {
        kind: Kind::IntN(4),
        layout: Layout::Counted,
    }
}

/// A place between the cells of a row: how many columns come before it, and the walk over those ahead that
/// the row format doesn't know.
#[derive(Clone, Copy)]
pub struct Cursor<'a> {
    walk: Walk<'a>,
    pub column: u16,
}

impl<'a> RowFormat<'a> {
    ghost use Rattle.tds_columns.specs.Description as spec;
    ghost use Rattle.tds_columns.specs.View.{columns_of};
    ghost use Rattle.tds_cells.specs.RowFormats.{AreAtCursor, IsCursor, Knows, Learns, NextColumn, place};
    ghost use Rattle.tds_columns.specs.declared.walk.Walk.{Walk};

    /// Learns what the cells of a description's first columns need, as many as there is room for, if single-byte text is in this set.
    #[inline(always)]
    pub fn learn(columns: Columns<'a>, charset: Charset, formats: &mut [CellFormat]) -> Learnt<'a>
        requires few { length formats.old ≤ 1024 }
        requires laid { Each (λ f. IsLaidOut charset f.kind f.layout) formats.old }
        requires numbers { Each (λ f. is_int4 f.kind ≡ true) formats.old }
        requires counted { Each (λ f. is_counted f.kind ≡ true) formats.old }
        ensures { Learns (columns_of columns.entry.bytes.now) charset formats.new result }
    {
        let mut known = 0;
        let mut only_numbers = true;
        let mut only_counted = true;
        let mut rest = columns.walk();
        while known < formats.len() {
            let Some(column) = rest.next() else {
                break;
            };
            formats[known] = CellFormat::of(column.kind, charset);
            known += 1;
            only_numbers &= is_int4(&column.kind);
            only_counted &= is_counted(&column.kind);
        }
        Learnt {
            known,
            only_numbers,
            only_counted,
            rest,
        }
    }

    /// The row format of a description's columns, whose single-byte text is in this set, by what was learnt of the first ones.
    pub fn of(
        columns: Columns<'a>,
        charset: Charset,
        formats: &'a [CellFormat],
        learnt: Learnt<'a>,
    ) -> RowFormat<'a>
        requires { Learns (columns_of columns.bytes.now) charset formats.now learnt }
        ensures knows { Knows result (columns_of columns.entry.bytes.now) }
        ensures charset { result.charset ≡ charset }
        ensures known { result.known ≡ learnt.entry.known }
        ensures numbers { result.only_numbers ≡ (learnt.entry.only_numbers && (result.known == result.count)) }
        ensures counted { result.only_counted ≡ learnt.entry.only_counted }
    {
        let (count, known) = (columns.count(), learnt.known);
        RowFormat {
            formats,
            known,
            only_numbers: learnt.only_numbers && known == count as usize,
            only_counted: learnt.only_counted,
            count,
            rest: learnt.rest,
            charset,
        }
    }

    /// The row format of a description's columns that looks each column up as it comes, for a single row.
    pub fn walked(columns: Columns<'a>, charset: Charset) -> RowFormat<'a>
        ensures knows { Knows result (columns_of columns.entry.bytes.now) }
        ensures charset { result.charset ≡ charset }
    {
        RowFormat {
            formats: &[],
            known: 0,
            only_numbers: false,
            only_counted: false,
            count: columns.count(),
            rest: columns.walk(),
            charset,
        }
    }

    /// How many columns there are.
    pub fn count(&self) -> u16
        ensures { result ≡ self.now.count }
    {
        self.count
    }

    /// The place before the first cell of a row.
    #[inline(always)]
    pub fn start(&self) -> Cursor<'a>
        ensures first { result.column ≡ 0 }
        ensures ahead { (columns : List spec.Column) → Knows self.now columns → IsCursor self.now columns result }
    {
        Cursor {
            column: 0,
            walk: self.rest,
        }
    }

    /// What the next cell needs. `None` at the row's end.
    #[inline(always)]
    pub(crate) fn format(&self, at: Cursor<'a>) -> Option<CellFormat>
        ensures laid { IfSome result (λ format. IsLaidOut self.now.charset format.kind format.layout) }
        ensures next { (columns : List spec.Column) → Knows self.now columns → IsCursor self.now columns at.entry →
            MatchOption result (drop at.entry.column columns ≡ []) (λ format. NextColumn columns at.entry format.kind) }
    {
        if (at.column as usize) < self.known {
            return Some(self.formats[at.column as usize]);
        }
        let mut walk = at.walk;
        let column = walk.next()?;
        Some(CellFormat::of(column.kind, self.charset))
    }

    /// Whether it knows all columns.
    #[inline(always)]
    pub fn knows_all(&self) -> bool
        ensures { result ≡ (self.now.known == self.now.count) }
    {
        self.known == self.count as usize
    }

    /// What the next cells need, as far as the row format knows it, up to column `end` at most. `None` if the row format doesn't
    /// know the next one, or if that comes at `end` or later.
    #[inline(always)]
    #[tactic(auto, using(crate::proofs::RowFormatRuns::known_ahead))]
    pub(crate) fn formats(&self, at: Cursor<'a>, end: u16) -> Option<&[CellFormat]>
        requires { end ≤ self.now.count }
        ensures ahead { MatchOption result ((self.now.known ≤ at.entry.column) ⊎ (end ≤ at.entry.column))
            (λ formats. AreAtCursor self.now at.entry end formats.now) }
        ensures all { IfSome result (λ formats. at.entry.column + length formats.now ≡ min self.now.known end) }
    {
        let from = at.column as usize;
        let until = self.known.min(end as usize);
        if from >= until {
            return None;
        }
        Some(&self.formats[from..until])
    }

    /// What the cells of a whole row need, all of whose columns the row format knows.
    #[inline(always)]
    pub(crate) fn row(&self) -> &[CellFormat]
        requires all { self.now.known ≡ self.now.count }
        ensures row { result.now ≡ take self.now.known self.now.formats.now }
        ensures few { length result.now ≤ 65535 }
        ensures numbers { self.now.only_numbers ≡ true → Each (λ f. is_int4 f.kind ≡ true) result.now }
        ensures counted { self.now.only_counted ≡ true → Each (λ f. is_counted f.kind ≡ true) result.now }
    {
        &self.formats[..self.known]
    }

    /// What the cells of a row that are ahead need, all of whose columns the row format knows. `None` at the row's end.
    #[inline(always)]
    #[tactic(auto, using(crate::proofs::RowFormatRuns::known_ahead))]
    pub(crate) fn rest_of_row(&self, column: u16) -> Option<&[CellFormat]>
        requires all { self.now.known ≡ self.now.count }
        ensures end { result ≡ None → self.now.count ≤ column }
        ensures ahead { (walk : Walk) → IfSome result (λ formats.
            AreAtCursor self.now (place walk column) self.now.count formats.now) }
        ensures whole { IfSome result (λ formats. column + length formats.now ≡ self.now.count) }
        ensures formats { IfSome result (λ formats. formats.now ≡
            take (self.now.known - column) (drop column self.now.formats.now)) }
    {
        let from = column as usize;
        if from >= self.known {
            return None;
        }
        Some(&self.formats[from..self.known])
    }

    /// What the next cell needs, of a row all of whose columns the row format knows. `None` at the row's end.
    #[inline(always)]
    pub(crate) fn known_format(&self, at: Cursor<'a>) -> Option<CellFormat>
        requires all { self.now.known ≡ self.now.count }
        ensures end { result ≡ None → self.now.count ≤ at.entry.column }
        ensures some { IfSome result (λ _. at.entry.column < self.now.count) }
        ensures laid { IfSome result (λ format. IsLaidOut self.now.charset format.kind format.layout) }
        ensures next { (columns : List spec.Column) → Knows self.now columns → IsCursor self.now columns at.entry →
            IfSome result (λ format. NextColumn columns at.entry format.kind) }
    {
        let column = at.column as usize;
        if column >= self.known {
            return None;
        }
        Some(self.formats[column])
    }

    /// Whether no cell of the row is ahead.
    #[inline(always)]
    pub fn is_end(&self, at: Cursor<'a>) -> bool
        ensures { result ≡ (at.entry.column == self.now.count) }
    {
        at.column == self.count
    }

    /// Whether the next cell is a row's last.
    #[inline(always)]
    pub fn is_last(&self, at: Cursor<'a>) -> bool
        requires { at.column < self.now.count }
        ensures { result ≡ (at.entry.column + 1 == self.now.count) }
    {
        at.column + 1 == self.count
    }

    /// Whether the row ends after the cells of the next formats.
    #[inline(always)]
    pub(crate) fn ends_after(&self, at: Cursor<'a>, formats: &[CellFormat]) -> bool
        ensures { result ≡ (at.entry.column + length formats.now == self.now.count) }
    {
        at.column as usize + formats.len() == self.count as usize
    }

    /// Steps over the next `cells` cells, which the row format knows or which are at most one.
    #[inline(always)]
    pub(crate) fn step(&self, at: &mut Cursor<'a>, cells: usize)
        requires within { at.old.column + cells ≤ self.now.count }
        requires known { (at.old.column + cells ≤ self.now.known) ⊎ (cells ≤ 1) }
        ensures further { at.new.column ≡ at.old.column + cells }
        ensures stays { cells ≡ 0 → at.new ≡ at.old }
        ensures ahead { (columns : List spec.Column) → Knows self.now columns → IsCursor self.now columns at.old →
            IsCursor self.now columns at.new }
    {
        if cells > 0 && (at.column as usize) >= self.known {
            let _ = at.walk.next();
        }
        at.column += cells as u16;
    }

    /// Steps over the next `cells` cells, which the row format knows.
    #[inline(always)]
    pub(crate) fn pass(&self, at: &mut Cursor<'a>, cells: usize)
        requires known { at.old.column + cells ≤ self.now.known }
        ensures further { at.new.column ≡ at.old.column + cells }
        ensures ahead { (columns : List spec.Column) → Knows self.now columns → IsCursor self.now columns at.old →
            IsCursor self.now columns at.new }
    {
        at.column += cells as u16;
    }

    /// What the next cell needs, and the place after it. `None` at the row's end.
    #[inline(always)]
    pub fn next(&self, at: Cursor<'a>) -> Option<(CellFormat, Cursor<'a>)>
        ensures further { IfSome result (λ taken. taken.1.column ≡ at.entry.column + 1) }
        ensures within { IfSome result (λ taken. taken.1.column ≤ self.now.count) }
        ensures laid { IfSome result (λ taken. IsLaidOut self.now.charset taken.0.kind taken.0.layout) }
        ensures taken { (columns : List spec.Column) → Knows self.now columns → IsCursor self.now columns at.entry →
            MatchOption result (drop at.entry.column columns ≡ [])
            (λ taken. NextColumn columns at.entry taken.0.kind × IsCursor self.now columns taken.1) }
    {
        if at.column >= self.count {
            return None;
        }
        let format = self.format(at)?;
        let mut after = at;
        self.step(&mut after, 1);
        Some((format, after))
    }
}
