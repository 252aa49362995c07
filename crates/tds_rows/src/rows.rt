// The reading of rows, one or several after one another (MS-TDS, ROW).
ghost use Rattle.std.specs.Prelude.{◌≡◌, ◌+◌, ◌-◌, ◌<◌, ◌≤◌, ◌∷◌, ℕ, Bool, List, [], length, None, Ok, IfOk, IfSome, IsTrue, MatchBool};
ghost use Rattle.tds_packet.specs.PayloadView.{Takes};
ghost use Rattle.tds_text.specs.Fields.{conversion_of};
ghost use Rattle.tds_cells.specs.Cells.{long_start};
ghost use Rattle.tds_rows.specs.RowReading.{AwaitsBitmap, AwaitsRows, CellRead, EndsRows, IsAtCell, LeavesBitmap, LeavesRows};
ghost use Rattle.tds_cells.specs.Rows.{BeginNoRow, PlainRow, RowToken, row_start, token_byte};
ghost use Rattle.tds_columns.specs.Description.{Column};
ghost use Rattle.tds_packet.specs.Payloads.{buffered, seen};
ghost use Rattle.tds_rows.specs.RowSteps.{RowPut, RowsRead, SomeRead};
ghost use Rattle.tds_rows.specs.RunPuts.{PutsRun};
ghost use Rattle.tds_cells.specs.CellTexts.{IsLeftFor};
ghost use Rattle.tds_cells.specs.declared.whole.Left.TheVariants.{Refused};
ghost use Rattle.tds_cells.specs.Runs.{RunWritten};
ghost use Rattle.tds_cells.specs.MarkedRuns.{Covers, EndsLeft, nulls_of};
ghost use Rattle.tds_cells.specs.declared.nulls.Nulls.TheVariants.{Unmarked};
ghost use Rattle.tds_csv.specs.Sinks.{held};
ghost use Rattle.tds_rows.specs.CellSteps.{FieldPut};
ghost use Rattle.tds_rows.specs.RowRuns.{RunRead};
ghost use Rattle.tds_cells.specs.RowFormats.{BeginsRow, Knows, KnowsSome};
ghost use Rattle.tds_values.specs.Kind as kinds;

use crate::cell::gathered::{gather_scalar, refusal};
use crate::cell::lengths::joined_content;
use crate::cell::streamed::stream_long;
use crate::nbc::Marks;
use std::io::{Read, Write};
use tds_cells::{CELL_ROOM, CellFormat, Cursor, Left, Nulls, ROW, RowFormat};
use tds_csv::{Cp1252Joiner, HexJoiner, Joiner, Sink, Utf8Joiner, Utf16Joiner, joiners_suit};
use tds_meter::Area;
use tds_packet::{Payload, Stop};
use tds_text::Content;
use tds_values::{Kind, Reach, ValueFault};

/// The room for the text of a run that may go over the end of a block.
const SCRATCH: usize = 256;

/// The room for the text of a cell that no run took.
const CELL_SCRATCH: usize = 1024;

/// With no more room than this left in the block, a run goes through a local array.
const BLOCK_END: usize = 128;

/// The reading of rows: the payload, the sink, the area in which a cell is gathered, and the row format of the columns.
#[derive(Drop)]
pub(crate) struct Rows<'r, 't, 'p, 's, 'c, R, W> {
    pub(crate) payload: &'r mut Payload<'p, R>,
    pub(crate) sink: &'r mut Sink<'s, W>,
    pub(crate) small: &'r mut Area,
    pub(crate) row_format: &'t RowFormat<'c>,
}

impl<'r, 't, 'p, 's, 'c, R: Read, W: Write> Rows<'r, 't, 'p, 's, 'c, R, W> {
    /// Takes the token byte of one more row if it is next in the packet, and returns whether it is. Reads nothing.
    pub(crate) fn take_token(&mut self, byte: u8) -> bool
        requires { AwaitsRows self.old.payload.now self.old.sink.now self.old.small.now }
        ensures stays { LeavesRows self.old self.new (Ok result) }
        ensures sink { self.new.sink.now ≡ self.old.sink.now }
        ensures token { (token : RowToken) → token_byte token ≡ byte → MatchBool result
            (Takes (seen R.remaining self.old.payload.now) (seen R.remaining self.new.payload.now)
            (token_byte token ∷ []) 1 × (self.new.payload.now.place ≡ self.old.payload.now.place + 1))
            ((self.new.payload.now ≡ self.old.payload.now) × BeginNoRow token (buffered self.new.payload.now)) }
    {
        let bytes = self.payload.buffered();
        if bytes.is_empty() || bytes[0] != byte {
            return false;
        }
        self.payload.consume(1);
        true
    }

    // Reads the next cell, of a scalar kind, that goes on in the next packet, and puts its text. Its bytes are gathered in the
    // small area, where it is judged.
    fn put_gathered(&mut self, at: Cursor<'c>, format: &CellFormat) -> Result<(), Stop>
        requires next { IsAtCell self.old at format.now }
        requires scalar { IsTrue (kinds.is_scalar format.now.kind) }
        ensures { CellRead R.remaining W.contents at.entry format.now.kind self.old self.new result }
    {
        let place = self.payload.place();
        gather_scalar(self.payload, &format.kind, at.column, self.small)?;
        let mut text = [0u8; CELL_ROOM];
        let bytes = self.small.bytes();
        match self.row_format.write_one(at, format, bytes, &mut text) {
            Ok(cell) => self.sink.put(&text[..cell.made]),
            Err(Left::Refused(fault)) => Err(refusal(fault, &format.kind, at.column, place)),
            Err(_) => unreachable!(),
        }
    }

    // Stops at the next cell, which is whole in the packet and whose value, or the length before it, is refused. What is left of
    // the packet is handed out.
    fn refuse(&mut self, at: Cursor<'c>, kind: &Kind, fault: ValueFault) -> Result<(), Stop>
        requires in_row { AwaitsRows self.old.payload.now self.old.sink.now self.old.small.now }
        requires valid { IsTrue (kinds.is_valid kind.now) }
        requires refused { IsLeftFor self.old.row_format.now.charset kind.now
            (buffered self.old.payload.now) (Refused fault) }
        ensures { CellRead R.remaining W.contents at.entry kind.now self.old self.new result }
    {
        let place = self.payload.place();
        let left = self.payload.buffered().len();
        self.payload.consume(left);
        Err(refusal(fault, kind, at.column, place))
    }

    // Reads the next cell, a long value of this content, by a joiner, and puts its field.
    fn put_joined(
        &mut self,
        content: Content,
        reach: Reach,
        column: u16,
        last: bool,
    ) -> Result<(), Stop>
        requires { AwaitsRows self.old.payload.now self.old.sink.now self.old.small.now }
        ensures leaves { LeavesRows self.old self.new result }
        ensures field { FieldPut R.remaining W.contents (long_start (conversion_of content) reach) column last
            self.old.payload.now self.new.payload.now self.old.sink.now self.new.sink.now result }
    {
        joiners_suit();
        let (payload, sink) = (&mut *self.payload, &mut *self.sink);
        match content {
            Content::Binary => {
                stream_long(payload, reach, column, last, &mut HexJoiner::new(), sink)
            }
            Content::Utf16 => {
                stream_long(payload, reach, column, last, &mut Utf16Joiner::new(), sink)
            }
            Content::Windows1252 => {
                stream_long(payload, reach, column, last, &mut Cp1252Joiner::new(), sink)
            }
            Content::Utf8 => {
                stream_long(payload, reach, column, last, &mut Utf8Joiner::new(), sink)
            }
        }
    }

    /// Reads the next cell, whatever its kind, and puts its text.
    #[inline(never)]
    pub(crate) fn put_cell(&mut self, at: Cursor<'c>, format: &CellFormat) -> Result<(), Stop>
        requires { IsAtCell self.old at format.now }
        ensures { CellRead R.remaining W.contents at.entry format.now.kind self.old self.new result }
    {
        let bytes = self.payload.buffered();
        if let Some(content) = joined_content(format, bytes) {
            let last = self.row_format.is_last(at);
            return self.put_joined(content, Reach::Short, at.column, last);
        }
        let mut text = [0u8; CELL_SCRATCH];
        match self.row_format.write_one(at, format, bytes, &mut text) {
            Ok(cell) => {
                self.payload.consume(cell.used);
                self.sink.put(&text[..cell.made])
            }
            Err(Left::Cut) => self.put_gathered(at, format),
            Err(Left::Refused(fault)) => self.refuse(at, &format.kind, fault),
            Err(Left::Long(content, reach)) => {
                let last = self.row_format.is_last(at);
                self.put_joined(content, reach, at.column, last)
            }
        }
    }
}

impl<'r, 't, 'p, 's, 'c, R: Read, W: Write> Rows<'r, 't, 'p, 's, 'c, R, W> {
    // Reads the next cells, as many as are NULL by a bit or whole in the packet and have room in the block, over the ends of ROWs,
    // puts their text where it waits, and steps over them. Returns how many rows it began. It reads nothing and delivers nothing.
    #[inline(always)]
    fn put_within(&mut self, at: &mut Cursor<'c>, nulls: Nulls) -> u64
        requires in_row { AwaitsRows self.old.payload.now self.old.sink.now self.old.small.now }
        requires some { 0 < self.old.row_format.now.count }
        requires covers { Covers nulls self.old.row_format.now.count }
        requires room { length self.old.sink.now.output.now.bytes + CELL_ROOM < 4096 }
        ensures stays { LeavesRows self.old self.new (Ok result) }
        ensures few { self.old.payload.now.place + result ≤ self.new.payload.now.place }
        ensures ends { EndsLeft self.old.row_format.now (nulls_of nulls.entry) at.new
            (buffered self.new.payload.now) (4095 - length self.new.sink.now.output.now.bytes) }
        ensures last { nulls.entry ≡ Unmarked → at.new.column ≡ self.old.row_format.now.count →
            BeginsRow (buffered self.new.payload.now) → ⊥ }
        ensures cells { PutsRun (RunWritten self.old.row_format.now nulls.entry at.old at.new result)
            (seen R.remaining self.old.payload.now) (seen R.remaining self.new.payload.now)
            self.old.payload.now.place self.new.payload.now.place
            (held W.contents self.old.sink.now) (held W.contents self.new.sink.now) }
    {
        let waiting = self.sink.waiting() as usize;
        let room = self.sink.room() - 1;
        let (bytes, spare) = (self.payload.buffered(), self.sink.spare(room));
        let run = self.row_format.run(at, nulls, bytes, spare);
        self.payload.consume(run.used);
        self.sink.commit(waiting, run.made);
        run.rows as u64
    }

    // Reads the next cells, as many as are NULL by a bit or whole in the packet and have room in a small text, over the ends of
    // ROWs, puts that text over the end of the block, and steps over them. Returns how many rows it began.
    fn put_via_scratch(&mut self, at: &mut Cursor<'c>, nulls: Nulls) -> Result<u64, Stop>
        requires in_row { AwaitsRows self.old.payload.now self.old.sink.now self.old.small.now }
        requires some { 0 < self.old.row_format.now.count }
        requires covers { Covers nulls self.old.row_format.now.count }
        ensures { RunRead R.remaining W.contents nulls.entry at.old at.new self.old self.new result }
    {
        let mut text = [0u8; SCRATCH];
        let bytes = self.payload.buffered();
        let run = self.row_format.run(at, nulls, bytes, &mut text);
        self.payload.consume(run.used);
        self.sink.put(&text[..run.made])?;
        Ok(run.rows as u64)
    }

    /// Reads the next cells, as many as are NULL by a bit or whole in the packet and have room, puts their text, and steps over
    /// them. Returns how many rows it began.
    #[inline(always)]
    pub(crate) fn put_run(&mut self, at: &mut Cursor<'c>, nulls: Nulls) -> Result<u64, Stop>
        requires in_row { AwaitsRows self.old.payload.now self.old.sink.now self.old.small.now }
        requires some { 0 < self.old.row_format.now.count }
        requires covers { Covers nulls self.old.row_format.now.count }
        ensures { RunRead R.remaining W.contents nulls.entry at.old at.new self.old self.new result }
    {
        if self.sink.room() <= BLOCK_END {
            return self.put_via_scratch(at, nulls);
        }
        Ok(self.put_within(at, nulls))
    }

    /// Reads a row cell after cell, and puts its line.
    pub(crate) fn row(&mut self) -> Result<(), Stop>
        requires { AwaitsRows self.old.payload.now self.old.sink.now self.old.small.now }
        ensures leaves { LeavesRows self.old self.new result }
        ensures row { (columns : List Column) → Knows self.old.row_format.now columns →
            RowPut R.remaining W.contents self.old.row_format.now.charset
            (row_start PlainRow self.old.row_format.now.charset columns)
            self.old.payload.now self.new.payload.now self.old.sink.now self.new.sink.now result }
    {
        let mut at = self.row_format.start();
        while let Some((format, after)) = self.row_format.next(at) {
            self.put_cell(at, &format)?;
            at = after;
        }
        Ok(())
    }

    /// Reads a row, its bitmap first if it has one, and puts its line; and after a ROW those that a run goes on to. Returns how
    /// many rows it read.
    #[inline(always)]
    pub(crate) fn row_by<M: Marks>(&mut self, marks: &mut M) -> Result<u64, Stop>
        requires in_row { AwaitsRows self.old.payload.now self.old.sink.now self.old.small.now
            × KnowsSome self.old.row_format.now }
        requires awaits { AwaitsBitmap (M.space marks.old) }
        ensures leaves { LeavesRows self.old self.new result }
        ensures room { LeavesBitmap (M.space marks.old) (M.space marks.new) self.old.row_format.now.count }
        ensures few { IfOk result (λ count. self.old.payload.now.place + count ≤ self.new.payload.now.place + 1) }
        ensures rows { (columns : List Column) → Knows self.old.row_format.now columns →
            SomeRead R.remaining W.contents M.token self.old.row_format.now.charset columns
            self.old.payload.now self.new.payload.now self.old.sink.now self.new.sink.now result }
    {
        marks.begin(self.payload, self.row_format.count())?;
        let nulls = marks.nulls();
        let mut at = self.row_format.start();
        let mut begun: u64 = 0;
        loop {
            let (place, room) = (self.payload.place(), self.sink.room());
            begun += self.put_run(&mut at, nulls)?;
            // A run of ROWs that came to the block's end goes over it, and one that went over it goes on.
            let is_further = self.payload.place() > place;
            if M::TOKEN == ROW && is_further && room.min(self.sink.room()) <= BLOCK_END {
                continue;
            }
            let Some((format, after)) = self.row_format.next(at) else {
                return Ok(begun + 1);
            };
            self.put_next(at, &format, nulls.is_null(at.column))?;
            at = after;
        }
    }

    /// Reads a row and those that follow it in its packet, each with at most its bitmap in the area, and puts their lines. Returns
    /// how many they are.
    #[inline(always)]
    pub(crate) fn rows<M: Marks>(&mut self, marks: &mut M) -> Result<u64, Stop>
        requires in_row { AwaitsRows self.old.payload.now self.old.sink.now self.old.small.now
            × KnowsSome self.old.row_format.now }
        requires room { 8192 ≤ (M.space marks.old).room }
        ensures leaves { LeavesRows self.old self.new result }
        ensures room { LeavesBitmap (M.space marks.old) (M.space marks.new) self.old.row_format.now.count }
        ensures ends { IfOk result (λ count. EndsRows M.token self.old.payload.now self.new.payload.now count) }
        ensures rows { (columns : List Column) → Knows self.old.row_format.now columns →
            RowsRead R.remaining W.contents M.token self.old.row_format.now.charset columns
            self.old.payload.now self.new.payload.now self.old.sink.now self.new.sink.now result }
    {
        let mut ended: u64 = 0;
        loop {
            marks.empty();
            let whole = self.put_whole_rows::<M>();
            ended += whole.rows;
            if whole.last {
                return Ok(ended + 1);
            }
            ended += self.row_by(marks)?;
            if !self.take_token(M::TOKEN) {
                return Ok(ended);
            }
        }
    }
}
