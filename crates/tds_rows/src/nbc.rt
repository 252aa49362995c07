// What a bitmap adds to a row: the columns that are NULL by their bit, and rows that go at once (MS-TDS, NBCROW).
ghost use Rattle.std.specs.Prelude.{true, false, ◌≡◌, ◌+◌, ◌≤◌, [], List, Ok, ℕ, refl};
ghost use Rattle.tds_cells.specs.Rows.{BeginNoRow, NbcRow, PlainRow, RowToken, token_byte};
ghost use Rattle.tds_columns.specs.Description.{Column};
ghost use Rattle.tds_meter.specs.Space.{Space, empty};
ghost use Rattle.tds_packet.specs.Payloads.{IsGoing, LeavesPayload, buffered, seen};
ghost use Rattle.tds_rows.specs.RowReading.{AwaitsBitmap, AwaitsRows, BitmapRead, IsAtCell, LeavesBitmap, LeavesRows, MarkedBy, NextRead};
ghost use Rattle.tds_rows.specs.RunPuts.{PutsRun};
ghost use Rattle.tds_cells.specs.MarkedRows.{WritesWholeRows};
ghost use Rattle.tds_cells.specs.RowFormats.{Knows, KnowsSome};
ghost use Rattle.tds_csv.specs.Sinks.{held};

use crate::cell::null::put_null;
use crate::rows::Rows;
use std::io::{Read, Write};
use tds_cells::{CellFormat, Cursor, NBCROW, Nulls, ROW, bitmap_size};
use tds_columns::read_into;
use tds_meter::Area;
use tds_packet::{Payload, Stop};

// How many bytes the text of each cell has of a row that is likely to have room in the block.
const SHORT_CELL: usize = 4;

/// The most bytes that a bitmap has. A call that reads NBCROWs needs room for it in the bitmap's area.
pub const LONGEST_BITMAP: usize = 8192;

/// Where a row tells which of its columns are NULL: an NBCROW in its bitmap, which is read into an area, a ROW nowhere.
pub(crate) trait Marks: Sized {
    /// The token byte of such rows.
    const TOKEN: u8;

    ghost TOKEN: { ℕ };

    /// Their token.
    ghost token: { RowToken };

    /// The area as contracts see it.
    ghost space: { Self → Space };

    /// Takes the last row's bitmap away.
    fn empty(&mut self)
        ensures empty { (space self.new).bytes ≡ [] }
        ensures room { LeavesBitmap (space self.old) (space self.new) 0 };

    /// Reads the bitmap of a row of so many columns.
    fn begin<R: Read>(&mut self, payload: &mut Payload<'_, R>, columns: u16) -> Result<(), Stop>
        requires going { IsGoing payload.old }
        requires awaits { AwaitsBitmap (space self.old) }
        ensures payload { LeavesPayload payload.old payload.new result }
        ensures room { LeavesBitmap (space self.old) (space self.new) columns }
        ensures bitmap { BitmapRead R.remaining token payload.old payload.new (space self.new).bytes columns result };

    /// Which columns are NULL by a bit.
    fn nulls(&self) -> Nulls<'_>
        ensures { MarkedBy token (space self.now).bytes result };

    /// The token byte is that token's.
    ghost named: { token_byte token ≡ TOKEN };
}

/// There is no bitmap, as in ROWs.
#[derive(Drop)]
pub(crate) struct NoBitmap;

impl Marks for NoBitmap {
    const TOKEN: u8 = ROW;

    ghost TOKEN = { 0xD1 };

    ghost token = { PlainRow };

    ghost space = { λ _. empty 8192 };

    fn empty(&mut self) {}

    fn begin<R: Read>(&mut self, _payload: &mut Payload<'_, R>, _columns: u16) -> Result<(), Stop> {
        Ok(())
    }

    fn nulls(&self) -> Nulls<'_> {
        Nulls::Unmarked
    }

    ghost named = { refl };
}

impl Marks for Area {
    const TOKEN: u8 = NBCROW;

    ghost TOKEN = { 0xD2 };

    ghost token = { NbcRow };

    ghost space = { λ area. area };

    fn empty(&mut self) {
        self.clear();
    }

    fn begin<R: Read>(&mut self, payload: &mut Payload<'_, R>, columns: u16) -> Result<(), Stop> {
        read_into(payload, self, bitmap_size(columns))
    }

    fn nulls(&self) -> Nulls<'_> {
        Nulls::Marked(self.bytes())
    }

    ghost named = { refl };
}

/// How many NBCROWs were put whose next one's token byte was taken, and whether one more was, which no other follows.
#[derive(Clone, Copy)]
pub(crate) struct PutRows {
    pub(crate) rows: u64,
    pub(crate) last: bool,
}

impl<'r, 't, 'p, 's, 'c, R: Read, W: Write> Rows<'r, 't, 'p, 's, 'c, R, W> {
    /// Puts the lines of the next NBCROWs, as many as are whole in the packet, away from its end, and have room in the block,
    /// and takes the token byte after each but the last. It reads nothing and delivers nothing. Of ROWs it takes none.
    #[inline(always)]
    pub(crate) fn put_whole_rows<M: Marks>(&mut self) -> PutRows
        requires in_row { AwaitsRows self.old.payload.now self.old.sink.now self.old.small.now
            × KnowsSome self.old.row_format.now }
        ensures stays { LeavesRows self.old self.new (Ok result) }
        ensures few { self.old.payload.now.place + result.rows ≤ self.new.payload.now.place }
        ensures none { result.last ≡ true → BeginNoRow M.token (buffered self.new.payload.now) }
        ensures plain { M.token ≡ PlainRow → (result.rows ≡ 0) × (result.last ≡ false) }
        ensures rows { (columns : List Column) → Knows self.old.row_format.now columns →
            PutsRun (WritesWholeRows self.old.row_format.now.charset columns result.rows result.last)
            (seen R.remaining self.old.payload.now) (seen R.remaining self.new.payload.now)
            self.old.payload.now.place self.new.payload.now.place
            (held W.contents self.old.sink.now) (held W.contents self.new.sink.now) }
    {
        let room = self.sink.room() - 1;
        let short = SHORT_CELL * self.row_format.count() as usize;
        if M::TOKEN != NBCROW || !self.row_format.knows_all() || room < short {
            return PutRows {
                rows: 0,
                last: false,
            };
        }
        let waiting = self.sink.waiting() as usize;
        let (bytes, spare) = (self.payload.buffered(), self.sink.spare(room));
        let run = self.row_format.run_far_rows(bytes, spare);
        self.payload.consume(run.span.used);
        self.sink.commit(waiting, run.span.made);
        PutRows {
            rows: run.span.rows as u64,
            last: run.last,
        }
    }

    /// Puts the next cell: NULL, or the cell that it reads.
    pub(crate) fn put_next(
        &mut self,
        at: Cursor<'c>,
        format: &CellFormat,
        null: bool,
    ) -> Result<(), Stop>
        requires { IsAtCell self.old at format.now }
        ensures leaves { LeavesRows self.old self.new result }
        ensures cell { NextRead R.remaining W.contents at.entry format.now.kind null self.old self.new result }
    {
        if null {
            return put_null(at.column, self.row_format.is_last(at), self.sink);
        }
        self.put_cell(at, format)
    }
}
