// A long value that passes through in pieces, by a joiner (MS-TDS, Data Stream Types).
ghost use Rattle.std.specs.Prelude.{◌≡◌, ◌<◌, ◌≤◌, ◌+◌, ◌^◌, ◌++◌, ℕ, List, IfErr, IfOk, Ok, [], false, None, take};
ghost use Rattle.tds_text.specs.Conversion.{BeginsData, Conversion, Suits, closing, conversion_rest};
ghost use Rattle.tds_text.specs.Quoting.{after_comma, end_after};
ghost use Rattle.tds_csv.specs.Sinks.{IsReady, IsWriting, LeavesSink, PutsPiece};
ghost use Rattle.tds_packet.specs.Payloads.{IsSound, LeavesPayload};
ghost use Rattle.tds_packet.specs.Reads.{IsOfPayload};
ghost use Rattle.tds_rows.specs.Blames.{Blames, failures_of};
ghost use Rattle.tds_rows.specs.LongCells.{DataTaken, EndPut, PieceTaken, good_of, join_stop, opening};
ghost use Rattle.tds_rows.specs.LongReading.{AwaitsValue, BlamesDevices, ChunksTaken, IsJoining, IsOnSameValue, LeavesValue, ValuePut};
ghost use Rattle.tds_cells.specs.Cells.{Cell, ChunkLength, LongShape, ShortLength, SpellsCell, long_start};
ghost use Rattle.tds_rows.specs.CellSteps.{FieldPut};
ghost use Rattle.tds_rows.specs.RowSteps.{StopsAgain};
ghost use Rattle.tds_rows.specs.Successes.{SucceedsOn};
ghost use Rattle.tds_values.specs.declared.kind.Kind.{Kind};

use crate::cell::chunk_runs::{LONGEST_CHUNK, next_chunk, write_chunks};
use crate::cell::lengths::{read_chunk_length, read_short_length, read_total};
use crate::cell::null::put_null;
use crate::reading::earlier_stop;
use std::io::{Read, Write};
use tds_csv::{JoinFault, Joiner, Sink};
use tds_packet::{Fault, Payload, Stop};
use tds_text::framing::{BINARY_MARK, QUOTE};
use tds_text::{write_comma, write_line_end};
use tds_values::Reach;

// The most bytes that a piece is asked for.
const LONGEST_PIECE: u64 = 65_536;

// The stop of a joiner whose piece or end comes after `place` bytes of the payload: the sink's own, or one at
// the bad byte.
fn join_stop(fault: JoinFault, column: u16, place: u64) -> Stop
    requires { place + good_of fault < 2 ^ 64 }
    ensures { result ≡ join_stop column place fault }
{
    let good = match fault {
        JoinFault::Stopped(stop) => return stop,
        JoinFault::BadText(good) => good as u64,
        JoinFault::Odd => 0,
    };
    Stop::in_payload(Fault::BadText { column }, place + good)
}

// Puts the first `made` of four bytes.
fn put_few<W: Write>(text: [u8; 4], made: usize, sink: &mut Sink<W>) -> Result<(), Stop>
    requires writing { IsWriting sink.old }
    requires few { made ≤ 4 }
    ensures { PutsPiece W.contents sink.old sink.new (take made text) result }
{
    if sink.room() < 4 {
        return sink.put(&text[..made]);
    }
    let waiting = sink.waiting() as usize;
    sink.spare(4).copy_from_slice(&text);
    sink.keep(waiting, made)
}

// Puts the comma before a long value, and what comes before its text.
fn put_opening<W: Write>(column: u16, quoted: bool, sink: &mut Sink<W>) -> Result<(), Stop>
    requires { IsWriting sink.old }
    ensures { PutsPiece W.contents sink.old sink.new (after_comma column (opening quoted)) result }
{
    let mut text = [0u8; 4];
    let start = write_comma(column, &mut text);
    let made = if quoted {
        text[start] = QUOTE;
        start + 1
    } else {
        text[start] = BINARY_MARK[0];
        text[start + 1] = BINARY_MARK[1];
        start + 2
    };
    put_few(text, made, sink)
}

// Puts what comes after the text of a long value, and the end of the line if it is the last.
fn put_closing<W: Write>(quoted: bool, last: bool, sink: &mut Sink<W>) -> Result<(), Stop>
    requires { IsWriting sink.old }
    ensures { PutsPiece W.contents sink.old sink.new (closing quoted ++ end_after last) result }
{
    let mut text = [QUOTE, 0, 0, 0];
    let made = write_line_end(last, usize::from(quoted), &mut text);
    put_few(text, made, sink)
}

// A long value that is being read, and the joiner that makes its text.
#[derive(Drop)]
struct LongValue<'r, 'p, 'j, 'w, 's, J, R, W> {
    payload: &'r mut Payload<'p, R>,
    column: u16,
    last: bool,
    joiner: &'j mut J,
    sink: &'w mut Sink<'s, W>,
}

#[tactic(auto, using(tds_packet::proofs::Passing::passed, crate::proofs::Numbers::stops_after, crate::proofs::Numbers::read_stops, crate::proofs::Numbers::length_blames, crate::proofs::Numbers::total_blames))]
impl<'r, 'p, 'j, 'w, 's, J: Joiner, R: Read, W: Write> LongValue<'r, 'p, 'j, 'w, 's, J, R, W> {
    // Hands the next piece of the data, at most `most` bytes, to the joiner in place, and returns its length.
    fn push_piece(&mut self, most: u64) -> Result<u64, Stop>
        requires joining { IsJoining J.begins J.withheld self.old }
        requires some { 0 < most }
        ensures leaves { LeavesValue self.old self.new result }
        ensures begun { J.begins (J.withheld self.new.joiner.now) }
        ensures further { IfOk result (λ n. (0 < n) × (n ≤ most) ×
            (self.new.payload.now.place ≡ self.old.payload.now.place + n)) }
        ensures blames { BlamesDevices self.old self.new result }
        ensures piece { (c : Conversion) (content : List ℕ) → Suits J.fit J.begins J.rest J.text J.UNIT J.QUOTED c →
            J.withheld self.old.joiner.now ≡ conversion_rest c content → BeginsData c content →
            PieceTaken R.remaining W.contents c content (J.withheld self.new.joiner.now) self.old.column most
            self.old.payload.now self.new.payload.now self.old.sink.now self.new.sink.now result }
    {
        let place = self.payload.place();
        let piece = self.payload.piece(most.min(LONGEST_PIECE) as usize)?;
        match self.joiner.push(piece, self.sink) {
            Ok(()) => Ok(piece.len() as u64),
            Err(fault) => Err(join_stop(fault, self.column, place)),
        }
    }

    // Hands `n` bytes of data to the joiner, piece by piece.
    fn push_data(&mut self, n: u64) -> Result<(), Stop>
        requires joining { IsJoining J.begins J.withheld self.old }
        requires some { 0 < n }
        ensures leaves { LeavesValue self.old self.new result }
        ensures begun { J.begins (J.withheld self.new.joiner.now) }
        ensures place { IfOk result (λ _. self.new.payload.now.place ≡ self.old.payload.now.place + n) }
        ensures blames { BlamesDevices self.old self.new result }
        ensures data { (c : Conversion) (content : List ℕ) → Suits J.fit J.begins J.rest J.text J.UNIT J.QUOTED c →
            J.withheld self.old.joiner.now ≡ conversion_rest c content → BeginsData c content →
            DataTaken R.remaining W.contents c content (J.withheld self.new.joiner.now) self.old.column n
            self.old.payload.now self.new.payload.now self.old.sink.now self.new.sink.now result }
    {
        let mut left = n;
        loop {
            left -= self.push_piece(left)?;
            if left == 0 {
                return Ok(());
            }
        }
    }

    // Puts the end of a value whose data was handed to the joiner. Stops at `place` if the data isn't whole text.
    fn put_end(&mut self, place: u64) -> Result<(), Stop>
        requires { IsWriting self.old.sink.now }
        ensures same { IsOnSameValue self.old self.new }
        ensures payload { self.new.payload.now ≡ self.old.payload.now }
        ensures sink { LeavesSink self.old.sink.now self.new.sink.now result }
        ensures own { IfErr result (λ stop. ¬ IsOfPayload stop.fault) }
        ensures blames { BlamesDevices self.old self.new result }
        ensures end { (c : Conversion) (content : List ℕ) → Suits J.fit J.begins J.rest J.text J.UNIT J.QUOTED c →
            J.withheld self.old.joiner.now ≡ conversion_rest c content → BeginsData c content →
            EndPut W.contents c J.QUOTED self.old.last content self.old.column place
            self.old.sink.now self.new.sink.now result }
    {
        match self.joiner.end(self.sink) {
            Ok(()) => put_closing(J::QUOTED, self.last, self.sink),
            Err(fault) => Err(join_stop(fault, self.column, place)),
        }
    }

    // Reads a short value from its length on, and puts its field, and the end of the line if it is the last.
    fn short(&mut self) -> Result<(), Stop>
        requires { AwaitsValue J.begins (J.withheld self.old.joiner.now) J.UNIT self.old.payload.now self.old.sink.now }
        ensures leaves { LeavesValue self.old self.new result }
        ensures blames { BlamesDevices self.old self.new result }
        ensures field { (c : Conversion) → Suits J.fit J.begins J.rest J.text J.UNIT J.QUOTED c →
            ValuePut R.remaining W.contents (ShortLength c) self.old self.new result }
    {
        let Some(n) = read_short_length(self.payload, self.column, J::UNIT)? else {
            return put_null(self.column, self.last, self.sink);
        };
        put_opening(self.column, J::QUOTED, self.sink)?;
        if n == 0 {
            let end = self.payload.place();
            return self.put_end(end);
        }
        self.push_data(n)?;
        let last_byte = self.payload.place() - 1;
        self.put_end(last_byte)
    }

    // Takes the chunks after `sum` bytes of data that lie whole in the packet and have room in the block, and puts their text.
    // Returns how many bytes of data they have. It reads nothing and delivers nothing.
    fn take_chunks(&mut self, total: Option<u64>, sum: u64) -> u64
        requires joining { IsJoining J.begins J.withheld self.old }
        requires few { sum ≤ self.old.payload.now.place }
        ensures leaves { LeavesValue self.old self.new (Ok result) }
        ensures begun { J.begins (J.withheld self.new.joiner.now) }
        ensures few { self.old.payload.now.place + result ≤ self.new.payload.now.place }
        ensures calm { failures_of self.new.payload.now self.new.sink.now ≡
            failures_of self.old.payload.now self.old.sink.now }
        ensures chunks { ChunksTaken J.fit J.begins J.rest J.text J.UNIT J.QUOTED J.withheld R.remaining W.contents total sum
            self.old self.new result }
    {
        let bytes = self.payload.buffered();
        if next_chunk(bytes, 0, total, sum) == 0 {
            return 0;
        }
        let waiting = self.sink.waiting() as usize;
        let room = self.sink.room();
        let run = write_chunks(self.joiner, bytes, total, sum, self.sink.spare(room - 1));
        self.payload.consume(run.span.used);
        self.sink.commit(waiting, run.span.made);
        run.data
    }

    // Reads the chunks and the terminator after a total, and puts the text of the data and its end.
    fn chunks(&mut self, total: Option<u64>) -> Result<(), Stop>
        requires { AwaitsValue J.begins (J.withheld self.old.joiner.now) J.UNIT self.old.payload.now self.old.sink.now }
        ensures leaves { LeavesValue self.old self.new result }
        ensures blames { BlamesDevices self.old self.new result }
        ensures field { (c : Conversion) → Suits J.fit J.begins J.rest J.text J.UNIT J.QUOTED c →
            ValuePut R.remaining W.contents (ChunkLength c total []) self.old self.new result }
    {
        let mut sum = self.take_chunks(total, 0);
        loop {
            let place = self.payload.place();
            let n = read_chunk_length(self.payload, self.column, J::UNIT, total, sum)?;
            if n == 0 {
                return self.put_end(place);
            }
            self.push_data(n)?;
            sum += n;
            if n > LONGEST_CHUNK {
                continue;
            }
            sum += self.take_chunks(total, sum);
        }
    }

    // Reads the value from its length or total on, and puts its field, and the end of the line if it is the last.
    fn read(&mut self, reach: Reach) -> Result<(), Stop>
        requires { AwaitsValue J.begins (J.withheld self.old.joiner.now) J.UNIT self.old.payload.now self.old.sink.now }
        ensures leaves { LeavesValue self.old self.new result }
        ensures blames { BlamesDevices self.old self.new result }
        ensures field { (c : Conversion) → Suits J.fit J.begins J.rest J.text J.UNIT J.QUOTED c →
            ValuePut R.remaining W.contents (long_start c reach) self.old self.new result }
    {
        match reach {
            Reach::Short => self.short(),
            Reach::Chunked => match read_total(self.payload, self.column, J::UNIT)? {
                Some(total) => {
                    put_opening(self.column, J::QUOTED, self.sink)?;
                    self.chunks(total)
                }
                None => put_null(self.column, self.last, self.sink),
            },
        }
    }
}

/// Reads a long value from its length or total on, and puts its field, and the end of the line if it is the last.
pub(crate) fn stream_long<J: Joiner, R: Read, W: Write>(
    payload: &mut Payload<R>,
    reach: Reach,
    column: u16,
    last: bool,
    joiner: &mut J,
    sink: &mut Sink<W>,
) -> Result<(), Stop>
    requires { AwaitsValue J.begins (J.withheld joiner.old) J.UNIT payload.old sink.old }
    ensures payload { LeavesPayload payload.old payload.new result }
    ensures sink { LeavesSink sink.old sink.new result }
    ensures blames { Blames (failures_of payload.old sink.old) (failures_of payload.new sink.new) result }
    ensures field { (c : Conversion) → Suits J.fit J.begins J.rest J.text J.UNIT J.QUOTED c →
        FieldPut R.remaining W.contents (long_start c reach) column last
        payload.old payload.new sink.old sink.new result }
{
    let mut value = LongValue {
        payload,
        column,
        last,
        joiner,
        sink,
    };
    value.read(reach)
}

/// Reads a long value from its length or total on, and puts its field, after a comma unless the column
/// is 0. The joiner withholds nothing, and gets the data in pieces of the packet: nothing is copied
/// into an area (MS-TDS, Data Stream Types).
///
/// [`Fault::OddText`] is at the length, the total or the terminator of data that isn't in whole units of
/// the joiner. [`Fault::PlpLength`] is at the length of the chunk that passes the total, or at the terminator
/// before it is reached. [`Fault::BadText`] is at the byte that begins no text. If the text isn't whole at the
/// end, it is at the last byte of a short value, or at the terminator. Any other stop is the payload's or the
/// sink's own. At a stop the text of the value so far is put: nothing before its length or total is accepted,
/// then the comma, the quote or `0x`, and the text of the whole characters. After a stop of the payload or the
/// sink the same stop is returned, and nothing changes.
pub fn stream_value<J: Joiner + Drop, R: Read, W: Write>(
    payload: &mut Payload<R>,
    reach: Reach,
    column: u16,
    mut joiner: J,
    sink: &mut Sink<W>,
) -> Result<(), Stop>
    requires sound { IsSound payload.old }
    requires ready { IsReady sink.old }
    requires none { J.withheld joiner ≡ [] }
    ensures payload { LeavesPayload payload.old payload.new result }
    ensures sink { LeavesSink sink.old sink.new result }
    ensures blames { payload.old.stopped ≡ None → sink.old.failed ≡ false →
        Blames (failures_of payload.old sink.old) (failures_of payload.new sink.new) result }
    ensures field { payload.old.stopped ≡ None → sink.old.failed ≡ false → (c : Conversion) →
        Suits J.fit J.begins J.rest J.text J.UNIT J.QUOTED c →
        FieldPut R.remaining W.contents (long_start c reach) column false
        payload.old payload.new sink.old sink.new result }
    ensures succeeds { payload.old.stopped ≡ None → sink.old.failed ≡ false → (c : Conversion) →
        Suits J.fit J.begins J.rest J.text J.UNIT J.QUOTED c → (kind : Kind) (value : Cell) (bytes more : List ℕ) →
        SpellsCell kind (LongShape c reach) value bytes →
        SucceedsOn R.remaining payload.old payload.new sink.old sink.new result (bytes ++ more) }
    ensures again { StopsAgain W.contents payload.old payload.new sink.old sink.new result }
{
    if let Some(stop) = earlier_stop(payload, sink) {
        return Err(stop);
    }
    J::laws();
    stream_long(payload, reach, column, false, &mut joiner, sink)
}
