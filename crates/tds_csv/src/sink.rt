// Text on its way to a writer.
ghost use Rattle.std.specs.Borrow.{sem};
ghost use Rattle.std.specs.Prelude.{◌≡◌, ◌+◌, ◌-◌, ◌<◌, ◌≤◌, [], ◌∷◌, codes, if◌then◌else◌, length, true, Err, None, Ok, Some};
ghost use Rattle.tds_text.specs.Conversion.{closing};
ghost use Rattle.tds_text.specs.Quoting.{binary_mark, line_end, null_field, quote};
ghost use Rattle.tds_csv.specs.Sinks.{Delivers, FinishesSink, IsReady, IsWriting, PutsPiece, fresh, held, stop_of};
ghost use Rattle.tds_csv.specs.Spare.{CommitsPiece, IsLent, KeepsPiece, LendsSpare};

use std::io::Write;
use tds_meter::{Area, OUTPUT_ROOM};
use tds_packet::{Counted, Fault, Place, Stop};
use tds_text::framing::{BINARY_MARK, COMMA, LINE_END, NULL, QUOTE, write_line_end};

/// Text on its way to a writer. What is put waits in the output area, which is delivered whole each
/// time that it holds 4,096 bytes. After [`Fault::WriteFailed`] each call returns the same stop.
#[derive(Drop)]
pub struct Sink<'a, W> {
    to: &'a mut Counted<W>,
    output: &'a mut Area,
    delivered: u64,
    failed: bool,
}

impl<'a, W: Write> Sink<'a, W> {
    /// Creates a sink on a writer. The area has room for 4,096 bytes or more, and is emptied.
    pub fn new(to: &'a mut Counted<W>, output: &'a mut Area) -> Sink<'a, W>
        requires { OUTPUT_ROOM ≤ output.old.room }
        ensures writing { IsWriting result }
        ensures to { result.to.ghost_name ≡ to.entry.ghost_name }
        ensures output { result.output.ghost_name ≡ output.entry.ghost_name }
        ensures room { result.output.now.room ≡ output.old.room }
        ensures held { held W.contents result ≡ fresh (W.contents to.old.device) to.old.failures }
    {
        output.clear();
        Sink {
            to,
            output,
            delivered: 0,
            failed: false,
        }
    }

    /// How many bytes the writer took. The count stops at 18,446,744,073,709,551,615.
    pub fn delivered(&self) -> u64
        ensures { result ≡ self.now.delivered }
    {
        self.delivered
    }

    /// How many bytes wait.
    pub fn waiting(&self) -> u64
        ensures { result ≡ length self.now.output.now.bytes }
    {
        self.output.bytes().len() as u64
    }

    /// The stop of a write or flush that failed.
    pub fn failure(&self) -> Option<Stop>
        ensures { result ≡ (if self.now.failed then Some (stop_of (held W.contents self.now)) else None) }
    {
        if self.failed {
            return Some(self.stop());
        }
        None
    }

    // Returns the stop of a write or flush, if one failed.
    pub(crate) fn check(&self) -> Result<(), Stop>
        ensures { result ≡ (if self.now.failed then Err (stop_of (held W.contents self.now)) else Ok tt) }
    {
        match self.failure() {
            Some(stop) => Err(stop),
            None => Ok(()),
        }
    }

    // The stop of a write or flush that fails after the bytes that were delivered.
    fn stop(&self) -> Stop
        ensures { result ≡ stop_of (held W.contents self.now) }
    {
        Stop {
            fault: Fault::WriteFailed,
            place: Place::Text(self.delivered),
        }
    }

    // Delivers what waits.
    fn deliver(&mut self) -> Result<(), Stop>
        requires { IsLent self.old }
        ensures { Delivers W.contents self.old self.new result }
    {
        match self.to.deliver(self.output.bytes()) {
            Ok(()) => {
                self.delivered = self.delivered.saturating_add(self.output.len() as u64);
                self.output.clear();
                Ok(())
            }
            Err(taken) => {
                self.delivered = self.delivered.saturating_add(taken as u64);
                self.output.drop_front(taken);
                self.failed = true;
                Err(self.stop())
            }
        }
    }

    // Adds a piece for which there is room, and delivers a full chunk.
    #[tactic(auto, using(crate::proofs::Sinks::block_going, std::proofs::lemmas::Grind::common_steps))]
    fn push(&mut self, part: &[u8]) -> Result<(), Stop>
        requires writing { IsWriting self.old }
        requires fits { length self.old.output.now.bytes + length part.now ≤ OUTPUT_ROOM }
        ensures { PutsPiece W.contents self.old self.new part.now result }
    {
        let Ok(()) = self.output.append(part) else {
            unreachable!()
        };
        if self.output.len() == OUTPUT_ROOM {
            return self.deliver();
        }
        Ok(())
    }

    /// Adds a piece to the text. If a write fails, a beginning of the piece is added.
    pub fn put(&mut self, piece: &[u8]) -> Result<(), Stop>
        requires { IsReady self.old }
        ensures { PutsPiece W.contents self.old self.new piece.now result }
    {
        self.check()?;
        let mut taken = 0;
        while taken < piece.len() {
            let n = (piece.len() - taken).min(OUTPUT_ROOM - self.output.len());
            self.push(&piece[taken..taken + n])?;
            taken += n;
        }
        Ok(())
    }

    /// Puts a field that is NULL.
    pub fn null(&mut self) -> Result<(), Stop>
        requires { IsReady self.old }
        ensures { PutsPiece W.contents self.old self.new null_field result }
    {
        self.put(&NULL)
    }

    /// Puts the text of a scalar field.
    pub fn plain(&mut self, field: &[u8]) -> Result<(), Stop>
        requires { IsReady self.old }
        ensures { PutsPiece W.contents self.old self.new field.now result }
    {
        self.put(field)
    }

    /// Puts the quote before a field of characters.
    pub fn open_quoted(&mut self) -> Result<(), Stop>
        requires { IsReady self.old }
        ensures { PutsPiece W.contents self.old self.new (quote ∷ []) result }
    {
        self.put(&[QUOTE])
    }

    /// Puts the quote after a field of characters.
    pub fn close_quoted(&mut self) -> Result<(), Stop>
        requires { IsReady self.old }
        ensures { PutsPiece W.contents self.old self.new (closing true) result }
    {
        self.put(&[QUOTE])
    }

    /// Puts the mark before the digits of a binary field.
    pub fn open_binary(&mut self) -> Result<(), Stop>
        requires { IsReady self.old }
        ensures { PutsPiece W.contents self.old self.new binary_mark result }
    {
        self.put(&BINARY_MARK)
    }

    /// Puts the comma between two fields.
    pub fn comma(&mut self) -> Result<(), Stop>
        requires { IsReady self.old }
        ensures { PutsPiece W.contents self.old self.new (codes ",") result }
    {
        self.put(&[COMMA])
    }

    /// Puts the end of a line.
    pub fn line_end(&mut self) -> Result<(), Stop>
        requires { IsReady self.old }
        ensures { PutsPiece W.contents self.old self.new line_end result }
    {
        if self.failed || self.room() < LINE_END.len() {
            return self.put(&LINE_END);
        }
        let waiting = self.output.len();
        let made = write_line_end(true, 0, self.spare(LINE_END.len()));
        self.keep(waiting, made)
    }

    /// How many bytes may be put before the next delivery is due.
    pub fn room(&self) -> usize
        ensures { result ≡ OUTPUT_ROOM - length self.now.output.now.bytes }
    {
        OUTPUT_ROOM.saturating_sub(self.output.len())
    }

    /// Lends `n` bytes of room after the bytes that wait, to be written and then kept by [`Sink::keep`].
    /// Its bytes aren't promised before that: they are old ones of the output area, or the zeros that the
    /// area was made with.
    pub fn spare(&mut self, n: usize) -> &mut [u8]
        requires writing { IsWriting self.old }
        requires fits { length self.old.output.now.bytes + n ≤ OUTPUT_ROOM }
        ensures* lends { sem 𝓛 (LendsSpare W.row self.entry result) }
        ensures value { length result.now ≡ n }
    {
        self.output.grow_within(n)
    }

    /// Puts the first `made` bytes of the room that [`Sink::spare`] lent after `waiting` bytes, and takes
    /// the others away. They fill no block, so nothing is delivered.
    pub fn commit(&mut self, waiting: usize, made: usize)
        requires lent { IsLent self.old }
        requires room { waiting + made < OUTPUT_ROOM }
        requires within { waiting + made ≤ length self.old.output.now.bytes }
        ensures { CommitsPiece W.contents self.old self.new waiting made }
    {
        self.output.truncate(waiting + made);
    }

    /// Puts those bytes as [`Sink::commit`] does, and delivers the block if they fill it.
    pub fn keep(&mut self, waiting: usize, made: usize) -> Result<(), Stop>
        requires lent { IsLent self.old }
        requires room { waiting + made ≤ OUTPUT_ROOM }
        requires within { waiting + made ≤ length self.old.output.now.bytes }
        ensures { KeepsPiece W.contents self.old self.new waiting made result }
    {
        if waiting + made < OUTPUT_ROOM {
            self.commit(waiting, made);
            return Ok(());
        }
        self.output.truncate(OUTPUT_ROOM);
        self.deliver()
    }

    /// Delivers what waits and flushes the writer. After a failed write what the writer didn't take waits;
    /// after a failed flush nothing does.
    pub fn finish(&mut self) -> Result<(), Stop>
        requires { IsReady self.old }
        ensures { FinishesSink W.contents self.old self.new result }
    {
        self.check()?;
        self.deliver()?;
        if self.to.flush() {
            return Ok(());
        }
        self.failed = true;
        Err(self.stop())
    }
}
