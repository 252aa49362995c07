// Text in UTF-16 that comes in pieces.
ghost use Rattle.std.specs.Prelude.{◌≡◌, ℕ, List, ◌+◌, ◌-◌, ◌*◌, ◌%◌, ◌<◌, ◌≤◌, ◌++◌, true, length, drop, IfOk, Ok, ⊤};
ghost use Rattle.tds_text.specs.Joining.{Leads, emit};
ghost use Rattle.tds_text.specs.Plain.{LiesIn};
ghost use Rattle.tds_csv.specs.Pushing.{PushesPiece};
ghost use Rattle.tds_csv.specs.Sinks.{IsWriting, PutsPiece};
ghost use Rattle.tds_text.specs.Utf16 as utf16;
ghost use Rattle.tds_text.specs.Utf16Next.{LeavesRest, seam};

use crate::joiners::run::Run;
use crate::joiners::{CHUNK, JoinFault, Joiner};
use crate::sink::Sink;
use std::io::Write;
use tds_packet::Stop;
use tds_text::lanes::LANES;
use tds_text::utf16::{character_at, convert, convert_ascii};

/// How many bytes the text of a chunk has at most, and as many as are written at once.
const TEXT: usize = 3 * CHUNK / 2 + LANES;

// The least room in which characters of ASCII are tried at the front of a piece whose text may want more.
const MUCH_ROOM: usize = 256;

/// Text in UTF-16, low byte first.
#[derive(Drop)]
pub struct Utf16Joiner {
    kept: Run<3>,
}

// Returns how many units, each of which has at most three bytes of text, are converted at a time with
// `room` bytes of room: those whose text surely fits, or at least `least`.
fn units_within(room: usize, least: usize) -> usize
    ensures some { least ≤ result }
    ensures fits { least < result → 3 * result + LANES ≤ room }
{
    (room.saturating_sub(LANES) / 3).max(least)
}

// Puts the text of the characters that are fixed, of a chunk or of as many bytes as the sink has room for.
// Returns how many bytes those characters have.
fn put_chunk<W: Write>(bytes: &[u8], source: &[u8], sink: &mut Sink<'_, W>) -> Result<usize, Stop>
    requires writing { IsWriting sink.old }
    requires source { LiesIn bytes.now source.now }
    requires short { CHUNK < length bytes.now →
        3 * length bytes.now + 2 * LANES ≤ 2 * (4096 - length sink.old.output.now.bytes) }
    ensures puts { PutsPiece W.contents sink.old sink.new (emit utf16.rest utf16.text bytes.now) result }
    ensures used { IfOk result (λ used. LeavesRest bytes.now 0 used) }
{
    let most = bytes.len() + bytes.len().div_ceil(2) + LANES;
    if sink.room() >= most {
        let waiting = sink.waiting() as usize;
        let done = convert(bytes, source, sink.spare(most));
        return match sink.keep(waiting, done.made) {
            Ok(()) => Ok(done.used),
            Err(stop) => Err(stop),
        };
    }
    let mut to = [0; TEXT];
    let done = convert(bytes, source, &mut to[..]);
    sink.put(&to[..done.made])?;
    Ok(done.used)
}

// Puts the text of the first units of a piece whose text may want more room than the block has, as long as they are characters of
// ASCII and no quotes and have room, and returns how many bytes they have. It delivers nothing, and puts none unless they are `likely`.
fn put_plain<W: Write>(bytes: &[u8], likely: bool, sink: &mut Sink<'_, W>) -> usize
    requires { IsWriting sink.old }
    ensures within { result ≤ length bytes.now }
    ensures puts { (put : List ℕ) × PutsPiece {U = Unit {0}} W.contents sink.old sink.new put (Ok tt)
        × Leads utf16.rest utf16.text bytes.now (drop result bytes.now) put }
{
    if sink.room() < MUCH_ROOM || bytes.len() + bytes.len() / 2 + LANES < sink.room() || !likely {
        return 0;
    }
    let waiting = sink.waiting() as usize;
    let room = sink.room() - 1;
    let end = bytes.len().min(2 * room);
    let done = convert_ascii(bytes, 0, end, sink.spare(room), 0);
    sink.commit(waiting, done.made);
    done.used
}

// Puts the text of the bytes from a place on as far as it is fixed, and returns where the rest begins.
fn put_from<W: Write>(bytes: &[u8], from: usize, sink: &mut Sink<'_, W>) -> Result<usize, Stop>
    requires writing { IsWriting sink.old }
    requires from { from ≤ length bytes.now }
    ensures puts { PutsPiece W.contents sink.old sink.new (emit utf16.rest utf16.text (drop from bytes.now)) result }
    ensures used { IfOk result (λ at. LeavesRest bytes.now from at) }
{
    let mut at = from;
    let mut likely = true;
    loop {
        let plain = put_plain(&bytes[at..], likely, sink);
        likely = plain > 0;
        at += plain;
        let units = units_within(sink.room(), CHUNK / 2);
        let end = bytes.len().min(at + 2 * units);
        at += put_chunk(&bytes[at..end], &bytes[at..], sink)?;
        if end == bytes.len() {
            return Ok(at);
        }
    }
}

// The text of the withheld bytes, which are whole.
fn last_text(kept: &[u8]) -> Run<4>
    requires short { length kept.now ≤ 3 }
    requires whole { length kept.now % 2 ≡ 0 }
    ensures { result ≡ utf16.text kept.now }
{
    let mut run = Run::new();
    if kept.len() == 2 {
        run.push_quoted(character_at(kept, 0).code);
    }
    run
}

impl Utf16Joiner {
    // Puts the text of the withheld bytes with three bytes of the piece, if any are withheld, and
    // returns where the text of the piece goes on.
    #[tactic(auto, using(std::proofs::lemmas::List::nil_from_length, tds_text::proofs::Utf16Steps::none_leads))]
    fn put_withheld<W: Write>(&self, piece: &[u8], sink: &mut Sink<'_, W>) -> Result<usize, Stop>
        requires writing { IsWriting sink.old }
        requires long { 3 ≤ length piece.now }
        ensures puts { let put = emit utf16.rest utf16.text (seam self.now.kept piece.now) in
            PutsPiece W.contents sink.old sink.new put result }
        ensures leads { let put = emit utf16.rest utf16.text (seam self.now.kept piece.now) in
            IfOk result (λ from. Leads utf16.rest utf16.text (self.now.kept ++ piece.now) (drop from piece.now) put) }
        ensures within { IfOk result (λ from. from ≤ 3) }
    {
        let kept = self.kept.bytes();
        if kept.is_empty() {
            return Ok(0);
        }
        let seam = self.kept.followed_by(&piece[..3]);
        let used = put_chunk(seam.bytes(), seam.bytes(), sink)?;
        Ok(used - kept.len())
    }

    // Takes a piece of three bytes or more.
    fn push_long<W: Write>(&mut self, piece: &[u8], sink: &mut Sink<'_, W>) -> Result<(), JoinFault>
        requires writing { IsWriting sink.old }
        requires long { 3 ≤ length piece.now }
        ensures { PushesPiece W.contents (λ _. ⊤) utf16.rest utf16.text self.old.kept self.new.kept
            sink.old sink.new piece.now result }
    {
        let from = self.put_withheld(piece, sink)?;
        let at = put_from(piece, from, sink)?;
        self.kept.set(&piece[at..]);
        Ok(())
    }

    // Takes a piece of at most three bytes.
    #[tactic(auto, using(std::proofs::lemmas::Grind::common_steps))]
    fn push_short<W: Write>(
        &mut self,
        piece: &[u8],
        sink: &mut Sink<'_, W>,
    ) -> Result<(), JoinFault>
        requires writing { IsWriting sink.old }
        requires short { length piece.now ≤ 3 }
        ensures { PushesPiece W.contents (λ _. ⊤) utf16.rest utf16.text self.old.kept self.new.kept
            sink.old sink.new piece.now result }
    {
        let seam = self.kept.followed_by(piece);
        let used = put_chunk(seam.bytes(), seam.bytes(), sink)?;
        self.kept.set(&seam.bytes()[used..]);
        Ok(())
    }
}

impl Joiner for Utf16Joiner {
    const UNIT: u64 = 2;

    ghost UNIT = { 2 };

    const QUOTED: bool = true;

    ghost QUOTED = { true };

    ghost fit = { utf16.IsFit };

    ghost rest = { utf16.rest };

    ghost text = { utf16.text };

    ghost withheld = { λ j. j.kept };

    fn new() -> Self {
        Utf16Joiner { kept: Run::new() }
    }

    fn push<W: Write>(&mut self, piece: &[u8], sink: &mut Sink<'_, W>) -> Result<(), JoinFault> {
        sink.check()?;
        if piece.len() < 3 {
            return self.push_short(piece, sink);
        }
        self.push_long(piece, sink)
    }

    fn write(&mut self, piece: &[u8], source: &[u8], to: &mut [u8]) -> Option<usize> {
        if !self.kept.bytes().is_empty() {
            return None;
        }
        let done = convert(piece, source, to);
        self.kept.set(&piece[done.used..]);
        Some(done.made)
    }

    fn end<W: Write>(&mut self, sink: &mut Sink<'_, W>) -> Result<(), JoinFault> {
        sink.check()?;
        if self.kept.bytes().is_empty() {
            return Ok(());
        }
        if self.kept.bytes().len() % 2 == 1 {
            return Err(JoinFault::Odd);
        }
        let last = last_text(self.kept.bytes());
        sink.put(last.bytes())?;
        self.kept.clear();
        Ok(())
    }

    #[tactic(auto, using(tds_text::proofs::Utf16Laws::joins_utf16))]
    fn laws() {}
}
