// Text in UTF-8 that comes in pieces.
ghost use Rattle.std.specs.Prelude.{◌≤◌, [], true, length, IfOk};
ghost use Rattle.tds_text.specs.Joining.{emit};
ghost use Rattle.tds_csv.specs.Pushing.{CanTake, PushesPiece};
ghost use Rattle.tds_csv.specs.Sinks.{IsWriting, PutsPiece};
ghost use Rattle.tds_text.specs.Utf8 as utf8;
ghost use Rattle.tds_text.specs.Utf8Scan.{IsScan};

use crate::joiners::parts::put_text;
use crate::joiners::run::Run;
use crate::joiners::{JoinFault, Joiner};
use crate::sink::Sink;
use std::io::Write;
use tds_packet::Stop;
use tds_text::QuoteEscaped;
use tds_text::utf8::{Scan, convert_begun, scan_text};

/// Text in UTF-8.
#[derive(Drop)]
pub struct Utf8Joiner {
    kept: Run<3>,
}

// Puts the whole characters of bytes.
fn put_whole<W: Write>(bytes: &[u8], sink: &mut Sink<'_, W>) -> Result<Scan, Stop>
    requires { IsWriting sink.old }
    ensures puts { PutsPiece W.contents sink.old sink.new (emit utf8.rest utf8.text bytes.now) result }
    ensures scanned { IfOk result (λ scan. IsScan bytes.now scan.whole scan.good) }
{
    let scan = scan_text(bytes);
    put_text::<QuoteEscaped, W>(&bytes[..scan.whole], sink)?;
    Ok(scan)
}

impl Utf8Joiner {
    // Takes a piece as if nothing were withheld.
    fn take_text<W: Write>(&mut self, bytes: &[u8], sink: &mut Sink<'_, W>) -> Result<(), JoinFault>
        requires { CanTake utf8.Begins self.old.kept sink.old }
        ensures { PushesPiece W.contents utf8.Begins utf8.rest utf8.text [] self.new.kept
            sink.old sink.new bytes.now result }
    {
        let scan = put_whole(bytes, sink)?;
        self.kept.set(&bytes[scan.whole..scan.good]);
        if scan.good < bytes.len() {
            return Err(JoinFault::BadText(scan.good));
        }
        Ok(())
    }

    // Takes a piece of at most three bytes.
    fn push_short<W: Write>(
        &mut self,
        piece: &[u8],
        sink: &mut Sink<'_, W>,
    ) -> Result<(), JoinFault>
        requires taking { CanTake utf8.Begins self.old.kept sink.old }
        requires short { length piece.now ≤ 3 }
        ensures { PushesPiece W.contents utf8.Begins utf8.rest utf8.text self.old.kept self.new.kept
            sink.old sink.new piece.now result }
    {
        let seam = self.kept.followed_by(piece);
        let kept = self.kept.bytes().len();
        match self.take_text(seam.bytes(), sink) {
            Ok(()) => Ok(()),
            Err(JoinFault::BadText(good)) => Err(JoinFault::BadText(good - kept)),
            Err(JoinFault::Stopped(stop)) => Err(JoinFault::Stopped(stop)),
            Err(JoinFault::Odd) => unreachable!(),
        }
    }

    // Takes a piece of three bytes or more.
    fn push_long<W: Write>(&mut self, piece: &[u8], sink: &mut Sink<'_, W>) -> Result<(), JoinFault>
        requires taking { CanTake utf8.Begins self.old.kept sink.old }
        requires long { 3 ≤ length piece.now }
        ensures { PushesPiece W.contents utf8.Begins utf8.rest utf8.text self.old.kept self.new.kept
            sink.old sink.new piece.now result }
    {
        self.push_short(&piece[..3], sink)?;
        let at = 3 - self.kept.bytes().len();
        match self.take_text(&piece[at..], sink) {
            Ok(()) => Ok(()),
            Err(JoinFault::BadText(good)) => Err(JoinFault::BadText(at + good)),
            Err(JoinFault::Stopped(stop)) => Err(JoinFault::Stopped(stop)),
            Err(JoinFault::Odd) => unreachable!(),
        }
    }
}

impl Joiner for Utf8Joiner {
    const UNIT: u64 = 1;

    ghost UNIT = { 1 };

    const QUOTED: bool = true;

    ghost QUOTED = { true };

    ghost fit = { utf8.IsFit };

    ghost begins = { utf8.Begins };

    ghost rest = { utf8.rest };

    ghost text = { utf8.text };

    ghost withheld = { λ j. j.kept };

    fn new() -> Self {
        Utf8Joiner { kept: Run::new() }
    }

    fn push<W: Write>(&mut self, piece: &[u8], sink: &mut Sink<'_, W>) -> Result<(), JoinFault> {
        sink.check()?;
        if piece.len() < 3 {
            return self.push_short(piece, sink);
        }
        self.push_long(piece, sink)
    }

    fn write(&mut self, piece: &[u8], source: &[u8], to: &mut [u8]) -> Option<usize> {
        if !self.kept.bytes().is_empty() {
            return None;
        }
        let done = convert_begun(piece, source, to)?;
        self.kept.set(&piece[done.used..]);
        Some(done.made)
    }

    fn end<W: Write>(&mut self, sink: &mut Sink<'_, W>) -> Result<(), JoinFault> {
        sink.check()?;
        if str::from_utf8(self.kept.bytes()).is_err() {
            return Err(JoinFault::BadText(0));
        }
        put_text::<QuoteEscaped, W>(self.kept.bytes(), sink)?;
        self.kept.clear();
        Ok(())
    }

    #[tactic(auto, using(tds_text::proofs::Utf8Laws::joins_utf8))]
    fn laws() {}
}
