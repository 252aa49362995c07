// Conversions whose data comes in pieces.
ghost use Rattle.std.specs.Prelude.{◌≡◌, ◌+◌, ◌*◌, ◌<◌, ◌≤◌, ◌%◌, ℕ, Bool, List, [], length, ⊤};
ghost use Rattle.tds_text.specs.Joining.{JoinsPieces};
ghost use Rattle.tds_text.specs.Plain.{LiesIn};
ghost use Rattle.tds_csv.specs.Pushing.{AddedWritten, EndsPieces, PushesPiece};
ghost use Rattle.tds_csv.specs.Sinks.{IsReady};
ghost use Rattle.tds_csv.specs.declared.joiners.JoinFault.TheVariants.{Stopped};

pub(crate) mod bytewise;
pub(crate) mod into_area;
pub(crate) mod parts;
pub(crate) mod run;
pub(crate) mod utf16;
pub(crate) mod utf8;

use crate::sink::Sink;
use std::io::Write;
use tds_packet::Stop;

/// How many bytes are converted at a time if the sink has little room.
pub(crate) const CHUNK: usize = 128;

/// Why a joiner stopped.
#[derive(Debug, Clone, Copy, PartialEq, Eq)]
pub enum JoinFault {
    /// The sink stopped. What is withheld then isn't fixed, but some data begins so.
    Stopped(Stop),
    /// An odd byte is withheld at the end. Nothing was put, and it stays withheld.
    Odd,
    /// That many bytes of the piece are good, and were taken. At the end it is 0: the withheld bytes
    /// aren't whole, nothing was put, and they stay withheld.
    BadText(usize),
}

impl From<Stop> for JoinFault {
    ghost from_gives = { λ stop fault. fault ≡ Stopped stop };

    fn from(stop: Stop) -> JoinFault {
        JoinFault::Stopped(stop)
    }
}

/// A conversion of data that comes in pieces. It withholds the bytes whose text depends on what follows. By default it
/// withholds none and takes any data as whole.
pub trait Joiner: Sized {
    /// How many bytes a unit of the data has.
    const UNIT: u64;

    ghost UNIT: { ℕ };

    /// The field is in quotes.
    const QUOTED: bool;

    ghost QUOTED: { Bool };

    /// The data is whole.
    ghost fit: { List ℕ → Type 0 } = { λ _. ⊤ };

    /// Some whole data begins so.
    ghost begins: { List ℕ → Type 0 } = { λ _. ⊤ };

    /// The bytes at the end whose text depends on what follows.
    ghost rest: { List ℕ → List ℕ } = { λ _. [] };

    /// The text of whole data.
    ghost text: { List ℕ → List ℕ };

    /// The bytes that are withheld.
    ghost withheld: { Self → List ℕ } = { λ _. [] };

    /// Creates a joiner that withholds nothing.
    fn new() -> Self
        ensures withheld { withheld result ≡ [] }
        ensures begun { begins (withheld result) };

    /// Puts the text of the withheld bytes followed by the piece, and withholds the rest, at most 3
    /// bytes. After a stop of the sink each call returns the same stop.
    fn push<W: Write>(&mut self, piece: &[u8], sink: &mut Sink<'_, W>) -> Result<(), JoinFault>
        requires ready { IsReady sink.old }
        requires begun { begins (withheld self.old) }
        ensures { PushesPiece W.contents begins rest text (withheld self.old) (withheld self.new)
            sink.old sink.new piece.now result };

    /// Writes what [`push`](Joiner::push) puts of a piece to the front of a slice if nothing is withheld, withholds the rest, and
    /// returns how long the text is. What follows the piece in the source may be looked at. `None` if bytes are withheld, or if
    /// the piece has a bad one: what is withheld stays then, and the slice may hold any text.
    fn write(&mut self, piece: &[u8], source: &[u8], to: &mut [u8]) -> Option<usize>
        requires begun { begins (withheld self.old) }
        requires source { LiesIn piece.now source.now }
        requires room { 3 * length piece.now + 16 ≤ length to.old }
        ensures begun { begins (withheld self.new) }
        ensures written { AddedWritten begins rest text (withheld self.old) (withheld self.new)
            piece.now to.new result };

    /// Puts the text of the withheld bytes, which are whole.
    fn end<W: Write>(&mut self, sink: &mut Sink<'_, W>) -> Result<(), JoinFault>
        requires { IsReady sink.old }
        ensures { EndsPieces W.contents UNIT fit begins text (withheld self.old) (withheld self.new)
            sink.old sink.new result };

    /// Does nothing: its clauses are the laws of the words above.
    fn laws()
        ensures joins { JoinsPieces fit begins rest text }
        ensures none_begins { begins [] }
        ensures some_unit { 0 < UNIT }
        ensures whole_units { (bytes : List ℕ) → fit bytes → length bytes % UNIT ≡ 0 };
}
