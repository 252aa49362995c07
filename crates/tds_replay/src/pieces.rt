// The pieces of the lines on standard error, which are gathered to be written at once.
ghost use Rattle.tds_replay.specs.Lines.{byte_text, piece_text, text_of};
ghost use Rattle.tds_replay.specs.Saying.{Gathers, Says};

use arrayvec::ArrayVec;
use itoa::Buffer;
use std::io::Write;
use tds_packet::Counted;

/// A piece of a line: a text, and what comes after it.
#[derive(Clone, Copy)]
pub(crate) enum Piece<'a> {
    /// Nothing more.
    Text(&'a [u8]),
    /// A number in decimal.
    Number(&'a [u8], u64),
    /// A number in decimal, with its sign if it is negative.
    Signed(&'a [u8], i32),
    /// A byte as `0x` and two lower-case hexadecimal digits.
    Byte(&'a [u8], u8),
}

/// A write failed, which its device counted.
#[derive(Debug, Clone, Copy)]
pub struct NoteFailed;

/// Writes bytes.
pub(crate) fn put<W: Write>(notes: &mut Counted<W>, bytes: &[u8]) -> Result<(), NoteFailed>
    ensures { Says W.contents notes.old notes.new bytes.now result }
{
    match notes.deliver(bytes) {
        Ok(()) => Ok(()),
        Err(_) => Err(NoteFailed),
    }
}

/// How many bytes of lines are gathered at most before they are written. The lines of a response are shorter.
const GATHERED_ROOM: usize = 1_024;

/// Text that was gathered and isn't written yet.
pub(crate) type Gathered = ArrayVec<u8, GATHERED_ROOM>;

// Gathers bytes. If there is no room for them, what was gathered is written first.
fn gather<W: Write>(
    notes: &mut Counted<W>,
    gathered: &mut Gathered,
    bytes: &[u8],
) -> Result<(), NoteFailed>
    ensures { Gathers W.contents notes.old notes.new gathered.old.items gathered.new.items bytes.now result }
{
    if gathered.try_extend_from_slice(bytes).is_ok() {
        return Ok(());
    }
    put(notes, gathered.as_slice())?;
    gathered.clear();
    if gathered.try_extend_from_slice(bytes).is_ok() {
        return Ok(());
    }
    put(notes, bytes)
}

// Gathers a byte as `0x` and two digits.
fn gather_byte<W: Write>(
    notes: &mut Counted<W>,
    gathered: &mut Gathered,
    byte: u8,
) -> Result<(), NoteFailed>
    ensures { Gathers W.contents notes.old notes.new gathered.old.items gathered.new.items (byte_text byte) result }
{
    let mut text = *b"0x00";
    match hex::encode_to_slice([byte], &mut text[2..]) {
        Ok(()) => gather(notes, gathered, &text),
        Err(_) => unreachable!(),
    }
}

// Gathers a piece.
fn gather_piece<W: Write>(
    notes: &mut Counted<W>,
    gathered: &mut Gathered,
    piece: &Piece,
) -> Result<(), NoteFailed>
    ensures { Gathers W.contents notes.old notes.new gathered.old.items gathered.new.items
        (piece_text piece.now) result }
{
    match *piece {
        Piece::Text(text) => gather(notes, gathered, text),
        Piece::Number(text, n) => {
            gather(notes, gathered, text)?;
            gather(notes, gathered, Buffer::new().format(n).as_bytes())
        }
        Piece::Signed(text, n) => {
            gather(notes, gathered, text)?;
            gather(notes, gathered, Buffer::new().format(n).as_bytes())
        }
        Piece::Byte(text, byte) => {
            gather(notes, gathered, text)?;
            gather_byte(notes, gathered, byte)
        }
    }
}

/// Gathers pieces, one after the other, until a write fails.
pub(crate) fn gather_all<W: Write>(
    notes: &mut Counted<W>,
    gathered: &mut Gathered,
    pieces: &[Piece],
) -> Result<(), NoteFailed>
    ensures { Gathers W.contents notes.old notes.new gathered.old.items gathered.new.items (text_of pieces.now) result }
{
    'pieces: for piece in pieces {
        gather_piece(notes, gathered, piece)?;
    }
    Ok(())
}

/// Writes pieces, one after the other and mostly at once.
pub(crate) fn say<W: Write>(notes: &mut Counted<W>, pieces: &[Piece]) -> Result<(), NoteFailed>
    ensures { Says W.contents notes.old notes.new (text_of pieces.now) result }
{
    let mut gathered = Gathered::new();
    gather_all(notes, &mut gathered, pieces)?;
    put(notes, gathered.as_slice())
}
