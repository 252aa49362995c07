// Data in which each byte has a text of its own, in pieces.
use crate::joiners::parts::put_text;
use crate::joiners::{JoinFault, Joiner};
use crate::sink::Sink;
use std::io::Write;
use std::marker::PhantomData;
use tds_text::{Bytewise, Hex, Windows1252};

/// A joiner of data in which each byte has a text of its own. It withholds nothing.
#[derive(Drop)]
pub struct BytewiseJoiner<C, const IN_QUOTES: bool> {
    conversion: PhantomData<C>,
}

/// Bytes as hexadecimal digits.
pub type HexJoiner = BytewiseJoiner<Hex, false>;

/// Text in Windows-1252.
pub type Cp1252Joiner = BytewiseJoiner<Windows1252, true>;

impl<C: Bytewise, const IN_QUOTES: bool> Joiner for BytewiseJoiner<C, IN_QUOTES> {
    const UNIT: u64 = 1;

    ghost UNIT = { 1 };

    const QUOTED: bool = IN_QUOTES;

    ghost QUOTED = { IN_QUOTES };

    ghost text = { C.text };

    fn new() -> Self {
        BytewiseJoiner {
            conversion: PhantomData,
        }
    }

    fn push<W: Write>(&mut self, piece: &[u8], sink: &mut Sink<'_, W>) -> Result<(), JoinFault> {
        sink.check()?;
        put_text::<C, W>(piece, sink)?;
        Ok(())
    }

    fn write(&mut self, piece: &[u8], source: &[u8], to: &mut [u8]) -> Option<usize> {
        C::laws();
        Some(C::convert(piece, source, to))
    }

    fn end<W: Write>(&mut self, sink: &mut Sink<'_, W>) -> Result<(), JoinFault> {
        C::laws();
        Ok(sink.check()?)
    }

    fn laws() {
        C::laws();
    }
}
