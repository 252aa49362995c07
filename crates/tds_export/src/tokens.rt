// The tokens of a response by their first bytes.
ghost use Rattle.std.specs.Prelude.{MatchResult};
ghost use Rattle.tds_export.specs.Steps.{ByteRead, IsOfKind, IsRefusedByte};
ghost use Rattle.tds_packet.specs.Payloads.{IsGoing, LeavesPayload};

use crate::token_bytes::{
    COLMETADATA, DONE, DONEINPROC, DONEPROC, ENVCHANGE, ERROR, INFO, NBCROW, ORDER, RETURNSTATUS,
    RETURNVALUE, ROW,
};
use std::io::Read;
use tds_packet::{Fault, Payload, Stop};

/// The tokens.
#[derive(Debug, Clone, Copy)]
pub(crate) enum TokenKind {
    Metadata,
    Row,
    NbcRow,
    Done,
    DoneInProc,
    ReturnStatus,
    Order,
    EnvChange,
    Error,
    Info,
    ReturnValue,
}

/// The kind of a token by its first byte and whether columns are described, or why it is none.
pub(crate) fn judge_token(byte: u8, described: bool) -> Result<TokenKind, Fault>
    ensures { MatchResult result (IsOfKind described byte) (IsRefusedByte described byte) }
{
    match byte {
        COLMETADATA => Ok(TokenKind::Metadata),
        ROW if described => Ok(TokenKind::Row),
        NBCROW if described => Ok(TokenKind::NbcRow),
        ROW | NBCROW => Err(Fault::RowWithoutColumns),
        DONE | DONEPROC => Ok(TokenKind::Done),
        DONEINPROC => Ok(TokenKind::DoneInProc),
        RETURNSTATUS => Ok(TokenKind::ReturnStatus),
        ORDER => Ok(TokenKind::Order),
        ENVCHANGE => Ok(TokenKind::EnvChange),
        ERROR => Ok(TokenKind::Error),
        INFO => Ok(TokenKind::Info),
        RETURNVALUE => Ok(TokenKind::ReturnValue),
        _ => Err(Fault::RefusedToken(byte)),
    }
}

/// Reads the first byte of the next token. Returns `None` if the message is over.
pub(crate) fn next_byte<R: Read>(payload: &mut Payload<R>) -> Result<Option<u8>, Stop>
    requires { IsGoing payload.old }
    ensures leaves { LeavesPayload payload.old payload.new result }
    ensures gives { ByteRead R.remaining payload.old payload.new result }
{
    if payload.at_end()? {
        return Ok(None);
    }
    let byte = payload.buffered()[0];
    payload.consume(1);
    Ok(Some(byte))
}
