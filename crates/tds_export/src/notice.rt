// The bodies of ERROR and INFO (MS-TDS, ERROR and INFO).
ghost use Rattle.std.specs.Prelude.{◌≡◌, ◌%◌, ◌<◌, ◌≤◌, ℕ, List, length, IfSome, OnOk};
ghost use Rattle.tds_export.specs.Lending.{LeavesFurther};
ghost use Rattle.tds_export.specs.Noticing.{BeginsNotice, NoticeRead};
ghost use Rattle.tds_export.specs.Outcome.{server_error};
ghost use Rattle.tds_export.specs.TokenGrammar.{IsNoticeBody, holds_notice, line_at, notice_of, procedure_at, server_at};
ghost use Rattle.tds_packet.specs.Payloads.{IsGoing};
ghost use Rattle.tds_packet.specs.Reads.{KeepsRoom};

use crate::report::ServerError;
use byteorder::{ByteOrder, LittleEndian};
use std::io::Read;
use tds_columns::read_into;
use tds_meter::Area;
use tds_packet::{Fault, Payload, Stop};

/// The least number of bytes that the Length of an ERROR or INFO counts.
pub(crate) const LEAST_NOTICE: u16 = 14;

// Where the message ends, and the server's name begins with the byte that counts its units.
fn server_start(body: &[u8]) -> usize
    requires { 8 ≤ length body.now }
    ensures { result ≡ server_at body.now }
{
    8 + 2 * usize::from(LittleEndian::read_u16(&body[6..]))
}

// Where the procedure's name begins with the byte that counts its units.
fn procedure_start(body: &[u8]) -> usize
    requires long { 8 ≤ length body.now }
    requires within { server_at body.now < length body.now }
    ensures { result ≡ procedure_at body.now }
{
    let at = server_start(body);
    at + 1 + 2 * usize::from(body[at])
}

// Where the line number begins.
fn line_start(body: &[u8]) -> usize
    requires long { 8 ≤ length body.now }
    requires server { server_at body.now < length body.now }
    requires procedure { procedure_at body.now < length body.now }
    ensures { result ≡ line_at body.now }
{
    let at = procedure_start(body);
    at + 1 + 2 * usize::from(body[at])
}

/// Whether the inner lengths of a body stay within it.
pub(crate) fn lengths_fit(body: &[u8]) -> bool
    requires { LEAST_NOTICE ≤ length body.now }
    ensures { result ≡ holds_notice body.now }
{
    if server_start(body) >= body.len() {
        return false;
    }
    if procedure_start(body) >= body.len() {
        return false;
    }
    line_start(body) + 4 <= body.len()
}

/// How many bytes the Length has.
const LENGTH_SIZE: usize = 2;

// The Length at the front, if the body of an ERROR or INFO that it counts is whole after it, and isn't refused.
fn whole_notice(bytes: &[u8]) -> Option<usize>
    ensures { IfSome result (BeginsNotice bytes.now) }
{
    if bytes.len() < LENGTH_SIZE {
        return None;
    }
    let length = LittleEndian::read_u16(bytes);
    let end = LENGTH_SIZE + usize::from(length);
    if length < LEAST_NOTICE || bytes.len() < end || !lengths_fit(&bytes[LENGTH_SIZE..end]) {
        return None;
    }
    Some(usize::from(length))
}

/// What a body says of an error, except its message.
pub(crate) fn error_of(body: &[u8]) -> ServerError
    requires { IsNoticeBody body.now }
    ensures { result ≡ server_error (notice_of body.now) }
{
    let number = LittleEndian::read_i32(body);
    let line = LittleEndian::read_i32(&body[line_start(body)..]);
    ServerError {
        number,
        state: body[4],
        class: body[5],
        line,
    }
}

/// The units of a body's message, in place.
pub(crate) fn message_of(body: &[u8]) -> &[u8]
    requires { IsNoticeBody body.now }
    ensures value { result.now ≡ (notice_of body.now).message }
    ensures even { length result.now % 2 ≡ 0 }
{
    &body[8..server_start(body)]
}

/// Reads the Length and the body of an ERROR or INFO after its token byte. The body is in the
/// token area, and its inner lengths stay within it.
#[inline(never)]
pub(crate) fn take_notice<R: Read>(payload: &mut Payload<R>, token: &mut Area) -> Result<(), Stop>
    requires going { IsGoing payload.old }
    requires room { 65535 ≤ token.old.room }
    ensures leaves { LeavesFurther payload.old payload.new result }
    ensures area { KeepsRoom token.old token.new }
    ensures body { OnOk result (IsNoticeBody token.new.bytes) }
    ensures gives { NoticeRead R.remaining payload.old payload.new token.new.bytes result }
{
    token.clear();
    let place = payload.place();
    let mut length = [0u8; 2];
    payload.fill(&mut length)?;
    let length = LittleEndian::read_u16(&length);
    if length < LEAST_NOTICE {
        return Err(Stop::in_payload(Fault::BadNotice, place));
    }
    let place = payload.place();
    read_into(payload, token, usize::from(length))?;
    if !lengths_fit(token.bytes()) {
        return Err(Stop::in_payload(Fault::BadNotice, place));
    }
    Ok(())
}

/// Reads the Length and the body of an ERROR or INFO after its token byte, and keeps nothing of them. A body that is whole in the
/// packet is judged there; one that isn't is read into the token area.
#[inline(always)]
pub(crate) fn pass_notice<R: Read>(payload: &mut Payload<R>, token: &mut Area) -> Result<(), Stop>
    requires going { IsGoing payload.old }
    requires room { 65535 ≤ token.old.room }
    ensures leaves { LeavesFurther payload.old payload.new result }
    ensures area { KeepsRoom token.old token.new }
    ensures gives { (body : List ℕ) × NoticeRead R.remaining payload.old payload.new body result }
{
    token.clear();
    if let Some(length) = whole_notice(payload.buffered()) {
        payload.consume(LENGTH_SIZE);
        payload.consume(length);
        return Ok(());
    }
    take_notice(payload, token)
}
