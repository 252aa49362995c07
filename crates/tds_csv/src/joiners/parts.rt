// Text of conversions in which each byte has a text of its own, put part by part.
ghost use Rattle.std.specs.Prelude.{IfOk, MatchResult, ◌+◌, ◌-◌, ◌*◌, ◌<◌, ◌≤◌, length, take};
ghost use Rattle.tds_text.specs.Plain.{LiesIn};
ghost use Rattle.tds_csv.specs.Sinks.{AwaitsPart, IsWriting, PutsPiece};

use crate::joiners::CHUNK;
use crate::sink::Sink;
use std::io::Write;
use tds_packet::Stop;
use tds_text::Bytewise;
use tds_text::lanes::{LANES, PART, WIDE};

/// How many bytes the text of a chunk has at most, and as many as are written at once.
const TEXT: usize = 3 * CHUNK + LANES;

// Puts the text of a chunk.
fn put_chunk<C: Bytewise, W: Write>(
    bytes: &[u8],
    source: &[u8],
    sink: &mut Sink<'_, W>,
) -> Result<(), Stop>
    requires writing { IsWriting sink.old }
    requires source { LiesIn bytes.now source.now }
    requires short { length bytes.now ≤ CHUNK }
    ensures { PutsPiece W.contents sink.old sink.new (C.text bytes.now) result }
{
    let most = 3 * bytes.len() + LANES;
    if sink.room() >= most {
        let waiting = sink.waiting() as usize;
        let made = C::convert(bytes, source, sink.spare(most));
        return sink.keep(waiting, made);
    }
    let mut to = [0; TEXT];
    let made = C::convert(bytes, source, &mut to[..]);
    sink.put(&to[..made])
}

// Puts the text of the first of 32 bytes or more, as far as the sink has room, and returns of how many.
fn put_part<C: Bytewise, W: Write>(bytes: &[u8], sink: &mut Sink<'_, W>) -> Result<usize, Stop>
    requires sink { AwaitsPart sink.old }
    requires wide { WIDE ≤ length bytes.now }
    ensures within { IfOk result (λ used. used ≤ length bytes.now) }
    ensures some { IfOk result (λ used. 0 < used) }
    ensures puts { MatchResult result
        (λ used. PutsPiece W.contents sink.old sink.new (C.text (take used bytes.now)) result)
        (λ stop. PutsPiece W.contents sink.old sink.new (C.text bytes.now) result) }
{
    C::laws();
    let room = sink.room();
    let waiting = sink.waiting() as usize;
    let done = C::convert_part(bytes, sink.spare(room));
    match sink.keep(waiting, done.made) {
        Ok(()) => Ok(done.used),
        Err(stop) => Err(stop),
    }
}

// Puts the text of bytes.
pub(crate) fn put_text<C: Bytewise, W: Write>(
    bytes: &[u8],
    sink: &mut Sink<'_, W>,
) -> Result<(), Stop>
    requires { IsWriting sink.old }
    ensures { PutsPiece W.contents sink.old sink.new (C.text bytes.now) result }
{
    C::laws();
    let mut taken = 0;
    while taken < bytes.len() {
        if bytes.len() - taken >= WIDE && sink.room() >= PART {
            let used = put_part::<C, W>(&bytes[taken..], sink)?;
            taken += used;
            continue;
        }
        let end = bytes.len().min(taken + CHUNK);
        put_chunk::<C, W>(&bytes[taken..end], &bytes[taken..], sink)?;
        taken = end;
    }
    Ok(())
}
