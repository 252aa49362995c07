// The responses of an input, exported one after another over the same areas.
ghost use Rattle.std.specs.Prelude.{◌≡◌, IsTrue};
ghost use Rattle.tds_meter.specs.Rooms.{is_intact};
ghost use Rattle.tds_replay.specs.Exporting.{Returns, standing, telling};
ghost use Rattle.tds_replay.specs.Responses.{Next, RunsAll, RunsTo};

use crate::lines::{say_answer, say_responses, say_stop};
use crate::status::{Status, status_of_fault};
use std::io::{BufRead, Read, Write};
use tds_export::{Charset, Report, Stopped, export};
use tds_meter::Areas;
use tds_packet::{Counted, Fault, Place};

/// The stop where a read fails before the first byte of a response.
const UNREAD: Stopped = Stopped {
    fault: Fault::ReadFailed,
    place: Place::Wire(0),
    written: 0,
    unwritten: 0,
};

/// How many responses of an input were read whole, and how the command ends.
#[derive(Clone, Copy)]
struct Ran {
    responses: u64,
    status: Status,
}

/// Exports a response over areas, and writes its lines.
pub(crate) fn export_one<R: Read, W: Write, N: Write>(
    areas: &mut Areas,
    charset: Charset,
    from: &mut Counted<R>,
    to: &mut Counted<W>,
    notes: &mut Counted<N>,
) -> Result<Report, Stopped>
    requires { IsTrue (is_intact areas.old) }
    ensures { let tell = telling R.remaining W.contents N.contents in
        Returns tell charset (standing areas.old from.old to.old notes.old)
        (standing areas.new from.new to.new notes.new) result }
{
    let answer = export(areas, from, to, charset);
    let _ = say_answer(notes, &answer, areas.error_text());
    answer
}

// Exports the next response, if the input isn't over.
fn export_next<R: BufRead, W: Write, N: Write>(
    areas: &mut Areas,
    charset: Charset,
    from: &mut Counted<R>,
    to: &mut Counted<W>,
    notes: &mut Counted<N>,
) -> Result<Option<Report>, Stopped>
    requires { IsTrue (is_intact areas.old) }
    ensures intact { IsTrue (is_intact areas.new) }
    ensures gives { let tell = telling R.remaining W.contents N.contents in
        Next tell charset (standing areas.old from.old to.old notes.old)
        (standing areas.new from.new to.new notes.new) result }
{
    match from.is_over() {
        Ok(true) => Ok(None),
        Ok(false) => match export_one(areas, charset, from, to, notes) {
            Ok(report) => Ok(Some(report)),
            Err(stopped) => Err(stopped),
        },
        Err(_) => {
            let _ = say_stop(notes, &UNREAD);
            Err(UNREAD)
        }
    }
}

// Exports responses until the input is over, one stops, or no more can be counted.
fn export_each<R: BufRead, W: Write, N: Write>(
    areas: &mut Areas,
    charset: Charset,
    from: &mut Counted<R>,
    to: &mut Counted<W>,
    notes: &mut Counted<N>,
) -> Ran
    requires { IsTrue (is_intact areas.old) }
    ensures { let tell = telling R.remaining W.contents N.contents in
        RunsTo tell charset (standing areas.old from.old to.old notes.old)
        (standing areas.new from.new to.new notes.new) result }
{
    let mut responses = 0;
    let mut status = Status::Done;
    'responses: while responses < u64::MAX {
        match export_next(areas, charset, from, to, notes) {
            Ok(Some(report)) => {
                responses += 1;
                if report.errors > 0 {
                    status = Status::ServerError;
                }
            }
            Ok(None) => return Ran { responses, status },
            Err(stopped) => {
                let status = status_of_fault(&stopped.fault);
                return Ran { responses, status };
            }
        }
    }
    Ran { responses, status }
}

/// Exports all responses of an input over areas, and writes the line that counts those that were read whole.
pub(crate) fn export_all<R: BufRead, W: Write, N: Write>(
    areas: &mut Areas,
    charset: Charset,
    from: &mut Counted<R>,
    to: &mut Counted<W>,
    notes: &mut Counted<N>,
) -> Status
    requires { IsTrue (is_intact areas.old) }
    ensures { let tell = telling R.remaining W.contents N.contents in
        RunsAll tell charset (standing areas.old from.old to.old notes.old)
        (standing areas.new from.new to.new notes.new) result }
{
    let ran = export_each(areas, charset, from, to, notes);
    let _ = say_responses(notes, ran.responses);
    ran.status
}
