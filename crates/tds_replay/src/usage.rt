// What is said if arguments are no job.
ghost use Rattle.tds_replay.specs.Usages.{SaysUsage};

use crate::lines::say_want_of_memory;
use crate::pieces::put;
use crate::status::Status;
use std::io::Write;
use tds_arguments::Usage;
use tds_packet::Counted;

/// Writes help to standard output and everything else to the notes, and returns how the command ends.
pub fn say_usage<W: Write, N: Write>(
    usage: &Usage,
    to: &mut Counted<W>,
    notes: &mut Counted<N>,
) -> Status
    ensures { SaysUsage W.contents N.contents usage.now to.old to.new notes.old notes.new result }
{
    match usage {
        Usage::OutOfMemory => {
            let _ = say_want_of_memory(notes);
            Status::OutOfMemory
        }
        Usage::Help(text) => {
            let _ = put(to, text.as_bytes());
            Status::Done
        }
        Usage::Refused(text) => {
            let _ = put(notes, text.as_bytes());
            Status::Refused
        }
    }
}
