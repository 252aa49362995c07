// How the command ends.
ghost use Rattle.std.specs.Prelude.{◌≡◌};
ghost use Rattle.tds_replay.specs.Statuses.{status_of as status_of_answer, status_of_fault as fault_status, status_of_recut as recut_status, status_number};

use tds_export::{Report, Stopped};
use tds_packet::{Fault, Recut, RecutStop};

/// How the command ends, as its exit status tells it.
#[derive(Debug, Clone, Copy)]
pub enum Status {
    /// Done, and the server reported no error.
    Done,
    /// The arguments were refused.
    Refused,
    /// Done, and the server reported an error.
    ServerError,
    /// A fault of the input.
    BadInput,
    /// A fault of a device.
    BadDevice,
    /// Want of memory.
    OutOfMemory,
}

impl Status {
    /// The exit status: 0 to 6.
    pub fn number(self) -> u8
        ensures { result ≡ status_number self }
    {
        match self {
            Status::Done => 0,
            Status::Refused => 2,
            Status::ServerError => 3,
            Status::BadInput => 4,
            Status::BadDevice => 5,
            Status::OutOfMemory => 6,
        }
    }
}

/// The status that a fault ends with.
pub(crate) fn status_of_fault(fault: &Fault) -> Status
    ensures { result ≡ fault_status fault.now }
{
    match fault {
        Fault::ReadFailed | Fault::WriteFailed => Status::BadDevice,
        _ => Status::BadInput,
    }
}

/// The status that an export's result ends with.
pub(crate) fn status_of(answer: &Result<Report, Stopped>) -> Status
    ensures { result ≡ status_of_answer answer.now }
{
    match answer {
        Ok(report) if report.errors == 0 => Status::Done,
        Ok(_) => Status::ServerError,
        Err(stopped) => status_of_fault(&stopped.fault),
    }
}

/// The status that a recut's result ends with.
pub(crate) fn status_of_recut(answer: &Result<Recut, RecutStop>) -> Status
    ensures { result ≡ recut_status answer.now }
{
    match answer {
        Ok(_) => Status::Done,
        Err(stopped) => status_of_fault(&stopped.stop.fault),
    }
}
