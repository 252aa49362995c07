// Why arguments are no job.
ghost use Rattle.std.specs.Prelude.{◌≡◌};
ghost use Rattle.tds_arguments.specs.declared.usage.Usage.TheVariants.{OutOfMemory};

use std::alloc::AllocError;

/// Why arguments are no job.
#[derive(Debug, Drop)]
pub enum Usage {
    /// There is no memory to read them.
    OutOfMemory,
    /// They ask for help or for the version, which is this text.
    Help(String),
    /// They are refused. The text says what is wrong, and how the line would go.
    Refused(String),
}

impl From<AllocError> for Usage {
    ghost from_gives = { λ _ usage. usage ≡ OutOfMemory };

    fn from(_error: AllocError) -> Usage {
        Usage::OutOfMemory
    }
}
