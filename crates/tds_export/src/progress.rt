// What an export knows of the tokens that it has read.
ghost use Rattle.std.specs.Prelude.{◌≡◌, [], false};
ghost use Rattle.tds_export.specs.Steps.{Tracks};

use crate::report::Report;

/// What is known of the tokens read so far: the report, except what was written; whether columns
/// are described; and whether the last token is a final DONE or DONEPROC.
#[derive(Debug, Clone, Copy)]
pub(crate) struct Progress {
    pub(crate) report: Report,
    pub(crate) described: bool,
    pub(crate) is_final: bool,
}

impl Progress {
    /// The progress before the first token.
    pub(crate) fn new() -> Progress
        ensures described { result.described ≡ false }
        ensures tracks { Tracks result [] }
    {
        Progress {
            report: Report {
                sets: 0,
                rows: 0,
                errors: 0,
                infos: 0,
                first_error: None,
                return_status: None,
                written: 0,
                return_values: 0,
            },
            described: false,
            is_final: false,
        }
    }
}
