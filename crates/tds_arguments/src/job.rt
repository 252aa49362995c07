// What the command is to do.
ghost use Rattle.std.specs.Prelude.{◌≡◌, option_map};
ghost use Rattle.tds_arguments.specs.Jobs.{file_of, path_of, work_of};

use tds_meter::Limits;
use tds_values::Charset;

/// What the command is to do. The file is the one that has the packets, or none for standard
/// input. Nothing here opens it: the caller passes the reader.
#[derive(Drop)]
pub enum Job {
    /// Writes the rows of a response as CSV.
    Export {
        limits: Limits,
        charset: Charset,
        file: Option<String>,
    },
    /// Reads a response as an export does, and counts its text in place of writing it.
    Check {
        limits: Limits,
        charset: Charset,
        file: Option<String>,
    },
    /// Writes the rows of each response of the input as an export does, one response after another.
    ExportAll {
        limits: Limits,
        charset: Charset,
        file: Option<String>,
    },
    /// Reads each response of the input as a check does, one response after another.
    CheckAll {
        limits: Limits,
        charset: Charset,
        file: Option<String>,
    },
    /// Writes the packets of a message in another size. The limit counts the bytes read.
    Recut {
        packet_size: u16,
        max_wire: u64,
        file: Option<String>,
    },
}

/// What a job does, without the name of its file.
#[derive(Clone, Copy)]
pub enum Work {
    /// Writes the rows of a response as CSV.
    Export { limits: Limits, charset: Charset },
    /// Reads a response as an export does, and counts its text in place of writing it.
    Check { limits: Limits, charset: Charset },
    /// Writes the rows of each response of the input as an export does, one response after another. The limits are
    /// those of each response.
    ExportAll { limits: Limits, charset: Charset },
    /// Reads each response of the input as a check does, one response after another.
    CheckAll { limits: Limits, charset: Charset },
    /// Writes the packets of a message in another size. The limit counts the bytes read.
    Recut { packet_size: u16, max_wire: u64 },
}

impl Job {
    /// The file that has the packets, or none for standard input.
    pub fn file(&self) -> Option<&str>
        ensures { option_map (λ path. path.now) result ≡ file_of self.now }
    {
        match self {
            Job::Export { file, .. }
            | Job::Check { file, .. }
            | Job::ExportAll { file, .. }
            | Job::CheckAll { file, .. }
            | Job::Recut { file, .. } => file.as_deref(),
        }
    }

    /// The path to open, or none for standard input, which `-` names too.
    pub fn path(&self) -> Option<&str>
        ensures { option_map (λ path. path.now) result ≡ path_of self.now }
    {
        match self.file() {
            Some(path) if path != "-" => Some(path),
            _ => None,
        }
    }

    /// What it does.
    pub fn work(&self) -> Work
        ensures { result ≡ work_of self.now }
    {
        match *self {
            Job::Export {
                limits,
                charset,
                ..
            } => Work::Export { limits, charset },
            Job::Check {
                limits,
                charset,
                ..
            } => Work::Check { limits, charset },
            Job::ExportAll {
                limits,
                charset,
                ..
            } => Work::ExportAll { limits, charset },
            Job::CheckAll {
                limits,
                charset,
                ..
            } => Work::CheckAll { limits, charset },
            Job::Recut {
                packet_size,
                max_wire,
                ..
            } => Work::Recut {
                packet_size,
                max_wire,
            },
        }
    }
}
