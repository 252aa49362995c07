// The arguments of a command line.
ghost use Rattle.std.specs.Prelude.{◌≡◌, IfErr, IfOk, codes, map, string_bytes};
ghost use Rattle.clap.specs.Words.{first_of, kind_of, subcommand_rows_of};
ghost use Rattle.tds_meter.specs.LimitFaults.{IsColumnRoom, IsMaxWire, IsPacketSize};
ghost use Rattle.tds_arguments.specs.CommandLine.{Answers, GivesJob, MakesJob};
ghost use Rattle.tds_arguments.specs.Jobs.{HasFile, HasLimits, IsInRange, IsJobOf, IsReadAs};
ghost use Rattle.tds_arguments.specs.Jobs.{IsUnlimited, IsUnread, charset_of, is_of_all, values_in};
ghost use Rattle.tds_arguments.specs.Usages.{IsRefusal, IsUsageOf};

use crate::job::Job;
use crate::options::{
    ALL, CHARSET, CHECK, COLUMN_ROOM, EXPORT, FILE, MAX_WIRE, PACKET_SIZE, RECUT, UTF_8, check,
    export, program, recut,
};
use crate::usage::Usage;
use clap::error::ErrorKind;
use clap::{ArgMatches, Command, Error};
use std::alloc::{AllocError, Global};
use std::str::FromStr;
use tds_meter::{LEAST_COLUMN_ROOM, LimitFault, Limits};
use tds_values::Charset;

// What clap says of arguments that are no job: why they are refused, help, or the version.
fn usage_of(alloc: Global, error: &Error) -> Usage
    ensures { IsUsageOf (kind_of error.now) result }
{
    let Ok(text) = error.to_string(alloc) else {
        return Usage::OutOfMemory;
    };
    match error.kind() {
        ErrorKind::OutOfMemory => Usage::OutOfMemory,
        ErrorKind::DisplayHelp | ErrorKind::DisplayVersion => Usage::Help(text),
        _ => Usage::Refused(text),
    }
}

// Arguments that are refused, with the usage of a command.
fn refused(
    alloc: Global,
    command: Result<Command<'_>, AllocError>,
    kind: ErrorKind,
    message: &str,
) -> Usage
    ensures { IsUsageOf kind result }
{
    let Ok(mut command) = command else {
        return Usage::OutOfMemory;
    };
    match command.error(kind, message) {
        Ok(error) => usage_of(alloc, &error),
        Err(_) => Usage::OutOfMemory,
    }
}

// The arguments after a command's name.
#[derive(Drop)]
struct Given<'m, 'a> {
    alloc: Global,
    command: &'a str,
    matches: &'m ArgMatches<'a>,
}

impl<'m, 'a> Given<'m, 'a> {
    // The command with its options.
    fn options<'c>(&self) -> Result<Command<'c>, AllocError> {
        if self.command == RECUT {
            recut(self.alloc)
        } else if self.command == CHECK {
            check(self.alloc)
        } else {
            export(self.alloc)
        }
    }

    // The command as its usage shows it, after the program's name.
    fn command<'c>(&self) -> Result<Command<'c>, AllocError> {
        let name = format!(in self.alloc; "tds_replay {}", self.command)?;
        self.options()?.bin_name(name.as_str())
    }

    // A number that is refused.
    fn refused_number(&self, option: &str) -> Result<Usage, AllocError>
        ensures { IfOk result IsRefusal }
    {
        let value = self.matches.get_str(option).unwrap_or("");
        let message = format!(in self.alloc;
            "invalid value '{value}' for '--{option} <N>': a number has digits alone"
        )?;
        Ok(refused(
            self.alloc,
            self.command(),
            ErrorKind::ValueValidation,
            message.as_str(),
        ))
    }

    // Arguments that are refused for a number.
    fn refuse(&self, option: &str) -> Usage
        ensures { IsRefusal result }
    {
        match self.refused_number(option) {
            Ok(usage) => usage,
            Err(_) => Usage::OutOfMemory,
        }
    }

    // The number of an option. A sign before it is refused.
    fn number<T: FromStr>(&self, option: &str) -> Result<T, Usage>
    where
        T::Err: Drop,
        ensures ok { IfOk result
            (IsReadAs T.from_str_gives (first_of option.now (values_in self.now.matches.now))) }
        ensures refusal { IfErr result IsRefusal }
        ensures err { IfErr result (λ _.
            IsUnread T.from_str_gives (first_of option.now (values_in self.now.matches.now))) }
    {
        let Some(text) = self.matches.get_str(option) else {
            return Err(self.refuse(option));
        };
        if text.starts_with('+') {
            return Err(self.refuse(option));
        }
        match text.parse() {
            Ok(number) => Ok(number),
            Err(_) => Err(self.refuse(option)),
        }
    }

    // The limits with these numbers.
    fn limits(&self, packet_size: u16, column_room: u32, max_wire: u64) -> Result<Limits, Usage>
        ensures ok { IfOk result (λ limits. (limits.packet_size ≡ packet_size)
            × (limits.column_room ≡ column_room) × (limits.max_wire ≡ max_wire)) }
        ensures refusal { IfErr result IsRefusal }
        ensures err { IfErr result (λ _.
            IsPacketSize packet_size → IsColumnRoom column_room → IsMaxWire max_wire → ⊥) }
    {
        match Limits::new(packet_size, column_room, max_wire) {
            Ok(limits) => Ok(limits),
            Err(LimitFault::PacketSize) => Err(self.refuse(PACKET_SIZE)),
            Err(LimitFault::ColumnRoom) => Err(self.refuse(COLUMN_ROOM)),
            Err(LimitFault::MaxWire) => Err(self.refuse(MAX_WIRE)),
        }
    }

    // The limits of a response.
    fn reading_limits(&self) -> Result<Limits, Usage>
        ensures ok { IfOk result (λ limits. HasLimits (values_in self.now.matches.now)
            limits.packet_size limits.column_room limits.max_wire) }
        ensures refusal { IfErr result IsRefusal }
        ensures err { IfErr result (λ _. IsUnlimited (values_in self.now.matches.now)) }
    {
        let packet_size = self.number(PACKET_SIZE)?;
        let column_room = self.number(COLUMN_ROOM)?;
        self.limits(packet_size, column_room, self.number(MAX_WIRE)?)
    }

    // The character set.
    fn charset(&self) -> Charset
        ensures { result ≡ charset_of (values_in self.now.matches.now) }
    {
        match self.matches.get_str(CHARSET) {
            Some(name) if name == UTF_8 => Charset::Utf8,
            _ => Charset::Windows1252,
        }
    }

    // Whether all responses are asked for.
    fn is_of_all(&self) -> bool
        ensures { result ≡ is_of_all (values_in self.now.matches.now) }
    {
        match self.matches.get_str(ALL) {
            Some(value) => value == "true",
            None => false,
        }
    }

    // The file, or none for standard input.
    fn file(&self) -> Result<Option<String>, AllocError>
        ensures { IfOk result (HasFile (values_in self.now.matches.now)) }
    {
        match self.matches.get_str(FILE) {
            Some(path) => Ok(Some(String::from_str(self.alloc, path)?)),
            None => Ok(None),
        }
    }

    // The job of `recut`.
    fn recut_job(&self) -> Result<Job, Usage>
        requires { self.now.command.now ≡ codes "recut" }
        ensures { GivesJob (IsJobOf self.now.command.now (values_in self.now.matches.now)) result }
    {
        let packet_size = self.number(PACKET_SIZE)?;
        let max_wire = self.number(MAX_WIRE)?;
        let limits = self.limits(packet_size, LEAST_COLUMN_ROOM, max_wire)?;
        Ok(Job::Recut {
            packet_size: limits.packet_size(),
            max_wire: limits.max_wire(),
            file: self.file()?,
        })
    }

    // The job of `check`.
    fn check_job(&self) -> Result<Job, Usage>
        requires { self.now.command.now ≡ codes "check" }
        ensures { GivesJob (IsJobOf self.now.command.now (values_in self.now.matches.now)) result }
    {
        let limits = self.reading_limits()?;
        let charset = self.charset();
        let file = self.file()?;
        Ok(if self.is_of_all() {
            Job::CheckAll {
                limits,
                charset,
                file,
            }
        } else {
            Job::Check {
                limits,
                charset,
                file,
            }
        })
    }

    // The job of `export`.
    fn export_job(&self) -> Result<Job, Usage>
        requires { self.now.command.now ≡ codes "export" }
        ensures { GivesJob (IsJobOf self.now.command.now (values_in self.now.matches.now)) result }
    {
        let limits = self.reading_limits()?;
        let charset = self.charset();
        let file = self.file()?;
        Ok(if self.is_of_all() {
            Job::ExportAll {
                limits,
                charset,
                file,
            }
        } else {
            Job::Export {
                limits,
                charset,
                file,
            }
        })
    }

    // The job of the command, which is one of the three.
    fn job(&self) -> Result<Job, Usage>
        ensures { GivesJob (IsJobOf self.now.command.now (values_in self.now.matches.now)) result }
    {
        if self.command == RECUT {
            self.recut_job()
        } else if self.command == CHECK {
            self.check_job()
        } else if self.command == EXPORT {
            self.export_job()
        } else {
            Err(without_command(self.alloc))
        }
    }
}

// Arguments without a command.
fn without_command(alloc: Global) -> Usage
    ensures { IsRefusal result }
{
    refused(
        alloc,
        program(alloc),
        ErrorKind::MissingSubcommand,
        "a command is required",
    )
}

// The job of the command that was found.
fn found_job(alloc: Global, matches: &ArgMatches<'_>) -> Result<Job, Usage>
    ensures { GivesJob (MakesJob (subcommand_rows_of matches.now)) result }
{
    match matches.subcommand() {
        Some((command, matches)) => Given {
            alloc,
            command,
            matches,
        }
        .job(),
        None => Err(without_command(alloc)),
    }
}

/// Reads the arguments after the program's name as the job that they mean, each of its numbers in its
/// range. Without a job, they mean none, or there is no memory; and help is given only if they ask for
/// it.
pub fn parse(alloc: Global, arguments: &[String]) -> Result<Job, Usage>
    ensures range { IfOk result IsInRange }
    ensures answers { Answers (map string_bytes arguments.now) result }
{
    let program = program(alloc)?;
    match program.try_get_matches_from(arguments) {
        Ok(matches) => found_job(alloc, &matches),
        Err(error) => Err(usage_of(alloc, &error)),
    }
}
