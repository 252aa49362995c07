// The commands with their options.
ghost use Rattle.std.specs.Prelude.{◌≡◌, IfOk, codes};
ghost use Rattle.clap.specs.Words.{app_of, new_app};
ghost use Rattle.tds_arguments.specs.CommandLine.{GainsArgument, GainsCommand, HasReading, IsArgument};
ghost use Rattle.tds_arguments.specs.CommandLine.{IsCharset, IsCommand};
ghost use Rattle.tds_arguments.specs.CommandLine.{IsProgram, IsReading, all_rule, bare_app, column_room_rule};
ghost use Rattle.tds_arguments.specs.CommandLine.{file_rule, limited_app, max_wire_rule, option_rule};
ghost use Rattle.tds_arguments.specs.CommandLine.{packet_size_rule, packet_sizes, recut_app};

use crate::help;
use crate::help::Help;
use crate::version::VERSION;
use clap::builder::ValueParser;
use clap::{Arg, ArgAction, Command, value_parser};
use std::alloc::{AllocError, Global};
use tds_meter::{
    GREATEST_COLUMN_ROOM, GREATEST_MAX_WIRE, GREATEST_PACKET_SIZE, LEAST_COLUMN_ROOM,
    LEAST_MAX_WIRE, LEAST_PACKET_SIZE,
};

/// The command that writes rows.
pub(crate) const EXPORT: &str = "export";

/// The command that counts rows.
pub(crate) const CHECK: &str = "check";

/// The command that writes packets.
pub(crate) const RECUT: &str = "recut";

/// The option of the packet size.
pub(crate) const PACKET_SIZE: &str = "packet-size";

/// The option of the room for a description.
pub(crate) const COLUMN_ROOM: &str = "column-room";

/// The option of the limit of the wire.
pub(crate) const MAX_WIRE: &str = "max-wire";

/// The option of the character set.
pub(crate) const CHARSET: &str = "charset";

/// The option of all responses.
pub(crate) const ALL: &str = "all";

/// The file.
pub(crate) const FILE: &str = "FILE";

/// The value for UTF-8.
pub(crate) const UTF_8: &str = "utf-8";

/// The value for Windows-1252.
const WINDOWS_1252: &str = "windows-1252";

/// The values for character sets.
static CHARSETS: [&str; 2] = [WINDOWS_1252, UTF_8];

// An option whose value is a number. The help is a line of short help, and the lines of long help.
fn number<'a>(
    alloc: Global,
    name: &'a str,
    parser: ValueParser<'a>,
    help: (&'a str, &'a str),
) -> Arg<'a>
    ensures { IsArgument (option_rule name.entry.now parser.entry) result }
{
    Arg::new(alloc, name)
        .long(name)
        .value_name("N")
        .value_parser(parser)
        .help(help.0)
        .long_help(help.1)
        .help_heading(help::LIMITS)
}

// The parser of packet sizes.
fn packet_sizes<'a>() -> ValueParser<'a>
    ensures { result ≡ packet_sizes }
{
    value_parser!(u16).range(i64::from(LEAST_PACKET_SIZE)..=i64::from(GREATEST_PACKET_SIZE))
}

// The option of the greatest packet that is read.
fn packet_size<'a>(alloc: Global) -> Arg<'a>
    ensures { IsArgument packet_size_rule result }
{
    number(alloc, PACKET_SIZE, packet_sizes(), help::PACKET_SIZE).default_value("4096")
}

// The option of the room for a description.
fn column_room<'a>(alloc: Global) -> Arg<'a>
    ensures { IsArgument column_room_rule result }
{
    let rooms = value_parser!(u32).range(
        i64::from(LEAST_COLUMN_ROOM)..=i64::from(GREATEST_COLUMN_ROOM),
    );
    number(alloc, COLUMN_ROOM, rooms, help::COLUMN_ROOM).default_value("1048576")
}

// The option of the limit of the wire.
fn max_wire<'a>(alloc: Global) -> Arg<'a>
    ensures { IsArgument max_wire_rule result }
{
    let limits = value_parser!(u64).range(LEAST_MAX_WIRE as i64..=GREATEST_MAX_WIRE as i64);
    number(alloc, MAX_WIRE, limits, help::MAX_WIRE).default_value("1099511627776")
}

// The option of the character set.
fn charset<'a>(alloc: Global) -> Arg<'a>
    ensures { IsCharset result }
{
    Arg::new(alloc, CHARSET)
        .long(CHARSET)
        .value_name("NAME")
        .value_parser(CHARSETS.as_slice())
        .default_value(WINDOWS_1252)
        .help(help::CHARSET.0)
        .long_help(help::CHARSET.1)
        .hide_possible_values(true)
}

// The option of all responses, which has no value.
fn all<'a>(alloc: Global) -> Arg<'a>
    ensures { IsArgument all_rule result }
{
    Arg::new(alloc, ALL)
        .long(ALL)
        .action(ArgAction::SetTrue)
        .help(help::ALL.0)
        .long_help(help::ALL.1)
}

// The file, which may be left out.
fn file<'a>(alloc: Global) -> Arg<'a>
    ensures { IsArgument file_rule result }
{
    Arg::new(alloc, FILE)
        .help(help::FILE.0)
        .long_help(help::FILE.1)
}

// The command with one more argument, if there is memory.
fn with_argument<'a>(
    command: Result<Command<'a>, AllocError>,
    argument: Arg<'a>,
) -> Result<Command<'a>, AllocError>
    ensures { IfOk result (GainsArgument command.entry argument.entry) }
{
    command?.arg(argument)
}

// The command with one more command below it, if there is memory.
fn with_command<'a>(
    command: Result<Command<'a>, AllocError>,
    below: Result<Command<'a>, AllocError>,
) -> Result<Command<'a>, AllocError>
    ensures { IfOk result (GainsCommand command.entry below.entry) }
{
    command?.subcommand(below?)
}

// A command with its help.
fn described<'a>(alloc: Global, name: &'a str, help: Help) -> Command<'a>
    ensures { IsCommand (new_app name.entry.now) result }
{
    Command::new(alloc, name)
        .about(help.about)
        .long_about(help.long_about)
        .after_help(help.after_help)
}

// A command with the limits of a response.
fn limited<'a>(alloc: Global, name: &'a str, help: Help) -> Result<Command<'a>, AllocError>
    ensures { IfOk result (IsCommand (limited_app name.entry.now)) }
{
    let command = described(alloc, name, help).arg(packet_size(alloc));
    let command = with_argument(command, column_room(alloc));
    with_argument(command, max_wire(alloc))
}

// A command that reads a response, with its options.
fn reading<'a>(alloc: Global, name: &'a str, help: Help) -> Result<Command<'a>, AllocError>
    ensures { IfOk result (IsReading name.entry.now) }
{
    let command = with_argument(limited(alloc, name, help), charset(alloc));
    let command = with_argument(command, all(alloc));
    with_argument(command, file(alloc))
}

/// The command `export`.
pub(crate) fn export<'a>(alloc: Global) -> Result<Command<'a>, AllocError>
    ensures { IfOk result (IsReading (codes "export")) }
{
    reading(alloc, EXPORT, help::EXPORT)
}

/// The command `check`.
pub(crate) fn check<'a>(alloc: Global) -> Result<Command<'a>, AllocError>
    ensures { IfOk result (IsReading (codes "check")) }
{
    reading(alloc, CHECK, help::CHECK)
}

/// The command `recut`.
pub(crate) fn recut<'a>(alloc: Global) -> Result<Command<'a>, AllocError>
    ensures { IfOk result (IsCommand recut_app) }
{
    let packet_size = number(alloc, PACKET_SIZE, packet_sizes(), help::NEW_PACKET_SIZE);
    let command = described(alloc, RECUT, help::RECUT).arg(packet_size.required(true));
    let command = with_argument(command, max_wire(alloc));
    with_argument(command, file(alloc))
}

// The program without its commands.
fn without_commands<'a>(alloc: Global) -> Result<Command<'a>, AllocError>
    ensures { IfOk result (IsCommand bare_app) }
{
    Command::new(alloc, "tds_replay")
        .version(VERSION)
        .no_binary_name(true)
        .subcommand_required(true)
        .about(help::PROGRAM)
        .after_help(help::PROGRAM_END)
        .bin_name("tds_replay")
}

// The program with the commands that read a response.
fn with_reading<'a>(alloc: Global) -> Result<Command<'a>, AllocError>
    ensures { IfOk result HasReading }
{
    let program = with_command(without_commands(alloc), export(alloc));
    with_command(program, check(alloc))
}

/// The whole command line, after the program's name.
pub(crate) fn program<'a>(alloc: Global) -> Result<Command<'a>, AllocError>
    ensures { IfOk result (λ command. IsProgram (app_of command)) }
{
    with_command(with_reading(alloc), recut(alloc))
}
