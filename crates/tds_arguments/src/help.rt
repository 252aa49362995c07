// What the help of the command says beside its options. Lines fit a terminal of 80 columns: those of an
// option's long help begin after ten columns.

/// What the help of a command says.
#[derive(Clone, Copy)]
pub(crate) struct Help {
    /// What it does, in a line.
    pub(crate) about: &'static str,
    /// What it reads and writes.
    pub(crate) long_about: &'static str,
    /// How it ends, and two lines that call it.
    pub(crate) after_help: &'static str,
}

/// What the program does.
pub(crate) const PROGRAM: &str =
    "Reads the raw packets of a response of SQL Server (TDS 7.4) and writes its rows
as quoted CSV. What follows the response is ignored, or read as more responses.";

/// How the program ends, and two lines that call it.
pub(crate) const PROGRAM_END: &str =
    "Exit statuses: 0 done, 2 refused arguments, 3 done and the server reported an
error, 4 a fault of the input, 5 a failed read or write or a file that can't be
opened, 6 want of memory. The man page tds_replay(1) says what to do then.

Examples:
  tds_replay export response.tds > rows.csv
  tds_replay check --packet-size 8000 response.tds";

/// The command `export`.
pub(crate) const EXPORT: Help = Help {
    about: "Writes the rows of a response as CSV",
    long_about: "Reads the packets of one response and writes the rows of its result sets to
standard output, as quoted CSV in UTF-8: a line of column names, then a line for
each row, and an empty line between two sets. Lines end with CR LF. All memory
is taken before the first byte is read. Counts of what was read, or the first
fault with its place, go to standard error.",
    after_help: "Exit statuses: 0 done, 2 refused arguments, 3 done and the server reported an
error, 4 a fault of the input, 5 a failed read or write or a file that can't be
opened, 6 want of memory.

Examples:
  tds_replay export --packet-size 8000 --charset utf-8 response.tds > rows.csv
  tds_replay export --all responses.tds > texts.csv 2> lines",
};

/// The command `check`.
pub(crate) const CHECK: Help = Help {
    about: "Reads a response as export does, and writes no rows",
    long_about: "Reads the packets of one response as export does, and counts its text in place
of writing it: standard output stays empty. The lines on standard error and the
exit status are those of export.",
    after_help: "Exit statuses: 0 done, 2 refused arguments, 3 done and the server reported an
error, 4 a fault of the input, 5 a failed read or a file that can't be opened,
6 want of memory.

Examples:
  tds_replay check response.tds
  tds_replay check --max-wire 1000000 < response.tds",
};

/// The command `recut`.
pub(crate) const RECUT: Help = Help {
    about: "Writes the packets of a message in another size",
    long_about: "Reads the packets of one message, of up to 32767 bytes each, and writes its
payload to standard output in packets of the new size, the last of which may be
shorter. The payload isn't looked at. The numbers of packets and of payload
bytes, or the first fault with its place, go to standard error.",
    after_help: "Exit statuses: 0 done, 2 refused arguments, 4 a fault of the input, 5 a failed
read or write or a file that can't be opened, 6 want of memory.

Examples:
  tds_replay recut --packet-size 512 response.tds > small.tds
  tds_replay recut --packet-size 32767 response.tds > large.tds",
};

/// The heading of the options that are numbers.
pub(crate) const LIMITS: &str = "Limits";

/// The size of packets that are read: a line of short help, and long help.
pub(crate) const PACKET_SIZE: (&str, &str) = (
    "Greatest packet read, in bytes",
    "The greatest packet that is read, in bytes, from 512 to 32767",
);

/// The size of packets that are written.
pub(crate) const NEW_PACKET_SIZE: (&str, &str) = (
    "Size of packets written, in bytes, from 512 to 32767",
    "The size of the packets that are written, in bytes, from 512 to 32767",
);

/// The room for a description.
pub(crate) const COLUMN_ROOM: (&str, &str) = (
    "Room for a set's columns, in bytes",
    "The room for a set's encoded columns, from 10 to 67108864 bytes",
);

/// The limit of the wire.
pub(crate) const MAX_WIRE: (&str, &str) = (
    "Most bytes of packets read",
    "The most bytes read, headers included, from 8 to 72057594037927936",
);

/// The character set.
pub(crate) const CHARSET: (&str, &str) = (
    "windows-1252 or utf-8",
    "How text of one byte a character is read: windows-1252 or utf-8",
);

/// Whether all responses are read.
pub(crate) const ALL: (&str, &str) = (
    "All responses of the input, not one",
    "Reads response after response until the input is over. Of each the
text is written, then its lines to standard error; the last line
counts them. It ends after the first response with a fault.",
);

/// The file.
pub(crate) const FILE: (&str, &str) = (
    "A response; what follows it is ignored. Standard input without FILE",
    "The file with the packets; standard input if it isn't given, or is -.
One response is read, without --all; what follows it is ignored: in a
file it is left out, and on standard input it isn't read.",
);
