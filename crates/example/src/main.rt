//! An example of a caller of the library: it exports two responses in memory, one after the
//! other in the same areas, and prints what came of each.
//!
//! A caller lists `tds_export`, `tds_meter` and `tds_packet` in its line of crates.txt (`tds_rows` too, if its
//! own contracts speak of the character set), and does what this program does: limits and areas once, a
//! counted reader and a counted writer for each response, and a look at the answer.
#![tactic(auto)]

ghost use Rattle.example.specs.Exported.{Exported};
ghost use Rattle.std.specs.Prelude.{◌≡◌, ℕ, List, Some, IfOk, IsTrue};
ghost use Rattle.tds_meter.specs.Rooms.{is_intact};
ghost use Rattle.tds_packet.specs.Elements.{AreBytes};

use std::io::{self, Write};
use tds_export::{Charset, Report, Stopped, export};
use tds_meter::{Areas, Limits};
use tds_packet::Counted;

/// A column of numbers named a, a row of 42, and a DONE, in one packet of 39 bytes.
const RESPONSE: [u8; 39] = [
    0x04, 0x01, 0x00, 0x27, 0x00, 0x00, 0x01, 0x00, // the packet's header
    0x81, 0x01, 0x00, 0x00, 0x00, 0x00, 0x00, 0x08, 0x00, 0x38, 0x01, 0x61, 0x00, // COLMETADATA
    0xD1, 0x2A, 0x00, 0x00, 0x00, // ROW
    0xFD, 0x10, 0x00, 0xC1, 0x00, 0x01, 0x00, 0x00, 0x00, 0x00, 0x00, 0x00, 0x00, // DONE
];

/// The same column and row in one packet of 26 bytes, with nothing after them.
const CUT: [u8; 26] = [
    0x04, 0x01, 0x00, 0x1A, 0x00, 0x00, 0x01, 0x00, // the packet's header
    0x81, 0x01, 0x00, 0x00, 0x00, 0x00, 0x00, 0x08, 0x00, 0x38, 0x01, 0x61, 0x00, // COLMETADATA
    0xD1, 0x2A, 0x00, 0x00, 0x00, // ROW
];

// Exports a response in memory. The clause says what a report is worth, of a writer that tells its
// bytes: the response was whole, and the writer has all of its text.
fn export_slice<W: Write>(
    areas: &mut Areas,
    response: &[u8],
    to: &mut Counted<W>,
) -> Result<Report, Stopped>
    requires { IsTrue (is_intact areas.old) }
    ensures intact { IsTrue (is_intact areas.new) }
    ensures exported { (had : List ℕ) → AreBytes response.now → W.contents to.old.device ≡ Some had →
        IfOk result (Exported areas.old.limits response.now had (W.contents to.new.device)) }
{
    export(areas, &mut Counted::new(response), to, Charset::Windows1252)
}

// Exports a response to standard output, and prints what came of it.
fn show(rt: &HostRuntime, areas: &mut Areas, response: &[u8]) -> io::Result<()>
    requires { IsTrue (is_intact areas.old) }
    ensures { IsTrue (is_intact areas.new) }
{
    let mut to = Counted::new(rt.stdout());
    match export_slice(areas, response, &mut to) {
        Ok(report) => println!(rt; "rows {} written {}", report.rows, report.written),
        Err(stopped) => println!(rt; "{:?} at {:?}", stopped.fault, stopped.place),
    }
}

fn main(rt: HostRuntime) -> io::Result<()> {
    // the greatest packet, the room for the columns of a set, and the most bytes of a response
    let Ok(limits) = Limits::new(4096, 1_048_576, 1_099_511_627_776) else {
        return println!(rt; "a limit lies outside its range");
    };
    let Ok(mut areas) = Areas::new(rt.alloc(), limits) else {
        return println!(rt; "there is no memory for the areas");
    };
    show(&rt, &mut areas, &RESPONSE)?;
    show(&rt, &mut areas, &CUT)
}
