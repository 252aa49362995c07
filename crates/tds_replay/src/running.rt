// Runs a job. What reads and writes is lent areas and has no memory to ask for more.
ghost use Rattle.std.specs.Prelude.{◌≡◌};
ghost use Rattle.tds_arguments.specs.Jobs.{IsInRange, IsWorkInRange};
ghost use Rattle.tds_meter.specs.LimitFaults.{IsMaxWire, IsPacketSize};
ghost use Rattle.tds_replay.specs.Asking.{Asks, areas_size, memory_of, packets_size};
ghost use Rattle.tds_replay.specs.Exporting.{devices, telling};
ghost use Rattle.tds_replay.specs.Performing.{Checks, DeliversWork, PerformsAll, PerformsExport, PerformsJob, PerformsRecut, PerformsWork, Rewrites};

use crate::lines::{say_recut_answer, say_want_of_memory};
use crate::memory::Memory;
use crate::responses::{export_all, export_one};
use crate::status::{Status, status_of, status_of_recut};
use std::alloc::Global;
use std::io;
use std::io::{BufRead, Read, Write};
use tds_arguments::{Job, Work};
use tds_export::Charset;
use tds_meter::{Area, Limits};
use tds_packet::{Counted, recut};

// Writes the packets of a message in another size, the output's room.
fn run_recut<R: Read, W: Write, N: Write>(
    input: &mut Area,
    output: &mut Area,
    max_wire: u64,
    from: &mut Counted<R>,
    to: &mut Counted<W>,
    notes: &mut Counted<N>,
) -> Status
    requires input { input.old.room ≡ 32767 }
    requires output { IsPacketSize output.old.room }
    requires limit { IsMaxWire max_wire }
    ensures { let tell = telling R.remaining W.contents N.contents in
        Rewrites tell output.old.room max_wire (devices from.old to.old notes.old)
        (devices from.new to.new notes.new) result }
{
    let answer = recut(from, to, input, output, max_wire);
    let _ = say_recut_answer(notes, &answer);
    status_of_recut(&answer)
}

// Asks for the areas of an export, and runs it.
fn perform_export<R: Read, W: Write, N: Write>(
    memory: &mut Memory,
    limits: Limits,
    charset: Charset,
    from: &mut Counted<R>,
    to: &mut Counted<W>,
    notes: &mut Counted<N>,
) -> Status
    ensures asks { Asks memory.old memory.new (areas_size limits) }
    ensures performs { let tell = telling R.remaining W.contents N.contents in
        PerformsExport tell charset limits (devices from.old to.old notes.old)
        (devices from.new to.new notes.new) result }
{
    let Ok(mut areas) = memory.areas(limits) else {
        let _ = say_want_of_memory(notes);
        return Status::OutOfMemory;
    };
    let answer = export_one(&mut areas, charset, from, to, notes);
    status_of(&answer)
}

// Asks for the areas of an export, and exports all responses over them.
fn perform_all<R: BufRead, W: Write, N: Write>(
    memory: &mut Memory,
    limits: Limits,
    charset: Charset,
    from: &mut Counted<R>,
    to: &mut Counted<W>,
    notes: &mut Counted<N>,
) -> Status
    ensures asks { Asks memory.old memory.new (areas_size limits) }
    ensures performs { let tell = telling R.remaining W.contents N.contents in
        PerformsAll tell charset limits (devices from.old to.old notes.old)
        (devices from.new to.new notes.new) result }
{
    let Ok(mut areas) = memory.areas(limits) else {
        let _ = say_want_of_memory(notes);
        return Status::OutOfMemory;
    };
    export_all(&mut areas, charset, from, to, notes)
}

// Performs an export to a writer of its own.
fn perform_check<R: Read, N: Write>(
    memory: &mut Memory,
    limits: Limits,
    charset: Charset,
    from: &mut Counted<R>,
    notes: &mut Counted<N>,
) -> Status
    ensures asks { Asks memory.old memory.new (areas_size limits) }
    ensures checks { Checks PerformsExport R.remaining N.contents charset limits
        from.old from.new notes.old notes.new result }
{
    let mut own = Counted::new(io::sink());
    perform_export(memory, limits, charset, from, &mut own, notes)
}

// Performs exports of all responses to a writer of its own.
fn perform_check_all<R: BufRead, N: Write>(
    memory: &mut Memory,
    limits: Limits,
    charset: Charset,
    from: &mut Counted<R>,
    notes: &mut Counted<N>,
) -> Status
    ensures asks { Asks memory.old memory.new (areas_size limits) }
    ensures checks { Checks PerformsAll R.remaining N.contents charset limits
        from.old from.new notes.old notes.new result }
{
    let mut own = Counted::new(io::sink());
    perform_all(memory, limits, charset, from, &mut own, notes)
}

// Asks for the areas of a recut, and runs it.
fn perform_recut<R: Read, W: Write, N: Write>(
    memory: &mut Memory,
    packet_size: u16,
    max_wire: u64,
    from: &mut Counted<R>,
    to: &mut Counted<W>,
    notes: &mut Counted<N>,
) -> Status
    requires size { IsPacketSize packet_size }
    requires limit { IsMaxWire max_wire }
    ensures asks { Asks memory.old memory.new (packets_size packet_size) }
    ensures performs { let tell = telling R.remaining W.contents N.contents in
        PerformsRecut tell packet_size max_wire (devices from.old to.old notes.old)
        (devices from.new to.new notes.new) result }
{
    let Ok((mut input, mut output)) = memory.packets(packet_size) else {
        let _ = say_want_of_memory(notes);
        return Status::OutOfMemory;
    };
    run_recut(&mut input, &mut output, max_wire, from, to, notes)
}

/// Runs a job's work from the reader to the writer, with its lines to the notes, and returns the exit
/// status: 0 if it is done, 3 if it is done and the server reported an error, 4 after a fault of the
/// input, 5 after a fault of a device, 6 for want of memory. A check doesn't use the writer. A failed
/// write of the notes changes no status.
///
/// Only work on all responses reads ahead, to see whether the input is over where the next response would begin. Any
/// reader serves in a `BufReader`; in one of capacity 0 it isn't read ahead for other work.
///
/// The areas of the work are asked for before the first read, and nothing else is asked for, whatever
/// the status: what reads and writes has no allocator. If they are refused, nothing is read.
pub fn perform_in<R: BufRead, W: Write, N: Write>(
    memory: &mut Memory,
    work: Work,
    from: &mut Counted<R>,
    to: &mut Counted<W>,
    notes: &mut Counted<N>,
) -> u8
    requires { IsWorkInRange work }
    ensures asks { Asks memory.old memory.new (memory_of work) }
    ensures performs { let tell = telling R.remaining W.contents N.contents in
        PerformsWork tell work (devices from.old to.old notes.old) (devices from.new to.new notes.new) result }
    ensures delivers { let tell = telling R.remaining W.contents N.contents in
        DeliversWork tell work (devices from.old to.old notes.old) (devices from.new to.new notes.new) result }
{
    match work {
        Work::Export { limits, charset } => {
            perform_export(memory, limits, charset, from, to, notes).number()
        }
        Work::Check { limits, charset } => {
            perform_check(memory, limits, charset, from, notes).number()
        }
        Work::ExportAll { limits, charset } => {
            perform_all(memory, limits, charset, from, to, notes).number()
        }
        Work::CheckAll { limits, charset } => {
            perform_check_all(memory, limits, charset, from, notes).number()
        }
        Work::Recut {
            packet_size,
            max_wire,
        } => perform_recut(memory, packet_size, max_wire, from, to, notes).number(),
    }
}

/// Runs a job as [`perform_in`] does its work, in memory of this allocator. The caller opens the file
/// that the job names.
pub fn perform<R: BufRead, W: Write, N: Write>(
    alloc: Global,
    job: &Job,
    from: &mut Counted<R>,
    to: &mut Counted<W>,
    notes: &mut Counted<N>,
) -> u8
    requires { IsInRange job.now }
    ensures { let tell = telling R.remaining W.contents N.contents in
        PerformsJob tell job.now (devices from.old to.old notes.old) (devices from.new to.new notes.new) result }
{
    perform_in(&mut Memory::new(alloc), job.work(), from, to, notes)
}
