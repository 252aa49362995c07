//! The command: reads the raw packets of a response, or of one after another, from a file or standard input, and
//! writes the rows as CSV, counts them, or writes the packets in another size. What it reports goes to standard error.
#![tactic(auto)]

ghost use Rattle.std.specs.Prelude.{◌≡◌, IfOk, drop};
ghost use Rattle.std.specs.Vec.Iter.{into_iter_items};
ghost use Rattle.replay.specs.Runs.{Ends, Reads, RunsFrom, RunsJob, ahead_of as read_ahead};
ghost use Rattle.tds_arguments.specs.Jobs.{IsInRange};

use std::alloc::AllocError;
use std::env;
use std::env::Args;
use std::fs::File;
use std::io::{BufReader, ErrorKind, Read, Write};
use std::process::ExitCode;
use tds_packet::Counted;
use tds_replay::{
    Job, Memory, Status, Usage, Work, parse, perform_in, say_unreadable, say_usage,
    say_want_of_memory,
};

/// How many bytes are read ahead at most of what is read by this program alone.
const AHEAD: usize = 65_536;

/// What is written on standard error if an argument isn't text.
const NOT_UTF_8: &str = "error: the arguments aren't UTF-8\n";

// The arguments after the program's name.
fn arguments_of(rt: &HostRuntime, mut args: Args) -> Result<Vec<String>, AllocError>
    ensures { IfOk result (λ arguments. arguments.items ≡ drop 1 (into_iter_items args)) }
{
    let mut arguments = Vec::new(rt.alloc());
    let _program = args.next();
    while let Some(argument) = args.next() {
        arguments.push(argument)?;
    }
    Ok(arguments)
}

// Reads the arguments after the program's name as a job.
fn job_of(rt: &HostRuntime, args: Args) -> Result<Job, Usage>
    ensures range { IfOk result IsInRange }
    ensures answers { Reads (drop 1 (into_iter_items args)) result }
{
    parse(rt.alloc(), arguments_of(rt, args)?.as_slice())
}

// Reads the command line.
fn read_job(rt: &HostRuntime) -> Result<Job, Usage>
    ensures { IfOk result IsInRange }
{
    match env::args(rt) {
        Ok(args) => job_of(rt, args),
        Err(error) if error.kind() == ErrorKind::OutOfMemory => Err(Usage::OutOfMemory),
        Err(_) => Err(Usage::Refused(String::from_str(rt.alloc(), NOT_UTF_8)?)),
    }
}

// How many bytes of standard input are read ahead at most: none if one response is read, since another program may read on from it.
fn ahead_of(work: &Work) -> usize
    ensures { result ≡ read_ahead work.now }
{
    match work {
        Work::ExportAll { .. } | Work::CheckAll { .. } => AHEAD,
        _ => 0,
    }
}

// Performs a job over what it reads.
fn run_from<R: Read + Drop, N: Write>(
    rt: &HostRuntime,
    job: &Job,
    from: R,
    ahead: usize,
    notes: &mut Counted<N>,
) -> u8
    requires { IsInRange job.now }
    ensures { RunsFrom R.remaining N.contents job.now from ahead notes.old notes.new result }
{
    let Ok(from) = BufReader::with_capacity(rt.alloc(), ahead, from) else {
        let _ = say_want_of_memory(notes);
        return Status::OutOfMemory.number();
    };
    let mut memory = Memory::new(rt.alloc());
    let mut to = Counted::new(rt.stdout());
    perform_in(
        &mut memory,
        job.work(),
        &mut Counted::new(from),
        &mut to,
        notes,
    )
}

// Opens what the job reads, and performs it.
fn run<N: Write>(rt: &HostRuntime, job: &Job, notes: &mut Counted<N>) -> u8
    requires { IsInRange job.now }
    ensures { RunsJob N.contents job.now notes.old notes.new result }
{
    let Some(path) = job.path() else {
        return run_from(rt, job, rt.stdin(), ahead_of(&job.work()), notes);
    };
    let Ok(file) = File::open(rt, path) else {
        let _ = say_unreadable(notes, path);
        return Status::BadDevice.number();
    };
    run_from(rt, job, file, AHEAD, notes)
}

// Performs the job that was read, or says why there is none.
fn end<N: Write>(rt: &HostRuntime, read: &Result<Job, Usage>, notes: &mut Counted<N>) -> ExitCode
    requires { IfOk read.now IsInRange }
    ensures { Ends N.contents read.now notes.old notes.new result }
{
    ExitCode::from(match read {
        Ok(job) => run(rt, job, notes),
        Err(usage) => say_usage(usage, &mut Counted::new(rt.stdout()), notes).number(),
    })
}

fn main(rt: HostRuntime) -> ExitCode {
    end(&rt, &read_job(&rt), &mut Counted::new(rt.stderr()))
}
