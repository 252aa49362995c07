// Writers that fail.
use super::*;
use crate::checks::same;

// The packet without its DONE.
const WITHOUT_DONE: [u8; 26] = [
    0x04, 0x01, 0x00, 0x1A, 0x00, 0x00, 0x01, 0x00, 0x81, 0x01, 0x00, 0x00, 0x00, 0x00, 0x00, 0x08,
    0x00, 0x38, 0x01, 0x61, 0x00, 0xD1, 0x2A, 0x00, 0x00, 0x00,
];

// A response, a writer that fails, and what stops the export.
#[derive(Clone, Copy)]
struct Broken {
    wire: &'static [u8],
    failing: Failing,
    fault: Fault,
    place: Place,
    written: usize,
}

const BROKEN: [Broken; 6] = [
    Broken {
        wire: &WIRE,
        failing: Failing::ZeroAfterBytes(0),
        fault: Fault::WriteFailed,
        place: Place::Text(0),
        written: 0,
    },
    Broken {
        wire: &WIRE,
        failing: Failing::AtWrite(0),
        fault: Fault::WriteFailed,
        place: Place::Text(0),
        written: 0,
    },
    Broken {
        wire: &WIRE,
        failing: Failing::AtWrite(1),
        fault: Fault::WriteFailed,
        place: Place::Text(4),
        written: 4,
    },
    Broken {
        wire: &WIRE,
        failing: Failing::InFlush,
        fault: Fault::WriteFailed,
        place: Place::Text(9),
        written: 9,
    },
    // the message ends before its last token, and that fault stands
    Broken {
        wire: &WITHOUT_DONE,
        failing: Failing::AfterBytes(0),
        fault: Fault::EndWithoutDone,
        place: Place::Payload(18),
        written: 0,
    },
    Broken {
        wire: &WITHOUT_DONE,
        failing: Failing::InFlush,
        fault: Fault::EndWithoutDone,
        place: Place::Payload(18),
        written: 9,
    },
];

// The writer takes at most four bytes a call.
fn check_broken(areas: &mut Areas, case: Broken) -> Result<(), Fail> {
    let from = ScriptedReader::new(case.wire, 1000);
    let writer = ScriptedWriter::new(4, case.failing);
    let (taken, waiting) = TEXT.split_at(TEXT.len().min(case.written));
    let out = run(areas, from, writer, Charset::Windows1252, taken);
    let answer = Err(Stopped {
        fault: case.fault,
        place: case.place,
        written: taken.len() as u64,
        unwritten: waiting.len() as u64,
    });
    let want = Outcome {
        write_failures: 1,
        ..came_to(answer, taken)
    };
    same(
        format_args!("{:?}", case.failing),
        &(out, areas.waiting()),
        &(Some(want), waiting),
    )
}

#[test]
fn a_failed_write_says_what_was_taken(rt: HostRuntime) -> Result<(), Fail> {
    let mut areas = make_areas(rt.alloc(), PACKET_SIZE)?;
    for case in &BROKEN {
        check_broken(&mut areas, *case)?;
    }
    Ok(())
}
