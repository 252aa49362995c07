// Long values by themselves, with a joiner of each kind.
ghost use Rattle.std.specs.Prelude.{◌≡◌, []};

use super::{in_packets, length_after, usual_writer};
use std::alloc::Global;
use std::io::Write;
use std::test::Fail;
use tds_csv::{Cp1252Joiner, HexJoiner, JoinFault, Joiner, Sink, Utf8Joiner, Utf16Joiner};
use tds_meter::Area;
use tds_packet::rig::ScriptedReader;
use tds_packet::{Counted, Fault, Payload, Place, Stop};
use tds_rows::stream_value;
use tds_values::Reach;

// Reads a value of a column in packets of `size` bytes of it, with a new joiner.
fn stream<J: Joiner + Drop>(
    alloc: Global,
    bytes: &[u8],
    size: usize,
    reach: Reach,
    column: u16,
    joiner: J,
    wanted: &[u8],
) -> Result<(Result<(), Stop>, Option<usize>), Fail>
    requires { J.withheld joiner ≡ [] }
{
    let wire = in_packets(alloc, bytes, size)?;
    let mut from = Counted::new(ScriptedReader::new(&wire, 1000));
    let mut to = Counted::new(usual_writer());
    let mut packet = Area::new(alloc, 4096)?;
    let mut output = Area::new(alloc, 4096)?;
    let mut payload = Payload::new(&mut from, &mut packet, 1_000_000);
    let mut sink = Sink::new(&mut to, &mut output);
    let answer = stream_value(&mut payload, reach, column, joiner, &mut sink);
    let _ = sink.finish();
    Ok((answer, length_after(to.device().kept(), wanted)))
}

// The two bytes 41 and 80 as a value of column 3, by a joiner of each kind: the second begins no character of UTF-8.
#[test]
fn each_joiner_has_its_text(rt: HostRuntime) -> Result<(), Fail> {
    let (alloc, short, bytes) = (rt.alloc(), Reach::Short, &[2, 0, 0x41, 0x80]);
    let hex = stream(alloc, bytes, 9, short, 3, HexJoiner::new(), b",0x4180")?;
    assert!(rt; hex == (Ok(()), Some(7)));
    let single = b",\"A\xE2\x82\xAC\"";
    let narrow = stream(alloc, bytes, 9, short, 3, Cp1252Joiner::new(), single)?;
    assert!(rt; narrow == (Ok(()), Some(7)));
    let unit = b",\"\xE8\x81\x81\"";
    let wide = stream(alloc, bytes, 9, short, 3, Utf16Joiner::new(), unit)?;
    assert!(rt; wide == (Ok(()), Some(6)));
    let stop = Stop {
        fault: Fault::BadText { column: 3 },
        place: Place::Payload(3),
    };
    let bad = stream(alloc, bytes, 9, short, 3, Utf8Joiner::new(), b",\"A")?;
    assert!(rt; bad == (Err(stop), Some(3)));
    Ok(())
}

// What counts.
trait Count {
    fn count(&mut self);
}

// A count elsewhere.
#[derive(Drop)]
struct Tally<'a>(&'a mut u64);

impl Count for Tally<'_> {
    fn count(&mut self) {
        *self.0 = self.0.saturating_add(1);
    }
}

// A joiner that has its pieces counted.
#[derive(Drop)]
struct CountingJoiner<J, C> {
    inner: J,
    pushes: Option<C>,
}

impl<J: Joiner, C: Count> Joiner for CountingJoiner<J, C> {
    const UNIT: u64 = J::UNIT;

    ghost UNIT = { J.UNIT };

    const QUOTED: bool = J::QUOTED;

    ghost QUOTED = { J.QUOTED };

    ghost fit = { J.fit };

    ghost begins = { J.begins };

    ghost rest = { J.rest };

    ghost text = { J.text };

    ghost withheld = { λ joiner. J.withheld joiner.inner };

    fn new() -> Self {
        CountingJoiner {
            inner: J::new(),
            pushes: None,
        }
    }

    fn push<W: Write>(&mut self, piece: &[u8], sink: &mut Sink<'_, W>) -> Result<(), JoinFault> {
        if let Some(pushes) = &mut self.pushes {
            pushes.count();
        }
        self.inner.push(piece, sink)
    }

    fn write(&mut self, piece: &[u8], source: &[u8], to: &mut [u8]) -> Option<usize> {
        self.inner.write(piece, source, to)
    }

    fn end<W: Write>(&mut self, sink: &mut Sink<'_, W>) -> Result<(), JoinFault> {
        self.inner.end(sink)
    }

    fn laws() {
        J::laws();
    }
}

// 400 bytes in one packet.
#[test]
fn a_value_comes_in_few_pieces(rt: HostRuntime) -> Result<(), Fail> {
    let mut value = [0xAB; 402];
    value[0] = 0x90;
    value[1] = 0x01;
    let mut text = [b'a'; 802];
    text[0] = b'0';
    text[1] = b'x';
    for i in 0..400 {
        text[2 * i + 3] = b'b';
    }
    let mut pushes = 0;
    let joiner = CountingJoiner {
        inner: HexJoiner::new(),
        pushes: Some(Tally(&mut pushes)),
    };
    let came = stream(rt.alloc(), &value, 4000, Reach::Short, 0, joiner, &text)?;
    assert!(rt; came == (Ok(()), Some(802)));
    assert!(rt; 0 < pushes && pushes < 400);
    Ok(())
}
