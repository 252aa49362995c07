// The export of a whole response.
ghost use Rattle.std.specs.Prelude.{◌≡◌, ◌+◌, ◌≤◌, [], false, true, IsTrue, OnErr, OnOk};
ghost use Rattle.tds_csv.specs.Sinks.{IsOnSameSink, IsReady, held};
ghost use Rattle.tds_export.specs.Exports.{Exports, FlushedOrFailed, stopped_with};
ghost use Rattle.tds_export.specs.Moments.{moment};
ghost use Rattle.tds_meter.specs.Counts.{Rose, one_more};
ghost use Rattle.tds_meter.specs.Rooms.{is_intact, peak_rest};

use crate::exporter::read_response;
use crate::report::{Report, Stopped};
use std::io::{Read, Write};
use tds_csv::Sink;
use tds_meter::Areas;
use tds_packet::{Counted, Payload, Stop};

// Delivers what waits if the writer hasn't failed, and returns the stop with what it took.
#[tactic(auto, using(crate::proofs::Endings::tidies))]
fn stop_at<W: Write>(sink: &mut Sink<W>, stop: Stop) -> Stopped
    requires { IsReady sink.old }
    ensures ready { IsReady sink.new }
    ensures same { IsOnSameSink sink.old sink.new }
    ensures stop { result ≡ stopped_with stop (held W.contents sink.new) }
    ensures tidied { sink.old.failed ≡ false → FlushedOrFailed (held W.contents sink.old) (held W.contents sink.new) }
    ensures failed { sink.old.failed ≡ true → sink.new ≡ sink.old }
{
    let _ = sink.finish();
    Stopped {
        fault: stop.fault,
        place: stop.place,
        written: sink.delivered(),
        unwritten: sink.waiting(),
    }
}

/// Reads one response from the reader, and writes the rows of its result sets as quoted CSV in UTF-8
/// to the writer while they come. It begins by restarting the areas, and takes no memory.
///
/// After a fault of the input the text that waits is still delivered and the writer flushed; after a
/// fault of the writer the input isn't read further. A report is returned only if no read and no
/// write failed, and after a stop the notice area is empty.
pub fn export<R: Read, W: Write>(
    areas: &mut Areas,
    from: &mut Counted<R>,
    to: &mut Counted<W>,
    charset: tds_values::Charset,
) -> Result<Report, Stopped>
    requires { IsTrue (is_intact areas.old) }
    ensures intact { IsTrue (is_intact areas.new) }
    ensures limits { areas.new.limits ≡ areas.old.limits }
    ensures restarts { areas.new.restarts ≡ one_more areas.old.restarts }
    ensures bound { peak_rest areas.new ≤ areas.old.limits.packet_size + 65536 + 4736 }
    ensures no_failure { OnOk result (¬ Rose from.old.failures from.new.failures
        × ¬ Rose to.old.failures to.new.failures) }
    ensures no_notice { OnErr result (areas.new.notice.bytes ≡ []) }
    ensures exports { let at = moment R.remaining W.contents in
        Exports charset (at areas.old from.old to.old) (at areas.new from.new to.new) result }
{
    areas.restart();
    let max_wire = areas.limits().max_wire();
    let mut payload = Payload::new(from, &mut areas.packet, max_wire);
    let mut sink = Sink::new(to, &mut areas.output);
    match read_response(
        &mut payload,
        &mut sink,
        &mut areas.description,
        &mut areas.token,
        &mut areas.notice,
        &mut areas.small,
        charset,
    ) {
        Ok(report) => Ok(report),
        Err(stop) => {
            areas.notice.clear();
            Err(stop_at(&mut sink, stop))
        }
    }
}
