// Reading a description that may be that of the set before it (MS-TDS, COLMETADATA).
ghost use Rattle.std.specs.Prelude.{◌≡◌, ◌≤◌, [], true, None, Err, length, max, take, IfSome};
ghost use Rattle.tds_columns.specs.Elements.{LeavesReading};
ghost use Rattle.tds_columns.specs.Gather.{DescriptionRead};
ghost use Rattle.tds_columns.specs.View.{IsDescription};
ghost use Rattle.tds_packet.specs.Payloads.{IsSound, buffered};

use crate::metadata::{COUNT, Described, gather};
use crate::view::Columns;
use std::io::Read;
use tds_meter::Area;
use tds_packet::{Payload, Stop};

// Whether the area's bytes come next in the packet.
fn come_next<R: Read>(payload: &Payload<R>, area: &Area) -> bool
    requires { IsSound payload.now }
    ensures going { result ≡ true → payload.now.stopped ≡ None }
    ensures within { result ≡ true → length area.now.bytes ≤ length (buffered payload.now) }
    ensures equal { result ≡ true → take (length area.now.bytes) (buffered payload.now) ≡ area.now.bytes }
{
    payload.stopped().is_none() && payload.buffered().starts_with(area.bytes())
}

/// Reads a description as [`gather`] does, into an area that has the one before it if `described`. A description with the same
/// bytes as that one is left where it is: each FETCH in a loop over a cursor sends the same again.
pub fn gather_next<R: Read>(
    payload: &mut Payload<R>,
    area: &mut Area,
    described: bool,
) -> Result<Described, Stop>
    requires sound { IsSound payload.old }
    requires room { COUNT ≤ area.old.room }
    requires described { described ≡ true → IsDescription area.old.bytes }
    ensures leaves { LeavesReading payload.old payload.new area.old area.new result }
    ensures gives { DescriptionRead R.remaining payload.old payload.new area.old area.new result }
    ensures again { IfSome payload.old.stopped (λ stop. (result ≡ Err stop) × (payload.new ≡ payload.old)
        × (area.new.bytes ≡ []) × (area.new.peak ≤ max area.old.peak COUNT)) }
{
    if !described || !come_next(payload, area) {
        return gather(payload, area);
    }
    payload.consume(area.len());
    Ok(Described::Columns(Columns::view(area.bytes()).count()))
}
