// An element that is kept in an area.
ghost use Rattle.std.specs.Prelude.{◌≡◌, ◌+◌, ◌≤◌, length, is_ok, if◌then◌else◌};
ghost use Rattle.tds_columns.specs.Elements.{ElementRead, LeavesArea};
ghost use Rattle.tds_packet.specs.Payloads.{AnswersAgain, IsSound};

use std::io::Read;
use tds_meter::Area;
use tds_packet::{Payload, Stop};

/// Reads `n` bytes to the end of an area that has room for them. After a stop the area has what it
/// had; a payload that stopped before gives its stop again.
pub fn read_into<R: Read>(payload: &mut Payload<R>, area: &mut Area, n: usize) -> Result<(), Stop>
    requires sound { IsSound payload.old }
    requires fits { length area.old.bytes + n ≤ area.old.room }
    ensures payload { AnswersAgain payload.old payload.new result }
    ensures place { payload.new.place ≡ (if is_ok result then payload.old.place + n else payload.old.place) }
    ensures area { LeavesArea area.old area.new n result }
    ensures gives { ElementRead R.remaining payload.old payload.new area.old area.new n result }
{
    let held = payload.buffered();
    if n <= held.len() && payload.stopped().is_none() {
        let Ok(()) = area.append(&held[..n]) else {
            unreachable!()
        };
        payload.consume(n);
        return Ok(());
    }
    let start = area.len();
    let lent = area.grow_within(n);
    match payload.fill(lent) {
        Ok(()) => Ok(()),
        Err(stop) => {
            area.truncate(start);
            Err(stop)
        }
    }
}
