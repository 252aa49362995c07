// The value that a procedure returns (MS-TDS, RETURNVALUE).
ghost use Rattle.std.specs.Prelude.{◌≤◌, IfOk, IsTrue};
ghost use Rattle.tds_export.specs.Lending.{LeavesFurther};
ghost use Rattle.tds_export.specs.Returning.{NamePassed, ReturnPassed, TypeTaken};
ghost use Rattle.tds_packet.specs.Payloads.{IsGoing};
ghost use Rattle.tds_packet.specs.Reads.{KeepsRoom};
ghost use Rattle.tds_values.specs.Kind as kinds;

use std::io::Read;
use tds_columns::{TYPE_HEAD, TYPE_ROOM, read_into, read_type_info};
use tds_meter::{Area, SMALL_ROOM};
use tds_packet::{Payload, Stop};
use tds_rows::pass_over;
use tds_values::Kind;

// How many bytes the ordinal has.
const ORDINAL: usize = 2;

// Passes over the ordinal and the name.
fn pass_name<R: Read>(payload: &mut Payload<R>) -> Result<(), Stop>
    requires { IsGoing payload.old }
    ensures leaves { LeavesFurther payload.old payload.new result }
    ensures gives { NamePassed R.remaining payload.old payload.new result }
{
    payload.pass(ORDINAL)?;
    let mut units = [0u8; 1];
    payload.fill(&mut units)?;
    payload.pass(2 * usize::from(units[0]))?;
    Ok(())
}

// Reads status, UserType, Flags and the type information after a name, and returns the kind.
fn take_type<R: Read>(payload: &mut Payload<R>, small: &mut Area) -> Result<Kind, Stop>
    requires going { IsGoing payload.old }
    requires room { TYPE_ROOM ≤ small.old.room }
    ensures leaves { LeavesFurther payload.old payload.new result }
    ensures area { KeepsRoom small.old small.new }
    ensures valid { IfOk result (λ kind. IsTrue (kinds.is_valid kind)) }
    ensures gives { TypeTaken R.remaining payload.old payload.new result }
{
    small.clear();
    read_into(payload, small, TYPE_HEAD)?;
    read_type_info(payload, small)
}

/// Passes over a RETURNVALUE after its token byte. Its type information is in the small area, and
/// then a scalar value, until it is judged.
pub(crate) fn pass_return<R: Read>(payload: &mut Payload<R>, small: &mut Area) -> Result<(), Stop>
    requires going { IsGoing payload.old }
    requires room { SMALL_ROOM ≤ small.old.room }
    requires peak { small.old.peak ≤ small.old.room }
    ensures leaves { LeavesFurther payload.old payload.new result }
    ensures area { KeepsRoom small.old small.new }
    ensures gives { ReturnPassed R.remaining payload.old payload.new result }
{
    pass_name(payload)?;
    let kind = take_type(payload, small)?;
    pass_over(payload, &kind, small)
}
