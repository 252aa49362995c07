// The type of the value that a procedure returns (MS-TDS, RETURNVALUE).
ghost use Rattle.std.specs.Prelude.{◌-◌, MatchResult, IfOk};
ghost use Rattle.tds_columns.specs.ReturnedType.{HoldsHead, KnownType, LeavesHead, StopsType, TypeHead, ReturnTypeRead, WereTaken, returned_type};
ghost use Rattle.tds_packet.specs.Payloads.{IsGoing, LeavesPayload, seen};
ghost use Rattle.tds_packet.specs.Reading.{Reads};
ghost use Rattle.tds_packet.specs.PayloadView.{PayloadView};

use crate::element::read_into;
use crate::type_info::{judge_type, kind_of};
use std::io::Read;
use tds_meter::Area;
use tds_packet::{Fault, Payload, Stop};
use tds_values::Kind;

/// What faults in a RETURNVALUE have for the number of a column.
pub const RETURN_COLUMN: u16 = 0xFFFF;

/// The bytes of status, UserType, Flags and the type byte of a RETURNVALUE.
pub const TYPE_HEAD: usize = 8;

/// The most bytes from its status to the end of its type information.
pub const TYPE_ROOM: usize = 15;

/// Reads what follows the type byte of a RETURNVALUE, and returns its kind. The area holds the eight
/// bytes that end with the type byte, just read from the payload, and has room for seven more; what
/// is read comes after them.
///
/// Stops with `RefusedColumn` and `UnknownType` at the place of the eight bytes, with `BadTypeInfo`
/// at that of the bytes after them, and with the faults of the payload, `MessageEnded` among them.
/// The number of the column is 65,535. The area has the eight bytes then.
pub fn read_type_info<R: Read>(payload: &mut Payload<R>, small: &mut Area) -> Result<Kind, Stop>
    requires going { IsGoing payload.old }
    requires head { HoldsHead payload.old small.old }
    ensures payload { LeavesPayload payload.old payload.new result }
    ensures area { LeavesHead small.old small.new result }
    ensures kind { IfOk result (λ kind.
        ReturnTypeRead R.remaining payload.old payload.new small.old small.new kind) }
    ensures gives { (before : PayloadView) → WereTaken before (seen R.remaining payload.old) small.old.bytes →
        MatchResult result
        (λ kind. Reads returned_type TypeHead before (seen R.remaining payload.new) (KnownType kind))
        (λ stop. StopsType before (seen R.remaining payload.new) (payload.old.place - TYPE_HEAD) stop) }
{
    let place = payload.place();
    let byte = small.bytes()[TYPE_HEAD - 1];
    let rest = match judge_type(RETURN_COLUMN, byte) {
        Ok(rest) => rest,
        Err(fault) => {
            return Err(Stop::in_payload(fault, place - TYPE_HEAD as u64));
        }
    };
    read_into(payload, small, rest)?;
    match kind_of(byte, &small.bytes()[TYPE_HEAD..]) {
        Some(kind) => Ok(kind),
        None => {
            small.truncate(TYPE_HEAD);
            let fault = Fault::BadTypeInfo {
                index: RETURN_COLUMN,
            };
            Err(Stop::in_payload(fault, place))
        }
    }
}
