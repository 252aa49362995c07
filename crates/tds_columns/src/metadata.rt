// Reading a description from a payload (MS-TDS, COLMETADATA).
ghost use Rattle.std.specs.Prelude.{◌≡◌, ◌≢◌, ◌+◌, ◌*◌, ◌-◌, ◌<◌, ◌≤◌, [], false, true, Some, None, Ok, Err, length, max, IfSome, MatchResult, OnErr, OnOk};
ghost use Rattle.tds_columns.specs.Description as spec;
ghost use Rattle.tds_columns.specs.Elements.{LeavesReading};
ghost use Rattle.tds_columns.specs.Gather.{BeginsDescription, ColumnRead, ColumnsRead, CountRead, DescribesAll, DescriptionRead, FollowsType, InfoRead, NameRead, TypeRead};
ghost use Rattle.tds_packet.specs.Elements.{AreBytes};
ghost use Rattle.tds_packet.specs.Payloads.{IsGoing, IsSound, LeavesPayload, buffered, seen};
ghost use Rattle.tds_values.specs.TypeInfo as info;

use crate::element::read_into;
use crate::type_info::{judge_type, kind_of};
use crate::whole::{Front, column_size, whole_description};
use byteorder::{ByteOrder, LittleEndian};
use std::io::Read;
use tds_meter::Area;
use tds_packet::{Fault, Payload, Stop};

/// What a COLMETADATA says (MS-TDS, COLMETADATA).
#[derive(Debug, Clone, Copy, PartialEq, Eq)]
pub enum Described {
    /// This many columns are described, 1 to 65,534.
    Columns(u16),
    /// There is no metadata.
    NoMetadata,
}

/// A Count that says that there is no metadata.
pub(crate) const NO_METADATA: u16 = 0xFFFF;

/// The bytes of Count.
pub(crate) const COUNT: usize = 2;

// The bytes of UserType, Flags and the type byte.
const HEAD: usize = 7;

/// The fewest bytes that describe a column: its head, and the count of an empty name.
pub(crate) const LEAST_COLUMN: usize = 8;

// A column by its number, and how many there are.
#[derive(Clone, Copy)]
struct Nth {
    index: u16,
    count: u16,
}

/// The numbers of a slice are bytes. It is called for what it ensures.
pub(crate) fn are_bytes(bytes: &[u8])
    ensures { AreBytes bytes.now }
{}

// The fault of a description that has `so_far` bytes, of which at least `least` follow.
fn too_long(room: usize, so_far: usize, least: usize) -> Option<Fault>
    requires { so_far ≤ room }
    ensures { result ≡ spec.too_long room so_far least }
{
    if least > room - so_far {
        Some(Fault::DescriptionTooLong)
    } else {
        None
    }
}

// The fault of a Count that isn't that of no metadata.
fn judge_count(room: usize, count: u16) -> Option<Fault>
    requires room { COUNT ≤ room }
    requires some { count ≢ NO_METADATA }
    ensures { result ≡ spec.count_fault room count }
{
    if count == 0 {
        Some(Fault::NoColumns)
    } else {
        too_long(room, COUNT, LEAST_COLUMN * usize::from(count))
    }
}

// Reads Count.
fn read_count<R: Read>(payload: &mut Payload<R>, area: &mut Area) -> Result<Described, Stop>
    requires sound { IsSound payload.old }
    requires room { COUNT ≤ area.old.room }
    requires empty { area.old.bytes ≡ [] }
    ensures leaves { LeavesReading payload.old payload.new area.old area.new result }
    ensures gives { CountRead R.remaining payload.old payload.new area.old area.new result }
    ensures again { IfSome payload.old.stopped (λ stop. (result ≡ Err stop) × (payload.new ≡ payload.old)) }
{
    let place = payload.place();
    read_into(payload, area, COUNT)?;
    are_bytes(area.bytes());
    let count = LittleEndian::read_u16(area.bytes());
    if count == NO_METADATA {
        area.clear();
        return Ok(Described::NoMetadata);
    }
    match judge_count(area.room(), count) {
        None => Ok(Described::Columns(count)),
        Some(fault) => {
            area.clear();
            Err(Stop::in_payload(fault, place))
        }
    }
}

// How many bytes of type information follow the head of the column with this number, which ends `so_far`
// bytes after the description's beginning; `left` columns follow this one.
fn judge_head(room: usize, so_far: usize, byte: u8, index: u16, left: u16) -> Result<usize, Fault>
    requires { so_far ≤ room }
    ensures { MatchResult result
        (λ rest. (info.rest_length byte ≡ Some rest) × ((so_far + rest) + 1 + LEAST_COLUMN * left ≤ room))
        (λ fault. spec.head_fault room so_far byte index left ≡ Some fault) }
{
    let rest = judge_type(index, byte)?;
    match too_long(room, so_far, rest + 1 + LEAST_COLUMN * usize::from(left)) {
        None => Ok(rest),
        Some(fault) => Err(fault),
    }
}

// Reads what follows the type byte of a column.
fn read_info<R: Read>(
    payload: &mut Payload<R>,
    area: &mut Area,
    byte: u8,
    rest: usize,
    index: u16,
) -> Result<(), Stop>
    requires going { IsGoing payload.old }
    requires follows { FollowsType byte rest }
    requires fits { length area.old.bytes + rest ≤ area.old.room }
    ensures leaves { LeavesReading payload.old payload.new area.old area.new result }
    ensures length { OnOk result (length area.new.bytes ≡ length area.old.bytes + rest) }
    ensures gives { InfoRead R.remaining payload.old payload.new area.old area.new result index byte }
{
    let info_place = payload.place();
    let start = area.len();
    read_into(payload, area, rest)?;
    match kind_of(byte, &area.bytes()[start..]) {
        Some(_) => Ok(()),
        None => {
            area.truncate(start);
            Err(Stop::in_payload(Fault::BadTypeInfo { index }, info_place))
        }
    }
}

// Reads the head of a column and what follows its type byte.
fn read_type<R: Read>(payload: &mut Payload<R>, area: &mut Area, at: Nth) -> Result<(), Stop>
    requires going { IsGoing payload.old }
    requires among { at.index < at.count }
    requires fits { length area.old.bytes + LEAST_COLUMN * (at.count - at.index) ≤ area.old.room }
    ensures leaves { LeavesReading payload.old payload.new area.old area.new result }
    ensures fits { OnOk result (length area.new.bytes + 1
        + LEAST_COLUMN * (at.count - (at.index + 1)) ≤ area.new.room) }
    ensures gives { TypeRead R.remaining payload.old payload.new area.old area.new result at.count at.index }
{
    let place = payload.place();
    let start = area.len();
    read_into(payload, area, HEAD)?;
    let byte = area.bytes()[start + 6];
    let left = at.count - (at.index + 1);
    let rest = match judge_head(area.room(), start + HEAD, byte, at.index, left) {
        Ok(rest) => rest,
        Err(fault) => {
            area.truncate(start);
            return Err(Stop::in_payload(fault, place));
        }
    };
    if rest == 0 {
        return Ok(());
    }
    read_info(payload, area, byte, rest, at.index)
}

// Reads the name of a column, and the count of its units before it.
fn read_name<R: Read>(payload: &mut Payload<R>, area: &mut Area, at: Nth) -> Result<(), Stop>
    requires going { IsGoing payload.old }
    requires among { at.index < at.count }
    requires fits { length area.old.bytes + 1 + LEAST_COLUMN * (at.count - (at.index + 1)) ≤ area.old.room }
    ensures leaves { LeavesReading payload.old payload.new area.old area.new result }
    ensures fits { OnOk result (length area.new.bytes + LEAST_COLUMN * (at.count - (at.index + 1)) ≤ area.new.room) }
    ensures gives { NameRead R.remaining payload.old payload.new area.old area.new result at.count at.index }
{
    let place = payload.place();
    let start = area.len();
    read_into(payload, area, 1)?;
    let size = 2 * usize::from(area.bytes()[start]);
    let later = LEAST_COLUMN * usize::from(at.count - (at.index + 1));
    if let Some(fault) = too_long(area.room(), start + 1, size + later) {
        area.truncate(start);
        return Err(Stop::in_payload(fault, place));
    }
    if size == 0 {
        return Ok(());
    }
    read_into(payload, area, size)
}

// Takes the next column, all of it at once, if it is whole in the packet, isn't refused and leaves room for the least bytes of those
// after it. Returns whether it did.
fn take_column<R: Read>(payload: &mut Payload<R>, area: &mut Area, at: Nth) -> bool
    requires going { IsGoing payload.old }
    requires among { at.index < at.count }
    ensures leaves { LeavesReading {U = Unit {0}} payload.old payload.new area.old area.new (Ok tt) }
    ensures none { result ≡ false → (payload.new ≡ payload.old) × (area.new ≡ area.old) }
    ensures fits { result ≡ true → length area.new.bytes + LEAST_COLUMN * (at.count - (at.index + 1)) ≤ area.new.room }
    ensures gives { result ≡ true →
        ColumnRead {U = Unit {0}} R.remaining payload.old payload.new area.old area.new (Ok tt) at.count at.index }
{
    let held = payload.buffered();
    let Some(size) = column_size(held) else {
        return false;
    };
    let later = LEAST_COLUMN * usize::from(at.count - (at.index + 1));
    if size + later > area.free() {
        return false;
    }
    let Ok(()) = area.append(&held[..size]) else {
        unreachable!()
    };
    payload.consume(size);
    true
}

// Reads a column element by element.
fn read_parts<R: Read>(payload: &mut Payload<R>, area: &mut Area, at: Nth) -> Result<(), Stop>
    requires going { IsGoing payload.old }
    requires among { at.index < at.count }
    requires fits { length area.old.bytes + LEAST_COLUMN * (at.count - at.index) ≤ area.old.room }
    ensures leaves { LeavesReading payload.old payload.new area.old area.new result }
    ensures fits { OnOk result (length area.new.bytes + LEAST_COLUMN * (at.count - (at.index + 1)) ≤ area.new.room) }
    ensures gives { ColumnRead R.remaining payload.old payload.new area.old area.new result at.count at.index }
{
    read_type(payload, area, at)?;
    read_name(payload, area, at)
}

// Reads a column.
fn read_column<R: Read>(payload: &mut Payload<R>, area: &mut Area, at: Nth) -> Result<(), Stop>
    requires going { IsGoing payload.old }
    requires among { at.index < at.count }
    requires fits { length area.old.bytes + LEAST_COLUMN * (at.count - at.index) ≤ area.old.room }
    ensures leaves { LeavesReading payload.old payload.new area.old area.new result }
    ensures fits { OnOk result (length area.new.bytes + LEAST_COLUMN * (at.count - (at.index + 1)) ≤ area.new.room) }
    ensures gives { ColumnRead R.remaining payload.old payload.new area.old area.new result at.count at.index }
{
    if take_column(payload, area, at) {
        return Ok(());
    }
    read_parts(payload, area, at)
}

// The description that comes next, if it is whole in the packet. `None` if it goes on in another packet, is refused or is that of
// no metadata.
fn front<R: Read>(payload: &Payload<R>, room: usize) -> Option<Front>
    requires { IsSound payload.now }
    ensures going { IfSome result (λ _. payload.now.stopped ≡ None) }
    ensures begins { IfSome result (λ front. BeginsDescription room (buffered payload.now) front.count front.size) }
{
    if payload.stopped().is_some() {
        return None;
    }
    whole_description(payload.buffered(), room)
}

// Takes a description that is whole in the packet into an empty area, all of it at once.
fn take_front<R: Read>(payload: &mut Payload<R>, area: &mut Area, front: Front)
    requires going { IsGoing payload.old }
    requires empty { area.old.bytes ≡ [] }
    requires begins { BeginsDescription area.old.room (buffered payload.old) front.count front.size }
    ensures leaves { LeavesReading {U = Unit {0}} payload.old payload.new area.old area.new (Ok tt) }
    ensures gives { DescribesAll area.old.room (seen R.remaining payload.old) (seen R.remaining payload.new)
        payload.old.place payload.new.place area.old.peak area.new (Described.Columns front.count) }
{
    let held = payload.buffered();
    let Ok(()) = area.append(&held[..front.size]) else {
        unreachable!()
    };
    payload.consume(front.size);
}

// Reads all columns after Count.
fn read_columns<R: Read>(payload: &mut Payload<R>, area: &mut Area, count: u16) -> Result<(), Stop>
    requires going { IsGoing payload.old }
    requires some { 0 < count }
    requires fits { length area.old.bytes + LEAST_COLUMN * count ≤ area.old.room }
    ensures leaves { LeavesReading payload.old payload.new area.old area.new result }
    ensures gives { ColumnsRead R.remaining payload.old payload.new area.old area.new result count }
{
    'columns: for index in 0..count {
        read_column(payload, area, Nth { index, count })?;
    }
    Ok(())
}

// Reads a description from Count to the last name into an empty area, element by element.
fn read_elements<R: Read>(payload: &mut Payload<R>, area: &mut Area) -> Result<Described, Stop>
    requires sound { IsSound payload.old }
    requires room { COUNT ≤ area.old.room }
    requires empty { area.old.bytes ≡ [] }
    ensures leaves { LeavesReading payload.old payload.new area.old area.new result }
    ensures gives { DescriptionRead R.remaining payload.old payload.new area.old area.new result }
    ensures again { IfSome payload.old.stopped (λ stop. (result ≡ Err stop) × (payload.new ≡ payload.old)
        × (area.new.bytes ≡ []) × (area.new.peak ≤ max area.old.peak COUNT)) }
{
    let Described::Columns(count) = read_count(payload, area)? else {
        return Ok(Described::NoMetadata);
    };
    read_columns(payload, area, count)?;
    are_bytes(area.bytes());
    Ok(Described::Columns(count))
}

/// Reads a description after the token byte into the area, from Count to the last name; the area is
/// emptied first. Where Count says that there is no metadata the area stays empty. It has room for
/// Count at least.
///
/// Stops with the faults of the payload, `MessageEnded` if the message ends in the description,
/// and `NoColumns`, `RefusedColumn`, `UnknownType`, `BadTypeInfo` and `DescriptionTooLong`. The area
/// then has the elements that were read whole: nothing of the one that was refused or cut. A payload
/// that stopped before gives its stop again.
pub fn gather<R: Read>(payload: &mut Payload<R>, area: &mut Area) -> Result<Described, Stop>
    requires sound { IsSound payload.old }
    requires room { COUNT ≤ area.old.room }
    ensures payload { LeavesPayload payload.old payload.new result }
    ensures room { area.new.room ≡ area.old.room }
    ensures gives { DescriptionRead R.remaining payload.old payload.new area.old area.new result }
    ensures again { IfSome payload.old.stopped (λ stop. (result ≡ Err stop) × (payload.new ≡ payload.old)
        × (area.new.bytes ≡ []) × (area.new.peak ≤ max area.old.peak COUNT)) }
{
    area.clear();
    if let Some(front) = front(payload, area.room()) {
        take_front(payload, area, front);
        return Ok(Described::Columns(front.count));
    }
    read_elements(payload, area)
}
