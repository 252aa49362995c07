// One packet.
ghost use Rattle.std.specs.Prelude.{◌≡◌, ◌+◌, ◌^◌, ◌<◌, ◌≤◌, length, IfErr, IfOk};
ghost use Rattle.tds_packet.specs.Devices.{device};
ghost use Rattle.tds_packet.specs.Reads.{FillsFrom, IsOfPackets, KeepsRoom, ReadsPacket, header_of};

use crate::counted::{Counted, Short};
use crate::fault::Fault;
use byteorder::{BigEndian, ByteOrder};
use std::io::Read;
use tds_meter::Area;

/// The Type of a packet of a tabular result (MS-TDS, Packet Header).
pub(crate) const TABULAR_RESULT: u8 = 0x04;

/// What a header says: the packet's Length, 8 or more, and whether the packet is the last.
#[derive(Debug, Clone, Copy)]
pub(crate) struct Header {
    pub(crate) length: u16,
    pub(crate) last: bool,
}

// Judges a header after `wire` bytes of the wire: its Type, its Length, the limit of the wire.
fn judge_header(header: &[u8], room: usize, max_wire: u64, wire: u64) -> Result<Header, Fault>
    requires whole { length header.now ≡ 8 }
    requires within { wire ≤ 2 ^ 56 }
    ensures value { result ≡ header_of room max_wire wire header.now }
    ensures fits { IfOk result (λ h. (8 ≤ h.length) × (h.length ≤ room) × (wire + h.length ≤ max_wire)) }
    ensures fault { IfErr result (λ fault. IsOfPackets fault) }
{
    if header[0] != TABULAR_RESULT {
        return Err(Fault::WrongPacketType(header[0]));
    }
    let length = BigEndian::read_u16(&header[2..4]);
    if length < 8 || usize::from(length) > room {
        return Err(Fault::BadPacketLength(length));
    }
    if wire + u64::from(length) > max_wire {
        return Err(Fault::ResponseTooLong);
    }
    Ok(Header {
        length,
        last: header[1] % 2 == 1,
    })
}

fn fill<R: Read>(from: &mut Counted<R>, to: &mut [u8]) -> Result<(), Fault>
    ensures read { let at = device R.remaining in FillsFrom (at from.old) (at from.new) to.new result }
    ensures fault { IfErr result (λ fault. IsOfPackets fault) }
{
    match from.fill(to) {
        Ok(()) => Ok(()),
        Err(Short::Ended) => Err(Fault::InputEnded),
        Err(Short::Failed) => Err(Fault::ReadFailed),
    }
}

fn read_body<R: Read>(from: &mut Counted<R>, packet: &mut Area, n: usize) -> Result<(), Fault>
    requires fits { n ≤ packet.old.room }
    requires peak { packet.old.peak ≤ packet.old.room }
    ensures bytes { let at = device R.remaining in FillsFrom (at from.old) (at from.new) packet.new.bytes result }
    ensures len { length packet.new.bytes ≡ n }
    ensures area { KeepsRoom packet.old packet.new }
    ensures fault { IfErr result (λ fault. IsOfPackets fault) }
{
    packet.clear();
    let body = packet.grow_within(n);
    fill(from, body)
}

/// Reads the next packet of a message, of whose wire `wire` bytes were read: its header, and then
/// its body into the area, whose room is the greatest packet size. After a fault what is in the
/// area isn't fixed.
pub(crate) fn read_packet<R: Read>(
    from: &mut Counted<R>,
    packet: &mut Area,
    max_wire: u64,
    wire: u64,
) -> Result<Header, Fault>
    requires within { wire ≤ 2 ^ 56 }
    requires peak { packet.old.peak ≤ packet.old.room }
    ensures read { let at = device R.remaining in
        ReadsPacket packet.old.room max_wire wire (at from.old) (at from.new) packet.new.bytes result }
    ensures area { KeepsRoom packet.old packet.new }
    ensures fits { IfOk result (λ h. (length packet.new.bytes + 8 ≡ h.length) × (wire + h.length ≤ max_wire)) }
    ensures fault { IfErr result (λ fault. IsOfPackets fault) }
{
    let mut header = [0u8; 8];
    fill(from, &mut header)?;
    let room = packet.room();
    let head = judge_header(&header, room, max_wire, wire)?;
    read_body(from, packet, usize::from(head.length) - 8)?;
    Ok(head)
}
