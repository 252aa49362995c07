// The limits of a run.
ghost use Rattle.std.specs.Prelude.{◌≡◌, None, Some, MatchResult};
ghost use Rattle.tds_meter.specs.LimitFaults.{IsColumnRoom, IsMaxWire, IsPacketSize};

use crate::area::GREATEST_ROOM;
use thiserror::Error;

/// The least packet size of a response, in bytes (MS-TDS, Packet Size).
pub const LEAST_PACKET_SIZE: u16 = 512;

/// The greatest packet size of a response, in bytes (MS-TDS, Packet Size).
pub const GREATEST_PACKET_SIZE: u16 = 32_767;

/// The least room for an encoded description, in bytes: that of one column of a fixed kind without a name.
pub const LEAST_COLUMN_ROOM: u32 = 10;

/// The greatest room for an encoded description, in bytes: 64 MiB.
pub const GREATEST_COLUMN_ROOM: u32 = GREATEST_ROOM as u32;

/// The least limit of the wire, in bytes: a packet without a body.
pub const LEAST_MAX_WIRE: u64 = 8;

/// The greatest limit of the wire, in bytes: 2 to the power of 56. With it all counts of a run are exact.
pub const GREATEST_MAX_WIRE: u64 = 72_057_594_037_927_936;

/// The limits of a run. Each is in its range.
#[derive(Debug, Clone, Copy)]
pub struct Limits {
    packet_size: u16,
    column_room: u32,
    max_wire: u64,
    ghost packet_size_in_range: { IsPacketSize packet_size },
    ghost column_room_in_range: { IsColumnRoom column_room },
    ghost max_wire_in_range: { IsMaxWire max_wire },
}

/// Why numbers are no limits.
#[derive(Debug, Clone, Copy, PartialEq, Eq, Error)]
pub enum LimitFault {
    #[error("the packet size isn't 512 to 32,767")]
    PacketSize,
    #[error("the column room isn't 10 to 67,108,864 bytes")]
    ColumnRoom,
    #[error("the wire limit isn't 8 to 72,057,594,037,927,936 bytes")]
    MaxWire,
}

impl Limits {
    ghost use Rattle.tds_meter.specs.LimitFaults.{limit_fault};

    /// The limits with these numbers, all in bytes: the greatest packet, the longest encoded
    /// description of columns, and the greatest number of wire bytes, packet headers included.
    ///
    /// The fault names the first that is out of its range: `PacketSize` unless it is 512 to 32,767,
    /// `ColumnRoom` unless it is 10 to 67,108,864, `MaxWire` unless it is 8 to 72,057,594,037,927,936.
    pub fn new(packet_size: u16, column_room: u32, max_wire: u64) -> Result<Limits, LimitFault>
        ensures { MatchResult result
            (λ limits. (limit_fault packet_size column_room max_wire ≡ None)
            × (limits.packet_size ≡ packet_size) × (limits.column_room ≡ column_room) × (limits.max_wire ≡ max_wire))
            (λ fault. limit_fault packet_size column_room max_wire ≡ Some fault) }
    {
        if packet_size < LEAST_PACKET_SIZE || packet_size > GREATEST_PACKET_SIZE {
            return Err(LimitFault::PacketSize);
        }
        if column_room < LEAST_COLUMN_ROOM || column_room > GREATEST_COLUMN_ROOM {
            return Err(LimitFault::ColumnRoom);
        }
        if max_wire < LEAST_MAX_WIRE || max_wire > GREATEST_MAX_WIRE {
            return Err(LimitFault::MaxWire);
        }
        Ok(Limits {
            packet_size,
            column_room,
            max_wire,
        })
    }

    /// The greatest packet in bytes, its header included: 512 to 32,767.
    pub fn packet_size(&self) -> u16
        ensures { result ≡ self.now.packet_size }
    {
        self.packet_size
    }

    /// The longest encoded description of columns in bytes: 10 to 67,108,864.
    pub fn column_room(&self) -> u32
        ensures { result ≡ self.now.column_room }
    {
        self.column_room
    }

    /// The greatest number of wire bytes of a response: 8 to 72,057,594,037,927,936.
    pub fn max_wire(&self) -> u64
        ensures { result ≡ self.now.max_wire }
    {
        self.max_wire
    }
}
