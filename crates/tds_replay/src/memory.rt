// The memory of a run.
ghost use Rattle.std.specs.Prelude.{◌≡◌, ◌≤◌, IfOk};
ghost use Rattle.tds_meter.specs.LimitFaults.{IsPacketSize};
ghost use Rattle.tds_meter.specs.Space.{empty};
ghost use Rattle.tds_replay.specs.Asking.{AreMade, Asks, areas_size, packets_size};

use std::alloc::Global;
use tds_meter::{
    Area, Areas, GREATEST_PACKET_SIZE, Limits, NOTICE_ROOM, OUTPUT_ROOM, OutOfMemory, SMALL_ROOM,
    TOKEN_ROOM,
};

/// The memory that a run may ask for, and how many bytes of areas it was asked for. Whoever is lent it
/// can ask for areas, and each is counted. Whoever isn't has only the memory that is there.
#[derive(Drop)]
pub struct Memory {
    alloc: Global,
    asked: u64,
}

impl Memory {
    /// Memory of this allocator, asked for nothing yet.
    pub fn new(alloc: Global) -> Memory
        ensures { result.asked ≡ 0 }
    {
        Memory { alloc, asked: 0 }
    }

    /// How many bytes it was asked for. The count stays at 18,446,744,073,709,551,615 once there.
    pub fn asked(&self) -> u64
        ensures { result ≡ self.now.asked }
    {
        self.asked
    }

    /// Asks for the areas of an export.
    pub(crate) fn areas(&mut self, limits: Limits) -> Result<Areas, OutOfMemory>
        ensures asks { Asks self.old self.new (areas_size limits) }
        ensures made { IfOk result (AreMade limits) }
    {
        let fixed = (TOKEN_ROOM + OUTPUT_ROOM + NOTICE_ROOM + SMALL_ROOM) as u64;
        let limited = u64::from(limits.packet_size()) + u64::from(limits.column_room());
        self.asked = self.asked.saturating_add(limited + fixed);
        Areas::new(self.alloc, limits)
    }

    /// Asks for the areas of a recut: one for the packets that are read, and one for those that are written.
    pub(crate) fn packets(&mut self, packet_size: u16) -> Result<(Area, Area), OutOfMemory>
        requires { IsPacketSize packet_size }
        ensures asks { Asks self.old self.new (packets_size packet_size) }
        ensures made { IfOk result (λ areas. (areas.0 ≡ empty 32767) × (areas.1 ≡ empty packet_size)) }
    {
        let rooms = u64::from(GREATEST_PACKET_SIZE) + u64::from(packet_size);
        self.asked = self.asked.saturating_add(rooms);
        let input = Area::new(self.alloc, usize::from(GREATEST_PACKET_SIZE))?;
        let output = Area::new(self.alloc, usize::from(packet_size))?;
        Ok((input, output))
    }
}
