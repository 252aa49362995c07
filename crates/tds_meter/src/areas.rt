// The six areas of a run.
ghost use Rattle.std.specs.Prelude.{◌≡◌, ◌==◌, ◌≤◌, IsTrue, IfOk, length};

use crate::area::{Area, OutOfMemory};
use crate::limits::Limits;
use std::alloc::Global;

/// The room for the body of a token, in bytes: a length of two bytes counts at most 65,535.
pub const TOKEN_ROOM: usize = 65_536;

/// The room for text that waits for the writer, in bytes. It is delivered in blocks of this size.
pub const OUTPUT_ROOM: usize = 4_096;

/// The room for the message of the first error, in bytes.
pub const NOTICE_ROOM: usize = 512;

/// The room for what is kept for a moment, in bytes.
pub const SMALL_ROOM: usize = 128;

/// All that a run keeps. The areas may be borrowed one by one.
#[derive(Drop)]
pub struct Areas {
    limits: Limits,
    /// The packet that is read. Its room is the packet size.
    pub packet: Area,
    /// The encoded description of the columns. Its room is the column room.
    pub description: Area,
    /// The body of a token. Its room is 65,536 bytes.
    pub token: Area,
    /// Text that waits for the writer. Its room is 4,096 bytes.
    pub output: Area,
    /// The message of the first error. Its room is 512 bytes.
    pub notice: Area,
    /// What is kept for a moment. Its room is 128 bytes.
    pub small: Area,
    restarts: u64,
}

impl Areas {
    ghost use Rattle.tds_meter.specs.Counts.{one_more};
    ghost use Rattle.tds_meter.specs.Rooms.{is_intact, held, peak_rest, AreEmptied};
    ghost use Rattle.tds_meter.specs.Space.{empty};

    /// Six empty areas, which take all the memory of a run. [`OutOfMemory`] if some of it is refused.
    pub fn new(alloc: Global, limits: Limits) -> Result<Areas, OutOfMemory>
        ensures intact { IfOk result (λ areas. IsTrue (is_intact areas)) }
        ensures limits { IfOk result (λ areas. areas.limits ≡ limits) }
        ensures empty { IfOk result (λ areas. AreEmptied areas areas) }
        ensures restarts { IfOk result (λ areas. areas.restarts ≡ 0) }
    {
        Ok(Areas {
            limits,
            packet: Area::new(alloc, usize::from(limits.packet_size()))?,
            description: Area::new(alloc, limits.column_room() as usize)?,
            token: Area::new(alloc, TOKEN_ROOM)?,
            output: Area::new(alloc, OUTPUT_ROOM)?,
            notice: Area::new(alloc, NOTICE_ROOM)?,
            small: Area::new(alloc, SMALL_ROOM)?,
            restarts: 0,
        })
    }

    /// The limits that they were made for.
    pub fn limits(&self) -> Limits
        ensures { result ≡ self.now.limits }
    {
        self.limits
    }

    /// Whether the rooms are those of the limits. A borrower could have exchanged two areas.
    pub fn intact(&self) -> bool
        ensures { result ≡ is_intact self.now }
    {
        self.packet.room() == usize::from(self.limits.packet_size())
            && self.description.room() == self.limits.column_room() as usize
            && self.token.room() == TOKEN_ROOM
            && self.output.room() == OUTPUT_ROOM
            && self.notice.room() == NOTICE_ROOM
            && self.small.room() == SMALL_ROOM
    }

    /// How many bytes the six areas hold.
    pub fn held(&self) -> u64
        ensures { result ≡ held self.now }
    {
        let front = self.packet.len() + self.description.len() + self.token.len();
        let back = self.output.len() + self.notice.len() + self.small.len();
        (front + back) as u64
    }

    /// How many bytes the description area holds.
    pub fn description_held(&self) -> u64
        ensures { result ≡ length self.now.description.bytes }
    {
        self.description.len() as u64
    }

    /// The most bytes that stood in the description area since the last restart.
    pub fn description_peak(&self) -> u64
        ensures { result ≡ self.now.description.peak }
    {
        self.description.peak() as u64
    }

    /// The sum of the peaks of the other five areas.
    pub fn peak_rest(&self) -> u64
        ensures { result ≡ peak_rest self.now }
    {
        let front = self.packet.peak() + self.token.peak();
        let back = self.output.peak() + self.notice.peak() + self.small.peak();
        (front + back) as u64
    }

    /// The bytes that wait for the writer.
    pub fn waiting(&self) -> &[u8]
        ensures { result.now ≡ self.now.output.bytes }
    {
        self.output.bytes()
    }

    /// The message of the first error, in UTF-8.
    pub fn error_text(&self) -> &[u8]
        ensures value { result.now ≡ self.now.notice.bytes }
        ensures fits { length self.now.notice.bytes ≤ self.now.notice.room }
    {
        self.notice.bytes()
    }

    /// Empties all six areas, sets their peaks to 0, and counts the call.
    pub fn restart(&mut self)
        ensures emptied { AreEmptied self.old self.new }
        ensures limits { self.new.limits ≡ self.old.limits }
        ensures restarts { self.new.restarts ≡ one_more self.old.restarts }
        ensures intact { is_intact self.new ≡ is_intact self.old }
    {
        self.packet.restart();
        self.description.restart();
        self.token.restart();
        self.output.restart();
        self.notice.restart();
        self.small.restart();
        self.restarts = self.restarts.saturating_add(1);
    }

    /// How often they were restarted. The count stays at 18,446,744,073,709,551,615 once there.
    pub fn restarts(&self) -> u64
        ensures { result ≡ self.now.restarts }
    {
        self.restarts
    }
}
