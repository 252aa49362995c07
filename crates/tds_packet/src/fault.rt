// What stops a run, and where.
ghost use Rattle.std.specs.Prelude.{◌≡◌};
ghost use Rattle.tds_packet.specs.Faults.{number_of};

/// A column kind that is refused by name (MS-TDS, Type Info Rule Definition).
#[derive(Debug, Clone, Copy, PartialEq, Eq)]
pub enum RefusedKind {
    Flt4,
    Flt8,
    FltN,
    Text,
    NText,
    Image,
    SsVariant,
    Udt,
    Xml,
}

/// What stopped a run. Columns are numbered from 0; 65,535 stands for the value of a RETURNVALUE.
#[derive(Debug, Clone, Copy, PartialEq, Eq)]
pub enum Fault {
    /// A read failed: the reader's count of failures rose.
    ReadFailed,
    /// The input is over before the last packet's end.
    InputEnded,
    /// The Type of a packet isn't 0x04, a tabular result.
    WrongPacketType(u8),
    /// The Length of a packet is below 8 or above the packet size.
    BadPacketLength(u16),
    /// With this packet the wire would have more bytes than its limit.
    ResponseTooLong,
    /// A token byte that isn't in the profile.
    RefusedToken(u8),
    /// The message ends inside an element or a token.
    MessageEnded,
    /// The message ends between tokens, and not after a final DONE or DONEPROC.
    EndWithoutDone,
    /// A COLMETADATA with a Count of 0.
    NoColumns,
    /// A column of a kind that is refused by name.
    RefusedColumn { index: u16, kind: RefusedKind },
    /// A column with any other type byte that isn't in the profile.
    UnknownType { index: u16, byte: u8 },
    /// A length, precision or scale that isn't allowed.
    BadTypeInfo { index: u16 },
    /// The description, as far as it must go at least, passes the column room.
    DescriptionTooLong,
    /// A ROW or NBCROW without a current description.
    RowWithoutColumns,
    /// The length of a scalar that isn't allowed.
    BadValueLength { column: u16 },
    /// A date, time or offset out of range.
    BadValue { column: u16 },
    /// Two-byte text of an odd length.
    OddText { column: u16 },
    /// Chunks that pass their known total, or that end before it.
    PlpLength { column: u16 },
    /// An ERROR or INFO whose Length is below 14, or whose inner lengths pass its body.
    BadNotice,
    /// A write or the flush failed: the writer's count of failures rose.
    WriteFailed,
    /// Text that isn't UTF-8.
    BadText { column: u16 },
}

/// Where a run stopped, in bytes of the wire, of the payload or of the text.
#[derive(Debug, Clone, Copy, PartialEq, Eq)]
pub enum Place {
    Wire(u64),
    Payload(u64),
    Text(u64),
}

/// A fault and its place.
#[derive(Debug, Clone, Copy, PartialEq, Eq)]
pub struct Stop {
    pub fault: Fault,
    pub place: Place,
}

impl Stop {
    /// The stop of a fault that was found after `place` bytes of the payload.
    pub fn in_payload(fault: Fault, place: u64) -> Stop
        ensures { result ≡ record { fault = fault; place = Place.Payload place } }
    {
        Stop {
            fault,
            place: Place::Payload(place),
        }
    }
}

impl Fault {
    /// The fault's number, as a report shows it: 1 to 21.
    pub fn number(&self) -> u8
        ensures { result ≡ number_of self.now }
    {
        match self {
            Fault::ReadFailed => 1,
            Fault::InputEnded => 2,
            Fault::WrongPacketType(_) => 3,
            Fault::BadPacketLength(_) => 4,
            Fault::ResponseTooLong => 5,
            Fault::RefusedToken(_) => 6,
            Fault::MessageEnded => 7,
            Fault::EndWithoutDone => 8,
            Fault::NoColumns => 9,
            Fault::RefusedColumn { .. } => 10,
            Fault::UnknownType { .. } => 11,
            Fault::BadTypeInfo { .. } => 12,
            Fault::DescriptionTooLong => 13,
            Fault::RowWithoutColumns => 14,
            Fault::BadValueLength { .. } => 15,
            Fault::BadValue { .. } => 16,
            Fault::OddText { .. } => 17,
            Fault::PlpLength { .. } => 18,
            Fault::BadNotice => 19,
            Fault::WriteFailed => 20,
            Fault::BadText { .. } => 21,
        }
    }
}
