// The columns of a description, in its bytes (MS-TDS, COLMETADATA).
ghost use Rattle.std.specs.Prelude.{◌≡◌, ◌<◌, ℕ, List, IsTrue, length};
ghost use Rattle.tds_columns.specs.Description as spec;
ghost use Rattle.tds_columns.specs.View.{IsDescription, columns_of, is_described};

use crate::walk::Walk;
use byteorder::{ByteOrder, LittleEndian};

/// The columns of a whole description. Nothing is copied: it looks at the bytes in place.
#[derive(Clone, Copy, Debug)]
pub struct Columns<'a> {
    bytes: &'a [u8],
    ghost whole: { IsTrue (is_described bytes.now) },
    ghost some: { 0 < length (columns_of bytes.now) },
    ghost most: { length (columns_of bytes.now) < 65535 },
}

impl<'a> Columns<'a> {
    ghost use Rattle.tds_columns.specs.Walking.{columns_left};

    /// The columns of a whole description, from Count to the last name.
    pub fn view(bytes: &'a [u8]) -> Columns<'a>
        requires { IsDescription bytes.now }
        ensures { result.bytes.now ≡ bytes.now }
    {
        Columns { bytes }
    }

    /// How many columns there are, 1 to 65,534.
    pub fn count(&self) -> u16
        ensures value { result ≡ length (columns_of self.now.bytes.now) }
        ensures range { (0 < result) × (result < 65535) }
        ensures columns { (room : ℕ) (columns : List spec.Column) →
            spec.SpellsDescription room columns self.now.bytes.now → result ≡ length columns }
    {
        LittleEndian::read_u16(self.bytes)
    }

    /// The columns in order.
    pub fn walk(&self) -> Walk<'a>
        ensures value { columns_left result ≡ columns_of self.now.bytes.now }
        ensures columns { (room : ℕ) (columns : List spec.Column) →
            spec.SpellsDescription room columns self.now.bytes.now → columns_left result ≡ columns }
        ensures bound { length (columns_left result) < 65536 }
    {
        Walk {
            rest: &self.bytes[2..],
            left: self.count() as usize,
        }
    }
}
