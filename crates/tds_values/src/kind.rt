// The kinds of column.
ghost use Rattle.std.specs.Prelude.{◌≡◌, IsTrue};
ghost use Rattle.tds_values.specs.Kind as spec;
ghost use Rattle.tds_values.specs.TimeOfDay.{time_length as time_length_of};

/// How the length of a long value is spelled.
#[derive(Clone, Copy, Debug, PartialEq, Eq)]
pub enum Reach {
    /// A two-byte length before the value.
    Short,
    /// Partially length-prefixed: a total, then chunks.
    Chunked,
}

/// The kind of a column or a return value, with the numbers of its TYPE_INFO that its values depend on.
#[derive(Clone, Copy, Debug, PartialEq, Eq)]
pub enum Kind {
    /// A whole number in 1 byte, unsigned.
    Int1,
    /// A whole number in 2 bytes, signed.
    Int2,
    /// A whole number in 4 bytes, signed.
    Int4,
    /// A whole number in 8 bytes, signed.
    Int8,
    /// A bit in 1 byte.
    Bit,
    /// Ten-thousandths in 4 bytes, signed.
    Money4,
    /// Ten-thousandths in 8 bytes, signed, the high half first.
    Money8,
    /// Days since 1900-01-01 and minutes, 2 bytes each.
    DateTime4,
    /// Days since 1900-01-01 and 1/300 seconds, 4 bytes each.
    DateTime8,
    /// A whole number in this number of bytes, 1, 2, 4 or 8, after its length.
    IntN(u8),
    /// A bit after its length.
    BitN,
    /// An amount of money in this number of bytes, 4 or 8, after its length.
    MoneyN(u8),
    /// A date and a time in this number of bytes, 4 or 8, after its length.
    DateTimeN(u8),
    /// A GUID after its length.
    Guid,
    /// A sign byte and a magnitude of up to `length` - 1 bytes, in units of 10 to the power of minus `scale`, after
    /// their length. `length` is 5, 9, 13 or 17, `precision` 1 to 38 and `scale` at most `precision`.
    Decimal {
        length: u8,
        precision: u8,
        scale: u8,
    },
    /// A date after its length: 3 bytes of days since 0001-01-01.
    Date,
    /// A time of this scale, 0 to 7, after its length.
    Time(u8),
    /// A time of this scale, 0 to 7, and a date, after their length.
    DateTime2(u8),
    /// The same in UTC, and the minutes by which local time is ahead.
    DateTimeOffset(u8),
    /// Any number of bytes.
    Binary(Reach),
    /// Text of one byte or more a character, in the character set of the export.
    Narrow(Reach),
    /// Text in UTF-16.
    Wide(Reach),
}

// How many bytes a time of day of a scale has.
pub(crate) fn time_length(scale: u8) -> u8
    ensures { result ≡ time_length_of scale }
{
    match scale {
        0..=2 => 3,
        3 | 4 => 4,
        _ => 5,
    }
}

// Whether a decimal that isn't NULL may have `n` bytes: its sign, and 4, 8, 12 or 16 bytes of magnitude.
pub(crate) fn is_decimal_length(n: usize) -> bool
    ensures { result ≡ spec.is_decimal_length n }
{
    n == 5 || n == 9 || n == 13 || n == 17
}

impl Kind {
    /// Whether TYPE_INFO may have these numbers.
    pub fn is_valid(&self) -> bool
        ensures { result ≡ spec.is_valid self.now }
    {
        match *self {
            Kind::IntN(n) => n == 1 || n == 2 || n == 4 || n == 8,
            Kind::MoneyN(n) | Kind::DateTimeN(n) => n == 4 || n == 8,
            Kind::Decimal {
                length: n,
                precision,
                scale,
            } => {
                is_decimal_length(usize::from(n))
                    && 1 <= precision
                    && precision <= 38
                    && scale <= precision
            }
            Kind::Time(scale) | Kind::DateTime2(scale) | Kind::DateTimeOffset(scale) => scale <= 7,
            _ => true,
        }
    }

    /// Whether values are scalars: all kinds but the long ones.
    pub fn is_scalar(&self) -> bool
        requires { IsTrue (spec.is_valid self.now) }
        ensures { result ≡ spec.is_scalar self.now }
    {
        !matches!(self, Kind::Binary(_) | Kind::Narrow(_) | Kind::Wide(_))
    }

    /// How many bytes each value has, if no length precedes it.
    pub fn fixed_length(&self) -> Option<u8>
        requires { IsTrue (spec.is_valid self.now) }
        ensures { result ≡ spec.fixed_length self.now }
    {
        match self {
            Kind::Int1 | Kind::Bit => Some(1),
            Kind::Int2 => Some(2),
            Kind::Int4 | Kind::Money4 | Kind::DateTime4 => Some(4),
            Kind::Int8 | Kind::Money8 | Kind::DateTime8 => Some(8),
            _ => None,
        }
    }

    /// Whether a value that isn't NULL may have `n` bytes. The long kinds have data of any length, and UTF-16 of any
    /// even one.
    pub fn length_allowed(&self, n: u8) -> bool
        requires { IsTrue (spec.is_valid self.now) }
        ensures { result ≡ spec.is_length_allowed self.now n }
    {
        match *self {
            Kind::Int1 | Kind::Bit | Kind::BitN => n == 1,
            Kind::Int2 => n == 2,
            Kind::Int4 | Kind::Money4 | Kind::DateTime4 => n == 4,
            Kind::Int8 | Kind::Money8 | Kind::DateTime8 => n == 8,
            Kind::IntN(described) | Kind::MoneyN(described) | Kind::DateTimeN(described) => {
                n == described
            }
            Kind::Guid => n == 16,
            Kind::Decimal { length, .. } => is_decimal_length(usize::from(n)) && n <= length,
            Kind::Date => n == 3,
            Kind::Time(scale) => n == time_length(scale),
            Kind::DateTime2(scale) => n == time_length(scale) + 3,
            Kind::DateTimeOffset(scale) => n == time_length(scale) + 5,
            Kind::Binary(_) | Kind::Narrow(_) => true,
            Kind::Wide(_) => n % 2 == 0,
        }
    }
}
