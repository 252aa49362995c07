// A value of a scalar kind.
ghost use Rattle.std.specs.Prelude.{◌≡◌, ◌⊎◌, IsTrue, length, ◌≤◌, ◌&&◌, nat_le, unsigned_abs, Some};
ghost use Rattle.tds_values.specs.Numbers as read;
ghost use Rattle.tds_values.specs.LocalTime as local;
ghost use Rattle.tds_values.specs.Kind as kinds;
ghost use Rattle.tds_values.specs.Scalar as scalar;
ghost use Rattle.tds_values.specs.ScalarRange as bounds;
ghost use Rattle.tds_values.specs.TimeOfDay.{is_time as is_time_of};

use crate::kind::{Kind, time_length};
use crate::ranges::{
    LARGEST_OFFSET, LAST_DAY, MINUTES_A_DAY, TICKS_A_DAY, is_day_since_1900, is_offset, is_time,
    local_seconds, seconds_in,
};
use byteorder::{ByteOrder, LittleEndian};
use std::marker::Model;
use uuid::Uuid;

/// Why bytes are no value of a kind.
#[derive(Clone, Copy, Debug, PartialEq, Eq)]
pub enum ValueFault {
    /// The kind has no value of that number of bytes.
    Length,
    /// The length is allowed, and the value is out of range.
    Value,
}

/// What contracts see of a [`Scalar`]: its fields as the bytes spell them.
#[derive(Clone, Copy, PartialEq, Eq)]
pub enum ScalarValue {
    /// A whole number.
    Integer(i64),
    /// A bit.
    Bit(bool),
    /// A sign, and a magnitude in units of the scale.
    Decimal {
        negative: bool,
        magnitude: u128,
        scale: u8,
    },
    /// An amount of money in ten-thousandths.
    Money(i64),
    /// A GUID.
    Guid(Uuid),
    /// Days since 0001-01-01.
    Date(u32),
    /// Units of the scale since midnight.
    Time {
        scale: u8,
        units: u64,
    },
    /// A time and the days since 0001-01-01.
    DateTime2 {
        scale: u8,
        units: u64,
        day: u32,
    },
    /// A time and a day, both in UTC, and the minutes by which local time is ahead.
    DateTimeOffset {
        scale: u8,
        units: u64,
        day: u32,
        offset: i16,
    },
    /// Days since 1900-01-01, and minutes since midnight.
    SmallDateTime {
        days: u16,
        minutes: u16,
    },
    /// Days since 1900-01-01, and 1/300 seconds since midnight.
    DateTime {
        days: i32,
        ticks: u32,
    },
}

/// A value of a scalar kind within its range. Only [`read_scalar`] makes one.
#[derive(Clone, Copy)]
pub struct Scalar {
    value: ScalarValue,
}

impl Model for Scalar {
    ghost use Rattle.tds_values.specs.declared.scalar.ScalarValue.{ScalarValue};
    ghost use Rattle.tds_values.specs.ScalarRange.{is_in_range};
    ghost use Rattle.std.specs.Prelude.{IsTrue};

    ghost Value = { ScalarValue };

    ghost view = { λ a. a.value };

    ghost invariant = { λ a. IsTrue (is_in_range a.value) };

    ghost inverse = { λ v. record { value = v } };
}

impl Scalar {
    ghost use Rattle.tds_values.specs.ScalarRange.{is_in_range};

    // The fields.
    pub(crate) fn value(&self) -> ScalarValue
        ensures value { result ≡ self.now }
        ensures in_range { IsTrue (is_in_range result) }
    {
        self.value
    }
}

// The whole number in n bytes.
pub(crate) fn integer_of(n: u8, bytes: &[u8]) -> i64
    requires size { (n ≡ 1) ⊎ ((n ≡ 2) ⊎ ((n ≡ 4) ⊎ (n ≡ 8))) }
    requires length { length bytes.now ≡ n }
    ensures { result ≡ read.integer_of n bytes.now }
{
    match n {
        1 => bytes[0] as i64,
        2 => LittleEndian::read_i16(bytes) as i64,
        4 => LittleEndian::read_i32(bytes) as i64,
        _ => LittleEndian::read_i64(bytes),
    }
}

// The amount of money in n bytes: of 8 the high half comes first.
pub(crate) fn money_of(n: u8, bytes: &[u8]) -> i64
    requires size { (n ≡ 4) ⊎ (n ≡ 8) }
    requires length { length bytes.now ≡ n }
    ensures { result ≡ read.money_of n bytes.now }
{
    if n == 4 {
        return LittleEndian::read_i32(bytes) as i64;
    }
    let high = LittleEndian::read_u32(bytes);
    let low = LittleEndian::read_u32(&bytes[4..]);
    ((high as u64) * (1 << 32) + low as u64).cast_signed()
}

// The local time is in the years 1 to 9999.
fn is_local(scale: u8, units: u64, day: u32, offset: i16) -> bool
    requires time { IsTrue (is_time_of scale units) }
    requires day { day ≤ LAST_DAY }
    requires offset { unsigned_abs offset ≤ LARGEST_OFFSET }
    ensures { result ≡ local.is_local scale units day offset }
{
    local_seconds(seconds_in(scale, units), day, offset).is_some()
}

// A number of units is a time of day, and a day number one of the calendar.
fn is_time_in_day(scale: u8, units: u64, day: u32) -> bool
    ensures { result ≡ (is_time_of scale units && nat_le day LAST_DAY) }
{
    is_time(scale, units) && day <= LAST_DAY
}

// A smalldatetime in 4 bytes, or a datetime in 8.
fn datetime_of(n: u8, bytes: &[u8]) -> ScalarValue
    requires size { (n ≡ 4) ⊎ (n ≡ 8) }
    requires length { length bytes.now ≡ n }
    ensures { result ≡ scalar.datetime_of n bytes.now }
{
    if n == 4 {
        return ScalarValue::SmallDateTime {
            days: LittleEndian::read_u16(bytes),
            minutes: LittleEndian::read_u16(&bytes[2..]),
        };
    }
    ScalarValue::DateTime {
        days: LittleEndian::read_i32(bytes),
        ticks: LittleEndian::read_u32(&bytes[4..]),
    }
}

// A decimal by its sign byte and its magnitude.
fn decimal_of(scale: u8, bytes: &[u8]) -> ScalarValue
    requires low { 2 ≤ length bytes.now }
    requires high { length bytes.now ≤ 17 }
    ensures { result ≡ scalar.decimal_of scale bytes.now }
{
    ScalarValue::Decimal {
        negative: bytes[0] == 0,
        magnitude: LittleEndian::read_uint128(&bytes[1..], bytes.len() - 1),
        scale,
    }
}

// A value is in its range.
fn is_in_range(value: &ScalarValue) -> bool
    ensures { result ≡ bounds.is_in_range value.now }
{
    match *value {
        ScalarValue::Decimal { scale, .. } => scale <= 38,
        ScalarValue::Date(day) => day <= LAST_DAY,
        ScalarValue::Time { scale, units } => is_time(scale, units),
        ScalarValue::DateTime2 { scale, units, day } => is_time_in_day(scale, units, day),
        ScalarValue::DateTimeOffset {
            scale,
            units,
            day,
            offset,
        } => {
            is_time_in_day(scale, units, day)
                && is_offset(offset)
                && is_local(scale, units, day, offset)
        }
        ScalarValue::SmallDateTime { minutes, .. } => minutes < MINUTES_A_DAY,
        ScalarValue::DateTime { days, ticks } => is_day_since_1900(days) && ticks < TICKS_A_DAY,
        _ => true,
    }
}

// The fields that the bytes of a scalar kind spell, whatever their range.
fn value_of(kind: &Kind, bytes: &[u8]) -> ScalarValue
    requires valid { IsTrue (kinds.is_valid kind.now) }
    requires is_scalar { IsTrue (kinds.is_scalar kind.now) }
    requires length { IsTrue (kinds.is_length_allowed kind.now (length bytes.now)) }
    ensures { scalar.value_of kind.now bytes.now ≡ Some result }
{
    match *kind {
        Kind::Int1 => ScalarValue::Integer(integer_of(1, bytes)),
        Kind::Int2 => ScalarValue::Integer(integer_of(2, bytes)),
        Kind::Int4 => ScalarValue::Integer(integer_of(4, bytes)),
        Kind::Int8 => ScalarValue::Integer(integer_of(8, bytes)),
        Kind::IntN(n) => ScalarValue::Integer(integer_of(n, bytes)),
        Kind::Bit | Kind::BitN => ScalarValue::Bit(bytes[0] != 0),
        Kind::Money4 => ScalarValue::Money(money_of(4, bytes)),
        Kind::Money8 => ScalarValue::Money(money_of(8, bytes)),
        Kind::MoneyN(n) => ScalarValue::Money(money_of(n, bytes)),
        Kind::DateTime4 => datetime_of(4, bytes),
        Kind::DateTime8 => datetime_of(8, bytes),
        Kind::DateTimeN(n) => datetime_of(n, bytes),
        Kind::Guid => guid_of(bytes),
        Kind::Decimal { scale, .. } => decimal_of(scale, bytes),
        Kind::Date => ScalarValue::Date(LittleEndian::read_u24(bytes)),
        Kind::Time(scale) => ScalarValue::Time {
            scale,
            units: LittleEndian::read_uint(bytes, time_length(scale) as usize),
        },
        Kind::DateTime2(scale) => {
            let t = time_length(scale) as usize;
            ScalarValue::DateTime2 {
                scale,
                units: LittleEndian::read_uint(bytes, t),
                day: LittleEndian::read_u24(&bytes[t..]),
            }
        }
        Kind::DateTimeOffset(scale) => {
            let t = time_length(scale) as usize;
            ScalarValue::DateTimeOffset {
                scale,
                units: LittleEndian::read_uint(bytes, t),
                day: LittleEndian::read_u24(&bytes[t..]),
                offset: LittleEndian::read_i16(&bytes[t + 3..]),
            }
        }
        Kind::Binary(_) | Kind::Narrow(_) | Kind::Wide(_) => unreachable!(),
    }
}

// A GUID, whose first three fields have their low byte first.
fn guid_of(bytes: &[u8]) -> ScalarValue
    requires { length bytes.now ≡ 16 }
    ensures { scalar.value_of Kind.Guid bytes.now ≡ Some result }
{
    match Uuid::from_slice_le(bytes) {
        Ok(id) => ScalarValue::Guid(id),
        Err(_) => unreachable!(),
    }
}

/// The value that bytes of a scalar kind spell, without their length. The fault is `Length` if the kind has no value
/// of that number of bytes, and `Value` if it has and these spell one out of range.
pub fn read_scalar(kind: &Kind, bytes: &[u8]) -> Result<Scalar, ValueFault>
    requires valid { IsTrue (kinds.is_valid kind.now) }
    requires is_scalar { IsTrue (kinds.is_scalar kind.now) }
    ensures { result ≡ scalar.read_of kind.now bytes.now }
{
    if bytes.len() > 17 || !kind.length_allowed(bytes.len() as u8) {
        return Err(ValueFault::Length);
    }
    let value = value_of(kind, bytes);
    if is_in_range(&value) {
        Ok(Scalar { value })
    } else {
        Err(ValueFault::Value)
    }
}
