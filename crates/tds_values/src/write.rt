// The text of a value, written where it belongs, from the bytes that spell it.
ghost use Rattle.std.specs.Prelude.{◌≡◌, ◌≢◌, ℕ, ◌+◌, ◌-◌, ◌≤◌, ◌⊎◌, IsTrue, IfOk, IfErr, Some, None, Ok, Err, drop, length, if◌then◌else◌};
ghost use Rattle.byteorder.specs.Endian.{little_number};
ghost use Rattle.std.specs.Int.{cast_signed, w16};
ghost use Rattle.tds_values.specs.Kind as kinds;
ghost use Rattle.tds_values.specs.Kind.{is_decimal_length};
ghost use Rattle.tds_values.specs.Scalar.{read_of, checked};
ghost use Rattle.tds_values.specs.TimeOfDay.{time_length as time_length_of};
ghost use Rattle.tds_values.specs.Written.{IsTextOf, IsWritten};
ghost use Rattle.tds_values.specs.declared.scalar.ScalarValue.{ScalarValue};
ghost use Rattle.tds_values.specs.declared.scalar.ValueFault.{ValueFault};

use crate::digits::put_small;
use crate::guid::put_guid;
use crate::kind::{Kind, is_decimal_length, time_length};
use crate::moments::{put_date, put_moment, put_time};
use crate::numbers::{put_integer, rest};
use crate::ranges::{
    LAST_DAY, MINUTES_A_DAY, SECONDS_A_DAY, TICKS_A_DAY, is_day_since_1900, is_offset,
    local_seconds, seconds_in,
};
use crate::scalar::{ScalarValue, ValueFault, integer_of, money_of};
use crate::text::{
    TEXT_ROOM, put_bit, put_date_time, put_local, put_magnitude, put_money, put_small_date_time,
    put_wide_magnitude,
};
use byteorder::{ByteOrder, LittleEndian};

// The fault is `Length` if there aren't `n` bytes.
#[inline(always)]
fn check_length(n: usize, bytes: &[u8]) -> Result<(), ValueFault>
    ensures whole { IfOk result (λ _. length bytes.now ≡ n) }
    ensures other { IfErr result (λ fault. (fault ≡ ValueFault.Length) × (length bytes.now ≢ n)) }
{
    if bytes.len() != n {
        return Err(ValueFault::Length);
    }
    Ok(())
}

// A whole number in n bytes, in which 1 is unsigned.
#[inline(always)]
pub(crate) fn write_integer(n: u8, bytes: &[u8], to: &mut [u8]) -> Result<usize, ValueFault>
    requires size { (n ≡ 1) ⊎ ((n ≡ 2) ⊎ ((n ≡ 4) ⊎ (n ≡ 8))) }
    requires room { INTEGER_ROOM ≤ length to.old }
    ensures { IsWritten (read_of (Kind.IntN n) bytes.now) result to.new }
{
    check_length(n as usize, bytes)?;
    if n == 1 {
        return Ok(put_small(to, 0, bytes[0]));
    }
    Ok(put_integer(to, 0, integer_of(n, bytes)))
}

// A bit.
#[inline(always)]
pub(crate) fn write_bit(bytes: &[u8], to: &mut [u8]) -> Result<usize, ValueFault>
    requires room { TEXT_ROOM ≤ length to.old }
    ensures { IsWritten (read_of Kind.BitN bytes.now) result to.new }
{
    check_length(1, bytes)?;
    Ok(put_bit(to, bytes[0] != 0))
}

// An amount of money in n bytes.
#[inline(always)]
pub(crate) fn write_money(n: u8, bytes: &[u8], to: &mut [u8]) -> Result<usize, ValueFault>
    requires size { (n ≡ 4) ⊎ (n ≡ 8) }
    requires room { TEXT_ROOM ≤ length to.old }
    ensures { IsWritten (read_of (Kind.MoneyN n) bytes.now) result to.new }
{
    check_length(n as usize, bytes)?;
    Ok(put_money(to, money_of(n, bytes)))
}

// A date.
#[inline(always)]
pub(crate) fn write_date(bytes: &[u8], to: &mut [u8]) -> Result<usize, ValueFault>
    requires room { TEXT_ROOM ≤ length to.old }
    ensures { IsWritten (read_of Kind.Date bytes.now) result to.new }
{
    check_length(3, bytes)?;
    let day = LittleEndian::read_u24(bytes);
    if day > LAST_DAY {
        return Err(ValueFault::Value);
    }
    Ok(put_date(to, 0, day))
}

// The units of a time of day, in the first bytes: each length is read by itself, which takes no call.
#[inline(always)]
fn units_in(scale: u8, bytes: &[u8]) -> u64
    requires { time_length_of scale ≤ length bytes.now }
    ensures { result ≡ little_number (time_length_of scale) bytes.now }
{
    match scale {
        0..=2 => LittleEndian::read_uint(bytes, 3),
        3 | 4 => LittleEndian::read_uint(bytes, 4),
        _ => LittleEndian::read_uint(bytes, 5),
    }
}

// The units of a time of day that comes before `more` bytes. The fault is `Length` if that is not what these are.
#[inline(always)]
fn units_before(more: usize, scale: u8, bytes: &[u8]) -> Result<u64, ValueFault>
    requires { more ≤ 5 }
    ensures units { IfOk result (λ units. units ≡ little_number (time_length_of scale) bytes.now) }
    ensures whole { IfOk result (λ _. length bytes.now ≡ time_length_of scale + more) }
    ensures other { IfErr result (λ fault.
        (fault ≡ ValueFault.Length) × (length bytes.now ≢ time_length_of scale + more)) }
{
    check_length(time_length(scale) as usize + more, bytes)?;
    Ok(units_in(scale, bytes))
}

// A time of day.
#[inline(always)]
pub(crate) fn write_time(scale: u8, bytes: &[u8], to: &mut [u8]) -> Result<usize, ValueFault>
    requires scale { scale ≤ 7 }
    requires room { TEXT_ROOM ≤ length to.old }
    ensures { IsWritten (read_of (Kind.Time scale) bytes.now) result to.new }
{
    let units = units_before(0, scale, bytes)?;
    let seconds = seconds_in(scale, units);
    if seconds >= SECONDS_A_DAY {
        return Err(ValueFault::Value);
    }
    let part = rest(scale, units, seconds);
    Ok(put_time(to, 0, seconds as u32, scale, part))
}

// The day number in the three bytes from t on, read with the byte before them, which takes one load.
#[inline(always)]
fn day_at(t: usize, bytes: &[u8]) -> u32
    requires after { 1 ≤ t }
    requires there { t + 3 ≤ length bytes.now }
    ensures { result ≡ little_number 3 (drop t bytes.now) }
{
    LittleEndian::read_u32(&bytes[t - 1..]) / 0x100
}

// A datetime2: a time of day and a date.
#[inline(always)]
pub(crate) fn write_date_time2(scale: u8, bytes: &[u8], to: &mut [u8]) -> Result<usize, ValueFault>
    requires scale { scale ≤ 7 }
    requires room { TEXT_ROOM ≤ length to.old }
    ensures { IsWritten (read_of (Kind.DateTime2 scale) bytes.now) result to.new }
{
    let units = units_before(3, scale, bytes)?;
    let day = day_at(time_length(scale) as usize, bytes);
    let seconds = seconds_in(scale, units);
    if seconds >= SECONDS_A_DAY || day > LAST_DAY {
        return Err(ValueFault::Value);
    }
    let part = rest(scale, units, seconds);
    Ok(put_moment(to, day, seconds as u32, scale, part))
}

// The offset in the two bytes from t on.
#[inline(always)]
fn offset_at(t: usize, bytes: &[u8]) -> i16
    requires { t + 2 ≤ length bytes.now }
    ensures { result ≡ cast_signed w16 (little_number 2 (drop t bytes.now)) }
{
    LittleEndian::read_i16(&bytes[t..])
}

// A time and a day in UTC as the local time, if the calendar has it.
#[inline(always)]
fn write_local(
    scale: u8,
    units: u64,
    day: u32,
    offset: i16,
    to: &mut [u8],
) -> Result<usize, ValueFault>
    requires scale { scale ≤ 7 }
    requires room { TEXT_ROOM ≤ length to.old }
    ensures { IsWritten (checked (Some (ScalarValue.DateTimeOffset scale units day offset))) result to.new }
{
    let seconds = seconds_in(scale, units);
    if seconds >= SECONDS_A_DAY || day > LAST_DAY || !is_offset(offset) {
        return Err(ValueFault::Value);
    }
    let Some(local) = local_seconds(seconds, day, offset) else {
        return Err(ValueFault::Value);
    };
    Ok(put_local(to, local, scale, units, seconds, offset))
}

// A datetimeoffset: a time of day and a date in UTC, and an offset.
#[inline(always)]
pub(crate) fn write_date_time_offset(
    scale: u8,
    bytes: &[u8],
    to: &mut [u8],
) -> Result<usize, ValueFault>
    requires scale { scale ≤ 7 }
    requires room { TEXT_ROOM ≤ length to.old }
    ensures { IsWritten (read_of (Kind.DateTimeOffset scale) bytes.now) result to.new }
{
    let units = units_before(5, scale, bytes)?;
    let t = time_length(scale) as usize;
    write_local(scale, units, day_at(t, bytes), offset_at(t + 3, bytes), to)
}

// A smalldatetime: days since 1900-01-01 and minutes.
#[inline(always)]
fn write_small_date_time(days: u16, minutes: u16, to: &mut [u8]) -> Result<usize, ValueFault>
    requires room { TEXT_ROOM ≤ length to.old }
    ensures { IsWritten (checked (Some (ScalarValue.SmallDateTime days minutes))) result to.new }
{
    if minutes >= MINUTES_A_DAY {
        return Err(ValueFault::Value);
    }
    Ok(put_small_date_time(to, days, minutes))
}

// A datetime: days since 1900-01-01 and 1/300 seconds.
#[inline(always)]
fn write_date_time(days: i32, ticks: u32, to: &mut [u8]) -> Result<usize, ValueFault>
    requires room { TEXT_ROOM ≤ length to.old }
    ensures { IsWritten (checked (Some (ScalarValue.DateTime days ticks))) result to.new }
{
    if !is_day_since_1900(days) || ticks >= TICKS_A_DAY {
        return Err(ValueFault::Value);
    }
    Ok(put_date_time(to, days, ticks))
}

// A smalldatetime in 4 bytes, or a datetime in 8.
#[inline(always)]
pub(crate) fn write_date_time_n(n: u8, bytes: &[u8], to: &mut [u8]) -> Result<usize, ValueFault>
    requires size { (n ≡ 4) ⊎ (n ≡ 8) }
    requires room { TEXT_ROOM ≤ length to.old }
    ensures { IsWritten (read_of (Kind.DateTimeN n) bytes.now) result to.new }
{
    check_length(n as usize, bytes)?;
    if n == 4 {
        return write_small_date_time(
            LittleEndian::read_u16(bytes),
            LittleEndian::read_u16(&bytes[2..]),
            to,
        );
    }
    write_date_time(
        LittleEndian::read_i32(bytes),
        LittleEndian::read_u32(&bytes[4..]),
        to,
    )
}

// A GUID.
#[inline(always)]
pub(crate) fn write_guid(bytes: &[u8], to: &mut [u8]) -> Result<usize, ValueFault>
    requires room { TEXT_ROOM ≤ length to.old }
    ensures { IsWritten (read_of Kind.Guid bytes.now) result to.new }
{
    check_length(16, bytes)?;
    Ok(put_guid(to, bytes))
}

// The magnitude of a decimal, which follows its sign, if it has 4, 8, 12 or 16 bytes.
#[inline(always)]
fn magnitude_of(bytes: &[u8]) -> Option<u128>
    ensures { let n = length bytes.now in
        result ≡ (if is_decimal_length n then Some (little_number (n - 1) (drop 1 bytes.now)) else None) }
{
    match bytes.len() {
        5 => Some(LittleEndian::read_u32(&bytes[1..]) as u128),
        9 => Some(LittleEndian::read_u64(&bytes[1..]) as u128),
        13 => Some(LittleEndian::read_uint128(&bytes[1..], 12)),
        17 => Some(LittleEndian::read_u128(&bytes[1..])),
        _ => None,
    }
}

// A decimal of at most `most` bytes.
#[inline(always)]
pub(crate) fn write_decimal(
    most: u8,
    scale: u8,
    bytes: &[u8],
    to: &mut [u8],
) -> Result<usize, ValueFault>
    requires scale { scale ≤ 38 }
    requires room { TEXT_ROOM ≤ length to.old }
    ensures { (precision : ℕ) → IsWritten (read_of (Kind.Decimal most precision scale) bytes.now) result to.new }
{
    if bytes.len() > usize::from(most) {
        return Err(ValueFault::Length);
    }
    let Some(magnitude) = magnitude_of(bytes) else {
        return Err(ValueFault::Length);
    };
    Ok(put_wide_magnitude(to, bytes[0] == 0, magnitude, scale))
}

// A value of any scalar kind. Scale 7 of a time, which a column has if none is named, is a constant in what is inlined.
#[inline(always)]
fn write_any<const COPY: bool>(
    kind: &Kind,
    bytes: &[u8],
    to: &mut [u8],
) -> Result<usize, ValueFault>
    requires valid { IsTrue (kinds.is_valid kind.now) }
    requires scalar { IsTrue (kinds.is_scalar kind.now) }
    requires room { TEXT_ROOM ≤ length to.old }
    ensures { IsWritten (read_of kind.now bytes.now) result to.new }
{
    match *kind {
        Kind::Int1 => write_integer(1, bytes, to),
        Kind::Int2 => write_integer(2, bytes, to),
        Kind::Int4 => write_integer(4, bytes, to),
        Kind::Int8 => write_integer(8, bytes, to),
        Kind::IntN(n) => write_integer(n, bytes, to),
        Kind::Bit | Kind::BitN => write_bit(bytes, to),
        Kind::Money4 => write_money(4, bytes, to),
        Kind::Money8 => write_money(8, bytes, to),
        Kind::MoneyN(n) => write_money(n, bytes, to),
        Kind::DateTime4 => write_date_time_n(4, bytes, to),
        Kind::DateTime8 => write_date_time_n(8, bytes, to),
        Kind::DateTimeN(n) => write_date_time_n(n, bytes, to),
        Kind::Guid => write_guid(bytes, to),
        Kind::Decimal { length, scale, .. } => write_decimal(length, scale, bytes, to),
        Kind::Date => write_date(bytes, to),
        Kind::Time(7) => write_time(7, bytes, to),
        Kind::Time(scale) => write_time(scale, bytes, to),
        Kind::DateTime2(7) => write_date_time2(7, bytes, to),
        Kind::DateTime2(scale) => write_date_time2(scale, bytes, to),
        Kind::DateTimeOffset(7) => write_date_time_offset(7, bytes, to),
        Kind::DateTimeOffset(scale) => write_date_time_offset(scale, bytes, to),
        Kind::Binary(_) | Kind::Narrow(_) | Kind::Wide(_) => unreachable!(),
    }
}

/// Writes the text of the value that `bytes` of a scalar kind spell, without their length, to the front of
/// `to`, and returns how many bytes it has, at most 41; or the fault, if they spell none. What `to` holds
/// after the text, and after a fault, isn't fixed. `COPY` is that of [`write_front`](crate::write_front).
#[inline(always)]
pub fn write_scalar<const COPY: bool>(
    kind: &Kind,
    bytes: &[u8],
    to: &mut [u8],
) -> Result<usize, ValueFault>
    requires valid { IsTrue (kinds.is_valid kind.now) }
    requires is_scalar { IsTrue (kinds.is_scalar kind.now) }
    requires room { TEXT_ROOM ≤ length to.old }
    ensures written { IfOk result (λ n. IsTextOf (read_of kind.now bytes.now) n to.new) }
    ensures refused { IfErr result (λ fault. read_of kind.now bytes.now ≡ Err fault) }
{
    write_any::<COPY>(kind, bytes, to)
}

/// How much room [`write_int4`] needs for a text, in bytes: it writes some bytes after the text too.
pub const INTEGER_ROOM: usize = 25;

/// How many bytes the text of a whole number in four bytes has at most.
pub const LONGEST_INT4: usize = 11;

/// Writes the text of a whole number in four bytes, as [`write_scalar`] does of [`Kind::IntN`] with 4.
#[inline(always)]
pub fn write_int4(bytes: &[u8], to: &mut [u8]) -> usize
    requires length { length bytes.now ≡ 4 }
    requires room { INTEGER_ROOM ≤ length to.old }
    ensures most { result ≤ 11 }
    ensures text { IsWritten (read_of (Kind.IntN 4) bytes.now) (Ok result) to.new }
{
    put_integer(to, 0, i64::from(LittleEndian::read_i32(bytes)))
}
