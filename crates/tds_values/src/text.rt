// The texts of values, written to the front of a slice.
ghost use Rattle.std.specs.Prelude.{◌≡◌, ◌/◌, ◌^◌, ◌<◌, ◌≤◌, IsTrue, length, unsigned_abs};
ghost use Rattle.tds_values.specs.ScalarRange.{is_in_range};
ghost use Rattle.tds_values.specs.Written.{IsLocalText, IsText};

use crate::digits::put_byte;
use crate::moments::{put_date, put_minutes, put_moment, put_offset, put_ticks};
use crate::numbers::{put_decimal, rest};
use crate::ranges::{
    DAY_OF_1900, LARGEST_OFFSET, MINUTES_A_DAY, SECONDS_A_DAY, SECONDS_OF_ALL_DAYS,
};
use crate::scalar::ScalarValue;
use crate::wide::put_wide_decimal;

/// How many bytes the text of a scalar value has at most.
pub const LONGEST_TEXT: usize = 41;

/// How many bytes the text of a scalar value needs to be written: some are written after its end.
pub const TEXT_ROOM: usize = 64;

// A bit.
#[inline(always)]
pub(crate) fn put_bit(to: &mut [u8], bit: bool) -> usize
    requires { TEXT_ROOM ≤ length to.old }
    ensures { IsText (ScalarValue.Bit bit) result to.new }
{
    put_byte(to, 0, if bit { b'1' } else { b'0' })
}

// A decimal whose magnitude has 64 bits.
#[inline(always)]
pub(crate) fn put_magnitude(to: &mut [u8], negative: bool, magnitude: u64, scale: u8) -> usize
    requires room { TEXT_ROOM ≤ length to.old }
    requires scale { scale ≤ 38 }
    ensures { IsText (ScalarValue.Decimal negative magnitude scale) result to.new }
{
    if scale <= 19 {
        put_decimal(to, 0, negative, magnitude, scale)
    } else {
        put_wide_decimal(to, 0, negative, magnitude as u128, scale)
    }
}

// A decimal.
#[inline(always)]
pub(crate) fn put_wide_magnitude(to: &mut [u8], negative: bool, magnitude: u128, scale: u8) -> usize
    requires room { TEXT_ROOM ≤ length to.old }
    requires scale { scale ≤ 38 }
    ensures { IsText (ScalarValue.Decimal negative magnitude scale) result to.new }
{
    if magnitude <= u64::MAX as u128 {
        put_magnitude(to, negative, magnitude as u64, scale)
    } else {
        put_wide_decimal(to, 0, negative, magnitude, scale)
    }
}

// An amount of money in ten-thousandths.
#[inline(always)]
pub(crate) fn put_money(to: &mut [u8], amount: i64) -> usize
    requires { TEXT_ROOM ≤ length to.old }
    ensures { IsText (ScalarValue.Money amount) result to.new }
{
    put_decimal(to, 0, amount < 0, amount.unsigned_abs(), 4)
}

// A smalldatetime: days since 1900-01-01, and minutes.
#[inline(always)]
pub(crate) fn put_small_date_time(to: &mut [u8], days: u16, minutes: u16) -> usize
    requires room { TEXT_ROOM ≤ length to.old }
    requires time { minutes < MINUTES_A_DAY }
    ensures { IsText (ScalarValue.SmallDateTime days minutes) result to.new }
{
    let at = put_date(to, 0, DAY_OF_1900 + days as u32);
    put_minutes(to, at + 1, minutes as u32) + 3
}

// A datetime: days since 1900-01-01, and 1/300 seconds.
#[inline(always)]
pub(crate) fn put_date_time(to: &mut [u8], days: i32, ticks: u32) -> usize
    requires room { TEXT_ROOM ≤ length to.old }
    requires in_range { IsTrue (is_in_range (ScalarValue.DateTime days ticks)) }
    ensures { IsText (ScalarValue.DateTime days ticks) result to.new }
{
    let at = put_date(to, 0, (DAY_OF_1900 as i32 + days) as u32);
    put_ticks(to, at + 1, ticks)
}

// A local time by its whole seconds since day 0 and what its units have beside those of UTC, and its offset.
#[inline(always)]
pub(crate) fn put_local(
    to: &mut [u8],
    local: u64,
    scale: u8,
    units: u64,
    seconds: u64,
    offset: i16,
) -> usize
    requires room { TEXT_ROOM ≤ length to.old }
    requires local { local < SECONDS_OF_ALL_DAYS }
    requires scale { scale ≤ 7 }
    requires seconds { seconds ≡ units / 10 ^ scale }
    requires offset { unsigned_abs offset ≤ LARGEST_OFFSET }
    ensures { IsLocalText local scale units offset result to.new }
{
    let day = (local / SECONDS_A_DAY) as u32;
    let part = rest(scale, units, seconds);
    let at = put_moment(to, day, (local % SECONDS_A_DAY) as u32, scale, part);
    let at = put_byte(to, at, b' ');
    put_offset(to, at, offset)
}
