// The ranges of days, times and offsets (MS-TDS, Date/Times). Day 0 is 0001-01-01.
ghost use Rattle.std.specs.Prelude.{◌≡◌, ◌/◌, ◌^◌, ◌<◌, ◌≤◌, nat_le, unsigned_abs, IfSome};
ghost use Rattle.tds_values.specs.TimeOfDay.{is_time as is_time_of};
ghost use Rattle.tds_values.specs.LocalTime.{local_seconds as local_seconds_of};
ghost use Rattle.tds_values.specs.ScalarRange.{is_day_since_1900 as is_day_since_1900_of};

use crate::numbers::whole;

/// The day number of 9999-12-31.
pub(crate) const LAST_DAY: u32 = 3_652_058;

/// The day number of 1900-01-01, from which smalldatetime and datetime count.
pub(crate) const DAY_OF_1900: u32 = 693_595;

/// How many seconds a day has.
pub(crate) const SECONDS_A_DAY: u64 = 86_400;

/// How many minutes a day has.
pub(crate) const MINUTES_A_DAY: u16 = 1440;

/// How many 1/300 seconds a day has.
pub(crate) const TICKS_A_DAY: u32 = 25_920_000;

/// By how many minutes local time may be ahead of UTC or behind it.
pub(crate) const LARGEST_OFFSET: u16 = 840;

/// How many seconds the days from 0 to the last have.
pub(crate) const SECONDS_OF_ALL_DAYS: u64 = (LAST_DAY as u64 + 1) * SECONDS_A_DAY;

// The whole seconds of a number of units of a scale.
#[inline(always)]
pub(crate) fn seconds_in(scale: u8, units: u64) -> u64
    requires { scale ≤ 7 }
    ensures { result ≡ units / 10 ^ scale }
{
    whole(scale, units)
}

// A number of units since midnight is a time of day.
pub(crate) fn is_time(scale: u8, units: u64) -> bool
    ensures { result ≡ is_time_of scale units }
{
    scale <= 7 && seconds_in(scale, units) < SECONDS_A_DAY
}

// A day counted from 1900-01-01 is one of the calendar.
#[inline(always)]
pub(crate) fn is_day_since_1900(days: i32) -> bool
    ensures { result ≡ is_day_since_1900_of days }
{
    -(DAY_OF_1900 as i32) <= days && days <= LAST_DAY as i32 - DAY_OF_1900 as i32
}

// A number of minutes is one by which local time may be ahead of UTC, or behind it if negative.
#[inline(always)]
pub(crate) fn is_offset(offset: i16) -> bool
    ensures { result ≡ nat_le (unsigned_abs offset) LARGEST_OFFSET }
{
    -(LARGEST_OFFSET as i16) <= offset && offset <= LARGEST_OFFSET as i16
}

// The local seconds since day 0 of a UTC time and day, if the calendar has them. No jump depends on the sign.
#[inline(always)]
pub(crate) fn local_seconds(seconds: u64, day: u32, offset: i16) -> Option<u64>
    requires time { seconds < SECONDS_A_DAY }
    requires day { day ≤ LAST_DAY }
    requires offset { unsigned_abs offset ≤ LARGEST_OFFSET }
    ensures value { result ≡ local_seconds_of seconds day offset }
    ensures bound { IfSome result (λ local. local < SECONDS_OF_ALL_DAYS) }
{
    let utc = day as u64 * SECONDS_A_DAY + seconds;
    let local = utc as i64 + offset as i64 * 60;
    if local < 0 || local >= SECONDS_OF_ALL_DAYS as i64 {
        return None;
    }
    Some(local as u64)
}
