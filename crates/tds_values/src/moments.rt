// The texts of dates and times, written to a slice from a place on.
ghost use Rattle.std.specs.Prelude.{◌≡◌, ◌+◌, ◌<◌, ◌≤◌, ◌^◌, ◌++◌, codes, take, length, nat_lt, unsigned_abs, if◌then◌else◌};
ghost use Rattle.tds_values.specs.Calendar.{days_before_year};
ghost use Rattle.tds_values.specs.ScalarText.{last_digits, date_text, march_text, seconds_text, minutes_text, fraction_text, ticks_text, offset_text, date_and_time};
ghost use Rattle.tds_values.specs.TimeOfDay.{IsClockTime};

use crate::digits::{put_byte, put_end, put_of_four, put_piece};
use crate::numbers::put_fraction;
use crate::ranges::{LARGEST_OFFSET, LAST_DAY, MINUTES_A_DAY, SECONDS_A_DAY, TICKS_A_DAY};
use crate::tables::{DAYS, MINUTES};

// How many days a year has from 1 March on. So many come before day 0 from 1 March of the year before it on.
const DAYS_FROM_MARCH: u32 = 306;

// The place of a day in a year that begins on 1 March, where a leap day comes last: in which year that is, and how many of
// its days come before.
#[derive(Clone, Copy)]
struct MarchDay {
    year: u32,
    before: u32,
}

// Where a day lies, by centuries of such years and fours of them, each of which has no more days than the next (Neri and
// Schneider, "Euclidean affine functions and their application to calendar algorithms").
#[inline(always)]
fn march_day(day: u32) -> MarchDay
    requires { day ≤ LAST_DAY }
    ensures few { result.before < 366 }
    ensures year { result.year ≤ 9999 }
    ensures place { days_before_year (result.year + 1) + result.before ≡ day + 306 }
    ensures within { day + 306 < days_before_year (result.year + 2) }
{
    let quarters = 4 * (day + DAYS_FROM_MARCH) + 3;
    let century = quarters / 146_097;
    let in_century = quarters % 146_097 / 4 * 4 + 3;
    MarchDay {
        year: 100 * century + in_century / 1461,
        before: in_century % 1461 / 4,
    }
}

// The calendar's year of a day in a year that begins on 1 March.
#[inline(always)]
fn calendar_year(day: MarchDay) -> u32
    requires { day.year ≤ 9999 }
    ensures { result ≡ day.year + (if nat_lt day.before 306 then 0 else 1) }
{
    day.year + u32::from(day.before >= DAYS_FROM_MARCH)
}

// -MM-DD and two spaces, of the day that comes so many days after 1 March.
#[inline(always)]
fn day_after_march(before: u32) -> &'static [u8]
    requires { before < 366 }
    ensures { result.now ≡ march_text before ++ codes "  " }
{
    let from = 8 * before as usize;
    &DAYS[from..from + 8]
}

// -MM-DD of the day that comes so many days after 1 March, and a space after it.
#[inline(always)]
fn put_day(to: &mut [u8], at: usize, before: u32) -> usize
    requires room { at + 8 ≤ length to.old }
    requires day { before < 366 }
    ensures end { result ≡ at + 6 }
    ensures written { take result to.new ≡ take at to.old ++ march_text before }
    ensures space { take (result + 1) to.new ≡ take result to.new ++ codes " " }
{
    put_piece::<8>(to, at, day_after_march(before));
    at + 6
}

// YYYY-MM-DD, and a space after it.
#[inline(always)]
pub(crate) fn put_date(to: &mut [u8], at: usize, day: u32) -> usize
    requires room { at + 12 ≤ length to.old }
    requires day { day ≤ LAST_DAY }
    ensures end { result ≡ at + 10 }
    ensures written { take result to.new ≡ take at to.old ++ date_text day }
    ensures space { take (result + 1) to.new ≡ take result to.new ++ codes " " }
{
    let place = march_day(day);
    let at = put_of_four::<4>(to, at, calendar_year(place));
    put_day(to, at, place.before)
}

// HH:MM:00.
#[inline(always)]
fn minute(minutes: u32) -> &'static [u8]
    requires { minutes < MINUTES_A_DAY }
    ensures { result.now ≡ minutes_text minutes ++ codes ":" ++ last_digits 2 0 }
{
    let from = 8 * minutes as usize;
    &MINUTES[from..from + 8]
}

// HH:MM, and :00 after it.
#[inline(always)]
pub(crate) fn put_minutes(to: &mut [u8], at: usize, minutes: u32) -> usize
    requires room { at + 8 ≤ length to.old }
    requires day { minutes < MINUTES_A_DAY }
    ensures end { result ≡ at + 5 }
    ensures written { take result to.new ≡ take at to.old ++ minutes_text minutes }
    ensures colon { take (result + 1) to.new ≡ take result to.new ++ codes ":" }
    ensures seconds { take (result + 3) to.new ≡ take at to.old
        ++ (minutes_text minutes ++ codes ":" ++ last_digits 2 0) }
{
    put_piece::<8>(to, at, minute(minutes));
    at + 5
}

// HH:MM:SS.
#[inline(always)]
fn put_clock(to: &mut [u8], at: usize, seconds: u32) -> usize
    requires room { at + 8 ≤ length to.old }
    requires day { seconds < SECONDS_A_DAY }
    ensures end { result ≡ at + 8 }
    ensures written { take result to.new ≡ take at to.old ++ seconds_text seconds }
{
    let at = put_minutes(to, at, seconds / 60);
    put_of_four::<2>(to, at + 1, seconds % 60)
}

// The seconds since midnight and a fraction of one.
#[inline(always)]
pub(crate) fn put_time(to: &mut [u8], at: usize, seconds: u32, scale: u8, part: u64) -> usize
    requires room { at + 17 ≤ length to.old }
    requires time { IsClockTime seconds scale }
    requires part { part < 10 ^ scale }
    ensures end { result ≤ at + 9 + scale }
    ensures written { take result to.new ≡ take at to.old ++ (seconds_text seconds ++ fraction_text scale part) }
{
    let at = put_clock(to, at, seconds);
    put_fraction(to, at, scale, part)
}

// A date and a time.
#[inline(always)]
pub(crate) fn put_moment(to: &mut [u8], day: u32, seconds: u32, scale: u8, part: u64) -> usize
    requires room { 28 ≤ length to.old }
    requires date { day ≤ LAST_DAY }
    requires time { IsClockTime seconds scale }
    requires part { part < 10 ^ scale }
    ensures end { result ≤ 20 + scale }
    ensures written { take result to.new ≡ date_and_time day (seconds_text seconds ++ fraction_text scale part) }
{
    let at = put_date(to, 0, day);
    put_time(to, at + 1, seconds, scale, part)
}

// HH:MM:SS.mmm of a number of 1/300 seconds.
#[inline(always)]
pub(crate) fn put_ticks(to: &mut [u8], at: usize, ticks: u32) -> usize
    requires room { at + 13 ≤ length to.old }
    requires day { ticks < TICKS_A_DAY }
    ensures end { result ≡ at + 12 }
    ensures written { take result to.new ≡ take at to.old ++ ticks_text ticks }
{
    let at = put_clock(to, at, ticks / 300);
    let at = put_byte(to, at, b'.');
    put_end(to, at, 3, (10 * (ticks % 300) + 1) / 3)
}

// +HH:MM or -HH:MM.
#[inline(always)]
pub(crate) fn put_offset(to: &mut [u8], at: usize, offset: i16) -> usize
    requires room { at + 9 ≤ length to.old }
    requires offset { unsigned_abs offset ≤ LARGEST_OFFSET }
    ensures end { result ≡ at + 6 }
    ensures written { take result to.new ≡ take at to.old ++ offset_text offset }
{
    let at = put_byte(to, at, if offset < 0 { b'-' } else { b'+' });
    put_minutes(to, at, offset.unsigned_abs() as u32)
}
