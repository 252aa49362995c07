// The text of a value in its range, by the crates of the kit. This is the plain program beside the fast one of
// `write.rt`: both have the same definition, and no digit is written by the same code.
ghost use Rattle.std.specs.Prelude.{◌≡◌, ◌+◌, ◌/◌, ◌%◌, ◌^◌, ◌<◌, ◌≤◌, ◌++◌, IsTrue, length, decimal};
ghost use Rattle.std.specs.Fmt.{signed_decimal};
ghost use Rattle.arrayvec.specs.ArrayVec.{array_vec_len};
ghost use Rattle.uuid.specs.Text.{hyphenated_text, lower};
ghost use Rattle.tds_values.specs.ScalarText.{last_digits, fraction_text, decimal_text, date_text, minutes_text, seconds_text, time_text, date_and_time, offset_text, ticks_text, minus_if, text_of};
ghost use Rattle.tds_values.specs.ScalarRange.{is_in_range};

use crate::ranges::{
    DAY_OF_1900, LAST_DAY, SECONDS_A_DAY, SECONDS_OF_ALL_DAYS, TICKS_A_DAY, local_seconds,
    seconds_in,
};
use crate::scalar::{Scalar, ScalarValue};
use crate::text::TEXT_ROOM;
use arrayvec::ArrayVec;
use itoa::Buffer;
use jiff_core::civil::Date;
use uuid::Uuid;

// How many days the first day of `jiff`, -9999-01-01, is before day 0.
const DAYS_BEFORE_DAY_0: u32 = 3_652_425;

/// Room for the text of any scalar value.
pub type ScalarText = ArrayVec<u8, TEXT_ROOM>;

/// How many bytes a [`ScalarText`] may hold.
pub fn text_room() -> usize
    ensures { result ≡ 64 }
{
    ScalarText::new().capacity()
}

// Some bytes.
fn push_text(text: &mut ScalarText, piece: &[u8])
    requires { array_vec_len text.old + length piece.now ≤ TEXT_ROOM }
    ensures items { text.new.items ≡ text.old.items ++ piece.now }
    ensures len { array_vec_len text.new ≡ array_vec_len text.old + length piece.now }
{
    let Ok(()) = text.try_extend_from_slice(piece) else {
        unreachable!();
    };
}

// The last k digits of a number.
fn push_digits(text: &mut ScalarText, k: usize, n: u128)
    requires { array_vec_len text.old + k ≤ TEXT_ROOM }
    ensures items { text.new.items ≡ text.old.items ++ last_digits k n }
    ensures len { array_vec_len text.new ≡ array_vec_len text.old + k }
{
    if k > 0 {
        push_digits(text, k - 1, n / 10);
        text.push(b'0' + (n % 10) as u8);
    }
}

// A whole number with its sign.
fn push_integer(text: &mut ScalarText, n: i64)
    requires { array_vec_len text.old + 20 ≤ TEXT_ROOM }
    ensures items { text.new.items ≡ text.old.items ++ signed_decimal n }
    ensures len { array_vec_len text.new ≤ array_vec_len text.old + 20 }
{
    let mut buffer = Buffer::new();
    push_text(text, buffer.format(n).as_bytes());
}

// A minus sign before what is negative.
fn push_minus(text: &mut ScalarText, negative: bool)
    requires { array_vec_len text.old < TEXT_ROOM }
    ensures items { text.new.items ≡ text.old.items ++ minus_if negative }
    ensures len { array_vec_len text.new ≤ array_vec_len text.old + 1 }
{
    if negative {
        text.push(b'-');
    }
}

// The whole part of a magnitude in units of the scale.
#[tactic(auto, using(crate::proofs::TextLengths::whole_lengths))]
fn push_whole(text: &mut ScalarText, magnitude: u128, scale: u8)
    requires room { array_vec_len text.old + 39 ≤ TEXT_ROOM }
    requires scale { scale ≤ 38 }
    ensures items { text.new.items ≡ text.old.items ++ decimal (magnitude / 10 ^ scale) }
    ensures len { array_vec_len text.new + scale ≤ array_vec_len text.old + 39 }
{
    let mut buffer = Buffer::new();
    let whole = magnitude / 10u128.pow(scale as u32);
    push_text(text, buffer.format(whole).as_bytes());
}

// A point and as many digits as the scale says.
fn push_fraction(text: &mut ScalarText, scale: u8, n: u128)
    requires { array_vec_len text.old + scale < TEXT_ROOM }
    ensures items { text.new.items ≡ text.old.items ++ fraction_text scale n }
    ensures len { array_vec_len text.new ≤ array_vec_len text.old + scale + 1 }
{
    if scale > 0 {
        text.push(b'.');
        push_digits(text, scale as usize, n);
    }
}

// A decimal: zero has no sign.
fn push_decimal(text: &mut ScalarText, negative: bool, magnitude: u128, scale: u8)
    requires room { array_vec_len text.old + 41 ≤ TEXT_ROOM }
    requires scale { scale ≤ 38 }
    ensures items { text.new.items ≡ text.old.items ++ decimal_text negative magnitude scale }
    ensures len { array_vec_len text.new ≤ array_vec_len text.old + 41 }
{
    push_minus(text, negative && magnitude != 0);
    push_whole(text, magnitude, scale);
    push_fraction(text, scale, magnitude);
}

// Lower-case hexadecimal digits, 8-4-4-4-12.
#[tactic(auto, using(uuid::proofs::TextLemmas::by_index_length))]
fn push_guid(text: &mut ScalarText, id: Uuid)
    requires { array_vec_len text.old + 36 ≤ TEXT_ROOM }
    ensures items { text.new.items ≡ text.old.items ++ hyphenated_text lower id }
    ensures len { array_vec_len text.new ≡ array_vec_len text.old + 36 }
{
    let mut buffer = Uuid::encode_buffer();
    push_text(text, id.hyphenated().encode_lower(&mut buffer).as_bytes());
}

// YYYY-MM-DD.
fn push_date(text: &mut ScalarText, day: u32)
    requires room { array_vec_len text.old + 10 ≤ TEXT_ROOM }
    requires day { day ≤ LAST_DAY }
    ensures items { text.new.items ≡ text.old.items ++ date_text day }
    ensures len { array_vec_len text.new ≡ array_vec_len text.old + 10 }
{
    let date = Date::from_days_since_min(day + DAYS_BEFORE_DAY_0);
    push_digits(text, 4, date.year.unsigned_abs() as u128);
    text.push(b'-');
    push_digits(text, 2, date.month as u128);
    text.push(b'-');
    push_digits(text, 2, date.day as u128);
}

// HH:MM.
fn push_minutes(text: &mut ScalarText, minutes: u64)
    requires { array_vec_len text.old + 5 ≤ TEXT_ROOM }
    ensures items { text.new.items ≡ text.old.items ++ minutes_text minutes }
    ensures len { array_vec_len text.new ≡ array_vec_len text.old + 5 }
{
    push_digits(text, 2, (minutes / 60) as u128);
    text.push(b':');
    push_digits(text, 2, (minutes % 60) as u128);
}

// HH:MM:SS.
fn push_seconds(text: &mut ScalarText, seconds: u64)
    requires { array_vec_len text.old + 8 ≤ TEXT_ROOM }
    ensures items { text.new.items ≡ text.old.items ++ seconds_text seconds }
    ensures len { array_vec_len text.new ≡ array_vec_len text.old + 8 }
{
    push_minutes(text, seconds / 60);
    text.push(b':');
    push_digits(text, 2, (seconds % 60) as u128);
}

// HH:MM:SS and the fraction of a second.
fn push_time(text: &mut ScalarText, scale: u8, units: u64)
    requires room { array_vec_len text.old + 17 ≤ TEXT_ROOM }
    requires scale { scale ≤ 7 }
    ensures items { text.new.items ≡ text.old.items ++ time_text scale units }
    ensures len { array_vec_len text.new ≤ array_vec_len text.old + 9 + scale }
{
    push_seconds(text, seconds_in(scale, units));
    push_fraction(text, scale, units as u128);
}

// HH:MM:SS.mmm of a number of 1/300 seconds.
fn push_ticks(text: &mut ScalarText, ticks: u32)
    requires room { array_vec_len text.old + 12 ≤ TEXT_ROOM }
    requires day { ticks < TICKS_A_DAY }
    ensures items { text.new.items ≡ text.old.items ++ ticks_text ticks }
    ensures len { array_vec_len text.new ≤ array_vec_len text.old + 12 }
{
    push_seconds(text, (ticks / 300) as u64);
    push_fraction(text, 3, ((10 * (ticks % 300) + 1) / 3) as u128);
}

// +HH:MM or -HH:MM.
fn push_offset(text: &mut ScalarText, offset: i16)
    requires { array_vec_len text.old + 6 ≤ TEXT_ROOM }
    ensures items { text.new.items ≡ text.old.items ++ offset_text offset }
    ensures len { array_vec_len text.new ≡ array_vec_len text.old + 6 }
{
    text.push(if offset < 0 { b'-' } else { b'+' });
    push_minutes(text, offset.unsigned_abs() as u64);
}

// A local time by its whole seconds since day 0 and the fraction of its units.
fn push_local(text: &mut ScalarText, local: u64, scale: u8, units: u64)
    requires room { array_vec_len text.old + 27 ≤ TEXT_ROOM }
    requires local { local < SECONDS_OF_ALL_DAYS }
    requires scale { scale ≤ 7 }
    ensures items { let time = seconds_text (local % SECONDS_A_DAY) ++ fraction_text scale units in
        text.new.items ≡ text.old.items ++ date_and_time (local / SECONDS_A_DAY) time }
    ensures len { array_vec_len text.new ≤ array_vec_len text.old + 27 }
{
    push_date(text, (local / SECONDS_A_DAY) as u32);
    text.push(b' ');
    push_seconds(text, local % SECONDS_A_DAY);
    push_fraction(text, scale, units as u128);
}

// A datetimeoffset: a time and a day in UTC, and the minutes by which local time is ahead.
fn push_date_time_offset(text: &mut ScalarText, scale: u8, units: u64, day: u32, offset: i16)
    requires room { array_vec_len text.old + 41 ≤ TEXT_ROOM }
    requires in_range { IsTrue (is_in_range (ScalarValue.DateTimeOffset scale units day offset)) }
    ensures items { text.new.items ≡ text.old.items ++ text_of (ScalarValue.DateTimeOffset scale units day offset) }
    ensures len { array_vec_len text.new ≤ array_vec_len text.old + 34 }
{
    let Some(local) = local_seconds(seconds_in(scale, units), day, offset) else {
        unreachable!();
    };
    push_local(text, local, scale, units);
    text.push(b' ');
    push_offset(text, offset);
}

// The text of a value.
fn push_value(text: &mut ScalarText, value: &ScalarValue)
    requires room { array_vec_len text.old ≡ 0 }
    requires in_range { IsTrue (is_in_range value.now) }
    ensures items { text.new.items ≡ text.old.items ++ text_of value.now }
    ensures short { array_vec_len text.new ≤ 41 }
{
    match *value {
        ScalarValue::Integer(n) => push_integer(text, n),
        ScalarValue::Bit(bit) => text.push(if bit { b'1' } else { b'0' }),
        ScalarValue::Decimal {
            negative,
            magnitude,
            scale,
        } => push_decimal(text, negative, magnitude, scale),
        ScalarValue::Money(amount) => {
            push_decimal(text, amount < 0, amount.unsigned_abs() as u128, 4)
        }
        ScalarValue::Guid(id) => push_guid(text, id),
        ScalarValue::Date(day) => push_date(text, day),
        ScalarValue::Time { scale, units } => push_time(text, scale, units),
        ScalarValue::DateTime2 { scale, units, day } => {
            push_date(text, day);
            text.push(b' ');
            push_time(text, scale, units);
        }
        ScalarValue::DateTimeOffset {
            scale,
            units,
            day,
            offset,
        } => push_date_time_offset(text, scale, units, day, offset),
        ScalarValue::SmallDateTime { days, minutes } => {
            push_date(text, DAY_OF_1900 + days as u32);
            text.push(b' ');
            push_seconds(text, 60 * minutes as u64);
        }
        ScalarValue::DateTime { days, ticks } => {
            push_date(text, (DAY_OF_1900 as i32 + days) as u32);
            text.push(b' ');
            push_ticks(text, ticks);
        }
    }
}

/// The text of a value: at most 41 bytes of ASCII.
pub fn scalar_text(value: &Scalar) -> ScalarText
    ensures text { result.items ≡ text_of value.now }
    ensures short { array_vec_len result ≤ 41 }
{
    let mut text = ScalarText::new();
    push_value(&mut text, &value.value());
    text
}
