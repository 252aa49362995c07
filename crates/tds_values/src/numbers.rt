// The texts of numbers, written to a slice from a place on.
ghost use Rattle.std.specs.Prelude.{◌≡◌, ◌+◌, ◌-◌, ◌<◌, ◌≤◌, ◌^◌, ◌/◌, ◌%◌, ◌++◌, ◌&&◌, not, codes, take, length, decimal};
ghost use Rattle.std.specs.Fmt.{signed_decimal};
ghost use Rattle.tds_values.specs.ScalarText.{last_digits, fraction_text, minus_if, decimal_text};

use crate::digits::{leading_zeros, put_after, put_byte, put_end, put_minus, put_number, put_tail};
use crate::text::LONGEST_TEXT;

// The last k digits of a number, if they are more than eight.
#[inline(always)]
fn put_last(to: &mut [u8], at: usize, k: usize, n: u64) -> usize
    requires room { at + 24 ≤ length to.old }
    requires many { 8 < k }
    requires few { k ≤ 24 }
    ensures end { result ≡ at + k }
    ensures written { take result to.new ≡ take at to.old ++ last_digits k n }
{
    let low = (n % 100_000_000) as u32;
    let middle = (n / 100_000_000 % 100_000_000) as u32;
    if k <= 16 {
        let at = put_tail(to, at, k - 8, middle);
        return put_tail(to, at, 8, low);
    }
    let at = put_tail(to, at, k - 16, (n / 10_000_000_000_000_000) as u32);
    let at = put_tail(to, at, 8, middle);
    put_tail(to, at, 8, low)
}

// A whole number with its sign.
#[inline(always)]
pub(crate) fn put_integer(to: &mut [u8], at: usize, n: i64) -> usize
    requires { at + 25 ≤ length to.old }
    ensures end { result ≤ at + 25 }
    ensures written { take result to.new ≡ take at to.old ++ signed_decimal n }
{
    let size = n.unsigned_abs();
    let at = put_minus(to, at, n < 0);
    put_number(to, at, size)
}

// How many units a whole one has, for each scale.
static POWERS: [u64; 20] = [
    1,
    10,
    100,
    1000,
    10_000,
    100_000,
    1_000_000,
    10_000_000,
    100_000_000,
    1_000_000_000,
    10_000_000_000,
    100_000_000_000,
    1_000_000_000_000,
    10_000_000_000_000,
    100_000_000_000_000,
    1_000_000_000_000_000,
    10_000_000_000_000_000,
    100_000_000_000_000_000,
    1_000_000_000_000_000_000,
    10_000_000_000_000_000_000,
];

// The whole part of a number of units of a scale.
#[inline(always)]
pub(crate) fn whole(scale: u8, n: u64) -> u64
    requires { scale ≤ 19 }
    ensures { result ≡ n / 10 ^ scale }
{
    match scale {
        0 => n,
        1 => n / 10,
        2 => n / 100,
        3 => n / 1000,
        4 => n / 10_000,
        5 => n / 100_000,
        6 => n / 1_000_000,
        7 => n / 10_000_000,
        8 => n / 100_000_000,
        9 => n / 1_000_000_000,
        10 => n / 10_000_000_000,
        11 => n / 100_000_000_000,
        12 => n / 1_000_000_000_000,
        13 => n / 10_000_000_000_000,
        14 => n / 100_000_000_000_000,
        15 => n / 1_000_000_000_000_000,
        16 => n / 10_000_000_000_000_000,
        17 => n / 100_000_000_000_000_000,
        18 => n / 1_000_000_000_000_000_000,
        _ => n / 10_000_000_000_000_000_000,
    }
}

// The units that the whole part leaves.
#[inline(always)]
pub(crate) fn rest(scale: u8, n: u64, whole: u64) -> u64
    requires scale { scale ≤ 19 }
    requires whole { whole ≡ n / 10 ^ scale }
    ensures units { result ≡ n % 10 ^ scale }
    ensures small { result < 10 ^ scale }
{
    n - whole * POWERS[scale as usize]
}

// A point and as many digits as the scale says, of at most eight; nothing at scale 0.
#[inline(always)]
pub(crate) fn put_fraction(to: &mut [u8], at: usize, scale: u8, n: u64) -> usize
    requires room { at + 9 ≤ length to.old }
    requires scale { scale ≤ 8 }
    requires small { n < 10 ^ scale }
    ensures end { result ≤ at + 1 + scale }
    ensures written { take result to.new ≡ take at to.old ++ fraction_text scale n }
{
    if scale == 0 {
        return at;
    }
    let at = put_byte(to, at, b'.');
    if scale <= 4 {
        return put_end(to, at, scale as usize, n as u32);
    }
    put_tail(to, at, scale as usize, n as u32)
}

// The same of at most 19 digits.
#[inline(always)]
fn put_long_fraction(to: &mut [u8], at: usize, scale: u8, n: u64) -> usize
    requires room { at + 25 ≤ length to.old }
    requires scale { scale ≤ 19 }
    requires small { n < 10 ^ scale }
    ensures end { result ≤ at + 1 + scale }
    ensures written { take result to.new ≡ take at to.old ++ fraction_text scale n }
{
    if scale <= 8 {
        return put_fraction(to, at, scale, n);
    }
    let at = put_byte(to, at, b'.');
    put_last(to, at, scale as usize, n)
}

// The sign of a decimal: zero has none.
#[inline(always)]
pub(crate) fn put_sign(to: &mut [u8], at: usize, negative: bool, zero: bool) -> usize
    requires { at < length to.old }
    ensures end { result ≤ at + 1 }
    ensures written { take result to.new ≡ take at to.old ++ minus_if (negative && not zero) }
{
    put_minus(to, at, negative && !zero)
}

// Eight digits without the first ones, which aren't wanted, and a point among them.
#[inline(always)]
fn put_pointed(to: &mut [u8], at: usize, skipped: usize, scale: usize, n: u32) -> usize
    requires room { at + 17 ≤ length to.old }
    requires some { 1 ≤ scale }
    requires few { skipped + scale ≤ 7 }
    requires small { n < 100000000 }
    ensures end { result ≡ at + (9 - skipped) }
    ensures written { take result to.new ≡
        take at to.old ++ (last_digits (8 - scale - skipped) (n / 10 ^ scale) ++ (codes "." ++ last_digits scale n)) }
{
    put_after(to, at, skipped, n);
    let at = put_byte(to, at + (8 - scale - skipped), b'.');
    put_tail(to, at, scale, n)
}

// A number of units of a scale, of at most eight digits.
#[inline(always)]
fn put_few_units(to: &mut [u8], at: usize, scale: usize, n: u32) -> usize
    requires room { at + 17 ≤ length to.old }
    requires some { 1 ≤ scale }
    requires few { scale ≤ 7 }
    requires small { n < 100000000 }
    ensures end { result ≤ at + 9 }
    ensures written { take result to.new ≡
        take at to.old ++ (decimal (n / 10 ^ scale) ++ (codes "." ++ last_digits scale n)) }
{
    let skipped = leading_zeros(n).min(7 - scale);
    put_pointed(to, at, skipped, scale, n)
}

// The same of any number of digits.
#[inline(always)]
fn put_units(to: &mut [u8], at: usize, scale: usize, n: u64) -> usize
    requires room { at + 41 ≤ length to.old }
    requires some { 1 ≤ scale }
    requires few { scale ≤ 7 }
    ensures end { result ≤ at + 33 }
    ensures written { take result to.new ≡
        take at to.old ++ (decimal (n / 10 ^ scale) ++ (codes "." ++ last_digits scale n)) }
{
    if n < 100_000_000 {
        return put_few_units(to, at, scale, n as u32);
    }
    let at = put_number(to, at, n / 100_000_000);
    put_pointed(to, at, 0, scale, (n % 100_000_000) as u32)
}

// The same of any scale; no point at scale 0.
#[inline(never)]
fn put_parts(to: &mut [u8], at: usize, magnitude: u64, scale: u8) -> usize
    requires room { at + 49 ≤ length to.old }
    requires scale { scale ≤ 19 }
    ensures end { result ≤ at + 40 }
    ensures written { take result to.new ≡
        take at to.old ++ (decimal (magnitude / 10 ^ scale) ++ fraction_text scale magnitude) }
{
    let whole = whole(scale, magnitude);
    let at = put_number(to, at, whole);
    put_long_fraction(to, at, scale, rest(scale, magnitude, whole))
}

// A decimal whose magnitude has 64 bits.
#[inline(always)]
pub(crate) fn put_decimal(
    to: &mut [u8],
    at: usize,
    negative: bool,
    magnitude: u64,
    scale: u8,
) -> usize
    requires room { at + 50 ≤ length to.old }
    requires scale { scale ≤ 19 }
    ensures end { result ≤ at + LONGEST_TEXT }
    ensures written { take result to.new ≡ take at to.old ++ decimal_text negative magnitude scale }
{
    let at = put_sign(to, at, negative, magnitude == 0);
    if scale == 0 || scale > 7 {
        return put_parts(to, at, magnitude, scale);
    }
    put_units(to, at, scale as usize, magnitude)
}
