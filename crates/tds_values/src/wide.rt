// The texts of decimals of up to 128 bits.
ghost use Rattle.std.specs.Prelude.{◌≡◌, ◌+◌, ◌-◌, ◌≤◌, ◌<◌, ◌^◌, ◌++◌, ◌⊎◌, take, drop, length};
ghost use Rattle.tds_values.specs.{Numbers.{groups_of}, ScalarText.{last_digits, decimal_text}};

use crate::digits::{leading_zeros, put_byte, put_piece, put_tail};
use crate::numbers::put_sign;
use crate::text::{LONGEST_TEXT, TEXT_ROOM};

// How many digits are written at most: no number of 128 bits has more than 39.
const DIGITS: usize = 40;

// How many groups of eight digits these are.
const GROUPS: usize = DIGITS / 8;

// How many bytes hold them, so that as many can be copied from each digit on.
const DIGITS_ROOM: usize = 2 * DIGITS;

// How many digits are copied where no more are wanted.
const FEW_DIGITS: usize = 16;

// What a group of eight digits counts to.
const GROUP: u64 = 100_000_000;

// The digits of a number in groups of eight, the highest first. Each half of 32 bits is known in such groups, as
// 2^32 is 42 and 94,967,296, so no division is wider than 64 bits.
#[inline(always)]
fn groups(n: u128) -> [u32; GROUPS]
    ensures { result ≡ groups_of n }
{
    let low = (n % 0x1_0000_0000_0000_0000) as u64;
    let high = (n / 0x1_0000_0000_0000_0000) as u64;
    let (a, b) = (low % 0x1_0000_0000, low / 0x1_0000_0000);
    let (c, d) = (high % 0x1_0000_0000, high / 0x1_0000_0000);
    let first = a + b * 94_967_296 + c * 9_551_616 + d * 43_950_336;
    let second = b * 42 + c * 67_440_737 + d * 43_375_935 + first / GROUP;
    let third = c * 1844 + d * 16_251_426 + second / GROUP;
    let fourth = d * 79_228 + third / GROUP;
    [
        (fourth / GROUP) as u32,
        (fourth % GROUP) as u32,
        (third % GROUP) as u32,
        (second % GROUP) as u32,
        (first % GROUP) as u32,
    ]
}

// How many of the forty digits of a number in groups are leading zeros.
#[inline(always)]
fn wide_leading_zeros(n: u128, groups: &[u32; GROUPS]) -> usize
    requires { groups.now ≡ groups_of n }
    ensures few { result ≤ 39 }
    ensures fits { n < 10 ^ (40 - result) }
    ensures needed { (result ≡ 39) ⊎ (10 ^ (39 - result) ≤ n) }
{
    if n >= 1_00000000_00000000_00000000_00000000 {
        return leading_zeros(groups[0]);
    }
    if n >= 1_00000000_00000000_00000000 {
        return 8 + leading_zeros(groups[1]);
    }
    if n >= 1_00000000_00000000 {
        return 16 + leading_zeros(groups[2]);
    }
    if n >= 1_00000000 {
        return 24 + leading_zeros(groups[3]);
    }
    32 + leading_zeros(groups[4])
}

// The forty digits of a number, and how many of them are leading zeros.
#[inline(always)]
fn digits(n: u128) -> ([u8; DIGITS_ROOM], usize)
    ensures digits { take 40 result.0 ≡ last_digits 40 n }
    ensures few { result.1 ≤ 39 }
    ensures fits { n < 10 ^ (40 - result.1) }
    ensures needed { (result.1 ≡ 39) ⊎ (10 ^ (39 - result.1) ≤ n) }
{
    let groups = groups(n);
    let mut digits = [0; DIGITS_ROOM];
    let at = put_tail(&mut digits, 0, 8, groups[0]);
    let at = put_tail(&mut digits, at, 8, groups[1]);
    let at = put_tail(&mut digits, at, 8, groups[2]);
    let at = put_tail(&mut digits, at, 8, groups[3]);
    put_tail(&mut digits, at, 8, groups[4]);
    (digits, wide_leading_zeros(n, &groups))
}

// Forty digits without the first ones, which aren't wanted. As many bytes are copied in any case.
#[inline(always)]
fn put_from(to: &mut [u8], at: usize, digits: &[u8; DIGITS_ROOM], skipped: usize) -> usize
    requires room { at + 40 ≤ length to.old }
    requires few { skipped ≤ 40 }
    ensures end { result ≡ at + (40 - skipped) }
    ensures written { take result to.new ≡ take at to.old ++ drop skipped (take 40 digits.now) }
{
    put_piece::<DIGITS>(to, at, &digits[skipped..skipped + DIGITS]);
    at + (DIGITS - skipped)
}

// The last digits of forty, as many as the scale says.
#[inline(always)]
fn put_last(to: &mut [u8], at: usize, digits: &[u8; DIGITS_ROOM], scale: usize) -> usize
    requires few { scale ≤ 40 }
    requires room { at + scale + 23 ≤ length to.old }
    ensures end { result ≡ at + scale }
    ensures written { take result to.new ≡ take at to.old ++ drop (40 - scale) (take 40 digits.now) }
{
    let first = DIGITS - scale;
    if scale > FEW_DIGITS {
        return put_from(to, at, digits, first);
    }
    put_piece::<FEW_DIGITS>(to, at, &digits[first..first + FEW_DIGITS]);
    at + scale
}

// A decimal.
#[inline(never)]
pub(crate) fn put_wide_decimal(
    to: &mut [u8],
    at: usize,
    negative: bool,
    magnitude: u128,
    scale: u8,
) -> usize
    requires room { at + TEXT_ROOM ≤ length to.old }
    requires scale { scale ≤ 38 }
    ensures end { result ≤ at + LONGEST_TEXT }
    ensures written { take result to.new ≡ take at to.old ++ decimal_text negative magnitude scale }
{
    let (digits, leading_zeros) = digits(magnitude);
    let scale = scale as usize;
    let at = put_sign(to, at, negative, magnitude == 0);
    let end = put_from(to, at, &digits, leading_zeros.min(DIGITS - 1 - scale));
    if scale == 0 {
        return end;
    }
    let at = put_byte(to, end - scale, b'.');
    put_last(to, at, &digits, scale)
}
