// Digits and other bytes, written to a slice from a place on. Each call returns the place after what it wrote.
ghost use Rattle.std.specs.Prelude.{◌≡◌, ◌+◌, ◌-◌, ◌<◌, ◌≤◌, ◌^◌, ◌/◌, ◌*◌, ◌%◌, [], ◌∷◌, ◌++◌, ◌⊎◌, take, length, decimal};
ghost use Rattle.tds_values.specs.ScalarText.{last_digits, minus_if};
ghost use Rattle.byteorder.specs.Endian.{little_number};

use crate::tables::{FOUR_DIGITS, SMALL_NUMBERS};
use byteorder::{ByteOrder, LittleEndian};

/// Writes a byte at a place, and returns the place after it.
#[inline(always)]
pub fn put_byte(to: &mut [u8], at: usize, byte: u8) -> usize
    requires { at < length to.old }
    ensures end { result ≡ at + 1 }
    ensures written { take result to.new ≡ take at to.old ++ byte ∷ [] }
{
    to[at] = byte;
    at + 1
}

// The sign, if a number is negative: it is written in any case, and what comes next is written over it if it isn't.
#[inline(always)]
pub(crate) fn put_minus(to: &mut [u8], at: usize, negative: bool) -> usize
    requires { at < length to.old }
    ensures end { result ≤ at + 1 }
    ensures written { take result to.new ≡ take at to.old ++ minus_if negative }
{
    to[at] = b'-';
    at + negative as usize
}

// Some bytes, `N` of them, which are read before the first is written.
#[inline(always)]
pub(crate) fn put_piece<const N: usize>(to: &mut [u8], at: usize, piece: &[u8]) -> usize
    requires length { length piece.now ≡ N }
    requires room { at + N ≤ length to.old }
    ensures end { result ≡ at + N }
    ensures written { take result to.new ≡ take at to.old ++ piece.now }
{
    let mut block = [0; N];
    block[..].copy_from_slice(piece);
    to[at..at + N].copy_from_slice(&block);
    at + N
}

// The four digits of a number.
#[inline(always)]
fn four_digits(n: u32) -> &'static [u8]
    requires { n < 10000 }
    ensures { result.now ≡ last_digits 4 n }
{
    let from = 4 * n as usize;
    &FOUR_DIGITS[from..from + 4]
}

// Four digits as one number, the first digit in its lowest byte.
#[inline(always)]
fn four(n: u32) -> u32
    requires { n < 10000 }
    ensures { result ≡ little_number 4 (last_digits 4 n) }
{
    LittleEndian::read_u32(four_digits(n))
}

// The last `N` digits of four.
#[inline(always)]
pub(crate) fn put_of_four<const N: usize>(to: &mut [u8], at: usize, n: u32) -> usize
    requires few { N ≤ 4 }
    requires room { at + N ≤ length to.old }
    requires small { n < 10000 }
    ensures end { result ≡ at + N }
    ensures written { take result to.new ≡ take at to.old ++ last_digits N n }
{
    put_piece::<N>(to, at, &four_digits(n)[4 - N..])
}

// Eight digits as one number, the first digit in its lowest byte.
#[inline(always)]
pub(crate) fn word(n: u32) -> u64
    requires { n < 100000000 }
    ensures { result ≡ little_number 8 (last_digits 8 n) }
{
    four(n / 10_000) as u64 + four(n % 10_000) as u64 * 0x1_0000_0000
}

// The digits of eight that come after some zeros, or after digits that aren't wanted.
#[inline(always)]
pub(crate) fn put_after(to: &mut [u8], at: usize, skipped: usize, n: u32) -> usize
    requires room { at + 8 ≤ length to.old }
    requires few { skipped ≤ 7 }
    requires small { n < 100000000 }
    ensures end { result ≡ at + (8 - skipped) }
    ensures written { take result to.new ≡ take at to.old ++ last_digits (8 - skipped) n }
{
    let digits = word(n) >> (8 * skipped as u32);
    put_piece::<8>(to, at, &digits.to_le_bytes());
    at + (8 - skipped)
}

// The last k digits of eight.
#[inline(always)]
pub(crate) fn put_tail(to: &mut [u8], at: usize, k: usize, n: u32) -> usize
    requires room { at + 8 ≤ length to.old }
    requires some { 1 ≤ k }
    requires few { k ≤ 8 }
    requires small { n < 100000000 }
    ensures end { result ≡ at + k }
    ensures written { take result to.new ≡ take at to.old ++ last_digits k n }
{
    put_after(to, at, 8 - k, n)
}

// The last k digits of four.
#[inline(always)]
pub(crate) fn put_end(to: &mut [u8], at: usize, k: usize, n: u32) -> usize
    requires room { at + 4 ≤ length to.old }
    requires few { k ≤ 4 }
    requires some { 1 ≤ k }
    requires small { n < 10000 }
    ensures end { result ≡ at + k }
    ensures written { take result to.new ≡ take at to.old ++ last_digits k n }
{
    let digits = four(n) >> (8 * (4 - k as u32));
    put_piece::<4>(to, at, &digits.to_le_bytes());
    at + k
}

// How many of eight digits are leading zeros: their bytes are 0 once each loses 48, and one bit more in the
// last byte keeps the last digit.
#[inline(always)]
pub(crate) fn leading_zeros(n: u32) -> usize
    requires { n < 100000000 }
    ensures few { result ≤ 7 }
    ensures fits { n < 10 ^ (8 - result) }
    ensures needed { (result ≡ 7) ⊎ (10 ^ (7 - result) ≤ n) }
{
    let values = word(n) - 0x2030_3030_3030_3030;
    values.trailing_zeros() as usize / 8
}

// A number below 256.
#[inline(always)]
pub(crate) fn put_small(to: &mut [u8], at: usize, n: u8) -> usize
    requires room { at + 4 ≤ length to.old }
    ensures end { result ≤ at + 3 }
    ensures written { take result to.new ≡ take at to.old ++ decimal n }
{
    let from = 4 * n as usize;
    let text = &SMALL_NUMBERS[from..from + 4];
    put_piece::<4>(to, at, text);
    at + text[3] as usize
}

// A number of at most four digits.
#[inline(always)]
pub(crate) fn put_4(to: &mut [u8], at: usize, n: u32) -> usize
    requires room { at + 4 ≤ length to.old }
    requires small { n < 10000 }
    ensures end { result ≤ at + 4 }
    ensures written { take result to.new ≡ take at to.old ++ decimal n }
{
    let digits = four(n);
    let skipped = (digits - 0x2030_3030).trailing_zeros() as usize / 8;
    put_piece::<4>(to, at, &(digits >> (8 * skipped as u32)).to_le_bytes());
    at + (4 - skipped)
}

// A number of at most eight digits.
#[inline(always)]
fn put_8(to: &mut [u8], at: usize, n: u32) -> usize
    requires room { at + 8 ≤ length to.old }
    requires small { n < 100000000 }
    ensures end { result ≤ at + 8 }
    ensures written { take result to.new ≡ take at to.old ++ decimal n }
{
    put_after(to, at, leading_zeros(n), n)
}

// A number of 32 bits that has more than eight digits.
#[inline(always)]
fn put_10(to: &mut [u8], at: usize, n: u32) -> usize
    requires room { at + 16 ≤ length to.old }
    requires large { 100000000 ≤ n }
    ensures end { result ≤ at + 16 }
    ensures written { take result to.new ≡ take at to.old ++ decimal n }
{
    let at = put_4(to, at, n / 100_000_000);
    put_tail(to, at, 8, n % 100_000_000)
}

// A number without leading zeros.
#[inline(always)]
#[tactic(auto, using(crate::proofs::DigitLemmas::decimal_eight, std::proofs::lemmas::List::append_assoc))]
pub(crate) fn put_number(to: &mut [u8], at: usize, n: u64) -> usize
    requires { at + 24 ≤ length to.old }
    ensures end { result ≤ at + 24 }
    ensures written { take result to.new ≡ take at to.old ++ decimal n }
{
    if n < 100_000_000 {
        return put_8(to, at, n as u32);
    }
    if n <= u32::MAX as u64 {
        return put_10(to, at, n as u32);
    }
    let low = (n % 100_000_000) as u32;
    if n < 10_000_000_000_000_000 {
        let at = put_8(to, at, (n / 100_000_000) as u32);
        return put_tail(to, at, 8, low);
    }
    let middle = (n / 100_000_000 % 100_000_000) as u32;
    let at = put_4(to, at, (n / 10_000_000_000_000_000) as u32);
    let at = put_tail(to, at, 8, middle);
    put_tail(to, at, 8, low)
}
