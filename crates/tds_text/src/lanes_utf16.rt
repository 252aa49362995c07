// Units of UTF-16, eight at a time.
ghost use Rattle.std.specs.Prelude.{◌≡◌, ◌^◌, ◌%◌, ◌<◌, ◌≤◌, ◌-◌, ◌++◌, map, not, false, take, drop, replicate, true};
ghost use lib.Lanes.{Each1, mask_l};
ghost use Rattle.tds_text.specs.Plain.{evens, is_unquoted};
ghost use Rattle.tds_text.specs.Utf16 as utf16;
ghost use Rattle.tds_text.specs.Wide.{is_long, is_half, is_other, is_wide};

use crate::places::first_bits;
use std::simd::prelude::*;

/// How many units are looked at together.
pub(crate) const UNITS: usize = 8;

/// How many are, as long as all of them are characters of ASCII.
pub(crate) const MANY_UNITS: usize = 16;

// Eight units, low byte first.
#[inline(always)]
pub(crate) fn units_of(bytes: u8x16) -> u16x8
    ensures { result ≡ utf16.units bytes }
{
    u16x8::from_le_bytes(bytes)
}

// The first `n` of eight units, and zeros.
#[inline(always)]
pub(crate) fn first_units(units: u16x8, n: usize) -> u16x8
    requires { n ≤ UNITS }
    ensures first { take n result ≡ take n units }
    ensures zeros { drop n result ≡ replicate (UNITS - n) 0 }
{
    units & u16x8::from_array(first_bits(n))
}

// The low bytes of eight units.
#[inline(always)]
pub(crate) fn low_bytes(bytes: u8x16) -> u8x8
    ensures { result ≡ evens bytes }
{
    bytes.swizzle([0, 2, 4, 6, 8, 10, 12, 14])
}

// Which of eight units have a text of more than one byte, the first by the lowest bit.
#[inline(always)]
pub(crate) fn wide_units(units: u16x8) -> u64
    ensures { result ≡ mask_l (map is_wide units) }
{
    let wide = units.simd_ge(u16x8::splat(0x80)) | units.simd_eq(u16x8::splat(0x22));
    wide.to_bitmask()
}

// Which of eight units have a text of three bytes, or are surrogates, the first by the lowest bit.
#[inline(always)]
pub(crate) fn long_units(units: u16x8) -> u64
    ensures { result ≡ mask_l (map is_long units) }
{
    units.simd_ge(u16x8::splat(0x800)).to_bitmask()
}

// Whether one of eight units has a text of three bytes, or is a surrogate.
#[inline(always)]
pub(crate) fn has_long(units: u16x8) -> bool
    ensures { result ≡ false → Each1 (λ u. is_long u ≡ false) units }
{
    (units & u16x8::splat(0xF800)).reduce_or() != 0
}

// Whether each of eight units is a character of ASCII, and none is a quote.
#[inline(always)]
pub(crate) fn are_plain(units: u16x8) -> bool
    ensures { result ≡ true → Each1 (λ u. is_wide u ≡ false) units }
{
    if has_long(units) || (units & u16x8::splat(0xFF80)).reduce_or() != 0 {
        return false;
    }
    units.simd_eq(u16x8::splat(0x22)).to_bitmask() == 0
}

// Whether each of eight units and eight others is a character of ASCII.
#[inline(always)]
#[tactic(auto, using(crate::proofs::LaneMasks::both_small, crate::proofs::LaneMasks::no_high))]
fn are_ascii(first: u16x8, second: u16x8) -> bool
    ensures small { result ≡ true → Each1 (λ u. u < 128) first × Each1 (λ u. u < 128) second }
    ensures other { result ≡ false → Each1 (λ u. u < 128) first → Each1 (λ u. u < 128) second → ⊥ }
{
    ((first | second) & u16x8::splat(0xFF80)).reduce_or() == 0
}

// The low bytes of eight units and of eight others.
#[inline(always)]
pub(crate) fn all_low_bytes(first: u8x16, second: u8x16) -> u8x16
    ensures { result ≡ evens (first ++ second) }
{
    first.shuffle(
        second,
        [0, 2, 4, 6, 8, 10, 12, 14, 16, 18, 20, 22, 24, 26, 28, 30],
    )
}

// Which of sixteen bytes are quotes, the first by the lowest bit.
#[inline(always)]
fn quotes_in(bytes: u8x16) -> u64
    ensures { result ≡ mask_l (map (λ b. not (is_unquoted b)) bytes) }
{
    bytes.simd_eq(u8x16::splat(0x22)).to_bitmask()
}

// Whether each of the sixteen units of two loads is a character of ASCII, and none is a quote: their low bytes are their text then.
#[inline(always)]
pub(crate) fn are_all_plain(first: u8x16, second: u8x16) -> bool
    ensures plain { result ≡ true → Each1 (λ u. is_wide u ≡ false) (utf16.units (first ++ second)) }
    ensures other { result ≡ false → Each1 (λ u. is_wide u ≡ false) (utf16.units (first ++ second)) → ⊥ }
{
    if !are_ascii(units_of(first), units_of(second)) {
        return false;
    }
    quotes_in(all_low_bytes(first, second)) == 0
}

// Whether each of the 32 units of four loads is a character of ASCII, and none is a quote.
#[inline(always)]
pub(crate) fn are_many_plain(first: u8x16, second: u8x16, third: u8x16, fourth: u8x16) -> bool
    ensures front { result ≡ true → Each1 (λ u. is_wide u ≡ false) (utf16.units (first ++ second)) }
    ensures back { result ≡ true → Each1 (λ u. is_wide u ≡ false) (utf16.units (third ++ fourth)) }
{
    let front = units_of(first) | units_of(second);
    let back = units_of(third) | units_of(fourth);
    if !are_ascii(front, back) {
        return false;
    }
    let quotes = quotes_in(all_low_bytes(first, second));
    quotes | quotes_in(all_low_bytes(third, fourth)) == 0
}

// Which of eight units have a text of fewer than three bytes, or are surrogates, the first by the lowest bit.
#[inline(always)]
pub(crate) fn other_units(units: u16x8) -> u64
    ensures { result ≡ mask_l (map is_other units) }
{
    let from_first = units - u16x8::splat(0xD800);
    let others = units.simd_lt(u16x8::splat(0x800)) | from_first.simd_lt(u16x8::splat(0x800));
    others.to_bitmask()
}

// Which of eight units are surrogates, the first by the lowest bit.
#[inline(always)]
pub(crate) fn surrogate_units(units: u16x8) -> u64
    ensures { result ≡ mask_l (map is_half units) }
{
    let from_first = units - u16x8::splat(0xD800);
    from_first.simd_lt(u16x8::splat(0x800)).to_bitmask()
}

// The bits of the first `n` lanes.
#[inline(always)]
pub(crate) fn lowest(mask: u64, n: usize) -> u64
    requires { n ≤ UNITS }
    ensures { result ≡ mask % 2 ^ n }
{
    mask % (1 << n)
}
