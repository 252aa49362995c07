// Characters in UTF-16 that are one unit, eight at a time.
ghost use Rattle.std.specs.Prelude.{◌≡◌, ◌+◌, ◌-◌, ◌*◌, ◌<◌, ◌≤◌, ◌++◌, length, take, drop, map, get_or, flat_map, replicate, false, true, MatchOption};
ghost use Rattle.std.specs.Simd.Lanes.{Each1};
ghost use lib.Lanes.{mask_l};
ghost use Rattle.tds_text.specs.Utf16 as utf16;
ghost use Rattle.tds_text.specs.Wide.{AddsQuads, AddsUnits, is_long, is_wide, pair_bytes, quad_bytes, triples, units_text};

use crate::encode::put_lanes;
use crate::lanes::LANES;
use crate::lanes_utf16::{
    UNITS, are_plain, first_units, has_long, long_units, low_bytes, lowest, other_units,
    surrogate_units, units_of, wide_units,
};
use crate::places::{pair_places, quad_places};
use std::simd::prelude::*;

// How many units are written at a time whose text may have three bytes each.
const HALF: usize = 4;

// The lanes at places.
#[inline(always)]
#[tactic(auto, using(crate::proofs::Lookup::looked_up))]
fn gathered(lanes: u8x16, places: [u8; 16]) -> u8x16
    requires lanes { length lanes ≡ LANES }
    requires places { Each1 (λ k. k < LANES) places }
    ensures { result ≡ map (λ k. get_or lanes k 0) places }
{
    lanes.swizzle_dyn(u8x16::from_array(places))
}

// The bytes of eight short characters, two each.
#[inline(always)]
#[tactic(auto, using(crate::proofs::Lookup::asks_all))]
fn pairs(units: u16x8) -> u8x16
    ensures { result ≡ flat_map pair_bytes units }
{
    let lead = units / u16x8::splat(64) + u16x8::splat(0xC0);
    let trail = units % u16x8::splat(64) + u16x8::splat(0x80);
    let two = lead + trail * u16x8::splat(256);
    let text = units.simd_ge(u16x8::splat(0x80)).select(two, units);
    let quotes = units.simd_eq(u16x8::splat(0x22));
    quotes.select(u16x8::splat(0x2222), text).to_le_bytes()
}

// The bytes of eight characters, four each: of the first four, and of the others.
#[inline(always)]
#[tactic(auto, using(crate::proofs::Lookup::asks_all))]
fn quads(units: u16x8) -> (u8x16, u8x16)
    ensures { (result.0 ≡ flat_map quad_bytes (take HALF units)) × (result.1 ≡ flat_map quad_bytes (drop HALF units)) }
{
    let quotes = units.simd_eq(u16x8::splat(0x22));
    let long = units.simd_ge(u16x8::splat(0x800));
    let trail = units % u16x8::splat(64) + u16x8::splat(0x80);
    let low = units % u16x8::splat(256) + trail * u16x8::splat(256);
    let mark = long.select(u16x8::splat(0x80E0), u16x8::splat(0xC0E0));
    let middle = units / u16x8::splat(64) % u16x8::splat(64) * u16x8::splat(256);
    let high = units / u16x8::splat(4096) + middle + mark;
    let both = u16x8::splat(0x2222);
    let (first, second) = quotes
        .select(both, low)
        .interleave(quotes.select(both, high));
    (first.to_le_bytes(), second.to_le_bytes())
}

// The bytes of eight long characters: of the first four and of the others, each with four bytes more.
#[inline(always)]
#[tactic(auto, using(crate::proofs::Lookup::asks_all))]
fn triples(units: u16x8) -> (u8x16, u8x16)
    ensures { (take 12 result.0 ≡ take 12 (triples units)) × (take 12 result.1 ≡ take 12 (drop 12 (triples units))) }
{
    let lead = units / u16x8::splat(4096) + u16x8::splat(0xE0);
    let middle = units / u16x8::splat(64) % u16x8::splat(64) + u16x8::splat(0x80);
    let trail = units % u16x8::splat(64) + u16x8::splat(0x80);
    let (first, second) = lead.interleave(middle + trail * u16x8::splat(256));
    (
        first
            .to_le_bytes()
            .swizzle([0, 2, 3, 4, 6, 7, 8, 10, 11, 12, 14, 15, 1, 5, 9, 13]),
        second
            .to_le_bytes()
            .swizzle([0, 2, 3, 4, 6, 7, 8, 10, 11, 12, 14, 15, 1, 5, 9, 13]),
    )
}

// Writes the text of the first `n` of eight short characters; the mask says which of them are wide.
#[inline(always)]
#[tactic(auto, using(crate::proofs::LaneMasks::first_mask))]
fn put_pairs(to: &mut [u8], at: usize, units: u16x8, wide: u64, n: usize) -> usize
    requires most { n ≤ UNITS }
    requires wide { wide ≡ mask_l (map is_wide (take n units)) }
    requires short { Each1 (λ u. is_long u ≡ false) (take n units) }
    requires room { at + LANES ≤ length to.old }
    ensures most { result ≤ at + 2 * n }
    ensures written { take result to.new ≡ take at to.old ++ units_text (take n units) }
{
    let size = n + wide.count_ones() as usize;
    put_lanes(to, at, gathered(pairs(units), pair_places(wide)), size);
    at + size
}

// Writes the text of the first `n` of four characters whose bytes are these, with masks of the wide and the long ones.
#[inline(always)]
#[tactic(auto, using(crate::proofs::Lookup::ones_of_two))]
fn put_quads(to: &mut [u8], at: usize, quads: u8x16, wide: u64, long: u64, n: usize) -> usize
    requires most { n ≤ HALF }
    requires wide { wide < 16 }
    requires long { long < 16 }
    requires room { at + LANES ≤ length to.old }
    ensures { AddsQuads to.old to.new at result n quads wide long }
{
    let index = (wide + 16 * long) as usize;
    let size = n + index.count_ones() as usize;
    put_lanes(to, at, gathered(quads, quad_places(index)), size);
    at + size
}

// Writes the text of the first `n` of eight characters, with masks of the wide and the long ones.
#[inline(always)]
#[tactic(auto, using(crate::proofs::WideText::few_added, crate::proofs::WideText::middle_added, crate::proofs::WideText::all_added))]
fn put_mixed(to: &mut [u8], at: usize, units: u16x8, wide: u64, long: u64, n: usize) -> usize
    requires most { n ≤ UNITS }
    requires wide { wide ≡ mask_l (map is_wide (take n units)) }
    requires long { long ≡ mask_l (map is_long (take n units)) }
    requires room { at + 3 * n + LANES ≤ length to.old }
    ensures most { result ≤ at + 3 * n }
    ensures written { take result to.new ≡ take at to.old ++ units_text (take n units) }
{
    let (first, second) = quads(units);
    let middle = put_quads(to, at, first, wide % 16, long % 16, n.min(HALF));
    if n <= HALF {
        return middle;
    }
    put_quads(to, middle, second, wide / 16, long / 16, n - HALF)
}

// Writes the text of the first `n` of eight long characters.
#[inline(always)]
fn put_triples(to: &mut [u8], at: usize, units: u16x8, n: usize)
    requires most { n ≤ UNITS }
    requires long { Each1 (λ u. is_long u ≡ true) (take n units) }
    requires room { at + 3 * n + LANES ≤ length to.old }
    ensures { take (at + 3 * n) to.new ≡ take at to.old ++ units_text (take n units) }
{
    let (low, high) = triples(units);
    if n <= HALF {
        put_lanes(to, at, low, 3 * n);
        return;
    }
    put_lanes(to, at, low, 12);
    put_lanes(to, at + 12, high, 3 * n - 12);
}

// Writes the text of the first `n` of eight characters, some of them long, and returns its end. Only zeros come after these.
// Writes none if one of them is a surrogate.
#[inline(always)]
#[tactic(auto, using(crate::proofs::LaneMasks::front_tests))]
fn put_longs(to: &mut [u8], at: usize, units: u16x8, n: usize) -> Option<usize>
    requires most { n ≤ UNITS }
    requires zeros { drop n units ≡ replicate (UNITS - n) 0 }
    requires room { at + 3 * n + LANES ≤ length to.old }
    ensures { MatchOption result (to.new ≡ to.old) (λ end. AddsUnits to.old to.new at end n units) }
{
    if lowest(other_units(units), n) == 0 {
        put_triples(to, at, units, n);
        return Some(at + 3 * n);
    }
    if surrogate_units(units) != 0 {
        return None;
    }
    Some(put_mixed(to, at, units, wide_units(units), long_units(units), n))
}

// Writes the text of the first `n` of eight units, and returns its end. Writes none if one of them is a surrogate.
#[inline(always)]
#[tactic(auto, using(crate::proofs::WideText::unit_tests, std::proofs::lemmas::Grind::common_steps))]
pub(crate) fn put_units(to: &mut [u8], at: usize, lanes: u8x16, n: usize) -> Option<usize>
    requires most { n ≤ UNITS }
    requires room { at + 3 * n + LANES ≤ length to.old }
    ensures { MatchOption result (to.new ≡ to.old) (λ end. AddsUnits to.old to.new at end n (utf16.units lanes)) }
{
    let units = first_units(units_of(lanes), n);
    if has_long(units) {
        return put_longs(to, at, units, n);
    }
    if are_plain(units) {
        put_lanes(to, at, low_bytes(lanes), UNITS);
        return Some(at + n);
    }
    Some(put_pairs(to, at, units, wide_units(units), n))
}
