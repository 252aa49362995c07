// Runs of bytes, found 16 or 32 at a time.
ghost use Rattle.std.specs.Prelude.{◌≡◌, ◌+◌, ◌<◌, ◌≤◌, length};
ghost use Rattle.std.specs.List.{prefix_len};
ghost use Rattle.std.specs.Simd.Lanes.{chunk};
ghost use Rattle.tds_text.specs.Joined.{is_joined, pairs_at};
ghost use Rattle.tds_text.specs.Plain.{first_set, is_plain, is_unquoted};

use std::simd::prelude::*;

/// How many bytes are looked at together.
pub const LANES: usize = 16;

/// How many bytes of long data are looked at together.
pub const WIDE: usize = 32;

/// How many bytes of room are wanted where 32 bytes are looked at together.
pub const PART: usize = 2 * WIDE;

/// How many bytes are looked at together as long as all of them are of ASCII.
pub(crate) const BLOCK: usize = 64;

/// How many bytes a text in Windows-1252 has at least that is written by a call; a shorter one is better off without.
pub(crate) const MANY: usize = 2 * WIDE;

/// How many characters are taken one by one if the next one needs care, since then others mostly do too.
pub(crate) const BY_HAND: usize = 8;

// The lowest bit that is set in a mask, or the number of lanes.
#[inline(always)]
pub(crate) fn first_set(mask: u64, lanes: usize) -> usize
    ensures { result ≡ first_set mask lanes }
{
    if mask == 0 {
        lanes
    } else {
        mask.trailing_zeros() as usize
    }
}

// How many of the next 16 bytes, each looked at with the byte after it, come before the first that can't be in a text whose
// characters have one or two bytes, or is a quote.
#[inline(always)]
pub(crate) fn joined_run(bytes: &[u8], at: usize) -> usize
    requires { at + LANES < length bytes.now }
    ensures { result ≡ prefix_len is_joined (pairs_at at bytes.now) }
{
    let here = u8x16::from_slice(&bytes[at..]);
    let next = u8x16::from_slice(&bytes[at + 1..]);
    let leads = (here - u8x16::splat(0xC2)).simd_lt(u8x16::splat(30));
    let trails = (next - u8x16::splat(0x80)).simd_lt(u8x16::splat(64));
    let others = here.simd_ge(u8x16::splat(0xC0)) ^ leads;
    let stops = here.simd_eq(u8x16::splat(0x22)) | others | (leads ^ trails);
    first_set(stops.to_bitmask(), LANES)
}

// Which of the next `N` bytes are quotes, the first by the lowest bit.
#[inline(always)]
pub(crate) fn quote_stops<const N: usize>(bytes: &[u8], at: usize) -> u64
    requires few { N ≤ BLOCK }
    requires there { at + N ≤ length bytes.now }
    ensures { first_set result N ≡ prefix_len is_unquoted (chunk at N bytes.now) }
{
    let lanes = Simd::<u8, N>::from_slice(&bytes[at..]);
    lanes.simd_eq(Simd::<u8, N>::splat(0x22)).to_bitmask()
}

// Which of the next `N` bytes are quotes or aren't of ASCII, the first by the lowest bit.
#[inline(always)]
pub(crate) fn plain_stops<const N: usize>(bytes: &[u8], at: usize) -> u64
    requires few { N ≤ BLOCK }
    requires there { at + N ≤ length bytes.now }
    ensures { first_set result N ≡ prefix_len is_plain (chunk at N bytes.now) }
{
    let lanes = Simd::<u8, N>::from_slice(&bytes[at..]);
    let stops = lanes.simd_eq(Simd::<u8, N>::splat(0x22))
        | lanes.simd_ge(Simd::<u8, N>::splat(0x80));
    stops.to_bitmask()
}
