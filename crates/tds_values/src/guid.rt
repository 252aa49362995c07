// The text of a GUID, written to the front of a slice.
ghost use Rattle.std.specs.Prelude.{◌≡◌, ◌≤◌, ◌++◌, take, length};
ghost use Rattle.uuid.specs.Text.{hyphenated_text, lower, simple_text};
ghost use Rattle.uuid.specs.Parts.{swap_fields};

use crate::lanes::hex_lanes;
use std::simd::prelude::*;

// The digits of a GUID: the first 16, and the others. Its first three numbers have their low byte first.
#[inline(always)]
fn digits_of(bytes: u8x16) -> (u8x16, u8x16)
    requires { length bytes ≡ 16 }
    ensures digits { result.0 ++ result.1 ≡ simple_text lower (swap_fields bytes) }
    ensures first { length result.0 ≡ 16 }
    ensures second { length result.1 ≡ 16 }
{
    hex_lanes(bytes.swizzle([3, 2, 1, 0, 5, 4, 7, 6, 8, 9, 10, 11, 12, 13, 14, 15]))
}

// Lower-case hexadecimal digits, 8-4-4-4-12. Each piece is written over what the one before it has too much. Hyphens come
// where its digits leave room.
#[inline(always)]
pub(crate) fn put_guid(to: &mut [u8], bytes: &[u8]) -> usize
    requires room { 39 ≤ length to.old }
    requires length { length bytes.now ≡ 16 }
    ensures end { result ≡ 36 }
    ensures written { take 36 to.new ≡ hyphenated_text lower (swap_fields bytes.now) }
{
    let (first, second) = digits_of(u8x16::from_slice(bytes));
    let none = u8x16::splat(0);
    let middle = first.shuffle(
        none,
        [16, 8, 9, 10, 11, 16, 12, 13, 14, 15, 16, 16, 16, 16, 16, 16],
    ) | u8x16::from_array(*b"-\0\0\0\0-\0\0\0\0-\0\0\0\0\0");
    let last = second.shuffle(
        none,
        [16, 4, 5, 6, 7, 8, 9, 10, 11, 12, 13, 14, 15, 16, 16, 16],
    ) | u8x16::from_array(*b"-\0\0\0\0\0\0\0\0\0\0\0\0\0\0\0");
    first.copy_to_slice(&mut to[0..]);
    middle.copy_to_slice(&mut to[8..]);
    second.copy_to_slice(&mut to[19..]);
    last.copy_to_slice(&mut to[23..]);
    36
}
