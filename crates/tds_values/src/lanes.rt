// Hexadecimal digits of 16 bytes at once.
ghost use Rattle.std.specs.Prelude.{◌≡◌, ◌<◌, ◌++◌, length, map, slice_index};
ghost use Rattle.std.specs.Simd.Lanes.{Each1};
ghost use Rattle.hex.specs.Hex.{encode_lower, lower_digits};

use std::simd::prelude::*;

// The digits of numbers below 16.
#[inline(always)]
fn digits(numbers: u8x16) -> u8x16
    requires few { length numbers ≡ 16 }
    requires small { Each1 (λ x. x < 16) numbers }
    ensures { result ≡ map (slice_index lower_digits) numbers }
{
    u8x16::from_array(*b"0123456789abcdef").swizzle_dyn(numbers)
}

/// The lower-case hexadecimal digits of 16 bytes: of the first eight, and of the others.
#[inline(always)]
pub fn hex_lanes(bytes: u8x16) -> (u8x16, u8x16)
    requires { length bytes ≡ 16 }
    ensures digits { result.0 ++ result.1 ≡ encode_lower bytes }
    ensures first { length result.0 ≡ 16 }
    ensures second { length result.1 ≡ 16 }
{
    let high = digits(bytes / u8x16::splat(16));
    let low = digits(bytes % u8x16::splat(16));
    high.interleave(low)
}
