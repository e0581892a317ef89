// Permutations of eight numbers.
ghost use Rattle.std.specs.Prelude.{◌≡◌, ◌<◌, All};
ghost use Rattle.lane_rows.specs.Lanes.{composed};

use std::simd::prelude::*;

/// At each place `s` the entry of `second` at the entry of `first` at `s`: first one permutation
/// of the numbers 0 to 7, then another.
pub fn compose8(first: &[u8; 8], second: &[u8; 8]) -> [u8; 8]
    requires first { All (λ s. s < 8) first.now }
    requires second { All (λ s. s < 8) second.now }
    ensures { result ≡ composed first.now second.now }
{
    u8x8::from_array(*second)
        .swizzle_dyn(u8x8::from_array(*first))
        .to_array()
}
