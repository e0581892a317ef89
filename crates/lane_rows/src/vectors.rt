// Sixteen bytes at a time.
ghost use Rattle.std.specs.Prelude.{◌≡◌, ℕ, ◌+◌, ◌*◌, ◌%◌, ◌<◌, ◌≤◌, bit_xor, length, slice_index};
ghost use Rattle.lane_rows.specs.Vectors.{AreBelow, HasLanes, IsFirstIn, IsStored};

use std::simd::prelude::*;

/// The numbers at sixteen places from `at` on.
#[inline(always)]
pub(crate) fn load(row: &[u8], at: usize) -> u8x16
    requires { at + 16 ≤ length row.now }
    ensures { HasLanes result (λ k. slice_index row.now (at + k)) }
{
    u8x16::from_slice(&row[at..])
}

/// Puts the lanes at sixteen places from `at` on.
#[inline(always)]
pub(crate) fn store(row: &mut [u8], at: usize, lanes: u8x16)
    requires { at + 16 ≤ length row.old }
    ensures { IsStored row.old row.new at lanes }
{
    lanes.copy_to_slice(&mut row[at..]);
}

/// The entry of a table at each of sixteen places in it.
#[inline(always)]
pub(crate) fn look_up(table: u8x16, places: u8x16) -> u8x16
    requires { AreBelow 16 places }
    ensures { HasLanes result (λ k. slice_index table (slice_index places k)) }
{
    table.swizzle_dyn(places)
}

/// The sums, which fit bytes.
#[inline(always)]
pub(crate) fn sums(left: u8x16, right: u8x16) -> u8x16
    requires left { AreBelow 128 left }
    requires right { AreBelow 128 right }
    ensures { HasLanes result (λ k. slice_index left k + slice_index right k) }
{
    left + right
}

/// The numbers, bit by bit, as sums modulo 2.
#[inline(always)]
pub(crate) fn differences(left: u8x16, right: u8x16) -> u8x16
    ensures { HasLanes result (λ k. bit_xor (slice_index left k) (slice_index right k)) }
{
    left ^ right
}

/// Numbers below twice the modulus, modulo it.
#[inline(always)]
pub(crate) fn reduced(numbers: u8x16, modulus: u8) -> u8x16
    requires modulus { 0 < modulus }
    requires small { modulus ≤ 13 }
    requires numbers { AreBelow (modulus + modulus) numbers }
    ensures { HasLanes result (λ k. slice_index numbers k % modulus) }
{
    numbers.simd_min(numbers - u8x16::splat(modulus))
}

/// How many of the sixteen numbers from `at` on come before the first that is not 0.
#[inline(always)]
pub(crate) fn first_in(row: &[u8], at: usize) -> usize
    requires { at + 16 ≤ length row.now }
    ensures { IsFirstIn row.now at result }
{
    let mask = u8x16::from_slice(&row[at..])
        .simd_ne(u8x16::splat(0))
        .to_bitmask();
    if mask == 0 {
        16
    } else {
        mask.trailing_zeros() as usize
    }
}
