// Multiples of a row, and products of two.
ghost use Rattle.std.specs.Prelude.{◌≡◌, ℕ, ◌+◌, ◌*◌, ◌%◌, ◌<◌, ◌≤◌, All, length, slice_index, sum};
ghost use Rattle.lane_rows.specs.Lanes.{chunk, dot_product, replaced, scaled, zip2};
ghost use Rattle.lane_rows.specs.Vectors.{IsStepped};

use crate::table::multiples;
use crate::vectors::{load, look_up, store};
use std::simd::prelude::*;

/// Multiplies each number of `target` by `factor`, modulo `p`.
pub fn scale(target: &mut [u8], factor: u8, p: u8)
    requires modulus { 1 < p }
    requires small { p ≤ 13 }
    requires factor { factor < p }
    requires target { All (λ x. x < p) target.old }
    ensures { target.new ≡ scaled p factor target.old }
{
    replace(target, &multiples(factor, p));
}

/// Puts the entry of the table `table` at each number of `target` in its place.
pub fn replace(target: &mut [u8], table: &[u8; 16])
    requires target { All (λ x. x < 16) target.old }
    ensures { target.new ≡ replaced table.now target.old }
{
    let lanes = u8x16::from_array(*table);
    for chunk in 0..target.len() / 16 {
        replace_from(target, lanes, chunk * 16);
    }
    for i in target.len() / 16 * 16..target.len() {
        target[i] = table[target[i] as usize];
    }
}

/// Puts the entry of the table in the place of each of sixteen numbers from `at` on.
#[inline(always)]
fn replace_from(target: &mut [u8], table: u8x16, at: usize)
    requires room { at + 16 ≤ length target.old }
    requires small { (k : ℕ) → k < 16 → slice_index target.old (at + k) < 16 }
    ensures { IsStepped (λ x y. slice_index table x) target.old target.old target.new at }
{
    let numbers = load(target, at);
    store(target, at, look_up(table, numbers));
}

/// The sum of the products of numbers at the same place, modulo `p`.
pub fn dot(left: &[u8], right: &[u8], p: u8) -> u8
    requires modulus { 1 < p }
    requires small { p ≤ 13 }
    requires lengths { length left.now ≡ length right.now }
    requires left { All (λ x. x < p) left.now }
    requires right { All (λ x. x < p) right.now }
    ensures { result ≡ dot_product p left.now right.now }
{
    let mut total: u128 = 0;
    for chunk in 0..left.len() / 16 {
        total += dot_from(left, right, chunk * 16) as u128;
    }
    for i in left.len() / 16 * 16..left.len() {
        total += (left[i] * right[i]) as u128;
    }
    (total % p as u128) as u8
}

/// The sum of the products of numbers at sixteen places from `at` on.
#[inline(always)]
fn dot_from(left: &[u8], right: &[u8], at: usize) -> u32
    requires lengths { length left.now ≡ length right.now }
    requires room { at + 16 ≤ length left.now }
    requires left { (k : ℕ) → k < 16 → slice_index left.now (at + k) < 13 }
    requires right { (k : ℕ) → k < 16 → slice_index right.now (at + k) < 13 }
    ensures products { result ≡ sum (zip2 (λ x y. x * y) (chunk at 16 left.now) (chunk at 16 right.now)) }
    ensures small { result ≤ 16 * 169 }
{
    u8x16::from_slice(&left[at..])
        .dot4(u8x16::from_slice(&right[at..]))
        .strict_reduce_sum()
}
