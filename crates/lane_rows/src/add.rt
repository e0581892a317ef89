// Adding a multiple of one row to another.
ghost use Rattle.std.specs.Prelude.{◌≡◌, ℕ, ◌+◌, ◌*◌, ◌%◌, ◌<◌, ◌≤◌, All, length, slice_index};
ghost use Rattle.lane_rows.specs.Lanes.{added, added_pairs, pair_sum, zip2};
ghost use Rattle.lane_rows.specs.Vectors.{AreBelow, HasLanes, IsStepped};

use crate::table::multiples;
use crate::vectors::{differences, load, look_up, reduced, store, sums};
use std::simd::prelude::*;

/// Adds `factor` times `source` to `target`, place by place, modulo `p`.
pub fn add_scaled(target: &mut [u8], source: &[u8], factor: u8, p: u8)
    requires modulus { 1 < p }
    requires small { p ≤ 13 }
    requires factor { factor < p }
    requires lengths { length source.now ≡ length target.old }
    requires target { All (λ x. x < p) target.old }
    requires source { All (λ x. x < p) source.now }
    ensures { target.new ≡ added p factor target.old source.now }
{
    if p == 2 || target.len() < SHORT {
        add_one_by_one(target, source, factor, p);
    } else {
        add_products(&Modulo { p }, target, source, &multiples(factor, p));
    }
}

/// Adds to `target`, place by place, the entries of the table `products` at the numbers of
/// `source`. Each number has two digits to base `p`, which is 2 or 3, and digits are added modulo `p`.
pub fn add_pairs(target: &mut [u8], source: &[u8], products: &[u8; 16], p: u8)
    requires base { 2 ≤ p }
    requires small { p ≤ 3 }
    requires lengths { length source.now ≡ length target.old }
    requires products { All (λ x. x < p * p) products.now }
    requires target { All (λ x. x < p * p) target.old }
    requires source { All (λ x. x < p * p) source.now }
    ensures { target.new ≡ added_pairs p products.now target.old source.now }
{
    if p == 2 {
        add_products(&PairsOfTwo, target, source, products);
    } else {
        add_products(&PairsOfThree, target, source, products);
    }
}

/// Rows that are shorter are added one by one: what the table of multiples costs is not won back.
const SHORT: usize = 200;

/// The same as `add_scaled`. The compiler goes through these loops in lanes, since it knows each modulus, and modulo 2
/// no other form was faster; it is a function of its own when it runs, since inside of a loop over rows the compiler
/// would not.
#[inline(never)]
fn add_one_by_one(target: &mut [u8], source: &[u8], factor: u8, p: u8)
    requires modulus { 1 < p }
    requires small { p ≤ 13 }
    requires factor { factor < p }
    requires lengths { length source.now ≡ length target.old }
    requires target { All (λ x. x < p) target.old }
    requires source { All (λ x. x < p) source.now }
    ensures { target.new ≡ added p factor target.old source.now }
{
    match p {
        2 => add_each(target, source, factor, 2),
        3 => add_each(target, source, factor, 3),
        5 => add_each(target, source, factor, 5),
        7 => add_each(target, source, factor, 7),
        11 => add_each(target, source, factor, 11),
        13 => add_each(target, source, factor, 13),
        _ => add_each(target, source, factor, p),
    }
}

#[inline(always)]
fn add_each(target: &mut [u8], source: &[u8], factor: u8, p: u8)
    requires modulus { 1 < p }
    requires small { p ≤ 13 }
    requires factor { factor < p }
    requires lengths { length source.now ≡ length target.old }
    requires target { All (λ x. x < p) target.old }
    requires source { All (λ x. x < p) source.now }
    ensures { target.new ≡ added p factor target.old source.now }
{
    for i in 0..target.len() {
        target[i] = (target[i] + factor * source[i]) % p;
    }
}

/// Sums of numbers below a bound, one by one and sixteen at a time.
trait Sums {
    ghost sum: { Self → ℕ → ℕ → ℕ };

    ghost bound: { Self → ℕ };

    fn one(&self, left: u8, right: u8) -> u8
        requires large { 0 < bound self.now }
        requires small { bound self.now ≤ 13 }
        requires left { left < bound self.now }
        requires right { right < bound self.now }
        ensures { result ≡ sum self.now left right };

    fn lanes(&self, left: u8x16, right: u8x16) -> u8x16
        requires large { 0 < bound self.now }
        requires small { bound self.now ≤ 13 }
        requires left { AreBelow (bound self.now) left }
        requires right { AreBelow (bound self.now) right }
        ensures { HasLanes result (λ k. sum self.now (slice_index left k) (slice_index right k)) };
}

/// Sums modulo `p`.
#[derive(Clone, Copy)]
struct Modulo {
    p: u8,
}

impl Sums for Modulo {
    ghost sum = { λ s x y. (x + y) % s.p };

    ghost bound = { λ s. s.p };

    fn one(&self, left: u8, right: u8) -> u8 {
        (left + right) % self.p
    }

    #[inline(always)]
    fn lanes(&self, left: u8x16, right: u8x16) -> u8x16 {
        reduced(sums(left, right), self.p)
    }
}

/// Sums of two binary digits, each modulo 2.
#[derive(Clone, Copy)]
struct PairsOfTwo;

impl Sums for PairsOfTwo {
    ghost sum = { λ s. pair_sum 2 };

    ghost bound = { λ s. 4 };

    fn one(&self, left: u8, right: u8) -> u8 {
        left ^ right
    }

    #[inline(always)]
    fn lanes(&self, left: u8x16, right: u8x16) -> u8x16 {
        differences(left, right)
    }
}

/// Sums of two digits to base 3, each modulo 3.
#[derive(Clone, Copy)]
struct PairsOfThree;

/// The first digit of a number with two digits.
const FIRST: [u8; 16] = [0, 1, 2, 0, 1, 2, 0, 1, 2, 0, 0, 0, 0, 0, 0, 0];

/// The second one.
const SECOND: [u8; 16] = [0, 0, 0, 1, 1, 1, 2, 2, 2, 0, 0, 0, 0, 0, 0, 0];

/// A sum of two digits modulo 3.
const DIGIT: [u8; 16] = [0, 1, 2, 0, 1, 0, 0, 0, 0, 0, 0, 0, 0, 0, 0, 0];

/// Three times a sum of two digits modulo 3.
const THREE_TIMES: [u8; 16] = [0, 3, 6, 0, 3, 0, 0, 0, 0, 0, 0, 0, 0, 0, 0, 0];

impl Sums for PairsOfThree {
    ghost sum = { λ s. pair_sum 3 };

    ghost bound = { λ s. 9 };

    fn one(&self, left: u8, right: u8) -> u8 {
        (left + right) % 3 + 3 * ((left / 3 + right / 3) % 3)
    }

    #[inline(always)]
    fn lanes(&self, left: u8x16, right: u8x16) -> u8x16 {
        let first = sums(digits(FIRST, left), digits(FIRST, right));
        let second = sums(digits(SECOND, left), digits(SECOND, right));
        sums(digits(DIGIT, first), digits(THREE_TIMES, second))
    }
}

/// The entry of a table at each lane, which is below 9.
#[inline(always)]
fn digits(table: [u8; 16], numbers: u8x16) -> u8x16
    requires { AreBelow 9 numbers }
    ensures { HasLanes result (λ k. slice_index table (slice_index numbers k)) }
{
    look_up(u8x16::from_array(table), numbers)
}

/// Adds to `target`, place by place, the entries of the table at the numbers of `source`.
fn add_products<S: Sums>(sums: &S, target: &mut [u8], source: &[u8], products: &[u8; 16])
    requires large { 0 < S.bound sums.now }
    requires small { S.bound sums.now ≤ 13 }
    requires lengths { length source.now ≡ length target.old }
    requires products { AreBelow (S.bound sums.now) products.now }
    requires target { All (λ x. x < S.bound sums.now) target.old }
    requires source { All (λ x. x < S.bound sums.now) source.now }
    ensures { target.new ≡ zip2 (λ x y. S.sum sums.now x (slice_index products.now y)) target.old source.now }
{
    let table = u8x16::from_array(*products);
    for chunk in 0..target.len() / 16 {
        step(sums, target, source, table, chunk * 16);
    }
    for i in target.len() / 16 * 16..target.len() {
        target[i] = sums.one(target[i], products[source[i] as usize]);
    }
}

/// The same at sixteen places from `at` on.
#[inline(always)]
fn step<S: Sums>(sums: &S, target: &mut [u8], source: &[u8], table: u8x16, at: usize)
    requires large { 0 < S.bound sums.now }
    requires small { S.bound sums.now ≤ 13 }
    requires room { at + 16 ≤ length target.old }
    requires lengths { length source.now ≡ length target.old }
    requires table { AreBelow (S.bound sums.now) table }
    requires target { (k : ℕ) → k < 16 → slice_index target.old (at + k) < S.bound sums.now }
    requires source { (k : ℕ) → k < 16 → slice_index source.now (at + k) < S.bound sums.now }
    ensures { IsStepped (λ x y. S.sum sums.now x (slice_index table y)) target.old source.now target.new at }
{
    let left = load(target, at);
    let right = look_up(table, load(source, at));
    store(target, at, sums.lanes(left, right));
}
