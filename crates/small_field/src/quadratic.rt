//! The fields of 4 and of 9 elements.

ghost use Rattle.std.specs.Prelude.{◌≡◌, ◌≢◌, ℕ, ◌*◌, ◌<◌, ◌≤◌, All, length, map, refl, slice_index};
ghost use Rattle.std.proofs.Common.{lit≤, arith};
ghost use Rattle.std.proofs.lemmas.Bool.Decides.{nat_tests};
ghost use Rattle.lane_rows.specs.Lanes.{zip2};
ghost use Rattle.small_field.specs.Quadratic.{four, nine, constant_of, linear_of, number_of_sum, add_sums};
ghost use Rattle.small_field.specs.Quadratic.{mul_sums, neg_sum};
ghost use Rattle.small_field.specs.Tried.{four_field, nine_field};

use crate::field::Field;
use std::marker::Model;

/// The sum `a + b x` of the field of 4 elements, seen as the number `a + 2 b`: `a` and `b` are integers modulo 2, and
/// `x x` is `1 + x`.
#[derive(Clone, Copy, PartialEq, Eq)]
pub struct Gf4 {
    value: u8,
}

impl Model for Gf4 {
    ghost use Rattle.std.specs.Prelude.{ℕ, ◌<◌};

    ghost Value = { ℕ };

    ghost view = { λ x. x.value };

    ghost invariant = { λ x. x.value < 4 };

    ghost inverse = { λ n. record { value = n } };
}

impl Field for Gf4 {
    ghost ops = { four };

    ghost number_of = { λ x. x };

    ghost SIZE = { 4 };

    const SIZE: u32 = 4;

    ghost laws = { four_field };

    ghost size_is = { refl };

    ghost small = { lit≤ tt };

    ghost identical = { λ x y same. same };

    ghost eq_same = { λ x y. Prim.grind (arith, nat_tests) };

    fn add(self, other: Self) -> Self {
        Gf4 {
            value: add_sums::<2>(self.value, other.value),
        }
    }

    fn neg(self) -> Self {
        Gf4 {
            value: neg_sum::<2>(self.value),
        }
    }

    fn mul(self, other: Self) -> Self {
        Gf4 {
            value: mul_sums::<2, 1, 1>(self.value, other.value),
        }
    }

    fn inv(self) -> Self {
        const INVERSES: [u8; 4] = [0, 1, 3, 2];
        Gf4 {
            value: INVERSES[self.value as usize],
        }
    }

    fn from_number(number: u32) -> Self {
        Gf4 {
            value: number as u8,
        }
    }

    fn to_number(self) -> u32 {
        self.value as u32
    }

    fn add_scaled_row(target: &mut [u8], source: &[u8], factor: Self) {
        add_scaled::<2, 1, 1>(target, source, factor.value);
    }

    fn scale_row(target: &mut [u8], factor: Self) {
        scale::<2, 1, 1>(target, factor.value);
    }
}

/// The sum `a + b x` of the field of 9 elements, seen as the number `a + 3 b`: `a` and `b` are integers modulo 3, and
/// `x x` is 2.
#[derive(Clone, Copy, PartialEq, Eq)]
pub struct Gf9 {
    value: u8,
}

impl Model for Gf9 {
    ghost use Rattle.std.specs.Prelude.{ℕ, ◌<◌};

    ghost Value = { ℕ };

    ghost view = { λ x. x.value };

    ghost invariant = { λ x. x.value < 9 };

    ghost inverse = { λ n. record { value = n } };
}

impl Field for Gf9 {
    ghost ops = { nine };

    ghost number_of = { λ x. x };

    ghost SIZE = { 9 };

    const SIZE: u32 = 9;

    ghost laws = { nine_field };

    ghost size_is = { refl };

    ghost small = { lit≤ tt };

    ghost identical = { λ x y same. same };

    ghost eq_same = { λ x y. Prim.grind (arith, nat_tests) };

    fn add(self, other: Self) -> Self {
        Gf9 {
            value: add_sums::<3>(self.value, other.value),
        }
    }

    fn neg(self) -> Self {
        Gf9 {
            value: neg_sum::<3>(self.value),
        }
    }

    fn mul(self, other: Self) -> Self {
        Gf9 {
            value: mul_sums::<3, 2, 0>(self.value, other.value),
        }
    }

    fn inv(self) -> Self {
        const INVERSES: [u8; 9] = [0, 1, 2, 6, 5, 4, 3, 8, 7];
        Gf9 {
            value: INVERSES[self.value as usize],
        }
    }

    fn from_number(number: u32) -> Self {
        Gf9 {
            value: number as u8,
        }
    }

    fn to_number(self) -> u32 {
        self.value as u32
    }

    fn add_scaled_row(target: &mut [u8], source: &[u8], factor: Self) {
        add_scaled::<3, 2, 0>(target, source, factor.value);
    }

    fn scale_row(target: &mut [u8], factor: Self) {
        scale::<3, 2, 0>(target, factor.value);
    }
}

/// The sum of two sums `a + b x`, by their numbers.
fn add_sums<const P: u8>(left: u8, right: u8) -> u8
    requires positive { 0 < P }
    requires small { P ≤ 3 }
    ensures sum { result ≡ add_sums P left right }
    ensures below { result < P * P }
{
    let (a, b) = parts::<P>(left);
    let (e, f) = parts::<P>(right);
    number_of_sum::<P>(a + e, b + f)
}

/// The product of two sums `a + b x`, by their numbers, where `x x` is `C + D x`.
fn mul_sums<const P: u8, const C: u8, const D: u8>(left: u8, right: u8) -> u8
    requires positive { 0 < P }
    requires small { P ≤ 3 }
    requires constant { C ≤ 2 }
    requires linear { D ≤ 2 }
    ensures product { result ≡ mul_sums P C D left right }
    ensures below { result < P * P }
{
    let (a, b) = parts::<P>(left);
    let (e, f) = parts::<P>(right);
    number_of_sum::<P>(a * e + C * (b * f), a * f + b * e + D * (b * f))
}

/// The negative of a sum `a + b x`, by its number.
fn neg_sum<const P: u8>(number: u8) -> u8
    requires positive { 0 < P }
    requires small { P ≤ 3 }
    ensures negative { result ≡ neg_sum P number }
    ensures below { result < P * P }
{
    let (a, b) = parts::<P>(number);
    number_of_sum::<P>(P - a, P - b)
}

/// The `a` and `b` of the sum `a + b x` with this number.
fn parts<const P: u8>(number: u8) -> (u8, u8)
    requires positive { 0 < P }
    requires small { P ≤ 3 }
    ensures constant { result.0 ≡ constant_of P number }
    ensures linear { result.1 ≡ linear_of P number }
    ensures first { (result.0 ≤ 2) × (result.0 < P) }
    ensures second { (result.1 ≤ 2) × (result.1 < P) }
{
    (number % P, number / P % P)
}

/// The number of the sum `a + b x`.
fn number_of_sum<const P: u8>(a: u8, b: u8) -> u8
    requires positive { 0 < P }
    requires small { P ≤ 3 }
    ensures number { result ≡ number_of_sum P a b }
    ensures below { result < P * P }
{
    a % P + P * (b % P)
}

/// Adds `factor` times the source to the target, place by place.
fn add_scaled<const P: u8, const C: u8, const D: u8>(target: &mut [u8], source: &[u8], factor: u8)
    requires large { 2 ≤ P }
    requires small { P ≤ 3 }
    requires constant { C ≤ 2 }
    requires linear { D ≤ 2 }
    requires lengths { length source.now ≡ length target.old }
    requires target { All (λ x. x < P * P) target.old }
    requires source { All (λ x. x < P * P) source.now }
    ensures { target.new ≡ zip2 (λ x y. add_sums P x (mul_sums P C D factor y)) target.old source.now }
{
    lane_rows::add_pairs(target, source, &products::<P, C, D>(factor), P);
}

/// Multiplies each number of the target by `factor`.
fn scale<const P: u8, const C: u8, const D: u8>(target: &mut [u8], factor: u8)
    requires large { 2 ≤ P }
    requires small { P ≤ 3 }
    requires constant { C ≤ 2 }
    requires linear { D ≤ 2 }
    requires target { All (λ x. x < P * P) target.old }
    ensures { target.new ≡ map (λ x. mul_sums P C D factor x) target.old }
{
    lane_rows::replace(target, &products::<P, C, D>(factor));
}

/// The products of a factor with the numbers below 16.
fn products<const P: u8, const C: u8, const D: u8>(factor: u8) -> [u8; 16]
    requires positive { 0 < P }
    requires small { P ≤ 3 }
    requires constant { C ≤ 2 }
    requires linear { D ≤ 2 }
    ensures products { (k : ℕ) → k < 16 → slice_index result k ≡ mul_sums P C D factor k }
    ensures below { All (λ x. x < P * P) result }
{
    let mut products = [0; 16];
    for i in 0..16 {
        products[i] = mul_sums::<P, C, D>(factor, i as u8);
    }
    products
}
