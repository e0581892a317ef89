//! The integers modulo a small prime.

ghost use Rattle.std.specs.Prelude.{◌≡◌, ◌≢◌, ℕ, ◌<◌, refl};
ghost use Rattle.std.proofs.Common.{lit<, lit≤, arith};
ghost use Rattle.std.proofs.lemmas.Bool.Decides.{nat_tests};
ghost use Rattle.small_field.specs.Prime.{mod_ops};
ghost use Rattle.small_field.specs.ModField.{mod_field};

use crate::field::Field;
use std::marker::Model;

/// An integer modulo `P`, seen as the number below `P`. It is a [`Field`] for `P` = 2, 3, 5, 7, 11 and 13.
#[derive(Clone, Copy, PartialEq, Eq)]
pub struct Gfp<const P: u32> {
    value: u8,
}

impl<const P: u32> Model for Gfp<P> {
    ghost use Rattle.std.specs.Prelude.{ℕ, ◌<◌};

    ghost Value = { ℕ };

    ghost view = { λ x. x.value };

    ghost invariant = { λ x. x.value < P };

    ghost inverse = { λ n. record { value = n } };
}

impl Field for Gfp<2> {
    ghost ops = { mod_ops 2 };

    ghost number_of = { λ x. x };

    ghost SIZE = { 2 };

    const SIZE: u32 = 2;

    ghost laws = { mod_field 2 (lit< tt) refl };

    ghost size_is = { refl };

    ghost small = { lit≤ tt };

    ghost identical = { λ x y same. same };

    ghost eq_same = { λ x y. Prim.grind (arith, nat_tests) };

    fn add(self, other: Self) -> Self {
        Gfp {
            value: (self.value + other.value) % 2,
        }
    }

    fn neg(self) -> Self {
        Gfp {
            value: (2 - self.value) % 2,
        }
    }

    fn mul(self, other: Self) -> Self {
        Gfp {
            value: (self.value * other.value) % 2,
        }
    }

    fn inv(self) -> Self {
        const INVERSES: [u8; 2] = [0, 1];
        Gfp {
            value: INVERSES[self.value as usize],
        }
    }

    fn from_number(number: u32) -> Self {
        Gfp {
            value: number as u8,
        }
    }

    fn to_number(self) -> u32 {
        self.value as u32
    }

    fn add_scaled_row(target: &mut [u8], source: &[u8], factor: Self) {
        lane_rows::add_scaled(target, source, factor.value, 2);
    }

    fn scale_row(target: &mut [u8], factor: Self) {
        lane_rows::scale(target, factor.value, 2);
    }
}

impl Field for Gfp<3> {
    ghost ops = { mod_ops 3 };

    ghost number_of = { λ x. x };

    ghost SIZE = { 3 };

    const SIZE: u32 = 3;

    ghost laws = { mod_field 3 (lit< tt) refl };

    ghost size_is = { refl };

    ghost small = { lit≤ tt };

    ghost identical = { λ x y same. same };

    ghost eq_same = { λ x y. Prim.grind (arith, nat_tests) };

    fn add(self, other: Self) -> Self {
        Gfp {
            value: (self.value + other.value) % 3,
        }
    }

    fn neg(self) -> Self {
        Gfp {
            value: (3 - self.value) % 3,
        }
    }

    fn mul(self, other: Self) -> Self {
        Gfp {
            value: (self.value * other.value) % 3,
        }
    }

    fn inv(self) -> Self {
        const INVERSES: [u8; 3] = [0, 1, 2];
        Gfp {
            value: INVERSES[self.value as usize],
        }
    }

    fn from_number(number: u32) -> Self {
        Gfp {
            value: number as u8,
        }
    }

    fn to_number(self) -> u32 {
        self.value as u32
    }

    fn add_scaled_row(target: &mut [u8], source: &[u8], factor: Self) {
        lane_rows::add_scaled(target, source, factor.value, 3);
    }

    fn scale_row(target: &mut [u8], factor: Self) {
        lane_rows::scale(target, factor.value, 3);
    }
}

impl Field for Gfp<5> {
    ghost ops = { mod_ops 5 };

    ghost number_of = { λ x. x };

    ghost SIZE = { 5 };

    const SIZE: u32 = 5;

    ghost laws = { mod_field 5 (lit< tt) refl };

    ghost size_is = { refl };

    ghost small = { lit≤ tt };

    ghost identical = { λ x y same. same };

    ghost eq_same = { λ x y. Prim.grind (arith, nat_tests) };

    fn add(self, other: Self) -> Self {
        Gfp {
            value: (self.value + other.value) % 5,
        }
    }

    fn neg(self) -> Self {
        Gfp {
            value: (5 - self.value) % 5,
        }
    }

    fn mul(self, other: Self) -> Self {
        Gfp {
            value: (self.value * other.value) % 5,
        }
    }

    fn inv(self) -> Self {
        const INVERSES: [u8; 5] = [0, 1, 3, 2, 4];
        Gfp {
            value: INVERSES[self.value as usize],
        }
    }

    fn from_number(number: u32) -> Self {
        Gfp {
            value: number as u8,
        }
    }

    fn to_number(self) -> u32 {
        self.value as u32
    }

    fn add_scaled_row(target: &mut [u8], source: &[u8], factor: Self) {
        lane_rows::add_scaled(target, source, factor.value, 5);
    }

    fn scale_row(target: &mut [u8], factor: Self) {
        lane_rows::scale(target, factor.value, 5);
    }
}

impl Field for Gfp<7> {
    ghost ops = { mod_ops 7 };

    ghost number_of = { λ x. x };

    ghost SIZE = { 7 };

    const SIZE: u32 = 7;

    ghost laws = { mod_field 7 (lit< tt) refl };

    ghost size_is = { refl };

    ghost small = { lit≤ tt };

    ghost identical = { λ x y same. same };

    ghost eq_same = { λ x y. Prim.grind (arith, nat_tests) };

    fn add(self, other: Self) -> Self {
        Gfp {
            value: (self.value + other.value) % 7,
        }
    }

    fn neg(self) -> Self {
        Gfp {
            value: (7 - self.value) % 7,
        }
    }

    fn mul(self, other: Self) -> Self {
        Gfp {
            value: (self.value * other.value) % 7,
        }
    }

    fn inv(self) -> Self {
        const INVERSES: [u8; 7] = [0, 1, 4, 5, 2, 3, 6];
        Gfp {
            value: INVERSES[self.value as usize],
        }
    }

    fn from_number(number: u32) -> Self {
        Gfp {
            value: number as u8,
        }
    }

    fn to_number(self) -> u32 {
        self.value as u32
    }

    fn add_scaled_row(target: &mut [u8], source: &[u8], factor: Self) {
        lane_rows::add_scaled(target, source, factor.value, 7);
    }

    fn scale_row(target: &mut [u8], factor: Self) {
        lane_rows::scale(target, factor.value, 7);
    }
}

impl Field for Gfp<11> {
    ghost ops = { mod_ops 11 };

    ghost number_of = { λ x. x };

    ghost SIZE = { 11 };

    const SIZE: u32 = 11;

    ghost laws = { mod_field 11 (lit< tt) refl };

    ghost size_is = { refl };

    ghost small = { lit≤ tt };

    ghost identical = { λ x y same. same };

    ghost eq_same = { λ x y. Prim.grind (arith, nat_tests) };

    fn add(self, other: Self) -> Self {
        Gfp {
            value: (self.value + other.value) % 11,
        }
    }

    fn neg(self) -> Self {
        Gfp {
            value: (11 - self.value) % 11,
        }
    }

    fn mul(self, other: Self) -> Self {
        Gfp {
            value: (self.value * other.value) % 11,
        }
    }

    fn inv(self) -> Self {
        const INVERSES: [u8; 11] = [0, 1, 6, 4, 3, 9, 2, 8, 7, 5, 10];
        Gfp {
            value: INVERSES[self.value as usize],
        }
    }

    fn from_number(number: u32) -> Self {
        Gfp {
            value: number as u8,
        }
    }

    fn to_number(self) -> u32 {
        self.value as u32
    }

    fn add_scaled_row(target: &mut [u8], source: &[u8], factor: Self) {
        lane_rows::add_scaled(target, source, factor.value, 11);
    }

    fn scale_row(target: &mut [u8], factor: Self) {
        lane_rows::scale(target, factor.value, 11);
    }
}

impl Field for Gfp<13> {
    ghost ops = { mod_ops 13 };

    ghost number_of = { λ x. x };

    ghost SIZE = { 13 };

    const SIZE: u32 = 13;

    ghost laws = { mod_field 13 (lit< tt) refl };

    ghost size_is = { refl };

    ghost small = { lit≤ tt };

    ghost identical = { λ x y same. same };

    ghost eq_same = { λ x y. Prim.grind (arith, nat_tests) };

    fn add(self, other: Self) -> Self {
        Gfp {
            value: (self.value + other.value) % 13,
        }
    }

    fn neg(self) -> Self {
        Gfp {
            value: (13 - self.value) % 13,
        }
    }

    fn mul(self, other: Self) -> Self {
        Gfp {
            value: (self.value * other.value) % 13,
        }
    }

    fn inv(self) -> Self {
        const INVERSES: [u8; 13] = [0, 1, 7, 9, 10, 8, 11, 2, 5, 3, 4, 6, 12];
        Gfp {
            value: INVERSES[self.value as usize],
        }
    }

    fn from_number(number: u32) -> Self {
        Gfp {
            value: number as u8,
        }
    }

    fn to_number(self) -> u32 {
        self.value as u32
    }

    fn add_scaled_row(target: &mut [u8], source: &[u8], factor: Self) {
        lane_rows::add_scaled(target, source, factor.value, 13);
    }

    fn scale_row(target: &mut [u8], factor: Self) {
        lane_rows::scale(target, factor.value, 13);
    }
}
