//! Fields with few elements.
//!
//! [`Field`] is a field of at most 13 elements, whose elements contracts see as the numbers below
//! its size. [`Gfp`] has the integers modulo 2, 3, 5, 7, 11 and 13; [`Gf4`] and [`Gf9`] are the fields
//! of 4 and of 9 elements. [`Cochain`] is a list of elements, one for each cell, and [`Sparse`] a row
//! written as its entries that are not zero.
#![tactic(auto)]

ghost use Rattle.std.specs.Prelude.{◌≡◌, ℕ, true};
ghost use Rattle.small_field.specs.Laws.{FurtherLaws, IsSmallField};
ghost use Rattle.small_field.specs.Modulus.{is_modulus};

mod cochain;
mod field;
mod over;
mod prime;
mod quadratic;
mod sparse;

pub use cochain::Cochain;
pub use field::Field;
pub use over::{OverField, over_field};
pub use prime::Gfp;
pub use quadratic::{Gf4, Gf9};
pub use sparse::{Entry, Sparse};

/// What follows from the laws of a field, for sums over lists too.
pub fn further_laws<F: Field>()
    ensures { FurtherLaws F.ops }
{}

/// For each modulus there is a field with so many elements, with its laws: each element is its own power with the
/// modulus as exponent, and so many times an element as the characteristic says is 0 (finite fields; textbook).
pub fn small_fields()
    ensures { (p : ℕ) → is_modulus p ≡ true → IsSmallField p }
{}
