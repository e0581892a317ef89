//! The lines of a certificate of homology of an order complex: definitions and laws, no code.
//!
//! A rank line has a left side, whose coboundary is not zero on the right side of its own line and zero on those of
//! the lines before; a class line a cocycle and a cycle, which pair; a product line an entry of the cup table with a
//! bounding cochain. Each law is the contract of a function whose body does nothing.
#![tactic(auto)]

ghost use Rattle.chain_laws.specs.Laws.{EntriesAreCochains, ClassLinesAreCocycles, ProductLinesAreProducts};
ghost use Rattle.chain_laws.specs.Laws.{TestsAreEquations, ValuesFitEntries, EquationsAreTests, ClassTestsAreClasses};

use order_complex::coboundary_is_adjoint;
use small_field::Field;

/// The entries of a cochain, read back, are the cochain, and the cochain of entries has these entries.
pub fn entries_are_cochains<F: Field>()
    ensures { EntriesAreCochains F.ops }
{}

/// The left side of a class line is a cocycle.
pub fn class_lines_are_cocycles<F: Field>()
    ensures { ClassLinesAreCocycles F.ops }
{}

/// A product line gives the coefficients of the cup product, modulo coboundaries.
pub fn product_lines_are_products<F: Field>()
    ensures { ProductLinesAreProducts F.ops }
{}

/// The test of each line holds exactly where its equations hold.
pub fn tests_are_equations<F: Field>()
    ensures { TestsAreEquations F.ops }
{}

/// The coboundary, the boundary and the values of what has given entries, by the rows of the coboundaries.
pub fn values_fit_entries<F: Field>()
    ensures { ValuesFitEntries F.ops }
{
    coboundary_is_adjoint::<F>();
}

/// The tests of all lines hold exactly where their equations, by the rows of the coboundaries, hold; and so does the
/// test of a class.
pub fn equations_are_tests<F: Field>()
    ensures { EquationsAreTests F.ops }
{
    coboundary_is_adjoint::<F>();
}

/// A cochain that passes the test of a class is a combination of the left sides plus a coboundary.
pub fn class_tests_are_classes<F: Field>()
    ensures { ClassTestsAreClasses F.ops }
{}
