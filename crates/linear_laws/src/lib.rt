//! Linear algebra over a small field, on lists of numbers: definitions, and the laws that follow
//! from those of the field.
//!
//! A vector of n coordinates is a list of n numbers below the field's size, and a matrix is a list
//! of such rows. Each law is the contract of a function with an empty body.
#![tactic(auto)]

ghost use Rattle.linear_laws.specs.ZeroRows.{ZeroRowsLaws};
ghost use Rattle.linear_laws.specs.Laws.{MoreAreDependent, BasesAreAsLong, RowsHaveABasis, RankIsDimension};
ghost use Rattle.linear_laws.specs.Laws.{BasisByRanks, TrianglesAreIndependent, HistoryGivesKernel};
ghost use Rattle.linear_laws.specs.Laws.{KernelsComplete, IndependentSpan, TrianglesCertify, CombinationLaws};

use small_field::Field;

/// How combinations of rows compute: they are linear, and spans are transitive.
pub fn combination_laws<F: Field>()
    ensures { CombinationLaws F.ops }
{}

/// The dimension law: more than n vectors of n coordinates are dependent.
pub fn more_are_dependent<F: Field>()
    ensures { MoreAreDependent F.ops }
{}

/// Each list of rows has a basis.
pub fn rows_have_a_basis<F: Field>()
    ensures { RowsHaveABasis F.ops }
{}

/// Two independent lists that span the same have the same length (Steinitz).
pub fn bases_are_as_long<F: Field>()
    ensures { BasesAreAsLong F.ops }
{}

/// The number of pivots of a reduced echelon form is the length of each basis of the rows.
pub fn rank_is_dimension<F: Field>()
    ensures { RankIsDimension F.ops }
{}

/// Rank and nullity: where a map follows another and their composition is zero, the two ranks and
/// the length of some basis of the kernel of the second modulo the image of the first add up to
/// the number of coordinates between them.
pub fn basis_by_ranks<F: Field>()
    ensures { BasisByRanks F.ops }
{}

/// Vectors are independent where each has a test that is not zero on it and zero on all later ones.
pub fn triangles_are_independent<F: Field>()
    ensures { TrianglesAreIndependent F.ops }
{}

/// Rows of zeros change no rank: a reduced form of the rows that are not zero gives one of all rows, which stand
/// among zeros at their places.
pub fn zero_rows_change_no_rank<F: Field>()
    ensures { ZeroRowsLaws F.ops }
{}

/// The rows of the history of a reduced form, from the rank on, are a basis of the kernel.
pub fn history_gives_kernel<F: Field>()
    ensures { HistoryGivesKernel F.ops }
{}

/// What completes a basis of the coboundaries to one of coboundaries and kernel is a basis of the kernel modulo
/// coboundaries.
pub fn kernels_complete<F: Field>()
    ensures { KernelsComplete F.ops }
{}

/// As many independent vectors as coordinates span.
pub fn independent_vectors_span<F: Field>()
    ensures { IndependentSpan F.ops }
{}

/// A full triangle certifies: a vector on which the tests of its first vectors are zero is a combination of the
/// others.
pub fn triangles_certify<F: Field>()
    ensures { TrianglesCertify F.ops }
{}
