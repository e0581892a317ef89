//! Splits of complexes over a small field, on lists of numbers: definitions and laws, no code.
//!
//! A split sorts the cells of each degree into critical ones, lowers and uppers, so that prescribed
//! values on uppers are taken by the coboundary of exactly one cochain on lowers, and the mirror of
//! this. The pairs of a discrete vector field give one (R. Forman, Morse theory for cell complexes).
//! From a split come extensions from critical cells, flows, clearing, and the reduced rows, which
//! have the cohomology of the whole. Each law is the contract of a function with an empty body.
#![tactic(auto)]

mod kind;
mod matching;

ghost use Rattle.split_laws.specs.Laws.{FieldsSplit, SubstitutionSolves, SolutionsAreOne, SolutionsCombine};
ghost use Rattle.split_laws.specs.Laws.{CellsAreCounted, ExtensionsPair, ReducedRowsAreCoboundaries};
ghost use Rattle.split_laws.specs.Laws.{ExtensionsCommute, ReducedIsClosed, FlowsCommute};
ghost use Rattle.split_laws.specs.Laws.{CocyclesAreExtensions, BasesExtend, BettiByReducedRanks};

pub use kind::Kind;
pub use matching::Match;
use small_field::Field;

/// The pairs of a field give a split: in their order, in which the lowers of later pairs are not in
/// the uppers of earlier ones, values on uppers settle forward, and values on lowers backward.
pub fn fields_split<F: Field>()
    ensures { FieldsSplit F.ops }
{}

/// Substitution along the pairs of a field solves: forward for extensions and clearing, backward for flows.
pub fn substitution_solves<F: Field>()
    ensures { SubstitutionSolves F.ops }
{}

/// There is exactly one extension, one flow and one clearing.
pub fn solutions_are_one<F: Field>()
    ensures { SolutionsAreOne F.ops }
{}

/// The extension of a combination is the combination of the extensions, and so with flows.
pub fn solutions_combine<F: Field>()
    ensures { SolutionsCombine F.ops }
{}

/// Each cell is critical, a lower or an upper, and a degree has as many lowers as the next has uppers.
pub fn cells_are_counted<F: Field>()
    ensures { CellsAreCounted F.ops }
{}

/// The value of an extension on a flow of its degree is the pairing of their values on critical cells.
pub fn extensions_pair<F: Field>()
    ensures { ExtensionsPair F.ops }
{}

/// At the critical cells the coboundary of an extension is the combination of the reduced rows.
pub fn reduced_rows_are_coboundaries<F: Field>()
    ensures { ReducedRowsAreCoboundaries F.ops }
{}

/// The coboundary of an extension is the extension of the reduced coboundary.
pub fn extensions_commute<F: Field>()
    ensures { ExtensionsCommute F.ops }
{}

/// Two steps of the reduced rows give zero.
pub fn reduced_is_closed<F: Field>()
    ensures { ReducedIsClosed F.ops }
{}

/// The boundary of a flow is the flow of the reduced boundary.
pub fn flows_commute<F: Field>()
    ensures { FlowsCommute F.ops }
{}

/// A cocycle is an extension plus a coboundary: that of the cochain that clears it.
pub fn cocycles_are_extensions<F: Field>()
    ensures { CocyclesAreExtensions F.ops }
{}

/// The extensions of a basis of the reduced cocycles modulo reduced coboundaries are a basis of the
/// cocycles modulo coboundaries.
pub fn bases_extend<F: Field>()
    ensures { BasesExtend F.ops }
{}

/// The number of critical cells less the ranks of the reduced rows into and out of a degree is the
/// length of a basis of the cocycles modulo coboundaries.
pub fn betti_by_reduced_ranks<F: Field>()
    ensures { BettiByReducedRanks F.ops }
{}
