// Laws of the order complex, each the contract of a function with an empty body.
ghost use Rattle.order_complex.specs.Laws.{FacesAreBelow, BoundaryAlternates, BoundariesAreCycles};
ghost use Rattle.order_complex.specs.Laws.{ChainsAreOrdered, ChainsAreSequences, CoboundariesAreClosed};
ghost use Rattle.order_complex.specs.Laws.{CoboundaryIsAdjoint, BettiIsOneNumber, BettiByRanks};

use small_field::Field;

/// The faces of a cell, by their ids, are exactly the cells below it of a smaller dimension.
pub fn faces_are_below()
    ensures { FacesAreBelow }
{}

/// The chains of a degree are exactly the sequences of cells, each a face of the next, with one cell more than the
/// degree.
pub fn chains_are_sequences()
    ensures { ChainsAreSequences }
{}

/// The chains of a degree stand in lexicographic order, and none stands twice.
pub fn chains_are_ordered()
    ensures { ChainsAreOrdered }
{}

/// The coboundary of a coboundary is zero.
pub fn coboundaries_are_closed<F: Field>()
    ensures { CoboundariesAreClosed F.ops }
{}

/// The boundary of one chain is the alternating sum of the chains with one entry left out.
pub fn boundary_alternates<F: Field>()
    ensures { BoundaryAlternates F.ops }
{}

/// The boundary of a boundary is zero.
pub fn boundaries_are_cycles<F: Field>()
    ensures { BoundariesAreCycles F.ops }
{}

/// The coboundary of a cochain on a chain with coefficients is the cochain on its boundary.
pub fn coboundary_is_adjoint<F: Field>()
    ensures { CoboundaryIsAdjoint F.ops }
{}

/// All bases of the cocycles of a degree modulo coboundaries have the same length.
pub fn betti_is_one_number<F: Field>()
    ensures { BettiIsOneNumber F.ops }
{}

/// The Betti number is the number of chains less the ranks of the coboundaries into and out of the degree.
pub fn betti_by_ranks<F: Field>()
    ensures { BettiByRanks F.ops }
{}
