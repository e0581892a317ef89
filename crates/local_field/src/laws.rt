// Laws on definitions: each is the contract of a function that does nothing at run time.
ghost use Rattle.local_field.specs.Inside.{LocalLeavesOver};
ghost use Rattle.local_field.specs.Buildings.{CellsLeaveOver, FlagsAreFull, SpacesAreFlagged};
ghost use Rattle.local_field.specs.Numbered.{LocalPairsAreFields};

use order_complex::{chains_are_sequences, faces_are_below};
use regular_check::cycles_go_round;

/// A law, and nothing at run time: the pairs of towers inside a cell have no tower twice, stand in an order
/// in which no later lower is a facet of an earlier upper that keeps the top, and leave over one tower
/// alone, the full tower that they were made for.
pub fn local_leaves_over()
    ensures { LocalLeavesOver }
{}

/// A law, and nothing at run time: the flag of each cell, that is its tower of first facets, has a cell of
/// each dimension, and each is a face of the one before.
pub fn flags_are_full()
    ensures { FlagsAreFull }
{}

/// A law, and nothing at run time: in a regular space the boundary of each cell without one facet is built up
/// from a vertex, each cell after its own faces. An edge leaves its other vertex; a 2-cell is built up round
/// its cycle, and a 3-cell by a collapse of the rest of its boundary, backward.
pub fn spaces_are_flagged()
    ensures { SpacesAreFlagged }
{
    cycles_go_round();
}

/// A law, and nothing at run time: the pairs of towers inside each cell of a regular space leave over its flag
/// alone.
pub fn cells_leave_over()
    ensures { CellsLeaveOver }
{
    cycles_go_round();
}

/// A law, and nothing at run time: the pairs inside all cells of a regular space, by numbers of chains, are a
/// field of pairs on the chains, and its critical chains are the flags of the cells.
pub fn local_pairs_are_fields()
    ensures { LocalPairsAreFields }
{
    cycles_go_round();
    faces_are_below();
    chains_are_sequences();
}
