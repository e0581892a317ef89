//! What the pairs inside the cells of a regular space leave of its order complex: the space itself. Definitions and
//! laws, no code.
//!
//! The chains that the pairs inside all cells leave over are the flags of the cells, one for each. The reduced
//! coboundaries between them are those of the cells with their signs, so that the cells have the cohomology of the
//! order complex. (Cellular cohomology of a regular CW-complex; textbook.) Each law is the contract of a function that
//! does nothing at run time.
#![tactic(auto)]

ghost use Rattle.flag_laws.specs.Laws.{CellsHaveTheBettiNumbers, FlagsReduceToCells};

use local_field::local_pairs_are_fields;
use order_complex::{chains_are_ordered, chains_are_sequences, faces_are_below};
use regular_check::cycles_go_round;
use small_field::Field;
use sphere_collapses::boundaries_collapse;
use split_laws::{bases_extend, solutions_are_one};

/// The reduced rows of the chains, with the kinds that the pairs inside all cells give them, are the rows of the
/// cells with their signs, numbered by their flags.
pub fn flags_reduce_to_cells<F: Field>()
    ensures { FlagsReduceToCells F.ops }
{
    cycles_go_round();
    faces_are_below();
    chains_are_sequences();
    chains_are_ordered();
}

/// A basis of the cocycles of the cells with their signs, modulo coboundaries, has as many members as one of the
/// cocycles of the whole order complex: the cells have its Betti numbers.
pub fn cells_have_the_betti_numbers<F: Field>()
    ensures { CellsHaveTheBettiNumbers F.ops }
{
    cycles_go_round();
    boundaries_collapse();
    faces_are_below();
    chains_are_sequences();
    chains_are_ordered();
    local_pairs_are_fields();
    bases_extend::<F>();
    solutions_are_one::<F>();
}
