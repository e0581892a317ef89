//! The parts of a regular space: for each connected component the space of its cells, numbered anew.
//!
//! Components and cells are numbered from 1, the components in the order of their least vertices. The
//! cells of a part stand in the order that they have in the whole space.
#![tactic(auto)]

mod laws;
mod listing;
mod making;
mod numbering;
mod part;
mod parts;

pub use laws::{
    each_cell_is_in_one_part, facets_lie_within, one_part_is_the_space, one_part_keeps_numbers,
    parts_are_regular, parts_have_the_facets,
};
pub use part::Part;
pub use parts::{Parts, parts_of};
