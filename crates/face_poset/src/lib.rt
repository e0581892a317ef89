//! Finite spaces as lists of boundaries: cells of dimensions 0 to 3, each with the list of its
//! facets.
//!
//! Cells are numbered from 1 in each dimension. A vertex has no facet; any other cell has a
//! strictly increasing, nonempty list of facets, which are cells of one dimension less.
#![tactic(auto)]

mod below;
mod builder;
mod cell_reader;
mod cells;
mod fault;
mod graded;
mod laws;
mod printer;
mod reader;
mod space;

pub use builder::{BuildFault, Builder};
pub use cells::{Cell, CellList, Pair};
pub use fault::SpaceFault;
pub use graded::{Graded, Signed};
pub use laws::{
    closed_cell_is_least, closed_cell_is_ordered, cofaces_are_cells_above, text_reads_back,
};
pub use reader::from_nest;
pub use space::Space;
