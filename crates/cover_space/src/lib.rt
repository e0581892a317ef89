//! Total spaces: from a labelling of a regular space the space that covers it.
//!
//! Over each cell stands a cell for each sheet, that of the sheet over the least vertex of the cell; its
//! facets are those of the sheets where edge paths inside the closed cell lead (covering spaces by
//! monodromy; textbook). Cells and sheets are numbered from 1; over the cell c stand those from
//! m (c - 1) + 1 to m c, for m sheets.
#![tactic(auto)]

mod closed;
mod fault;
mod laws;
mod making;
mod over;

pub use fault::TotalFault;
pub use laws::{
    closed_cells_are_covered_by_copies, each_cell_lies_over_one, sheet_is_along,
    total_has_components, total_is_a_space, total_is_regular,
};
pub use making::total;
