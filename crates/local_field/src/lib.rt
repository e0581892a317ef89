//! Pairs of chains inside each cell of a regular space, which leave over one chain for each cell.
#![tactic(auto)]

mod building;
mod cell_ids;
mod field;
mod flag_signs;
mod flags;
mod inside;
mod laws;
mod numbering;
mod renumbering;
mod rounds;

pub use field::local_field;
pub use flags::Flags;
pub use laws::{
    cells_leave_over, flags_are_full, local_leaves_over, local_pairs_are_fields, spaces_are_flagged,
};
