//! The fundamental groups of the parts of a regular space, one for each component.
//!
//! A part is taken with its chosen field of pairs, and then with the presentation that this field gives.
//! Components, cells and generators are numbered from 1; a part numbers its cells anew.
#![tactic(auto)]

mod field;
mod listing;
mod part_group;
mod presenting;

pub use field::{PartField, field_of_part};
pub use listing::{Group, groups_of};
pub use part_group::PartGroup;
pub use presenting::presentations_from;
