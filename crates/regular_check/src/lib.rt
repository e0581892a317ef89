//! The regularity of a space of dimension at most 3, and its connected components.
//!
//! A space is regular where each edge has two ends, the edges of each 2-cell form one cycle that repeats
//! no vertex, and the boundary of each 3-cell is a sphere. Cells are numbered from 1 in each dimension.
#![tactic(auto)]

mod boundary;
mod components;
mod cycles;
mod fault;
mod laws;
mod regular;
mod rules;
mod search;
mod tally;

pub use components::Components;
pub use cycles::Step;
pub use fault::RegularFault;
pub use laws::{
    components_are_numbered, cycles_go_round, one_cycle_goes_round, same_component_is_a_path,
};
pub use regular::{Regular, check};
