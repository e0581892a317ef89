//! The order complex of a space.
#![tactic(auto)]

mod betti;
mod chains;
mod coface_lists;
mod counts;
mod faces;
mod facets;
mod fault;
mod laws;
mod listing;
mod searching;
mod uppers;
mod values;

pub use betti::Betti;
pub use chains::Chains;
pub use counts::ChainCounts;
pub use fault::ChainFault;
pub use laws::{
    betti_by_ranks, betti_is_one_number, boundaries_are_cycles, boundary_alternates,
    chains_are_ordered, chains_are_sequences, coboundaries_are_closed, coboundary_is_adjoint,
    faces_are_below,
};
