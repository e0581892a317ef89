//! Fields of pairs on any graded set, tested exactly, and maximal ones found.
//!
//! A pair is a cell (its lower) with a cell of one dimension more (its upper) of which it is a facet. A
//! field is a list of pairs, no cell in two of them, in an order in which each other facet of a pair's
//! upper that is the lower of a pair of the same dimension stands earlier. Cells in no pair are critical.
//! Cells are numbered from 1 in each dimension. (Discrete vector fields; R. Forman.)
#![tactic(auto)]

mod cell_map;
mod checking;
mod faces;
mod fault;
mod filling;
mod free;
mod laws;
mod maximal;
mod pair_list;
mod pairing;
mod partner;
mod rest;
mod search;

pub use fault::PairFault;
pub use free::free_field;
pub use laws::{
    added_pair_closes, maximal_is_exact, path_is_exact, substitution_ends, valid_closes_none,
};
pub use maximal::is_maximal;
pub use pair_list::PairList;
pub use partner::Partner;
