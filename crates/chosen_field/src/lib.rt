//! The space's own field of pairs, for a regular space with one component.
//!
//! It is a function of the space alone: the pairs and their order. For dimension 2 and then for dimension 1
//! free faces are paired, and more pairs are added where no gradient path forbids them; then the vertices are
//! paired along a tree. Cells are numbered from 1 in each dimension.
#![tactic(auto)]

mod counts;
mod distances;
mod field;
mod laws;
mod listing;
mod pairs;
mod rest;
mod tree_edges;

pub use field::tree_field;
pub use laws::{chosen_is_good, listing_never_stops, loose_edges_join, tree_goes_nearer};
