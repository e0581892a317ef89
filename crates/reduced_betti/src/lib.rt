//! The Betti numbers of a space by elimination on the critical cells of its order complex.
//!
//! The chains are paired by a maximal field, and the coboundaries are reduced to the chains in no pair, the
//! critical ones. A Betti number is the number of critical chains of a degree less the ranks of the reduced
//! coboundaries into and out of it (discrete Morse theory; R. Forman). The answers are those of all chains.
#![tactic(auto)]

mod numbers;
mod ranks;

pub use numbers::{betti_modulo, betti_numbers, betti_of};
