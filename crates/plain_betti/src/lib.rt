//! The Betti numbers of a space by plain elimination on all chains of its order complex.
//!
//! The coboundary of each degree is a dense matrix with a row for each chain of the degree and a column
//! for each chain of the next. A Betti number is the number of chains of a degree less the ranks of the
//! coboundaries into and out of it. A matrix has a byte for each row and column, and its reduction at most
//! rows times rank row additions, so this serves some thousands of chains.
#![tactic(auto)]

mod numbers;
mod ranks;

pub use numbers::{betti_modulo, betti_numbers, betti_of};
