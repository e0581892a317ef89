//! A signed set with a field of pairs of its cells, reduced to the critical cells: extensions of values at
//! critical cells, the coboundaries of extensions, flows, clearing, and units. Each is the unique solution of
//! linear conditions. (Discrete Morse theory; R. Forman.)
#![tactic(auto)]

mod reduced;

pub use pair_stages::{Cleared, Unit};
pub use reduced::Reduced;
