//! What an array of bits or an arc presentation is, before any cell is built from it.
#![tactic(auto)]

mod arcs;
mod bits;
mod fault;

pub use arcs::{Arcs, read_arcs};
pub use bits::{BitArray, read_bits};
pub use fault::ArrayFault;
