//! Loops over rows of small numbers, each equal to its plain definition.
//!
//! A row is a slice of bytes below a modulus `p` of at most 13, such as a small prime. Loops go over
//! whole chunks of sixteen bytes in lanes, and over the rest one by one. No call takes memory.
#![tactic(auto)]

mod add;
mod permute;
mod product;
mod search;
mod table;
mod vectors;

pub use add::{add_pairs, add_scaled};
pub use permute::compose8;
pub use product::{dot, replace, scale};
pub use search::{first_nonzero, first_nonzero_from};
