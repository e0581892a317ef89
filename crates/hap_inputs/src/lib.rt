//! What the commands of `hap` read: the bytes of their input, and the space that these stand for.
//!
//! Each stage answers a value or the outcome with which the run ends: the stages are those of specs/Spaces.
#![tactic(auto)]

mod input;
mod space;

pub use input::read_input;
pub use space::{regular_space, space_of_bytes};
