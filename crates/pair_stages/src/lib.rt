//! A signed set with a field of pairs of its cells, degree by degree: extensions of values at critical cells, flows,
//! clearing, the coboundaries of extensions, and units. Each is the unique solution of linear conditions, found by
//! substitution in the order of the field. (Discrete Morse theory; R. Forman.)
#![tactic(auto)]

mod cleared;
mod coboundary;
mod columns;
mod filled;
mod flow;
mod indexes;
mod listing;
mod parts;
mod reach;
mod signs;
mod stage;
mod stages;
mod substitution;
mod unit;

pub use cleared::Cleared;
pub use filled::Filled;
pub use stages::Stages;
pub use unit::Unit;
