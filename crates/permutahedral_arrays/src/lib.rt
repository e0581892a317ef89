//! Permutahedral spaces: the cells are sequences of points, of which at least one is present.
#![tactic(auto)]

mod cells;
mod marks;
mod permutahedra;
mod shapes;
mod spaces;

pub use permutahedra::permutahedral;
