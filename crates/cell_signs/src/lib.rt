//! Signs of the facets of the cells of a regular space, as whole numbers.
//!
//! Over each cell and each facet of its facets the products of signs sum to 0, and over the two vertices
//! of each edge its signs do. Cells are numbered from 1 in each dimension.
#![tactic(auto)]

mod disks;
mod edges;
mod oriented;
mod put;
mod solids;

pub use oriented::Oriented;
