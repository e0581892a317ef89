//! Cubical spaces: the cells are the present voxels of an array, or those of a box that an arc
//! presentation of a knot or link leaves, and all their faces.
#![tactic(auto)]

mod arc_complement;
mod arc_rows;
mod box_places;
mod cells;
mod cubes;
mod voxels;

pub use arc_complement::arcs;
pub use cubes::cubical;
pub use voxels::voxel_space;
