//! Spaces whose cells are tuples of coordinates: the 3-torus, cubical spaces of voxels in a box, and
//! the laws that these are regular.
//!
//! The voxel with index `i` in a direction, counted from 0, has the coordinate `2 i + 1` there; its
//! faces have `2 i` or `2 i + 2` in some directions. The space of some voxels has them and all their
//! faces as cells, each once, numbered by dimension in lexicographic order.
#![tactic(auto)]

mod laws;
mod tori;
mod torus_places;

pub use laws::{
    cubical_spaces_are_regular, kept_voxel_spaces_are_regular, torus_is_regular,
    voxel_spaces_are_regular,
};
pub use tori::torus;
