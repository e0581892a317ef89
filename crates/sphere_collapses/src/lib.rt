//! Collapses of the boundaries of 3-cells.
//!
//! The boundary of a 3-cell of a regular space is a sphere. Without one of its 2-cells it collapses to a
//! vertex: pairs of a cell and the only cell left above it go one after another. So, where the walks round
//! all 2-cells but one close, the last one closes. Cells are numbered from 1 in each dimension.
//!
//! What a collapse is made of serves others too: trees in graphs, and facets by their places in a sorted
//! list, so that a search inside a few cells takes no time for the others.
#![tactic(auto)]

mod collapse;
mod faces;
mod laws;
mod pair_seq;
mod tree;

pub use collapse::collapse_of;
pub use faces::{facet_places, place_of};
pub use laws::{boundaries_collapse, collapsed_walks_close, last_face_closes, spheres_have_trees};
pub use pair_seq::PairSeq;
pub use tree::{Taken, grow};
