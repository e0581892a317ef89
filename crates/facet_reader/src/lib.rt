//! Spaces whose cells are sets of vertices: simplicial complexes, read from lists of labels, and the
//! order complexes of finite partial orders, read from their relations.
#![tactic(auto)]

mod above;
mod cells;
mod chains;
mod fault;
mod labels;
mod laws;
mod listing;
mod orders;
mod partial_order;
mod simplicial;
mod vertices;

pub use fault::FacetFault;
pub use laws::{below_is_least, order_complexes_are_regular, set_spaces_are_regular};
pub use partial_order::poset;
pub use simplicial::simplices;
