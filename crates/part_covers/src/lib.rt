//! One cover of a part of a regular space, by its number in the listing of covers: its table of sheets and its total
//! space.
//!
//! The part is that of a component, with its chosen field of pairs; the listing is the one of cover_listing. Components,
//! sheets and covers are numbered from 1; a part numbers its cells anew.
#![tactic(auto)]

mod cover;
mod fault;
mod finding;
mod laws;
mod totals;
mod wanted;

pub use cover::{Cover, numbered_cover};
pub use fault::CoverFault;
pub use laws::numbered_are_covers;
pub use wanted::Wanted;
