//! The covers of a space with several components: one search after another, with one budget for all.
//!
//! A [`Listing`] goes through the live partial tables of the parts of a space, component by component, and
//! hands what it finds to a [`Taker`], which writes it. Components, sheets and columns are numbered from 1.
#![tactic(auto)]

mod counts;
mod laws;
mod listing;
mod nth;
mod taker;

pub use laws::listings_are_of_covers;
pub use listing::{Ending, Listing};
pub use nth::{Nth, nth_cover};
pub use taker::Taker;
