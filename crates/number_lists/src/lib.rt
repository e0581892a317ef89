//! Lists of numbers: many of them in one place, which of them hold a number, queues of different
//! numbers, and sorting. Nothing here knows of cells or spaces.
#![tactic(auto)]

mod cofaces;
mod found_numbers;
mod laws;
mod lists;
mod slots;
mod sorting;

pub use cofaces::cofaces_in;
pub use found_numbers::FoundNumbers;
pub use laws::rounds_reach_what_steps_lead_to;
pub use lists::Lists;
pub use sorting::{sort_indexes_once, sort_once};
