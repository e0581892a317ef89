//! The commands of `hap`, over a source and sinks that are handed in.
//!
//! [`run`] does all that the program does. Its contract says, for every source and every sink, how a run
//! ends, what it then wrote, and why.
#![tactic(auto)]

mod answer;
mod betti;
mod cells;
mod check;
mod cover;
mod covers;
mod group;
mod make;
mod running;

pub use running::run;
