//! How a run of `hap` ends: done, spent, refused or failed, with its status and its line on standard error.
//!
//! Each condition that a command refuses is a case of [`Refusal`]; docs/COMMANDS.md lists the statuses and lines.
#![tactic(auto)]

mod faults;
mod lines;
mod outcome;
mod refusal;
mod spent;

pub use outcome::{Outcome, end_with, status, written};
pub use refusal::Refusal;
