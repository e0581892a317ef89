//! Cohomology of the chains of a space from a complex that is reduced to critical chains.
//!
//! Ranks and Betti numbers come first, so that a caller may look at them before any cochain is made. Then come bases of
//! cocycles modulo coboundaries, with dual cycles, and rank lines that show that there are no more of them. (Cohomology of a complex over a field, by elimination; textbook.)
#![tactic(auto)]

mod bases;
mod classes;
mod echelons;
mod entries;
mod line;
mod lists;
mod ranks;
mod rows;
mod written;

pub use bases::Bases;
pub use echelons::{Echelons, reductions_have_rows};
pub use line::Line;
pub use lists::{ClassLines, Lines, RankLines};
pub use written::Written;
