//! Whether a table of sheets is the least of its renumberings.
//!
//! Each sheet is tried as the first one. The other sheets are numbered in the order in which the cells
//! of the renumbered table lead to them, so that this table is compared cell by cell while it arises,
//! and no renumbering is ever made (canonical coset tables; textbook, after Sims). Sheets are counted
//! from 1 in tables, and from 0 in the code here. No call takes memory.
#![tactic(auto)]

mod least;
mod numbering;

pub use least::{is_least, is_least_table};
