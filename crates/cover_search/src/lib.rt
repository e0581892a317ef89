//! The search for the covers of a presentation: live partial tables are placed in order, each for one unit
//! of a budget, and the listed ones among them are found.
//!
//! A search may be begun again at the position of another one. It knows generators and relators and
//! nothing of a space (low-index subgroups by coset tables; textbook, after Sims). Sheets and columns are
//! counted from 1 in tables and positions; in columns of eight bytes sheets are counted from 0.
#![tactic(auto)]

mod columns;
mod course;
mod fault;
mod index;
mod laws;
mod search;
mod walker;

pub use fault::SearchFault;
pub use laws::searches_resume;
pub use search::{Search, Turn};
