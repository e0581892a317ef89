//! Words of edges in the generators that a field of pairs leaves, the relators of its critical 2-cells,
//! and where words lead through a table of sheets.
//!
//! An edge that is paired with a vertex has the empty word, a critical edge its own letter, and an edge
//! that is paired with a 2-cell the reduced word that the cycle of this 2-cell forces. The reduced words
//! of the cycles of the critical 2-cells are the relators of the fundamental group. Cells, generators and
//! sheets are numbered from 1; the letter g is generator g forward, -g backward.
#![tactic(auto)]

mod fault;
mod label_list;
mod labelling;
mod laws;
mod moves;
mod presentation;
mod presenting;
mod reducing;
mod word_list;

pub use fault::WordFault;
pub use label_list::Labels;
pub use labelling::labels;
pub use laws::{
    forced_words_are_the_only_ones, labels_are_the_lift, lifts_are_labellings, walks_follow_words,
};
pub use presentation::Presentation;
pub use presenting::present;
