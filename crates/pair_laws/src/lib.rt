//! Laws over numbers and letters alone: reduced words, ordered pairs, walks along edges, growing
//! trees, spheres, distances. Definitions and laws, no code.
//!
//! Nothing here knows a space: facets come as a function, the ends of an edge as two, what an edge
//! does to a sheet as two more. Crates above put those of a space in their place. Each law is the
//! contract of a function with an empty body.
#![tactic(auto)]

mod orders;
mod trees;
mod walks;
mod words;

pub use orders::{
    arranged_pairs_are_ordered, counts_fall, ordered_pairs_are_ranked, pairs_are_arranged_once,
    some_pair_is_ready,
};
pub use trees::{
    dual_trees_are_ordered, grown_links_are_distinct, numbers_fill_a_list, paths_are_trees,
    some_node_is_nearer, spheres_have_trees, trees_exist,
};
pub use walks::{
    flat_edges_carry_walks, last_edge_is_flat, opened_rounds_are_chains, ordered_lowers_are_flat,
    simple_rounds_close, simple_walks_end_alike, trees_have_sections,
};
pub use words::{
    inverted_words_reduce_alike, letters_are_put_last, letters_undo, reduced_in_parts,
    reduced_words_are_reduced, reduced_words_stay, walks_follow_reduced_words, words_are_forced,
};
