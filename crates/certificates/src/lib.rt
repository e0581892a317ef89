//! Certificates of homology, cup products and covers, and their text.
//!
//! A [`Certificate`] is a list of equations over a space. It names no maker: whoever has one checks it
//! against the space alone. Its text has two versions, the first for one component, the second for
//! several. [`write_front`], [`write_section`], [`write_cover`] and [`write_back`] write it.
#![tactic(auto)]

mod certificate;
mod cover;
mod front;
mod kind;
mod laws;
mod lines;
mod lists;
mod places;
mod put;
mod token;
mod write;

pub use certificate::{Certificate, CoverPart, Ending, Numbers, Section, Sections};
pub use kind::Kind;
pub use laws::forms_are_spelled;
pub use lines::{CoverLine, Line, PairLine, ProductLine};
pub use lists::{CoverLines, LinesByDegree, PairLines, ProductLines};
pub use places::{put_cover, put_spot};
pub use token::Token;
pub use write::{write_back, write_cover, write_front, write_section};
