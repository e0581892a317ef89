//! The text of a certificate, read: exact to its first fault, in versions 1 and 2.
//!
//! What a text is read as is a definition, `certificate_of`, and laws say that the text of a well-formed
//! certificate is read as that certificate, that nothing else is, and that a line that is refused stays
//! refused whatever follows. [`parse`] does what the definition says.
#![tactic(auto)]

mod columns;
mod cover;
mod front;
mod homology;
mod laws;
mod listing;
mod pairs;
mod products;
mod space;
mod spots;
mod text;

pub use cert_lines::CertFault;
pub use certificates::{
    Certificate, CoverLine, CoverLines, CoverPart, Ending, Line, LinesByDegree, Numbers, PairLine,
    PairLines, ProductLine, ProductLines, Section, Sections, forms_are_spelled, write_back,
    write_cover, write_front, write_section,
};
pub use laws::{faults_are_final, only_texts_are_read, texts_are_one, texts_are_read};
pub use text::parse;
