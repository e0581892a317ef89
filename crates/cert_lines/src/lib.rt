//! The lines of a certificate, read one by one.
//!
//! [`Lines`] are the lines of a text that are left; [`take`] and [`take_numbers`] take the next one if it is
//! of the kind that may stand there, and [`CertFault`] says why a text is no certificate. [`line_kind`] tells
//! which line it is, if it has a form of the version, and takes no memory. Of a line that has a form,
//! [`number_at`] reads a number, [`rising_at`] numbers that rise, [`entries_at`] and [`entries_behind_bar`]
//! the two sparse lists, and [`spot_at`] and [`table_at`] a spot and a table, each with its range.
#![tactic(auto)]

mod fault;
mod kind;
mod line;
mod lines;
mod lists;
mod placed;
mod ranges;
mod scan;
mod shape;
mod spot;
mod table;
mod word;

pub use fault::CertFault;
pub use kind::LineKind;
pub use line::{line_kind, number_at};
pub use lines::{Lines, first_numbers, number_or_zero, take, take_any, take_numbers};
pub use lists::{entries_at, entries_behind_bar, rising_at};
pub use ranges::{columns_at, spot_fits};
pub use spot::spot_at;
pub use table::table_at;
