//! The words of the command line: which command they ask for, with its options as values.
#![tactic(auto)]

mod command;
mod fault;
mod laws;
mod line;
mod reader;
mod table;
mod texts;

pub use command::{
    Command, CoverOptions, CoversOptions, FieldOptions, Input, InputOptions, Kind, MakeOptions,
    NameOptions, ReportOptions,
};
pub use fault::WordsFault;
pub use laws::{each_is_asked, form_is_free, order_is_free};
pub use reader::{read, read_any};
