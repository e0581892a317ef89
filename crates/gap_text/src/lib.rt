//! Nested lists of numbers, read from the text of a GAP list.
#![tactic(auto)]

ghost use Rattle.std.specs.Prelude.{◌≡◌, ◌≢◌, ◌≤◌, length, Ok, Err, IfOk, IfErr};
ghost use Rattle.gap_text.specs.Nest.{view};
ghost use Rattle.gap_text.specs.Reading.{value_of};

mod byte;
mod fault;
mod laws;
mod nest;
mod reader;
mod state;

use byte::Class;
pub use fault::TextFault;
pub use laws::{fault_is_no_value, fault_is_placed, value_is_spelled};
pub use nest::{Items, Nest};
use reader::Reader;
use std::alloc::Global;

/// Reads the one value that a text spells, or answers the first fault of the text.
///
/// The texts are a part of the list syntax of GAP (The GAP Group). A value is a number, in decimal
/// digits with leading zeros allowed, up to 4,294,967,295, or a list: `[` and `]` round values with
/// commas between them, or `[a..b]` for the numbers from a to b, of which there are none where b is
/// less than a. They have the place of the range's first number. After the value at most one `;` may
/// stand. Space, tab, carriage return and line feed are skipped between tokens, and so is a `#` with
/// what follows it on its line. At most eight lists lie in one another, and the ranges of a text make
/// at most 1,000,000 numbers.
///
/// The laws `value_is_spelled`, `fault_is_no_value` and `fault_is_placed` join the value that the
/// clauses name with this grammar.
pub fn parse(alloc: Global, text: &[u8]) -> Result<Nest, TextFault>
    requires { length text.now ≤ 67108864 }
    ensures value { IfOk result (λ nest. value_of text.now ≡ Ok (view nest)) }
    // Want of memory may be answered to any text.
    ensures fault { IfErr result (λ fault. fault ≢ TextFault.Memory → value_of text.now ≡ Err fault) }
{
    let mut reader = Reader::new(alloc);
    for (place, byte) in text.iter().enumerate() {
        reader.feed(place as u32, Class::of(*byte))?;
    }
    reader.into_value(text.len() as u32)
}
