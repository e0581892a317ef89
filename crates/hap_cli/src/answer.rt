// What a command answers, as a value.
ghost use Rattle.std.specs.Prelude.{◌≡◌, ◌≤◌, true, false, length};
ghost use Rattle.hap_outside.specs.Causes.{HasCause};
ghost use Rattle.hap_outside.specs.Writes.{Writes};
ghost use Rattle.hap_words.specs.Asked.{asked_of};
ghost use Rattle.hap_words.specs.Ranges.{is_in_range};
ghost use Rattle.hap_words.specs.Table.{is_built};
ghost use Rattle.hap_cli.specs.Answers.{text_of, Gives};
ghost use Rattle.hap_cli.specs.Counting.{Counts};
ghost use Rattle.hap_cli.specs.Ends.{writes_while};

use crate::betti::{answer_betti, write_betti};
use crate::cells::{answer_cells, write_cells};
use crate::check::{answer_check, write_check};
use crate::cover::{ToldCover, answer_cover, write_told_cover};
use crate::group::{answer_group, write_groups};
use crate::make::{Summary, answer_make, write_summary};
use face_poset::Space;
use hap_ends::Outcome;
use hap_outside::{Failed, Sink};
use hap_words::Command;
use order_complex::Betti;
use part_groups::Group;
use std::alloc::Global;
use std::sync::ledger::Ledger;
use step_count::Steps;

/// What a command answers.
#[derive(Drop)]
pub enum Answer {
    /// How many cells the space has.
    Cells(Space),
    /// The same of a regular space, and how many components it has.
    Check(Space, u32),
    /// The Betti numbers of a space.
    Betti(Betti),
    /// The groups of the components of a space.
    Group(Vec<Group>),
    /// A cover, with the Betti numbers of its total space.
    Cover(ToldCover),
    /// The boundary lists of a space.
    Boundaries(Space),
    /// What `make` tells of a 3-torus with a modulus.
    Summary(Summary),
}

/// What the command answers on the bytes of its input, or how the run ends without an answer.
pub fn answer_to<L: Ledger>(
    alloc: Global,
    command: &Command,
    bytes: &[u8],
    steps: &mut Steps<L>,
) -> Result<Answer, Outcome>
    requires few { length bytes.now ≤ 67108864 }
    requires built { is_built (asked_of command.now) ≡ true }
    requires ranges { is_in_range (asked_of command.now) ≡ true }
    requires before { writes_while (asked_of command.now) ≡ false }
    ensures answer { Gives (asked_of command.now) bytes.now result }
    ensures steps { Counts (asked_of command.now) bytes.now steps.old steps.new }
{
    match command {
        Command::Cells(options) => answer_cells(alloc, options, bytes),
        Command::Check(options) => answer_check(alloc, options, bytes),
        Command::Betti(options) => answer_betti(alloc, options, bytes, steps),
        Command::Group(options) => answer_group(alloc, options, bytes),
        Command::Cover(options) => answer_cover(alloc, options, bytes, steps),
        Command::Make(options) => answer_make(alloc, options, bytes, steps),
        _ => Err(Outcome::Usage),
    }
}

/// Writes the text of the answer.
pub fn write_answer<K: Sink>(out: &mut K, answer: &Answer) -> Result<(), Failed>
    ensures bytes { Writes (K.written out.old) (K.written out.new) (text_of answer.now) result }
    ensures cause { HasCause (K.faults out.old) (K.faults out.new) result }
{
    match answer {
        Answer::Cells(space) => write_cells(out, space),
        Answer::Check(space, components) => write_check(out, space, *components),
        Answer::Betti(numbers) => write_betti(out, numbers),
        Answer::Group(groups) => write_groups(out, groups),
        Answer::Cover(told) => write_told_cover(out, told),
        Answer::Boundaries(space) => space.print(out),
        Answer::Summary(summary) => write_summary(out, summary),
    }
}
