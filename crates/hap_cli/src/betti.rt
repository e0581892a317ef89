// The command `betti`.
ghost use Rattle.std.specs.Prelude.{◌≡◌, ◌≤◌, ◌+◌, true, length, Ok};
ghost use Rattle.small_field.specs.Modulus.{field_of, is_modulus};
ghost use Rattle.order_complex.specs.Numbers.{AreBetti};
ghost use Rattle.hap_outside.specs.Causes.{HasCause};
ghost use Rattle.hap_outside.specs.Writes.{Writes};
ghost use Rattle.hap_words.specs.Asked.{betti, field_of as field_asked};
ghost use Rattle.hap_inputs.specs.Spaces.{only_few, only_regular};
ghost use Rattle.hap_cli.specs.Answers.{betti_text, Gives, GivesIf};
ghost use Rattle.hap_cli.specs.Counting.{Counts, entries_of};

use crate::answer::Answer;
use face_poset::Space;
use hap_ends::Outcome;
use hap_inputs::{regular_space, space_of_bytes};
use hap_outside::{Failed, Piece, Sink, write_pieces};
use hap_words::FieldOptions;
use order_complex::Betti;
use reduced_betti::betti_of;
use std::alloc::Global;
use std::sync::ledger::Ledger;
use step_count::Steps;

/// How many chains the order complex of a space may have.
pub const MOST_CHAINS: u32 = 700_000;

/// The Betti numbers of the regular space of the input.
pub fn answer_betti<L: Ledger>(
    alloc: Global,
    options: &FieldOptions,
    bytes: &[u8],
    steps: &mut Steps<L>,
) -> Result<Answer, Outcome>
    requires few { length bytes.now ≤ 67108864 }
    requires modulus { is_modulus options.now.modulus ≡ true }
    ensures answer { Gives (betti (field_asked options.now)) bytes.now result }
    ensures steps { Counts (betti (field_asked options.now)) bytes.now steps.old steps.new }
{
    let space = space_of_bytes(alloc, options.input.kind, bytes)?;
    let numbers = regular_betti(alloc, &space, options.modulus, steps)?;
    Ok(Answer::Betti(numbers))
}

// The Betti numbers of the order complex of the space, or how the run ends where it is not regular or has too many
// chains.
fn regular_betti<L: Ledger>(
    alloc: Global,
    space: &Space,
    modulus: u8,
    steps: &mut Steps<L>,
) -> Result<Betti, Outcome>
    requires { is_modulus modulus ≡ true }
    ensures numbers { GivesIf (only_few (only_regular (Ok space.now))) space.now (AreBetti (field_of modulus) space.now)
        result }
    ensures steps { steps.new ≤ steps.old + entries_of (only_few (only_regular (Ok space.now))) }
{
    let regular = regular_space(alloc, space)?;
    few_betti(alloc, regular.space(), modulus, steps)
}

/// The Betti numbers of the order complex of the space, or how the run ends where it has too many chains.
pub(crate) fn few_betti<L: Ledger>(
    alloc: Global,
    space: &Space,
    modulus: u8,
    steps: &mut Steps<L>,
) -> Result<Betti, Outcome>
    requires { is_modulus modulus ≡ true }
    ensures numbers { GivesIf (only_few (Ok space.now)) space.now (AreBetti (field_of modulus) space.now) result }
    ensures steps { steps.new ≤ steps.old + entries_of (only_few (Ok space.now)) }
{
    Ok(betti_of(alloc, space, modulus, MOST_CHAINS, steps)?)
}

/// Writes the Betti numbers.
pub fn write_betti<K: Sink>(out: &mut K, numbers: &Betti) -> Result<(), Failed>
    ensures bytes { Writes (K.written out.old) (K.written out.new) (betti_text numbers.now) result }
    ensures cause { HasCause (K.faults out.old) (K.faults out.new) result }
{
    let zero = Piece::Count(u64::from(numbers.zero));
    let one = Piece::Count(u64::from(numbers.one));
    let two = Piece::Count(u64::from(numbers.two));
    let three = Piece::Count(u64::from(numbers.three));
    write_pieces(
        out,
        &[
            Piece::Text(b"betti "),
            zero,
            Piece::Text(b" "),
            one,
            Piece::Text(b" "),
            two,
            Piece::Text(b" "),
            three,
            Piece::Text(b"\n"),
        ],
    )
}
