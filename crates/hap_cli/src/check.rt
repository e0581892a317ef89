// The command `check`.
ghost use Rattle.std.specs.Prelude.{◌≡◌, ◌≤◌, length, Ok};
ghost use Rattle.hap_outside.specs.Causes.{HasCause};
ghost use Rattle.hap_outside.specs.Writes.{Writes};
ghost use Rattle.hap_words.specs.Asked.{check, input_of};
ghost use Rattle.regular_check.specs.Components.{component_count};
ghost use Rattle.hap_inputs.specs.Spaces.{only_regular};
ghost use Rattle.hap_cli.specs.Answers.{components_text, Gives, GivesIf};

use crate::answer::Answer;
use crate::cells::write_cells;
use face_poset::Space;
use hap_ends::Outcome;
use hap_inputs::{regular_space, space_of_bytes};
use hap_outside::{Failed, Piece, Sink, write_pieces};
use hap_words::InputOptions;
use std::alloc::Global;

/// The regular space of the input, and how many components it has.
pub fn answer_check(alloc: Global, options: &InputOptions, bytes: &[u8]) -> Result<Answer, Outcome>
    requires { length bytes.now ≤ 67108864 }
    ensures { Gives (check (input_of options.now)) bytes.now result }
{
    let space = space_of_bytes(alloc, options.input.kind, bytes)?;
    let components = count_components(alloc, &space)?;
    Ok(Answer::Check(space, components))
}

// How many components the space has, or how the run ends where it is not regular.
fn count_components(alloc: Global, space: &Space) -> Result<u32, Outcome>
    ensures { GivesIf (only_regular (Ok space.now)) space.now (λ n. n ≡ component_count space.now) result }
{
    let regular = regular_space(alloc, space)?;
    let components = regular.components(alloc)?;
    Ok(components.count())
}

/// Writes the cells of a regular space, and how many components it has.
pub fn write_check<K: Sink>(out: &mut K, space: &Space, components: u32) -> Result<(), Failed>
    ensures bytes { Writes (K.written out.old) (K.written out.new) (components_text space.now components) result }
    ensures cause { HasCause (K.faults out.old) (K.faults out.new) result }
{
    write_cells(out, space)?;
    let components = Piece::Count(u64::from(components));
    write_pieces(
        out,
        &[
            Piece::Text(b"regular\n"),
            Piece::Text(b"components "),
            components,
            Piece::Text(b"\n"),
        ],
    )
}
