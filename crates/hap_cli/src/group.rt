// The command `group`.
ghost use Rattle.std.specs.Prelude.{◌≡◌, ◌≤◌, ◌<◌, ◌++◌, length, slice_index_or, pos, codes, Ok};
ghost use Rattle.std.specs.Fmt.{signed_decimal};
ghost use Rattle.std.specs.List.{flat_map};
ghost use Rattle.hap_outside.specs.Causes.{HasCause};
ghost use Rattle.hap_outside.specs.Writes.{Writes};
ghost use Rattle.hap_outside.specs.Gathers.{Gathers};
ghost use Rattle.part_groups.specs.Groups.{groups_of};
ghost use Rattle.hap_words.specs.Asked.{group, input_of};
ghost use Rattle.hap_inputs.specs.Spaces.{only_regular, only_worded};
ghost use Rattle.hap_cli.specs.Answers.{Gives, GivesIf};
ghost use Rattle.hap_cli.specs.GroupTexts.{groups_text, component_lines, group_lines, generators_text, generator_line};
ghost use Rattle.hap_cli.specs.GroupTexts.{relators_text, relator_line, word_text, later_letters, counted_line};
ghost use Rattle.hap_cli.specs.GroupTexts.{numbered_text};

use crate::answer::Answer;
use face_poset::Space;
use hap_ends::Outcome;
use hap_inputs::{regular_space, space_of_bytes};
use hap_outside::{Failed, Held, Piece, Sink};
use hap_words::InputOptions;
use part_groups::{Group, groups_of};
use regular_check::Regular;
use std::alloc::Global;

/// The groups of the components of the regular space of the input.
pub fn answer_group(alloc: Global, options: &InputOptions, bytes: &[u8]) -> Result<Answer, Outcome>
    requires { length bytes.now ≤ 67108864 }
    ensures { Gives (group (input_of options.now)) bytes.now result }
{
    let space = space_of_bytes(alloc, options.input.kind, bytes)?;
    let groups = regular_groups(alloc, &space)?;
    Ok(Answer::Group(groups))
}

// The groups of the components of the space, or how the run ends where it is not regular or a word is too long.
fn regular_groups(alloc: Global, space: &Space) -> Result<Vec<Group>, Outcome>
    ensures { GivesIf (only_worded (only_regular (Ok space.now))) space.now
        (λ groups. groups.items ≡ groups_of space.now) result }
{
    let regular = regular_space(alloc, space)?;
    worded_groups(alloc, &regular)
}

// The groups of the components of the space, or how the run ends where a word is too long.
fn worded_groups(alloc: Global, regular: &Regular<'_>) -> Result<Vec<Group>, Outcome>
    ensures { GivesIf (only_worded (Ok regular.now)) regular.now
        (λ groups. groups.items ≡ groups_of regular.now) result }
{
    Ok(groups_of(alloc, regular)?)
}

/// Writes the groups of the components: of one its lines alone, of several the component before each.
pub fn write_groups<K: Sink>(out: &mut K, groups: &[Group]) -> Result<(), Failed>
    ensures bytes { Writes (K.written out.old) (K.written out.new) (groups_text groups.now) result }
    ensures cause { HasCause (K.faults out.old) (K.faults out.new) result }
{
    let mut held = Held::new();
    match put_groups(out, &mut held, groups) {
        Ok(()) => held.finish(out),
        Err(Failed) => Err(Failed),
    }
}

fn put_groups<K: Sink>(out: &mut K, held: &mut Held, groups: &[Group]) -> Result<(), Failed>
    ensures bytes { Gathers (K.written out.old) (K.written out.new) held.old held.new (groups_text groups.now) result }
    ensures cause { HasCause (K.faults out.old) (K.faults out.new) result }
{
    if groups.len() == 1 {
        put_group(out, held, &groups[0])
    } else {
        put_components(out, held, groups)
    }
}

fn put_components<K: Sink>(out: &mut K, held: &mut Held, groups: &[Group]) -> Result<(), Failed>
    ensures bytes { Gathers (K.written out.old) (K.written out.new) held.old held.new
        (numbered_text component_lines 1 groups.now) result }
    ensures cause { HasCause (K.faults out.old) (K.faults out.new) result }
{
    for index in 0..groups.len() {
        put_component(out, held, index + 1, &groups[index])?;
    }
    Ok(())
}

fn put_component<K: Sink>(
    out: &mut K,
    held: &mut Held,
    number: usize,
    group: &Group,
) -> Result<(), Failed>
    ensures bytes { Gathers (K.written out.old) (K.written out.new) held.old held.new
        (component_lines number group.now) result }
    ensures cause { HasCause (K.faults out.old) (K.faults out.new) result }
{
    put_count(out, held, b"component ", number)?;
    put_group(out, held, group)
}

fn put_group<K: Sink>(out: &mut K, held: &mut Held, group: &Group) -> Result<(), Failed>
    ensures bytes { Gathers (K.written out.old) (K.written out.new) held.old held.new (group_lines group.now) result }
    ensures cause { HasCause (K.faults out.old) (K.faults out.new) result }
{
    put_generators(out, held, group.edges())?;
    put_relators(out, held, group)
}

fn put_generators<K: Sink>(out: &mut K, held: &mut Held, edges: &[u32]) -> Result<(), Failed>
    ensures bytes { Gathers (K.written out.old) (K.written out.new) held.old held.new
        (generators_text edges.now) result }
    ensures cause { HasCause (K.faults out.old) (K.faults out.new) result }
{
    put_count(out, held, b"generators ", edges.len())?;
    put_each_generator(out, held, edges)
}

fn put_each_generator<K: Sink>(out: &mut K, held: &mut Held, edges: &[u32]) -> Result<(), Failed>
    ensures bytes { Gathers (K.written out.old) (K.written out.new) held.old held.new
        (numbered_text generator_line 1 edges.now) result }
    ensures cause { HasCause (K.faults out.old) (K.faults out.new) result }
{
    for index in 0..edges.len() {
        put_generator(out, held, index + 1, edges[index])?;
    }
    Ok(())
}

fn put_generator<K: Sink>(
    out: &mut K,
    held: &mut Held,
    number: usize,
    edge: u32,
) -> Result<(), Failed>
    ensures bytes { Gathers (K.written out.old) (K.written out.new) held.old held.new
        (generator_line number edge) result }
    ensures cause { HasCause (K.faults out.old) (K.faults out.new) result }
{
    let number = Piece::Count(number as u64);
    let edge = Piece::Count(u64::from(edge));
    held.put(
        out,
        &[
            Piece::Text(b"generator "),
            number,
            Piece::Text(b" "),
            edge,
            Piece::Text(b"\n"),
        ],
    )
}

fn put_relators<K: Sink>(out: &mut K, held: &mut Held, group: &Group) -> Result<(), Failed>
    ensures bytes { Gathers (K.written out.old) (K.written out.new) held.old held.new
        (relators_text group.now.relators) result }
    ensures cause { HasCause (K.faults out.old) (K.faults out.new) result }
{
    put_count(out, held, b"relators ", group.relators() as usize)?;
    put_each_relator(out, held, group)
}

fn put_each_relator<K: Sink>(out: &mut K, held: &mut Held, group: &Group) -> Result<(), Failed>
    ensures bytes { Gathers (K.written out.old) (K.written out.new) held.old held.new
        (flat_map relator_line group.now.relators) result }
    ensures cause { HasCause (K.faults out.old) (K.faults out.new) result }
{
    for index in 0..group.relators() {
        put_relator(out, held, group.relator(index))?;
    }
    Ok(())
}

fn put_relator<K: Sink>(out: &mut K, held: &mut Held, word: &[i32]) -> Result<(), Failed>
    ensures bytes { Gathers (K.written out.old) (K.written out.new) held.old held.new (relator_line word.now) result }
    ensures cause { HasCause (K.faults out.old) (K.faults out.new) result }
{
    held.put(out, &[Piece::Text(b"relator ")])?;
    put_word(out, held, word)?;
    held.put(out, &[Piece::Text(b"\n")])
}

fn put_word<K: Sink>(out: &mut K, held: &mut Held, word: &[i32]) -> Result<(), Failed>
    ensures bytes { Gathers (K.written out.old) (K.written out.new) held.old held.new (word_text word.now) result }
    ensures cause { HasCause (K.faults out.old) (K.faults out.new) result }
{
    match word {
        [] => held.put(out, &[Piece::Text(b"-")]),
        [_, rest @ ..] => put_letters(out, held, word, rest),
    }
}

// The letters, each but the first with a space before it.
fn put_letters<K: Sink>(
    out: &mut K,
    held: &mut Held,
    word: &[i32],
    rest: &[i32],
) -> Result<(), Failed>
    requires { 1 ≤ length word.now }
    ensures bytes { Gathers (K.written out.old) (K.written out.new) held.old held.new
        (signed_decimal (slice_index_or word.now 0 (pos 0)) ++ later_letters rest.now) result }
    ensures cause { HasCause (K.faults out.old) (K.faults out.new) result }
{
    put_letter(out, held, word, 0)?;
    put_later(out, held, rest)
}

fn put_letter<K: Sink>(
    out: &mut K,
    held: &mut Held,
    letters: &[i32],
    index: usize,
) -> Result<(), Failed>
    requires { index < length letters.now }
    ensures bytes { Gathers (K.written out.old) (K.written out.new) held.old held.new
        (signed_decimal (slice_index_or letters.now index (pos 0))) result }
    ensures cause { HasCause (K.faults out.old) (K.faults out.new) result }
{
    held.put(out, &[Piece::Number(i128::from(letters[index]))])
}

fn put_later<K: Sink>(out: &mut K, held: &mut Held, letters: &[i32]) -> Result<(), Failed>
    ensures bytes { Gathers (K.written out.old) (K.written out.new) held.old held.new
        (later_letters letters.now) result }
    ensures cause { HasCause (K.faults out.old) (K.faults out.new) result }
{
    for index in 0..letters.len() {
        put_later_letter(out, held, letters, index)?;
    }
    Ok(())
}

fn put_later_letter<K: Sink>(
    out: &mut K,
    held: &mut Held,
    letters: &[i32],
    index: usize,
) -> Result<(), Failed>
    requires { index < length letters.now }
    ensures bytes { Gathers (K.written out.old) (K.written out.new) held.old held.new
        (codes " " ++ signed_decimal (slice_index_or letters.now index (pos 0))) result }
    ensures cause { HasCause (K.faults out.old) (K.faults out.new) result }
{
    held.put(out, &[Piece::Text(b" ")])?;
    put_letter(out, held, letters, index)
}

/// Puts words and a number.
pub(crate) fn put_count<K: Sink>(
    out: &mut K,
    held: &mut Held,
    words: &[u8],
    count: usize,
) -> Result<(), Failed>
    ensures bytes { Gathers (K.written out.old) (K.written out.new) held.old held.new
        (counted_line words.now count) result }
    ensures cause { HasCause (K.faults out.old) (K.faults out.new) result }
{
    let count = Piece::Count(count as u64);
    held.put(out, &[Piece::Text(words), count, Piece::Text(b"\n")])
}
