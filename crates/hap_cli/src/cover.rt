// The command `cover`.
ghost use Rattle.std.specs.Prelude.{◌≡◌, ◌≤◌, ◌+◌, true, length, Ok};
ghost use Rattle.small_field.specs.Modulus.{field_of, is_modulus};
ghost use Rattle.face_poset.specs.Laws.{ReadsAs};
ghost use Rattle.face_poset.specs.Text.{boundary_text};
ghost use Rattle.order_complex.specs.Numbers.{AreBetti};
ghost use Rattle.part_covers.specs.Covered.{IsWanted};
ghost use Rattle.hap_outside.specs.Causes.{HasCause};
ghost use Rattle.hap_outside.specs.Writes.{Writes};
ghost use Rattle.hap_outside.specs.Gathers.{Gathers};
ghost use Rattle.hap_words.specs.Asked.{cover, cover_of};
ghost use Rattle.hap_words.specs.Ranges.{is_in_range};
ghost use Rattle.hap_inputs.specs.Spaces.{only_few, only_regular, regular_in, wanted_by};
ghost use Rattle.hap_cli.specs.Answers.{text_of, told_cover_text, Gives, GivesIf, GivesCover};
ghost use Rattle.hap_cli.specs.Counting.{Counts, entries_of};
ghost use Rattle.hap_cli.specs.OneCover.{cells_line, cover_front};

use crate::answer::Answer;
use crate::betti::{few_betti, write_betti};
use certificates::put_cover;
use face_poset::{Graded, Space, text_reads_back};
use hap_ends::Outcome;
use hap_inputs::{regular_space, space_of_bytes};
use hap_outside::{Failed, Held, Piece, Sink};
use hap_words::CoverOptions;
use order_complex::Betti;
use part_covers::{Cover, Wanted, numbered_cover};
use std::alloc::Global;
use std::sync::ledger::Ledger;
use step_count::Steps;

/// A cover with the Betti numbers of its total space.
#[derive(Drop)]
pub struct ToldCover {
    pub cover: Cover,
    pub numbers: Betti,
}

/// The total space of the cover that is asked for, or with a modulus what is told of it.
pub fn answer_cover<L: Ledger>(
    alloc: Global,
    options: &CoverOptions,
    bytes: &[u8],
    steps: &mut Steps<L>,
) -> Result<Answer, Outcome>
    requires few { length bytes.now ≤ 67108864 }
    requires ranges { is_in_range (cover (cover_of options.now)) ≡ true }
    ensures answer { Gives (cover (cover_of options.now)) bytes.now result }
    ensures steps { Counts (cover (cover_of options.now)) bytes.now steps.old steps.new }
{
    let found = cover_of_bytes(alloc, options, bytes)?;
    match options.modulus {
        None => Ok(total_of_cover(found)),
        Some(modulus) => Ok(Answer::Cover(told_of_cover(alloc, found, modulus, steps)?)),
    }
}

// The cover that is asked for of the regular space of the input, or how the run ends without it.
fn cover_of_bytes(alloc: Global, options: &CoverOptions, bytes: &[u8]) -> Result<Cover, Outcome>
    requires few { length bytes.now ≤ 67108864 }
    requires ranges { is_in_range (cover (cover_of options.now)) ≡ true }
    ensures { GivesCover (regular_in options.now.input.kind bytes.now) (wanted_by (cover_of options.now)) result }
{
    let space = space_of_bytes(alloc, options.input.kind, bytes)?;
    cover_of_space(alloc, &space, wanted_of(options))
}

// Which cover is asked for.
fn wanted_of(options: &CoverOptions) -> Wanted
    requires { is_in_range (cover (cover_of options.now)) ≡ true }
    ensures wanted { result ≡ wanted_by (cover_of options.now) }
    ensures ranges { IsWanted result }
{
    Wanted {
        component: options.component,
        sheets: options.sheets,
        index: options.index,
        budget: options.budget,
    }
}

// The cover that is wanted of the space, or how the run ends where it is not regular or has none.
fn cover_of_space(alloc: Global, space: &Space, wanted: Wanted) -> Result<Cover, Outcome>
    requires { IsWanted wanted }
    ensures { GivesCover (only_regular (Ok space.now)) wanted result }
{
    let regular = regular_space(alloc, space)?;
    Ok(numbered_cover(alloc, &regular, wanted)?)
}

// The total space of a cover as an answer, whose text reads back as the space.
fn total_of_cover(found: Cover) -> Answer
    ensures text { text_of result ≡ boundary_text found.total }
    ensures reads { ReadsAs (boundary_text found.total) found.total }
{
    text_reads_back();
    let _vertices = found.total().cells(0);
    Answer::Boundaries(found.into_total())
}

// The cover with the Betti numbers of its total space, or how the run ends where that has too many chains.
fn told_of_cover<L: Ledger>(
    alloc: Global,
    found: Cover,
    modulus: u8,
    steps: &mut Steps<L>,
) -> Result<ToldCover, Outcome>
    requires { is_modulus modulus ≡ true }
    ensures told { GivesIf (only_few (Ok found.total)) found.total
        (λ told. (told.cover ≡ found) × AreBetti (field_of modulus) found.total told.numbers) result }
    ensures steps { steps.new ≤ steps.old + entries_of (only_few (Ok found.total)) }
{
    match few_betti(alloc, found.total(), modulus, steps) {
        Ok(numbers) => Ok(ToldCover {
            cover: found,
            numbers,
        }),
        Err(outcome) => Err(outcome),
    }
}

/// Writes the table of a cover, and the cells and the Betti numbers of its total space.
pub fn write_told_cover<K: Sink>(out: &mut K, told: &ToldCover) -> Result<(), Failed>
    ensures bytes { Writes (K.written out.old) (K.written out.new) (told_cover_text told.now) result }
    ensures cause { HasCause (K.faults out.old) (K.faults out.new) result }
{
    write_cover_front(out, &told.cover)?;
    write_betti(out, &told.numbers)
}

// Writes the table of a cover, and the cells of its total space.
fn write_cover_front<K: Sink>(out: &mut K, found: &Cover) -> Result<(), Failed>
    ensures bytes { Writes (K.written out.old) (K.written out.new) (cover_front found.now) result }
    ensures cause { HasCause (K.faults out.old) (K.faults out.new) result }
{
    let mut held = Held::new();
    match put_cover_front(out, &mut held, found) {
        Ok(()) => held.finish(out),
        Err(Failed) => Err(Failed),
    }
}

fn put_cover_front<K: Sink>(out: &mut K, held: &mut Held, found: &Cover) -> Result<(), Failed>
    ensures bytes { Gathers (K.written out.old) (K.written out.new) held.old held.new (cover_front found.now) result }
    ensures cause { HasCause (K.faults out.old) (K.faults out.new) result }
{
    put_cover(out, held, found.table())?;
    put_cells(out, held, found.total())
}

// Puts how many cells each dimension has.
fn put_cells<K: Sink>(out: &mut K, held: &mut Held, space: &Space) -> Result<(), Failed>
    ensures bytes { Gathers (K.written out.old) (K.written out.new) held.old held.new (cells_line space.now) result }
    ensures cause { HasCause (K.faults out.old) (K.faults out.new) result }
{
    let vertices = Piece::Count(u64::from(space.cells(0)));
    let edges = Piece::Count(u64::from(space.cells(1)));
    let faces = Piece::Count(u64::from(space.cells(2)));
    let solids = Piece::Count(u64::from(space.cells(3)));
    held.put(
        out,
        &[
            Piece::Text(b"cells "),
            vertices,
            Piece::Text(b" "),
            edges,
            Piece::Text(b" "),
            faces,
            Piece::Text(b" "),
            solids,
            Piece::Text(b"\n"),
        ],
    )
}
