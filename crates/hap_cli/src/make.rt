// The command `make`.
ghost use Rattle.std.specs.Prelude.{◌≡◌, ◌≤◌, ◌+◌, ◌++◌, true, Ok};
ghost use Rattle.small_field.specs.Modulus.{field_of, is_modulus};
ghost use Rattle.tuple_spaces.specs.Torus.{torus_of};
ghost use Rattle.hap_outside.specs.Causes.{HasCause};
ghost use Rattle.hap_outside.specs.Writes.{Writes};
ghost use Rattle.hap_words.specs.Asked.{make, make_of};
ghost use Rattle.hap_words.specs.Ranges.{is_in_range};
ghost use Rattle.order_complex.specs.Numbers.{AreBetti};
ghost use Rattle.hap_inputs.specs.Spaces.{only_few};
ghost use Rattle.hap_cli.specs.Answers.{torus_text, cells_text, chains_text, betti_text, summary_text};
ghost use Rattle.hap_cli.specs.Answers.{chain_numbers, Gives, GivesIf, IsSummary};
ghost use Rattle.hap_cli.specs.Counting.{Counts, entries_of};

use crate::answer::Answer;
use crate::betti::{MOST_CHAINS, write_betti};
use crate::cells::write_cells;
use face_poset::Space;
use hap_ends::Outcome;
use hap_outside::{Failed, Piece, Sink, write_pieces};
use hap_words::MakeOptions;
use order_complex::{Betti, Chains};
use reduced_betti::betti_modulo;
use std::alloc::Global;
use std::sync::ledger::Ledger;
use step_count::Steps;
use tuple_spaces::torus;

/// What is told of a 3-torus of a size.
#[derive(Drop)]
pub struct Summary {
    pub size: u32,
    pub space: Space,
    pub chains: ChainNumbers,
    pub numbers: Betti,
}

/// How many chains of each degree the order complex of a space has.
#[derive(Clone, Copy)]
pub struct ChainNumbers {
    pub zero: u32,
    pub one: u32,
    pub two: u32,
    pub three: u32,
}

/// The 3-torus of the size, or with a modulus what is told of it.
pub fn answer_make<L: Ledger>(
    alloc: Global,
    options: &MakeOptions,
    bytes: &[u8],
    steps: &mut Steps<L>,
) -> Result<Answer, Outcome>
    requires { is_in_range (make (make_of options.now)) ≡ true }
    ensures answer { Gives (make (make_of options.now)) bytes.now result }
    ensures steps { Counts (make (make_of options.now)) bytes.now steps.old steps.new }
{
    let space = torus(alloc, options.size)?;
    match options.modulus {
        None => Ok(Answer::Boundaries(space)),
        Some(modulus) => Ok(Answer::Summary(summarize(
            alloc,
            options.size,
            modulus,
            space,
            steps,
        )?)),
    }
}

// What is told of the 3-torus of a size, or how the run ends where it has too many chains.
fn summarize<L: Ledger>(
    alloc: Global,
    size: u32,
    modulus: u8,
    space: Space,
    steps: &mut Steps<L>,
) -> Result<Summary, Outcome>
    requires space { space ≡ torus_of size }
    requires modulus { is_modulus modulus ≡ true }
    ensures summary { GivesIf (only_few (Ok (torus_of size))) (torus_of size) (IsSummary size modulus) result }
    ensures steps { steps.new ≤ steps.old + entries_of (only_few (Ok (torus_of size))) }
{
    match chains_and_betti(alloc, &space, modulus, steps) {
        Ok((chains, numbers)) => Ok(Summary {
            size,
            space,
            chains,
            numbers,
        }),
        Err(outcome) => Err(outcome),
    }
}

// How many chains of each degree the space has, and its Betti numbers.
fn chains_and_betti<L: Ledger>(
    alloc: Global,
    space: &Space,
    modulus: u8,
    steps: &mut Steps<L>,
) -> Result<(ChainNumbers, Betti), Outcome>
    requires { is_modulus modulus ≡ true }
    ensures numbers { GivesIf (only_few (Ok space.now)) space.now
        (λ told. (told.0 ≡ chain_numbers space.now) × AreBetti (field_of modulus) space.now told.1) result }
    ensures steps { steps.new ≤ steps.old + entries_of (only_few (Ok space.now)) }
{
    let chains = Chains::new(alloc, space, MOST_CHAINS)?;
    let numbers = betti_modulo(alloc, &chains, modulus, steps)?;
    Ok((numbers_of(&chains), numbers))
}

fn numbers_of(chains: &Chains<'_>) -> ChainNumbers
    ensures { result ≡ chain_numbers chains.now }
{
    ChainNumbers {
        zero: chains.len(0),
        one: chains.len(1),
        two: chains.len(2),
        three: chains.len(3),
    }
}

/// Writes the summary of a torus.
pub fn write_summary<K: Sink>(out: &mut K, summary: &Summary) -> Result<(), Failed>
    ensures bytes { Writes (K.written out.old) (K.written out.new) (summary_text summary.now) result }
    ensures cause { HasCause (K.faults out.old) (K.faults out.new) result }
{
    write_torus(out, summary.size, &summary.space)?;
    write_homology(out, summary.chains, &summary.numbers)
}

// Writes the size of a torus and its cells.
fn write_torus<K: Sink>(out: &mut K, size: u32, space: &Space) -> Result<(), Failed>
    ensures bytes { Writes (K.written out.old) (K.written out.new) (torus_text size ++ cells_text space.now) result }
    ensures cause { HasCause (K.faults out.old) (K.faults out.new) result }
{
    let size = Piece::Count(u64::from(size));
    write_pieces(out, &[Piece::Text(b"torus "), size, Piece::Text(b"\n")])?;
    write_cells(out, space)
}

// Writes how many chains there are, and their Betti numbers.
fn write_homology<K: Sink>(out: &mut K, chains: ChainNumbers, numbers: &Betti) -> Result<(), Failed>
    ensures bytes { Writes (K.written out.old) (K.written out.new) (chains_text chains ++ betti_text numbers.now)
        result }
    ensures cause { HasCause (K.faults out.old) (K.faults out.new) result }
{
    write_chains(out, chains)?;
    write_betti(out, numbers)
}

// Writes how many chains of each degree there are.
fn write_chains<K: Sink>(out: &mut K, chains: ChainNumbers) -> Result<(), Failed>
    ensures bytes { Writes (K.written out.old) (K.written out.new) (chains_text chains) result }
    ensures cause { HasCause (K.faults out.old) (K.faults out.new) result }
{
    let points = Piece::Count(u64::from(chains.zero));
    let edges = Piece::Count(u64::from(chains.one));
    let triangles = Piece::Count(u64::from(chains.two));
    let tetrahedra = Piece::Count(u64::from(chains.three));
    write_pieces(
        out,
        &[
            Piece::Text(b"chains "),
            points,
            Piece::Text(b" "),
            edges,
            Piece::Text(b" "),
            triangles,
            Piece::Text(b" "),
            tetrahedra,
            Piece::Text(b"\n"),
        ],
    )
}
