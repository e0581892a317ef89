// The command `covers`, which writes while it searches.
ghost use Rattle.std.specs.Prelude.{◌≡◌, ◌≢◌, ◌≤◌, ◌<◌, ◌+◌, ◌++◌, false, true, map, length, codes, Some, IfOk, Ok};
ghost use Rattle.std.specs.Prelude.{decimal};
ghost use Rattle.std.specs.List.{flat_map};
ghost use Rattle.hap_outside.specs.Causes.{Rose, HasCause};
ghost use Rattle.hap_outside.specs.Writes.{Writes};
ghost use Rattle.hap_outside.specs.Gathers.{Gathers};
ghost use Rattle.edge_words.specs.Words.{relations_of};
ghost use Rattle.cover_listing.specs.Listings.{listing, spot_at, spot_in};
ghost use Rattle.hap_words.specs.Asked.{covers, covers_of, spot_of};
ghost use Rattle.hap_words.specs.Ranges.{is_in_range};
ghost use Rattle.hap_inputs.specs.Spaces.{only_regular, only_worded_from, regular_in};
ghost use Rattle.hap_cli.specs.Ends.{EndsOn, may_write};
ghost use Rattle.hap_cli.specs.CoverTexts.{component_front, counts_text, ending_text, listing_text};
ghost use Rattle.hap_cli.specs.CoverTexts.{ended_outcome, IsPlan, Lists};

use crate::group::put_count;
use certificates::{put_cover, put_spot};
use cover_listing::{Ending, Listing, Taker};
use edge_words::Presentation;
use face_poset::{Graded, Space};
use hap_ends::Outcome;
use hap_inputs::{regular_space, space_of_bytes};
use hap_outside::{Failed, Held, Piece, Sink};
use hap_words::CoversOptions;
use part_groups::presentations_from;
use regular_check::Regular;
use sheet_tables::{Spot, Table};
use std::alloc::Global;
use std::mem::drop;

/// What a listing is made from: the presentations of the parts of the components from one on, and whether the space
/// has more than one component.
#[derive(Drop)]
pub struct CoverPlan {
    presentations: Vec<Presentation>,
    several: bool,
}

/// The lines of what a listing hands on, with the number of each component where there are several.
#[derive(Drop)]
pub struct CoverLines {
    several: bool,
}

/// Lists the covers of the components of the regular space of the input, and writes them as they are found.
pub fn perform_covers<K: Sink>(
    alloc: Global,
    options: &CoversOptions,
    bytes: &[u8],
    out: &mut K,
) -> Outcome
    requires few { length bytes.now ≤ 16777216 }
    requires ranges { is_in_range (covers (covers_of options.now)) ≡ true }
    ensures cause { EndsOn (covers (covers_of options.now)) bytes.now (Rose (K.faults out.old) (K.faults out.new))
        (K.written out.old) (K.written out.new) result }
    ensures read { result ≢ Outcome.ReadFault }
    ensures write_told { K.faults out.old < K.faults out.new → result ≡ Outcome.WriteFault }
    ensures nothing { may_write result ≡ false → out.new ≡ out.old }
{
    match plan_covers(alloc, options, bytes) {
        Ok(plan) => {
            let outcome = list_covers(alloc, &plan, options, out);
            drop(plan);
            outcome
        }
        Err(outcome) => outcome,
    }
}

// The presentations for the listing, or how the run ends without them.
fn plan_covers(alloc: Global, options: &CoversOptions, bytes: &[u8]) -> Result<CoverPlan, Outcome>
    requires { length bytes.now ≤ 16777216 }
    ensures { IsPlan (only_worded_from options.now.from.component (regular_in options.now.input.kind bytes.now))
        options.now.from.component result }
{
    let space = space_of_bytes(alloc, options.input.kind, bytes)?;
    plan_of_space(alloc, &space, options.from.component())
}

fn plan_of_space(alloc: Global, space: &Space, first: u32) -> Result<CoverPlan, Outcome>
    requires least { 1 ≤ first }
    requires most { first ≤ 60000 }
    ensures { IsPlan (only_worded_from first (only_regular (Ok space.now))) first result }
{
    let regular = regular_space(alloc, space)?;
    plan_of_regular(alloc, &regular, first)
}

fn plan_of_regular(alloc: Global, regular: &Regular<'_>, first: u32) -> Result<CoverPlan, Outcome>
    requires least { 1 ≤ first }
    requires most { first ≤ 60000 }
    ensures { IsPlan (only_worded_from first (Ok regular.now)) first result }
{
    let _vertices = regular.space().cells(0);
    let presentations = presentations_from(alloc, regular, first)?;
    let components = regular.components(alloc)?;
    Ok(CoverPlan {
        presentations,
        several: components.count() > 1,
    })
}

// Lists what is planned, where the listing may begin.
fn list_covers<K: Sink>(
    alloc: Global,
    plan: &CoverPlan,
    options: &CoversOptions,
    out: &mut K,
) -> Outcome
    requires ranges { is_in_range (covers (covers_of options.now)) ≡ true }
    requires few { options.now.from.component + length plan.now.presentations.items ≤ 60001 }
    ensures lists { Lists plan.now.several (map relations_of plan.now.presentations.items) (covers_of options.now)
        (Rose (K.faults out.old) (K.faults out.new)) (K.written out.old) (K.written out.new) result }
    ensures write_told { K.faults out.old < K.faults out.new → result ≡ Outcome.WriteFault }
    ensures nothing { may_write result ≡ false → out.new ≡ out.old }
{
    match Listing::new(alloc, &plan.presentations, options.sheets, &options.from) {
        Ok(listing) => ended(write_listing(out, listing, plan.several, options.budget)),
        Err(fault) => Outcome::from(fault),
    }
}

// How a run ends after its listing was written.
fn ended(answer: Result<Ending, Failed>) -> Outcome
    ensures { result ≡ ended_outcome answer }
{
    match answer {
        Ok(Ending::Done) => Outcome::Done,
        Ok(Ending::Spent(spot)) => Outcome::Spent(spot),
        Err(Failed) => Outcome::WriteFault,
    }
}

// Writes the listing as it is found, and how it ended.
fn write_listing<K: Sink>(
    out: &mut K,
    planned: Listing<'_>,
    several: bool,
    budget: u64,
) -> Result<Ending, Failed>
    requires { 1 ≤ budget }
    ensures bytes { Writes (K.written out.old) (K.written out.new)
        (listing_text several planned.entry.parts planned.entry.most planned.entry.from budget) result }
    ensures cause { HasCause (K.faults out.old) (K.faults out.new) result }
    ensures ending { IfOk result
        (λ ending. spot_in ending ≡ (listing planned.entry.parts planned.entry.most planned.entry.from budget).spent) }
{
    let mut held = Held::new();
    match put_listing(out, &mut held, planned, several, budget) {
        Ok(ending) => finish(out, &mut held, ending),
        Err(Failed) => Err(Failed),
    }
}

// Hands on what is held back behind the text of a listing.
fn finish<K: Sink>(out: &mut K, held: &mut Held, ending: Ending) -> Result<Ending, Failed>
    ensures bytes { Writes (K.written out.old) (K.written out.new) held.old result }
    ensures cause { HasCause (K.faults out.old) (K.faults out.new) result }
    ensures ending { IfOk result (λ e. e ≡ ending) }
{
    match held.finish(out) {
        Ok(()) => Ok(ending),
        Err(Failed) => Err(Failed),
    }
}

fn put_listing<K: Sink>(
    out: &mut K,
    held: &mut Held,
    planned: Listing<'_>,
    several: bool,
    budget: u64,
) -> Result<Ending, Failed>
    requires { 1 ≤ budget }
    ensures bytes { Gathers (K.written out.old) (K.written out.new) held.old held.new
        (listing_text several planned.entry.parts planned.entry.most planned.entry.from budget) result }
    ensures cause { HasCause (K.faults out.old) (K.faults out.new) result }
    ensures ending { IfOk result
        (λ ending. spot_in ending ≡ (listing planned.entry.parts planned.entry.most planned.entry.from budget).spent) }
{
    let lines = CoverLines { several };
    let ending = planned.write(out, held, &lines, budget)?;
    put_ending(out, held, &ending)?;
    Ok(ending)
}

fn put_ending<K: Sink>(out: &mut K, held: &mut Held, ending: &Ending) -> Result<(), Failed>
    ensures bytes { Gathers (K.written out.old) (K.written out.new) held.old held.new
        (ending_text (spot_in ending.now)) result }
    ensures cause { HasCause (K.faults out.old) (K.faults out.new) result }
{
    match ending {
        Ending::Done => held.put(out, &[Piece::Text(b"done\n")]),
        Ending::Spent(spot) => put_spent(out, held, spot),
    }
}

fn put_spent<K: Sink>(out: &mut K, held: &mut Held, spot: &Spot) -> Result<(), Failed>
    ensures bytes { Gathers (K.written out.old) (K.written out.new) held.old held.new
        (ending_text (Some (spot_at spot.now))) result }
    ensures cause { HasCause (K.faults out.old) (K.faults out.new) result }
{
    held.put(out, &[Piece::Text(b"spent ")])?;
    put_spot(out, held, spot)?;
    held.put(out, &[Piece::Text(b"\n")])
}

impl Taker for CoverLines {
    ghost use Rattle.hap_cli.specs.CoverTexts.{event_text};

    ghost text = { λ lines event. event_text lines.several event };

    fn begin<K: Sink>(
        &self,
        sink: &mut K,
        held: &mut Held,
        component: u32,
        columns: u32,
    ) -> Result<(), Failed> {
        put_component(sink, held, self.several, component)?;
        put_count(sink, held, b"columns ", columns as usize)
    }

    fn table<K: Sink>(&self, sink: &mut K, held: &mut Held, table: &Table) -> Result<(), Failed> {
        put_cover(sink, held, table)
    }

    fn end<K: Sink>(&self, sink: &mut K, held: &mut Held, counts: &[u64]) -> Result<(), Failed> {
        held.put(sink, &[Piece::Text(b"counts")])?;
        put_counts(sink, held, counts)?;
        held.put(sink, &[Piece::Text(b"\n")])
    }
}

// Puts the line with the number of a component, where there are several.
fn put_component<K: Sink>(
    sink: &mut K,
    held: &mut Held,
    several: bool,
    component: u32,
) -> Result<(), Failed>
    ensures bytes { Gathers (K.written sink.old) (K.written sink.new) held.old held.new
        (component_front several component) result }
    ensures cause { HasCause (K.faults sink.old) (K.faults sink.new) result }
{
    if several {
        put_count(sink, held, b"component ", component as usize)
    } else {
        Ok(())
    }
}

// Puts numbers, each with a space before it.
fn put_counts<K: Sink>(sink: &mut K, held: &mut Held, counts: &[u64]) -> Result<(), Failed>
    ensures bytes { Gathers (K.written sink.old) (K.written sink.new) held.old held.new
        (flat_map (λ k. codes " " ++ decimal k) counts.now) result }
    ensures cause { HasCause (K.faults sink.old) (K.faults sink.new) result }
{
    for index in 0..counts.len() {
        held.put(sink, &[Piece::Text(b" "), Piece::Count(counts[index])])?;
    }
    Ok(())
}
