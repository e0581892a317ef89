// The listing over the components of a space.
ghost use Rattle.std.specs.Prelude.{◌≡◌, ◌≢◌, ◌≤◌, ◌<◌, ◌+◌, ◌-◌, ℕ, [], length, map, drop};
ghost use Rattle.std.specs.Prelude.{nat_le, nat_lt, true, not, ◌==◌, ◌&&◌, ◌||◌, ◌^◌};
ghost use Rattle.std.specs.Prelude.{slice_index, slice_set, IfOk, IfErr, OnOk};
ghost use Rattle.std.specs.Prelude.{Some, option_map, slice_get};
ghost use Rattle.std.specs.List.{flat_map};
ghost use Rattle.hap_outside.specs.Causes.{HasCause};
ghost use Rattle.hap_outside.specs.Gathers.{Gathers};
ghost use Rattle.edge_words.specs.Words.{relations_of};
ghost use Rattle.live_laws.specs.Live.{live};
ghost use Rattle.sheet_laws.specs.Permutations.{InRange};
ghost use Rattle.cover_search.specs.Searches.{at, begun, left};
ghost use Rattle.cover_listing.specs.Listings.{CanBegin, listing, spot_at, spot_in};
ghost use Rattle.cover_listing.specs.Events.{Begins, Finds, Ends, section, rest_of_section, counts_of, events};
ghost use Rattle.cover_listing.specs.Nths.{found};
ghost use Rattle.cover_listing.specs.Passes.{begun_each, moves, pass, pass_spent, stop_at};
ghost use Rattle.cover_listing.specs.Passes.{HasRun, IsPlan, relations_in_all, first_position};

use crate::counts::count_sheets;
use crate::taker::Taker;
use cover_search::{Search, SearchFault, Turn};
use edge_words::Presentation;
use hap_outside::{Failed, Held, Sink};
use sheet_tables::{Position, Spot};
use std::alloc::{AllocError, Global};
use std::marker::Model;

/// How a listing ended.
#[derive(Drop)]
pub enum Ending {
    /// Nothing is left.
    Done,
    /// The budget was spent at this spot, and some live partial tables are left.
    Spent(Spot),
}

/// A listing of the covers of components that are numbered one after another, before it has begun: a search
/// for each, of which the first begins at a position and the others at the start.
#[derive(Drop)]
pub struct Listing<'a> {
    searches: Vec<Search<'a>>,
    first: u32,
    sheets: u8,
}

impl<'a> Model for Listing<'a> {
    ghost use Rattle.std.specs.Prelude.{◌≤◌, ◌+◌, map, length};
    ghost use Rattle.cover_listing.specs.Listings.{Planned};
    ghost use Rattle.cover_listing.specs.Passes.{relations_in_all, first_position, IsPlan};

    ghost Value = { Planned };

    ghost view = { λ s. record {
      parts = relations_in_all s.searches.items;
      most = s.sheets;
      from = (s.first, first_position s.searches.items);
    } };

    ghost invariant = { λ s. IsPlan s.first s.sheets s.searches.items };
}

impl<'a> Listing<'a> {
    /// The listing of the components with these presentations, from that of a spot on: of at most so many
    /// sheets, 1 to 8, after the spot. All memory that it needs is taken here. `BadPosition` comes exactly
    /// where the spot is not the start, and its component does not exist or its position is not live there
    /// with at most so many sheets.
    pub fn new(
        alloc: Global,
        presentations: &'a [Presentation],
        sheets: u8,
        from: &Spot,
    ) -> Result<Listing<'a>, SearchFault>
        requires least { 1 ≤ sheets }
        requires most { sheets ≤ 8 }
        requires components { from.now.component + length presentations.now ≤ 60001 }
        ensures listing { IfOk result (λ l. l ≡ record {
          parts = map relations_of presentations.entry.now;
          most = sheets;
          from = spot_at from.now;
        }) }
        ensures begins { IfOk result
            (λ _. CanBegin (map relations_of presentations.entry.now) sheets (spot_at from.now).1) }
        // Want of memory may be answered to any spot.
        ensures fault { IfErr result (λ fault. fault ≢ SearchFault.Memory
            → CanBegin (map relations_of presentations.entry.now) sheets (spot_at from.now).1 → ⊥) }
    {
        if is_missing(presentations.len(), from) {
            return Err(SearchFault::BadPosition);
        }
        Ok(Listing {
            searches: begin_each(alloc, presentations, sheets, from.position())?,
            first: from.component(),
            sheets,
        })
    }

    /// Goes through the live partial tables, each for one unit, and hands on each component's begin, its
    /// tables as they are found, and its end. Where the budget is spent, the component of that spot has an
    /// end, and no later component is handed on. It takes no memory.
    pub fn write<T: Taker, K: Sink>(
        self,
        sink: &mut K,
        held: &mut Held,
        taker: &T,
        budget: u64,
    ) -> Result<Ending, Failed>
        requires { 1 ≤ budget }
        ensures bytes { Gathers (K.written sink.old) (K.written sink.new) held.old held.new
            (flat_map (T.text taker.now) (events self.entry.parts self.entry.most self.entry.from budget)) result }
        ensures cause { HasCause (K.faults sink.old) (K.faults sink.new) result }
        ensures ending { IfOk result
            (λ ending. spot_in ending ≡ (listing self.entry.parts self.entry.most self.entry.from budget).spent) }
    {
        let until = moving(&self.searches);
        put_components(
            sink,
            held,
            taker,
            self.searches,
            self.first,
            self.sheets,
            until,
            budget,
        )
    }
}

/// Whether no component is left, and the spot is not the start.
fn is_missing(components: usize, from: &Spot) -> bool
    ensures { result ≡ (components == 0 && not (from.now.sheets == 0)) }
{
    components == 0 && !from.is_start()
}

/// A search for each presentation: the first begins at a position, the others at the start.
fn begin_each<'a>(
    alloc: Global,
    presentations: &'a [Presentation],
    sheets: u8,
    from: &Position,
) -> Result<Vec<Search<'a>>, SearchFault>
    requires least { 1 ≤ sheets }
    requires most { sheets ≤ 8 }
    ensures searches { IfOk result (λ searches. searches.items
        ≡ begun_each sheets (at from.now) (map relations_of presentations.entry.now)) }
    ensures begins { 1 ≤ length presentations.entry.now → IfOk result
        (λ _. CanBegin (map relations_of presentations.entry.now) sheets (at from.now)) }
    ensures fault { IfErr result (λ fault. fault ≢ SearchFault.Memory
        → CanBegin (map relations_of presentations.entry.now) sheets (at from.now) → ⊥) }
{
    let mut searches = Vec::with_capacity(alloc, presentations.len())?;
    for index in 0..presentations.len() {
        searches.push(begin_at(alloc, presentations, index, sheets, from)?)?;
    }
    Ok(searches)
}

/// The search for the presentation at an index, counted from 0.
fn begin_at<'a>(
    alloc: Global,
    presentations: &'a [Presentation],
    index: usize,
    sheets: u8,
    from: &Position,
) -> Result<Search<'a>, SearchFault>
    requires least { 1 ≤ sheets }
    requires most { sheets ≤ 8 }
    requires index { index < length presentations.now }
    ensures search { IfOk result (λ search. slice_get
        (begun_each sheets (at from.now) (map relations_of presentations.entry.now)) index ≡ Some search) }
    ensures begins { index ≡ 0 → IfOk result
        (λ _. CanBegin (map relations_of presentations.entry.now) sheets (at from.now)) }
    ensures fault { IfErr result (λ fault. fault ≢ SearchFault.Memory
        → CanBegin (map relations_of presentations.entry.now) sheets (at from.now) → ⊥) }
{
    if index == 0 {
        Search::new(alloc, &presentations[0], sheets, from)
    } else {
        Search::new(
            alloc,
            &presentations[index],
            sheets,
            &Position::start(alloc),
        )
    }
}

/// How many searches there are up to the last one that has a generator.
fn moving(searches: &[Search<'_>]) -> usize
    ensures { (i : ℕ) → moves (drop i (relations_in_all searches.now)) ≡ nat_lt i result }
{
    let mut until = 0;
    for index in 0..searches.len() {
        if searches[index].table().columns() > 0 {
            until = index + 1;
        }
    }
    until
}

/// Puts one component after another, up to the one where the budget is spent.
fn put_components<T: Taker, K: Sink>(
    sink: &mut K,
    held: &mut Held,
    taker: &T,
    searches: Vec<Search<'_>>,
    first: u32,
    sheets: u8,
    until: usize,
    budget: u64,
) -> Result<Ending, Failed>
    requires plan { IsPlan first sheets searches.items }
    requires until { (i : ℕ) → moves (drop i (relations_in_all searches.items)) ≡ nat_lt i until }
    requires some { 1 ≤ budget }
    ensures bytes { Gathers (K.written sink.old) (K.written sink.new) held.old held.new
        (flat_map (T.text taker.now) (pass sheets budget
        (first_position searches.entry.items) first (relations_in_all searches.entry.items))) result }
    ensures cause { HasCause (K.faults sink.old) (K.faults sink.new) result }
    ensures ending { IfOk result (λ ending. spot_in ending ≡ pass_spent sheets budget
        (first_position searches.entry.items) first (relations_in_all searches.entry.items)) }
{
    let mut budget = budget;
    let mut component = first;
    let mut index: usize = 0;
    'components: for search in searches {
        index += 1;
        let more = index < until;
        let stop = put_component(
            sink,
            held,
            taker,
            search,
            component,
            sheets,
            more,
            &mut budget,
        )?;
        match stop {
            Some(position) => return Ok(Ending::Spent(Spot::new(component, position))),
            None => component += 1,
        }
    }
    Ok(Ending::Done)
}

/// Puts a component; and the position that is told where the budget is spent in it. `more` says whether a
/// later component has a generator.
fn put_component<T: Taker, K: Sink>(
    sink: &mut K,
    held: &mut Held,
    taker: &T,
    search: Search<'_>,
    component: u32,
    sheets: u8,
    more: bool,
    budget: &mut u64,
) -> Result<Option<Position>, Failed>
    requires fresh { search ≡ begun search.relations sheets search.position }
    requires least { 1 ≤ sheets }
    requires most { sheets ≤ 8 }
    requires some { (nat_lt 0 search.relations.generators || more) ≡ true → 1 ≤ budget.old }
    requires word { budget.old < 2 ^ 64 }
    ensures bytes { Gathers (K.written sink.old) (K.written sink.new) held.old held.new
        (flat_map (T.text taker.now) (section sheets component search.entry.relations.generators
        (found search.entry.relations sheets search.entry.position budget.old))) result }
    ensures cause { HasCause (K.faults sink.old) (K.faults sink.new) result }
    ensures budget { OnOk result
        (budget.new ≡ budget.old - length (live search.entry.relations sheets search.entry.position)) }
    ensures stop { IfOk result (λ stop. option_map at stop
        ≡ stop_at search.entry.relations more sheets search.entry.position budget.old) }
{
    let mut search = search;
    let is_done = put_section(sink, held, taker, &mut search, component, sheets, budget)?;
    if is_done && (*budget > 0 || !more) {
        Ok(None)
    } else {
        Ok(Some(search.into_position()))
    }
}

/// Puts a component's begin, its tables and its end; and whether nothing is left of its search.
fn put_section<T: Taker, K: Sink>(
    sink: &mut K,
    held: &mut Held,
    taker: &T,
    search: &mut Search<'_>,
    component: u32,
    sheets: u8,
    budget: &mut u64,
) -> Result<bool, Failed>
    requires fresh { search.old ≡ begun search.old.relations sheets search.old.position }
    requires most { sheets ≤ 8 }
    requires word { budget.old < 2 ^ 64 }
    ensures bytes { Gathers (K.written sink.old) (K.written sink.new) held.old held.new
        (flat_map (T.text taker.now) (section sheets component search.old.relations.generators
        (found search.old.relations sheets search.old.position budget.old))) result }
    ensures cause { HasCause (K.faults sink.old) (K.faults sink.new) result }
    ensures ran { OnOk result (HasRun search.old search.new budget.old budget.new) }
    ensures done { IfOk result (λ is_done. is_done ≡ nat_le (length (left search.old)) budget.old) }
{
    taker.begin(sink, held, component, search.table().columns())?;
    put_rest(sink, held, taker, search, sheets, budget)
}

/// Puts the tables and the end of a component.
fn put_rest<T: Taker, K: Sink>(
    sink: &mut K,
    held: &mut Held,
    taker: &T,
    search: &mut Search<'_>,
    sheets: u8,
    budget: &mut u64,
) -> Result<bool, Failed>
    requires fresh { search.old ≡ begun search.old.relations sheets search.old.position }
    requires most { sheets ≤ 8 }
    requires word { budget.old < 2 ^ 64 }
    ensures bytes { Gathers (K.written sink.old) (K.written sink.new) held.old held.new
        (flat_map (T.text taker.now) (rest_of_section sheets search.old.relations.generators
        (found search.old.relations sheets search.old.position budget.old))) result }
    ensures cause { HasCause (K.faults sink.old) (K.faults sink.new) result }
    ensures ran { OnOk result (HasRun search.old search.new budget.old budget.new) }
    ensures done { IfOk result (λ is_done. is_done ≡ nat_le (length (left search.old)) budget.old) }
{
    let mut counts = [0; 8];
    let is_done = put_tables(sink, held, taker, search, &mut counts, budget)?;
    taker.end(sink, held, &counts[..sheets as usize])?;
    Ok(is_done)
}

/// Puts the tables of a search, and counts them by their sheets; and whether nothing is left of it.
fn put_tables<T: Taker, K: Sink>(
    sink: &mut K,
    held: &mut Held,
    taker: &T,
    search: &mut Search<'_>,
    numbers: &mut [u64; 8],
    budget: &mut u64,
) -> Result<bool, Failed>
    requires fresh { search.old ≡ begun search.old.relations search.old.most search.old.position }
    requires zero { numbers.old ≡ counts_of 8 [] }
    requires word { budget.old < 2 ^ 64 }
    ensures bytes { Gathers (K.written sink.old) (K.written sink.new) held.old held.new
        (flat_map (T.text taker.now) (map (Finds search.old.relations.generators)
        (found search.old.relations search.old.most search.old.position budget.old))) result }
    ensures cause { HasCause (K.faults sink.old) (K.faults sink.new) result }
    ensures ran { OnOk result (HasRun search.old search.new budget.old budget.new) }
    ensures done { IfOk result (λ is_done. is_done ≡ nat_le (length (left search.old)) budget.old) }
    ensures counts { OnOk result (numbers.new
        ≡ counts_of 8 (found search.old.relations search.old.most search.old.position budget.old)) }
{
    if search.table().columns() == 0 {
        put_found(sink, held, taker, search, numbers)?;
        return Ok(true);
    }
    'turns: loop {
        match search.next(budget) {
            Turn::Found => put_found(sink, held, taker, search, numbers)?,
            Turn::Done => return Ok(true),
            Turn::Spent => return Ok(false),
        }
    }
}

/// Puts the table that a search has found, and counts it.
fn put_found<T: Taker, K: Sink>(
    sink: &mut K,
    held: &mut Held,
    taker: &T,
    search: &Search<'_>,
    numbers: &mut [u64; 8],
) -> Result<(), Failed>
    requires room { slice_index numbers.old (search.now.table.0 - 1) + 1 < 2 ^ 64 }
    ensures sheets { InRange 8 search.now.table.0 }
    ensures bytes { Gathers (K.written sink.old) (K.written sink.new) held.old held.new
        (T.text taker.now (Finds search.now.relations.generators search.now.table)) result }
    ensures cause { HasCause (K.faults sink.old) (K.faults sink.new) result }
    ensures counts { numbers.new ≡ slice_set numbers.old (search.now.table.0 - 1)
        (slice_index numbers.old (search.now.table.0 - 1) + 1) }
{
    let table = search.table();
    count_sheets(numbers, table.sheets());
    taker.table(sink, held, table)
}
