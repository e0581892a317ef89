ghost use Rattle.std.specs.Prelude.{◌≡◌, ◌≢◌, ◌≤◌, ◌-◌, true, false, IfOk, IfErr};
ghost use Rattle.edge_words.specs.Words.{relations_of};
ghost use Rattle.cover_search.specs.Searches.{at, shown, CanStart, begun, Goes, TurnsBy, TurnsOnce};
ghost use Rattle.cover_search.specs.Courses.{IsAlong};
ghost use Rattle.cover_search.specs.Holdings.{IsBegun, BeginsAt};

use crate::course::{Course, Stop};
use crate::fault::SearchFault;
use edge_words::Presentation;
use sheet_tables::{Position, Table};
use std::alloc::Global;
use std::marker::Model;

/// How a search went on.
#[derive(Clone, Copy, PartialEq, Eq, Debug)]
pub enum Turn {
    /// A table was found.
    Found,
    /// None is left.
    Done,
    /// No unit is left.
    Spent,
}

/// A search for the listed tables of a presentation, which places live partial tables in order.
#[derive(Drop)]
pub struct Search<'a> {
    course: Course<'a>,
    stands: bool,
    position: Position,
    given: bool,
    table: Table,
}

impl<'a> Model for Search<'a> {
    ghost use Rattle.cover_search.specs.Searches.{Searching, at, shown};
    ghost use Rattle.cover_search.specs.Holdings.{IsHeld};

    ghost Value = { Searching };

    ghost view = { λ s. record {
      relations = s.course.relations;
      most = s.course.most;
      position = (s.position.sheets, s.position.cells);
      given = s.given;
      table = (s.table.sheets, s.table.cells);
    } };

    ghost invariant = { λ s. IsHeld s.course s.stands s.position s.table };
}

impl<'a> Search<'a> {
    /// A search for tables of at most so many sheets, 1 to 8, that begins after a position. All memory
    /// that it needs is taken here. `BadPosition` comes exactly where the position is neither the start
    /// nor live with at most so many sheets.
    pub fn new(
        alloc: Global,
        presentation: &'a Presentation,
        sheets: u8,
        from: &Position,
    ) -> Result<Search<'a>, SearchFault>
        requires least { 1 ≤ sheets }
        requires most { sheets ≤ 8 }
        ensures search { IfOk result (λ s. s ≡ begun (relations_of presentation.entry.now) sheets (at from.now)) }
        ensures starts { IfOk result (λ _. CanStart (relations_of presentation.entry.now) sheets (at from.now)) }
        // Want of memory may be answered to any position.
        ensures fault { IfErr result (λ fault. fault ≢ SearchFault.Memory
            → CanStart (relations_of presentation.entry.now) sheets (at from.now) → ⊥) }
    {
        let mut course = Course::new(alloc, presentation, sheets)?;
        let columns = course.columns();
        let mut position = Position::with_room(alloc, sheets as usize * columns as usize)?;
        let table = Table::with_room(alloc, sheets, columns)?;
        if !set_out(&mut course, &mut position, from) {
            return Err(SearchFault::BadPosition);
        }
        let stands = course.advance();
        Ok(Search {
            course,
            stands,
            position,
            given: false,
            table,
        })
    }

    /// Places live partial tables in order, each for one unit, up to one that is listed, to the last
    /// unit, or to the last one. Without generators the table of one sheet is found, once, for no unit.
    /// It takes no memory.
    pub fn next(&mut self, budget: &mut u64) -> Turn
        ensures budget { budget.new ≤ budget.old }
        ensures goes { Goes self.old self.new (budget.old - budget.new) }
        ensures turn { 1 ≤ self.old.relations.generators
            → TurnsBy self.old self.new (budget.old - budget.new) budget.new result }
        ensures once { self.old.relations.generators ≡ 0
            → TurnsOnce self.old self.new (budget.old - budget.new) result }
    {
        if self.course.columns() == 0 {
            if self.given {
                return Turn::Done;
            }
            self.given = true;
            return Turn::Found;
        }
        if !self.stands {
            return Turn::Done;
        }
        if *budget == 0 {
            return Turn::Spent;
        }
        let last = self.course.place(budget);
        self.position
            .refill(last.sheets, self.course.written(last.length));
        match last.stop {
            Stop::Listed => {
                self.table
                    .refill(last.sheets, self.course.written(last.length));
                self.stands = self.course.advance();
                Turn::Found
            }
            Stop::Short => {
                self.stands = self.course.advance();
                if self.stands { Turn::Spent } else { Turn::Done }
            }
            Stop::Over => {
                self.stands = false;
                Turn::Done
            }
        }
    }

    /// The table that was found last; before the first one that of one sheet whose cells are all 1.
    pub fn table(&self) -> &Table
        ensures table { shown result.now ≡ self.now.table }
        ensures columns { result.now.columns ≡ self.now.relations.generators }
    {
        &self.table
    }

    /// The live partial table that was placed last, or the position where the search began.
    pub fn position(&self) -> &Position
        ensures { at result.now ≡ self.now.position }
    {
        &self.position
    }

    /// That position, where the search is not wanted any more.
    pub fn into_position(self) -> Position
        ensures { at result ≡ self.entry.position }
    {
        self.position
    }
}

/// Brings the course to a position, and writes it down; and whether a search may begin there.
fn set_out(course: &mut Course<'_>, position: &mut Position, from: &Position) -> bool
    requires begun { IsBegun course.old position.old }
    ensures same { IsAlong course.old course.new }
    ensures room { position.new.room ≡ position.old.room }
    ensures refused { result ≡ false → CanStart course.old.relations course.old.most (at from.now) → ⊥ }
    ensures starts { result ≡ true → CanStart course.old.relations course.old.most (at from.now) }
    ensures begins { result ≡ true → BeginsAt course.new position.new (at from.now) }
{
    let sheets = from.sheets();
    if sheets == 0 {
        return true;
    }
    let cells = from.cells();
    if !course.place_all(sheets, cells) {
        return false;
    }
    position.refill(sheets, cells);
    true
}
