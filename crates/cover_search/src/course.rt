// A walk through the live partial tables of a presentation, in order.
ghost use Rattle.std.specs.Prelude.{◌≡◌, ◌<◌, ◌≤◌, ◌-◌, ◌*◌, ◌++◌, ◌∷◌, [], true, false, length, take, filter};
ghost use Rattle.std.specs.Prelude.{slice_set, slice_index, slice_index_or, ◌&&◌, nat_le, nat_lt, All, IfOk};
ghost use Rattle.std.specs.List.{list_all};
ghost use Rattle.live_laws.specs.Live.{sound, is_listed};
ghost use Rattle.live_laws.specs.Walks.{AreLetters, never_fails};
ghost use Rattle.sheet_laws.specs.Permutations.{InRange};
ghost use Rattle.sheet_tables.specs.Positions.{IsProper};
ghost use Rattle.edge_words.specs.Words.{relations_of};
ghost use Rattle.cover_search.specs.Courses.{IsPassage, IsAlong, IsNext, IsEnd, IsPlaced, IsLast, Stops};
ghost use Rattle.cover_search.specs.Courses.{begun_passage, here};

use crate::index::index_of;
use crate::walker::Walker;
use edge_words::Presentation;
use least_tables::is_least;
use number_lists::Lists;
use std::alloc::{AllocError, Global};
use std::marker::Model;

/// Why placing stopped.
#[derive(Clone, Copy, PartialEq, Eq)]
pub(crate) enum Stop {
    /// The last table is a listed one.
    Listed,
    /// No unit is left.
    Short,
    /// No live partial table is behind the last one.
    Over,
}

/// The last table that was placed: its sheets, how many cells it has, and why placing stopped there.
#[derive(Clone, Copy)]
pub(crate) struct Last {
    pub(crate) sheets: u8,
    pub(crate) length: usize,
    pub(crate) stop: Stop,
}

/// Sound cells of a table of some sheets, and the way to those that come after them.
#[derive(Drop)]
pub(crate) struct Course<'a> {
    presentation: &'a Presentation,
    index: Lists,
    walker: Walker,
}

impl<'a> Model for Course<'a> {
    ghost use Rattle.edge_words.specs.Words.{relations_of};
    ghost use Rattle.cover_search.specs.Courses.{Passage, IsCourse};

    ghost Value = { Passage };

    ghost view = { λ s. record {
      relations = relations_of s.presentation.now;
      most = s.walker.room;
      sheets = s.walker.sheets;
      cells = s.walker.cells;
      written = s.walker.written;
    } };

    ghost invariant = { λ s. IsCourse (relations_of s.presentation.now) s.index s.walker };
}

impl<'a> Course<'a> {
    /// No cell of a table of one sheet, and the way to all that have at most so many sheets.
    pub(crate) fn new(
        alloc: Global,
        presentation: &'a Presentation,
        most: u8,
    ) -> Result<Course<'a>, AllocError>
        requires least { 1 ≤ most }
        requires most { most ≤ 8 }
        ensures { IfOk result (λ s. s ≡ begun_passage (relations_of presentation.entry.now) most) }
    {
        let columns = presentation.generators().len();
        Ok(Course {
            presentation,
            index: index_of(alloc, presentation)?,
            walker: Walker::new(alloc, columns, most)?,
        })
    }

    /// Goes on to the next live partial table; and whether there is one.
    pub(crate) fn advance(&mut self) -> bool
        ensures same { IsAlong self.old self.new }
        ensures next { result ≡ true → IsNext self.old self.new }
        ensures end { result ≡ false → IsEnd self.old self.new }
    {
        let most = self.most();
        let mut sheet: u8 = 1;
        'moves: loop {
            if self.has_room_for(sheet) {
                if self.try_place(sheet) {
                    return true;
                }
                sheet += 1;
            } else if self.len() > 0 {
                sheet = self.unplace() + 1;
            } else if self.sheets() < most {
                self.raise(self.sheets() + 1);
                sheet = 1;
            } else {
                return false;
            }
        }
    }

    /// Places the table where it stands, and those behind it, each for one unit, up to one that is
    /// listed, to the last unit, or to the last one that there is.
    pub(crate) fn place(&mut self, budget: &mut u64) -> Last
        requires some { 0 < length self.old.cells }
        requires budget { 1 ≤ budget.old }
        ensures same { IsAlong self.old self.new }
        ensures budget { budget.new < budget.old }
        ensures proper { IsProper result.sheets (take result.length self.new.written) }
        ensures last { IsLast self.new result.sheets result.length }
        ensures placed { IsPlaced self.old (budget.old - budget.new)
            (result.sheets, take result.length self.new.written) }
        ensures stop { Stops self.old self.new (budget.old - budget.new) budget.new
            (result.sheets, take result.length self.new.written) result.stop }
    {
        'units: loop {
            *budget -= 1;
            let sheets = self.sheets();
            let length = self.len();
            if self.is_listed() {
                return Last {
                    sheets,
                    length,
                    stop: Stop::Listed,
                };
            }
            if *budget == 0 {
                return Last {
                    sheets,
                    length,
                    stop: Stop::Short,
                };
            }
            if !self.advance() {
                return Last {
                    sheets,
                    length,
                    stop: Stop::Over,
                };
            }
        }
    }

    /// Places all these cells of a table of so many sheets, if they are sound.
    pub(crate) fn place_all(&mut self, sheets: u8, cells: &[u8]) -> bool
        requires { 1 ≤ sheets }
        ensures same { IsAlong self.old self.new }
        ensures sound { result ≡ (nat_le sheets self.old.most && sound self.old.relations sheets cells.now) }
        ensures placed { result ≡ true → here self.new ≡ (sheets, cells.now) }
    {
        if sheets > self.most() {
            return false;
        }
        self.raise(sheets);
        for cell in cells {
            if !self.try_place(*cell) {
                return false;
            }
        }
        true
    }

    /// Puts a sheet into the next cell, if the cells stay sound; else all stays as it is.
    fn try_place(&mut self, sheet: u8) -> bool
        ensures told { result ≡ sound self.old.relations self.old.sheets (self.old.cells ++ sheet ∷ []) }
        ensures placed { result ≡ true → self.new ≡ record self.old {
          cells = self.old.cells ++ sheet ∷ [];
          written = slice_set self.old.written (length self.old.cells) sheet;
        } }
        ensures same { result ≡ false → self.new ≡ self.old }
    {
        if !self.walker.may_place(sheet) {
            return false;
        }
        let column = self.walker.next_column();
        let before = self.walker.place(sheet);
        if all_close(&self.walker, self.presentation, self.index.get(column)) {
            return true;
        }
        let _ = self.walker.unplace();
        self.walker.write(before);
        false
    }

    /// Takes the last cell away, which it answers, and leaves it written.
    fn unplace(&mut self) -> u8
        requires { 0 < length self.old.cells }
        ensures cells { self.new ≡ record self.old { cells = take (length self.old.cells - 1) self.old.cells } }
        ensures last { result ≡ slice_index self.old.cells (length self.old.cells - 1) }
        ensures within { result ≤ self.old.sheets }
    {
        self.walker.unplace()
    }

    /// Begins anew with no cell of a table of so many sheets.
    fn raise(&mut self, sheets: u8)
        requires least { 1 ≤ sheets }
        requires most { sheets ≤ self.old.most }
        ensures { self.new ≡ record self.old { sheets = sheets; cells = [] } }
    {
        self.walker.raise(sheets);
    }

    /// Whether there is such a sheet, and a cell is left.
    fn has_room_for(&self, sheet: u8) -> bool
        ensures room { result ≡ (nat_le sheet self.now.sheets
            && nat_lt (length self.now.cells) (self.now.sheets * self.now.relations.generators)) }
        ensures valid { IsPassage self.now }
    {
        sheet <= self.walker.sheets() && !self.walker.is_full()
    }

    /// The number of sheets.
    pub(crate) fn sheets(&self) -> u8
        ensures sheets { result ≡ self.now.sheets }
        ensures valid { IsPassage self.now }
    {
        self.walker.sheets()
    }

    /// The most sheets.
    fn most(&self) -> u8
        ensures most { result ≡ self.now.most }
        ensures valid { IsPassage self.now }
    {
        self.walker.most()
    }

    /// The number of generators.
    pub(crate) fn columns(&self) -> u32
        ensures { result ≡ self.now.relations.generators }
    {
        self.walker.columns()
    }

    /// How many cells there are.
    pub(crate) fn len(&self) -> usize
        ensures { result ≡ length self.now.cells }
    {
        self.walker.len()
    }

    /// The first so many of all cells that are written.
    pub(crate) fn written(&self, count: usize) -> &[u8]
        requires { count ≤ length self.now.written }
        ensures { result.now ≡ take count self.now.written }
    {
        self.walker.written(count)
    }

    /// Whether the cells are those of a listed table.
    fn is_listed(&self) -> bool
        ensures { result ≡ is_listed self.now.relations (here self.now) }
    {
        self.walker.is_full()
            && is_least(
                self.walker.sheets(),
                self.walker.columns(),
                self.walker.written(self.walker.len()),
            )
    }
}

/// Whether no walk of the relators with these numbers, counted from 1, fails.
fn all_close(walker: &Walker, presentation: &Presentation, numbers: &[u32]) -> bool
    requires columns { walker.now.columns ≡ length presentation.now.generators }
    requires numbers { All (InRange (length presentation.now.relators)) numbers.now }
    ensures { result ≡ list_all (λ n. never_fails walker.now.columns walker.now.sheets walker.now.cells
        (slice_index_or presentation.now.relators (n - 1) [])) numbers.now }
{
    for number in numbers {
        if !walker.closes(presentation.relator(*number - 1)) {
            return false;
        }
    }
    true
}
