// The first cells of a table, placed one after another, and the walks of words through them.
ghost use Rattle.std.specs.Prelude.{◌≡◌, ◌<◌, ◌≤◌, ◌-◌, ◌^◌, ◌*◌, ◌%◌, ◌==◌, ◌++◌, ◌∷◌, ℕ, suc, [], Some};
ghost use Rattle.std.specs.Prelude.{true, length, take, replicate};
ghost use Rattle.std.specs.Prelude.{slice_set, slice_index, option_map, IfOk, IfSome};
ghost use Rattle.live_laws.specs.Live.{may_follow};
ghost use Rattle.live_laws.specs.Walks.{led, trace, never_fails, AreLetters};
ghost use Rattle.cover_search.specs.Columns.{Partial, IsPartial, IsLetter, bytes, ended};

use crate::columns::{
    MISSING, STAY, empty_columns, fill, is_complete, keeps, larger, ones, put, stays,
};
use lane_rows::compose8;
use std::alloc::{AllocError, Global};
use std::marker::Model;

/// The first cells of a table of at most eight sheets, with its columns and their inverses.
#[derive(Drop)]
pub(crate) struct Walker {
    columns: usize,
    sheets: u8,
    most: u8,
    cells: Vec<u8>,
    at: usize,
    seen: Vec<u8>,
    forward: Vec<[u8; 8]>,
    backward: Vec<[u8; 8]>,
}

impl Model for Walker {
    ghost use Rattle.std.specs.Prelude.{take};
    ghost use Rattle.cover_search.specs.Columns.{Partial, IsWalker};

    ghost Value = { Partial };

    ghost view = { λ w. record {
      columns = w.columns;
      sheets = w.sheets;
      room = w.most;
      cells = take w.at w.cells.items;
      written = w.cells.items;
    } };

    ghost invariant = { λ w. IsWalker
        w.columns w.sheets w.most w.at w.cells.items w.seen.items w.forward.items w.backward.items };
}

impl Walker {
    /// No cell of a table of so many columns, with room for so many sheets, and of one sheet.
    pub(crate) fn new(alloc: Global, columns: usize, most: u8) -> Result<Walker, AllocError>
        requires least { 1 ≤ most }
        requires most { most ≤ 8 }
        requires columns { columns < 2 ^ 32 }
        ensures begun { IfOk result (λ w. w ≡ record {
          columns = columns;
          sheets = 1;
          room = most;
          cells = [];
          written = replicate (most * columns) 1;
        }) }
        ensures valid { IfOk result (λ w. IsPartial w) }
    {
        let room = most as usize * columns;
        Ok(Walker {
            columns,
            sheets: 1,
            most,
            cells: ones(alloc, room)?,
            at: 0,
            seen: ones(alloc, room + 1)?,
            forward: empty_columns(alloc, columns, 1)?,
            backward: empty_columns(alloc, columns, 1)?,
        })
    }

    /// Begins anew with no cell of a table of so many sheets.
    pub(crate) fn raise(&mut self, sheets: u8)
        requires least { 1 ≤ sheets }
        requires most { sheets ≤ self.old.room }
        ensures raised { self.new ≡ record self.old { sheets = sheets; cells = [] } }
        ensures valid { IsPartial self.new }
    {
        fill(&mut self.forward, sheets);
        fill(&mut self.backward, sheets);
        self.sheets = sheets;
        self.at = 0;
    }

    /// Whether a sheet may come next by the rules.
    pub(crate) fn may_place(&self, sheet: u8) -> bool
        ensures { result ≡ may_follow self.now.columns self.now.sheets self.now.cells sheet }
    {
        if self.at == self.sheets as usize * self.columns {
            return false;
        }
        if sheet == 0 || sheet > self.sheets {
            return false;
        }
        let seen = self.seen[self.at];
        let row = self.at / self.columns;
        let column = self.at % self.columns;
        if sheet - 1 > seen || row >= seen as usize {
            return false;
        }
        self.backward[column][(sheet - 1) as usize] == MISSING
    }

    /// Puts a sheet into the next cell; and what stood in its place.
    pub(crate) fn place(&mut self, sheet: u8) -> u8
        requires { may_follow self.old.columns self.old.sheets self.old.cells sheet ≡ true }
        ensures placed { self.new ≡ record self.old {
          cells = self.old.cells ++ sheet ∷ [];
          written = slice_set self.old.written (length self.old.cells) sheet;
        } }
        ensures before { result ≡ slice_index self.old.written (length self.old.cells) }
        ensures valid { IsPartial self.new }
    {
        let before = self.cells[self.at];
        let row = self.at / self.columns;
        let column = self.at % self.columns;
        put(&mut self.forward, column, row, sheet - 1);
        put(&mut self.backward, column, (sheet - 1) as usize, row as u8);
        self.seen[self.at + 1] = larger(self.seen[self.at], sheet);
        self.cells[self.at] = sheet;
        self.at += 1;
        before
    }

    /// Takes the last cell away, which it answers, and leaves it written.
    pub(crate) fn unplace(&mut self) -> u8
        requires { 0 < length self.old.cells }
        ensures cells { self.new ≡ record self.old { cells = take (length self.old.cells - 1) self.old.cells } }
        ensures last { result ≡ slice_index self.old.cells (length self.old.cells - 1) }
        ensures valid { IsPartial self.new }
    {
        self.at -= 1;
        let row = self.at / self.columns;
        let column = self.at % self.columns;
        let sheet = self.cells[self.at];
        put(&mut self.forward, column, row, MISSING);
        put(&mut self.backward, column, (sheet - 1) as usize, MISSING);
        sheet
    }

    /// Writes a sheet where the next cell would stand, and places nothing.
    pub(crate) fn write(&mut self, sheet: u8)
        requires { length self.old.cells < length self.old.written }
        ensures written { self.new ≡ record self.old {
          written = slice_set self.old.written (length self.old.cells) sheet;
        } }
        ensures valid { IsPartial self.new }
    {
        self.cells[self.at] = sheet;
    }

    /// The eight bytes of a letter: at each sheet, from 0, the sheet where it leads, or the mark of a
    /// missing entry.
    fn column(&self, letter: i32) -> &[u8; 8]
        requires { IsLetter self.now.columns letter }
        ensures valid { IsPartial self.now }
        ensures bytes { result.now ≡ bytes self.now.columns self.now.sheets self.now.cells letter }
    {
        let place = letter.unsigned_abs() as usize - 1;
        if letter > 0 {
            &self.forward[place]
        } else {
            &self.backward[place]
        }
    }

    /// Where a letter leads from a sheet, from 0, if the entry is there.
    fn next(&self, letter: i32, sheet: u8) -> Option<u8>
        requires letter { IsLetter self.now.columns letter }
        requires sheet { sheet < self.now.sheets }
        ensures led { option_map suc result
            ≡ led self.now.columns self.now.sheets self.now.cells letter (suc sheet) }
        ensures within { IfSome result (λ t. t < self.now.sheets) }
    {
        let byte = self.column(letter)[sheet as usize];
        if byte == MISSING { None } else { Some(byte) }
    }

    /// Where a word leads from a sheet, from 0, if its cells are there.
    fn walk(&self, word: &[i32], sheet: u8) -> Option<u8>
        requires letters { AreLetters self.now.columns word.now }
        requires sheet { sheet < self.now.sheets }
        ensures { option_map suc result
            ≡ trace self.now.columns self.now.sheets self.now.cells word.now (suc sheet) }
    {
        let mut at = sheet;
        for letter in word {
            match self.next(*letter, at) {
                Some(to) => at = to,
                None => return None,
            }
        }
        Some(at)
    }

    /// Where a word leads from all sheets at once, where all columns of its letters are complete: the
    /// sheets from 0, and past the last sheet each place itself.
    fn round(&self, word: &[i32]) -> Option<[u8; 8]>
        requires letters { AreLetters self.now.columns word.now }
        ensures { IfSome result (λ r. (s : ℕ) → s < 8
            → ended self.now.columns self.now.sheets self.now.cells word.now s ≡ Some (suc (slice_index r s))) }
    {
        let mut bytes = STAY;
        for letter in word {
            let column = self.column(*letter);
            if !is_complete(column) {
                return None;
            }
            bytes = compose8(&bytes, column);
        }
        Some(bytes)
    }

    /// The number of sheets.
    pub(crate) fn sheets(&self) -> u8
        ensures sheets { result ≡ self.now.sheets }
        ensures valid { IsPartial self.now }
    {
        self.sheets
    }

    /// The most sheets that there is room for.
    pub(crate) fn most(&self) -> u8
        ensures { result ≡ self.now.room }
    {
        self.most
    }

    /// The column of the next cell, counted from 0.
    pub(crate) fn next_column(&self) -> usize
        requires { 0 < self.now.columns }
        ensures { result ≡ length self.now.cells % self.now.columns }
    {
        self.at % self.columns
    }

    /// The number of columns.
    pub(crate) fn columns(&self) -> u32
        ensures { result ≡ self.now.columns }
    {
        self.columns as u32
    }

    /// How many cells there are.
    pub(crate) fn len(&self) -> usize
        ensures len { result ≡ length self.now.cells }
        ensures valid { IsPartial self.now }
    {
        self.at
    }

    /// Whether there is a cell for each sheet and column.
    pub(crate) fn is_full(&self) -> bool
        ensures { result ≡ (length self.now.cells == self.now.sheets * self.now.columns) }
    {
        self.at == self.sheets as usize * self.columns
    }

    /// The first so many of all that is written; where there are as many cells, these.
    pub(crate) fn written(&self, count: usize) -> &[u8]
        requires { count ≤ length self.now.written }
        ensures { result.now ≡ take count self.now.written }
    {
        &self.cells[..count]
    }

    /// Whether no walk of the word whose cells are there ends at another sheet than it began.
    pub(crate) fn closes(&self, word: &[i32]) -> bool
        requires letters { AreLetters self.now.columns word.now }
        ensures { result ≡ never_fails self.now.columns self.now.sheets self.now.cells word.now }
    {
        match self.round(word) {
            Some(ends) => stays(&ends, self.sheets()),
            None => self.closes_by_letters(word),
        }
    }

    /// The same, from one sheet after the other, letter by letter.
    fn closes_by_letters(&self, word: &[i32]) -> bool
        requires letters { AreLetters self.now.columns word.now }
        ensures { result ≡ never_fails self.now.columns self.now.sheets self.now.cells word.now }
    {
        for sheet in 0..self.sheets() {
            if !keeps(self.walk(word, sheet), sheet) {
                return false;
            }
        }
        true
    }
}
