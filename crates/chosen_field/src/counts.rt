ghost use Rattle.std.specs.Prelude.{◌≡◌, ◌-◌, ◌≤◌, length, replicate, slice_index, slice_set, IfOk, OnOk};
ghost use Rattle.std.specs.List.{find};
ghost use Rattle.number_lists.specs.Words.{upto};
ghost use Rattle.chosen_field.specs.Rests.{is_single};

use std::alloc::{AllocError, Global};
use std::collections::BTreeSet;
use std::marker::Model;

/// A number at each cell, which is counted from 1, with the cells whose number is 1. Contracts see the
/// numbers.
#[derive(Drop)]
pub(crate) struct Counts {
    numbers: Vec<u32>,
    single: BTreeSet<u32>,
}

impl Model for Counts {
    ghost use Rattle.std.specs.Prelude.{List, ℕ};
    ghost use Rattle.chosen_field.specs.Rests.{AreSingle};

    ghost Value = { List ℕ };

    ghost view = { λ s. s.numbers.items };

    ghost invariant = { λ s. AreSingle s.numbers.items s.single };
}

impl Counts {
    /// The number 0 at each of so many cells.
    pub(crate) fn new(alloc: Global, cells: usize) -> Result<Counts, AllocError>
        ensures { IfOk result (λ counts. counts ≡ replicate cells 0) }
    {
        let numbers = vec![in alloc; 0u32; cells]?;
        Ok(Counts {
            numbers,
            single: BTreeSet::new(alloc),
        })
    }

    /// The least cell whose number is 1.
    pub(crate) fn first(&self) -> Option<u32>
        ensures { result ≡ find (is_single self.now) (upto (length self.now)) }
    {
        match self.single.first() {
            Some(cell) => Some(*cell),
            None => None,
        }
    }

    /// Puts a number at a cell.
    pub(crate) fn put(&mut self, cell: u32, number: u32) -> Result<(), AllocError>
        requires first { 1 ≤ cell }
        requires last { cell ≤ length self.old }
        ensures len { length self.new ≡ length self.old }
        ensures counts { OnOk result (self.new ≡ slice_set self.old (cell - 1) number) }
    {
        let at = cell as usize - 1;
        if number == 1 {
            self.single.insert(cell)?;
        } else if self.numbers[at] == 1 {
            self.single.remove(&cell);
        }
        self.numbers[at] = number;
        Ok(())
    }

    /// One less at a cell, down to 0.
    pub(crate) fn leave(&mut self, cell: u32) -> Result<(), AllocError>
        requires first { 1 ≤ cell }
        requires last { cell ≤ length self.old }
        ensures len { length self.new ≡ length self.old }
        ensures counts { OnOk result (self.new ≡ slice_set self.old (cell - 1) (slice_index self.old (cell - 1) - 1)) }
    {
        let number = self.numbers[cell as usize - 1].saturating_sub(1);
        self.put(cell, number)
    }
}
