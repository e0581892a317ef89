ghost use Rattle.std.specs.Prelude.{◌≡◌, ◌-◌, ◌+◌, ◌≤◌, ◌<◌, ℕ, All, cond, false, filter, length};
ghost use Rattle.std.specs.Prelude.{slice_index, slice_set, IfOk, OnOk};
ghost use Rattle.std.specs.List.{find};
ghost use Rattle.std.specs.List.Sorted.{IsStrictlyIncreasing};
ghost use Rattle.number_lists.specs.Words.{upto, holds};
ghost use Rattle.face_poset.specs.Poset.{count};
ghost use Rattle.vector_field.specs.Stages.{is_left};
ghost use Rattle.chosen_field.specs.Rests.{left_of, is_single, AreCounts};

use crate::counts::Counts;
use face_poset::Graded;
use std::alloc::{AllocError, Global};
use std::marker::Model;

/// Some cells of one dimension that are left, with how many of them have each facet.
#[derive(Drop)]
pub(crate) struct Rest {
    cells: Vec<bool>,
    shared: Counts,
    /// No cell before this index is left.
    least: usize,
}

impl Model for Rest {
    ghost use Rattle.std.specs.Prelude.{◌≤◌, length};
    ghost use Rattle.chosen_field.specs.Rests.{Counted, IsGoneBelow};

    ghost Value = { Counted };

    ghost view = { λ s. record { cells = s.cells.items; shared = s.shared } };

    ghost invariant = { λ s. (length s.cells.items ≤ 4294967295) × IsGoneBelow s.cells.items s.least };
}

impl Rest {
    /// These cells of dimension `dim + 1`.
    pub(crate) fn new<G: Graded>(
        alloc: Global,
        graded: &G,
        dim: u8,
        cells: &[u32],
    ) -> Result<Rest, AllocError>
        requires dim { dim < 3 }
        requires rise { IsStrictlyIncreasing cells.now }
        requires within { All (λ c. (1 ≤ c) × (c ≤ count (G.space graded.now) (dim + 1))) cells.now }
        ensures cells { IfOk result (λ rest. length rest.cells ≡ count (G.space graded.now) (dim + 1)) }
        ensures left { IfOk result (λ rest. left_of rest.cells ≡ cells.now) }
        ensures shared { IfOk result (λ rest. length rest.shared ≡ count (G.space graded.now) dim) }
        ensures counts { IfOk result (λ rest.
            AreCounts (G.space graded.now) dim (count (G.space graded.now) dim) rest.cells rest.shared) }
    {
        let flags = flags_of(alloc, graded.cells(dim + 1), cells)?;
        let mut shared = Counts::new(alloc, graded.cells(dim) as usize)?;
        for index in 0..graded.cells(dim) {
            let number = count_left(&flags, graded.cofaces(dim, index + 1));
            shared.put(index + 1, number)?;
        }
        Ok(Rest {
            cells: flags,
            shared,
            least: 0,
        })
    }

    /// The least facet that just one cell has.
    pub(crate) fn first_free(&self) -> Option<u32>
        ensures { result ≡ find (is_single self.now.shared) (upto (length self.now.shared)) }
    {
        self.shared.first()
    }

    /// The least cell that is left.
    pub(crate) fn first_left(&mut self) -> Option<u32>
        ensures cells { self.new.cells ≡ self.old.cells }
        ensures shared { self.new.shared ≡ self.old.shared }
        ensures cell { result ≡ find (is_left self.old.cells) (upto (length self.old.cells)) }
    {
        for index in self.least..self.cells.len() {
            if self.cells[index] {
                self.least = index;
                return Some(index as u32 + 1);
            }
        }
        self.least = self.cells.len();
        None
    }

    /// The first of these cells that is left.
    pub(crate) fn first_of(&self, among: &[u32]) -> Option<u32>
        requires { All (λ cell. (1 ≤ cell) × (cell ≤ length self.now.cells)) among.now }
        ensures { result ≡ find (is_left self.now.cells) among.now }
    {
        for cell in among {
            if self.cells[*cell as usize - 1] {
                return Some(*cell);
            }
        }
        None
    }

    /// Takes a cell with these facets out.
    pub(crate) fn remove(&mut self, cell: u32, facets: &[u32]) -> Result<(), AllocError>
        requires first { 1 ≤ cell }
        requires last { cell ≤ length self.old.cells }
        requires rise { IsStrictlyIncreasing facets.now }
        requires facets { All (λ f. (1 ≤ f) × (f ≤ length self.old.shared)) facets.now }
        ensures cells { self.new.cells ≡ slice_set self.old.cells (cell - 1) false }
        ensures len { length self.new.shared ≡ length self.old.shared }
        ensures shared { OnOk result
            ((f : ℕ) → 1 ≤ f
            → slice_index self.new.shared (f - 1)
            ≡ slice_index self.old.shared (f - 1) - cond (holds facets.now f) 1 0) }
    {
        self.cells[cell as usize - 1] = false;
        for facet in facets {
            self.leave(*facet)?;
        }
        Ok(())
    }

    /// One cell with the facet is left no more.
    fn leave(&mut self, facet: u32) -> Result<(), AllocError>
        requires first { 1 ≤ facet }
        requires last { facet ≤ length self.old.shared }
        ensures cells { self.new.cells ≡ self.old.cells }
        ensures len { length self.new.shared ≡ length self.old.shared }
        ensures shared { OnOk result
            (self.new.shared
            ≡ slice_set self.old.shared (facet - 1) (slice_index self.old.shared (facet - 1) - 1)) }
    {
        self.shared.leave(facet)
    }
}

/// How many of these cells are left.
fn count_left(cells: &[bool], among: &[u32]) -> u32
    requires few { length among.now ≤ 4294967295 }
    requires cells { All (λ cell. (1 ≤ cell) × (cell ≤ length cells.now)) among.now }
    ensures { result ≡ length (filter (is_left cells.now) among.now) }
{
    let mut number = 0u32;
    for cell in among {
        if cells[*cell as usize - 1] {
            number += 1;
        }
    }
    number
}

/// A flag for each of the numbers from 1 to `most`: whether it is one of these.
pub(crate) fn flags_of(alloc: Global, most: u32, cells: &[u32]) -> Result<Vec<bool>, AllocError>
    requires rise { IsStrictlyIncreasing cells.now }
    requires within { All (λ c. (1 ≤ c) × (c ≤ most)) cells.now }
    ensures len { IfOk result (λ flags. length flags.items ≡ most) }
    ensures flags { IfOk result (λ flags. (c : ℕ) → 1 ≤ c → is_left flags.items c ≡ holds cells.now c) }
{
    let mut flags = vec![in alloc; false; most as usize]?;
    for cell in cells {
        flags[*cell as usize - 1] = true;
    }
    Ok(flags)
}
