ghost use Rattle.std.specs.Prelude.{◌≡◌, ◌+◌, ◌-◌, ◌≤◌, ◌<◌, ℕ, not, false, true, length, slice_set, IfOk};
ghost use Rattle.std.specs.Prelude.{IfSome, OnOk};
ghost use Rattle.number_lists.specs.Words.{holds};
ghost use Rattle.face_poset.specs.Poset.{count};
ghost use Rattle.vector_field.specs.Pairs.{counts_of, is_used};
ghost use Rattle.vector_field.specs.Pairings.{HasCell};
ghost use Rattle.vector_field.specs.Stages.{is_left, IsOnly};

use crate::pairing::Pairing;
use face_poset::Graded;
use std::alloc::{AllocError, Global};
use std::marker::Model;

/// The cells of one dimension that are left, with facets that were noted to be looked at.
#[derive(Drop)]
pub(crate) struct Rest {
    cells: Vec<bool>,
    /// For each facet a number of cells that have it, by which facets are noted.
    shared: Vec<u32>,
    /// The facets that were noted.
    free: Vec<u32>,
    /// How many of these were handed out.
    taken: usize,
    /// Where the look for a cell goes on.
    least: usize,
}

impl Model for Rest {
    ghost use Rattle.std.specs.Prelude.{◌≤◌, length, All};
    ghost use Rattle.vector_field.specs.Stages.{Left};

    ghost Value = { Left };

    ghost view = { λ s. record { cells = s.cells.items; most = length s.shared.items } };

    ghost invariant = { λ s.
        (length s.cells.items ≤ 4294967295) × All (λ f. (1 ≤ f) × (f ≤ length s.shared.items)) s.free.items };
}

impl Rest {
    /// The cells of dimension `dim + 1` that are in no pair.
    pub(crate) fn new<G: Graded>(
        alloc: Global,
        graded: &G,
        pairing: &Pairing,
        dim: u8,
    ) -> Result<Rest, AllocError>
        requires dim { dim < 3 }
        requires counts { pairing.now.counts ≡ counts_of (G.space graded.now) }
        ensures most { IfOk result (λ rest. rest.most ≡ count (G.space graded.now) dim) }
        ensures len { IfOk result (λ rest. length rest.cells ≡ count (G.space graded.now) (dim + 1)) }
        ensures left { IfOk result (λ rest.
            (cell : ℕ) → 1 ≤ cell → cell ≤ count (G.space graded.now) (dim + 1)
            → is_left rest.cells cell ≡ not (is_used pairing.now.pairs (dim + 1) cell)) }
    {
        let cells = unused(alloc, pairing, dim + 1, graded.cells(dim + 1))?;
        let shared = vec![in alloc; 0u32; graded.cells(dim) as usize]?;
        let mut rest = Rest {
            cells,
            shared,
            free: Vec::new(alloc),
            taken: 0,
            least: 0,
        };
        for index in 0..graded.cells(dim) {
            rest.count(index + 1, graded.cofaces(dim, index + 1))?;
        }
        Ok(rest)
    }

    /// Looks at the cofaces of a facet, and may note it.
    fn count(&mut self, facet: u32, cofaces: &[u32]) -> Result<(), AllocError>
        requires first { 1 ≤ facet }
        requires last { facet ≤ self.old.most }
        requires cells { (cell : ℕ) → holds cofaces.now cell ≡ true → (1 ≤ cell) × (cell ≤ length self.old.cells) }
        ensures most { self.new.most ≡ self.old.most }
        ensures cells { self.new.cells ≡ self.old.cells }
    {
        let mut number = 0u32;
        for coface in cofaces {
            if self.holds(*coface) {
                number = number.saturating_add(1);
            }
        }
        self.shared[facet as usize - 1] = number;
        if number == 1 {
            self.free.push(facet)?;
        }
        Ok(())
    }

    /// Whether a cell is left.
    pub(crate) fn holds(&self, cell: u32) -> bool
        requires first { 1 ≤ cell }
        requires last { cell ≤ length self.now.cells }
        ensures { result ≡ is_left self.now.cells cell }
    {
        self.cells[cell as usize - 1]
    }

    /// A facet that was noted, if one is to be looked at.
    pub(crate) fn next_free(&mut self) -> Option<u32>
        ensures most { self.new.most ≡ self.old.most }
        ensures cells { self.new.cells ≡ self.old.cells }
        ensures facet { IfSome result (λ f. (1 ≤ f) × (f ≤ self.old.most)) }
    {
        if self.taken >= self.free.len() {
            return None;
        }
        let facet = self.free[self.taken];
        self.taken += 1;
        Some(facet)
    }

    /// A cell to be taken out, if there is one.
    pub(crate) fn next_left(&mut self) -> Option<u32>
        ensures most { self.new.most ≡ self.old.most }
        ensures cells { self.new.cells ≡ self.old.cells }
        ensures cell { IfSome result (λ cell. (1 ≤ cell) × (cell ≤ length self.old.cells)) }
    {
        for index in self.least..self.cells.len() {
            if self.cells[index] {
                self.least = index;
                return Some(index as u32 + 1);
            }
        }
        self.least = self.cells.len();
        None
    }

    /// A cell that is the only one of these that is left.
    pub(crate) fn only(&self, among: &[u32]) -> Option<u32>
        requires { (cell : ℕ) → holds among.now cell ≡ true → (1 ≤ cell) × (cell ≤ length self.now.cells) }
        ensures { IfSome result (IsOnly self.now.cells among.now) }
    {
        let mut only = None;
        for cell in among {
            if self.holds(*cell) {
                if only.is_some() {
                    return None;
                }
                only = Some(*cell);
            }
        }
        only
    }

    /// Takes a cell with these facets out.
    pub(crate) fn remove(&mut self, cell: u32, facets: &[u32]) -> Result<(), AllocError>
        requires first { 1 ≤ cell }
        requires last { cell ≤ length self.old.cells }
        requires facets { (f : ℕ) → holds facets.now f ≡ true → (1 ≤ f) × (f ≤ self.old.most) }
        ensures most { self.new.most ≡ self.old.most }
        ensures cells { self.new.cells ≡ slice_set self.old.cells (cell - 1) false }
    {
        self.cells[cell as usize - 1] = false;
        for facet in facets {
            self.leave(*facet)?;
        }
        Ok(())
    }

    /// A cell with the facet was taken out; the facet may be noted.
    fn leave(&mut self, facet: u32) -> Result<(), AllocError>
        requires first { 1 ≤ facet }
        requires last { facet ≤ self.old.most }
        ensures most { self.new.most ≡ self.old.most }
        ensures cells { self.new.cells ≡ self.old.cells }
    {
        let at = facet as usize - 1;
        let number = self.shared[at].saturating_sub(1);
        self.shared[at] = number;
        if number == 1 {
            self.free.push(facet)?;
        }
        Ok(())
    }
}

/// For each of the cells from 1 to `most` of a dimension whether it is in no pair.
fn unused(alloc: Global, pairing: &Pairing, dim: u8, most: u32) -> Result<Vec<bool>, AllocError>
    requires { (cell : ℕ) → 1 ≤ cell → cell ≤ most → HasCell pairing.now.counts dim cell }
    ensures len { IfOk result (λ cells. length cells.items ≡ most) }
    ensures left { IfOk result (λ cells.
        (cell : ℕ) → 1 ≤ cell → cell ≤ most
        → is_left cells.items cell ≡ not (is_used pairing.now.pairs dim cell)) }
{
    let mut cells = Vec::new(alloc);
    for index in 0..most {
        cells.push(!pairing.is_used(dim, index + 1))?;
    }
    Ok(cells)
}
