// Tallies of the cells that have a facet.
ghost use Rattle.std.specs.Prelude.{◌≡◌, ◌≤◌, ◌-◌, length, true};
ghost use Rattle.face_poset.specs.Poset.{IsCell, count};
ghost use Rattle.regular_check.specs.Rules.{each_twice};
ghost use Rattle.regular_check.specs.Tally.{AllGain, AllClear, IsBlank, IsTally, IsModest, all_double};

use face_poset::{Graded, Space};

/// How many cells have a facet, and the sum of their numbers.
#[derive(Clone, Copy)]
pub(crate) struct Tally {
    pub(crate) count: u32,
    pub(crate) sum: u64,
}

/// The tally of a facet that no cell has.
pub(crate) const NONE: Tally = Tally { count: 0, sum: 0 };

/// Counts each of these cells at each of its facets.
pub(crate) fn tally_cells(space: &Space, dim: u8, cells: &[u32], tallies: &mut [Tally])
    requires low { 1 ≤ dim }
    requires cells { IsCell (count space.now dim) cells.now }
    requires few { count space.now dim ≤ 60000 }
    requires room { count space.now (dim - 1) ≤ length tallies.old }
    requires blank { IsBlank tallies.old }
    ensures { IsTally space.now dim cells.now tallies.new }
{
    for cell in cells {
        add_cell(tallies, space.facets(dim, *cell), *cell);
    }
}

/// Whether each facet of the cells is a facet of exactly two of them.
pub(crate) fn are_each_twice(space: &Space, dim: u8, cells: &[u32], tallies: &[Tally]) -> bool
    requires low { 1 ≤ dim }
    requires cells { IsCell (count space.now dim) cells.now }
    requires room { count space.now (dim - 1) ≤ length tallies.now }
    requires tally { IsTally space.now dim cells.now tallies.now }
    ensures { result ≡ each_twice space.now dim cells.now }
{
    for cell in cells {
        if !are_double(tallies, space.facets(dim, *cell)) {
            return false;
        }
    }
    true
}

/// Takes the tallies of the facets of these cells back.
pub(crate) fn clear(space: &Space, dim: u8, cells: &[u32], tallies: &mut [Tally])
    requires low { 1 ≤ dim }
    requires cells { IsCell (count space.now dim) cells.now }
    requires room { count space.now (dim - 1) ≤ length tallies.old }
    requires tally { IsTally space.now dim cells.now tallies.old }
    ensures { IsBlank tallies.new }
{
    for cell in cells {
        clear_facets(tallies, space.facets(dim, *cell));
    }
}

/// Counts a cell at each of its facets.
fn add_cell(tallies: &mut [Tally], facets: &[u32], cell: u32)
    requires facets { IsCell (length tallies.old) facets.now }
    requires modest { IsModest tallies.old }
    ensures { AllGain facets.now cell tallies.old tallies.new }
{
    for facet in facets {
        let tally = &mut tallies[*facet as usize - 1];
        tally.count += 1;
        tally.sum += u64::from(cell);
    }
}

/// Whether exactly two cells are counted at each of these facets.
fn are_double(tallies: &[Tally], facets: &[u32]) -> bool
    requires { IsCell (length tallies.now) facets.now }
    ensures { result ≡ all_double tallies.now facets.now }
{
    for facet in facets {
        if tallies[*facet as usize - 1].count != 2 {
            return false;
        }
    }
    true
}

/// Takes the tallies of these facets back.
fn clear_facets(tallies: &mut [Tally], facets: &[u32])
    requires { IsCell (length tallies.old) facets.now }
    ensures { AllClear facets.now tallies.old tallies.new }
{
    for facet in facets {
        tallies[*facet as usize - 1] = NONE;
    }
}
