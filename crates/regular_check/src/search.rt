// The search that tells whether cells are connected across their facets.
ghost use Rattle.std.specs.Prelude.{◌≡◌, ◌≤◌, ◌-◌, length, true, map, All, OnOk, IfOk};
ghost use Rattle.std.specs.List.{list_all, flat_map};
ghost use Rattle.number_lists.specs.Words.{holds};
ghost use Rattle.face_poset.specs.Poset.{IsCell, count, facets_of};
ghost use Rattle.number_lists.specs.Found.{inserted_all};
ghost use Rattle.regular_check.specs.Rules.{each_twice, connected};
ghost use Rattle.regular_check.specs.Tally.{IsTally, IsBlank, AreOthers, other};

use crate::tally::{Tally, are_each_twice, clear, tally_cells};
use face_poset::{Graded, Space};
use number_lists::FoundNumbers;
use std::alloc::AllocError;

/// How cells of one dimension hang together.
#[derive(Clone, Copy)]
pub(crate) struct Shape {
    /// Each facet of the cells is a facet of exactly two of them.
    pub(crate) is_closed: bool,
    /// They are connected across their facets; told where they are closed.
    pub(crate) is_connected: bool,
}

/// How these cells of a dimension hang together.
pub(crate) fn shape_of(
    space: &Space,
    dim: u8,
    cells: &[u32],
    tallies: &mut [Tally],
    found: &mut FoundNumbers,
) -> Result<Shape, AllocError>
    requires low { 1 ≤ dim }
    requires cells { IsCell (count space.now dim) cells.now }
    requires few { count space.now dim ≤ 60000 }
    requires room { count space.now (dim - 1) ≤ length tallies.old }
    requires most { count space.now dim ≤ found.old.most }
    requires blank { IsBlank tallies.old }
    ensures most { found.new.most ≡ found.old.most }
    ensures blank { OnOk result (IsBlank tallies.new) }
    ensures closed { IfOk result (λ shape. shape.is_closed ≡ each_twice space.now dim cells.now) }
    ensures connected { IfOk result (λ shape.
        each_twice space.now dim cells.now ≡ true → shape.is_connected ≡ connected space.now dim cells.now) }
{
    tally_cells(space, dim, cells, tallies);
    let is_closed = are_each_twice(space, dim, cells, tallies);
    let is_connected = if is_closed {
        are_connected(space, dim, cells, tallies, found)?
    } else {
        false
    };
    clear(space, dim, cells, tallies);
    Ok(Shape {
        is_closed,
        is_connected,
    })
}

/// Whether the cells are connected across their facets, each of which is a facet of exactly two of them.
pub(crate) fn are_connected(
    space: &Space,
    dim: u8,
    cells: &[u32],
    tallies: &[Tally],
    found: &mut FoundNumbers,
) -> Result<bool, AllocError>
    requires low { 1 ≤ dim }
    requires cells { IsCell (count space.now dim) cells.now }
    requires few { count space.now dim ≤ 60000 }
    requires room { count space.now (dim - 1) ≤ length tallies.now }
    requires most { count space.now dim ≤ found.old.most }
    requires tally { IsTally space.now dim cells.now tallies.now }
    requires twice { each_twice space.now dim cells.now ≡ true }
    ensures most { found.new.most ≡ found.old.most }
    ensures connected { IfOk result (λ answer. answer ≡ connected space.now dim cells.now) }
{
    found.clear();
    found.insert(cells[0])?;
    for head in 0..cells.len() {
        if head < found.len() {
            let cell = found.get(head);
            find_across(tallies, space.facets(dim, cell), cell, found)?;
        }
    }
    Ok(are_found(cells, found))
}

/// Puts the cells across these facets of a cell among those found.
fn find_across(
    tallies: &[Tally],
    facets: &[u32],
    cell: u32,
    found: &mut FoundNumbers,
) -> Result<(), AllocError>
    requires facets { IsCell (length tallies.now) facets.now }
    requires others { AreOthers tallies.now facets.now cell found.old.most }
    ensures most { found.new.most ≡ found.old.most }
    ensures numbers { OnOk result
        (found.new.found ≡ inserted_all found.old.found (map (other tallies.now cell) facets.now)) }
{
    for facet in facets {
        let across = tallies[*facet as usize - 1].sum - u64::from(cell);
        found.insert(across as u32)?;
    }
    Ok(())
}

/// Whether all of these cells were found.
fn are_found(cells: &[u32], found: &FoundNumbers) -> bool
    requires { IsCell found.now.most cells.now }
    ensures { result ≡ list_all (holds found.now.found) cells.now }
{
    for cell in cells {
        if !found.holds(*cell) {
            return false;
        }
    }
    true
}

/// Puts the facets of these cells among those found.
pub(crate) fn insert_facets(
    space: &Space,
    dim: u8,
    cells: &[u32],
    found: &mut FoundNumbers,
) -> Result<(), AllocError>
    requires low { 1 ≤ dim }
    requires cells { All (λ c. (1 ≤ c) × (c ≤ count space.now dim)) cells.now }
    requires most { count space.now (dim - 1) ≤ found.old.most }
    ensures most { found.new.most ≡ found.old.most }
    ensures numbers { OnOk result
        (found.new.found ≡ inserted_all found.old.found (flat_map (facets_of space.now dim) cells.now)) }
{
    for cell in cells {
        found.insert_all(space.facets(dim, *cell))?;
    }
    Ok(())
}
