// Lists of cells with a number beside each.
ghost use Rattle.std.specs.Prelude.{◌≡◌, ◌∷◌, ◌++◌, ◌<◌, ◌≤◌, [], length, slice_index, slice_index_or, IfOk, OnOk};
ghost use Rattle.number_lists.specs.Cuts.{cut, IsCut, begin_of};

use std::alloc::{AllocError, Global};
use std::marker::Model;

/// Lists of cells with a number below 256 beside each cell, one list after another in one place. Lists count from 0.
#[derive(Drop)]
pub(crate) struct Parts {
    ends: Vec<usize>,
    cells: Vec<u32>,
    values: Vec<u8>,
}

impl Model for Parts {
    ghost use Rattle.std.specs.Prelude.{◌≡◌, length};
    ghost use Rattle.number_lists.specs.Cuts.{cut, IsCut};
    ghost use Rattle.pair_stages.specs.Columns.{Parts};

    ghost Value = { Parts };

    ghost view = { λ s.
        record
        { cells = cut 0 s.ends.items s.cells.items; values = cut 0 s.ends.items s.values.items } };

    ghost invariant = { λ s.
        IsCut 0 s.ends.items (length s.cells.items)
        × (length s.values.items ≡ length s.cells.items) };
}

impl Parts {
    /// No list yet, with room for so many lists and for so many cells in all.
    pub(crate) fn with_room(
        alloc: Global,
        lists: usize,
        entries: usize,
    ) -> Result<Parts, AllocError>
        ensures cells { IfOk result (λ s. s.cells ≡ []) }
        ensures values { IfOk result (λ s. s.values ≡ []) }
    {
        let mut ends = Vec::new(alloc);
        let mut cells = Vec::new(alloc);
        let mut values = Vec::new(alloc);
        ends.reserve(lists)?;
        cells.reserve(entries)?;
        values.reserve(entries)?;
        Ok(Parts {
            ends,
            cells,
            values,
        })
    }

    /// The cells of a list.
    pub(crate) fn cells(&self, index: usize) -> &[u32]
        requires { index < length self.now.cells }
        ensures { result.now ≡ slice_index_or self.now.cells index [] }
    {
        part_of_cells(&self.ends, &self.cells, index)
    }

    /// The numbers beside the cells of a list.
    pub(crate) fn values(&self, index: usize) -> &[u8]
        requires { index < length self.now.values }
        ensures { result.now ≡ slice_index_or self.now.values index [] }
    {
        part_of_values(&self.ends, &self.values, index)
    }

    /// Puts a list last.
    pub(crate) fn push(&mut self, cells: &[u32], values: &[u8]) -> Result<(), AllocError>
        requires { length values.now ≡ length cells.now }
        ensures cells { OnOk result (self.new.cells ≡ self.old.cells ++ cells.now ∷ []) }
        ensures values { OnOk result (self.new.values ≡ self.old.values ++ values.now ∷ []) }
    {
        self.ends.reserve(1)?;
        self.values.reserve(values.len())?;
        self.cells.extend_from_slice(cells)?;
        self.values.extend_from_slice(values)?;
        self.ends.push(self.cells.len())?;
        Ok(())
    }
}

/// Where the part at an index begins.
fn begin_of_part(ends: &[usize], total: usize, index: usize) -> usize
    requires index { index < length ends.now }
    requires cut { IsCut 0 ends.now total }
    ensures begin { result ≡ begin_of 0 ends.now index }
    ensures low { result ≤ slice_index ends.now index }
    ensures high { slice_index ends.now index ≤ total }
{
    if index == 0 { 0 } else { ends[index - 1] }
}

/// The cells of the part at an index.
fn part_of_cells<'a>(ends: &[usize], cells: &'a [u32], index: usize) -> &'a [u32]
    requires index { index < length ends.now }
    requires cut { IsCut 0 ends.now (length cells.now) }
    ensures { result.now ≡ slice_index_or (cut 0 ends.now cells.now) index [] }
{
    let start = begin_of_part(ends, cells.len(), index);
    let end = ends[index];
    &cells[start..end]
}

/// The values of the part at an index.
fn part_of_values<'a>(ends: &[usize], values: &'a [u8], index: usize) -> &'a [u8]
    requires index { index < length ends.now }
    requires cut { IsCut 0 ends.now (length values.now) }
    ensures { result.now ≡ slice_index_or (cut 0 ends.now values.now) index [] }
{
    let start = begin_of_part(ends, values.len(), index);
    let end = ends[index];
    &values[start..end]
}
