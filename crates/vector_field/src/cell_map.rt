ghost use Rattle.std.specs.Prelude.{◌≡◌, ◌↔◌, ◌≤◌, ◌-◌, ℕ, map, length, slice_index_or, slice_set, replicate};
ghost use Rattle.std.specs.Prelude.{Some, None, IfOk, IsTrue};
ghost use Rattle.vector_field.specs.CellMaps.{at, row, IsPut};
ghost use Rattle.vector_field.specs.Pairs.{counts_of};

use face_poset::Graded;
use std::alloc::{AllocError, Global};
use std::marker::Model;

/// For each cell of one dimension a number, or none.
#[derive(Drop)]
struct Row {
    cells: Vec<Option<u32>>,
}

impl Model for Row {
    ghost use Rattle.std.specs.Prelude.{List, ℕ, Option};

    ghost Value = { List (Option ℕ) };

    ghost view = { λ s. s.cells.items };
}

impl Row {
    /// No number for any of so many cells.
    fn new(alloc: Global, cells: u32) -> Result<Row, AllocError>
        ensures { IfOk result (λ row. row ≡ replicate cells None) }
    {
        let cells = vec![in alloc; None; cells as usize]?;
        Ok(Row { cells })
    }

    /// The number at a cell, which is counted from 1.
    fn get(&self, cell: u32) -> Option<u32>
        requires first { 1 ≤ cell }
        requires last { cell ≤ length self.now }
        ensures { result ≡ slice_index_or self.now (cell - 1) None }
    {
        self.cells[cell as usize - 1]
    }

    /// Puts a number at a cell, which is counted from 1.
    fn set(&mut self, cell: u32, number: u32)
        requires first { 1 ≤ cell }
        requires last { cell ≤ length self.old }
        ensures { self.new ≡ slice_set self.old (cell - 1) (Some number) }
    {
        self.cells[cell as usize - 1] = Some(number);
    }
}

/// For each cell of dimensions 0 to 3 a number, or none. Contracts see it as four lists.
#[derive(Drop)]
pub(crate) struct CellMap {
    rows: [Row; 4],
}

impl Model for CellMap {
    ghost use Rattle.std.specs.Prelude.{◌≡◌, length, List, ℕ, Option};

    ghost Value = { List (List (Option ℕ)) };

    ghost view = { λ s. s.rows };

    ghost invariant = { λ s. length s.rows ≡ 4 };
}

impl CellMap {
    /// No number for any cell of the graded set.
    pub(crate) fn new<G: Graded>(alloc: Global, graded: &G) -> Result<CellMap, AllocError>
        ensures counts { IfOk result (λ cells. map (λ r. length r) cells ≡ counts_of (G.space graded.now)) }
        ensures empty { IfOk result (λ cells. (dim cell : ℕ) → at cells dim cell ≡ None) }
    {
        let vertices = Row::new(alloc, graded.cells(0))?;
        let edges = Row::new(alloc, graded.cells(1))?;
        let disks = Row::new(alloc, graded.cells(2))?;
        let solids = Row::new(alloc, graded.cells(3))?;
        Ok(CellMap {
            rows: [vertices, edges, disks, solids],
        })
    }

    /// Whether there is such a cell.
    pub(crate) fn has(&self, dim: u8, cell: u32) -> bool
        ensures { IsTrue result ↔ ((1 ≤ cell) × (cell ≤ length (row self.now dim))) }
    {
        let rows = &self.rows;
        if dim as usize >= rows.len() {
            return false;
        }
        let row = &rows[dim as usize];
        1 <= cell && cell as usize <= row.cells.len()
    }

    /// The number at a cell, which is counted from 1.
    pub(crate) fn get(&self, dim: u8, cell: u32) -> Option<u32>
        requires first { 1 ≤ cell }
        requires last { cell ≤ length (row self.now dim) }
        ensures { result ≡ at self.now dim cell }
    {
        let row = &self.rows[dim as usize];
        row.get(cell)
    }

    /// Puts a number at a cell, which is counted from 1.
    pub(crate) fn set(&mut self, dim: u8, cell: u32, number: u32)
        requires first { 1 ≤ cell }
        requires last { cell ≤ length (row self.old dim) }
        ensures counts { map (λ r. length r) self.new ≡ map (λ r. length r) self.old }
        ensures put { IsPut self.old dim cell number self.new }
    {
        let row = &mut self.rows[dim as usize];
        row.set(cell, number);
    }
}
