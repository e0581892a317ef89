ghost use Rattle.std.specs.Prelude.{◌≡◌, ◌<◌, ◌∷◌, ◌++◌, [], length, slice_index_or, OnOk, OnErr};

use std::alloc::{AllocError, Global};
use std::marker::Model;

/// A cell: its dimension, from 0 to 3, and its number in that dimension, counted from 1.
#[derive(Clone, Copy, PartialEq, Eq, Debug)]
pub struct Cell {
    pub dim: u8,
    pub number: u32,
}

/// A cell with one of its cofaces, by their numbers: `lower` has dimension `dim`, and `upper`, of
/// which it is a facet, has dimension `dim + 1`.
#[derive(Clone, Copy, PartialEq, Eq, Debug)]
pub struct Pair {
    pub dim: u8,
    pub lower: u32,
    pub upper: u32,
}

/// A list of cells, which contracts see as a list.
#[derive(Drop)]
pub struct CellList {
    cells: Vec<Cell>,
}

impl Model for CellList {
    ghost use Rattle.std.specs.Prelude.{List, ◌≤◌, length};
    ghost use Rattle.face_poset.specs.declared.cells.Cell.{Cell};

    ghost Value = { List Cell };

    ghost view = { λ s. s.cells.items };

    ghost invariant = { λ s. length s.cells.items ≤ 4294967295 };
}

impl CellList {
    /// The empty list.
    pub(crate) fn new(alloc: Global) -> CellList
        ensures { result ≡ [] }
    {
        CellList {
            cells: Vec::new(alloc),
        }
    }

    /// How many cells are in the list.
    pub fn len(&self) -> u32
        ensures { result ≡ length self.now }
    {
        self.cells.len() as u32
    }

    /// The cell at an index, counted from 0.
    pub fn get(&self, index: u32) -> Cell
        requires { index < length self.now }
        ensures { result ≡ slice_index_or self.now index result }
    {
        self.cells[index as usize]
    }

    /// Puts a cell last.
    pub(crate) fn push(&mut self, cell: Cell) -> Result<(), AllocError>
        requires { length self.old < 4294967295 }
        ensures ok { OnOk result (self.new ≡ self.old ++ cell ∷ []) }
        ensures err { OnErr result (self.new ≡ self.old) }
    {
        self.cells.push(cell)?;
        Ok(())
    }
}
