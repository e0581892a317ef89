ghost use Rattle.std.specs.Prelude.{◌≡◌, ◌≤◌, length, replicate, IfOk};
ghost use Rattle.sheet_tables.specs.Tables.{IsTable, entry_of};

use std::alloc::{AllocError, Global};
use std::marker::Model;

/// A sheet table: for each sheet and each column the sheet that is reached, as one permutation a column
/// would be written row by row. Sheets and columns are numbered from 1. It has room for a number of
/// sheets, which is no part of what makes two tables equal.
#[derive(Drop)]
pub struct Table {
    sheets: u8,
    columns: u32,
    cells: Vec<u8>,
    room: u8,
}

impl Model for Table {
    ghost use Rattle.std.specs.Prelude.{◌≤◌, ◌*◌};
    ghost use Rattle.std.specs.Vec.{vec_capacity};
    ghost use Rattle.sheet_tables.specs.Tables.{Rows, IsTable};

    ghost Value = { Rows };

    ghost view = { λ t. record { sheets = t.sheets; columns = t.columns; cells = t.cells.items; room = t.room } };

    ghost invariant = { λ t.
        IsTable t.sheets t.columns t.cells.items × (t.sheets ≤ t.room) × (t.room ≤ 8)
        × (t.room * t.columns ≤ vec_capacity t.cells) };
}

impl Table {
    /// The table of 1 to 8 sheets with these cells row by row, each from 1 to the sheets. Its room is
    /// its number of sheets.
    pub fn from_cells(
        alloc: Global,
        sheets: u8,
        columns: u32,
        cells: &[u8],
    ) -> Result<Table, AllocError>
        requires { IsTable sheets columns cells.now }
        ensures { IfOk result
            (λ t. t ≡ record { sheets = sheets; columns = columns; cells = cells.now; room = sheets }) }
    {
        Ok(Table {
            sheets,
            columns,
            cells: Vec::from_slice(alloc, cells)?,
            room: sheets,
        })
    }

    /// The table of one sheet, whose cells are all 1, with room for so many sheets, 1 to 8.
    pub fn with_room(alloc: Global, sheets: u8, columns: u32) -> Result<Table, AllocError>
        requires some { 1 ≤ sheets }
        requires most { sheets ≤ 8 }
        ensures { IfOk result
            (λ t. t ≡ record { sheets = 1; columns = columns; cells = replicate columns 1; room = sheets }) }
    {
        let mut cells = Vec::with_capacity(alloc, sheets as usize * columns as usize)?;
        let _ = cells.resize(columns as usize, 1);
        Ok(Table {
            sheets: 1,
            columns,
            cells,
            room: sheets,
        })
    }

    /// The number of sheets, 1 to 8.
    pub fn sheets(&self) -> u8
        ensures sheets { result ≡ self.now.sheets }
        ensures valid { IsTable self.now.sheets self.now.columns self.now.cells }
    {
        self.sheets
    }

    /// The number of columns.
    pub fn columns(&self) -> u32
        ensures { result ≡ self.now.columns }
    {
        self.columns
    }

    /// The cell in a row and a column, both numbered from 1.
    pub fn cell(&self, sheet: u8, column: u32) -> u8
        requires first_sheet { 1 ≤ sheet }
        requires last_sheet { sheet ≤ self.now.sheets }
        requires first_column { 1 ≤ column }
        requires last_column { column ≤ self.now.columns }
        ensures { result ≡ entry_of self.now.columns self.now.cells sheet column }
    {
        let row = (sheet as usize - 1) * self.columns as usize;
        self.cells[row + (column as usize - 1)]
    }

    /// The cells row by row, each from 1 to the number of sheets.
    pub fn cells(&self) -> &[u8]
        ensures cells { result.now ≡ self.now.cells }
        ensures valid { IsTable self.now.sheets self.now.columns self.now.cells }
    {
        &self.cells
    }

    /// How many sheets the table can hold, 1 to 8.
    pub fn room(&self) -> u8
        ensures room { result ≡ self.now.room }
        ensures sheets { self.now.sheets ≤ self.now.room }
        ensures most { self.now.room ≤ 8 }
    {
        self.room
    }

    /// Puts these sheets and cells in place of the old ones; the columns and the room stay. It takes no
    /// memory.
    pub fn refill(&mut self, sheets: u8, cells: &[u8])
        requires table { IsTable sheets self.old.columns cells.now }
        requires room { sheets ≤ self.old.room }
        ensures { self.new
            ≡ record
            { sheets = sheets; columns = self.old.columns; cells = cells.now; room = self.old.room } }
    {
        self.sheets = sheets;
        self.cells.clear();
        let _ = self.cells.extend_from_slice(cells);
    }
}
