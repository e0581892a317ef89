ghost use Rattle.std.specs.Prelude.{◌≡◌, ◌≤◌, ◌<◌, ◌*◌, ◌↔◌, [], ◌+◌, length, true, false, max, slice_index, IsTrue};
ghost use Rattle.sheet_laws.specs.Tables.{is_table, is_least, IsTransitive};
ghost use Rattle.live_laws.specs.Live.{follows};
ghost use Rattle.least_tables.specs.Smaller.{RowsAppear, IsGrown, HasSmaller, HasNoSmaller};
ghost use Rattle.least_tables.specs.Numberings.{IsNextPlace};

use crate::numbering::Numbering;
use sheet_tables::Table;

/// Whether no renumbering precedes a table whose columns are permutations and lead from sheet 1 to
/// each sheet.
pub fn is_least_table(table: &Table) -> bool
    requires table { is_table table.now.columns table.now.sheets table.now.cells ≡ true }
    requires transitive { IsTransitive table.now.columns table.now.sheets table.now.cells }
    ensures { result ≡ is_least table.now.columns table.now.sheets table.now.cells }
{
    let cells = table.cells();
    rows_appear(table.columns(), cells) && none_is_smaller(table.sheets(), table.columns(), cells)
}

/// Whether no renumbering precedes a whole table of 1 to 8 sheets that meets the rules of first
/// appearance, given by its cells row by row.
pub fn is_least(sheets: u8, columns: u32, cells: &[u8]) -> bool
    requires some { 1 ≤ sheets }
    requires most { sheets ≤ 8 }
    requires whole { length cells.now ≡ sheets * columns }
    requires rules { follows columns sheets [] cells.now ≡ true }
    ensures { result ≡ is_least columns sheets cells.now }
{
    none_is_smaller(sheets, columns, cells)
}

/// The same, where each row has appeared in the cells before it.
fn none_is_smaller(sheets: u8, columns: u32, cells: &[u8]) -> bool
    requires most { sheets ≤ 8 }
    requires grown { IsGrown columns sheets cells.now }
    ensures { result ≡ is_least columns sheets cells.now }
{
    for first in 0..sheets {
        if is_smaller_from(sheets, columns, cells, first) {
            return false;
        }
    }
    true
}

/// Whether the renumbered table precedes that begins with this sheet, and numbers the others in the
/// order in which its cells lead to them. If not, then none does that begins with this sheet.
fn is_smaller_from(sheets: u8, columns: u32, cells: &[u8], first: u8) -> bool
    requires most { sheets ≤ 8 }
    requires first { first < sheets }
    requires grown { IsGrown columns sheets cells.now }
    ensures some { result ≡ true → HasSmaller columns sheets cells.now }
    ensures none { result ≡ false → HasNoSmaller columns sheets first cells.now }
{
    let mut numbering = Numbering::begun_at(sheets, first);
    let mut known: u8 = 1;
    let mut row: u8 = 0;
    let mut column: u32 = 0;
    for place in 0..cells.len() {
        let sheet = cell(columns, cells, numbering.sheets[row as usize], column) - 1;
        known = numbering.give(sheet, known);
        let number = numbering.numbers[sheet as usize] + 1;
        if number < cells[place] {
            return true;
        }
        if number > cells[place] {
            return false;
        }
        (row, column) = next_place(columns, row, column);
    }
    false
}

/// Whether each row has appeared in the cells before it.
fn rows_appear(columns: u32, cells: &[u8]) -> bool
    requires { 0 < length cells.now → 0 < columns }
    ensures { IsTrue result ↔ RowsAppear columns cells.now }
{
    let mut seen: u8 = 1;
    let mut row: u8 = 0;
    let mut column: u32 = 0;
    for place in 0..cells.len() {
        if row >= seen {
            return false;
        }
        seen = larger(seen, cells[place]);
        (row, column) = next_place(columns, row, column);
    }
    true
}

/// The cell in a row and a column, both counted from 0.
fn cell(columns: u32, cells: &[u8], row: u8, column: u32) -> u8
    requires { columns * row + column < length cells.now }
    ensures { result ≡ slice_index cells.now (columns * row + column) }
{
    cells[columns as usize * row as usize + column as usize]
}

/// The row and the column of the next place.
fn next_place(columns: u32, row: u8, column: u32) -> (u8, u32)
    requires row { row < 255 }
    requires column { column < columns }
    ensures { IsNextPlace columns row column result.0 result.1 }
{
    if column + 1 == columns {
        (row + 1, 0)
    } else {
        (row, column + 1)
    }
}

/// The larger of two sheets.
fn larger(one: u8, other: u8) -> u8
    ensures { result ≡ max one other }
{
    if one < other { other } else { one }
}
