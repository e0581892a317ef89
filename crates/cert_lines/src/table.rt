ghost use Rattle.std.specs.Prelude.{◌≡◌, ◌==◌, ◌≤◌, ◌++◌, [], if◌then◌else◌, IfOk, option_map, Some, None};
ghost use Rattle.std.specs.List.{slice_split};
ghost use Rattle.certificates.specs.Placed.{row_of, rows_from, table_of};
ghost use Rattle.certificates.specs.WellFormed.{is_between};
ghost use Rattle.cert_lines.specs.Tables.{table_in, if_row, if_rows, rows_after, content, content_of};

use crate::lists::word_at;
use crate::scan::cut;
use crate::word::{is_same, read_number};
use sheet_tables::Table;
use std::alloc::{AllocError, Global};

/// The table of so many sheets and columns that stands so many words behind the first word of the line,
/// counted from 0, if that word is the text of one: `-` where there is no column, else a row for each
/// sheet, with a number from 1 to the sheets for each column.
pub fn table_at(
    alloc: Global,
    line: &[u8],
    place: usize,
    sheets: u8,
    columns: u32,
) -> Result<Option<Table>, AllocError>
    requires some { 1 ≤ sheets }
    requires most { sheets ≤ 8 }
    ensures { IfOk result (λ table. option_map content table
        ≡ option_map (content_of sheets columns) (if_rows columns sheets (table_in line.now place))) }
{
    match word_at(line, place) {
        None => Ok(None),
        Some(word) => read_table(alloc, word, sheets, columns),
    }
}

fn read_table(
    alloc: Global,
    word: &[u8],
    sheets: u8,
    columns: u32,
) -> Result<Option<Table>, AllocError>
    requires some { 1 ≤ sheets }
    requires most { sheets ≤ 8 }
    ensures { IfOk result (λ table. option_map content table
        ≡ option_map (content_of sheets columns) (if_rows columns sheets (table_of word.now))) }
{
    match read_cells(alloc, word, sheets, columns)? {
        None => Ok(None),
        Some(cells) => Ok(Some(Table::from_cells(alloc, sheets, columns, &cells)?)),
    }
}

/// The cells of the table, row by row.
fn read_cells(
    alloc: Global,
    word: &[u8],
    sheets: u8,
    columns: u32,
) -> Result<Option<Vec<u8>>, AllocError>
    ensures { IfOk result (λ cells. option_map (λ v. v.items) cells
        ≡ if_rows columns sheets (table_of word.now)) }
{
    if is_same(word, b"-") {
        return Ok(none_if(alloc, columns == 0));
    }
    if columns == 0 {
        return Ok(None);
    }
    read_rows(alloc, word, sheets, columns)
}

fn none_if(alloc: Global, stands: bool) -> Option<Vec<u8>>
    ensures { option_map (λ v. v.items) result ≡ (if stands then Some [] else None) }
{
    if stands { Some(Vec::new(alloc)) } else { None }
}

/// The cells of rows with slashes between them.
fn read_rows(
    alloc: Global,
    word: &[u8],
    sheets: u8,
    columns: u32,
) -> Result<Option<Vec<u8>>, AllocError>
    ensures { IfOk result (λ cells. option_map (λ v. v.items) cells
        ≡ rows_after columns sheets 0 (rows_from (slice_split (λ b. b == 47) word.now))) }
{
    let mut cells = Vec::new(alloc);
    let mut rows: u8 = 0;
    let mut rest = Some(word);
    'rows: while let Some(text) = rest {
        let (row, more) = cut(b'/', text);
        if rows == sheets {
            return Ok(None);
        }
        if !read_row(row, sheets, columns, &mut cells)? {
            return Ok(None);
        }
        rows += 1;
        rest = more;
    }
    if rows == sheets {
        Ok(Some(cells))
    } else {
        Ok(None)
    }
}

/// Puts the entries of a row behind the cells, and answers whether it fits.
fn read_row(row: &[u8], sheets: u8, columns: u32, cells: &mut Vec<u8>) -> Result<bool, AllocError>
    ensures { IfOk result (λ fits. (if fits then Some cells.new.items else None)
        ≡ option_map (λ entries. cells.old.items ++ entries) (if_row columns sheets (row_of row.now))) }
{
    let mut width: u32 = 0;
    let mut rest = Some(row);
    'entries: while let Some(text) = rest {
        let (entry, more) = cut(b',', text);
        match read_number(entry) {
            None => return Ok(false),
            Some(number) => {
                if width == columns {
                    return Ok(false);
                }
                if !is_sheet(number, sheets) {
                    return Ok(false);
                }
                cells.push(number as u8)?;
            }
        }
        width += 1;
        rest = more;
    }
    Ok(width == columns)
}

fn is_sheet(number: u64, sheets: u8) -> bool
    ensures { result ≡ is_between 1 sheets number }
{
    1 <= number && number <= u64::from(sheets)
}
