// Columns of eight bytes: where a letter leads from each sheet, counted from 0.
ghost use Rattle.std.specs.Prelude.{◌≡◌, ◌<◌, ◌≤◌, ◌↔◌, ◌==◌, ℕ, suc, [], length, replicate, slice_index};
ghost use Rattle.std.specs.Prelude.{slice_index_or, slice_set, option_map, max, All, IsTrue, IfOk};
ghost use Rattle.std.specs.List.{list_all};
ghost use Rattle.live_laws.specs.Trees.{from};
ghost use Rattle.cover_search.specs.Columns.{blank, no_other};

use std::alloc::{AllocError, Global};

/// The mark of a missing entry.
pub(crate) const MISSING: u8 = 255;

/// Each sheet leads to itself.
pub(crate) const STAY: [u8; 8] = [0, 1, 2, 3, 4, 5, 6, 7];

/// Whether a walk from a sheet, if its cells are there, ended there.
pub(crate) fn keeps(end: Option<u8>, sheet: u8) -> bool
    ensures { result ≡ no_other (option_map suc end) (suc sheet) }
{
    match end {
        Some(end) => end == sheet,
        None => true,
    }
}

/// Whether each of the first sheets leads to itself.
pub(crate) fn stays(ends: &[u8; 8], sheets: u8) -> bool
    requires { sheets ≤ 8 }
    ensures { result ≡ list_all (λ s. slice_index ends.now s == s) (from 0 sheets) }
{
    for sheet in 0..sheets {
        if ends[sheet as usize] != sheet {
            return false;
        }
    }
    true
}

/// Whether no entry of a column is missing.
pub(crate) fn is_complete(column: &[u8; 8]) -> bool
    ensures { IsTrue result ↔ All (λ s. s < 8) column.now }
{
    column.iter().all(|byte| *byte < 8)
}

/// A column of so many sheets where all entries are missing.
fn no_entries(sheets: u8) -> [u8; 8]
    requires { sheets ≤ 8 }
    ensures { result ≡ blank sheets }
{
    let mut bytes = STAY;
    for sheet in 0..sheets {
        bytes[sheet as usize] = MISSING;
    }
    bytes
}

/// So many numbers 1.
pub(crate) fn ones(alloc: Global, count: usize) -> Result<Vec<u8>, AllocError>
    ensures { IfOk result (λ v. v.items ≡ replicate count 1) }
{
    let mut numbers = Vec::with_capacity(alloc, count)?;
    let _ = numbers.resize(count, 1);
    Ok(numbers)
}

/// So many columns where all entries are missing.
pub(crate) fn empty_columns(
    alloc: Global,
    columns: usize,
    sheets: u8,
) -> Result<Vec<[u8; 8]>, AllocError>
    requires { sheets ≤ 8 }
    ensures { IfOk result (λ v. (length v.items ≡ columns)
        × ((g : ℕ) → g < columns → slice_index_or v.items g [] ≡ blank sheets)) }
{
    let mut all = Vec::with_capacity(alloc, columns)?;
    for _i in 0..columns {
        all.push(STAY)?;
    }
    fill(&mut all, sheets);
    Ok(all)
}

/// Empties all columns.
pub(crate) fn fill(columns: &mut Vec<[u8; 8]>, sheets: u8)
    requires { sheets ≤ 8 }
    ensures long { length columns.new.items ≡ length columns.old.items }
    ensures each { (g : ℕ) → g < length columns.old.items → slice_index_or columns.new.items g [] ≡ blank sheets }
{
    let bytes = no_entries(sheets);
    for column in 0..columns.len() {
        columns[column] = bytes;
    }
}

/// Writes one byte of one column.
pub(crate) fn put(columns: &mut Vec<[u8; 8]>, column: usize, sheet: usize, byte: u8)
    requires column { column < length columns.old.items }
    requires sheet { sheet < 8 }
    ensures { columns.new.items
        ≡ slice_set columns.old.items column (slice_set (slice_index_or columns.old.items column []) sheet byte) }
{
    let mut bytes = columns[column];
    bytes[sheet] = byte;
    columns[column] = bytes;
}

/// The larger of two sheets.
pub(crate) fn larger(one: u8, other: u8) -> u8
    ensures { result ≡ max one other }
{
    if one < other { other } else { one }
}
