ghost use Rattle.std.specs.Prelude.{◌≡◌, ◌≢◌, ◌∷◌, ◌≤◌, ◌<◌, ◌+◌, ◌^◌, ℕ, [], length, slice_index, count_by};
ghost use Rattle.std.specs.Prelude.{true, IfOk, IfErr, OnOk, Ok, Err};
ghost use Rattle.std.specs.List.{list_all, range_with_len};
ghost use Rattle.gap_text.specs.Nest.{view};
ghost use Rattle.array_values.specs.Answers.{gather_from};
ghost use Rattle.array_values.specs.Arcs.{number_of, pair_in, is_row, row_of, has_column, is_twice, counted};
ghost use Rattle.array_values.specs.Arcs.{arcs_of, IsPresentation};

use crate::fault::ArrayFault;
use gap_text::{Items, Nest};
use std::alloc::{AllocError, Global};
use std::marker::Model;

/// An arc presentation, which contracts see as the list of the two columns of each row.
#[derive(Drop)]
pub struct Arcs {
    rows: Vec<(u32, u32)>,
}

impl Model for Arcs {
    ghost use Rattle.std.specs.Prelude.{ℕ, List};

    ghost Value = { List (ℕ × ℕ) };

    ghost view = { λ a. a.rows.items };
}

impl Arcs {
    /// The two columns of each row, in the order in which they were written.
    pub fn rows(&self) -> &[(u32, u32)]
        ensures { result.now ≡ self.now }
    {
        &self.rows
    }
}

/// Reads the arc presentation that a nested list is, or answers its first fault.
///
/// It is a list of k rows, each a list of two different columns from 1 to k, in either order, where
/// each column is in exactly two rows. The faults are looked for in this order: `BadDimension` where
/// the value is a number, `Empty` where there is no row, `BadPair` with the first row that is none, and
/// `ColumnCount` with the first column that is not in exactly two rows. Rows and columns are counted
/// from 1.
pub fn read_arcs(alloc: Global, nest: &Nest) -> Result<Arcs, ArrayFault>
    ensures arcs { IfOk result (λ arcs. arcs_of (view nest.now) ≡ Ok arcs) }
    ensures shape { IfOk result IsPresentation }
    // Want of memory may be answered to any nest.
    ensures fault { IfErr result (λ fault. fault ≢ ArrayFault.Memory → arcs_of (view nest.now) ≡ Err fault) }
{
    let Nest::List { items, .. } = nest else {
        return Err(ArrayFault::BadDimension);
    };
    if items.len() == 0 {
        return Err(ArrayFault::Empty);
    }
    let rows = read_rows(alloc, items)?;
    check_columns(alloc, &rows)?;
    Ok(Arcs { rows })
}

/// The rows of a presentation.
fn read_rows(alloc: Global, items: &Items) -> Result<Vec<(u32, u32)>, ArrayFault>
    ensures ok { IfOk result (λ rows. gather_from 1 (row_of (length items.now)) items.now ≡ Ok rows.items) }
    ensures len { IfOk result (λ rows. length rows.items ≡ length items.now) }
    ensures pairs { IfOk result (λ rows. list_all (is_row (length items.now)) rows.items ≡ true) }
    ensures err { IfErr result (λ fault. fault ≢ ArrayFault.Memory
        → gather_from 1 (row_of (length items.now)) items.now ≡ Err fault) }
{
    let mut rows = Vec::new(alloc);
    for index in 0..items.len() {
        rows.push(read_row(items.len(), index + 1, items.get(index))?)?;
    }
    Ok(rows)
}

/// Row number `row` of so many rows.
fn read_row(count: u32, row: u32, nest: &Nest) -> Result<(u32, u32), ArrayFault>
    ensures ok { IfOk result (λ pair. row_of count row (view nest.now) ≡ Ok (pair ∷ [])) }
    ensures pair { IfOk result (λ pair. is_row count pair ≡ true) }
    ensures err { IfErr result (λ fault. row_of count row (view nest.now) ≡ Err fault) }
{
    let Some((left, right)) = read_pair(nest) else {
        return Err(ArrayFault::BadPair(row));
    };
    if is_row(count, left, right) {
        Ok((left, right))
    } else {
        Err(ArrayFault::BadPair(row))
    }
}

/// Whether these are two different columns of so many.
fn is_row(count: u32, left: u32, right: u32) -> bool
    ensures { result ≡ is_row count (left, right) }
{
    left > 0 && left <= count && right > 0 && right <= count && left != right
}

/// The two numbers that a list is.
fn read_pair(nest: &Nest) -> Option<(u32, u32)>
    ensures { result ≡ pair_in (view nest.now) }
{
    let Nest::List { items, .. } = nest else {
        return None;
    };
    if items.len() != 2 {
        return None;
    }
    let left = number_of(items.get(0))?;
    let right = number_of(items.get(1))?;
    Some((left, right))
}

/// The number that a value is.
fn number_of(nest: &Nest) -> Option<u32>
    ensures { result ≡ number_of (view nest.now) }
{
    match nest {
        Nest::Number { value, .. } => Some(*value),
        Nest::List { .. } => None,
    }
}

/// Checks that each column is in exactly two rows.
fn check_columns(alloc: Global, rows: &[(u32, u32)]) -> Result<(), ArrayFault>
    requires few { length rows.now < 2 ^ 32 }
    requires rows { list_all (is_row (length rows.now)) rows.now ≡ true }
    ensures ok { OnOk result (counted rows.now ≡ Ok rows.now) }
    ensures twice { OnOk result (list_all (is_twice rows.now) (range_with_len 1 (length rows.now)) ≡ true) }
    ensures err { IfErr result (λ fault. fault ≢ ArrayFault.Memory → counted rows.now ≡ Err fault) }
{
    let counts = count_columns(alloc, rows)?;
    for column in 1..counts.len() {
        if counts[column] != 2 {
            return Err(ArrayFault::ColumnCount(column as u32));
        }
    }
    Ok(())
}

/// In how many rows each column is. Columns are counted from 1; there is no column 0.
fn count_columns(alloc: Global, rows: &[(u32, u32)]) -> Result<Vec<u32>, AllocError>
    requires few { length rows.now < 2 ^ 32 }
    requires rows { list_all (is_row (length rows.now)) rows.now ≡ true }
    ensures columns { IfOk result (λ counts. length counts.items ≡ length rows.now + 1) }
    ensures counts { IfOk result (λ counts.
        (c : ℕ) → c ≤ length rows.now → slice_index counts.items c ≡ count_by (has_column c) rows.now) }
{
    let mut counts = vec![in alloc; 0u32; rows.len() + 1]?;
    for (left, right) in rows {
        counts[*left as usize] += 1;
        counts[*right as usize] += 1;
    }
    Ok(counts)
}
