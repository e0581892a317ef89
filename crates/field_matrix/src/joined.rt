//! Rows with the rows of the identity beside them, so that elimination keeps its history.

ghost use Rattle.std.specs.Prelude.{◌≡◌, ℕ, ◌+◌, ◌-◌, ◌*◌, ◌<◌, ◌≤◌, ◌++◌, ◌==◌, if◌then◌else◌};
ghost use Rattle.std.specs.Prelude.{length, map, take, drop, replicate, IfOk, All};
ghost use Rattle.linear_laws.specs.Vectors.{IsVector, IsMatrix, row_at};
ghost use Rattle.small_field.specs.Values.{AreElements};
ghost use Rattle.linear_laws.specs.Echelon.{IsReducedTo};
ghost use Rattle.linear_laws.specs.Marks.{mark, identity, beside, lefts, rights};
ghost use Rattle.field_matrix.specs.Rows.{cut, rows_in};
ghost use Rattle.field_matrix.specs.Steps.{IsReducedBy, IsSwept, IsClearAt};

use crate::flat::{Shape, row_of};
use crate::reduce::reduce_rows;
use small_field::Field;
use std::alloc::{AllocError, Global};
use std::marker::Brand;
use std::sync::ledger::{Blank, Ledger};
use step_count::Steps;

/// 1 at the place, and 0 elsewhere.
fn indicator(at: usize, place: usize) -> u8
    ensures { result ≡ (if at == place then 1 else 0) }
{
    if at == place { 1 } else { 0 }
}

/// Appends a row, and after it `count` numbers: a 1 at the place and 0 elsewhere.
fn push_beside(
    joined: &mut Vec<u8>,
    row: &[u8],
    place: usize,
    count: usize,
) -> Result<(), AllocError>
    ensures { IfOk result (λ _. joined.new.items ≡ joined.old.items ++ (row.now ++ mark count place)) }
{
    joined.extend_from_slice(row)?;
    for at in 0..count {
        joined.push(indicator(at, place))?;
    }
    Ok(())
}

/// The rows, with the rows of the identity beside them.
pub fn beside_identity(alloc: Global, entries: &[u8], shape: Shape) -> Result<Vec<u8>, AllocError>
    requires shape { length entries.now ≡ shape.rows * shape.cols }
    ensures long { IfOk result (λ joined. length joined.items ≡ shape.rows * (shape.cols + shape.rows)) }
    ensures rows { IfOk result (λ joined.
        cut shape.rows (shape.cols + shape.rows) joined.items
        ≡ beside (rows_in shape entries.now) (identity shape.rows)) }
{
    let mut joined = Vec::new(alloc);
    for row in 0..shape.rows {
        push_beside(&mut joined, row_of(entries, shape, row), row, shape.rows)?;
    }
    Ok(joined)
}

fn reduce_with<F: Field, L: Ledger>(
    entries: &mut [u8],
    shape: Shape,
    upto: usize,
    blank: Blank,
) -> usize
    requires shape { length entries.old ≡ shape.rows * shape.cols }
    requires upto { upto ≤ shape.cols }
    requires matrix { IsMatrix F.ops shape.cols (rows_in shape entries.old) }
    requires name { blank.name ≡ L.name }
    requires parts { blank.parts ≡ L.parts }
    requires some { 0 < L.parts }
    ensures { IsReducedTo F.ops shape.cols result upto (rows_in shape entries.old) (rows_in shape entries.new) }
{
    let mut steps = Steps::<L>::new(blank);
    reduce_rows::<F, L>(entries, shape, upto, &mut steps)
}

/// Reduces the first `upto` columns, and counts nothing.
pub fn reduce_uncounted<F: Field>(entries: &mut [u8], shape: Shape, upto: usize) -> usize
    requires shape { length entries.old ≡ shape.rows * shape.cols }
    requires upto { upto ≤ shape.cols }
    requires matrix { IsMatrix F.ops shape.cols (rows_in shape entries.old) }
    ensures { IsReducedTo F.ops shape.cols result upto (rows_in shape entries.old) (rows_in shape entries.new) }
{
    reduce_with::<F, Brand>(entries, shape, upto, Blank::new(1))
}

/// What stands right of the first `width` columns in the rows from `from` on.
pub fn right_halves(
    alloc: Global,
    joined: &[u8],
    shape: Shape,
    width: usize,
    from: usize,
) -> Result<Vec<u8>, AllocError>
    requires shape { length joined.now ≡ shape.rows * shape.cols }
    requires width { width ≤ shape.cols }
    requires from { from ≤ shape.rows }
    ensures long { IfOk result (λ halves. length halves.items ≡ (shape.rows - from) * (shape.cols - width)) }
    ensures rows { IfOk result (λ halves.
        cut (shape.rows - from) (shape.cols - width) halves.items
        ≡ drop from (rights width (rows_in shape joined.now))) }
{
    let mut halves = Vec::new(alloc);
    for row in from..shape.rows {
        halves.extend_from_slice(&row_of(joined, shape, row)[width..])?;
    }
    Ok(halves)
}

/// The first `width` columns.
pub fn left_halves(
    alloc: Global,
    joined: &[u8],
    shape: Shape,
    width: usize,
) -> Result<Vec<u8>, AllocError>
    requires shape { length joined.now ≡ shape.rows * shape.cols }
    requires width { width ≤ shape.cols }
    ensures long { IfOk result (λ halves. length halves.items ≡ shape.rows * width) }
    ensures rows { IfOk result (λ halves. cut shape.rows width halves.items ≡ lefts width (rows_in shape joined.now)) }
{
    let mut halves = Vec::new(alloc);
    for row in 0..shape.rows {
        halves.extend_from_slice(&row_of(joined, shape, row)[..width])?;
    }
    Ok(halves)
}
