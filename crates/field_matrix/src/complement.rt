//! Rows that complete a basis.

ghost use Rattle.std.specs.Prelude.{◌≡◌, ℕ, ◌+◌, ◌*◌, ◌<◌, ◌≤◌, ◌^◌, ◌++◌, List, length, IfOk};
ghost use Rattle.linear_laws.specs.Vectors.{IsMatrix, column, row_at};
ghost use Rattle.linear_laws.specs.Echelon.{IsReducedBelow};
ghost use Rattle.field_matrix.specs.Rows.{cut, IsFilled, rows_in};
ghost use Rattle.field_matrix.specs.Steps.{IsReducedBy};
ghost use Rattle.field_matrix.specs.Solutions.{above, IsComplement};

use crate::flat::{Shape, entry_of, row_of};
use crate::joined::reduce_uncounted;
use crate::matrix::Matrix;
use crate::places::Places;
use small_field::Field;
use std::alloc::{AllocError, Global};

impl<F: Field> Matrix<F> {
    /// The rows that, together with each basis of the rows of `sub`, are a basis of the span of both.
    pub fn complement(&self, alloc: Global, sub: &Matrix<F>) -> Result<Places, AllocError>
        requires { sub.now.cols ≡ self.now.cols }
        ensures { IfOk result (λ places. IsComplement F.ops self.now.cols sub.now.rows self.now.rows places) }
    {
        complement_rows::<F>(
            alloc,
            sub.entries(),
            sub.shape(),
            self.entries(),
            self.shape(),
        )
    }
}

/// The places of rows that, with a basis of the first rows, are a basis of the span of both.
fn complement_rows<F: Field>(
    alloc: Global,
    first: &[u8],
    first_shape: Shape,
    others: &[u8],
    shape: Shape,
) -> Result<Places, AllocError>
    requires first { IsFilled F.ops first_shape.rows first_shape.cols first.now }
    requires others { IsFilled F.ops shape.rows shape.cols others.now }
    requires cols { first_shape.cols ≡ shape.cols }
    requires few_first { first_shape.rows < 2 ^ 32 }
    requires few_others { shape.rows < 2 ^ 32 }
    requires few_cols { shape.cols < 2 ^ 32 }
    ensures { IfOk result (λ places.
        IsComplement F.ops shape.cols (cut first_shape.rows shape.cols first.now)
        (rows_in shape others.now) places) }
{
    let mut columns = transposed(alloc, first, first_shape, others, shape)?;
    let turned = Shape {
        rows: shape.cols,
        cols: first_shape.rows + shape.rows,
    };
    let rank = reduce_uncounted::<F>(&mut columns, turned, turned.cols);
    let places = pivots_from(alloc, &columns, turned, first_shape.rows, rank)?;
    Ok(Places::new(places))
}

/// The pivots of the first `rank` rows from the column `begin` on, counted from there.
fn pivots_from(
    alloc: Global,
    entries: &[u8],
    shape: Shape,
    begin: usize,
    rank: usize,
) -> Result<Vec<u32>, AllocError>
    requires shape { length entries.now ≡ shape.rows * shape.cols }
    requires begin { begin < 2 ^ 32 }
    requires cols { shape.cols < begin + 2 ^ 32 }
    requires begins { begin ≤ shape.cols }
    requires reduced { IsReducedBy shape.cols rank (rows_in shape entries.now) }
    ensures { IfOk result (λ places.
        (pivots : List ℕ) → IsReducedBelow shape.cols (rows_in shape entries.now) pivots
        → length pivots ≡ rank → places.items ≡ above begin pivots) }
{
    let mut places = Vec::new(alloc);
    for i in 0..rank {
        let (left, right) = row_of(entries, shape, i).split_at(begin);
        let below = lane_rows::first_nonzero(left).is_some();
        if !below {
            places.push(lane_rows::first_nonzero(right).unwrap())?;
        }
    }
    Ok(places)
}

/// The columns of the first rows and the others below them, each column as a row.
fn transposed(
    alloc: Global,
    first: &[u8],
    first_shape: Shape,
    others: &[u8],
    shape: Shape,
) -> Result<Vec<u8>, AllocError>
    requires first { length first.now ≡ first_shape.rows * first_shape.cols }
    requires others { length others.now ≡ shape.rows * shape.cols }
    requires cols { first_shape.cols ≡ shape.cols }
    ensures long { IfOk result (λ columns. length columns.items ≡ shape.cols * (first_shape.rows + shape.rows)) }
    ensures columns { IfOk result (λ columns.
        (j : ℕ) → j < shape.cols
        → row_at (cut shape.cols (first_shape.rows + shape.rows) columns.items) j
        ≡ column j (cut first_shape.rows shape.cols first.now ++ rows_in shape others.now)) }
{
    let mut columns = Vec::new(alloc);
    for col in 0..shape.cols {
        push_column(&mut columns, first, first_shape, col)?;
        push_column(&mut columns, others, shape, col)?;
    }
    Ok(columns)
}

/// Appends the entries of a column, from the first row on.
fn push_column(
    columns: &mut Vec<u8>,
    entries: &[u8],
    shape: Shape,
    col: usize,
) -> Result<(), AllocError>
    requires shape { length entries.now ≡ shape.rows * shape.cols }
    requires col { col < shape.cols }
    ensures { IfOk result (λ _. columns.new.items ≡ columns.old.items ++ column col (rows_in shape entries.now)) }
{
    for row in 0..shape.rows {
        columns.push(entry_of(entries, shape, row, col))?;
    }
    Ok(())
}
