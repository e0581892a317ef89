// Rows of a matrix, one by one: copied, cleared at pivots, and vectors dual to them.
ghost use Rattle.std.specs.Prelude.{◌≡◌, ◌<◌, ℕ, List, length, slice_index, IfOk};
ghost use Rattle.linear_laws.specs.Echelon.{rank_of};
ghost use Rattle.linear_laws.specs.Marks.{mark};
ghost use Rattle.linear_laws.specs.Vectors.{plus_scaled, row_at};
ghost use Rattle.cohomology.specs.Swept.{front, ArePivots, AreSwept, IsDual, IsForm, IsSwept};

use field_matrix::{Matrix, Row};
use small_field::Field;
use std::alloc::{AllocError, Global};

/// A row of a matrix.
pub fn row_of<F: Field>(alloc: Global, matrix: &Matrix<F>, index: u32) -> Result<Row<F>, AllocError>
    requires { index < length matrix.now.rows }
    ensures { IfOk result (λ row. row ≡ row_at matrix.now.rows index) }
{
    let cols = matrix.cols();
    let mut row = Row::zero(alloc, cols)?;
    for col in 0..cols {
        row.set(col, matrix.get(index, col));
    }
    Ok(row)
}

/// The row with 1 at a place and 0 elsewhere.
pub fn mark_row<F: Field>(alloc: Global, len: u32, place: u32) -> Result<Row<F>, AllocError>
    requires { place < len }
    ensures { IfOk result (λ row. row ≡ mark len place) }
{
    let mut row = Row::zero(alloc, len)?;
    row.set(place, F::one());
    Ok(row)
}

/// The rows, each cleared at the pivots of a reduced form by its rows.
pub fn swept_rows<F: Field>(
    alloc: Global,
    rows: &Matrix<F>,
    form: &Matrix<F>,
) -> Result<Matrix<F>, AllocError>
    requires cols { rows.now.cols ≡ form.now.cols }
    requires form { IsForm F.ops form.now.cols form.now.rows }
    ensures cols { IfOk result (λ swept. swept.cols ≡ rows.now.cols) }
    ensures swept { IfOk result (λ swept. (pivots : List ℕ) → ArePivots form.now.cols form.now.rows pivots
        → AreSwept F.ops form.now.cols (front form.now.rows) pivots rows.now.rows swept.rows) }
{
    let mut swept = Matrix::new(alloc, 0, rows.cols())?;
    for index in 0..rows.rows() {
        let mut row = row_of(alloc, rows, index)?;
        sweep_row(&mut row, form);
        swept.push_row(&row)?;
    }
    Ok(swept)
}

/// Clears a row at the pivots of a reduced form, by its rows.
fn sweep_row<F: Field>(row: &mut Row<F>, form: &Matrix<F>)
    requires cols { length row.old ≡ form.now.cols }
    requires form { IsForm F.ops form.now.cols form.now.rows }
    ensures { (pivots : List ℕ) → ArePivots form.now.cols form.now.rows pivots
        → IsSwept F.ops form.now.cols (front form.now.rows) pivots (length pivots) row.old row.new }
{
    let _elements = row.len();
    for index in 0..form.rank() {
        let factor = row.get(form.pivot(index)).neg();
        add_multiple(row, factor, form, index);
    }
}

/// Adds a multiple of a row of a matrix to a row.
fn add_multiple<F: Field>(row: &mut Row<F>, factor: F, matrix: &Matrix<F>, index: u32)
    requires index { index < length matrix.now.rows }
    requires cols { length row.old ≡ matrix.now.cols }
    ensures { row.new ≡ plus_scaled F.ops (F.number_of factor) row.old (row_at matrix.now.rows index) }
{
    for col in 0..matrix.cols() {
        let value = row.get(col).add(factor.mul(matrix.get(index, col)));
        row.set(col, value);
    }
}

/// The vector with the product 1 with one row of a reduced form, and 0 with its other rows and with those of a second
/// form, where the first is zero at the pivots of the second.
pub fn dual_row<F: Field>(
    alloc: Global,
    form: &Matrix<F>,
    others: &Matrix<F>,
    place: u32,
) -> Result<Row<F>, AllocError>
    requires cols { form.now.cols ≡ others.now.cols }
    requires form { IsForm F.ops form.now.cols form.now.rows }
    requires others { IsForm F.ops others.now.cols others.now.rows }
    requires clear { (pivots : List ℕ) → ArePivots form.now.cols form.now.rows pivots
        → (i j : ℕ) → i < rank_of others.now.rows → j < length pivots
        → slice_index (row_at others.now.rows i) (slice_index pivots j) ≡ 0 }
    requires place { place < rank_of others.now.rows }
    ensures { IfOk result (λ v. (pivots places : List ℕ) → ArePivots form.now.cols form.now.rows pivots
        → ArePivots others.now.cols others.now.rows places
        → IsDual F.ops form.now.cols form.now.rows pivots others.now.rows places (length pivots) place v) }
{
    let own = others.pivot(place);
    let mut v = mark_row::<F>(alloc, form.cols(), own)?;
    for index in 0..form.rank() {
        let pivot = form.pivot(index);
        let value = v.get(pivot).add(form.get(index, own).neg());
        v.set(pivot, value);
    }
    Ok(v)
}
