//! Solutions of linear equations, and kernels.

ghost use Rattle.std.specs.Prelude.{◌≡◌, ℕ, ◌+◌, ◌-◌, ◌*◌, ◌<◌, ◌≤◌, ◌^◌, List, length, map, replicate, slice_index, IfOk};
ghost use Rattle.linear_laws.specs.Vectors.{IsVector, IsMatrix, IsKernelBasis, plus_scaled};
ghost use Rattle.small_field.specs.Values.{AreElements};
ghost use Rattle.linear_laws.specs.Echelon.{IsReduced, IsReducedTo};
ghost use Rattle.linear_laws.specs.Marks.{identity, beside};
ghost use Rattle.field_matrix.specs.Rows.{cut, IsFilled, rows_in};
ghost use Rattle.field_matrix.specs.Solutions.{IsAnswer, IsElimination};
ghost use Rattle.field_matrix.specs.Steps.{IsSwept, IsClearAt};

use crate::flat::{Shape, is_zero, row_of};
use crate::history::Elimination;
use crate::joined::{beside_identity, reduce_uncounted, right_halves};
use crate::matrix::Matrix;
use crate::row::Row;
use small_field::Field;
use std::alloc::{AllocError, Global};
use std::marker::Brand;
use std::sync::ledger::{Blank, Ledger};
use step_count::Steps;

impl<F: Field> Matrix<F> {
    /// Coefficients of the rows whose combination is `rhs`; None exactly where there are none.
    pub fn solve(&self, alloc: Global, rhs: &Row<F>) -> Result<Option<Row<F>>, AllocError>
        requires { length rhs.now ≡ self.now.cols }
        ensures { IfOk result (λ answer. IsAnswer F.ops self.now.cols self.now.rows rhs.now answer) }
    {
        if self.cols() == 0 {
            return Ok(Some(Row::zero(alloc, self.rows())?));
        }
        let elimination = eliminate_uncounted(alloc, self)?;
        elimination.solve(alloc, rhs)
    }

    /// A basis, as rows, of the coefficients whose combination of the rows is zero. Its length and
    /// the rank add up to the number of rows.
    pub fn kernel(&self, alloc: Global) -> Result<Matrix<F>, AllocError>
        ensures cols { IfOk result (λ kernel. kernel.cols ≡ length self.now.rows) }
        ensures basis { IfOk result (λ kernel. IsKernelBasis F.ops self.now.cols self.now.rows kernel.rows) }
        ensures count { IfOk result (λ kernel.
            (rank : ℕ) (reduced : List (List ℕ))
            → IsReducedTo F.ops self.now.cols rank self.now.cols self.now.rows reduced
            → length kernel.rows + rank ≡ length self.now.rows) }
    {
        let kernel = kernel_rows::<F>(alloc, self.entries(), self.shape())?;
        let rows = self.rows() - kernel.rank as u32;
        Ok(Matrix::from_entries(rows, self.rows(), kernel.joined))
    }
}

impl<F: Field> Elimination<F> {
    /// Coefficients of the rows of the matrix, whose reduced form and history this is, whose combination is the right
    /// side; None exactly where there are none. No elimination is made anew.
    pub fn solve(&self, alloc: Global, right: &Row<F>) -> Result<Option<Row<F>>, AllocError>
        requires reduced { IsReduced self.now.reduced.cols self.now.reduced.rows }
        requires right { length right.now ≡ self.now.reduced.cols }
        requires rows { length self.now.history.rows ≡ length self.now.reduced.rows }
        requires cols { self.now.history.cols ≡ length self.now.reduced.rows }
        ensures { IfOk result (λ answer.
            (rows : List (List ℕ))
            → IsElimination F.ops self.now.reduced.cols rows self.now.reduced.rows self.now.history.rows
            → IsAnswer F.ops self.now.reduced.cols rows right.now answer) }
    {
        let mut left = negatives::<F>(alloc, right.numbers())?;
        let mut told = vec![in alloc; 0; self.history.cols() as usize]?;
        sweep::<F>(&self.reduced, &self.history, &mut left, &mut told);
        if is_zero(&left) {
            Ok(Some(Row::from_numbers(told)))
        } else {
            Ok(None)
        }
    }
}

/// The negatives of the numbers.
fn negatives<F: Field>(alloc: Global, numbers: &[u8]) -> Result<Vec<u8>, AllocError>
    requires { AreElements F.ops numbers.now }
    ensures { IfOk result (λ row. row.items ≡ map F.ops.neg numbers.now) }
{
    let mut row = Vec::new(alloc);
    for number in numbers {
        row.push(F::from_number(*number as u32).neg().to_number() as u8)?;
    }
    Ok(row)
}

/// Adds multiples of the rows of a reduced form to a row, so that it is zero at their pivots, and puts the same
/// combination of the rows of the history into `told`, which is zero before.
fn sweep<F: Field>(reduced: &Matrix<F>, history: &Matrix<F>, left: &mut [u8], told: &mut [u8])
    requires reduced { IsReduced reduced.now.cols reduced.now.rows }
    requires history { IsMatrix F.ops history.now.cols history.now.rows }
    requires rows { length history.now.rows ≡ length reduced.now.rows }
    requires left { IsVector F.ops reduced.now.cols left.old }
    requires told { told.old ≡ replicate history.now.cols 0 }
    ensures left { IsVector F.ops reduced.now.cols left.new }
    ensures told { IsVector F.ops history.now.cols told.new }
    ensures swept { IsSwept F.ops reduced.now.cols history.now.cols reduced.now.rows history.now.rows left.old
        left.new told.new }
    ensures clear { IsClearAt (length reduced.now.rows) reduced.now.rows left.new }
{
    for row in 0..reduced.rows() {
        let source = row_of(reduced.entries(), reduced.shape(), row as usize);
        match lane_rows::first_nonzero(source) {
            None => return,
            Some(place) => {
                let from = row_of(history.entries(), history.shape(), row as usize);
                clear_at::<F>(place as usize, source, from, left, told);
            }
        }
    }
}

/// Adds that multiple of `source` to `left` that makes it zero at a place where `source` is 1, and the same multiple
/// of `from` to `told`.
fn clear_at<F: Field>(place: usize, source: &[u8], from: &[u8], left: &mut [u8], told: &mut [u8])
    requires place { place < length left.old }
    requires source { AreElements F.ops source.now }
    requires from { AreElements F.ops from.now }
    requires left { AreElements F.ops left.old }
    requires told { AreElements F.ops told.old }
    requires long { length source.now ≡ length left.old }
    requires long_from { length from.now ≡ length told.old }
    ensures left { left.new ≡ plus_scaled F.ops (F.ops.neg (slice_index left.old place)) left.old source.now }
    ensures told { told.new ≡ plus_scaled F.ops (F.ops.neg (slice_index left.old place)) told.old from.now }
{
    let number = left[place];
    if number != 0 {
        let factor = F::from_number(number as u32).neg();
        F::add_scaled_row(left, source, factor);
        F::add_scaled_row(told, from, factor);
    }
}

/// A reduced form of the rows, and its history. Nothing is counted.
fn eliminate_uncounted<F: Field>(
    alloc: Global,
    matrix: &Matrix<F>,
) -> Result<Elimination<F>, AllocError>
    requires { IsMatrix F.ops matrix.now.cols matrix.now.rows }
    ensures cols { IfOk result (λ e. e.reduced.cols ≡ matrix.now.cols) }
    ensures history_cols { IfOk result (λ e. e.history.cols ≡ length matrix.now.rows) }
    ensures elimination { IfOk result (λ e.
        IsElimination F.ops matrix.now.cols matrix.now.rows e.reduced.rows e.history.rows) }
{
    eliminate_with::<F, Brand>(alloc, matrix, Blank::new(1))
}

fn eliminate_with<F: Field, L: Ledger>(
    alloc: Global,
    matrix: &Matrix<F>,
    blank: Blank,
) -> Result<Elimination<F>, AllocError>
    requires name { blank.name ≡ L.name }
    requires parts { blank.parts ≡ L.parts }
    requires some { 0 < L.parts }
    requires matrix { IsMatrix F.ops matrix.now.cols matrix.now.rows }
    ensures cols { IfOk result (λ e. e.reduced.cols ≡ matrix.now.cols) }
    ensures history_cols { IfOk result (λ e. e.history.cols ≡ length matrix.now.rows) }
    ensures elimination { IfOk result (λ e.
        IsElimination F.ops matrix.now.cols matrix.now.rows e.reduced.rows e.history.rows) }
{
    let mut steps = Steps::<L>::new(blank);
    let elimination = matrix.eliminate(alloc, &mut steps)?;
    Ok(elimination)
}

/// The rank, and the entries of a basis of the coefficients whose combination is zero.
fn kernel_rows<F: Field>(alloc: Global, entries: &[u8], shape: Shape) -> Result<History, AllocError>
    requires shape { IsFilled F.ops shape.rows shape.cols entries.now }
    requires few_rows { shape.rows < 2 ^ 32 }
    requires few_cols { shape.cols < 2 ^ 32 }
    ensures rank { IfOk result (λ h. h.rank ≤ shape.rows) }
    ensures entries { IfOk result (λ h. IsFilled F.ops (shape.rows - h.rank) shape.rows h.joined.items) }
    ensures basis { IfOk result (λ h.
        IsKernelBasis F.ops shape.cols (rows_in shape entries.now)
        (cut (shape.rows - h.rank) shape.rows h.joined.items)) }
    ensures count { IfOk result (λ h.
        (rank : ℕ) (reduced : List (List ℕ))
        → IsReducedTo F.ops shape.cols rank shape.cols (rows_in shape entries.now) reduced → rank ≡ h.rank) }
{
    let history = reduce_beside::<F>(alloc, entries, shape)?;
    let wide = Shape {
        rows: shape.rows,
        cols: shape.cols + shape.rows,
    };
    let joined = right_halves(alloc, &history.joined, wide, shape.cols, history.rank)?;
    Ok(History {
        joined,
        rank: history.rank,
    })
}

/// Rows of elements with the rows of the identity beside them, and how many pivots they have.
#[derive(Drop)]
struct History {
    joined: Vec<u8>,
    rank: usize,
}

/// Reduces the rows with those of the identity beside them.
fn reduce_beside<F: Field>(
    alloc: Global,
    entries: &[u8],
    shape: Shape,
) -> Result<History, AllocError>
    requires shape { IsFilled F.ops shape.rows shape.cols entries.now }
    requires few_rows { shape.rows < 2 ^ 32 }
    requires few_cols { shape.cols < 2 ^ 32 }
    ensures long { IfOk result (λ h. length h.joined.items ≡ shape.rows * (shape.cols + shape.rows)) }
    ensures reduced { IfOk result (λ h.
        IsReducedTo F.ops (shape.cols + shape.rows) h.rank shape.cols
        (beside (rows_in shape entries.now) (identity shape.rows))
        (cut shape.rows (shape.cols + shape.rows) h.joined.items)) }
{
    let mut joined = beside_identity(alloc, entries, shape)?;
    let wide = Shape {
        rows: shape.rows,
        cols: shape.cols + shape.rows,
    };
    let rank = reduce_uncounted::<F>(&mut joined, wide, shape.cols);
    Ok(History { joined, rank })
}
