//! Reduction with its history.

ghost use Rattle.std.specs.Prelude.{◌≡◌, ℕ, ◌+◌, ◌*◌, ◌<◌, ◌≤◌, ◌^◌, List, length, IfOk};
ghost use Rattle.linear_laws.specs.Vectors.{IsHistory};
ghost use Rattle.linear_laws.specs.Echelon.{IsReducedTo, rank_of};
ghost use Rattle.field_matrix.specs.Rows.{cut, IsFilled, rows_in};

use crate::flat::Shape;
use crate::joined::{beside_identity, left_halves, right_halves};
use crate::matrix::Matrix;
use crate::reduce::reduce_rows;
use small_field::Field;
use std::alloc::{AllocError, Global};
use std::sync::ledger::Ledger;
use step_count::Steps;

/// A reduced row echelon form of a matrix, and how it came about.
#[derive(Drop)]
pub struct Elimination<F: Field> {
    /// The reduced form.
    pub reduced: Matrix<F>,
    /// Row by row the coefficients of the rows of the matrix whose combination is the row of the
    /// reduced form.
    pub history: Matrix<F>,
}

impl<F: Field> Matrix<F> {
    /// A reduced row echelon form, as `reduce` leaves it, and its history. Each row addition is one
    /// step; there are at most rows times columns, also where memory is wanting.
    pub fn eliminate<L: Ledger>(
        &self,
        alloc: Global,
        steps: &mut Steps<L>,
    ) -> Result<Elimination<F>, AllocError>
        ensures cols { IfOk result (λ e. e.reduced.cols ≡ self.now.cols) }
        ensures reduced { IfOk result (λ e.
            IsReducedTo F.ops self.now.cols (rank_of e.reduced.rows) self.now.cols self.now.rows
            e.reduced.rows) }
        ensures history_cols { IfOk result (λ e. e.history.cols ≡ length self.now.rows) }
        ensures history { IfOk result (λ e. IsHistory F.ops self.now.cols self.now.rows e.reduced.rows e.history.rows) }
        ensures steps { steps.new ≤ steps.old + length self.now.rows * self.now.cols }
    {
        let halves = eliminate_rows::<F, L>(alloc, self.entries(), self.shape(), steps)?;
        Ok(Elimination {
            reduced: Matrix::from_entries(self.rows(), self.cols(), halves.left),
            history: Matrix::from_entries(self.rows(), self.rows(), halves.right),
        })
    }
}

/// The entries of a reduced form, and of its history.
#[derive(Drop)]
struct Halves {
    left: Vec<u8>,
    right: Vec<u8>,
}

/// Reduces the rows, and keeps the history.
fn eliminate_rows<F: Field, L: Ledger>(
    alloc: Global,
    entries: &[u8],
    shape: Shape,
    steps: &mut Steps<L>,
) -> Result<Halves, AllocError>
    requires shape { IsFilled F.ops shape.rows shape.cols entries.now }
    requires few_rows { shape.rows < 2 ^ 32 }
    requires few_cols { shape.cols < 2 ^ 32 }
    ensures left { IfOk result (λ h. IsFilled F.ops shape.rows shape.cols h.left.items) }
    ensures right { IfOk result (λ h. IsFilled F.ops shape.rows shape.rows h.right.items) }
    ensures reduced { IfOk result (λ h.
        IsReducedTo F.ops shape.cols (rank_of (rows_in shape h.left.items)) shape.cols
        (rows_in shape entries.now) (rows_in shape h.left.items)) }
    ensures history { IfOk result (λ h.
        IsHistory F.ops shape.cols (rows_in shape entries.now) (rows_in shape h.left.items)
        (cut shape.rows shape.rows h.right.items)) }
    ensures steps { steps.new ≤ steps.old + shape.rows * shape.cols }
{
    let mut joined = beside_identity(alloc, entries, shape)?;
    let wide = Shape {
        rows: shape.rows,
        cols: shape.cols + shape.rows,
    };
    reduce_rows::<F, L>(&mut joined, wide, shape.cols, steps);
    let left = left_halves(alloc, &joined, wide, shape.cols)?;
    let right = right_halves(alloc, &joined, wide, shape.cols, 0)?;
    Ok(Halves { left, right })
}
