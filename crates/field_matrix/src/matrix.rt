//! Matrices, and their reduced row echelon form.

ghost use Rattle.std.specs.Prelude.{◌≡◌, ℕ, ◌+◌, ◌*◌, ◌<◌, ◌≤◌, ◌^◌, ◌++◌, ◌∷◌, [], List, length, replicate};
ghost use Rattle.std.specs.Prelude.{slice_index, slice_set, Some, IfOk, OnOk, OnErr};
ghost use Rattle.lane_rows.specs.Lanes.{first_place};
ghost use Rattle.linear_laws.specs.Vectors.{IsMatrix, IsBasis, row_at, entry};
ghost use Rattle.small_field.specs.Values.{AreElements};
ghost use Rattle.linear_laws.specs.Echelon.{IsReducedBelow, IsReducedTo, IsReduced, rank_of};
ghost use Rattle.field_matrix.specs.Rows.{cut, IsFilled};

use crate::flat::{Shape, entry_of, row_of, set_entry, set_row};
use crate::reduce::reduce_rows;
use crate::row::Row;
use small_field::Field;
use std::alloc::{AllocError, Global};
use std::marker::{Model, PhantomData};
use std::sync::ledger::Ledger;
use step_count::Steps;

/// Rows of elements of a field, all of one length. Rows and columns count from 0.
///
/// Contracts see the number of columns and the list of the rows, each a list of numbers of elements.
#[derive(Drop)]
pub struct Matrix<F: Field> {
    rows: u32,
    cols: u32,
    entries: Vec<u8>,
    of: PhantomData<F>,
}

impl<F: Field> Model for Matrix<F> {
    ghost use Rattle.field_matrix.specs.Rows.{Rows, cut, IsFilled};

    ghost Value = { Rows };

    ghost view = { λ m. record { cols = m.cols; rows = cut m.rows m.cols m.entries.items } };

    ghost invariant = { λ m. IsFilled F.ops m.rows m.cols m.entries.items };
}

impl<F: Field> Matrix<F> {
    /// The zero matrix.
    pub fn new(alloc: Global, rows: u32, cols: u32) -> Result<Matrix<F>, AllocError>
        ensures { IfOk result (λ m. (m.cols ≡ cols) × (m.rows ≡ replicate rows (replicate cols 0))) }
    {
        let count = rows as usize * cols as usize;
        Ok(Matrix {
            rows,
            cols,
            entries: vec![in alloc; 0; count]?,
            of: PhantomData,
        })
    }

    /// How many rows there are.
    pub fn rows(&self) -> u32
        ensures rows { result ≡ length self.now.rows }
        ensures matrix { IsMatrix F.ops self.now.cols self.now.rows }
    {
        self.rows
    }

    /// How many columns there are.
    pub fn cols(&self) -> u32
        ensures cols { result ≡ self.now.cols }
        ensures matrix { IsMatrix F.ops self.now.cols self.now.rows }
    {
        self.cols
    }

    /// The element at a row and a column.
    pub fn get(&self, row: u32, col: u32) -> F
        requires row { row < length self.now.rows }
        requires col { col < self.now.cols }
        ensures { F.number_of result ≡ entry self.now.rows row col }
    {
        let shape = Shape {
            rows: self.rows as usize,
            cols: self.cols as usize,
        };
        F::from_number(entry_of(&self.entries, shape, row as usize, col as usize) as u32)
    }

    /// Puts an element at a row and a column.
    pub fn set(&mut self, row: u32, col: u32, value: F)
        requires row { row < length self.old.rows }
        requires col { col < self.old.cols }
        ensures cols { self.new.cols ≡ self.old.cols }
        ensures rows { self.new.rows
            ≡ slice_set self.old.rows row (slice_set (row_at self.old.rows row) col (F.number_of value)) }
    {
        let shape = Shape {
            rows: self.rows as usize,
            cols: self.cols as usize,
        };
        let number = value.to_number() as u8;
        set_entry(&mut self.entries, shape, row as usize, col as usize, number);
    }

    /// Puts a row last. Where memory is wanting, the matrix is as before.
    pub fn push_row(&mut self, row: &Row<F>) -> Result<(), AllocError>
        requires cols { length row.now ≡ self.old.cols }
        requires few { length self.old.rows < 4294967295 }
        ensures cols { self.new.cols ≡ self.old.cols }
        ensures rows { OnOk result (self.new.rows ≡ self.old.rows ++ row.now ∷ []) }
        ensures err { OnErr result (self.new.rows ≡ self.old.rows) }
    {
        self.entries.extend_from_slice(row.numbers())?;
        self.rows += 1;
        Ok(())
    }

    /// The same matrix once more.
    pub fn copy(&self, alloc: Global) -> Result<Matrix<F>, AllocError>
        ensures { IfOk result (λ m. m ≡ self.now) }
    {
        Ok(Matrix {
            rows: self.rows,
            cols: self.cols,
            entries: Vec::from_slice(alloc, &self.entries)?,
            of: PhantomData,
        })
    }

    /// Puts the matrix into reduced row echelon form, in place. The rows span what they spanned.
    /// Each row addition is one step, and there are at most rows times rank.
    pub fn reduce<L: Ledger>(&mut self, steps: &mut Steps<L>)
        ensures cols { self.new.cols ≡ self.old.cols }
        ensures reduced { IsReducedTo F.ops self.old.cols (rank_of self.new.rows) self.old.cols self.old.rows
            self.new.rows }
        ensures steps { steps.new ≤ steps.old + length self.old.rows * rank_of self.new.rows }
    {
        let shape = Shape {
            rows: self.rows as usize,
            cols: self.cols as usize,
        };
        reduce_rows::<F, L>(&mut self.entries, shape, shape.cols, steps);
    }

    /// The number of rows that are not zero, of a reduced matrix. It is the length of each basis
    /// of the rows.
    pub fn rank(&self) -> u32
        requires { IsReduced self.now.cols self.now.rows }
        ensures rank { result ≡ rank_of self.now.rows }
        ensures pivots { (pivots : List ℕ) → IsReducedBelow self.now.cols self.now.rows pivots
            → length pivots ≡ result }
        ensures dimension { (basis : List (List ℕ)) → IsBasis F.ops self.now.cols self.now.rows basis
            → length basis ≡ result }
    {
        let shape = Shape {
            rows: self.rows as usize,
            cols: self.cols as usize,
        };
        let mut rank = 0;
        for row in 0..self.rows {
            if lane_rows::first_nonzero(row_of(&self.entries, shape, row as usize)).is_some() {
                rank += 1;
            }
        }
        rank
    }

    /// The column of the leading 1 of a row below the rank, of a reduced matrix.
    pub fn pivot(&self, row: u32) -> u32
        requires reduced { IsReduced self.now.cols self.now.rows }
        requires row { row < rank_of self.now.rows }
        ensures first { first_place (row_at self.now.rows row) ≡ Some result }
        ensures pivots { (pivots : List ℕ) → IsReducedBelow self.now.cols self.now.rows pivots
            → slice_index pivots row ≡ result }
    {
        let shape = Shape {
            rows: self.rows as usize,
            cols: self.cols as usize,
        };
        lane_rows::first_nonzero(row_of(&self.entries, shape, row as usize)).unwrap()
    }

    /// Puts a row of another matrix in place of a row.
    pub(crate) fn put_row(&mut self, place: u32, from: &Matrix<F>, row: u32)
        requires cols { from.now.cols ≡ self.old.cols }
        requires place { place < length self.old.rows }
        requires row { row < length from.now.rows }
        ensures cols { self.new.cols ≡ self.old.cols }
        ensures rows { self.new.rows ≡ slice_set self.old.rows place (row_at from.now.rows row) }
    {
        let shape = Shape {
            rows: self.rows as usize,
            cols: self.cols as usize,
        };
        let source = row_of(from.entries(), from.shape(), row as usize);
        set_row(&mut self.entries, shape, place as usize, source);
    }

    /// A matrix with these entries, row after row.
    pub(crate) fn from_entries(rows: u32, cols: u32, entries: Vec<u8>) -> Matrix<F>
        requires long { length entries.items ≡ rows * cols }
        requires elements { AreElements F.ops entries.items }
        ensures cols { result.cols ≡ cols }
        ensures rows { result.rows ≡ cut rows cols entries.items }
    {
        Matrix {
            rows,
            cols,
            entries,
            of: PhantomData,
        }
    }

    /// How many rows and columns there are.
    pub(crate) fn shape(&self) -> Shape
        ensures rows { result.rows ≡ length self.now.rows }
        ensures cols { result.cols ≡ self.now.cols }
        ensures few_rows { result.rows < 2 ^ 32 }
        ensures few_cols { result.cols < 2 ^ 32 }
    {
        Shape {
            rows: self.rows as usize,
            cols: self.cols as usize,
        }
    }

    /// The entries, row after row.
    pub(crate) fn entries(&self) -> &[u8]
        ensures entries { IsFilled F.ops (length self.now.rows) self.now.cols result.now }
        ensures rows { cut (length self.now.rows) self.now.cols result.now ≡ self.now.rows }
    {
        &self.entries
    }
}
