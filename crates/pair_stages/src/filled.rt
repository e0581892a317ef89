// Rows that are not zero.
ghost use Rattle.std.specs.Prelude.{◌≡◌, ◌<◌, ◌++◌, ◌∷◌, [], true, false, length, IfOk, OnOk};
ghost use Rattle.std.specs.List.{AllByRecursion};
ghost use Rattle.linear_laws.specs.ZeroRows.{among_zeros};

use field_matrix::{Matrix, Row};
use small_field::Field;
use std::alloc::{AllocError, Global};
use std::marker::Model;

/// Rows that are not zero, with their places among others that are. Places count from 0.
#[derive(Drop)]
pub struct Filled<F: Field> {
    places: Vec<u32>,
    rows: Matrix<F>,
}

impl<F: Field> Model for Filled<F> {
    ghost use Rattle.pair_stages.specs.Filled.{Filled};

    ghost Value = { Filled };

    ghost view = { λ s. record { places = s.places.items; cols = s.rows.cols; rows = s.rows.rows } };
}

impl<F: Field> Filled<F> {
    /// No row yet, of so many numbers.
    pub(crate) fn new(alloc: Global, cols: u32) -> Result<Filled<F>, AllocError>
        ensures places { IfOk result (λ f. f.places ≡ []) }
        ensures cols { IfOk result (λ f. f.cols ≡ cols) }
        ensures rows { IfOk result (λ f. f.rows ≡ []) }
    {
        Ok(Filled {
            places: Vec::new(alloc),
            rows: Matrix::new(alloc, 0, cols)?,
        })
    }

    /// Puts a row with its place last, where it is not zero.
    pub(crate) fn push(&mut self, place: u32, values: &Row<F>, some: bool) -> Result<(), AllocError>
        requires values { length values.now ≡ self.old.cols }
        requires few { length self.old.rows < 4294967295 }
        ensures cols { OnOk result (self.new.cols ≡ self.old.cols) }
        ensures rows { OnOk result (some ≡ true → self.new.rows ≡ self.old.rows ++ values.now ∷ []) }
        ensures places { OnOk result (some ≡ true → self.new.places ≡ self.old.places ++ place ∷ []) }
        ensures none { OnOk result (some ≡ false → self.new ≡ self.old) }
    {
        if some {
            self.places.push(place)?;
            self.rows.push_row(values)?;
        }
        Ok(())
    }

    /// The places, increasing.
    pub fn places(&self) -> &[u32]
        ensures { result.now ≡ self.now.places }
    {
        &self.places
    }

    /// The rows.
    pub fn rows(&self) -> &Matrix<F>
        ensures cols { result.now.cols ≡ self.now.cols }
        ensures rows { result.now.rows ≡ self.now.rows }
    {
        &self.rows
    }

    /// So many rows: these at their places, and rows of zeros elsewhere.
    pub fn whole(&self, alloc: Global, count: u32) -> Result<Matrix<F>, AllocError>
        requires each { length self.now.places ≡ length self.now.rows }
        requires within { AllByRecursion (λ p. p < count) self.now.places }
        ensures cols { IfOk result (λ m. m.cols ≡ self.now.cols) }
        ensures rows { IfOk result (λ m. m.rows ≡ among_zeros self.now.cols count self.now.places self.now.rows) }
    {
        self.rows.among_zeros(alloc, &self.places, count)
    }
}
