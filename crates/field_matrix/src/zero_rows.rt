//! Rows among rows of zeros.

ghost use Rattle.std.specs.Prelude.{◌≡◌, ◌<◌, length, IfOk};
ghost use Rattle.std.specs.List.{AllByRecursion};
ghost use Rattle.linear_laws.specs.ZeroRows.{among_zeros, put_rows};

use crate::matrix::Matrix;
use small_field::Field;
use std::alloc::{AllocError, Global};

impl<F: Field> Matrix<F> {
    /// So many rows: those of the matrix at the places, and rows of zeros elsewhere. Places count from 0.
    pub fn among_zeros(
        &self,
        alloc: Global,
        places: &[u32],
        count: u32,
    ) -> Result<Matrix<F>, AllocError>
        requires each { length places.now ≡ length self.now.rows }
        requires within { AllByRecursion (λ p. p < count) places.now }
        ensures cols { IfOk result (λ m. m.cols ≡ self.now.cols) }
        ensures rows { IfOk result (λ m. m.rows ≡ among_zeros self.now.cols count places.now self.now.rows) }
    {
        let mut whole = Matrix::new(alloc, count, self.cols())?;
        put_rows(self, places, &mut whole);
        Ok(whole)
    }
}

/// Puts the rows at the places.
fn put_rows<F: Field>(from: &Matrix<F>, places: &[u32], whole: &mut Matrix<F>)
    requires cols { from.now.cols ≡ whole.old.cols }
    requires each { length places.now ≡ length from.now.rows }
    requires within { AllByRecursion (λ p. p < length whole.old.rows) places.now }
    ensures cols { whole.new.cols ≡ whole.old.cols }
    ensures rows { whole.new.rows ≡ put_rows places.now from.now.rows whole.old.rows }
{
    for index in 0..from.rows() {
        whole.put_row(places[index as usize], from, index);
    }
}
