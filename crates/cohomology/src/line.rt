ghost use Rattle.std.specs.Prelude.{◌≡◌};

use small_field::Sparse;
use std::marker::Model;

/// A line of a certificate of homology: a cochain on its left side, and a chain with coefficients on its right side,
/// each by its entries that are not 0, at the numbers of chains, which count from 1.
#[derive(Drop)]
pub struct Line {
    left: Sparse,
    right: Sparse,
}

impl Model for Line {
    ghost use Rattle.chain_laws.specs.AllLines.{Line};

    ghost Value = { Line };

    ghost view = { λ s. record { left = s.left; right = s.right } };
}

impl Line {
    /// The line with these sides.
    pub(crate) fn new(left: Sparse, right: Sparse) -> Line
        ensures left { result.left ≡ left }
        ensures right { result.right ≡ right }
    {
        Line { left, right }
    }

    /// The cochain on the left side.
    pub fn left(&self) -> &Sparse
        ensures { result.now ≡ self.now.left }
    {
        &self.left
    }

    /// The chain on the right side.
    pub fn right(&self) -> &Sparse
        ensures { result.now ≡ self.now.right }
    {
        &self.right
    }
}
