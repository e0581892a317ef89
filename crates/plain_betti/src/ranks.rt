// The coboundaries as matrices, and their ranks.
ghost use Rattle.std.specs.Prelude.{◌≡◌, ◌≤◌, ◌<◌, ◌+◌, ◌*◌, length, slice_set, IfOk};
ghost use Rattle.order_complex.specs.Chains.{chains_of};
ghost use Rattle.order_complex.specs.Cochains.{coboundary_on};
ghost use Rattle.order_complex.specs.Ranks.{rows_on};
ghost use Rattle.plain_betti.specs.Ranks.{IsRank};

use field_matrix::Matrix;
use order_complex::{Chains, chains_are_ordered};
use small_field::{Cochain, Field};
use std::alloc::{AllocError, Global};
use std::sync::ledger::Ledger;
use step_count::Steps;

/// The rank of the coboundary of a degree from 0 to 2. Each row addition of the reduction is one step.
pub fn coboundary_rank<F: Field, L: Ledger>(
    alloc: Global,
    chains: &Chains<'_>,
    degree: u8,
    steps: &mut Steps<L>,
) -> Result<u32, AllocError>
    requires degree { degree ≤ 2 }
    ensures rank { IfOk result (IsRank F.ops (chains_of chains.now degree) (chains_of chains.now (degree + 1))) }
    ensures steps { steps.new
        ≤ steps.old + length (chains_of chains.now degree) * length (chains_of chains.now (degree + 1)) }
{
    let mut matrix = coboundary_matrix::<F>(alloc, chains, degree)?;
    matrix.reduce(steps);
    Ok(matrix.rank())
}

/// The coboundary of a degree from 0 to 2: each row is the coboundary of the cochain that is 1 on one chain
/// and 0 on the others.
fn coboundary_matrix<F: Field>(
    alloc: Global,
    chains: &Chains<'_>,
    degree: u8,
) -> Result<Matrix<F>, AllocError>
    requires degree { degree ≤ 2 }
    ensures cols { IfOk result (λ m. m.cols ≡ length (chains_of chains.now (degree + 1))) }
    ensures rows { IfOk result
        (λ m. m.rows ≡ rows_on F.ops (chains_of chains.now degree) (chains_of chains.now (degree + 1))) }
{
    chains_are_ordered();
    let rows = chains.len(degree);
    let mut matrix = Matrix::new(alloc, rows, chains.len(degree + 1))?;
    let mut mark = Cochain::zero(alloc, rows)?;
    for row in 0..rows {
        mark.set(row + 1, F::one());
        put_coboundary(chains, degree, &mark, &mut matrix, row);
        mark.set(row + 1, F::zero());
    }
    Ok(matrix)
}

/// Puts the coboundary of a cochain of a degree into a row, which is counted from 0.
fn put_coboundary<F: Field>(
    chains: &Chains<'_>,
    degree: u8,
    x: &Cochain<F>,
    matrix: &mut Matrix<F>,
    row: u32,
)
    requires degree { degree ≤ 2 }
    requires cochain { length x.now ≡ length (chains_of chains.now degree) }
    requires cols { matrix.old.cols ≡ length (chains_of chains.now (degree + 1)) }
    requires row { row < length matrix.old.rows }
    ensures cols { matrix.new.cols ≡ matrix.old.cols }
    ensures rows { matrix.new.rows
        ≡ slice_set matrix.old.rows row
        (coboundary_on F.ops (chains_of chains.now degree) (chains_of chains.now (degree + 1)) x.now) }
{
    for col in 0..matrix.cols() {
        let value = chains.coboundary_at(degree, x, col + 1);
        matrix.set(row, col, value);
    }
}
