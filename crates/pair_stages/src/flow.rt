// Flows from critical cells: substitution along the pairs of a field, the last pair first.
ghost use Rattle.std.specs.Prelude.{◌≡◌, ◌≢◌, ◌<◌, ◌≤◌, [], length, replicate, IfOk};
ghost use Rattle.std.specs.List.{AllByRecursion};
ghost use Rattle.linear_laws.specs.Vectors.{boundary as boundary_of, bump, entry, IsMatrix};
ghost use Rattle.split_laws.specs.Kinds.{criticals, spread};
ghost use Rattle.split_laws.specs.Pairs.{Triangular, back_correction, carry as carried};
ghost use Rattle.split_laws.specs.Solutions.{IsFlow};
ghost use Rattle.pair_stages.specs.Stages.{IsPaired};

use crate::columns::Columns;
use crate::stage::Stage;
use field_matrix::Row;
use small_field::{Cochain, Field};
use split_laws::Match;
use std::alloc::{AllocError, Global};

/// The flow of values at the critical cells of the next degree.
pub(crate) fn flow<F: Field>(
    alloc: Global,
    stage: &Stage<F>,
    next: &Stage<F>,
    c: &Row<F>,
) -> Result<Cochain<F>, AllocError>
    requires paired { IsPaired F.ops stage.now next.now }
    requires values { length c.now ≡ criticals next.now.kinds }
    ensures { IfOk result
        (IsFlow F.ops (length stage.now.kinds) (length next.now.kinds) stage.now.rows stage.now.kinds
        next.now.kinds c.now) }
{
    let _elements = c.len();
    let mut boundary = boundary_of_spread(alloc, stage, next, c)?;
    let mut z = next.spread(alloc, c)?;
    stage.carry(next, &mut boundary, &mut z);
    Ok(z)
}

/// The flow of values at the critical cells of the first degree: they are spread, and nothing is changed.
pub(crate) fn flow_first<F: Field>(
    alloc: Global,
    stage: &Stage<F>,
    c: &Row<F>,
) -> Result<Cochain<F>, AllocError>
    requires { length c.now ≡ criticals stage.now.kinds }
    ensures { IfOk result (IsFlow F.ops 0 (length stage.now.kinds) [] [] stage.now.kinds c.now) }
{
    let _elements = c.len();
    stage.spread(alloc, c)
}

/// The boundary of the chain of the next degree that has these values at the critical cells and is 0 elsewhere.
fn boundary_of_spread<F: Field>(
    alloc: Global,
    stage: &Stage<F>,
    next: &Stage<F>,
    c: &Row<F>,
) -> Result<Cochain<F>, AllocError>
    requires paired { IsPaired F.ops stage.now next.now }
    requires values { length c.now ≡ criticals next.now.kinds }
    ensures { IfOk result (λ b. b ≡ boundary_of F.ops stage.now.rows (spread next.now.kinds c.now)) }
{
    let mut boundary = Cochain::zero(alloc, stage.len())?;
    for index in 0..c.len() {
        stage.add_boundary(next.critical_place(index), c.get(index), &mut boundary);
    }
    Ok(boundary)
}

/// Changes a chain at the uppers of pairs, from the last pair to the first, so that its boundary is zero at
/// their lowers; the boundary of the chain is changed with it.
pub(crate) fn carry<F: Field>(
    columns: &Columns<F>,
    pairs: &[Match],
    boundary: &mut Cochain<F>,
    z: &mut Cochain<F>,
)
    requires few { length columns.now.rows ≤ 4294967295 }
    requires few_above { columns.now.cols ≤ 4294967295 }
    requires matrix { IsMatrix F.ops columns.now.cols columns.now.rows }
    requires above { length z.old ≡ columns.now.cols }
    requires boundary { boundary.old ≡ boundary_of F.ops columns.now.rows z.old }
    requires triangular { Triangular columns.now.rows pairs.now }
    requires uppers { AllByRecursion (λ p. p.upper < columns.now.cols) pairs.now }
    ensures { z.new ≡ carried F.ops columns.now.rows (replicate (length columns.now.rows) 0) pairs.now z.old }
{
    for index in (0..pairs.len()).rev() {
        carry_pair(columns, pairs[index], boundary, z);
    }
}

/// Changes a chain at the upper of a pair, so that its boundary is zero at the lower, and the boundary with it.
fn carry_pair<F: Field>(
    columns: &Columns<F>,
    pair: Match,
    boundary: &mut Cochain<F>,
    z: &mut Cochain<F>,
)
    requires few { length columns.now.rows ≤ 4294967295 }
    requires few_above { columns.now.cols ≤ 4294967295 }
    requires matrix { IsMatrix F.ops columns.now.cols columns.now.rows }
    requires above { length z.old ≡ columns.now.cols }
    requires boundary { boundary.old ≡ boundary_of F.ops columns.now.rows z.old }
    requires lower { pair.lower < length columns.now.rows }
    requires upper { pair.upper < columns.now.cols }
    requires nonzero { entry columns.now.rows pair.lower pair.upper ≢ 0 }
    ensures chain { z.new
        ≡ bump F.ops z.old pair.upper
        (back_correction F.ops columns.now.rows (replicate (length columns.now.rows) 0) pair z.old) }
    ensures boundary { boundary.new ≡ boundary_of F.ops columns.now.rows z.new }
{
    let missing = boundary.get(pair.lower + 1).neg();
    let factor = missing.mul(columns.coefficient(pair.lower, pair.upper).inv());
    let value = z.get(pair.upper + 1).add(factor);
    z.set(pair.upper + 1, value);
    columns.add_boundary(pair.upper, factor, boundary);
}
