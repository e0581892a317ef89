// Substitution along the pairs of a field.
ghost use Rattle.std.specs.Prelude.{◌≡◌, ◌≢◌, ◌<◌, ◌≤◌, length};
ghost use Rattle.std.specs.List.{AllByRecursion};
ghost use Rattle.linear_laws.specs.Vectors.{bump, entry};
ghost use Rattle.split_laws.specs.Pairs.{Triangular, correction, settle as settled};

use crate::columns::Columns;
use small_field::{Cochain, Field};
use split_laws::Match;

/// Changes a cochain at the lowers of pairs, one after the other, so that its coboundary at their uppers
/// is t.
pub(crate) fn settle<F: Field>(
    columns: &Columns<F>,
    pairs: &[Match],
    t: &Cochain<F>,
    y: &mut Cochain<F>,
)
    requires few { length columns.now.rows ≤ 4294967295 }
    requires few_above { columns.now.cols ≤ 4294967295 }
    requires above { length t.now ≡ columns.now.cols }
    requires below { length y.old ≡ length columns.now.rows }
    requires triangular { Triangular columns.now.rows pairs.now }
    requires uppers { AllByRecursion (λ p. p.upper < columns.now.cols) pairs.now }
    ensures { y.new ≡ settled F.ops columns.now.rows t.now pairs.now y.old }
{
    for pair in pairs {
        settle_pair(columns, *pair, t, y);
    }
}

/// Changes a cochain at the lower of a pair, so that its coboundary at the upper is that of t.
fn settle_pair<F: Field>(columns: &Columns<F>, pair: Match, t: &Cochain<F>, y: &mut Cochain<F>)
    requires few { length columns.now.rows ≤ 4294967295 }
    requires few_above { columns.now.cols ≤ 4294967295 }
    requires above { length t.now ≡ columns.now.cols }
    requires below { length y.old ≡ length columns.now.rows }
    requires lower { pair.lower < length columns.now.rows }
    requires upper { pair.upper < columns.now.cols }
    requires nonzero { entry columns.now.rows pair.lower pair.upper ≢ 0 }
    ensures { y.new ≡ bump F.ops y.old pair.lower (correction F.ops columns.now.rows t.now pair y.old) }
{
    let present = columns.coboundary_at(y, pair.upper);
    let missing = t.get(pair.upper + 1).add(present.neg());
    let factor = missing.mul(columns.coefficient(pair.lower, pair.upper).inv());
    let value = y.get(pair.lower + 1).add(factor);
    y.set(pair.lower + 1, value);
}
