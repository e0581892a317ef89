// The indexes of pairs and of critical cells.
ghost use Rattle.std.specs.Prelude.{◌≡◌, ◌<◌, ℕ, length, slice_index, IfOk};
ghost use Rattle.std.specs.List.{AllByRecursion};
ghost use Rattle.split_laws.specs.declared.kind.Kind.TheVariants.{Upper};
ghost use Rattle.split_laws.specs.Kinds.{criticals};
ghost use Rattle.split_laws.specs.Pairs.{kind_at};
ghost use Rattle.pair_stages.specs.Stages.{place_of, IsPaired};
ghost use Rattle.pair_stages.specs.Reaches.{HasPair, AreIndexes};
ghost use Rattle.pair_stages.specs.Units.{pair_at};

use crate::stage::Stage;
use small_field::Field;
use std::alloc::{AllocError, Global};

/// For each cell of the next degree an index: of its pair, where it is an upper, and among the critical
/// cells, where it is critical.
pub(crate) fn list_indexes<F: Field>(
    alloc: Global,
    stage: &Stage<F>,
    next: &Stage<F>,
) -> Result<Vec<u32>, AllocError>
    requires { IsPaired F.ops stage.now next.now }
    ensures { IfOk result (λ indexes. AreIndexes stage.now.pairs next.now.kinds indexes.items) }
{
    let mut indexes = vec![in alloc; 0u32; next.len() as usize]?;
    put_pairs(stage, &mut indexes);
    put_columns(next, &mut indexes);
    Ok(indexes)
}

/// Puts the index of each pair at the place of its upper.
fn put_pairs<F: Field>(stage: &Stage<F>, indexes: &mut [u32])
    requires { AllByRecursion (λ p. p.upper < length indexes.old) stage.now.pairs }
    ensures { (k : ℕ) → k < length stage.now.pairs
        → HasPair stage.now.pairs indexes.new ((pair_at stage.now.pairs k).upper) }
{
    for index in 0..stage.units() {
        indexes[stage.pair(index).upper as usize] = index;
    }
}

/// Puts the index of each critical cell among the critical ones at its place.
fn put_columns<F: Field>(next: &Stage<F>, indexes: &mut [u32])
    requires { length indexes.old ≡ length next.now.kinds }
    ensures columns { (col : ℕ) → col < criticals next.now.kinds
        → slice_index indexes.new (place_of next.now.kinds col) ≡ col }
    ensures others { (j : ℕ) → kind_at next.now.kinds j ≡ Upper
        → slice_index indexes.new j ≡ slice_index indexes.old j }
{
    for col in 0..next.criticals() {
        indexes[next.critical_place(col) as usize] = col;
    }
}
