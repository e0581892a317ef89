// The coboundaries of extensions from critical cells.
ghost use Rattle.std.specs.Prelude.{◌≡◌, ◌≢◌, ◌<◌, ◌≤◌, ℕ, List, true, false, length, replicate, slice_set};
ghost use Rattle.std.specs.Prelude.{slice_index, IfOk, OnOk};
ghost use Rattle.std.specs.List.{AllByRecursion};
ghost use Rattle.linear_laws.specs.Vectors.{column, combination, dot};
ghost use Rattle.linear_laws.specs.Echelon.{is_nonzero};
ghost use Rattle.split_laws.specs.declared.kind.Kind.TheVariants.{Critical};
ghost use Rattle.split_laws.specs.Kinds.{criticals, part};
ghost use Rattle.split_laws.specs.Pairs.{kind_at};
ghost use Rattle.pair_stages.specs.Stages.{place_of, IsPaired};
ghost use Rattle.pair_stages.specs.Filled.{IsFilledBy};
ghost use Rattle.pair_stages.specs.Blanks.{IsFilledTo, IsRowOf, IsZeroOff};
ghost use Rattle.pair_stages.specs.Reaches.{cleared, AreIndexes, HasColumns, IsFound};
ghost use Rattle.pair_stages.specs.Signed.{AreDegrees};
ghost use Rattle.pair_stages.specs.Reaches.{IsReach, IsSettled};

use crate::filled::Filled;
use crate::reach::Reach;
use crate::stage::Stage;
use face_poset::Signed;
use field_matrix::Row;
use small_field::{Cochain, Field};
use split_laws::{Kind, Match};
use std::alloc::{AllocError, Global};

/// The coboundaries of the extensions from single critical cells of a dimension, at the critical cells of the
/// next, as far as they are not zero. A row costs the cells that its extension meets.
pub(crate) fn filled_rows<F: Field, G: Signed>(
    alloc: Global,
    graded: &G,
    dim: u8,
    stage: &Stage<F>,
    next: &Stage<F>,
) -> Result<Filled<F>, AllocError>
    requires paired { IsPaired F.ops stage.now next.now }
    requires degrees { AreDegrees F.ops (G.space graded.now) (G.negative graded.now) dim stage.now next.now }
    ensures { IfOk result (IsFilledBy F.ops stage.now next.now) }
{
    let mut filled = Filled::new(alloc, next.criticals())?;
    if next.criticals() == 0 {
        return Ok(filled);
    }
    fill(alloc, graded, dim, stage, next, &mut filled)?;
    Ok(filled)
}

/// Puts the coboundaries that are not zero, row by row.
fn fill<F: Field, G: Signed>(
    alloc: Global,
    graded: &G,
    dim: u8,
    stage: &Stage<F>,
    next: &Stage<F>,
    filled: &mut Filled<F>,
) -> Result<(), AllocError>
    requires paired { IsPaired F.ops stage.now next.now }
    requires degrees { AreDegrees F.ops (G.space graded.now) (G.negative graded.now) dim stage.now next.now }
    requires none { IsFilledTo F.ops stage.now next.now 0 filled.old }
    ensures { OnOk result (IsFilledTo F.ops stage.now next.now (criticals stage.now.kinds) filled.new) }
{
    let zeros = Cochain::zero(alloc, next.len())?;
    let mut x = Cochain::zero(alloc, stage.len())?;
    let mut values = Row::zero(alloc, next.criticals())?;
    let mut reach = Reach::new(alloc, stage, next)?;
    for row in 0..stage.criticals() {
        reach.find(graded, dim, stage, next, stage.critical_place(row))?;
        let some = put_extension(stage, next, &reach, &zeros, &mut x, &mut values, row);
        filled.push(row, &values, some)?;
        clear_values(next, &reach, &mut values);
    }
    Ok(())
}

/// Changes a row of zeros to the coboundary of the extension that is 1 at one critical cell and 0 at the others,
/// where what it meets was found, and answers whether it is not zero. The cochain is zero before and after.
fn put_extension<F: Field>(
    stage: &Stage<F>,
    next: &Stage<F>,
    reach: &Reach,
    zeros: &Cochain<F>,
    x: &mut Cochain<F>,
    values: &mut Row<F>,
    row: u32,
) -> bool
    requires paired { IsPaired F.ops stage.now next.now }
    requires indexes { AreIndexes stage.now.pairs next.now.kinds reach.now.indexes.items }
    requires most { reach.now.found.most ≡ length next.now.kinds }
    requires reach { IsReach stage.now next.now (place_of stage.now.kinds row) reach.now.found.found
        reach.now.chosen.items }
    requires zeros { zeros.now ≡ replicate (length next.now.kinds) 0 }
    requires blank { x.old ≡ replicate (length stage.now.kinds) 0 }
    requires row { row < criticals stage.now.kinds }
    requires none { values.old ≡ replicate (criticals next.now.kinds) 0 }
    ensures blank { x.new ≡ replicate (length stage.now.kinds) 0 }
    ensures row { IsRowOf F.ops stage.now next.now row values.new }
    ensures some { result ≡ is_nonzero values.new }
    ensures off { IsZeroOff next.now.kinds reach.now.found.found values.new }
{
    settle_mark(stage, next, reach, zeros, x, row);
    let some = put_coboundary(stage, next, reach, x, values);
    clear_mark(stage, &reach.chosen, x, row);
    some
}

/// Changes a cochain that is zero to the extension that is 1 at the critical cell of a row and 0 at the others,
/// where what it meets was found.
fn settle_mark<F: Field>(
    stage: &Stage<F>,
    next: &Stage<F>,
    reach: &Reach,
    zeros: &Cochain<F>,
    x: &mut Cochain<F>,
    row: u32,
)
    requires paired { IsPaired F.ops stage.now next.now }
    requires reach { IsReach stage.now next.now (place_of stage.now.kinds row) reach.now.found.found
        reach.now.chosen.items }
    requires zeros { zeros.now ≡ replicate (length next.now.kinds) 0 }
    requires blank { x.old ≡ replicate (length stage.now.kinds) 0 }
    requires row { row < criticals stage.now.kinds }
    ensures { IsSettled F.ops stage.now next.now row reach.now.found.found reach.now.chosen.items x.new }
{
    let chosen: &[Match] = &reach.chosen;
    x.set(stage.critical_place(row) + 1, F::one());
    stage.settle_chosen(next, chosen, zeros, x);
}

/// Changes the extension of a row, which is zero but at the critical cell and at the lowers of the pairs that
/// it meets, back to zero.
fn clear_mark<F: Field>(stage: &Stage<F>, pairs: &[Match], x: &mut Cochain<F>, row: u32)
    requires cochain { length x.old ≡ length stage.now.kinds }
    requires lowers { AllByRecursion (λ p. p.lower < length stage.now.kinds) pairs.now }
    requires row { row < criticals stage.now.kinds }
    ensures { x.new ≡ slice_set (cleared pairs.now x.old) (place_of stage.now.kinds row) 0 }
{
    let _few = stage.len();
    clear(pairs, x);
    x.set(stage.critical_place(row) + 1, F::zero());
}

/// Puts zero at the lowers of pairs.
fn clear<F: Field>(pairs: &[Match], x: &mut Cochain<F>)
    requires few { length x.old ≤ 4294967295 }
    requires lowers { AllByRecursion (λ p. p.lower < length x.old) pairs.now }
    ensures { x.new ≡ cleared pairs.now x.old }
{
    for pair in pairs {
        x.set(pair.lower + 1, F::zero());
    }
}

/// Puts the coboundary of a cochain, at the critical cells of the next degree, into a row of zeros, and answers
/// whether it is not zero. It is not zero at most at the cells that were found.
fn put_coboundary<F: Field>(
    stage: &Stage<F>,
    next: &Stage<F>,
    reach: &Reach,
    x: &Cochain<F>,
    values: &mut Row<F>,
) -> bool
    requires paired { IsPaired F.ops stage.now next.now }
    requires indexes { AreIndexes stage.now.pairs next.now.kinds reach.now.indexes.items }
    requires most { reach.now.found.most ≡ length next.now.kinds }
    requires found { IsFound F.ops stage.now next.now x.now reach.now.found.found }
    requires cochain { length x.now ≡ length stage.now.kinds }
    requires zeros { values.old ≡ replicate (criticals next.now.kinds) 0 }
    ensures values { values.new ≡ part next.now.kinds (combination F.ops (length next.now.kinds) x.now stage.now.rows) }
    ensures some { result ≡ is_nonzero values.new }
    ensures off { IsZeroOff next.now.kinds reach.now.found.found values.new }
{
    let indexes: &[u32] = &reach.indexes;
    let mut some = false;
    for index in 0..reach.found.len() {
        let place = reach.found.get(index) - 1;
        if put_value(stage, next, indexes, place, x, values) {
            some = true;
        }
    }
    some
}

/// Puts the coboundary of a cochain at a cell of the next degree into a row, where the cell is critical, and
/// answers whether it is not zero there.
fn put_value<F: Field>(
    stage: &Stage<F>,
    next: &Stage<F>,
    indexes: &[u32],
    place: u32,
    x: &Cochain<F>,
    values: &mut Row<F>,
) -> bool
    requires paired { IsPaired F.ops stage.now next.now }
    requires indexes { AreIndexes stage.now.pairs next.now.kinds indexes.now }
    requires place { place < length next.now.kinds }
    requires cochain { length x.now ≡ length stage.now.kinds }
    requires values { length values.old ≡ criticals next.now.kinds }
    ensures critical { kind_at next.now.kinds place ≡ Critical
        → values.new
        ≡ slice_set values.old (slice_index indexes.now place)
        (dot F.ops x.now (column place stage.now.rows)) }
    ensures other { (kind_at next.now.kinds place ≡ Critical → ⊥) → values.new ≡ values.old }
    ensures some { result ≡ true
        → (kind_at next.now.kinds place ≡ Critical) × (dot F.ops x.now (column place stage.now.rows) ≢ 0) }
    ensures none { result ≡ false → kind_at next.now.kinds place ≡ Critical
        → dot F.ops x.now (column place stage.now.rows) ≡ 0 }
{
    match next.kind(place) {
        Kind::Critical => {
            let value = stage.coboundary_at(x, place);
            values.set(indexes[place as usize], value);
            value.to_number() != 0
        }
        Kind::Lower => false,
        Kind::Upper => false,
    }
}

/// Changes a row that is not zero at most at the cells that were found back to zero.
fn clear_values<F: Field>(next: &Stage<F>, reach: &Reach, values: &mut Row<F>)
    requires columns { HasColumns next.now.kinds reach.now.indexes.items }
    requires long { length reach.now.indexes.items ≡ length next.now.kinds }
    requires most { reach.now.found.most ≡ length next.now.kinds }
    requires values { length values.old ≡ criticals next.now.kinds }
    requires off { IsZeroOff next.now.kinds reach.now.found.found values.old }
    ensures { values.new ≡ replicate (criticals next.now.kinds) 0 }
{
    let indexes: &[u32] = &reach.indexes;
    for index in 0..reach.found.len() {
        let place = reach.found.get(index) - 1;
        clear_value(next, indexes, place, values);
    }
}

/// Puts zero at a cell of the next degree, where the cell is critical.
fn clear_value<F: Field>(next: &Stage<F>, indexes: &[u32], place: u32, values: &mut Row<F>)
    requires columns { HasColumns next.now.kinds indexes.now }
    requires long { length indexes.now ≡ length next.now.kinds }
    requires place { place < length next.now.kinds }
    requires values { length values.old ≡ criticals next.now.kinds }
    ensures critical { kind_at next.now.kinds place ≡ Critical
        → values.new ≡ slice_set values.old (slice_index indexes.now place) 0 }
    ensures other { (kind_at next.now.kinds place ≡ Critical → ⊥) → values.new ≡ values.old }
{
    match next.kind(place) {
        Kind::Critical => values.set(indexes[place as usize], F::zero()),
        Kind::Lower => {}
        Kind::Upper => {}
    }
}
