// The search for what the extension from a critical cell meets.
ghost use Rattle.std.specs.Prelude.{◌≡◌, ◌++◌, ◌<◌, length, map, slice_index, All, IfOk, OnOk};
ghost use Rattle.split_laws.specs.declared.kind.Kind.TheVariants.{Upper};
ghost use Rattle.split_laws.specs.Pairs.{kind_at};
ghost use Rattle.pair_stages.specs.Stages.{IsPaired};
ghost use Rattle.pair_stages.specs.Reaches.{upper_index, AreIndexes, HasCofaces, HasMore};
ghost use Rattle.pair_stages.specs.Signed.{AreDegrees};
ghost use Rattle.pair_stages.specs.Reaches.{IsClosed, IsOrder, IsReach};
ghost use Rattle.pair_stages.specs.Units.{pair_at};

use crate::indexes::list_indexes;
use crate::stage::Stage;
use face_poset::Signed;
use number_lists::{FoundNumbers, sort_once};
use small_field::Field;
use split_laws::{Kind, Match};
use std::alloc::{AllocError, Global};

/// What the extension from one critical cell after another meets: cells of the next degree, and the pairs of
/// the uppers among them. The places for them are kept, so that each search costs what it finds.
#[derive(Drop)]
pub(crate) struct Reach {
    /// For each cell of the next degree the index of its pair, or its index among the critical cells.
    pub(crate) indexes: Vec<u32>,
    /// The numbers of the cells that were found.
    pub(crate) found: FoundNumbers,
    /// The indexes of the pairs that were found, increasing.
    order: Vec<u32>,
    /// These pairs.
    pub(crate) chosen: Vec<Match>,
}

impl Reach {
    /// Nothing was found yet.
    pub(crate) fn new<F: Field>(
        alloc: Global,
        stage: &Stage<F>,
        next: &Stage<F>,
    ) -> Result<Reach, AllocError>
        requires { IsPaired F.ops stage.now next.now }
        ensures indexes { IfOk result (λ reach. AreIndexes stage.now.pairs next.now.kinds reach.indexes.items) }
        ensures most { IfOk result (λ reach. reach.found.most ≡ length next.now.kinds) }
    {
        Ok(Reach {
            indexes: list_indexes(alloc, stage, next)?,
            found: FoundNumbers::new(alloc, next.len() as usize)?,
            order: Vec::new(alloc),
            chosen: Vec::new(alloc),
        })
    }

    /// Finds what the extension from the critical cell at a place meets.
    pub(crate) fn find<F: Field, G: Signed>(
        &mut self,
        graded: &G,
        dim: u8,
        stage: &Stage<F>,
        next: &Stage<F>,
        place: u32,
    ) -> Result<(), AllocError>
        requires paired { IsPaired F.ops stage.now next.now }
        requires degrees { AreDegrees F.ops (G.space graded.now) (G.negative graded.now) dim stage.now next.now }
        requires indexes { AreIndexes stage.now.pairs next.now.kinds self.old.indexes.items }
        requires most { self.old.found.most ≡ length next.now.kinds }
        requires place { place < length stage.now.kinds }
        ensures indexes { OnOk result (self.new.indexes.items ≡ self.old.indexes.items) }
        ensures most { OnOk result (self.new.found.most ≡ length next.now.kinds) }
        ensures reach { OnOk result (IsReach stage.now next.now place self.new.found.found self.new.chosen.items) }
    {
        let indexes: &[u32] = &self.indexes;
        find_cells(graded, dim, stage, next, indexes, place, &mut self.found)?;
        list_order(next, indexes, &self.found, &mut self.order)?;
        choose(stage, &self.order, &mut self.chosen)
    }
}

/// Finds the cofaces of a cell, then those of the lower of each upper that was found.
fn find_cells<F: Field, G: Signed>(
    graded: &G,
    dim: u8,
    stage: &Stage<F>,
    next: &Stage<F>,
    indexes: &[u32],
    place: u32,
    found: &mut FoundNumbers,
) -> Result<(), AllocError>
    requires paired { IsPaired F.ops stage.now next.now }
    requires degrees { AreDegrees F.ops (G.space graded.now) (G.negative graded.now) dim stage.now next.now }
    requires indexes { AreIndexes stage.now.pairs next.now.kinds indexes.now }
    requires most { found.old.most ≡ length next.now.kinds }
    requires place { place < length stage.now.kinds }
    ensures most { found.new.most ≡ found.old.most }
    ensures closed { OnOk result
        (IsClosed (G.space graded.now) dim stage.now next.now indexes.now place found.new.found) }
{
    found.clear();
    insert_cofaces(graded, dim, stage, next, place, found)?;
    let mut head = 0;
    while head < found.len() {
        let number = found.get(head);
        follow(graded, dim, stage, next, indexes, number - 1, found)?;
        head += 1;
    }
    Ok(())
}

/// The indexes of the pairs whose uppers were found, in the order of the field.
fn list_order<F: Field>(
    next: &Stage<F>,
    indexes: &[u32],
    found: &FoundNumbers,
    order: &mut Vec<u32>,
) -> Result<(), AllocError>
    requires indexes { length indexes.now ≡ length next.now.kinds }
    requires most { found.now.most ≡ length next.now.kinds }
    ensures { OnOk result (IsOrder next.now.kinds indexes.now found.now.found order.new.items) }
{
    order.clear();
    for index in 0..found.len() {
        let place = found.get(index) - 1;
        push_index(next.kind(place), indexes[place as usize], order)?;
    }
    sort_once(order);
    Ok(())
}

/// The pairs with these indexes.
fn choose<F: Field>(
    stage: &Stage<F>,
    order: &[u32],
    chosen: &mut Vec<Match>,
) -> Result<(), AllocError>
    requires { All (λ k. k < length stage.now.pairs) order.now }
    ensures { OnOk result (chosen.new.items ≡ map (pair_at stage.now.pairs) order.now) }
{
    chosen.clear();
    for index in order {
        chosen.push(stage.pair(*index))?;
    }
    Ok(())
}

/// Finds the cofaces of a cell.
fn insert_cofaces<F: Field, G: Signed>(
    graded: &G,
    dim: u8,
    stage: &Stage<F>,
    next: &Stage<F>,
    place: u32,
    found: &mut FoundNumbers,
) -> Result<(), AllocError>
    requires degrees { AreDegrees F.ops (G.space graded.now) (G.negative graded.now) dim stage.now next.now }
    requires most { found.old.most ≡ length next.now.kinds }
    requires place { place < length stage.now.kinds }
    ensures most { found.new.most ≡ found.old.most }
    ensures more { OnOk result (HasMore found.old.found found.new.found) }
    ensures cofaces { OnOk result (HasCofaces (G.space graded.now) dim place found.new.found) }
{
    let _few = stage.len();
    found.insert_all(graded.cofaces(dim, place + 1))
}

/// Finds the cofaces of the lower of an upper. From a cell that is no upper there is nothing to find.
fn follow<F: Field, G: Signed>(
    graded: &G,
    dim: u8,
    stage: &Stage<F>,
    next: &Stage<F>,
    indexes: &[u32],
    place: u32,
    found: &mut FoundNumbers,
) -> Result<(), AllocError>
    requires paired { IsPaired F.ops stage.now next.now }
    requires degrees { AreDegrees F.ops (G.space graded.now) (G.negative graded.now) dim stage.now next.now }
    requires indexes { AreIndexes stage.now.pairs next.now.kinds indexes.now }
    requires most { found.old.most ≡ length next.now.kinds }
    requires place { place < length next.now.kinds }
    ensures most { found.new.most ≡ found.old.most }
    ensures more { OnOk result (HasMore found.old.found found.new.found) }
    ensures cofaces { OnOk result
        (kind_at next.now.kinds place ≡ Upper
        → HasCofaces (G.space graded.now) dim
        ((pair_at stage.now.pairs (slice_index indexes.now place)).lower) found.new.found) }
{
    match next.kind(place) {
        Kind::Critical => Ok(()),
        Kind::Lower => Ok(()),
        Kind::Upper => {
            let lower = stage.pair(indexes[place as usize]).lower;
            insert_cofaces(graded, dim, stage, next, lower, found)
        }
    }
}

/// Puts the index last, where the cell is an upper.
fn push_index(kind: Kind, index: u32, order: &mut Vec<u32>) -> Result<(), AllocError>
    ensures { OnOk result (order.new.items ≡ order.old.items ++ upper_index kind index) }
{
    match kind {
        Kind::Critical => Ok(()),
        Kind::Lower => Ok(()),
        Kind::Upper => {
            order.push(index)?;
            Ok(())
        }
    }
}
