// More pairs, where no gradient path forbids them.
ghost use Rattle.std.specs.Prelude.{◌≡◌, ◌<◌, ◌≤◌, false, OnOk};
ghost use Rattle.face_poset.specs.Poset.{count};
ghost use Rattle.vector_field.specs.Pairs.{is_used, IsFieldOf};
ghost use Rattle.vector_field.specs.Stages.{first_open, put_open, filled};

use crate::pairing::Pairing;
use crate::search::open_coface;
use face_poset::{Graded, Pair};
use number_lists::FoundNumbers;
use std::alloc::{AllocError, Global};

/// Adds pairs of cells of dimension `dim` with their cofaces until each two that stay critical have a
/// gradient path from the upper to the lower by another first facet. The cells are visited by number, and
/// each that is in no pair is paired with its first coface that no path forbids.
pub(crate) fn fill<G: Graded>(
    alloc: Global,
    graded: &G,
    dim: u8,
    pairing: &mut Pairing,
) -> Result<(), AllocError>
    requires dim { dim < 3 }
    requires field { IsFieldOf (G.space graded.now) pairing.old }
    ensures counts { pairing.new.counts ≡ pairing.old.counts }
    ensures pairs { OnOk result (pairing.new.pairs ≡ filled (G.space graded.now) dim pairing.old.pairs) }
{
    let mut found = FoundNumbers::new(alloc, graded.cells(dim) as usize)?;
    for index in 0..graded.cells(dim) {
        if !pairing.is_used(dim, index + 1) {
            add_pair(alloc, graded, dim, index + 1, pairing, &mut found)?;
        }
    }
    Ok(())
}

/// Pairs the lower with its first coface that is in no pair and has no gradient path to it by another first
/// facet, if there is one.
fn add_pair<G: Graded>(
    alloc: Global,
    graded: &G,
    dim: u8,
    lower: u32,
    pairing: &mut Pairing,
    found: &mut FoundNumbers,
) -> Result<(), AllocError>
    requires dim { dim < 3 }
    requires first { 1 ≤ lower }
    requires last { lower ≤ count (G.space graded.now) dim }
    requires field { IsFieldOf (G.space graded.now) pairing.old }
    requires unused { is_used pairing.old.pairs dim lower ≡ false }
    requires most { found.old.most ≡ count (G.space graded.now) dim }
    ensures most { found.new.most ≡ found.old.most }
    ensures counts { pairing.new.counts ≡ pairing.old.counts }
    ensures pairs { OnOk result
        (pairing.new.pairs
        ≡ put_open (G.space graded.now) dim pairing.old.pairs lower
        (first_open (G.space graded.now) pairing.old.pairs dim lower)) }
{
    match open_coface(graded, pairing, dim, lower, found)? {
        Some(upper) => pairing.insert(alloc, Pair { dim, lower, upper }, found),
        None => Ok(()),
    }
}
