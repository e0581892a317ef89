ghost use Rattle.std.specs.Prelude.{◌≡◌, ◌+◌, ◌<◌, IfOk, OnOk};
ghost use Rattle.face_poset.specs.Poset.{count};
ghost use Rattle.vector_field.specs.Pairs.{IsFieldOf};
ghost use Rattle.vector_field.specs.Maximal.{IsMaximal};
ghost use Rattle.vector_field.specs.Stages.{IsAbove, Keeps, AreSettled};

use crate::faces::free_pairs;
use crate::filling::fill;
use crate::pair_list::PairList;
use crate::pairing::Pairing;
use face_poset::Graded;
use std::alloc::{AllocError, Global};

/// A maximal field of the graded set: no pair of critical cells can be added to it without closing a
/// gradient path.
pub fn free_field<G: Graded>(alloc: Global, graded: &G) -> Result<PairList, AllocError>
    ensures valid { IfOk result (IsFieldOf (G.space graded.now)) }
    ensures maximal { IfOk result (λ field. IsMaximal (G.space graded.now) field.pairs) }
{
    let mut pairing = Pairing::new(alloc, graded)?;
    pair_dimension(alloc, graded, 2, &mut pairing)?;
    pair_dimension(alloc, graded, 1, &mut pairing)?;
    pair_dimension(alloc, graded, 0, &mut pairing)?;
    let field = PairList::from_pairing(alloc, graded, pairing)?;
    Ok(field)
}

/// Pairs cells of a dimension with their cofaces, until each is in a pair or each of its cofaces is in
/// a pair or has a gradient path to it.
fn pair_dimension<G: Graded>(
    alloc: Global,
    graded: &G,
    dim: u8,
    pairing: &mut Pairing,
) -> Result<(), AllocError>
    requires dim { dim < 3 }
    requires field { IsAbove (G.space graded.now) (dim + 1) pairing.old }
    ensures field { OnOk result (IsAbove (G.space graded.now) dim pairing.new) }
    ensures keeps { OnOk result (Keeps pairing.old.pairs pairing.new.pairs) }
    ensures settled { OnOk result
        (AreSettled (G.space graded.now) pairing.new.pairs dim (count (G.space graded.now) dim)) }
{
    let made = free_pairs(alloc, graded, pairing, dim)?;
    pairing.extend(&made)?;
    fill(alloc, graded, dim, pairing)
}
