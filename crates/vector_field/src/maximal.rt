ghost use Rattle.std.specs.Prelude.{◌≡◌, ◌↔◌, ◌<◌, IfOk, IsTrue};
ghost use Rattle.vector_field.specs.Pairs.{IsFieldOf};
ghost use Rattle.vector_field.specs.Maximal.{IsMaximal, is_maximal, is_maximal_at};

use crate::pair_list::PairList;
use crate::search::open_coface;
use face_poset::Graded;
use number_lists::FoundNumbers;
use std::alloc::{AllocError, Global};

/// Whether each incident pair of critical cells has a gradient path from the upper to the lower by
/// another first facet.
///
/// Such a path goes from the upper to a facet, from there to the upper that the facet is paired with, to
/// another facet of that, and so on, and ends at the lower.
pub fn is_maximal<G: Graded>(
    alloc: Global,
    graded: &G,
    field: &PairList,
) -> Result<bool, AllocError>
    requires { IsFieldOf (G.space graded.now) field.now }
    ensures maximal { IfOk result (λ answer. IsTrue answer ↔ IsMaximal (G.space graded.now) field.now.pairs) }
    ensures test { IfOk result (λ answer. answer ≡ is_maximal (G.space graded.now) field.now.pairs) }
{
    let answer = are_settled(alloc, graded, field)?;
    Ok(answer)
}

/// Whether this is so for the lowers of each dimension.
fn are_settled<G: Graded>(alloc: Global, graded: &G, field: &PairList) -> Result<bool, AllocError>
    requires { IsFieldOf (G.space graded.now) field.now }
    ensures { IfOk result (λ answer. answer ≡ is_maximal (G.space graded.now) field.now.pairs) }
{
    Ok(
        are_settled_at(alloc, graded, field, 0)?
            && are_settled_at(alloc, graded, field, 1)?
            && are_settled_at(alloc, graded, field, 2)?,
    )
}

/// Whether this is so for all lowers of a dimension.
fn are_settled_at<G: Graded>(
    alloc: Global,
    graded: &G,
    field: &PairList,
    dim: u8,
) -> Result<bool, AllocError>
    requires dim { dim < 3 }
    requires field { IsFieldOf (G.space graded.now) field.now }
    ensures { IfOk result (λ answer. answer ≡ is_maximal_at (G.space graded.now) field.now.pairs dim) }
{
    let mut found = FoundNumbers::new(alloc, graded.cells(dim) as usize)?;
    let lowers = field.critical(dim);
    for lower in lowers {
        match open_coface(graded, field.pairing(), dim, *lower, &mut found)? {
            Some(_) => return Ok(false),
            None => {}
        }
    }
    Ok(true)
}
