// Pairs of free faces.
ghost use Rattle.std.specs.Prelude.{◌≡◌, ◌≤◌, ◌<◌, ◌+◌, All, IfOk};
ghost use Rattle.std.specs.List.Sorted.{IsStrictlyIncreasing};
ghost use Rattle.face_poset.specs.Poset.{count};
ghost use Rattle.vector_field.specs.Stages.{IsAbove};
ghost use Rattle.chosen_field.specs.Chosen.{collapsed, free_pairs};

use crate::rest::Rest;
use face_poset::{Graded, Pair};
use std::alloc::{AllocError, Global};
use vector_field::PairList;

/// Pairs of cells of dimension `dim` with cells of one dimension more that are in no pair, in an order in
/// which they go after the pairs that are there: the last one made comes first.
pub(crate) fn free_pairs<G: Graded>(
    alloc: Global,
    graded: &G,
    field: &PairList,
    dim: u8,
) -> Result<Vec<Pair>, AllocError>
    requires dim { dim < 3 }
    requires field { IsAbove (G.space graded.now) (dim + 1) field.now }
    ensures { IfOk result (λ made. made.items ≡ free_pairs (G.space graded.now) dim field.now.pairs) }
{
    let mut made = collapsed_pairs(alloc, graded, dim, field.critical(dim + 1))?;
    made.reverse();
    Ok(made)
}

/// Pairs of cells of dimension `dim` with some of these cells of one dimension more, as they are made.
///
/// While cells are left, the least cell of dimension `dim` that just one of them has as a facet is paired
/// with it, and it goes. Else the least of them goes without a pair.
fn collapsed_pairs<G: Graded>(
    alloc: Global,
    graded: &G,
    dim: u8,
    cells: &[u32],
) -> Result<Vec<Pair>, AllocError>
    requires dim { dim < 3 }
    requires rise { IsStrictlyIncreasing cells.now }
    requires within { All (λ c. (1 ≤ c) × (c ≤ count (G.space graded.now) (dim + 1))) cells.now }
    ensures { IfOk result (λ made. made.items ≡ collapsed (G.space graded.now) dim cells.now) }
{
    let mut rest = Rest::new(alloc, graded, dim, cells)?;
    let mut made = Vec::new(alloc);
    for _turn in 0..cells.len() {
        match rest.first_free() {
            Some(lower) => match rest.first_of(graded.cofaces(dim, lower)) {
                Some(upper) => {
                    made.push(Pair { dim, lower, upper })?;
                    rest.remove(upper, graded.facets(dim + 1, upper))?;
                }
                None => {}
            },
            None => match rest.first_left() {
                Some(cell) => rest.remove(cell, graded.facets(dim + 1, cell))?,
                None => {}
            },
        }
    }
    Ok(made)
}
