// Pairs of a cell with a coface, chosen where the coface is the only one that is left.
ghost use Rattle.std.specs.Prelude.{◌≡◌, ◌+◌, ◌++◌, ◌<◌, All, IfOk};
ghost use Rattle.face_poset.specs.declared.cells.Pair.{Pair};
ghost use Rattle.vector_field.specs.Pairs.{IsValid};
ghost use Rattle.vector_field.specs.Stages.{IsAbove};

use crate::pairing::Pairing;
use crate::rest::Rest;
use face_poset::{Graded, Pair};
use std::alloc::{AllocError, Global};

/// Pairs of cells of dimension `dim`, which make a field where they stand after the pairs that are there.
pub(crate) fn free_pairs<G: Graded>(
    alloc: Global,
    graded: &G,
    pairing: &Pairing,
    dim: u8,
) -> Result<Vec<Pair>, AllocError>
    requires dim { dim < 3 }
    requires field { IsAbove (G.space graded.now) (dim + 1) pairing.now }
    ensures valid { IfOk result (λ made. IsValid (G.space graded.now) (pairing.now.pairs ++ made.items)) }
    ensures dims { IfOk result (λ made. All (λ (p : Pair). p.dim ≡ dim) made.items) }
{
    let mut rest = Rest::new(alloc, graded, pairing, dim)?;
    let mut made = Vec::new(alloc);
    for _turn in 0..u64::MAX {
        match rest.next_free() {
            Some(lower) => {
                if let Some(upper) = rest.only(graded.cofaces(dim, lower)) {
                    made.push(Pair { dim, lower, upper })?;
                    rest.remove(upper, graded.facets(dim + 1, upper))?;
                }
            }
            None => match rest.next_left() {
                Some(cell) => rest.remove(cell, graded.facets(dim + 1, cell))?,
                None => break,
            },
        }
    }
    made.reverse();
    Ok(made)
}
