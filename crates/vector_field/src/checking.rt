// Whether a pair fits between those before it and those after it.
ghost use Rattle.std.specs.Prelude.{◌≡◌, ◌+◌, ◌<◌, ◌≤◌, length, take, drop, nat_lt, nat_le, ◌&&◌, true, false, IfOk};
ghost use Rattle.face_poset.specs.Poset.{count};
ghost use Rattle.vector_field.specs.Pairs.{comes_before, counts_of, fits, is_incident};
ghost use Rattle.vector_field.specs.Pairings.{lengths};
ghost use Rattle.vector_field.specs.LastPlaces.{pair_at, AreLast};

use crate::cell_map::CellMap;
use crate::pairing::Pairing;
use face_poset::{Graded, Pair};
use std::alloc::{AllocError, Global};

/// Whether the pair at an index fits between those before it and those after it.
pub(crate) fn fits<G: Graded>(
    graded: &G,
    pairing: &Pairing,
    last: &CellMap,
    pairs: &[Pair],
    index: usize,
) -> bool
    requires within { index < length pairs.now }
    requires earlier { pairing.now.pairs ≡ take index pairs.now }
    requires cells { pairing.now.counts ≡ counts_of (G.space graded.now) }
    requires counts { lengths last.now ≡ counts_of (G.space graded.now) }
    requires last { AreLast (G.space graded.now) pairs.now (length pairs.now) last.now }
    ensures { result
        ≡ fits (G.space graded.now) (take index pairs.now) (pair_at pairs.now index)
        (drop (index + 1) pairs.now) }
{
    let pair = pairs[index];
    is_incident(graded, pair)
        && !pairing.is_used(pair.dim, pair.lower)
        && !pairing.is_used(pair.dim + 1, pair.upper)
        && comes_before_later(graded, last, pairs, index)
}

/// For each cell the last index, counted from 0, at which it is the lower of a pair.
pub(crate) fn last_places<G: Graded>(
    alloc: Global,
    graded: &G,
    pairs: &[Pair],
) -> Result<CellMap, AllocError>
    requires { length pairs.now ≤ 4294967295 }
    ensures counts { IfOk result (λ last. lengths last ≡ counts_of (G.space graded.now)) }
    ensures last { IfOk result (AreLast (G.space graded.now) pairs.now (length pairs.now)) }
{
    let mut last = CellMap::new(alloc, graded)?;
    for index in 0..pairs.len() {
        let pair = pairs[index];
        if has_its_lower(graded, pair) {
            last.set(pair.dim, pair.lower, index as u32);
        }
    }
    Ok(last)
}

/// Whether the two cells are there, and the lower is a facet of the upper.
fn is_incident<G: Graded>(graded: &G, pair: Pair) -> bool
    ensures { result ≡ is_incident (G.space graded.now) pair }
{
    pair.dim < 3
        && 1 <= pair.lower
        && pair.lower <= graded.cells(pair.dim)
        && 1 <= pair.upper
        && pair.upper <= graded.cells(pair.dim + 1)
        && graded
            .facets(pair.dim + 1, pair.upper)
            .contains(&pair.lower)
}

/// Whether no other facet of the upper is the lower of a later pair of the same dimension.
fn comes_before_later<G: Graded>(graded: &G, last: &CellMap, pairs: &[Pair], index: usize) -> bool
    requires within { index < length pairs.now }
    requires incident { is_incident (G.space graded.now) (pair_at pairs.now index) ≡ true }
    requires counts { lengths last.now ≡ counts_of (G.space graded.now) }
    requires last { AreLast (G.space graded.now) pairs.now (length pairs.now) last.now }
    ensures { result ≡ comes_before (G.space graded.now) (pair_at pairs.now index) (drop (index + 1) pairs.now) }
{
    let pair = pairs[index];
    let facets = graded.facets(pair.dim + 1, pair.upper);
    for facet in facets {
        if *facet != pair.lower && is_after(last.get(pair.dim, *facet), index) {
            return false;
        }
    }
    true
}

/// Whether there is a place, and it is after this one.
fn is_after(place: Option<u32>, index: usize) -> bool
    ensures { result ≡ elim place [ None ↦ false | Some at ↦ nat_lt index at ] }
{
    match place {
        Some(at) => at as usize > index,
        None => false,
    }
}

/// Whether the lower of the pair is a cell of dimension 0 to 2.
fn has_its_lower<G: Graded>(graded: &G, pair: Pair) -> bool
    ensures { result
        ≡ (nat_lt pair.dim 3
        && (nat_le 1 pair.lower && nat_le pair.lower (count (G.space graded.now) pair.dim))) }
{
    pair.dim < 3 && 1 <= pair.lower && pair.lower <= graded.cells(pair.dim)
}
