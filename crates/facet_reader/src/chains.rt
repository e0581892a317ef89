// The places of chains.
ghost use Rattle.std.specs.Prelude.{◌≡◌, ◌≢◌, ◌≤◌, ◌<◌, ◌+◌, ◌*◌, ◌^◌, ◌∷◌, ◌++◌, [], ℕ};
ghost use Rattle.std.specs.Prelude.{length, All, IfOk, IfErr, OnOk};
ghost use Rattle.facet_reader.specs.Chains.{places_from};

use crate::fault::FacetFault;
use crate::listing::MOST_CELLS;
use number_lists::Lists;
use std::alloc::Global;

/// The places of the chains of so many points that begin at one of the points `next`, in increasing
/// order, or `TooManyCells` exactly where there are more than 60,000 of them. The lists have the points
/// above each, from the last point to 1.
pub(crate) fn list_chains(
    alloc: Global,
    above: &Lists,
    next: &[u32],
    size: u32,
) -> Result<Vec<usize>, FacetFault>
    requires size { size ≤ 4 }
    requires few { length above.now ≤ 60000 }
    requires points { All (All (λ x. (1 ≤ x) × (x ≤ length above.now))) above.now }
    requires next { All (λ x. (1 ≤ x) × (x ≤ length above.now)) next.now }
    ensures places { IfOk result (λ places. places.items ≡ places_from above.now size 0 next.now) }
    ensures few { IfOk result (λ places. length places.items ≤ 60000) }
    ensures cause { IfErr result (λ fault. fault ≢ FacetFault.Memory → fault ≡ FacetFault.TooManyCells) }
    ensures many { IfErr result (λ fault. fault ≢ FacetFault.Memory
        → 60000 < length (places_from above.now size 0 next.now)) }
{
    let mut places = Vec::new(alloc);
    push_chains(above, next, size, 0, &mut places)?;
    Ok(places)
}

/// Puts the places of the chains of so many points last, after others with the place `high`.
fn push_chains(
    above: &Lists,
    next: &[u32],
    size: u32,
    high: usize,
    places: &mut Vec<usize>,
) -> Result<(), FacetFault>
    requires size { size ≤ 4 }
    requires few { length above.now ≤ 60000 }
    requires points { All (All (λ x. (1 ≤ x) × (x ≤ length above.now))) above.now }
    requires next { All (λ x. (1 ≤ x) × (x ≤ length above.now)) next.now }
    requires room { (high + 1) * 65536 ^ size ≤ 2 ^ 64 }
    requires not_many { length places.old.items ≤ 60000 }
    ensures ok { OnOk result (places.new.items ≡ places.old.items ++ places_from above.now size high next.now) }
    ensures few { OnOk result (length places.new.items ≤ 60000) }
    ensures cause { IfErr result (λ fault. fault ≢ FacetFault.Memory → fault ≡ FacetFault.TooManyCells) }
    ensures many { IfErr result (λ fault. fault ≢ FacetFault.Memory
        → 60000 < length places.old.items + length (places_from above.now size high next.now)) }
{
    if size == 0 {
        return push_place(places, high);
    }
    for point in next {
        let rest = above.get(above.len() - *point as usize);
        let place = high * 65_536 + *point as usize;
        push_chains(above, rest, size - 1, place, places)?;
    }
    Ok(())
}

/// Puts a place last, if there are not 60,000.
fn push_place(places: &mut Vec<usize>, place: usize) -> Result<(), FacetFault>
    ensures ok { OnOk result (places.new.items ≡ places.old.items ++ place ∷ []) }
    ensures few { OnOk result (length places.new.items ≤ 60000) }
    ensures cause { IfErr result (λ fault. fault ≢ FacetFault.Memory → fault ≡ FacetFault.TooManyCells) }
    ensures many { IfErr result (λ fault. fault ≢ FacetFault.Memory → 60000 ≤ length places.old.items) }
{
    if places.len() >= MOST_CELLS {
        return Err(FacetFault::TooManyCells);
    }
    places.push(place)?;
    Ok(())
}
