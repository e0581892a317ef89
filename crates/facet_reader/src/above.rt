// The points above each point of a partial order.
ghost use Rattle.std.specs.Prelude.{◌≡◌, ◌≢◌, ◌≤◌, ◌<◌, ◌-◌, ◌++◌, ℕ, length, slice_index_or, All, IfOk, IfErr, OnOk};
ghost use Rattle.std.specs.List.{concat};
ghost use Rattle.number_lists.specs.Cofaces.{cells_with, coface_lists, IsRising};
ghost use Rattle.facet_reader.specs.Chains.{pairs_of, second_of, IsPair, AreNext, all_above, joined};

use crate::fault::FacetFault;
use crate::listing::MOST_CELLS;
use number_lists::{Lists, cofaces_in, sort_once};
use std::alloc::{AllocError, Global};

/// For each point, from the last one to 1, the points above it in increasing order, or `TooManyCells`
/// exactly where these are more than 60,000 in all. No more than twice as many stand at any time.
pub(crate) fn list_above(alloc: Global, points: u32, pairs: &Lists) -> Result<Lists, FacetFault>
    requires few { points ≤ 60000 }
    requires pairs { All (IsPair points) pairs.now }
    ensures above { IfOk result (λ above. above ≡ all_above points (pairs_of pairs.now)) }
    ensures cause { IfErr result (λ fault. fault ≢ FacetFault.Memory → fault ≡ FacetFault.TooManyCells) }
    ensures many { IfErr result (λ fault. fault ≢ FacetFault.Memory
        → 60000 < length (concat (all_above points (pairs_of pairs.now)))) }
{
    let by_point = list_by_point(alloc, points, pairs)?;
    let mut above = Lists::new(alloc);
    let mut next = Vec::new(alloc);
    let mut row = Vec::new(alloc);
    for index in 0..points {
        let point = points - index;
        list_next(by_point.get(point as usize - 1), pairs, point, &mut next)?;
        join(&above, points, &next, &mut row)?;
        above.push(&row)?;
        if above.entries().len() > MOST_CELLS {
            return Err(FacetFault::TooManyCells);
        }
    }
    Ok(above)
}

/// For each point the numbers of the relations that have it.
fn list_by_point(alloc: Global, points: u32, pairs: &Lists) -> Result<Lists, AllocError>
    requires { All (IsPair points) pairs.now }
    ensures { IfOk result (λ lists. lists ≡ coface_lists points pairs.now) }
{
    u32::try_from(pairs.len()).map_err(|_| AllocError)?;
    cofaces_in(alloc, points as usize, pairs)
}

/// Lists the second points of the relations of a point, each once, of all that have it.
fn list_next(
    numbers: &[u32],
    pairs: &Lists,
    point: u32,
    next: &mut Vec<u32>,
) -> Result<(), AllocError>
    requires pairs { All (λ row. length row ≡ 2) pairs.now }
    requires numbers { numbers.now ≡ cells_with pairs.now point }
    ensures { OnOk result (AreNext (pairs_of pairs.now) point next.new.items) }
{
    next.clear();
    for number in numbers {
        push_second(pairs.get(*number as usize - 1), point, next)?;
    }
    sort_once(next);
    Ok(())
}

/// Puts the second of two points last, where the first is this point.
fn push_second(pair: &[u32], point: u32, next: &mut Vec<u32>) -> Result<(), AllocError>
    requires { length pair.now ≡ 2 }
    ensures { OnOk result (next.new.items ≡ next.old.items ++ second_of point pair.now) }
{
    if pair[0] == point {
        next.push(pair[1])?;
    }
    Ok(())
}

/// Lists the points of a list and those of their lists, each once.
fn join(above: &Lists, points: u32, next: &[u32], row: &mut Vec<u32>) -> Result<(), AllocError>
    requires points { All (λ y. y ≤ points) next.now }
    requires there { All (λ y. points - y < length above.now) next.now }
    ensures { OnOk result (row.new.items ≡ joined above.now points next.now) }
{
    row.clear();
    for point in next {
        row.push(*point)?;
        row.extend_from_slice(above.get((points - *point) as usize))?;
    }
    sort_once(row);
    Ok(())
}
