// Triples of coordinates below a side, by their places in lexicographic order, which are counted from 0.
ghost use Rattle.std.specs.Prelude.{◌≡◌, ◌+◌, ◌-◌, ◌*◌, ◌/◌, ◌%◌, ◌<◌, ◌≤◌, ◌++◌, length, map, slice_index, IfOk, OnOk};
ghost use Rattle.std.specs.List.{range_with_len};
ghost use Rattle.tuple_spaces.specs.TorusPlaces.{volume, dim_at, number_at, pair_places, facets_at};

use number_lists::sort_once;
use std::alloc::{AllocError, Global};

/// How many coordinates of the triple at a place are odd.
pub(crate) fn dimension(side: usize, place: usize) -> u8
    requires low { 2 ≤ side }
    requires high { side ≤ 38 }
    ensures dim { result ≡ dim_at side place }
    ensures most { result ≤ 3 }
{
    let rest = place % (side * side);
    let odd = place / (side * side) % 2 + rest / side % 2 + rest % side % 2;
    odd as u8
}

/// The number of each triple among those of its dimension, counted from 1, by its place.
pub(crate) fn number_all(alloc: Global, side: usize) -> Result<Vec<u32>, AllocError>
    requires low { 2 ≤ side }
    requires high { side ≤ 38 }
    ensures { IfOk result (λ numbers. numbers.items ≡ map (number_at side) (range_with_len 0 (volume side))) }
{
    let mut counts = [0u32; 4];
    let mut numbers = Vec::new(alloc);
    for place in 0..side * side * side {
        let dim = dimension(side, place) as usize;
        counts[dim] += 1;
        numbers.push(counts[dim])?;
    }
    Ok(numbers)
}

/// Puts the numbers of the two facets of the triple at a place last that differ from it in one
/// direction, where its coordinate there is odd. The places of neighbors in that direction differ by
/// the stride, and the coordinates there go round.
fn push_pair(
    numbers: &[u32],
    side: usize,
    stride: usize,
    place: usize,
    coordinate: usize,
    facets: &mut Vec<u32>,
) -> Result<(), AllocError>
    requires side { 2 ≤ side }
    requires coordinate { coordinate < side }
    requires low { coordinate * stride ≤ place }
    requires room { place - coordinate * stride + (side - 1) * stride < length numbers.now }
    requires small { length numbers.now ≤ 54872 }
    ensures { OnOk result
        (facets.new.items
        ≡ facets.old.items ++ map (slice_index numbers.now) (pair_places side stride place coordinate)) }
{
    if coordinate % 2 == 1 {
        let start = place - coordinate * stride;
        facets.push(numbers[start + (coordinate - 1) * stride])?;
        facets.push(numbers[start + (coordinate + 1) % side * stride])?;
    }
    Ok(())
}

/// Lists the numbers of the facets of the triple at a place in increasing order.
pub(crate) fn list_facets(
    numbers: &[u32],
    side: usize,
    place: usize,
    facets: &mut Vec<u32>,
) -> Result<(), AllocError>
    requires low { 2 ≤ side }
    requires high { side ≤ 38 }
    requires even { side % 2 ≡ 0 }
    requires place { place < volume side }
    requires numbers { numbers.now ≡ map (number_at side) (range_with_len 0 (volume side)) }
    ensures { OnOk result (facets.new.items ≡ facets_at side (dim_at side place) place) }
{
    facets.clear();
    let rest = place % (side * side);
    push_pair(
        numbers,
        side,
        side * side,
        place,
        place / (side * side),
        facets,
    )?;
    push_pair(numbers, side, side, place, rest / side, facets)?;
    push_pair(numbers, side, 1, place, rest % side, facets)?;
    sort_once(facets);
    Ok(())
}
