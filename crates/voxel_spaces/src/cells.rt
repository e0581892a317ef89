// The cells at places, with their dimensions, numbers and facets.
ghost use Rattle.std.specs.Prelude.{◌≡◌, ℕ, ◌≤◌, ◌<◌, ◌+◌, ◌^◌, ◌++◌, [], length, map, slice_index, Contains};
ghost use Rattle.std.specs.Prelude.{IfOk, OnOk};
ghost use Rattle.std.specs.List.{All};
ghost use Rattle.std.specs.List.Sorted.{IsStrictlyIncreasing};
ghost use Rattle.voxel_spaces.specs.Places.{dim_at, facet_places, number_among, stage, IsClosed};

use crate::box_places::dimension;
use face_poset::Builder;
use number_lists::sort_once;
use std::alloc::{AllocError, Global};

/// The number of each cell among those of its dimension, counted from 1, by the index of its place.
pub(crate) fn number_all(
    alloc: Global,
    strides: &[usize],
    places: &[usize],
) -> Result<Vec<u32>, AllocError>
    requires strides { All (λ stride. 1 ≤ stride) strides.now }
    requires few { length strides.now ≤ 3 }
    requires rises { IsStrictlyIncreasing places.now }
    requires small { length places.now ≤ 60000 }
    ensures { IfOk result (λ numbers. numbers.items ≡ map (number_among strides.now places.now) places.now) }
{
    let mut counts = [0u32; 4];
    let mut numbers = Vec::new(alloc);
    for place in places {
        let dim = dimension(strides, *place) as usize;
        counts[dim] += 1;
        numbers.push(counts[dim])?;
    }
    Ok(numbers)
}

/// The index of a place among the places, found by halving.
fn find(places: &[usize], place: usize) -> usize
    requires rises { IsStrictlyIncreasing places.now }
    requires there { Contains places.now place }
    ensures index { result < length places.now }
    ensures place { slice_index places.now result ≡ place }
{
    let mut low = 0;
    let mut high = places.len();
    while high - low > 1 {
        let middle = low + (high - low) / 2;
        if places[middle] <= place {
            low = middle;
        } else {
            high = middle;
        }
    }
    low
}

/// The number of the cell at a place.
fn number_at(strides: &[usize], places: &[usize], numbers: &[u32], place: usize) -> u32
    requires rises { IsStrictlyIncreasing places.now }
    requires there { Contains places.now place }
    requires numbers { numbers.now ≡ map (number_among strides.now places.now) places.now }
    ensures { result ≡ number_among strides.now places.now place }
{
    numbers[find(places, place)]
}

/// Lists the numbers of the facets of the cell at a place.
fn list_facets(
    strides: &[usize],
    places: &[usize],
    numbers: &[u32],
    place: usize,
    facets: &mut Vec<u32>,
) -> Result<(), AllocError>
    requires strides { All (λ stride. 1 ≤ stride) strides.now }
    requires rises { IsStrictlyIncreasing places.now }
    requires numbers { numbers.now ≡ map (number_among strides.now places.now) places.now }
    requires there { (k : ℕ) → Contains (facet_places strides.now place) k → Contains places.now k }
    requires place { place < 2 ^ 40 }
    requires small { All (λ stride. stride < 2 ^ 40) strides.now }
    ensures { OnOk result
        (facets.new.items ≡ map (number_among strides.now places.now) (facet_places strides.now place)) }
{
    facets.clear();
    let mut rest = place;
    for stride in strides {
        let coordinate = rest / *stride;
        if coordinate % 2 == 1 {
            facets.push(number_at(strides, places, numbers, place - *stride))?;
            facets.push(number_at(strides, places, numbers, place + *stride))?;
        }
        rest %= *stride;
    }
    Ok(())
}

/// Adds the cells of a dimension, where all cells of lower dimensions stand.
pub(crate) fn add_cells(
    builder: &mut Builder,
    strides: &[usize],
    places: &[usize],
    numbers: &[u32],
    dim: u8,
    facets: &mut Vec<u32>,
) -> Result<(), AllocError>
    requires strides { All (λ stride. 1 ≤ stride) strides.now }
    requires few { length strides.now ≤ 3 }
    requires small { All (λ stride. stride < 2 ^ 40) strides.now }
    requires rises { IsStrictlyIncreasing places.now }
    requires closed { IsClosed strides.now places.now }
    requires numbers { numbers.now ≡ map (number_among strides.now places.now) places.now }
    requires dim { dim ≤ 3 }
    requires before { builder.old ≡ stage strides.now places.now dim [] }
    ensures { OnOk result (builder.new ≡ stage strides.now places.now (dim + 1) []) }
{
    for place in places {
        if dimension(strides, *place) == dim {
            list_facets(strides, places, numbers, *place, facets)?;
            sort_once(facets);
            builder.add(dim, facets).map_err(|_| AllocError)?;
        }
    }
    Ok(())
}
