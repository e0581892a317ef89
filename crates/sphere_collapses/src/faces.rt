// The faces of some cells, sorted, and their places in sorted lists.
ghost use Rattle.std.specs.Prelude.{◌≡◌, ◌-◌, ◌≤◌, All, Contains, length, slice_index, IfOk, OnOk};
ghost use Rattle.std.specs.List.Sorted.{IsStrictlyIncreasing};
ghost use Rattle.face_poset.specs.Poset.{count, facets_of, IsSpace};
ghost use Rattle.face_poset.specs.Below.{facets_of_all};
ghost use Rattle.sphere_collapses.specs.Places.{number_at, ArePlaces, AreFacetPlaces};

use face_poset::{Graded, Space};
use number_lists::{Lists, sort_once};
use std::alloc::{AllocError, Global};

/// The facets of these cells of a dimension above 0, each once, in increasing order.
pub(crate) fn facets_below(
    alloc: Global,
    space: &Space,
    dim: u8,
    cells: &[u32],
) -> Result<Vec<u32>, AllocError>
    requires valid { IsSpace space.now }
    requires low { 1 ≤ dim }
    requires cells { All (λ c. (1 ≤ c) × (c ≤ count space.now dim)) cells.now }
    ensures { IfOk result (λ facets. facets.items ≡ facets_of_all space.now (dim - 1) cells.now) }
{
    let mut facets = Vec::new(alloc);
    for cell in cells {
        facets.extend_from_slice(space.facets(dim, *cell))?;
    }
    sort_once(&mut facets);
    Ok(facets)
}

/// For each of these cells the places of its facets in a sorted list, counted from 1.
pub fn facet_places(
    alloc: Global,
    space: &Space,
    dim: u8,
    cells: &[u32],
    sorted: &[u32],
) -> Result<Lists, AllocError>
    requires cells { All (λ c. (1 ≤ c) × (c ≤ count space.now dim)) cells.now }
    requires rises { IsStrictlyIncreasing sorted.now }
    requires few { length sorted.now ≤ 4294967295 }
    requires there { All (λ c. All (Contains sorted.now) (facets_of space.now dim c)) cells.now }
    ensures { IfOk result (AreFacetPlaces space.now dim sorted.now cells.now) }
{
    let mut lists = Lists::new(alloc);
    let mut places = Vec::new(alloc);
    for cell in cells {
        list_places(space.facets(dim, *cell), sorted, &mut places)?;
        lists.push(&places)?;
    }
    Ok(lists)
}

/// Lists the places of these numbers in a sorted list, counted from 1.
fn list_places(numbers: &[u32], sorted: &[u32], places: &mut Vec<u32>) -> Result<(), AllocError>
    requires rises { IsStrictlyIncreasing sorted.now }
    requires few { length sorted.now ≤ 4294967295 }
    requires there { All (Contains sorted.now) numbers.now }
    ensures { OnOk result (ArePlaces sorted.now numbers.now places.new.items) }
{
    places.clear();
    for number in numbers {
        places.push(place_of(*number, sorted))?;
    }
    Ok(())
}

/// The place of a number in a sorted list, counted from 1.
pub fn place_of(number: u32, sorted: &[u32]) -> u32
    requires rises { IsStrictlyIncreasing sorted.now }
    requires few { length sorted.now ≤ 4294967295 }
    requires there { Contains sorted.now number }
    ensures number { number_at sorted.now result ≡ number }
    ensures first { 1 ≤ result }
    ensures last { result ≤ length sorted.now }
{
    match sorted.binary_search(&number) {
        Ok(index) => index as u32 + 1,
        Err(_) => unreachable!(),
    }
}
