// The component of each cell, and its number among the cells of that component.
ghost use Rattle.std.specs.Prelude.{◌≡◌, ◌-◌, ◌≤◌, All, length, IfOk};
ghost use Rattle.face_poset.specs.Poset.{count};
ghost use Rattle.regular_check.specs.Components.{components_of};
ghost use Rattle.space_parts.specs.Listings.{numbers_of, grouped, own_places};

use face_poset::{Graded, Space};
use number_lists::{Lists, cofaces_in};
use regular_check::Components;
use std::alloc::{AllocError, Global};

/// The component of each vertex.
pub(crate) fn number_vertices(
    alloc: Global,
    space: &Space,
    components: &Components,
) -> Result<Vec<u32>, AllocError>
    requires { components.now ≡ components_of space.now }
    ensures { IfOk result (λ numbers. numbers.items ≡ numbers_of space.now 0) }
{
    let mut numbers = Vec::new(alloc);
    for index in 0..space.cells(0) {
        numbers.push(components.of(index + 1))?;
    }
    Ok(numbers)
}

/// The component of each cell of a dimension above 0, by those of the cells one dimension below.
pub(crate) fn number_cells(
    alloc: Global,
    space: &Space,
    dim: u8,
    below: &[u32],
) -> Result<Vec<u32>, AllocError>
    requires low { 1 ≤ dim }
    requires below { below.now ≡ numbers_of space.now (dim - 1) }
    ensures { IfOk result (λ numbers. numbers.items ≡ numbers_of space.now dim) }
{
    let mut numbers = Vec::new(alloc);
    for index in 0..space.cells(dim) {
        let facets = space.facets(dim, index + 1);
        numbers.push(below[facets[0] as usize - 1])?;
    }
    Ok(numbers)
}

/// For each component the cells that have its number, in increasing order.
pub(crate) fn group(alloc: Global, count: u32, numbers: &[u32]) -> Result<Lists, AllocError>
    requires within { All (λ n. (1 ≤ n) × (n ≤ count)) numbers.now }
    requires few { length numbers.now ≤ 60000 }
    ensures { IfOk result (λ cells. cells ≡ grouped numbers.now count) }
{
    let mut singles = Lists::new(alloc);
    for number in numbers {
        singles.push(&[*number])?;
    }
    cofaces_in(alloc, count as usize, &singles)
}

/// How many cells up to each one have its number.
pub(crate) fn number_places(
    alloc: Global,
    count: u32,
    numbers: &[u32],
) -> Result<Vec<u32>, AllocError>
    requires within { All (λ n. (1 ≤ n) × (n ≤ count)) numbers.now }
    requires few { length numbers.now ≤ 60000 }
    ensures { IfOk result (λ places. places.items ≡ own_places numbers.now) }
{
    let mut counts = vec![in alloc; 0u32; count as usize]?;
    let mut places = Vec::new(alloc);
    for number in numbers {
        let at = *number as usize - 1;
        counts[at] += 1;
        places.push(counts[at])?;
    }
    Ok(places)
}
