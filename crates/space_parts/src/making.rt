// One part of a space, cell by cell.
ghost use Rattle.std.specs.Prelude.{◌≡◌, ℕ, ◌-◌, ◌+◌, ◌∷◌, ◌++◌, [], ◌≤◌, ◌<◌, All, length, map, slice_index};
ghost use Rattle.std.specs.Prelude.{slice_set, IfOk, OnOk};
ghost use Rattle.face_poset.specs.Poset.{layer, count, cell_count, IsCell, IsLimited, IsSpace};
ghost use Rattle.regular_check.specs.Rules.{IsRegular};
ghost use Rattle.regular_check.specs.Components.{component_count};
ghost use Rattle.space_parts.specs.Parts.{cells_in, piece_of};
ghost use Rattle.space_parts.specs.Listings.{IsListing, below_of};
ghost use Rattle.space_parts.specs.Making.{stage};

use crate::laws::parts_are_regular;
use crate::listing::Listing;
use crate::part::Part;
use face_poset::{BuildFault, Builder, Graded, Space};
use number_lists::Lists;
use regular_check::same_component_is_a_path;
use std::alloc::{AllocError, Global};

/// Makes the part of a component, in as many steps as it has cells and facets.
pub(crate) fn make_part(
    alloc: Global,
    space: &Space,
    listing: &Listing,
    component: u32,
) -> Result<Part, AllocError>
    requires valid { IsSpace space.now }
    requires limited { IsLimited space.now }
    requires regular { IsRegular space.now }
    requires listing { IsListing space.now listing.now.cells listing.now.places }
    requires first { 1 ≤ component }
    requires last { component ≤ component_count space.now }
    ensures { IfOk result (λ part. part ≡ piece_of space.now component) }
{
    parts_are_regular();
    let mut builder = Builder::new(alloc);
    let mut cells = Lists::new(alloc);
    for dim in 0..4u8 {
        let own = listing.cells(dim, component);
        let below = listing.places_below(dim);
        add_cells(alloc, space, dim, own, below, component, &mut builder)?;
        cells.push(own)?;
    }
    let part = builder.finish()?;
    Ok(Part::new(part, cells))
}

/// Adds the cells of a dimension, where all cells of lower dimensions stand.
fn add_cells(
    alloc: Global,
    space: &Space,
    dim: u8,
    own: &[u32],
    below: &[u32],
    component: u32,
    builder: &mut Builder,
) -> Result<(), AllocError>
    requires valid { IsSpace space.now }
    requires limited { IsLimited space.now }
    requires regular { IsRegular space.now }
    requires dim { dim ≤ 3 }
    requires own { own.now ≡ cells_in space.now component dim }
    requires below { below.now ≡ below_of space.now dim }
    requires before { builder.old ≡ stage space.now component dim 0 }
    ensures { OnOk result (builder.new ≡ stage space.now component (dim + 1) 0) }
{
    same_component_is_a_path();
    let mut facets = Vec::new(alloc);
    for cell in own {
        list_places(space.facets(dim, *cell), below, &mut facets)?;
        add_cell(builder, dim, &facets)?;
    }
    Ok(())
}

/// Lists the numbers of these cells in their parts.
fn list_places(cells: &[u32], places: &[u32], list: &mut Vec<u32>) -> Result<(), AllocError>
    requires { All (λ c. (1 ≤ c) × (c ≤ length places.now)) cells.now }
    ensures { OnOk result (list.new.items ≡ map (λ c. slice_index places.now (c - 1)) cells.now) }
{
    list.clear();
    for cell in cells {
        list.push(places[*cell as usize - 1])?;
    }
    Ok(())
}

/// Adds a cell where fewer than 60,000 stand.
fn add_cell(builder: &mut Builder, dim: u8, facets: &[u32]) -> Result<(), AllocError>
    requires dim { dim ≤ 3 }
    requires room { cell_count builder.old < 60000 }
    requires last { (above : ℕ) → dim < above → count builder.old above ≡ 0 }
    requires vertex { dim ≡ 0 → facets.now ≡ [] }
    requires cell { 1 ≤ dim → IsCell (count builder.old (dim - 1)) facets.now }
    ensures { OnOk result (builder.new ≡ slice_set builder.old dim (layer builder.old dim ++ facets.now ∷ [])) }
{
    match builder.add(dim, facets) {
        Ok(_number) => Ok(()),
        Err(BuildFault::Memory) => Err(AllocError),
        Err(BuildFault::TooManyCells) => unreachable!(),
    }
}
