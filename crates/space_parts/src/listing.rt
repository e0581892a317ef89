ghost use Rattle.std.specs.Prelude.{◌≡◌, ◌-◌, ◌≤◌, [], length, slice_index_or, IfOk};
ghost use Rattle.face_poset.specs.Poset.{IsLimited, IsSpace};
ghost use Rattle.regular_check.specs.Components.{components_of};
ghost use Rattle.space_parts.specs.Listings.{IsListing, places_below};

use crate::numbering::{group, number_cells, number_places, number_vertices};
use face_poset::Space;
use number_lists::Lists;
use regular_check::{Components, components_are_numbered};
use std::alloc::{AllocError, Global};

/// The cells of a space by component, for dimensions 0 to 3, and the number of each cell among those of its
/// component.
#[derive(Drop)]
pub(crate) struct Listing {
    pub(crate) cells: [Lists; 4],
    pub(crate) places: Lists,
}

impl Listing {
    /// Lists the cells of the space, in one pass.
    pub(crate) fn new(
        alloc: Global,
        space: &Space,
        components: &Components,
    ) -> Result<Listing, AllocError>
        requires valid { IsSpace space.now }
        requires limited { IsLimited space.now }
        requires components { components.now ≡ components_of space.now }
        ensures { IfOk result (λ listing. IsListing space.now listing.cells listing.places) }
    {
        components_are_numbered();
        let count = components.count();
        let vertices = number_vertices(alloc, space, components)?;
        let edges = number_cells(alloc, space, 1, &vertices)?;
        let disks = number_cells(alloc, space, 2, &edges)?;
        let solids = number_cells(alloc, space, 3, &disks)?;
        let cells = [
            group(alloc, count, &vertices)?,
            group(alloc, count, &edges)?,
            group(alloc, count, &disks)?,
            group(alloc, count, &solids)?,
        ];
        let mut places = Lists::new(alloc);
        places.push(&number_places(alloc, count, &vertices)?)?;
        places.push(&number_places(alloc, count, &edges)?)?;
        places.push(&number_places(alloc, count, &disks)?)?;
        places.push(&number_places(alloc, count, &solids)?)?;
        Ok(Listing { cells, places })
    }

    /// The cells of a component, which is numbered from 1.
    pub(crate) fn cells(&self, dim: u8, component: u32) -> &[u32]
        requires four { length self.now.cells ≡ 4 }
        requires dim { dim ≤ 3 }
        requires first { 1 ≤ component }
        requires last { component ≤ length (slice_index_or self.now.cells dim []) }
        ensures { result.now ≡ slice_index_or (slice_index_or self.now.cells dim []) (component - 1) [] }
    {
        let cells = &self.cells[dim as usize];
        cells.get(component as usize - 1)
    }

    /// The numbers of the cells one dimension below; none below dimension 0.
    pub(crate) fn places_below(&self, dim: u8) -> &[u32]
        requires four { length self.now.places ≡ 4 }
        requires dim { dim ≤ 3 }
        ensures { result.now ≡ places_below self.now.places dim }
    {
        if dim == 0 {
            return &[];
        }
        self.places.get(dim as usize - 1)
    }
}
