ghost use Rattle.std.specs.Prelude.{◌≡◌, ◌≤◌, IfOk};
ghost use Rattle.face_poset.specs.Poset.{count};
ghost use Rattle.regular_check.specs.Components.{component_count};
ghost use Rattle.space_parts.specs.Parts.{part_of, piece_of};
ghost use Rattle.space_parts.specs.Laws.{IsWhole};

use crate::laws::parts_are_regular;
use crate::listing::Listing;
use crate::making::make_part;
use crate::part::Part;
use face_poset::{Graded, Space};
use regular_check::Regular;
use std::alloc::{AllocError, Global};
use std::marker::Model;

/// The parts of a regular space, one for each component. Contracts see it as the space.
#[derive(Drop)]
pub struct Parts<'a> {
    space: &'a Space,
    count: u32,
    listing: Listing,
}

impl<'a> Model for Parts<'a> {
    ghost use Rattle.face_poset.specs.Poset.{Layers};
    ghost use Rattle.space_parts.specs.Listings.{AreParts};

    ghost Value = { Layers };

    ghost view = { λ s. s.space.now };

    ghost invariant = { λ s. AreParts s.space.now s.count s.listing.cells s.listing.places };
}

/// Finds the parts of a regular space, in one pass over its cells.
pub fn parts_of<'a>(alloc: Global, regular: &'a Regular<'_>) -> Result<Parts<'a>, AllocError>
    ensures { IfOk result (λ parts. parts ≡ regular.entry.now) }
{
    let space = regular.space();
    let _vertices = space.cells(0);
    let components = regular.components(alloc)?;
    let listing = Listing::new(alloc, space, &components)?;
    let count = components.count();
    Ok(Parts {
        space,
        count,
        listing,
    })
}

impl<'a> Parts<'a> {
    /// How many parts there are, one for each component.
    pub fn count(&self) -> u32
        ensures { result ≡ component_count self.now }
    {
        self.count
    }

    /// How many cells of a dimension the part of a component has, without making the part; components are
    /// numbered from 1.
    pub fn cells(&self, dim: u8, component: u32) -> u32
        requires dim { dim ≤ 3 }
        requires first { 1 ≤ component }
        requires last { component ≤ component_count self.now }
        ensures cells { result ≡ count (part_of self.now component) dim }
        ensures whole { IsWhole (part_of self.now component) }
    {
        parts_are_regular();
        self.listing.cells(dim, component).len() as u32
    }

    /// The part of a component, which is numbered from 1, in as many steps as it has cells and facets.
    pub fn part(&self, alloc: Global, component: u32) -> Result<Part, AllocError>
        requires first { 1 ≤ component }
        requires last { component ≤ component_count self.now }
        ensures { IfOk result (λ part. part ≡ piece_of self.now component) }
    {
        make_part(alloc, self.space, &self.listing, component)
    }
}
