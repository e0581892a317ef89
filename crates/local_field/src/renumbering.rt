// The facets of the cells, by places.
ghost use Rattle.std.specs.Prelude.{◌≡◌, ◌≤◌, All, length, IfOk};
ghost use Rattle.sphere_collapses.specs.Places.{ArePlaces};
ghost use Rattle.face_poset.specs.Poset.{count};
ghost use Rattle.local_field.specs.Flags.{cells_at, facets_at, facets_by_place, IsOf};

use crate::numbering::Numbering;
use face_poset::Graded;
use number_lists::{Lists, sort_once};
use std::alloc::{AllocError, Global};

/// For each place of a dimension above 0 the places of the facets of its cell.
pub(crate) fn facets_by_place<G: Graded>(
    alloc: Global,
    graded: &G,
    numbering: &Numbering,
    dim: u8,
) -> Result<Lists, AllocError>
    requires cells { IsOf (G.space graded.now) numbering.now }
    requires low { 1 ≤ dim }
    ensures { IfOk result (λ lists. lists ≡ facets_by_place (G.space graded.now) numbering.now dim) }
{
    let mut lists = Lists::new(alloc);
    for index in 0..graded.cells(dim) {
        let facets = list_facets(alloc, graded, numbering, dim, index + 1)?;
        lists.push(&facets)?;
    }
    Ok(lists)
}

/// The places of the facets of the cell at a place, in increasing order.
fn list_facets<G: Graded>(
    alloc: Global,
    graded: &G,
    numbering: &Numbering,
    dim: u8,
    place: u32,
) -> Result<Vec<u32>, AllocError>
    requires cells { IsOf (G.space graded.now) numbering.now }
    requires low { 1 ≤ dim }
    requires first { 1 ≤ place }
    requires last { place ≤ count (G.space graded.now) dim }
    ensures { IfOk result (λ facets. facets.items ≡ facets_at (G.space graded.now) numbering.now dim place) }
{
    let cell = numbering.cell(dim, place);
    let mut places = place_facets(alloc, numbering, dim - 1, graded.facets(dim, cell))?;
    sort_once(&mut places);
    Ok(places)
}

/// The places of some cells of a dimension.
fn place_facets(
    alloc: Global,
    numbering: &Numbering,
    dim: u8,
    cells: &[u32],
) -> Result<Vec<u32>, AllocError>
    requires { All (λ c. (1 ≤ c) × (c ≤ length (cells_at numbering.now dim))) cells.now }
    ensures { IfOk result (λ places. ArePlaces (cells_at numbering.now dim) cells.now places.items) }
{
    let mut places = Vec::new(alloc);
    for cell in cells {
        places.push(numbering.place(dim, *cell))?;
    }
    Ok(places)
}
