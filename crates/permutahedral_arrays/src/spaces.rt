// The space of cells that are lists of points.
ghost use Rattle.std.specs.Prelude.{◌≡◌, ℕ, ◌≤◌, ◌<◌, ◌+◌, ◌-◌, ◌∷◌, ◌++◌, [], length, slice_set, IfOk, OnOk};
ghost use Rattle.std.specs.Prelude.{◌==◌, All};
ghost use Rattle.number_lists.specs.Cofaces.{coface_lists};
ghost use Rattle.std.specs.List.{list_any};
ghost use Rattle.face_poset.specs.Poset.{layer, count, cell_count, IsCell};
ghost use Rattle.permutahedral_arrays.specs.Places.{holds_all, facets_of, layer_of, space_of};

use face_poset::{BuildFault, Builder, Space};
use number_lists::{Lists, cofaces_in};
use std::alloc::{AllocError, Global};

/// Whether a point is among the points of a cell.
fn has_point(cell: &[u32], point: u32) -> bool
    ensures { result ≡ list_any (λ q. q == point) cell.now }
{
    cell.iter().any(|other| *other == point)
}

/// Whether a cell holds all points of another.
fn holds_all(above: &[u32], cell: &[u32]) -> bool
    ensures { result ≡ holds_all above.now cell.now }
{
    cell.iter().all(|point| has_point(above, *point))
}

/// Lists the numbers of the facets of a cell among the cells with one point more.
fn list_facets(
    most: usize,
    above: &Lists,
    holders: &Lists,
    cell: &[u32],
    facets: &mut Vec<u32>,
) -> Result<(), AllocError>
    requires few { length above.now ≤ 60000 }
    requires holders { holders.now ≡ coface_lists most above.now }
    requires cell { IsCell most cell.now }
    ensures { OnOk result (facets.new.items ≡ facets_of above.now cell.now) }
{
    facets.clear();
    let listed = holders.get(cell[0] as usize - 1);
    for number in listed {
        if holds_all(above.get(*number as usize - 1), cell) {
            facets.push(*number)?;
        }
    }
    Ok(())
}

/// Adds a cell where fewer than 60,000 stand.
fn add_cell(builder: &mut Builder, dim: u8, facets: &[u32]) -> Result<(), AllocError>
    requires dim { dim ≤ 3 }
    requires room { cell_count builder.old < 60000 }
    requires last { (above : ℕ) → dim < above → count builder.old above ≡ 0 }
    requires vertex { dim ≡ 0 → facets.now ≡ [] }
    requires cell { 1 ≤ dim → IsCell (count builder.old (dim - 1)) facets.now }
    ensures { OnOk result (builder.new ≡ slice_set builder.old dim (layer builder.old dim ++ facets.now ∷ [])) }
{
    match builder.add(dim, facets) {
        Ok(_number) => Ok(()),
        Err(BuildFault::Memory) => Err(AllocError),
        Err(BuildFault::TooManyCells) => unreachable!(),
    }
}

/// Adds the cells of a dimension, where the cells that hold each point are listed.
///
/// The points of a cell are increasing, from 1 to the most.
fn add_layer(
    builder: &mut Builder,
    dim: u8,
    most: usize,
    above: &Lists,
    holders: &Lists,
    cells: &Lists,
    facets: &mut Vec<u32>,
) -> Result<(), AllocError>
    requires dim { dim ≤ 3 }
    requires few { length above.now ≤ 60000 }
    requires holders { holders.now ≡ coface_lists most above.now }
    requires rest { (other : ℕ) → dim ≤ other → layer builder.old other ≡ [] }
    requires none { dim ≡ 0 → above.now ≡ [] }
    requires below { 1 ≤ dim → count builder.old (dim - 1) ≡ length above.now }
    requires cells { All (IsCell most) cells.now }
    requires facets { 1 ≤ dim → All (λ cell. 1 ≤ length (facets_of above.now cell)) cells.now }
    requires room { cell_count builder.old + length cells.now ≤ 60000 }
    ensures { OnOk result (builder.new ≡ slice_set builder.old dim (layer_of above.now cells.now)) }
{
    for index in 0..cells.len() {
        list_facets(most, above, holders, cells.get(index), facets)?;
        add_cell(builder, dim, facets)?;
    }
    Ok(())
}

/// Adds the cells of a dimension, whose facets are among the cells with one point more.
fn add_dimension(
    alloc: Global,
    builder: &mut Builder,
    dim: u8,
    most: usize,
    above: &Lists,
    cells: &Lists,
) -> Result<(), AllocError>
    requires dim { dim ≤ 3 }
    requires few { length above.now ≤ 60000 }
    requires rest { (other : ℕ) → dim ≤ other → layer builder.old other ≡ [] }
    requires none { dim ≡ 0 → above.now ≡ [] }
    requires below { 1 ≤ dim → count builder.old (dim - 1) ≡ length above.now }
    requires above { All (IsCell most) above.now }
    requires cells { All (IsCell most) cells.now }
    requires facets { 1 ≤ dim → All (λ cell. 1 ≤ length (facets_of above.now cell)) cells.now }
    requires room { cell_count builder.old + length cells.now ≤ 60000 }
    ensures { OnOk result (builder.new ≡ slice_set builder.old dim (layer_of above.now cells.now)) }
{
    let holders = cofaces_in(alloc, most, above)?;
    let mut facets = Vec::new(alloc);
    add_layer(builder, dim, most, above, &holders, cells, &mut facets)
}

/// The space of the cells of dimensions 0 to 3, whose points are increasing, from 1 to the most.
pub(crate) fn build(
    alloc: Global,
    most: usize,
    vertices: &Lists,
    edges: &Lists,
    faces: &Lists,
    solids: &Lists,
) -> Result<Space, AllocError>
    requires room { length vertices.now + length edges.now + length faces.now + length solids.now ≤ 60000 }
    requires some { 1 ≤ length vertices.now }
    requires vertices { All (IsCell most) vertices.now }
    requires edges { All (IsCell most) edges.now }
    requires faces { All (IsCell most) faces.now }
    requires solids { All (IsCell most) solids.now }
    requires ends { All (λ cell. 1 ≤ length (facets_of vertices.now cell)) edges.now }
    requires sides { All (λ cell. 1 ≤ length (facets_of edges.now cell)) faces.now }
    requires walls { All (λ cell. 1 ≤ length (facets_of faces.now cell)) solids.now }
    ensures { IfOk result (λ space. space ≡ space_of vertices.now edges.now faces.now solids.now) }
{
    let mut builder = Builder::new(alloc);
    let none = Lists::new(alloc);
    add_dimension(alloc, &mut builder, 0, most, &none, vertices)?;
    add_dimension(alloc, &mut builder, 1, most, vertices, edges)?;
    add_dimension(alloc, &mut builder, 2, most, edges, faces)?;
    add_dimension(alloc, &mut builder, 3, most, faces, solids)?;
    builder.finish()
}
