// The vertices and edges of a closed cell, by their places among them, with a tree.
ghost use Rattle.std.specs.Prelude.{◌≡◌, ◌≤◌, ◌-◌, length, slice_index, true, IfOk};
ghost use Rattle.face_poset.specs.Poset.{count, IsLimited, IsSpace};
ghost use Rattle.regular_check.specs.Rules.{IsRegular};
ghost use Rattle.sheet_laws.specs.Permutations.{InRange, back, is_permutation};
ghost use Rattle.sheet_laws.specs.Labellings.{label};
ghost use Rattle.sphere_collapses.specs.Trees.{across_of};
ghost use Rattle.cover_space.specs.Making.{AreSheets, IsInside, HasLabelling, led_by, numbers_in};

use crate::laws::sheet_is_along;
use edge_words::Labels;
use face_poset::{CellList, Graded, Space};
use number_lists::Lists;
use sphere_collapses::{Taken, facet_places, grow};
use std::alloc::{AllocError, Global};

/// The vertices and the edges of a closed cell, in increasing order, the ends of the edges by their places
/// among the vertices, and a tree of the vertices from the least one on, along the edges.
#[derive(Drop)]
pub(crate) struct Inside {
    pub(crate) vertices: Vec<u32>,
    pub(crate) edges: Vec<u32>,
    pub(crate) ends: Lists,
    pub(crate) tree: Vec<Taken>,
}

impl Inside {
    /// What is inside the closed cell.
    pub(crate) fn new(
        alloc: Global,
        space: &Space,
        dim: u8,
        cell: u32,
    ) -> Result<Inside, AllocError>
        requires valid { IsSpace space.now }
        requires limited { IsLimited space.now }
        requires regular { IsRegular space.now }
        requires cell { InRange (count space.now dim) cell }
        ensures { IfOk result (λ inside.
            IsInside space.now dim cell inside.vertices.items inside.edges.items inside.ends inside.tree.items) }
    {
        let closed = space.below(alloc, dim, cell)?;
        let vertices = list_numbers(alloc, &closed, 0)?;
        let edges = list_numbers(alloc, &closed, 1)?;
        let ends = facet_places(alloc, space, 1, &edges, &vertices)?;
        let tree = grow(alloc, vertices.len(), &ends, 1)?;
        Ok(Inside {
            vertices,
            edges,
            ends,
            tree,
        })
    }
}

/// The numbers of those of the cells that have the dimension.
fn list_numbers(alloc: Global, cells: &CellList, dim: u8) -> Result<Vec<u32>, AllocError>
    ensures { IfOk result (λ numbers. numbers.items ≡ numbers_in cells.now dim) }
{
    let mut numbers = Vec::new(alloc);
    for index in 0..cells.len() {
        let cell = cells.get(index);
        if cell.dim == dim {
            numbers.push(cell.number)?;
        }
    }
    Ok(numbers)
}

/// Writes the sheets over the vertices of a closed cell, from a sheet over the least one on.
pub(crate) fn write_sheets(
    space: &Space,
    labels: &Labels,
    dim: u8,
    cell: u32,
    inside: &Inside,
    sheet: u8,
    over: &mut [u8],
)
    requires labelled { HasLabelling space.now labels.now }
    requires cell { InRange (count space.now dim) cell }
    requires inside { IsInside space.now dim cell
        inside.now.vertices.items inside.now.edges.items inside.now.ends inside.now.tree.items }
    requires sheet { InRange labels.now.sheets sheet }
    requires over { length over.old ≡ length inside.now.vertices.items }
    ensures len { length over.new ≡ length over.old }
    ensures over { AreSheets space.now labels.now dim cell sheet over.new }
{
    sheet_is_along();
    over[0] = sheet;
    for taken in &inside.tree {
        let ends = inside.ends.get(taken.link as usize - 1);
        let edge = inside.edges[taken.link as usize - 1];
        let there = sheet_at(labels, edge, ends, taken.node, over);
        over[taken.node as usize - 1] = there;
    }
}

/// The sheet over one end of an edge to which the edge leads from the sheet over the other; ends are given by their
/// places.
fn sheet_at(labels: &Labels, edge: u32, ends: &[u32], node: u32, over: &[u8]) -> u8
    requires first { 1 ≤ edge }
    requires last { edge ≤ length labels.now.labels }
    requires permutes { is_permutation labels.now.sheets (label labels.now.labels edge) ≡ true }
    requires two { length ends.now ≡ 2 }
    requires place { InRange (length over.now) (across_of ends.now node) }
    requires sheet { InRange labels.now.sheets (slice_index over.now (across_of ends.now node - 1)) }
    ensures { result ≡ led_by labels.now edge ends.now node (slice_index over.now (across_of ends.now node - 1)) }
{
    if ends[0] == node {
        sheet_before(labels, edge, over[ends[1] as usize - 1])
    } else {
        labels.of(edge, over[ends[0] as usize - 1])
    }
}

/// The sheet from which an edge leads to this one.
fn sheet_before(labels: &Labels, edge: u32, sheet: u8) -> u8
    requires first { 1 ≤ edge }
    requires last { edge ≤ length labels.now.labels }
    requires sheet { InRange labels.now.sheets sheet }
    requires permutes { is_permutation labels.now.sheets (label labels.now.labels edge) ≡ true }
    ensures { result ≡ back (label labels.now.labels edge) sheet }
{
    for index in 0..labels.sheets() {
        if labels.of(edge, index + 1) == sheet {
            return index + 1;
        }
    }
    unreachable!()
}
