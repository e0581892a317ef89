ghost use Rattle.std.specs.Prelude.{◌≡◌, ◌≤◌, ◌++◌, All, length, map, reverse, true, IfOk};
ghost use Rattle.face_poset.specs.Poset.{facets_of, IsLimited, IsSpace};
ghost use Rattle.regular_check.specs.Rules.{IsRegular};
ghost use Rattle.sphere_collapses.specs.Collapses.{boundary_less, collapses};
ghost use Rattle.sphere_collapses.specs.Laws.{IsFaceOf};
ghost use Rattle.sphere_collapses.specs.Spheres.{edges_below};
ghost use Rattle.sphere_collapses.specs.Trees.{disk_pair_at, edges_left, vertex_pair_at, IsDualTree, IsPlaced};

use crate::faces::{facet_places, facets_below, place_of};
use crate::pair_seq::PairSeq;
use crate::tree::{Taken, grow};
use face_poset::{Graded, Pair, Space};
use number_lists::{FoundNumbers, cofaces_in};
use regular_check::{Regular, cycles_go_round};
use std::alloc::{AllocError, Global};

/// A collapse of the boundary of a 3-cell, less one of its 2-cells, to a vertex: pairs in the order in
/// which they go.
///
/// First a tree of 2-cells from the face on, each with the edge across which it was taken; then a tree of
/// vertices along the other edges, each with the edge along which it was taken, the latest first. The time
/// is that of sorting the faces of the 3-cell, whatever the size of the space.
pub fn collapse_of(
    alloc: Global,
    regular: &Regular<'_>,
    cell: u32,
    face: u32,
) -> Result<PairSeq, AllocError>
    requires { IsFaceOf regular.now cell face }
    ensures { IfOk result (λ pairs. collapses regular.now (boundary_less regular.now cell face) pairs ≡ true) }
{
    let space = regular.space();
    let _solids = space.cells(3);
    collapse_in(alloc, space, cell, face)
}

/// The collapse, in the space.
fn collapse_in(alloc: Global, space: &Space, cell: u32, face: u32) -> Result<PairSeq, AllocError>
    requires valid { IsSpace space.now }
    requires limited { IsLimited space.now }
    requires regular { IsRegular space.now }
    requires face { IsFaceOf space.now cell face }
    ensures { IfOk result (λ pairs. collapses space.now (boundary_less space.now cell face) pairs ≡ true) }
{
    cycles_go_round();
    let disks = space.facets(3, cell);
    let edges = facets_below(alloc, space, 2, disks)?;
    let vertices = facets_below(alloc, space, 1, &edges)?;
    let dual = grow_disks(alloc, space, cell, face, &edges)?;
    let left = list_left(alloc, &edges, &dual)?;
    let ends = facet_places(alloc, space, 1, &left, &vertices)?;
    let primal = grow(alloc, vertices.len(), &ends, 1)?;
    list_pairs(alloc, disks, &edges, &dual, &vertices, &left, &primal)
}

/// The tree of the 2-cells of a 3-cell from one of them on, across its edges, by their places.
fn grow_disks(
    alloc: Global,
    space: &Space,
    cell: u32,
    face: u32,
    edges: &[u32],
) -> Result<Vec<Taken>, AllocError>
    requires valid { IsSpace space.now }
    requires limited { IsLimited space.now }
    requires regular { IsRegular space.now }
    requires face { IsFaceOf space.now cell face }
    requires edges { edges.now ≡ edges_below space.now cell }
    ensures { IfOk result (λ tree. IsDualTree space.now (facets_of space.now 3 cell) edges.now face tree.items) }
{
    let disks = space.facets(3, cell);
    let borders = facet_places(alloc, space, 2, disks, edges)?;
    let sides = cofaces_in(alloc, edges.len(), &borders)?;
    grow(alloc, disks.len(), &sides, place_of(face, disks))
}

/// The edges that are no links of the tree.
fn list_left(alloc: Global, edges: &[u32], tree: &[Taken]) -> Result<Vec<u32>, AllocError>
    requires tree { All (λ t. (1 ≤ t.link) × (t.link ≤ length edges.now)) tree.now }
    requires few { length edges.now ≤ 60000 }
    ensures { IfOk result (λ left. left.items ≡ edges_left edges.now tree.now) }
{
    let mut links = FoundNumbers::new(alloc, edges.len())?;
    for taken in tree {
        links.insert(taken.link)?;
    }
    let mut left = Vec::new(alloc);
    for index in 0..edges.len() {
        if !links.holds(index as u32 + 1) {
            left.push(edges[index])?;
        }
    }
    Ok(left)
}

/// The pairs of both trees, those of the second from its end.
fn list_pairs(
    alloc: Global,
    disks: &[u32],
    edges: &[u32],
    dual: &[Taken],
    vertices: &[u32],
    left: &[u32],
    primal: &[Taken],
) -> Result<PairSeq, AllocError>
    requires dual { All (IsPlaced (length disks.now) (length edges.now)) dual.now }
    requires primal { All (IsPlaced (length vertices.now) (length left.now)) primal.now }
    requires dual_few { length dual.now ≤ 60000 }
    requires primal_few { length primal.now ≤ 60000 }
    ensures { IfOk result (λ pairs.
        pairs
        ≡ map (disk_pair_at disks.now edges.now) dual.now
        ++ map (vertex_pair_at vertices.now left.now) (reverse primal.now)) }
{
    let mut pairs = Vec::new(alloc);
    for taken in dual {
        pairs.push(Pair {
            dim: 1,
            lower: edges[taken.link as usize - 1],
            upper: disks[taken.node as usize - 1],
        })?;
    }
    for index in 0..primal.len() {
        let taken = primal[primal.len() - 1 - index];
        pairs.push(Pair {
            dim: 0,
            lower: vertices[taken.node as usize - 1],
            upper: left[taken.link as usize - 1],
        })?;
    }
    Ok(PairSeq::new(pairs))
}
