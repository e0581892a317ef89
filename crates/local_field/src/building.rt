// The buildings of the boundaries of cells without one facet.
ghost use Rattle.std.specs.Prelude.{◌≡◌, ◌≤◌, ℕ, List, length, true, IfOk};
ghost use Rattle.face_poset.specs.declared.cells.Pair.{Pair};
ghost use Rattle.face_poset.specs.Poset.{count, facets_of, IsSpace};
ghost use Rattle.regular_check.specs.Rules.{IsRegular};
ghost use Rattle.face_poset.specs.Below.{cell_at};
ghost use Rattle.order_complex.specs.Chains.{id_of};
ghost use Rattle.sphere_collapses.specs.Collapses.{boundary_less, collapses};
ghost use Rattle.sphere_collapses.specs.Laws.{IsFaceOf};
ghost use Rattle.local_field.specs.Inside.{IsFull};
ghost use Rattle.local_field.specs.Buildings.{dim_at, is_below, edge_building, solid_building};
ghost use Rattle.local_field.specs.Listed.{IsBuilt, FitsTop, FitsCell};

use crate::cell_ids::{cell_of, id_of};
use crate::rounds::disk_building;
use face_poset::{Graded, Space};
use regular_check::{Regular, cycles_go_round};
use sphere_collapses::{PairSeq, boundaries_collapse};
use std::alloc::{AllocError, Global};
use std::marker::Model;

/// How the boundary of a cell without one facet is built up: a vertex, and pairs of a cell and a coface by
/// their ids, in the order in which they are put on.
#[derive(Drop)]
pub(crate) struct Built {
    root: u32,
    pairs: Vec<(u32, u32)>,
}

impl Model for Built {
    ghost use Rattle.local_field.specs.Towers.{Building};

    ghost Value = { Building };

    ghost view = { λ s. record { root = s.root; pairs = s.pairs.items } };
}

impl Built {
    /// The building of this vertex and these pairs.
    pub(crate) fn new(root: u32, pairs: Vec<(u32, u32)>) -> Built
        ensures root { result.root ≡ root }
        ensures pairs { result.pairs ≡ pairs.items }
    {
        Built { root, pairs }
    }

    /// The vertex.
    pub(crate) fn root(&self) -> u32
        ensures { result ≡ self.now.root }
    {
        self.root
    }

    /// The pairs.
    pub(crate) fn pairs(&self) -> &[(u32, u32)]
        ensures { result.now ≡ self.now.pairs }
    {
        &self.pairs
    }
}

/// The building for the top of a tower, which is no 3-cell, without the next cell of the tower.
pub(crate) fn building_of(
    alloc: Global,
    regular: &Regular<'_>,
    tower: &[u32],
) -> Result<Built, AllocError>
    requires full { IsFull (is_below regular.now) (dim_at regular.now) tower.now }
    requires low { length tower.now ≤ 3 }
    ensures built { IfOk result (λ built. (collapse : (solid face : ℕ) → List Pair)
        → IsBuilt regular.now collapse tower.now built) }
    ensures fits { IfOk result (FitsTop regular.now tower.now) }
{
    cycles_go_round();
    boundaries_collapse();
    let space = regular.space();
    let _edges = space.cells(1);
    if tower.len() < 2 {
        return Ok(Built::new(0, Vec::new(alloc)));
    }
    let cell = cell_of(space, tower[0]);
    if cell.dim == 1 {
        Ok(edge_building(alloc, space, cell.number, tower[1]))
    } else {
        let edge = cell_of(space, tower[1]);
        let built = disk_building(alloc, regular, cell.number, edge.number)?;
        Ok(built)
    }
}

/// The building of an edge without one of its vertices: the other one.
fn edge_building(alloc: Global, space: &Space, edge: u32, vertex: u32) -> Built
    requires first { 1 ≤ edge }
    requires last { edge ≤ count space.now 1 }
    requires two { length (facets_of space.now 1 edge) ≡ 2 }
    ensures { result ≡ edge_building space.now edge vertex }
{
    Built::new(other_end(space, edge, vertex), Vec::new(alloc))
}

/// The first vertex of an edge that is not this one.
fn other_end(space: &Space, edge: u32, vertex: u32) -> u32
    requires first { 1 ≤ edge }
    requires last { edge ≤ count space.now 1 }
    requires two { length (facets_of space.now 1 edge) ≡ 2 }
    ensures { result ≡ (edge_building space.now edge vertex).root }
{
    let ends = space.facets(1, edge);
    if ends[0] == vertex { ends[1] } else { ends[0] }
}

/// The building of a 3-cell without one of its 2-cells, by a collapse: the vertex that it leaves, and its
/// pairs in reverse.
pub(crate) fn solid_building(
    alloc: Global,
    regular: &Regular<'_>,
    solid: u32,
    face: u32,
    collapse: &PairSeq,
) -> Result<Built, AllocError>
    requires face { IsFaceOf regular.now solid face }
    requires collapse { collapses regular.now (boundary_less regular.now solid face) collapse.now ≡ true }
    ensures built { IfOk result (λ built. built ≡ solid_building regular.now solid face collapse.now) }
    ensures fits { IfOk result (FitsCell regular.now (id_of regular.now (cell_at 3 solid))) }
{
    let space = regular.space();
    let _solids = space.cells(3);
    let mut pairs = Vec::new(alloc);
    for index in 0..collapse.len() {
        let pair = collapse.get(index);
        pairs.push((
            id_of(space, pair.dim, pair.lower),
            id_of(space, pair.dim + 1, pair.upper),
        ))?;
    }
    pairs.reverse();
    Ok(Built::new(root_of(space, solid, face, collapse), pairs))
}

/// The vertex that a collapse leaves: the end of the edge of its last pair that does not go with it.
fn root_of(space: &Space, solid: u32, face: u32, collapse: &PairSeq) -> u32
    requires valid { IsSpace space.now }
    requires regular { IsRegular space.now }
    requires face { IsFaceOf space.now solid face }
    requires collapse { collapses space.now (boundary_less space.now solid face) collapse.now ≡ true }
    ensures { result ≡ (solid_building space.now solid face collapse.now).root }
{
    if collapse.len() == 0 {
        return 0;
    }
    let last = collapse.get(collapse.len() - 1);
    if last.dim > 0 {
        return 0;
    }
    other_end(space, last.upper, last.lower)
}
