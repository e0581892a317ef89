// The space of sets that are given by their places.
ghost use Rattle.std.specs.Prelude.{◌≡◌, ◌≤◌, ◌<◌, ◌+◌, ◌-◌, ◌*◌, ◌^◌, ◌∷◌, ◌++◌, [], ℕ, List};
ghost use Rattle.std.specs.Prelude.{length, map, replicate, slice_set, Bool, Contains};
ghost use Rattle.std.specs.Prelude.{IfOk, OnOk};
ghost use Rattle.std.specs.List.Sorted.{IsStrictlyIncreasing};
ghost use Rattle.number_lists.specs.Words.{upto};
ghost use Rattle.number_lists.specs.Members.{In};
ghost use Rattle.face_poset.specs.Poset.{count};
ghost use Rattle.facet_reader.specs.SetSpaces.{leave_one, sets_of, set_space};
ghost use Rattle.facet_reader.specs.Simplices.{number_in};
ghost use Rattle.facet_reader.specs.Places.{place_of, members, facets_at, layer_at, AreHeld, AreSets, IsComplex};

use crate::vertices::number_of;
use face_poset::{Builder, Space};
use number_lists::sort_once;
use std::alloc::{AllocError, Global};

/// The space whose vertices are the numbers up to `vertices` and whose other cells are the sets of two,
/// three and four of them at these places.
pub(crate) fn build(
    alloc: Global,
    vertices: usize,
    edges: &[usize],
    triangles: &[usize],
    solids: &[usize],
) -> Result<Space, AllocError>
    requires some { 1 ≤ vertices }
    requires few { vertices ≤ 60000 }
    requires few_edges { length edges.now ≤ 60000 }
    requires few_triangles { length triangles.now ≤ 60000 }
    requires complex { IsComplex vertices edges.now triangles.now solids.now }
    ensures { IfOk result (λ space. (test : List ℕ → Bool)
        → AreSets vertices test edges.now triangles.now solids.now
        → space ≡ set_space (sets_of vertices test)) }
{
    let mut builder = Builder::new(alloc);
    let mut facets = Vec::new(alloc);
    let points = add_vertices(alloc, &mut builder, vertices)?;
    add_cells(&mut builder, 2, &points, edges, &mut facets)?;
    add_cells(&mut builder, 3, edges, triangles, &mut facets)?;
    add_cells(&mut builder, 4, triangles, solids, &mut facets)?;
    let space = builder.finish()?;
    Ok(space)
}

/// Adds so many vertices, and answers their places.
fn add_vertices(
    alloc: Global,
    builder: &mut Builder,
    vertices: usize,
) -> Result<Vec<usize>, AllocError>
    requires few { vertices ≤ 60000 }
    requires empty { builder.old ≡ [] ∷ [] ∷ [] ∷ [] ∷ [] }
    ensures points { IfOk result (λ points. points.items ≡ upto vertices) }
    ensures added { OnOk result (builder.new ≡ replicate vertices [] ∷ [] ∷ [] ∷ [] ∷ []) }
{
    let mut points = Vec::new(alloc);
    for index in 0..vertices {
        builder.add(0, &[]).map_err(|_| AllocError)?;
        points.push(index + 1)?;
    }
    Ok(points)
}

/// Adds the cells that are sets of so many members, at these places, where those of one member less
/// stand.
fn add_cells(
    builder: &mut Builder,
    size: u32,
    below: &[usize],
    cells: &[usize],
    facets: &mut Vec<u32>,
) -> Result<(), AllocError>
    requires low { 2 ≤ size }
    requires high { size ≤ 4 }
    requires rises { IsStrictlyIncreasing below.now }
    requires few { length below.now ≤ 60000 }
    requires held { AreHeld size below.now cells.now }
    requires layers { length builder.old ≡ 4 }
    requires below { count builder.old (size - 2) ≡ length below.now }
    requires empty { (above : ℕ) → size - 1 ≤ above → count builder.old above ≡ 0 }
    ensures { OnOk result (builder.new ≡ slice_set builder.old (size - 1) (layer_at size below.now cells.now)) }
{
    for place in cells {
        list_facets(*place, size, below, facets)?;
        builder
            .add((size - 1) as u8, facets)
            .map_err(|_| AllocError)?;
    }
    Ok(())
}

/// Lists the numbers of the facets of a set in increasing order.
fn list_facets(
    place: usize,
    size: u32,
    below: &[usize],
    facets: &mut Vec<u32>,
) -> Result<(), AllocError>
    requires low { 2 ≤ size }
    requires high { size ≤ 4 }
    requires rises { IsStrictlyIncreasing below.now }
    requires few { length below.now ≤ 60000 }
    requires held { AreHeld size below.now (place ∷ []) }
    ensures { OnOk result (facets.new.items ≡ facets_at size below.now place) }
{
    facets.clear();
    push_facets(place, 0, size, below, facets)?;
    sort_once(facets);
    Ok(())
}

/// Puts the numbers of the facets last that keep the members with the place `high`, and leave out one
/// of the others.
fn push_facets(
    place: usize,
    high: usize,
    size: u32,
    below: &[usize],
    facets: &mut Vec<u32>,
) -> Result<(), AllocError>
    requires size { size ≤ 4 }
    requires fits { place < 65536 ^ size }
    requires room { (high + 1) * 65536 ^ size ≤ 2 ^ 64 }
    requires rises { IsStrictlyIncreasing below.now }
    requires few { length below.now ≤ 60000 }
    requires held { (u : List ℕ) → In u (leave_one (members size place))
        → Contains below.now (high * 65536 ^ length u + place_of u) }
    ensures { OnOk result (facets.new.items ≡ facets.old.items
        ++ map (λ u. number_in below.now (high * 65536 ^ length u + place_of u)) (leave_one (members size place))) }
{
    if size == 0 {
        return Ok(());
    }
    let weight = weight(size - 1);
    let rest = place % weight;
    let kept = high * 65_536 + place / weight;
    push_facets(rest, kept, size - 1, below, facets)?;
    facets.push(number_of(below, high * weight + rest))?;
    Ok(())
}

/// The place of the first step of a member that is followed by so many.
fn weight(size: u32) -> usize
    requires { size ≤ 3 }
    ensures { result ≡ 65536 ^ size }
{
    match size {
        0 => 1,
        1 => 65_536,
        2 => 65_536 * 65_536,
        _ => 65_536 * 65_536 * 65_536,
    }
}
