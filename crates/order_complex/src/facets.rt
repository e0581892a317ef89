// The facets of chains, by their numbers.
ghost use Rattle.std.specs.Prelude.{◌≡◌, ◌≤◌, ◌<◌, ◌-◌, ◌++◌, [], Contains, map, length, slice_index};
ghost use Rattle.std.specs.Prelude.{slice_index_or, IfOk, OnOk};
ghost use Rattle.std.specs.List.Sorted.{IsStrictlyIncreasing};
ghost use Rattle.order_complex.specs.Chains.{chains_of, chain_count};
ghost use Rattle.order_complex.specs.Complex.{chain_layers, facet_lists, facet_numbers, stored_facets};
ghost use Rattle.order_complex.specs.Listing.{extensions, first_places, uppers_of};

use crate::listing::ChainLists;
use crate::uppers::Uppers;
use std::alloc::{AllocError, Global};
use std::marker::Model;

/// The facets of the chains of three and of four cells, by their numbers, the last entry left out first. (Those of a
/// chain of two cells are its ids.)
#[derive(Drop)]
pub struct FacetLists {
    triangles: Vec<[u32; 3]>,
    tetrahedra: Vec<[u32; 4]>,
}

impl Model for FacetLists {
    ghost use Rattle.std.specs.Prelude.{◌∷◌, [], List, ℕ};
    ghost use Rattle.face_poset.specs.Poset.{Layers};

    ghost Value = { Layers };

    ghost view = { λ s. s.triangles.items ∷ s.tetrahedra.items ∷ [] };
}

impl FacetLists {
    /// The facets by the listing of the chains: a chain comes of the one without its last cell, and its other facets
    /// come of the facets of that chain.
    pub fn new(
        alloc: Global,
        uppers: &Uppers<'_>,
        chains: &ChainLists,
    ) -> Result<FacetLists, AllocError>
        requires chains { chains.now ≡ chain_layers uppers.now }
        requires few { chain_count uppers.now ≤ 4294967295 }
        ensures { IfOk result (λ facets. facets ≡ stored_facets uppers.now) }
    {
        let starts = uppers.first_places(alloc, chains.points())?;
        let triangles = list_triangle_facets(alloc, uppers, chains.edges(), &starts)?;
        let starts = uppers.first_places(alloc, chains.edges())?;
        let tetrahedra = list_tetrahedron_facets(
            alloc,
            uppers,
            chains.triangles(),
            &triangles,
            &starts,
        )?;
        Ok(FacetLists {
            triangles,
            tetrahedra,
        })
    }

    /// The facets of the chains of three cells.
    pub fn triangles(&self) -> &[[u32; 3]]
        ensures { result.now ≡ slice_index_or self.now 0 [] }
    {
        &self.triangles
    }

    /// The facets of the chains of four cells.
    pub fn tetrahedra(&self) -> &[[u32; 4]]
        ensures { result.now ≡ slice_index_or self.now 1 [] }
    {
        &self.tetrahedra
    }
}

/// The facets of the chains of three cells, from the chains of two.
fn list_triangle_facets(
    alloc: Global,
    uppers: &Uppers<'_>,
    edges: &[[u32; 2]],
    starts: &[u32],
) -> Result<Vec<[u32; 3]>, AllocError>
    requires edges { edges.now ≡ chains_of uppers.now 1 }
    requires starts { starts.now ≡ first_places (uppers_of uppers.now) (chains_of uppers.now 0) }
    requires few { chain_count uppers.now ≤ 4294967295 }
    ensures { IfOk result (λ facets. facets.items ≡ facet_lists uppers.now 2) }
{
    let mut facets = Vec::new(alloc);
    for index in 0..edges.len() {
        push_triangle_facets(&mut facets, uppers, edges, starts, index)?;
    }
    Ok(facets)
}

/// Puts the facets of the chains of three cells that begin with the chain at an index last.
fn push_triangle_facets(
    facets: &mut Vec<[u32; 3]>,
    uppers: &Uppers<'_>,
    edges: &[[u32; 2]],
    starts: &[u32],
    index: usize,
) -> Result<(), AllocError>
    requires edges { edges.now ≡ chains_of uppers.now 1 }
    requires starts { starts.now ≡ first_places (uppers_of uppers.now) (chains_of uppers.now 0) }
    requires few { chain_count uppers.now ≤ 4294967295 }
    requires index { index < length edges.now }
    ensures { OnOk result
        (facets.new.items
        ≡ facets.old.items
        ++ map (facet_numbers (chains_of uppers.now 1))
        (extensions (uppers_of uppers.now) (slice_index_or edges.now index []))) }
{
    let [first, second] = edges[index];
    let before = uppers.above(first);
    let after = uppers.above(second);
    let before_start = starts[first as usize - 1];
    let after_start = starts[second as usize - 1];
    for place in 0..after.len() {
        let skipped = before_start + place_in(before, after[place]) as u32 + 1;
        let moved = after_start + place as u32 + 1;
        facets.push([index as u32 + 1, skipped, moved])?;
    }
    Ok(())
}

/// The facets of the chains of four cells, from the chains of three and their facets.
fn list_tetrahedron_facets(
    alloc: Global,
    uppers: &Uppers<'_>,
    triangles: &[[u32; 3]],
    lower: &[[u32; 3]],
    starts: &[u32],
) -> Result<Vec<[u32; 4]>, AllocError>
    requires triangles { triangles.now ≡ chains_of uppers.now 2 }
    requires lower { lower.now ≡ facet_lists uppers.now 2 }
    requires starts { starts.now ≡ first_places (uppers_of uppers.now) (chains_of uppers.now 1) }
    requires few { chain_count uppers.now ≤ 4294967295 }
    ensures { IfOk result (λ facets. facets.items ≡ facet_lists uppers.now 3) }
{
    let mut facets = Vec::new(alloc);
    for index in 0..triangles.len() {
        push_tetrahedron_facets(&mut facets, uppers, triangles, lower, starts, index)?;
    }
    Ok(facets)
}

/// Puts the facets of the chains of four cells that begin with the chain at an index last.
fn push_tetrahedron_facets(
    facets: &mut Vec<[u32; 4]>,
    uppers: &Uppers<'_>,
    triangles: &[[u32; 3]],
    lower: &[[u32; 3]],
    starts: &[u32],
    index: usize,
) -> Result<(), AllocError>
    requires triangles { triangles.now ≡ chains_of uppers.now 2 }
    requires lower { lower.now ≡ facet_lists uppers.now 2 }
    requires starts { starts.now ≡ first_places (uppers_of uppers.now) (chains_of uppers.now 1) }
    requires few { chain_count uppers.now ≤ 4294967295 }
    requires index { index < length triangles.now }
    ensures { OnOk result
        (facets.new.items
        ≡ facets.old.items
        ++ map (facet_numbers (chains_of uppers.now 2))
        (extensions (uppers_of uppers.now) (slice_index_or triangles.now index []))) }
{
    let [_first, second, third] = triangles[index];
    let [front, skipped, back] = lower[index];
    let before = uppers.above(second);
    let after = uppers.above(third);
    let front_start = starts[front as usize - 1];
    let skipped_start = starts[skipped as usize - 1];
    let back_start = starts[back as usize - 1];
    for place in 0..after.len() {
        let turned = front_start + place_in(before, after[place]) as u32 + 1;
        let next = place as u32 + 1;
        facets.push([
            index as u32 + 1,
            turned,
            skipped_start + next,
            back_start + next,
        ])?;
    }
    Ok(())
}

/// The place of a number in an increasing list, counted from 0.
fn place_in(list: &[u32], number: u32) -> usize
    requires rises { IsStrictlyIncreasing list.now }
    requires there { Contains list.now number }
    ensures within { result < length list.now }
    ensures is { slice_index list.now result ≡ number }
{
    let mut low = 0;
    let mut high = list.len();
    'halves: while low + 1 < high {
        let middle = low + (high - low) / 2;
        if list[middle] <= number {
            low = middle;
        } else {
            high = middle;
        }
    }
    low
}
