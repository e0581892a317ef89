// The cells above each cell of a space, and the chains by them.
ghost use Rattle.std.specs.Prelude.{◌≡◌, ◌≤◌, ◌-◌, [], length, slice_index_or, IfOk};
ghost use Rattle.std.specs.List.{flat_map};
ghost use Rattle.face_poset.specs.Poset.{cell_count};
ghost use Rattle.order_complex.specs.Complex.{chain_layers};
ghost use Rattle.order_complex.specs.Listing.{extensions, first_places, uppers_of, AreWalks};

use crate::faces::faces_in;
use crate::listing::{ChainLists, list_edges, list_points, list_tetrahedra, list_triangles};
use face_poset::Space;
use number_lists::{Lists, cofaces_in};
use std::alloc::{AllocError, Global};
use std::marker::Model;

/// The ids of the cells above each cell of a space.
#[derive(Drop)]
pub struct Uppers<'a> {
    space: &'a Space,
    lists: Lists,
}

impl<'a> Model for Uppers<'a> {
    ghost use Rattle.std.specs.Prelude.{◌≡◌, ◌≤◌, List, ℕ};
    ghost use Rattle.face_poset.specs.Poset.{Layers, cell_count};
    ghost use Rattle.order_complex.specs.Listing.{uppers_of};

    ghost Value = { Layers };

    ghost view = { λ u. u.space.now };

    ghost invariant = { λ u. (u.lists ≡ uppers_of u.space.now) × (cell_count u.space.now ≤ 60000) };
}

impl<'a> Uppers<'a> {
    pub fn new(alloc: Global, space: &'a Space) -> Result<Uppers<'a>, AllocError>
        ensures { IfOk result (λ uppers. uppers ≡ space.entry.now) }
    {
        let faces = faces_in(alloc, space)?;
        let lists = cofaces_in(alloc, faces.len(), &faces)?;
        Ok(Uppers { space, lists })
    }

    /// The ids of the cells above the cell with an id.
    pub fn above(&self, id: u32) -> &[u32]
        requires first { 1 ≤ id }
        requires last { id ≤ cell_count self.now }
        ensures { result.now ≡ slice_index_or (uppers_of self.now) (id - 1) [] }
    {
        self.lists.get(id as usize - 1)
    }

    /// The chains of each degree.
    pub fn chains(&self, alloc: Global) -> Result<ChainLists, AllocError>
        ensures { IfOk result (λ chains. chains ≡ chain_layers self.now) }
    {
        let points = list_points(alloc, self.lists.len())?;
        let edges = list_edges(alloc, &points, &self.lists)?;
        let triangles = list_triangles(alloc, &edges, &self.lists)?;
        let tetrahedra = list_tetrahedra(alloc, &triangles, &self.lists)?;
        Ok(ChainLists::new(points, edges, triangles, tetrahedra))
    }

    /// For each of these chains, how many chains with one cell more come before those that it begins.
    pub fn first_places<const W: usize>(
        &self,
        alloc: Global,
        chains: &[[u32; W]],
    ) -> Result<Vec<u32>, AllocError>
        requires walks { AreWalks (uppers_of self.now) chains.now }
        requires few { length (flat_map (extensions (uppers_of self.now)) chains.now) ≤ 4294967295 }
        ensures { IfOk result (λ places. places.items ≡ first_places (uppers_of self.now) chains.now) }
    {
        let mut places = Vec::new(alloc);
        let mut total: u32 = 0;
        for index in 0..chains.len() {
            places.push(total)?;
            let chain: &[u32] = &chains[index];
            total += self.above(chain[chain.len() - 1]).len() as u32;
        }
        Ok(places)
    }
}
