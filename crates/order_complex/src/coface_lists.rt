// The cofaces of chains, by their numbers.
ghost use Rattle.std.specs.Prelude.{◌≡◌, ◌≤◌, ◌<◌, ◌∷◌, [], All, length, slice_index_or, IfOk};
ghost use Rattle.number_lists.specs.Cofaces.{coface_lists, IsRising};

use crate::facets::FacetLists;
use crate::listing::ChainLists;
use number_lists::{Lists, cofaces_in};
use std::alloc::{AllocError, Global};
use std::marker::Model;

/// The cofaces of the chains of one, two and three cells, by their numbers. (Those of four cells have none.)
#[derive(Drop)]
pub struct CofaceLists {
    points: Lists,
    edges: Lists,
    triangles: Lists,
}

impl Model for CofaceLists {
    ghost use Rattle.std.specs.Prelude.{◌∷◌, [], List, ℕ};
    ghost use Rattle.face_poset.specs.Poset.{Layers};

    ghost Value = { Layers };

    ghost view = { λ s. s.points ∷ s.edges ∷ s.triangles ∷ [] };
}

impl CofaceLists {
    /// The cofaces from the facets of the chains of one degree more; those of the chains of two cells are their ids.
    pub fn new(
        alloc: Global,
        chains: &ChainLists,
        facets: &FacetLists,
    ) -> Result<CofaceLists, AllocError>
        requires points { All (IsRising (length (slice_index_or chains.now 0 []))) (slice_index_or chains.now 1 []) }
        requires edges { All (IsRising (length (slice_index_or chains.now 1 []))) (slice_index_or facets.now 0 []) }
        requires triangles { All (IsRising (length (slice_index_or chains.now 2 []))) (slice_index_or facets.now 1 []) }
        requires few_edges { length (slice_index_or chains.now 1 []) ≤ 4294967295 }
        requires few_triangles { length (slice_index_or facets.now 0 []) ≤ 4294967295 }
        requires few_tetrahedra { length (slice_index_or facets.now 1 []) ≤ 4294967295 }
        ensures { IfOk result (λ cofaces. cofaces ≡
            coface_lists (length (slice_index_or chains.now 0 [])) (slice_index_or chains.now 1 [])
            ∷ coface_lists (length (slice_index_or chains.now 1 [])) (slice_index_or facets.now 0 [])
            ∷ coface_lists (length (slice_index_or chains.now 2 [])) (slice_index_or facets.now 1 [])
            ∷ []) }
    {
        let points = cofaces_over(alloc, chains.len(0), chains.edges())?;
        let edges = cofaces_over(alloc, chains.len(1), facets.triangles())?;
        let triangles = cofaces_over(alloc, chains.len(2), facets.tetrahedra())?;
        Ok(CofaceLists {
            points,
            edges,
            triangles,
        })
    }

    /// The cofaces of the chain of a degree at an index, counted from 0.
    pub fn get(&self, degree: u8, index: usize) -> &[u32]
        requires degree { degree ≤ 2 }
        requires index { index < length (slice_index_or self.now degree []) }
        ensures { result.now ≡ slice_index_or (slice_index_or self.now degree []) index [] }
    {
        match degree {
            0 => self.points.get(index),
            1 => self.edges.get(index),
            _ => self.triangles.get(index),
        }
    }
}

/// For each of the facets 1 to `most` the cells that have it, where the cells are given by their facets.
fn cofaces_over<const W: usize>(
    alloc: Global,
    most: usize,
    cells: &[[u32; W]],
) -> Result<Lists, AllocError>
    requires cells { All (IsRising most) cells.now }
    requires few { length cells.now ≤ 4294967295 }
    ensures { IfOk result (λ lists. lists ≡ coface_lists most cells.now) }
{
    let lists = to_lists(alloc, cells)?;
    cofaces_in(alloc, most, &lists)
}

/// The same lists, one after another.
fn to_lists<const W: usize>(alloc: Global, rows: &[[u32; W]]) -> Result<Lists, AllocError>
    ensures { IfOk result (λ lists. lists ≡ rows.now) }
{
    let mut lists = Lists::new(alloc);
    for index in 0..rows.len() {
        lists.push(&rows[index])?;
    }
    Ok(lists)
}
