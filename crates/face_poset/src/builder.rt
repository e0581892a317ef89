ghost use Rattle.std.specs.Prelude.{◌≡◌, ℕ, ◌≤◌, ◌<◌, ◌+◌, ◌-◌, ◌∷◌, ◌++◌, [], slice_set, IfOk, IfErr, OnOk, OnErr};
ghost use Rattle.face_poset.specs.Poset.{layer, count, cell_count, IsCell};

use crate::space::{MOST_CELLS, Space};
use number_lists::Lists;
use std::alloc::{AllocError, Global};
use std::marker::Model;
use thiserror::Error;

/// Why a cell was not added.
#[derive(Clone, Copy, PartialEq, Eq, Debug, Error)]
pub enum BuildFault {
    /// 60,000 cells stand.
    #[error("more than 60000 cells")]
    TooManyCells,
    /// Want of memory.
    #[error("want of memory")]
    Memory,
}

/// A space in the making, cell by cell, by dimension. Contracts see it as four lists of cells, each
/// cell as the list of its facets.
#[derive(Drop)]
pub struct Builder {
    alloc: Global,
    facets: [Lists; 4],
}

impl Model for Builder {
    ghost use Rattle.std.specs.Prelude.{◌≤◌};
    ghost use Rattle.face_poset.specs.Poset.{Layers, IsSpace, cell_count};

    ghost Value = { Layers };

    ghost view = { λ s. s.facets };

    ghost invariant = { λ s. IsSpace s.facets × (cell_count s.facets ≤ 60000) };
}

impl Builder {
    /// A builder without cells.
    pub fn new(alloc: Global) -> Builder
        ensures { result ≡ [] ∷ [] ∷ [] ∷ [] ∷ [] }
    {
        Builder {
            alloc,
            facets: [
                Lists::new(alloc),
                Lists::new(alloc),
                Lists::new(alloc),
                Lists::new(alloc),
            ],
        }
    }

    /// Adds a cell, and answers its number in its dimension, counted from 1.
    ///
    /// The dimension is not below that of a cell that stands. A vertex has no facet; the facets of
    /// any other cell are strictly increasing numbers of cells that stand, one dimension below.
    /// `TooManyCells` comes exactly where 60,000 cells stand. After a refusal the builder is as
    /// before.
    pub fn add(&mut self, dim: u8, facets: &[u32]) -> Result<u32, BuildFault>
        requires dim { dim ≤ 3 }
        requires last { (above : ℕ) → dim < above → count self.old above ≡ 0 }
        requires vertex { dim ≡ 0 → facets.now ≡ [] }
        requires cell { 1 ≤ dim → IsCell (count self.old (dim - 1)) facets.now }
        ensures number { IfOk result (λ number. number ≡ count self.old dim + 1) }
        ensures added { OnOk result (self.new ≡ slice_set self.old dim (layer self.old dim ++ facets.now ∷ [])) }
        ensures full { cell_count self.old ≡ 60000 → result ≡ Err BuildFault.TooManyCells }
        ensures only_full { result ≡ Err BuildFault.TooManyCells → cell_count self.old ≡ 60000 }
        ensures unchanged { OnErr result (self.new ≡ self.old) }
    {
        let standing = self.facets[0].len()
            + self.facets[1].len()
            + self.facets[2].len()
            + self.facets[3].len();
        if standing >= MOST_CELLS {
            return Err(BuildFault::TooManyCells);
        }
        let layer = &mut self.facets[dim as usize];
        layer.push(facets).map_err(|_| BuildFault::Memory)?;
        Ok(layer.len() as u32)
    }

    /// The space of the cells added, of which one is a vertex. Want of memory gives the builder up.
    pub fn finish(self) -> Result<Space, AllocError>
        requires { 1 ≤ count self 0 }
        ensures { IfOk result (λ space. space ≡ self) }
    {
        Space::from_layers(self.alloc, self.facets)
    }
}
