ghost use Rattle.std.specs.Prelude.{◌≡◌, ◌≤◌, IfOk};
ghost use Rattle.hap_outside.specs.Causes.{HasCause};
ghost use Rattle.hap_outside.specs.Writes.{Writes};
ghost use Rattle.face_poset.specs.Text.{boundary_text};
ghost use Rattle.face_poset.specs.Laws.{ReadsAs};
ghost use Rattle.face_poset.specs.Below.{closed_cell};
ghost use Rattle.face_poset.specs.Poset.{count, facets_of, cofaces_of, IsSpace, IsLimited, dimension_of};
ghost use Rattle.face_poset.specs.Poset.{IsDimension, euler_of};

use crate::below::push_closure;
use crate::cells::CellList;
use crate::graded::Graded;
use crate::printer::write_layers;
use hap_outside::{Failed, Sink};
use number_lists::{Lists, cofaces_in};
use std::alloc::{AllocError, Global};
use std::marker::Model;

/// The most cells that a space may have.
pub(crate) const MOST_CELLS: usize = 60_000;

/// A space with at least one vertex and at most 60,000 cells in all. Contracts see it as four lists
/// of cells, each cell as the list of its facets.
#[derive(Drop)]
pub struct Space {
    facets: [Lists; 4],
    cofaces: [Lists; 4],
}

impl Model for Space {
    ghost use Rattle.std.specs.Prelude.{◌≡◌};
    ghost use Rattle.face_poset.specs.Poset.{Layers, IsSpace, IsLimited, coface_layers};

    ghost Value = { Layers };

    ghost view = { λ s. s.facets };

    ghost invariant = { λ s.
        IsSpace s.facets × IsLimited s.facets × (s.cofaces ≡ coface_layers s.facets) };
}

impl Space {
    /// The space of four lists of cells.
    pub(crate) fn from_layers(alloc: Global, facets: [Lists; 4]) -> Result<Space, AllocError>
        requires valid { IsSpace facets }
        requires limited { IsLimited facets }
        ensures { IfOk result (λ space. space ≡ facets) }
    {
        let above_vertices = cofaces_in(alloc, facets[0].len(), &facets[1])?;
        let above_edges = cofaces_in(alloc, facets[1].len(), &facets[2])?;
        let above_faces = cofaces_in(alloc, facets[2].len(), &facets[3])?;
        let above_solids = cofaces_in(alloc, facets[3].len(), &Lists::new(alloc))?;
        Ok(Space {
            facets,
            cofaces: [above_vertices, above_edges, above_faces, above_solids],
        })
    }

    /// The greatest dimension that has a cell.
    pub fn dimension(&self) -> u8
        ensures dimension { result ≡ dimension_of self.now }
        ensures greatest { IsDimension self.now result }
    {
        if self.cells(3) > 0 {
            3
        } else if self.cells(2) > 0 {
            2
        } else if self.cells(1) > 0 {
            1
        } else {
            0
        }
    }

    /// The number of vertices, less that of edges, plus that of 2-cells, less that of 3-cells.
    pub fn euler(&self) -> i64
        ensures { result ≡ euler_of self.now }
    {
        let vertices = i64::from(self.cells(0));
        let edges = i64::from(self.cells(1));
        let faces = i64::from(self.cells(2));
        let solids = i64::from(self.cells(3));
        vertices - edges + faces - solids
    }

    /// The cell and all its faces, in the order of ids.
    pub fn below(&self, alloc: Global, dim: u8, cell: u32) -> Result<CellList, AllocError>
        requires first { 1 ≤ cell }
        requires last { cell ≤ count self.now dim }
        ensures { IfOk result (λ cells. cells ≡ closed_cell self.now dim cell) }
    {
        let mut list = CellList::new(alloc);
        push_closure(alloc, &self.facets, dim, &[cell], &mut list)?;
        Ok(list)
    }

    /// Appends the boundary text of the space, or a prefix of it and fails.
    pub fn print<K: Sink>(&self, sink: &mut K) -> Result<(), Failed>
        ensures bytes { Writes (K.written sink.old) (K.written sink.new) (boundary_text self.now) result }
        ensures reads { ReadsAs (boundary_text self.now) self.now }
        ensures cause { HasCause (K.faults sink.old) (K.faults sink.new) result }
    {
        write_layers(sink, &self.facets, self.dimension())
    }
}

impl Graded for Space {
    ghost space = { λ s. s };

    fn cells(&self, dim: u8) -> u32
        ensures cells { result ≡ count self.now dim }
        ensures valid { IsSpace self.now }
        ensures limited { IsLimited self.now }
    {
        if dim > 3 {
            0
        } else {
            let layer = &self.facets[dim as usize];
            layer.len() as u32
        }
    }

    fn facets(&self, dim: u8, cell: u32) -> &[u32] {
        let layer = &self.facets[dim as usize];
        layer.get(cell as usize - 1)
    }

    fn cofaces(&self, dim: u8, cell: u32) -> &[u32] {
        let layer = &self.cofaces[dim as usize];
        layer.get(cell as usize - 1)
    }
}
