ghost use Rattle.std.specs.Prelude.{◌≡◌, ◌≤◌, ◌-◌, [], Contains, IfOk, slice_index_or};
ghost use Rattle.face_poset.specs.Poset.{count, facets_of, cofaces_of, IsSpace};
ghost use Rattle.face_poset.specs.Signs.{sign_of, SignsCancel};
ghost use Rattle.cell_signs.specs.Oriented.{IsOriented, negative_in};
ghost use Rattle.cell_signs.specs.Along.{HasLowSigns, HaveHighSigns};
ghost use Rattle.cell_signs.specs.Minus.{IsKept, signed_by_lists};

use crate::disks::list_disks;
use crate::edges::list_edges;
use crate::put::stands;
use crate::solids::list_solids;
use face_poset::{Graded, Signed, Space};
use number_lists::Lists;
use regular_check::{Regular, cycles_go_round};
use std::alloc::{AllocError, Global};
use std::marker::Model;

/// A regular space whose cells are oriented. Contracts see it as the space, and of each cell the list of
/// those facets that have the sign -1.
#[derive(Drop)]
pub struct Oriented<'a> {
    space: &'a Space,
    edges: Lists,
    disks: Lists,
    solids: Lists,
}

impl<'a> Model for Oriented<'a> {
    ghost use Rattle.cell_signs.specs.Oriented.{SignedSpace};
    ghost use Rattle.cell_signs.specs.Minus.{IsKept, signed_by_lists};

    ghost Value = { SignedSpace };

    ghost view = { λ s. signed_by_lists s.space.now s.edges s.disks s.solids };

    ghost invariant = { λ s. IsKept (signed_by_lists s.space.now s.edges s.disks s.solids) };
}

impl<'a> Oriented<'a> {
    /// Gives the facets of all cells signs.
    ///
    /// An edge has -1 at its first vertex and 1 at its second. A 2-cell has 1 at the edges that its cycle
    /// goes forward, and -1 at the others. A 3-cell has 1 at one of its 2-cells; then, along a collapse of
    /// the rest of its boundary, each pair of an edge and a 2-cell gives the 2-cell the sign that cancels, over the
    /// edge, with the other 2-cell there.
    pub fn new(alloc: Global, regular: &'a Regular<'_>) -> Result<Oriented<'a>, AllocError>
        ensures space { IfOk result (λ signed. signed.space ≡ regular.entry.now) }
        ensures oriented { IfOk result (λ signed. IsOriented signed.space (negative_in signed)) }
        ensures low { IfOk result (λ signed. HasLowSigns signed.space (negative_in signed)) }
        ensures high { IfOk result (λ signed. HaveHighSigns signed.space (negative_in signed)) }
    {
        cycles_go_round();
        let edges = list_edges(alloc, regular)?;
        let disks = list_disks(alloc, regular)?;
        let solids = list_solids(alloc, regular)?;
        let space = regular.space();
        let _solids = space.cells(3);
        Ok(Oriented {
            space,
            edges,
            disks,
            solids,
        })
    }

    /// The facets with the sign -1 of a cell, in increasing order.
    fn minus(&self, dim: u8, cell: u32) -> &[u32]
        requires first { 1 ≤ cell }
        requires last { cell ≤ count self.now.space dim }
        ensures minus { result.now ≡ facets_of self.now.minus dim cell }
        ensures kept { IsKept self.now }
    {
        match dim {
            1 => self.edges.get(cell as usize - 1),
            2 => self.disks.get(cell as usize - 1),
            3 => self.solids.get(cell as usize - 1),
            _ => &[],
        }
    }
}

impl<'a> Graded for Oriented<'a> {
    ghost space = { λ s. s.space };

    fn cells(&self, dim: u8) -> u32 {
        self.space.cells(dim)
    }

    fn facets(&self, dim: u8, cell: u32) -> &[u32] {
        self.space.facets(dim, cell)
    }

    fn cofaces(&self, dim: u8, cell: u32) -> &[u32] {
        self.space.cofaces(dim, cell)
    }
}

impl<'a> Signed for Oriented<'a> {
    ghost negative = { λ s dim cell facet. negative_in s dim cell facet };

    fn sign(&self, dim: u8, cell: u32, facet: u32) -> i8 {
        if stands(self.minus(dim, cell), facet) {
            -1
        } else {
            1
        }
    }
}
