ghost use Rattle.std.specs.Prelude.{◌≡◌, ◌≤◌, [], map, IfOk};
ghost use Rattle.number_lists.specs.Words.{upto};
ghost use Rattle.face_poset.specs.Poset.{count, facets_of, IsSpace};
ghost use Rattle.face_poset.specs.Signs.{SignsCancel};
ghost use Rattle.std.specs.List.Sorted.{IsStrictlyIncreasing};
ghost use Rattle.local_field.specs.Flags.{cell_at_place, flags_of, minus_of, negative_in, renumbered, HaveCells};
ghost use Rattle.local_field.specs.Flags.{IsOf, Rise};

use crate::flag_signs::{ask_signs, flag_signs, minus_by_place, point_signs, stands};
use crate::numbering::Numbering;
use crate::renumbering::facets_by_place;
use face_poset::{Graded, Signed};
use number_lists::{Lists, cofaces_in};
use order_complex::Chains;
use std::alloc::{AllocError, Global};
use std::marker::Model;

/// The cells of a space numbered anew, in each dimension by the numbers of their flags among the chains, as
/// a graded set with signs. Contracts see the cells in the order of their new numbers, their places, the
/// facets by places, and those that have the sign -1.
///
/// So the cell at a place is the last one of the chain that stands at this place among those that the pairs
/// inside all cells leave over.
#[derive(Drop)]
pub struct Flags {
    numbering: Numbering,
    facets: [Lists; 4],
    cofaces: [Lists; 4],
    minus: [Lists; 4],
}

impl Model for Flags {
    ghost use Rattle.local_field.specs.Flags.{AreFlags, FlagCells};

    ghost Value = { FlagCells };

    ghost view = { λ s. record { cells = s.numbering; space = s.facets; minus = s.minus } };

    ghost invariant = { λ s. AreFlags s.numbering s.facets s.cofaces s.minus };
}

impl Flags {
    /// The cells by the numbers of their flags.
    ///
    /// The sign of a flag is the product of the signs of its steps. The sign of a facet in a cell of dimension
    /// d is (-1)^d times its sign there times the signs of both flags.
    pub fn new<S: Signed>(
        alloc: Global,
        chains: &Chains<'_>,
        signed: &S,
    ) -> Result<Flags, AllocError>
        requires { chains.now ≡ S.space signed.now }
        ensures { IfOk result (λ flags. flags ≡ flags_of (S.space signed.now) (S.negative signed.now)) }
    {
        ask_signs(signed);
        let numbering = Numbering::new(alloc, chains, signed)?;
        let vertices = empty_lists(alloc, signed.cells(0))?;
        let edges = facets_by_place(alloc, signed, &numbering, 1)?;
        let disks = facets_by_place(alloc, signed, &numbering, 2)?;
        let solids = facets_by_place(alloc, signed, &numbering, 3)?;
        let facets = [vertices, edges, disks, solids];
        let minus = minus_layers(alloc, signed, &numbering, &facets)?;
        let flags = Flags::from_layers(alloc, numbering, facets, minus)?;
        Ok(flags)
    }

    /// The cells with these facets by places, of which those have the sign -1.
    fn from_layers(
        alloc: Global,
        numbering: Numbering,
        facets: [Lists; 4],
        minus: [Lists; 4],
    ) -> Result<Flags, AllocError>
        requires valid { IsSpace facets }
        requires counts { HaveCells numbering facets }
        requires cancel { SignsCancel facets (negative_in minus) }
        requires rise { Rise minus }
        ensures cells { IfOk result (λ flags. flags.cells ≡ numbering) }
        ensures space { IfOk result (λ flags. flags.space ≡ facets) }
        ensures minus { IfOk result (λ flags. flags.minus ≡ minus) }
    {
        let above_vertices = cofaces_in(alloc, facets[0].len(), &facets[1])?;
        let above_edges = cofaces_in(alloc, facets[1].len(), &facets[2])?;
        let above_disks = cofaces_in(alloc, facets[2].len(), &facets[3])?;
        let above_solids = cofaces_in(alloc, facets[3].len(), &Lists::new(alloc))?;
        Ok(Flags {
            numbering,
            facets,
            cofaces: [above_vertices, above_edges, above_disks, above_solids],
            minus,
        })
    }

    /// The places of the facets with the sign -1 of the cell at a place, in increasing order.
    fn minus(&self, dim: u8, cell: u32) -> &[u32]
        requires first { 1 ≤ cell }
        requires last { cell ≤ count self.now.space dim }
        ensures minus { result.now ≡ facets_of self.now.minus dim cell }
        ensures rises { IsStrictlyIncreasing result.now }
        ensures law { SignsCancel self.now.space (negative_in self.now.minus) }
    {
        let layer = &self.minus[dim as usize];
        if cell as usize <= layer.len() {
            layer.get(cell as usize - 1)
        } else {
            &[]
        }
    }

    /// The cell at a place, both counted from 1.
    pub fn cell(&self, dim: u8, place: u32) -> u32
        requires first { 1 ≤ place }
        requires last { place ≤ count self.now.space dim }
        ensures cell { result ≡ cell_at_place self.now.cells dim place }
        ensures first { 1 ≤ result }
        ensures last { result ≤ count self.now.space dim }
    {
        self.numbering.cell(dim, place)
    }

    /// The place of a cell, both counted from 1.
    pub fn place(&self, dim: u8, cell: u32) -> u32
        requires first { 1 ≤ cell }
        requires last { cell ≤ count self.now.space dim }
        ensures place { cell_at_place self.now.cells dim result ≡ cell }
        ensures first { 1 ≤ result }
        ensures last { result ≤ count self.now.space dim }
    {
        self.numbering.place(dim, cell)
    }
}

impl Graded for Flags {
    ghost space = { λ s. s.space };

    fn cells(&self, dim: u8) -> u32 {
        if dim > 3 {
            0
        } else {
            let layer = &self.facets[dim as usize];
            layer.len() as u32
        }
    }

    fn facets(&self, dim: u8, cell: u32) -> &[u32] {
        let layer = &self.facets[dim as usize];
        layer.get(cell as usize - 1)
    }

    fn cofaces(&self, dim: u8, cell: u32) -> &[u32] {
        let layer = &self.cofaces[dim as usize];
        layer.get(cell as usize - 1)
    }
}

impl Signed for Flags {
    ghost negative = { λ s dim cell facet. negative_in s.minus dim cell facet };

    fn sign(&self, dim: u8, cell: u32, facet: u32) -> i8 {
        if stands(self.minus(dim, cell), facet) {
            -1
        } else {
            1
        }
    }
}

/// For each place of each dimension the places of the facets with the sign -1.
fn minus_layers<S: Signed>(
    alloc: Global,
    signed: &S,
    numbering: &Numbering,
    facets: &[Lists; 4],
) -> Result<[Lists; 4], AllocError>
    requires cells { IsOf (S.space signed.now) numbering.now }
    requires facets { facets.now ≡ renumbered (S.space signed.now) numbering.now }
    ensures { IfOk result
        (λ minus. minus ≡ minus_of (S.space signed.now) (S.negative signed.now) numbering.now) }
{
    let points = point_signs(alloc, signed)?;
    let lines = flag_signs(alloc, signed, 1, &points)?;
    let planes = flag_signs(alloc, signed, 2, &lines)?;
    let rooms = flag_signs(alloc, signed, 3, &planes)?;
    let edges = minus_by_place(alloc, signed, numbering, 1, &facets[1], &lines, &points)?;
    let disks = minus_by_place(alloc, signed, numbering, 2, &facets[2], &planes, &lines)?;
    let solids = minus_by_place(alloc, signed, numbering, 3, &facets[3], &rooms, &planes)?;
    Ok([Lists::new(alloc), edges, disks, solids])
}

/// So many empty lists.
fn empty_lists(alloc: Global, many: u32) -> Result<Lists, AllocError>
    ensures { IfOk result (λ lists. lists ≡ map (λ n. []) (upto many)) }
{
    let mut lists = Lists::new(alloc);
    for _index in 0..many {
        lists.push(&[])?;
    }
    Ok(lists)
}
