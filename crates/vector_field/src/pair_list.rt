ghost use Rattle.std.specs.Prelude.{◌≡◌, ◌<◌, length, slice_index, slice_index_or, IfOk, IfErr};
ghost use Rattle.std.specs.List.Sorted.{IsStrictlyIncreasing};
ghost use Rattle.vector_field.specs.Pairs.{counts_of, critical_of, first_bad, unpaired, IsFault, IsFieldOf};
ghost use Rattle.vector_field.specs.Pairs.{IsPartner, IsValid};
ghost use Rattle.vector_field.specs.Stages.{filled};

use crate::checking::{fits, last_places};
use crate::fault::PairFault;
use crate::filling::fill;
use crate::pairing::Pairing;
use crate::partner::Partner;
use face_poset::{Graded, Pair};
use number_lists::Lists;
use std::alloc::{AllocError, Global};
use std::marker::Model;

/// A field of pairs: a list in which no cell is in two pairs, and each other facet of a pair's upper that
/// is the lower of a pair of the same dimension stands earlier. Contracts see it as the list, with how
/// many cells of dimensions 0 to 3 there are.
#[derive(Drop)]
pub struct PairList {
    pairing: Pairing,
    critical: Lists,
}

impl Model for PairList {
    ghost use Rattle.std.specs.Prelude.{◌≡◌, ◌∷◌, [], length, map};
    ghost use Rattle.vector_field.specs.Pairs.{Field, critical_of};

    ghost Value = { Field };

    ghost view = { λ s. s.pairing };

    ghost invariant = { λ s.
        (length s.pairing.counts ≡ 4) × (s.critical ≡ map (critical_of s.pairing) (0 ∷ 1 ∷ 2 ∷ 3 ∷ [])) };
}

impl PairList {
    /// The field of these pairs, or why they are none of the graded set.
    ///
    /// A pair is bad where it is out of range or not incident, uses a cell of an earlier pair, or has an
    /// other facet of its upper that is the lower of a later pair of the same dimension.
    pub fn from_pairs<G: Graded>(
        alloc: Global,
        graded: &G,
        pairs: &[Pair],
    ) -> Result<PairList, PairFault>
        ensures pairs { IfOk result (λ field. field.pairs ≡ pairs.now) }
        ensures valid { IfOk result (IsFieldOf (G.space graded.now)) }
        ensures fault { IfErr result (IsFault (first_bad (G.space graded.now) pairs.now)) }
    {
        if pairs.len() > 4_294_967_295 {
            return Err(PairFault::Memory);
        }
        let last = last_places(alloc, graded, pairs)?;
        let mut pairing = Pairing::new(alloc, graded)?;
        for index in 0..pairs.len() {
            if !fits(graded, &pairing, &last, pairs, index) {
                return Err(PairFault::Bad(index as u32));
            }
            pairing.push(pairs[index])?;
        }
        let field = PairList::from_pairing(alloc, graded, pairing)?;
        Ok(field)
    }

    /// The field with more pairs of cells of dimension `dim` with their cofaces, until each two of these that
    /// stay critical have a gradient path from the upper to the lower by another first facet.
    ///
    /// The cells are visited by number. Each that is in no pair is paired with its first coface that is in no
    /// pair and from which no gradient path leads to the cell by another first facet. The pair is put before
    /// those pairs of the dimension whose lowers lead to its lower, and after all others.
    pub fn filled<G: Graded>(
        self,
        alloc: Global,
        graded: &G,
        dim: u8,
    ) -> Result<PairList, AllocError>
        requires dim { dim < 3 }
        requires field { IsFieldOf (G.space graded.now) self }
        ensures pairs { IfOk result (λ field. field.pairs ≡ filled (G.space graded.now) dim self.pairs) }
        ensures valid { IfOk result (IsFieldOf (G.space graded.now)) }
    {
        let mut pairing = self.pairing;
        fill(alloc, graded, dim, &mut pairing)?;
        let field = PairList::from_pairing(alloc, graded, pairing)?;
        Ok(field)
    }

    /// The field of these pairs of cells of the graded set.
    pub(crate) fn from_pairing<G: Graded>(
        alloc: Global,
        graded: &G,
        pairing: Pairing,
    ) -> Result<PairList, AllocError>
        requires { pairing.counts ≡ counts_of (G.space graded.now) }
        ensures { IfOk result (λ field. field ≡ pairing) }
    {
        let vertices = unpaired(alloc, &pairing, 0, graded.cells(0))?;
        let edges = unpaired(alloc, &pairing, 1, graded.cells(1))?;
        let disks = unpaired(alloc, &pairing, 2, graded.cells(2))?;
        let solids = unpaired(alloc, &pairing, 3, graded.cells(3))?;
        let mut critical = Lists::new(alloc);
        critical.push(&vertices)?;
        critical.push(&edges)?;
        critical.push(&disks)?;
        critical.push(&solids)?;
        Ok(PairList { pairing, critical })
    }

    /// The pairs with the partner of each cell.
    pub(crate) fn pairing(&self) -> &Pairing
        ensures { result.now ≡ self.now }
    {
        &self.pairing
    }

    /// How many pairs there are.
    pub fn len(&self) -> u32
        ensures { result ≡ length self.now.pairs }
    {
        self.pairing.len()
    }

    /// The pair at an index, counted from 0.
    pub fn get(&self, index: u32) -> Pair
        requires { index < length self.now.pairs }
        ensures { result ≡ slice_index_or self.now.pairs index result }
    {
        self.pairing.get(index)
    }

    /// The cells of a dimension that are in no pair, in increasing order.
    pub fn critical(&self, dim: u8) -> &[u32]
        ensures cells { result.now ≡ critical_of self.now dim }
        ensures rise { IsStrictlyIncreasing result.now }
    {
        let critical = &self.critical;
        if dim as usize >= critical.len() {
            return &[];
        }
        critical.get(dim as usize)
    }

    /// How a cell stands, which is counted from 1. A cell that is not there is in no pair, and critical.
    pub fn partner(&self, dim: u8, cell: u32) -> Partner
        ensures { IsPartner self.now.pairs dim cell result }
    {
        self.pairing.partner(dim, cell)
    }
}

/// The cells from 1 to `most` of a dimension that are in no pair.
fn unpaired(alloc: Global, pairing: &Pairing, dim: u8, most: u32) -> Result<Vec<u32>, AllocError>
    requires { most ≡ slice_index pairing.now.counts dim }
    ensures { IfOk result (λ cells. cells.items ≡ unpaired pairing.now.pairs dim most) }
{
    let mut cells = Vec::new(alloc);
    for index in 0..most {
        if !pairing.is_used(dim, index + 1) {
            cells.push(index + 1)?;
        }
    }
    Ok(cells)
}
