ghost use Rattle.std.specs.Prelude.{◌≡◌, ◌<◌, ◌≤◌, ◌+◌, ◌∷◌, ◌++◌, [], true, false, length, slice_index_or};
ghost use Rattle.std.specs.Prelude.{MatchOption, IfOk, OnOk};
ghost use Rattle.std.specs.List.{list_any};
ghost use Rattle.number_lists.specs.Members.{In};
ghost use Rattle.number_lists.specs.Words.{holds};
ghost use Rattle.face_poset.specs.declared.cells.Pair.{Pair};
ghost use Rattle.vector_field.specs.Pairs.{pair, is_used, counts_of, IsPartner};
ghost use Rattle.vector_field.specs.Pairings.{has_upper, HasCell, HasCells, inserted};

use crate::cell_map::CellMap;
use crate::partner::Partner;
use face_poset::{Graded, Pair};
use number_lists::FoundNumbers;
use std::alloc::{AllocError, Global};
use std::marker::Model;

/// Pairs of cells of a graded set, with a note at each cell of the one that it is paired with. Contracts
/// see them as the list of pairs with the numbers of cells.
#[derive(Drop)]
pub(crate) struct Pairing {
    pairs: Vec<Pair>,
    uppers: CellMap,
    lowers: CellMap,
}

impl Model for Pairing {
    ghost use Rattle.vector_field.specs.Pairs.{Field};

    ghost Value = { Field };

    ghost use Rattle.vector_field.specs.Pairings.{lengths, IsNoted};

    ghost view = { λ s. record { pairs = s.pairs.items; counts = lengths s.uppers } };

    ghost invariant = { λ s. IsNoted s.pairs.items s.uppers s.lowers };
}

impl Pairing {
    /// No pair yet of cells of the graded set.
    pub(crate) fn new<G: Graded>(alloc: Global, graded: &G) -> Result<Pairing, AllocError>
        ensures pairs { IfOk result (λ field. field.pairs ≡ []) }
        ensures counts { IfOk result (λ field. field.counts ≡ counts_of (G.space graded.now)) }
    {
        let uppers = CellMap::new(alloc, graded)?;
        let lowers = CellMap::new(alloc, graded)?;
        Ok(Pairing {
            pairs: Vec::new(alloc),
            uppers,
            lowers,
        })
    }

    /// How many pairs there are.
    pub(crate) fn len(&self) -> u32
        ensures { result ≡ length self.now.pairs }
    {
        self.pairs.len() as u32
    }

    /// The pair at an index, counted from 0.
    pub(crate) fn get(&self, index: u32) -> Pair
        requires { index < length self.now.pairs }
        ensures { result ≡ slice_index_or self.now.pairs index result }
    {
        self.pairs[index as usize]
    }

    /// The lower, of dimension `dim`, of the pair with this upper, if there is one.
    pub(crate) fn lower_of(&self, dim: u8, cell: u32) -> Option<u32>
        requires dim { dim < 3 }
        requires cell { HasCell self.now.counts (dim + 1) cell }
        ensures { MatchOption result (list_any (has_upper dim cell) self.now.pairs ≡ false)
            (λ lower. In (pair dim lower cell) self.now.pairs) }
    {
        self.lowers.get(dim + 1, cell)
    }

    /// How a cell stands. A cell that is not there is in no pair.
    pub(crate) fn partner(&self, dim: u8, cell: u32) -> Partner
        ensures { IsPartner self.now.pairs dim cell result }
    {
        if !self.uppers.has(dim, cell) {
            return Partner::Critical;
        }
        match self.uppers.get(dim, cell) {
            Some(upper) => Partner::Upper(upper),
            None => match self.lowers.get(dim, cell) {
                Some(lower) => Partner::Lower(lower),
                None => Partner::Critical,
            },
        }
    }

    /// Whether a cell is in a pair.
    pub(crate) fn is_used(&self, dim: u8, cell: u32) -> bool
        requires { HasCell self.now.counts dim cell }
        ensures { result ≡ is_used self.now.pairs dim cell }
    {
        self.uppers.get(dim, cell).is_some() || self.lowers.get(dim, cell).is_some()
    }

    /// Puts a pair last.
    pub(crate) fn push(&mut self, pair: Pair) -> Result<(), AllocError>
        requires { HasCells self.old.counts pair }
        ensures counts { self.new.counts ≡ self.old.counts }
        ensures pairs { OnOk result (self.new.pairs ≡ self.old.pairs ++ pair ∷ []) }
    {
        if self.pairs.len() >= 4_294_967_295 {
            return Err(AllocError);
        }
        self.pairs.push(pair)?;
        self.uppers.set(pair.dim, pair.lower, pair.upper);
        self.lowers.set(pair.dim + 1, pair.upper, pair.lower);
        Ok(())
    }

    /// Puts these pairs last.
    pub(crate) fn extend(&mut self, pairs: &[Pair]) -> Result<(), AllocError>
        requires { (p : Pair) → In p pairs.now → HasCells self.old.counts p }
        ensures counts { self.new.counts ≡ self.old.counts }
        ensures pairs { OnOk result (self.new.pairs ≡ self.old.pairs ++ pairs.now) }
    {
        for pair in pairs {
            self.push(*pair)?;
        }
        Ok(())
    }

    /// Puts a pair before those of its dimension whose lowers were found, and after all others.
    pub(crate) fn insert(
        &mut self,
        alloc: Global,
        pair: Pair,
        found: &FoundNumbers,
    ) -> Result<(), AllocError>
        requires cells { HasCells self.old.counts pair }
        requires lowers { (p : Pair) → In p self.old.pairs → p.dim ≡ pair.dim
            → (1 ≤ p.lower) × (p.lower ≤ found.now.most) }
        requires unused { is_used self.old.pairs pair.dim pair.lower ≡ false }
        requires found { holds found.now.found pair.lower ≡ true }
        ensures counts { self.new.counts ≡ self.old.counts }
        ensures pairs { OnOk result (self.new.pairs ≡ inserted self.old.pairs pair found.now.found) }
    {
        if found.len() == 1 {
            return self.push(pair);
        }
        if self.pairs.len() >= 4_294_967_295 {
            return Err(AllocError);
        }
        let pairs = inserted(alloc, &self.pairs, pair, found)?;
        self.pairs = pairs;
        self.uppers.set(pair.dim, pair.lower, pair.upper);
        self.lowers.set(pair.dim + 1, pair.upper, pair.lower);
        Ok(())
    }
}

/// The pairs with one more, before those of its dimension whose lowers were found, and after all others.
fn inserted(
    alloc: Global,
    pairs: &[Pair],
    pair: Pair,
    found: &FoundNumbers,
) -> Result<Vec<Pair>, AllocError>
    requires { (p : Pair) → In p pairs.now → p.dim ≡ pair.dim → (1 ≤ p.lower) × (p.lower ≤ found.now.most) }
    ensures { IfOk result (λ all. all.items ≡ inserted pairs.now pair found.now.found) }
{
    let mut first = Vec::new(alloc);
    let mut late = Vec::new(alloc);
    for other in pairs {
        if other.dim == pair.dim && found.holds(other.lower) {
            late.push(*other)?;
        } else {
            first.push(*other)?;
        }
    }
    first.push(pair)?;
    first.extend_from_slice(&late)?;
    Ok(first)
}
