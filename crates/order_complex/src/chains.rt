// All chains of the order complex of a space.
ghost use Rattle.std.specs.Prelude.{◌≡◌, ◌≤◌, ◌+◌, ◌-◌, [], length, reverse, slice_index_or, IfOk, IfErr, OnOk};
ghost use Rattle.order_complex.specs.Chains.{chains_of, chain_count};
ghost use Rattle.order_complex.specs.Complex.{chain_layers, complex_of, last_of, negative_in, position_of};
ghost use Rattle.order_complex.specs.Complex.{stands_odd, stored_cofaces, stored_facets, HasId, IsRefused};

use crate::coface_lists::CofaceLists;
use crate::counts::ChainCounts;
use crate::faces::cell_of_id;
use crate::facets::FacetLists;
use crate::fault::ChainFault;
use crate::listing::ChainLists;
use crate::searching::find_chain;
use crate::uppers::Uppers;
use face_poset::{Cell, Graded, Signed, Space};
use std::alloc::{AllocError, Global};
use std::marker::Model;

/// All chains of the order complex of a space, which contracts see as the space. Chains of each degree, from 0 to 3,
/// are numbered from 1 in lexicographic order of their ids; a chain of degree k is a list of k + 1 ids of cells, each
/// a face of the next. As a graded set, the facets of a chain are the chains with one entry left out, and the facet
/// with the entry at place i, counted from 0, left out has the sign 1 for even i and -1 for odd i.
#[derive(Drop)]
pub struct Chains<'a> {
    space: &'a Space,
    chains: ChainLists,
    facets: FacetLists,
    cofaces: CofaceLists,
}

impl<'a> Model for Chains<'a> {
    ghost use Rattle.std.specs.Prelude.{◌≡◌, ◌≤◌, List, ℕ};
    ghost use Rattle.face_poset.specs.Poset.{Layers};
    ghost use Rattle.order_complex.specs.Chains.{chain_count};
    ghost use Rattle.order_complex.specs.Complex.{chain_layers, stored_cofaces, stored_facets};

    ghost Value = { Layers };

    ghost view = { λ s. s.space.now };

    ghost invariant = { λ s.
        (s.chains ≡ chain_layers s.space.now)
        × (s.facets ≡ stored_facets s.space.now)
        × (s.cofaces ≡ stored_cofaces s.space.now)
        × (chain_count s.space.now ≤ 4294967295) };
}

impl<'a> Chains<'a> {
    /// All chains of the space. A refusal comes where there are more than the limit, and carries their number.
    pub fn new(alloc: Global, space: &'a Space, limit: u32) -> Result<Chains<'a>, ChainFault>
        ensures chains { IfOk result (λ chains. chains ≡ space.entry.now) }
        ensures within { OnOk result (chain_count space.entry.now ≤ limit) }
        ensures refused { IfErr result (IsRefused (chain_count space.entry.now) limit) }
    {
        let _counts = ChainCounts::new(alloc, space, limit)?;
        match Chains::list(alloc, space) {
            Ok(chains) => Ok(chains),
            Err(_) => Err(ChainFault::Memory),
        }
    }

    /// The chains of a space, of which there are few enough.
    fn list(alloc: Global, space: &'a Space) -> Result<Chains<'a>, AllocError>
        requires { chain_count space.now ≤ 4294967295 }
        ensures { IfOk result (λ chains. chains ≡ space.entry.now) }
    {
        let uppers = Uppers::new(alloc, space)?;
        let chains = uppers.chains(alloc)?;
        let facets = FacetLists::new(alloc, &uppers, &chains)?;
        let cofaces = CofaceLists::new(alloc, &chains, &facets)?;
        Ok(Chains {
            space,
            chains,
            facets,
            cofaces,
        })
    }

    /// How many chains of the degree there are.
    pub fn len(&self, degree: u8) -> u32
        requires { degree ≤ 3 }
        ensures { result ≡ length (chains_of self.now degree) }
    {
        self.chains.len(degree) as u32
    }

    /// The ids of the cells of a chain, which is numbered from 1 in its degree.
    pub fn chain(&self, degree: u8, number: u32) -> &[u32]
        requires degree { degree ≤ 3 }
        requires first { 1 ≤ number }
        requires last { number ≤ length (chains_of self.now degree) }
        ensures chain { result.now ≡ slice_index_or (chains_of self.now degree) (number - 1) [] }
        ensures long { length result.now ≡ degree + 1 }
    {
        self.chains.get(degree, number as usize - 1)
    }

    /// The number of the chain with these ids, counted from 1 in its degree, or none where they are no chain.
    pub fn position(&self, ids: &[u32]) -> Option<u32>
        ensures { result ≡ position_of self.now ids.now }
    {
        if ids.is_empty() || ids.len() > 4 {
            return None;
        }
        let degree = ids.len() as u8 - 1;
        match find_chain(&self.chains, degree, ids) {
            Some(place) => Some(place as u32 + 1),
            None => None,
        }
    }

    /// The last cell of a chain, which is numbered from 1 in its degree.
    pub fn top(&self, degree: u8, number: u32) -> Cell
        requires degree { degree ≤ 3 }
        requires first { 1 ≤ number }
        requires last { number ≤ length (chains_of self.now degree) }
        ensures { HasId self.now result (last_of (slice_index_or (chains_of self.now degree) (number - 1) [])) }
    {
        let chain = self.chain(degree, number);
        cell_of_id(self.space, chain[chain.len() - 1])
    }
}

impl<'a> Graded for Chains<'a> {
    ghost space = { λ s. complex_of s };

    fn cells(&self, dim: u8) -> u32 {
        if dim > 3 {
            0
        } else {
            self.chains.len(dim) as u32
        }
    }

    fn facets(&self, dim: u8, cell: u32) -> &[u32] {
        match dim {
            0 => &[],
            1 => self.chains.get(1, cell as usize - 1),
            2 => &self.facets.triangles()[cell as usize - 1],
            _ => &self.facets.tetrahedra()[cell as usize - 1],
        }
    }

    fn cofaces(&self, dim: u8, cell: u32) -> &[u32] {
        if dim > 2 {
            &[]
        } else {
            self.cofaces.get(dim, cell as usize - 1)
        }
    }
}

impl<'a> Signed for Chains<'a> {
    ghost negative = { λ s dim cell facet. negative_in s dim cell facet };

    fn sign(&self, dim: u8, cell: u32, facet: u32) -> i8 {
        if stands_odd_from_end(self.facets(dim, cell), facet) {
            -1
        } else {
            1
        }
    }
}

/// Whether the place of the facet is odd, counted from 0 at the end of the list.
fn stands_odd_from_end(facets: &[u32], facet: u32) -> bool
    ensures { result ≡ stands_odd (reverse facets.now) facet }
{
    match facets {
        [] => false,
        [rest @ .., last] => *last != facet && !stands_odd_from_end(rest, facet),
    }
}
