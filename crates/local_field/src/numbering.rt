// The cells numbered anew, by the chain numbers of their flags.
ghost use Rattle.std.specs.Prelude.{◌≡◌, ◌≤◌, ◌∷◌, ◌++◌, [], All, Contains, length, map, IfOk, OnOk};
ghost use Rattle.std.specs.List.Sorted.{IsStrictlyIncreasing};
ghost use Rattle.order_complex.specs.Chains.{chains_of};
ghost use Rattle.local_field.specs.Numbered.{flag_numbers};
ghost use Rattle.sphere_collapses.specs.Places.{ArePlaces};
ghost use Rattle.local_field.specs.Flags.{top_number, flag_cells, all_flag_cells};
ghost use Rattle.local_field.specs.Flags.{cells_at, cell_at_place, IsOf, IsOrderPut};

use crate::cell_ids::flag_of;
use crate::inside::number_under;
use face_poset::Graded;
use number_lists::{Lists, sort_once};
use order_complex::{Chains, chains_are_sequences, faces_are_below};
use sphere_collapses::place_of;
use std::alloc::{AllocError, Global};
use std::marker::Model;

/// For each dimension the cells in a new order, and the place of each. Contracts see the cells.
#[derive(Drop)]
pub(crate) struct Numbering {
    cells: Lists,
    places: Lists,
}

impl Model for Numbering {
    ghost use Rattle.std.specs.Prelude.{List, ℕ};
    ghost use Rattle.local_field.specs.Flags.{HasPlaces};

    ghost Value = { List (List ℕ) };

    ghost view = { λ s. s.cells };

    ghost invariant = { λ s. HasPlaces s.cells s.places };
}

impl Numbering {
    /// The cells of each dimension in the order of the numbers of their flags.
    pub(crate) fn new<G: Graded>(
        alloc: Global,
        chains: &Chains<'_>,
        graded: &G,
    ) -> Result<Numbering, AllocError>
        requires { chains.now ≡ G.space graded.now }
        ensures cells { IfOk result (λ cells. cells ≡ all_flag_cells (G.space graded.now)) }
        ensures all { IfOk result (IsOf (G.space graded.now)) }
    {
        let _vertices = graded.cells(0);
        let mut cells = Lists::new(alloc);
        let mut places = Lists::new(alloc);
        push_order(alloc, chains, graded, 0, &mut cells, &mut places)?;
        push_order(alloc, chains, graded, 1, &mut cells, &mut places)?;
        push_order(alloc, chains, graded, 2, &mut cells, &mut places)?;
        push_order(alloc, chains, graded, 3, &mut cells, &mut places)?;
        Ok(Numbering { cells, places })
    }

    /// The cell at a place.
    pub(crate) fn cell(&self, dim: u8, place: u32) -> u32
        requires first { 1 ≤ place }
        requires last { place ≤ length (cells_at self.now dim) }
        ensures cell { result ≡ cell_at_place self.now dim place }
        ensures first { 1 ≤ result }
        ensures last { result ≤ length (cells_at self.now dim) }
    {
        self.cells.get(dim as usize)[place as usize - 1]
    }

    /// The place of a cell.
    pub(crate) fn place(&self, dim: u8, cell: u32) -> u32
        requires first { 1 ≤ cell }
        requires last { cell ≤ length (cells_at self.now dim) }
        ensures place { cell_at_place self.now dim result ≡ cell }
        ensures first { 1 ≤ result }
        ensures last { result ≤ length (cells_at self.now dim) }
    {
        self.places.get(dim as usize)[cell as usize - 1]
    }
}

/// Puts the cells of a dimension last, in the order of the numbers of their flags, and the place of each.
fn push_order<G: Graded>(
    alloc: Global,
    chains: &Chains<'_>,
    graded: &G,
    dim: u8,
    cells: &mut Lists,
    places: &mut Lists,
) -> Result<(), AllocError>
    requires same { chains.now ≡ G.space graded.now }
    requires dim { dim ≤ 3 }
    ensures cells { OnOk result (cells.new ≡ cells.old ++ flag_cells (G.space graded.now) dim ∷ []) }
    ensures places { OnOk result (IsOrderPut (G.space graded.now) dim places.old places.new) }
{
    faces_are_below();
    chains_are_sequences();
    let _cells = graded.cells(dim);
    let numbers = number_flags(alloc, chains, graded, dim)?;
    let mut sorted = Vec::from_slice(alloc, &numbers)?;
    sort_once(&mut sorted);
    let tops = list_tops(alloc, chains, dim, &sorted)?;
    cells.push(&tops)?;
    let found = find_places(alloc, &numbers, &sorted)?;
    places.push(&found)?;
    Ok(())
}

/// The numbers of the flags of the cells of a dimension.
fn number_flags<G: Graded>(
    alloc: Global,
    chains: &Chains<'_>,
    graded: &G,
    dim: u8,
) -> Result<Vec<u32>, AllocError>
    requires same { chains.now ≡ G.space graded.now }
    requires dim { dim ≤ 3 }
    ensures { IfOk result (λ numbers. numbers.items ≡ flag_numbers (G.space graded.now) dim) }
{
    let mut numbers = Vec::new(alloc);
    for index in 0..graded.cells(dim) {
        let flag = flag_of(alloc, graded, dim, index + 1)?;
        numbers.push(number_under(alloc, chains, &[], &flag)?)?;
    }
    Ok(numbers)
}

/// The numbers of the last cells of some chains, in their dimensions.
fn list_tops(
    alloc: Global,
    chains: &Chains<'_>,
    degree: u8,
    numbers: &[u32],
) -> Result<Vec<u32>, AllocError>
    requires degree { degree ≤ 3 }
    requires numbers { All (λ n. (1 ≤ n) × (n ≤ length (chains_of chains.now degree))) numbers.now }
    ensures { IfOk result (λ tops. tops.items ≡ map (top_number chains.now degree) numbers.now) }
{
    let mut tops = Vec::new(alloc);
    for number in numbers {
        let top = chains.top(degree, *number);
        tops.push(top.number)?;
    }
    Ok(tops)
}

/// The places of some numbers in a sorted list, counted from 1.
fn find_places(alloc: Global, numbers: &[u32], sorted: &[u32]) -> Result<Vec<u32>, AllocError>
    requires rises { IsStrictlyIncreasing sorted.now }
    requires few { length sorted.now ≤ 4294967295 }
    requires there { All (Contains sorted.now) numbers.now }
    ensures { IfOk result (λ places. ArePlaces sorted.now numbers.now places.items) }
{
    let mut places = Vec::new(alloc);
    for number in numbers {
        places.push(place_of(*number, sorted))?;
    }
    Ok(places)
}
