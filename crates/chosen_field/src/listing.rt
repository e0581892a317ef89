// Pairs of one dimension, listed one after another.
ghost use Rattle.std.specs.Prelude.{◌≡◌, ◌-◌, ◌+◌, ◌≤◌, ◌<◌, ℕ, All, filter, length, nat_le, IfOk, OnOk};
ghost use Rattle.face_poset.specs.Poset.{count, facets_of};
ghost use Rattle.chosen_field.specs.Chosen.{in_turn};
ghost use Rattle.chosen_field.specs.Listings.{at, positive_at, links_at, leaving, AreUppers, AreLowers, AreWaits};

use crate::counts::Counts;
use face_poset::{Graded, Pair};
use std::alloc::{AllocError, Global};

/// The pairs of cells of dimension `dim` with their uppers, where `uppers` has for each cell its upper, or
/// 0 where it has none. The next is that with the least lower among those that may come before all that are
/// left, that is where no other facet of the upper is to be listed.
pub(crate) fn list_pairs<G: Graded>(
    alloc: Global,
    graded: &G,
    dim: u8,
    uppers: &[u32],
) -> Result<Vec<Pair>, AllocError>
    requires dim { dim < 3 }
    requires uppers { AreUppers (G.space graded.now) dim uppers.now }
    ensures { IfOk result (λ made.
        made.items ≡ in_turn (G.space graded.now) dim (links_at uppers.now (positive_at uppers.now))) }
{
    let lowers = lowers_of(alloc, graded, dim, uppers)?;
    let mut waits = first_waits(alloc, graded, dim, uppers)?;
    let mut made = Vec::new(alloc);
    while let Some(lower) = waits.first() {
        let upper = uppers[lower as usize - 1];
        made.push(Pair { dim, lower, upper })?;
        pass(&mut waits, graded.cofaces(dim, lower), &lowers)?;
    }
    Ok(made)
}

/// For each cell of dimension `dim + 1` its lower, or 0 where it has none.
fn lowers_of<G: Graded>(
    alloc: Global,
    graded: &G,
    dim: u8,
    uppers: &[u32],
) -> Result<Vec<u32>, AllocError>
    requires dim { dim < 3 }
    requires uppers { AreUppers (G.space graded.now) dim uppers.now }
    ensures len { IfOk result (λ lowers. length lowers.items ≡ count (G.space graded.now) (dim + 1)) }
    ensures lowers { IfOk result (λ lowers. AreLowers uppers.now (length uppers.now) lowers.items) }
{
    let mut lowers = vec![in alloc; 0u32; graded.cells(dim + 1) as usize]?;
    for index in 0..graded.cells(dim) {
        let upper = uppers[index as usize];
        if upper != 0 {
            lowers[upper as usize - 1] = index + 1;
        }
    }
    Ok(lowers)
}

/// For each lower how many facets of its upper are lowers, itself among them.
fn first_waits<G: Graded>(
    alloc: Global,
    graded: &G,
    dim: u8,
    uppers: &[u32],
) -> Result<Counts, AllocError>
    requires dim { dim < 3 }
    requires uppers { AreUppers (G.space graded.now) dim uppers.now }
    ensures waits { IfOk result (AreWaits (facets_of (G.space graded.now) (dim + 1)) uppers.now) }
    ensures all { IfOk result (λ waits. positive_at waits ≡ positive_at uppers.now) }
{
    let mut waits = Counts::new(alloc, uppers.len())?;
    for index in 0..graded.cells(dim) {
        let upper = uppers[index as usize];
        if upper != 0 {
            let number = count_lowers(uppers, graded.facets(dim + 1, upper));
            waits.put(index + 1, number)?;
        }
    }
    Ok(waits)
}

/// How many of these cells have an upper.
fn count_lowers(uppers: &[u32], cells: &[u32]) -> u32
    requires few { length cells.now ≤ 4294967295 }
    requires cells { All (λ cell. (1 ≤ cell) × (cell ≤ length uppers.now)) cells.now }
    ensures { result ≡ length (filter (λ cell. nat_le 1 (at uppers.now cell)) cells.now) }
{
    let mut number = 0u32;
    for cell in cells {
        if uppers[*cell as usize - 1] != 0 {
            number += 1;
        }
    }
    number
}

/// One less at the lower of each of these cells.
fn pass(waits: &mut Counts, cells: &[u32], lowers: &[u32]) -> Result<(), AllocError>
    requires cells { All (λ u. (1 ≤ u) × (u ≤ length lowers.now)) cells.now }
    requires lowers { (u : ℕ) → 1 ≤ u → at lowers.now u ≤ length waits.old }
    ensures len { length waits.new ≡ length waits.old }
    ensures counts { OnOk result
        ((cell : ℕ) → 1 ≤ cell → at waits.new cell ≡ at waits.old cell - leaving lowers.now cells.now cell) }
{
    for cell in cells {
        let lower = lowers[*cell as usize - 1];
        if lower != 0 {
            waits.leave(lower)?;
        }
    }
    Ok(())
}
