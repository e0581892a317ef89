// The search for the cells from which the pairs lead to a cell.
ghost use Rattle.std.specs.Prelude.{◌≡◌, ◌+◌, ◌<◌, ◌≤◌, ℕ, true, IfOk, IfSome, OnOk};
ghost use Rattle.std.specs.List.{list_all};
ghost use Rattle.number_lists.specs.Words.{holds};
ghost use Rattle.face_poset.specs.Poset.{count};
ghost use Rattle.vector_field.specs.Pairs.{is_used};
ghost use Rattle.vector_field.specs.Pairings.{HasCell, IsPairing};
ghost use Rattle.vector_field.specs.Searches.{IsLed, HasSteps, reaches_found};
ghost use Rattle.vector_field.specs.Stages.{first_open};

use crate::pairing::Pairing;
use face_poset::Graded;
use number_lists::FoundNumbers;
use std::alloc::AllocError;

/// The first coface of the cell that is in no pair and has no gradient path to it by another first facet,
/// if there is one. Then the cells that lead to the cell were found.
pub(crate) fn open_coface<G: Graded>(
    graded: &G,
    pairing: &Pairing,
    dim: u8,
    lower: u32,
    found: &mut FoundNumbers,
) -> Result<Option<u32>, AllocError>
    requires dim { dim < 3 }
    requires first { 1 ≤ lower }
    requires last { lower ≤ count (G.space graded.now) dim }
    requires field { IsPairing (G.space graded.now) pairing.now }
    requires most { found.old.most ≡ count (G.space graded.now) dim }
    ensures most { found.new.most ≡ found.old.most }
    ensures coface { IfOk result (λ answer. answer ≡ first_open (G.space graded.now) pairing.now.pairs dim lower) }
    ensures led { IfOk result (λ answer.
        IfSome answer (λ _. IsLed (G.space graded.now) pairing.now.pairs dim lower found.new.found)) }
{
    let uppers = graded.cofaces(dim, lower);
    if are_used(pairing, dim + 1, uppers) {
        return Ok(None);
    }
    find_led(graded, pairing, dim, lower, found)?;
    for upper in uppers {
        if !pairing.is_used(dim + 1, *upper)
            && !has_found(graded.facets(dim + 1, *upper), lower, found)
        {
            return Ok(Some(*upper));
        }
    }
    Ok(None)
}

/// Whether each of these cells is in a pair.
fn are_used(pairing: &Pairing, dim: u8, cells: &[u32]) -> bool
    requires { (cell : ℕ) → holds cells.now cell ≡ true → HasCell pairing.now.counts dim cell }
    ensures { result ≡ list_all (is_used pairing.now.pairs dim) cells.now }
{
    for cell in cells {
        if !pairing.is_used(dim, *cell) {
            return false;
        }
    }
    true
}

/// Whether a facet other than the lower was found.
fn has_found(facets: &[u32], lower: u32, found: &FoundNumbers) -> bool
    requires { (f : ℕ) → holds facets.now f ≡ true → (1 ≤ f) × (f ≤ found.now.most) }
    ensures { result ≡ reaches_found found.now.found lower facets.now }
{
    for facet in facets {
        if *facet != lower && found.holds(*facet) {
            return true;
        }
    }
    false
}

/// Finds the cells from which the pairs lead to `last`.
fn find_led<G: Graded>(
    graded: &G,
    pairing: &Pairing,
    dim: u8,
    last: u32,
    found: &mut FoundNumbers,
) -> Result<(), AllocError>
    requires dim { dim < 3 }
    requires first { 1 ≤ last }
    requires last { last ≤ count (G.space graded.now) dim }
    requires field { IsPairing (G.space graded.now) pairing.now }
    requires most { found.old.most ≡ count (G.space graded.now) dim }
    ensures most { found.new.most ≡ found.old.most }
    ensures led { OnOk result (IsLed (G.space graded.now) pairing.now.pairs dim last found.new.found) }
{
    found.clear();
    found.insert(last)?;
    let mut head = 0;
    while head < found.len() {
        let facet = found.get(head);
        find_steps(graded, pairing, dim, facet, found)?;
        head += 1;
    }
    Ok(())
}

/// Finds the lowers other than the facet whose upper has the facet.
fn find_steps<G: Graded>(
    graded: &G,
    pairing: &Pairing,
    dim: u8,
    facet: u32,
    found: &mut FoundNumbers,
) -> Result<(), AllocError>
    requires dim { dim < 3 }
    requires first { 1 ≤ facet }
    requires last { facet ≤ count (G.space graded.now) dim }
    requires field { IsPairing (G.space graded.now) pairing.now }
    requires most { found.old.most ≡ count (G.space graded.now) dim }
    ensures most { found.new.most ≡ found.old.most }
    ensures steps { OnOk result
        (HasSteps (G.space graded.now) pairing.now.pairs dim facet found.old.found found.new.found) }
{
    let uppers = graded.cofaces(dim, facet);
    for upper in uppers {
        match pairing.lower_of(dim, *upper) {
            Some(lower) => {
                if lower != facet {
                    found.insert(lower)?;
                }
            }
            None => {}
        }
    }
    Ok(())
}
