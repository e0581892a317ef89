// The places of the sets that lie together in lists.
ghost use Rattle.std.specs.Prelude.{◌≡◌, ◌≢◌, ◌≤◌, ◌<◌, ◌+◌, ◌-◌, ◌*◌, ◌^◌, ◌∷◌, [], ℕ};
ghost use Rattle.std.specs.Prelude.{length, map, true, All, Contains, IfOk, IfErr, OnOk};
ghost use Rattle.std.specs.List.Sorted.{IsStrictlyIncreasing};
ghost use Rattle.facet_reader.specs.SetSpaces.{sets_of};
ghost use Rattle.facet_reader.specs.Simplices.{is_face};
ghost use Rattle.facet_reader.specs.Places.{place_of, AreRows, Adds, IsCrowded, IsRepeat, made_by};

use crate::fault::FacetFault;
use number_lists::{Lists, sort_indexes_once};
use std::alloc::Global;

/// The most cells that a space may have.
pub(crate) const MOST_CELLS: usize = 60_000;

/// Where so many places stand, they are sorted and each is left once.
const FULL: usize = 240_000;

/// The places of the sets of so many numbers that lie together in one of the lists, in increasing
/// order, or `TooManyCells` exactly where there are more than 60,000 of them. No more than 240,000
/// places stand at any time, and a list that is the one before it again costs nothing.
pub(crate) fn list_sets(alloc: Global, rows: &Lists, size: u32) -> Result<Vec<usize>, FacetFault>
    requires low { 1 ≤ size }
    requires high { size ≤ 4 }
    requires digits { All (λ row. All (λ x. x < 65536) row) rows.now }
    ensures sets { IfOk result (λ places. (n : ℕ) → AreRows n rows.now → n < 65536
        → places.items ≡ map place_of (sets_of n (is_face rows.now) (size - 1))) }
    ensures few { IfOk result (λ places. length places.items ≤ 60000) }
    ensures cause { IfErr result (λ fault. fault ≢ FacetFault.Memory → fault ≡ FacetFault.TooManyCells) }
    ensures many { IfErr result (λ fault. fault ≢ FacetFault.Memory
        → (n : ℕ) → AreRows n rows.now → 60000 < length (sets_of n (is_face rows.now) (size - 1))) }
{
    let mut places = Vec::new(alloc);
    for index in 0..rows.len() {
        if is_repeated(rows, index) {
            continue;
        }
        push_sets(rows.get(index), size, 0, &mut places)?;
    }
    sort_indexes_once(&mut places);
    if places.len() > MOST_CELLS {
        return Err(FacetFault::TooManyCells);
    }
    Ok(places)
}

/// Whether a list is the one before it again.
fn is_repeated(rows: &Lists, index: usize) -> bool
    requires { index < length rows.now }
    ensures { result ≡ true → IsRepeat rows.now index }
{
    index > 0 && *rows.get(index) == *rows.get(index - 1)
}

/// Adds the places of the sets of so many of the numbers, after others with the place `high`.
fn push_sets(row: &[u32], size: u32, high: usize, places: &mut Vec<usize>) -> Result<(), FacetFault>
    requires size { size ≤ 4 }
    requires digits { All (λ x. x < 65536) row.now }
    requires room { (high + 1) * 65536 ^ size ≤ 2 ^ 64 }
    ensures ok { OnOk result (Adds (made_by size high row.now) places.old.items places.new.items) }
    ensures cause { IfErr result (λ fault. fault ≢ FacetFault.Memory → fault ≡ FacetFault.TooManyCells) }
    ensures many { IfErr result (λ fault. fault ≢ FacetFault.Memory
        → IsCrowded (made_by size high row.now) places.old.items) }
{
    if size == 0 {
        return add_place(places, high);
    }
    for index in 0..row.len() {
        let place = high * 65_536 + row[index] as usize;
        push_sets(&row[index + 1..], size - 1, place, places)?;
    }
    Ok(())
}

/// Adds a place. Where many stand, each is left once before, and more than 60,000 are refused.
fn add_place(places: &mut Vec<usize>, place: usize) -> Result<(), FacetFault>
    ensures ok { OnOk result (Adds (place ∷ []) places.old.items places.new.items) }
    ensures cause { IfErr result (λ fault. fault ≢ FacetFault.Memory → fault ≡ FacetFault.TooManyCells) }
    ensures many { IfErr result (λ fault. fault ≢ FacetFault.Memory → IsCrowded (place ∷ []) places.old.items) }
{
    if places.len() >= FULL {
        sort_indexes_once(places);
        if places.len() > MOST_CELLS {
            return Err(FacetFault::TooManyCells);
        }
    }
    places.push(place)?;
    Ok(())
}
