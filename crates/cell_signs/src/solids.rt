// The signs of 3-cells.
ghost use Rattle.std.specs.Prelude.{◌≡◌, ◌≤◌, ℕ, Bool, true, length, map, IfOk};
ghost use Rattle.number_lists.specs.Words.{holds};
ghost use Rattle.face_poset.specs.Poset.{IsCell, count, facets_of};
ghost use Rattle.regular_check.specs.Cycle.{cycle};
ghost use Rattle.regular_check.specs.Rules.{each_twice};
ghost use Rattle.cell_signs.specs.Along.{goes_back, across, unlike, cancelling, solid_negative, PairsFit};
ghost use Rattle.cell_signs.specs.Minus.{IsAlong, AreAlong};

use crate::put::{list_minus, put_sign};
use face_poset::{Graded, Space};
use number_lists::Lists;
use regular_check::Regular;
use sphere_collapses::{PairSeq, collapse_of};
use std::alloc::{AllocError, Global};

/// For each 3-cell the 2-cells that have the sign -1.
pub(crate) fn list_solids(alloc: Global, regular: &Regular<'_>) -> Result<Lists, AllocError>
    ensures { IfOk result (AreAlong regular.now (count regular.now 3)) }
{
    let mut lists = Lists::new(alloc);
    for index in 0..regular.space().cells(3) {
        let minus = list_solid(alloc, regular, index + 1)?;
        lists.push(&minus)?;
    }
    Ok(lists)
}

/// The 2-cells of a 3-cell that have the sign -1.
fn list_solid(alloc: Global, regular: &Regular<'_>, cell: u32) -> Result<Vec<u32>, AllocError>
    requires first { 1 ≤ cell }
    requires last { cell ≤ count regular.now 3 }
    ensures { IfOk result (λ minus. IsAlong regular.now cell minus.items) }
{
    let disks = regular.space().facets(3, cell);
    let pairs = collapse_of(alloc, regular, cell, disks[0])?;
    let signs = solid_signs(alloc, regular, cell, &pairs)?;
    list_minus(alloc, disks, &signs)
}

/// For each 2-cell of a 3-cell whether its sign is -1. At first no sign is; then each pair of an edge and a
/// 2-cell gives the 2-cell the sign that cancels, over the edge, with the other 2-cell there.
fn solid_signs(
    alloc: Global,
    regular: &Regular<'_>,
    cell: u32,
    pairs: &PairSeq,
) -> Result<Vec<bool>, AllocError>
    requires first { 1 ≤ cell }
    requires last { cell ≤ count regular.now 3 }
    requires fit { PairsFit regular.now cell pairs.now }
    ensures { IfOk result
        (λ signs. signs.items ≡ map (solid_negative regular.now cell pairs.now) (facets_of regular.now 3 cell)) }
{
    let disks = regular.space().facets(3, cell);
    let mut signs = vec![in alloc; false; disks.len()]?;
    for index in 0..pairs.len() {
        let pair = pairs.get(index);
        if pair.dim == 1 {
            let sign = cancelling_sign(regular, disks, &signs, pair.lower, pair.upper);
            put_sign(&mut signs, disks, pair.upper, sign);
        }
    }
    Ok(signs)
}

/// The sign of a 2-cell that cancels, over the edge, with the other of these 2-cells there.
fn cancelling_sign(
    regular: &Regular<'_>,
    disks: &[u32],
    signs: &[bool],
    edge: u32,
    disk: u32,
) -> bool
    requires disks { IsCell (count regular.now 2) disks.now }
    requires twice { each_twice regular.now 2 disks.now ≡ true }
    requires disk { holds disks.now disk ≡ true }
    requires edge { holds (facets_of regular.now 2 disk) edge ≡ true }
    requires same { length signs.now ≡ length disks.now }
    ensures { (values : ℕ → Bool)
        → signs.now ≡ map values disks.now
        → result ≡ cancelling regular.now disks.now values edge disk }
{
    let other = find_across(regular.space(), disks, edge, disk);
    if let Ok(place) = disks.binary_search(&other) {
        let both = is_one(signs[place], is_back(regular, other, edge));
        !is_one(both, is_back(regular, disk, edge))
    } else {
        false
    }
}

/// The first of these 2-cells at the edge that is not this one, or 0.
fn find_across(space: &Space, disks: &[u32], edge: u32, disk: u32) -> u32
    requires disks { IsCell (count space.now 2) disks.now }
    ensures { result ≡ across space.now disks.now edge disk }
{
    for other in disks {
        if *other != disk && space.facets(2, *other).contains(&edge) {
            return *other;
        }
    }
    0
}

/// Whether the cycle of a 2-cell goes backward along the edge.
fn is_back(regular: &Regular<'_>, disk: u32, edge: u32) -> bool
    requires first { 1 ≤ disk }
    requires last { disk ≤ count regular.now 2 }
    ensures { result ≡ goes_back (cycle regular.now disk) edge }
{
    regular
        .cycle_of(disk)
        .iter()
        .any(|step| step.edge == edge && !step.forward)
}

/// Whether exactly one of them is true.
fn is_one(a: bool, b: bool) -> bool
    ensures { result ≡ unlike a b }
{
    if a { !b } else { b }
}
