// The field of the pairs inside all cells.
ghost use Rattle.std.specs.Prelude.{◌≡◌, ◌≤◌, [], IfOk, OnOk};
ghost use Rattle.face_poset.specs.Poset.{count};
ghost use Rattle.local_field.specs.Numbered.{IsLocalField};
ghost use Rattle.local_field.specs.Listed.{AreListed, ArePut, AreSolidsPut, IsSolidPut};

use crate::building::{building_of, solid_building};
use crate::cell_ids::flag_of;
use crate::inside::push_inside;
use crate::laws::local_pairs_are_fields;
use face_poset::{Graded, Pair};
use order_complex::Chains;
use regular_check::Regular;
use sphere_collapses::{boundaries_collapse, collapse_of};
use std::alloc::{AllocError, Global};
use vector_field::PairList;

/// The field of the pairs of chains inside the cells of a regular space, by dimension, then by cell.
///
/// The chains with a cell as their last one are put in pairs, up to one: its flag, that is the cell after
/// its first facet, after the first facet of that, and so on. So the chains in no pair are the flags of the
/// cells, each in the dimension of its cell. (Sequential collapses of the boundaries of cells.)
pub fn local_field(
    alloc: Global,
    chains: &Chains<'_>,
    regular: &Regular<'_>,
) -> Result<PairList, AllocError>
    requires { chains.now ≡ regular.now }
    ensures { IfOk result (IsLocalField regular.now) }
{
    local_pairs_are_fields();
    let _solids = regular.space().cells(3);
    let pairs = list_pairs(alloc, chains, regular)?;
    match PairList::from_pairs(alloc, chains, &pairs) {
        Ok(field) => Ok(field),
        Err(_) => Err(AllocError),
    }
}

/// The pairs inside all cells.
fn list_pairs(
    alloc: Global,
    chains: &Chains<'_>,
    regular: &Regular<'_>,
) -> Result<Vec<Pair>, AllocError>
    requires { chains.now ≡ regular.now }
    ensures { IfOk result (λ pairs. AreListed regular.now pairs.items) }
{
    boundaries_collapse();
    let _solids = regular.space().cells(3);
    let mut pairs = Vec::new(alloc);
    push_cells(alloc, chains, regular, 1, &mut pairs)?;
    push_cells(alloc, chains, regular, 2, &mut pairs)?;
    push_solids(alloc, chains, regular, &mut pairs)?;
    Ok(pairs)
}

/// Puts the pairs inside all edges or inside all 2-cells last.
fn push_cells(
    alloc: Global,
    chains: &Chains<'_>,
    regular: &Regular<'_>,
    dim: u8,
    pairs: &mut Vec<Pair>,
) -> Result<(), AllocError>
    requires same { chains.now ≡ regular.now }
    requires dim { dim ≤ 2 }
    ensures { OnOk result
        (ArePut regular.now dim (count regular.now dim) pairs.old.items pairs.new.items) }
{
    let space = regular.space();
    for index in 0..space.cells(dim) {
        let flag = flag_of(alloc, space, dim, index + 1)?;
        let built = building_of(alloc, regular, &flag)?;
        push_inside(alloc, chains, regular, 3, &[], &flag, &built, pairs)?;
    }
    Ok(())
}

/// Puts the pairs inside all 3-cells last.
fn push_solids(
    alloc: Global,
    chains: &Chains<'_>,
    regular: &Regular<'_>,
    pairs: &mut Vec<Pair>,
) -> Result<(), AllocError>
    requires { chains.now ≡ regular.now }
    ensures { OnOk result
        (AreSolidsPut regular.now (count regular.now 3) pairs.old.items pairs.new.items) }
{
    for index in 0..regular.space().cells(3) {
        push_solid(alloc, chains, regular, index + 1, pairs)?;
    }
    Ok(())
}

/// Puts the pairs inside a 3-cell last.
fn push_solid(
    alloc: Global,
    chains: &Chains<'_>,
    regular: &Regular<'_>,
    solid: u32,
    pairs: &mut Vec<Pair>,
) -> Result<(), AllocError>
    requires same { chains.now ≡ regular.now }
    requires first { 1 ≤ solid }
    requires last { solid ≤ count regular.now 3 }
    ensures { OnOk result (IsSolidPut regular.now solid pairs.old.items pairs.new.items) }
{
    let space = regular.space();
    let face = space.facets(3, solid)[0];
    let collapse = collapse_of(alloc, regular, solid, face)?;
    let built = solid_building(alloc, regular, solid, face, &collapse)?;
    let flag = flag_of(alloc, space, 3, solid)?;
    push_inside(alloc, chains, regular, 3, &[], &flag, &built, pairs)?;
    Ok(())
}
