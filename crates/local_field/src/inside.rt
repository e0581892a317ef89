// The pairs inside one cell.
ghost use Rattle.std.specs.Prelude.{◌≡◌, ◌≤◌, ◌+◌, ◌-◌, ◌++◌, ◌∷◌, [], length, IfOk, OnOk};
ghost use Rattle.local_field.specs.Towers.{Building};
ghost use Rattle.local_field.specs.Inside.{IsFull};
ghost use Rattle.local_field.specs.Buildings.{dim_at, is_below};
ghost use Rattle.local_field.specs.Listed.{number_under, FitsTop, IsPut};
ghost use Rattle.vector_field.specs.Pairs.{pair};

use crate::building::{Built, building_of};
use crate::cell_ids::{flag_at, put_first};
use face_poset::{Graded, Pair};
use order_complex::Chains;
use regular_check::Regular;
use std::alloc::{AllocError, Global};

/// Puts the pairs inside the top of a tower last, each tower under the cells `over`, of which the first is
/// just above. The building is that for the top without the next cell of the tower.
pub(crate) fn push_inside(
    alloc: Global,
    chains: &Chains<'_>,
    regular: &Regular<'_>,
    depth: u8,
    over: &[u32],
    tower: &[u32],
    built: &Built,
    pairs: &mut Vec<Pair>,
) -> Result<(), AllocError>
    requires same { chains.now ≡ regular.now }
    requires full { IsFull (is_below regular.now) (dim_at regular.now) tower.now }
    requires few { length tower.now + length over.now ≤ 4 }
    requires fits { FitsTop regular.now tower.now built.now }
    ensures { OnOk result
        (IsPut regular.now depth over.now tower.now built.now pairs.old.items pairs.new.items) }
{
    if depth == 0 || tower.len() < 2 {
        return Ok(());
    }
    let space = regular.space();
    let _vertices = space.cells(0);
    let above = put_first(alloc, tower[0], over)?;
    push_pair(alloc, chains, &above, &[], &[built.root()], pairs)?;
    for index in 0..built.pairs().len() {
        let (lower, upper) = built.pairs()[index];
        let flag = flag_at(alloc, space, lower)?;
        let raised = put_first(alloc, upper, &flag)?;
        let lower_built = building_of(alloc, regular, &flag)?;
        push_inside(
            alloc,
            chains,
            regular,
            depth - 1,
            &above,
            &flag,
            &lower_built,
            pairs,
        )?;
        let upper_built = building_of(alloc, regular, &raised)?;
        push_inside(
            alloc,
            chains,
            regular,
            depth - 1,
            &above,
            &raised,
            &upper_built,
            pairs,
        )?;
        push_pair(alloc, chains, &above, &flag, &raised, pairs)?;
    }
    let rest = &tower[1..];
    let rest_built = building_of(alloc, regular, rest)?;
    push_inside(
        alloc,
        chains,
        regular,
        depth - 1,
        &above,
        rest,
        &rest_built,
        pairs,
    )?;
    Ok(())
}

/// Puts the pair of two towers last, each under the cells `over`.
fn push_pair(
    alloc: Global,
    chains: &Chains<'_>,
    over: &[u32],
    low: &[u32],
    up: &[u32],
    pairs: &mut Vec<Pair>,
) -> Result<(), AllocError>
    requires some { 1 ≤ length over.now }
    requires few { length up.now + length over.now ≤ 4 }
    requires low { length low.now ≤ length up.now }
    ensures { OnOk result (pairs.new.items
        ≡ pairs.old.items
        ++ pair (length low.now + length over.now - 1) (number_under chains.now over.now low.now)
        (number_under chains.now over.now up.now)
        ∷ []) }
{
    let lower = number_under(alloc, chains, over, low)?;
    let upper = number_under(alloc, chains, over, up)?;
    pairs.push(Pair {
        dim: (low.len() + over.len() - 1) as u8,
        lower,
        upper,
    })?;
    Ok(())
}

/// The number of the chain that goes up a tower and on along the cells `over`, or 0 where it is none.
pub(crate) fn number_under(
    alloc: Global,
    chains: &Chains<'_>,
    over: &[u32],
    tower: &[u32],
) -> Result<u32, AllocError>
    requires some { 1 ≤ length tower.now + length over.now }
    requires few { length tower.now + length over.now ≤ 4 }
    ensures { IfOk result (λ number. number ≡ number_under chains.now over.now tower.now) }
{
    let mut ids = Vec::from_slice(alloc, tower)?;
    ids.reverse();
    ids.extend_from_slice(over)?;
    Ok(chains.position(&ids).unwrap_or(0))
}
