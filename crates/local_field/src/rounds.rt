// The buildings of 2-cells: once round, from the step behind an edge to the one before it.
ghost use Rattle.std.specs.Prelude.{◌≡◌, ◌≤◌, ◌+◌, ◌++◌, ℕ, All, length, map, take, drop, slice_index, IfOk, OnOk};
ghost use Rattle.face_poset.specs.Poset.{count, facets_of, IsSpace};
ghost use Rattle.number_lists.specs.Words.{holds};
ghost use Rattle.regular_check.specs.Cycle.{start_of, end_of};
ghost use Rattle.local_field.specs.Buildings.{number_at, disk_building, steps_after, steps_before};
ghost use Rattle.local_field.specs.Listed.{step_pair, IsOnEdge};

use crate::building::Built;
use crate::cell_ids::id_of;
use face_poset::{Graded, Space};
use regular_check::{Regular, Step, cycles_go_round};
use std::alloc::{AllocError, Global};

/// The building of a 2-cell without one of its edges: the vertex where the step behind the edge begins, and
/// the end and the edge of this step and of all that follow.
pub(crate) fn disk_building(
    alloc: Global,
    regular: &Regular<'_>,
    disk: u32,
    edge: u32,
) -> Result<Built, AllocError>
    requires first { 1 ≤ disk }
    requires last { disk ≤ count regular.now 2 }
    ensures { IfOk result
        (λ built. (f : ℕ) → number_at regular.now f ≡ edge → built ≡ disk_building regular.now disk f) }
{
    cycles_go_round();
    let space = regular.space();
    let _edges = space.cells(1);
    let steps = regular.cycle_of(disk);
    let place = place_of(steps, edge);
    let before = &steps[..place];
    let after = behind(steps, place);
    let mut pairs = Vec::new(alloc);
    push_steps(space, after, &mut pairs)?;
    push_steps(space, before, &mut pairs)?;
    Ok(Built::new(first_start(space, after, before), pairs))
}

/// The index of the first step along an edge; their number where there is none.
fn place_of(steps: &[Step], edge: u32) -> usize
    ensures within { result ≤ length steps.now }
    ensures before { steps_before edge steps.now ≡ take result steps.now }
    ensures after { steps_after edge steps.now ≡ drop (result + 1) steps.now }
{
    for index in 0..steps.len() {
        if steps[index].edge == edge {
            return index;
        }
    }
    steps.len()
}

/// The steps behind the one with an index; none where there is no such step.
fn behind(steps: &[Step], index: usize) -> &[Step]
    ensures { result.now ≡ drop (index + 1) steps.now }
{
    if index < steps.len() {
        &steps[index + 1..]
    } else {
        &[]
    }
}

/// Puts the end and the edge of each step last.
fn push_steps(space: &Space, steps: &[Step], pairs: &mut Vec<(u32, u32)>) -> Result<(), AllocError>
    requires real { All (IsOnEdge space.now) steps.now }
    ensures { OnOk result (pairs.new.items ≡ pairs.old.items ++ map (step_pair space.now) steps.now) }
{
    for step in steps {
        let ends = space.facets(1, step.edge);
        let end = if step.forward { ends[1] } else { ends[0] };
        pairs.push((end, id_of(space, 1, step.edge)))?;
    }
    Ok(())
}

/// The vertex where the first of these steps begins, and then of those; 0 where there is none.
fn first_start(space: &Space, steps: &[Step], others: &[Step]) -> u32
    requires real { All (IsOnEdge space.now) steps.now }
    requires others { All (IsOnEdge space.now) others.now }
    ensures { result ≡ slice_index (map (start_of space.now) (steps.now ++ others.now)) 0 }
{
    if steps.len() > 0 {
        start_of(space, steps[0])
    } else if others.len() > 0 {
        start_of(space, others[0])
    } else {
        0
    }
}

/// The vertex where a step begins.
fn start_of(space: &Space, step: Step) -> u32
    requires { IsOnEdge space.now step }
    ensures { result ≡ start_of space.now step }
{
    let ends = space.facets(1, step.edge);
    if step.forward { ends[0] } else { ends[1] }
}
