// The cycles of 2-cells.
ghost use Rattle.std.specs.Prelude.{◌≡◌, ◌≤◌, ◌++◌, ◌-◌, length, slice_index, true, IfOk, OnOk, ℕ};
ghost use Rattle.face_poset.specs.Poset.{IsCell, IsSpace, count, facets_of};
ghost use Rattle.regular_check.specs.Rules.{each_twice};
ghost use Rattle.regular_check.specs.Tally.{IsTally, IsBlank, other, tally_at};
ghost use Rattle.regular_check.specs.Cycle.{end_of, cycle_along, AreCycles, HasEnds, IsFirstEdge};

use crate::tally::{Tally, clear, tally_cells};
use face_poset::{Graded, Space};
use std::alloc::{AllocError, Global};

/// A step along an edge, which is counted from 1: forward from the first of its two vertices to the
/// second, or backward.
#[derive(Clone, Copy, PartialEq, Eq, Debug)]
pub struct Step {
    pub edge: u32,
    pub forward: bool,
}

/// Steps one after another, and where each part of them ends, after a first 0.
#[derive(Drop)]
pub(crate) struct Cycles {
    pub(crate) ends: Vec<usize>,
    pub(crate) steps: Vec<Step>,
}

/// The cycles of all 2-cells.
pub(crate) fn all_cycles(
    alloc: Global,
    space: &Space,
    tallies: &mut [Tally],
) -> Result<Cycles, AllocError>
    requires room { count space.now 0 ≤ length tallies.old }
    requires blank { IsBlank tallies.old }
    requires ends { HasEnds space.now (count space.now 1) }
    requires twice { (c : ℕ) → 1 ≤ c → c ≤ count space.now 2 → each_twice space.now 1 (facets_of space.now 2 c) ≡ true }
    ensures { IfOk result (λ cycles. AreCycles space.now (count space.now 2) cycles.ends.items cycles.steps.items) }
{
    let mut ends = Vec::new(alloc);
    ends.push(0)?;
    let mut steps = Vec::new(alloc);
    for index in 0..space.cells(2) {
        let edges = space.facets(2, index + 1);
        tally_cells(space, 1, edges, tallies);
        push_cycle(space, edges, tallies, &mut steps)?;
        clear(space, 1, edges, tallies);
        ends.push(steps.len())?;
    }
    Ok(Cycles { ends, steps })
}

/// Puts the cycle along these edges last.
fn push_cycle(
    space: &Space,
    edges: &[u32],
    tallies: &[Tally],
    steps: &mut Vec<Step>,
) -> Result<(), AllocError>
    requires edges { IsCell (count space.now 1) edges.now }
    requires few { count space.now 1 ≤ 60000 }
    requires room { count space.now 0 ≤ length tallies.now }
    requires tally { IsTally space.now 1 edges.now tallies.now }
    requires twice { each_twice space.now 1 edges.now ≡ true }
    requires ends { HasEnds space.now (count space.now 1) }
    requires valid { IsSpace space.now }
    ensures { OnOk result (steps.new.items ≡ steps.old.items ++ cycle_along space.now edges.now) }
{
    let mut edge = first_edge(space, edges);
    let mut vertex = first_end(space, edge);
    for _turn in 0..edges.len() {
        let step = Step {
            edge,
            forward: first_end(space, edge) == vertex,
        };
        steps.push(step)?;
        vertex = step_end(space, step);
        edge = edge_across(tallies, vertex, edge);
    }
    Ok(())
}

/// The first of those edges whose first vertex is the least of all.
fn first_edge(space: &Space, edges: &[u32]) -> u32
    requires edges { IsCell (count space.now 1) edges.now }
    requires ends { HasEnds space.now (count space.now 1) }
    ensures { IsFirstEdge space.now edges.now (length edges.now) result }
{
    let mut best = edges[0];
    for edge in edges {
        if first_end(space, *edge) < first_end(space, best) {
            best = *edge;
        }
    }
    best
}

/// The other of the two edges that are counted at a vertex.
fn edge_across(tallies: &[Tally], vertex: u32, edge: u32) -> u32
    requires first { 1 ≤ vertex }
    requires last { vertex ≤ length tallies.now }
    requires high { edge ≤ (tally_at tallies.now (vertex - 1)).sum }
    requires small { other tallies.now edge vertex ≤ 4294967295 }
    ensures { result ≡ other tallies.now edge vertex }
{
    (tallies[vertex as usize - 1].sum - u64::from(edge)) as u32
}

/// The vertex where a step ends.
fn step_end(space: &Space, step: Step) -> u32
    requires first { 1 ≤ step.edge }
    requires last { step.edge ≤ count space.now 1 }
    requires ends { HasEnds space.now (count space.now 1) }
    ensures { result ≡ end_of space.now step }
{
    let ends = space.facets(1, step.edge);
    if step.forward { ends[1] } else { ends[0] }
}

/// The first vertex of an edge.
fn first_end(space: &Space, edge: u32) -> u32
    requires first { 1 ≤ edge }
    requires last { edge ≤ count space.now 1 }
    requires ends { HasEnds space.now (count space.now 1) }
    ensures { result ≡ slice_index (facets_of space.now 1 edge) 0 }
{
    space.facets(1, edge)[0]
}
