ghost use Rattle.std.specs.Prelude.{◌≡◌, ◌≤◌, IfOk, MatchResult};
ghost use Rattle.face_poset.specs.Poset.{count};
ghost use Rattle.regular_check.specs.Rules.{IsRegular, IsFault, first_fault};
ghost use Rattle.regular_check.specs.Cycle.{cycle};
ghost use Rattle.regular_check.specs.Components.{components_of};

use crate::components::{Components, find_components};
use crate::cycles::{Cycles, Step, all_cycles};
use crate::fault::RegularFault;
use crate::rules::{check_disks, check_edges, check_solids};
use crate::tally::NONE;
use face_poset::{Graded, Space};
use number_lists::FoundNumbers;
use std::alloc::{AllocError, Global};
use std::marker::Model;

/// A space that is regular. Contracts see it as the space.
#[derive(Drop)]
pub struct Regular<'a> {
    space: &'a Space,
    cycles: Cycles,
}

impl<'a> Model for Regular<'a> {
    ghost use Rattle.face_poset.specs.Poset.{Layers, count};
    ghost use Rattle.regular_check.specs.Rules.{IsRegular};
    ghost use Rattle.regular_check.specs.Cycle.{AreCycles};

    ghost Value = { Layers };

    ghost view = { λ r. r.space.now };

    ghost invariant = { λ r.
        IsRegular r.space.now
        × AreCycles r.space.now (count r.space.now 2) r.cycles.ends.items r.cycles.steps.items };
}

impl<'a> Regular<'a> {
    /// The space.
    pub fn space(&self) -> &Space
        ensures same { result.now ≡ self.now }
        ensures regular { IsRegular self.now }
    {
        self.space
    }

    /// The cycle of a 2-cell, which is counted from 1: its edges one after another, from its least vertex
    /// along the lower-numbered of the two edges there.
    pub fn cycle_of(&self, cell: u32) -> &[Step]
        requires first { 1 ≤ cell }
        requires last { cell ≤ count self.now 2 }
        ensures cycle { result.now ≡ cycle self.now cell }
        ensures regular { IsRegular self.now }
    {
        let start = self.cycles.ends[cell as usize - 1];
        let end = self.cycles.ends[cell as usize];
        &self.cycles.steps[start..end]
    }

    /// The connected components of the space, numbered from 1 in the order of their least vertices.
    pub fn components(&self, alloc: Global) -> Result<Components, AllocError>
        ensures { IfOk result (λ components. components ≡ components_of self.now) }
    {
        find_components(alloc, self.space)
    }
}

/// Tells whether the space is regular, or the first rule that it breaks.
///
/// The rules are, by dimension, then by cell, then in this order: an edge has exactly two ends; the edges
/// of a 2-cell form one cycle that repeats no vertex; for a 3-cell each edge of its 2-cells lies in exactly
/// two of them, these are connected across edges, and the vertices less the edges plus the 2-cells of its
/// boundary are 2.
pub fn check<'a>(alloc: Global, space: &'a Space) -> Result<Regular<'a>, RegularFault>
    ensures regular { IfOk result (λ regular. regular ≡ space.entry.now) }
    ensures fault { MatchResult result (λ _. IsRegular space.entry.now) (IsFault (first_fault space.entry.now)) }
{
    let vertices = space.cells(0) as usize;
    let edges = space.cells(1) as usize;
    let disks = space.cells(2) as usize;
    check_edges(space)?;
    let most = vertices + edges + disks;
    let mut tallies = vec![in alloc; NONE; most]?;
    let mut found = FoundNumbers::new(alloc, most)?;
    check_disks(space, &mut tallies, &mut found)?;
    check_solids(space, &mut tallies, &mut found)?;
    let cycles = all_cycles(alloc, space, &mut tallies)?;
    Ok(Regular { space, cycles })
}
