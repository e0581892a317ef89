// The rules of a regular space, cell by cell.
ghost use Rattle.std.specs.Prelude.{◌≡◌, ◌≢◌, ◌≤◌, ◌+◌, length, IfErr, OnOk, pos, ◌+ℤ◌, ◌-ℤ◌};
ghost use Rattle.std.specs.List.{flat_map};
ghost use Rattle.number_lists.specs.Words.{upto};
ghost use Rattle.face_poset.specs.Poset.{count};
ghost use Rattle.regular_check.specs.Rules.{edge_rules, disk_rules, solid_rules, Finds};
ghost use Rattle.regular_check.specs.Tally.{IsBlank};

use crate::boundary::{count_edges, count_vertices};
use crate::fault::RegularFault;
use crate::search::shape_of;
use crate::tally::Tally;
use face_poset::{Graded, Space};
use number_lists::FoundNumbers;

/// Finds the first edge without two ends.
pub(crate) fn check_edges(space: &Space) -> Result<(), RegularFault>
    ensures { Finds (flat_map (edge_rules space.now) (upto (count space.now 1))) result }
{
    for index in 0..space.cells(1) {
        if space.facets(1, index + 1).len() != 2 {
            return Err(RegularFault::EdgeEnds(index + 1));
        }
    }
    Ok(())
}

/// Finds the first 2-cell whose edges are no cycle.
pub(crate) fn check_disks(
    space: &Space,
    tallies: &mut [Tally],
    found: &mut FoundNumbers,
) -> Result<(), RegularFault>
    requires room { count space.now 0 ≤ length tallies.old }
    requires most { count space.now 1 ≤ found.old.most }
    requires blank { IsBlank tallies.old }
    ensures most { found.new.most ≡ found.old.most }
    ensures blank { OnOk result (IsBlank tallies.new) }
    ensures fault { Finds (flat_map (disk_rules space.now) (upto (count space.now 2))) result }
{
    for index in 0..space.cells(2) {
        let shape = shape_of(space, 1, space.facets(2, index + 1), tallies, found)?;
        if !(shape.is_closed && shape.is_connected) {
            return Err(RegularFault::NotCycle(index + 1));
        }
    }
    Ok(())
}

/// Finds the first fault of the boundaries of 3-cells.
pub(crate) fn check_solids(
    space: &Space,
    tallies: &mut [Tally],
    found: &mut FoundNumbers,
) -> Result<(), RegularFault>
    requires room { count space.now 1 ≤ length tallies.old }
    requires most { count space.now 0 + count space.now 1 + count space.now 2 ≤ found.old.most }
    requires blank { IsBlank tallies.old }
    ensures most { found.new.most ≡ found.old.most }
    ensures blank { OnOk result (IsBlank tallies.new) }
    ensures fault { Finds (flat_map (solid_rules space.now) (upto (count space.now 3))) result }
{
    for index in 0..space.cells(3) {
        check_solid(space, index + 1, tallies, found)?;
    }
    Ok(())
}

/// Finds a fault of the boundary of a 3-cell.
fn check_solid(
    space: &Space,
    cell: u32,
    tallies: &mut [Tally],
    found: &mut FoundNumbers,
) -> Result<(), RegularFault>
    requires first { 1 ≤ cell }
    requires last { cell ≤ count space.now 3 }
    requires few { count space.now 2 ≤ 60000 }
    requires room { count space.now 1 ≤ length tallies.old }
    requires most { count space.now 0 + count space.now 1 + count space.now 2 ≤ found.old.most }
    requires blank { IsBlank tallies.old }
    ensures most { found.new.most ≡ found.old.most }
    ensures blank { OnOk result (IsBlank tallies.new) }
    ensures fault { Finds (solid_rules space.now cell) result }
{
    let disks = space.facets(3, cell);
    let shape = shape_of(space, 2, disks, tallies, found)?;
    if !shape.is_closed {
        return Err(RegularFault::EdgeNotTwice(cell));
    }
    if !shape.is_connected {
        return Err(RegularFault::Apart(cell));
    }
    let vertices = count_vertices(space, disks, found)?;
    let edges = count_edges(space, disks, found)?;
    check_sphere(cell, vertices, edges, disks.len() as u32)
}

/// Finds the fault of a 3-cell with so many vertices, edges and 2-cells in its boundary, if they are not
/// those of a sphere.
fn check_sphere(cell: u32, vertices: u32, edges: u32, disks: u32) -> Result<(), RegularFault>
    ensures kept { OnOk result (vertices + disks ≡ edges + 2) }
    ensures broken { IfErr result (λ fault.
        (fault ≡ RegularFault.NotSphere cell ((pos vertices -ℤ pos edges) +ℤ pos disks))
        × (vertices + disks ≢ edges + 2)) }
{
    if u64::from(vertices) + u64::from(disks) == u64::from(edges) + 2 {
        Ok(())
    } else {
        Err(no_sphere(cell, vertices, edges, disks))
    }
}

/// The fault of a 3-cell with so many vertices, edges and 2-cells in its boundary.
fn no_sphere(cell: u32, vertices: u32, edges: u32, disks: u32) -> RegularFault
    ensures { result ≡ RegularFault.NotSphere cell ((pos vertices -ℤ pos edges) +ℤ pos disks) }
{
    let value = i64::from(vertices) - i64::from(edges) + i64::from(disks);
    RegularFault::NotSphere(cell, value)
}
