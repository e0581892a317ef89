ghost use Rattle.std.specs.Prelude.{◌≡◌, ◌≤◌, ◌*◌, ◌+◌, true, IfOk, OnOk};
ghost use Rattle.face_poset.specs.Poset.{cell_count, IsLimited, IsSpace};
ghost use Rattle.regular_check.specs.Rules.{IsRegular};
ghost use Rattle.sheet_laws.specs.Labellings.{is_labelling};
ghost use Rattle.cover_space.specs.Total.{total_of, IsTooLarge};
ghost use Rattle.cover_space.specs.Making.{HasLabelling, leasts, leasts_below, stage};

use crate::closed::Inside;
use crate::fault::TotalFault;
use crate::laws::total_is_regular;
use crate::over::add_over;
use edge_words::Labels;
use face_poset::{Builder, Graded, Space};
use regular_check::Regular;
use std::alloc::{AllocError, Global};

/// The most cells that a space may have.
const MOST_CELLS: u64 = 60_000;

/// The total space of a labelling of a regular space: over each cell one for each sheet. To check it
/// refuses nothing, since it is regular.
///
/// `TooManyCells` comes exactly where the cells of the space times the sheets are more than 60,000. The
/// time is that of sorting the faces of each cell and of its sheets.
pub fn total(alloc: Global, regular: &Regular<'_>, labels: &Labels) -> Result<Space, TotalFault>
    requires { is_labelling regular.now labels.now.sheets labels.now.labels ≡ true }
    ensures total { IfOk result (λ space. space ≡ total_of regular.now labels.now.sheets labels.now.labels) }
    ensures regular { IfOk result (λ space. IsRegular space) }
    ensures large { IsTooLarge regular.now labels.now.sheets → result ≡ Err TotalFault.TooManyCells }
    ensures only_large { result ≡ Err TotalFault.TooManyCells → IsTooLarge regular.now labels.now.sheets }
{
    total_is_regular();
    let space = regular.space();
    if cells_over(space, labels.sheets()) > MOST_CELLS {
        return Err(TotalFault::TooManyCells);
    }
    Ok(make_total(alloc, space, labels)?)
}

/// How many cells stand over those of the space, with so many sheets.
fn cells_over(space: &Space, sheets: u8) -> u64
    ensures count { result ≡ sheets * cell_count space.now }
    ensures valid { IsSpace space.now }
    ensures limited { IsLimited space.now }
{
    let vertices = u64::from(space.cells(0));
    let edges = u64::from(space.cells(1));
    let disks = u64::from(space.cells(2));
    let solids = u64::from(space.cells(3));
    u64::from(sheets) * (vertices + edges + disks + solids)
}

/// The total space, where it has at most 60,000 cells.
fn make_total(alloc: Global, space: &Space, labels: &Labels) -> Result<Space, AllocError>
    requires labelled { HasLabelling space.now labels.now }
    requires few { labels.now.sheets * cell_count space.now ≤ 60000 }
    ensures { IfOk result (λ total. total ≡ total_of space.now labels.now.sheets labels.now.labels) }
{
    let mut builder = Builder::new(alloc);
    let mut least = Vec::new(alloc);
    for dim in 0..4u8 {
        least = add_layer(alloc, space, labels, dim, &least, &mut builder)?;
    }
    builder.finish()
}

/// Adds the cells over those of a dimension, and gives the least vertices of those, where the least vertices
/// of the cells one dimension below are at hand.
fn add_layer(
    alloc: Global,
    space: &Space,
    labels: &Labels,
    dim: u8,
    below: &[u32],
    builder: &mut Builder,
) -> Result<Vec<u32>, AllocError>
    requires labelled { HasLabelling space.now labels.now }
    requires few { labels.now.sheets * cell_count space.now ≤ 60000 }
    requires dim { dim ≤ 3 }
    requires below { below.now ≡ leasts_below space.now dim }
    requires before { builder.old ≡ stage space.now labels.now dim 0 }
    ensures after { OnOk result (builder.new ≡ stage space.now labels.now (dim + 1) 0) }
    ensures least { IfOk result (λ least. least.items ≡ leasts space.now dim) }
{
    let mut least = Vec::new(alloc);
    for index in 0..space.cells(dim) {
        let cell = index + 1;
        let inside = Inside::new(alloc, space, dim, cell)?;
        least.push(inside.vertices[0])?;
        add_over(alloc, space, labels, dim, cell, below, &inside, builder)?;
    }
    Ok(least)
}
