// The signs of 2-cells.
ghost use Rattle.std.specs.Prelude.{◌≡◌, ◌≤◌, map, IfOk};
ghost use Rattle.face_poset.specs.Poset.{count, facets_of};
ghost use Rattle.regular_check.specs.Cycle.{cycle};
ghost use Rattle.cell_signs.specs.Along.{goes_back};
ghost use Rattle.cell_signs.specs.Minus.{back_lists};

use crate::put::{list_minus, put_sign};
use face_poset::Graded;
use number_lists::Lists;
use regular_check::Regular;
use std::alloc::{AllocError, Global};

/// For each 2-cell the edges that its cycle goes backward.
pub(crate) fn list_disks(alloc: Global, regular: &Regular<'_>) -> Result<Lists, AllocError>
    ensures { IfOk result (λ lists. lists ≡ back_lists regular.now (count regular.now 2)) }
{
    let space = regular.space();
    let mut lists = Lists::new(alloc);
    for index in 0..space.cells(2) {
        let signs = disk_signs(alloc, regular, index + 1)?;
        let minus = list_minus(alloc, space.facets(2, index + 1), &signs)?;
        lists.push(&minus)?;
    }
    Ok(lists)
}

/// For each edge of a 2-cell whether its sign is -1, which is where the cycle goes backward along it.
fn disk_signs(alloc: Global, regular: &Regular<'_>, cell: u32) -> Result<Vec<bool>, AllocError>
    requires first { 1 ≤ cell }
    requires last { cell ≤ count regular.now 2 }
    ensures { IfOk result
        (λ signs. signs.items ≡ map (goes_back (cycle regular.now cell)) (facets_of regular.now 2 cell)) }
{
    let edges = regular.space().facets(2, cell);
    let mut signs = vec![in alloc; false; edges.len()]?;
    for step in regular.cycle_of(cell) {
        if !step.forward {
            put_sign(&mut signs, edges, step.edge, true);
        }
    }
    Ok(signs)
}
