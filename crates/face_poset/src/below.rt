ghost use Rattle.std.specs.Prelude.{◌≡◌, ◌≤◌, ◌+◌, ◌++◌, length, map, All, IfOk, OnOk};
ghost use Rattle.face_poset.specs.Poset.{count, IsSpace};
ghost use Rattle.face_poset.specs.Below.{cell_at, facets_of_all, closure};

use crate::cells::{Cell, CellList};
use number_lists::{Lists, sort_once};
use std::alloc::{AllocError, Global};

/// Puts these cells of a dimension and all their faces last in the list, by dimension, then by
/// number.
pub(crate) fn push_closure(
    alloc: Global,
    layers: &[Lists; 4],
    dim: u8,
    cells: &[u32],
    list: &mut CellList,
) -> Result<(), AllocError>
    requires valid { IsSpace layers.now }
    requires dim { dim ≤ 3 }
    requires within { All (λ c. (1 ≤ c) × (c ≤ count layers.now dim)) cells.now }
    requires room { length list.old + length (closure layers.now dim cells.now) ≤ 4294967295 }
    ensures { OnOk result (list.new ≡ list.old ++ closure layers.now dim cells.now) }
{
    if dim == 0 {
        return push_cells(dim, cells, list);
    }
    let facets = lower_faces(alloc, layers, dim - 1, cells)?;
    push_closure(alloc, layers, dim - 1, &facets, list)?;
    push_cells(dim, cells, list)
}

/// Puts the cells of a dimension with these numbers last in the list.
fn push_cells(dim: u8, numbers: &[u32], list: &mut CellList) -> Result<(), AllocError>
    requires { length list.old + length numbers.now ≤ 4294967295 }
    ensures { OnOk result (list.new ≡ list.old ++ map (cell_at dim) numbers.now) }
{
    for number in numbers {
        list.push(Cell {
            dim,
            number: *number,
        })?;
    }
    Ok(())
}

/// The facets of these cells of dimension `dim + 1`, each once, in increasing order.
fn lower_faces(
    alloc: Global,
    layers: &[Lists; 4],
    dim: u8,
    cells: &[u32],
) -> Result<Vec<u32>, AllocError>
    requires valid { IsSpace layers.now }
    requires dim { dim ≤ 2 }
    requires within { All (λ c. (1 ≤ c) × (c ≤ count layers.now (dim + 1))) cells.now }
    ensures { IfOk result (λ v. v.items ≡ facets_of_all layers.now dim cells.now) }
{
    let layer = &layers[dim as usize + 1];
    let mut facets = Vec::new(alloc);
    for cell in cells {
        facets.extend_from_slice(layer.get(*cell as usize - 1))?;
    }
    sort_once(&mut facets);
    Ok(facets)
}
