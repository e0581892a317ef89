// The faces of all cells, by ids.
ghost use Rattle.std.specs.Prelude.{◌≡◌, ◌≤◌, ◌+◌, IfOk, OnOk, map, ◌++◌};
ghost use Rattle.face_poset.specs.Words.{upto};
ghost use Rattle.face_poset.specs.Poset.{count, cell_count};
ghost use Rattle.order_complex.specs.Chains.{cells_before, id_of, faces_of, all_faces};
ghost use Rattle.order_complex.specs.Complex.{HasId};

use face_poset::{Cell, Graded, Space};
use number_lists::Lists;
use std::alloc::{AllocError, Global};

/// How many cells have a smaller dimension.
fn cells_below(space: &Space, dim: u8) -> u32
    requires { dim ≤ 3 }
    ensures cells { result ≡ cells_before space.now dim }
    ensures few { result + count space.now dim ≤ 60000 }
{
    let vertices = space.cells(0);
    let edges = space.cells(1);
    match dim {
        0 => 0,
        1 => vertices,
        2 => vertices + edges,
        _ => vertices + edges + space.cells(2),
    }
}

/// The id of a cell.
fn id_of_cell(space: &Space, cell: Cell) -> u32
    requires dim { cell.dim ≤ 3 }
    requires last { cell.number ≤ count space.now cell.dim }
    ensures { result ≡ id_of space.now cell }
{
    cells_below(space, cell.dim) + cell.number
}

/// The ids of the faces of a cell, without the cell itself.
pub fn face_ids(alloc: Global, space: &Space, dim: u8, number: u32) -> Result<Vec<u32>, AllocError>
    requires dim { dim ≤ 3 }
    requires first { 1 ≤ number }
    requires last { number ≤ count space.now dim }
    ensures { IfOk result (λ ids. ids.items ≡ faces_of space.now dim number) }
{
    let closed = space.below(alloc, dim, number)?;
    let mut ids = Vec::new(alloc);
    for index in 0..closed.len() - 1 {
        ids.push(id_of_cell(space, closed.get(index)))?;
    }
    Ok(ids)
}

/// The ids of the faces of each cell, in the order of ids.
pub fn faces_in(alloc: Global, space: &Space) -> Result<Lists, AllocError>
    ensures faces { IfOk result (λ lists. lists ≡ all_faces space.now) }
    ensures few { cell_count space.now ≤ 60000 }
{
    let _vertices = space.cells(0);
    let mut faces = Lists::new(alloc);
    push_faces(alloc, space, 0, &mut faces)?;
    push_faces(alloc, space, 1, &mut faces)?;
    push_faces(alloc, space, 2, &mut faces)?;
    push_faces(alloc, space, 3, &mut faces)?;
    Ok(faces)
}

/// Puts the ids of the faces of each cell of a dimension last in the lists.
fn push_faces(alloc: Global, space: &Space, dim: u8, faces: &mut Lists) -> Result<(), AllocError>
    requires { dim ≤ 3 }
    ensures { OnOk result (faces.new ≡ faces.old ++ map (faces_of space.now dim) (upto (count space.now dim))) }
{
    for index in 0..space.cells(dim) {
        let ids = face_ids(alloc, space, dim, index + 1)?;
        faces.push(&ids)?;
    }
    Ok(())
}

/// The cell with an id.
pub fn cell_of_id(space: &Space, id: u32) -> Cell
    requires first { 1 ≤ id }
    requires last { id ≤ cell_count space.now }
    ensures { HasId space.now result id }
{
    let edges = cells_below(space, 1);
    let faces = cells_below(space, 2);
    let solids = cells_below(space, 3);
    let (dim, before) = if id <= edges {
        (0, 0)
    } else if id <= faces {
        (1, edges)
    } else if id <= solids {
        (2, faces)
    } else {
        (3, solids)
    };
    Cell {
        dim,
        number: id - before,
    }
}
