// Cells by their ids, and their flags.
ghost use Rattle.std.specs.Prelude.{◌≡◌, ◌≤◌, ◌∷◌, IfOk};
ghost use Rattle.face_poset.specs.Poset.{count, cell_count, IsSpace};
ghost use Rattle.face_poset.specs.Below.{cell_at};
ghost use Rattle.order_complex.specs.Chains.{id_of};
ghost use Rattle.local_field.specs.Buildings.{dim_at, number_at, flag_of, flag_at};

use face_poset::{Cell, Graded, Space};
use std::alloc::{AllocError, Global};

/// The id of a cell, which counts all cells from 1, vertices first.
pub(crate) fn id_of<G: Graded>(space: &G, dim: u8, number: u32) -> u32
    requires dim { dim ≤ 3 }
    requires number { number ≤ count (G.space space.now) dim }
    ensures { result ≡ id_of (G.space space.now) (cell_at dim number) }
{
    match dim {
        0 => number,
        1 => space.cells(0) + number,
        2 => space.cells(0) + space.cells(1) + number,
        _ => space.cells(0) + space.cells(1) + space.cells(2) + number,
    }
}

/// The cell with an id.
pub(crate) fn cell_of(space: &Space, id: u32) -> Cell
    requires first { 1 ≤ id }
    requires last { id ≤ cell_count space.now }
    ensures dim { result.dim ≡ dim_at space.now id }
    ensures number { result.number ≡ number_at space.now id }
{
    let edges = space.cells(0);
    let disks = edges + space.cells(1);
    let solids = disks + space.cells(2);
    if id <= edges {
        Cell { dim: 0, number: id }
    } else if id <= disks {
        Cell {
            dim: 1,
            number: id - edges,
        }
    } else if id <= solids {
        Cell {
            dim: 2,
            number: id - disks,
        }
    } else {
        Cell {
            dim: 3,
            number: id - solids,
        }
    }
}

/// The flag of a cell: the ids of the cell, of its first facet, of the first facet of that, and so on.
pub(crate) fn flag_of<G: Graded>(
    alloc: Global,
    space: &G,
    dim: u8,
    number: u32,
) -> Result<Vec<u32>, AllocError>
    requires dim { dim ≤ 3 }
    requires first { 1 ≤ number }
    requires last { number ≤ count (G.space space.now) dim }
    ensures { IfOk result (λ flag. flag.items ≡ flag_of (G.space space.now) dim number) }
{
    let mut flag = Vec::new(alloc);
    let mut cell = number;
    for step in 0..dim {
        flag.push(id_of(space, dim - step, cell))?;
        cell = space.facets(dim - step, cell)[0];
    }
    flag.push(id_of(space, 0, cell))?;
    Ok(flag)
}

/// The flag of the cell with an id.
pub(crate) fn flag_at(alloc: Global, space: &Space, id: u32) -> Result<Vec<u32>, AllocError>
    requires first { 1 ≤ id }
    requires last { id ≤ cell_count space.now }
    ensures { IfOk result (λ flag. flag.items ≡ flag_at space.now id) }
{
    let cell = cell_of(space, id);
    flag_of(alloc, space, cell.dim, cell.number)
}

/// The list with a number more in front.
pub(crate) fn put_first(alloc: Global, number: u32, numbers: &[u32]) -> Result<Vec<u32>, AllocError>
    ensures { IfOk result (λ longer. longer.items ≡ number ∷ numbers.now) }
{
    let mut longer = Vec::new(alloc);
    longer.push(number)?;
    longer.extend_from_slice(numbers)?;
    Ok(longer)
}
