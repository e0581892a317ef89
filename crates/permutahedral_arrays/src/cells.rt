// The cells of shapes at all first points.
ghost use Rattle.std.specs.Prelude.{◌≡◌, ◌≢◌, ◌≤◌, ◌<◌, ◌++◌, ◌^◌, length, IfOk, IfErr, OnOk};
ghost use Rattle.std.specs.List.{list_any};
ghost use Rattle.permutahedral_arrays.specs.Places.{step, cell_at, is_present, cells_at, cells_of};

use array_values::ArrayFault;
use number_lists::Lists;
use std::alloc::{AllocError, Global};

/// The most cells that a space may have.
pub(crate) const MOST_CELLS: usize = 60_000;

/// What a vector adds to a place.
fn step(slab: u32, row: u32, vector: u32) -> u32
    requires slab { slab ≤ 2 ^ 29 }
    requires row { row ≤ 2 ^ 29 }
    ensures step { result ≡ step slab row vector }
    ensures most { result ≤ 2 ^ 31 }
{
    let planes = if vector / 4 % 2 == 1 { slab } else { 0 };
    let rows = if vector / 2 % 2 == 1 { row } else { 0 };
    planes + rows + vector % 2
}

/// Lists the points of a shape at a first point.
fn list_points(
    slab: u32,
    row: u32,
    first: u32,
    shape: &[u32],
    points: &mut Vec<u32>,
) -> Result<(), AllocError>
    requires slab { slab ≤ 2 ^ 29 }
    requires row { row ≤ 2 ^ 29 }
    requires first { first ≤ 2 ^ 29 }
    ensures { OnOk result (points.new.items ≡ cell_at slab row first shape.now) }
{
    points.clear();
    for vector in shape {
        points.push(first + step(slab, row, *vector))?;
    }
    Ok(())
}

/// Whether the point at a place is present.
fn is_present(marks: &[bool], place: u32) -> bool
    ensures { result ≡ is_present marks.now place }
{
    let index = place.saturating_sub(1) as usize;
    if index < marks.len() {
        marks[index]
    } else {
        false
    }
}

/// Whether a point of a cell is present.
fn has_present(marks: &[bool], points: &[u32]) -> bool
    ensures { result ≡ list_any (is_present marks.now) points.now }
{
    points.iter().any(|place| is_present(marks, *place))
}

/// Puts the cells of the shapes last that have a first point.
fn push_cells(
    slab: u32,
    row: u32,
    marks: &[bool],
    shapes: &Lists,
    first: u32,
    points: &mut Vec<u32>,
    cells: &mut Lists,
) -> Result<(), AllocError>
    requires slab { slab ≤ 2 ^ 29 }
    requires row { row ≤ 2 ^ 29 }
    requires first { first ≤ 2 ^ 29 }
    ensures { OnOk result (cells.new ≡ cells.old ++ cells_at slab row marks.now shapes.now first) }
{
    for index in 0..shapes.len() {
        list_points(slab, row, first, shapes.get(index), points)?;
        if has_present(marks, points) {
            cells.push(points)?;
        }
    }
    Ok(())
}

/// The cells of the shapes, in lexicographic order, or `TooManyCells` only where there are more than
/// 60,000 of them.
pub(crate) fn list_cells(
    alloc: Global,
    slab: u32,
    row: u32,
    marks: &[bool],
    shapes: &Lists,
) -> Result<Lists, ArrayFault>
    requires slab { slab ≤ 2 ^ 29 }
    requires row { row ≤ 2 ^ 29 }
    requires marks { length marks.now ≤ 2 ^ 29 }
    ensures cells { IfOk result (λ cells. cells ≡ cells_of slab row marks.now shapes.now) }
    ensures few { IfOk result (λ cells. length cells ≤ 60000) }
    ensures kind { IfErr result (λ fault. fault ≢ ArrayFault.Memory → fault ≡ ArrayFault.TooManyCells) }
    ensures many { IfErr result (λ fault. fault ≢ ArrayFault.Memory
        → 60000 < length (cells_of slab row marks.now shapes.now)) }
{
    let mut cells = Lists::new(alloc);
    let mut points = Vec::new(alloc);
    for index in 0..marks.len() {
        push_cells(
            slab,
            row,
            marks,
            shapes,
            index as u32 + 1,
            &mut points,
            &mut cells,
        )?;
        if cells.len() > MOST_CELLS {
            return Err(ArrayFault::TooManyCells);
        }
    }
    Ok(cells)
}
