// The marks of the places of a box: whether the point at each is present.
ghost use Rattle.std.specs.Prelude.{◌≡◌, ◌≤◌, ◌<◌, ◌+◌, ◌*◌, ◌^◌, IfOk, IfErr};
ghost use Rattle.permutahedral_arrays.specs.Places.{box_points, is_inside, mark_at, mark_of, marks_of, from_end};

use array_values::ArrayFault;
use std::alloc::{AllocError, Global};

/// The most points that a box may have.
const MOST_POINTS: u128 = 536_870_912;

/// How many planes, rows and columns of bits there are.
#[derive(Clone, Copy)]
pub(crate) struct Grid {
    pub(crate) planes: u32,
    pub(crate) rows: u32,
    pub(crate) columns: u32,
}

/// The size of a level, counted from the innermost, which is 0; or 1.
pub(crate) fn from_end(sizes: &[u32], index: usize) -> u32
    ensures { result ≡ from_end sizes.now index }
{
    if index < sizes.len() {
        sizes[sizes.len() - 1 - index]
    } else {
        1
    }
}

/// Whether a coordinate, written higher by one, is one of a bit.
fn is_inside(size: u32, c: usize) -> bool
    ensures { result ≡ is_inside size c }
{
    0 < c && c <= size as usize
}

/// Whether the point with a plane, a row and a column, each counted from -1 and written higher by
/// one, is present.
fn mark_at(grid: &Grid, bits: &[bool], x: usize, y: usize, z: usize) -> bool
    ensures { result ≡ mark_at grid.now.planes grid.now.rows grid.now.columns bits.now x y z }
{
    if !(is_inside(grid.planes, x) && is_inside(grid.rows, y) && is_inside(grid.columns, z)) {
        return false;
    }
    let line = (x - 1) as u128 * grid.rows as u128 + (y - 1) as u128;
    let index = line * grid.columns as u128 + (z - 1) as u128;
    if index < bits.len() as u128 {
        bits[index as usize]
    } else {
        false
    }
}

/// The marks of all places of a box whose slabs and rows have so many points.
pub(crate) fn list_marks(
    alloc: Global,
    grid: &Grid,
    slab: u32,
    row: u32,
    bits: &[bool],
) -> Result<Vec<bool>, AllocError>
    requires row { row ≡ grid.now.columns + 2 }
    requires slab { slab ≡ (grid.now.rows + 2) * (grid.now.columns + 2) }
    requires few { box_points grid.now.planes grid.now.rows grid.now.columns ≤ 2 ^ 29 }
    ensures { IfOk result (λ marks. marks.items ≡ marks_of grid.now.planes grid.now.rows grid.now.columns bits.now) }
{
    let mut marks = Vec::new(alloc);
    let slab = slab as usize;
    let row = row as usize;
    let planes = grid.planes as usize + 2;
    for place in 0..planes * slab {
        marks.push(mark_at(grid, bits, place / slab, place % slab / row, place % row))?;
    }
    Ok(marks)
}

/// How many points a slab and a row of a box have.
///
/// Want of memory is answered exactly where the box has more than 2^29 points, so that their marks alone would
/// take more than 512 MiB. Below that every place fits in 32 bits, as the lists of cells keep them.
pub(crate) fn steps(grid: &Grid) -> Result<(u32, u32), ArrayFault>
    ensures row { IfOk result (λ steps. steps.1 ≡ grid.now.columns + 2) }
    ensures slab { IfOk result (λ steps. steps.0 ≡ (grid.now.rows + 2) * (grid.now.columns + 2)) }
    ensures few { IfOk result (λ steps. box_points grid.now.planes grid.now.rows grid.now.columns ≤ 2 ^ 29) }
    ensures small_row { IfOk result (λ steps. steps.1 ≤ 2 ^ 29) }
    ensures small_slab { IfOk result (λ steps. steps.0 ≤ 2 ^ 29) }
    ensures fault { IfErr result (λ fault. fault ≡ ArrayFault.Memory) }
    ensures many { IfErr result (λ _. 2 ^ 29 < box_points grid.now.planes grid.now.rows grid.now.columns) }
{
    let row = grid.columns as u128 + 2;
    let slab = (grid.rows as u128 + 2) * row;
    let points = (grid.planes as u128 + 2) * slab;
    if points > MOST_POINTS {
        return Err(ArrayFault::Memory);
    }
    Ok((slab as u32, row as u32))
}
