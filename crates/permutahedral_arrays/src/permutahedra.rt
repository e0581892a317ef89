ghost use Rattle.std.specs.Prelude.{◌≡◌, ◌≢◌, ◌≤◌, ◌<◌, ◌^◌, length, true, IfOk, IfErr, Ok, Err};
ghost use Rattle.std.specs.List.{list_any};
ghost use Rattle.gap_text.specs.Nest.{view};
ghost use Rattle.permutahedral_arrays.specs.Permutahedra.{permutahedral_of};
ghost use Rattle.permutahedral_arrays.specs.Places.{space_with, cells_of, shapes_in};

use crate::cells::{MOST_CELLS, list_cells};
use crate::marks::{Grid, from_end, list_marks, steps};
use crate::shapes::list_shapes;
use crate::spaces::build;
use array_values::{ArrayFault, read_bits};
use face_poset::Space;
use gap_text::Nest;
use number_lists::Lists;
use std::alloc::Global;

/// Reads the permutahedral space of an array of bits of two or three levels, or answers its first
/// fault.
///
/// The points have whole coordinates from -1, and a point is present where its coordinates are the
/// indices, counted from 0, of a bit that is 1. A cell of dimension d - k, where d is the number of
/// levels, is a sequence of k + 1 different points of which at least one is present. Each step adds a
/// 0/1 vector, and the last point less the first is a 0/1 vector. A facet of a cell has one point more,
/// and holds all its points. The cells of one dimension are numbered from 1 in lexicographic order of
/// their coordinates, first point first. The faults are those of `read_bits`, in its order, and then
/// `TooManyCells`, exactly where there are more than 60,000 cells.
/// (The dual of the Freudenthal triangulation.)
pub fn permutahedral(alloc: Global, nest: &Nest) -> Result<Space, ArrayFault>
    ensures space { IfOk result (λ space. permutahedral_of (view nest.now) ≡ Ok space) }
    // Want of memory may be answered to any nest.
    ensures fault { IfErr result (λ fault. fault ≢ ArrayFault.Memory → permutahedral_of (view nest.now) ≡ Err fault) }
{
    let array = read_bits(alloc, nest, 2, 3)?;
    let sizes = array.sizes();
    let grid = Grid {
        planes: from_end(sizes, 2),
        rows: from_end(sizes, 1),
        columns: from_end(sizes, 0),
    };
    let (slab, row) = steps(&grid)?;
    let marks = list_marks(alloc, &grid, slab, row, array.bits())?;
    space_with(alloc, sizes.len() as u8, slab, row, &marks)
}

/// The space of the cells with a marked point. A point of a cell is at most a slab, a row and one
/// past the last mark.
fn space_with(
    alloc: Global,
    depth: u8,
    slab: u32,
    row: u32,
    marks: &[bool],
) -> Result<Space, ArrayFault>
    requires slab { slab ≤ 2 ^ 29 }
    requires row { row ≤ 2 ^ 29 }
    requires marks { length marks.now ≤ 2 ^ 29 }
    requires shallow { 2 ≤ depth }
    requires deep { depth ≤ 3 }
    requires wide { 1 ≤ row }
    requires high { 1 ≤ slab }
    requires one { list_any (λ mark. mark) marks.now ≡ true }
    ensures space { IfOk result (λ space. space_with depth slab row marks.now ≡ Ok space) }
    ensures fault { IfErr result (λ fault. fault ≢ ArrayFault.Memory
        → space_with depth slab row marks.now ≡ Err fault) }
{
    let vertices = list_dimension(alloc, depth, 0, slab, row, marks)?;
    let edges = list_dimension(alloc, depth, 1, slab, row, marks)?;
    let faces = list_dimension(alloc, depth, 2, slab, row, marks)?;
    let solids = list_dimension(alloc, depth, 3, slab, row, marks)?;
    if vertices.len() + edges.len() + faces.len() + solids.len() > MOST_CELLS {
        return Err(ArrayFault::TooManyCells);
    }
    let most = marks.len() + slab as usize + row as usize + 1;
    Ok(build(alloc, most, &vertices, &edges, &faces, &solids)?)
}

/// The cells of a dimension with a marked point, or `TooManyCells` only where there are more than
/// 60,000 of them.
fn list_dimension(
    alloc: Global,
    depth: u8,
    dim: u8,
    slab: u32,
    row: u32,
    marks: &[bool],
) -> Result<Lists, ArrayFault>
    requires slab { slab ≤ 2 ^ 29 }
    requires row { row ≤ 2 ^ 29 }
    requires marks { length marks.now ≤ 2 ^ 29 }
    ensures cells { IfOk result (λ cells. cells ≡ cells_of slab row marks.now (shapes_in depth dim)) }
    ensures few { IfOk result (λ cells. length cells ≤ 60000) }
    ensures kind { IfErr result (λ fault. fault ≢ ArrayFault.Memory → fault ≡ ArrayFault.TooManyCells) }
    ensures many { IfErr result (λ fault. fault ≢ ArrayFault.Memory
        → 60000 < length (cells_of slab row marks.now (shapes_in depth dim))) }
{
    let shapes = list_shapes(alloc, depth, dim)?;
    list_cells(alloc, slab, row, marks, &shapes)
}
