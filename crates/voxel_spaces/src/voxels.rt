// The space of voxels in a box.
ghost use Rattle.std.specs.Prelude.{◌≡◌, ◌≢◌, ℕ, ◌≤◌, ◌<◌, ◌^◌, length, map, Contains, IfOk, IfErr, Ok, Err};
ghost use Rattle.std.specs.List.{All, flat_map};
ghost use Rattle.std.specs.List.Sorted.{IsStrictlyIncreasing};
ghost use Rattle.array_values.specs.Bits.{volume};
ghost use Rattle.tuple_spaces.specs.Voxels.{limits_of, facets, voxel_space};
ghost use Rattle.voxel_spaces.specs.Places.{voxel_place, face_places, count_at, IsClosed};
ghost use Rattle.voxel_spaces.specs.BoxTuples.{strides_of, tuple_at};
ghost use Rattle.tuple_spaces.specs.Tuples.{space_of};

use crate::box_places::{limits, push_faces, strides, voxel, widths};
use crate::cells::{add_cells, number_all};
use array_values::ArrayFault;
use face_poset::{Builder, Space};
use number_lists::sort_indexes_once;
use std::alloc::{AllocError, Global};

/// The most cells that a space may have.
const MOST_CELLS: usize = 60_000;

/// The places of the voxels and all their faces, each once, in increasing order. The voxels are given
/// by the places of their indices in the box of voxels.
fn list_places(
    alloc: Global,
    sides: &[usize],
    strides: &[usize],
    indices: &[usize],
) -> Result<Vec<usize>, AllocError>
    requires sides { All (λ side. 1 ≤ side) sides.now }
    requires strides { All (λ stride. 1 ≤ stride) strides.now }
    requires alike { length sides.now ≡ length strides.now }
    requires indices { All (λ index. index < 2 ^ 40) indices.now }
    requires few { All (λ index. voxel_place sides.now strides.now index < 2 ^ 40) indices.now }
    requires small { All (λ stride. stride < 2 ^ 40) strides.now }
    ensures rises { IfOk result (λ places. IsStrictlyIncreasing places.items) }
    ensures keeps { IfOk result (λ places. (n : ℕ)
        → Contains (flat_map (λ i. face_places strides.now (voxel_place sides.now strides.now i)) indices.now) n
        → Contains places.items n) }
    ensures adds_none { IfOk result (λ places. (n : ℕ)
        → Contains places.items n
        → Contains (flat_map (λ i. face_places strides.now (voxel_place sides.now strides.now i)) indices.now) n) }
{
    let mut places = Vec::new(alloc);
    for index in indices {
        push_faces(strides, 0, voxel(sides, strides, *index), &mut places)?;
    }
    sort_indexes_once(&mut places);
    Ok(places)
}

/// The space of the cells at these places.
fn build(alloc: Global, strides: &[usize], places: &[usize]) -> Result<Space, AllocError>
    requires strides { All (λ stride. 1 ≤ stride) strides.now }
    requires few { length strides.now ≤ 3 }
    requires small { All (λ stride. stride < 2 ^ 40) strides.now }
    requires rises { IsStrictlyIncreasing places.now }
    requires closed { IsClosed strides.now places.now }
    requires some { 1 ≤ count_at strides.now places.now 0 }
    requires limited { length places.now ≤ 60000 }
    ensures { IfOk result (λ space. space ≡ space_of facets (map (tuple_at strides.now) places.now)) }
{
    let numbers = number_all(alloc, strides, places)?;
    let mut facets = Vec::new(alloc);
    let mut builder = Builder::new(alloc);
    for dim in 0..4u8 {
        add_cells(&mut builder, strides, places, &numbers, dim, &mut facets)?;
    }
    builder.finish()
}

/// The cubical space of voxels in a box, with all their faces, or `TooManyCells` exactly where it has
/// more than 60,000 cells.
///
/// The box has one to three directions, with as many voxels in each as the sizes say. The indices of a
/// voxel count from 0 in each direction, and `indices` are the places of these tuples in lexicographic
/// order, counted from 0, in increasing order. Want of memory may be answered too.
pub fn voxel_space(alloc: Global, sizes: &[u32], indices: &[usize]) -> Result<Space, ArrayFault>
    requires low { length sizes.now ≤ 3 }
    requires box_some { All (λ size. 1 ≤ size) sizes.now }
    requires box_few { volume sizes.now ≤ 2 ^ 31 }
    requires inside { All (λ index. index < volume sizes.now) indices.now }
    requires rises { IsStrictlyIncreasing indices.now }
    requires some { 1 ≤ length indices.now }
    ensures space { IfOk result (λ space.
        voxel_space sizes.now (map (tuple_at (strides_of sizes.now)) indices.now) ≡ Ok space) }
    ensures fault { IfErr result (λ fault. fault ≢ ArrayFault.Memory
        → voxel_space sizes.now (map (tuple_at (strides_of sizes.now)) indices.now) ≡ Err fault) }
{
    if indices.len() > MOST_CELLS {
        return Err(ArrayFault::TooManyCells);
    }
    let sides = strides(alloc, &widths(alloc, sizes)?)?;
    let strides = strides(alloc, &limits(alloc, sizes)?)?;
    let places = list_places(alloc, &sides, &strides, indices)?;
    if places.len() > MOST_CELLS {
        return Err(ArrayFault::TooManyCells);
    }
    Ok(build(alloc, &strides, &places)?)
}
