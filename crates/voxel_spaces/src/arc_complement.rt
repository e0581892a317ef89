ghost use Rattle.std.specs.Prelude.{◌≡◌, ◌≢◌, ◌≤◌, ◌+◌, ◌*◌, length, filter, IfOk, IfErr, Ok, Err};
ghost use Rattle.std.specs.List.{range_with_len};
ghost use Rattle.gap_text.specs.Nest.{view};
ghost use Rattle.tuple_spaces.specs.Rules.{IsRegular};
ghost use Rattle.array_values.specs.Bits.{volume};
ghost use Rattle.voxel_spaces.specs.BoxTuples.{strides_of, tuple_at};
ghost use Rattle.voxel_spaces.specs.ArcComplements.{box_of, stays, arcs_space_of};

use crate::arc_rows::is_taken;
use crate::voxels::voxel_space;
use array_values::{ArrayFault, read_arcs};
use face_poset::Space;
use gap_text::Nest;
use std::alloc::{AllocError, Global};
use tuple_spaces::kept_voxel_spaces_are_regular;

/// The most rows whose bottom layer of voxels, none of which is taken away, has at most 60,000 voxels.
const MOST_ROWS: usize = 121;

/// Reads the complement of an arc presentation, or answers its first fault.
///
/// The box of k rows has 2k + 1 by 2k + 1 by 5 voxels, with indices (x, y, z) from 0. Row r with the
/// columns m < n takes away the voxels with y = 2r - 1, z = 1 and x from 2m - 1 to 2n - 1, and the
/// connectors (2m - 1, 2r - 1, 2) and (2n - 1, 2r - 1, 2). A column c in the rows r < s takes away the
/// voxels with x = 2c - 1, z = 3 and y from 2r - 1 to 2s - 1. The space is the cubical space of the
/// voxels that stay. The faults are those of `read_arcs`, in its order, and then `TooManyCells`,
/// exactly where there are more than 60,000 cells. The space is regular.
pub fn arcs(alloc: Global, nest: &Nest) -> Result<Space, ArrayFault>
    ensures space { IfOk result (λ space. arcs_space_of (view nest.now) ≡ Ok space) }
    ensures regular { IfOk result IsRegular }
    // Want of memory may be answered to any nest.
    ensures fault { IfErr result (λ fault. fault ≢ ArrayFault.Memory → arcs_space_of (view nest.now) ≡ Err fault) }
{
    kept_voxel_spaces_are_regular();
    let presentation = read_arcs(alloc, nest)?;
    let rows = presentation.rows();
    if rows.len() > MOST_ROWS {
        return Err(ArrayFault::TooManyCells);
    }
    let side = 2 * rows.len() as u32 + 1;
    let staying = list_staying(alloc, rows, side as usize)?;
    voxel_space(alloc, &[side, side, 5], &staying)
}

/// The places of the voxels that stay in the box.
fn list_staying(alloc: Global, rows: &[(u32, u32)], side: usize) -> Result<Vec<usize>, AllocError>
    requires few { length rows.now ≤ 121 }
    requires side { side ≡ 2 * length rows.now + 1 }
    ensures { let sizes = box_of (length rows.now) in IfOk result (λ staying.
        staying.items
        ≡ filter (λ i. stays rows.now (tuple_at (strides_of sizes) i)) (range_with_len 0 (volume sizes))) }
{
    let mut staying = Vec::new(alloc);
    for index in 0..side * side * 5 {
        let rest = index % (side * 5);
        let x = index / (side * 5);
        if !is_taken(rows, x as u64, (rest / 5) as u64, (rest % 5) as u64) {
            staying.push(index)?;
        }
    }
    Ok(staying)
}
