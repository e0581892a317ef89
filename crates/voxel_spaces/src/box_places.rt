// Tuples of coordinates below limits, by their places in lexicographic order, which are counted from 0.
// The strides of a box are how many places a step in each direction is.
ghost use Rattle.std.specs.Prelude.{◌≡◌, ◌≤◌, ◌<◌, ◌+◌, ◌^◌, ◌++◌, length, drop, sum, IfOk, OnOk};
ghost use Rattle.std.specs.List.{All};
ghost use Rattle.array_values.specs.Bits.{volume};
ghost use Rattle.tuple_spaces.specs.Voxels.{limits_of};
ghost use Rattle.voxel_spaces.specs.Places.{dim_at, voxel_place, face_places};
ghost use Rattle.voxel_spaces.specs.BoxTuples.{strides_of};

use std::alloc::{AllocError, Global};

/// The limits of the coordinates of a box of so many voxels in each direction.
pub(crate) fn limits(alloc: Global, sizes: &[u32]) -> Result<Vec<usize>, AllocError>
    ensures { IfOk result (λ limits. limits.items ≡ limits_of sizes.now) }
{
    sizes
        .iter()
        .map(|size| 2 * *size as usize + 1)
        .collect(alloc)
}

/// The sizes as limits of the indices of the voxels.
pub(crate) fn widths(alloc: Global, sizes: &[u32]) -> Result<Vec<usize>, AllocError>
    ensures { IfOk result (λ widths. widths.items ≡ sizes.now) }
{
    sizes.iter().map(|size| *size as usize).collect(alloc)
}

/// How many tuples there are below the limits from a level on.
fn volume_from(limits: &[usize], level: usize) -> usize
    requires level { level ≤ length limits.now }
    requires some { All (λ limit. 1 ≤ limit) limits.now }
    requires few { volume limits.now < 2 ^ 40 }
    ensures { result ≡ volume (drop level limits.now) }
{
    if level == limits.len() {
        1
    } else {
        limits[level] * volume_from(limits, level + 1)
    }
}

/// The strides of a box.
pub(crate) fn strides(alloc: Global, limits: &[usize]) -> Result<Vec<usize>, AllocError>
    requires some { All (λ limit. 1 ≤ limit) limits.now }
    requires few { volume limits.now < 2 ^ 40 }
    ensures { IfOk result (λ strides. strides.items ≡ strides_of limits.now) }
{
    let mut strides = Vec::new(alloc);
    for level in 0..limits.len() {
        strides.push(volume_from(limits, level + 1))?;
    }
    Ok(strides)
}

/// The place of a voxel from the place of its indices.
pub(crate) fn voxel(sides: &[usize], strides: &[usize], index: usize) -> usize
    requires sides { All (λ side. 1 ≤ side) sides.now }
    requires strides { All (λ stride. 1 ≤ stride) strides.now }
    requires alike { length sides.now ≡ length strides.now }
    requires index { index < 2 ^ 40 }
    requires few { voxel_place sides.now strides.now index < 2 ^ 40 }
    ensures { result ≡ voxel_place sides.now strides.now index }
{
    let mut place = 0;
    let mut rest = index;
    for level in 0..sides.len() {
        place += (2 * (rest / sides[level]) + 1) * strides[level];
        rest %= sides[level];
    }
    place
}

/// Puts the places of a voxel and its faces last, where the directions before a level are done.
pub(crate) fn push_faces(
    strides: &[usize],
    level: usize,
    place: usize,
    places: &mut Vec<usize>,
) -> Result<(), AllocError>
    requires level { level ≤ length strides.now }
    requires low { sum (drop level strides.now) ≤ place }
    requires high { place + sum (drop level strides.now) < 2 ^ 60 }
    ensures { OnOk result (places.new.items ≡ places.old.items ++ face_places (drop level strides.now) place) }
{
    if level == strides.len() {
        places.push(place)?;
        return Ok(());
    }
    push_faces(strides, level + 1, place - strides[level], places)?;
    push_faces(strides, level + 1, place, places)?;
    push_faces(strides, level + 1, place + strides[level], places)?;
    Ok(())
}

/// How many coordinates of the tuple at a place are odd.
pub(crate) fn dimension(strides: &[usize], place: usize) -> u8
    requires strides { All (λ stride. 1 ≤ stride) strides.now }
    requires few { length strides.now ≤ 3 }
    ensures dim { result ≡ dim_at strides.now place }
    ensures most { result ≤ 3 }
{
    let mut rest = place;
    let mut odd = 0;
    for stride in strides {
        odd += (rest / *stride % 2) as u8;
        rest %= *stride;
    }
    odd
}
