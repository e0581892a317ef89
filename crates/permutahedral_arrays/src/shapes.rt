// The shapes of cells: sequences of 0/1 vectors, each above the one before.
ghost use Rattle.std.specs.Prelude.{◌≡◌, ◌≤◌, ◌++◌, IfOk, OnOk};
ghost use Rattle.std.specs.List.{flat_map};
ghost use Rattle.permutahedral_arrays.specs.Places.{is_below, last_of, longer, shapes_in};

use number_lists::Lists;
use std::alloc::{AllocError, Global};

/// Whether the other vector is this one with a 0/1 vector that is not zero added.
fn is_below(vector: u32, other: u32) -> bool
    ensures { result ≡ is_below vector other }
{
    vector / 4 % 2 <= other / 4 % 2
        && vector / 2 % 2 <= other / 2 % 2
        && vector % 2 <= other % 2
        && vector < other
}

/// The last vector of a shape.
fn last_of(shape: &[u32]) -> u32
    ensures { result ≡ last_of shape.now }
{
    if shape.len() == 0 {
        0
    } else {
        shape[shape.len() - 1]
    }
}

/// Puts the shapes last that have one vector more than a shape.
fn push_longer(
    alloc: Global,
    vectors: u32,
    shape: &[u32],
    shapes: &mut Lists,
) -> Result<(), AllocError>
    ensures { OnOk result (shapes.new ≡ shapes.old ++ longer vectors shape.now) }
{
    for vector in 0..vectors {
        if is_below(last_of(shape), vector) {
            let mut next = Vec::new(alloc);
            next.extend_from_slice(shape)?;
            next.push(vector)?;
            shapes.push(&next)?;
        }
    }
    Ok(())
}

/// The shapes with one vector more than these.
fn list_longer(alloc: Global, vectors: u32, shapes: &Lists) -> Result<Lists, AllocError>
    ensures { IfOk result (λ all. all ≡ flat_map (longer vectors) shapes.now) }
{
    let mut all = Lists::new(alloc);
    for index in 0..shapes.len() {
        push_longer(alloc, vectors, shapes.get(index), &mut all)?;
    }
    Ok(all)
}

/// The shapes of the cells of a dimension, of points of two or three dimensions.
pub(crate) fn list_shapes(alloc: Global, depth: u8, dim: u8) -> Result<Lists, AllocError>
    ensures { IfOk result (λ shapes. shapes ≡ shapes_in depth dim) }
{
    let mut shapes = Lists::new(alloc);
    if dim > depth {
        return Ok(shapes);
    }
    let vectors = if depth == 3 { 8 } else { 4 };
    shapes.push(&[0])?;
    for count in 0..depth - dim {
        shapes = list_longer(alloc, vectors, &shapes)?;
    }
    Ok(shapes)
}
