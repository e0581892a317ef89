// Arrays and arc presentations as values, and the spaces that they and a size of a torus make.
use crate::worked::{counts_of, facets_of};
use array_values::{ArrayFault, read_arcs, read_bits};
use face_poset::Space;
use gap_text::{Nest, TextFault, parse};
use permutahedral_arrays::permutahedral;
use std::alloc::{AllocError, Global};
use std::test::Fail;
use tuple_spaces::torus;
use voxel_spaces::{arcs, cubical, voxel_space};

/// The value of a text.
fn value(alloc: Global, text: &[u8]) -> Result<Nest, TextFault> {
    if text.len() > 67_108_864 {
        return Err(TextFault::Memory);
    }
    parse(alloc, text)
}

#[test]
fn an_array_is_read(rt: HostRuntime) -> Result<(), Fail> {
    let nest = value(rt.alloc(), b"[[0..1],[1,1]]")?;
    let array = read_bits(rt.alloc(), &nest, 1, 3)?;
    assert_eq!(rt; array.sizes(), [2u32, 2].as_slice());
    assert_eq!(rt; array.bits(), [false, true, true, true].as_slice());
    Ok(())
}

#[test]
fn an_arc_presentation_is_read(rt: HostRuntime) -> Result<(), Fail> {
    let nest = value(rt.alloc(), b"[[2,1],[1,2]]")?;
    let presentation = read_arcs(rt.alloc(), &nest)?;
    assert_eq!(rt; presentation.rows(), [(2u32, 1u32), (1, 2)].as_slice());
    Ok(())
}

#[test]
fn cells_of_a_torus_have_their_facets(rt: HostRuntime) -> Result<(), Fail> {
    let space = torus(rt.alloc(), 2)?;
    // the triples (0,0,1), (0,0,3), (0,1,0), (0,1,1) and (3,3,3)
    for (dim, cell, facets) in [
        (1u8, 1u32, [1u32, 2].as_slice()),
        (1, 2, &[1, 2]),
        (1, 3, &[1, 3]),
        (2, 1, &[1, 3, 4, 5]),
        (3, 8, &[4, 16, 18, 22, 23, 24]),
    ] {
        assert_eq!(rt; facets_of(&space, dim, cell), facets);
    }
    Ok(())
}

/// The cubical space of a text.
fn cubes(alloc: Global, text: &[u8]) -> Result<Space, ArrayFault> {
    match value(alloc, text) {
        Ok(nest) => cubical(alloc, &nest),
        Err(_) => Err(ArrayFault::Memory),
    }
}

#[test]
fn squares_of_a_ring_have_their_edges(rt: HostRuntime) -> Result<(), Fail> {
    let space = cubes(rt.alloc(), b"[[1,1,1],[1,0,1],[1,1,1]]")?;
    // the squares (1,1) and (5,5)
    for (cell, facets) in [(1u32, [1u32, 4, 5, 8]), (8, [17, 20, 21, 24])] {
        assert_eq!(rt; facets_of(&space, 2, cell), facets.as_slice());
    }
    Ok(())
}

/// A row of so many ones, a zero and a one.
fn row(alloc: Global, ones: u32) -> Result<String, AllocError> {
    let mut text = String::from_str(alloc, "[")?;
    for _ in 0..ones {
        text.push_str("1,")?;
    }
    text.push_str("0,1]")?;
    Ok(text)
}

#[test]
fn an_array_has_at_most_60000_cells(rt: HostRuntime) -> Result<(), Fail> {
    for (ones, fault) in [(29_998, None), (29_999, Some(ArrayFault::TooManyCells))] {
        let text = row(rt.alloc(), ones)?;
        assert_eq!(rt; cubes(rt.alloc(), text.as_bytes()).err(), fault);
    }
    Ok(())
}

#[test]
fn cubical_spaces_have_their_cells(rt: HostRuntime) -> Result<(), Fail> {
    for (text, counts) in [
        (b"[[1,1,1],[1,0,1],[1,1,1]]".as_slice(), [16u32, 24, 8, 0]),
        (b"[[0..1],[1,1]]", [8, 10, 3, 0]),
        (b"[1,0,1]", [4, 2, 0, 0]),
        (b"[[0,1],[1,0]]", [7, 8, 2, 0]),
        (b"[[[1]]]", [8, 12, 6, 1]),
    ] {
        assert_eq!(rt; counts_of(&cubes(rt.alloc(), text)?), counts);
    }
    Ok(())
}

#[test]
fn voxels_in_a_box_make_a_space(rt: HostRuntime) -> Result<(), Fail> {
    let space = voxel_space(rt.alloc(), &[2, 2], &[1, 2])?;
    assert_eq!(rt; counts_of(&space), [7, 8, 2, 0]);
    Ok(())
}

/// The space around the arc presentation of a text.
fn complement(alloc: Global, text: &[u8]) -> Result<Space, ArrayFault> {
    match value(alloc, text) {
        Ok(nest) => arcs(alloc, &nest),
        Err(_) => Err(ArrayFault::Memory),
    }
}

#[test]
fn complements_have_their_cells(rt: HostRuntime) -> Result<(), Fail> {
    for (text, counts) in [
        (b"[[1,2],[1,2]]".as_slice(), [216u32, 540, 434, 109]),
        (
            b"[ [ 2, 5 ], [ 1, 3 ], [ 2, 4 ], [ 3, 5 ], [ 1, 4 ] ];",
            [864, 2304, 1978, 537],
        ),
    ] {
        assert_eq!(rt; counts_of(&complement(rt.alloc(), text)?), counts);
    }
    Ok(())
}

/// The permutahedral space of a text.
fn permutahedra(alloc: Global, text: &[u8]) -> Result<Space, ArrayFault> {
    match value(alloc, text) {
        Ok(nest) => permutahedral(alloc, &nest),
        Err(_) => Err(ArrayFault::Memory),
    }
}

// Two hexagons apart, and a truncated octahedron.
#[test]
fn permutahedra_have_their_cells(rt: HostRuntime) -> Result<(), Fail> {
    for (text, counts) in [
        (b"[[0,1],[1,0]]".as_slice(), [12u32, 12, 2, 0]),
        (b"[[[1]]]", [24, 36, 14, 1]),
    ] {
        assert_eq!(rt; counts_of(&permutahedra(rt.alloc(), text)?), counts);
    }
    Ok(())
}
