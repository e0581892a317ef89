// The worked examples of spaces and of lists that are none, printing and reading again, the most cells
// that a space may have, and a space that is built cell by cell.
use crate::worked::{CIRCLE, PLANE, SPHERE, TORUS, WEDGE, cofaces_of, counts_of, facets_of, read};
use face_poset::{BuildFault, Builder, Cell, Graded, Space, SpaceFault};
use hap_outside::{Failed, Paper};
use std::alloc::{AllocError, Global};
use std::test::Fail;

/// The dimension of a space, how many cells it has of each, and their alternating sum.
fn shape_of(space: &Space) -> (u8, [u32; 4], i64) {
    (space.dimension(), counts_of(space), space.euler())
}

#[test]
fn spaces_have_their_numbers_of_cells(rt: HostRuntime) -> Result<(), Fail> {
    for (text, dimension, cells, euler) in [
        ("[[[1,0]]]", 0u8, [1u32, 0, 0, 0], 1i64),
        ("[[[1,0]],[1..0]]", 0, [1, 0, 0, 0], 1),
        ("[[[1,0]]]; # done\n", 0, [1, 0, 0, 0], 1),
        (CIRCLE, 1, [2, 2, 0, 0], 0),
        (WEDGE, 1, [3, 4, 0, 0], -1),
        (PLANE, 2, [4, 6, 3, 0], 1),
        (TORUS, 2, [4, 8, 4, 0], 0),
        (SPHERE, 3, [2, 2, 2, 2], 0),
    ] {
        let space = read(rt.alloc(), text)?;
        assert_eq!(rt; shape_of(&space), (dimension, cells, euler));
    }
    Ok(())
}

#[test]
fn the_first_fault_is_named(rt: HostRuntime) {
    let vertex = Cell { dim: 0, number: 1 };
    let edge = Cell { dim: 1, number: 1 };
    for (text, fault) in [
        ("7", SpaceFault::Shape(0)),
        ("[5]", SpaceFault::Shape(1)),
        ("[[[1,1]],3]", SpaceFault::Shape(9)),
        ("[]", SpaceFault::Empty),
        ("[[],[],[],[],[],[]]", SpaceFault::Empty),
        ("[[7],[],[],[],[[1,1]]]", SpaceFault::TooHigh),
        ("[[7]]", SpaceFault::Shape(2)),
        ("[[[]]]", SpaceFault::Shape(2)),
        ("[[[1,[0]]]]", SpaceFault::Shape(5)),
        ("[[[1,1],7]]", SpaceFault::BadCount(vertex)),
        ("[[[1,0]],[[2,1]]]", SpaceFault::BadCount(edge)),
        ("[[[1,0]],[[0]]]", SpaceFault::BadCount(edge)),
        ("[[],[[2,1,2]]]", SpaceFault::FaceOutOfRange(edge)),
        ("[[[1,0]],[[2,2,2]]]", SpaceFault::FaceOutOfRange(edge)),
        (
            "[[[1,0]],[[2,1,1],[3,1,1]]]",
            SpaceFault::RepeatedFace(edge),
        ),
    ] {
        assert_eq!(rt; read(rt.alloc(), text).err(), Some(fault));
    }
}

/// The text of a space.
fn printed(alloc: Global, space: &Space) -> Result<Paper, Failed> {
    let mut paper = Paper::new(alloc, 200).map_err(|_| Failed)?;
    space.print(&mut paper)?;
    Ok(paper)
}

#[test]
fn a_space_is_printed_as_it_is_read(rt: HostRuntime) -> Result<(), Fail> {
    for text in [CIRCLE, WEDGE, PLANE, TORUS, SPHERE] {
        let space = read(rt.alloc(), text)?;
        assert_eq!(rt; printed(rt.alloc(), &space)?.bytes(), text.as_bytes());
    }
    Ok(())
}

#[test]
fn facets_and_cofaces_are_told(rt: HostRuntime) -> Result<(), Fail> {
    let space = read(rt.alloc(), TORUS)?;
    let facets = facets_of(&space, 2, 2);
    let cofaces = cofaces_of(&space, 0, 4);
    assert!(rt; facets == [2u32, 3, 4, 6].as_slice() && cofaces == [4u32, 5, 6, 8].as_slice());
    Ok(())
}

/// A cell, with its faces, as dimensions and numbers; none where it is not there.
fn closed_cell(
    alloc: Global,
    space: &Space,
    dim: u8,
    cell: u32,
) -> Result<Vec<(u8, u32)>, AllocError> {
    let mut ids = Vec::new(alloc);
    if cell > 0 && cell <= space.cells(dim) {
        let cells = space.below(alloc, dim, cell)?;
        for index in 0..cells.len() {
            let face = cells.get(index);
            ids.push((face.dim, face.number))?;
        }
    }
    Ok(ids)
}

#[test]
fn a_cell_has_its_faces(rt: HostRuntime) -> Result<(), Fail> {
    let space = read(rt.alloc(), TORUS)?;
    let wanted = [
        (0u8, 1u32),
        (0, 2),
        (0, 3),
        (0, 4),
        (1, 1),
        (1, 5),
        (1, 7),
        (1, 8),
        (2, 3),
    ];
    let faces = closed_cell(rt.alloc(), &space, 2, 3)?;
    assert_eq!(rt; faces.as_slice(), wanted.as_slice());
    Ok(())
}

/// The text of a space of so many vertices, at least one.
fn vertices(alloc: Global, count: u32) -> Result<String, AllocError> {
    let mut text = String::from_str(alloc, "[[[1,0]")?;
    for _ in 1..count {
        text.push_str(",[1,0]")?;
    }
    text.push_str("]]")?;
    Ok(text)
}

#[test]
fn a_space_has_at_most_60000_cells(rt: HostRuntime) -> Result<(), Fail> {
    for (count, fault) in [(60_000, None), (60_001, Some(SpaceFault::TooManyCells))] {
        let text = vertices(rt.alloc(), count)?;
        assert_eq!(rt; read(rt.alloc(), text.as_str()).err(), fault);
    }
    Ok(())
}

/// Two vertices with two edges, cell by cell.
fn circle(alloc: Global) -> Result<Space, BuildFault> {
    let mut builder = Builder::new(alloc);
    builder.add(0, &[])?;
    builder.add(0, &[])?;
    builder.add(1, &[1, 2])?;
    builder.add(1, &[1, 2])?;
    builder.finish().map_err(|_| BuildFault::Memory)
}

#[test]
fn a_circle_is_built(rt: HostRuntime) -> Result<(), Fail> {
    let space = circle(rt.alloc())?;
    assert_eq!(rt; printed(rt.alloc(), &space)?.bytes(), CIRCLE.as_bytes());
    Ok(())
}
