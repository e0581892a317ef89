// The pairs inside cells and the cells by their flags, by hand.
use crate::worked::{CIRCLE, CUBE, PLANE, TORUS, read};
use cell_signs::Oriented;
use face_poset::{Graded, Space};
use local_field::{Flags, local_field};
use order_complex::Chains;
use regular_check::check;
use std::alloc::{AllocError, Global};
use std::test::Fail;
use vector_field::PairList;

/// A disk of two edges.
const DISK: &str = "[[[1,0],[1,0]],[[2,1,2],[2,1,2]],[[2,1,2]]]";

/// The field of the pairs inside the cells of a space.
fn field_on(alloc: Global, space: &Space) -> Result<PairList, AllocError> {
    let Ok(regular) = check(alloc, space) else {
        return Err(AllocError);
    };
    let Ok(chains) = Chains::new(alloc, space, 1000) else {
        return Err(AllocError);
    };
    local_field(alloc, &chains, &regular)
}

/// Its pairs, as dimensions with both numbers.
fn pairs(alloc: Global, text: &str) -> Result<Vec<(u8, u32, u32)>, AllocError> {
    let Ok(space) = read(alloc, text) else {
        return Err(AllocError);
    };
    let field = field_on(alloc, &space)?;
    let mut pairs = Vec::new(alloc);
    for index in 0..field.len() {
        let pair = field.get(index);
        pairs.push((pair.dim, pair.lower, pair.upper))?;
    }
    Ok(pairs)
}

/// How many pairs it has, and how many chains of each degree are in none.
fn counts(alloc: Global, text: &str) -> Result<[usize; 5], AllocError> {
    let Ok(space) = read(alloc, text) else {
        return Err(AllocError);
    };
    let field = field_on(alloc, &space)?;
    Ok([
        field.len() as usize,
        field.critical(0).len(),
        field.critical(1).len(),
        field.critical(2).len(),
        field.critical(3).len(),
    ])
}

/// The cells of a dimension in the order of their flags, and the facets by places of the one at a place.
fn by_flags(
    alloc: Global,
    text: &str,
    dim: u8,
    place: u32,
) -> Result<(Vec<u32>, Vec<u32>), AllocError> {
    let Ok(space) = read(alloc, text) else {
        return Err(AllocError);
    };
    let Ok(regular) = check(alloc, &space) else {
        return Err(AllocError);
    };
    let Ok(chains) = Chains::new(alloc, &space, 1000) else {
        return Err(AllocError);
    };
    let oriented = Oriented::new(alloc, &regular)?;
    let flags = Flags::new(alloc, &chains, &oriented)?;
    let mut cells = Vec::new(alloc);
    for index in 0..flags.cells(dim) {
        cells.push(flags.cell(dim, index + 1))?;
    }
    let mut facets = Vec::new(alloc);
    if place > 0 && place <= flags.cells(dim) {
        facets.extend_from_slice(flags.facets(dim, place))?;
    }
    Ok((cells, facets))
}

// The chains of two cells are 1 3, 1 4, 2 3 and 2 4, where 3 and 4 are the edges.
#[test]
fn an_edge_goes_with_its_other_vertex(rt: HostRuntime) -> Result<(), Fail> {
    let pairs = pairs(rt.alloc(), CIRCLE)?;
    assert_eq!(rt; pairs.as_slice(), [(0u8, 3u32, 3u32), (0, 4, 4)].as_slice());
    Ok(())
}

// The edges are 3 and 4, the disk is 5; its chains are paired on from the vertex 2, along the second edge.
#[test]
fn a_disk_is_paired_round_its_cycle(rt: HostRuntime) -> Result<(), Fail> {
    let pairs = pairs(rt.alloc(), DISK)?;
    assert_eq!(rt;
        pairs.as_slice(),
        [
            (0u8, 3u32, 4u32),
            (0, 4, 5),
            (0, 5, 6),
            (1, 8, 4),
            (1, 3, 2),
            (1, 7, 3)
        ]
        .as_slice()
    );
    Ok(())
}

#[test]
fn one_chain_a_cell_is_left_over(rt: HostRuntime) {
    for (text, wanted) in [
        (CIRCLE, [2usize, 2, 2, 0, 0]),
        (DISK, [6, 2, 2, 1, 0]),
        (PLANE, [30, 4, 6, 3, 0]),
        (TORUS, [40, 4, 8, 4, 0]),
        (CUBE, [133, 8, 12, 6, 1]),
    ] {
        assert_eq!(rt; counts(rt.alloc(), text), Ok(wanted));
    }
}

// The seventh edge begins at the first vertex, and so it comes before the fourth; the third square has the first edge.
#[test]
fn flags_are_not_in_the_order_of_cells(rt: HostRuntime) -> Result<(), Fail> {
    let (edges, ends) = by_flags(rt.alloc(), TORUS, 1, 5)?;
    assert_eq!(rt; edges.as_slice(), [1u32, 2, 3, 7, 4, 8, 5, 6].as_slice());
    assert_eq!(rt; ends.as_slice(), [2u32, 4].as_slice());
    let (squares, sides) = by_flags(rt.alloc(), TORUS, 2, 2)?;
    assert_eq!(rt; squares.as_slice(), [1u32, 3, 2, 4].as_slice());
    assert_eq!(rt; sides.as_slice(), [1u32, 4, 6, 7].as_slice());
    Ok(())
}
