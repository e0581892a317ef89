// Fields by hand on the circle and the projective plane, and each way in which a list is none.
use crate::worked::{CIRCLE, PLANE, read};
use face_poset::{Graded, Pair};
use std::alloc::{AllocError, Global};
use std::test::Fail;
use vector_field::{PairFault, PairList, Partner, free_field, is_maximal};

/// A pair by its three numbers.
fn pair(dim: u8, lower: u32, upper: u32) -> Pair {
    Pair { dim, lower, upper }
}

/// Whether the pairs are a maximal field, or why they are none.
fn judge<G: Graded>(alloc: Global, graded: &G, pairs: &[Pair]) -> Result<bool, PairFault> {
    let field = PairList::from_pairs(alloc, graded, pairs)?;
    Ok(is_maximal(alloc, graded, &field)?)
}

#[test]
fn fields_of_the_circle_are_judged(rt: HostRuntime) -> Result<(), Fail> {
    let circle = read(rt.alloc(), CIRCLE)?;
    for (pairs, wanted) in [
        ([pair(0, 2, 1)].as_slice(), Ok(true)),
        (&[], Ok(false)),
        (&[pair(0, 2, 1), pair(0, 1, 2)], Err(PairFault::Bad(0))),
        (&[pair(0, 2, 1), pair(0, 2, 2)], Err(PairFault::Bad(1))),
        (&[pair(0, 3, 1), pair(0, 1, 2)], Err(PairFault::Bad(0))),
        (&[pair(0, 2, 1), pair(0, 2, 0)], Err(PairFault::Bad(1))),
        (&[pair(3, 1, 1), pair(0, 1, 2)], Err(PairFault::Bad(0))),
    ] {
        assert_eq!(rt; judge(rt.alloc(), &circle, pairs), wanted);
    }
    Ok(())
}

#[test]
fn lists_on_the_projective_plane_are_refused(rt: HostRuntime) -> Result<(), Fail> {
    let plane = read(rt.alloc(), PLANE)?;
    for second in [pair(0, 4, 2), pair(1, 1, 2)] {
        let found = judge(rt.alloc(), &plane, &[pair(0, 2, 1), second]);
        assert_eq!(rt; found, Err(PairFault::Bad(1)));
    }
    Ok(())
}

/// A maximal field of the projective plane. One cell of each dimension is left.
fn plane_field<G: Graded>(alloc: Global, plane: &G) -> Result<PairList, PairFault> {
    let pairs = [
        pair(0, 4, 3),
        pair(0, 2, 5),
        pair(0, 3, 6),
        pair(1, 2, 3),
        pair(1, 1, 2),
    ];
    PairList::from_pairs(alloc, plane, &pairs)
}

#[test]
fn a_field_keeps_its_pairs(rt: HostRuntime) -> Result<(), Fail> {
    let plane = read(rt.alloc(), PLANE)?;
    let field = plane_field(rt.alloc(), &plane)?;
    assert!(rt; field.len() == 5 && field.get(4) == pair(1, 1, 2));
    Ok(())
}

#[test]
fn critical_cells_are_told(rt: HostRuntime) -> Result<(), Fail> {
    let plane = read(rt.alloc(), PLANE)?;
    let field = plane_field(rt.alloc(), &plane)?;
    for (dim, cell) in [(0u8, 1u32), (1, 4), (2, 1)] {
        assert!(rt; field.critical(dim) == [cell].as_slice());
    }
    Ok(())
}

#[test]
fn partners_are_told(rt: HostRuntime) -> Result<(), Fail> {
    let plane = read(rt.alloc(), PLANE)?;
    let field = plane_field(rt.alloc(), &plane)?;
    for (dim, cell, partner) in [
        (0u8, 4u32, Partner::Upper(3)),
        (1, 3, Partner::Lower(4)),
        (1, 4, Partner::Critical),
        (4, 1, Partner::Critical),
    ] {
        assert!(rt; field.partner(dim, cell) == partner);
    }
    Ok(())
}

/// Whether the field that is found is maximal, and how many cells of each dimension it leaves.
fn found<G: Graded>(alloc: Global, graded: &G) -> Result<(bool, [usize; 3]), AllocError> {
    let field = free_field(alloc, graded)?;
    let left = [
        field.critical(0).len(),
        field.critical(1).len(),
        field.critical(2).len(),
    ];
    Ok((is_maximal(alloc, graded, &field)?, left))
}

#[test]
fn a_maximal_field_is_found(rt: HostRuntime) -> Result<(), Fail> {
    let plane = read(rt.alloc(), PLANE)?;
    assert_eq!(rt; found(rt.alloc(), &plane), Ok((true, [1usize, 1, 1])));
    Ok(())
}
