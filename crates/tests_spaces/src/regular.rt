// The worked examples of spaces that are regular, and for each rule a space that breaks it alone.
use crate::worked::{CIRCLE, PLANE, SPHERE, TORUS, counts_of, read};
use face_poset::{Graded, Space};
use regular_check::{RegularFault, check};
use std::alloc::Global;
use std::test::Fail;

#[test]
fn regular_spaces_are_taken(rt: HostRuntime) -> Result<(), Fail> {
    for (text, cells) in [
        ("[[[1,0],[1,0]]]", [2u32, 0, 0, 0]),
        (PLANE, [4, 6, 3, 0]),
        (TORUS, [4, 8, 4, 0]),
        (SPHERE, [2, 2, 2, 2]),
    ] {
        let space = read(rt.alloc(), text)?;
        let regular = check(rt.alloc(), &space)?;
        assert_eq!(rt; counts_of(regular.space()), cells);
    }
    Ok(())
}

#[test]
fn the_first_rule_that_is_broken_is_named(rt: HostRuntime) -> Result<(), Fail> {
    for (text, fault) in [
        ("[[[1,0]],[[1,1]]]", RegularFault::EdgeEnds(1)),
        (
            "[[[1,0],[1,0],[1,0]],[[2,1,2],[3,1,2,3]]]",
            RegularFault::EdgeEnds(2),
        ),
        (
            "[[[1,0],[1,0],[1,0],[1,0]],[[2,1,2],[2,1,2],[2,3,4],[2,3,4]],[[4,1,2,3,4]]]",
            RegularFault::NotCycle(1),
        ),
        (
            "[[[1,0],[1,0]],[[2,1,2],[2,1,2]],[[2,1,2]],[[1,1]]]",
            RegularFault::EdgeNotTwice(1),
        ),
        (
            "[[[1,0],[1,0],[1,0],[1,0]],[[2,1,2],[2,1,2],[2,3,4],[2,3,4]],[[2,1,2],[2,1,2],[2,3,4],[2,3,4]],[[4,1,2,3,4]]]",
            RegularFault::Apart(1),
        ),
        (
            "[[[1,0],[1,0],[1,0],[1,0]],[[2,1,2],[2,1,2],[2,1,3],[2,2,4],[2,3,4],[2,3,4],[2,1,3],[2,2,4]],[[4,1,3,4,5],[4,2,3,4,6],[4,1,5,7,8],[4,2,6,7,8]],[[4,1,2,3,4]]]",
            RegularFault::NotSphere(1, 0),
        ),
    ] {
        let space = read(rt.alloc(), text)?;
        assert_eq!(rt; check(rt.alloc(), &space).err(), Some(fault));
    }
    Ok(())
}

/// The cycle of a 2-cell, each edge with its direction; none where the cell is not there.
fn cycle(alloc: Global, space: &Space, cell: u32) -> Result<Vec<(u32, bool)>, RegularFault> {
    let regular = check(alloc, space)?;
    let mut steps = Vec::new(alloc);
    if cell > 0 && cell <= regular.space().cells(2) {
        for step in regular.cycle_of(cell) {
            steps.push((step.edge, step.forward))?;
        }
    }
    Ok(steps)
}

#[test]
fn cycles_go_from_the_least_vertex_along_the_lower_edge(rt: HostRuntime) -> Result<(), Fail> {
    let space = read(rt.alloc(), PLANE)?;
    for (cell, wanted) in [
        (1u32, [(1u32, true), (4, true), (6, true), (3, false)]),
        (2, [(1, true), (5, true), (6, false), (2, false)]),
        (3, [(2, true), (4, false), (5, true), (3, false)]),
    ] {
        let steps = cycle(rt.alloc(), &space, cell)?;
        assert_eq!(rt; steps.as_slice(), wanted.as_slice());
    }
    Ok(())
}

/// How many components there are, and the number of each of two vertices.
fn components(alloc: Global, space: &Space) -> Result<(u32, u32, u32), RegularFault> {
    let regular = check(alloc, space)?;
    let components = regular.components(alloc)?;
    if regular.space().cells(0) != 2 {
        return Ok((components.count(), 0, 0));
    }
    Ok((components.count(), components.of(1), components.of(2)))
}

#[test]
fn components_are_numbered_by_their_least_vertices(rt: HostRuntime) -> Result<(), Fail> {
    for (text, wanted) in [("[[[1,0],[1,0]]]", (2u32, 1u32, 2u32)), (CIRCLE, (1, 1, 1))] {
        let space = read(rt.alloc(), text)?;
        assert_eq!(rt; components(rt.alloc(), &space)?, wanted);
    }
    Ok(())
}
