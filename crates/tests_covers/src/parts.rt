// A circle, a graph and a point whose numbers interleave: the space of each, and where its cells come from.
use crate::worked::read;
use face_poset::{Graded, Space, SpaceFault};
use hap_outside::{Failed, Paper};
use regular_check::{RegularFault, check};
use space_parts::{Part, parts_of};
use std::alloc::{AllocError, Global};
use std::test::Fail;

/// Vertices 1 and 3 with edges 1 and 2, vertices 2 and 5 with edges 3, 4 and 5, and vertex 4.
fn three(alloc: Global) -> Result<Space, SpaceFault> {
    read(
        alloc,
        "[[[1,0],[1,0],[1,0],[1,0],[1,0]],[[2,1,3],[2,1,3],[2,2,5],[2,2,5],[2,2,5]]]",
    )
}

/// How many parts a space has.
fn count(alloc: Global, space: &Space) -> Result<u32, RegularFault> {
    let regular = check(alloc, space)?;
    let parts = parts_of(alloc, &regular)?;
    Ok(parts.count())
}

#[test]
fn parts_are_counted(rt: HostRuntime) -> Result<(), Fail> {
    let space = three(rt.alloc())?;
    assert_eq!(rt; count(rt.alloc(), &space), Ok(3u32));
    Ok(())
}

/// The part of a component; want of memory stands for one that is not there.
fn part(alloc: Global, space: &Space, component: u32) -> Result<Part, RegularFault> {
    let regular = check(alloc, space)?;
    let parts = parts_of(alloc, &regular)?;
    if component == 0 || component > parts.count() {
        return Err(RegularFault::Memory);
    }
    Ok(parts.part(alloc, component)?)
}

/// The text of a space.
fn printed(alloc: Global, space: &Space) -> Result<Paper, Failed> {
    let mut paper = Paper::new(alloc, 200).map_err(|_| Failed)?;
    space.print(&mut paper)?;
    Ok(paper)
}

#[test]
fn parts_are_spaces_of_their_own(rt: HostRuntime) -> Result<(), Fail> {
    let space = three(rt.alloc())?;
    for (component, text) in [
        (1u32, "[[[1,0],[1,0]],[[2,1,2],[2,1,2]]]\n"),
        (2, "[[[1,0],[1,0]],[[2,1,2],[2,1,2],[2,1,2]]]\n"),
        (3, "[[[1,0]]]\n"),
    ] {
        let part = part(rt.alloc(), &space, component)?;
        let paper = printed(rt.alloc(), part.space())?;
        assert_eq!(rt; paper.bytes(), text.as_bytes());
    }
    Ok(())
}

/// The cells of a dimension of a part, by their numbers in the whole space.
fn wholes(alloc: Global, part: &Part, dim: u8) -> Result<Vec<u32>, AllocError> {
    let mut cells = Vec::new(alloc);
    for index in 0..part.space().cells(dim) {
        cells.push(part.whole(dim, index + 1))?;
    }
    Ok(cells)
}

#[test]
fn cells_of_parts_come_from_the_space(rt: HostRuntime) -> Result<(), Fail> {
    let space = three(rt.alloc())?;
    for (component, dim, cells) in [
        (1u32, 0u8, [1u32, 3].as_slice()),
        (1, 1, &[1, 2]),
        (2, 0, &[2, 5]),
        (2, 1, &[3, 4, 5]),
        (3, 0, &[4]),
        (3, 1, &[]),
    ] {
        let part = part(rt.alloc(), &space, component)?;
        let found = wholes(rt.alloc(), &part, dim)?;
        assert_eq!(rt; found.as_slice(), cells, "{component} in {dim}");
    }
    Ok(())
}

#[test]
fn a_part_is_handed_over_as_a_space(rt: HostRuntime) -> Result<(), Fail> {
    let space = three(rt.alloc())?;
    let own = part(rt.alloc(), &space, 2)?.into_space();
    assert!(rt; own.cells(0) == 2 && own.cells(1) == 3);
    Ok(())
}
