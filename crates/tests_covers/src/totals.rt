// Total spaces by hand: three sheets over two circles with one vertex in common, and one sheet over a cube.
use crate::collapses::CUBE;
use crate::worked::read;
use face_poset::{Graded, Space};
use part_covers::{Wanted, numbered_cover};
use regular_check::check;
use std::alloc::{AllocError, Global};
use std::test::Fail;

/// The circles have the edges 1 and 2, and 3 and 4; vertex 1 lies on both.
const WEDGE: &str = "[[[1,0],[1,0],[1,0]],[[2,1,2],[2,1,2],[2,1,3],[2,1,3]]]";

/// The total space of a cover with at most three sheets, by its number; want of memory stands for a space that is not
/// regular, and for a cover that is not there.
fn total_of(alloc: Global, space: &Space, index: u32) -> Result<Space, AllocError> {
    if index == 0 {
        return Err(AllocError);
    }
    let regular = check(alloc, space).map_err(|_| AllocError)?;
    let wanted = Wanted {
        component: 1,
        sheets: 3,
        index,
        budget: 1000,
    };
    let cover = numbered_cover(alloc, &regular, wanted).map_err(|_| AllocError)?;
    Ok(cover.into_total())
}

/// The facets of all cells of a dimension, one after another.
fn facets_of(alloc: Global, space: &Space, dim: u8) -> Result<Vec<u32>, AllocError> {
    let mut facets = Vec::new(alloc);
    for index in 0..space.cells(dim) {
        facets.extend_from_slice(space.facets(dim, index + 1))?;
    }
    Ok(facets)
}

// The fifth cover: the first circle leads each of three sheets to itself, the second one round, from sheet 1 to 2 and
// from 2 to 3.
// Over edge 4 stand those from sheet 1 to 2, from 2 to 3 and from 3 to 1, and over the others those of one sheet.
#[test]
fn three_sheets_stand_over_two_circles(rt: HostRuntime) -> Result<(), Fail> {
    let space = read(rt.alloc(), WEDGE)?;
    let total = total_of(rt.alloc(), &space, 5)?;
    let edges = facets_of(rt.alloc(), &total, 1)?;
    let wanted = [
        1u32, 4, 2, 5, 3, 6, 1, 4, 2, 5, 3, 6, 1, 7, 2, 8, 3, 9, 1, 8, 2, 9, 3, 7,
    ];
    assert_eq!(rt; edges.as_slice(), wanted.as_slice());
    Ok(())
}

#[test]
fn one_sheet_over_a_cube_is_the_cube(rt: HostRuntime) -> Result<(), Fail> {
    let space = read(rt.alloc(), CUBE)?;
    let total = total_of(rt.alloc(), &space, 1)?;
    for dim in 0..4u8 {
        assert_eq!(rt; total.cells(dim), space.cells(dim));
        let found = facets_of(rt.alloc(), &total, dim)?;
        let wanted = facets_of(rt.alloc(), &space, dim)?;
        assert_eq!(rt; found.as_slice(), wanted.as_slice());
    }
    Ok(())
}
