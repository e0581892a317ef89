// Signs of the cells of a cube, by hand.
use crate::collapses::CUBE;
use crate::worked::read;
use cell_signs::Oriented;
use face_poset::{Graded, Signed, Space};
use regular_check::{RegularFault, check};
use std::alloc::Global;
use std::test::Fail;

/// The signs of the facets of a cell, in their order; none where the cell is not there.
fn signs(alloc: Global, space: &Space, dim: u8, cell: u32) -> Result<Vec<i8>, RegularFault> {
    let regular = check(alloc, space)?;
    let oriented = Oriented::new(alloc, &regular)?;
    let mut signs = Vec::new(alloc);
    if cell > 0 && cell <= oriented.cells(dim) {
        let list = oriented.facets(dim, cell);
        for facet in list {
            signs.push(oriented.sign(dim, cell, *facet))?;
        }
    }
    Ok(signs)
}

// Each face goes along the first and the last of its edges forward or backward as its cycle does: the first two steps
// are forward. From the face below, the signs go on across its edges to the sides, and from the front to the face above.
#[test]
fn a_cube_is_oriented(rt: HostRuntime) -> Result<(), Fail> {
    let space = read(rt.alloc(), CUBE)?;
    let edge = signs(rt.alloc(), &space, 1, 7)?;
    assert_eq!(rt; edge.as_slice(), [-1i8, 1].as_slice());
    let face = signs(rt.alloc(), &space, 2, 5)?;
    assert_eq!(rt; face.as_slice(), [1i8, -1, -1, 1].as_slice());
    let cube = signs(rt.alloc(), &space, 3, 1)?;
    assert_eq!(rt; cube.as_slice(), [1i8, -1, -1, 1, 1, -1].as_slice());
    Ok(())
}
