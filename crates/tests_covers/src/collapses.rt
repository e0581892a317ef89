// Collapses of boundaries of 3-cells, by hand.
use crate::worked::{pair, read};
use face_poset::{Graded, Pair, Space};
use regular_check::{RegularFault, check};
use sphere_collapses::collapse_of;
use std::alloc::Global;
use std::test::Fail;

/// A cube. Vertices, and edges along each axis, are numbered by their places, the first coordinate fastest; the faces
/// are those below and above, in front and behind, to the left and to the right.
pub(crate) const CUBE: &str =
    "[[[1,0],[1,0],[1,0],[1,0],[1,0],[1,0],[1,0],[1,0]],[[2,1,2],[2,3,4],[2,5,6],[2,7,8],[2,1,3],[2,2,4],[2,5,7],[2,6,8],[2,1,5],[2,2,6],[2,3,7],[2,4,8]],[[4,1,2,5,6],[4,3,4,7,8],[4,1,3,9,10],[4,2,4,11,12],[4,5,7,9,11],[4,6,8,10,12]],[[6,1,2,3,4,5,6]]]";

/// The sphere of dimension 3, with two cells of each dimension.
const SPHERE: &str = "[[[1,0],[1,0]],[[2,1,2],[2,1,2]],[[2,1,2],[2,1,2]],[[2,1,2],[2,1,2]]]";

/// The pairs of the collapse of the boundary of the first 3-cell less its first face; want of memory stands for a space
/// without 3-cells.
fn collapse(alloc: Global, space: &Space) -> Result<Vec<Pair>, RegularFault> {
    let regular = check(alloc, space)?;
    if space.cells(3) == 0 {
        return Err(RegularFault::Memory);
    }
    let faces = space.facets(3, 1);
    if faces.is_empty() {
        return Err(RegularFault::Memory);
    }
    let pairs = collapse_of(alloc, &regular, 1, faces[0])?;
    let mut list = Vec::new(alloc);
    for index in 0..pairs.len() {
        list.push(pairs.get(index))?;
    }
    Ok(list)
}

// From the face below the four sides go across its edges, and the face above across the front's. The tree of vertices
// along the other edges goes up at the first corner, round the face above, and down again at the other corners.
#[test]
fn boundaries_less_a_face_collapse(rt: HostRuntime) -> Result<(), Fail> {
    let cube = [
        pair(1, 1, 3),
        pair(1, 2, 4),
        pair(1, 5, 5),
        pair(1, 6, 6),
        pair(1, 3, 2),
        pair(0, 2, 10),
        pair(0, 4, 12),
        pair(0, 6, 8),
        pair(0, 3, 11),
        pair(0, 8, 4),
        pair(0, 7, 7),
        pair(0, 5, 9),
    ];
    let sphere = [pair(1, 1, 2), pair(0, 2, 2)];
    for (text, wanted) in [(CUBE, cube.as_slice()), (SPHERE, sphere.as_slice())] {
        let space = read(rt.alloc(), text)?;
        let found = collapse(rt.alloc(), &space)?;
        assert_eq!(rt; found.as_slice(), wanted, "{text}");
    }
    Ok(())
}
