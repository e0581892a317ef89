// Fields with more pairs, by hand.
use crate::worked::{PLANE, pair, pairs_of, read};
use face_poset::{Graded, Pair};
use std::alloc::Global;
use std::test::Fail;
use vector_field::{PairFault, PairList};

/// The pairs of a field of these pairs, with more of vertices and edges.
fn filled<G: Graded>(alloc: Global, graded: &G, pairs: &[Pair]) -> Result<Vec<Pair>, PairFault> {
    let field = PairList::from_pairs(alloc, graded, pairs)?;
    let more = field.filled(alloc, graded, 0)?;
    Ok(pairs_of(alloc, &more)?)
}

// A path of two edges: vertex 1 leads to vertex 2 along edge 1, so the pair of vertex 2 comes before its own.
// On the plane vertex 2 leads to vertex 3 along edge 4, and vertex 1 to neither.
#[test]
fn pairs_come_before_those_that_lead_to_them(rt: HostRuntime) -> Result<(), Fail> {
    let disks = [pair(1, 2, 3), pair(1, 1, 2)];
    let path = [pair(0, 2, 2), pair(0, 1, 1)];
    let plane = [
        pair(1, 2, 3),
        pair(1, 1, 2),
        pair(0, 1, 3),
        pair(0, 3, 6),
        pair(0, 2, 4),
    ];
    for (text, pairs, wanted) in [
        (
            "[[[1,0],[1,0],[1,0]],[[2,1,2],[2,2,3]]]",
            [].as_slice(),
            path.as_slice(),
        ),
        (PLANE, disks.as_slice(), plane.as_slice()),
    ] {
        let space = read(rt.alloc(), text)?;
        let found = filled(rt.alloc(), &space, pairs)?;
        assert_eq!(rt; found.as_slice(), wanted, "{text}");
    }
    Ok(())
}
