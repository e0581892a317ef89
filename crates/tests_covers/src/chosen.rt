// Chosen fields of worked examples.
use crate::worked::{PLANE, pair, pairs_of, read};
use chosen_field::tree_field;
use face_poset::{Pair, Space};
use regular_check::{RegularFault, check};
use std::alloc::Global;
use std::test::Fail;

/// Two vertices, four edges between them, and five bigons. Pairs of free faces alone leave an edge and a bigon critical
/// that can be paired.
const BIGONS: &str =
    "[[[1,0],[1,0]],[[2,1,2],[2,1,2],[2,1,2],[2,1,2]],[[2,2,3],[2,3,4],[2,1,2],[2,1,2],[2,3,4]]]";

/// The pairs of the chosen field; want of memory stands for a space with several components.
fn chosen(alloc: Global, space: &Space) -> Result<Vec<Pair>, RegularFault> {
    let regular = check(alloc, space)?;
    let components = regular.components(alloc)?;
    if components.count() != 1 {
        return Err(RegularFault::Memory);
    }
    Ok(pairs_of(alloc, &tree_field(alloc, &regular)?)?)
}

#[test]
fn spaces_have_their_chosen_fields(rt: HostRuntime) -> Result<(), Fail> {
    let bigons = [pair(0, 2, 4), pair(1, 3, 5), pair(1, 2, 1), pair(1, 1, 4)];
    let plane = [
        pair(0, 4, 3),
        pair(0, 2, 5),
        pair(0, 3, 6),
        pair(1, 2, 3),
        pair(1, 1, 2),
    ];
    for (text, wanted) in [(BIGONS, bigons.as_slice()), (PLANE, plane.as_slice())] {
        let space = read(rt.alloc(), text)?;
        let found = chosen(rt.alloc(), &space)?;
        assert_eq!(rt; found.as_slice(), wanted, "{text}");
    }
    Ok(())
}
