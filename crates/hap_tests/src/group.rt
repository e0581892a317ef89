// The command `group`.
use crate::running::expect;
use crate::worked::{CIRCLE, CIRCLES, PLANE, POINT, SPHERE, TORUS, WEDGE};
use std::test::Fail;

/// Two vertices, four edges between them and five bigons: a pair is added to its field by a test of paths.
const BIGONS: &[u8] =
    b"[[[1,0],[1,0]],[[2,1,2],[2,1,2],[2,1,2],[2,1,2]],[[2,2,3],[2,3,4],[2,1,2],[2,1,2],[2,3,4]]]";

#[test]
fn spaces_have_groups(rt: HostRuntime) -> Result<(), Fail> {
    for (text, out) in [
        (POINT, b"generators 0\nrelators 0\n".as_slice()),
        (CIRCLE, b"generators 1\ngenerator 1 2\nrelators 0\n"),
        (
            WEDGE,
            b"generators 2\ngenerator 1 2\ngenerator 2 4\nrelators 0\n",
        ),
        (
            PLANE,
            b"generators 1\ngenerator 1 4\nrelators 1\nrelator 1 1\n",
        ),
        (
            TORUS,
            b"generators 2\ngenerator 1 6\ngenerator 2 8\nrelators 1\nrelator -2 1 2 -1\n",
        ),
        (SPHERE, b"generators 0\nrelators 0\n"),
        (BIGONS, b"generators 0\nrelators 2\nrelator -\nrelator -\n"),
    ] {
        expect(&rt, &["group"], text, (0, out, b""))?;
    }
    Ok(())
}

#[test]
fn each_component_has_a_group(rt: HostRuntime) -> Result<(), Fail> {
    for (text, out) in [
        (
            CIRCLES,
            b"component 1\ngenerators 1\ngenerator 1 2\nrelators 0\ncomponent 2\ngenerators 1\ngenerator 1 4\nrelators 0\n".as_slice(),
        ),
        (
            b"[[[1,0],[1,0],[1,0],[1,0],[1,0]],[[2,1,3],[2,1,3],[2,2,5],[2,2,5],[2,2,5]]]",
            b"component 1\ngenerators 1\ngenerator 1 2\nrelators 0\ncomponent 2\ngenerators 2\ngenerator 1 4\ngenerator 2 5\nrelators 0\ncomponent 3\ngenerators 0\nrelators 0\n",
        ),
    ] {
        expect(&rt, &["group"], text, (0, out, b""))?;
    }
    Ok(())
}

#[test]
fn the_group_of_a_knot_has_relators(rt: HostRuntime) -> Result<(), Fail> {
    expect(
        &rt,
        &["group", "--kind", "arcs"],
        b"[ [ 2, 5 ], [ 1, 3 ], [ 2, 4 ], [ 3, 5 ], [ 1, 4 ] ];",
        (
            0,
            b"generators 2\ngenerator 1 1462\ngenerator 2 1954\nrelators 2\nrelator -2 1 -2 -1 2 -1\nrelator 1 -2 1 2 -1 2\n",
            b"",
        ),
    )
}

#[test]
fn a_space_with_a_group_is_regular(rt: HostRuntime) -> Result<(), Fail> {
    for (text, err) in [
        (
            b"[[[1,0]],[[1,1]]]".as_slice(),
            b"hap: space: edge ends, cell 1\n".as_slice(),
        ),
        (b"[]", b"hap: space: empty\n"),
    ] {
        expect(&rt, &["group"], text, (4, b"", err))?;
    }
    Ok(())
}
