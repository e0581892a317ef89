// The command `check`.
use crate::running::expect;
use crate::worked::{CIRCLE, PLANE, POINT, SPHERE, TORUS, WEDGE};
use std::test::Fail;

#[test]
fn regular_spaces_have_components(rt: HostRuntime) -> Result<(), Fail> {
    for (text, out) in [
        (
            POINT,
            b"cells 1 0 0 0\neuler 1\nregular\ncomponents 1\n".as_slice(),
        ),
        (CIRCLE, b"cells 2 2 0 0\neuler 0\nregular\ncomponents 1\n"),
        (WEDGE, b"cells 3 4 0 0\neuler -1\nregular\ncomponents 1\n"),
        (PLANE, b"cells 4 6 3 0\neuler 1\nregular\ncomponents 1\n"),
        (TORUS, b"cells 4 8 4 0\neuler 0\nregular\ncomponents 1\n"),
        (SPHERE, b"cells 2 2 2 2\neuler 0\nregular\ncomponents 1\n"),
        (
            b"[[[1,0],[1,0]]]",
            b"cells 2 0 0 0\neuler 2\nregular\ncomponents 2\n",
        ),
    ] {
        expect(&rt, &["check"], text, (0, out, b""))?;
    }
    Ok(())
}

#[test]
fn broken_rules_are_named(rt: HostRuntime) -> Result<(), Fail> {
    for (text, err) in [
        (
            b"[[[1,0],[1,0],[1,0],[1,0]],[[2,1,2],[2,1,2],[2,1,3],[2,2,4],[2,3,4],[2,3,4],[2,1,3],[2,2,4]],[[4,1,3,4,5],[4,2,3,4,6],[4,1,5,7,8],[4,2,6,7,8]],[[4,1,2,3,4]]]".as_slice(),
            b"hap: space: not a sphere, cell 1, value 0\n".as_slice(),
        ),
        (
            b"[[[1,0],[1,0],[1,0],[1,0]],[[2,1,2],[2,1,2],[2,3,4],[2,3,4]],[[4,1,2,3,4]]]",
            b"hap: space: not a cycle, cell 1\n",
        ),
        (b"[[[1,0]],[[1,1]]]", b"hap: space: edge ends, cell 1\n"),
        (
            b"[[[1,0],[1,0]],[[2,1,2],[2,1,2]],[[2,1,2]],[[1,1]]]",
            b"hap: space: edge not twice, cell 1\n",
        ),
        (
            b"[[[1,0],[1,0],[1,0],[1,0]],[[2,1,2],[2,1,2],[2,3,4],[2,3,4]],[[2,1,2],[2,1,2],[2,3,4],[2,3,4]],[[4,1,2,3,4]]]",
            b"hap: space: apart, cell 1\n",
        ),
    ] {
        for word in ["check", "betti"] {
            expect(&rt, &[word], text, (4, b"", err))?;
        }
    }
    Ok(())
}
