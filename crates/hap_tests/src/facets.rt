// Simplicial complexes and order complexes of partial orders.
use crate::running::expect;
use std::test::Fail;

const TORUS: &[u8] =
    b"[[1,2,4],[1,3,4],[2,3,5],[2,4,5],[3,4,6],[3,5,6],[4,5,7],[4,6,7],[5,6,1],[5,7,1],[6,7,2],[6,1,2],[7,1,3],[7,2,3]]";

const PLANE: &[u8] =
    b"[[1,2,3],[1,3,4],[1,4,5],[1,5,6],[1,2,6],[2,3,5],[3,4,6],[2,4,5],[3,5,6],[2,4,6]]";

const SPHERE: &[u8] = b"[[1,2,3],[1,2,4],[1,3,4],[2,3,4]]";

const LINE: &[u8] = b"[5,[[1,2],[2,3],[3,4],[4,5]]]";

const SQUARE: &[u8] =
    b"[9,[[1,5],[2,5],[2,6],[3,6],[3,7],[4,7],[1,8],[4,8],[5,9],[6,9],[7,9],[8,9]]]";

#[test]
fn complexes_are_read(rt: HostRuntime) -> Result<(), Fail> {
    for (words, text, out) in [
        (
            ["cells", "--kind", "simplices"].as_slice(),
            SPHERE,
            b"cells 4 6 4 0\neuler 2\n".as_slice(),
        ),
        (
            &["betti", "--kind", "simplices"],
            SPHERE,
            b"betti 1 0 1 0\n",
        ),
        (
            &["betti", "--kind", "simplices", "--mod", "3"],
            TORUS,
            b"betti 1 2 1 0\n",
        ),
        (&["betti", "--kind", "simplices"], PLANE, b"betti 1 1 1 0\n"),
        (
            &["betti", "--kind", "simplices", "--mod", "3"],
            PLANE,
            b"betti 1 0 0 0\n",
        ),
        (
            &["check", "--kind", "simplices"],
            b"[[10],[4294967295]]",
            b"cells 2 0 0 0\neuler 2\nregular\ncomponents 2\n",
        ),
        (
            &["cells", "--kind", "poset"],
            LINE,
            b"cells 5 10 10 5\neuler 0\n",
        ),
        (&["betti", "--kind", "poset"], LINE, b"betti 1 0 0 1\n"),
        (
            &["betti", "--kind", "poset"],
            b"[4,[[1,3],[1,4],[2,3],[2,4]]]",
            b"betti 1 1 0 0\n",
        ),
        (
            &["group", "--kind", "poset"],
            SQUARE,
            b"generators 0\nrelators 0\n",
        ),
    ] {
        expect(&rt, words, text, (0, out, b""))?;
    }
    Ok(())
}

#[test]
fn faults_of_facets_are_named(rt: HostRuntime) -> Result<(), Fail> {
    for (kind, text, status, err) in [
        (
            "simplices",
            b"[[1,1]]".as_slice(),
            4,
            b"hap: facet: repeated label at byte 4\n".as_slice(),
        ),
        (
            "simplices",
            b"[[1,2],[0]]",
            4,
            b"hap: facet: bad label at byte 8\n",
        ),
        ("simplices", b"[]", 4, b"hap: facet: empty\n"),
        (
            "simplices",
            b"[[1],[]]",
            4,
            b"hap: facet: shape at byte 5\n",
        ),
        (
            "simplices",
            b"[[1..200]]",
            5,
            b"hap: limit: cells over 60000\n",
        ),
        (
            "poset",
            b"[3,[[2,1]]]",
            4,
            b"hap: facet: bad label at byte 7\n",
        ),
        (
            "poset",
            b"[4294967295,[]]",
            5,
            b"hap: limit: cells over 60000\n",
        ),
    ] {
        expect(&rt, &["cells", "--kind", kind], text, (status, b"", err))?;
    }
    Ok(())
}
