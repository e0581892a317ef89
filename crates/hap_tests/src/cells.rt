// The command `cells`.
use crate::running::expect;
use crate::worked::POINT;
use std::test::Fail;

#[test]
fn cells_are_counted(rt: HostRuntime) -> Result<(), Fail> {
    for (input, text) in [
        (POINT, b"cells 1 0 0 0\neuler 1\n".as_slice()),
        (
            b"[[[1,0],[1,0]],[[2,1,2],[2,1,2]]]",
            b"cells 2 2 0 0\neuler 0\n",
        ),
        (
            b"[[[1,0],[1,0]],[[2,1,2],[2,1,2]],[[2,1,2],[2,1,2]],[[2,1,2],[2,1,2]]]",
            b"cells 2 2 2 2\neuler 0\n",
        ),
        (
            b"[[[1,0],[1,0]],[[2,1,2],[2,1,2],[2,1,2]],[]]",
            b"cells 2 3 0 0\neuler -1\n",
        ),
        (
            b"[ [ [ 1, 0 ], [ 1, 0 ] ],\n  [ [ 2, 1, 2 ], [ 2, 1, 2 ] ], # a circle\n  [] ];\n",
            b"cells 2 2 0 0\neuler 0\n",
        ),
    ] {
        expect(&rt, &["cells"], input, (0, text, b""))?;
    }
    Ok(())
}

#[test]
fn refusals_have_their_status_and_line(rt: HostRuntime) -> Result<(), Fail> {
    let long = vec![in rt.alloc(); 32u8; 16_777_217]?;
    for (input, status, line) in [
        (
            b"[1,".as_slice(),
            3,
            b"hap: text: input ends at byte 3\n".as_slice(),
        ),
        (b"[1,3..9]", 3, b"hap: text: stepped range at byte 4\n"),
        (b"[-1]", 3, b"hap: text: bad byte at byte 1\n"),
        (b"[1 1]", 3, b"hap: text: stray token at byte 3\n"),
        (b"[1..]", 3, b"hap: text: bad range at byte 4\n"),
        (b"4294967296", 3, b"hap: text: number too big at byte 0\n"),
        (b"[[[[[[[[[", 3, b"hap: text: too deep at byte 8\n"),
        (b"7", 4, b"hap: space: shape at byte 0\n"),
        (b"[]", 4, b"hap: space: empty\n"),
        (b"[[],[],[],[],[[1]]]", 4, b"hap: space: dimension over 3\n"),
        (
            b"[[[0]]]",
            4,
            b"hap: space: bad count in dimension 0 cell 1\n",
        ),
        (
            b"[[[1,0]],[[2,1,2]]]",
            4,
            b"hap: space: face out of range in dimension 1 cell 1\n",
        ),
        (
            b"[[[1,0]],[[2,1,1]]]",
            4,
            b"hap: space: repeated face in dimension 1 cell 1\n",
        ),
        (b"[[1..60001]]", 5, b"hap: limit: cells over 60000\n"),
        (&long, 5, b"hap: limit: input over 16777216 bytes\n"),
    ] {
        expect(&rt, &["cells"], input, (status, b"", line))?;
    }
    Ok(())
}
