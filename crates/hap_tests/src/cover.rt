// The command `cover`.
use crate::running::expect;
use crate::worked::{CIRCLE, CIRCLES, PLANE, WEDGE};
use std::test::Fail;

#[test]
fn one_cover_is_written(rt: HostRuntime) -> Result<(), Fail> {
    for (text, words, status, out, err) in [
        (
            PLANE,
            ["cover", "--sheets", "5", "--index", "2"].as_slice(),
            0,
            b"[[[1,0],[1,0],[1,0],[1,0],[1,0],[1,0],[1,0],[1,0]],[[2,1,4],[2,2,3],[2,1,6],[2,2,5],[2,1,7],[2,2,8],[2,3,6],[2,4,5],[2,3,7],[2,4,8],[2,5,7],[2,6,8]],[[4,1,5,8,11],[4,2,6,7,12],[4,1,3,10,12],[4,2,4,9,11],[4,3,5,7,9],[4,4,6,8,10]]]\n".as_slice(),
            b"".as_slice(),
        ),
        (
            PLANE,
            &["cover", "--sheets", "5", "--index", "2", "--mod", "2"],
            0,
            b"cover 2 2/1\ncells 8 12 6 0\nbetti 1 0 1 0\n",
            b"",
        ),
        (
            PLANE,
            &["cover", "--sheets", "5", "--index", "3"],
            5,
            b"",
            b"hap: limit: only 2 covers\n",
        ),
        (
            CIRCLE,
            &["cover", "--sheets", "2", "--index", "2"],
            0,
            b"[[[1,0],[1,0],[1,0],[1,0]],[[2,1,3],[2,2,4],[2,1,4],[2,2,3]]]\n",
            b"",
        ),
        (
            CIRCLES,
            &["cover", "--sheets", "2", "--index", "2", "--component", "2"],
            0,
            b"[[[1,0],[1,0],[1,0],[1,0]],[[2,1,3],[2,2,4],[2,1,4],[2,2,3]]]\n",
            b"",
        ),
        (
            CIRCLES,
            &["cover", "--sheets", "2", "--index", "1", "--component", "3"],
            5,
            b"",
            b"hap: limit: only 2 components\n",
        ),
        (
            WEDGE,
            &["cover", "--sheets", "2", "--index", "4", "--budget", "5"],
            6,
            b"",
            b"hap: spent 2:1,2\n",
        ),
    ] {
        expect(&rt, words, text, (status, out, err))?;
    }
    Ok(())
}
