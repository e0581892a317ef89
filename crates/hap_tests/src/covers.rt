// The command `covers`.
use crate::running::expect;
use crate::worked::{CIRCLE, CIRCLES, PLANE, POINT, WEDGE};
use std::process::Abort;
use std::test::Fail;

/// A circle, a graph of two vertices and three edges, and a point, each with vertices between those of the others.
const BETWEEN: &[u8] =
    b"[[[1,0],[1,0],[1,0],[1,0],[1,0]],[[2,1,3],[2,1,3],[2,2,5],[2,2,5],[2,2,5]]]";

/// Lists the covers of at most two sheets of the space of the text, with these words more.
fn expect_covers(
    rt: &(impl Abort + AllocGlobal),
    more: &[&str],
    text: &[u8],
    wanted: (u8, &[u8], &[u8]),
) -> Result<(), Fail> {
    match more {
        [first, second] => expect(
            rt,
            &["covers", "--sheets", "2", first, second],
            text,
            wanted,
        ),
        [first, second, third, last] => {
            let words = ["covers", "--sheets", "2", first, second, third, last];
            expect(rt, &words, text, wanted)
        }
        _ => expect(rt, &["covers", "--sheets", "2"], text, wanted),
    }
}

#[test]
fn spaces_have_covers(rt: HostRuntime) -> Result<(), Fail> {
    for (text, sheets, out) in [
        (
            POINT,
            "2",
            b"columns 0\ncover 1 -\ncounts 1 0\ndone\n".as_slice(),
        ),
        (
            CIRCLE,
            "3",
            b"columns 1\ncover 1 1\ncover 2 2/1\ncover 3 2/3/1\ncounts 1 1 1\ndone\n",
        ),
        (
            PLANE,
            "5",
            b"columns 1\ncover 1 1\ncover 2 2/1\ncounts 1 1 0 0 0\ndone\n",
        ),
        (
            WEDGE,
            "3",
            b"columns 2\ncover 1 1,1\ncover 2 1,2/2,1\ncover 2 2,1/1,2\ncover 2 2,2/1,1\ncover 3 1,2/2,3/3,1\ncover 3 1,2/3,1/2,3\ncover 3 1,2/3,3/2,1\ncover 3 2,1/3,2/1,3\ncover 3 2,1/3,3/1,2\ncover 3 2,2/3,3/1,1\ncover 3 2,3/3,1/1,2\ncounts 1 3 7\ndone\n",
        ),
    ] {
        expect(&rt, &["covers", "--sheets", sheets], text, (0, out, b""))?;
    }
    Ok(())
}

#[test]
fn the_wedge_is_listed_from_each_position(rt: HostRuntime) -> Result<(), Fail> {
    for (budget, position, status, out, err, rest) in [
        (
            "1",
            "1:1",
            6,
            b"columns 2\ncounts 0 0\nspent 1:1\n".as_slice(),
            b"hap: spent 1:1\n".as_slice(),
            b"columns 2\ncover 1 1,1\ncover 2 1,2/2,1\ncover 2 2,1/1,2\ncover 2 2,2/1,1\ncounts 1 3\ndone\n".as_slice(),
        ),
        (
            "2",
            "1:1,1",
            6,
            b"columns 2\ncover 1 1,1\ncounts 1 0\nspent 1:1,1\n",
            b"hap: spent 1:1,1\n",
            b"columns 2\ncover 2 1,2/2,1\ncover 2 2,1/1,2\ncover 2 2,2/1,1\ncounts 0 3\ndone\n",
        ),
        (
            "3",
            "2:1",
            6,
            b"columns 2\ncover 1 1,1\ncounts 1 0\nspent 2:1\n",
            b"hap: spent 2:1\n",
            b"columns 2\ncover 2 1,2/2,1\ncover 2 2,1/1,2\ncover 2 2,2/1,1\ncounts 0 3\ndone\n",
        ),
        (
            "4",
            "2:1,1",
            6,
            b"columns 2\ncover 1 1,1\ncounts 1 0\nspent 2:1,1\n",
            b"hap: spent 2:1,1\n",
            b"columns 2\ncover 2 1,2/2,1\ncover 2 2,1/1,2\ncover 2 2,2/1,1\ncounts 0 3\ndone\n",
        ),
        (
            "5",
            "2:1,2",
            6,
            b"columns 2\ncover 1 1,1\ncounts 1 0\nspent 2:1,2\n",
            b"hap: spent 2:1,2\n",
            b"columns 2\ncover 2 1,2/2,1\ncover 2 2,1/1,2\ncover 2 2,2/1,1\ncounts 0 3\ndone\n",
        ),
        (
            "6",
            "2:1,2,2",
            6,
            b"columns 2\ncover 1 1,1\ncounts 1 0\nspent 2:1,2,2\n",
            b"hap: spent 2:1,2,2\n",
            b"columns 2\ncover 2 1,2/2,1\ncover 2 2,1/1,2\ncover 2 2,2/1,1\ncounts 0 3\ndone\n",
        ),
        (
            "7",
            "2:1,2,2,1",
            6,
            b"columns 2\ncover 1 1,1\ncover 2 1,2/2,1\ncounts 1 1\nspent 2:1,2,2,1\n",
            b"hap: spent 2:1,2,2,1\n",
            b"columns 2\ncover 2 2,1/1,2\ncover 2 2,2/1,1\ncounts 0 2\ndone\n",
        ),
        (
            "8",
            "2:2",
            6,
            b"columns 2\ncover 1 1,1\ncover 2 1,2/2,1\ncounts 1 1\nspent 2:2\n",
            b"hap: spent 2:2\n",
            b"columns 2\ncover 2 2,1/1,2\ncover 2 2,2/1,1\ncounts 0 2\ndone\n",
        ),
        (
            "9",
            "2:2,1",
            6,
            b"columns 2\ncover 1 1,1\ncover 2 1,2/2,1\ncounts 1 1\nspent 2:2,1\n",
            b"hap: spent 2:2,1\n",
            b"columns 2\ncover 2 2,1/1,2\ncover 2 2,2/1,1\ncounts 0 2\ndone\n",
        ),
        (
            "10",
            "2:2,1,1",
            6,
            b"columns 2\ncover 1 1,1\ncover 2 1,2/2,1\ncounts 1 1\nspent 2:2,1,1\n",
            b"hap: spent 2:2,1,1\n",
            b"columns 2\ncover 2 2,1/1,2\ncover 2 2,2/1,1\ncounts 0 2\ndone\n",
        ),
        (
            "11",
            "2:2,1,1,2",
            6,
            b"columns 2\ncover 1 1,1\ncover 2 1,2/2,1\ncover 2 2,1/1,2\ncounts 1 2\nspent 2:2,1,1,2\n",
            b"hap: spent 2:2,1,1,2\n",
            b"columns 2\ncover 2 2,2/1,1\ncounts 0 1\ndone\n",
        ),
        (
            "12",
            "2:2,2",
            6,
            b"columns 2\ncover 1 1,1\ncover 2 1,2/2,1\ncover 2 2,1/1,2\ncounts 1 2\nspent 2:2,2\n",
            b"hap: spent 2:2,2\n",
            b"columns 2\ncover 2 2,2/1,1\ncounts 0 1\ndone\n",
        ),
        (
            "13",
            "2:2,2,1",
            6,
            b"columns 2\ncover 1 1,1\ncover 2 1,2/2,1\ncover 2 2,1/1,2\ncounts 1 2\nspent 2:2,2,1\n",
            b"hap: spent 2:2,2,1\n",
            b"columns 2\ncover 2 2,2/1,1\ncounts 0 1\ndone\n",
        ),
        (
            "14",
            "2:2,2,1,1",
            0,
            b"columns 2\ncover 1 1,1\ncover 2 1,2/2,1\ncover 2 2,1/1,2\ncover 2 2,2/1,1\ncounts 1 3\ndone\n",
            b"",
            b"columns 2\ncounts 0 0\ndone\n",
        ),
    ] {
        let words = ["covers", "--sheets", "2", "--budget", budget];
        expect(&rt, &words, WEDGE, (status, out, err))?;
        let words = ["covers", "--sheets", "2", "--from", position];
        expect(&rt, &words, WEDGE, (0, rest, b""))?;
    }
    Ok(())
}

#[test]
fn each_component_has_covers(rt: HostRuntime) -> Result<(), Fail> {
    for (text, out) in [
        (
            CIRCLES,
            b"component 1\ncolumns 1\ncover 1 1\ncover 2 2/1\ncounts 1 1\ncomponent 2\ncolumns 1\ncover 1 1\ncover 2 2/1\ncounts 1 1\ndone\n".as_slice(),
        ),
        (
            BETWEEN,
            b"component 1\ncolumns 1\ncover 1 1\ncover 2 2/1\ncounts 1 1\ncomponent 2\ncolumns 2\ncover 1 1,1\ncover 2 1,2/2,1\ncover 2 2,1/1,2\ncover 2 2,2/1,1\ncounts 1 3\ncomponent 3\ncolumns 0\ncover 1 -\ncounts 1 0\ndone\n",
        ),
    ] {
        expect(&rt, &["covers", "--sheets", "2"], text, (0, out, b""))?;
    }
    Ok(())
}

#[test]
fn one_budget_goes_through_the_components(rt: HostRuntime) -> Result<(), Fail> {
    let rest =
        b"component 1\ncolumns 1\ncounts 0 0\ncomponent 2\ncolumns 1\ncover 1 1\ncover 2 2/1\ncounts 1 1\ndone\n";
    for (words, status, out, err) in [
        (
            ["--budget", "4"].as_slice(),
            6,
            b"component 1\ncolumns 1\ncover 1 1\ncover 2 2/1\ncounts 1 1\nspent 2:2,1\n".as_slice(),
            b"hap: spent 2:2,1\n".as_slice(),
        ),
        (
            &["--budget", "5"],
            6,
            b"component 1\ncolumns 1\ncover 1 1\ncover 2 2/1\ncounts 1 1\ncomponent 2\ncolumns 1\ncover 1 1\ncounts 1 0\nspent 2/1:1\n",
            b"hap: spent 2/1:1\n",
        ),
        (&["--budget", "4", "--from", "2:2,1"], 0, rest, b""),
    ] {
        expect_covers(&rt, words, CIRCLES, (status, out, err))?;
    }
    Ok(())
}

#[test]
fn a_position_that_is_none_is_refused(rt: HostRuntime) -> Result<(), Fail> {
    for (position, text) in [("2:1,1,1", WEDGE), ("3/1:1", CIRCLES)] {
        expect_covers(
            &rt,
            &["--from", position],
            text,
            (2, b"", b"hap: bad position\n"),
        )?;
    }
    Ok(())
}
