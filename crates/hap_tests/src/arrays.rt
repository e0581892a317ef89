// Inputs that are cubical or permutahedral arrays or arc presentations.
use crate::running::expect;
use std::test::Fail;

#[test]
fn cubical_arrays_are_spaces(rt: HostRuntime) -> Result<(), Fail> {
    for (word, text, out) in [
        (
            "cells",
            b"[[1,1,1],[1,0,1],[1,1,1]]".as_slice(),
            b"cells 16 24 8 0\neuler 0\n".as_slice(),
        ),
        ("betti", b"[[1,1,1],[1,0,1],[1,1,1]]", b"betti 1 1 0 0\n"),
        ("cells", b"[[0..1],[1,1]]", b"cells 8 10 3 0\neuler 1\n"),
        ("cells", b"[1,0,1]", b"cells 4 2 0 0\neuler 2\n"),
        (
            "check",
            b"[1,0,1]",
            b"cells 4 2 0 0\neuler 2\nregular\ncomponents 2\n",
        ),
        ("cells", b"[[0,1],[1,0]]", b"cells 7 8 2 0\neuler 1\n"),
        ("betti", b"[[0,1],[1,0]]", b"betti 1 0 0 0\n"),
        ("cells", b"[[[1]]]", b"cells 8 12 6 1\neuler 1\n"),
    ] {
        expect(&rt, &[word, "--kind", "cubical"], text, (0, out, b""))?;
    }
    Ok(())
}

#[test]
fn faults_of_arrays_are_named(rt: HostRuntime) -> Result<(), Fail> {
    for (text, err) in [
        (
            b"[[1,1],[1]]".as_slice(),
            b"hap: array: ragged at byte 7\n".as_slice(),
        ),
        (b"[2]", b"hap: array: not a bit at byte 1\n"),
        (b"[0]", b"hap: array: empty\n"),
        (b"7", b"hap: array: bad dimension\n"),
        (b"[[[[1]]]]", b"hap: array: bad dimension\n"),
        (b"[[2],[]]", b"hap: array: not a bit at byte 2\n"),
        (b"[[1],[2,2]]", b"hap: array: ragged at byte 5\n"),
    ] {
        expect(&rt, &["cells", "--kind=cubical"], text, (4, b"", err))?;
    }
    Ok(())
}

#[test]
fn permutahedral_arrays_are_spaces(rt: HostRuntime) -> Result<(), Fail> {
    for (word, text, out) in [
        (
            "check",
            b"[[0,1],[1,0]]".as_slice(),
            b"cells 12 12 2 0\neuler 2\nregular\ncomponents 2\n".as_slice(),
        ),
        ("betti", b"[[0,1],[1,0]]", b"betti 2 0 0 0\n"),
        ("cells", b"[[[1]]]", b"cells 24 36 14 1\neuler 1\n"),
        ("betti", b"[[[1]]]", b"betti 1 0 0 0\n"),
        ("cells", b"[[1]]", b"cells 6 6 1 0\neuler 1\n"),
        ("cells", b"[[1,0],[0,1]]", b"cells 10 11 2 0\neuler 1\n"),
        ("betti", b"[[1,1,1],[1,0,1],[1,1,1]]", b"betti 1 1 0 0\n"),
    ] {
        expect(&rt, &[word, "--kind", "permutahedral"], text, (0, out, b""))?;
    }
    Ok(())
}

#[test]
fn faults_of_permutahedral_arrays_are_named(rt: HostRuntime) -> Result<(), Fail> {
    for (text, err) in [
        (
            b"[1,1]".as_slice(),
            b"hap: array: bad dimension\n".as_slice(),
        ),
        (b"[[0,0],[0]]", b"hap: array: ragged at byte 7\n"),
        (b"[[0,3]]", b"hap: array: not a bit at byte 4\n"),
        (b"[[[0]]]", b"hap: array: empty\n"),
    ] {
        expect(&rt, &["check", "--kind=permutahedral"], text, (4, b"", err))?;
    }
    Ok(())
}

#[test]
fn knots_and_links_have_their_betti_numbers(rt: HostRuntime) -> Result<(), Fail> {
    for (text, out) in [
        (b"[[1,2],[1,2]]".as_slice(), b"betti 1 1 1 0\n".as_slice()),
        (b"[[1,2],[1,2],[3,4],[3,4]]", b"betti 1 2 2 0\n"),
        (
            b"[ [ 2, 5 ], [ 1, 3 ], [ 2, 4 ], [ 3, 5 ], [ 1, 4 ] ];",
            b"betti 1 1 1 0\n",
        ),
        (b"[[3,5],[4,6],[2,5],[1,3],[2,6],[1,4]]", b"betti 1 1 1 0\n"),
    ] {
        expect(&rt, &["betti", "--kind", "arcs"], text, (0, out, b""))?;
    }
    Ok(())
}

#[test]
fn arc_presentations_are_complements(rt: HostRuntime) -> Result<(), Fail> {
    for (word, text, out) in [
        (
            "check",
            b"[[1,2],[1,2]]".as_slice(),
            b"cells 216 540 434 109\neuler 1\nregular\ncomponents 1\n".as_slice(),
        ),
        (
            "cells",
            b"[ [ 2, 5 ], [ 1, 3 ], [ 2, 4 ], [ 3, 5 ], [ 1, 4 ] ];",
            b"cells 864 2304 1978 537\neuler 1\n",
        ),
        (
            "cells",
            b"[[3,5],[4,6],[2,5],[1,3],[2,6],[1,4]]",
            b"cells 1176 3164 2746 757\neuler 1\n",
        ),
    ] {
        expect(&rt, &[word, "--kind", "arcs"], text, (0, out, b""))?;
    }
    Ok(())
}

#[test]
fn faults_of_arc_presentations_are_named(rt: HostRuntime) -> Result<(), Fail> {
    for (text, err) in [
        (
            b"[[1,2],[1,1]]".as_slice(),
            b"hap: array: bad pair in row 2\n".as_slice(),
        ),
        (b"[[1,2],[1,3],[1,3]]", b"hap: array: column 1\n"),
        (b"[]", b"hap: array: empty\n"),
    ] {
        expect(&rt, &["cells", "--kind", "arcs"], text, (4, b"", err))?;
    }
    Ok(())
}
