// Sources and sinks that fail.
use crate::running::{compare, run_failing, run_mute, run_named};
use std::test::Fail;

#[test]
fn a_named_input_is_read(rt: HostRuntime) -> Result<(), Fail> {
    let told = run_named(rt.alloc(), &["--in", "point", "cells", "--kind=boundary"])?;
    compare(&rt, &told, (0, b"cells 1 0 0 0\neuler 1\n", b""));
    Ok(())
}

#[test]
fn each_read_may_fail(rt: HostRuntime) -> Result<(), Fail> {
    for word in ["cells", "check", "betti", "group"] {
        for call in [1, 2, 3] {
            let told = run_failing(rt.alloc(), &[word], call, 0)?;
            compare(&rt, &told, (7, b"", b"hap: read fault\n"));
        }
    }
    Ok(())
}

#[test]
fn each_write_may_fail(rt: HostRuntime) -> Result<(), Fail> {
    for (line, call, front) in [
        (["cells"].as_slice(), 1, b"".as_slice()),
        (&["cells"], 2, b"cells 1 0 0 0\n"),
        (&["check"], 1, b""),
        (&["check"], 2, b"cells 1 0 0 0\n"),
        (&["check"], 3, b"cells 1 0 0 0\neuler 1\n"),
        (&["check"], 4, b"cells 1 0 0 0\neuler 1\nregular\n"),
        (&["betti"], 1, b""),
        (&["group"], 1, b""),
        (&["group"], 2, b"generators 0\n"),
        (&["make", "--size", "2"], 1, b""),
        (&["make", "--size", "2", "--mod", "2"], 1, b""),
        (&["make", "--size", "2", "--mod", "2"], 2, b"torus 2\n"),
        (
            &["make", "--size", "2", "--mod", "2"],
            5,
            b"torus 2\ncells 8 24 24 8\neuler 0\nchains 64 448 768 384\n",
        ),
    ] {
        let told = run_failing(rt.alloc(), line, 0, call)?;
        compare(&rt, &told, (8, front, b"hap: write fault\n"));
    }
    Ok(())
}

#[test]
fn standard_error_may_fail(rt: HostRuntime) -> Result<(), Fail> {
    for (word, text, status) in [
        ("frob", b"[[[1,0]]]".as_slice(), 2),
        ("cells", b"[", 3),
        ("check", b"[]", 4),
    ] {
        let told = run_mute(rt.alloc(), &[word], text)?;
        compare(&rt, &told, (status, b"", b""));
    }
    Ok(())
}
