// The command `betti`.
use crate::running::expect;
use crate::worked::{CIRCLE, PLANE, POINT, SPHERE, TORUS, WEDGE};
use std::alloc::{AllocError, Global};
use std::test::Fail;

/// Two vertices and fourteen edges between them.
const EDGES: &[u8] =
    b"[[[1,0],[1,0]],[[2,1,2],[2,1,2],[2,1,2],[2,1,2],[2,1,2],[2,1,2],[2,1,2],[2,1,2],[2,1,2],[2,1,2],[2,1,2],[2,1,2],[2,1,2],[2,1,2]]]";

#[test]
fn betti_numbers_are_written(rt: HostRuntime) -> Result<(), Fail> {
    for (text, even, odd) in [
        (
            POINT,
            b"betti 1 0 0 0\n".as_slice(),
            b"betti 1 0 0 0\n".as_slice(),
        ),
        (CIRCLE, b"betti 1 1 0 0\n", b"betti 1 1 0 0\n"),
        (WEDGE, b"betti 1 2 0 0\n", b"betti 1 2 0 0\n"),
        (PLANE, b"betti 1 1 1 0\n", b"betti 1 0 0 0\n"),
        (TORUS, b"betti 1 2 1 0\n", b"betti 1 2 1 0\n"),
        (SPHERE, b"betti 1 0 0 1\n", b"betti 1 0 0 1\n"),
        (EDGES, b"betti 1 13 0 0\n", b"betti 1 13 0 0\n"),
    ] {
        for (modulus, out) in [
            ("2", even),
            ("3", odd),
            ("4", even),
            ("5", odd),
            ("7", odd),
            ("9", odd),
            ("11", odd),
            ("13", odd),
        ] {
            expect(&rt, &["betti", "--mod", modulus], text, (0, out, b""))?;
        }
    }
    Ok(())
}

#[test]
fn the_modulus_is_two_unless_given(rt: HostRuntime) -> Result<(), Fail> {
    for (words, out) in [
        (["betti"].as_slice(), b"betti 1 1 1 0\n".as_slice()),
        (&["betti", "--mod", "05"], b"betti 1 0 0 0\n"),
        (&["betti", "--mod", "04"], b"betti 1 1 1 0\n"),
        (&["--mod=7", "betti"], b"betti 1 0 0 0\n"),
    ] {
        expect(&rt, words, PLANE, (0, out, b""))?;
    }
    Ok(())
}

/// The text of a space of so many vertices, at least one.
fn vertices(alloc: Global, count: u32) -> Result<String, AllocError> {
    let mut text = String::from_str(alloc, "[[[1,0]")?;
    for _ in 1..count {
        text.push_str(",[1,0]")?;
    }
    text.push_str("]]")?;
    Ok(text)
}

#[test]
fn many_chains_are_taken(rt: HostRuntime) -> Result<(), Fail> {
    let text = vertices(rt.alloc(), 2001)?;
    expect(
        &rt,
        &["betti"],
        text.as_bytes(),
        (0, b"betti 2001 0 0 0\n", b""),
    )
}
