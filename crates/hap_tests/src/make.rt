// The command `make`.
use crate::running::{expect, run_text, run_unread};
use std::test::Fail;

/// The 3-torus of size 2.
const TORUS: &[u8] =
    b"[[[1,0],[1,0],[1,0],[1,0],[1,0],[1,0],[1,0],[1,0]],[[2,1,2],[2,1,2],[2,1,3],[2,2,4],[2,3,4],[2,3,4],[2,1,3],[2,2,4],[2,1,5],[2,2,6],[2,3,7],[2,4,8],[2,5,6],[2,5,6],[2,5,7],[2,6,8],[2,7,8],[2,7,8],[2,5,7],[2,6,8],[2,1,5],[2,2,6],[2,3,7],[2,4,8]],[[4,1,3,4,5],[4,2,3,4,6],[4,1,5,7,8],[4,2,6,7,8],[4,1,9,10,13],[4,2,9,10,14],[4,3,9,11,15],[4,4,10,12,16],[4,5,11,12,17],[4,6,11,12,18],[4,7,9,11,19],[4,8,10,12,20],[4,13,15,16,17],[4,14,15,16,18],[4,13,17,19,20],[4,14,18,19,20],[4,1,13,21,22],[4,2,14,21,22],[4,3,15,21,23],[4,4,16,22,24],[4,5,17,23,24],[4,6,18,23,24],[4,7,19,21,23],[4,8,20,22,24]],[[6,1,5,7,8,9,13],[6,2,6,7,8,10,14],[6,3,5,9,11,12,15],[6,4,6,10,11,12,16],[6,1,13,17,19,20,21],[6,2,14,18,19,20,22],[6,3,15,17,21,23,24],[6,4,16,18,22,23,24]]]\n";

#[test]
fn a_torus_is_made(rt: HostRuntime) -> Result<(), Fail> {
    expect(&rt, &["make", "--size", "2"], b"", (0, TORUS, b""))
}

#[test]
fn a_torus_that_is_made_is_read_again(rt: HostRuntime) -> Result<(), Fail> {
    let made = run_text(rt.alloc(), &["make", "--size", "2"], b"")?;
    let out = b"cells 8 24 24 8\neuler 0\nregular\ncomponents 1\n";
    expect(&rt, &["check"], made.out.bytes(), (0, out, b""))
}

#[test]
fn tori_have_a_summary(rt: HostRuntime) -> Result<(), Fail> {
    for (size, modulus, status, out, err) in [
        (
            "2",
            "2",
            0,
            b"torus 2\ncells 8 24 24 8\neuler 0\nchains 64 448 768 384\nbetti 1 3 3 1\n".as_slice(),
            b"".as_slice(),
        ),
        (
            "2",
            "7",
            0,
            b"torus 2\ncells 8 24 24 8\neuler 0\nchains 64 448 768 384\nbetti 1 3 3 1\n",
            b"",
        ),
        (
            "3",
            "2",
            0,
            b"torus 3\ncells 27 81 81 27\neuler 0\nchains 216 1512 2592 1296\nbetti 1 3 3 1\n",
            b"",
        ),
        (
            "8",
            "3",
            0,
            b"torus 8\ncells 512 1536 1536 512\neuler 0\nchains 4096 28672 49152 24576\nbetti 1 3 3 1\n",
            b"",
        ),
        ("15", "2", 5, b"", b"hap: limit: 702000 chains\n"),
    ] {
        let words = ["make", "--mod", modulus, "--size", size];
        expect(&rt, &words, b"none of it", (status, out, err))?;
    }
    Ok(())
}

#[test]
fn no_input_is_read_for_a_torus(rt: HostRuntime) -> Result<(), Fail> {
    for (words, status) in [
        (["make", "--size", "2"].as_slice(), 0),
        (&["make", "--size", "2", "--in", "torus"], 2),
        (&["make", "--size", "2", "--kind", "boundary"], 2),
    ] {
        assert_eq!(rt; run_unread(rt.alloc(), words)?, status);
    }
    Ok(())
}
