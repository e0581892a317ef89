// The words of the command line.
use crate::running::expect;
use std::test::Fail;

const USAGE: &[u8] =
    b"hap: usage: hap COMMAND [--kind K] [--in NAME] [--mod P] [--sheets N] [--budget B] [--from T] [--index I] [--size N] [--component C]\n";

#[test]
fn other_words_are_usage(rt: HostRuntime) -> Result<(), Fail> {
    let lines: [&[&str]; 35] = [
        &[],
        &["cells", "--mod", "2"],
        &["betti", "--mod", "6"],
        &["betti", "--mod", "8"],
        &["betti", "--mod", "17"],
        &["betti", "--mod", "1"],
        &["covers", "--sheets", "0"],
        &["covers"],
        &["frob"],
        &["cells", "cells"],
        &["cells", "--kind"],
        &["cells", "--kind", "knot"],
        &["make"],
        &["make", "--size", "1"],
        &["make", "--size", "20"],
        &["betti", "--mod", "2", "--mod", "2"],
        &["cells", "--help"],
        &["--help"],
        &["cover", "--sheets", "2"],
        &["covers", "--sheets", "9"],
        &["covers", "--sheets", "2", "--budget", "0"],
        &["covers", "--sheets", "2", "--from", "-"],
        &["covers", "--sheets", "2", "--from", "2:"],
        &["covers", "--sheets", "2", "--from", "2:9"],
        &["cells", "-h"],
        &["cells", "--kind=cubical", "--kind=cubical"],
        &["verify", "--kind", "boundary"],
        &["cup"],
        &["verify"],
        &["migrate", "--in", "x"],
        &["group", "--mod", "2"],
        &["covers", "--sheets", "8", "--from", "0/1:1"],
        &["cover", "--sheets", "2", "--index", "1", "--component", "0"],
        &["report", "--mod", "3", "--sheets", "2"],
        &["cells", "--sheets", "2"],
    ];
    for line in lines {
        expect(&rt, line, b"[[[1,0]]]", (2, b"", USAGE))?;
    }
    Ok(())
}
