// Which line it is, and what its words are read as.
use cert_lines::{
    LineKind, entries_at, entries_behind_bar, line_kind, number_at, rising_at, spot_at, table_at,
};
use certificates::Kind;
use small_field::{Entry, Sparse};
use std::test::Fail;

#[test]
fn lines_have_their_kinds(rt: HostRuntime) {
    for (line, kind) in [
        ("hap-certificate 2", LineKind::Plain(Kind::Version)),
        ("face 2 1 3 4", LineKind::Plain(Kind::Face)),
        ("r 1:1 2:2 | -", LineKind::Plain(Kind::RankLine)),
        ("p 1 1 2 1 - | 3:1", LineKind::Plain(Kind::ProductLine)),
        ("columns 1 0", LineKind::Plain(Kind::Columns)),
        ("sheets 3 from 2/3:2,3", LineKind::Sheets),
        ("cover 2 1,2/2,1", LineKind::Cover),
        ("spent -", LineKind::Spent),
    ] {
        assert!(rt; line_kind(2, line.as_bytes()) == Some(kind), "{line}");
    }
}

#[test]
fn other_lines_have_no_kind(rt: HostRuntime) {
    for line in [
        "",
        "end ",
        "cells  1 0 0 0",
        "chains 1 2 3",
        "modulus 02",
        "modulus 12345678901",
        "face 1",
        "z 1:1 |",
        "z 1:1 -",
        "cover 2 1,2/1",
        "spent 9:1",
        "components 1",
        "sheets 3 from 2/3:2,3",
    ] {
        assert!(rt; line_kind(1, line.as_bytes()).is_none(), "{line}");
    }
}

#[test]
fn a_number_stands_at_its_place(rt: HostRuntime) {
    assert!(rt; number_at(b"cells 4 8 4 0", 1) == Some(8));
}

#[test]
fn a_list_is_no_number(rt: HostRuntime) {
    assert!(rt; number_at(b"p 1 1 2 1 - | 3:1", 4).is_none());
}

#[test]
fn facets_rise(rt: HostRuntime) -> Result<(), Fail> {
    let facets = rising_at(rt.alloc(), b"face 2 1 3 4", 1, 4)?;
    assert!(rt; facets.is_some_and(|found| found.as_slice() == [1u32, 3, 4].as_slice()));
    Ok(())
}

#[test]
fn facets_that_repeat_are_refused(rt: HostRuntime) -> Result<(), Fail> {
    let facets = rising_at(rt.alloc(), b"face 2 1 3 3", 1, 4)?;
    assert!(rt; facets.is_none());
    Ok(())
}

/// Whether the list has one entry, and which.
fn is_entry(list: Option<Sparse>, position: u32, value: u8) -> bool {
    match list {
        None => false,
        Some(found) => { found.len() == 1 && found.get(0) == Entry { position, value } }
    }
}

#[test]
fn the_first_list_is_read(rt: HostRuntime) -> Result<(), Fail> {
    let list = entries_at(rt.alloc(), b"p 1 1 2 1 2:4 | 3:1", 4, 5, 2)?;
    assert!(rt; is_entry(list, 2, 4));
    Ok(())
}

#[test]
fn the_list_behind_the_bar_is_read(rt: HostRuntime) -> Result<(), Fail> {
    let list = entries_behind_bar(rt.alloc(), b"p 1 1 2 1 2:4 | 3:1", 5, 3)?;
    assert!(rt; is_entry(list, 3, 1));
    Ok(())
}

#[test]
fn a_spot_is_read(rt: HostRuntime) -> Result<(), Fail> {
    let spot = spot_at(rt.alloc(), b"sheets 3 from 12/3:2,3", 2)?;
    assert!(rt;
        spot.is_some_and(|found| found.component() == 12
            && found.position().cells() == [2u8, 3].as_slice())
    );
    Ok(())
}

#[test]
fn a_table_is_read(rt: HostRuntime) -> Result<(), Fail> {
    let table = table_at(rt.alloc(), b"cover 2 1,2/2,1", 1, 2, 2)?;
    assert!(rt; table.is_some_and(|found| found.cells() == [1u8, 2, 2, 1].as_slice()));
    Ok(())
}

#[test]
fn a_table_of_other_rows_is_refused(rt: HostRuntime) -> Result<(), Fail> {
    let table = table_at(rt.alloc(), b"cover 2 1,2/2,1", 1, 3, 2)?;
    assert!(rt; table.is_none());
    Ok(())
}
