// Simplicial complexes by lists of labels, and order complexes of partial orders.
use crate::worked::{counts_of, facets_of};
use face_poset::Space;
use facet_reader::{FacetFault, poset, simplices};
use gap_text::{Nest, TextFault, parse};
use std::alloc::Global;
use std::test::Fail;

/// The value of a text.
fn value(alloc: Global, text: &[u8]) -> Result<Nest, TextFault> {
    if text.len() > 67_108_864 {
        return Err(TextFault::Memory);
    }
    parse(alloc, text)
}

/// The complex of a text.
fn complex(alloc: Global, text: &[u8]) -> Result<Space, FacetFault> {
    match value(alloc, text) {
        Ok(nest) => simplices(alloc, &nest),
        Err(_) => Err(FacetFault::Memory),
    }
}

/// The order complex of a text.
fn order_complex(alloc: Global, text: &[u8]) -> Result<Space, FacetFault> {
    match value(alloc, text) {
        Ok(nest) => poset(alloc, &nest),
        Err(_) => Err(FacetFault::Memory),
    }
}

#[test]
fn order_complexes_have_their_chains(rt: HostRuntime) -> Result<(), Fail> {
    for (text, counts) in [
        (
            b"[5,[[1,2],[2,3],[3,4],[4,5]]]".as_slice(),
            [5u32, 10, 10, 5],
        ),
        (b"[4,[[1,3],[1,4],[2,3],[2,4]]]", [4, 4, 0, 0]),
        (b"[3,[]]", [3, 0, 0, 0]),
        (b"[2,[[1,2],[1,2]]]", [2, 1, 0, 0]),
        (
            b"[9,[[1,5],[2,5],[2,6],[3,6],[3,7],[4,7],[1,8],[4,8],[5,9],[6,9],[7,9],[8,9]]]",
            [9, 16, 8, 0],
        ),
    ] {
        assert_eq!(rt; counts_of(&order_complex(rt.alloc(), text)?), counts);
    }
    Ok(())
}

#[test]
fn faults_of_orders_have_their_places(rt: HostRuntime) -> Result<(), Fail> {
    for (text, fault) in [
        (b"[3,[[2,1]]]".as_slice(), FacetFault::BadLabel(7)),
        (b"[3,[[2,2]]]", FacetFault::Repeated(7)),
        (b"[3,[[2,4]]]", FacetFault::BadLabel(7)),
        (b"[3,[[0,1]]]", FacetFault::BadLabel(5)),
        (b"[0,[]]", FacetFault::Empty),
        (b"[3]", FacetFault::Shape(0)),
        (b"[[3],[]]", FacetFault::Shape(1)),
        (b"[3,[[1,2,3]]]", FacetFault::Shape(4)),
        (b"[4294967295,[]]", FacetFault::TooManyCells),
    ] {
        assert_eq!(rt; order_complex(rt.alloc(), text).err(), Some(fault));
    }
    Ok(())
}

#[test]
fn complexes_have_their_cells(rt: HostRuntime) -> Result<(), Fail> {
    for (text, counts) in [
        (
            b"[[1,2,3],[1,2,4],[1,3,4],[2,3,4]]".as_slice(),
            [4u32, 6, 4, 0],
        ),
        (
            b"[[1,2,4],[1,3,4],[2,3,5],[2,4,5],[3,4,6],[3,5,6],[4,5,7],[4,6,7],[5,6,1],[5,7,1],[6,7,2],[6,1,2],[7,1,3],[7,2,3]]",
            [7, 21, 14, 0],
        ),
        (b"[[1,2,3,4],[4,9]]", [5, 7, 4, 1]),
        (b"[[5,3,9,1,7]]", [5, 10, 10, 5]),
        (b"[[2,1],[1,2]]", [2, 1, 0, 0]),
        (b"[[10],[4294967295]]", [2, 0, 0, 0]),
    ] {
        assert_eq!(rt; counts_of(&complex(rt.alloc(), text)?), counts);
    }
    Ok(())
}

#[test]
fn simplices_have_their_facets(rt: HostRuntime) -> Result<(), Fail> {
    let space = complex(rt.alloc(), b"[[7,3,5,9],[9,2]]")?;
    // the vertices are 2, 3, 5, 7 and 9, the edges 29, 35, 37, 39, 57, 59 and 79
    for (dim, cell, facets) in [
        (1u8, 1u32, [1u32, 5].as_slice()),
        (1, 7, &[4, 5]),
        (2, 1, &[2, 3, 5]),
        (2, 4, &[5, 6, 7]),
        (3, 1, &[1, 2, 3, 4]),
    ] {
        assert_eq!(rt; facets_of(&space, dim, cell), facets);
    }
    Ok(())
}

#[test]
fn faults_have_their_places(rt: HostRuntime) -> Result<(), Fail> {
    for (text, fault) in [
        (b"[[1,1]]".as_slice(), FacetFault::Repeated(4)),
        (b"[[1,2],[0]]", FacetFault::BadLabel(8)),
        (b"[]", FacetFault::Empty),
        (b"[[1],[]]", FacetFault::Shape(5)),
        (b"[[0],[1,[2]]]", FacetFault::Shape(8)),
        (b"[[3,3,0]]", FacetFault::Repeated(4)),
        (b"[[0,3,3]]", FacetFault::BadLabel(2)),
    ] {
        assert_eq!(rt; complex(rt.alloc(), text).err(), Some(fault));
    }
    Ok(())
}

#[test]
fn a_complex_has_at_most_60000_cells(rt: HostRuntime) -> Result<(), Fail> {
    for (text, fault) in [
        (b"[[1..35]]".as_slice(), None),
        (b"[[1..36]]", Some(FacetFault::TooManyCells)),
    ] {
        assert_eq!(rt; complex(rt.alloc(), text).err(), fault);
    }
    Ok(())
}
