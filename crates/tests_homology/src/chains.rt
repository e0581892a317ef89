// The worked examples of chains: their numbers, by degree, each of them, and their facets with signs.
ghost use Rattle.std.specs.Prelude.{◌≤◌};

use crate::worked::{CIRCLE, CUBE, PLANE, SPHERE, TORUS, read};
use face_poset::{Cell, Graded, Signed};
use order_complex::{ChainCounts, ChainFault, Chains};
use std::alloc::{AllocError, Global};
use std::test::Fail;
use tuple_spaces::torus;
use vector_field::free_field;

/// How many chains of each degree a space has, if there are no more than the limit.
fn counts(alloc: Global, text: &str, limit: u32) -> Result<[u32; 4], ChainFault> {
    let Ok(space) = read(alloc, text) else {
        return Err(ChainFault::Memory);
    };
    let chains = Chains::new(alloc, &space, limit)?;
    Ok([chains.len(0), chains.len(1), chains.len(2), chains.len(3)])
}

/// The same by counting alone, with no list of the chains.
fn tallied(alloc: Global, text: &str, limit: u32) -> Result<[u32; 4], ChainFault> {
    let Ok(space) = read(alloc, text) else {
        return Err(ChainFault::Memory);
    };
    let counts = ChainCounts::new(alloc, &space, limit)?;
    Ok([counts.len(0), counts.len(1), counts.len(2), counts.len(3)])
}

/// The numbers of chains by listing them and by counting alone.
fn both(alloc: Global, text: &str, limit: u32) -> Result<[[u32; 4]; 2], ChainFault> {
    Ok([counts(alloc, text, limit)?, tallied(alloc, text, limit)?])
}

#[test]
fn chains_are_counted_by_degree(rt: HostRuntime) {
    for (text, wanted) in [
        ("[[[1,0]]]", [1u32, 0, 0, 0]),
        (CIRCLE, [4, 4, 0, 0]),
        (PLANE, [13, 36, 24, 0]),
        (TORUS, [16, 48, 32, 0]),
        (SPHERE, [8, 24, 32, 16]),
        ("[[[1,0],[1,0]],[[2,1,2]]]", [3, 2, 0, 0]),
        ("[[[1,0],[1,0]],[[2,1,2],[2,1,2]],[[2,1,2]]]", [5, 8, 4, 0]),
        (
            "[[[1,0],[1,0],[1,0],[1,0]],[[2,1,2],[2,1,3],[2,2,4],[2,3,4]],[[4,1,2,3,4]]]",
            [9, 16, 8, 0],
        ),
        (CUBE, [27, 98, 120, 48]),
    ] {
        assert_eq!(rt; both(rt.alloc(), text, 1000), Ok([wanted, wanted]));
    }
}

#[test]
fn as_many_chains_as_the_limit_are_taken(rt: HostRuntime) {
    let wanted = [4u32, 4, 0, 0];
    assert_eq!(rt; both(rt.alloc(), CIRCLE, 8), Ok([wanted, wanted]));
}

#[test]
fn more_chains_than_the_limit_are_not_listed(rt: HostRuntime) {
    let wanted = Err(ChainFault::TooManyChains(8));
    assert_eq!(rt; counts(rt.alloc(), CIRCLE, 7), wanted);
}

#[test]
fn more_chains_than_the_limit_are_not_counted(rt: HostRuntime) {
    let wanted = Err(ChainFault::TooManyChains(8));
    assert_eq!(rt; tallied(rt.alloc(), CIRCLE, 7), wanted);
}

/// The last id of a chain and its last cell, if it is there.
fn end_of(chains: &Chains<'_>, degree: u8, number: u32) -> Option<(u32, Cell)> {
    if degree > 3 || number == 0 || number > chains.len(degree) {
        return None;
    }
    let ids = chains.chain(degree, number);
    Some((ids[degree as usize], chains.top(degree, number)))
}

#[test]
fn a_chain_has_its_ids_and_its_last_cell(rt: HostRuntime) -> Result<(), Fail> {
    let space = read(rt.alloc(), CIRCLE)?;
    let chains = Chains::new(rt.alloc(), &space, 8)?;
    let last = Cell { dim: 1, number: 2 };
    assert_eq!(rt; end_of(&chains, 1, 2), Some((4, last)));
    Ok(())
}

#[test]
fn chains_are_found_by_their_ids(rt: HostRuntime) -> Result<(), Fail> {
    let space = read(rt.alloc(), CIRCLE)?;
    let chains = Chains::new(rt.alloc(), &space, 8)?;
    for (ids, number) in [
        ([1u32, 3], Some(1u32)),
        ([1, 4], Some(2)),
        ([2, 3], Some(3)),
        ([2, 4], Some(4)),
        ([1, 2], None),
        ([3, 1], None),
    ] {
        assert_eq!(rt; chains.position(&ids), number);
    }
    Ok(())
}

/// The facets of a cell with their signs; none where the cell is not there.
fn signed_facets<G: Signed>(
    alloc: Global,
    graded: &G,
    dim: u8,
    cell: u32,
) -> Result<Vec<(u32, i8)>, AllocError> {
    let mut facets = Vec::new(alloc);
    if cell > 0 && cell <= graded.cells(dim) {
        let list = graded.facets(dim, cell);
        for facet in list {
            facets.push((*facet, graded.sign(dim, cell, *facet)))?;
        }
    }
    Ok(facets)
}

#[test]
fn facets_have_their_signs(rt: HostRuntime) -> Result<(), Fail> {
    let space = read(rt.alloc(), CIRCLE)?;
    let chains = Chains::new(rt.alloc(), &space, 8)?;
    let facets = signed_facets(rt.alloc(), &chains, 1, 2)?;
    assert_eq!(rt; facets.as_slice(), [(1u32, -1i8), (4, 1)].as_slice());
    Ok(())
}

/// The cofaces of a cell, none where it is not there.
fn cofaces<G: Graded>(graded: &G, dim: u8, cell: u32) -> &[u32] {
    if cell == 0 || cell > graded.cells(dim) {
        return &[];
    }
    graded.cofaces(dim, cell)
}

#[test]
fn cofaces_are_told(rt: HostRuntime) -> Result<(), Fail> {
    let space = read(rt.alloc(), CIRCLE)?;
    let chains = Chains::new(rt.alloc(), &space, 8)?;
    assert_eq!(rt; cofaces(&chains, 0, 4), [2u32, 4].as_slice());
    Ok(())
}

/// How many chains of each degree are critical for a maximal field on the torus of a size.
fn critical_counts(alloc: Global, size: u32) -> Result<[usize; 4], ChainFault>
    requires first { 2 ≤ size }
    requires last { size ≤ 19 }
{
    let Ok(space) = torus(alloc, size) else {
        return Err(ChainFault::Memory);
    };
    let chains = Chains::new(alloc, &space, 2000)?;
    let Ok(field) = free_field(alloc, &chains) else {
        return Err(ChainFault::Memory);
    };
    Ok([
        field.critical(0).len(),
        field.critical(1).len(),
        field.critical(2).len(),
        field.critical(3).len(),
    ])
}

#[test]
fn few_chains_of_a_torus_are_critical(rt: HostRuntime) {
    assert_eq!(rt; critical_counts(rt.alloc(), 2), Ok([1usize, 3, 3, 1]));
}
