// Worked examples as texts, and what is asked of the spaces that they spell.
use face_poset::{Graded, Space, SpaceFault, from_nest};
use gap_text::parse;
use std::alloc::Global;

/// Two vertices and two edges between them.
pub const CIRCLE: &str = "[[[1,0],[1,0]],[[2,1,2],[2,1,2]]]\n";

/// Two circles with one vertex in common.
pub const WEDGE: &str = "[[[1,0],[1,0],[1,0]],[[2,1,2],[2,1,2],[2,1,3],[2,1,3]]]\n";

/// The projective plane: four vertices, six edges and three squares.
pub const PLANE: &str =
    "[[[1,0],[1,0],[1,0],[1,0]],[[2,1,2],[2,1,3],[2,1,4],[2,2,3],[2,2,4],[2,3,4]],[[4,1,3,4,6],[4,1,2,5,6],[4,2,3,4,5]]]\n";

/// The torus of four squares.
pub const TORUS: &str =
    "[[[1,0],[1,0],[1,0],[1,0]],[[2,1,2],[2,1,2],[2,1,3],[2,2,4],[2,3,4],[2,3,4],[2,1,3],[2,2,4]],[[4,1,3,4,5],[4,2,3,4,6],[4,1,5,7,8],[4,2,6,7,8]]]\n";

/// The sphere of dimension 3, with two cells of each dimension.
pub const SPHERE: &str = "[[[1,0],[1,0]],[[2,1,2],[2,1,2]],[[2,1,2],[2,1,2]],[[2,1,2],[2,1,2]]]\n";

/// The space of a text that is a nested list.
pub fn read(alloc: Global, text: &str) -> Result<Space, SpaceFault> {
    if text.len() > 67_108_864 {
        return Err(SpaceFault::Memory);
    }
    match parse(alloc, text.as_bytes()) {
        Ok(nest) => from_nest(alloc, &nest),
        Err(_) => Err(SpaceFault::Memory),
    }
}

/// How many cells there are of each dimension.
pub fn counts_of<G: Graded>(graded: &G) -> [u32; 4] {
    [
        graded.cells(0),
        graded.cells(1),
        graded.cells(2),
        graded.cells(3),
    ]
}

/// The facets of a cell, none where it is not there.
pub fn facets_of<G: Graded>(graded: &G, dim: u8, cell: u32) -> &[u32] {
    if cell == 0 || cell > graded.cells(dim) {
        return &[];
    }
    graded.facets(dim, cell)
}

/// The cofaces of a cell, none where it is not there.
pub fn cofaces_of<G: Graded>(graded: &G, dim: u8, cell: u32) -> &[u32] {
    if cell == 0 || cell > graded.cells(dim) {
        return &[];
    }
    graded.cofaces(dim, cell)
}
