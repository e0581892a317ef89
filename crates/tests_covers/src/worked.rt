// Worked examples as texts, the spaces that they spell, and pairs by their numbers.
use face_poset::{Pair, Space, SpaceFault, from_nest};
use gap_text::parse;
use std::alloc::{AllocError, Global};
use vector_field::PairList;

/// The projective plane: four vertices, six edges and three squares.
pub const PLANE: &str =
    "[[[1,0],[1,0],[1,0],[1,0]],[[2,1,2],[2,1,3],[2,1,4],[2,2,3],[2,2,4],[2,3,4]],[[4,1,3,4,6],[4,1,2,5,6],[4,2,3,4,5]]]\n";

/// The space of a text that is a nested list.
pub fn read(alloc: Global, text: &str) -> Result<Space, SpaceFault> {
    if text.len() > 67_108_864 {
        return Err(SpaceFault::Memory);
    }
    match parse(alloc, text.as_bytes()) {
        Ok(nest) => from_nest(alloc, &nest),
        Err(_) => Err(SpaceFault::Memory),
    }
}

/// A pair by its three numbers.
pub fn pair(dim: u8, lower: u32, upper: u32) -> Pair {
    Pair { dim, lower, upper }
}

/// The pairs of a field, in their order.
pub fn pairs_of(alloc: Global, field: &PairList) -> Result<Vec<Pair>, AllocError> {
    let mut pairs = Vec::new(alloc);
    for index in 0..field.len() {
        pairs.push(field.get(index))?;
    }
    Ok(pairs)
}
