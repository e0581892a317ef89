// Worked examples as texts.
use face_poset::{Space, SpaceFault, from_nest};
use gap_text::parse;
use std::alloc::Global;

/// Two vertices and two edges between them.
pub const CIRCLE: &str = "[[[1,0],[1,0]],[[2,1,2],[2,1,2]]]";

/// The projective plane: four vertices, six edges and three squares.
pub const PLANE: &str =
    "[[[1,0],[1,0],[1,0],[1,0]],[[2,1,2],[2,1,3],[2,1,4],[2,2,3],[2,2,4],[2,3,4]],[[4,1,3,4,6],[4,1,2,5,6],[4,2,3,4,5]]]";

/// The torus of four squares.
pub const TORUS: &str =
    "[[[1,0],[1,0],[1,0],[1,0]],[[2,1,2],[2,1,2],[2,1,3],[2,2,4],[2,3,4],[2,3,4],[2,1,3],[2,2,4]],[[4,1,3,4,5],[4,2,3,4,6],[4,1,5,7,8],[4,2,6,7,8]]]";

/// The sphere of dimension 3, with two cells of each dimension.
pub const SPHERE: &str = "[[[1,0],[1,0]],[[2,1,2],[2,1,2]],[[2,1,2],[2,1,2]],[[2,1,2],[2,1,2]]]";

/// One cube.
pub const CUBE: &str =
    "[[[1,0],[1,0],[1,0],[1,0],[1,0],[1,0],[1,0],[1,0]],[[2,1,2],[2,1,3],[2,2,4],[2,3,4],[2,1,5],[2,2,6],[2,3,7],[2,4,8],[2,5,6],[2,5,7],[2,6,8],[2,7,8]],[[4,1,2,3,4],[4,1,5,6,9],[4,2,5,7,10],[4,3,6,8,11],[4,4,7,8,12],[4,9,10,11,12]],[[6,1,2,3,4,5,6]]]";

/// The space of a text that is a nested list.
pub fn read(alloc: Global, text: &str) -> Result<Space, SpaceFault> {
    if text.len() > 67_108_864 {
        return Err(SpaceFault::Memory);
    }
    match parse(alloc, text.as_bytes()) {
        Ok(nest) => from_nest(alloc, &nest),
        Err(_) => Err(SpaceFault::Memory),
    }
}
