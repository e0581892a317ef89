// Worked examples as texts.

/// One vertex.
pub const POINT: &[u8] = b"[[[1,0]]]";

/// Two vertices and two edges between them.
pub const CIRCLE: &[u8] = b"[[[1,0],[1,0]],[[2,1,2],[2,1,2]]]";

/// Two circles that do not meet.
pub const CIRCLES: &[u8] = b"[[[1,0],[1,0],[1,0],[1,0]],[[2,1,2],[2,1,2],[2,3,4],[2,3,4]]]";

/// Two circles with one vertex in common.
pub const WEDGE: &[u8] = b"[[[1,0],[1,0],[1,0]],[[2,1,2],[2,1,2],[2,1,3],[2,1,3]]]";

/// The projective plane: four vertices, six edges and three squares.
pub const PLANE: &[u8] =
    b"[[[1,0],[1,0],[1,0],[1,0]],[[2,1,2],[2,1,3],[2,1,4],[2,2,3],[2,2,4],[2,3,4]],[[4,1,3,4,6],[4,1,2,5,6],[4,2,3,4,5]]]";

/// The torus of four squares.
pub const TORUS: &[u8] =
    b"[[[1,0],[1,0],[1,0],[1,0]],[[2,1,2],[2,1,2],[2,1,3],[2,2,4],[2,3,4],[2,3,4],[2,1,3],[2,2,4]],[[4,1,3,4,5],[4,2,3,4,6],[4,1,5,7,8],[4,2,6,7,8]]]";

/// The sphere of dimension 3, with two cells of each dimension.
pub const SPHERE: &[u8] = b"[[[1,0],[1,0]],[[2,1,2],[2,1,2]],[[2,1,2],[2,1,2]],[[2,1,2],[2,1,2]]]";
