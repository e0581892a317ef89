// The edge of each vertex in the tree.
ghost use Rattle.std.specs.Prelude.{◌≡◌, ◌≤◌, ◌+◌, ◌==◌, All, length, map, IfOk, unwrap_or};
ghost use Rattle.std.specs.List.{list_any};
ghost use Rattle.face_poset.specs.Poset.{count};
ghost use Rattle.regular_check.specs.Components.{vertices};
ghost use Rattle.chosen_field.specs.Chosen.{tree_edge};
ghost use Rattle.chosen_field.specs.Rests.{left_of};
ghost use Rattle.chosen_field.specs.Listings.{at};

use face_poset::Graded;
use std::alloc::{AllocError, Global};

/// For each vertex the least flagged edge that joins it to one whose number is smaller by one, or 0 where
/// there is none.
pub(crate) fn tree_edges<G: Graded>(
    alloc: Global,
    graded: &G,
    flags: &[bool],
    numbers: &[u32],
) -> Result<Vec<u32>, AllocError>
    requires flags { length flags.now ≡ count (G.space graded.now) 1 }
    requires numbers { length numbers.now ≡ count (G.space graded.now) 0 }
    ensures { IfOk result (λ edges.
        edges.items
        ≡ map (λ v. unwrap_or (tree_edge (G.space graded.now) (left_of flags.now) numbers.now v) 0)
        (vertices (G.space graded.now))) }
{
    let mut edges = Vec::new(alloc);
    for index in 0..graded.cells(0) {
        edges.push(tree_edge(graded, flags, numbers, index + 1))?;
    }
    Ok(edges)
}

/// The least flagged edge that joins the vertex to one whose number is smaller by one, or 0.
fn tree_edge<G: Graded>(graded: &G, flags: &[bool], numbers: &[u32], vertex: u32) -> u32
    requires flags { length flags.now ≡ count (G.space graded.now) 1 }
    requires numbers { length numbers.now ≡ count (G.space graded.now) 0 }
    requires first { 1 ≤ vertex }
    requires last { vertex ≤ count (G.space graded.now) 0 }
    ensures { result ≡ unwrap_or (tree_edge (G.space graded.now) (left_of flags.now) numbers.now vertex) 0 }
{
    let number = numbers[vertex as usize - 1];
    let edges = graded.cofaces(0, vertex);
    for edge in edges {
        if flags[*edge as usize - 1] && has_before(graded.facets(1, *edge), numbers, number) {
            return *edge;
        }
    }
    0
}

/// Whether some of the vertices has the number before this one.
fn has_before(vertices: &[u32], numbers: &[u32], number: u32) -> bool
    requires { All (λ v. (1 ≤ v) × (v ≤ length numbers.now)) vertices.now }
    ensures { result ≡ list_any (λ w. (at numbers.now w + 1) == number) vertices.now }
{
    for vertex in vertices {
        if numbers[*vertex as usize - 1] as u64 + 1 == number as u64 {
            return true;
        }
    }
    false
}
