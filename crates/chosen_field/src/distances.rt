// Distances along some of the edges, level by level.
ghost use Rattle.std.specs.Prelude.{◌≡◌, ◌≤◌, ◌<◌, ◌-◌, ◌+◌, ℕ, cond, drop, length, IfOk, OnOk};
ghost use Rattle.number_lists.specs.Words.{holds};
ghost use Rattle.face_poset.specs.Poset.{count};
ghost use Rattle.chosen_field.specs.Chosen.{distances};
ghost use Rattle.chosen_field.specs.Rests.{left_of};
ghost use Rattle.chosen_field.specs.Listings.{at};
ghost use Rattle.chosen_field.specs.Levels.{IsVisited, AreVisited};

use face_poset::Graded;
use number_lists::FoundNumbers;
use std::alloc::{AllocError, Global};

/// For each vertex the least number of flagged edges on a path from vertex 1, or the number of vertices
/// where there is no path.
pub(crate) fn distances<G: Graded>(
    alloc: Global,
    graded: &G,
    flags: &[bool],
) -> Result<Vec<u32>, AllocError>
    requires some { 1 ≤ count (G.space graded.now) 0 }
    requires flags { length flags.now ≡ count (G.space graded.now) 1 }
    ensures { IfOk result (λ numbers. numbers.items ≡ distances (G.space graded.now) (left_of flags.now)) }
{
    let vertices = graded.cells(0);
    let mut numbers = vec![in alloc; vertices; vertices as usize]?;
    let mut found = FoundNumbers::new(alloc, vertices as usize)?;
    found.insert(1)?;
    let mut head = 0;
    for round in 0..vertices {
        let end = found.len();
        visit_level(graded, flags, round, head, &mut found, &mut numbers)?;
        head = end;
    }
    Ok(numbers)
}

/// Numbers the vertices that were found from an index on, and finds those that flagged edges join to them.
fn visit_level<G: Graded>(
    graded: &G,
    flags: &[bool],
    round: u32,
    head: usize,
    found: &mut FoundNumbers,
    numbers: &mut [u32],
) -> Result<(), AllocError>
    requires flags { length flags.now ≡ count (G.space graded.now) 1 }
    requires most { found.old.most ≡ count (G.space graded.now) 0 }
    requires numbers { length numbers.old ≡ count (G.space graded.now) 0 }
    requires head { head ≤ length found.old.found }
    ensures most { found.new.most ≡ found.old.most }
    ensures len { length numbers.new ≡ length numbers.old }
    ensures found { OnOk result
        (AreVisited (G.space graded.now) (left_of flags.now) (drop head found.old.found) found.old.found
        found.new.found) }
    ensures numbers { OnOk result
        ((v : ℕ) → 1 ≤ v
        → at numbers.new v ≡ cond (holds (drop head found.old.found) v) round (at numbers.old v)) }
{
    for index in head..found.len() {
        let vertex = found.get(index);
        numbers[vertex as usize - 1] = round;
        visit(graded, flags, vertex, found)?;
    }
    Ok(())
}

/// Finds the vertices that flagged edges join to a vertex.
fn visit<G: Graded>(
    graded: &G,
    flags: &[bool],
    vertex: u32,
    found: &mut FoundNumbers,
) -> Result<(), AllocError>
    requires flags { length flags.now ≡ count (G.space graded.now) 1 }
    requires most { found.old.most ≡ count (G.space graded.now) 0 }
    requires first { 1 ≤ vertex }
    requires last { vertex ≤ count (G.space graded.now) 0 }
    ensures most { found.new.most ≡ found.old.most }
    ensures found { OnOk result
        (IsVisited (G.space graded.now) (left_of flags.now) vertex found.old.found found.new.found) }
{
    let edges = graded.cofaces(0, vertex);
    for edge in edges {
        if flags[*edge as usize - 1] {
            found.insert_all(graded.facets(1, *edge))?;
        }
    }
    Ok(())
}
