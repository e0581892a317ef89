ghost use Rattle.std.specs.Prelude.{◌≡◌, IfOk, IfErr, Ok};
ghost use Rattle.gap_text.specs.Nest.{view};
ghost use Rattle.regular_check.specs.Rules.{IsRegular};
ghost use Rattle.facet_reader.specs.Labels.{HasFault};
ghost use Rattle.facet_reader.specs.Simplices.{simplices_of};

use crate::cells::build;
use crate::fault::FacetFault;
use crate::labels::read_rows;
use crate::laws::set_spaces_are_regular;
use crate::listing::{MOST_CELLS, list_sets};
use crate::vertices::{list_vertices, number_rows};
use face_poset::Space;
use gap_text::Nest;
use std::alloc::Global;

/// Reads a simplicial complex, or answers its first fault.
///
/// It is a list of lists of labels, which are numbers from 1, no label twice in one list. A vertex is a
/// label that occurs; the vertices are numbered from 1 by increasing label. The cells of dimension k, 1
/// to 3, are the sets of k + 1 vertices that lie together in one of the lists, numbered from 1 in
/// lexicographic order; larger sets are left out. A facet of a cell leaves one member out. (Simplicial
/// complexes by facets: textbook.)
///
/// The faults are looked for in this order: `Shape` at the first value that is a number in place of a
/// list or the reverse, or an empty list of labels; `Empty`; the first of `BadLabel`, at a label 0, and
/// `Repeated`, at a label that stands earlier in its list; and `TooManyCells`, exactly where there are
/// more than 60,000 cells. The space is regular.
pub fn simplices(alloc: Global, nest: &Nest) -> Result<Space, FacetFault>
    ensures space { IfOk result (λ space. simplices_of (view nest.now) ≡ Ok space) }
    ensures regular { IfOk result IsRegular }
    // Want of memory may be answered to any nest.
    ensures fault { IfErr result (HasFault (simplices_of (view nest.now))) }
{
    set_spaces_are_regular();
    let labels = read_rows(alloc, nest)?;
    let vertices = list_vertices(alloc, &labels)?;
    if vertices.len() > MOST_CELLS {
        return Err(FacetFault::TooManyCells);
    }
    let rows = number_rows(alloc, &labels, &vertices)?;
    let edges = list_sets(alloc, &rows, 2)?;
    let triangles = list_sets(alloc, &rows, 3)?;
    let solids = list_sets(alloc, &rows, 4)?;
    if vertices.len() + edges.len() + triangles.len() + solids.len() > MOST_CELLS {
        return Err(FacetFault::TooManyCells);
    }
    let space = build(alloc, vertices.len(), &edges, &triangles, &solids)?;
    Ok(space)
}
