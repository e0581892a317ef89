ghost use Rattle.std.specs.Prelude.{◌≡◌, IfOk, IfErr, Ok};
ghost use Rattle.number_lists.specs.Words.{upto};
ghost use Rattle.gap_text.specs.Nest.{view};
ghost use Rattle.regular_check.specs.Rules.{IsRegular};
ghost use Rattle.facet_reader.specs.Labels.{HasFault};
ghost use Rattle.facet_reader.specs.Orders.{poset_of};

use crate::above::list_above;
use crate::cells::build;
use crate::chains::list_chains;
use crate::fault::FacetFault;
use crate::laws::set_spaces_are_regular;
use crate::listing::MOST_CELLS;
use crate::orders::read_order;
use face_poset::Space;
use gap_text::Nest;
use std::alloc::{AllocError, Global};

/// Reads a finite partial order, and answers its order complex, or its first fault.
///
/// It is a list of a number n and a list of relations, each a list of two numbers from 1 to n, the first
/// smaller than the second. A number lies below another one where relations lead from it to the other.
/// The vertices are the numbers 1 to n. The cells of dimension k, 1 to 3, are the sets of k + 1 numbers
/// of which, of each two, the smaller lies below the greater, numbered from 1 in lexicographic order;
/// larger sets are left out. A facet of a cell leaves one member out. (Order complexes: textbook.)
///
/// The faults are looked for in this order: `Shape` at the first value that is a number in place of a
/// list or the reverse, or a list that has not two items where two are asked; `Empty`, where n is 0; the
/// first of `BadLabel`, at a number that is not from 1 to n or a second number smaller than the first,
/// and `Repeated`, at a second number that is the first; and `TooManyCells`, exactly where there are
/// more than 60,000 cells. The space is regular.
pub fn poset(alloc: Global, nest: &Nest) -> Result<Space, FacetFault>
    ensures space { IfOk result (λ space. poset_of (view nest.now) ≡ Ok space) }
    ensures regular { IfOk result IsRegular }
    // Want of memory may be answered to any nest.
    ensures fault { IfErr result (HasFault (poset_of (view nest.now))) }
{
    set_spaces_are_regular();
    let order = read_order(alloc, nest)?;
    let vertices = order.points as usize;
    if vertices > MOST_CELLS {
        return Err(FacetFault::TooManyCells);
    }
    let above = list_above(alloc, order.points, &order.pairs)?;
    let points = list_points(alloc, order.points)?;
    let edges = list_chains(alloc, &above, &points, 2)?;
    let triangles = list_chains(alloc, &above, &points, 3)?;
    let solids = list_chains(alloc, &above, &points, 4)?;
    if vertices + edges.len() + triangles.len() + solids.len() > MOST_CELLS {
        return Err(FacetFault::TooManyCells);
    }
    let space = build(alloc, vertices, &edges, &triangles, &solids)?;
    Ok(space)
}

/// The numbers from 1 to the last one.
fn list_points(alloc: Global, last: u32) -> Result<Vec<u32>, AllocError>
    ensures { IfOk result (λ points. points.items ≡ upto last) }
{
    let mut points = Vec::new(alloc);
    for index in 0..last {
        points.push(index + 1)?;
    }
    Ok(points)
}
