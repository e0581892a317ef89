// The numbers of edges and vertices in the boundary of a 3-cell.
ghost use Rattle.std.specs.Prelude.{◌≡◌, ◌≤◌, length, IfOk};
ghost use Rattle.face_poset.specs.Below.{facets_of_all};
ghost use Rattle.face_poset.specs.Poset.{IsCell, IsSpace, count};

use crate::search::insert_facets;
use face_poset::{Graded, Space};
use number_lists::FoundNumbers;
use std::alloc::AllocError;

/// How many edges these 2-cells have, each edge counted once.
pub(crate) fn count_edges(
    space: &Space,
    disks: &[u32],
    found: &mut FoundNumbers,
) -> Result<u32, AllocError>
    requires valid { IsSpace space.now }
    requires disks { IsCell (count space.now 2) disks.now }
    requires most { count space.now 1 ≤ found.old.most }
    ensures most { found.new.most ≡ found.old.most }
    ensures number { IfOk result (λ n. n ≡ length (facets_of_all space.now 1 disks.now)) }
{
    found.clear();
    insert_facets(space, 2, disks, found)?;
    Ok(found.len() as u32)
}

/// How many vertices the edges of these 2-cells have, each vertex counted once.
pub(crate) fn count_vertices(
    space: &Space,
    disks: &[u32],
    found: &mut FoundNumbers,
) -> Result<u32, AllocError>
    requires valid { IsSpace space.now }
    requires disks { IsCell (count space.now 2) disks.now }
    requires most { count space.now 0 ≤ found.old.most }
    ensures most { found.new.most ≡ found.old.most }
    ensures number { IfOk result (λ n. n ≡ length (facets_of_all space.now 0 (facets_of_all space.now 1 disks.now))) }
{
    found.clear();
    for disk in disks {
        insert_facets(space, 1, space.facets(2, *disk), found)?;
    }
    Ok(found.len() as u32)
}
