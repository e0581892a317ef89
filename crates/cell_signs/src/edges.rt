// The signs of edges.
ghost use Rattle.std.specs.Prelude.{◌≡◌, IfOk};
ghost use Rattle.face_poset.specs.Poset.{count};
ghost use Rattle.cell_signs.specs.Minus.{first_lists};

use face_poset::Graded;
use number_lists::Lists;
use regular_check::Regular;
use std::alloc::{AllocError, Global};

/// For each edge the list of its first vertex.
pub(crate) fn list_edges(alloc: Global, regular: &Regular<'_>) -> Result<Lists, AllocError>
    ensures { IfOk result (λ lists. lists ≡ first_lists regular.now (count regular.now 1)) }
{
    let space = regular.space();
    let mut lists = Lists::new(alloc);
    for index in 0..space.cells(1) {
        let ends = space.facets(1, index + 1);
        lists.push(&[ends[0]])?;
    }
    Ok(lists)
}
