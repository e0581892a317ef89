// The cells over one cell, sheet by sheet.
ghost use Rattle.std.specs.Prelude.{◌≡◌, ℕ, ◌-◌, ◌+◌, ◌*◌, ◌∷◌, ◌++◌, [], ◌≤◌, ◌<◌};
ghost use Rattle.std.specs.Prelude.{All, Contains, length, map, slice_index, slice_set, OnOk};
ghost use Rattle.std.specs.List.Sorted.{IsStrictlyIncreasing};
ghost use Rattle.face_poset.specs.Poset.{layer, count, cell_count, IsCell};
ghost use Rattle.sheet_laws.specs.Permutations.{InRange};
ghost use Rattle.cover_space.specs.Total.{sheeted};
ghost use Rattle.cover_space.specs.Making.{IsAgreeing, IsInside, HasLabelling, leasts_below, stage};

use crate::closed::{Inside, write_sheets};
use crate::laws::{sheet_is_along, total_is_a_space};
use edge_words::Labels;
use face_poset::{BuildFault, Builder, Graded, Space};
use sphere_collapses::place_of;
use std::alloc::{AllocError, Global};

/// Adds the cells over one cell, where those over the cells before it stand.
pub(crate) fn add_over(
    alloc: Global,
    space: &Space,
    labels: &Labels,
    dim: u8,
    cell: u32,
    below: &[u32],
    inside: &Inside,
    builder: &mut Builder,
) -> Result<(), AllocError>
    requires labelled { HasLabelling space.now labels.now }
    requires few { labels.now.sheets * cell_count space.now ≤ 60000 }
    requires dim { dim ≤ 3 }
    requires cell { InRange (count space.now dim) cell }
    requires below { below.now ≡ leasts_below space.now dim }
    requires inside { IsInside space.now dim cell
        inside.now.vertices.items inside.now.edges.items inside.now.ends inside.now.tree.items }
    requires before { builder.old ≡ stage space.now labels.now dim (labels.now.sheets * (cell - 1)) }
    ensures { OnOk result (builder.new ≡ stage space.now labels.now dim (labels.now.sheets * cell)) }
{
    sheet_is_along();
    total_is_a_space();
    let sheets = labels.sheets();
    let mut over = vec![in alloc; 0u8; inside.vertices.len()]?;
    let mut facets = Vec::new(alloc);
    for index in 0..sheets {
        write_sheets(space, labels, dim, cell, inside, index + 1, &mut over);
        list_over(
            sheets,
            space.facets(dim, cell),
            below,
            &inside.vertices,
            &over,
            &mut facets,
        )?;
        add_cell(builder, dim, &facets)?;
    }
    Ok(())
}

/// Lists the numbers of the cells over these, each at the sheet over its least vertex.
fn list_over(
    sheets: u8,
    cells: &[u32],
    least: &[u32],
    vertices: &[u32],
    over: &[u8],
    list: &mut Vec<u32>,
) -> Result<(), AllocError>
    requires cells { All (λ c. (1 ≤ c) × (c ≤ length least.now)) cells.now }
    requires room { sheets * length least.now ≤ 60000 }
    requires rises { IsStrictlyIncreasing vertices.now }
    requires few { length vertices.now ≤ 4294967295 }
    requires over { length over.now ≡ length vertices.now }
    requires there { All (λ c. Contains vertices.now (slice_index least.now (c - 1))) cells.now }
    ensures { OnOk result ((f : ℕ → ℕ) → IsAgreeing vertices.now f over.now
        → list.new.items ≡ map (λ c. sheeted sheets c (f (slice_index least.now (c - 1)))) cells.now) }
{
    list.clear();
    for cell in cells {
        let place = place_of(least[*cell as usize - 1], vertices);
        let sheet = over[place as usize - 1];
        list.push(u32::from(sheets) * (*cell - 1) + u32::from(sheet))?;
    }
    Ok(())
}

/// Adds a cell where fewer than 60,000 stand.
fn add_cell(builder: &mut Builder, dim: u8, facets: &[u32]) -> Result<(), AllocError>
    requires dim { dim ≤ 3 }
    requires room { cell_count builder.old < 60000 }
    requires last { (above : ℕ) → dim < above → count builder.old above ≡ 0 }
    requires vertex { dim ≡ 0 → facets.now ≡ [] }
    requires cell { 1 ≤ dim → IsCell (count builder.old (dim - 1)) facets.now }
    ensures { OnOk result (builder.new ≡ slice_set builder.old dim (layer builder.old dim ++ facets.now ∷ [])) }
{
    match builder.add(dim, facets) {
        Ok(_number) => Ok(()),
        Err(BuildFault::Memory) => Err(AllocError),
        Err(BuildFault::TooManyCells) => unreachable!(),
    }
}
