// The 3-torus.
ghost use Rattle.std.specs.Prelude.{◌≡◌, ℕ, ◌+◌, ◌-◌, ◌*◌, ◌%◌, ◌≤◌, ◌<◌, ◌∷◌, ◌++◌, [], map, slice_set, IfOk, OnOk};
ghost use Rattle.face_poset.specs.Poset.{layer, count, cell_count, IsCell};
ghost use Rattle.std.specs.List.{range_with_len};
ghost use Rattle.regular_check.specs.Rules.{IsRegular};
ghost use Rattle.tuple_spaces.specs.Torus.{torus_of, HasTorusCounts};
ghost use Rattle.tuple_spaces.specs.TorusPlaces.{volume, number_at, stage};

use crate::torus_places::{dimension, list_facets, number_all};
use face_poset::{BuildFault, Builder, Space};
use std::alloc::{AllocError, Global};

/// Adds a cell where fewer than 60,000 stand.
fn add_cell(builder: &mut Builder, dim: u8, facets: &[u32]) -> Result<(), AllocError>
    requires dim { dim ≤ 3 }
    requires room { cell_count builder.old < 60000 }
    requires last { (above : ℕ) → dim < above → count builder.old above ≡ 0 }
    requires vertex { dim ≡ 0 → facets.now ≡ [] }
    requires cell { 1 ≤ dim → IsCell (count builder.old (dim - 1)) facets.now }
    ensures { OnOk result (builder.new ≡ slice_set builder.old dim (layer builder.old dim ++ facets.now ∷ [])) }
{
    match builder.add(dim, facets) {
        Ok(_number) => Ok(()),
        Err(BuildFault::Memory) => Err(AllocError),
        Err(BuildFault::TooManyCells) => unreachable!(),
    }
}

/// Adds the cells of a dimension, where all cells of lower dimensions stand.
fn add_cells(
    builder: &mut Builder,
    numbers: &[u32],
    side: usize,
    dim: u8,
    facets: &mut Vec<u32>,
) -> Result<(), AllocError>
    requires low { 2 ≤ side }
    requires high { side ≤ 38 }
    requires even { side % 2 ≡ 0 }
    requires numbers { numbers.now ≡ map (number_at side) (range_with_len 0 (volume side)) }
    requires dim { dim ≤ 3 }
    requires before { builder.old ≡ stage side dim 0 }
    ensures { OnOk result (builder.new ≡ stage side (dim + 1) 0) }
{
    for place in 0..side * side * side {
        if dimension(side, place) == dim {
            list_facets(numbers, side, place, facets)?;
            add_cell(builder, dim, facets)?;
        }
    }
    Ok(())
}

/// The 3-torus of a size: its cells are the triples of coordinates from 0 to twice the size less 1, and
/// the dimension of a cell is the number of its odd coordinates. A facet has an odd coordinate c replaced
/// by c - 1, or by c + 1 modulo twice the size. The cells of one dimension are numbered from 1 in
/// lexicographic order.
///
/// The size is 2 to 19. The space is regular. The only error is want of memory.
pub fn torus(alloc: Global, size: u32) -> Result<Space, AllocError>
    requires low { 2 ≤ size }
    requires high { size ≤ 19 }
    ensures space { IfOk result (λ space. space ≡ torus_of size) }
    ensures counts { IfOk result (HasTorusCounts size) }
    ensures regular { IfOk result IsRegular }
{
    let side = size as usize * 2;
    let numbers = number_all(alloc, side)?;
    let mut facets = Vec::new(alloc);
    let mut builder = Builder::new(alloc);
    for dim in 0..4u8 {
        add_cells(&mut builder, &numbers, side, dim, &mut facets)?;
    }
    builder.finish()
}
