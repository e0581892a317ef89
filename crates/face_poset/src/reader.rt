ghost use Rattle.std.specs.Prelude.{◌≡◌, ◌≢◌, ◌≤◌, length, map, sum_by, take, IfOk, IfErr, OnOk, Ok, Err};
ghost use Rattle.gap_text.specs.Nest.{view};
ghost use Rattle.face_poset.specs.Reader.{as_list, each_from, layer_from, layers_from, cells_in, sized, space_of};
ghost use Rattle.face_poset.specs.Tops.{inner, kept, IsSized};

use crate::cell_reader::read_cell;
use crate::cells::Cell;
use crate::fault::SpaceFault;
use crate::space::{MOST_CELLS, Space};
use gap_text::{Items, Nest};
use number_lists::Lists;
use std::alloc::Global;

/// The most layers that a space may have.
const MOST_LAYERS: u32 = 4;

/// Reads the space of a boundary list, or answers its first fault.
///
/// The nest is a list of layers; layer n holds the n-cells, from n = 0, and empty layers at the end
/// are dropped. A vertex is `[1,0]`; any other cell is the number of its facets, at least 1, and
/// then their numbers, all different. The faults are looked for in this order: `Shape` of the top
/// and of the layers, `Empty`, `TooHigh`, `TooManyCells`, and then cell by cell, by dimension and
/// number, `Shape`, `BadCount`, `FaceOutOfRange`, `RepeatedFace`.
pub fn from_nest(alloc: Global, nest: &Nest) -> Result<Space, SpaceFault>
    ensures space { IfOk result (λ space. space_of (view nest.now) ≡ Ok space) }
    // Want of memory may be answered to any nest.
    ensures fault { IfErr result (λ fault. fault ≢ SpaceFault.Memory → space_of (view nest.now) ≡ Err fault) }
{
    let tops = list_of(nest)?;
    check_lists(tops)?;
    check_sizes(tops)?;
    let layers = read_layers(alloc, tops)?;
    Ok(Space::from_layers(alloc, layers)?)
}

/// The items of a list.
fn list_of(nest: &Nest) -> Result<&Items, SpaceFault>
    ensures items { IfOk result (λ items. as_list (view nest.now) ≡ Ok items.now) }
    ensures fault { IfErr result (λ fault. as_list (view nest.now) ≡ Err fault) }
{
    match nest {
        Nest::Number { place, .. } => Err(SpaceFault::Shape(*place)),
        Nest::List { items, .. } => Ok(items),
    }
}

/// Checks that each layer is a list.
fn check_lists(tops: &Items) -> Result<(), SpaceFault>
    ensures lists { OnOk result (each_from 0 (λ _ w. as_list w) tops.now ≡ Ok (map inner tops.now)) }
    ensures fault { IfErr result (λ fault. each_from 0 (λ _ w. as_list w) tops.now ≡ Err fault) }
{
    for index in 0..tops.len() {
        list_of(tops.get(index))?;
    }
    Ok(())
}

/// Checks how many layers and cells there are.
fn check_sizes(tops: &Items) -> Result<(), SpaceFault>
    ensures sized { OnOk result (IsSized (kept tops.now)) }
    ensures fault { IfErr result (λ fault. sized (kept tops.now) ≡ Err fault) }
{
    let layers = count_layers(tops);
    if layers == 0 {
        return Err(SpaceFault::Empty);
    }
    if layers > MOST_LAYERS {
        return Err(SpaceFault::TooHigh);
    }
    if count_cells(tops, layers) > MOST_CELLS {
        return Err(SpaceFault::TooManyCells);
    }
    Ok(())
}

/// How many layers there are without the empty ones at the end.
fn count_layers(tops: &Items) -> u32
    ensures { result ≡ length (kept tops.now) }
{
    let mut layers = 0;
    for index in 0..tops.len() {
        let is_kept = size_of(tops.get(index)) > 0;
        if is_kept {
            layers = index + 1;
        }
    }
    layers
}

/// How many cells the first layers have.
fn count_cells(tops: &Items, layers: u32) -> usize
    requires { layers ≤ length tops.now }
    ensures { result ≡ sum_by (λ cells. length cells) (take layers (map inner tops.now)) }
{
    let mut cells = 0usize;
    for index in 0..layers {
        cells += size_of(tops.get(index)) as usize;
    }
    cells
}

/// How many values are in a list; a number has none.
fn size_of(nest: &Nest) -> u32
    ensures { result ≡ length (inner (view nest.now)) }
{
    match nest {
        Nest::Number { .. } => 0,
        Nest::List { items, .. } => items.len(),
    }
}

/// Reads the four layers.
fn read_layers(alloc: Global, tops: &Items) -> Result<[Lists; 4], SpaceFault>
    ensures layers { IfOk result (λ layers. layers_from (kept tops.now) ≡ Ok layers) }
    ensures fault { IfErr result (λ fault. fault ≢ SpaceFault.Memory → layers_from (kept tops.now) ≡ Err fault) }
{
    let vertices = read_layer(alloc, 0, 0, tops)?;
    let edges = read_layer(alloc, 1, vertices.len(), tops)?;
    let faces = read_layer(alloc, 2, edges.len(), tops)?;
    let solids = read_layer(alloc, 3, faces.len(), tops)?;
    Ok([vertices, edges, faces, solids])
}

/// Reads the cells of a dimension, where the layer before has `below` cells.
fn read_layer(alloc: Global, dim: u8, below: usize, tops: &Items) -> Result<Lists, SpaceFault>
    ensures cells { IfOk result (λ cells. layer_from dim below (cells_in (kept tops.now) dim) ≡ Ok cells) }
    ensures fault { IfErr result (λ fault. fault ≢ SpaceFault.Memory
        → layer_from dim below (cells_in (kept tops.now) dim) ≡ Err fault) }
{
    let index = u32::from(dim);
    if index < tops.len() {
        read_cells(alloc, dim, below, tops.get(index))
    } else {
        Ok(Lists::new(alloc))
    }
}

/// Reads the cells of a layer.
fn read_cells(alloc: Global, dim: u8, below: usize, nest: &Nest) -> Result<Lists, SpaceFault>
    ensures cells { IfOk result (λ cells. layer_from dim below (inner (view nest.now)) ≡ Ok cells) }
    ensures fault { IfErr result (λ fault. fault ≢ SpaceFault.Memory
        → layer_from dim below (inner (view nest.now)) ≡ Err fault) }
{
    let mut cells = Lists::new(alloc);
    let Nest::List { items, .. } = nest else {
        return Ok(cells);
    };
    for index in 0..items.len() {
        let cell = Cell {
            dim,
            number: index + 1,
        };
        let facets = read_cell(alloc, cell, below, items.get(index))?;
        cells.push(facets.as_slice())?;
    }
    Ok(cells)
}
