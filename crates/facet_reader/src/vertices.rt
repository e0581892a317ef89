// Labels and the numbers of vertices.
ghost use Rattle.std.specs.Prelude.{◌≡◌, ◌<◌, ◌^◌, ℕ, length, map, Contains, IfOk, OnOk};
ghost use Rattle.std.specs.List.Sorted.{IsStrictlyIncreasing};
ghost use Rattle.facet_reader.specs.Simplices.{vertices_of, number_in, numbered_row};

use number_lists::{Lists, sort_indexes_once, sort_once};
use std::alloc::{AllocError, Global};

/// The labels that occur in the lists, in increasing order.
pub(crate) fn list_vertices(alloc: Global, rows: &Lists) -> Result<Vec<usize>, AllocError>
    ensures { IfOk result (λ vertices. vertices.items ≡ vertices_of rows.now) }
{
    let mut vertices = widen(alloc, rows.entries())?;
    sort_indexes_once(&mut vertices);
    Ok(vertices)
}

/// The numbers as indexes.
fn widen(alloc: Global, numbers: &[u32]) -> Result<Vec<usize>, AllocError>
    ensures { IfOk result (λ wide. wide.items ≡ numbers.now) }
{
    numbers.iter().map(|number| *number as usize).collect(alloc)
}

/// The lists of the numbers of the vertices, each in increasing order.
pub(crate) fn number_rows(
    alloc: Global,
    rows: &Lists,
    vertices: &[usize],
) -> Result<Lists, AllocError>
    requires vertices { vertices.now ≡ vertices_of rows.now }
    requires few { length vertices.now < 2 ^ 32 }
    ensures { IfOk result (λ numbered. numbered ≡ map (numbered_row vertices.now) rows.now) }
{
    let mut numbered = Lists::new(alloc);
    let mut row = Vec::new(alloc);
    for index in 0..rows.len() {
        number_row(rows.get(index), vertices, &mut row)?;
        numbered.push(&row)?;
    }
    Ok(numbered)
}

/// Puts the numbers of the labels of a list in increasing order in place of those that stood there.
fn number_row(labels: &[u32], vertices: &[usize], row: &mut Vec<u32>) -> Result<(), AllocError>
    requires rises { IsStrictlyIncreasing vertices.now }
    requires few { length vertices.now < 2 ^ 32 }
    requires there { (x : ℕ) → Contains labels.now x → Contains vertices.now x }
    ensures { OnOk result (row.new.items ≡ numbered_row vertices.now labels.now) }
{
    row.clear();
    for label in labels {
        row.push(number_of(vertices, *label as usize))?;
    }
    sort_once(row);
    Ok(())
}

/// The number of a place among increasing places, counted from 1.
pub(crate) fn number_of(places: &[usize], place: usize) -> u32
    requires rises { IsStrictlyIncreasing places.now }
    requires few { length places.now < 2 ^ 32 }
    requires there { Contains places.now place }
    ensures { result ≡ number_in places.now place }
{
    match places.binary_search(&place) {
        Ok(index) => index as u32 + 1,
        Err(_) => unreachable!(),
    }
}
