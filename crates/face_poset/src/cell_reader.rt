ghost use Rattle.std.specs.Prelude.{◌≡◌, ◌≢◌, ◌≤◌, ◌<◌, ◌+◌, ◌∷◌, ◌==◌, ◌||◌, nat_lt, ℕ, length, slice_index};
ghost use Rattle.std.specs.Prelude.{MatchBool, IfOk, IfErr, OnOk, Ok, Err};
ghost use Rattle.std.specs.List.{list_any};
ghost use Rattle.std.specs.List.Sorted.{IsStrictlyIncreasing};
ghost use Rattle.gap_text.specs.Nest.{view};
ghost use Rattle.face_poset.specs.Reader.{as_number, as_cell, is_vertex, facets_from, cell_from};

use crate::cells::Cell;
use crate::fault::SpaceFault;
use gap_text::Nest;
use smallvec::SmallVec;
use std::alloc::Global;

/// Reads the facets of a cell, where the layer before has `below` cells.
pub(crate) fn read_cell(
    alloc: Global,
    cell: Cell,
    below: usize,
    nest: &Nest,
) -> Result<SmallVec<u32, 8>, SpaceFault>
    ensures ok { IfOk result
        (λ facets. cell_from cell.dim below cell.number (view nest.now) ≡ Ok facets.items) }
    ensures err { IfErr result (λ fault. fault ≢ SpaceFault.Memory
        → cell_from cell.dim below cell.number (view nest.now) ≡ Err fault) }
{
    let (count, mut facets) = read_numbers(alloc, nest)?;
    if cell.dim == 0 {
        if !is_vertex(count, facets.as_slice()) {
            return Err(SpaceFault::BadCount(cell));
        }
        facets.clear();
    } else {
        check_facets(cell, below, count, &mut facets)?;
    }
    Ok(facets)
}

/// The first number of a cell, and those after it.
fn read_numbers(alloc: Global, nest: &Nest) -> Result<(u32, SmallVec<u32, 8>), SpaceFault>
    ensures ok { IfOk result (λ cell. as_cell (view nest.now) ≡ Ok (cell.0 ∷ cell.1.items)) }
    ensures err { IfErr result (λ fault. fault ≢ SpaceFault.Memory → as_cell (view nest.now) ≡ Err fault) }
{
    match nest {
        Nest::Number { place, .. } => Err(SpaceFault::Shape(*place)),
        Nest::List { place, items } => {
            if items.len() == 0 {
                return Err(SpaceFault::Shape(*place));
            }
            let count = number_of(items.get(0))?;
            let mut numbers = SmallVec::new(alloc);
            for index in 1..items.len() {
                numbers.push(number_of(items.get(index))?)?;
            }
            Ok((count, numbers))
        }
    }
}

/// The number that a value is.
fn number_of(nest: &Nest) -> Result<u32, SpaceFault>
    ensures { result ≡ as_number (view nest.now) }
{
    match nest {
        Nest::Number { value, .. } => Ok(*value),
        Nest::List { place, .. } => Err(SpaceFault::Shape(*place)),
    }
}

/// Whether a cell with this first number and these after it is a vertex.
fn is_vertex(first: u32, rest: &[u32]) -> bool
    ensures { result ≡ is_vertex (first ∷ rest.now) }
{
    match rest {
        [only] => first == 1 && *only == 0,
        _ => false,
    }
}

/// Checks the facets of a cell that is no vertex, and leaves them in increasing order.
fn check_facets(
    cell: Cell,
    below: usize,
    count: u32,
    numbers: &mut SmallVec<u32, 8>,
) -> Result<(), SpaceFault>
    requires { 1 ≤ cell.dim }
    ensures ok { let from = facets_from cell.dim below cell.number (count ∷ numbers.old.items) in
        OnOk result (from ≡ Ok numbers.new.items) }
    ensures err { let from = facets_from cell.dim below cell.number (count ∷ numbers.old.items) in
        IfErr result (λ fault. from ≡ Err fault) }
{
    if count == 0 || count as usize != numbers.len() {
        return Err(SpaceFault::BadCount(cell));
    }
    if is_any_outside(numbers.as_slice(), below) {
        return Err(SpaceFault::FaceOutOfRange(cell));
    }
    numbers.sort_unstable();
    if !is_rising(numbers.as_slice()) {
        return Err(SpaceFault::RepeatedFace(cell));
    }
    Ok(())
}

/// Whether one of the numbers is 0 or above `most`.
fn is_any_outside(numbers: &[u32], most: usize) -> bool
    ensures { result ≡ list_any (λ n. (n == 0) || nat_lt most n) numbers.now }
{
    numbers.iter().any(|n| *n == 0 || *n as usize > most)
}

/// Whether each number is below the next.
fn is_rising(numbers: &[u32]) -> bool
    ensures { MatchBool result (IsStrictlyIncreasing numbers.now)
        ((k : ℕ)
        × (k + 1 < length numbers.now)
        × (slice_index numbers.now (k + 1) ≤ slice_index numbers.now k)) }
{
    for index in 1..numbers.len() {
        if numbers[index] <= numbers[index - 1] {
            return false;
        }
    }
    true
}
