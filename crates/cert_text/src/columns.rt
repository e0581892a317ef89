ghost use Rattle.std.specs.Prelude.{◌≡◌, ◌==◌, ◌≤◌, ◌<◌, ◌+◌, ◌^◌, ◌&&◌, ◌||◌, ◌∷◌, [], not, nat_le, slice_index_or, IsTrue, IfOk, IfErr};
ghost use Rattle.face_poset.specs.Poset.{count};
ghost use Rattle.certificates.specs.WellFormed.{paired};
ghost use Rattle.cert_text.specs.Reading as reading;
ghost use Rattle.cert_lines.specs.declared.fault.CertFault.TheVariants.{Memory};
ghost use Rattle.cert_lines.specs.Taken.{Reads};
ghost use Rattle.cert_text.specs.Taking.{critical_of, column_at};

use cert_lines::{CertFault, Lines, take_numbers};
use certificates::{Kind, Numbers, PairLine, PairLines};
use face_poset::{Graded, Space};
use std::alloc::Global;

/// The numbers of critical cells by dimension, and the number of their line.
#[derive(Clone, Copy)]
pub struct Critical {
    pub number: u32,
    pub cells: [u32; 4],
}

/// The critical cells: those in no pair.
pub fn read_critical(
    lines: &mut Lines<'_>,
    version: u8,
    space: &Space,
    pairs: &PairLines,
) -> Result<Critical, CertFault>
    ensures { Reads critical_of (reading.read_critical version space.now pairs.now lines.old) lines.new result }
{
    let number = lines.number();
    let numbers = take_numbers(lines, version, Kind::Critical)?;
    if !are_critical(space, pairs, numbers) {
        return Err(CertFault::OutOfRange(number));
    }
    let [points, edges, faces, solids] = numbers;
    Ok(Critical {
        number,
        cells: [points as u32, edges as u32, faces as u32, solids as u32],
    })
}

fn are_critical(space: &Space, pairs: &PairLines, numbers: [u64; 4]) -> bool
    ensures fit { result ≡ reading.all_critical space.now pairs.now numbers }
    ensures small { IsTrue result → (slice_index_or numbers 0 0 < 2 ^ 32) × (slice_index_or numbers 1 0 < 2 ^ 32)
        × (slice_index_or numbers 2 0 < 2 ^ 32) × (slice_index_or numbers 3 0 < 2 ^ 32) }
{
    let [points, edges, faces, solids] = numbers;
    is_critical(space, pairs, 0, points)
        && is_critical(space, pairs, 1, edges)
        && is_critical(space, pairs, 2, faces)
        && is_critical(space, pairs, 3, solids)
}

/// Whether so many cells of a dimension are in no pair.
fn is_critical(space: &Space, pairs: &PairLines, dim: u8, number: u64) -> bool
    ensures fit { result ≡ (number + paired dim pairs.now == count space.now dim) }
    ensures small { IsTrue result → number < 2 ^ 32 }
{
    let cells = u64::from(space.cells(dim));
    number <= cells && number + u64::from(count_paired(pairs, dim)) == cells
}

/// How many cells of a dimension stand in pairs.
fn count_paired(pairs: &PairLines, dim: u8) -> u32
    ensures { result ≡ paired dim pairs.now }
{
    let mut found: u32 = 0;
    for index in 0..pairs.len() {
        found += cells_in(pairs.get(index), dim);
    }
    found
}

/// How many cells of a pair have a dimension: one or none.
fn cells_in(line: &PairLine, dim: u8) -> u32
    ensures { result ≡ paired dim (line.now ∷ []) }
{
    let low = line.pair.dim;
    if low == dim || u16::from(low) + 1 == u16::from(dim) {
        1
    } else {
        0
    }
}

/// The numbers of columns of the components: in version 1 that of the one component, the critical edges.
pub fn read_columns(
    alloc: Global,
    lines: &mut Lines<'_>,
    version: u8,
    critical: [u32; 4],
) -> Result<Numbers, CertFault>
    ensures { Reads (λ columns. columns) (reading.read_columns version critical lines.old) lines.new result }
{
    let [components, edges, _, _] = critical;
    if version == 1 {
        return one_column(alloc, edges);
    }
    let number = lines.number();
    let stated = take_numbers(lines, version, Kind::Components)?[0];
    if !is_count(stated, components) {
        return Err(CertFault::OutOfRange(number));
    }
    read_each(alloc, lines, version, components, edges)
}

fn one_column(alloc: Global, columns: u32) -> Result<Numbers, CertFault>
    ensures list { IfOk result (λ list. list ≡ columns ∷ []) }
    ensures memory { IfErr result (λ fault. fault ≡ Memory) }
{
    let mut list = Numbers::new(alloc);
    list.push(columns)?;
    Ok(list)
}

fn is_count(stated: u64, components: u32) -> bool
    ensures { result ≡ (stated == components) && nat_le 1 stated }
{
    stated == u64::from(components) && 1 <= stated
}

/// The columns of so many components, in all as many as there are critical edges.
fn read_each(
    alloc: Global,
    lines: &mut Lines<'_>,
    version: u8,
    components: u32,
    edges: u32,
) -> Result<Numbers, CertFault>
    ensures { Reads (λ columns. columns) (reading.columns_from version 1 components edges lines.old) lines.new result }
{
    let mut columns = Numbers::new(alloc);
    let mut left = edges;
    let mut done: u32 = 0;
    'components: while done < components {
        let own = read_column(lines, version, done + 1, components - done - 1, left)?;
        columns.push(own)?;
        left -= own;
        done += 1;
    }
    Ok(columns)
}

/// The columns of a component that so many others follow, of those that are left.
fn read_column(
    lines: &mut Lines<'_>,
    version: u8,
    component: u32,
    later: u32,
    left: u32,
) -> Result<u32, CertFault>
    ensures read { Reads (λ columns. columns) (column_at version component later left lines.old) lines.new result }
    ensures within { IfOk result (λ columns. columns ≤ left) }
{
    let number = lines.number();
    let numbers = take_numbers(lines, version, Kind::Columns)?;
    if !is_column(numbers[0], numbers[1], component, later, left) {
        return Err(CertFault::OutOfRange(number));
    }
    Ok(numbers[1] as u32)
}

fn is_column(first: u64, columns: u64, component: u32, later: u32, left: u32) -> bool
    ensures fit { result ≡ (first == component) && nat_le columns left && (not (later == 0) || (columns == left)) }
    ensures within { IsTrue result → columns ≤ left }
{
    first == u64::from(component)
        && columns <= u64::from(left)
        && (later != 0 || columns == u64::from(left))
}
