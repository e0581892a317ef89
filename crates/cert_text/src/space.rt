ghost use Rattle.std.specs.Prelude.{◌≡◌, ◌≤◌, ◌<◌, ◌-◌, ◌∷◌, ◌++◌, [], ℕ, List, true, length, replicate, slice_set, slice_index_or, if◌then◌else◌, IfOk, IfErr, OnOk, Some, None};
ghost use Rattle.std.specs.Str.{bytes_eq};
ghost use Rattle.face_poset.specs.Poset.{layer, count, IsCell};
ghost use Rattle.cert_lines.specs.declared.fault.CertFault.TheVariants.{Memory};
ghost use Rattle.cert_lines.specs.Readers.{many};
ghost use Rattle.cert_text.specs.Reading as reading;
ghost use Rattle.cert_lines.specs.Taken.{Reads};

use cert_lines::{CertFault, LineKind, Lines, number_or_zero, rising_at, take, take_numbers};
use certificates::Kind;
use face_poset::{Builder, Space};
use order_complex::{ChainCounts, ChainFault};
use std::alloc::{AllocError, Global};

/// The most cells of a space.
const MOST_CELLS: u64 = 60_000;

/// The most chains of the order complex.
const MOST_CHAINS: u32 = 700_000;

/// The space, by its numbers of cells and its faces.
pub fn read_space(alloc: Global, lines: &mut Lines<'_>, version: u8) -> Result<Space, CertFault>
    ensures { Reads (λ space. space) (reading.read_space version lines.old) lines.new result }
{
    let number = lines.number();
    let cells = take_numbers(lines, version, Kind::Cells)?;
    if !are_cells(cells) {
        return Err(CertFault::OutOfRange(number));
    }
    read_faces(alloc, lines, version, cells)
}

/// The numbers of chains of the space.
pub fn read_chains(
    alloc: Global,
    lines: &mut Lines<'_>,
    version: u8,
    space: &Space,
) -> Result<[u32; 4], CertFault>
    ensures { Reads (λ chains. chains) (reading.read_chains version space.now lines.old) lines.new result }
{
    let number = lines.number();
    let chains = take_numbers(lines, version, Kind::Chains)?;
    match count_if(alloc, space, chains)? {
        None => Err(CertFault::OutOfRange(number)),
        Some(counts) => Ok(counts),
    }
}

fn are_cells(cells: [u64; 4]) -> bool
    ensures { result ≡ reading.cells_fit cells }
{
    let [points, edges, faces, solids] = cells;
    points >= 1
        && points <= MOST_CELLS
        && edges <= MOST_CELLS
        && faces <= MOST_CELLS
        && solids <= MOST_CELLS
        && points + edges + faces + solids <= MOST_CELLS
}

/// The faces of a space with so many cells.
fn read_faces(
    alloc: Global,
    lines: &mut Lines<'_>,
    version: u8,
    cells: [u64; 4],
) -> Result<Space, CertFault>
    requires { reading.cells_fit cells ≡ true }
    ensures { Reads (λ space. space) (reading.read_faces version cells lines.old) lines.new result }
{
    let [points, edges, faces, solids] = cells;
    let mut builder = Builder::new(alloc);
    add_points(&mut builder, points as u32)?;
    read_layer(
        alloc,
        lines,
        version,
        1,
        points as u32,
        edges as u32,
        &mut builder,
    )?;
    read_layer(
        alloc,
        lines,
        version,
        2,
        edges as u32,
        faces as u32,
        &mut builder,
    )?;
    read_layer(
        alloc,
        lines,
        version,
        3,
        faces as u32,
        solids as u32,
        &mut builder,
    )?;
    Ok(builder.finish()?)
}

/// Adds so many vertices.
fn add_points(builder: &mut Builder, points: u32) -> Result<(), CertFault>
    requires { builder.old ≡ [] ∷ [] ∷ [] ∷ [] ∷ [] }
    ensures points { OnOk result (builder.new ≡ replicate points [] ∷ [] ∷ [] ∷ [] ∷ []) }
    ensures memory { IfErr result (λ fault. fault ≡ Memory) }
{
    let mut added: u32 = 0;
    'points: while added < points {
        add_cell(builder, 0, &[])?;
        added += 1;
    }
    Ok(())
}

/// The faces of a dimension, so many, over so many cells below.
fn read_layer(
    alloc: Global,
    lines: &mut Lines<'_>,
    version: u8,
    dim: u8,
    below: u32,
    faces: u32,
    builder: &mut Builder,
) -> Result<(), CertFault>
    requires four { length builder.old ≡ 4 }
    requires low { 1 ≤ dim }
    requires high { dim ≤ 3 }
    requires below { below ≡ count builder.old (dim - 1) }
    requires none { layer builder.old dim ≡ [] }
    requires last { (above : ℕ) → dim < above → count builder.old above ≡ 0 }
    ensures read { Reads (λ _. layer builder.new dim)
        (many faces (reading.read_face version dim below) lines.old) lines.new result }
    ensures faces { OnOk result (count builder.new dim ≡ faces) }
    ensures layers { OnOk result (builder.new ≡ slice_set builder.old dim (layer builder.new dim)) }
{
    let mut left = faces;
    'faces: while left > 0 {
        let facets = read_face(alloc, lines, version, dim, below)?;
        add_cell(builder, dim, &facets)?;
        left -= 1;
    }
    Ok(())
}

/// Adds a cell. There is room for it, since the numbers of cells were looked at, so a refusal is want of
/// memory.
fn add_cell(builder: &mut Builder, dim: u8, facets: &[u32]) -> Result<(), CertFault>
    requires dim { dim ≤ 3 }
    requires last { (above : ℕ) → dim < above → count builder.old above ≡ 0 }
    requires vertex { dim ≡ 0 → facets.now ≡ [] }
    requires cell { 1 ≤ dim → IsCell (count builder.old (dim - 1)) facets.now }
    ensures added { OnOk result (builder.new ≡ slice_set builder.old dim (layer builder.old dim ++ facets.now ∷ [])) }
    ensures memory { IfErr result (λ fault. fault ≡ Memory) }
{
    match builder.add(dim, facets) {
        Ok(_) => Ok(()),
        Err(_) => Err(CertFault::Memory),
    }
}

/// The facets of a face.
fn read_face(
    alloc: Global,
    lines: &mut Lines<'_>,
    version: u8,
    dim: u8,
    below: u32,
) -> Result<Vec<u32>, CertFault>
    ensures read { Reads (λ facets. facets.items) (reading.read_face version dim below lines.old) lines.new result }
    ensures cell { IfOk result (λ facets. IsCell below facets.items) }
{
    let number = lines.number();
    let line = take(lines, version, LineKind::Plain(Kind::Face))?;
    if number_or_zero(line, 0) != u64::from(dim) {
        return Err(CertFault::OutOfRange(number));
    }
    match rising_at(alloc, line, 1, below)? {
        None => Err(CertFault::OutOfRange(number)),
        Some(facets) => Ok(facets),
    }
}

/// The numbers of chains, if these are they and they are not too many.
fn count_if(alloc: Global, space: &Space, chains: [u64; 4]) -> Result<Option<[u32; 4]>, AllocError>
    ensures { IfOk result (λ counts. counts
        ≡ (if reading.chains_fit space.now chains then Some chains else None)) }
{
    match ChainCounts::new(alloc, space, MOST_CHAINS) {
        Err(ChainFault::Memory) => Err(AllocError),
        Err(ChainFault::TooManyChains(_)) => Ok(None),
        Ok(counts) => Ok(same_counts(&counts, chains)),
    }
}

fn same_counts(counts: &ChainCounts, chains: [u64; 4]) -> Option<[u32; 4]>
    requires { length counts.now ≡ 4 }
    ensures { result ≡ (if bytes_eq chains counts.now then Some chains else None) }
{
    let found = [counts.len(0), counts.len(1), counts.len(2), counts.len(3)];
    let wide = [
        u64::from(found[0]),
        u64::from(found[1]),
        u64::from(found[2]),
        u64::from(found[3]),
    ];
    if are_same(&chains, &wide) {
        Some(found)
    } else {
        None
    }
}

fn are_same(left: &[u64], right: &[u64]) -> bool
    ensures { result ≡ bytes_eq left.now right.now }
{
    left == right
}
