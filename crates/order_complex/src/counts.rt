// How many chains of each degree a space has.
ghost use Rattle.std.specs.Prelude.{◌≡◌, ◌≤◌, ◌<◌, ◌+◌, ◌-◌, All, length, slice_index, sum_by, IfOk, IfErr, OnOk};
ghost use Rattle.face_poset.specs.Poset.{count, cell_count};
ghost use Rattle.order_complex.specs.Chains.{cells_before, chain_count};
ghost use Rattle.order_complex.specs.Complex.{IsRefused};
ghost use Rattle.order_complex.specs.Counting.{chain_counts, IsTally};

use crate::faces::face_ids;
use crate::fault::ChainFault;
use face_poset::{Graded, Space};
use std::alloc::{AllocError, Global};
use std::marker::Model;

/// The numbers of chains of degrees 0 to 3 of a space, which contracts see as the list of the four numbers.
#[derive(Drop)]
pub struct ChainCounts {
    counts: [u32; 4],
}

impl Model for ChainCounts {
    ghost use Rattle.std.specs.Prelude.{List, ℕ};

    ghost Value = { List ℕ };

    ghost view = { λ s. s.counts };
}

impl ChainCounts {
    /// Counts the chains of a space, without listing them, in memory for some numbers for each cell and the faces of
    /// one cell. A refusal comes where there are more than the limit, and carries their number.
    pub fn new(alloc: Global, space: &Space, limit: u32) -> Result<ChainCounts, ChainFault>
        ensures counts { IfOk result (λ counts. counts ≡ chain_counts space.now) }
        ensures within { OnOk result (chain_count space.now ≤ limit) }
        ensures refused { IfErr result (IsRefused (chain_count space.now) limit) }
    {
        let Ok(tally) = tally_space(alloc, space) else {
            return Err(ChainFault::Memory);
        };
        let points = tally.pairs.len() as u64;
        let total = points + tally.edges + tally.triangles + tally.tetrahedra;
        if total > u64::from(limit) {
            return Err(ChainFault::TooManyChains(total));
        }
        Ok(ChainCounts {
            counts: [
                points as u32,
                tally.edges as u32,
                tally.triangles as u32,
                tally.tetrahedra as u32,
            ],
        })
    }

    /// How many chains of the degree there are.
    pub fn len(&self, degree: u8) -> u32
        requires { degree < length self.now }
        ensures { result ≡ slice_index self.now degree }
    {
        self.counts[degree as usize]
    }
}

/// Numbers of chains that end in the first cells, in the order of ids: those of two and of three cells, for each cell
/// that they end in, and those of two, three and four cells in all.
#[derive(Drop)]
struct Tally {
    pairs: Vec<u64>,
    triples: Vec<u64>,
    edges: u64,
    triangles: u64,
    tetrahedra: u64,
}

/// Counts the chains that end in any cell.
fn tally_space(alloc: Global, space: &Space) -> Result<Tally, AllocError>
    ensures tally { IfOk result (λ t.
        IsTally space.now (cell_count space.now) t.pairs.items t.triples.items t.edges t.triangles
        t.tetrahedra) }
    ensures few { cell_count space.now ≤ 60000 }
{
    let _vertices = space.cells(0);
    let mut tally = Tally {
        pairs: Vec::new(alloc),
        triples: Vec::new(alloc),
        edges: 0,
        triangles: 0,
        tetrahedra: 0,
    };
    tally_dimension(alloc, space, 0, &mut tally)?;
    tally_dimension(alloc, space, 1, &mut tally)?;
    tally_dimension(alloc, space, 2, &mut tally)?;
    tally_dimension(alloc, space, 3, &mut tally)?;
    Ok(tally)
}

/// Counts the chains that end in a cell of a dimension, where those that end in cells of smaller dimensions are
/// counted.
fn tally_dimension(
    alloc: Global,
    space: &Space,
    dim: u8,
    tally: &mut Tally,
) -> Result<(), AllocError>
    requires dim { dim ≤ 3 }
    requires few { cell_count space.now ≤ 60000 }
    requires before { IsTally space.now (cells_before space.now dim) tally.old.pairs.items tally.old.triples.items
        tally.old.edges tally.old.triangles tally.old.tetrahedra }
    ensures { OnOk result
        (IsTally space.now (cells_before space.now dim + count space.now dim) tally.new.pairs.items
        tally.new.triples.items tally.new.edges tally.new.triangles tally.new.tetrahedra) }
{
    for index in 0..space.cells(dim) {
        tally_cell(alloc, space, dim, index + 1, tally)?;
    }
    Ok(())
}

/// Counts the chains that end in a cell, where those that end in cells with smaller ids are counted.
fn tally_cell(
    alloc: Global,
    space: &Space,
    dim: u8,
    number: u32,
    tally: &mut Tally,
) -> Result<(), AllocError>
    requires dim { dim ≤ 3 }
    requires first { 1 ≤ number }
    requires last { number ≤ count space.now dim }
    requires few { cell_count space.now ≤ 60000 }
    requires before { IsTally space.now (cells_before space.now dim + number - 1) tally.old.pairs.items
        tally.old.triples.items tally.old.edges tally.old.triangles tally.old.tetrahedra }
    ensures { OnOk result
        (IsTally space.now (cells_before space.now dim + number) tally.new.pairs.items
        tally.new.triples.items tally.new.edges tally.new.triangles tally.new.tetrahedra) }
{
    let faces = face_ids(alloc, space, dim, number)?;
    let pairs = faces.len() as u64;
    let triples = sum_at(&tally.pairs, &faces);
    let fours = sum_at(&tally.triples, &faces);
    tally.pairs.push(pairs)?;
    tally.triples.push(triples)?;
    tally.edges += pairs;
    tally.triangles += triples;
    tally.tetrahedra += fours;
    Ok(())
}

/// The sum of the counts of these cells.
fn sum_at(counts: &[u64], cells: &[u32]) -> u64
    requires within { All (λ cell. (1 ≤ cell) × (cell ≤ length counts.now)) cells.now }
    requires small { All (λ n. n ≤ 3600000000) counts.now }
    requires few { length cells.now ≤ 60000 }
    ensures { result ≡ sum_by (λ cell. slice_index counts.now (cell - 1)) cells.now }
{
    let mut total: u64 = 0;
    for cell in cells {
        total += counts[*cell as usize - 1];
    }
    total
}
