// The ranks of the reduced coboundaries.
ghost use Rattle.std.specs.Prelude.{◌≡◌, ◌≤◌, ◌+◌, ◌*◌, IfOk};
ghost use Rattle.split_laws.specs.Kinds.{criticals};
ghost use Rattle.critical_complex.specs.Levels.{kinds_at};
ghost use Rattle.reduced_betti.specs.Ranks.{HasRank, AreRanks, critical_entries};

use critical_complex::Reduced;
use small_field::Field;
use std::alloc::{AllocError, Global};
use std::sync::ledger::Ledger;
use step_count::Steps;

/// The ranks of the reduced coboundaries out of the degrees 0, 1 and 2.
#[derive(Clone, Copy)]
pub struct Ranks {
    pub first: u32,
    pub second: u32,
    pub third: u32,
}

/// The three ranks.
pub fn reduced_ranks<F: Field, L: Ledger>(
    alloc: Global,
    reduced: &Reduced<F>,
    steps: &mut Steps<L>,
) -> Result<Ranks, AllocError>
    ensures ranks { IfOk result (AreRanks F.ops reduced.now) }
    ensures steps { steps.new ≤ steps.old + critical_entries reduced.now }
{
    Ok(Ranks {
        first: reduced_rank(alloc, reduced, 0, steps)?,
        second: reduced_rank(alloc, reduced, 1, steps)?,
        third: reduced_rank(alloc, reduced, 2, steps)?,
    })
}

/// How many critical cells of a degree there are.
pub fn critical_count<F: Field>(reduced: &Reduced<F>, dim: u8) -> u32
    requires { dim ≤ 3 }
    ensures { result ≡ criticals (kinds_at reduced.now dim) }
{
    reduced.criticals(dim)
}

/// The rank of the reduced coboundary of a degree, by its rows that are not zero. Each row addition of the
/// reduction is one step.
fn reduced_rank<F: Field, L: Ledger>(
    alloc: Global,
    reduced: &Reduced<F>,
    dim: u8,
    steps: &mut Steps<L>,
) -> Result<u32, AllocError>
    requires { dim ≤ 3 }
    ensures rank { IfOk result (HasRank F.ops reduced.now dim) }
    ensures steps { steps.new
        ≤ steps.old + criticals (kinds_at reduced.now dim) * criticals (kinds_at reduced.now (dim + 1)) }
{
    let mut matrix = reduced.filled_rows(dim).copy(alloc)?;
    matrix.reduce(steps);
    Ok(matrix.rank())
}
