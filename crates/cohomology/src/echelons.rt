// The reduced coboundaries in echelon form.
ghost use Rattle.std.specs.Prelude.{◌≡◌, ◌≤◌, ◌+◌, ◌*◌, List, IfOk};
ghost use Rattle.face_poset.specs.Poset.{Layers};
ghost use Rattle.linear_laws.specs.Echelon.{IsReduced};
ghost use Rattle.split_laws.specs.Kinds.{criticals};
ghost use Rattle.critical_complex.specs.Levels.{Level, kinds_at};
ghost use Rattle.order_complex.specs.Homology.{IsBetti};
ghost use Rattle.cohomology.specs.Echelons.{AreEchelons, AreRowsOf, IsEchelon, ReductionsHaveRows};
ghost use Rattle.cohomology.specs.Echelons.{critical_entries, rank_in};

use critical_complex::Reduced;
use field_matrix::Elimination;
use linear_laws::basis_by_ranks;
use order_complex::Betti;
use small_field::Field;
use split_laws::{betti_by_reduced_ranks, reduced_is_closed};
use std::alloc::{AllocError, Global};
use std::sync::ledger::Ledger;
use step_count::Steps;

/// The reduced coboundaries out of the degrees 0, 1 and 2, their rows that are not zero alone, in reduced row echelon
/// form with its history; and the number of critical cells of each degree less the ranks into it and out of it.
#[derive(Drop)]
pub struct Echelons<F: Field> {
    pub(crate) first: Elimination<F>,
    pub(crate) second: Elimination<F>,
    pub(crate) third: Elimination<F>,
    numbers: Betti,
}

impl<F: Field> Echelons<F> {
    /// Eliminates the three reduced coboundaries. Each row addition is one step; there are at most rows times columns
    /// of the three, also where memory is wanting.
    pub fn new<L: Ledger>(
        alloc: Global,
        reduced: &Reduced<F>,
        steps: &mut Steps<L>,
    ) -> Result<Echelons<F>, AllocError>
        ensures echelons { IfOk result (AreEchelons F.ops reduced.now) }
        ensures steps { steps.new ≤ steps.old + critical_entries reduced.now }
    {
        reduced_is_closed::<F>();
        basis_by_ranks::<F>();
        let _complex = reduced.critical(0);
        let first = eliminate(alloc, reduced, 0, steps)?;
        let second = eliminate(alloc, reduced, 1, steps)?;
        let third = eliminate(alloc, reduced, 2, steps)?;
        let ranks = (
            rank_of_form(&first),
            rank_of_form(&second),
            rank_of_form(&third),
        );
        let numbers = Betti {
            zero: cells_left(reduced.criticals(0), 0, ranks.0),
            one: cells_left(reduced.criticals(1), ranks.0, ranks.1),
            two: cells_left(reduced.criticals(2), ranks.1, ranks.2),
            three: cells_left(reduced.criticals(3), ranks.2, 0),
        };
        Ok(Echelons {
            first,
            second,
            third,
            numbers,
        })
    }

    /// The Betti number of a degree: where the rows of the complex are those of the coboundaries on the chains of a
    /// space, the length of each basis of the cocycles modulo coboundaries.
    pub fn betti(&self, degree: u8) -> u32
        requires { degree ≤ 3 }
        ensures { (levels : List Level) (space : Layers) → AreEchelons F.ops levels self.now
            → AreRowsOf F.ops levels space → IsBetti F.ops space degree result }
    {
        betti_by_reduced_ranks::<F>();
        match degree {
            0 => self.numbers.zero,
            1 => self.numbers.one,
            2 => self.numbers.two,
            _ => self.numbers.three,
        }
    }
}

/// A reduction of the chains of a space by a field of pairs has the rows of the coboundaries on the chains.
pub fn reductions_have_rows<F: Field>()
    ensures { ReductionsHaveRows F.ops }
{}

/// The reduced rows of a degree that are not zero, in echelon form. Each row addition is one step.
fn eliminate<F: Field, L: Ledger>(
    alloc: Global,
    reduced: &Reduced<F>,
    dim: u8,
    steps: &mut Steps<L>,
) -> Result<Elimination<F>, AllocError>
    requires { dim ≤ 2 }
    ensures echelon { IfOk result (IsEchelon F.ops reduced.now dim) }
    ensures steps { steps.new
        ≤ steps.old + criticals (kinds_at reduced.now dim) * criticals (kinds_at reduced.now (dim + 1)) }
{
    reduced.filled_rows(dim).eliminate(alloc, steps)
}

/// How many pivots the form has.
fn rank_of_form<F: Field>(form: &Elimination<F>) -> u32
    requires { IsReduced form.now.reduced.cols form.now.reduced.rows }
    ensures { result ≡ rank_in form.now }
{
    form.reduced.rank()
}

/// The number of critical cells of a degree less the ranks of the reduced coboundaries into and out of it.
fn cells_left(cells: u32, rank_last: u32, rank_next: u32) -> u32
    requires { rank_last + rank_next ≤ cells }
    ensures { result + rank_last + rank_next ≡ cells }
{
    cells - rank_last - rank_next
}
