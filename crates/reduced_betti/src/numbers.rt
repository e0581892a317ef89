// Betti numbers by the ranks of the reduced coboundaries.
ghost use Rattle.std.specs.Prelude.{◌≡◌, ◌≤◌, ◌<◌, ◌+◌, IsTrue, IfOk, IfErr, OnOk};
ghost use Rattle.order_complex.specs.Chains.{chain_count};
ghost use Rattle.order_complex.specs.Complex.{IsRefused};
ghost use Rattle.order_complex.specs.Numbers.{AreBetti, coboundary_entries};
ghost use Rattle.reduced_betti.specs.Numbers.{GivesBetti};
ghost use Rattle.small_field.specs.Modulus.{field_of, is_modulus};

use crate::ranks::{critical_count, reduced_ranks};
use critical_complex::Reduced;
use face_poset::Space;
use linear_laws::basis_by_ranks;
use order_complex::{Betti, ChainFault, Chains};
use small_field::{Field, OverField, over_field};
use split_laws::{betti_by_reduced_ranks, reduced_is_closed};
use std::alloc::{AllocError, Global};
use std::sync::ledger::Ledger;
use step_count::Steps;
use vector_field::free_field;

/// The Betti numbers of a space, with coefficients in the field with `modulus` elements. A refusal comes where there
/// are more chains than the limit, carries their number, and takes no step.
pub fn betti_of<L: Ledger>(
    alloc: Global,
    space: &Space,
    modulus: u8,
    limit: u32,
    steps: &mut Steps<L>,
) -> Result<Betti, ChainFault>
    requires modulus { IsTrue (is_modulus modulus) }
    ensures betti { IfOk result (AreBetti (field_of modulus) space.now) }
    ensures within { OnOk result (chain_count space.now ≤ limit) }
    ensures refused { IfErr result (IsRefused (chain_count space.now) limit) }
    ensures steps { steps.new ≤ steps.old + coboundary_entries space.now }
    ensures untouched { limit < chain_count space.now → steps.new ≡ steps.old }
{
    let chains = Chains::new(alloc, space, limit)?;
    match betti_modulo(alloc, &chains, modulus, steps) {
        Ok(numbers) => Ok(numbers),
        Err(_) => Err(ChainFault::Memory),
    }
}

/// The Betti numbers, with coefficients in the field with `modulus` elements.
pub fn betti_modulo<L: Ledger>(
    alloc: Global,
    chains: &Chains<'_>,
    modulus: u8,
    steps: &mut Steps<L>,
) -> Result<Betti, AllocError>
    requires modulus { IsTrue (is_modulus modulus) }
    ensures betti { IfOk result (AreBetti (field_of modulus) chains.now) }
    ensures steps { steps.new ≤ steps.old + coboundary_entries chains.now }
{
    let mut work = BettiWork {
        alloc,
        chains,
        steps,
    };
    over_field(modulus, &mut work)
}

/// The Betti numbers of chains, over a field that is still to be picked.
#[derive(Drop)]
struct BettiWork<'a, 'b, L: Ledger> {
    alloc: Global,
    chains: &'a Chains<'b>,
    steps: &'a mut Steps<L>,
}

impl<'a, 'b, L: Ledger> OverField for BettiWork<'a, 'b, L> {
    type Answer = Result<Betti, AllocError>;

    ghost gives = { λ k old new answer.
        GivesBetti k old.chains.now old.steps.now new.steps.now answer
        × (new.steps.ghost_name ≡ old.steps.ghost_name) };

    fn over<F: Field>(&mut self) -> Result<Betti, AllocError> {
        betti_numbers::<F, L>(self.alloc, self.chains, self.steps)
    }
}

/// The Betti numbers of the order complex of a space, with coefficients in a field: in each degree the length
/// of a basis of the cocycles modulo coboundaries (simplicial cohomology; textbook). Each row addition of the
/// eliminations is one step; there are at most rows times columns of the three coboundaries of all chains,
/// also where memory is wanting.
pub fn betti_numbers<F: Field, L: Ledger>(
    alloc: Global,
    chains: &Chains<'_>,
    steps: &mut Steps<L>,
) -> Result<Betti, AllocError>
    ensures betti { IfOk result (AreBetti F.ops chains.now) }
    ensures steps { steps.new ≤ steps.old + coboundary_entries chains.now }
{
    betti_by_reduced_ranks::<F>();
    reduced_is_closed::<F>();
    basis_by_ranks::<F>();
    let field = free_field(alloc, chains)?;
    let reduced = Reduced::<F>::new(alloc, chains, &field)?;
    let ranks = reduced_ranks(alloc, &reduced, steps)?;
    Ok(Betti {
        zero: cells_left(critical_count(&reduced, 0), 0, ranks.first),
        one: cells_left(critical_count(&reduced, 1), ranks.first, ranks.second),
        two: cells_left(critical_count(&reduced, 2), ranks.second, ranks.third),
        three: cells_left(critical_count(&reduced, 3), ranks.third, 0),
    })
}

/// The number of critical cells of a degree less the ranks of the reduced coboundaries into and out of it.
fn cells_left(cells: u32, rank_last: u32, rank_next: u32) -> u32
    requires { rank_last + rank_next ≤ cells }
    ensures { result + rank_last + rank_next ≡ cells }
{
    cells - rank_last - rank_next
}
