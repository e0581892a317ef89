// The stages of pairs of the circle of two points and two edges. What is wanted was worked out by hand, over the
// field of three elements.
ghost use Rattle.std.specs.Prelude.{◌≡◌, ◌≤◌, length, IfOk};
ghost use Rattle.split_laws.specs.Kinds.{criticals};
ghost use Rattle.pair_stages.specs.Splits.{kinds_at};

use crate::worked::{CIRCLE, read};
use face_poset::{Pair, Signed};
use field_matrix::Row;
use order_complex::Chains;
use pair_stages::Stages;
use small_field::{Cochain, Field, Gfp};
use std::alloc::{AllocError, Global};
use std::process::Abort;
use std::test::Fail;
use vector_field::{PairFault, PairList};

/// The points 3 and 4 with the edges to them from 1 and from 2. The edges from 1 to 4 and from 2 to 3 are left.
fn pairs() -> [Pair; 2] {
    [
        Pair {
            dim: 0,
            lower: 3,
            upper: 1,
        },
        Pair {
            dim: 0,
            lower: 4,
            upper: 4,
        },
    ]
}

/// The stages of the field of these pairs.
fn stages_of<F: Field, G: Signed>(alloc: Global, graded: &G) -> Result<Stages<F>, PairFault> {
    let field = PairList::from_pairs(alloc, graded, &pairs())?;
    Ok(Stages::new(alloc, graded, &field)?)
}

/// The stages of the circle.
fn circle<F: Field>(alloc: Global) -> Result<Stages<F>, Fail> {
    let space = read(alloc, CIRCLE)?;
    let chains = Chains::new(alloc, &space, 8)?;
    Ok(stages_of(alloc, &chains)?)
}

#[test]
fn stages_tell_the_critical_cells(rt: HostRuntime) -> Result<(), Fail> {
    let stages = circle::<Gfp<3>>(rt.alloc())?;
    assert!(rt; stages.critical(0) == [1u32, 2].as_slice());
    Ok(())
}

#[test]
fn stages_count_the_critical_cells(rt: HostRuntime) -> Result<(), Fail> {
    let stages = circle::<Gfp<3>>(rt.alloc())?;
    assert!(rt; stages.criticals(1) == 2);
    Ok(())
}

/// The numbers of a chain or cochain of four cells.
fn numbers<F: Field>(rt: &impl Abort, values: &Cochain<F>) -> [u32; 4] {
    assert!(rt; values.len() == 4);
    [
        values.get(1).to_number(),
        values.get(2).to_number(),
        values.get(3).to_number(),
        values.get(4).to_number(),
    ]
}

/// The values 1 and 2 at the two critical cells of a degree.
fn one_and_two<F: Field>(
    rt: &impl Abort,
    alloc: Global,
    stages: &Stages<F>,
    dim: u8,
) -> Result<Row<F>, AllocError>
    requires { dim ≤ 3 }
    ensures { IfOk result (λ row. length row ≡ criticals (kinds_at stages.now dim)) }
{
    let mut row = Row::zero(alloc, stages.criticals(dim))?;
    assert!(rt; row.len() == 2);
    row.set(0, F::one());
    row.set(1, F::one().add(F::one()));
    Ok(row)
}

/// The extension of the values 1 and 2 at two critical points.
fn extended<F: Field>(
    rt: &impl Abort,
    alloc: Global,
    stages: &Stages<F>,
) -> Result<[u32; 4], AllocError> {
    let row = one_and_two(rt, alloc, stages, 0)?;
    let values = stages.extend(alloc, 0, &row)?;
    Ok(numbers(rt, &values))
}

// The value at 1 is taken along the edge to 3, and the value at 2 along the edge to 4.
#[test]
fn stages_extend_values_along_the_edges_of_pairs(rt: HostRuntime) -> Result<(), Fail> {
    let stages = circle::<Gfp<3>>(rt.alloc())?;
    assert_eq!(rt; extended(&rt, rt.alloc(), &stages)?, [1, 2, 1, 2]);
    Ok(())
}

/// The flow of the values 1 and 2 at two critical edges.
fn flow_of<F: Field>(
    rt: &impl Abort,
    alloc: Global,
    stages: &Stages<F>,
) -> Result<[u32; 4], AllocError> {
    let row = one_and_two(rt, alloc, stages, 1)?;
    let values = stages.flow(alloc, 1, &row)?;
    Ok(numbers(rt, &values))
}

// The edge from 1 to 4 needs -1 times that from 2 to 4, and 2 times the edge from 2 to 3 needs -2 times that from 1.
#[test]
fn stages_close_edges_at_the_lowers(rt: HostRuntime) -> Result<(), Fail> {
    let stages = circle::<Gfp<3>>(rt.alloc())?;
    assert_eq!(rt; flow_of(&rt, rt.alloc(), &stages)?, [1, 1, 2, 2]);
    Ok(())
}
