// The circle of two points and two edges. Its chains are four points and four edges, from 1 to 3 and 4 and
// from 2 to 3 and 4. What is wanted was worked out by hand, over the field of three elements.
ghost use Rattle.std.specs.Prelude.{◌≡◌, ◌≤◌, length, IfOk};
ghost use Rattle.split_laws.specs.Kinds.{criticals};
ghost use Rattle.critical_complex.specs.Levels.{kinds_at};

use crate::worked::{CIRCLE, read};
use critical_complex::Reduced;
use face_poset::{Pair, Signed};
use field_matrix::Row;
use order_complex::Chains;
use small_field::{Cochain, Field, Gf4, Gf9, Gfp};
use std::alloc::{AllocError, Global};
use std::process::Abort;
use std::test::Fail;
use vector_field::{PairFault, PairList};

/// A pair by its three numbers.
fn pair(dim: u8, lower: u32, upper: u32) -> Pair {
    Pair { dim, lower, upper }
}

/// Each point but the first with the edge towards it. Of the edges the one from 1 to 4 is left.
fn tree() -> [Pair; 3] {
    [pair(0, 3, 1), pair(0, 2, 3), pair(0, 4, 4)]
}

/// The points 3 and 4 with the edges to them from 1 and from 2. The edges from 1 to 4 and from 2 to 3 are left.
fn steps() -> [Pair; 2] {
    [pair(0, 3, 1), pair(0, 4, 4)]
}

/// The reduction to the critical cells of the field of these pairs.
fn reduce<F: Field, G: Signed>(
    alloc: Global,
    graded: &G,
    pairs: &[Pair],
) -> Result<Reduced<F>, PairFault> {
    let field = PairList::from_pairs(alloc, graded, pairs)?;
    Ok(Reduced::new(alloc, graded, &field)?)
}

/// The circle, reduced to the critical cells of the field of these pairs.
fn circle<F: Field>(alloc: Global, pairs: &[Pair]) -> Result<Reduced<F>, Fail> {
    let space = read(alloc, CIRCLE)?;
    let chains = Chains::new(alloc, &space, 8)?;
    Ok(reduce(alloc, &chains, pairs)?)
}

#[test]
fn tells_the_critical_cells(rt: HostRuntime) -> Result<(), Fail> {
    let reduced = circle::<Gfp<3>>(rt.alloc(), &tree())?;
    let edges = reduced.critical(1);
    assert!(rt; reduced.critical(0) == [1u32].as_slice() && edges == [2u32].as_slice());
    Ok(())
}

/// The numbers of a chain or cochain of four cells.
fn numbers<F: Field>(rt: &impl Abort, values: &Cochain<F>) -> [u32; 4] {
    assert!(rt; values.len() == 4);
    [
        values.get(1).to_number(),
        values.get(2).to_number(),
        values.get(3).to_number(),
        values.get(4).to_number(),
    ]
}

/// The four numbers of the coboundaries of two extensions at two critical cells.
fn coboundaries<F: Field>(
    rt: &impl Abort,
    alloc: Global,
    reduced: &Reduced<F>,
) -> Result<[u32; 4], AllocError> {
    let matrix = reduced.coboundary_rows(alloc, 0)?;
    assert!(rt; matrix.rows() == 2);
    assert!(rt; matrix.cols() == 2);
    Ok([
        matrix.get(0, 0).to_number(),
        matrix.get(0, 1).to_number(),
        matrix.get(1, 0).to_number(),
        matrix.get(1, 1).to_number(),
    ])
}

// The extension from 1 is 1 at 1 and 3, so that it goes down from 1 to 4 and up from 2 to 3.
#[test]
fn reads_the_coboundaries_of_extensions(rt: HostRuntime) -> Result<(), Fail> {
    let reduced = circle::<Gfp<3>>(rt.alloc(), &steps())?;
    assert_eq!(rt; coboundaries(&rt, rt.alloc(), &reduced)?, [2, 1, 1, 2]);
    Ok(())
}

/// The values 1 and 2 at the two critical cells of a degree.
fn one_and_two<F: Field>(
    rt: &impl Abort,
    alloc: Global,
    reduced: &Reduced<F>,
    dim: u8,
) -> Result<Row<F>, AllocError>
    requires { dim ≤ 3 }
    ensures { IfOk result (λ row. length row ≡ criticals (kinds_at reduced.now dim)) }
{
    let mut row = Row::zero(alloc, reduced.criticals(dim))?;
    assert!(rt; row.len() == 2);
    row.set(0, F::one());
    row.set(1, F::one().add(F::one()));
    Ok(row)
}

/// The extension of the values 1 and 2 at two critical points.
fn extended<F: Field>(
    rt: &impl Abort,
    alloc: Global,
    reduced: &Reduced<F>,
) -> Result<[u32; 4], AllocError> {
    let row = one_and_two(rt, alloc, reduced, 0)?;
    let values = reduced.extend(alloc, 0, &row)?;
    Ok(numbers(rt, &values))
}

// The value at 1 is taken along the edge to 3, and the value at 2 along the edge to 4.
#[test]
fn extends_values_along_the_edges_of_pairs(rt: HostRuntime) -> Result<(), Fail> {
    let reduced = circle::<Gfp<3>>(rt.alloc(), &steps())?;
    assert_eq!(rt; extended(&rt, rt.alloc(), &reduced)?, [1, 2, 1, 2]);
    Ok(())
}

/// The flow of the values 1 and 2 at two critical cells of a degree.
fn flow_of<F: Field>(
    rt: &impl Abort,
    alloc: Global,
    reduced: &Reduced<F>,
    dim: u8,
) -> Result<[u32; 4], AllocError>
    requires { dim ≤ 3 }
{
    let row = one_and_two(rt, alloc, reduced, dim)?;
    let values = reduced.flow(alloc, dim, &row)?;
    Ok(numbers(rt, &values))
}

// The edge from 1 to 4 needs -1 times that from 2 to 4, and 2 times the edge from 2 to 3 needs -2 times that from 1.
#[test]
fn closes_edges_at_the_lowers(rt: HostRuntime) -> Result<(), Fail> {
    let reduced = circle::<Gfp<3>>(rt.alloc(), &steps())?;
    assert_eq!(rt; flow_of(&rt, rt.alloc(), &reduced, 1)?, [1, 1, 2, 2]);
    Ok(())
}

#[test]
fn keeps_points_as_they_are(rt: HostRuntime) -> Result<(), Fail> {
    let reduced = circle::<Gfp<3>>(rt.alloc(), &steps())?;
    assert_eq!(rt; flow_of(&rt, rt.alloc(), &reduced, 0)?, [1, 2, 0, 0]);
    Ok(())
}

/// The flow of the value 1 at one critical edge.
fn cycle_of<F: Field>(
    rt: &impl Abort,
    alloc: Global,
    reduced: &Reduced<F>,
) -> Result<[u32; 4], AllocError> {
    let mut row = Row::zero(alloc, reduced.criticals(1))?;
    assert!(rt; row.len() == 1);
    row.set(0, F::one());
    let values = reduced.flow(alloc, 1, &row)?;
    Ok(numbers(rt, &values))
}

/// Compares the cycle of the one critical edge, over a field whose -1 is this number: from 1 to 4, back to 2, on
/// to 3, and back to 1.
fn compare_cycle<F: Field>(rt: &(impl Abort + AllocGlobal), minus_one: u32) -> Result<(), Fail> {
    let reduced = circle::<F>(rt.alloc(), &tree())?;
    let found = cycle_of(rt, rt.alloc(), &reduced)?;
    assert_eq!(rt; found, [minus_one, 1, 1, minus_one]);
    Ok(())
}

#[test]
fn goes_round_the_circle_over_each_field(rt: HostRuntime) -> Result<(), Fail> {
    compare_cycle::<Gfp<2>>(&rt, 1)?;
    compare_cycle::<Gfp<3>>(&rt, 2)?;
    compare_cycle::<Gf4>(&rt, 1)?;
    compare_cycle::<Gfp<5>>(&rt, 4)?;
    compare_cycle::<Gfp<7>>(&rt, 6)?;
    compare_cycle::<Gf9>(&rt, 2)?;
    compare_cycle::<Gfp<11>>(&rt, 10)?;
    compare_cycle::<Gfp<13>>(&rt, 12)
}

/// What clears the cochain that is 1 on the first edge and 0 on the others, and what is left at the one critical
/// edge. The extension of 0 is 0.
fn cleared<F: Field>(
    rt: &impl Abort,
    alloc: Global,
    reduced: &Reduced<F>,
) -> Result<([u32; 4], u32), AllocError> {
    let none = Row::zero(alloc, reduced.criticals(1))?;
    let mut x = reduced.extend(alloc, 1, &none)?;
    assert!(rt; x.len() == 4);
    x.set(1, F::one());
    let cleared = reduced.clear(alloc, 1, &x)?;
    assert!(rt; cleared.w.len() == 1);
    Ok((numbers(rt, &cleared.y), cleared.w.get(0).to_number()))
}

// 1 at each point but the first has the coboundary 1 on the edges from 1 to 3 and to 4.
#[test]
fn clears_an_edge(rt: HostRuntime) -> Result<(), Fail> {
    let reduced = circle::<Gfp<3>>(rt.alloc(), &tree())?;
    let (y, w) = cleared(&rt, rt.alloc(), &reduced)?;
    assert!(rt; y == [0, 1, 1, 1] && w == 2);
    Ok(())
}

/// The place and the value on the left and on the right of the second of three units.
fn second_unit<F: Field>(
    rt: &impl Abort,
    alloc: Global,
    reduced: &Reduced<F>,
) -> Result<[u32; 4], AllocError> {
    assert!(rt; reduced.units(0) == 3);
    let unit = reduced.unit(alloc, 0, 1)?;
    assert!(rt; unit.left.len() == 1);
    assert!(rt; unit.right.len() == 1);
    let left = unit.left.get(0);
    let right = unit.right.get(0);
    Ok([
        left.position,
        left.value as u32,
        right.position,
        right.value as u32,
    ])
}

#[test]
fn gives_the_units_in_the_order_of_the_field(rt: HostRuntime) -> Result<(), Fail> {
    let reduced = circle::<Gfp<3>>(rt.alloc(), &tree())?;
    assert_eq!(rt; second_unit(&rt, rt.alloc(), &reduced)?, [2, 1, 3, 1]);
    Ok(())
}
