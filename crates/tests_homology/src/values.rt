// Values on the chains of the circle: four points, and four edges, from 1 to 3 and 4 and from 2 to 3 and 4.
ghost use Rattle.std.specs.Prelude.{◌≡◌, ◌≤◌, IfOk, length};

use crate::worked::{CIRCLE, read};
use order_complex::Chains;
use small_field::{Cochain, Field, Gf4, Gf9, Gfp};
use std::alloc::{AllocError, Global};
use std::process::Abort;
use std::test::Fail;

/// The mark of a cell among four.
fn mark<F: Field>(alloc: Global, cell: u32) -> Result<Cochain<F>, AllocError>
    requires first { 1 ≤ cell }
    requires last { cell ≤ 4 }
    ensures { IfOk result (λ values. length values ≡ 4) }
{
    let mut values = Cochain::zero(alloc, 4)?;
    values.set(cell, F::one());
    Ok(values)
}

/// The coboundary of the mark of the first point on the first edge.
fn coboundary<F: Field>(
    rt: &impl Abort,
    alloc: Global,
    chains: &Chains<'_>,
) -> Result<u32, AllocError> {
    assert!(rt; chains.len(0) == 4 && chains.len(1) == 4);
    let point = mark::<F>(alloc, 1)?;
    Ok(chains.coboundary_at(0, &point, 1).to_number())
}

/// The boundary of the first edge at its two points.
fn boundary<F: Field>(
    rt: &impl Abort,
    alloc: Global,
    chains: &Chains<'_>,
) -> Result<(u32, u32), AllocError> {
    assert!(rt; chains.len(0) == 4 && chains.len(1) == 4);
    let edge = mark::<F>(alloc, 1)?;
    let first = chains.boundary_at(1, &edge, 1).to_number();
    Ok((first, chains.boundary_at(1, &edge, 3).to_number()))
}

/// The product of the marks of the first point and of the first edge, on that edge.
fn product<F: Field>(
    rt: &impl Abort,
    alloc: Global,
    chains: &Chains<'_>,
) -> Result<u32, AllocError> {
    assert!(rt; chains.len(0) == 4 && chains.len(1) == 4);
    let point = mark::<F>(alloc, 1)?;
    let edge = mark::<F>(alloc, 1)?;
    Ok(chains.cup_at(0, &point, 1, &edge, 1).to_number())
}

/// Each value on the circle: the coboundary, the boundary at two points, and the product.
fn values<F: Field>(
    rt: &impl Abort,
    alloc: Global,
    chains: &Chains<'_>,
) -> Result<[u32; 4], AllocError> {
    let (first, second) = boundary::<F>(rt, alloc, chains)?;
    Ok([
        coboundary::<F>(rt, alloc, chains)?,
        first,
        second,
        product::<F>(rt, alloc, chains)?,
    ])
}

/// Compares the values on the circle over a field whose -1 is this number.
fn compare<F: Field>(rt: &(impl Abort + AllocGlobal), minus_one: u32) -> Result<(), Fail> {
    let space = read(rt.alloc(), CIRCLE)?;
    let chains = Chains::new(rt.alloc(), &space, 8)?;
    let found = values::<F>(rt, rt.alloc(), &chains)?;
    assert_eq!(rt; found, [minus_one, minus_one, 1, 1]);
    Ok(())
}

#[test]
fn values_on_the_circle_are_computed(rt: HostRuntime) -> Result<(), Fail> {
    compare::<Gfp<2>>(&rt, 1)?;
    compare::<Gfp<3>>(&rt, 2)?;
    compare::<Gf4>(&rt, 1)?;
    compare::<Gfp<5>>(&rt, 4)?;
    compare::<Gfp<7>>(&rt, 6)?;
    compare::<Gf9>(&rt, 2)?;
    compare::<Gfp<11>>(&rt, 10)?;
    compare::<Gfp<13>>(&rt, 12)
}
