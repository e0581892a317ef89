// Bases of cocycles with dual cycles of worked examples, and the Betti numbers that come before them.
ghost use Rattle.std.specs.Prelude.{◌≡◌, ◌<◌};

use crate::worked::{CIRCLE, PLANE, read};
use cohomology::{Bases, Echelons, reductions_have_rows};
use critical_complex::Reduced;
use order_complex::Chains;
use small_field::{Field, Gfp};
use std::alloc::{AllocError, Global};
use std::marker::Brand;
use std::sync::ledger::{Blank, Ledger};
use std::test::Fail;
use step_count::Steps;
use vector_field::free_field;

/// The Betti numbers and the bases of all chains, over a field.
#[derive(Drop)]
struct Found {
    betti: [u32; 4],
    bases: Bases,
}

/// Both, by the critical chains of a maximal field.
fn classes_with<F: Field, L: Ledger>(
    alloc: Global,
    chains: &Chains<'_>,
    blank: Blank,
) -> Result<Found, AllocError>
    requires name { blank.name ≡ L.name }
    requires parts { blank.parts ≡ L.parts }
    requires some { 0 < L.parts }
{
    reductions_have_rows::<F>();
    let mut steps = Steps::<L>::new(blank);
    let field = free_field(alloc, chains)?;
    let reduced = Reduced::<F>::new(alloc, chains, &field)?;
    let echelons = Echelons::new(alloc, &reduced, &mut steps)?;
    let betti = [
        echelons.betti(0),
        echelons.betti(1),
        echelons.betti(2),
        echelons.betti(3),
    ];
    let bases = Bases::new(alloc, chains, &reduced, &echelons)?;
    Ok(Found { betti, bases })
}

/// Both modulo 2, of a space that is given as a text.
fn modulo_two(alloc: Global, text: &str) -> Result<Found, Fail> {
    let space = read(alloc, text)?;
    let chains = Chains::new(alloc, &space, 200)?;
    let found = classes_with::<Gfp<2>, Brand>(alloc, &chains, Blank::new(1))?;
    Ok(found)
}

/// The same modulo 3.
fn modulo_three(alloc: Global, text: &str) -> Result<Found, Fail> {
    let space = read(alloc, text)?;
    let chains = Chains::new(alloc, &space, 200)?;
    let found = classes_with::<Gfp<3>, Brand>(alloc, &chains, Blank::new(1))?;
    Ok(found)
}

#[test]
fn circle_has_a_class_round(rt: HostRuntime) -> Result<(), Fail> {
    let found = modulo_three(rt.alloc(), CIRCLE)?;
    assert!(rt; found.betti == [1, 1, 0, 0]);
    assert!(rt; found.bases.classes(0).len() == 1);
    assert!(rt; found.bases.classes(1).len() == 1);
    assert!(rt; found.bases.classes(2).len() == 0);
    Ok(())
}

#[test]
fn constant_is_the_class_of_points(rt: HostRuntime) -> Result<(), Fail> {
    let found = modulo_three(rt.alloc(), CIRCLE)?;
    let lines = found.bases.classes(0);
    assert!(rt; lines.len() == 1);
    assert!(rt; lines[0].left().len() == 4);
    assert!(rt; lines[0].right().len() == 1);
    Ok(())
}

#[test]
fn cycle_goes_round(rt: HostRuntime) -> Result<(), Fail> {
    let found = modulo_three(rt.alloc(), CIRCLE)?;
    let lines = found.bases.classes(1);
    assert!(rt; lines.len() == 1);
    assert!(rt; lines[0].right().len() == 4);
    Ok(())
}

#[test]
fn plane_has_classes_modulo_two(rt: HostRuntime) -> Result<(), Fail> {
    let found = modulo_two(rt.alloc(), PLANE)?;
    assert!(rt; found.betti == [1, 1, 1, 0]);
    assert!(rt; found.bases.classes(1).len() == 1);
    assert!(rt; found.bases.classes(2).len() == 1);
    Ok(())
}

#[test]
fn plane_has_one_class_modulo_three(rt: HostRuntime) -> Result<(), Fail> {
    let found = modulo_three(rt.alloc(), PLANE)?;
    assert!(rt; found.betti == [1, 0, 0, 0]);
    assert!(rt; found.bases.classes(1).len() == 0);
    assert!(rt; found.bases.classes(2).len() == 0);
    Ok(())
}

#[test]
fn circle_has_no_other_lines_than_these(rt: HostRuntime) -> Result<(), Fail> {
    let found = modulo_three(rt.alloc(), CIRCLE)?;
    assert!(rt; found.bases.ranks(0).len() == 3);
    assert!(rt; found.bases.ranks(1).len() == 0);
    assert!(rt; found.bases.ranks(2).len() == 0);
    Ok(())
}

#[test]
fn lines_are_given_up(rt: HostRuntime) -> Result<(), Fail> {
    let found = modulo_three(rt.alloc(), CIRCLE)?;
    let lines = found.bases.into_lines();
    assert!(rt; lines.ranks.zero.len() == 3);
    assert!(rt; lines.classes.zero.len() == 1);
    assert!(rt; lines.classes.one.len() == 1);
    Ok(())
}

#[test]
fn plane_has_rank_lines_modulo_two(rt: HostRuntime) -> Result<(), Fail> {
    let found = modulo_two(rt.alloc(), PLANE)?;
    assert!(rt; found.bases.ranks(0).len() == 12);
    assert!(rt; found.bases.ranks(1).len() == 23);
    Ok(())
}

#[test]
fn plane_has_a_rank_line_more_modulo_three(rt: HostRuntime) -> Result<(), Fail> {
    let found = modulo_three(rt.alloc(), PLANE)?;
    assert!(rt; found.bases.ranks(0).len() == 12);
    assert!(rt; found.bases.ranks(1).len() == 24);
    Ok(())
}
