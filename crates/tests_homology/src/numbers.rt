// The Betti numbers of worked examples, by critical chains and by plain elimination, and the limit of chains.
ghost use Rattle.std.specs.Prelude.{◌≡◌, ◌<◌, IsTrue};
ghost use Rattle.small_field.specs.Modulus.{is_modulus};

use crate::worked::{CIRCLE, PLANE, SPHERE, TORUS, read};
use face_poset::Space;
use order_complex::{Betti, ChainFault};
use std::alloc::Global;
use std::marker::Brand;
use std::process::Abort;
use std::sync::ledger::{Blank, Ledger};
use std::test::Fail;
use step_count::Steps;

fn reduced_with<L: Ledger>(
    alloc: Global,
    space: &Space,
    modulus: u8,
    limit: u32,
    blank: Blank,
) -> Result<Betti, ChainFault>
    requires modulus { IsTrue (is_modulus modulus) }
    requires name { blank.name ≡ L.name }
    requires parts { blank.parts ≡ L.parts }
    requires some { 0 < L.parts }
{
    let mut steps = Steps::<L>::new(blank);
    reduced_betti::betti_of(alloc, space, modulus, limit, &mut steps)
}

fn plain_with<L: Ledger>(
    alloc: Global,
    space: &Space,
    modulus: u8,
    limit: u32,
    blank: Blank,
) -> Result<Betti, ChainFault>
    requires modulus { IsTrue (is_modulus modulus) }
    requires name { blank.name ≡ L.name }
    requires parts { blank.parts ≡ L.parts }
    requires some { 0 < L.parts }
{
    let mut steps = Steps::<L>::new(blank);
    plain_betti::betti_of(alloc, space, modulus, limit, &mut steps)
}

/// The four numbers by critical chains.
fn reduced(alloc: Global, space: &Space, modulus: u8, limit: u32) -> Result<[u32; 4], ChainFault>
    requires { IsTrue (is_modulus modulus) }
{
    let numbers = reduced_with::<Brand>(alloc, space, modulus, limit, Blank::new(1))?;
    Ok(listed(numbers))
}

/// The four numbers by plain elimination.
fn plain(alloc: Global, space: &Space, modulus: u8, limit: u32) -> Result<[u32; 4], ChainFault>
    requires { IsTrue (is_modulus modulus) }
{
    let numbers = plain_with::<Brand>(alloc, space, modulus, limit, Blank::new(1))?;
    Ok(listed(numbers))
}

/// The numbers by degree.
fn listed(numbers: Betti) -> [u32; 4] {
    [numbers.zero, numbers.one, numbers.two, numbers.three]
}

/// Compares the numbers over the field with so many elements, by both ways, with these.
fn compare(
    rt: &(impl Abort + AllocGlobal),
    space: &Space,
    modulus: u8,
    wanted: [u32; 4],
) -> Result<(), Fail>
    requires { IsTrue (is_modulus modulus) }
{
    let found = reduced(rt.alloc(), space, modulus, 2000)?;
    let slowly = plain(rt.alloc(), space, modulus, 2000)?;
    assert_eq!(rt; [found, slowly], [wanted, wanted], "{modulus}");
    Ok(())
}

#[test]
fn spaces_have_their_betti_numbers(rt: HostRuntime) -> Result<(), Fail> {
    for (text, even, odd) in [
        ("[[[1,0]]]", [1u32, 0, 0, 0], [1u32, 0, 0, 0]),
        (CIRCLE, [1, 1, 0, 0], [1, 1, 0, 0]),
        (PLANE, [1, 1, 1, 0], [1, 0, 0, 0]),
        (TORUS, [1, 2, 1, 0], [1, 2, 1, 0]),
        (SPHERE, [1, 0, 0, 1], [1, 0, 0, 1]),
    ] {
        let space = read(rt.alloc(), text)?;
        compare(&rt, &space, 2, even)?;
        compare(&rt, &space, 3, odd)?;
        compare(&rt, &space, 4, even)?;
        compare(&rt, &space, 5, odd)?;
        compare(&rt, &space, 7, odd)?;
        compare(&rt, &space, 9, odd)?;
        compare(&rt, &space, 11, odd)?;
        compare(&rt, &space, 13, odd)?;
    }
    Ok(())
}

#[test]
fn more_chains_than_the_limit_are_refused(rt: HostRuntime) -> Result<(), Fail> {
    let sphere = read(rt.alloc(), SPHERE)?;
    let found = reduced(rt.alloc(), &sphere, 5, 79);
    assert_eq!(rt; found, Err(ChainFault::TooManyChains(80)));
    Ok(())
}

#[test]
fn plain_elimination_has_the_same_limit(rt: HostRuntime) -> Result<(), Fail> {
    let sphere = read(rt.alloc(), SPHERE)?;
    let found = plain(rt.alloc(), &sphere, 5, 79);
    assert_eq!(rt; found, Err(ChainFault::TooManyChains(80)));
    Ok(())
}
