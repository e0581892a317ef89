// Arithmetic of each field, by tables, and sparse rows.
ghost use Rattle.std.specs.Prelude.{◌<◌, length};

use linear_laws::{
    bases_are_as_long, basis_by_ranks, combination_laws, history_gives_kernel,
    independent_vectors_span, kernels_complete, more_are_dependent, rank_is_dimension,
    rows_have_a_basis, triangles_are_independent, triangles_certify, zero_rows_change_no_rank,
};
use small_field::{Cochain, Entry, Field, Gf4, Gf9, Gfp, Sparse, further_laws};
use std::alloc::{AllocError, Global};
use std::process::Abort;
use std::test::Fail;

/// Compares the sum and the product of two numbers with those modulo the size.
fn compare_pair<F: Field>(rt: &impl Abort, x: u32, y: u32)
    requires left { x < F.SIZE }
    requires right { y < F.SIZE }
{
    let left = F::from_number(x);
    let right = F::from_number(y);
    let size = F::SIZE.max(1);
    assert_eq!(rt; left.add(right).to_number(), x.wrapping_add(y) % size);
    assert_eq!(rt; left.mul(right).to_number(), x.wrapping_mul(y) % size);
    assert_eq!(rt; left == right, x == y);
}

/// Compares the sums and products of all pairs with those of numbers.
fn compare_pairs<F: Field>(rt: &impl Abort) {
    for x in 0..F::SIZE {
        for y in 0..F::SIZE {
            compare_pair::<F>(rt, x, y);
        }
    }
}

/// Compares the sums and the products of all pairs with the digits of two tables, row after row.
fn compare_tables<F: Field>(rt: &impl Abort, sums: &[u8], products: &[u8]) {
    for x in 0..F::SIZE {
        for y in 0..F::SIZE {
            let left = F::from_number(x);
            let right = F::from_number(y);
            let place = x.wrapping_mul(F::SIZE).wrapping_add(y) as usize;
            let sum = b'0' + left.add(right).to_number() as u8;
            let product = b'0' + left.mul(right).to_number() as u8;
            assert_eq!(rt; sums.get(place).copied(), Some(sum));
            assert_eq!(rt; products.get(place).copied(), Some(product));
        }
    }
}

/// The negative and the inverse of a number.
fn turned<F: Field>(number: u32) -> (u32, u32)
    requires some { 0 < number }
    requires below { number < F.SIZE }
{
    let x = F::from_number(number);
    (x.neg().to_number(), x.inv().to_number())
}

/// Compares the negatives and the inverses of 1, 2 and so on with these.
fn compare_turned<F: Field>(rt: &impl Abort, wanted: &[(u32, u32)])
    requires { length wanted.now < F.SIZE }
{
    assert!(rt; F::zero().neg() == F::zero());
    assert!(rt; F::one().inv() == F::one());
    for (i, pair) in wanted.iter().enumerate() {
        assert_eq!(rt; turned::<F>(i as u32 + 1), *pair);
    }
}

#[test]
fn arithmetic_is_that_of_numbers_modulo_primes(rt: HostRuntime) {
    compare_pairs::<Gfp<2>>(&rt);
    compare_pairs::<Gfp<3>>(&rt);
    compare_pairs::<Gfp<5>>(&rt);
    compare_pairs::<Gfp<7>>(&rt);
    compare_pairs::<Gfp<11>>(&rt);
    compare_pairs::<Gfp<13>>(&rt);
}

// The number a + 2 b stands for a + b x, modulo 2, where x x is 1 + x.
#[test]
fn arithmetic_of_four_elements_is_that_of_the_tables(rt: HostRuntime) {
    let sums = b"\
        0123\
        1032\
        2301\
        3210";
    let products = b"\
        0000\
        0123\
        0231\
        0312";
    compare_tables::<Gf4>(&rt, sums, products);
}

// The number a + 3 b stands for a + b x, modulo 3, where x x is 2.
#[test]
fn arithmetic_of_nine_elements_is_that_of_the_tables(rt: HostRuntime) {
    let sums = b"\
        012345678\
        120453786\
        201534867\
        345678012\
        453786120\
        534867201\
        678012345\
        786120453\
        867201534";
    let products = b"\
        000000000\
        012345678\
        021687354\
        036258147\
        048561723\
        057813462\
        063174285\
        075426831\
        084732516";
    compare_tables::<Gf9>(&rt, sums, products);
}

#[test]
fn negatives_and_inverses_are_those_of_the_tables(rt: HostRuntime) {
    compare_turned::<Gfp<2>>(&rt, &[(1, 1)]);
    compare_turned::<Gfp<3>>(&rt, &[(2, 1), (1, 2)]);
    compare_turned::<Gfp<5>>(&rt, &[(4, 1), (3, 3), (2, 2), (1, 4)]);
    compare_turned::<Gfp<7>>(&rt, &[(6, 1), (5, 4), (4, 5), (3, 2), (2, 3), (1, 6)]);
    compare_turned::<Gfp<11>>(&rt, &[(10, 1), (9, 6), (8, 4), (7, 3), (6, 9), (5, 2)]);
    compare_turned::<Gfp<13>>(&rt, &[(12, 1), (11, 7), (10, 9), (9, 10), (8, 8), (7, 11)]);
    compare_turned::<Gf4>(&rt, &[(1, 1), (2, 3), (3, 2)]);
    compare_turned::<Gf9>(
        &rt,
        &[
            (2, 1),
            (1, 2),
            (6, 6),
            (8, 5),
            (7, 4),
            (3, 3),
            (5, 8),
            (4, 7),
        ],
    );
}

#[test]
fn a_multiple_of_a_row_is_added(rt: HostRuntime) {
    let mut target = [1, 0, 6, 4];
    let five = <Gfp<7> as Field>::from_number(5);
    <Gfp<7> as Field>::add_scaled_row(&mut target, &[1, 2, 3, 0], five);
    assert_eq!(rt; target, [6, 3, 0, 4]);
}

/// The row with 1 at place 2 alone, and its entry.
fn one_entry(alloc: Global) -> Result<(Sparse, Entry), AllocError> {
    let mut row = Sparse::with_room(alloc, 1)?;
    row.push(Entry {
        position: 2,
        value: 1,
    })?;
    let entry = row.get(0);
    Ok((row, entry))
}

#[test]
fn an_entry_is_kept(rt: HostRuntime) -> Result<(), Fail> {
    let (row, entry) = one_entry(rt.alloc())?;
    assert!(rt; row.len() == 1 && entry.position == 2 && entry.value == 1);
    Ok(())
}

/// The entries of three values, of which the second is one and the others are zero.
fn second_of_three<F: Field>(alloc: Global) -> Result<Sparse, AllocError> {
    let mut values = Cochain::<F>::zero(alloc, 3)?;
    values.set(2, F::one());
    values.sparse(alloc)
}

#[test]
fn a_value_gives_an_entry(rt: HostRuntime) -> Result<(), Fail> {
    let entries = second_of_three::<Gfp<3>>(rt.alloc())?;
    assert!(rt; entries.len() == 1 && entries.get(0).position == 2);
    Ok(())
}

/// Each law, asked of a field that is known by its bound alone.
fn ask<F: Field>() {
    further_laws::<F>();
    combination_laws::<F>();
    more_are_dependent::<F>();
    rows_have_a_basis::<F>();
    bases_are_as_long::<F>();
    rank_is_dimension::<F>();
    basis_by_ranks::<F>();
    triangles_are_independent::<F>();
    zero_rows_change_no_rank::<F>();
    history_gives_kernel::<F>();
    kernels_complete::<F>();
    independent_vectors_span::<F>();
    triangles_certify::<F>();
}

#[test]
fn the_laws_hold_over_each_field() {
    ask::<Gfp<2>>();
    ask::<Gfp<3>>();
    ask::<Gfp<5>>();
    ask::<Gfp<7>>();
    ask::<Gfp<11>>();
    ask::<Gfp<13>>();
    ask::<Gf4>();
    ask::<Gf9>();
}
