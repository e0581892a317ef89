// Rows of elements of each field, of each length up to 240, beside sums of single entries.
ghost use Rattle.std.specs.Prelude.{◌≡◌, ◌<◌, ◌≤◌, All, IfOk, length};

use lane_rows::{add_scaled, compose8, dot, first_nonzero, first_nonzero_from, replace, scale};
use small_field::{Field, Gf4, Gf9, Gfp};
use std::alloc::{AllocError, Global};
use std::process::Abort;
use std::test::Fail;

/// The numbers `(step * i + start) mod p`.
fn row(alloc: Global, len: usize, step: usize, start: usize, p: u8) -> Result<Vec<u8>, AllocError>
    requires len { len ≤ 240 }
    requires step { step ≤ 7 }
    requires start { start ≤ 3 }
    requires modulus { 0 < p }
    ensures len { IfOk result (λ v. length v.items ≡ len) }
    ensures below { IfOk result (λ v. All (λ x. x < p) v.items) }
{
    let mut numbers = Vec::new(alloc);
    for i in 0..len {
        numbers.push(((step * i + start) % p as usize) as u8)?;
    }
    Ok(numbers)
}

/// The first row less the second: `add_scaled` by the factor -1.
fn compare_sums(rt: &(impl Abort + AllocGlobal), len: usize, p: u8) -> Result<(), Fail>
    requires len { len ≤ 240 }
    requires modulus { 1 < p }
    requires small { p ≤ 13 }
{
    let mut sum = row(rt.alloc(), len, 7, 3, p)?;
    add_scaled(&mut sum, &row(rt.alloc(), len, 5, 1, p)?, p - 1, p);
    for (i, found) in sum.iter().enumerate() {
        let wanted = (2 * i + 2) % p as usize;
        assert_eq!(rt; *found as usize, wanted, "{p} at {i}");
    }
    Ok(())
}

/// The negatives of a row: `scale` by the factor -1.
fn compare_multiples(rt: &(impl Abort + AllocGlobal), len: usize, p: u8) -> Result<(), Fail>
    requires len { len ≤ 240 }
    requires modulus { 1 < p }
    requires small { p ≤ 13 }
{
    let mut multiple = row(rt.alloc(), len, 7, 3, p)?;
    scale(&mut multiple, p - 1, p);
    for (i, found) in multiple.iter().enumerate() {
        assert_eq!(rt; (*found as usize + 7 * i + 3) % p as usize, 0, "{p} at {i}");
    }
    Ok(())
}

/// The dot product of two rows.
fn compare_products(rt: &(impl Abort + AllocGlobal), len: usize, p: u8) -> Result<(), Fail>
    requires len { len ≤ 240 }
    requires modulus { 1 < p }
    requires small { p ≤ 13 }
{
    let left = row(rt.alloc(), len, 7, 3, p)?;
    let right = row(rt.alloc(), len, 5, 1, p)?;
    let mut products: usize = 0;
    for i in 0..len {
        products = products.wrapping_add((7 * i + 3) * (5 * i + 1)) % p as usize;
    }
    assert_eq!(rt; dot(&left, &right, p) as usize, products, "{p}");
    Ok(())
}

#[test]
fn loops_agree_with_single_entries(rt: HostRuntime) -> Result<(), Fail> {
    for p in [2u8, 3, 5, 7, 11, 13, 12] {
        for len in 0..241 {
            compare_sums(&rt, len, p)?;
            compare_multiples(&rt, len, p)?;
            compare_products(&rt, len, p)?;
        }
    }
    Ok(())
}

/// The sum of a row and a multiple of a row of elements of a field.
fn compare_rows<F: Field>(rt: &(impl Abort + AllocGlobal), len: usize) -> Result<(), Fail>
    requires len { len ≤ 240 }
    requires size { 1 < F.SIZE }
{
    let size = F::SIZE as u8;
    let factor = F::from_number(F::SIZE - 1);
    let mut sum = row(rt.alloc(), len, 7, 3, size)?;
    F::add_scaled_row(&mut sum, &row(rt.alloc(), len, 5, 1, size)?, factor);
    for (i, found) in sum.iter().enumerate() {
        let left = F::from_number((7 * i as u32 + 3) % F::SIZE);
        let right = F::from_number((5 * i as u32 + 1) % F::SIZE);
        let wanted = left.add(factor.mul(right)).to_number();
        assert_eq!(rt; *found as u32, wanted, "{size} at {i}");
    }
    Ok(())
}

/// The multiple of a row of elements of a field.
fn compare_scaled<F: Field>(rt: &(impl Abort + AllocGlobal), len: usize) -> Result<(), Fail>
    requires len { len ≤ 240 }
    requires size { 1 < F.SIZE }
{
    let size = F::SIZE as u8;
    let factor = F::from_number(F::SIZE - 1);
    let mut multiple = row(rt.alloc(), len, 7, 3, size)?;
    F::scale_row(&mut multiple, factor);
    for (i, found) in multiple.iter().enumerate() {
        let wanted = factor.mul(F::from_number((7 * i as u32 + 3) % F::SIZE));
        assert_eq!(rt; *found as u32, wanted.to_number(), "{size} at {i}");
    }
    Ok(())
}

#[test]
fn rows_of_elements_agree_with_single_elements(rt: HostRuntime) -> Result<(), Fail> {
    for len in 0..241 {
        compare_rows::<Gfp<2>>(&rt, len)?;
        compare_rows::<Gfp<3>>(&rt, len)?;
        compare_rows::<Gf4>(&rt, len)?;
        compare_rows::<Gfp<5>>(&rt, len)?;
        compare_rows::<Gfp<7>>(&rt, len)?;
        compare_rows::<Gf9>(&rt, len)?;
        compare_rows::<Gfp<11>>(&rt, len)?;
        compare_rows::<Gfp<13>>(&rt, len)?;
        compare_scaled::<Gfp<2>>(&rt, len)?;
        compare_scaled::<Gfp<3>>(&rt, len)?;
        compare_scaled::<Gf4>(&rt, len)?;
        compare_scaled::<Gfp<5>>(&rt, len)?;
        compare_scaled::<Gfp<7>>(&rt, len)?;
        compare_scaled::<Gf9>(&rt, len)?;
        compare_scaled::<Gfp<11>>(&rt, len)?;
        compare_scaled::<Gfp<13>>(&rt, len)?;
    }
    Ok(())
}

/// The first number that is not 0 after so many zeros.
fn compare_first(rt: &(impl Abort + AllocGlobal), zeros: usize) -> Result<(), Fail>
    requires { zeros ≤ 200 }
{
    let mut numbers = vec![in rt.alloc(); 0u8; zeros]?;
    assert_eq!(rt; first_nonzero(&numbers), None);
    numbers.extend_from_slice(&[5, 0, 7])?;
    assert_eq!(rt; first_nonzero(&numbers), Some(zeros as u32));
    Ok(())
}

#[test]
fn a_number_is_found_after_each_number_of_zeros(rt: HostRuntime) -> Result<(), Fail> {
    for zeros in 0..201 {
        compare_first(&rt, zeros)?;
    }
    Ok(())
}

#[test]
fn the_first_number_is_found(rt: HostRuntime) {
    for (row, wanted) in [
        ([0u8, 0, 5, 0], Some(2u32)),
        ([4, 1, 0, 0], Some(0)),
        ([0, 0, 0, 0], None),
    ] {
        assert_eq!(rt; first_nonzero(&row), wanted);
    }
}

#[test]
fn the_first_number_from_a_place_is_found(rt: HostRuntime) {
    let row = [3u8, 0, 0, 6, 0];
    assert_eq!(rt; first_nonzero_from(&row, 1, 5), 3);
    assert_eq!(rt; first_nonzero_from(&row, 1, 3), 3);
    assert_eq!(rt; first_nonzero_from(&row, 4, 5), 5);
}

#[test]
fn numbers_are_replaced_by_a_table(rt: HostRuntime) {
    let mut numbers = [2u8, 0, 1, 2];
    replace(
        &mut numbers,
        &[7, 8, 9, 0, 0, 0, 0, 0, 0, 0, 0, 0, 0, 0, 0, 0],
    );
    assert_eq!(rt; numbers, [9, 7, 8, 9]);
}

#[test]
fn the_first_permutation_comes_first(rt: HostRuntime) {
    let first = [1, 2, 0, 3, 4, 5, 6, 7];
    let second = [1, 0, 2, 3, 4, 5, 7, 6];
    assert_eq!(rt; compose8(&first, &second), [0, 2, 1, 3, 4, 5, 7, 6]);
}
