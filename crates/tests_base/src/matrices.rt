// Elimination by worked examples, and over each field.
ghost use Rattle.std.specs.Prelude.{◌≡◌, ◌<◌, IfOk, length};
ghost use Rattle.linear_laws.specs.Echelon.{IsReduced};

use field_matrix::{Elimination, Matrix, Row};
use small_field::{Field, Gf4, Gf9, Gfp};
use std::alloc::{AllocError, Global};
use std::marker::Brand;
use std::process::Abort;
use std::sync::ledger::{Blank, Ledger};
use std::test::Fail;
use step_count::Steps;

/// The element with a number modulo the size.
fn element<F: Field>(number: u32) -> F {
    if number < F::SIZE {
        return F::from_number(number);
    }
    F::zero()
}

/// The matrix of three columns with these rows.
fn filled<F: Field>(alloc: Global, numbers: &[[u32; 3]]) -> Result<Matrix<F>, AllocError>
    ensures cols { IfOk result (λ m. m.cols ≡ 3) }
    ensures rows { IfOk result (λ m. length m.rows ≡ length numbers.now) }
{
    if numbers.len() > u32::MAX as usize {
        return Err(AllocError);
    }
    let mut matrix = Matrix::new(alloc, numbers.len() as u32, 3)?;
    for (i, row) in numbers.iter().enumerate() {
        for j in 0..3u32 {
            matrix.set(i as u32, j, element(row[j as usize]));
        }
    }
    Ok(matrix)
}

/// The row with these three numbers.
fn filled_row<F: Field>(alloc: Global, numbers: [u32; 3]) -> Result<Row<F>, AllocError>
    ensures { IfOk result (λ row. length row ≡ 3) }
{
    let mut row = Row::zero(alloc, 3)?;
    for j in 0..3u32 {
        row.set(j, element(numbers[j as usize]));
    }
    Ok(row)
}

/// The numbers of a matrix, row after row.
fn numbers_of<F: Field>(alloc: Global, matrix: &Matrix<F>) -> Result<Vec<u32>, AllocError> {
    let mut numbers = Vec::new(alloc);
    for i in 0..matrix.rows() {
        for j in 0..matrix.cols() {
            numbers.push(matrix.get(i, j).to_number())?;
        }
    }
    Ok(numbers)
}

fn reduce_with<F: Field, L: Ledger>(matrix: &mut Matrix<F>, blank: Blank)
    requires name { blank.name ≡ L.name }
    requires parts { blank.parts ≡ L.parts }
    requires some { 0 < L.parts }
    ensures { IsReduced matrix.new.cols matrix.new.rows }
{
    let mut steps = Steps::<L>::new(blank);
    matrix.reduce(&mut steps);
}

fn reduce<F: Field>(matrix: &mut Matrix<F>)
    ensures { IsReduced matrix.new.cols matrix.new.rows }
{
    reduce_with::<F, Brand>(matrix, Blank::new(1))
}

/// The reduced form of a matrix with these rows, its rank and its pivots.
fn reduced<F: Field>(
    alloc: Global,
    numbers: &[[u32; 3]],
) -> Result<(Vec<u32>, Vec<u32>), AllocError> {
    let mut matrix = filled::<F>(alloc, numbers)?;
    reduce(&mut matrix);
    let mut pivots = Vec::new(alloc);
    for row in 0..matrix.rank() {
        pivots.push(matrix.pivot(row))?;
    }
    Ok((numbers_of(alloc, &matrix)?, pivots))
}

#[test]
fn a_matrix_is_reduced_modulo_seven(rt: HostRuntime) -> Result<(), Fail> {
    let rows = [[0, 0, 3], [2, 4, 1], [1, 2, 5]];
    let (numbers, pivots) = reduced::<Gfp<7>>(rt.alloc(), &rows)?;
    assert_eq!(rt;
        numbers.as_slice(),
        [1u32, 2, 0, 0, 0, 1, 0, 0, 0].as_slice()
    );
    assert_eq!(rt; pivots.as_slice(), [0u32, 2].as_slice());
    Ok(())
}

/// A basis of the relations of these rows.
fn relations<F: Field>(alloc: Global, numbers: &[[u32; 3]]) -> Result<Vec<u32>, AllocError> {
    let matrix = filled::<F>(alloc, numbers)?;
    numbers_of(alloc, &matrix.kernel(alloc)?)
}

#[test]
fn relations_are_found_modulo_two(rt: HostRuntime) -> Result<(), Fail> {
    let found = relations::<Gfp<2>>(rt.alloc(), &[[1, 1, 0], [0, 1, 1], [1, 0, 1]])?;
    assert_eq!(rt; found.as_slice(), [1u32, 1, 1].as_slice());
    Ok(())
}

/// The coefficients of these rows whose combination is the row, if there are any.
fn solution<F: Field>(
    alloc: Global,
    numbers: &[[u32; 3]],
    wanted: [u32; 3],
) -> Result<Option<Vec<u32>>, AllocError> {
    let matrix = filled::<F>(alloc, numbers)?;
    match matrix.solve(alloc, &filled_row(alloc, wanted)?)? {
        Some(answer) => Ok(Some(row_numbers(alloc, &answer)?)),
        None => Ok(None),
    }
}

/// The numbers of a row.
fn row_numbers<F: Field>(alloc: Global, row: &Row<F>) -> Result<Vec<u32>, AllocError> {
    let mut numbers = Vec::new(alloc);
    for j in 0..row.len() {
        numbers.push(row.get(j).to_number())?;
    }
    Ok(numbers)
}

// Twice the first row and twice the second: (2, 4 + 2, 2), which is (2, 0, 2).
#[test]
fn equations_are_solved_modulo_three(rt: HostRuntime) -> Result<(), Fail> {
    let rows = [[1, 2, 0], [0, 1, 1]];
    for (row, wanted) in [
        ([0u32, 0, 0], Some([0u32, 0])),
        ([2, 2, 1], Some([2, 1])),
        ([2, 2, 0], None),
    ] {
        let found = solution::<Gfp<3>>(rt.alloc(), &rows, row)?;
        match (found, wanted) {
            (Some(found), Some(wanted)) => assert_eq!(rt; found.as_slice(), wanted.as_slice()),
            (found, wanted) => assert_eq!(rt; found.is_some(), wanted.is_some()),
        }
    }
    Ok(())
}

/// The places of rows that complete a basis of other rows.
fn completion<F: Field>(
    alloc: Global,
    numbers: &[[u32; 3]],
    sub: &[[u32; 3]],
) -> Result<Vec<u32>, AllocError> {
    let matrix = filled::<F>(alloc, numbers)?;
    let found = matrix.complement(alloc, &filled(alloc, sub)?)?;
    let mut places = Vec::new(alloc);
    for index in 0..found.len() {
        places.push(found.get(index))?;
    }
    Ok(places)
}

#[test]
fn a_basis_is_completed_modulo_five(rt: HostRuntime) -> Result<(), Fail> {
    let rows = [[2, 4, 0], [0, 0, 3], [1, 2, 3], [0, 1, 0]];
    let places = completion::<Gfp<5>>(rt.alloc(), &rows, &[[1, 2, 0]])?;
    assert_eq!(rt; places.as_slice(), [1u32, 3].as_slice());
    Ok(())
}

fn eliminate_with<F: Field, L: Ledger>(
    alloc: Global,
    matrix: &Matrix<F>,
    blank: Blank,
) -> Result<Elimination<F>, AllocError>
    requires name { blank.name ≡ L.name }
    requires parts { blank.parts ≡ L.parts }
    requires some { 0 < L.parts }
{
    let mut steps = Steps::<L>::new(blank);
    matrix.eliminate(alloc, &mut steps)
}

/// The reduced form of the matrix with these rows, and how its rows came about.
fn eliminated<F: Field>(
    alloc: Global,
    numbers: &[[u32; 3]],
) -> Result<(Vec<u32>, Vec<u32>), AllocError> {
    let matrix = filled::<F>(alloc, numbers)?;
    let elimination = eliminate_with::<F, Brand>(alloc, &matrix, Blank::new(1))?;
    let reduced = numbers_of(alloc, &elimination.reduced)?;
    Ok((reduced, numbers_of(alloc, &elimination.history)?))
}

#[test]
fn rows_are_told_how_they_came_about(rt: HostRuntime) -> Result<(), Fail> {
    let (reduced, history) = eliminated::<Gfp<5>>(rt.alloc(), &[[2, 0, 0], [4, 1, 0]])?;
    assert_eq!(rt; reduced.as_slice(), [1u32, 0, 0, 0, 1, 0].as_slice());
    assert_eq!(rt; history.as_slice(), [3u32, 0, 3, 1].as_slice());
    Ok(())
}

/// The numbers of a copy of the matrix with these rows.
fn copied<F: Field>(alloc: Global, numbers: &[[u32; 3]]) -> Result<Vec<u32>, AllocError> {
    let matrix = filled::<F>(alloc, numbers)?;
    numbers_of(alloc, &matrix.copy(alloc)?)
}

#[test]
fn a_matrix_is_copied(rt: HostRuntime) -> Result<(), Fail> {
    let numbers = copied::<Gfp<5>>(rt.alloc(), &[[1, 2, 3], [4, 0, 1]])?;
    assert_eq!(rt; numbers.as_slice(), [1u32, 2, 3, 4, 0, 1].as_slice());
    Ok(())
}

/// The numbers of four rows: two rows and one that is pushed, at the places 3, 0 and 1, and a row of zeros.
fn spread<F: Field>(alloc: Global) -> Result<Vec<u32>, AllocError> {
    let mut matrix = filled::<F>(alloc, &[[1, 2, 3], [4, 0, 1]])?;
    matrix.push_row(&filled_row(alloc, [0, 1, 0])?)?;
    numbers_of(alloc, &matrix.among_zeros(alloc, &[3, 0, 1], 4)?)
}

#[test]
fn rows_stand_among_zeros(rt: HostRuntime) -> Result<(), Fail> {
    let numbers = spread::<Gfp<5>>(rt.alloc())?;
    assert_eq!(rt;
        numbers.as_slice(),
        [4u32, 0, 1, 0, 1, 0, 0, 0, 0, 1, 2, 3].as_slice()
    );
    Ok(())
}

/// Each call on the rows (1, 0, 0) and (0, 1, 0).
fn compare_identity<F: Field>(rt: &(impl Abort + AllocGlobal)) -> Result<(), Fail> {
    let alloc = rt.alloc();
    let rows = [[1, 0, 0], [0, 1, 0]];
    let one = F::one().to_number();
    assert_eq!(rt;
        copied::<F>(alloc, &rows)?.as_slice(),
        [1u32, 0, 0, 0, 1, 0].as_slice()
    );
    assert_eq!(rt; relations::<F>(alloc, &rows)?.len(), 0);
    assert_eq!(rt;
        completion::<F>(alloc, &rows, &[])?.as_slice(),
        [0u32, 1].as_slice()
    );
    assert!(rt; solution::<F>(alloc, &rows, [one, 0, 0])?.is_some());
    assert_eq!(rt;
        reduced::<F>(alloc, &rows)?.1.as_slice(),
        [0u32, 1].as_slice()
    );
    assert_eq!(rt;
        eliminated::<F>(alloc, &rows)?.1.as_slice(),
        [1u32, 0, 0, 1].as_slice()
    );
    assert_eq!(rt; spread::<F>(alloc)?.len(), 12);
    Ok(())
}

#[test]
fn each_field_is_treated_alike(rt: HostRuntime) -> Result<(), Fail> {
    compare_identity::<Gfp<2>>(&rt)?;
    compare_identity::<Gfp<3>>(&rt)?;
    compare_identity::<Gfp<5>>(&rt)?;
    compare_identity::<Gfp<7>>(&rt)?;
    compare_identity::<Gfp<11>>(&rt)?;
    compare_identity::<Gfp<13>>(&rt)?;
    compare_identity::<Gf4>(&rt)?;
    compare_identity::<Gf9>(&rt)
}
