// Lists of numbers with their cofaces, found numbers, and sorting.
ghost use Rattle.std.specs.Prelude.{◌≡◌, ◌∷◌, [], IfOk};

use number_lists::{FoundNumbers, Lists, cofaces_in, sort_once};
use std::alloc::{AllocError, Global};
use std::test::Fail;

/// The ends of the two edges of a triangle at its second vertex.
fn two_edges(alloc: Global) -> Result<Lists, AllocError>
    ensures { IfOk result (λ lists. lists ≡ (1 ∷ 2 ∷ []) ∷ (2 ∷ 3 ∷ []) ∷ []) }
{
    let mut lists = Lists::new(alloc);
    lists.push(&[1, 2])?;
    lists.push(&[2, 3])?;
    Ok(lists)
}

/// For the numbers 1 to 3 the lists that hold each, and how many each has.
fn holders(alloc: Global) -> Result<(Vec<u32>, usize), AllocError> {
    let cofaces = cofaces_in(alloc, 3, &two_edges(alloc)?)?;
    Ok((
        Vec::from_slice(alloc, cofaces.entries())?,
        cofaces.get(1).len(),
    ))
}

#[test]
fn numbers_have_the_lists_that_hold_them(rt: HostRuntime) -> Result<(), Fail> {
    let (entries, second) = holders(rt.alloc())?;
    assert!(rt; entries.as_slice() == [1u32, 1, 2, 2].as_slice() && second == 2);
    Ok(())
}

/// Of the numbers 1 to 9 the numbers 7, 2 and 5, in this order.
fn three_found(alloc: Global) -> Result<FoundNumbers, AllocError> {
    let mut found = FoundNumbers::new(alloc, 9)?;
    found.insert(7)?;
    found.insert_all(&[2, 7, 5])?;
    Ok(found)
}

/// The numbers that were found.
fn numbers_of(alloc: Global, found: &FoundNumbers) -> Result<Vec<u32>, AllocError> {
    let mut numbers = Vec::new(alloc);
    for index in 0..found.len() {
        numbers.push(found.get(index))?;
    }
    Ok(numbers)
}

#[test]
fn numbers_are_found_once_each(rt: HostRuntime) -> Result<(), Fail> {
    let numbers = numbers_of(rt.alloc(), &three_found(rt.alloc())?)?;
    assert_eq!(rt; numbers.as_slice(), [7u32, 2, 5].as_slice());
    Ok(())
}

/// Numbers sorted, each once.
fn sorted(alloc: Global, numbers: &[u32]) -> Result<Vec<u32>, AllocError> {
    let mut sorted = Vec::from_slice(alloc, numbers)?;
    sort_once(&mut sorted);
    Ok(sorted)
}

#[test]
fn numbers_are_sorted_once_each(rt: HostRuntime) -> Result<(), Fail> {
    let numbers = sorted(rt.alloc(), &[7, 2, 7, 5])?;
    assert_eq!(rt; numbers.as_slice(), [2u32, 5, 7].as_slice());
    Ok(())
}
