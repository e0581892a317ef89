// Signs beside numbers: true where the sign is -1.
ghost use Rattle.std.specs.Prelude.{◌≡◌, ◌==◌, ℕ, Bool, if◌then◌else◌, length, map, filter, IfOk};
ghost use Rattle.std.specs.List.Sorted.{IsStrictlyIncreasing};
ghost use Rattle.number_lists.specs.Words.{holds};

use std::alloc::{AllocError, Global};

/// Puts a sign at the place of a number.
pub(crate) fn put_sign(signs: &mut [bool], numbers: &[u32], number: u32, sign: bool)
    requires same { length signs.old ≡ length numbers.now }
    requires rises { IsStrictlyIncreasing numbers.now }
    ensures put { (values : ℕ → Bool)
        → signs.old ≡ map values numbers.now
        → signs.new ≡ map (λ n. if n == number then sign else values n) numbers.now }
{
    if let Ok(place) = numbers.binary_search(&number) {
        signs[place] = sign;
    }
}

/// The numbers that have the sign -1.
pub(crate) fn list_minus(
    alloc: Global,
    numbers: &[u32],
    signs: &[bool],
) -> Result<Vec<u32>, AllocError>
    requires { length signs.now ≡ length numbers.now }
    ensures { IfOk result (λ minus. (values : ℕ → Bool)
        → signs.now ≡ map values numbers.now
        → minus.items ≡ filter values numbers.now) }
{
    let mut minus = Vec::new(alloc);
    for index in 0..numbers.len() {
        if signs[index] {
            minus.push(numbers[index])?;
        }
    }
    Ok(minus)
}

/// Whether the number is one of these.
pub(crate) fn stands(numbers: &[u32], number: u32) -> bool
    requires { IsStrictlyIncreasing numbers.now }
    ensures { result ≡ holds numbers.now number }
{
    match numbers.binary_search(&number) {
        Ok(_) => true,
        Err(_) => false,
    }
}
