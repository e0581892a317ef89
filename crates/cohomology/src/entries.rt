// Cochains and entries, at the cost of the entries.
ghost use Rattle.std.specs.Prelude.{◌≡◌, length, IfOk};
ghost use Rattle.linear_laws.specs.Vectors.{dot, plus_scaled};
ghost use Rattle.chain_laws.specs.Lines.{cochain_of, AreEntries};

use small_field::{Cochain, Field, Sparse};
use std::alloc::{AllocError, Global};

/// The value of a cochain on the chain with these entries.
pub fn value_on<F: Field>(x: &Cochain<F>, entries: &Sparse) -> F
    requires { AreEntries F.ops (length x.now) entries.now }
    ensures { F.number_of result ≡ dot F.ops x.now (cochain_of (length x.now) entries.now) }
{
    let _elements = x.len();
    let mut sum = F::zero();
    for index in 0..entries.len() {
        let entry = entries.get(index);
        let value = F::from_number(entry.value as u32);
        sum = sum.add(x.get(entry.position).mul(value));
    }
    sum
}

/// Adds a multiple of the cochain with these entries.
pub fn add_multiple_of<F: Field>(x: &mut Cochain<F>, factor: F, entries: &Sparse)
    requires { AreEntries F.ops (length x.old) entries.now }
    ensures { x.new ≡ plus_scaled F.ops (F.number_of factor) x.old (cochain_of (length x.old) entries.now) }
{
    let _elements = x.len();
    for index in 0..entries.len() {
        let entry = entries.get(index);
        let value = F::from_number(entry.value as u32);
        let sum = x.get(entry.position).add(factor.mul(value));
        x.set(entry.position, sum);
    }
}

/// The same cochain once more.
pub fn copy_of<F: Field>(alloc: Global, x: &Cochain<F>) -> Result<Cochain<F>, AllocError>
    ensures { IfOk result (λ copy. copy ≡ x.now) }
{
    let count = x.len();
    let mut copy = Cochain::zero(alloc, count)?;
    for index in 0..count {
        copy.set(index + 1, x.get(index + 1));
    }
    Ok(copy)
}

/// Adds a cochain.
pub fn add<F: Field>(x: &mut Cochain<F>, y: &Cochain<F>)
    requires { length y.now ≡ length x.old }
    ensures { x.new ≡ plus_scaled F.ops 1 x.old y.now }
{
    for index in 0..y.len() {
        let sum = x.get(index + 1).add(y.get(index + 1));
        x.set(index + 1, sum);
    }
}
