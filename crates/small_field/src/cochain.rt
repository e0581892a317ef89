// Cochains, and chains with coefficients.
ghost use Rattle.std.specs.Prelude.{◌≡◌, ◌≤◌, ◌-◌, ◌<◌, ◌^◌, ◌++◌, All, length, replicate, slice_index};
ghost use Rattle.std.specs.Prelude.{slice_set, IfOk, OnOk};
ghost use Rattle.small_field.specs.Values.{AreElements, entries_from, entry_of};

use crate::field::Field;
use crate::sparse::{Entry, Sparse};
use std::alloc::{AllocError, Global};
use std::marker::{Model, PhantomData};

/// A list of elements of a field, one for each cell of a degree, which contracts see as the list of their numbers: a
/// cochain, or a chain with coefficients. Cells are numbered from 1.
#[derive(Drop)]
pub struct Cochain<F: Field> {
    numbers: Vec<u8>,
    of: PhantomData<F>,
}

impl<F: Field> Model for Cochain<F> {
    ghost use Rattle.std.specs.Prelude.{ℕ, List};
    ghost use Rattle.small_field.specs.Values.{AreValues};

    ghost Value = { List ℕ };

    ghost view = { λ c. c.numbers.items };

    ghost invariant = { λ c. AreValues F.ops c.numbers.items };
}

impl<F: Field> Cochain<F> {
    /// Zero on so many cells.
    pub fn zero(alloc: Global, len: u32) -> Result<Cochain<F>, AllocError>
        ensures { IfOk result (λ c. c ≡ replicate len 0) }
    {
        Ok(Cochain {
            numbers: vec![in alloc; 0; len as usize]?,
            of: PhantomData,
        })
    }

    /// How many cells there are.
    pub fn len(&self) -> u32
        ensures len { result ≡ length self.now }
        ensures elements { AreElements F.ops self.now }
    {
        self.numbers.len() as u32
    }

    /// The element at a cell.
    pub fn get(&self, number: u32) -> F
        requires first { 1 ≤ number }
        requires last { number ≤ length self.now }
        ensures { F.number_of result ≡ slice_index self.now (number - 1) }
    {
        F::from_number(self.numbers[number as usize - 1] as u32)
    }

    /// Puts an element at a cell.
    pub fn set(&mut self, number: u32, value: F)
        requires first { 1 ≤ number }
        requires last { number ≤ length self.old }
        ensures { self.new ≡ slice_set self.old (number - 1) (F.number_of value) }
    {
        self.numbers[number as usize - 1] = value.to_number() as u8;
    }

    /// The values that are not 0, each at the number of its cell.
    pub fn sparse(&self, alloc: Global) -> Result<Sparse, AllocError>
        ensures { IfOk result (λ entries. entries ≡ entries_from 1 self.now) }
    {
        let mut entries = Sparse::new(alloc);
        for index in 0..self.numbers.len() {
            push_value(&mut entries, index as u32 + 1, self.numbers[index])?;
        }
        Ok(entries)
    }
}

/// Puts the value last in the entries, unless it is 0.
fn push_value(entries: &mut Sparse, position: u32, value: u8) -> Result<(), AllocError>
    requires { All (λ e. e.0 < position) entries.old }
    ensures { OnOk result (entries.new ≡ entries.old ++ entry_of position value) }
{
    if value != 0 {
        entries.push(Entry { position, value })?;
    }
    Ok(())
}
