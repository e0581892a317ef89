//! A list of elements.

ghost use Rattle.std.specs.Prelude.{◌≡◌, ℕ, ◌<◌, ◌^◌, length, replicate, slice_index, slice_set, IfOk};
ghost use Rattle.small_field.specs.Values.{AreElements};

use small_field::Field;
use std::alloc::{AllocError, Global};
use std::marker::{Model, PhantomData};

/// A list of elements of a field, which contracts see as the list of their numbers. Places count
/// from 0.
#[derive(Drop)]
pub struct Row<F: Field> {
    numbers: Vec<u8>,
    of: PhantomData<F>,
}

impl<F: Field> Model for Row<F> {
    ghost use Rattle.std.specs.Prelude.{ℕ, List};
    ghost use Rattle.small_field.specs.Values.{AreValues};

    ghost Value = { List ℕ };

    ghost view = { λ r. r.numbers.items };

    ghost invariant = { λ r. AreValues F.ops r.numbers.items };
}

impl<F: Field> Row<F> {
    /// The row of so many zeros.
    pub fn zero(alloc: Global, len: u32) -> Result<Row<F>, AllocError>
        ensures { IfOk result (λ r. r ≡ replicate len 0) }
    {
        Ok(Row {
            numbers: vec![in alloc; 0; len as usize]?,
            of: PhantomData,
        })
    }

    /// How many elements there are.
    pub fn len(&self) -> u32
        ensures len { result ≡ length self.now }
        ensures elements { AreElements F.ops self.now }
    {
        self.numbers.len() as u32
    }

    /// The element at a place.
    pub fn get(&self, place: u32) -> F
        requires { place < length self.now }
        ensures { F.number_of result ≡ slice_index self.now place }
    {
        F::from_number(self.numbers[place as usize] as u32)
    }

    /// Puts an element at a place.
    pub fn set(&mut self, place: u32, value: F)
        requires { place < length self.old }
        ensures { self.new ≡ slice_set self.old place (F.number_of value) }
    {
        self.numbers[place as usize] = value.to_number() as u8;
    }

    /// A row of these numbers of elements.
    pub(crate) fn from_numbers(numbers: Vec<u8>) -> Row<F>
        requires few { length numbers.items < 2 ^ 32 }
        requires elements { AreElements F.ops numbers.items }
        ensures { result ≡ numbers.items }
    {
        Row {
            numbers,
            of: PhantomData,
        }
    }

    /// The numbers of the elements.
    pub(crate) fn numbers(&self) -> &[u8]
        ensures numbers { result.now ≡ self.now }
        ensures few { length self.now < 2 ^ 32 }
        ensures elements { AreElements F.ops self.now }
    {
        &self.numbers
    }
}
