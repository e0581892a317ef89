ghost use Rattle.std.specs.Prelude.{◌≡◌, ℕ, ◌+◌, ◌≤◌, ◌<◌, [], length, cond, slice_index, slice_index_or};
ghost use Rattle.std.specs.Prelude.{All, IfOk, OnOk, OnErr};
ghost use Rattle.number_lists.specs.Words.{holds};
ghost use Rattle.number_lists.specs.Found.{inserted, inserted_all};

use std::alloc::{AllocError, Global};
use std::marker::Model;

/// Different numbers in the order in which they were found, each from 1 to the most. A mark at each
/// tells in one step whether a number is there, and all are taken out in as many steps as there are.
#[derive(Drop)]
pub struct FoundNumbers {
    marks: Vec<bool>,
    numbers: Vec<u32>,
}

impl Model for FoundNumbers {
    ghost use Rattle.std.specs.Prelude.{length};
    ghost use Rattle.number_lists.specs.Found.{Numbers, IsMarked};

    ghost Value = { Numbers };

    ghost view = { λ s. record { most = length s.marks.items; found = s.numbers.items } };

    ghost invariant = { λ s. IsMarked s.marks.items s.numbers.items };
}

impl FoundNumbers {
    /// None yet, of the numbers from 1 to `most`.
    pub fn new(alloc: Global, most: usize) -> Result<FoundNumbers, AllocError>
        ensures most { IfOk result (λ numbers. numbers.most ≡ most) }
        ensures found { IfOk result (λ numbers. numbers.found ≡ []) }
    {
        let marks = vec![in alloc; false; most]?;
        Ok(FoundNumbers {
            marks,
            numbers: Vec::new(alloc),
        })
    }

    /// How many were found.
    pub fn len(&self) -> usize
        ensures len { result ≡ length self.now.found }
        ensures few { result ≤ self.now.most }
    {
        self.numbers.len()
    }

    /// The number at an index, counted from 0.
    pub fn get(&self, index: usize) -> u32
        requires { index < length self.now.found }
        ensures number { result ≡ slice_index_or self.now.found index 0 }
        ensures first { 1 ≤ result }
        ensures last { result ≤ self.now.most }
    {
        self.numbers[index]
    }

    /// Whether the number was found.
    pub fn holds(&self, number: u32) -> bool
        requires first { 1 ≤ number }
        requires last { number ≤ self.now.most }
        ensures { result ≡ holds self.now.found number }
    {
        self.marks[number as usize - 1]
    }

    /// Puts a number last, if it is not there.
    pub fn insert(&mut self, number: u32) -> Result<(), AllocError>
        requires first { 1 ≤ number }
        requires last { number ≤ self.old.most }
        ensures most { self.new.most ≡ self.old.most }
        ensures found { OnOk result (self.new.found ≡ inserted self.old.found number) }
        ensures err { OnErr result (self.new.found ≡ self.old.found) }
    {
        let at = number as usize - 1;
        if !self.marks[at] {
            self.numbers.push(number)?;
            self.marks[at] = true;
        }
        Ok(())
    }

    /// Puts these numbers last, one after another, each if it is not there.
    pub fn insert_all(&mut self, numbers: &[u32]) -> Result<(), AllocError>
        requires { All (λ n. (1 ≤ n) × (n ≤ self.old.most)) numbers.now }
        ensures most { self.new.most ≡ self.old.most }
        ensures found { OnOk result (self.new.found ≡ inserted_all self.old.found numbers.now) }
    {
        for number in numbers {
            self.insert(*number)?;
        }
        Ok(())
    }

    /// Writes the value at each number that was found, where places are counted from 1.
    pub fn write(&self, value: u32, places: &mut [u32])
        requires { self.now.most ≤ length places.old }
        ensures { (k : ℕ) → k < length places.old
            → slice_index places.new k ≡ cond (holds self.now.found (k + 1)) value (slice_index places.old k) }
    {
        for number in &self.numbers {
            places[*number as usize - 1] = value;
        }
    }

    /// Takes all numbers out.
    pub fn clear(&mut self)
        ensures most { self.new.most ≡ self.old.most }
        ensures found { self.new.found ≡ [] }
    {
        for index in 0..self.numbers.len() {
            self.marks[self.numbers[index] as usize - 1] = false;
        }
        self.numbers.clear();
    }
}
