//! Places in a list.

ghost use Rattle.std.specs.Prelude.{◌≡◌, ℕ, ◌<◌, ◌^◌, length, slice_index};

use std::marker::Model;

/// Places of rows, which count from 0, as increasing numbers. Contracts see their list.
#[derive(Drop)]
pub struct Places {
    places: Vec<u32>,
}

impl Model for Places {
    ghost use Rattle.std.specs.Prelude.{ℕ, ◌<◌, ◌^◌, List, length};

    ghost Value = { List ℕ };

    ghost view = { λ p. p.places.items };

    ghost invariant = { λ p. length p.places.items < 2 ^ 32 };
}

impl Places {
    /// How many places there are.
    pub fn len(&self) -> u32
        ensures { result ≡ length self.now }
    {
        self.places.len() as u32
    }

    /// The place number `index`, from 0.
    pub fn get(&self, index: u32) -> u32
        requires { index < length self.now }
        ensures { result ≡ slice_index self.now index }
    {
        self.places[index as usize]
    }

    /// These places.
    pub(crate) fn new(places: Vec<u32>) -> Places
        requires { length places.items < 2 ^ 32 }
        ensures { result ≡ places.items }
    {
        Places { places }
    }
}
