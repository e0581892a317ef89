ghost use Rattle.std.specs.Prelude.{◌≡◌, ◌∷◌, ◌++◌, ◌<◌, [], length, set, slice_index_or, OnOk};

use std::alloc::{AllocError, Global};
use std::marker::Model;

/// Where a word stands among the letters.
#[derive(Clone, Copy)]
pub(crate) struct Place {
    pub(crate) start: usize,
    pub(crate) length: usize,
}

/// Words, with their letters in one place in the order in which they came. Contracts see the list of the
/// words.
#[derive(Drop)]
pub(crate) struct WordList {
    letters: Vec<i32>,
    places: Vec<Place>,
}

impl Model for WordList {
    ghost use Rattle.std.specs.Prelude.{ℤ, List, map, length, All};
    ghost use Rattle.edge_words.specs.Places.{word_in, IsPlace};

    ghost Value = { List (List ℤ) };

    ghost view = { λ s. map (word_in s.letters.items) s.places.items };

    ghost invariant = { λ s. All (IsPlace (length s.letters.items)) s.places.items };
}

impl WordList {
    /// No word.
    pub(crate) fn new(alloc: Global) -> WordList
        ensures { result ≡ [] }
    {
        WordList {
            letters: Vec::new(alloc),
            places: Vec::new(alloc),
        }
    }

    /// How many words there are.
    pub(crate) fn len(&self) -> usize
        ensures { result ≡ length self.now }
    {
        self.places.len()
    }

    /// The word at an index, counted from 0.
    pub(crate) fn get(&self, index: usize) -> &[i32]
        requires { index < length self.now }
        ensures { result.now ≡ slice_index_or self.now index [] }
    {
        let place = self.places[index];
        &self.letters[place.start..place.start + place.length]
    }

    /// Puts a word last.
    pub(crate) fn push(&mut self, word: &[i32]) -> Result<(), AllocError>
        ensures { OnOk result (self.new ≡ self.old ++ word.now ∷ []) }
    {
        let start = self.letters.len();
        self.letters.extend_from_slice(word)?;
        let place = Place {
            start,
            length: word.len(),
        };
        self.places.push(place)?;
        Ok(())
    }

    /// Puts a word in place of the one at an index, counted from 0.
    pub(crate) fn replace(&mut self, index: usize, word: &[i32]) -> Result<(), AllocError>
        requires { index < length self.old }
        ensures { OnOk result (self.new ≡ set self.old index word.now) }
    {
        let start = self.letters.len();
        self.letters.extend_from_slice(word)?;
        self.places[index] = Place {
            start,
            length: word.len(),
        };
        Ok(())
    }
}
