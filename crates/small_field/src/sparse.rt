//! Rows written as their entries that are not zero.

ghost use Rattle.std.specs.Prelude.{◌≡◌, ◌≢◌, ℕ, ◌<◌, ◌≤◌, ◌^◌, ◌++◌, ◌∷◌, [], All, IfOk, OnErr, length, map};
ghost use Rattle.std.specs.Prelude.{slice_index_or};
ghost use Rattle.small_field.specs.Sparse.{IsSparse};

use std::alloc::{AllocError, Global};
use std::marker::Model;

/// The number `value` at a place, which counts from 0.
#[derive(Clone, Copy, PartialEq, Eq)]
pub struct Entry {
    pub position: u32,
    pub value: u8,
}

/// The entries of a row that are not 0, by increasing position.
///
/// Contracts see the list of the pairs of a position and a value.
#[derive(Drop)]
pub struct Sparse {
    entries: Vec<Entry>,
}

impl Model for Sparse {
    ghost use Rattle.std.specs.Prelude.{ℕ, List, map};
    ghost use Rattle.small_field.specs.Sparse.{IsSparse};

    ghost Value = { List (ℕ × ℕ) };

    ghost view = { λ s. map (λ e. (e.position, e.value)) s.entries.items };

    ghost invariant = { λ s. IsSparse (map (λ e. (e.position, e.value)) s.entries.items) };
}

impl Sparse {
    /// The row without an entry.
    pub fn new(alloc: Global) -> Sparse
        ensures { result ≡ [] }
    {
        Sparse {
            entries: Vec::new(alloc),
        }
    }

    /// The row without an entry, with room for that many.
    pub fn with_room(alloc: Global, room: u32) -> Result<Sparse, AllocError>
        ensures { IfOk result (λ s. s ≡ []) }
    {
        Ok(Sparse {
            entries: Vec::with_capacity(alloc, room as usize)?,
        })
    }

    /// Appends an entry. On an error the list stays as it was.
    pub fn push(&mut self, entry: Entry) -> Result<(), AllocError>
        requires above { All (λ e. e.0 < entry.position) self.old }
        requires nonzero { entry.value ≢ 0 }
        ensures pushed { IfOk result (λ _. self.new ≡ self.old ++ (entry.position, entry.value) ∷ []) }
        ensures kept { OnErr result (self.new ≡ self.old) }
    {
        if self.entries.len() == u32::MAX as usize {
            return Err(AllocError);
        }
        self.entries.push(entry)?;
        Ok(())
    }

    /// How many entries there are.
    pub fn len(&self) -> u32
        ensures len { result ≡ length self.now }
        ensures sparse { IsSparse self.now }
    {
        self.entries.len() as u32
    }

    /// The entry number `index`, from 0.
    pub fn get(&self, index: u32) -> Entry
        requires { index < length self.now }
        ensures { (result.position, result.value) ≡ slice_index_or self.now index (0, 0) }
    {
        self.entries[index as usize]
    }
}
