ghost use Rattle.std.specs.Prelude.{◌≡◌, ◌∷◌, ◌++◌, ◌<◌, [], length, map, slice_index, slice_index_or, slice_set, IfOk};
ghost use Rattle.number_lists.specs.Rooms.{HasRoom};

use crate::lists::{Lists, end_after};
use std::alloc::{AllocError, Global};
use std::marker::Model;

/// Lists of numbers that each have a room of their own, so that entries come to them in any order.
#[derive(Drop)]
pub struct Slots {
    ends: Vec<u32>,
    nexts: Vec<u32>,
    entries: Vec<u32>,
}

impl Model for Slots {
    ghost use Rattle.std.specs.Prelude.{length, ◌≤◌};
    ghost use Rattle.number_lists.specs.Rooms.{Filling, filled, widths, IsFilled};

    ghost Value = { Filling };

    ghost view = { λ s. record {
      rooms = widths 0 s.ends.items;
      parts = filled 0 s.ends.items s.nexts.items s.entries.items;
    } };

    ghost invariant = { λ s. IsFilled 0 s.ends.items s.nexts.items (length s.entries.items)
        × (length s.entries.items ≤ 4294967295) };
}

impl Slots {
    /// Empty lists with room for so many entries each.
    pub(crate) fn with_rooms(alloc: Global, rooms: &[usize]) -> Result<Slots, AllocError>
        ensures rooms { IfOk result (λ s. s.rooms ≡ rooms.now) }
        ensures parts { IfOk result (λ s. s.parts ≡ map (λ _. []) rooms.now) }
    {
        let mut ends = Vec::new(alloc);
        let mut nexts = Vec::new(alloc);
        let mut total = 0u32;
        for room in rooms {
            nexts.push(total)?;
            total = end_after(total as usize, *room)?;
            ends.push(total)?;
        }
        let entries = vec![in alloc; 0u32; total as usize]?;
        Ok(Slots {
            ends,
            nexts,
            entries,
        })
    }

    /// Puts an entry last in the list at an index, counted from 0.
    pub(crate) fn put(&mut self, index: usize, value: u32)
        requires room { HasRoom self.old index }
        ensures rooms { self.new.rooms ≡ self.old.rooms }
        ensures parts { self.new.parts ≡ slice_set self.old.parts index
            (slice_index_or self.old.parts index [] ++ value ∷ []) }
    {
        let at = self.nexts[index];
        self.entries[at as usize] = value;
        self.nexts[index] = at + 1;
    }

    /// The lists, where each room is full.
    pub(crate) fn finish(self) -> Lists
        requires { map (λ part. length part) self.parts ≡ self.rooms }
        ensures { result ≡ self.parts }
    {
        Lists::from_parts(self.ends, self.entries)
    }
}
