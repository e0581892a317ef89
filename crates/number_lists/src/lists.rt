ghost use Rattle.std.specs.Prelude.{◌≡◌, ◌∷◌, ◌++◌, ◌+◌, ◌<◌, [], length, slice_index, slice_index_or, IfOk, OnOk, OnErr, ◌≤◌};
ghost use Rattle.std.specs.List.{concat};
ghost use Rattle.number_lists.specs.Cuts.{cut, IsCut, begin_of};

use std::alloc::{AllocError, Global};
use std::marker::Model;

/// Lists of numbers, one after another in one place, which contracts see as a list of lists. They hold
/// at most 4,294,967,295 entries in all; past that there is no memory.
#[derive(Drop)]
pub struct Lists {
    ends: Vec<u32>,
    entries: Vec<u32>,
}

impl Model for Lists {
    ghost use Rattle.std.specs.Prelude.{ℕ, List, length};
    ghost use Rattle.number_lists.specs.Cuts.{cut, IsCut};

    ghost Value = { List (List ℕ) };

    ghost view = { λ s. cut 0 s.ends.items s.entries.items };

    ghost invariant = { λ s. IsCut 0 s.ends.items (length s.entries.items) };
}

impl Lists {
    /// No list.
    pub fn new(alloc: Global) -> Lists
        ensures { result ≡ [] }
    {
        Lists {
            ends: Vec::new(alloc),
            entries: Vec::new(alloc),
        }
    }

    /// The lists that the ends cut the entries into.
    pub fn from_parts(ends: Vec<u32>, entries: Vec<u32>) -> Lists
        requires { IsCut 0 ends.items (length entries.items) }
        ensures { result ≡ cut 0 ends.items entries.items }
    {
        Lists { ends, entries }
    }

    /// How many lists there are.
    pub fn len(&self) -> usize
        ensures { result ≡ length self.now }
    {
        self.ends.len()
    }

    /// The list at an index, counted from 0.
    pub fn get(&self, index: usize) -> &[u32]
        requires { index < length self.now }
        ensures { result.now ≡ slice_index_or self.now index [] }
    {
        part(&self.ends, &self.entries, index)
    }

    /// All entries, list by list.
    pub fn entries(&self) -> &[u32]
        ensures { result.now ≡ concat self.now }
    {
        &self.entries
    }

    /// Puts a list last.
    pub fn push(&mut self, list: &[u32]) -> Result<(), AllocError>
        ensures ok { OnOk result (self.new ≡ self.old ++ list.now ∷ []) }
        ensures err { OnErr result (self.new ≡ self.old) }
    {
        let end = end_after(self.entries.len(), list.len())?;
        self.ends.reserve(1)?;
        self.entries.extend_from_slice(list)?;
        self.ends.push(end)?;
        Ok(())
    }
}

/// Where entries end, after so many more of them.
pub(crate) fn end_after(total: usize, more: usize) -> Result<u32, AllocError>
    ensures { IfOk result (λ end. end ≡ total + more) }
{
    let end = total.checked_add(more).ok_or(AllocError)?;
    u32::try_from(end).map_err(|_| AllocError)
}

/// Where the part at an index begins.
fn begin_of_part(ends: &[u32], total: usize, index: usize) -> usize
    requires index { index < length ends.now }
    requires cut { IsCut 0 ends.now total }
    ensures begin { result ≡ begin_of 0 ends.now index }
    ensures low { result ≤ slice_index ends.now index }
    ensures high { slice_index ends.now index ≤ total }
{
    if index == 0 {
        0
    } else {
        ends[index - 1] as usize
    }
}

/// The part of the entries at an index.
fn part<'a>(ends: &[u32], entries: &'a [u32], index: usize) -> &'a [u32]
    requires index { index < length ends.now }
    requires cut { IsCut 0 ends.now (length entries.now) }
    ensures { result.now ≡ slice_index_or (cut 0 ends.now entries.now) index [] }
{
    let start = begin_of_part(ends, entries.len(), index);
    let end = ends[index] as usize;
    &entries[start..end]
}
