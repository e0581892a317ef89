ghost use Rattle.std.specs.Prelude.{◌≡◌, ◌-◌, ◌<◌, ◌≤◌, ◌==◌, [], length, map, count_by, slice_index};
ghost use Rattle.std.specs.Prelude.{slice_index_or, All, IfOk};
ghost use Rattle.number_lists.specs.Rooms.{HasRoom, AllGain};
ghost use Rattle.std.specs.List.Sorted.{IsStrictlyIncreasing};
ghost use Rattle.number_lists.specs.Words.{upto};
ghost use Rattle.number_lists.specs.Cofaces.{IsRising, coface_lists};

use crate::lists::Lists;
use crate::slots::Slots;
use std::alloc::{AllocError, Global};

/// For each of the facets 1 to `most` the cells that have it, in one pass over the cells.
pub fn cofaces_in(alloc: Global, most: usize, cells: &Lists) -> Result<Lists, AllocError>
    requires cells { All (IsRising most) cells.now }
    requires few { length cells.now ≤ 4294967295 }
    ensures { IfOk result (λ lists. lists ≡ coface_lists most cells.now) }
{
    let rooms = tally(alloc, most, cells.entries())?;
    let mut slots = Slots::with_rooms(alloc, &rooms)?;
    for index in 0..cells.len() {
        put_all(&mut slots, cells.get(index), index as u32 + 1);
    }
    Ok(slots.finish())
}

/// How often each number from 1 to `most` occurs.
fn tally(alloc: Global, most: usize, numbers: &[u32]) -> Result<Vec<usize>, AllocError>
    requires { All (λ n. (1 ≤ n) × (n ≤ most)) numbers.now }
    ensures { IfOk result (λ v. v.items ≡ map (λ n. count_by (λ x. x == n) numbers.now) (upto most)) }
{
    let mut counts = vec![in alloc; 0usize; most]?;
    for number in numbers {
        counts[*number as usize - 1] += 1;
    }
    Ok(counts)
}

/// Puts an entry last in each of the lists with these numbers, counted from 1.
fn put_all(slots: &mut Slots, numbers: &[u32], value: u32)
    requires rises { IsStrictlyIncreasing numbers.now }
    requires first { All (λ n. 1 ≤ n) numbers.now }
    requires room { All (λ n. HasRoom slots.old (n - 1)) numbers.now }
    requires within { length slots.old.rooms ≤ length slots.old.parts }
    ensures rooms { slots.new.rooms ≡ slots.old.rooms }
    ensures len { length slots.new.parts ≡ length slots.old.parts }
    ensures parts { AllGain numbers.now value slots.old.parts slots.new.parts }
{
    for number in numbers {
        slots.put(*number as usize - 1, value);
    }
}
