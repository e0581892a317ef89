// The connected components of a space.
ghost use Rattle.std.specs.Prelude.{◌≡◌, ℕ, ◌-◌, ◌≤◌, length, slice_index, IfOk, OnOk};
ghost use Rattle.number_lists.specs.Words.{holds};
ghost use Rattle.face_poset.specs.Poset.{count};
ghost use Rattle.regular_check.specs.Components.{are_joined, components_of};

use crate::search::insert_facets;
use face_poset::{Graded, Space};
use number_lists::FoundNumbers;
use std::alloc::{AllocError, Global};
use std::marker::Model;

/// The connected components of a space, numbered from 1 in the order of their least vertices.
/// Contracts see how many there are, and for each vertex the number of its own.
#[derive(Drop)]
pub struct Components {
    count: u32,
    numbers: Vec<u32>,
}

impl Model for Components {
    ghost use Rattle.regular_check.specs.Components.{Numbering};

    ghost Value = { Numbering };

    ghost view = { λ s. record { count = s.count; numbers = s.numbers.items } };
}

impl Components {
    /// How many components there are.
    pub fn count(&self) -> u32
        ensures { result ≡ self.now.count }
    {
        self.count
    }

    /// The number of the component of a vertex; both are counted from 1.
    pub fn of(&self, vertex: u32) -> u32
        requires first { 1 ≤ vertex }
        requires last { vertex ≤ length self.now.numbers }
        ensures { result ≡ slice_index self.now.numbers (vertex - 1) }
    {
        self.numbers[vertex as usize - 1]
    }
}

/// Finds the components of the space.
pub(crate) fn find_components(alloc: Global, space: &Space) -> Result<Components, AllocError>
    ensures { IfOk result (λ components. components ≡ components_of space.now) }
{
    let most = space.cells(0) as usize;
    let mut found = FoundNumbers::new(alloc, most)?;
    let mut numbers = vec![in alloc; 0u32; most]?;
    let mut count = 0;
    for index in 0..space.cells(0) {
        if numbers[index as usize] == 0 {
            count += 1;
            find_joined(space, index + 1, &mut found)?;
            found.write(count, &mut numbers);
        }
    }
    Ok(Components { count, numbers })
}

/// Finds the vertices to which edges lead from this one.
fn find_joined(space: &Space, start: u32, found: &mut FoundNumbers) -> Result<(), AllocError>
    requires first { 1 ≤ start }
    requires last { start ≤ count space.now 0 }
    requires most { found.old.most ≡ count space.now 0 }
    ensures most { found.new.most ≡ found.old.most }
    ensures found { OnOk result ((v : ℕ) → holds found.new.found v ≡ are_joined space.now start v) }
{
    found.clear();
    found.insert(start)?;
    let mut head = 0;
    while head < found.len() {
        let edges = space.cofaces(0, found.get(head));
        insert_facets(space, 1, edges, found)?;
        head += 1;
    }
    Ok(())
}
