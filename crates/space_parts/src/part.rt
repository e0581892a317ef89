ghost use Rattle.std.specs.Prelude.{◌≡◌, ◌≤◌};
ghost use Rattle.face_poset.specs.Poset.{count};
ghost use Rattle.space_parts.specs.Parts.{whole_of};
ghost use Rattle.space_parts.specs.Laws.{IsWhole};
ghost use Rattle.space_parts.specs.Making.{HasCells};

use face_poset::Space;
use number_lists::Lists;
use std::marker::Model;

/// One component of a space as a space of its own, which is regular. Contracts see it as this space, with
/// the cells of the whole space from which its cells come.
#[derive(Drop)]
pub struct Part {
    space: Space,
    cells: Lists,
}

impl Model for Part {
    ghost use Rattle.std.specs.Prelude.{◌≡◌, ℕ, ◌≤◌, [], length, slice_index_or};
    ghost use Rattle.face_poset.specs.Poset.{count};
    ghost use Rattle.space_parts.specs.Parts.{Piece};
    ghost use Rattle.space_parts.specs.Laws.{IsWhole};
    ghost use Rattle.space_parts.specs.Making.{HasCells};

    ghost Value = { Piece };

    ghost view = { λ s. record { space = s.space; cells = s.cells } };

    ghost invariant = { λ s. IsWhole s.space × HasCells s.space s.cells };
}

impl Part {
    /// The part of these cells.
    pub(crate) fn new(space: Space, cells: Lists) -> Part
        requires whole { IsWhole space }
        requires cells { HasCells space cells }
        ensures space { result.space ≡ space }
        ensures cells { result.cells ≡ cells }
    {
        Part { space, cells }
    }

    /// The part as a space. To check it refuses nothing: it is regular, and has one component.
    pub fn space(&self) -> &Space
        ensures same { result.now ≡ self.now.space }
        ensures whole { IsWhole result.now }
    {
        &self.space
    }

    /// The part as a space of its own, which is regular, and has one component.
    pub fn into_space(self) -> Space
        ensures same { result ≡ self.space }
        ensures whole { IsWhole result }
    {
        self.space
    }

    /// The number in the whole space of a cell of the part; both are counted from 1.
    pub fn whole(&self, dim: u8, cell: u32) -> u32
        requires first { 1 ≤ cell }
        requires last { cell ≤ count self.now.space dim }
        ensures { result ≡ whole_of self.now dim cell }
    {
        self.cells.get(dim as usize)[cell as usize - 1]
    }
}
