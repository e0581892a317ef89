ghost use Rattle.std.specs.Prelude.{◌≡◌, ◌<◌, ◌≤◌, length, slice_index_or};

use face_poset::Pair;
use std::marker::Model;

/// A list of pairs, which contracts see as a list.
#[derive(Drop)]
pub struct PairSeq {
    pairs: Vec<Pair>,
}

impl Model for PairSeq {
    ghost use Rattle.std.specs.Prelude.{List, ◌≤◌, length};
    ghost use Rattle.face_poset.specs.declared.cells.Pair.{Pair};

    ghost Value = { List Pair };

    ghost view = { λ s. s.pairs.items };

    ghost invariant = { λ s. length s.pairs.items ≤ 4294967295 };
}

impl PairSeq {
    /// The list of these pairs.
    pub(crate) fn new(pairs: Vec<Pair>) -> PairSeq
        requires { length pairs.items ≤ 4294967295 }
        ensures { result ≡ pairs.items }
    {
        PairSeq { pairs }
    }

    /// How many pairs there are.
    pub fn len(&self) -> u32
        ensures { result ≡ length self.now }
    {
        self.pairs.len() as u32
    }

    /// The pair at an index, counted from 0.
    pub fn get(&self, index: u32) -> Pair
        requires { index < length self.now }
        ensures { result ≡ slice_index_or self.now index result }
    {
        self.pairs[index as usize]
    }
}
