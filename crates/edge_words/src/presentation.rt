ghost use Rattle.std.specs.Prelude.{◌≡◌, ◌≤◌, ◌<◌, [], length, slice_index_or, All};
ghost use Rattle.live_laws.specs.Walks.{AreLetters};
ghost use Rattle.edge_words.specs.Words.{word_at};

use crate::word_list::WordList;
use std::alloc::Global;
use std::marker::Model;

/// A presentation of the fundamental group: generators, relators, and the words of all edges. The letter g
/// is generator g forward, -g backward; generators are numbered from 1.
#[derive(Drop)]
pub struct Presentation {
    generators: Vec<u32>,
    relators: WordList,
    words: WordList,
}

impl Model for Presentation {
    ghost use Rattle.std.specs.Prelude.{◌≤◌, length, All};
    ghost use Rattle.std.specs.Vec.{vec_len};
    ghost use Rattle.live_laws.specs.Walks.{AreLetters};
    ghost use Rattle.edge_words.specs.Words.{Presented};

    ghost Value = { Presented };

    ghost view = { λ s. record { generators = s.generators.items; relators = s.relators; words = s.words } };

    ghost invariant = { λ s.
        (vec_len s.generators ≤ 60000)
        × (length s.relators ≤ 60000)
        × All (AreLetters (vec_len s.generators)) s.relators
        × All (AreLetters (vec_len s.generators)) s.words };
}

impl Presentation {
    /// The presentation by these generators and relators, with these words of edges.
    pub(crate) fn new(generators: Vec<u32>, relators: WordList, words: WordList) -> Presentation
        requires generators { length generators.items ≤ 60000 }
        requires few { length relators ≤ 60000 }
        requires relators { All (AreLetters (length generators.items)) relators }
        requires words { All (AreLetters (length generators.items)) words }
        ensures { result ≡ record { generators = generators.items; relators = relators; words = words } }
    {
        Presentation {
            generators,
            relators,
            words,
        }
    }

    /// The presentation without generators and relators, and without words of edges.
    pub fn trivial(alloc: Global) -> Presentation
        ensures { result ≡ record { generators = []; relators = []; words = [] } }
    {
        Presentation::new(Vec::new(alloc), WordList::new(alloc), WordList::new(alloc))
    }

    /// The critical edges, in increasing order: generator g is the g-th of them.
    pub fn generators(&self) -> &[u32]
        ensures generators { result.now ≡ self.now.generators }
        ensures few { length self.now.generators ≤ 60000 }
    {
        &self.generators
    }

    /// How many relators there are.
    pub fn relators(&self) -> u32
        ensures count { result ≡ length self.now.relators }
        ensures letters { All (AreLetters (length self.now.generators)) self.now.relators }
    {
        self.relators.len() as u32
    }

    /// The relator at an index, counted from 0.
    pub fn relator(&self, index: u32) -> &[i32]
        requires { index < length self.now.relators }
        ensures word { result.now ≡ slice_index_or self.now.relators index [] }
        ensures letters { AreLetters (length self.now.generators) result.now }
    {
        self.relators.get(index as usize)
    }

    /// The word of an edge, which is counted from 1.
    pub fn word(&self, edge: u32) -> &[i32]
        requires first { 1 ≤ edge }
        requires last { edge ≤ length self.now.words }
        ensures word { result.now ≡ word_at self.now.words edge }
        ensures letters { AreLetters (length self.now.generators) result.now }
    {
        self.words.get(edge as usize - 1)
    }

    /// The generators and relators alone, without the words of edges.
    pub fn without_words(self, alloc: Global) -> Presentation
        ensures { result ≡ record { generators = self.generators; relators = self.relators; words = [] } }
    {
        Presentation {
            generators: self.generators,
            relators: self.relators,
            words: WordList::new(alloc),
        }
    }

    /// The words of all edges.
    pub(crate) fn words(&self) -> &WordList
        ensures words { result.now ≡ self.now.words }
        ensures letters { All (AreLetters (length self.now.generators)) self.now.words }
    {
        &self.words
    }
}
