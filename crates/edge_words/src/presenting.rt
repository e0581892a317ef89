ghost use Rattle.std.specs.Prelude.{◌≡◌, ℕ, ℤ, ◌≤◌, ◌++◌, ◌∷◌, [], length, List, map, None, true};
ghost use Rattle.std.specs.Prelude.{IfOk, OnOk, MatchResult};
ghost use Rattle.std.specs.List.Sorted.{IsStrictlyIncreasing};
ghost use Rattle.number_lists.specs.Words.{upto};
ghost use Rattle.face_poset.specs.Poset.{count};
ghost use Rattle.vector_field.specs.Pairs.{is_incident, IsFieldOf};
ghost use Rattle.edge_words.specs.Words.{own_word, first_word, words, words_from, relators};
ghost use Rattle.edge_words.specs.Words.{presentation_of};
ghost use Rattle.edge_words.specs.Limits.{disk_words, edge_words, first_long, too_long, IsFault};
ghost use Rattle.edge_words.specs.Counting.{IsCounted};
ghost use Rattle.edge_words.specs.Reducing.{AreWords};

use crate::fault::WordFault;
use crate::presentation::Presentation;
use crate::reducing::{force_word, push_steps};
use crate::word_list::WordList;
use face_poset::{Cell, Graded, Pair};
use regular_check::{Regular, cycles_go_round};
use std::alloc::{AllocError, Global};
use vector_field::PairList;

/// What one word may have at most, in letters.
const MOST_LETTERS: usize = 1_000_000;

/// What the words may have together.
const MOST_LETTERS_IN_ALL: usize = 50_000_000;

/// The presentation that a field of pairs of a space gives.
///
/// An edge that is paired with a vertex has the empty word, a critical edge its letter, an edge that is
/// paired with a 2-cell the reduced word that the cycle of this 2-cell forces. The relators are the
/// reduced words of the cycles of the critical 2-cells, by number. A word is too long that has more than
/// 1,000,000 letters or brings the sum above 50,000,000: the sum begins with one for each critical edge,
/// then come the edges that are paired with a 2-cell, in the order of the field, and then the critical
/// 2-cells.
pub fn present(
    alloc: Global,
    regular: &Regular<'_>,
    field: &PairList,
) -> Result<Presentation, WordFault>
    requires { IsFieldOf regular.now field.now }
    ensures presentation { IfOk result (λ p. p ≡ presentation_of regular.now field.now.pairs) }
    ensures edges { IfOk result (λ p. length p.words ≡ count regular.now 1) }
    ensures limits { MatchResult result
        (λ _. too_long regular.now field.now.pairs ≡ None)
        (IsFault (too_long regular.now field.now.pairs)) }
{
    let space = regular.space();
    let _edges = space.cells(1);
    let generators = Vec::from_slice(alloc, field.critical(1))?;
    let mut sum = generators.len();
    let words = list_words(alloc, regular, field, &mut sum)?;
    let relators = list_relators(alloc, regular, field, &words, &mut sum)?;
    Ok(Presentation::new(generators, relators, words))
}

/// The words of all edges, and the sum with those that are paired with a 2-cell.
fn list_words(
    alloc: Global,
    regular: &Regular<'_>,
    field: &PairList,
    sum: &mut usize,
) -> Result<WordList, WordFault>
    requires field { IsFieldOf regular.now field.now }
    requires sum { sum.old ≤ 50000000 }
    ensures words { IfOk result (λ ws. ws ≡ words regular.now field.now.pairs) }
    ensures count { let measured = edge_words (words regular.now field.now.pairs) field.now.pairs in
        MatchResult result
        (λ _. IsCounted sum.old measured sum.new)
        (IsFault (first_long sum.old measured)) }
{
    let space = regular.space();
    let _edges = space.cells(1);
    let mut words = first_words(alloc, regular, field)?;
    let mut word = Vec::new(alloc);
    for index in 0..field.len() {
        settle(regular, field.get(index), &mut words, &mut word, sum)?;
    }
    Ok(words)
}

/// Puts the word of the lower of a pair of an edge with a 2-cell in its place, and adds its letters.
fn settle(
    regular: &Regular<'_>,
    pair: Pair,
    words: &mut WordList,
    word: &mut Vec<i32>,
    sum: &mut usize,
) -> Result<(), WordFault>
    requires pair { is_incident regular.now pair ≡ true }
    requires words { AreWords words.old }
    requires edges { length words.old ≡ count regular.now 1 }
    requires sum { sum.old ≤ 50000000 }
    ensures words { OnOk result (words.new ≡ words_from regular.now words.old (pair ∷ [])) }
    ensures count { let measured = edge_words (words_from regular.now words.old (pair ∷ [])) (pair ∷ []) in
        MatchResult result
        (λ _. IsCounted sum.old measured sum.new)
        (IsFault (first_long sum.old measured)) }
{
    if pair.dim != 1 {
        return Ok(());
    }
    cycles_go_round();
    let space = regular.space();
    let _edges = space.cells(1);
    force_word(words, regular.cycle_of(pair.upper), pair.lower, word)?;
    let cell = Cell {
        dim: 1,
        number: pair.lower,
    };
    add_letters(sum, cell, word.len())?;
    words.replace(pair.lower as usize - 1, word)?;
    Ok(())
}

/// The words of the cycles of the critical 2-cells, and the sum with these.
fn list_relators(
    alloc: Global,
    regular: &Regular<'_>,
    field: &PairList,
    made: &WordList,
    sum: &mut usize,
) -> Result<WordList, WordFault>
    requires field { IsFieldOf regular.now field.now }
    requires words { made.now ≡ words regular.now field.now.pairs }
    requires sum { sum.old ≤ 50000000 }
    ensures relators { IfOk result (λ ws. ws ≡ relators regular.now field.now.pairs) }
    ensures count { let measured = disk_words regular.now made.now field.now.pairs in
        MatchResult result
        (λ _. IsCounted sum.old measured sum.new)
        (IsFault (first_long sum.old measured)) }
{
    cycles_go_round();
    let space = regular.space();
    let _disks = space.cells(2);
    let mut relators = WordList::new(alloc);
    let mut word = Vec::new(alloc);
    for disk in field.critical(2) {
        word.clear();
        push_steps(made, regular.cycle_of(*disk), &mut word)?;
        let cell = Cell {
            dim: 2,
            number: *disk,
        };
        add_letters(sum, cell, word.len())?;
        relators.push(&word)?;
    }
    Ok(relators)
}

/// Adds the letters of the word of a cell to the sum, if they are not too many.
fn add_letters(sum: &mut usize, cell: Cell, letters: usize) -> Result<(), WordFault>
    requires { sum.old ≤ 50000000 }
    ensures { (word : List ℤ) → length word ≡ letters →
        MatchResult result
        (λ _. IsCounted sum.old ((cell, word) ∷ []) sum.new)
        (IsFault (first_long sum.old ((cell, word) ∷ []))) }
{
    if letters > MOST_LETTERS || *sum + letters > MOST_LETTERS_IN_ALL {
        return Err(WordFault::TooLong(cell));
    }
    *sum += letters;
    Ok(())
}

/// The words of edges before any is forced.
fn first_words(
    alloc: Global,
    regular: &Regular<'_>,
    field: &PairList,
) -> Result<WordList, AllocError>
    requires { IsFieldOf regular.now field.now }
    ensures { IfOk result
        (λ ws. ws ≡ map (first_word regular.now field.now.pairs) (upto (count regular.now 1))) }
{
    let critical = field.critical(1);
    let mut words = WordList::new(alloc);
    for index in 0..regular.space().cells(1) {
        push_own(critical, index + 1, &mut words)?;
    }
    Ok(words)
}

/// Puts the word of an edge last: its letter, if it is one of the critical edges.
fn push_own(critical: &[u32], edge: u32, words: &mut WordList) -> Result<(), AllocError>
    requires rise { IsStrictlyIncreasing critical.now }
    requires few { length critical.now ≤ 60000 }
    ensures { OnOk result (words.new ≡ words.old ++ own_word critical.now edge ∷ []) }
{
    match critical.binary_search(&edge) {
        Ok(place) => words.push(&[place as i32 + 1]),
        Err(_) => words.push(&[]),
    }
}
