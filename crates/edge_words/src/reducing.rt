// Reduced words, letter by letter.
ghost use Rattle.std.specs.Prelude.{◌≡◌, ◌<◌, ◌++◌, ◌∷◌, [], length, map, true, if◌then◌else◌};
ghost use Rattle.std.specs.Prelude.{OnOk};
ghost use Rattle.number_lists.specs.Words.{holds};
ghost use Rattle.regular_check.specs.declared.cycles.Step.{Step};
ghost use Rattle.pair_laws.specs.Letters.{inverted, is_reduced, last_undone, reduced};
ghost use Rattle.sheet_laws.specs.Permutations.{InRange};
ghost use Rattle.live_laws.specs.Walks.{AreLetters, generator};
ghost use Rattle.edge_words.specs.Words.{forced_word, step_word, word_of};
ghost use Rattle.edge_words.specs.Reducing.{AreSteps, AreWords, IsWord, place_in};

use crate::word_list::WordList;
use regular_check::Step;
use std::alloc::AllocError;

/// Makes `word` the reduced word that steps force at an edge, which one of them goes along.
pub(crate) fn force_word(
    words: &WordList,
    steps: &[Step],
    edge: u32,
    word: &mut Vec<i32>,
) -> Result<(), AllocError>
    requires words { AreWords words.now }
    requires steps { AreSteps words.now steps.now }
    requires edge { holds (map (λ (s : Step). s.edge) steps.now) edge ≡ true }
    ensures { OnOk result (word.new.items ≡ forced_word words.now edge steps.now) }
{
    let place = place_of(steps, edge);
    word.clear();
    push_steps(words, &steps[place + 1..], word)?;
    push_steps(words, &steps[..place], word)?;
    turn_round(steps[place].forward, word);
    Ok(())
}

/// Puts the words of steps after a reduced word, and reduces it.
pub(crate) fn push_steps(
    words: &WordList,
    steps: &[Step],
    word: &mut Vec<i32>,
) -> Result<(), AllocError>
    requires words { AreWords words.now }
    requires steps { AreSteps words.now steps.now }
    requires word { IsWord word.old.items }
    ensures { OnOk result (word.new.items ≡ reduced (word.old.items ++ word_of words.now steps.now)) }
{
    for step in steps {
        push_step(words, *step, word)?;
    }
    Ok(())
}

/// Puts the word of a step after a reduced word, and reduces it.
fn push_step(words: &WordList, step: Step, word: &mut Vec<i32>) -> Result<(), AllocError>
    requires words { AreWords words.now }
    requires edge { InRange (length words.now) step.edge }
    requires word { IsWord word.old.items }
    ensures { OnOk result (word.new.items ≡ reduced (word.old.items ++ step_word words.now step)) }
{
    let passed = words.get(step.edge as usize - 1);
    if step.forward {
        push_forward(passed, word)
    } else {
        push_backward(passed, word)
    }
}

/// Puts letters after a reduced word, and reduces it.
fn push_forward(letters: &[i32], word: &mut Vec<i32>) -> Result<(), AllocError>
    requires letters { AreLetters 60000 letters.now }
    requires word { IsWord word.old.items }
    ensures { OnOk result (word.new.items ≡ reduced (word.old.items ++ letters.now)) }
{
    for letter in letters {
        push_letter(*letter, word)?;
    }
    Ok(())
}

/// Puts the inverse of a word after a reduced word, and reduces it.
fn push_backward(letters: &[i32], word: &mut Vec<i32>) -> Result<(), AllocError>
    requires letters { AreLetters 60000 letters.now }
    requires word { IsWord word.old.items }
    ensures { OnOk result (word.new.items ≡ reduced (word.old.items ++ inverted letters.now)) }
{
    for index in 0..letters.len() {
        push_letter(-letters[letters.len() - 1 - index], word)?;
    }
    Ok(())
}

/// Puts a letter after a reduced word, and reduces it: a last letter that it undoes goes with it.
fn push_letter(letter: i32, word: &mut Vec<i32>) -> Result<(), AllocError>
    requires letter { InRange 60000 (generator letter) }
    requires word { is_reduced word.old.items ≡ true }
    ensures { OnOk result (word.new.items ≡ reduced (word.old.items ++ letter ∷ [])) }
{
    if ends_undone(word, letter) {
        word.pop();
        return Ok(());
    }
    word.push(letter)?;
    Ok(())
}

/// Tells whether a word ends with the letter that undoes another one.
fn ends_undone(word: &[i32], letter: i32) -> bool
    requires { InRange 60000 (generator letter) }
    ensures { result ≡ last_undone word.now letter }
{
    match word.last() {
        Some(last) => *last == -letter,
        None => false,
    }
}

/// Inverts a word, if it is to be turned round.
fn turn_round(turned: bool, word: &mut Vec<i32>)
    requires { AreLetters 60000 word.old.items }
    ensures { word.new.items ≡ (if turned then inverted word.old.items else word.old.items) }
{
    if !turned {
        return;
    }
    word.reverse();
    for index in 0..word.len() {
        word[index] = -word[index];
    }
}

/// The first of the steps that goes along an edge, counted from 0.
fn place_of(steps: &[Step], edge: u32) -> usize
    requires { holds (map (λ (s : Step). s.edge) steps.now) edge ≡ true }
    ensures place { result ≡ place_in edge steps.now }
    ensures within { result < length steps.now }
{
    for index in 0..steps.len() {
        if steps[index].edge == edge {
            return index;
        }
    }
    unreachable!()
}
