ghost use Rattle.pair_laws.specs.Letters.{Undo, ReducedIs, StaysReduced, ReducedAppend, ReducedInverted};
ghost use Rattle.pair_laws.specs.Letters.{AfterIs, ForcedUnique, FollowReduced};

/// A letter that is put before a reduced word, and then the letter that undoes it, leave the word.
pub fn letters_undo()
    ensures { Undo }
{}

/// The reduced word of a word is reduced.
pub fn reduced_words_are_reduced()
    ensures { ReducedIs }
{}

/// A reduced word is its own reduced word.
pub fn reduced_words_stay()
    ensures { StaysReduced }
{}

/// A word may be reduced in parts.
pub fn reduced_in_parts()
    ensures { ReducedAppend }
{}

/// The inverse of a word reduces to the inverse of its reduced word.
pub fn inverted_words_reduce_alike()
    ensures { ReducedInverted }
{}

/// A letter that is put after a reduced word gives the reduced word of both.
pub fn letters_are_put_last()
    ensures { AfterIs }
{}

/// A reduced word between two others with which it reduces to nothing is the one that these force.
pub fn words_are_forced()
    ensures { ForcedUnique }
{}

/// A walk by letters that undo each other ends alike for a word and for its reduced word.
pub fn walks_follow_reduced_words()
    ensures { FollowReduced }
{}
