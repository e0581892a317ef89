// Laws on definitions: each is the contract of a function that does nothing at run time.
ghost use Rattle.edge_words.specs.Laws.{ForcedWordsAreOne, ForcedWordsAreTheOnlyOnes, LabelsAreTheLift};
ghost use Rattle.edge_words.specs.Laws.{LiftsAreLabellings, WalksFollowWords};

use regular_check::cycles_go_round;
use sphere_collapses::last_face_closes;

/// A law, and nothing at run time: the word of the cycle of each 2-cell that is paired with an edge
/// reduces to the empty word, and with no other reduced word at that edge does it; and there is one list
/// of words that are so at all edges.
pub fn forced_words_are_the_only_ones()
    ensures each { ForcedWordsAreTheOnlyOnes }
    ensures all { ForcedWordsAreOne }
{
    cycles_go_round();
}

/// A law, and nothing at run time: where the words of edges lead through a table of permutations is the
/// lift of the table.
pub fn labels_are_the_lift()
    ensures { LabelsAreTheLift }
{
    cycles_go_round();
}

/// A law, and nothing at run time: the lift of a table of permutations is a labelling, on all edges and
/// round all 2-cells, exactly where each relator leads each sheet to itself.
pub fn lifts_are_labellings()
    ensures { LiftsAreLabellings }
{
    cycles_go_round();
    last_face_closes();
}

/// A law, and nothing at run time: along steps of the space the walk of a lift ends where the word of the
/// steps leads, and where the reduced word does.
pub fn walks_follow_words()
    ensures { WalksFollowWords }
{
    cycles_go_round();
}
