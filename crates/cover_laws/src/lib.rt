//! Covers of a space as tables, each once: definitions and laws, no code.
//!
//! A labelling gives each edge a permutation of the sheets, such that the walk round each 2-cell ends
//! where it began; up to the names of the sheets over each vertex these are the covers (covering spaces
//! by monodromy; textbook). Along the tree of a good field each labelling can be renamed to the lift of a
//! table, and of the tables of one class one is least. Sheets, columns and cells are numbered from 1. Each
//! law is the contract of a function that does nothing.
#![tactic(auto)]

ghost use Rattle.cover_laws.specs.Laws.{LabellingsAreGauged, IsomorphicIsEquivalence};
ghost use Rattle.cover_laws.specs.Laws.{IsomorphicLiftsAreRenumbered, ListedAreCovers};
ghost use Rattle.cover_laws.specs.Laws.{EachClassOnce, ColumnsAreFew};

/// Each labelling is isomorphic to the lift of a table, which is connected if it was; and isomorphic is
/// an equivalence.
pub fn labellings_are_gauged()
    ensures gauge { LabellingsAreGauged }
    ensures equivalence { IsomorphicIsEquivalence }
{
    regular_check::cycles_go_round();
}

/// The lifts of two tables are isomorphic exactly where one table is a renumbering of the other.
pub fn isomorphic_lifts_are_renumbered()
    ensures { IsomorphicLiftsAreRenumbered }
{
    regular_check::cycles_go_round();
    regular_check::components_are_numbered();
}

/// The listed tables of the presentation along a good field, after the start or after a live partial
/// table, are the covers after it, in the same order.
pub fn listed_are_covers()
    ensures { ListedAreCovers }
{
    regular_check::cycles_go_round();
    regular_check::components_are_numbered();
    edge_words::lifts_are_labellings();
}

/// Each connected labelling of at most so many sheets is isomorphic to the lift of exactly one of the
/// covers.
pub fn each_class_once()
    ensures { EachClassOnce }
{
    regular_check::cycles_go_round();
    regular_check::components_are_numbered();
}

/// A good field leaves few edges critical: with the vertices they are at most the edges and one more.
pub fn columns_are_few()
    ensures { ColumnsAreFew }
{
    regular_check::components_are_numbered();
}
