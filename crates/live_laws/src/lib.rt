//! Live partial tables and listed tables of relations in generators: definitions and laws, no code.
//!
//! A live partial table has the first cells of a table of sheets, row by row, with sheets in the order
//! of their first appearance and no relator that fails (low-index subgroups by coset tables; textbook,
//! after Sims). Here stand their order, what a walk that goes through them has left, and that each
//! table has exactly one renumbering that is least. Sheets and columns are counted from 1. Each law is
//! the contract of a function with an empty body.
#![tactic(auto)]

ghost use Rattle.live_laws.specs.Trees.{StepsDown, StepsOn, StepsUp, StepsOut};
ghost use Rattle.live_laws.specs.Walks.{WalksStay, FullWalksFollow};
ghost use Rattle.live_laws.specs.Live.{PrefixesAreSound, OneCellMore, LiveTablesAreFew};
ghost use Rattle.live_laws.specs.Orders.{LiveIsLeft, LiveInOrder, LiveResumes, RunsJoin};
ghost use Rattle.live_laws.specs.Classes.{ClassHasOneLeast, LeastAppearsInOrder, AppearingIsTransitive};
ghost use Rattle.live_laws.specs.Small.{CircleIsListed, WedgeIsListed, TorusIsListed};

/// A walk whose cells are there leads to the same sheet when more cells come.
pub fn walks_stay()
    ensures { WalksStay }
{}

/// The beginnings of sound cells are sound.
pub fn prefixes_are_sound()
    ensures { PrefixesAreSound }
{}

/// Sound cells stay so with one cell more exactly where that cell may follow, and no relator fails that
/// names the generator of its column.
pub fn one_cell_more()
    ensures { OneCellMore }
{}

/// The four moves of a walk through a tree of lists, and what it has left: the live partial tables
/// after the cells where it stands, and then those of more sheets.
pub fn walks_have_left()
    ensures down { StepsDown }
    ensures on { StepsOn }
    ensures up { StepsUp }
    ensures out { StepsOut }
    ensures left { LiveIsLeft }
{}

/// All live partial tables stand in order, and those after one of them are those that stand behind it.
pub fn live_tables_are_in_order()
    ensures order { LiveInOrder }
    ensures behind { LiveResumes }
{}

/// The listed tables of two runs, of which the second goes on where the first ended, are those of one
/// run with the sum of the budgets.
pub fn runs_join()
    ensures { RunsJoin }
{}

/// There are not many live partial tables.
pub fn live_tables_are_few()
    ensures { LiveTablesAreFew }
{}

/// Each table has exactly one renumbering that is least.
pub fn class_has_one_least()
    ensures { ClassHasOneLeast }
{}

/// A least table that is transitive meets the rules of first appearance, and a whole table that meets
/// them is transitive.
pub fn least_tables_appear_in_order()
    ensures appears { LeastAppearsInOrder }
    ensures transitive { AppearingIsTransitive }
{}

/// In a whole table the cells of each walk are there, and it leads where the permutations of its
/// columns lead.
pub fn full_walks_follow()
    ensures { FullWalksFollow }
{}

/// The live partial tables and the listed tables of a circle, a wedge of two and a torus.
pub fn small_listings()
    ensures circle { CircleIsListed }
    ensures wedge { WedgeIsListed }
    ensures torus { TorusIsListed }
{}
