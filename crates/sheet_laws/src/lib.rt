//! Tables of sheets, labellings and lifts: definitions and laws, no code.
//!
//! A labelling gives each edge of a space a permutation of the sheets, such that the walk round each
//! 2-cell ends where it began; up to the names of the sheets over each vertex these are the covers
//! (covering spaces by monodromy; textbook). A field of pairs brings each table, with a column for
//! each critical edge, to exactly one lift. Sheets, columns and cells are numbered from 1. Each law
//! is the contract of a function that does nothing.
#![tactic(auto)]

ghost use Rattle.sheet_laws.specs.Tables.{LeastIsExact};
ghost use Rattle.sheet_laws.specs.Labellings.{ConnectedIsExact};
ghost use Rattle.sheet_laws.specs.Lifts.{LiftIsOne, LiftsAreConnected};

/// The computed test tells exactly whether no renumbering by a permutation makes a table smaller.
pub fn least_is_exact()
    ensures { LeastIsExact }
{}

/// The computed test tells exactly whether steps along edges lead from each sheet over each vertex to
/// each other.
pub fn connected_is_exact()
    ensures { ConnectedIsExact }
{}

/// For each valid field and each table the computed lift is a lift, and the only one.
pub fn lift_is_one()
    ensures { LiftIsOne }
{
    regular_check::cycles_go_round();
}

/// Where a field leaves one vertex critical, a lift is connected exactly where its table is transitive.
pub fn lifts_are_connected()
    ensures { LiftsAreConnected }
{
    regular_check::cycles_go_round();
}
