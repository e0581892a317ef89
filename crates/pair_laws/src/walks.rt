ghost use Rattle.pair_laws.specs.Joins.{Opened, FlatWalk, FlatForced};
ghost use Rattle.pair_laws.specs.Sections.{GrownFlat, OrderedFlat, SimpleWalks, SimpleCloses};

/// A closed chain less one of its steps leads from the end of that step to its start.
pub fn opened_rounds_are_chains()
    ensures { Opened }
{}

/// Along flat edges a walk goes from the sheet that is given there to the sheet that is given here.
pub fn flat_edges_carry_walks()
    ensures { FlatWalk }
{}

/// Where the walk round a cycle closes and all its edges but one are flat, that one is flat.
pub fn last_edge_is_flat()
    ensures { FlatForced }
{}

/// The sheets that a tree carries from its root are a section: all its links are flat.
pub fn trees_have_sections()
    ensures { GrownFlat }
{}

/// Along pairs in order each lower is flat, where the edges that are no lowers are flat and each
/// lower is as soon as the other edges of its upper are.
pub fn ordered_lowers_are_flat()
    ensures { OrderedFlat }
{}

/// Along a simple set of edges a walk ends on a sheet that its end alone decides.
pub fn simple_walks_end_alike()
    ensures { SimpleWalks }
{}

/// Along a simple set of edges a closed walk ends on the sheet where it begins.
pub fn simple_rounds_close()
    ensures { SimpleCloses }
{}
