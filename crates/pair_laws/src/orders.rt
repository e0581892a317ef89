ghost use Rattle.pair_laws.specs.Ranks.{NeverStuck, OrderedRanked, ArrangedIs, ArrangedOnce};
ghost use Rattle.pair_laws.specs.Counts.{CountFalls};

/// Of pairs along which a rank falls, one comes before all of them.
pub fn some_pair_is_ready()
    ensures { NeverStuck }
{}

/// Along pairs in order their places fall.
pub fn ordered_pairs_are_ranked()
    ensures { OrderedRanked }
{}

/// Pairs along which a rank falls, no two with one lower, are all arranged, and in order.
pub fn arranged_pairs_are_ordered()
    ensures { ArrangedIs }
{}

/// No lower is arranged twice.
pub fn pairs_are_arranged_once()
    ensures { ArrangedOnce }
{}

/// Without one of the cells that are left, its facets have one cell less above them, and others as
/// many as before.
pub fn counts_fall()
    ensures { CountFalls }
{}
