ghost use Rattle.regular_check.specs.Components.{ComponentsAreNumbered, SameComponentIsAPath};
ghost use Rattle.regular_check.specs.Cycle.{CyclesGoRound, OneCycleGoesRound};

/// A law, and nothing at run time: two vertices are in the same component exactly where a path of edges
/// leads from one to the other.
pub fn same_component_is_a_path()
    ensures { SameComponentIsAPath }
{}

/// A law, and nothing at run time: in a regular space the cycle of a 2-cell goes once along each of its
/// edges, each step ends where the next begins and the last where the first begins, and no vertex is
/// repeated.
pub fn cycles_go_round()
    ensures { CyclesGoRound }
{}

/// A law, and nothing at run time: over any space, where the edges of a 2-cell have two ends, the test of the
/// rule on 2-cells holds exactly where these edges can be listed as one cycle that repeats no vertex.
pub fn one_cycle_goes_round()
    ensures { OneCycleGoesRound }
{}

/// A law, and nothing at run time: the numbers of the components are 1 to the number of components, each
/// taken, in the order of the least vertices.
pub fn components_are_numbered()
    ensures { ComponentsAreNumbered }
{}
