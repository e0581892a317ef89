ghost use Rattle.chosen_field.specs.Laws.{ChosenIsGood, ListingNeverStops, LooseEdgesJoin, TreeGoesNearer};

use regular_check::{components_are_numbered, cycles_go_round, same_component_is_a_path};

/// A law, and nothing at run time: the chosen field is valid and maximal, and leaves one vertex critical.
pub fn chosen_is_good()
    ensures { ChosenIsGood }
{
    components_are_numbered();
    cycles_go_round();
    same_component_is_a_path();
}

/// A law, and nothing at run time: the chosen field has each pair that is made exactly once, by dimension;
/// in each the next is that with the least lower among those that may come before all that are left.
pub fn listing_never_stops()
    ensures { ListingNeverStops }
{}

/// A law, and nothing at run time: the edges that are in no pair of dimension 1 or 2 join all vertices.
pub fn loose_edges_join()
    ensures { LooseEdgesJoin }
{
    components_are_numbered();
    cycles_go_round();
    same_component_is_a_path();
}

/// A law, and nothing at run time: each vertex but the first is paired with its least loose edge to a vertex
/// whose distance from vertex 1 is smaller by one.
pub fn tree_goes_nearer()
    ensures { TreeGoesNearer }
{
    components_are_numbered();
    cycles_go_round();
    same_component_is_a_path();
}
