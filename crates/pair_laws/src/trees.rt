ghost use Rattle.pair_laws.specs.Tree.{GrownDistinct, AllOf, TreeExists};
ghost use Rattle.pair_laws.specs.Sphere.{DualOrdered, SphereHasTrees};
ghost use Rattle.pair_laws.specs.Distance.{NearerIs};
ghost use Rattle.pair_laws.specs.Round.{CycleTree};

/// No link of a grown tree comes twice.
pub fn grown_links_are_distinct()
    ensures { GrownDistinct }
{}

/// Distinct numbers of a list, as many as it has, are all of it.
pub fn numbers_fill_a_list()
    ensures { AllOf }
{}

/// Where links join all nodes to a root, there is a tree on them.
pub fn trees_exist()
    ensures { TreeExists }
{}

/// Where each link lies in its two nodes and in no other, the pairs of a tree are in order, the
/// latest first.
pub fn dual_trees_are_ordered()
    ensures { DualOrdered }
{}

/// A sphere has a tree of 2-cells and a tree of vertices that share out its edges.
pub fn spheres_have_trees()
    ensures { SphereHasTrees }
{}

/// Each number but the root that steps lead to has a step from one whose distance is smaller by one.
pub fn some_node_is_nearer()
    ensures { NearerIs }
{}

/// The edges along a path that meets no vertex twice are a tree.
pub fn paths_are_trees()
    ensures { CycleTree }
{}
