// Laws on definitions: each is the contract of a function that does nothing at run time.
ghost use Rattle.sphere_collapses.specs.Laws.{BoundariesCollapse, CollapsedWalksClose, LastFaceCloses};
ghost use Rattle.sphere_collapses.specs.Laws.{SpheresHaveTrees};

use regular_check::cycles_go_round;

/// A law, and nothing at run time: the 2-cells of a 3-cell of a regular space have a tree from each of
/// them, and its vertices one from each of them, and each edge is a link of one of the two.
pub fn spheres_have_trees()
    ensures { SpheresHaveTrees }
{
    cycles_go_round();
}

/// A law, and nothing at run time: the boundary of a 3-cell of a regular space, less one of its 2-cells,
/// collapses to a vertex.
pub fn boundaries_collapse()
    ensures { BoundariesCollapse }
{
    cycles_go_round();
}

/// A law, and nothing at run time: where the walks round the 2-cells of a list of cells that collapses
/// close, each closed walk along its edges closes, and there is a sheet over each vertex along which all
/// edges lead.
pub fn collapsed_walks_close()
    ensures { CollapsedWalksClose }
{
    cycles_go_round();
}

/// A law, and nothing at run time: where the walks round all 2-cells of a 3-cell but one close on all
/// sheets, the last one closes.
pub fn last_face_closes()
    ensures { LastFaceCloses }
{
    cycles_go_round();
}
