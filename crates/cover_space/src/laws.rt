// Laws on definitions: each is the contract of a function that does nothing at run time.
ghost use Rattle.cover_space.specs.Laws.{ClosedCellsAreCoveredByCopies, FacetsAgree, SheetsAreAlong};
ghost use Rattle.cover_space.specs.Laws.{EachCellLiesOverOne, TotalHasComponents, TotalIsASpace, TotalIsRegular};

use regular_check::{components_are_numbered, cycles_go_round, same_component_is_a_path};
use sphere_collapses::{boundaries_collapse, collapsed_walks_close, spheres_have_trees};

/// A law, and nothing at run time: for each cell of a regular space and each sheet over its least vertex
/// there is one choice of a sheet over each vertex of the closed cell, along which its edges lead; each
/// edge path inside ends where this choice says.
pub fn closed_cells_are_covered_by_copies()
    ensures { ClosedCellsAreCoveredByCopies }
{
    cycles_go_round();
    spheres_have_trees();
    boundaries_collapse();
    collapsed_walks_close();
}

/// A law, and nothing at run time: the computed sheet over a vertex of a closed cell is the one to which
/// edge paths inside lead; over the vertices of a facet the sheets of the cell are those of the facet.
pub fn sheet_is_along()
    ensures along { SheetsAreAlong }
    ensures facets { FacetsAgree }
{
    cycles_go_round();
    spheres_have_trees();
    boundaries_collapse();
    collapsed_walks_close();
}

/// A law, and nothing at run time: the total space of a labelling of a regular space is a space, where it
/// has at most 60,000 cells.
pub fn total_is_a_space()
    ensures { TotalIsASpace }
{
    cycles_go_round();
    spheres_have_trees();
    boundaries_collapse();
    collapsed_walks_close();
}

/// A law, and nothing at run time: it is regular.
pub fn total_is_regular()
    ensures { TotalIsRegular }
{
    cycles_go_round();
    spheres_have_trees();
    boundaries_collapse();
    collapsed_walks_close();
}

/// A law, and nothing at run time: it has one component, where the space has one and the labelling is
/// connected.
pub fn total_has_components()
    ensures { TotalHasComponents }
{
    cycles_go_round();
    spheres_have_trees();
    boundaries_collapse();
    collapsed_walks_close();
    same_component_is_a_path();
    components_are_numbered();
}

/// A law, and nothing at run time: over each cell stand those at the sheets 1 to m, and no others.
pub fn each_cell_lies_over_one()
    ensures { EachCellLiesOverOne }
{}
