// Laws on definitions: each is the contract of a function that does nothing at run time.
ghost use Rattle.space_parts.specs.Laws.{EachCellIsInOnePart, FacetsLieWithin, OnePartIsTheSpace};
ghost use Rattle.space_parts.specs.Laws.{OnePartKeepsNumbers, PartsAreRegular, PartsHaveTheFacets};

use regular_check::{components_are_numbered, same_component_is_a_path};

/// A law, and nothing at run time: in a regular space the facets of a cell have its component.
pub fn facets_lie_within()
    ensures { FacetsLieWithin }
{
    same_component_is_a_path();
}

/// A law, and nothing at run time: the part of a component of a regular space is a regular space with one
/// component.
pub fn parts_are_regular()
    ensures { PartsAreRegular }
{
    same_component_is_a_path();
    components_are_numbered();
}

/// A law, and nothing at run time: each cell of a space is in exactly one part.
pub fn each_cell_is_in_one_part()
    ensures { EachCellIsInOnePart }
{
    components_are_numbered();
}

/// A law, and nothing at run time: a space with one component is its only part.
pub fn one_part_is_the_space()
    ensures { OnePartIsTheSpace }
{
    components_are_numbered();
}

/// A law, and nothing at run time: each cell of the only part of a space with one component has the number
/// that it has in the space.
pub fn one_part_keeps_numbers()
    ensures { OnePartKeepsNumbers }
{
    components_are_numbered();
}

/// A law, and nothing at run time: the facets of a cell of a part are those of the cell of the whole space
/// from which it comes.
pub fn parts_have_the_facets()
    ensures { PartsHaveTheFacets }
{
    same_component_is_a_path();
}
