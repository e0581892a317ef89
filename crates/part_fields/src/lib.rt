//! Fields of pairs on a space and on the parts of its components: definitions and laws, no code.
//!
//! The pairs of a component, by the numbers that its part gives the cells, are a field of the part. A
//! field is good on a space exactly where it is good on each part, so fields of the parts, one after
//! another in the numbers of the whole space, make one of the space (discrete vector fields: R. Forman).
//! Components and cells are numbered from 1. Each law is the contract of a function that does nothing.
#![tactic(auto)]

ghost use Rattle.part_fields.specs.Laws.{GoodInEachPart, GoodTogether, GoodWhereEachPartIs};
ghost use Rattle.part_fields.specs.Laws.{JoinedFieldsComeApart, OnePartKeepsPairs};

use regular_check::{components_are_numbered, same_component_is_a_path};

/// A good field of a regular space is good in each part.
pub fn good_in_each_part()
    ensures { GoodInEachPart }
{
    same_component_is_a_path();
    components_are_numbered();
}

/// Pairs of a regular space that are good in each part are a good field.
pub fn good_where_each_part_is()
    ensures { GoodWhereEachPartIs }
{
    same_component_is_a_path();
    components_are_numbered();
}

/// Good fields of the parts, one after another in the numbers of the whole space, are good together, and
/// the pairs of each component are those of its field.
pub fn good_together()
    ensures apart { JoinedFieldsComeApart }
    ensures good { GoodTogether }
{
    same_component_is_a_path();
    components_are_numbered();
}

/// In a space with one component the pairs of a valid field by the numbers of the part are those of the field.
pub fn one_part_keeps_pairs()
    ensures { OnePartKeepsPairs }
{
    components_are_numbered();
}
