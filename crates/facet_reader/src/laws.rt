// Laws on definitions: each is the contract of a function with an empty body, and nothing at run time.
ghost use Rattle.facet_reader.specs.SetSpaces.{SetSpacesAreRegular};
ghost use Rattle.facet_reader.specs.OrderLaws.{OrderComplexesAreRegular, BelowIsLeast};

/// The space of sets of which each part is a cell, with at most 60,000 cells, is regular.
pub fn set_spaces_are_regular()
    ensures { SetSpacesAreRegular }
{}

/// The order complex of each finite partial order that a value is, where it is not too large, is regular.
pub fn order_complexes_are_regular()
    ensures { OrderComplexesAreRegular }
{}

/// To lie below is the least transitive relation that has the given pairs.
pub fn below_is_least()
    ensures { BelowIsLeast }
{}
