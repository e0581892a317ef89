ghost use Rattle.vector_field.specs.Paths.{PathIsExact};
ghost use Rattle.vector_field.specs.Maximal.{MaximalIsExact};
ghost use Rattle.vector_field.specs.Laws.{AddedPairCloses, ValidClosesNone, SubstitutionEnds};

/// A law, and nothing at run time: the computed test for gradient paths tells exactly whether there is one.
pub fn path_is_exact()
    ensures { PathIsExact }
{}

/// A law, and nothing at run time: the computed test for maximal fields tells exactly whether the pairs
/// are maximal.
pub fn maximal_is_exact()
    ensures { MaximalIsExact }
{}

/// A law, and nothing at run time: a pair of critical cells that is added to a maximal field closes a path.
pub fn added_pair_closes()
    ensures { AddedPairCloses }
{}

/// A law, and nothing at run time: the pairs of a valid field close no path.
pub fn valid_closes_none()
    ensures { ValidClosesNone }
{}

/// A law, and nothing at run time: in the order of a valid field substitution ends.
pub fn substitution_ends()
    ensures { SubstitutionEnds }
{}
