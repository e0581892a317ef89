ghost use Rattle.std.specs.Prelude.{◌≡◌};
ghost use Rattle.vector_field.specs.Pairs.{IsFieldOf};
ghost use Rattle.vector_field.specs.Maximal.{IsGood};
ghost use Rattle.edge_words.specs.Words.{presentation_of};
ghost use Rattle.part_groups.specs.Groups.{alone};

use edge_words::Presentation;
use space_parts::Part;
use std::alloc::Global;
use std::marker::Model;
use vector_field::PairList;

/// A part of a space with its field of pairs, and with the presentation that this field gives.
#[derive(Drop)]
pub struct PartGroup {
    part: Part,
    field: PairList,
    presentation: Presentation,
}

impl Model for PartGroup {
    ghost use Rattle.std.specs.Prelude.{◌≡◌};
    ghost use Rattle.vector_field.specs.Pairs.{IsFieldOf};
    ghost use Rattle.vector_field.specs.Maximal.{IsGood};
    ghost use Rattle.edge_words.specs.Words.{presentation_of};
    ghost use Rattle.part_groups.specs.Groups.{GroupPiece};

    ghost Value = { GroupPiece };

    ghost view = { λ s. record { piece = s.part; field = s.field; presentation = s.presentation } };

    ghost invariant = { λ s.
        IsFieldOf s.part.space s.field
        × IsGood s.part.space s.field.pairs
        × (s.presentation ≡ presentation_of s.part.space s.field.pairs) };
}

impl PartGroup {
    /// The part with its field and the presentation that the field gives.
    pub(crate) fn new(part: Part, field: PairList, presentation: Presentation) -> PartGroup
        requires field { IsFieldOf part.space field }
        requires good { IsGood part.space field.pairs }
        requires words { presentation ≡ presentation_of part.space field.pairs }
        ensures { result ≡ record { piece = part; field = field; presentation = presentation } }
    {
        PartGroup {
            part,
            field,
            presentation,
        }
    }

    /// The part.
    pub fn part(&self) -> &Part
        ensures { result.now ≡ self.now.piece }
    {
        &self.part
    }

    /// The field, which is one of the part as a space.
    pub fn field(&self) -> &PairList
        ensures same { result.now ≡ self.now.field }
        ensures field { IsFieldOf self.now.piece.space result.now }
        ensures good { IsGood self.now.piece.space result.now.pairs }
    {
        &self.field
    }

    /// The presentation, in the numbers of the part.
    pub fn presentation(&self) -> &Presentation
        ensures same { result.now ≡ self.now.presentation }
        ensures words { result.now ≡ presentation_of self.now.piece.space self.now.field.pairs }
    {
        &self.presentation
    }

    /// The part, its field and the presentation.
    pub fn into_parts(self) -> (Part, PairList, Presentation)
        ensures part { result.0 ≡ self.piece }
        ensures field { result.1 ≡ self.field }
        ensures presentation { result.2 ≡ self.presentation }
    {
        (self.part, self.field, self.presentation)
    }

    /// The generators and relators, in the numbers of the part, without the words of edges.
    pub fn relators_alone(self, alloc: Global) -> Presentation
        ensures { result ≡ alone self.presentation }
    {
        self.presentation.without_words(alloc)
    }
}
