ghost use Rattle.std.specs.Prelude.{◌≡◌};
ghost use Rattle.certificates.specs.Parts.{kind_text};

/// What kind a line of numbers and sparse lists is, by its first word.
#[derive(Clone, Copy, PartialEq, Eq)]
pub enum Kind {
    Version,
    Modulus,
    Cells,
    Face,
    Chains,
    Rank,
    /// `r`, a line of rank.
    RankLine,
    Classes,
    /// `z`, a class with its dual cycle.
    ClassLine,
    Products,
    /// `p`, a product of two classes.
    ProductLine,
    Pairs,
    PairLine,
    Critical,
    /// In version 2 alone, as `Columns` and `Covers`.
    Components,
    Columns,
    Covers,
    Done,
    End,
}

impl Kind {
    /// The word that a line of this kind begins with.
    pub fn word(self) -> &'static str
        ensures { result.now ≡ kind_text self }
    {
        match self {
            Kind::Version => "hap-certificate",
            Kind::Modulus => "modulus",
            Kind::Cells => "cells",
            Kind::Face => "face",
            Kind::Chains => "chains",
            Kind::Rank => "rank",
            Kind::RankLine => "r",
            Kind::Classes => "classes",
            Kind::ClassLine => "z",
            Kind::Products => "products",
            Kind::ProductLine => "p",
            Kind::Pairs => "pairs",
            Kind::PairLine => "pair",
            Kind::Critical => "critical",
            Kind::Components => "components",
            Kind::Columns => "columns",
            Kind::Covers => "covers",
            Kind::Done => "done",
            Kind::End => "end",
        }
    }
}
