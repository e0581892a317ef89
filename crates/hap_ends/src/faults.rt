// Which fault ends a run in which way.
use crate::outcome::Outcome;
use crate::refusal::Refusal;
use array_values::ArrayFault;
use cover_search::SearchFault;
use edge_words::WordFault;
use face_poset::SpaceFault;
use facet_reader::FacetFault;
use gap_text::TextFault;
use order_complex::ChainFault;
use part_covers::CoverFault;
use regular_check::RegularFault;
use std::alloc::AllocError;

impl From<TextFault> for Outcome {
    ghost use Rattle.std.specs.Prelude.{◌≡◌};
    ghost use Rattle.hap_ends.specs.Outcomes.{text_outcome};

    ghost from_gives = { λ fault outcome. outcome ≡ text_outcome fault };

    fn from(fault: TextFault) -> Outcome {
        match fault {
            TextFault::Memory => Outcome::Memory,
            _ => Outcome::Refused(Refusal::Text(fault)),
        }
    }
}

impl From<SpaceFault> for Outcome {
    ghost use Rattle.std.specs.Prelude.{◌≡◌};
    ghost use Rattle.hap_ends.specs.Outcomes.{space_outcome};

    ghost from_gives = { λ fault outcome. outcome ≡ space_outcome fault };

    fn from(fault: SpaceFault) -> Outcome {
        match fault {
            SpaceFault::Memory => Outcome::Memory,
            _ => Outcome::Refused(Refusal::Space(fault)),
        }
    }
}

impl From<ArrayFault> for Outcome {
    ghost use Rattle.std.specs.Prelude.{◌≡◌};
    ghost use Rattle.hap_ends.specs.Outcomes.{array_outcome};

    ghost from_gives = { λ fault outcome. outcome ≡ array_outcome fault };

    fn from(fault: ArrayFault) -> Outcome {
        match fault {
            ArrayFault::Memory => Outcome::Memory,
            _ => Outcome::Refused(Refusal::Array(fault)),
        }
    }
}

impl From<FacetFault> for Outcome {
    ghost use Rattle.std.specs.Prelude.{◌≡◌};
    ghost use Rattle.hap_ends.specs.Outcomes.{facet_outcome};

    ghost from_gives = { λ fault outcome. outcome ≡ facet_outcome fault };

    fn from(fault: FacetFault) -> Outcome {
        match fault {
            FacetFault::Memory => Outcome::Memory,
            _ => Outcome::Refused(Refusal::Facet(fault)),
        }
    }
}

impl From<RegularFault> for Outcome {
    ghost use Rattle.std.specs.Prelude.{◌≡◌};
    ghost use Rattle.hap_ends.specs.Outcomes.{regular_outcome};

    ghost from_gives = { λ fault outcome. outcome ≡ regular_outcome fault };

    fn from(fault: RegularFault) -> Outcome {
        match fault {
            RegularFault::Memory => Outcome::Memory,
            _ => Outcome::Refused(Refusal::Irregular(fault)),
        }
    }
}

impl From<ChainFault> for Outcome {
    ghost use Rattle.std.specs.Prelude.{◌≡◌};
    ghost use Rattle.hap_ends.specs.Outcomes.{chain_outcome};

    ghost from_gives = { λ fault outcome. outcome ≡ chain_outcome fault };

    fn from(fault: ChainFault) -> Outcome {
        match fault {
            ChainFault::TooManyChains(count) => Outcome::Refused(Refusal::Chains(count)),
            ChainFault::Memory => Outcome::Memory,
        }
    }
}

impl From<WordFault> for Outcome {
    ghost use Rattle.std.specs.Prelude.{◌≡◌};
    ghost use Rattle.hap_ends.specs.Outcomes.{word_outcome};

    ghost from_gives = { λ fault outcome. outcome ≡ word_outcome fault };

    fn from(fault: WordFault) -> Outcome {
        match fault {
            WordFault::TooLong(cell) => Outcome::Refused(Refusal::Word(cell)),
            WordFault::Memory => Outcome::Memory,
        }
    }
}

impl From<SearchFault> for Outcome {
    ghost use Rattle.std.specs.Prelude.{◌≡◌};
    ghost use Rattle.hap_ends.specs.Outcomes.{search_outcome};

    ghost from_gives = { λ fault outcome. outcome ≡ search_outcome fault };

    fn from(fault: SearchFault) -> Outcome {
        match fault {
            SearchFault::BadPosition => Outcome::Refused(Refusal::Position),
            SearchFault::Memory => Outcome::Memory,
        }
    }
}

impl From<CoverFault> for Outcome {
    ghost use Rattle.std.specs.Prelude.{◌≡◌};
    ghost use Rattle.hap_ends.specs.Outcomes.{cover_outcome};

    ghost from_gives = { λ fault outcome. outcome ≡ cover_outcome fault };

    fn from(fault: CoverFault) -> Outcome {
        match fault {
            CoverFault::Components(count) => Outcome::Refused(Refusal::Components(count)),
            CoverFault::Word(cell) => Outcome::Refused(Refusal::Word(cell)),
            CoverFault::Spent(spot) => Outcome::Refused(Refusal::Spent(spot)),
            CoverFault::Index(count) => Outcome::Refused(Refusal::Index(count)),
            CoverFault::TotalCells => Outcome::Refused(Refusal::TotalCells),
            CoverFault::Memory => Outcome::Memory,
        }
    }
}

impl From<AllocError> for Outcome {
    ghost use Rattle.std.specs.Prelude.{◌≡◌};
    ghost use Rattle.hap_ends.specs.declared.outcome.Outcome.TheVariants.{Memory};

    ghost from_gives = { λ _ outcome. outcome ≡ Memory };

    fn from(_failed: AllocError) -> Outcome {
        Outcome::Memory
    }
}
