use cover_space::TotalFault;
use edge_words::WordFault;
use face_poset::Cell;
use sheet_tables::Spot;
use std::alloc::AllocError;

/// Why there is no such cover. Components and cells are numbered from 1.
#[derive(Drop)]
pub enum CoverFault {
    /// The space has only so many components.
    Components(u32),
    /// The word of this cell of the space, or the sum of the words up to it, has more letters than a word may have.
    Word(Cell),
    /// The budget of the search is spent at this spot, before the cover is found.
    Spent(Spot),
    /// There are only so many covers.
    Index(u32),
    /// The total space has more than 60,000 cells.
    TotalCells,
    /// Want of memory.
    Memory,
}

impl From<WordFault> for CoverFault {
    ghost use Rattle.std.specs.Prelude.{◌≡◌};
    ghost use Rattle.part_covers.specs.Faults.{word_fault};

    ghost from_gives = { λ fault cover_fault. cover_fault ≡ word_fault fault };

    fn from(fault: WordFault) -> CoverFault {
        match fault {
            WordFault::TooLong(cell) => CoverFault::Word(cell),
            WordFault::Memory => CoverFault::Memory,
        }
    }
}

impl From<TotalFault> for CoverFault {
    ghost use Rattle.std.specs.Prelude.{◌≡◌};
    ghost use Rattle.part_covers.specs.Faults.{total_fault};

    ghost from_gives = { λ fault cover_fault. cover_fault ≡ total_fault fault };

    fn from(fault: TotalFault) -> CoverFault {
        match fault {
            TotalFault::TooManyCells => CoverFault::TotalCells,
            TotalFault::Memory => CoverFault::Memory,
        }
    }
}

impl From<AllocError> for CoverFault {
    ghost use Rattle.std.specs.Prelude.{◌≡◌};
    ghost use Rattle.part_covers.specs.declared.fault.CoverFault.TheVariants.{Memory};

    ghost from_gives = { λ _ fault. fault ≡ Memory };

    fn from(_failed: AllocError) -> CoverFault {
        CoverFault::Memory
    }
}
