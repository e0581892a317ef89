use face_poset::Cell;
use std::alloc::{AllocError, AllocFailed};
use thiserror::Error;

/// Why words are not made.
#[derive(Clone, Copy, PartialEq, Eq, Debug, Error)]
pub enum WordFault {
    /// The first edge or 2-cell whose word is too long, or makes the words together too long.
    #[error("long word, dimension {} cell {}", .0.dim, .0.number)]
    TooLong(Cell),
    /// Want of memory.
    #[error("want of memory")]
    Memory,
}

impl<T: Drop> From<AllocFailed<T>> for WordFault {
    ghost use Rattle.std.specs.Prelude.{◌≡◌};
    ghost use Rattle.edge_words.specs.declared.fault.WordFault.TheVariants.{Memory};

    ghost from_gives = { λ _ fault. fault ≡ Memory };

    fn from(_failed: AllocFailed<T>) -> WordFault {
        WordFault::Memory
    }
}

impl From<AllocError> for WordFault {
    ghost use Rattle.std.specs.Prelude.{◌≡◌};
    ghost use Rattle.edge_words.specs.declared.fault.WordFault.TheVariants.{Memory};

    ghost from_gives = { λ _ fault. fault ≡ Memory };

    fn from(_failed: AllocError) -> WordFault {
        WordFault::Memory
    }
}
