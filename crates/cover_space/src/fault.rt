use std::alloc::AllocError;
use thiserror::Error;

/// Why there is no total space.
#[derive(Clone, Copy, PartialEq, Eq, Debug, Error)]
pub enum TotalFault {
    /// It has more than 60,000 cells.
    #[error("more than 60000 cells")]
    TooManyCells,
    /// Want of memory.
    #[error("want of memory")]
    Memory,
}

impl From<AllocError> for TotalFault {
    ghost use Rattle.std.specs.Prelude.{◌≡◌};
    ghost use Rattle.cover_space.specs.declared.fault.TotalFault.TheVariants.{Memory};

    ghost from_gives = { λ _ fault. fault ≡ Memory };

    fn from(_failed: AllocError) -> TotalFault {
        TotalFault::Memory
    }
}
