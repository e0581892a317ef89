use std::alloc::{AllocError, AllocFailed};
use thiserror::Error;

/// Why a list of pairs is no field.
#[derive(Clone, Copy, PartialEq, Eq, Debug, Error)]
pub enum PairFault {
    /// The first index, counted from 0, whose pair is out of range, not incident, uses a cell again, or
    /// has an other facet of its upper that is the lower of a later pair of the same dimension.
    #[error("bad pair, index {0}")]
    Bad(u32),
    /// Want of memory.
    #[error("want of memory")]
    Memory,
}

impl<T: Drop> From<AllocFailed<T>> for PairFault {
    ghost use Rattle.std.specs.Prelude.{◌≡◌};
    ghost use Rattle.vector_field.specs.declared.fault.PairFault.TheVariants.{Memory};

    ghost from_gives = { λ _ fault. fault ≡ Memory };

    fn from(_failed: AllocFailed<T>) -> PairFault {
        PairFault::Memory
    }
}

impl From<AllocError> for PairFault {
    ghost use Rattle.std.specs.Prelude.{◌≡◌};
    ghost use Rattle.vector_field.specs.declared.fault.PairFault.TheVariants.{Memory};

    ghost from_gives = { λ _ fault. fault ≡ Memory };

    fn from(_failed: AllocError) -> PairFault {
        PairFault::Memory
    }
}
