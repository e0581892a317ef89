use std::alloc::{AllocError, AllocFailed};
use thiserror::Error;

/// Why a nested list is no list of simplices, or no partial order, from which a space is built.
#[derive(Clone, Copy, PartialEq, Eq, Debug, Error)]
pub enum FacetFault {
    /// The value at this byte, counted from 0, is a number in place of a list or the reverse, an empty
    /// list of labels, or a list that has not two items where two are asked.
    #[error("shape at byte {0}")]
    Shape(u32),
    /// There is no list of labels, or there are no numbers.
    #[error("empty")]
    Empty,
    /// The number at this byte, counted from 0, is no label, or no number of the order that may stand
    /// there.
    #[error("bad label at byte {0}")]
    BadLabel(u32),
    /// The number at this byte, counted from 0, stands earlier in its list.
    #[error("repeated label at byte {0}")]
    Repeated(u32),
    /// The space would have more than 60,000 cells.
    #[error("more than 60000 cells")]
    TooManyCells,
    /// Want of memory. This says nothing of the value.
    #[error("want of memory")]
    Memory,
}

impl<T: Drop> From<AllocFailed<T>> for FacetFault {
    ghost use Rattle.std.specs.Prelude.{◌≡◌};
    ghost use Rattle.facet_reader.specs.declared.fault.FacetFault.TheVariants.{Memory};

    ghost from_gives = { λ _ fault. fault ≡ Memory };

    fn from(_failed: AllocFailed<T>) -> FacetFault {
        FacetFault::Memory
    }
}

impl From<AllocError> for FacetFault {
    ghost use Rattle.std.specs.Prelude.{◌≡◌};
    ghost use Rattle.facet_reader.specs.declared.fault.FacetFault.TheVariants.{Memory};

    ghost from_gives = { λ _ fault. fault ≡ Memory };

    fn from(_failed: AllocError) -> FacetFault {
        FacetFault::Memory
    }
}
