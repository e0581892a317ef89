use crate::cells::Cell;
use std::alloc::{AllocError, AllocFailed};
use thiserror::Error;

/// Why a nested list is no boundary list of a space.
#[derive(Clone, Copy, PartialEq, Eq, Debug, Error)]
pub enum SpaceFault {
    /// The value at this byte, counted from 0, is a number where a list must be, or a list where a
    /// number must be, or a cell without a number.
    #[error("wrong shape at byte {0}")]
    Shape(u32),
    /// There is no cell.
    #[error("empty")]
    Empty,
    /// There are more than four layers.
    #[error("dimension over 3")]
    TooHigh,
    /// The first number of the cell is not the number of its facets, or it is a vertex other than
    /// `[1,0]`.
    #[error("bad count in {0:?}")]
    BadCount(Cell),
    /// A facet of the cell is 0, or above the number of cells one dimension below.
    #[error("face out of range in {0:?}")]
    FaceOutOfRange(Cell),
    /// The cell has a facet twice.
    #[error("repeated face in {0:?}")]
    RepeatedFace(Cell),
    /// There are more than 60,000 cells.
    #[error("more than 60000 cells")]
    TooManyCells,
    /// Want of memory.
    #[error("want of memory")]
    Memory,
}

impl<T: Drop> From<AllocFailed<T>> for SpaceFault {
    ghost use Rattle.std.specs.Prelude.{◌≡◌};
    ghost use Rattle.face_poset.specs.declared.fault.SpaceFault.TheVariants.{Memory};

    ghost from_gives = { λ _ fault. fault ≡ Memory };

    fn from(_failed: AllocFailed<T>) -> SpaceFault {
        SpaceFault::Memory
    }
}

impl From<AllocError> for SpaceFault {
    ghost use Rattle.std.specs.Prelude.{◌≡◌};
    ghost use Rattle.face_poset.specs.declared.fault.SpaceFault.TheVariants.{Memory};

    ghost from_gives = { λ _ fault. fault ≡ Memory };

    fn from(_failed: AllocError) -> SpaceFault {
        SpaceFault::Memory
    }
}
