use std::alloc::{AllocError, AllocFailed};
use thiserror::Error;

/// Why a nested list is no array or no arc presentation from which a space is built.
#[derive(Clone, Copy, PartialEq, Eq, Debug, Error)]
pub enum ArrayFault {
    /// The value at this byte, counted from 0, is an empty list on the way by first items, a number
    /// above the lowest level, a list at the lowest level, or a list of another length than the first
    /// of its level.
    #[error("ragged at byte {0}")]
    Ragged(u32),
    /// The number at this byte, counted from 0, is not 0 or 1.
    #[error("not a bit at byte {0}")]
    NotBit(u32),
    /// The value is a number, or a list of a depth that is not allowed.
    #[error("bad dimension")]
    BadDimension,
    /// No bit is 1, or there is no row.
    #[error("empty")]
    Empty,
    /// The row, counted from 1, is no list of two different columns.
    #[error("bad pair in row {0}")]
    BadPair(u32),
    /// The column, counted from 1, is not in exactly two rows.
    #[error("column {0}")]
    ColumnCount(u32),
    /// The space would have more than 60,000 cells.
    #[error("more than 60000 cells")]
    TooManyCells,
    /// Want of memory. This says nothing of the value.
    #[error("want of memory")]
    Memory,
}

impl<T: Drop> From<AllocFailed<T>> for ArrayFault {
    ghost use Rattle.std.specs.Prelude.{◌≡◌};
    ghost use Rattle.array_values.specs.declared.fault.ArrayFault.TheVariants.{Memory};

    ghost from_gives = { λ _ fault. fault ≡ Memory };

    fn from(_failed: AllocFailed<T>) -> ArrayFault {
        ArrayFault::Memory
    }
}

impl From<AllocError> for ArrayFault {
    ghost use Rattle.std.specs.Prelude.{◌≡◌};
    ghost use Rattle.array_values.specs.declared.fault.ArrayFault.TheVariants.{Memory};

    ghost from_gives = { λ _ fault. fault ≡ Memory };

    fn from(_failed: AllocError) -> ArrayFault {
        ArrayFault::Memory
    }
}
