use std::alloc::{AllocError, AllocFailed};
use thiserror::Error;

/// Why a space is not regular: the first rule that is broken, by dimension, then by cell, then in the
/// order of the variants. Cells are counted from 1.
#[derive(Clone, Copy, PartialEq, Eq, Debug, Error)]
pub enum RegularFault {
    /// The edge has not exactly two ends.
    #[error("edge ends, cell {0}")]
    EdgeEnds(u32),
    /// The edges of the 2-cell do not form one cycle that repeats no vertex.
    #[error("not a cycle, cell {0}")]
    NotCycle(u32),
    /// An edge of the 2-cells of the 3-cell does not lie in exactly two of them.
    #[error("edge not twice, cell {0}")]
    EdgeNotTwice(u32),
    /// The 2-cells of the 3-cell are not connected across edges.
    #[error("apart, cell {0}")]
    Apart(u32),
    /// The vertices less the edges plus the 2-cells in the boundary of the 3-cell are this number, not 2.
    #[error("not a sphere, cell {0}, value {1}")]
    NotSphere(u32, i64),
    /// Want of memory.
    #[error("want of memory")]
    Memory,
}

impl<T: Drop> From<AllocFailed<T>> for RegularFault {
    ghost use Rattle.std.specs.Prelude.{◌≡◌};
    ghost use Rattle.regular_check.specs.declared.fault.RegularFault.TheVariants.{Memory};

    ghost from_gives = { λ _ fault. fault ≡ Memory };

    fn from(_failed: AllocFailed<T>) -> RegularFault {
        RegularFault::Memory
    }
}

impl From<AllocError> for RegularFault {
    ghost use Rattle.std.specs.Prelude.{◌≡◌};
    ghost use Rattle.regular_check.specs.declared.fault.RegularFault.TheVariants.{Memory};

    ghost from_gives = { λ _ fault. fault ≡ Memory };

    fn from(_failed: AllocError) -> RegularFault {
        RegularFault::Memory
    }
}
