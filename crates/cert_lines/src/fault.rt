use std::alloc::{AllocError, AllocFailed};
use thiserror::Error;

/// Why a text is no certificate. Lines are counted from 1.
#[derive(Clone, Copy, PartialEq, Eq, Debug, Error)]
pub enum CertFault {
    /// The line has no line feed, or the form of no line.
    #[error("bad line {0}")]
    BadLine(u32),
    /// The line has a form, but not one that may stand here.
    #[error("wrong order at line {0}")]
    WrongOrder(u32),
    /// A number of the line is outside the range that the lines before give it.
    #[error("out of range at line {0}")]
    OutOfRange(u32),
    /// The lines are over before `end`.
    #[error("ends")]
    Ends,
    /// The version is neither 1 nor 2.
    #[error("bad version")]
    BadVersion,
    /// Want of memory.
    #[error("want of memory")]
    Memory,
}

impl<T: Drop> From<AllocFailed<T>> for CertFault {
    ghost use Rattle.std.specs.Prelude.{◌≡◌};
    ghost use Rattle.cert_lines.specs.declared.fault.CertFault.TheVariants.{Memory};

    ghost from_gives = { λ _ fault. fault ≡ Memory };

    fn from(_failed: AllocFailed<T>) -> CertFault {
        CertFault::Memory
    }
}

impl From<AllocError> for CertFault {
    ghost use Rattle.std.specs.Prelude.{◌≡◌};
    ghost use Rattle.cert_lines.specs.declared.fault.CertFault.TheVariants.{Memory};

    ghost from_gives = { λ _ fault. fault ≡ Memory };

    fn from(_failed: AllocError) -> CertFault {
        CertFault::Memory
    }
}
