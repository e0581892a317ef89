use std::alloc::{AllocError, AllocFailed};
use thiserror::Error;

/// Why a text has no value, with the byte where that shows, counted from 0.
///
/// Tokens are read from the front, and the first that cannot stand where it is decides: the place is
/// that of its first byte. A byte that begins no token and a number that is too big come before what
/// else the token may be.
#[derive(Clone, Copy, Debug, PartialEq, Eq, Error)]
pub enum TextFault {
    /// A byte begins no token, or a `.` has no second one after it.
    #[error("bad byte at byte {0}")]
    BadByte(u32),
    /// The input ends where no text can end. The place is the length of the input.
    #[error("input ends at byte {0}")]
    Unclosed(u32),
    /// Any other token that is not allowed.
    #[error("stray token at byte {0}")]
    Stray(u32),
    /// A `..` where the innermost open list is a number, a comma and a number so far.
    #[error("stepped range at byte {0}")]
    Stepped(u32),
    /// Any other `..` that is not allowed; a token that is no number after the `..` of a range; a
    /// token that is no `]` after its second number; or that number, where it brings the count of
    /// numbers that the ranges of the text made above 1,000,000.
    #[error("bad range at byte {0}")]
    BadRange(u32),
    /// A number above 4,294,967,295.
    #[error("number too big at byte {0}")]
    NumberTooBig(u32),
    /// A `[` that would be allowed opens a ninth level.
    #[error("too deep at byte {0}")]
    TooDeep(u32),
    /// There is not enough memory. This says nothing of the text.
    #[error("want of memory")]
    Memory,
}

impl<T: Drop> From<AllocFailed<T>> for TextFault {
    ghost use Rattle.std.specs.Prelude.{◌≡◌};
    ghost use Rattle.gap_text.specs.declared.fault.TextFault.TheVariants.{Memory};

    ghost from_gives = { λ _ e. e ≡ Memory };

    fn from(_failed: AllocFailed<T>) -> TextFault {
        TextFault::Memory
    }
}

impl From<AllocError> for TextFault {
    ghost use Rattle.std.specs.Prelude.{◌≡◌};
    ghost use Rattle.gap_text.specs.declared.fault.TextFault.TheVariants.{Memory};

    ghost from_gives = { λ _ e. e ≡ Memory };

    fn from(_failed: AllocError) -> TextFault {
        TextFault::Memory
    }
}
