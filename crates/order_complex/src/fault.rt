// Why chains are refused.
use std::alloc::AllocError;
use thiserror::Error;

#[derive(Clone, Copy, Debug, PartialEq, Eq, Error)]
pub enum ChainFault {
    /// There are more chains than the limit; it carries their number.
    #[error("{0} chains")]
    TooManyChains(u64),
    /// Want of memory.
    #[error("want of memory")]
    Memory,
}

impl From<AllocError> for ChainFault {
    ghost use Rattle.std.specs.Prelude.{◌≡◌};
    ghost use Rattle.order_complex.specs.declared.fault.ChainFault.TheVariants.{Memory};

    ghost from_gives = { λ _ fault. fault ≡ Memory };

    fn from(_failed: AllocError) -> ChainFault {
        ChainFault::Memory
    }
}
