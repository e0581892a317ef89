//! What a program meets outside itself: a source of bytes, and sinks of bytes.
//!
//! A [`Source`] and a [`Sink`] are known by what they mean: the bytes that they have and took, where
//! these are told, and a count of the calls that failed. A call answers a fault only where that count
//! rose. There are sources and sinks in memory, which tell their bytes, and those of the host, which
//! do not.
#![tactic(auto)]

mod bytes;
mod copying;
mod entries;
mod held;
mod host;
mod paper;
mod pieces;
mod sink;
mod source;
mod steady;

pub use bytes::Bytes;
pub use held::Held;
pub use host::{HostSink, HostSource};
pub use paper::{Paper, Tally};
pub use pieces::{Piece, write_pieces};
pub use sink::{Sink, write_all, write_number};
pub use source::{Failed, ReadAll, Source, read_all};
pub use steady::Steady;
