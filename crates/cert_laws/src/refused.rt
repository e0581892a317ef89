use thiserror::Error;

/// Why a certificate is not accepted: the first test that fails. L is the number of a line in the text,
/// counted from 1.
#[derive(Clone, Copy, PartialEq, Eq, Debug, Error)]
pub enum Refused {
    /// The space is not regular; or in version 1 with a cover part, it has not one component.
    #[error("refused: space")]
    Space,
    /// The coboundary of the left side is zero on the right side, or not zero on the right side of an
    /// earlier line of the degree.
    #[error("refused: rank at line {0}")]
    Rank(u32),
    /// The coboundary of the left side is not zero.
    #[error("refused: not a cocycle at line {0}")]
    NotCocycle(u32),
    /// The boundary of the right side is not zero.
    #[error("refused: not a cycle at line {0}")]
    NotCycle(u32),
    /// The left side is not 1 on its own right side, or not 0 on another of its degree.
    #[error("refused: pairing at line {0}")]
    Pairing(u32),
    /// The chains of the degree are not as many as the lines of rank of the degree and of one degree less
    /// and the classes.
    #[error("refused: count in degree {0}")]
    Count(u8),
    /// The product is not the combination of classes plus the coboundary of the bounding cochain.
    #[error("refused: product at line {0}")]
    Product(u32),
    /// At a pair: the lower is no facet of the upper, a cell stands in an earlier pair, or another facet of
    /// the upper is the lower of a pair that does not stand earlier. At the critical cells: a component has
    /// not exactly one critical vertex.
    #[error("refused: field at line {0}")]
    Field(u32),
    /// Some incident critical cells have no gradient path by another first facet.
    #[error("refused: not maximal at line {0}")]
    NotMaximal(u32),
    /// The table is no cover, not connected, or not least.
    #[error("refused: cover at line {0}")]
    Cover(u32),
    /// The table does not come after the one before.
    #[error("refused: cover order at line {0}")]
    CoverOrder(u32),
    /// Want of memory.
    #[error("want of memory")]
    Memory,
    /// The columns are not the critical edges of the component.
    #[error("refused: columns at line {0}")]
    Columns(u32),
}
