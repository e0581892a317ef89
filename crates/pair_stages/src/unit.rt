use small_field::Sparse;

/// A unit of the reduction: a cochain of a degree, and a chain of one degree more on which its coboundary is
/// not zero. Both are written by their entries that are not 0, at the numbers of cells.
#[derive(Drop)]
pub struct Unit {
    pub left: Sparse,
    pub right: Sparse,
}
