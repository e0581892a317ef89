/// What a cell is in a split.
#[derive(Clone, Copy, PartialEq, Eq, Debug)]
pub enum Kind {
    /// It is in no pair.
    Critical,
    /// It is the lower of a pair.
    Lower,
    /// It is the upper of a pair.
    Upper,
}
