/// How a cell stands in a field.
#[derive(Clone, Copy, PartialEq, Eq, Debug)]
pub enum Partner {
    /// The cell is in no pair.
    Critical,
    /// The cell is the lower of a pair with this upper.
    Upper(u32),
    /// The cell is the upper of a pair with this lower.
    Lower(u32),
}
