use certificates::Kind;

/// Which line it is.
#[derive(Clone, Copy, PartialEq, Eq)]
pub enum LineKind {
    /// A line of numbers and sparse lists.
    Plain(Kind),
    Sheets,
    Cover,
    Spent,
}
