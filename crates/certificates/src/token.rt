/// What a word behind the first of a line says.
#[derive(Clone, Copy, PartialEq, Eq)]
pub enum Token {
    /// A number of at most ten digits, where it is read.
    Number(u64),
    /// A position and a value, `POSITION:VALUE`.
    Entry(u64, u64),
    /// `-`, the empty list.
    Dash,
    /// `|`, between two lists.
    Bar,
}
