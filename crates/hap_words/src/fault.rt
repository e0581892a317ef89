// Why words are refused.
#[derive(Clone, Copy, Debug, PartialEq, Eq)]
pub enum WordsFault {
    /// The words ask for no command, or for one that is not built.
    Usage,
    /// Want of memory.
    Memory,
}
