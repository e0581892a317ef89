/// Which cover is wanted: the component of the space that it covers, 1 to 60,000; the most sheets of the covers that
/// are listed, 1 to 8; its number among them, from 1; and how many live partial tables the search may place.
#[derive(Clone, Copy, Debug, PartialEq, Eq)]
pub struct Wanted {
    pub component: u32,
    pub sheets: u8,
    pub index: u32,
    pub budget: u64,
}
