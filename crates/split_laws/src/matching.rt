/// A pair of a cell of one degree with a cell of the next, by their places, which count from 0.
#[derive(Clone, Copy, PartialEq, Eq, Debug)]
pub struct Match {
    pub lower: u32,
    pub upper: u32,
}
