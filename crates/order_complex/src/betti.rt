/// The Betti numbers of degrees 0 to 3.
#[derive(Clone, Copy, PartialEq, Eq, Debug)]
pub struct Betti {
    pub zero: u32,
    pub one: u32,
    pub two: u32,
    pub three: u32,
}
