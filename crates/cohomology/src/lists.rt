// The lines of all degrees.
ghost use Rattle.std.specs.Prelude.{◌≡◌, ◌≤◌};
ghost use Rattle.chain_laws.specs.AllLines.{lines_of};
ghost use Rattle.cohomology.specs.Bases.{class_lists, rank_lists};

use crate::line::Line;

/// The lines of a certificate of homology, those of ranks and those of classes.
#[derive(Drop)]
pub struct Lines {
    pub ranks: RankLines,
    pub classes: ClassLines,
}

/// The rank lines of the degrees 0, 1 and 2; degree 3 has none. A rank line has a cochain of its degree on its left side
/// and a chain of one degree more on its right side.
#[derive(Drop)]
pub struct RankLines {
    pub zero: Vec<Line>,
    pub one: Vec<Line>,
    pub two: Vec<Line>,
}

/// The class lines of the degrees 0 to 3, each with a cocycle on its left side and its dual cycle on the right.
#[derive(Drop)]
pub struct ClassLines {
    pub zero: Vec<Line>,
    pub one: Vec<Line>,
    pub two: Vec<Line>,
    pub three: Vec<Line>,
}

impl ClassLines {
    /// The class lines of a degree.
    pub(crate) fn of(&self, degree: u8) -> &[Line]
        requires { degree ≤ 3 }
        ensures { result.now ≡ lines_of (class_lists self.now) degree }
    {
        match degree {
            0 => &self.zero,
            1 => &self.one,
            2 => &self.two,
            _ => &self.three,
        }
    }
}

impl RankLines {
    /// The rank lines of a degree.
    pub(crate) fn of(&self, degree: u8) -> &[Line]
        requires { degree ≤ 2 }
        ensures { result.now ≡ lines_of (rank_lists self.now) degree }
    {
        match degree {
            0 => &self.zero,
            1 => &self.one,
            _ => &self.two,
        }
    }
}
