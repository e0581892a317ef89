// Sheets with new numbers, of which the first are settled.
ghost use Rattle.std.specs.Prelude.{◌≤◌, ◌<◌};
ghost use Rattle.least_tables.specs.Numberings.{CanGive, IsBegun, IsGiven};

/// The new number of each sheet, and the sheet of each new number; the two undo each other.
#[derive(Drop)]
pub(crate) struct Numbering {
    pub(crate) numbers: [u8; 8],
    pub(crate) sheets: [u8; 8],
}

impl Numbering {
    /// A numbering of so many sheets that begins with this one.
    pub(crate) fn begun_at(count: u8, first: u8) -> Numbering
        requires first { first < count }
        requires most { count ≤ 8 }
        ensures { IsBegun count first result.numbers result.sheets }
    {
        let mut numbers = [0, 1, 2, 3, 4, 5, 6, 7];
        numbers[0] = first;
        numbers[first as usize] = 0;
        let mut sheets = [0, 1, 2, 3, 4, 5, 6, 7];
        sheets[first as usize] = 0;
        sheets[0] = first;
        Numbering { numbers, sheets }
    }

    /// Gives the sheet the next number, if its own is not settled yet; and how many are settled then.
    pub(crate) fn give(&mut self, sheet: u8, known: u8) -> u8
        requires { CanGive sheet self.old.numbers self.old.sheets }
        ensures { IsGiven known sheet self.old.numbers self.old.sheets self.new.numbers self.new.sheets result }
    {
        let number = self.numbers[sheet as usize];
        if number < known {
            return known;
        }
        let other = self.sheets[known as usize];
        self.numbers[sheet as usize] = known;
        self.sheets[known as usize] = sheet;
        self.numbers[other as usize] = number;
        self.sheets[number as usize] = other;
        known + 1
    }
}
