ghost use Rattle.std.specs.Prelude.{◌≡◌, ◌≤◌, length, All};
ghost use Rattle.sheet_laws.specs.Permutations.{at};
ghost use Rattle.sheet_laws.specs.Labellings.{label};
ghost use Rattle.edge_words.specs.Labels.{IsLabel};

use number_lists::Lists;
use std::marker::Model;

/// A permutation of the sheets for each edge. Contracts see how many sheets there are, and the lists of
/// the sheets that are reached.
#[derive(Drop)]
pub struct Labels {
    sheets: u8,
    labels: Lists,
}

impl Model for Labels {
    ghost use Rattle.std.specs.Prelude.{◌≤◌, All};
    ghost use Rattle.edge_words.specs.Labels.{IsLabel, Labelled};

    ghost Value = { Labelled };

    ghost view = { λ s. record { sheets = s.sheets; labels = s.labels } };

    ghost invariant = { λ s. (1 ≤ s.sheets) × (s.sheets ≤ 8) × All (IsLabel s.sheets) s.labels };
}

impl Labels {
    /// These labels of so many sheets.
    pub(crate) fn new(sheets: u8, labels: Lists) -> Labels
        requires some { 1 ≤ sheets }
        requires most { sheets ≤ 8 }
        requires labels { All (IsLabel sheets) labels }
        ensures { result ≡ record { sheets = sheets; labels = labels } }
    {
        Labels { sheets, labels }
    }

    /// The number of sheets, 1 to 8.
    pub fn sheets(&self) -> u8
        ensures sheets { result ≡ self.now.sheets }
        ensures some { 1 ≤ result }
        ensures most { result ≤ 8 }
    {
        self.sheets
    }

    /// The sheet that is reached from a sheet along an edge, both counted from 1.
    pub fn of(&self, edge: u32, sheet: u8) -> u8
        requires first_edge { 1 ≤ edge }
        requires last_edge { edge ≤ length self.now.labels }
        requires first_sheet { 1 ≤ sheet }
        requires last_sheet { sheet ≤ self.now.sheets }
        ensures sheet { result ≡ at (label self.now.labels edge) sheet }
        ensures first { 1 ≤ result }
        ensures last { result ≤ self.now.sheets }
    {
        self.labels.get(edge as usize - 1)[sheet as usize - 1] as u8
    }
}
