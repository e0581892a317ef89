// Where words lead through a table.
ghost use Rattle.std.specs.Prelude.{◌≡◌, ◌≤◌, ◌++◌, ◌∷◌, [], map, true, IfOk, OnOk};
ghost use Rattle.pair_laws.specs.Letters.{follow};
ghost use Rattle.sheet_laws.specs.Permutations.{InRange, at, back};
ghost use Rattle.sheet_laws.specs.Tables.{column, is_table};
ghost use Rattle.live_laws.specs.Walks.{AreLetters, generator, move};
ghost use Rattle.edge_words.specs.Labels.{label_of};
ghost use Rattle.edge_words.specs.Moves.{inverse_column, inverse_columns};

use number_lists::Lists;
use sheet_tables::Table;
use std::alloc::{AllocError, Global};
use std::marker::Model;

/// A table in each column of which is a permutation, with their inverses. Contracts see it as the table.
#[derive(Drop)]
pub(crate) struct Moves<'a> {
    table: &'a Table,
    inverses: Lists,
}

impl<'a> Model for Moves<'a> {
    ghost use Rattle.std.specs.Prelude.{◌≡◌, ◌≤◌, true};
    ghost use Rattle.sheet_tables.specs.Tables.{Rows};
    ghost use Rattle.sheet_laws.specs.Tables.{is_table};
    ghost use Rattle.edge_words.specs.Moves.{inverse_columns};

    ghost Value = { Rows };

    ghost view = { λ s. s.table.now };

    ghost invariant = { λ s.
        (s.table.now.sheets ≤ 8)
        × (is_table s.table.now.columns s.table.now.sheets s.table.now.cells ≡ true)
        × (s.inverses ≡ inverse_columns s.table.now.columns s.table.now.sheets s.table.now.cells) };
}

impl<'a> Moves<'a> {
    /// The table, with the inverses of its columns.
    pub(crate) fn new(alloc: Global, table: &'a Table) -> Result<Moves<'a>, AllocError>
        requires { is_table table.now.columns table.now.sheets table.now.cells ≡ true }
        ensures { IfOk result (λ moves. moves ≡ table.entry.now) }
    {
        let _sheets = table.sheets();
        let mut inverses = Lists::new(alloc);
        let mut inverse = Vec::new(alloc);
        for index in 0..table.columns() {
            list_inverse(table, index + 1, &mut inverse)?;
            inverses.push(&inverse)?;
        }
        Ok(Moves { table, inverses })
    }

    /// Makes `label` the list of the sheets where a word leads, from each sheet.
    pub(crate) fn list_label(&self, word: &[i32], label: &mut Vec<u32>) -> Result<(), AllocError>
        requires { AreLetters self.now.columns word.now }
        ensures { OnOk result
            (label.new.items ≡ label_of self.now.columns self.now.sheets self.now.cells word.now) }
    {
        label.clear();
        for index in 0..self.table.sheets() {
            label.push(u32::from(self.follow(word, index + 1)))?;
        }
        Ok(())
    }

    /// The sheet where a word leads from a sheet.
    fn follow(&self, word: &[i32], sheet: u8) -> u8
        requires word { AreLetters self.now.columns word.now }
        requires sheet { InRange self.now.sheets sheet }
        ensures { result ≡ follow (move self.now.columns self.now.sheets self.now.cells) word.now sheet }
    {
        let mut at = sheet;
        for letter in word {
            at = self.turn(*letter, at);
        }
        at
    }

    /// The sheet where a letter leads from a sheet.
    fn turn(&self, letter: i32, sheet: u8) -> u8
        requires letter { InRange self.now.columns (generator letter) }
        requires sheet { InRange self.now.sheets sheet }
        ensures sheet { result ≡ move self.now.columns self.now.sheets self.now.cells letter sheet }
        ensures range { InRange self.now.sheets result }
    {
        let generator = letter.unsigned_abs();
        if letter > 0 {
            return self.table.cell(sheet, generator);
        }
        let inverse = self.inverses.get(generator as usize - 1);
        inverse[sheet as usize - 1] as u8
    }
}

/// Makes `inverse` the inverse of the column of a generator, which is counted from 1.
fn list_inverse(table: &Table, generator: u32, inverse: &mut Vec<u32>) -> Result<(), AllocError>
    requires table { is_table table.now.columns table.now.sheets table.now.cells ≡ true }
    requires generator { InRange table.now.columns generator }
    ensures { OnOk result
        (inverse.new.items ≡ inverse_column table.now.columns table.now.sheets table.now.cells generator) }
{
    inverse.clear();
    for index in 0..table.sheets() {
        inverse.push(u32::from(row_of(table, generator, index + 1)))?;
    }
    Ok(())
}

/// The row of a sheet in the column of a generator, both counted from 1.
fn row_of(table: &Table, generator: u32, sheet: u8) -> u8
    requires table { is_table table.now.columns table.now.sheets table.now.cells ≡ true }
    requires generator { InRange table.now.columns generator }
    requires sheet { InRange table.now.sheets sheet }
    ensures { result ≡ back (column table.now.columns table.now.sheets table.now.cells generator) sheet }
{
    for index in 0..table.sheets() {
        if table.cell(index + 1, generator) == sheet {
            return index + 1;
        }
    }
    unreachable!()
}
