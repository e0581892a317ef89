ghost use Rattle.std.specs.Prelude.{◌≡◌, ◌≤◌, IfOk, MatchResult, None};
ghost use Rattle.regular_check.specs.Components.{component_count};
ghost use Rattle.edge_words.specs.Limits.{IsFault};
ghost use Rattle.edge_words.specs.Words.{presentation_of};
ghost use Rattle.chosen_field.specs.Chosen.{chosen};
ghost use Rattle.part_groups.specs.Groups.{field_in, group_by, long_in};
ghost use Rattle.part_covers.specs.Covered.{IsWanted, IsGiven, IsNumbered, covering_in, covering_on};
ghost use Rattle.part_covers.specs.Covered.{covering_there};

use crate::fault::CoverFault;
use crate::finding::find_table;
use crate::laws::numbered_are_covers;
use crate::totals::{labels_on, total_on};
use crate::wanted::Wanted;
use chosen_field::chosen_is_good;
use cover_laws::listed_are_covers;
use edge_words::{Presentation, WordFault};
use face_poset::{Graded, Space};
use part_groups::{PartGroup, field_of_part};
use regular_check::Regular;
use sheet_tables::Table;
use space_parts::{Part, Parts, parts_of};
use std::alloc::Global;
use std::marker::Model;
use std::mem::drop;

/// A cover of a part of a space: its table of sheets, and its total space.
#[derive(Drop)]
pub struct Cover {
    table: Table,
    total: Space,
}

impl Model for Cover {
    ghost use Rattle.part_covers.specs.Covered.{Covering};

    ghost Value = { Covering };

    ghost view = { λ s.
        record
        { columns = s.table.columns; sheets = s.table.sheets; cells = s.table.cells; total = s.total } };
}

impl Cover {
    /// The table of sheets.
    pub fn table(&self) -> &Table
        ensures sheets { result.now.sheets ≡ self.now.sheets }
        ensures columns { result.now.columns ≡ self.now.columns }
        ensures cells { result.now.cells ≡ self.now.cells }
    {
        &self.table
    }

    /// The total space.
    pub fn total(&self) -> &Space
        ensures { result.now ≡ self.now.total }
    {
        &self.total
    }

    /// The total space, where the table is not wanted any more.
    pub fn into_total(self) -> Space
        ensures { result ≡ self.total }
    {
        self.total
    }
}

/// The cover that is wanted of a regular space. In this order: `Components` comes exactly where there is no such
/// component; `Word` where a word of its part is too long, with the cell as one of the whole space; `Spent` where the
/// budget is spent before the cover is found; `Index` where there are fewer covers; `TotalCells` where its total space
/// has more than 60,000 cells.
pub fn numbered_cover(
    alloc: Global,
    regular: &Regular<'_>,
    wanted: Wanted,
) -> Result<Cover, CoverFault>
    requires { IsWanted wanted }
    ensures cover { IsGiven (covering_in regular.now wanted) result }
    ensures numbered { IfOk result (IsNumbered regular.now wanted) }
{
    numbered_are_covers();
    let _vertices = regular.space().cells(0);
    let parts = parts_of(alloc, regular)?;
    if wanted.component > parts.count() {
        return Err(CoverFault::Components(parts.count()));
    }
    cover_in(alloc, &parts, wanted)
}

/// The cover that is wanted, where there is such a component.
fn cover_in(alloc: Global, parts: &Parts<'_>, wanted: Wanted) -> Result<Cover, CoverFault>
    requires wanted { IsWanted wanted }
    requires last { wanted.component ≤ component_count parts.now }
    ensures { IsGiven (covering_there parts.now wanted) result }
{
    let group = group_in(alloc, parts, wanted.component)?;
    let (part, field, presentation) = group.into_parts();
    drop(field);
    cover_on(alloc, &part, &presentation, wanted)
}

/// The part of a component with the presentation along its chosen field.
fn group_in(alloc: Global, parts: &Parts<'_>, component: u32) -> Result<PartGroup, WordFault>
    requires first { 1 ≤ component }
    requires last { component ≤ component_count parts.now }
    ensures group { IfOk result (λ group. group ≡ group_by (field_in parts.now component)) }
    ensures limits { MatchResult result
        (λ _. long_in parts.now component ≡ None)
        (IsFault (long_in parts.now component)) }
{
    let field = field_of_part(alloc, parts, component)?;
    field.present(alloc)
}

/// The cover that is wanted of a part, by its presentation along the chosen field.
fn cover_on(
    alloc: Global,
    part: &Part,
    presentation: &Presentation,
    wanted: Wanted,
) -> Result<Cover, CoverFault>
    requires wanted { IsWanted wanted }
    requires presentation { presentation.now ≡ presentation_of part.now.space (chosen part.now.space) }
    ensures { IsGiven (covering_on part.now.space wanted) result }
{
    listed_are_covers();
    chosen_is_good();
    let _space = part.space();
    let table = find_table(alloc, presentation, wanted)?;
    let labels = labels_on(alloc, part, presentation, &table)?;
    let total = total_on(alloc, part, &labels)?;
    Ok(Cover { table, total })
}
