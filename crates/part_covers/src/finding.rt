ghost use Rattle.std.specs.Prelude.{◌≡◌, ◌≤◌, [], IfOk};
ghost use Rattle.edge_words.specs.Words.{relations_of};
ghost use Rattle.sheet_tables.specs.Tables.{IsTable};
ghost use Rattle.cover_search.specs.Searches.{begun};
ghost use Rattle.part_covers.specs.Covered.{IsWanted, IsFound};

use crate::fault::CoverFault;
use crate::wanted::Wanted;
use cover_listing::{Nth, nth_cover};
use cover_search::{Search, SearchFault};
use edge_words::Presentation;
use sheet_tables::{Position, Spot, Table};
use std::alloc::{AllocError, Global};

/// The table of the cover that is wanted of a presentation.
pub(crate) fn find_table(
    alloc: Global,
    presentation: &Presentation,
    wanted: Wanted,
) -> Result<Table, CoverFault>
    requires { IsWanted wanted }
    ensures { IsFound (relations_of presentation.now) wanted result }
{
    let mut search = begin(alloc, presentation, wanted.sheets)?;
    match nth_cover(&mut search, wanted.index, wanted.budget) {
        Nth::Found => Ok(copy_of(alloc, search.table())?),
        Nth::Only(count) => Err(CoverFault::Index(count)),
        Nth::Spent => Err(CoverFault::Spent(spot_of(wanted.component, search.into_position()))),
    }
}

/// A search that begins at the start, where it is never refused.
fn begin<'a>(
    alloc: Global,
    presentation: &'a Presentation,
    sheets: u8,
) -> Result<Search<'a>, AllocError>
    requires least { 1 ≤ sheets }
    requires most { sheets ≤ 8 }
    ensures { IfOk result (λ search. search ≡ begun (relations_of presentation.entry.now) sheets (0, [])) }
{
    match Search::new(alloc, presentation, sheets, &Position::start(alloc)) {
        Ok(search) => Ok(search),
        Err(SearchFault::Memory) => Err(AllocError),
        Err(SearchFault::BadPosition) => unreachable!(),
    }
}

/// The spot of a position that is not the start.
fn spot_of(component: u32, position: Position) -> Spot
    requires first { 1 ≤ component }
    requires last { component ≤ 60000 }
    requires placed { 1 ≤ position.sheets }
    ensures { result
        ≡ record { component = component; sheets = position.sheets; cells = position.cells; room = position.room } }
{
    let _sheets = position.sheets();
    Spot::new(component, position)
}

/// The same table once more.
fn copy_of(alloc: Global, table: &Table) -> Result<Table, AllocError>
    ensures same { IfOk result (λ copy. copy ≡ record table.now { room = table.now.sheets }) }
    ensures table { IfOk result (λ copy. IsTable copy.sheets copy.columns copy.cells) }
{
    Table::from_cells(alloc, table.sheets(), table.columns(), table.cells())
}
