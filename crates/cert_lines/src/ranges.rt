ghost use Rattle.std.specs.Prelude.{◌≡◌, ◌*◌, ◌&&◌};
ghost use Rattle.std.specs.List.{list_all};
ghost use Rattle.certificates.specs.Cert.{spot_of};
ghost use Rattle.certificates.specs.WellFormed as well;

use certificates::Numbers;
use sheet_tables::{Position, Spot};

/// Whether a spot is the start, or in one of the components and within a table of at most so many sheets.
pub fn spot_fits(columns: &Numbers, most: u8, spot: &Spot) -> bool
    ensures { result ≡ well.spot_fits columns.now most (spot_of spot.now) }
{
    if spot.is_start() {
        return true;
    }
    let component = spot.component();
    component <= columns.len()
        && position_fits(columns_at(columns, component), most, spot.position())
}

/// The number of columns of a component, components counted from 1; 0 past the last.
pub fn columns_at(columns: &Numbers, component: u32) -> u32
    ensures { result ≡ well.columns_of columns.now component }
{
    let index = component.saturating_sub(1);
    if index < columns.len() {
        columns.get(index)
    } else {
        0
    }
}

fn position_fits(columns: u32, most: u8, position: &Position) -> bool
    ensures { result ≡ well.position_fits columns most position.now.sheets position.now.cells }
{
    let sheets = position.sheets();
    let cells = position.cells();
    is_count(1, u64::from(most), u64::from(sheets))
        && is_count(
            1,
            u64::from(sheets) * u64::from(columns),
            cells.len() as u64,
        )
        && are_sheets(cells, sheets)
}

fn is_count(least: u64, most: u64, number: u64) -> bool
    ensures { result ≡ well.is_between least most number }
{
    least <= number && number <= most
}

fn are_sheets(cells: &[u8], sheets: u8) -> bool
    ensures { result ≡ list_all (well.is_between 1 sheets) cells.now }
{
    cells.iter().all(|cell| is_sheet(*cell, sheets))
}

fn is_sheet(cell: u8, sheets: u8) -> bool
    ensures { result ≡ well.is_between 1 sheets cell }
{
    1 <= cell && cell <= sheets
}
