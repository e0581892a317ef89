// Spots, tables, and the lines that have them.
ghost use Rattle.std.specs.Prelude.{◌≡◌, ◌≤◌, ◌*◌, ◌++◌, ◌∷◌, [], ℕ, length, decimal, codes, slice_index_or};
ghost use Rattle.hap_outside.specs.Causes.{HasCause};
ghost use Rattle.hap_outside.specs.Gathers.{Gathers};
ghost use Rattle.sheet_tables.specs.Positions.{IsProper, position_text};
ghost use Rattle.certificates.specs.Placed.{row_text, table_text, rows_text, spot_or_start_text, Sheets};
ghost use Rattle.certificates.specs.Forms.{placed};
ghost use Rattle.certificates.specs.Cert.{spot_of, rows_of, cut_rows};
ghost use Rattle.certificates.specs.Texts.{line_bytes, cover_text};
ghost use Rattle.certificates.specs.Written.{behind_text, component_text};

use crate::put::put_text;
use hap_outside::{Failed, Held, Piece, Sink};
use sheet_tables::{Spot, Table};

/// Puts the line `sheets`: the most sheets, and from where the covers are listed.
pub(crate) fn put_sheets<K: Sink>(
    sink: &mut K,
    held: &mut Held,
    sheets: u8,
    from: &Spot,
) -> Result<(), Failed>
    ensures bytes { Gathers (K.written sink.old) (K.written sink.new) held.old held.new
        (line_bytes (placed (Sheets sheets (spot_of from.now)))) result }
    ensures cause { HasCause (K.faults sink.old) (K.faults sink.new) result }
{
    put_most(sink, held, sheets)?;
    put_spot(sink, held, from)?;
    put_text(sink, held, b"\n")
}

/// Puts the line of a cover behind what a buffer holds back. It takes no memory.
pub fn put_cover<K: Sink>(sink: &mut K, held: &mut Held, table: &Table) -> Result<(), Failed>
    ensures bytes { let text = cover_text table.now.sheets table.now.columns table.now.cells in
        Gathers (K.written sink.old) (K.written sink.new) held.old held.new text result }
    ensures cause { HasCause (K.faults sink.old) (K.faults sink.new) result }
{
    put_cover_head(sink, held, table)?;
    put_table(sink, held, table)?;
    put_text(sink, held, b"\n")
}

/// Puts the text of a spot, `-` for the start, behind what a buffer holds back. It takes no memory.
pub fn put_spot<K: Sink>(sink: &mut K, held: &mut Held, spot: &Spot) -> Result<(), Failed>
    ensures bytes { Gathers (K.written sink.old) (K.written sink.new) held.old held.new
        (spot_or_start_text (spot_of spot.now)) result }
    ensures cause { HasCause (K.faults sink.old) (K.faults sink.new) result }
{
    if spot.is_start() {
        return put_text(sink, held, b"-");
    }
    put_component(sink, held, spot.component())?;
    put_position(sink, held, spot)
}

fn put_most<K: Sink>(sink: &mut K, held: &mut Held, sheets: u8) -> Result<(), Failed>
    ensures bytes { Gathers (K.written sink.old) (K.written sink.new) held.old held.new
        (codes "sheets " ++ (decimal sheets ++ codes " from ")) result }
    ensures cause { HasCause (K.faults sink.old) (K.faults sink.new) result }
{
    let most = Piece::Count(u64::from(sheets));
    held.put(
        sink,
        &[Piece::Text(b"sheets "), most, Piece::Text(b" from ")],
    )
}

fn put_cover_head<K: Sink>(sink: &mut K, held: &mut Held, table: &Table) -> Result<(), Failed>
    ensures bytes { Gathers (K.written sink.old) (K.written sink.new) held.old held.new
        (codes "cover " ++ (decimal table.now.sheets ++ codes " ")) result }
    ensures cause { HasCause (K.faults sink.old) (K.faults sink.new) result }
{
    let count = Piece::Count(u64::from(table.sheets()));
    held.put(sink, &[Piece::Text(b"cover "), count, Piece::Text(b" ")])
}

/// Puts a component and a slash, nothing for component 1.
fn put_component<K: Sink>(sink: &mut K, held: &mut Held, component: u32) -> Result<(), Failed>
    ensures bytes { Gathers (K.written sink.old) (K.written sink.new) held.old held.new
        (component_text component) result }
    ensures cause { HasCause (K.faults sink.old) (K.faults sink.new) result }
{
    if component == 1 {
        return Ok(());
    }
    let number = Piece::Count(u64::from(component));
    held.put(sink, &[number, Piece::Text(b"/")])
}

/// Puts the position of a spot that is not the start.
fn put_position<K: Sink>(sink: &mut K, held: &mut Held, spot: &Spot) -> Result<(), Failed>
    requires { IsProper spot.now.sheets spot.now.cells }
    ensures bytes { Gathers (K.written sink.old) (K.written sink.new) held.old held.new
        (position_text spot.now.sheets spot.now.cells) result }
    ensures cause { HasCause (K.faults sink.old) (K.faults sink.new) result }
{
    put_position_head(sink, held, spot)?;
    put_position_cells(sink, held, spot)
}

fn put_position_head<K: Sink>(sink: &mut K, held: &mut Held, spot: &Spot) -> Result<(), Failed>
    ensures bytes { Gathers (K.written sink.old) (K.written sink.new) held.old held.new
        (decimal spot.now.sheets ++ 58 ∷ []) result }
    ensures cause { HasCause (K.faults sink.old) (K.faults sink.new) result }
{
    let sheets = Piece::Count(u64::from(spot.position().sheets()));
    held.put(sink, &[sheets, Piece::Text(b":")])
}

fn put_position_cells<K: Sink>(sink: &mut K, held: &mut Held, spot: &Spot) -> Result<(), Failed>
    requires { 1 ≤ length spot.now.cells }
    ensures bytes { Gathers (K.written sink.old) (K.written sink.new) held.old held.new
        (row_text spot.now.cells) result }
    ensures cause { HasCause (K.faults sink.old) (K.faults sink.new) result }
{
    put_row(sink, held, spot.position().cells())
}

/// Puts the rows of a table, `-` where it has no column.
fn put_table<K: Sink>(sink: &mut K, held: &mut Held, table: &Table) -> Result<(), Failed>
    ensures bytes { Gathers (K.written sink.old) (K.written sink.new) held.old held.new
        (table_text (rows_of table.now.sheets table.now.columns table.now.cells)) result }
    ensures cause { HasCause (K.faults sink.old) (K.faults sink.new) result }
{
    if table.columns() == 0 {
        return put_text(sink, held, b"-");
    }
    put_rows(
        sink,
        held,
        table.sheets(),
        table.columns() as usize,
        table.cells(),
    )
}

/// Puts so many rows, one at least, with `/` between them.
fn put_rows<K: Sink>(
    sink: &mut K,
    held: &mut Held,
    sheets: u8,
    columns: usize,
    cells: &[u8],
) -> Result<(), Failed>
    requires some { 1 ≤ sheets }
    requires column { 1 ≤ columns }
    requires full { length cells.now ≡ sheets * columns }
    ensures bytes { Gathers (K.written sink.old) (K.written sink.new) held.old held.new
        (rows_text (cut_rows sheets columns cells.now)) result }
    ensures cause { HasCause (K.faults sink.old) (K.faults sink.new) result }
{
    if sheets == 1 {
        return put_row(sink, held, cells);
    }
    put_row(sink, held, &cells[..columns])?;
    put_text(sink, held, b"/")?;
    put_rows(sink, held, sheets - 1, columns, &cells[columns..])
}

/// Puts cells, one at least, with `,` between them.
fn put_row<K: Sink>(sink: &mut K, held: &mut Held, cells: &[u8]) -> Result<(), Failed>
    requires { 1 ≤ length cells.now }
    ensures bytes { Gathers (K.written sink.old) (K.written sink.new) held.old held.new (row_text cells.now) result }
    ensures cause { HasCause (K.faults sink.old) (K.faults sink.new) result }
{
    put_first(sink, held, cells)?;
    put_behind(sink, held, &cells[1..])
}

fn put_first<K: Sink>(sink: &mut K, held: &mut Held, cells: &[u8]) -> Result<(), Failed>
    requires { 1 ≤ length cells.now }
    ensures bytes { Gathers (K.written sink.old) (K.written sink.new) held.old held.new
        (decimal (slice_index_or cells.now 0 0)) result }
    ensures cause { HasCause (K.faults sink.old) (K.faults sink.new) result }
{
    held.put(sink, &[Piece::Count(u64::from(cells[0]))])
}

/// Puts cells with a comma before each.
fn put_behind<K: Sink>(sink: &mut K, held: &mut Held, cells: &[u8]) -> Result<(), Failed>
    ensures bytes { Gathers (K.written sink.old) (K.written sink.new) held.old held.new
        (behind_text (44 ∷ []) cells.now) result }
    ensures cause { HasCause (K.faults sink.old) (K.faults sink.new) result }
{
    for cell in cells {
        put_cell(sink, held, b",", *cell)?;
    }
    Ok(())
}

/// Puts a cell after a lead.
fn put_cell<K: Sink>(sink: &mut K, held: &mut Held, lead: &[u8], cell: u8) -> Result<(), Failed>
    ensures bytes { Gathers (K.written sink.old) (K.written sink.new) held.old held.new
        (lead.now ++ decimal cell) result }
    ensures cause { HasCause (K.faults sink.old) (K.faults sink.new) result }
{
    held.put(sink, &[Piece::Text(lead), Piece::Count(u64::from(cell))])
}
