ghost use Rattle.std.specs.Prelude.{◌≡◌, ◌≤◌, ℕ, [], None, slice_index_or};
ghost use Rattle.certificates.specs.Cert.{spot_of, section_of};
ghost use Rattle.certificates.specs.WellFormed as well;
ghost use Rattle.cert_text.specs.Reading as reading;
ghost use Rattle.cert_text.specs.Reading.{frame, numbered_if};
ghost use Rattle.cert_lines.specs.Listed.{numbers_in};
ghost use Rattle.cert_lines.specs.Tables.{spot_in, table_in};
ghost use Rattle.cert_text.specs.Picks.{a_section, an_ending};
ghost use Rattle.cert_lines.specs.Taken.{Reads, Says};
ghost use Rattle.cert_text.specs.Steps as steps;

use crate::spots::Sheets;
use cert_lines::{
    CertFault, LineKind, Lines, columns_at, number_or_zero, spot_at, spot_fits, table_at, take_any,
    take_numbers,
};
use certificates::{CoverLine, CoverLines, Ending, Kind, Numbers, Section, Sections};
use std::alloc::Global;
use std::mem::replace;

/// The sections of a listing, and how the search ended.
#[derive(Drop)]
pub struct Listing {
    pub sections: Sections,
    pub ending: Ending,
}

/// What a line of the listing says.
#[derive(Drop)]
enum Entry {
    /// A cover of the component whose section is open.
    Cover(CoverLine),
    /// The number of the line, and the component whose section it begins.
    Section(u32, u32),
    Ending(Ending),
}

/// The covers, section by section, and how the search ended.
pub fn read_listing(
    alloc: Global,
    lines: &mut Lines<'_>,
    version: u8,
    columns: &Numbers,
    sheets: &Sheets,
) -> Result<Listing, CertFault>
    requires { sheets.now.most ≤ 8 }
    ensures { Reads steps.listing_of
        (reading.read_listing (frame version columns.now sheets.now.most) (spot_of sheets.now.from)
        (numbered_if version sheets.now.number) lines.old)
        lines.new result }
{
    let (number, component) = read_first(lines, version, sheets)?;
    let open = Section {
        number,
        component,
        covers: CoverLines::new(alloc),
    };
    read_entries(alloc, lines, version, columns, sheets.most, open)
}

/// The number and the component of the first section; in version 1 it begins with the line `sheets`.
fn read_first(lines: &mut Lines<'_>, version: u8, sheets: &Sheets) -> Result<(u32, u32), CertFault>
    ensures { Reads (λ first. first)
        (reading.read_section version (spot_of sheets.now.from) (numbered_if version sheets.now.number) lines.old)
        lines.new result }
{
    if version == 1 {
        return Ok((sheets.number, 1));
    }
    let number = lines.number();
    let component = take_numbers(lines, version, Kind::Covers)?[0];
    if component != u64::from(sheets.from.component()) {
        return Err(CertFault::OutOfRange(number));
    }
    Ok((number, component as u32))
}

/// The lines of the listing behind the one that opened the first section.
fn read_entries(
    alloc: Global,
    lines: &mut Lines<'_>,
    version: u8,
    columns: &Numbers,
    most: u8,
    first: Section,
) -> Result<Listing, CertFault>
    requires { most ≤ 8 }
    ensures { Reads steps.listing_of
        (steps.grown [] (section_of first)
        (reading.read_listed (frame version columns.now most) first.component lines.old))
        lines.new result }
{
    let mut sections = Sections::new(alloc);
    let mut section = first;
    'entries: loop {
        match read_entry(alloc, lines, version, columns, most, section.component)? {
            Entry::Cover(line) => {
                section.covers.push(line)?;
            }
            Entry::Section(number, component) => {
                let next = Section {
                    number,
                    component,
                    covers: CoverLines::new(alloc),
                };
                sections.push(replace(&mut section, next))?;
            }
            Entry::Ending(ending) => {
                sections.push(section)?;
                return Ok(Listing { sections, ending });
            }
        }
    }
}

/// The next line of the listing, where the section of a component is open.
fn read_entry(
    alloc: Global,
    lines: &mut Lines<'_>,
    version: u8,
    columns: &Numbers,
    most: u8,
    component: u32,
) -> Result<Entry, CertFault>
    requires { most ≤ 8 }
    ensures { Reads steps.step_of (steps.listing_step (frame version columns.now most) component lines.old)
        lines.new result }
{
    let number = lines.number();
    let (kind, line) = take_any(lines, version)?;
    if kind == LineKind::Cover {
        return read_cover(alloc, line, number, columns, most, component);
    }
    if kind == LineKind::Spent {
        return read_spent(alloc, line, number, columns, most, component);
    }
    if kind == LineKind::Plain(Kind::Covers) {
        return read_section(number, columns, component, number_or_zero(line, 0));
    }
    if kind == LineKind::Plain(Kind::Done) {
        return read_done(number, columns, component);
    }
    Err(CertFault::WrongOrder(number))
}

/// A cover, by its line.
fn read_cover(
    alloc: Global,
    line: &[u8],
    number: u32,
    columns: &Numbers,
    most: u8,
    component: u32,
) -> Result<Entry, CertFault>
    requires { most ≤ 8 }
    ensures { (v : ℕ) → Says steps.step_of
        (steps.said_table (frame v columns.now most) component number
        (slice_index_or (numbers_in line.now) 0 0) (table_in line.now 1))
        result }
{
    let sheets = number_or_zero(line, 0);
    if !is_sheets(sheets, most) {
        return Err(CertFault::OutOfRange(number));
    }
    match table_at(alloc, line, 1, sheets as u8, columns_at(columns, component))? {
        None => Err(CertFault::OutOfRange(number)),
        Some(table) => Ok(Entry::Cover(CoverLine { number, table })),
    }
}

fn is_sheets(sheets: u64, most: u8) -> bool
    ensures { result ≡ well.is_between 1 most sheets }
{
    1 <= sheets && sheets <= u64::from(most)
}

/// The end of a search that was spent, by its line.
fn read_spent(
    alloc: Global,
    line: &[u8],
    number: u32,
    columns: &Numbers,
    most: u8,
    component: u32,
) -> Result<Entry, CertFault>
    ensures { (v : ℕ) → Says steps.step_of
        (steps.said_spent (frame v columns.now most) component number (spot_in line.now 0)) result }
{
    match spot_at(alloc, line, 0)? {
        None => Err(CertFault::OutOfRange(number)),
        Some(spot) => {
            if spot_fits(columns, most, &spot) && spot.component() == component {
                Ok(Entry::Ending(Ending::Spent(spot)))
            } else {
                Err(CertFault::OutOfRange(number))
            }
        }
    }
}

/// The section that begins behind that of a component.
fn read_section(
    number: u32,
    columns: &Numbers,
    component: u32,
    next: u64,
) -> Result<Entry, CertFault>
    ensures { (v most : ℕ) → Says steps.step_of
        (steps.said (frame v columns.now most) component number (a_section next)) result }
{
    if next == u64::from(component) + 1 && next <= u64::from(columns.len()) {
        Ok(Entry::Section(number, next as u32))
    } else {
        Err(CertFault::OutOfRange(number))
    }
}

/// The end of a search that was done.
fn read_done(number: u32, columns: &Numbers, component: u32) -> Result<Entry, CertFault>
    ensures { (v most : ℕ) → Says steps.step_of
        (steps.said (frame v columns.now most) component number (an_ending None)) result }
{
    if component == columns.len() {
        Ok(Entry::Ending(Ending::Done))
    } else {
        Err(CertFault::OutOfRange(number))
    }
}
