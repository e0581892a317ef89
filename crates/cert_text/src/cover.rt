ghost use Rattle.std.specs.Prelude.{◌≡◌, option_map};
ghost use Rattle.face_poset.specs.Poset.{IsSpace};
ghost use Rattle.certificates.specs.Cert.{cover_of};
ghost use Rattle.cert_text.specs.Reading as reading;
ghost use Rattle.cert_lines.specs.Taken.{Reads};

use crate::columns::{read_columns, read_critical};
use crate::listing::read_listing;
use crate::pairs::read_pairs;
use crate::spots::read_sheets;
use cert_lines::{CertFault, LineKind, Lines, number_or_zero, take, take_any};
use certificates::{CoverPart, Kind};
use face_poset::Space;
use std::alloc::Global;

/// The cover part, if there is one. The line `end` is read with it.
pub fn read_covers(
    alloc: Global,
    lines: &mut Lines<'_>,
    version: u8,
    space: &Space,
) -> Result<Option<CoverPart>, CertFault>
    requires { IsSpace space.now }
    ensures { Reads (λ cover. option_map cover_of cover) (reading.read_covers version space.now lines.old) lines.new result }
{
    let number = lines.number();
    let (kind, line) = take_any(lines, version)?;
    if kind == LineKind::Plain(Kind::End) {
        return Ok(None);
    }
    if kind == LineKind::Plain(Kind::Pairs) {
        return Ok(Some(read_cover(alloc, lines, version, space, number_or_zero(line, 0))?));
    }
    Err(CertFault::WrongOrder(number))
}

/// The cover part behind the line with the number of pairs, and the line `end`.
fn read_cover(
    alloc: Global,
    lines: &mut Lines<'_>,
    version: u8,
    space: &Space,
    count: u64,
) -> Result<CoverPart, CertFault>
    requires { IsSpace space.now }
    ensures { Reads cover_of (reading.read_cover version space.now count lines.old) lines.new result }
{
    let pairs = read_pairs(alloc, lines, version, space, count)?;
    let critical = read_critical(lines, version, space, &pairs)?;
    let cells = critical.cells;
    let columns = read_columns(alloc, lines, version, cells)?;
    let sheets = read_sheets(alloc, lines, version, &columns)?;
    let listing = read_listing(alloc, lines, version, &columns, &sheets)?;
    take(lines, version, LineKind::Plain(Kind::End))?;
    Ok(CoverPart {
        pairs,
        critical_line: critical.number,
        critical: cells,
        columns,
        sheets: sheets.most,
        from: sheets.from,
        sections: listing.sections,
        ending: listing.ending,
    })
}
