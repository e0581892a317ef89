ghost use Rattle.std.specs.Prelude.{◌≡◌, ◌≤◌, IfOk};
ghost use Rattle.certificates.specs.WellFormed as well;
ghost use Rattle.cert_text.specs.Reading as reading;
ghost use Rattle.cert_lines.specs.Taken.{Reads};
ghost use Rattle.cert_text.specs.Taking.{sheets_of};

use cert_lines::{CertFault, LineKind, Lines, number_or_zero, spot_at, spot_fits, take};
use certificates::Numbers;
use sheet_tables::Spot;
use std::alloc::Global;

/// The most sheets of a listing, from where it lists, and the number of that line.
#[derive(Drop)]
pub struct Sheets {
    pub number: u32,
    pub most: u8,
    pub from: Spot,
}

/// The most sheets, from 1 to 8, and from where the covers are listed.
pub fn read_sheets(
    alloc: Global,
    lines: &mut Lines<'_>,
    version: u8,
    columns: &Numbers,
) -> Result<Sheets, CertFault>
    ensures read { Reads (sheets_of version) (reading.read_sheets version columns.now lines.old) lines.new result }
    ensures most { IfOk result (λ sheets. sheets.most ≤ 8) }
{
    let number = lines.number();
    let line = take(lines, version, LineKind::Sheets)?;
    let most = number_or_zero(line, 0);
    if !is_most(most) {
        return Err(CertFault::OutOfRange(number));
    }
    match spot_at(alloc, line, 2)? {
        None => Err(CertFault::OutOfRange(number)),
        Some(from) => {
            if spot_fits(columns, most as u8, &from) {
                Ok(Sheets {
                    number,
                    most: most as u8,
                    from,
                })
            } else {
                Err(CertFault::OutOfRange(number))
            }
        }
    }
}

fn is_most(most: u64) -> bool
    ensures { result ≡ well.is_between 1 8 most }
{
    1 <= most && most <= 8
}
