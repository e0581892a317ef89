ghost use Rattle.std.specs.Prelude.{◌≡◌, ◌==◌, ◌||◌};
ghost use Rattle.small_field.specs.Modulus.{is_modulus};
ghost use Rattle.cert_text.specs.Reading as reading;
ghost use Rattle.cert_lines.specs.Taken.{Reads};

use cert_lines::{CertFault, Lines, take_numbers};
use certificates::Kind;

/// The version, 1 or 2. The line is looked at with the forms of version 2.
pub fn read_version(lines: &mut Lines<'_>) -> Result<u8, CertFault>
    ensures { Reads (λ version. version) (reading.read_version lines.old) lines.new result }
{
    let version = take_numbers(lines, 2, Kind::Version)?[0];
    if !is_version(version) {
        return Err(CertFault::BadVersion);
    }
    Ok(version as u8)
}

fn is_version(version: u64) -> bool
    ensures { result ≡ (version == 1) || (version == 2) }
{
    version == 1 || version == 2
}

/// The modulus.
pub fn read_modulus(lines: &mut Lines<'_>, version: u8) -> Result<u8, CertFault>
    ensures { Reads (λ modulus. modulus) (reading.read_modulus version lines.old) lines.new result }
{
    let number = lines.number();
    let modulus = take_numbers(lines, version, Kind::Modulus)?[0];
    if !has_field(modulus) {
        return Err(CertFault::OutOfRange(number));
    }
    Ok(modulus as u8)
}

/// Whether there is a field of so many elements.
fn has_field(modulus: u64) -> bool
    ensures { result ≡ is_modulus modulus }
{
    matches!(modulus, 2 | 3 | 4 | 5 | 7 | 9 | 11 | 13)
}
