ghost use Rattle.std.specs.Prelude.{◌≡◌, ◌<◌, ◌+◌, ◌&&◌, ◌^◌, ℕ, option_map, if◌then◌else◌, Some, None, IsTrue};
ghost use Rattle.face_poset.specs.Poset.{IsSpace};
ghost use Rattle.certificates.specs.WellFormed.{is_between};
ghost use Rattle.cert_lines.specs.Readers.{many};
ghost use Rattle.cert_text.specs.Reading as reading;
ghost use Rattle.cert_lines.specs.Taken.{Reads};
ghost use Rattle.cert_text.specs.Taking.{triple_of};

use cert_lines::{CertFault, Lines, take_numbers};
use certificates::{Kind, PairLine, PairLines};
use face_poset::{Graded, Pair, Space};
use std::alloc::Global;

/// So many pairs of the field, in its order.
pub fn read_pairs(
    alloc: Global,
    lines: &mut Lines<'_>,
    version: u8,
    space: &Space,
    count: u64,
) -> Result<PairLines, CertFault>
    requires { IsSpace space.now }
    ensures { Reads (λ pairs. pairs) (many count (reading.read_pair version space.now) lines.old)
        lines.new result }
{
    let mut pairs = PairLines::new(alloc);
    let mut left = count;
    'pairs: while left > 0 {
        let pair = read_pair(lines, version, space)?;
        pairs.push(pair)?;
        left -= 1;
    }
    Ok(pairs)
}

/// A pair of cells that exist.
fn read_pair(lines: &mut Lines<'_>, version: u8, space: &Space) -> Result<PairLine, CertFault>
    requires { IsSpace space.now }
    ensures { Reads (λ pair. pair) (reading.read_pair version space.now lines.old) lines.new result }
{
    let number = lines.number();
    let numbers = take_numbers(lines, version, Kind::PairLine)?;
    match pair_if(space, numbers[0], numbers[1], numbers[2]) {
        None => Err(CertFault::OutOfRange(number)),
        Some(pair) => Ok(PairLine { number, pair }),
    }
}

/// The pair of these numbers, if its cells exist.
fn pair_if(space: &Space, dim: u64, lower: u64, upper: u64) -> Option<Pair>
    requires { IsSpace space.now }
    ensures { option_map triple_of result
        ≡ (if reading.pair_stands space.now (dim, lower, upper) then Some (dim, lower, upper) else None) }
{
    if !is_pair(space, dim, lower, upper) {
        return None;
    }
    Some(Pair {
        dim: dim as u8,
        lower: lower as u32,
        upper: upper as u32,
    })
}

fn is_pair(space: &Space, dim: u64, lower: u64, upper: u64) -> bool
    requires { IsSpace space.now }
    ensures pair { result ≡ reading.pair_stands space.now (dim, lower, upper) }
    ensures small { IsTrue result → (dim < 256) × (lower < 2 ^ 32) × (upper < 2 ^ 32) }
{
    if dim > 3 {
        return false;
    }
    let low = space.cells(dim as u8);
    let high = space.cells(dim as u8 + 1);
    is_among(low, lower) && is_among(high, upper)
}

fn is_among(count: u32, number: u64) -> bool
    ensures { result ≡ is_between 1 count number }
{
    1 <= number && number <= u64::from(count)
}
