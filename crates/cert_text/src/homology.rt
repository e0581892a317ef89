ghost use Rattle.std.specs.Prelude.{◌≡◌, ◌==◌, ◌≤◌, ◌<◌, ◌+◌, ◌&&◌, nat_le, ℕ, List, [], true, length, slice_set, slice_index_or, OnOk};
ghost use Rattle.certificates.specs.Degrees.{at};
ghost use Rattle.cert_lines.specs.Readers.{many};
ghost use Rattle.cert_text.specs.Reading as reading;
ghost use Rattle.cert_lines.specs.Taken.{Reads};
ghost use Rattle.cert_text.specs.Taking.{pair_if, lists_if, has_lists};

use cert_lines::{CertFault, LineKind, Lines, entries_at, entries_behind_bar, take, take_numbers};
use certificates::{Kind, Line, LinesByDegree};
use std::alloc::Global;

/// The lines of rank, by degree.
pub fn read_ranks(
    alloc: Global,
    lines: &mut Lines<'_>,
    version: u8,
    modulus: u8,
    chains: [u32; 4],
) -> Result<LinesByDegree, CertFault>
    ensures { Reads (λ ranks. ranks) (reading.read_ranks version modulus chains lines.old) lines.new result }
{
    let mut ranks = LinesByDegree::new(alloc);
    read_rank(alloc, lines, version, modulus, chains, 0, &mut ranks)?;
    read_rank(alloc, lines, version, modulus, chains, 1, &mut ranks)?;
    read_rank(alloc, lines, version, modulus, chains, 2, &mut ranks)?;
    Ok(ranks)
}

/// The classes, by degree.
pub fn read_classes(
    alloc: Global,
    lines: &mut Lines<'_>,
    version: u8,
    modulus: u8,
    chains: [u32; 4],
) -> Result<LinesByDegree, CertFault>
    ensures { Reads (λ classes. classes) (reading.read_classes version modulus chains lines.old) lines.new result }
{
    let mut classes = LinesByDegree::new(alloc);
    read_class(alloc, lines, version, modulus, chains, 0, &mut classes)?;
    read_class(alloc, lines, version, modulus, chains, 1, &mut classes)?;
    read_class(alloc, lines, version, modulus, chains, 2, &mut classes)?;
    read_class(alloc, lines, version, modulus, chains, 3, &mut classes)?;
    Ok(classes)
}

/// The lines of rank of a degree.
fn read_rank(
    alloc: Global,
    lines: &mut Lines<'_>,
    version: u8,
    modulus: u8,
    chains: [u32; 4],
    degree: u8,
    ranks: &mut LinesByDegree,
) -> Result<(), CertFault>
    requires high { degree ≤ 2 }
    requires four { length ranks.old ≡ 4 }
    requires none { at ranks.old degree ≡ [] }
    ensures read { Reads (λ _. at ranks.new degree)
        (reading.read_rank version modulus chains degree lines.old) lines.new result }
    ensures lists { OnOk result (ranks.new ≡ slice_set ranks.old degree (at ranks.new degree)) }
{
    let low = chains[degree as usize];
    let high = chains[degree as usize + 1];
    read_block(
        alloc,
        lines,
        version,
        Kind::Rank,
        Kind::RankLine,
        modulus,
        degree,
        low,
        high,
        ranks,
    )
}

/// The classes of a degree.
fn read_class(
    alloc: Global,
    lines: &mut Lines<'_>,
    version: u8,
    modulus: u8,
    chains: [u32; 4],
    degree: u8,
    classes: &mut LinesByDegree,
) -> Result<(), CertFault>
    requires high { degree ≤ 3 }
    requires four { length classes.old ≡ 4 }
    requires none { at classes.old degree ≡ [] }
    ensures read { Reads (λ _. at classes.new degree)
        (reading.read_class version modulus chains degree lines.old) lines.new result }
    ensures lists { OnOk result (classes.new ≡ slice_set classes.old degree (at classes.new degree)) }
{
    let count = chains[degree as usize];
    read_block(
        alloc,
        lines,
        version,
        Kind::Classes,
        Kind::ClassLine,
        modulus,
        degree,
        count,
        count,
        classes,
    )
}

/// The lines of a degree, behind the line that says how many they are.
fn read_block(
    alloc: Global,
    lines: &mut Lines<'_>,
    version: u8,
    head: Kind,
    each: Kind,
    modulus: u8,
    degree: u8,
    low: u32,
    high: u32,
    into: &mut LinesByDegree,
) -> Result<(), CertFault>
    requires lists { has_lists each ≡ true }
    requires high { degree ≤ 3 }
    requires four { length into.old ≡ 4 }
    requires none { at into.old degree ≡ [] }
    ensures read { Reads (λ _. at into.new degree)
        (reading.read_block version (pair_if head) (lists_if each) modulus degree low high lines.old)
        lines.new result }
    ensures lists { OnOk result (into.new ≡ slice_set into.old degree (at into.new degree)) }
{
    let number = lines.number();
    let numbers = take_numbers(lines, version, head)?;
    if !is_head(numbers[0], numbers[1], degree, low) {
        return Err(CertFault::OutOfRange(number));
    }
    read_sides_of(
        alloc,
        lines,
        version,
        each,
        modulus,
        degree,
        low,
        high,
        numbers[1] as u32,
        into,
    )
}

fn is_head(first: u64, second: u64, degree: u8, low: u32) -> bool
    ensures { result ≡ (first == degree) && nat_le second low }
{
    first == u64::from(degree) && second <= u64::from(low)
}

/// So many lines of a degree.
fn read_sides_of(
    alloc: Global,
    lines: &mut Lines<'_>,
    version: u8,
    kind: Kind,
    modulus: u8,
    degree: u8,
    low: u32,
    high: u32,
    count: u32,
    into: &mut LinesByDegree,
) -> Result<(), CertFault>
    requires lists { has_lists kind ≡ true }
    requires high { degree ≤ 3 }
    requires four { length into.old ≡ 4 }
    requires none { at into.old degree ≡ [] }
    ensures read { Reads (λ _. at into.new degree)
        (many count (reading.read_sides version (lists_if kind) modulus low high) lines.old)
        lines.new result }
    ensures lists { OnOk result (into.new ≡ slice_set into.old degree (at into.new degree)) }
{
    let mut left = count;
    'lines: while left > 0 {
        let line = read_sides(alloc, lines, version, kind, modulus, low, high)?;
        into.push(degree, line)?;
        left -= 1;
    }
    Ok(())
}

/// A line of two sparse lists.
fn read_sides(
    alloc: Global,
    lines: &mut Lines<'_>,
    version: u8,
    kind: Kind,
    modulus: u8,
    low: u32,
    high: u32,
) -> Result<Line, CertFault>
    requires { has_lists kind ≡ true }
    ensures { Reads (λ line. line)
        (reading.read_sides version (lists_if kind) modulus low high lines.old) lines.new result }
{
    let number = lines.number();
    let line = take(lines, version, LineKind::Plain(kind))?;
    match entries_at(alloc, line, 0, modulus, low)? {
        None => Err(CertFault::OutOfRange(number)),
        Some(left) => match entries_behind_bar(alloc, line, modulus, high)? {
            None => Err(CertFault::OutOfRange(number)),
            Some(right) => Ok(Line {
                number,
                left,
                right,
            }),
        },
    }
}
