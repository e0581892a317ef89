// The lines of the cover part up to the first cover.
ghost use Rattle.std.specs.Prelude.{◌≡◌, ◌∷◌, [], ℕ, length, option_map};
ghost use Rattle.certificates.specs.declared.kind.Kind.TheVariants as kind;
ghost use Rattle.std.specs.List.{flat_map};
ghost use Rattle.hap_outside.specs.Causes.{HasCause};
ghost use Rattle.hap_outside.specs.Gathers.{Gathers};
ghost use Rattle.certificates.specs.Cert.{cover_of};
ghost use Rattle.certificates.specs.Written.{numbered_line, pair_text, pairs_text, columns_text};
ghost use Rattle.certificates.specs.Written.{components_text, cover_front_text, cover_fronts_text};

use crate::certificate::{CoverPart, Numbers};
use crate::front::put_four;
use crate::kind::Kind;
use crate::lines::PairLine;
use crate::lists::PairLines;
use crate::places::put_sheets;
use crate::put::put_line;
use hap_outside::{Failed, Held, Sink};

/// Puts the cover part up to the first cover, nothing where there is none.
pub(crate) fn put_cover_front<K: Sink>(
    sink: &mut K,
    held: &mut Held,
    version: u8,
    part: &Option<CoverPart>,
) -> Result<(), Failed>
    ensures bytes { Gathers (K.written sink.old) (K.written sink.new) held.old held.new
        (cover_fronts_text version (option_map cover_of part.now)) result }
    ensures cause { HasCause (K.faults sink.old) (K.faults sink.new) result }
{
    match part {
        None => Ok(()),
        Some(part) => put_part(sink, held, version, part),
    }
}

fn put_part<K: Sink>(
    sink: &mut K,
    held: &mut Held,
    version: u8,
    part: &CoverPart,
) -> Result<(), Failed>
    ensures bytes { Gathers (K.written sink.old) (K.written sink.new) held.old held.new
        (cover_front_text version (cover_of part.now)) result }
    ensures cause { HasCause (K.faults sink.old) (K.faults sink.new) result }
{
    put_pairs(sink, held, &part.pairs)?;
    put_four(sink, held, Kind::Critical, &part.critical)?;
    put_components(sink, held, version, &part.columns)?;
    put_sheets(sink, held, part.sheets, &part.from)
}

/// Puts the pairs behind a line with their number.
fn put_pairs<K: Sink>(sink: &mut K, held: &mut Held, pairs: &PairLines) -> Result<(), Failed>
    ensures bytes { Gathers (K.written sink.old) (K.written sink.new) held.old held.new (pairs_text pairs.now) result }
    ensures cause { HasCause (K.faults sink.old) (K.faults sink.new) result }
{
    put_pairs_head(sink, held, pairs)?;
    put_each_pair(sink, held, pairs)
}

fn put_pairs_head<K: Sink>(sink: &mut K, held: &mut Held, pairs: &PairLines) -> Result<(), Failed>
    ensures bytes { Gathers (K.written sink.old) (K.written sink.new) held.old held.new
        (numbered_line kind.Pairs (length pairs.now ∷ [])) result }
    ensures cause { HasCause (K.faults sink.old) (K.faults sink.new) result }
{
    put_line(sink, held, Kind::Pairs, &[pairs.len()])
}

fn put_each_pair<K: Sink>(sink: &mut K, held: &mut Held, pairs: &PairLines) -> Result<(), Failed>
    ensures bytes { Gathers (K.written sink.old) (K.written sink.new) held.old held.new
        (flat_map pair_text pairs.now) result }
    ensures cause { HasCause (K.faults sink.old) (K.faults sink.new) result }
{
    for index in 0..pairs.len() {
        put_pair(sink, held, pairs.get(index))?;
    }
    Ok(())
}

fn put_pair<K: Sink>(sink: &mut K, held: &mut Held, line: &PairLine) -> Result<(), Failed>
    ensures bytes { Gathers (K.written sink.old) (K.written sink.new) held.old held.new (pair_text line.now) result }
    ensures cause { HasCause (K.faults sink.old) (K.faults sink.new) result }
{
    let numbers = [u32::from(line.pair.dim), line.pair.lower, line.pair.upper];
    put_line(sink, held, Kind::PairLine, &numbers)
}

/// Puts the columns of the components behind a line with the number of these; nothing in version 1.
fn put_components<K: Sink>(
    sink: &mut K,
    held: &mut Held,
    version: u8,
    columns: &Numbers,
) -> Result<(), Failed>
    ensures bytes { Gathers (K.written sink.old) (K.written sink.new) held.old held.new
        (components_text version columns.now) result }
    ensures cause { HasCause (K.faults sink.old) (K.faults sink.new) result }
{
    if version == 1 {
        return Ok(());
    }
    put_components_head(sink, held, columns)?;
    put_columns(sink, held, columns)
}

fn put_components_head<K: Sink>(
    sink: &mut K,
    held: &mut Held,
    columns: &Numbers,
) -> Result<(), Failed>
    ensures bytes { Gathers (K.written sink.old) (K.written sink.new) held.old held.new
        (numbered_line kind.Components (length columns.now ∷ [])) result }
    ensures cause { HasCause (K.faults sink.old) (K.faults sink.new) result }
{
    put_line(sink, held, Kind::Components, &[columns.len()])
}

/// Puts the columns of each component, components counted from 1.
fn put_columns<K: Sink>(sink: &mut K, held: &mut Held, columns: &Numbers) -> Result<(), Failed>
    ensures bytes { Gathers (K.written sink.old) (K.written sink.new) held.old held.new
        (columns_text 1 columns.now) result }
    ensures cause { HasCause (K.faults sink.old) (K.faults sink.new) result }
{
    for index in 0..columns.len() {
        let column = columns.get(index);
        put_line(sink, held, Kind::Columns, &[index + 1, column])?;
    }
    Ok(())
}
