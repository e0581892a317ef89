// The text of a certificate in its parts: the front, the sections with their covers, and the back.
ghost use Rattle.std.specs.Prelude.{◌≡◌, ◌++◌, [], ℕ, option_map, Some};
ghost use Rattle.hap_outside.specs.Causes.{HasCause};
ghost use Rattle.hap_outside.specs.Writes.{Writes};
ghost use Rattle.hap_outside.specs.Gathers.{Gathers};
ghost use Rattle.certificates.specs.Cert.{cert_of, ended_at, spot_of};
ghost use Rattle.certificates.specs.Texts.{lines_text, back_lines, front_text, section_text, cover_text};

use crate::certificate::{Certificate, Ending};
use crate::cover::put_cover_front;
use crate::front::{put_homology, put_opening, put_space};
use crate::places::{put_cover, put_spot};
use crate::put::put_text;
use hap_outside::{Failed, Held, Piece, Sink, write_pieces};
use sheet_tables::{Spot, Table};

/// Writes all lines before the first cover, in version 2 before the first line `covers`, or before `end`
/// where there is no cover part. It looks at no section.
pub fn write_front<K: Sink>(cert: &Certificate, sink: &mut K) -> Result<(), Failed>
    ensures bytes { Writes (K.written sink.old) (K.written sink.new) (front_text (cert_of cert.now)) result }
    ensures cause { HasCause (K.faults sink.old) (K.faults sink.new) result }
{
    let mut held = Held::new();
    match put_front(sink, &mut held, cert) {
        Ok(()) => held.finish(sink),
        Err(Failed) => Err(Failed),
    }
}

/// Writes the line that begins the section of a component, counted from 1. Only version 2 has it.
pub fn write_section<K: Sink>(component: u32, sink: &mut K) -> Result<(), Failed>
    ensures bytes { Writes (K.written sink.old) (K.written sink.new) (section_text component) result }
    ensures cause { HasCause (K.faults sink.old) (K.faults sink.new) result }
{
    let number = Piece::Count(u64::from(component));
    write_pieces(sink, &[Piece::Text(b"covers "), number, Piece::Text(b"\n")])
}

/// Writes the line of a cover: its number of sheets, and its table.
pub fn write_cover<K: Sink>(table: &Table, sink: &mut K) -> Result<(), Failed>
    ensures bytes { let text = cover_text table.now.sheets table.now.columns table.now.cells in
        Writes (K.written sink.old) (K.written sink.new) text result }
    ensures cause { HasCause (K.faults sink.old) (K.faults sink.new) result }
{
    let mut held = Held::new();
    match put_cover(sink, &mut held, table) {
        Ok(()) => held.finish(sink),
        Err(Failed) => Err(Failed),
    }
}

/// Writes how the search ended, where there was one, and `end`.
pub fn write_back<K: Sink>(ending: Option<&Ending>, sink: &mut K) -> Result<(), Failed>
    ensures bytes { let ended = option_map (λ e. ended_at e.now) ending.entry in
        Writes (K.written sink.old) (K.written sink.new) (lines_text (back_lines ended)) result }
    ensures cause { HasCause (K.faults sink.old) (K.faults sink.new) result }
{
    match ending {
        None => write_pieces(sink, &[Piece::Text(b"end\n")]),
        Some(Ending::Done) => write_pieces(sink, &[Piece::Text(b"done\nend\n")]),
        Some(Ending::Spent(spot)) => write_spent(sink, spot),
    }
}

fn put_front<K: Sink>(sink: &mut K, held: &mut Held, cert: &Certificate) -> Result<(), Failed>
    ensures bytes { Gathers (K.written sink.old) (K.written sink.new) held.old held.new
        (front_text (cert_of cert.now)) result }
    ensures cause { HasCause (K.faults sink.old) (K.faults sink.new) result }
{
    put_opening(sink, held, cert)?;
    put_space(sink, held, &cert.space, &cert.chains)?;
    put_homology(sink, held, &cert.ranks, &cert.classes, &cert.products)?;
    put_cover_front(sink, held, cert.version, &cert.cover)
}

fn write_spent<K: Sink>(sink: &mut K, spot: &Spot) -> Result<(), Failed>
    ensures bytes { Writes (K.written sink.old) (K.written sink.new)
        (lines_text (back_lines (Some (Some (spot_of spot.now))))) result }
    ensures cause { HasCause (K.faults sink.old) (K.faults sink.new) result }
{
    let mut held = Held::new();
    match put_spent(sink, &mut held, spot) {
        Ok(()) => held.finish(sink),
        Err(Failed) => Err(Failed),
    }
}

fn put_spent<K: Sink>(sink: &mut K, held: &mut Held, spot: &Spot) -> Result<(), Failed>
    ensures bytes { Gathers (K.written sink.old) (K.written sink.new) held.old held.new
        (lines_text (back_lines (Some (Some (spot_of spot.now))))) result }
    ensures cause { HasCause (K.faults sink.old) (K.faults sink.new) result }
{
    put_text(sink, held, b"spent ")?;
    put_spot(sink, held, spot)?;
    put_text(sink, held, b"\nend\n")
}
