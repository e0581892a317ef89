ghost use Rattle.std.specs.Prelude.{◌≡◌, IfOk, option_map, option_and_then, Some};
ghost use Rattle.sheet_tables.specs.Spots.{spot_from};
ghost use Rattle.certificates.specs.Placed.{spot_or_start_of};
ghost use Rattle.certificates.specs.Cert.{spot_of};
ghost use Rattle.cert_lines.specs.Tables.{spot_in};

use crate::lists::word_at;
use crate::word::is_same;
use sheet_tables::{PositionFault, Spot};
use std::alloc::{AllocError, Global};
use std::str::from_utf8;

/// The spot that stands so many words behind the first word of the line, counted from 0, if that word is
/// the text of one, or `-` for the start.
pub fn spot_at(alloc: Global, line: &[u8], place: usize) -> Result<Option<Spot>, AllocError>
    ensures { IfOk result (λ spot. option_map spot_of spot ≡ spot_in line.now place) }
{
    match word_at(line, place) {
        None => Ok(None),
        Some(word) => read_spot(alloc, word),
    }
}

fn read_spot(alloc: Global, word: &[u8]) -> Result<Option<Spot>, AllocError>
    ensures { IfOk result (λ spot. option_map spot_of spot ≡ spot_or_start_of word.now) }
{
    if is_same(word, b"-") {
        return Ok(Some(Spot::start(alloc)));
    }
    match from_utf8(word) {
        Err(_) => Ok(None),
        Ok(text) => parse_spot(alloc, text),
    }
}

/// The spot of a text.
fn parse_spot(alloc: Global, text: &str) -> Result<Option<Spot>, AllocError>
    ensures { IfOk result (λ spot. option_map spot_of spot
        ≡ option_and_then (λ s. Some (Some s)) (spot_from text.now)) }
{
    match Spot::parse(alloc, text) {
        Ok(spot) => Ok(Some(spot)),
        Err(PositionFault::Form) => Ok(None),
        Err(PositionFault::Memory) => Err(AllocError),
    }
}
