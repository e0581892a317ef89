// Why a command refuses its input, with the status and the line of each cause.
ghost use Rattle.std.specs.Prelude.{◌≡◌};
ghost use Rattle.hap_outside.specs.Causes.{HasCause};
ghost use Rattle.hap_outside.specs.Writes.{Writes};
ghost use Rattle.hap_ends.specs.Refusals as refusals;

use crate::lines::{
    write_array, write_count, write_facet, write_regular, write_space, write_text, write_word,
};
use crate::spent::write_spent;
use array_values::ArrayFault;
use face_poset::{Cell, SpaceFault};
use facet_reader::FacetFault;
use gap_text::TextFault;
use hap_outside::{Failed, Sink, write_all};
use regular_check::RegularFault;
use sheet_tables::Spot;

/// Why a command refuses its input. Cells and components are numbered from 1.
#[derive(Drop)]
pub enum Refusal {
    /// The input has more bytes than this limit.
    TooLong(u64),
    /// The bytes are no text of a value.
    Text(TextFault),
    /// The value is no space, or one with too many cells.
    Space(SpaceFault),
    /// The value is no array of the kind, or its space has too many cells.
    Array(ArrayFault),
    /// The value is no list of simplices or no partial order, as the kind says, or its space has too
    /// many cells.
    Facet(FacetFault),
    /// The space breaks a rule of regularity.
    Irregular(RegularFault),
    /// The space has only so many components, and a later one is asked for.
    Components(u32),
    /// The order complex of the space has so many chains, which is more than the limit.
    Chains(u64),
    /// There are so many classes, which is more than the limit.
    Classes(u32),
    /// The word of this cell, or the sum of the words up to it, has more letters than the limit.
    Word(Cell),
    /// The spot from which the listing of covers shall go on is none of this space.
    Position,
    /// The budget of the search for one cover is spent at this spot, so that nothing is written.
    Spent(Spot),
    /// There are only so many covers, and a later one is asked for.
    Index(u32),
    /// The total space of the cover has more cells than a space may have.
    TotalCells,
}

/// Writes the line of the refusal.
pub fn write_refusal<E: Sink>(err: &mut E, refusal: &Refusal) -> Result<(), Failed>
    ensures bytes { Writes (E.written err.old) (E.written err.new) (refusals.refusal_line refusal.now) result }
    ensures cause { HasCause (E.faults err.old) (E.faults err.new) result }
{
    match refusal {
        Refusal::TooLong(limit) => write_count(
            err,
            b"hap: limit: input over ",
            *limit,
            b" bytes\n",
        ),
        Refusal::Text(fault) => write_text(err, *fault),
        Refusal::Space(fault) => write_space(err, *fault),
        Refusal::Array(fault) => write_array(err, *fault),
        Refusal::Facet(fault) => write_facet(err, *fault),
        Refusal::Irregular(fault) => write_regular(err, *fault),
        Refusal::Components(count) => {
            write_count(
                err,
                b"hap: limit: only ",
                u64::from(*count),
                b" components\n",
            )
        }
        Refusal::Chains(count) => write_count(err, b"hap: limit: ", *count, b" chains\n"),
        Refusal::Classes(count) => {
            write_count(err, b"hap: limit: ", u64::from(*count), b" classes\n")
        }
        Refusal::Word(cell) => write_word(err, *cell),
        Refusal::Position => write_all(err, b"hap: bad position\n"),
        Refusal::Spent(spot) => write_spent(err, spot),
        Refusal::Index(count) => {
            write_count(err, b"hap: limit: only ", u64::from(*count), b" covers\n")
        }
        Refusal::TotalCells => write_all(err, b"hap: limit: cells over 60000\n"),
    }
}

/// The status of the refusal.
pub fn refusal_code(refusal: &Refusal) -> u8
    ensures { result ≡ refusals.refusal_status refusal.now }
{
    match refusal {
        Refusal::Position => 2,
        Refusal::Text(_) => 3,
        Refusal::Space(fault) => space_code(*fault),
        Refusal::Array(fault) => array_code(*fault),
        Refusal::Facet(fault) => facet_code(*fault),
        Refusal::Irregular(_) => 4,
        Refusal::Spent(_) => 6,
        Refusal::TooLong(_)
        | Refusal::Components(_)
        | Refusal::Chains(_)
        | Refusal::Classes(_)
        | Refusal::Word(_)
        | Refusal::Index(_)
        | Refusal::TotalCells => 5,
    }
}

fn space_code(fault: SpaceFault) -> u8
    ensures { result ≡ refusals.space_status fault }
{
    match fault {
        SpaceFault::TooManyCells => 5,
        _ => 4,
    }
}

fn facet_code(fault: FacetFault) -> u8
    ensures { result ≡ refusals.facet_status fault }
{
    match fault {
        FacetFault::TooManyCells => 5,
        _ => 4,
    }
}

fn array_code(fault: ArrayFault) -> u8
    ensures { result ≡ refusals.array_status fault }
{
    match fault {
        ArrayFault::TooManyCells => 5,
        _ => 4,
    }
}
