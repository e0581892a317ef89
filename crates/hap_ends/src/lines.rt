// The lines of faults.
ghost use Rattle.std.specs.Prelude.{◌≡◌};
ghost use Rattle.hap_outside.specs.Causes.{HasCause};
ghost use Rattle.hap_outside.specs.Writes.{Writes};
ghost use Rattle.hap_ends.specs.Refusals as refusals;

use array_values::ArrayFault;
use face_poset::{Cell, SpaceFault};
use facet_reader::FacetFault;
use gap_text::TextFault;
use hap_outside::{Failed, Piece, Sink, write_all, write_pieces};
use regular_check::RegularFault;

/// Writes a number between two texts.
pub fn write_count<'a, E: Sink>(
    err: &mut E,
    before: &'a [u8],
    count: u64,
    after: &'a [u8],
) -> Result<(), Failed>
    ensures bytes { Writes (E.written err.old) (E.written err.new) (refusals.count_line before.now count after.now)
        result }
    ensures cause { HasCause (E.faults err.old) (E.faults err.new) result }
{
    write_pieces(
        err,
        &[Piece::Text(before), Piece::Count(count), Piece::Text(after)],
    )
}

/// Writes the line of a cell whose word is too long.
pub fn write_word<E: Sink>(err: &mut E, cell: Cell) -> Result<(), Failed>
    ensures bytes { Writes (E.written err.old) (E.written err.new) (refusals.word_line cell) result }
    ensures cause { HasCause (E.faults err.old) (E.faults err.new) result }
{
    write_cell(err, b"hap: limit: word", cell)
}

/// Writes the line of a fault of the text.
pub fn write_text<E: Sink>(err: &mut E, fault: TextFault) -> Result<(), Failed>
    ensures bytes { Writes (E.written err.old) (E.written err.new) (refusals.text_line fault) result }
    ensures cause { HasCause (E.faults err.old) (E.faults err.new) result }
{
    let words = text_words(fault);
    let place = Piece::Count(u64::from(text_place(fault)));
    write_pieces(
        err,
        &[
            Piece::Text(b"hap: text: "),
            Piece::Text(words),
            Piece::Text(b" at byte "),
            place,
            Piece::Text(b"\n"),
        ],
    )
}

fn text_words(fault: TextFault) -> &'static [u8]
    ensures { result.now ≡ refusals.text_words fault }
{
    match fault {
        TextFault::BadByte(_) => b"bad byte",
        TextFault::Unclosed(_) => b"input ends",
        TextFault::Stray(_) => b"stray token",
        TextFault::Stepped(_) => b"stepped range",
        TextFault::BadRange(_) => b"bad range",
        TextFault::NumberTooBig(_) => b"number too big",
        TextFault::TooDeep(_) => b"too deep",
        TextFault::Memory => b"want of memory",
    }
}

fn text_place(fault: TextFault) -> u32
    ensures { result ≡ refusals.text_place fault }
{
    match fault {
        TextFault::BadByte(place) => place,
        TextFault::Unclosed(place) => place,
        TextFault::Stray(place) => place,
        TextFault::Stepped(place) => place,
        TextFault::BadRange(place) => place,
        TextFault::NumberTooBig(place) => place,
        TextFault::TooDeep(place) => place,
        TextFault::Memory => 0,
    }
}

/// Writes the line of a fault of simplices or of a partial order.
pub fn write_facet<E: Sink>(err: &mut E, fault: FacetFault) -> Result<(), Failed>
    ensures bytes { Writes (E.written err.old) (E.written err.new) (refusals.facet_line fault) result }
    ensures cause { HasCause (E.faults err.old) (E.faults err.new) result }
{
    match fault {
        FacetFault::Shape(place) => write_facet_at(err, b"shape", place),
        FacetFault::Empty => write_all(err, b"hap: facet: empty\n"),
        FacetFault::BadLabel(place) => write_facet_at(err, b"bad label", place),
        FacetFault::Repeated(place) => write_facet_at(err, b"repeated label", place),
        FacetFault::TooManyCells => write_all(err, b"hap: limit: cells over 60000\n"),
        FacetFault::Memory => write_all(err, b"hap: want of memory\n"),
    }
}

fn write_facet_at<E: Sink>(err: &mut E, words: &[u8], place: u32) -> Result<(), Failed>
    ensures bytes { Writes (E.written err.old) (E.written err.new) (refusals.facet_place_line words.now place) result }
    ensures cause { HasCause (E.faults err.old) (E.faults err.new) result }
{
    let place = Piece::Count(u64::from(place));
    write_pieces(
        err,
        &[
            Piece::Text(b"hap: facet: "),
            Piece::Text(words),
            Piece::Text(b" at byte "),
            place,
            Piece::Text(b"\n"),
        ],
    )
}

/// Writes the line of a fault of the space.
pub fn write_space<E: Sink>(err: &mut E, fault: SpaceFault) -> Result<(), Failed>
    ensures bytes { Writes (E.written err.old) (E.written err.new) (refusals.space_line fault) result }
    ensures cause { HasCause (E.faults err.old) (E.faults err.new) result }
{
    match fault {
        SpaceFault::Shape(place) => {
            write_count(err, b"hap: space: shape at byte ", u64::from(place), b"\n")
        }
        SpaceFault::Empty => write_all(err, b"hap: space: empty\n"),
        SpaceFault::TooHigh => write_all(err, b"hap: space: dimension over 3\n"),
        SpaceFault::BadCount(cell) => write_cell(err, b"hap: space: bad count", cell),
        SpaceFault::FaceOutOfRange(cell) => write_cell(err, b"hap: space: face out of range", cell),
        SpaceFault::RepeatedFace(cell) => write_cell(err, b"hap: space: repeated face", cell),
        SpaceFault::TooManyCells => write_all(err, b"hap: limit: cells over 60000\n"),
        SpaceFault::Memory => write_all(err, b"hap: want of memory\n"),
    }
}

fn write_cell<E: Sink>(err: &mut E, words: &[u8], cell: Cell) -> Result<(), Failed>
    ensures bytes { Writes (E.written err.old) (E.written err.new) (refusals.cell_line words.now cell) result }
    ensures cause { HasCause (E.faults err.old) (E.faults err.new) result }
{
    let dim = Piece::Count(u64::from(cell.dim));
    let number = Piece::Count(u64::from(cell.number));
    write_pieces(
        err,
        &[
            Piece::Text(words),
            Piece::Text(b" in dimension "),
            dim,
            Piece::Text(b" cell "),
            number,
            Piece::Text(b"\n"),
        ],
    )
}

/// Writes the line of a fault of the array.
pub fn write_array<E: Sink>(err: &mut E, fault: ArrayFault) -> Result<(), Failed>
    ensures bytes { Writes (E.written err.old) (E.written err.new) (refusals.array_fault_line fault) result }
    ensures cause { HasCause (E.faults err.old) (E.faults err.new) result }
{
    match fault {
        ArrayFault::Ragged(place) => write_place(err, b"ragged at byte ", place),
        ArrayFault::NotBit(place) => write_place(err, b"not a bit at byte ", place),
        ArrayFault::BadDimension => write_all(err, b"hap: array: bad dimension\n"),
        ArrayFault::Empty => write_all(err, b"hap: array: empty\n"),
        ArrayFault::BadPair(row) => write_place(err, b"bad pair in row ", row),
        ArrayFault::ColumnCount(column) => write_place(err, b"column ", column),
        ArrayFault::TooManyCells => write_all(err, b"hap: limit: cells over 60000\n"),
        ArrayFault::Memory => write_all(err, b"hap: want of memory\n"),
    }
}

fn write_place<E: Sink>(err: &mut E, words: &[u8], place: u32) -> Result<(), Failed>
    ensures bytes { Writes (E.written err.old) (E.written err.new) (refusals.array_line words.now place) result }
    ensures cause { HasCause (E.faults err.old) (E.faults err.new) result }
{
    let place = Piece::Count(u64::from(place));
    write_pieces(
        err,
        &[
            Piece::Text(b"hap: array: "),
            Piece::Text(words),
            place,
            Piece::Text(b"\n"),
        ],
    )
}

/// Writes the line of a rule of regularity that is broken.
pub fn write_regular<E: Sink>(err: &mut E, fault: RegularFault) -> Result<(), Failed>
    ensures bytes { Writes (E.written err.old) (E.written err.new) (refusals.regular_line fault) result }
    ensures cause { HasCause (E.faults err.old) (E.faults err.new) result }
{
    match fault {
        RegularFault::EdgeEnds(cell) => write_rule(err, b"edge ends", cell),
        RegularFault::NotCycle(cell) => write_rule(err, b"not a cycle", cell),
        RegularFault::EdgeNotTwice(cell) => write_rule(err, b"edge not twice", cell),
        RegularFault::Apart(cell) => write_rule(err, b"apart", cell),
        RegularFault::NotSphere(cell, value) => write_sphere(err, cell, value),
        RegularFault::Memory => write_all(err, b"hap: want of memory\n"),
    }
}

fn write_rule<E: Sink>(err: &mut E, words: &[u8], cell: u32) -> Result<(), Failed>
    ensures bytes { Writes (E.written err.old) (E.written err.new) (refusals.rule_line words.now cell) result }
    ensures cause { HasCause (E.faults err.old) (E.faults err.new) result }
{
    let cell = Piece::Count(u64::from(cell));
    write_pieces(
        err,
        &[
            Piece::Text(b"hap: space: "),
            Piece::Text(words),
            Piece::Text(b", cell "),
            cell,
            Piece::Text(b"\n"),
        ],
    )
}

fn write_sphere<E: Sink>(err: &mut E, cell: u32, value: i64) -> Result<(), Failed>
    ensures bytes { Writes (E.written err.old) (E.written err.new) (refusals.sphere_line cell value) result }
    ensures cause { HasCause (E.faults err.old) (E.faults err.new) result }
{
    let cell = Piece::Count(u64::from(cell));
    let value = Piece::Number(i128::from(value));
    write_pieces(
        err,
        &[
            Piece::Text(b"hap: space: not a sphere, cell "),
            cell,
            Piece::Text(b", value "),
            value,
            Piece::Text(b"\n"),
        ],
    )
}
