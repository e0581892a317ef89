// Lines of numbers and sparse lists, put behind what a buffer holds.
ghost use Rattle.std.specs.Prelude.{◌≡◌, ◌++◌, ◌∷◌, [], ℕ, map};
ghost use Rattle.hap_outside.specs.Causes.{HasCause};
ghost use Rattle.hap_outside.specs.Gathers.{Gathers};
ghost use Rattle.certificates.specs.Tokens.{token_text};
ghost use Rattle.certificates.specs.Parts.{kind_text, entry, sparse_tokens};
ghost use Rattle.certificates.specs.Written.{numbers_text, words_text, head_text, sides_text, numbered_line};
ghost use Rattle.certificates.specs.Written.{listed_line};

use crate::kind::Kind;
use crate::token::Token;
use hap_outside::{Failed, Held, Piece, Sink};
use small_field::Sparse;

/// Puts a line of a kind with these numbers.
pub(crate) fn put_line<K: Sink>(
    sink: &mut K,
    held: &mut Held,
    kind: Kind,
    numbers: &[u32],
) -> Result<(), Failed>
    ensures bytes { Gathers (K.written sink.old) (K.written sink.new) held.old held.new
        (numbered_line kind numbers.now) result }
    ensures cause { HasCause (K.faults sink.old) (K.faults sink.new) result }
{
    put_head(sink, held, kind, numbers)?;
    put_text(sink, held, b"\n")
}

/// Puts a line of a kind with a number and these numbers behind it.
pub(crate) fn put_longer_line<K: Sink>(
    sink: &mut K,
    held: &mut Held,
    kind: Kind,
    first: u32,
    numbers: &[u32],
) -> Result<(), Failed>
    ensures bytes { Gathers (K.written sink.old) (K.written sink.new) held.old held.new
        (numbered_line kind (first ∷ numbers.now)) result }
    ensures cause { HasCause (K.faults sink.old) (K.faults sink.new) result }
{
    put_head(sink, held, kind, &[first])?;
    put_numbers(sink, held, numbers)?;
    put_text(sink, held, b"\n")
}

/// Puts a line of a kind with these numbers and two sparse lists.
pub(crate) fn put_listed_line<K: Sink>(
    sink: &mut K,
    held: &mut Held,
    kind: Kind,
    numbers: &[u32],
    left: &Sparse,
    right: &Sparse,
) -> Result<(), Failed>
    ensures bytes { Gathers (K.written sink.old) (K.written sink.new) held.old held.new
        (listed_line kind numbers.now left.now right.now) result }
    ensures cause { HasCause (K.faults sink.old) (K.faults sink.new) result }
{
    put_head(sink, held, kind, numbers)?;
    put_sides(sink, held, left, right)?;
    put_text(sink, held, b"\n")
}

/// Puts one text.
pub(crate) fn put_text<K: Sink>(sink: &mut K, held: &mut Held, text: &[u8]) -> Result<(), Failed>
    ensures bytes { Gathers (K.written sink.old) (K.written sink.new) held.old held.new text.now result }
    ensures cause { HasCause (K.faults sink.old) (K.faults sink.new) result }
{
    held.put(sink, &[Piece::Text(text)])
}

/// Puts the first word of a line and its numbers.
fn put_head<K: Sink>(
    sink: &mut K,
    held: &mut Held,
    kind: Kind,
    numbers: &[u32],
) -> Result<(), Failed>
    ensures bytes { Gathers (K.written sink.old) (K.written sink.new) held.old held.new
        (head_text kind numbers.now) result }
    ensures cause { HasCause (K.faults sink.old) (K.faults sink.new) result }
{
    put_word(sink, held, kind)?;
    put_numbers(sink, held, numbers)
}

/// Puts the first word of a line.
fn put_word<K: Sink>(sink: &mut K, held: &mut Held, kind: Kind) -> Result<(), Failed>
    ensures bytes { Gathers (K.written sink.old) (K.written sink.new) held.old held.new (kind_text kind) result }
    ensures cause { HasCause (K.faults sink.old) (K.faults sink.new) result }
{
    put_text(sink, held, kind.word().as_bytes())
}

/// Puts numbers, each with a space before it.
fn put_numbers<K: Sink>(sink: &mut K, held: &mut Held, numbers: &[u32]) -> Result<(), Failed>
    ensures bytes { Gathers (K.written sink.old) (K.written sink.new) held.old held.new
        (numbers_text numbers.now) result }
    ensures cause { HasCause (K.faults sink.old) (K.faults sink.new) result }
{
    for number in numbers {
        put_token(sink, held, Token::Number(u64::from(*number)))?;
    }
    Ok(())
}

/// Puts a word with a space before it.
fn put_token<K: Sink>(sink: &mut K, held: &mut Held, token: Token) -> Result<(), Failed>
    ensures bytes { Gathers (K.written sink.old) (K.written sink.new) held.old held.new
        (32 ∷ token_text token) result }
    ensures cause { HasCause (K.faults sink.old) (K.faults sink.new) result }
{
    match token {
        Token::Number(number) => held.put(sink, &[Piece::Text(b" "), Piece::Count(number)]),
        Token::Entry(position, value) => held.put(
            sink,
            &[
                Piece::Text(b" "),
                Piece::Count(position),
                Piece::Text(b":"),
                Piece::Count(value),
            ],
        ),
        Token::Dash => held.put(sink, &[Piece::Text(b" -")]),
        Token::Bar => held.put(sink, &[Piece::Text(b" |")]),
    }
}

/// Puts two sparse lists.
fn put_sides<K: Sink>(
    sink: &mut K,
    held: &mut Held,
    left: &Sparse,
    right: &Sparse,
) -> Result<(), Failed>
    ensures bytes { Gathers (K.written sink.old) (K.written sink.new) held.old held.new
        (sides_text left.now right.now) result }
    ensures cause { HasCause (K.faults sink.old) (K.faults sink.new) result }
{
    put_side(sink, held, left)?;
    put_token(sink, held, Token::Bar)?;
    put_side(sink, held, right)
}

/// Puts a sparse list.
fn put_side<K: Sink>(sink: &mut K, held: &mut Held, entries: &Sparse) -> Result<(), Failed>
    ensures bytes { Gathers (K.written sink.old) (K.written sink.new) held.old held.new
        (words_text (sparse_tokens entries.now)) result }
    ensures cause { HasCause (K.faults sink.old) (K.faults sink.new) result }
{
    if entries.len() == 0 {
        put_token(sink, held, Token::Dash)
    } else {
        put_entries(sink, held, entries)
    }
}

/// Puts the entries of a sparse list.
fn put_entries<K: Sink>(sink: &mut K, held: &mut Held, entries: &Sparse) -> Result<(), Failed>
    ensures bytes { Gathers (K.written sink.old) (K.written sink.new) held.old held.new
        (words_text (map entry entries.now)) result }
    ensures cause { HasCause (K.faults sink.old) (K.faults sink.new) result }
{
    for index in 0..entries.len() {
        let entry = entries.get(index);
        let token = Token::Entry(u64::from(entry.position), u64::from(entry.value));
        put_token(sink, held, token)?;
    }
    Ok(())
}
