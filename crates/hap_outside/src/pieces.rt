// A text in pieces, which one call writes.
ghost use Rattle.hap_outside.specs.Causes.{HasCause};
ghost use Rattle.hap_outside.specs.Writes.{Writes};
ghost use Rattle.hap_outside.specs.Pieces.{texts_of};

use crate::held::Held;
use crate::sink::Sink;
use crate::source::Failed;

/// A part of a text.
#[derive(Clone, Copy)]
pub enum Piece<'a> {
    /// These bytes.
    Text(&'a [u8]),
    /// The decimal text of a number that is not negative.
    Count(u64),
    /// The decimal text of a number, with a minus sign below 0.
    Number(i128),
}

/// Appends the texts of the pieces one after another, or less than all that and fails. They are gathered,
/// and handed on a line at a time.
pub fn write_pieces<K: Sink>(sink: &mut K, pieces: &[Piece<'_>]) -> Result<(), Failed>
    ensures bytes { Writes (K.written sink.old) (K.written sink.new) (texts_of pieces.now) result }
    ensures cause { HasCause (K.faults sink.old) (K.faults sink.new) result }
{
    let mut held = Held::new();
    match held.put(sink, pieces) {
        Ok(()) => held.finish(sink),
        Err(Failed) => Err(Failed),
    }
}
