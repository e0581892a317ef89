// A sink of bytes by what it means, and the calls that write to it.
ghost use Rattle.std.specs.Prelude.{◌<◌, ◌+◌, List, ℕ, length, IfOk};
ghost use Rattle.std.specs.Fmt.{signed_decimal};
ghost use Rattle.std.specs.declared.option.Option.{Option};
ghost use Rattle.std.specs.Io.{WritesAtMost};
ghost use Rattle.std.specs.Io.KnownBytes.{WriteAppends};
ghost use Rattle.hap_outside.specs.Causes.{HasCause};
ghost use Rattle.hap_outside.specs.Writes.{Writes};

use crate::source::Failed;
use itoa::Buffer;

/// Bytes go in, piece by piece.
pub trait Sink {
    /// The bytes that it took, where they are told.
    ghost written: { Self → Option (List ℕ) };

    /// How many calls failed. The count is of 64 bits, and stands still at its last value.
    ghost faults: { Self → ℕ };

    /// Appends the first bytes of the piece and answers how many these are: at least one of a piece
    /// that is not empty. A call that fails appends nothing.
    fn write(&mut self, piece: &[u8]) -> Result<usize, Failed>
        ensures bound { WritesAtMost result piece.now }
        ensures some { IfOk result (λ n. 0 < length piece.now → 0 < n) }
        ensures bytes { WriteAppends (written self.old) (written self.new) result piece.now }
        ensures cause { HasCause (faults self.old) (faults self.new) result };
}

/// Appends the whole piece, or less than all of it and fails.
pub fn write_all<K: Sink>(sink: &mut K, piece: &[u8]) -> Result<(), Failed>
    ensures bytes { Writes (K.written sink.old) (K.written sink.new) piece.now result }
    ensures cause { HasCause (K.faults sink.old) (K.faults sink.new) result }
{
    let mut done = 0;
    'turns: while done < piece.len() {
        let count = sink.write(&piece[done..])?;
        done += count;
    }
    Ok(())
}

/// Appends the decimal text of the value, with a minus sign below 0, or less than all of it and fails.
pub fn write_number<K: Sink>(sink: &mut K, value: i128) -> Result<(), Failed>
    ensures bytes { Writes (K.written sink.old) (K.written sink.new) (signed_decimal value) result }
    ensures cause { HasCause (K.faults sink.old) (K.faults sink.new) result }
{
    let mut buffer = Buffer::new();
    let text = buffer.format(value);
    write_all(sink, text.as_bytes())
}
