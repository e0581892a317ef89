// A fixed buffer in front of a sink, so that a line of many pieces is one write.
ghost use Rattle.std.specs.Prelude.{◌≡◌, ◌++◌, [], ◌+◌, ◌≤◌, length};
ghost use Rattle.hap_outside.specs.Causes.{HasCause};
ghost use Rattle.hap_outside.specs.Writes.{Writes};
ghost use Rattle.hap_outside.specs.Pieces.{text_of, texts_of};
ghost use Rattle.hap_outside.specs.Gathers.{Gathers};

use crate::pieces::Piece;
use crate::sink::{Sink, write_all};
use crate::source::Failed;
use itoa::Buffer;
use std::marker::Model;

/// How many bytes it holds at most.
const ROOM: usize = 4096;

/// The bytes that were put and not yet handed on, as contracts see it.
#[derive(Drop)]
pub struct Held {
    buf: [u8; 4096],
    len: usize,
}

impl Model for Held {
    ghost use Rattle.std.specs.Prelude.{List, ℕ, take, ◌≤◌};

    ghost Value = { List ℕ };

    ghost view = { λ h. take h.len h.buf };

    ghost invariant = { λ h. h.len ≤ 4096 };
}

impl Held {
    /// It holds nothing.
    pub fn new() -> Held
        ensures { result ≡ [] }
    {
        Held {
            buf: [0; ROOM],
            len: 0,
        }
    }

    fn len(&self) -> usize
        ensures count { result ≡ length self.now }
        ensures fits { result ≤ 4096 }
    {
        self.len
    }

    // Takes in bytes that fit.
    fn take_in(&mut self, bytes: &[u8])
        requires { length self.old + length bytes.now ≤ 4096 }
        ensures { self.new ≡ self.old ++ bytes.now }
    {
        let end = self.len + bytes.len();
        self.buf[self.len..end].copy_from_slice(bytes);
        self.len = end;
    }

    /// Hands on all that it holds, or a prefix of it and fails. It holds nothing then.
    pub fn finish<K: Sink>(&mut self, sink: &mut K) -> Result<(), Failed>
        ensures bytes { Writes (K.written sink.old) (K.written sink.new) self.old result }
        ensures cause { HasCause (K.faults sink.old) (K.faults sink.new) result }
        ensures empty { self.new ≡ [] }
    {
        let handed = write_all(sink, &self.buf[..self.len]);
        self.len = 0;
        handed
    }

    // Puts a text that fits behind what it holds, and hands all on where the text ends a line.
    fn hold<K: Sink>(&mut self, sink: &mut K, text: &[u8]) -> Result<(), Failed>
        requires { length self.old + length text.now ≤ 4096 }
        ensures bytes { Gathers (K.written sink.old) (K.written sink.new) self.old self.new text.now result }
        ensures cause { HasCause (K.faults sink.old) (K.faults sink.new) result }
    {
        self.take_in(text);
        if let [.., b'\n'] = text {
            return self.finish(sink);
        }
        Ok(())
    }

    // Puts a text behind what it holds.
    fn put_text<K: Sink>(&mut self, sink: &mut K, text: &[u8]) -> Result<(), Failed>
        ensures bytes { Gathers (K.written sink.old) (K.written sink.new) self.old self.new text.now result }
        ensures cause { HasCause (K.faults sink.old) (K.faults sink.new) result }
    {
        if text.len() <= ROOM - self.len() {
            return self.hold(sink, text);
        }
        match self.finish(sink) {
            Err(Failed) => Err(Failed),
            Ok(()) => {
                if text.len() <= ROOM {
                    self.hold(sink, text)
                } else {
                    write_all(sink, text)
                }
            }
        }
    }

    fn put_piece<K: Sink>(&mut self, sink: &mut K, piece: Piece<'_>) -> Result<(), Failed>
        ensures bytes { Gathers (K.written sink.old) (K.written sink.new) self.old self.new
            (text_of piece.entry) result }
        ensures cause { HasCause (K.faults sink.old) (K.faults sink.new) result }
    {
        let mut buffer = Buffer::new();
        match piece {
            Piece::Text(text) => self.put_text(sink, text),
            Piece::Count(value) => self.put_text(sink, buffer.format(value).as_bytes()),
            Piece::Number(value) => self.put_text(sink, buffer.format(value).as_bytes()),
        }
    }

    /// Puts the texts of the pieces behind what it holds. It hands on what it holds at a piece that
    /// ends a line, and before one that no longer fits.
    pub fn put<K: Sink>(&mut self, sink: &mut K, pieces: &[Piece<'_>]) -> Result<(), Failed>
        ensures bytes { Gathers (K.written sink.old) (K.written sink.new) self.old self.new
            (texts_of pieces.now) result }
        ensures cause { HasCause (K.faults sink.old) (K.faults sink.new) result }
    {
        match pieces {
            [] => Ok(()),
            [first, rest @ ..] => match self.put_piece(sink, *first) {
                Ok(()) => self.put(sink, rest),
                Err(Failed) => Err(Failed),
            },
        }
    }
}
