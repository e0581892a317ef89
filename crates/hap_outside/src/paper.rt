// Sinks in memory.
ghost use Rattle.std.specs.Prelude.{◌≡◌, ◌<◌, ◌++◌, ◌∷◌, [], length, min, take, IsErr, IsTrue, ◌↔◌, IfOk};
ghost use Rattle.std.specs.Prelude.{OnOk, OnErr, None};
ghost use Rattle.std.specs.declared.option.Option.TheVariants.{Some};
ghost use Rattle.std.specs.Io.{WritesAtMost};
ghost use Rattle.std.specs.Io.KnownBytes.{WriteAppends};
ghost use Rattle.hap_outside.specs.Causes.{HasCause, next_count};
ghost use Rattle.hap_outside.specs.PaperState.{room_left, write_fails};

use crate::sink::Sink;
use crate::source::Failed;
use std::alloc::{AllocError, Global};
use std::marker::Model;

/// A sink in memory, with room for a number of bytes that is taken at its making. Writes can be listed
/// to fail.
#[derive(Drop)]
pub struct Paper {
    bytes: Vec<u8>,
    room: usize,
    listed: Vec<u64>,
    calls: u64,
    faults: u64,
}

impl Model for Paper {
    ghost use Rattle.std.specs.Prelude.{◌≤◌, length, vec_capacity};
    ghost use Rattle.hap_outside.specs.PaperState.{PaperState};

    ghost Value = { PaperState };

    ghost view = { λ s. record {
      bytes = s.bytes.items;
      room = s.room;
      listed = s.listed.items;
      calls = s.calls;
      faults = s.faults;
    } };

    ghost invariant = { λ s. (length s.bytes.items ≤ s.room) × (s.room ≤ vec_capacity s.bytes) };
}

impl Paper {
    /// A sink that took nothing, with room for so many bytes.
    pub fn new(alloc: Global, room: usize) -> Result<Paper, AllocError>
        ensures { IfOk result (λ paper. paper ≡ record {
          bytes = [];
          room = room;
          listed = [];
          calls = 0;
          faults = 0;
        }) }
    {
        Ok(Paper {
            bytes: Vec::with_capacity(alloc, room)?,
            room,
            listed: Vec::new(alloc),
            calls: 0,
            faults: 0,
        })
    }

    /// Makes the write with that number, counted from 1, fail.
    pub fn fail_at(&mut self, call: u64) -> Result<(), AllocError>
        ensures ok { OnOk result (self.new ≡ record self.old { listed = self.old.listed ++ call ∷ [] }) }
        ensures err { OnErr result (self.new ≡ self.old) }
    {
        self.listed.push(call)?;
        Ok(())
    }

    /// What was written.
    pub fn bytes(&self) -> &[u8]
        ensures { result.now ≡ self.now.bytes }
    {
        &self.bytes
    }
}

impl Sink for Paper {
    ghost written = { λ s. Some s.bytes };

    ghost faults = { λ s. s.faults };

    fn write(&mut self, piece: &[u8]) -> Result<usize, Failed>
        ensures fails { IsErr result ↔ IsTrue (write_fails self.old piece.now) }
        ensures count { IfOk result (λ n. n ≡ min (length piece.now) (room_left self.old)) }
        ensures ok { IfOk result (λ n. self.new ≡ record self.old {
          bytes = self.old.bytes ++ take n piece.now;
          calls = next_count self.old.calls;
        }) }
        ensures err { OnErr result (self.new ≡ record self.old {
          calls = next_count self.old.calls;
          faults = next_count self.old.faults;
        }) }

        // As each sink.
        ensures bound { WritesAtMost result piece.now }
        ensures some { IfOk result (λ n. 0 < length piece.now → 0 < n) }
        ensures bytes { WriteAppends (Some self.old.bytes) (Some self.new.bytes) result piece.now }
        ensures cause { HasCause self.old.faults self.new.faults result }
    {
        self.calls = self.calls.saturating_add(1);
        let count = piece.len().min(self.room - self.bytes.len());
        if self.listed.contains(&self.calls) || (count == 0 && !piece.is_empty()) {
            self.faults = self.faults.saturating_add(1);
            return Err(Failed);
        }
        let taken = self.bytes.extend_from_slice(&piece[..count]);
        let _ = taken;
        Ok(count)
    }
}

/// A sink that takes every piece whole, and keeps and tells nothing of it. It never fails.
#[derive(Clone, Copy, Debug)]
pub struct Tally;

impl Tally {
    /// A sink that took nothing.
    pub fn new() -> Tally
        ensures { result ≡ record {} }
    {
        Tally
    }
}

impl Sink for Tally {
    ghost written = { λ _. None };

    ghost faults = { λ _. 0 };

    fn write(&mut self, piece: &[u8]) -> Result<usize, Failed>
        ensures { result ≡ Ok (length piece.now) }
    {
        Ok(piece.len())
    }
}
