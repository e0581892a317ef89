// The source and the sinks of the host. They tell what the reader or the writer behind them tells, and
// those of the host tell no bytes.
ghost use Rattle.std.specs.Prelude.{◌≡◌, true, false, None};
ghost use Rattle.hap_outside.specs.HostState.{told_once, none_told_before};

use crate::sink::Sink;
use crate::source::{Failed, Source};
use std::fs;
use std::io::{Read, Write};
use std::marker::Model;
use std::rt::Files;

/// Standard input, or the file that `begin` names.
#[derive(Drop)]
pub struct HostSource<R: Files + Input + Drop> {
    runtime: R,
    origin: Origin<R::Reader, R::File>,
    is_begun: bool,
    faults: u64,
}

#[derive(Drop)]
enum Origin<I, F> {
    Closed,
    Standard(I),
    Named(F),
}

impl<R: Files + Input + Drop> Model for HostSource<R> {
    ghost use Rattle.hap_outside.specs.HostState.{HostState, origin_rest};

    ghost Value = { HostState };

    ghost view = { λ s. record {
      begun = s.is_begun;
      rest = origin_rest R.Reader.remaining R.File.remaining s.origin;
      faults = s.faults;
    } };
}

impl<R: Files + Input + Drop> HostSource<R> {
    /// A source that is not begun, and opens nothing before it is.
    pub fn new(runtime: R) -> HostSource<R>
        ensures { result ≡ record { begun = false; rest = None; faults = 0 } }
    {
        HostSource {
            runtime,
            origin: Origin::Closed,
            is_begun: false,
            faults: 0,
        }
    }
}

impl<R: Files + Input + Drop> Source for HostSource<R> {
    ghost store = { λ _. None };

    ghost left = { λ s. told_once s.begun s.rest };

    ghost begun = { λ s. s.begun };

    ghost faults = { λ s. s.faults };

    ghost none_before = { λ s h. none_told_before s.begun s.rest h };

    fn begin(&mut self, name: Option<&str>) -> Result<(), Failed> {
        self.is_begun = true;
        self.origin = Origin::Closed;
        match name {
            None => {
                self.origin = Origin::Standard(self.runtime.reader());
                Ok(())
            }
            Some(path) => match fs::open(&self.runtime, path) {
                Ok(file) => {
                    self.origin = Origin::Named(file);
                    Ok(())
                }
                Err(_) => {
                    self.faults = self.faults.saturating_add(1);
                    Err(Failed)
                }
            },
        }
    }

    fn read(&mut self, buf: &mut [u8]) -> Result<usize, Failed> {
        let got = match &mut self.origin {
            Origin::Closed => Ok(0),
            Origin::Standard(input) => input.read(buf),
            Origin::Named(file) => file.read(buf),
        };
        match got {
            Ok(count) => Ok(count),
            Err(_) => {
                self.faults = self.faults.saturating_add(1);
                Err(Failed)
            }
        }
    }
}

/// A writer of the standard library.
#[derive(Drop)]
pub struct HostSink<W: Write + Drop> {
    writer: W,
    faults: u64,
}

impl<W: Write + Drop> Model for HostSink<W> {
    ghost use Rattle.hap_outside.specs.HostState.{WriterState};

    ghost Value = { WriterState };

    ghost view = { λ s. record { written = W.contents s.writer; faults = s.faults } };
}

impl<W: Write + Drop> HostSink<W> {
    /// A sink that wrote nothing and met no fault.
    pub fn new(writer: W) -> HostSink<W>
        ensures { result ≡ record { written = W.contents writer; faults = 0 } }
    {
        HostSink { writer, faults: 0 }
    }
}

impl<W: Write + Drop> Sink for HostSink<W> {
    ghost written = { λ s. s.written };

    ghost faults = { λ s. s.faults };

    fn write(&mut self, piece: &[u8]) -> Result<usize, Failed> {
        match self.writer.write(piece) {
            Ok(count) if count > 0 || piece.is_empty() => Ok(count),
            _ => {
                self.faults = self.faults.saturating_add(1);
                Err(Failed)
            }
        }
    }
}
