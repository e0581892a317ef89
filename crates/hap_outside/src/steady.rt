// A source in memory that never fails.
ghost use Rattle.std.specs.Prelude.{◌≡◌, false, true, IsOk, IfOk, length, take, drop, ◌++◌, min};
ghost use Rattle.std.specs.declared.option.Option.TheVariants.{Some};
ghost use Rattle.hap_outside.specs.Stores.{left_once, none_before};

use crate::copying::copy_front;
use crate::source::{Failed, Source};
use std::alloc::{AllocError, Global};
use std::marker::Model;

/// A source that has the same bytes under each name and never fails.
#[derive(Drop)]
pub struct Steady {
    bytes: Vec<u8>,
    taken: usize,
    is_begun: bool,
}

impl Model for Steady {
    ghost use Rattle.std.specs.Prelude.{◌≤◌, length, drop};
    ghost use Rattle.hap_outside.specs.SteadyState.{SteadyState};

    ghost Value = { SteadyState };

    ghost view = { λ s. record {
      bytes = s.bytes.items;
      begun = s.is_begun;
      rest = drop s.taken s.bytes.items;
    } };

    ghost invariant = { λ s. s.taken ≤ length s.bytes.items };
}

impl Steady {
    /// A source that is not begun, with these bytes under each name.
    pub fn new(alloc: Global, bytes: &[u8]) -> Result<Steady, AllocError>
        ensures { IfOk result (λ source. source ≡ record {
          bytes = bytes.now;
          begun = false;
          rest = bytes.now;
        }) }
    {
        Ok(Steady {
            bytes: Vec::from_slice(alloc, bytes)?,
            taken: 0,
            is_begun: false,
        })
    }
}

impl Source for Steady {
    ghost store = { λ s. Some (λ _. Some s.bytes) };

    ghost left = { λ s. Some (left_once s.begun s.rest) };

    ghost begun = { λ s. s.begun };

    ghost faults = { λ _. 0 };

    ghost none_before = { λ s h. none_before s.begun s.rest h };

    fn begin(&mut self, _name: Option<&str>) -> Result<(), Failed>
        ensures never { IsOk result }
        ensures after { self.new ≡ record self.old { begun = true; rest = self.old.bytes } }
    {
        self.taken = 0;
        self.is_begun = true;
        Ok(())
    }

    fn read(&mut self, buf: &mut [u8]) -> Result<usize, Failed>
        ensures never { IsOk result }
        ensures count { IfOk result (λ n. n ≡ min (length buf.old) (length self.old.rest)) }
        ensures bytes { IfOk result (λ n. buf.new ≡ take n self.old.rest ++ drop n buf.old) }
        ensures after { IfOk result (λ n. self.new ≡ record self.old { rest = drop n self.old.rest }) }
    {
        let count = copy_front(buf, &self.bytes[self.taken..]);
        self.taken += count;
        Ok(count)
    }
}
