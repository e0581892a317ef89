// A source in memory with bytes under names, of which calls can be listed to fail.
ghost use Rattle.std.specs.Prelude.{◌≡◌, ◌≢◌, ◌↔◌, ◌++◌, ◌∷◌, [], ℕ, List, true, false, option_copied};
ghost use Rattle.std.specs.Prelude.{unwrap_or, min, take, drop, length, IsErr, IsTrue, IfOk, OnOk, OnErr};
ghost use Rattle.std.specs.declared.option.Option.{Option};
ghost use Rattle.std.specs.declared.option.Option.TheVariants.{Some};
ghost use Rattle.std.specs.Io.{ReadsAtMost};
ghost use Rattle.std.specs.Io.KnownBytes.{ReadConsumes};
ghost use Rattle.hap_outside.specs.BytesState.{lookup, counted, counted_fault, begin_fails};
ghost use Rattle.hap_outside.specs.Causes.{HasCause, next_fails};
ghost use Rattle.hap_outside.specs.Stores.{Opens, left_once, none_before};

use crate::copying::copy_front;
use crate::entries::{Entry, find, rest_at};
use crate::source::{Failed, Source};
use std::alloc::{AllocError, Global};
use std::marker::Model;

/// A source that has the bytes which were put under names. A begin of another name fails, and so do
/// the calls that are listed.
#[derive(Drop)]
pub struct Bytes {
    alloc: Global,
    entries: Vec<Entry>,
    listed: Vec<u64>,
    calls: u64,
    faults: u64,
    is_begun: bool,
    open_at: Option<usize>,
    taken: usize,
}

impl Model for Bytes {
    ghost use Rattle.std.specs.Prelude.{◌≡◌, false, map, None};
    ghost use Rattle.hap_outside.specs.BytesState.{BytesState};
    ghost use Rattle.hap_outside.specs.Entries.{named_bytes, left_at, IsWithin};

    ghost Value = { BytesState };

    ghost view = { λ s. record {
      entries = map named_bytes s.entries.items;
      listed = s.listed.items;
      calls = s.calls;
      faults = s.faults;
      begun = s.is_begun;
      rest = left_at s.open_at s.taken s.entries.items;
    } };

    ghost invariant = { λ s. (IsWithin s.entries.items s.open_at s.taken)
        × (s.is_begun ≡ false → s.open_at ≡ None) };
}

impl Bytes {
    /// A source that is not begun, with nothing under any name and no call listed.
    pub fn new(alloc: Global) -> Bytes
        ensures { result ≡ record {
          entries = [];
          listed = [];
          calls = 0;
          faults = 0;
          begun = false;
          rest = [];
        } }
    {
        Bytes {
            alloc,
            entries: Vec::new(alloc),
            listed: Vec::new(alloc),
            calls: 0,
            faults: 0,
            is_begun: false,
            open_at: None,
            taken: 0,
        }
    }

    /// Sets what stands under the name, or for standard input. What is left to read stays.
    pub fn put(&mut self, name: Option<&str>, bytes: &[u8]) -> Result<(), AllocError>
        ensures ok { OnOk result (self.new ≡ record self.old {
          entries = self.old.entries ++ (option_copied name.entry, bytes.now) ∷ [];
        }) }
        ensures err { OnErr result (self.new ≡ self.old) }
        ensures stands { OnOk result (lookup self.new.entries (option_copied name.entry) ≡ Some bytes.now) }
        ensures others { (other : Option (List ℕ)) → other ≢ option_copied name.entry
            → lookup self.new.entries other ≡ lookup self.old.entries other }
    {
        let entry = Entry::new(self.alloc, name, bytes)?;
        self.entries.push(entry)?;
        Ok(())
    }

    /// Makes the call with that number, counted from 1 over `begin` and `read`, fail.
    pub fn fail_at(&mut self, call: u64) -> Result<(), AllocError>
        ensures ok { OnOk result (self.new ≡ record self.old { listed = self.old.listed ++ call ∷ [] }) }
        ensures err { OnErr result (self.new ≡ self.old) }
    {
        self.listed.push(call)?;
        Ok(())
    }

    // Counts a call, and answers whether it is to fail.
    fn count_call(&mut self) -> bool
        ensures answer { result ≡ next_fails self.old.listed self.old.calls }
        ensures counted { self.new ≡ counted self.old }
    {
        self.calls = self.calls.saturating_add(1);
        self.listed.contains(&self.calls)
    }
}

impl Source for Bytes {
    ghost store = { λ s. Some (lookup s.entries) };

    ghost left = { λ s. Some (left_once s.begun s.rest) };

    ghost begun = { λ s. s.begun };

    ghost faults = { λ s. s.faults };

    ghost none_before = { λ s h. none_before s.begun s.rest h };

    fn begin(&mut self, name: Option<&str>) -> Result<(), Failed>
        requires { self.old.begun ≡ false }
        ensures fails { IsErr result ↔ IsTrue (begin_fails self.old (option_copied name.entry)) }
        ensures ok { OnOk result (self.new ≡ record (counted self.old) {
          begun = true;
          rest = unwrap_or (lookup self.old.entries (option_copied name.entry)) [];
        }) }
        ensures err { OnErr result (self.new ≡ record (counted_fault self.old) { begun = true; rest = [] }) }

        // As each source.
        ensures opens { Opens (Some (lookup self.old.entries)) (option_copied name.entry)
            (Some self.new.rest) result }
        ensures stays { OnErr result (left_once self.new.begun self.new.rest
            ≡ left_once self.old.begun self.old.rest) }
        ensures cause { HasCause self.old.faults self.new.faults result }
    {
        let fails = self.count_call();
        self.is_begun = true;
        if !fails {
            if let Some(place) = find(&self.entries, name) {
                self.open_at = Some(place);
                self.taken = 0;
                return Ok(());
            }
        }
        self.faults = self.faults.saturating_add(1);
        Err(Failed)
    }

    fn read(&mut self, buf: &mut [u8]) -> Result<usize, Failed>
        ensures fails { IsErr result ↔ IsTrue (next_fails self.old.listed self.old.calls) }
        ensures count { IfOk result (λ n. n ≡ min (length buf.old) (length self.old.rest)) }
        ensures bytes { IfOk result (λ n. buf.new ≡ take n self.old.rest ++ drop n buf.old) }
        ensures ok { IfOk result (λ n. self.new ≡ record (counted self.old) { rest = drop n self.old.rest }) }
        ensures err { OnErr result (self.new ≡ counted_fault self.old) }

        // As each source.
        ensures bound { ReadsAtMost result buf.new }
        ensures takes { ReadConsumes (Some self.old.rest) (Some self.new.rest) result buf.new }
        ensures cause { HasCause self.old.faults self.new.faults result }
    {
        if self.count_call() {
            self.faults = self.faults.saturating_add(1);
            return Err(Failed);
        }
        let rest = rest_at(&self.entries, self.open_at, self.taken);
        let count = copy_front(buf, rest);
        self.taken += count;
        Ok(count)
    }
}
