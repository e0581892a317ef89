ghost use Rattle.std.specs.Prelude.{◌≡◌, ◌+◌, ◌≤◌, ◌^◌, ◌++◌, map, OnOk, IfErr, Ok};
ghost use Rattle.gap_text.specs.Nest.{view};
ghost use Rattle.gap_text.specs.Reading.{at, RangeClose, takes_value, takes_close, put, filled, counted};
ghost use Rattle.gap_text.specs.Reading.{step, refused, shape_of, start, value_at_end};
ghost use Rattle.gap_text.specs.Tokens.{Open, Close, Comma, Dots, Semicolon, Number};
ghost use Rattle.gap_text.specs.States.{Gives, Takes, phase_of, levels_of, state_of};

use crate::fault::TextFault;
use crate::nest::{Items, Nest};
use std::alloc::Global;
use std::mem;

/// How many lists may lie in one another.
const DEEPEST: usize = 8;

/// How many numbers the ranges of a text may make.
const MOST_MADE: u64 = 1_000_000;

/// An open list: its place, and the values that it has so far.
#[derive(Drop)]
pub struct Level {
    place: u32,
    so_far: Vec<Nest>,
}

/// What may come next.
#[derive(Drop)]
pub enum Phase {
    AnyValue,
    FirstItem,
    AfterItem,
    RangeEnd { place: u32, first: u32 },
    RangeClose,
    Whole(Nest),
    Over(Nest),
}

/// What the tokens so far leave: what may come next, the open lists with the innermost last, and how
/// many numbers the ranges made.
#[derive(Drop)]
pub struct State {
    phase: Phase,
    open_lists: Vec<Level>,
    made: u32,
}

/// What a list is so far, where a `..` comes.
#[derive(Clone, Copy)]
enum Shape {
    OneNumber { place: u32, value: u32 },
    TwoNumbers,
    Longer,
}

impl Phase {
    fn takes_value(&self) -> bool
        ensures { result ≡ takes_value (phase_of self.now) }
    {
        matches!(self, Phase::AnyValue | Phase::FirstItem)
    }

    fn takes_close(&self) -> bool
        ensures { result ≡ takes_close (phase_of self.now) }
    {
        matches!(
            self,
            Phase::FirstItem | Phase::AfterItem | Phase::RangeClose
        )
    }
}

fn shape_so_far(so_far: &[Nest]) -> Shape
    ensures { result ≡ shape_of (map view so_far.now) }
{
    match so_far {
        [Nest::Number { place, value }] => Shape::OneNumber {
            place: *place,
            value: *value,
        },
        [Nest::Number { .. }, Nest::Number { .. }] => Shape::TwoNumbers,
        _ => Shape::Longer,
    }
}

/// The fault of a token that is not allowed, other than `..`.
fn refused(phase: &Phase, place: u32) -> TextFault
    ensures { result ≡ refused (phase_of phase.now) place }
{
    match phase {
        Phase::RangeEnd { .. } => TextFault::BadRange(place),
        Phase::RangeClose => TextFault::BadRange(place),
        Phase::AnyValue => TextFault::Stray(place),
        Phase::FirstItem => TextFault::Stray(place),
        Phase::AfterItem => TextFault::Stray(place),
        Phase::Whole(_) => TextFault::Stray(place),
        Phase::Over(_) => TextFault::Stray(place),
    }
}

impl State {
    pub fn new(alloc: Global) -> State
        ensures { state_of result ≡ start }
    {
        State {
            phase: Phase::AnyValue,
            open_lists: Vec::new(alloc),
            made: 0,
        }
    }

    /// Makes the value an item of the innermost list, or the value of the text.
    fn put(&mut self, nest: Nest) -> Result<(), TextFault>
        ensures { Takes (Ok (put (view nest) (levels_of self.old.open_lists.items) self.old.made)) (state_of self.new)
            result }
    {
        match self.open_lists.pop() {
            None => {
                self.phase = Phase::Whole(nest);
                Ok(())
            }
            Some(mut level) => {
                level.so_far.push(nest)?;
                self.open_lists.push(level)?;
                self.phase = Phase::AfterItem;
                Ok(())
            }
        }
    }

    /// After a `[`.
    pub fn after_open(&mut self, alloc: Global, place: u32) -> Result<(), TextFault>
        ensures { Takes (step (state_of self.old) (Open place)) (state_of self.new) result }
    {
        if !self.phase.takes_value() {
            return Err(refused(&self.phase, place));
        }
        if self.open_lists.len() >= DEEPEST {
            return Err(TextFault::TooDeep(place));
        }
        self.open_lists.push(Level {
            place,
            so_far: Vec::new(alloc),
        })?;
        self.phase = Phase::FirstItem;
        Ok(())
    }

    /// After a `]`.
    pub fn after_close(&mut self, alloc: Global, place: u32) -> Result<(), TextFault>
        ensures { Takes (step (state_of self.old) (Close place)) (state_of self.new) result }
    {
        if !self.phase.takes_close() {
            return Err(refused(&self.phase, place));
        }
        let Some(level) = self.open_lists.pop() else {
            return Err(TextFault::Stray(place));
        };
        let place = level.place;
        let items = Items::from_nests(alloc, level.so_far)?;
        self.put(Nest::List { place, items })
    }

    /// After a `,`.
    pub fn after_comma(&mut self, place: u32) -> Result<(), TextFault>
        ensures { Takes (step (state_of self.old) (Comma place)) (state_of self.new) result }
    {
        match &self.phase {
            Phase::AfterItem => {
                self.phase = Phase::AnyValue;
                Ok(())
            }
            phase => Err(refused(phase, place)),
        }
    }

    /// After a `..`.
    pub fn after_dots(&mut self, place: u32) -> Result<(), TextFault>
        ensures { Takes (step (state_of self.old) (Dots place)) (state_of self.new) result }
    {
        let Phase::AfterItem = &self.phase else {
            return Err(TextFault::BadRange(place));
        };
        let Some(mut level) = self.open_lists.pop() else {
            return Err(TextFault::BadRange(place));
        };
        match shape_so_far(&level.so_far) {
            Shape::OneNumber { place, value } => {
                level.so_far.truncate(0);
                self.open_lists.push(level)?;
                self.phase = Phase::RangeEnd {
                    place,
                    first: value,
                };
                Ok(())
            }
            Shape::TwoNumbers => Err(TextFault::Stepped(place)),
            Shape::Longer => Err(TextFault::BadRange(place)),
        }
    }

    /// After a `;`.
    pub fn after_semicolon(&mut self, place: u32) -> Result<(), TextFault>
        ensures { Takes (step (state_of self.old) (Semicolon place)) (state_of self.new) result }
    {
        match mem::replace(&mut self.phase, Phase::AnyValue) {
            Phase::Whole(nest) => {
                self.phase = Phase::Over(nest);
                Ok(())
            }
            phase => Err(refused(&phase, place)),
        }
    }

    /// After a number, which is too big where its value does not fit.
    pub fn after_number(&mut self, place: u32, value: u64) -> Result<(), TextFault>
        ensures { Takes (step (state_of self.old) (Number place value)) (state_of self.new) result }
    {
        let Ok(value) = u32::try_from(value) else {
            return Err(TextFault::NumberTooBig(place));
        };
        match &self.phase {
            Phase::AnyValue | Phase::FirstItem => self.put(Nest::Number { place, value }),
            Phase::RangeEnd {
                place: begin,
                first,
            } => {
                let (begin, first) = (*begin, *first);
                let count = (u64::from(value) + 1).saturating_sub(u64::from(first));
                if u64::from(self.made) + count > MOST_MADE {
                    return Err(TextFault::BadRange(place));
                }
                self.fill(begin, first, count as u32)
            }
            phase => Err(refused(phase, place)),
        }
    }

    /// Gives the innermost list the numbers of a range.
    fn fill(&mut self, place: u32, first: u32, count: u32) -> Result<(), TextFault>
        requires numbers { first + count ≤ 2 ^ 32 }
        requires few { self.old.made + count ≤ 1000000 }
        ensures { Takes
            (Ok
            (at RangeClose (filled (counted place first count) (levels_of self.old.open_lists.items))
            (self.old.made + count))) (state_of self.new) result }
    {
        self.phase = Phase::RangeClose;
        self.made += count;
        match self.open_lists.pop() {
            None => Ok(()),
            Some(mut level) => {
                push_range(&mut level.so_far, place, first, count)?;
                self.open_lists.push(level)?;
                Ok(())
            }
        }
    }

    /// The value, at the end of the text.
    pub fn into_value(self, place: u32) -> Result<Nest, TextFault>
        ensures { Gives view (value_at_end (state_of self).phase place) result }
    {
        let State {
            phase,
            open_lists: _,
            made: _,
        } = self;
        match phase {
            Phase::Whole(nest) => Ok(nest),
            Phase::Over(nest) => Ok(nest),
            _ => Err(TextFault::Unclosed(place)),
        }
    }
}

/// Puts the numbers from `first` on, `count` of them, last in the list.
fn push_range(so_far: &mut Vec<Nest>, place: u32, first: u32, count: u32) -> Result<(), TextFault>
    requires { first + count ≤ 2 ^ 32 }
    ensures numbers { OnOk result (map view so_far.new.items ≡ map view so_far.old.items ++ counted place first count) }
    ensures err { IfErr result (λ fault. fault ≡ TextFault.Memory) }
{
    for index in 0..count {
        so_far.push(Nest::Number {
            place,
            value: first + index,
        })?;
    }
    Ok(())
}
