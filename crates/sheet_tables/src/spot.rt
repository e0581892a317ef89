ghost use Rattle.std.specs.Prelude.{◌≡◌, ◌≢◌, ◌≤◌, ◌+◌, ◌↔◌, [], length, take, drop, IsTrue, IfOk, IfErr};
ghost use Rattle.std.specs.Prelude.{Some, None, IfSome, option_map, ◌<◌};
ghost use Rattle.sheet_tables.specs.Positions.{IsProper, position_from};
ghost use Rattle.sheet_tables.specs.Spots.{spot_from, component_from, at_slash, in_component, IsSpot};

use crate::position::{Position, PositionFault};
use std::alloc::Global;
use std::marker::Model;

/// A position in the list of sheet tables of one component of a space. Components are numbered from 1.
/// The start is that of component 1.
#[derive(Drop)]
pub struct Spot {
    component: u32,
    position: Position,
}

impl Model for Spot {
    ghost use Rattle.sheet_tables.specs.Spots.{Mark, IsSpot};

    ghost Value = { Mark };

    ghost view = { λ s.
        record
        { component = s.component; sheets = s.position.sheets; cells = s.position.cells; room = s.position.room } };

    ghost invariant = { λ s. IsSpot s.component s.position.sheets s.position.cells };
}

impl Spot {
    /// The start: component 1 and the start of its list.
    pub fn start(alloc: Global) -> Spot
        ensures { result ≡ record { component = 1; sheets = 0; cells = []; room = 0 } }
    {
        Spot {
            component: 1,
            position: Position::start(alloc),
        }
    }

    /// A position that is not the start, in a component from 1 to 60,000.
    pub fn new(component: u32, position: Position) -> Spot
        requires first { 1 ≤ component }
        requires last { component ≤ 60000 }
        requires proper { IsProper position.sheets position.cells }
        ensures { result
            ≡ record
            { component = component; sheets = position.sheets; cells = position.cells; room = position.room } }
    {
        Spot {
            component,
            position,
        }
    }

    /// The spot of a text: that of a position, in component 1, and in a component from 2 to 60,000 its
    /// number without leading zeros, `/`, and the text of a position. `Form` comes exactly where the text
    /// has no such form.
    pub fn parse(alloc: Global, text: &str) -> Result<Spot, PositionFault>
        ensures spot { IfOk result (λ s. spot_from text.now ≡ Some (s.component, s.sheets, s.cells)) }
        ensures room { IfOk result (λ s. s.room ≡ length s.cells) }
        // Want of memory may be answered to any text.
        ensures fault { IfErr result (λ fault. fault ≢ PositionFault.Memory → spot_from text.now ≡ None) }
    {
        let bytes = text.as_bytes();
        match find_slash(bytes) {
            None => parse_in(alloc, 1, bytes),
            Some(index) => match read_component(&bytes[..index]) {
                None => Err(PositionFault::Form),
                Some(component) => parse_in(alloc, component, &bytes[index + 1..]),
            },
        }
    }

    /// Whether it is the start.
    pub fn is_start(&self) -> bool
        ensures { IsTrue result ↔ (self.now.sheets ≡ 0) }
    {
        self.position.is_start()
    }

    /// The component, 1 to 60,000.
    pub fn component(&self) -> u32
        ensures component { result ≡ self.now.component }
        ensures valid { IsSpot self.now.component self.now.sheets self.now.cells }
    {
        self.component
    }

    /// The position in the component.
    pub fn position(&self) -> &Position
        ensures { result.now ≡ record { sheets = self.now.sheets; cells = self.now.cells; room = self.now.room } }
    {
        &self.position
    }
}

/// The spot of the text of a position, in a component.
fn parse_in(alloc: Global, component: u32, text: &[u8]) -> Result<Spot, PositionFault>
    requires first { 1 ≤ component }
    requires last { component ≤ 60000 }
    ensures spot { IfOk result
        (λ s. in_component component (position_from text.now) ≡ Some (s.component, s.sheets, s.cells)) }
    ensures room { IfOk result (λ s. s.room ≡ length s.cells) }
    ensures fault { IfErr result
        (λ fault. fault ≢ PositionFault.Memory → in_component component (position_from text.now) ≡ None) }
{
    let position = Position::parse_bytes(alloc, text)?;
    Ok(Spot::new(component, position))
}

/// Where the first slash stands, counted from 0.
fn find_slash(text: &[u8]) -> Option<usize>
    ensures parts { at_slash text.now ≡ option_map (λ i. (take i text.now, drop (i + 1) text.now)) result }
    ensures within { IfSome result (λ i. i < length text.now) }
{
    for index in 0..text.len() {
        if text[index] == b'/' {
            return Some(index);
        }
    }
    None
}

/// The component from 2 to 60,000 that these digits write, the first of which is not 0.
fn read_component(digits: &[u8]) -> Option<u32>
    ensures component { result ≡ component_from digits.now }
    ensures range { IfSome result (λ c. (2 ≤ c) × (c ≤ 60000)) }
{
    let [b'1'..=b'9', ..] = digits else {
        return None;
    };
    let mut component = 0;
    'digits: for byte in digits {
        if !byte.is_ascii_digit() {
            return None;
        }
        component = component * 10 + u32::from(*byte - b'0');
        if component > 60_000 {
            return None;
        }
    }
    if component < 2 { None } else { Some(component) }
}
