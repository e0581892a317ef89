ghost use Rattle.std.specs.Prelude.{◌≡◌, ◌≢◌, ◌≤◌, ◌↔◌, [], length, All, IsTrue, IfOk, IfErr, Some, None};
ghost use Rattle.sheet_tables.specs.Positions.{IsProper, IsPosition, digit_from, cells_from, position_from};

use std::alloc::{AllocError, AllocFailed, Global};
use std::marker::Model;
use thiserror::Error;

/// Why a text is no position.
#[derive(Clone, Copy, PartialEq, Eq, Debug, Error)]
pub enum PositionFault {
    /// The text is not of the form `M:C,C,..`.
    #[error("bad position")]
    Form,
    /// Want of memory.
    #[error("want of memory")]
    Memory,
}

impl<T: Drop> From<AllocFailed<T>> for PositionFault {
    ghost use Rattle.std.specs.Prelude.{◌≡◌};
    ghost use Rattle.sheet_tables.specs.declared.position.PositionFault.TheVariants.{Memory};

    ghost from_gives = { λ _ fault. fault ≡ Memory };

    fn from(_failed: AllocFailed<T>) -> PositionFault {
        PositionFault::Memory
    }
}

/// A position in a list of sheet tables: a number of sheets and the first cells of a table of so
/// many sheets, or the start. It has room for a number of cells, which is no part of what makes two
/// positions equal.
#[derive(Drop)]
pub struct Position {
    sheets: u8,
    cells: Vec<u8>,
    room: usize,
}

impl Model for Position {
    ghost use Rattle.std.specs.Prelude.{◌≤◌};
    ghost use Rattle.std.specs.Vec.{vec_capacity};
    ghost use Rattle.sheet_tables.specs.Positions.{Place, IsPosition};

    ghost Value = { Place };

    ghost view = { λ p. record { sheets = p.sheets; cells = p.cells.items; room = p.room } };

    ghost invariant = { λ p. IsPosition p.sheets p.cells.items × (p.room ≤ vec_capacity p.cells) };
}

impl Position {
    /// The start, with no room.
    pub fn start(alloc: Global) -> Position
        ensures { result ≡ record { sheets = 0; cells = []; room = 0 } }
    {
        Position {
            sheets: 0,
            cells: Vec::new(alloc),
            room: 0,
        }
    }

    /// The start, with room for so many cells.
    pub fn with_room(alloc: Global, room: usize) -> Result<Position, AllocError>
        ensures { IfOk result (λ p. p ≡ record { sheets = 0; cells = []; room = room }) }
    {
        Ok(Position {
            sheets: 0,
            cells: Vec::with_capacity(alloc, room)?,
            room,
        })
    }

    /// The position of 1 to 8 sheets with these cells, at least one, each from 1 to 8.
    pub fn from_cells(alloc: Global, sheets: u8, cells: &[u8]) -> Result<Position, AllocError>
        requires { IsProper sheets cells.now }
        ensures { IfOk result
            (λ p. p ≡ record { sheets = sheets; cells = cells.now; room = length cells.now }) }
    {
        Ok(Position {
            sheets,
            cells: Vec::from_slice(alloc, cells)?,
            room: cells.len(),
        })
    }

    /// The position of a text `M:C,C,..`: a number of sheets and at least one cell, each a digit
    /// from 1 to 8. `Form` comes exactly where the text has no such form.
    pub fn parse(alloc: Global, text: &str) -> Result<Position, PositionFault>
        ensures position { IfOk result (λ p. position_from text.now ≡ Some (p.sheets, p.cells)) }
        ensures room { IfOk result (λ p. p.room ≡ length p.cells) }
        // Want of memory may be answered to any text.
        ensures fault { IfErr result (λ fault. fault ≢ PositionFault.Memory → position_from text.now ≡ None) }
    {
        Position::parse_bytes(alloc, text.as_bytes())
    }

    /// The position of a text that is given by its bytes.
    pub(crate) fn parse_bytes(alloc: Global, text: &[u8]) -> Result<Position, PositionFault>
        ensures position { IfOk result (λ p. position_from text.now ≡ Some (p.sheets, p.cells)) }
        ensures proper { IfOk result (λ p. IsProper p.sheets p.cells) }
        ensures room { IfOk result (λ p. p.room ≡ length p.cells) }
        ensures fault { IfErr result (λ fault. fault ≢ PositionFault.Memory → position_from text.now ≡ None) }
    {
        let [first, b':', rest @ ..] = text else {
            return Err(PositionFault::Form);
        };
        let sheets = digit(*first).ok_or(PositionFault::Form)?;
        let cells = read_cells(alloc, rest)?;
        let room = cells.len();
        Ok(Position {
            sheets,
            cells,
            room,
        })
    }

    /// How many cells the position can hold.
    pub fn room(&self) -> usize
        ensures { result ≡ self.now.room }
    {
        self.room
    }

    /// Puts this position in place of the old one; the room stays.
    pub fn refill(&mut self, sheets: u8, cells: &[u8])
        requires proper { IsProper sheets cells.now }
        requires room { length cells.now ≤ self.old.room }
        ensures { self.new ≡ record { sheets = sheets; cells = cells.now; room = self.old.room } }
    {
        self.sheets = sheets;
        self.cells.clear();
        let _ = self.cells.extend_from_slice(cells);
    }

    /// Whether it is the start.
    pub fn is_start(&self) -> bool
        ensures { IsTrue result ↔ (self.now.sheets ≡ 0) }
    {
        self.sheets == 0
    }

    /// The number of sheets, 1 to 8; 0 at the start.
    pub fn sheets(&self) -> u8
        ensures sheets { result ≡ self.now.sheets }
        ensures valid { IsPosition self.now.sheets self.now.cells }
    {
        self.sheets
    }

    /// The cells, each from 1 to 8; none at the start.
    pub fn cells(&self) -> &[u8]
        ensures cells { result.now ≡ self.now.cells }
        ensures valid { IsPosition self.now.sheets self.now.cells }
    {
        &self.cells
    }
}

/// The value of a digit from 1 to 8.
fn digit(byte: u8) -> Option<u8>
    ensures { result ≡ digit_from byte }
{
    match byte {
        b'1'..=b'8' => Some(byte - b'0'),
        _ => None,
    }
}

/// Reads cells with commas between them.
fn read_cells(alloc: Global, text: &[u8]) -> Result<Vec<u8>, PositionFault>
    ensures cells { IfOk result (λ cells. cells_from text.now ≡ Some cells.items) }
    ensures fault { IfErr result (λ fault. fault ≢ PositionFault.Memory → cells_from text.now ≡ None) }
{
    let mut cells = Vec::new(alloc);
    let mut rest = text;
    'cells: while let [byte, comma, more @ ..] = rest {
        if *comma != b',' {
            return Err(PositionFault::Form);
        }
        cells.push(digit(*byte).ok_or(PositionFault::Form)?)?;
        rest = more;
    }
    let [last] = rest else {
        return Err(PositionFault::Form);
    };
    cells.push(digit(*last).ok_or(PositionFault::Form)?)?;
    Ok(cells)
}
