// The line where a budget is spent.
ghost use Rattle.std.specs.Prelude.{◌≡◌, ◌≤◌, ◌+◌, ◌++◌, ◌∷◌, [], ℕ, All, length};
ghost use Rattle.sheet_tables.specs.Positions.{position_text};
ghost use Rattle.hap_outside.specs.Causes.{HasCause};
ghost use Rattle.hap_outside.specs.Writes.{Writes};
ghost use Rattle.hap_outside.specs.Gathers.{Gathers};
ghost use Rattle.hap_ends.specs.Refusals.{spent_line, spent_front, later_cells};

use hap_outside::{Failed, Held, Piece, Sink};
use sheet_tables::{Position, Spot};

/// Writes the line of a search that is spent at the spot. It takes no memory.
pub fn write_spent<E: Sink>(err: &mut E, spot: &Spot) -> Result<(), Failed>
    ensures bytes { Writes (E.written err.old) (E.written err.new) (spent_line spot.now) result }
    ensures cause { HasCause (E.faults err.old) (E.faults err.new) result }
{
    let mut held = Held::new();
    match put_spent(err, &mut held, spot) {
        Ok(()) => held.finish(err),
        Err(Failed) => Err(Failed),
    }
}

fn put_spent<E: Sink>(err: &mut E, held: &mut Held, spot: &Spot) -> Result<(), Failed>
    ensures bytes { Gathers (E.written err.old) (E.written err.new) held.old held.new (spent_line spot.now) result }
    ensures cause { HasCause (E.faults err.old) (E.faults err.new) result }
{
    put_front(err, held, spot.component())?;
    put_position(err, held, spot.position())?;
    held.put(err, &[Piece::Text(b"\n")])
}

// What stands before the position: from component 2 on its number and a slash.
fn put_front<E: Sink>(err: &mut E, held: &mut Held, component: u32) -> Result<(), Failed>
    ensures bytes { Gathers (E.written err.old) (E.written err.new) held.old held.new (spent_front component) result }
    ensures cause { HasCause (E.faults err.old) (E.faults err.new) result }
{
    if component == 1 {
        return held.put(err, &[Piece::Text(b"hap: spent ")]);
    }
    let component = Piece::Count(u64::from(component));
    held.put(
        err,
        &[Piece::Text(b"hap: spent "), component, Piece::Text(b"/")],
    )
}

fn put_position<E: Sink>(err: &mut E, held: &mut Held, position: &Position) -> Result<(), Failed>
    ensures bytes { Gathers (E.written err.old) (E.written err.new) held.old held.new
        (position_text position.now.sheets position.now.cells) result }
    ensures cause { HasCause (E.faults err.old) (E.faults err.new) result }
{
    let sheets = [b'0' + position.sheets(), b':'];
    held.put(err, &[Piece::Text(&sheets)])?;
    match position.cells() {
        [] => Ok(()),
        [first, rest @ ..] => put_cells(err, held, *first, rest),
    }
}

// The cells, each but the first with a comma before it.
fn put_cells<E: Sink>(err: &mut E, held: &mut Held, first: u8, rest: &[u8]) -> Result<(), Failed>
    requires first { first ≤ 8 }
    requires rest { All (λ c. c ≤ 8) rest.now }
    ensures bytes { Gathers (E.written err.old) (E.written err.new) held.old held.new
        ((48 + first) ∷ later_cells rest.now) result }
    ensures cause { HasCause (E.faults err.old) (E.faults err.new) result }
{
    held.put(err, &[Piece::Text(&[b'0' + first])])?;
    put_later(err, held, rest)
}

fn put_later<E: Sink>(err: &mut E, held: &mut Held, cells: &[u8]) -> Result<(), Failed>
    requires { All (λ c. c ≤ 8) cells.now }
    ensures bytes { Gathers (E.written err.old) (E.written err.new) held.old held.new (later_cells cells.now) result }
    ensures cause { HasCause (E.faults err.old) (E.faults err.new) result }
{
    'cells: for cell in cells {
        let text = [b',', b'0' + *cell];
        held.put(err, &[Piece::Text(&text)])?;
    }
    Ok(())
}
