//! Elimination on the rows of a slice.

ghost use Rattle.std.specs.Prelude.{◌≡◌, ◌≢◌, ℕ, ◌+◌, ◌*◌, ◌<◌, ◌≤◌, length, slice_index, slice_set, IfSome, IfNone};
ghost use Rattle.linear_laws.specs.Vectors.{IsMatrix, SameSpan, plus_scaled, row_at, entry};
ghost use Rattle.linear_laws.specs.Echelon.{IsReducedTo};
ghost use Rattle.field_matrix.specs.Rows.{rows_in};
ghost use Rattle.field_matrix.specs.Steps.{IsCleared, IsPivotRow, IsBroughtUp, IsNextPivot, ZeroBelow, ZerosBetween};

use crate::flat::{Shape, combine_rows, entry_of, row_of, scale_row};
use small_field::Field;
use std::sync::ledger::Ledger;
use step_count::Steps;

/// Puts the first `upto` columns into reduced row echelon form, and answers how many pivots they have.
pub fn reduce_rows<F: Field, L: Ledger>(
    entries: &mut [u8],
    shape: Shape,
    upto: usize,
    steps: &mut Steps<L>,
) -> usize
    requires shape { length entries.old ≡ shape.rows * shape.cols }
    requires upto { upto ≤ shape.cols }
    requires matrix { IsMatrix F.ops shape.cols (rows_in shape entries.old) }
    ensures reduced { IsReducedTo F.ops shape.cols result upto (rows_in shape entries.old) (rows_in shape entries.new) }
    ensures steps { steps.new ≤ steps.old + shape.rows * result }
{
    let mut rank = 0;
    let mut begin = 0;
    for turn in 0..upto {
        match find_pivot(entries, shape, rank, begin, upto) {
            None => return rank,
            Some(at) => {
                bring_up::<F, L>(entries, shape, rank, at.row, at.col, steps);
                clear_column::<F, L>(entries, shape, rank, at.col, steps);
                rank += 1;
                begin = at.col + 1;
            }
        }
    }
    rank
}

/// Where the next pivot is.
#[derive(Clone, Copy)]
struct Pivot {
    row: usize,
    col: usize,
}

/// The first column from `begin` on, before `upto`, at which a row from `rank` on is not zero, and the first such
/// row. Each row is read along, and no further than to the best column so far.
fn find_pivot(entries: &[u8], shape: Shape, rank: usize, begin: usize, upto: usize) -> Option<Pivot>
    requires shape { length entries.now ≡ shape.rows * shape.cols }
    requires begin { begin ≤ upto }
    requires upto { upto ≤ shape.cols }
    ensures found { IfSome result (λ at. IsNextPivot (rows_in shape entries.now) rank begin upto at.row at.col) }
    ensures none { IfNone result (ZerosBetween (rows_in shape entries.now) rank begin upto) }
{
    let mut best = Pivot {
        row: rank,
        col: upto,
    };
    for row in rank..shape.rows {
        let col = lane_rows::first_nonzero_from(row_of(entries, shape, row), begin, best.col);
        if col < best.col {
            best = Pivot { row, col };
        }
    }
    if best.col < upto { Some(best) } else { None }
}

/// Makes row `rank` begin with a 1 at the column, by the row `here`: the first from `rank` on that
/// is not zero there. This takes at most one row addition.
fn bring_up<F: Field, L: Ledger>(
    entries: &mut [u8],
    shape: Shape,
    rank: usize,
    here: usize,
    col: usize,
    steps: &mut Steps<L>,
)
    requires shape { length entries.old ≡ shape.rows * shape.cols }
    requires col { col < shape.cols }
    requires matrix { IsMatrix F.ops shape.cols (rows_in shape entries.old) }
    requires order { rank ≤ here }
    requires here { here < shape.rows }
    requires zero { ZeroBelow rank col (rows_in shape entries.old) }
    requires nonzero { entry (rows_in shape entries.old) here col ≢ 0 }
    requires first { (a : ℕ) → rank ≤ a → a < here → entry (rows_in shape entries.old) a col ≡ 0 }
    ensures up { IsBroughtUp F.ops shape.cols rank col (rows_in shape entries.old) (rows_in shape entries.new) }
    ensures steps { steps.new ≤ steps.old + 1 }
{
    let inverse = F::from_number(entry_of(entries, shape, here, col) as u32).inv();
    if rank == here {
        scale_row(entries, shape, rank, inverse);
    } else {
        add_row(entries, shape, rank, here, inverse, steps);
    }
}

/// Takes multiples of row `rank` from the others, until its column is clear.
fn clear_column<F: Field, L: Ledger>(
    entries: &mut [u8],
    shape: Shape,
    rank: usize,
    col: usize,
    steps: &mut Steps<L>,
)
    requires shape { length entries.old ≡ shape.rows * shape.cols }
    requires rank { rank < shape.rows }
    requires col { col < shape.cols }
    requires matrix { IsMatrix F.ops shape.cols (rows_in shape entries.old) }
    requires pivot { IsPivotRow (rows_in shape entries.old) rank col }
    ensures cleared { IsCleared F.ops shape.cols rank col shape.rows (rows_in shape entries.old)
        (rows_in shape entries.new) }
    ensures steps { steps.new + 1 ≤ steps.old + shape.rows }
{
    for i in 0..shape.rows {
        if i != rank {
            let number = entry_of(entries, shape, i, col);
            if number != 0 {
                let factor = F::from_number(number as u32).neg();
                add_row(entries, shape, i, rank, factor, steps);
            }
        }
    }
}

/// One row addition, which is counted: adds factor times the row `from` to the row `to`.
fn add_row<F: Field, L: Ledger>(
    entries: &mut [u8],
    shape: Shape,
    to: usize,
    from: usize,
    factor: F,
    steps: &mut Steps<L>,
)
    requires shape { length entries.old ≡ shape.rows * shape.cols }
    requires to { to < shape.rows }
    requires from { from < shape.rows }
    requires apart { to ≢ from }
    requires matrix { IsMatrix F.ops shape.cols (rows_in shape entries.old) }
    ensures rows { rows_in shape entries.new
        ≡ slice_set (rows_in shape entries.old) to
        (plus_scaled F.ops (F.number_of factor) (row_at (rows_in shape entries.old) to)
        (row_at (rows_in shape entries.old) from)) }
    ensures steps { steps.new ≡ steps.old + 1 }
{
    steps.tick();
    combine_rows(entries, shape, to, from, factor);
}
