//! Rows of one length, one after the other in one slice.

ghost use Rattle.std.specs.Prelude.{◌≡◌, ◌≢◌, ℕ, ◌+◌, ◌*◌, ◌<◌, ◌≤◌, ◌^◌, not, length, map, slice_set};
ghost use Rattle.std.specs.Prelude.{slice_range, All};
ghost use Rattle.linear_laws.specs.Vectors.{IsMatrix, plus_scaled, row_at, entry};
ghost use Rattle.small_field.specs.Values.{AreElements};
ghost use Rattle.linear_laws.specs.Echelon.{is_nonzero};
ghost use Rattle.field_matrix.specs.Rows.{rows_in};

use small_field::Field;

/// How many rows and columns there are.
#[derive(Clone, Copy)]
pub struct Shape {
    pub rows: usize,
    pub cols: usize,
}

/// Where a row begins.
pub fn begin_of(entries: &[u8], shape: Shape, row: usize) -> usize
    requires shape { length entries.now ≡ shape.rows * shape.cols }
    requires row { row < shape.rows }
    ensures begin { result ≡ row * shape.cols }
    ensures fits { result + shape.cols ≤ length entries.now }
{
    row * shape.cols
}

/// A row.
pub fn row_of(entries: &[u8], shape: Shape, row: usize) -> &[u8]
    requires shape { length entries.now ≡ shape.rows * shape.cols }
    requires row { row < shape.rows }
    ensures row { result.now ≡ row_at (rows_in shape entries.now) row }
    ensures long { length result.now ≡ shape.cols }
{
    let begin = begin_of(entries, shape, row);
    &entries[begin..begin + shape.cols]
}

/// An entry.
pub fn entry_of(entries: &[u8], shape: Shape, row: usize, col: usize) -> u8
    requires shape { length entries.now ≡ shape.rows * shape.cols }
    requires row { row < shape.rows }
    requires col { col < shape.cols }
    ensures { result ≡ entry (rows_in shape entries.now) row col }
{
    entries[begin_of(entries, shape, row) + col]
}

/// Whether all numbers are 0.
#[tactic(auto, using(crate::proofs::Ranks::told_by_first))]
pub fn is_zero(numbers: &[u8]) -> bool
    requires { length numbers.now < 2 ^ 32 }
    ensures { result ≡ not (is_nonzero numbers.now) }
{
    !lane_rows::first_nonzero(numbers).is_some()
}

/// Writes an entry.
pub fn set_entry(entries: &mut [u8], shape: Shape, row: usize, col: usize, value: u8)
    requires shape { length entries.old ≡ shape.rows * shape.cols }
    requires row { row < shape.rows }
    requires col { col < shape.cols }
    ensures { rows_in shape entries.new
        ≡ slice_set (rows_in shape entries.old) row
        (slice_set (row_at (rows_in shape entries.old) row) col value) }
{
    let begin = begin_of(entries, shape, row);
    entries[begin + col] = value;
}

/// Writes a row.
pub fn set_row(entries: &mut [u8], shape: Shape, row: usize, source: &[u8])
    requires shape { length entries.old ≡ shape.rows * shape.cols }
    requires row { row < shape.rows }
    requires source { length source.now ≡ shape.cols }
    ensures { rows_in shape entries.new ≡ slice_set (rows_in shape entries.old) row source.now }
{
    let begin = begin_of(entries, shape, row);
    let (_, rest) = entries.split_at_mut(begin);
    let (target, _) = rest.split_at_mut(shape.cols);
    target.copy_from_slice(source);
}

/// Multiplies a row by a factor.
pub fn scale_row<F: Field>(entries: &mut [u8], shape: Shape, row: usize, factor: F)
    requires shape { length entries.old ≡ shape.rows * shape.cols }
    requires row { row < shape.rows }
    requires matrix { IsMatrix F.ops shape.cols (rows_in shape entries.old) }
    ensures { rows_in shape entries.new
        ≡ slice_set (rows_in shape entries.old) row
        (map (F.ops.mul (F.number_of factor)) (row_at (rows_in shape entries.old) row)) }
{
    let begin = begin_of(entries, shape, row);
    let (_, rest) = entries.split_at_mut(begin);
    let (target, _) = rest.split_at_mut(shape.cols);
    F::scale_row(target, factor);
}

/// Adds factor times the row `from` to the row `to`.
pub fn combine_rows<F: Field>(entries: &mut [u8], shape: Shape, to: usize, from: usize, factor: F)
    requires shape { length entries.old ≡ shape.rows * shape.cols }
    requires to { to < shape.rows }
    requires from { from < shape.rows }
    requires apart { to ≢ from }
    requires matrix { IsMatrix F.ops shape.cols (rows_in shape entries.old) }
    ensures { rows_in shape entries.new
        ≡ slice_set (rows_in shape entries.old) to
        (plus_scaled F.ops (F.number_of factor) (row_at (rows_in shape entries.old) to)
        (row_at (rows_in shape entries.old) from)) }
{
    let cols = shape.cols;
    let begin = begin_of(entries, shape, to);
    let (before, rest) = entries.split_at_mut(begin);
    let (target, after) = rest.split_at_mut(cols);
    if from < to {
        let source = row_of(before, Shape { rows: to, cols }, from);
        F::add_scaled_row(target, source, factor);
    } else {
        let rows = shape.rows - to - 1;
        let source = row_of(after, Shape { rows, cols }, from - to - 1);
        F::add_scaled_row(target, source, factor);
    }
}
