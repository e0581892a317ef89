// Rank lines of a degree: the units, and the rows of the echelon form extended.
ghost use Rattle.std.specs.Prelude.{◌≡◌, ◌∷◌, ◌<◌, ◌≤◌, ◌+◌, [], length, IfOk};
ghost use Rattle.split_laws.specs.Kinds.{uppers};
ghost use Rattle.critical_complex.specs.Levels.{kinds_at};
ghost use Rattle.cohomology.specs.Echelons.{rank_in, IsEchelon};
ghost use Rattle.cohomology.specs.RankLines.{unit_lines, AreRankLines, HaveRows, IsReducedLine, IsSpread};

use crate::classes::entries_of;
use crate::line::Line;
use crate::rows::row_of;
use critical_complex::Reduced;
use field_matrix::{Elimination, Matrix, Row};
use small_field::{Entry, Field, Sparse};
use split_laws::solutions_are_one;
use std::alloc::{AllocError, Global};

/// The rank lines of a degree from 0 to 2: first those of all units, in their order, and then one for each row with a
/// pivot of the echelon form. A line of the second kind is zero on every upper, so nothing is asked of a unit against
/// it.
pub fn rank_lines<F: Field>(
    alloc: Global,
    reduced: &Reduced<F>,
    dim: u8,
    echelon: &Elimination<F>,
) -> Result<Vec<Line>, AllocError>
    requires degree { dim ≤ 2 }
    requires echelon { IsEchelon F.ops reduced.now dim echelon.now }
    ensures { IfOk result (λ lines. AreRankLines F.ops reduced.now dim echelon.now lines.items) }
{
    let mut lines = lines_of_units(alloc, reduced, dim)?;
    for index in 0..echelon.reduced.rank() {
        let line = reduced_line(alloc, reduced, dim, echelon, index)?;
        lines.push(line)?;
    }
    Ok(lines)
}

/// The lines of the units of a degree, in their order.
fn lines_of_units<F: Field>(
    alloc: Global,
    reduced: &Reduced<F>,
    dim: u8,
) -> Result<Vec<Line>, AllocError>
    requires { dim ≤ 3 }
    ensures lines { IfOk result (λ lines. lines.items ≡ unit_lines reduced.now dim) }
    ensures many { IfOk result (λ lines. length lines.items ≡ uppers (kinds_at reduced.now (dim + 1))) }
{
    let mut lines = Vec::new(alloc);
    for index in 0..reduced.units(dim) {
        let unit = reduced.unit(alloc, dim, index)?;
        lines.push(Line::new(unit.left, unit.right))?;
    }
    Ok(lines)
}

/// The line of a row with a pivot: its history extended, and the critical cell at its pivot.
fn reduced_line<F: Field>(
    alloc: Global,
    reduced: &Reduced<F>,
    dim: u8,
    echelon: &Elimination<F>,
    index: u32,
) -> Result<Line, AllocError>
    requires degree { dim ≤ 2 }
    requires echelon { IsEchelon F.ops reduced.now dim echelon.now }
    requires index { index < rank_in echelon.now }
    ensures { IfOk result (IsReducedLine F.ops reduced.now dim echelon.now index) }
{
    solutions_are_one::<F>();
    let history = row_of(alloc, &echelon.history, index)?;
    let values = spread_values(alloc, reduced, dim, &history)?;
    let extension = reduced.extend(alloc, dim, &values)?;
    let left = entries_of(alloc, &extension)?;
    let number = reduced.critical(dim + 1)[echelon.reduced.pivot(index) as usize];
    let right = one_entry(alloc, number)?;
    Ok(Line::new(left, right))
}

/// Values at the critical cells of a degree: these, in their order, where the reduced rows are not zero, and 0 elsewhere.
pub fn spread_values<F: Field>(
    alloc: Global,
    reduced: &Reduced<F>,
    dim: u8,
    values: &Row<F>,
) -> Result<Row<F>, AllocError>
    requires degree { dim ≤ 3 }
    requires count { HaveRows F.ops reduced.now dim (length values.now) }
    ensures { IfOk result (IsSpread F.ops reduced.now dim values.now) }
{
    let places = reduced.filled(dim);
    let mut spread = Row::zero(alloc, reduced.criticals(dim))?;
    for index in 0..values.len() {
        spread.set(places[index as usize], values.get(index));
    }
    Ok(spread)
}

/// One entry, with the value 1.
fn one_entry(alloc: Global, position: u32) -> Result<Sparse, AllocError>
    ensures { IfOk result (λ entries. entries ≡ (position, 1) ∷ []) }
{
    let mut entries = Sparse::new(alloc);
    entries.push(Entry { position, value: 1 })?;
    Ok(entries)
}
