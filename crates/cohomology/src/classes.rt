// Class lines of a degree: extensions of a basis of reduced cocycles, and flows of its dual vectors.
ghost use Rattle.std.specs.Prelude.{◌≡◌, ◌<◌, ◌≤◌, ℕ, List, length, slice_index, IfOk};
ghost use Rattle.linear_laws.specs.Echelon.{rank_of, IsReducedTo};
ghost use Rattle.linear_laws.specs.Marks.{identity};
ghost use Rattle.linear_laws.specs.Vectors.{row_at};
ghost use Rattle.split_laws.specs.Kinds.{criticals};
ghost use Rattle.critical_complex.specs.Levels.{kinds_at};
ghost use Rattle.chain_laws.specs.Lines.{AreEntries, cochain_of};
ghost use Rattle.cohomology.specs.Bases.{AreClasses, AreLinesFor, HaveDuals, IsClassFor, IsFormInto};
ghost use Rattle.cohomology.specs.Swept.{ArePivots, IsForm};

use crate::line::Line;
use crate::rows::{dual_row, mark_row, row_of, swept_rows};
use chain_laws::{entries_are_cochains, values_fit_entries};
use critical_complex::Reduced;
use field_matrix::{Matrix, Row};
use linear_laws::{kernels_complete, triangles_are_independent};
use small_field::{Cochain, Field, Sparse};
use split_laws::{reduced_is_closed, solutions_are_one};
use std::alloc::{AllocError, Global};
use std::marker::Brand;
use std::sync::ledger::{Blank, Ledger};
use step_count::Steps;

/// The class lines of a degree, where `form` is a reduced form of what leads into it. Where all reduced rows into the
/// degree and out of it are zero, the basis is that of the critical cells, and no matrix is made.
pub fn class_lines<F: Field>(
    alloc: Global,
    reduced: &Reduced<F>,
    dim: u8,
    form: &Matrix<F>,
) -> Result<Vec<Line>, AllocError>
    requires degree { dim ≤ 3 }
    requires form { IsFormInto F.ops reduced.now dim form.now }
    ensures { IfOk result (λ lines. AreClasses F.ops reduced.now dim lines.items) }
{
    solutions_are_one::<F>();
    let _complex = reduced.critical(0);
    if reduced.filled(dim).is_empty() && form.rank() == 0 {
        mark_classes(alloc, reduced, dim)
    } else {
        kernel_classes(alloc, reduced, dim, form)
    }
}

/// The class lines by a kernel, which is cleared at the pivots of what leads into the degree, and then reduced.
fn kernel_classes<F: Field>(
    alloc: Global,
    reduced: &Reduced<F>,
    dim: u8,
    form: &Matrix<F>,
) -> Result<Vec<Line>, AllocError>
    requires degree { dim ≤ 3 }
    requires form { IsFormInto F.ops reduced.now dim form.now }
    ensures { IfOk result (λ lines. AreClasses F.ops reduced.now dim lines.items) }
{
    solutions_are_one::<F>();
    reduced_is_closed::<F>();
    triangles_are_independent::<F>();
    kernels_complete::<F>();
    let rows = reduced.coboundary_rows(alloc, dim)?;
    let kernel = rows.kernel(alloc)?;
    let mut zs = swept_rows(alloc, &kernel, form)?;
    reduce_uncounted(&mut zs);
    dual_classes(alloc, reduced, dim, form, &zs)
}

/// A line for each critical cell of a degree: its mark extended, and its flow.
fn mark_classes<F: Field>(
    alloc: Global,
    reduced: &Reduced<F>,
    dim: u8,
) -> Result<Vec<Line>, AllocError>
    requires degree { dim ≤ 3 }
    ensures { IfOk result (λ lines.
        AreLinesFor F.ops reduced.now dim (identity (criticals (kinds_at reduced.now dim)))
        (identity (criticals (kinds_at reduced.now dim))) lines.items) }
{
    let mut lines = Vec::new(alloc);
    let count = reduced.criticals(dim);
    for place in 0..count {
        let mark = mark_row::<F>(alloc, count, place)?;
        lines.push(class_line(alloc, reduced, dim, &mark, &mark)?)?;
    }
    Ok(lines)
}

/// A line for each row of a reduced form that has a pivot: the row extended, and the flow of its dual vector.
fn dual_classes<F: Field>(
    alloc: Global,
    reduced: &Reduced<F>,
    dim: u8,
    form: &Matrix<F>,
    zs: &Matrix<F>,
) -> Result<Vec<Line>, AllocError>
    requires degree { dim ≤ 3 }
    requires cols { form.now.cols ≡ criticals (kinds_at reduced.now dim) }
    requires zs_cols { form.now.cols ≡ zs.now.cols }
    requires form { IsForm F.ops form.now.cols form.now.rows }
    requires zs { IsForm F.ops zs.now.cols zs.now.rows }
    requires clear { (pivots : List ℕ) → ArePivots form.now.cols form.now.rows pivots
        → (i j : ℕ) → i < rank_of zs.now.rows → j < length pivots
        → slice_index (row_at zs.now.rows i) (slice_index pivots j) ≡ 0 }
    ensures { IfOk result (λ lines.
        HaveDuals F.ops reduced.now dim form.now.cols form.now.rows zs.now.rows (rank_of zs.now.rows) lines.items) }
{
    let mut lines = Vec::new(alloc);
    for place in 0..zs.rank() {
        let z = row_of(alloc, zs, place)?;
        let v = dual_row(alloc, form, zs, place)?;
        lines.push(class_line(alloc, reduced, dim, &z, &v)?)?;
    }
    Ok(lines)
}

/// The line of the extension of some values at the critical cells of a degree, and the flow of others.
fn class_line<F: Field>(
    alloc: Global,
    reduced: &Reduced<F>,
    dim: u8,
    z: &Row<F>,
    v: &Row<F>,
) -> Result<Line, AllocError>
    requires degree { dim ≤ 3 }
    requires values { length z.now ≡ criticals (kinds_at reduced.now dim) }
    requires dual { length v.now ≡ criticals (kinds_at reduced.now dim) }
    ensures { IfOk result (IsClassFor F.ops reduced.now dim z.now v.now) }
{
    let extension = reduced.extend(alloc, dim, z)?;
    let flow = reduced.flow(alloc, dim, v)?;
    let left = entries_of(alloc, &extension)?;
    let right = entries_of(alloc, &flow)?;
    Ok(Line::new(left, right))
}

/// The entries of a cochain.
pub fn entries_of<F: Field>(alloc: Global, x: &Cochain<F>) -> Result<Sparse, AllocError>
    ensures entries { IfOk result (AreEntries F.ops (length x.now)) }
    ensures cochain { IfOk result (λ entries. cochain_of (length x.now) entries ≡ x.now) }
{
    entries_are_cochains::<F>();
    values_fit_entries::<F>();
    let _elements = x.len();
    let entries = x.sparse(alloc)?;
    let _sparse = entries.len();
    Ok(entries)
}

/// Puts a matrix into reduced row echelon form, and counts no step.
fn reduce_uncounted<F: Field>(rows: &mut Matrix<F>)
    ensures cols { rows.new.cols ≡ rows.old.cols }
    ensures reduced { IsReducedTo F.ops rows.old.cols (rank_of rows.new.rows) rows.old.cols rows.old.rows
        rows.new.rows }
{
    reduce_with::<F, Brand>(rows, Blank::new(1));
}

fn reduce_with<F: Field, L: Ledger>(rows: &mut Matrix<F>, blank: Blank)
    requires name { blank.name ≡ L.name }
    requires parts { blank.parts ≡ L.parts }
    requires some { 0 < L.parts }
    ensures cols { rows.new.cols ≡ rows.old.cols }
    ensures reduced { IsReducedTo F.ops rows.old.cols (rank_of rows.new.rows) rows.old.cols rows.old.rows
        rows.new.rows }
{
    let mut steps = Steps::<L>::new(blank);
    rows.reduce(&mut steps);
}
