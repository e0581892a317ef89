// A cocycle written by the classes of its degree.
ghost use Rattle.std.specs.Prelude.{◌≡◌, ◌≤◌, ◌+◌, length, map, IfOk};
ghost use Rattle.std.specs.List.{AllByRecursion};
ghost use Rattle.linear_laws.specs.Vectors.{combination, plus_scaled};
ghost use Rattle.split_laws.specs.Kinds.{criticals};
ghost use Rattle.critical_complex.specs.Levels.{cells_at, kinds_at};
ghost use Rattle.order_complex.specs.Homology.{IsCocycle};
ghost use Rattle.chain_laws.specs.Lines.{cochain_of};
ghost use Rattle.chain_laws.specs.AllLines.{left_sides};
ghost use Rattle.cohomology.specs.Bases.{cells_with, HaveSides};
ghost use Rattle.cohomology.specs.Echelons.{AreEchelons, AreRowsOf, IsEchelon};
ghost use Rattle.cohomology.specs.Written.{AreBasesOf, AreValuesOn, IsBoundFor, IsInto, IsWritten};

use crate::bases::Bases;
use crate::classes::entries_of;
use crate::echelons::Echelons;
use crate::entries::{add, add_multiple_of, copy_of, value_on};
use crate::line::Line;
use crate::ranks::spread_values;
use chain_laws::{entries_are_cochains, equations_are_tests, values_fit_entries};
use critical_complex::Reduced;
use field_matrix::{Elimination, Row};
use order_complex::Chains;
use small_field::{Cochain, Field, Sparse};
use split_laws::{
    cocycles_are_extensions, extensions_commute, extensions_pair, flows_commute, solutions_are_one,
};
use std::alloc::{AllocError, Global};

/// A cocycle as a combination of the classes of its degree, which count from 1, plus the coboundary of a bounding
/// cochain of one degree less, which in degree 0 has no entry.
#[derive(Drop)]
pub struct Written {
    pub coefficients: Sparse,
    pub bound: Sparse,
}

impl Bases {
    /// A cocycle of a degree from 0 to 3, written by the classes of the degree: its coefficients are its values on the
    /// dual cycles, and what is left when these classes are taken away is a coboundary, by the echelon form of the
    /// reduced rows. Only memory may be wanting. (Cohomology classes by dual cycles; textbook.)
    pub fn class_of<F: Field>(
        &self,
        alloc: Global,
        chains: &Chains<'_>,
        reduced: &Reduced<F>,
        echelons: &Echelons<F>,
        degree: u8,
        x: &Cochain<F>,
    ) -> Result<Written, AllocError>
        requires degree { degree ≤ 3 }
        requires echelons { AreEchelons F.ops reduced.now echelons.now }
        requires rows { AreRowsOf F.ops reduced.now chains.now }
        requires bases { AreBasesOf F.ops chains.now reduced.now self.now }
        requires cocycle { IsCocycle F.ops chains.now degree x.now }
        ensures { IfOk result (IsWritten F.ops chains.now degree self.now x.now) }
    {
        solutions_are_one::<F>();
        extensions_commute::<F>();
        extensions_pair::<F>();
        flows_commute::<F>();
        cocycles_are_extensions::<F>();
        values_fit_entries::<F>();
        equations_are_tests::<F>();
        let lines = self.classes(degree);
        let values = dual_values(alloc, lines, x)?;
        let _values = values.len();
        let rest = without_classes(alloc, lines, &values, x)?;
        let _rest = rest.len();
        let cleared = reduced.clear(alloc, degree, &rest)?;
        let bound = bound_of(alloc, reduced, echelons, degree, &cleared.w, &cleared.y)?;
        Ok(Written {
            coefficients: entries_of(alloc, &values)?,
            bound: entries_of(alloc, &bound)?,
        })
    }
}

/// The values of a cochain on the right sides of some lines.
fn dual_values<F: Field>(
    alloc: Global,
    lines: &[Line],
    x: &Cochain<F>,
) -> Result<Cochain<F>, AllocError>
    requires { AllByRecursion (HaveSides F.ops (length x.now)) lines.now }
    ensures { IfOk result (AreValuesOn F.ops (length x.now) lines.now x.now) }
{
    let count = count_of(lines)?;
    let mut values = Cochain::zero(alloc, count)?;
    for index in 0..count {
        let value = value_on(x, lines[index as usize].right());
        values.set(index + 1, value);
    }
    Ok(values)
}

/// How many lines there are.
fn count_of(lines: &[Line]) -> Result<u32, AllocError>
    ensures { IfOk result (λ count. count ≡ length lines.now) }
{
    u32::try_from(lines.len()).map_err(|_| AllocError)
}

/// A cochain less the combination of the left sides of some lines.
fn without_classes<F: Field>(
    alloc: Global,
    lines: &[Line],
    values: &Cochain<F>,
    x: &Cochain<F>,
) -> Result<Cochain<F>, AllocError>
    requires sides { AllByRecursion (HaveSides F.ops (length x.now)) lines.now }
    requires count { length values.now ≡ length lines.now }
    ensures long { IfOk result (λ rest. length rest ≡ length x.now) }
    ensures sum { IfOk result (λ rest. x.now ≡ plus_scaled F.ops 1 rest
        (combination F.ops (length x.now) values.now (map (cochain_of (length x.now)) (left_sides lines.now)))) }
{
    entries_are_cochains::<F>();
    let _elements = x.len();
    let mut rest = copy_of(alloc, x)?;
    for index in 0..values.len() {
        let factor = values.get(index + 1).neg();
        add_multiple_of(&mut rest, factor, lines[index as usize].left());
    }
    Ok(rest)
}

/// A cochain of one degree less with the coboundary that has the values w, and y besides.
fn bound_of<F: Field>(
    alloc: Global,
    reduced: &Reduced<F>,
    echelons: &Echelons<F>,
    degree: u8,
    w: &Row<F>,
    y: &Cochain<F>,
) -> Result<Cochain<F>, AllocError>
    requires degree { degree ≤ 3 }
    requires echelons { AreEchelons F.ops reduced.now echelons.now }
    requires into { IsInto F.ops reduced.now degree w.now }
    requires below { length y.now ≡ cells_with reduced.now degree }
    ensures { IfOk result (IsBoundFor F.ops reduced.now degree w.now y.now) }
{
    match degree {
        0 => copy_of(alloc, y),
        1 => bound_by(alloc, reduced, 0, &echelons.first, w, y),
        2 => bound_by(alloc, reduced, 1, &echelons.second, w, y),
        _ => bound_by(alloc, reduced, 2, &echelons.third, w, y),
    }
}

/// The same by the echelon form of the reduced rows of a degree: the coefficients of the rows that are not zero, spread
/// and extended.
fn bound_by<F: Field>(
    alloc: Global,
    reduced: &Reduced<F>,
    dim: u8,
    echelon: &Elimination<F>,
    w: &Row<F>,
    y: &Cochain<F>,
) -> Result<Cochain<F>, AllocError>
    requires dim { dim ≤ 2 }
    requires echelon { IsEchelon F.ops reduced.now dim echelon.now }
    requires into { IsInto F.ops reduced.now (dim + 1) w.now }
    requires below { length y.now ≡ cells_at reduced.now dim }
    ensures { IfOk result (IsBoundFor F.ops reduced.now (dim + 1) w.now y.now) }
{
    solutions_are_one::<F>();
    let _complex = reduced.critical(dim);
    let coefficients = echelon.solve(alloc, w)?.unwrap();
    let values = spread_values(alloc, reduced, dim, &coefficients)?;
    let mut bound = reduced.extend(alloc, dim, &values)?;
    add(&mut bound, y);
    Ok(bound)
}
