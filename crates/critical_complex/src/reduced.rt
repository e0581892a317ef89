// The reduction of a signed set to the critical cells of a field of pairs.
ghost use Rattle.std.specs.Prelude.{◌≡◌, ◌+◌, ◌<◌, ◌≤◌, length, IfOk};
ghost use Rattle.vector_field.specs.Pairs.{IsFieldOf};
ghost use Rattle.split_laws.specs.Kinds.{criticals, uppers};
ghost use Rattle.pair_stages.specs.Stages.{critical_from};
ghost use Rattle.pair_stages.specs.Splits.{AreStagesOf};
ghost use Rattle.critical_complex.specs.Levels.{cells_at, kinds_at, units_at, AreFilledAt};
ghost use Rattle.critical_complex.specs.Levels.{IsClearedAt, IsExtensionAt, IsFilledAt, IsFlowAt, IsReducedAt};
ghost use Rattle.critical_complex.specs.Complex.{unit_at, IsReducedComplex, IsReductionOf};
ghost use Rattle.critical_complex.specs.Stages.{AreFilled};

use face_poset::Signed;
use field_matrix::{Matrix, Row};
use pair_stages::{Cleared, Filled, Stages, Unit};
use small_field::{Cochain, Field};
use std::alloc::{AllocError, Global};
use std::marker::Model;
use vector_field::PairList;

/// A complex reduced to critical cells. Contracts see, for each of five degrees, the rows of the coboundary, the kinds
/// of the cells and the units. Cells are numbered from 1, and places from 0.
#[derive(Drop)]
pub struct Reduced<F: Field> {
    stages: Stages<F>,
    filled: Vec<Filled<F>>,
}

impl<F: Field> Model for Reduced<F> {
    ghost use Rattle.std.specs.Prelude.{List};
    ghost use Rattle.pair_stages.specs.Splits.{IsSplitting};
    ghost use Rattle.critical_complex.specs.Levels.{Level};
    ghost use Rattle.critical_complex.specs.Complex.{IsReducedComplex};
    ghost use Rattle.critical_complex.specs.Stages.{levels_of, AreFilled};

    ghost Value = { List Level };

    ghost view = { λ s. levels_of s.stages };

    ghost invariant = { λ s.
        IsReducedComplex F.ops (levels_of s.stages)
        × IsSplitting F.ops s.stages
        × AreFilled F.ops s.stages 4 s.filled.items };
}

impl<F: Field> Reduced<F> {
    /// The reduction of a signed set to the critical cells of a field of pairs on it. There is a unit for each pair, in
    /// the order of the field: its lower and its upper, each with the value 1.
    pub fn new<G: Signed>(
        alloc: Global,
        graded: &G,
        field: &PairList,
    ) -> Result<Reduced<F>, AllocError>
        requires { IsFieldOf (G.space graded.now) field.now }
        ensures reduction { IfOk result
            (IsReductionOf F.ops (G.space graded.now) (G.negative graded.now) field.now.pairs) }
        ensures complex { IfOk result (IsReducedComplex F.ops) }
    {
        let stages = Stages::new(alloc, graded, field)?;
        let filled = list_filled(alloc, graded, &stages)?;
        Ok(Reduced { stages, filled })
    }

    /// The critical cells of a degree, increasing.
    pub fn critical(&self, dim: u8) -> &[u32]
        requires { dim ≤ 3 }
        ensures critical { result.now ≡ critical_from 1 (kinds_at self.now dim) }
        ensures complex { IsReducedComplex F.ops self.now }
    {
        self.stages.critical(dim)
    }

    /// How many critical cells of a degree there are.
    pub fn criticals(&self, dim: u8) -> u32
        requires { dim ≤ 3 }
        ensures { result ≡ criticals (kinds_at self.now dim) }
    {
        self.stages.criticals(dim)
    }

    /// The places, from 0 and increasing, of the reduced rows of a degree that are not zero. A reduced row stands
    /// for each critical cell, with a column for each of one degree more: the coboundary, at the column's cell, of
    /// the extension that is 1 at the row's cell and 0 at the other critical cells.
    pub fn filled(&self, dim: u8) -> &[u32]
        requires { dim ≤ 3 }
        ensures { IsFilledAt F.ops self.now dim result.now }
    {
        self.filled[dim as usize].places()
    }

    /// The reduced rows of a degree that are not zero, in the order of their places.
    pub fn filled_rows(&self, dim: u8) -> &Matrix<F>
        requires { dim ≤ 3 }
        ensures cols { result.now.cols ≡ criticals (kinds_at self.now (dim + 1)) }
        ensures rows { AreFilledAt F.ops self.now dim result.now.rows }
        ensures complex { IsReducedComplex F.ops self.now }
    {
        self.filled[dim as usize].rows()
    }

    /// All reduced rows of a degree, those that are zero too.
    pub fn coboundary_rows(&self, alloc: Global, dim: u8) -> Result<Matrix<F>, AllocError>
        requires { dim ≤ 3 }
        ensures cols { IfOk result (λ m. m.cols ≡ criticals (kinds_at self.now (dim + 1))) }
        ensures rows { IfOk result (λ m. IsReducedAt F.ops self.now dim m.rows) }
        ensures complex { IsReducedComplex F.ops self.now }
    {
        let count = self.stages.criticals(dim);
        let whole = self.filled[dim as usize].whole(alloc, count)?;
        Ok(whole)
    }

    /// The one cochain that has these values at the critical cells and is 0 on uppers, and whose coboundary
    /// is 0 on uppers of one degree more.
    pub fn extend(&self, alloc: Global, dim: u8, w: &Row<F>) -> Result<Cochain<F>, AllocError>
        requires degree { dim ≤ 3 }
        requires values { length w.now ≡ criticals (kinds_at self.now dim) }
        ensures { IfOk result (IsExtensionAt F.ops self.now dim w.now) }
    {
        self.stages.extend(alloc, dim, w)
    }

    /// The one chain that has these values at the critical cells and is 0 on lowers, and whose boundary is 0 on
    /// lowers of one degree less.
    pub fn flow(&self, alloc: Global, dim: u8, c: &Row<F>) -> Result<Cochain<F>, AllocError>
        requires degree { dim ≤ 3 }
        requires values { length c.now ≡ criticals (kinds_at self.now dim) }
        ensures { IfOk result (IsFlowAt F.ops self.now dim c.now) }
    {
        self.stages.flow(alloc, dim, c)
    }

    /// Clears a cochain: the one cochain of one degree less, on its lowers, whose coboundary is the cochain on
    /// uppers, and what remains on the critical cells when the coboundary is taken away.
    pub fn clear(&self, alloc: Global, dim: u8, x: &Cochain<F>) -> Result<Cleared<F>, AllocError>
        requires degree { dim ≤ 3 }
        requires cochain { length x.now ≡ cells_at self.now dim }
        ensures { IfOk result (λ r. IsClearedAt F.ops self.now dim x.now r.w r.y) }
    {
        self.stages.clear(alloc, dim, x)
    }

    /// How many units there are: as many as uppers of one degree more, each of which is the right side of exactly
    /// one.
    pub fn units(&self, dim: u8) -> u32
        requires { dim ≤ 3 }
        ensures units { result ≡ length (units_at self.now dim) }
        ensures uppers { result ≡ uppers (kinds_at self.now (dim + 1)) }
        ensures complex { IsReducedComplex F.ops self.now }
    {
        self.stages.units(dim)
    }

    /// The unit of an index, which counts from 0: a cochain on lowers, and an upper of one degree more with the
    /// value 1. The coboundary of its left side is not zero on its own right side, and zero on the right side of each
    /// smaller index.
    pub fn unit(&self, alloc: Global, dim: u8, index: u32) -> Result<Unit, AllocError>
        requires degree { dim ≤ 3 }
        requires index { index < length (units_at self.now dim) }
        ensures unit { IfOk result (λ u. u ≡ unit_at (units_at self.now dim) index) }
        ensures complex { IsReducedComplex F.ops self.now }
    {
        self.stages.unit(alloc, dim, index)
    }
}

/// The coboundaries of the extensions that are not zero, for each degree.
fn list_filled<F: Field, G: Signed>(
    alloc: Global,
    graded: &G,
    stages: &Stages<F>,
) -> Result<Vec<Filled<F>>, AllocError>
    requires { AreStagesOf F.ops (G.space graded.now) (G.negative graded.now) stages.now }
    ensures { IfOk result (λ filled. AreFilled F.ops stages.now 4 filled.items) }
{
    let mut filled = Vec::new(alloc);
    for dim in 0..4 {
        filled.push(stages.filled(alloc, graded, dim)?)?;
    }
    Ok(filled)
}
