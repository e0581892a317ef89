// The five degrees of a signed set with a field of pairs.
ghost use Rattle.std.specs.Prelude.{◌≡◌, ◌+◌, ◌<◌, ◌≤◌, ℕ, suc, length, IfOk};
ghost use Rattle.vector_field.specs.Pairs.{IsFieldOf};
ghost use Rattle.split_laws.specs.Kinds.{criticals, uppers};
ghost use Rattle.pair_stages.specs.Filled.{IsFilledBy};
ghost use Rattle.pair_stages.specs.Stages.{critical_from, IsPaired};
ghost use Rattle.pair_stages.specs.Units.{pair_at, IsTriangular, IsUnitOf, MatchUppers};
ghost use Rattle.pair_stages.specs.Splits.{stage_at, cells_at, kinds_at, AreStagesOf};
ghost use Rattle.pair_stages.specs.Splits.{IsClearedAt, IsExtensionAt, IsFlowAt, IsReductionOf, IsSplitting};
ghost use Rattle.pair_stages.specs.Splits.{IsStagesComplex};

use crate::cleared::Cleared;
use crate::coboundary::filled_rows;
use crate::filled::Filled;
use crate::flow::{flow, flow_first};
use crate::signs::ask_signs;
use crate::stage::Stage;
use crate::unit::Unit;
use face_poset::Signed;
use field_matrix::Row;
use small_field::{Cochain, Field};
use std::alloc::{AllocError, Global};
use std::marker::Model;
use vector_field::PairList;

/// The degrees of a signed set with a field of pairs, 0 to 4, of which the last has no cells. Contracts see, for each,
/// the rows of the coboundary, the kinds of the cells and the pairs. Cells are numbered from 1, and places from 0.
#[derive(Drop)]
pub struct Stages<F: Field> {
    stages: Vec<Stage<F>>,
}

impl<F: Field> Model for Stages<F> {
    ghost use Rattle.std.specs.Prelude.{List};
    ghost use Rattle.pair_stages.specs.Stages.{Stage};
    ghost use Rattle.pair_stages.specs.Splits.{IsSplitting, IsStagesComplex};

    ghost Value = { List Stage };

    ghost view = { λ s. s.stages.items };

    ghost invariant = { λ s. IsSplitting F.ops s.stages.items × IsStagesComplex F.ops s.stages.items };
}

impl<F: Field> Stages<F> {
    /// The degrees of a signed set with a field of pairs on it. No matrix is made.
    pub fn new<G: Signed>(
        alloc: Global,
        graded: &G,
        field: &PairList,
    ) -> Result<Stages<F>, AllocError>
        requires { IsFieldOf (G.space graded.now) field.now }
        ensures reduction { IfOk result
            (IsReductionOf F.ops (G.space graded.now) (G.negative graded.now) field.now.pairs) }
        ensures splitting { IfOk result (IsSplitting F.ops) }
        ensures graded { IfOk result (AreStagesOf F.ops (G.space graded.now) (G.negative graded.now)) }
        ensures complex { IfOk result (IsStagesComplex F.ops) }
    {
        ask_signs(graded);
        let stages = list_stages(alloc, graded, field)?;
        Ok(Stages { stages })
    }

    /// The critical cells of a degree, increasing.
    pub fn critical(&self, dim: u8) -> &[u32]
        requires { dim ≤ 3 }
        ensures critical { result.now ≡ critical_from 1 (kinds_at self.now dim) }
        ensures splitting { IsSplitting F.ops self.now }
        ensures complex { IsStagesComplex F.ops self.now }
    {
        self.stages[dim as usize].critical()
    }

    /// How many critical cells of a degree there are.
    pub fn criticals(&self, dim: u8) -> u32
        requires { dim ≤ 3 }
        ensures { result ≡ criticals (kinds_at self.now dim) }
    {
        self.stages[dim as usize].criticals()
    }

    /// The reduced rows of a degree that are not zero, with their places, which count from 0. A reduced row stands for
    /// each critical cell, with a column for each of one degree more: the coboundary, at the column's cell, of the
    /// extension that is 1 at the row's cell and 0 at the other critical cells. It costs what its extension meets.
    pub fn filled<G: Signed>(
        &self,
        alloc: Global,
        graded: &G,
        dim: u8,
    ) -> Result<Filled<F>, AllocError>
        requires degree { dim ≤ 3 }
        requires graded { AreStagesOf F.ops (G.space graded.now) (G.negative graded.now) self.now }
        ensures { IfOk result (IsFilledBy F.ops (stage_at self.now dim) (stage_at self.now (dim + 1))) }
    {
        let stages: &[Stage<F>] = &self.stages;
        filled_rows(
            alloc,
            graded,
            dim,
            &stages[dim as usize],
            &stages[dim as usize + 1],
        )
    }

    /// The one cochain that has these values at the critical cells and is 0 on uppers, and whose coboundary
    /// is 0 on uppers of one degree more.
    pub fn extend(&self, alloc: Global, dim: u8, w: &Row<F>) -> Result<Cochain<F>, AllocError>
        requires degree { dim ≤ 3 }
        requires values { length w.now ≡ criticals (kinds_at self.now dim) }
        ensures { IfOk result (IsExtensionAt F.ops self.now dim w.now) }
    {
        let stages: &[Stage<F>] = &self.stages;
        let stage = &stages[dim as usize];
        stage.extension(alloc, &stages[dim as usize + 1], w)
    }

    /// The one chain that has these values at the critical cells and is 0 on lowers, and whose boundary is 0 on
    /// lowers of one degree less.
    pub fn flow(&self, alloc: Global, dim: u8, c: &Row<F>) -> Result<Cochain<F>, AllocError>
        requires degree { dim ≤ 3 }
        requires values { length c.now ≡ criticals (kinds_at self.now dim) }
        ensures { IfOk result (IsFlowAt F.ops self.now dim c.now) }
    {
        let stages: &[Stage<F>] = &self.stages;
        if dim == 0 {
            return flow_first(alloc, &stages[0], c);
        }
        flow(alloc, &stages[dim as usize - 1], &stages[dim as usize], c)
    }

    /// Clears a cochain: the one cochain of one degree less, on its lowers, whose coboundary is the cochain on
    /// uppers, and what remains on the critical cells when the coboundary is taken away.
    pub fn clear(&self, alloc: Global, dim: u8, x: &Cochain<F>) -> Result<Cleared<F>, AllocError>
        requires degree { dim ≤ 3 }
        requires cochain { length x.now ≡ cells_at self.now dim }
        ensures { IfOk result (λ r. IsClearedAt F.ops self.now dim x.now r.w r.y) }
    {
        let stages: &[Stage<F>] = &self.stages;
        if dim == 0 {
            return stages[0].clearing_first(alloc, x);
        }
        stages[dim as usize - 1].clearing(alloc, &stages[dim as usize], x)
    }

    /// How many units there are: as many as uppers of one degree more, each of which is the right side of exactly
    /// one.
    pub fn units(&self, dim: u8) -> u32
        requires { dim ≤ 3 }
        ensures pairs { result ≡ length (stage_at self.now dim).pairs }
        ensures uppers { result ≡ uppers (kinds_at self.now (dim + 1)) }
        ensures each { MatchUppers (stage_at self.now dim).pairs (kinds_at self.now (dim + 1)) }
    {
        self.stages[dim as usize].units()
    }

    /// A unit: the lower of a pair with the value 1, and its upper with the value 1. The coboundary of its left
    /// side is not zero on its own right side, and zero on the right side of each smaller index.
    pub fn unit(&self, alloc: Global, dim: u8, index: u32) -> Result<Unit, AllocError>
        requires degree { dim ≤ 3 }
        requires index { index < length (stage_at self.now dim).pairs }
        ensures unit { IfOk result (IsUnitOf (pair_at (stage_at self.now dim).pairs index)) }
        ensures triangular { IfOk result
            (IsTriangular F.ops (stage_at self.now dim) (stage_at self.now (dim + 1)) index) }
    {
        let stages: &[Stage<F>] = &self.stages;
        stages[dim as usize].unit(alloc, &stages[dim as usize + 1], index)
    }
}

/// What is kept of each degree.
fn list_stages<F: Field, G: Signed>(
    alloc: Global,
    graded: &G,
    field: &PairList,
) -> Result<Vec<Stage<F>>, AllocError>
    requires { IsFieldOf (G.space graded.now) field.now }
    ensures { IfOk result (λ stages.
        IsReductionOf F.ops (G.space graded.now) (G.negative graded.now) field.now.pairs stages.items) }
{
    let mut stages = Vec::new(alloc);
    for dim in 0..5 {
        stages.push(Stage::of_signed(alloc, graded, field, dim)?)?;
    }
    Ok(stages)
}
