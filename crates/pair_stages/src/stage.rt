// What is kept of one degree.
ghost use Rattle.std.specs.Prelude.{◌≡◌, ◌<◌, ◌≤◌, [], length, replicate, IfOk};
ghost use Rattle.linear_laws.specs.Vectors.{boundary as boundary_of, column, dot, plus_scaled};
ghost use Rattle.split_laws.specs.Kinds.{criticals, part, spread, HasNoUpper};
ghost use Rattle.split_laws.specs.Solutions.{IsCleared, IsExtension, without};
ghost use Rattle.pair_stages.specs.Units.{IsTriangular, IsUnitOf, pair_at};
ghost use Rattle.pair_stages.specs.Stages.{critical_from, place_of, IsSmall, IsPaired};
ghost use Rattle.vector_field.specs.Pairs.{IsFieldOf};
ghost use Rattle.std.specs.List.{AllByRecursion};
ghost use Rattle.split_laws.specs.Pairs.{carry as carried, kind_at, settle as settled, Triangular};
ghost use Rattle.pair_stages.specs.Signed.{IsStageOf};

use crate::cleared::Cleared;
use crate::columns::Columns;
use crate::flow::carry;
use crate::listing::{list_critical, list_kinds, list_pairs};
use crate::substitution::settle;
use crate::unit::Unit;
use face_poset::Signed;
use field_matrix::Row;
use small_field::{Cochain, Entry, Field, Sparse};
use split_laws::{Kind, Match};
use std::alloc::{AllocError, Global};
use std::marker::Model;
use vector_field::PairList;

/// The cells of one degree, numbered from 1, with their kinds and their pairs with cells of the next.
#[derive(Drop)]
pub(crate) struct Stage<F: Field> {
    pub(crate) columns: Columns<F>,
    pub(crate) kinds: Vec<Kind>,
    pub(crate) pairs: Vec<Match>,
    pub(crate) critical: Vec<u32>,
}

impl<F: Field> Model for Stage<F> {
    ghost use Rattle.std.specs.Prelude.{◌≡◌};
    ghost use Rattle.pair_stages.specs.Stages.{critical_from, Stage, IsSmall};

    ghost Value = { Stage };

    ghost view = { λ s. record
        { rows = s.columns.rows; cols = s.columns.cols; kinds = s.kinds.items; pairs = s.pairs.items } };

    ghost invariant = { λ s.
        (s.critical.items ≡ critical_from 1 s.kinds.items)
        × IsSmall (record
        { rows = s.columns.rows; cols = s.columns.cols; kinds = s.kinds.items; pairs = s.pairs.items }) };
}

impl<F: Field> Stage<F> {
    /// How many cells there are.
    pub(crate) fn len(&self) -> u32
        ensures len { result ≡ length self.now.kinds }
        ensures small { IsSmall self.now }
    {
        self.kinds.len() as u32
    }

    /// How many critical cells there are.
    pub(crate) fn criticals(&self) -> u32
        ensures { result ≡ criticals self.now.kinds }
    {
        self.critical.len() as u32
    }

    /// The values of a row at the critical cells, and zero elsewhere.
    pub(crate) fn spread(&self, alloc: Global, w: &Row<F>) -> Result<Cochain<F>, AllocError>
        requires { length w.now ≡ criticals self.now.kinds }
        ensures { IfOk result (λ x. x ≡ spread self.now.kinds w.now) }
    {
        let mut x = Cochain::zero(alloc, self.len())?;
        let critical: &[u32] = &self.critical;
        for index in 0..w.len() {
            x.set(critical[index as usize], w.get(index));
        }
        Ok(x)
    }

    /// The values at the critical cells.
    pub(crate) fn part(&self, alloc: Global, x: &Cochain<F>) -> Result<Row<F>, AllocError>
        requires { length x.now ≡ length self.now.kinds }
        ensures { IfOk result (λ w. w ≡ part self.now.kinds x.now) }
    {
        let count = self.criticals();
        let critical: &[u32] = &self.critical;
        let mut w = Row::zero(alloc, count)?;
        for index in 0..count {
            w.set(index, x.get(critical[index as usize]));
        }
        Ok(w)
    }

    /// The place of a critical cell, by its index; both count from 0.
    pub(crate) fn critical_place(&self, index: u32) -> u32
        requires { index < criticals self.now.kinds }
        ensures place { result ≡ place_of self.now.kinds index }
        ensures within { result < length self.now.kinds }
        ensures few { result < 4294967295 }
    {
        let critical: &[u32] = &self.critical;
        critical[index as usize] - 1
    }

    /// The coboundary of a cochain at the place of a cell of the next degree.
    pub(crate) fn coboundary_at(&self, x: &Cochain<F>, place: u32) -> F
        requires cochain { length x.now ≡ length self.now.kinds }
        requires place { place < self.now.cols }
        ensures { F.number_of result ≡ dot F.ops x.now (column place self.now.rows) }
    {
        let _small = self.len();
        self.columns.coboundary_at(x, place)
    }

    /// Changes a cochain at the lowers, so that its coboundary at the uppers of the next degree is t.
    pub(crate) fn settle(&self, next: &Stage<F>, t: &Cochain<F>, x: &mut Cochain<F>)
        requires paired { IsPaired F.ops self.now next.now }
        requires above { length t.now ≡ length next.now.kinds }
        requires below { length x.old ≡ length self.now.kinds }
        ensures { x.new ≡ settled F.ops self.now.rows t.now self.now.pairs x.old }
    {
        settle(&self.columns, &self.pairs, t, x);
    }

    /// The same for some of the pairs, in the order of the field.
    pub(crate) fn settle_chosen(
        &self,
        next: &Stage<F>,
        pairs: &[Match],
        t: &Cochain<F>,
        x: &mut Cochain<F>,
    )
        requires paired { IsPaired F.ops self.now next.now }
        requires triangular { Triangular self.now.rows pairs.now }
        requires uppers { AllByRecursion (λ p. p.upper < length next.now.kinds) pairs.now }
        requires above { length t.now ≡ length next.now.kinds }
        requires below { length x.old ≡ length self.now.kinds }
        ensures { x.new ≡ settled F.ops self.now.rows t.now pairs.now x.old }
    {
        settle(&self.columns, pairs, t, x);
    }

    /// What the cell at a place is.
    pub(crate) fn kind(&self, place: u32) -> Kind
        requires { place < length self.now.kinds }
        ensures { result ≡ kind_at self.now.kinds place }
    {
        self.kinds[place as usize]
    }

    /// A pair, by its index.
    pub(crate) fn pair(&self, index: u32) -> Match
        requires { index < length self.now.pairs }
        ensures { result ≡ pair_at self.now.pairs index }
    {
        self.pairs[index as usize]
    }

    /// Adds a factor times the boundary of a cell of the next degree, given by its place, to a chain.
    pub(crate) fn add_boundary(&self, place: u32, factor: F, chain: &mut Cochain<F>)
        requires below { length chain.old ≡ length self.now.kinds }
        requires place { place < self.now.cols }
        ensures { chain.new ≡ plus_scaled F.ops (F.number_of factor) chain.old (column place self.now.rows) }
    {
        let _small = self.len();
        self.columns.add_boundary(place, factor, chain);
    }

    /// Changes a chain of the next degree at the uppers, so that its boundary is zero at the lowers; the
    /// boundary is changed with it.
    pub(crate) fn carry(&self, next: &Stage<F>, boundary: &mut Cochain<F>, z: &mut Cochain<F>)
        requires paired { IsPaired F.ops self.now next.now }
        requires above { length z.old ≡ length next.now.kinds }
        requires boundary { boundary.old ≡ boundary_of F.ops self.now.rows z.old }
        ensures { z.new ≡ carried F.ops self.now.rows (replicate (length self.now.rows) 0) self.now.pairs z.old }
    {
        carry(&self.columns, &self.pairs, boundary, z);
    }

    /// The critical cells, increasing.
    pub(crate) fn critical(&self) -> &[u32]
        ensures { result.now ≡ critical_from 1 self.now.kinds }
    {
        &self.critical
    }

    /// The extension of values at the critical cells.
    pub(crate) fn extension(
        &self,
        alloc: Global,
        next: &Stage<F>,
        w: &Row<F>,
    ) -> Result<Cochain<F>, AllocError>
        requires paired { IsPaired F.ops self.now next.now }
        requires values { length w.now ≡ criticals self.now.kinds }
        ensures { IfOk result
            (IsExtension F.ops (length self.now.kinds) (length next.now.kinds) self.now.rows self.now.kinds
            next.now.kinds w.now) }
    {
        let _elements = w.len();
        let zeros = Cochain::zero(alloc, next.len())?;
        let mut x = self.spread(alloc, w)?;
        self.settle(next, &zeros, &mut x);
        Ok(x)
    }

    /// Clears a cochain of the next degree: a cochain on the lowers here whose coboundary is the cochain on the
    /// uppers there, and what is left at the critical cells.
    pub(crate) fn clearing(
        &self,
        alloc: Global,
        next: &Stage<F>,
        x: &Cochain<F>,
    ) -> Result<Cleared<F>, AllocError>
        requires paired { IsPaired F.ops self.now next.now }
        requires cochain { length x.now ≡ length next.now.kinds }
        ensures { IfOk result (λ r.
            IsCleared F.ops (length self.now.kinds) (length next.now.kinds) self.now.rows self.now.kinds
            next.now.kinds x.now r.w r.y) }
    {
        let _elements = x.len();
        let mut y = Cochain::zero(alloc, self.len())?;
        self.settle(next, x, &mut y);
        let w = self.rest(alloc, next, x, &y)?;
        Ok(Cleared { w, y })
    }

    /// Clears a cochain of this degree, the first, in which there is no upper: nothing is taken away.
    pub(crate) fn clearing_first(
        &self,
        alloc: Global,
        x: &Cochain<F>,
    ) -> Result<Cleared<F>, AllocError>
        requires first { HasNoUpper self.now.kinds }
        requires cochain { length x.now ≡ length self.now.kinds }
        ensures { IfOk result (λ r. IsCleared F.ops 0 (length self.now.kinds) [] [] self.now.kinds x.now r.w r.y) }
    {
        let _elements = x.len();
        let w = self.part(alloc, x)?;
        let y = Cochain::zero(alloc, 0)?;
        Ok(Cleared { w, y })
    }

    /// What is left of a cochain of the next degree less a coboundary, at the critical cells.
    fn rest(
        &self,
        alloc: Global,
        next: &Stage<F>,
        x: &Cochain<F>,
        y: &Cochain<F>,
    ) -> Result<Row<F>, AllocError>
        requires paired { IsPaired F.ops self.now next.now }
        requires cochain { length x.now ≡ length next.now.kinds }
        requires below { length y.now ≡ length self.now.kinds }
        ensures { IfOk result
            (λ w. w ≡ part next.now.kinds (without F.ops (length next.now.kinds) self.now.rows x.now y.now)) }
    {
        let count = next.criticals();
        let mut w = Row::zero(alloc, count)?;
        for index in 0..count {
            let place = next.critical_place(index);
            let value = x.get(place + 1).add(self.coboundary_at(y, place).neg());
            w.set(index, value);
        }
        Ok(w)
    }

    /// How many pairs there are.
    pub(crate) fn units(&self) -> u32
        ensures { result ≡ length self.now.pairs }
    {
        self.pairs.len() as u32
    }

    /// The lower of a pair with the value 1, and its upper with the value 1.
    pub(crate) fn unit(
        &self,
        alloc: Global,
        next: &Stage<F>,
        index: u32,
    ) -> Result<Unit, AllocError>
        requires paired { IsPaired F.ops self.now next.now }
        requires index { index < length self.now.pairs }
        ensures unit { IfOk result (IsUnitOf (pair_at self.now.pairs index)) }
        ensures triangular { IfOk result (IsTriangular F.ops self.now next.now index) }
    {
        let _few = self.len();
        let _above = next.len();
        let pairs: &[Match] = &self.pairs;
        let pair = pairs[index as usize];
        let mut left = Sparse::new(alloc);
        left.push(Entry {
            position: pair.lower + 1,
            value: 1,
        })?;
        let mut right = Sparse::new(alloc);
        right.push(Entry {
            position: pair.upper + 1,
            value: 1,
        })?;
        Ok(Unit { left, right })
    }

    /// What is kept of a dimension of a signed set with a field of pairs.
    pub(crate) fn of_signed<G: Signed>(
        alloc: Global,
        graded: &G,
        field: &PairList,
        dim: u8,
    ) -> Result<Stage<F>, AllocError>
        requires dim { dim ≤ 4 }
        requires field { IsFieldOf (G.space graded.now) field.now }
        ensures { IfOk result (IsStageOf F.ops (G.space graded.now) (G.negative graded.now) field.now.pairs dim) }
    {
        let columns = Columns::of_signed(alloc, graded, dim)?;
        let kinds = list_kinds(alloc, field, dim, graded.cells(dim))?;
        let pairs = list_pairs(alloc, field, dim)?;
        let critical = list_critical(alloc, &kinds)?;
        Ok(Stage {
            columns,
            kinds,
            pairs,
            critical,
        })
    }
}
