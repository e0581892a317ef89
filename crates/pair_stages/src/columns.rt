// The columns of a coboundary.
ghost use Rattle.std.specs.Prelude.{◌≡◌, ◌+◌, ◌<◌, ◌≤◌, length, IfOk};
ghost use Rattle.linear_laws.specs.Vectors.{column, dot, entry, plus_scaled};
ghost use Rattle.face_poset.specs.Poset.{count};
ghost use Rattle.pair_stages.specs.Signed.{signed_rows};
ghost use Rattle.pair_stages.specs.Columns.{coefficient, sum_on, add_on, IsColumn, AreColumns};

use crate::listing::put_signs;
use crate::parts::Parts;
use face_poset::Signed;
use small_field::{Cochain, Field};
use std::alloc::{AllocError, Global};
use std::marker::{Model, PhantomData};

/// The coboundary of a degree by its columns: for each cell of the next degree its facets with their
/// coefficients. Contracts see the rows of the cells of the degree; places count from 0.
#[derive(Drop)]
pub(crate) struct Columns<F: Field> {
    below: u32,
    parts: Parts,
    of: PhantomData<F>,
}

impl<F: Field> Model for Columns<F> {
    ghost use Rattle.std.specs.Prelude.{length};
    ghost use Rattle.field_matrix.specs.Rows.{Rows};
    ghost use Rattle.pair_stages.specs.Columns.{rows_from, AreColumns};

    ghost Value = { Rows };

    ghost view = { λ s. record { cols = length s.parts.cells; rows = rows_from s.below s.parts.cells s.parts.values } };

    ghost invariant = { λ s. AreColumns F.ops s.below s.parts.cells s.parts.values };
}

impl<F: Field> Columns<F> {
    /// The coboundary of a cochain at a cell of the next degree.
    pub(crate) fn coboundary_at(&self, y: &Cochain<F>, upper: u32) -> F
        requires cochain { length y.now ≡ length self.now.rows }
        requires upper { upper < self.now.cols }
        ensures { F.number_of result ≡ dot F.ops y.now (column upper self.now.rows) }
    {
        let cells = self.parts.cells(upper as usize);
        let values = self.parts.values(upper as usize);
        sum_over(cells, values, y)
    }

    /// The coefficient of a cell in a cell of the next degree.
    pub(crate) fn coefficient(&self, lower: u32, upper: u32) -> F
        requires few { length self.now.rows ≤ 4294967295 }
        requires lower { lower < length self.now.rows }
        requires upper { upper < self.now.cols }
        ensures { F.number_of result ≡ entry self.now.rows lower upper }
    {
        let cells = self.parts.cells(upper as usize);
        let values = self.parts.values(upper as usize);
        F::from_number(coefficient_in(cells, values, lower + 1))
    }

    /// Adds a factor times the boundary of a cell of the next degree to a chain.
    pub(crate) fn add_boundary(&self, upper: u32, factor: F, chain: &mut Cochain<F>)
        requires below { length chain.old ≡ length self.now.rows }
        requires upper { upper < self.now.cols }
        ensures { chain.new ≡ plus_scaled F.ops (F.number_of factor) chain.old (column upper self.now.rows) }
    {
        let _elements = chain.len();
        let cells = self.parts.cells(upper as usize);
        let values = self.parts.values(upper as usize);
        add_over(cells, values, factor, chain);
    }
}

impl<F: Field> Columns<F> {
    /// The coboundary of a dimension of a signed set.
    pub(crate) fn of_signed<G: Signed>(
        alloc: Global,
        graded: &G,
        dim: u8,
    ) -> Result<Columns<F>, AllocError>
        requires { dim ≤ 4 }
        ensures few { IfOk result (λ s. s.cols ≤ 4294967295) }
        ensures cols { IfOk result (λ s. s.cols ≡ count (G.space graded.now) (dim + 1)) }
        ensures rows { IfOk result (λ s. s.rows ≡ signed_rows F.ops (G.space graded.now) (G.negative graded.now) dim) }
    {
        let below = graded.cells(dim);
        let count = graded.cells(dim + 1);
        let room = facet_room(graded, dim + 1);
        let mut parts = Parts::with_room(alloc, count as usize, room)?;
        let mut signs = Vec::new(alloc);
        for index in 0..count {
            put_signs::<F, G>(graded, dim + 1, index + 1, &mut signs)?;
            parts.push(graded.facets(dim + 1, index + 1), &signs)?;
        }
        Ok(Columns {
            below,
            parts,
            of: PhantomData,
        })
    }
}

/// How many facets the cells of a dimension have in all, for the room that they take.
fn facet_room<G: Signed>(graded: &G, dim: u8) -> usize {
    let mut room = 0usize;
    for index in 0..graded.cells(dim) {
        room = room.saturating_add(graded.facets(dim, index + 1).len());
    }
    room
}

/// The coefficient of a cell in a column.
fn coefficient_in(cells: &[u32], values: &[u8], cell: u32) -> u32
    requires { length values.now ≡ length cells.now }
    ensures { result ≡ coefficient cells.now values.now cell }
{
    for index in 0..cells.len() {
        if cells[index] == cell {
            return values[index] as u32;
        }
    }
    0
}

/// The sum of the coefficients of a column, each times the value at its cell.
fn sum_over<F: Field>(cells: &[u32], values: &[u8], y: &Cochain<F>) -> F
    requires { IsColumn F.ops (length y.now) cells.now values.now }
    ensures { F.number_of result ≡ sum_on F.ops cells.now values.now y.now }
{
    let mut total = F::zero();
    for index in 0..cells.len() {
        let value = F::from_number(values[index] as u32);
        total = total.add(value.mul(y.get(cells[index])));
    }
    total
}

/// Adds a factor times each coefficient of a column to the value at its cell.
fn add_over<F: Field>(cells: &[u32], values: &[u8], factor: F, chain: &mut Cochain<F>)
    requires { IsColumn F.ops (length chain.old) cells.now values.now }
    ensures { chain.new ≡ add_on F.ops cells.now values.now (F.number_of factor) chain.old }
{
    for index in 0..cells.len() {
        let share = factor.mul(F::from_number(values[index] as u32));
        let value = chain.get(cells[index]).add(share);
        chain.set(cells[index], value);
    }
}
