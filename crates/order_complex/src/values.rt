// Values of coboundaries, boundaries and cup products.
ghost use Rattle.std.specs.Prelude.{◌≡◌, ◌+◌, ◌-◌, ◌≤◌, [], Contains, cond, length, take, drop, slice_index};
ghost use Rattle.std.specs.Prelude.{slice_index_or};
ghost use Rattle.face_poset.specs.Poset.{facets_of};
ghost use Rattle.order_complex.specs.Chains.{chains_of};
ghost use Rattle.order_complex.specs.Cochains.{boundary, coboundary_at as coboundary_value};
ghost use Rattle.order_complex.specs.Complex.{complex_of, negative_in, IsNumbered};
ghost use Rattle.order_complex.specs.Cup.{cup_at as cup_value};

use crate::chains::Chains;
use face_poset::{Graded, Signed};
use small_field::{Cochain, Field};

impl<'a> Chains<'a> {
    /// The value of the coboundary of a cochain of a degree on a chain of one degree more, which is numbered from 1.
    pub fn coboundary_at<F: Field>(&self, degree: u8, x: &Cochain<F>, chain: u32) -> F
        requires degree { degree ≤ 2 }
        requires cochain { length x.now ≡ length (chains_of self.now degree) }
        requires first { 1 ≤ chain }
        requires last { chain ≤ length (chains_of self.now (degree + 1)) }
        ensures { F.number_of result
            ≡ coboundary_value F.ops (chains_of self.now degree) x.now
            (slice_index_or (chains_of self.now (degree + 1)) (chain - 1) []) }
    {
        let mut value = F::zero();
        for facet in self.facets(degree + 1, chain) {
            value = x.get(*facet).add(value.neg());
        }
        value
    }

    /// The coefficient of a coface of a chain, with the sign of the chain in it.
    fn signed_at<F: Field>(&self, degree: u8, c: &Cochain<F>, coface: u32, chain: u32) -> F
        requires degree { degree ≤ 3 }
        requires coefficients { length c.now ≡ length (chains_of self.now degree) }
        requires first { 1 ≤ coface }
        requires last { coface ≤ length (chains_of self.now degree) }
        requires facet { Contains (facets_of (complex_of self.now) degree coface) chain }
        ensures { let x = slice_index c.now (coface - 1)
            in F.number_of result ≡ cond (negative_in self.now degree coface chain) (F.ops.neg x) x }
    {
        let coefficient = c.get(coface);
        if self.sign(degree, coface, chain) < 0 {
            coefficient.neg()
        } else {
            coefficient
        }
    }

    /// The coefficient of the boundary of a chain with coefficients, at a chain of one degree less, which is numbered
    /// from 1: the sum of the coefficients of its cofaces, each with the sign of the chain in it.
    pub fn boundary_at<F: Field>(&self, degree: u8, c: &Cochain<F>, chain: u32) -> F
        requires low { 1 ≤ degree }
        requires high { degree ≤ 3 }
        requires coefficients { length c.now ≡ length (chains_of self.now degree) }
        requires first { 1 ≤ chain }
        requires last { chain ≤ length (chains_of self.now (degree - 1)) }
        ensures { F.number_of result ≡ slice_index (boundary F.ops self.now (degree - 1) c.now) (chain - 1) }
    {
        // From here on it is known that they are elements of the field.
        let _coefficients = c.len();
        let mut total = F::zero();
        for coface in self.cofaces(degree - 1, chain) {
            total = total.add(self.signed_at(degree, c, *coface, chain));
        }
        total
    }

    /// The number of a chain without its last cells, so many, among the chains of its degree.
    fn front(&self, degree: u8, chain: u32, less: u8) -> u32
        requires degree { degree ≤ 3 }
        requires less { less ≤ degree }
        requires first { 1 ≤ chain }
        requires last { chain ≤ length (chains_of self.now degree) }
        ensures { IsNumbered self.now (degree - less) result
            (take (degree - less + 1) (slice_index_or (chains_of self.now degree) (chain - 1) [])) }
    {
        let mut number = chain;
        for step in 0..less {
            number = self.facets(degree - step, number)[0];
        }
        number
    }

    /// The number of a chain without its first cells, so many, among the chains of its degree.
    fn back(&self, degree: u8, chain: u32, less: u8) -> u32
        requires degree { degree ≤ 3 }
        requires less { less ≤ degree }
        requires first { 1 ≤ chain }
        requires last { chain ≤ length (chains_of self.now degree) }
        ensures { IsNumbered self.now (degree - less) result
            (drop less (slice_index_or (chains_of self.now degree) (chain - 1) [])) }
    {
        let mut number = chain;
        for step in 0..less {
            let facets = self.facets(degree - step, number);
            number = facets[facets.len() - 1];
        }
        number
    }

    /// The product of x on the first i + 1 cells of a chain of degree i + j, which is numbered from 1, and y on its
    /// last j + 1 cells.
    pub fn cup_at<F: Field>(&self, i: u8, x: &Cochain<F>, j: u8, y: &Cochain<F>, chain: u32) -> F
        requires degree { i + j ≤ 3 }
        requires left { length x.now ≡ length (chains_of self.now i) }
        requires right { length y.now ≡ length (chains_of self.now j) }
        requires first { 1 ≤ chain }
        requires last { chain ≤ length (chains_of self.now (i + j)) }
        ensures { F.number_of result
            ≡ cup_value F.ops i (chains_of self.now i) x.now (chains_of self.now j) y.now
            (slice_index_or (chains_of self.now (i + j)) (chain - 1) []) }
    {
        let front = self.front(i + j, chain, j);
        let back = self.back(i + j, chain, i);
        x.get(front).mul(y.get(back))
    }
}
