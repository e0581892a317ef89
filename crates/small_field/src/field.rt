//! The trait of a field.

ghost use Rattle.std.specs.Prelude.{◌≡◌, ◌≢◌, ℕ, ◌<◌, ◌≤◌, ◌↔◌, IsTrue, All, length, map};
ghost use Rattle.small_field.specs.Field.{Ops, IsField};
ghost use Rattle.lane_rows.specs.Lanes.{zip2};

/// A field whose elements contracts see as the numbers below `SIZE`.
///
/// Code that is generic over it is proved from these clauses and laws alone. No call takes memory.
pub trait Field: Copy + Eq {
    /// What the field computes, on numbers.
    ghost ops: { Ops };

    /// The number of an element.
    ghost number_of: { Self → ℕ };

    ghost SIZE: { ℕ };

    /// How many elements there are.
    const SIZE: u32;

    /// The element with the number 0, the neutral one of addition.
    fn zero() -> Self
        ensures { number_of result ≡ 0 }
    {
        Self::from_number(0)
    }

    /// The element with the number 1, the neutral one of multiplication.
    fn one() -> Self
        ensures { number_of result ≡ 1 }
    {
        Self::from_number(1)
    }

    fn add(self, other: Self) -> Self
        ensures { number_of result ≡ ops.add (number_of self) (number_of other) };

    fn neg(self) -> Self
        ensures { number_of result ≡ ops.neg (number_of self) };

    fn mul(self, other: Self) -> Self
        ensures { number_of result ≡ ops.mul (number_of self) (number_of other) };

    /// The element whose product with this one is 1.
    fn inv(self) -> Self
        requires { number_of self ≢ 0 }
        ensures { number_of result ≡ ops.inv (number_of self) };

    /// The element with this number.
    fn from_number(number: u32) -> Self
        requires { number < SIZE }
        ensures { number_of result ≡ number };

    /// The number of this element.
    fn to_number(self) -> u32
        ensures number { result ≡ number_of self }
        ensures below { result < SIZE };

    /// Adds `factor` times the source to the target, place by place. Both are rows of numbers of
    /// elements.
    fn add_scaled_row(target: &mut [u8], source: &[u8], factor: Self)
        requires lengths { length source.now ≡ length target.old }
        requires target { All (λ x. x < SIZE) target.old }
        requires source { All (λ x. x < SIZE) source.now }
        ensures { target.new ≡ zip2 (λ x y. ops.add x (ops.mul (number_of factor) y)) target.old source.now };

    /// Multiplies each number of the target by `factor`. It is a row of numbers of elements.
    fn scale_row(target: &mut [u8], factor: Self)
        requires { All (λ x. x < SIZE) target.old }
        ensures { target.new ≡ map (λ x. ops.mul (number_of factor) x) target.old };

    /// The laws of a field hold.
    ghost laws: { IsField ops };

    /// The numbers of elements are those below `SIZE`.
    ghost size_is: { ops.size ≡ SIZE };

    ghost small: { SIZE ≤ 13 };

    /// An element is told by its number.
    ghost identical: { (x y : Self) → number_of x ≡ number_of y → x ≡ y };

    /// Equal elements, and no others, are identical.
    ghost eq_same: { (x y : Self) → IsTrue (Self.eq x y) ↔ (number_of x ≡ number_of y) };
}
