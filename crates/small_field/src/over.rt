//! The one place where a modulus picks a field.

ghost use Rattle.std.specs.Prelude.{◌≡◌, true};
ghost use Rattle.small_field.specs.Field.{Ops};
ghost use Rattle.small_field.specs.Modulus.{field_of, is_modulus};

use crate::field::Field;
use crate::prime::Gfp;
use crate::quadratic::{Gf4, Gf9};

/// Work that is done over any field.
pub trait OverField {
    type Answer;

    /// What the answer is over the field with this arithmetic: the work before, after, and the answer.
    ghost gives: { Ops → Self → Self → Self.Answer → Type 0 };

    fn over<F: Field>(&mut self) -> Self::Answer
        ensures { gives F.ops self.old self.new result };
}

/// Does the work over the field with `modulus` elements.
pub fn over_field<W: OverField>(modulus: u8, work: &mut W) -> W::Answer
    requires { is_modulus modulus ≡ true }
    ensures { W.gives (field_of modulus) work.old work.new result }
{
    match modulus {
        2 => work.over::<Gfp<2>>(),
        3 => work.over::<Gfp<3>>(),
        4 => work.over::<Gf4>(),
        5 => work.over::<Gfp<5>>(),
        7 => work.over::<Gfp<7>>(),
        9 => work.over::<Gf9>(),
        11 => work.over::<Gfp<11>>(),
        _ => work.over::<Gfp<13>>(),
    }
}
