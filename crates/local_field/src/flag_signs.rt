// The signs of flags, and of facets by places.
ghost use Rattle.std.specs.Prelude.{◌≡◌, ◌≤◌, ◌-◌, Contains, true, false, IfOk};
ghost use Rattle.std.specs.List.Sorted.{IsStrictlyIncreasing};
ghost use Rattle.number_lists.specs.Words.{holds};
ghost use Rattle.face_poset.specs.Poset.{count, facets_of, IsSpace};
ghost use Rattle.face_poset.specs.Signs.{SignsCancel};
ghost use Rattle.local_field.specs.Flags.{facets_at, facets_by_place, is_odd, minus_at};
ghost use Rattle.local_field.specs.Flags.{minus_by_place, negative_at, other_sign, AreFlagSigns, IsOf};

use crate::numbering::Numbering;
use face_poset::Signed;
use number_lists::Lists;
use std::alloc::{AllocError, Global};

/// Asks for one sign, where there is one over two steps: what it says of itself holds for all of them.
pub(crate) fn ask_signs<S: Signed>(signed: &S)
    ensures valid { IsSpace (S.space signed.now) }
    ensures cancel { SignsCancel (S.space signed.now) (S.negative signed.now) }
{
    if ask_sign(signed, 2) {
        return;
    }
    let _above = ask_sign(signed, 3);
}

/// Asks for the sign of the first facet of the first cell of a dimension, and answers whether there is one.
fn ask_sign<S: Signed>(signed: &S, dim: u8) -> bool
    requires { 1 ≤ dim }
    ensures valid { IsSpace (S.space signed.now) }
    ensures cancel { result ≡ true → SignsCancel (S.space signed.now) (S.negative signed.now) }
    ensures none { result ≡ false → count (S.space signed.now) dim ≡ 0 }
{
    if signed.cells(dim) == 0 {
        return false;
    }
    let facets = signed.facets(dim, 1);
    let _sign = signed.sign(dim, 1, facets[0]);
    true
}

/// For each vertex that the sign of its flag is 1.
pub(crate) fn point_signs<S: Signed>(alloc: Global, signed: &S) -> Result<Vec<bool>, AllocError>
    ensures { IfOk result
        (λ signs. AreFlagSigns (S.space signed.now) (S.negative signed.now) 0 signs.items) }
{
    let mut signs = Vec::new(alloc);
    for _index in 0..signed.cells(0) {
        signs.push(false)?;
    }
    Ok(signs)
}

/// For each cell of a dimension whether the sign of its flag is -1, from those of the dimension below.
pub(crate) fn flag_signs<S: Signed>(
    alloc: Global,
    signed: &S,
    dim: u8,
    below: &[bool],
) -> Result<Vec<bool>, AllocError>
    requires low { 1 ≤ dim }
    requires below { AreFlagSigns (S.space signed.now) (S.negative signed.now) (dim - 1) below.now }
    ensures { IfOk result
        (λ signs. AreFlagSigns (S.space signed.now) (S.negative signed.now) dim signs.items) }
{
    let mut signs = Vec::new(alloc);
    for index in 0..signed.cells(dim) {
        let first = signed.facets(dim, index + 1)[0];
        let step = is_minus(signed, dim, index + 1, first);
        signs.push(is_one(step, below[first as usize - 1]))?;
    }
    Ok(signs)
}

/// For each place of a dimension the places of the facets with the sign -1.
pub(crate) fn minus_by_place<S: Signed>(
    alloc: Global,
    signed: &S,
    numbering: &Numbering,
    dim: u8,
    facets: &Lists,
    signs: &[bool],
    below: &[bool],
) -> Result<Lists, AllocError>
    requires cells { IsOf (S.space signed.now) numbering.now }
    requires low { 1 ≤ dim }
    requires high { dim ≤ 3 }
    requires facets { facets.now ≡ facets_by_place (S.space signed.now) numbering.now dim }
    requires signs { AreFlagSigns (S.space signed.now) (S.negative signed.now) dim signs.now }
    requires below { AreFlagSigns (S.space signed.now) (S.negative signed.now) (dim - 1) below.now }
    ensures { IfOk result
        (λ lists. lists ≡ minus_by_place (S.space signed.now) (S.negative signed.now) numbering.now dim) }
{
    let mut lists = Lists::new(alloc);
    for index in 0..signed.cells(dim) {
        let sides = facets.get(index as usize);
        let minus = list_minus(
            alloc,
            signed,
            numbering,
            dim,
            index + 1,
            sides,
            signs,
            below,
        )?;
        lists.push(&minus)?;
    }
    Ok(lists)
}

/// The places of the facets with the sign -1 of the cell at a place.
fn list_minus<S: Signed>(
    alloc: Global,
    signed: &S,
    numbering: &Numbering,
    dim: u8,
    place: u32,
    facets: &[u32],
    signs: &[bool],
    below: &[bool],
) -> Result<Vec<u32>, AllocError>
    requires cells { IsOf (S.space signed.now) numbering.now }
    requires low { 1 ≤ dim }
    requires high { dim ≤ 3 }
    requires first { 1 ≤ place }
    requires last { place ≤ count (S.space signed.now) dim }
    requires facets { facets.now ≡ facets_at (S.space signed.now) numbering.now dim place }
    requires signs { AreFlagSigns (S.space signed.now) (S.negative signed.now) dim signs.now }
    requires below { AreFlagSigns (S.space signed.now) (S.negative signed.now) (dim - 1) below.now }
    ensures { IfOk result (λ minus.
        minus.items ≡ minus_at (S.space signed.now) (S.negative signed.now) numbering.now dim place) }
{
    let mut minus = Vec::new(alloc);
    for facet in facets {
        if is_negative(signed, numbering, dim, place, *facet, signs, below) {
            minus.push(*facet)?;
        }
    }
    Ok(minus)
}

/// Whether the sign of a facet is -1, both by their places.
fn is_negative<S: Signed>(
    signed: &S,
    numbering: &Numbering,
    dim: u8,
    place: u32,
    facet: u32,
    signs: &[bool],
    below: &[bool],
) -> bool
    requires cells { IsOf (S.space signed.now) numbering.now }
    requires low { 1 ≤ dim }
    requires high { dim ≤ 3 }
    requires first { 1 ≤ place }
    requires last { place ≤ count (S.space signed.now) dim }
    requires facet { Contains (facets_at (S.space signed.now) numbering.now dim place) facet }
    requires signs { AreFlagSigns (S.space signed.now) (S.negative signed.now) dim signs.now }
    requires below { AreFlagSigns (S.space signed.now) (S.negative signed.now) (dim - 1) below.now }
    ensures { result
        ≡ negative_at (S.space signed.now) (S.negative signed.now) numbering.now dim place facet }
{
    let _cells = signed.cells(0);
    let cell = numbering.cell(dim, place);
    let side = numbering.cell(dim - 1, facet);
    let step = is_minus(signed, dim, cell, side);
    let both = is_one(signs[cell as usize - 1], below[side as usize - 1]);
    is_one(is_odd(dim), is_one(step, both))
}

/// Whether the sign of a facet is -1.
fn is_minus<S: Signed>(signed: &S, dim: u8, cell: u32, facet: u32) -> bool
    requires first { 1 ≤ cell }
    requires last { cell ≤ count (S.space signed.now) dim }
    requires facet { Contains (facets_of (S.space signed.now) dim cell) facet }
    ensures { result ≡ S.negative signed.now dim cell facet }
{
    signed.sign(dim, cell, facet) < 0
}

/// Whether exactly one of them is true.
fn is_one(a: bool, b: bool) -> bool
    ensures { result ≡ other_sign a b }
{
    if a { !b } else { b }
}

/// Whether a dimension is odd.
fn is_odd(dim: u8) -> bool
    requires { dim ≤ 3 }
    ensures { result ≡ is_odd dim }
{
    match dim {
        1 => true,
        3 => true,
        _ => false,
    }
}

/// Whether the number is one of these.
pub(crate) fn stands(numbers: &[u32], number: u32) -> bool
    requires { IsStrictlyIncreasing numbers.now }
    ensures { result ≡ holds numbers.now number }
{
    match numbers.binary_search(&number) {
        Ok(_) => true,
        Err(_) => false,
    }
}
