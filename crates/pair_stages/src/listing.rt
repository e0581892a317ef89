// What is kept of a dimension of a signed set with a field of pairs.
ghost use Rattle.std.specs.Prelude.{◌≡◌, ◌≤◌, ◌<◌, ◌+◌, ◌++◌, ◌∷◌, [], Contains, length, map, slice_index, IfOk, OnOk};
ghost use Rattle.face_poset.specs.Poset.{count, facets_of};
ghost use Rattle.vector_field.specs.Pairings.{HasCell};
ghost use Rattle.pair_stages.specs.Stages.{critical_from};
ghost use Rattle.pair_stages.specs.Signed.{sign_element, matches_of, AreKinds, IsKind};

use face_poset::Signed;
use small_field::Field;
use split_laws::{Kind, Match};
use std::alloc::{AllocError, Global};
use vector_field::{PairList, Partner};

/// How each cell of a dimension stands in the pairs.
pub(crate) fn list_kinds(
    alloc: Global,
    field: &PairList,
    dim: u8,
    cells: u32,
) -> Result<Vec<Kind>, AllocError>
    requires { cells ≡ slice_index field.now.counts dim }
    ensures { IfOk result (λ kinds. AreKinds field.now.pairs dim cells kinds.items) }
{
    let mut kinds = Vec::new(alloc);
    kinds.reserve(cells as usize)?;
    for index in 0..cells {
        kinds.push(kind_of(field, dim, index + 1))?;
    }
    Ok(kinds)
}

/// The pairs of a dimension, by places.
pub(crate) fn list_pairs(alloc: Global, field: &PairList, dim: u8) -> Result<Vec<Match>, AllocError>
    ensures pairs { IfOk result (λ pairs. pairs.items ≡ matches_of field.now.pairs dim) }
    ensures few { IfOk result (λ pairs. length pairs.items ≤ 4294967295) }
{
    let mut pairs = Vec::new(alloc);
    for index in 0..field.len() {
        let pair = field.get(index);
        if pair.dim == dim {
            pairs.push(Match {
                lower: pair.lower.saturating_sub(1),
                upper: pair.upper.saturating_sub(1),
            })?;
        }
    }
    Ok(pairs)
}

/// The numbers of the critical cells.
pub(crate) fn list_critical(alloc: Global, kinds: &[Kind]) -> Result<Vec<u32>, AllocError>
    requires { length kinds.now ≤ 4294967295 }
    ensures { IfOk result (λ critical. critical.items ≡ critical_from 1 kinds.now) }
{
    let mut critical = Vec::new(alloc);
    for index in 0..kinds.len() {
        put_critical(&mut critical, kinds[index], index as u32 + 1)?;
    }
    Ok(critical)
}

/// Puts the numbers of the signs of the facets of a cell in the list.
pub(crate) fn put_signs<F: Field, G: Signed>(
    graded: &G,
    dim: u8,
    cell: u32,
    signs: &mut Vec<u8>,
) -> Result<(), AllocError>
    requires first { 1 ≤ cell }
    requires last { cell ≤ count (G.space graded.now) dim }
    ensures { OnOk result
        (signs.new.items
        ≡ map (λ facet. sign_element F.ops (G.negative graded.now dim cell facet))
        (facets_of (G.space graded.now) dim cell)) }
{
    signs.clear();
    for facet in graded.facets(dim, cell) {
        signs.push(sign_number::<F, G>(graded, dim, cell, *facet))?;
    }
    Ok(())
}

/// How a cell stands in the pairs.
fn kind_of(field: &PairList, dim: u8, cell: u32) -> Kind
    requires { HasCell field.now.counts dim cell }
    ensures { IsKind field.now.pairs dim cell result }
{
    match field.partner(dim, cell) {
        Partner::Critical => Kind::Critical,
        Partner::Upper(_) => Kind::Lower,
        Partner::Lower(_) => Kind::Upper,
    }
}

/// Puts the number of a cell last, where the cell is critical.
fn put_critical(critical: &mut Vec<u32>, kind: Kind, number: u32) -> Result<(), AllocError>
    ensures { OnOk result (critical.new.items ≡ critical.old.items ++ critical_from number (kind ∷ [])) }
{
    match kind {
        Kind::Critical => {
            critical.push(number)?;
            Ok(())
        }
        Kind::Lower => Ok(()),
        Kind::Upper => Ok(()),
    }
}

/// The number of the sign of a facet.
fn sign_number<F: Field, G: Signed>(graded: &G, dim: u8, cell: u32, facet: u32) -> u8
    requires first { 1 ≤ cell }
    requires last { cell ≤ count (G.space graded.now) dim }
    requires facet { Contains (facets_of (G.space graded.now) dim cell) facet }
    ensures { result ≡ sign_element F.ops (G.negative graded.now dim cell facet) }
{
    let one = F::one();
    if graded.sign(dim, cell, facet) < 0 {
        one.neg().to_number() as u8
    } else {
        one.to_number() as u8
    }
}
