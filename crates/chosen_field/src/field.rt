ghost use Rattle.std.specs.Prelude.{◌≡◌, ◌≤◌, ◌<◌, ◌+◌, IfOk};
ghost use Rattle.face_poset.specs.Poset.{count};
ghost use Rattle.regular_check.specs.Rules.{IsRegular};
ghost use Rattle.regular_check.specs.Components.{component_count};
ghost use Rattle.vector_field.specs.Pairs.{IsFieldOf, IsValid};
ghost use Rattle.vector_field.specs.Maximal.{IsGood};
ghost use Rattle.vector_field.specs.Stages.{IsAbove};
ghost use Rattle.chosen_field.specs.Chosen.{chosen, high, stage, tree, listed};
ghost use Rattle.chosen_field.specs.Listings.{upper_in};

use crate::distances::distances;
use crate::laws::chosen_is_good;
use crate::listing::list_pairs;
use crate::pairs::free_pairs;
use crate::rest::flags_of;
use crate::tree_edges::tree_edges;
use face_poset::{Graded, Pair};
use regular_check::Regular;
use std::alloc::{AllocError, Global};
use vector_field::{PairFault, PairList, Partner};

/// The chosen field of a space with one component: valid, maximal, and with one critical vertex.
///
/// For dimension 2 and then for dimension 1 free faces are paired, and then more pairs are added where no
/// gradient path forbids them. The edges that are then in no pair join all vertices; each vertex but the
/// first is paired with the least of them that joins it to a vertex whose distance from vertex 1 is smaller
/// by one. The pairs are listed by dimension, the next being that with the least lower among those that may
/// come before all that are left.
pub fn tree_field(alloc: Global, regular: &Regular<'_>) -> Result<PairList, AllocError>
    requires { component_count regular.now ≡ 1 }
    ensures pairs { IfOk result (λ field. field.pairs ≡ chosen regular.now) }
    ensures field { IfOk result (IsFieldOf regular.now) }
    ensures good { IfOk result (λ field. IsGood regular.now field.pairs) }
{
    chosen_is_good();
    let space = regular.space();
    let _vertices = space.cells(0);
    let high = high_pairs(alloc, space)?;
    let mut pairs = list_tree(alloc, space, &high)?;
    let edges = list_dimension(alloc, space, &high, 1)?;
    let disks = list_dimension(alloc, space, &high, 2)?;
    pairs.extend_from_slice(&edges)?;
    pairs.extend_from_slice(&disks)?;
    field_of(alloc, space, &pairs)
}

/// The pairs of dimensions 2 and 1.
fn high_pairs<G: Graded>(alloc: Global, graded: &G) -> Result<PairList, AllocError>
    ensures pairs { IfOk result (λ field. field.pairs ≡ high (G.space graded.now)) }
    ensures field { IfOk result (IsAbove (G.space graded.now) 1) }
{
    let none = field_of(alloc, graded, &[])?;
    let disks = stage(alloc, graded, none, 2)?;
    stage(alloc, graded, disks, 1)
}

/// The field with pairs of free faces of dimension `dim` more, and with those that no gradient path forbids.
fn stage<G: Graded>(
    alloc: Global,
    graded: &G,
    field: PairList,
    dim: u8,
) -> Result<PairList, AllocError>
    requires dim { dim < 3 }
    requires field { IsAbove (G.space graded.now) (dim + 1) field }
    ensures pairs { IfOk result (λ more. more.pairs ≡ stage (G.space graded.now) dim field.pairs) }
    ensures field { IfOk result (IsAbove (G.space graded.now) dim) }
{
    let made = free_pairs(alloc, graded, &field, dim)?;
    let mut pairs = pairs_of(alloc, &field)?;
    pairs.extend_from_slice(&made)?;
    let more = field_of(alloc, graded, &pairs)?;
    more.filled(alloc, graded, dim)
}

/// The pairs of a field.
fn pairs_of(alloc: Global, field: &PairList) -> Result<Vec<Pair>, AllocError>
    ensures { IfOk result (λ pairs. pairs.items ≡ field.now.pairs) }
{
    let mut pairs = Vec::new(alloc);
    for index in 0..field.len() {
        pairs.push(field.get(index))?;
    }
    Ok(pairs)
}

/// The field of pairs that are one.
fn field_of<G: Graded>(alloc: Global, graded: &G, pairs: &[Pair]) -> Result<PairList, AllocError>
    requires { IsValid (G.space graded.now) pairs.now }
    ensures pairs { IfOk result (λ field. field.pairs ≡ pairs.now) }
    ensures field { IfOk result (IsFieldOf (G.space graded.now)) }
{
    match PairList::from_pairs(alloc, graded, pairs) {
        Ok(field) => Ok(field),
        Err(PairFault::Memory) => Err(AllocError),
        Err(PairFault::Bad(_)) => unreachable!(),
    }
}

/// The pairs of vertices, listed one after another.
fn list_tree<G: Graded>(
    alloc: Global,
    graded: &G,
    field: &PairList,
) -> Result<Vec<Pair>, AllocError>
    requires regular { IsRegular (G.space graded.now) }
    requires some { 1 ≤ count (G.space graded.now) 0 }
    requires pairs { field.now.pairs ≡ high (G.space graded.now) }
    requires field { IsAbove (G.space graded.now) 1 field.now }
    ensures { IfOk result (λ pairs. pairs.items ≡ listed (G.space graded.now) (tree (G.space graded.now)) 0) }
{
    let loose = flags_of(alloc, graded.cells(1), field.critical(1))?;
    let numbers = distances(alloc, graded, &loose)?;
    let edges = tree_edges(alloc, graded, &loose, &numbers)?;
    list_pairs(alloc, graded, 0, &edges)
}

/// The pairs of a dimension of a field, listed one after another.
fn list_dimension<G: Graded>(
    alloc: Global,
    graded: &G,
    field: &PairList,
    dim: u8,
) -> Result<Vec<Pair>, AllocError>
    requires dim { dim < 3 }
    requires field { IsFieldOf (G.space graded.now) field.now }
    ensures { IfOk result (λ pairs. pairs.items ≡ listed (G.space graded.now) field.now.pairs dim) }
{
    let mut uppers = Vec::new(alloc);
    for index in 0..graded.cells(dim) {
        uppers.push(upper_number(field.partner(dim, index + 1)))?;
    }
    list_pairs(alloc, graded, dim, &uppers)
}

/// The upper of a cell with this partner, or 0 where it has none.
fn upper_number(partner: Partner) -> u32
    ensures { result ≡ upper_in partner }
{
    match partner {
        Partner::Upper(upper) => upper,
        Partner::Lower(_) => 0,
        Partner::Critical => 0,
    }
}
