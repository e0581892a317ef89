// The space that the bytes of an input stand for.
ghost use Rattle.std.specs.Prelude.{◌≡◌, ◌≤◌, length, IfOk, Ok};
ghost use Rattle.gap_text.specs.Nest.{view};
ghost use Rattle.hap_inputs.specs.Spaces.{space_in, space_of_kind, only_regular};
ghost use Rattle.hap_ends.specs.Outcomes.{Yields};

use face_poset::{Space, from_nest};
use facet_reader::{poset, simplices};
use gap_text::{Nest, parse};
use hap_ends::Outcome;
use hap_words::Kind;
use permutahedral_arrays::permutahedral;
use regular_check::{Regular, check};
use std::alloc::Global;
use voxel_spaces::{arcs, cubical};

/// The space of the bytes, or how the run ends without one.
pub fn space_of_bytes(alloc: Global, kind: Kind, bytes: &[u8]) -> Result<Space, Outcome>
    requires { length bytes.now ≤ 67108864 }
    ensures { Yields (space_in kind bytes.now) result }
{
    let nest = parse(alloc, bytes)?;
    space_of_nest(alloc, kind, &nest)
}

/// The space of a nested list, by the kind of the input.
fn space_of_nest(alloc: Global, kind: Kind, nest: &Nest) -> Result<Space, Outcome>
    ensures { Yields (space_of_kind kind (view nest.now)) result }
{
    match kind {
        Kind::Boundary => Ok(from_nest(alloc, nest)?),
        Kind::Cubical => Ok(cubical(alloc, nest)?),
        Kind::Permutahedral => Ok(permutahedral(alloc, nest)?),
        Kind::Arcs => Ok(arcs(alloc, nest)?),
        Kind::Simplices => Ok(simplices(alloc, nest)?),
        Kind::Poset => Ok(poset(alloc, nest)?),
    }
}

/// The space as a regular one, or how the run ends where it is none.
pub fn regular_space<'a>(alloc: Global, space: &'a Space) -> Result<Regular<'a>, Outcome>
    ensures stage { Yields (only_regular (Ok space.entry.now)) result }
    ensures regular { IfOk result (λ regular. regular ≡ space.entry.now) }
{
    Ok(check(alloc, space)?)
}
