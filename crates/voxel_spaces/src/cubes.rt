ghost use Rattle.std.specs.Prelude.{◌≡◌, ◌≢◌, ◌≤◌, ◌<◌, ◌^◌, length, IfOk, IfErr, Ok, Err};
ghost use Rattle.std.specs.List.{range_with_len, items_where_true};
ghost use Rattle.gap_text.specs.Nest.{view};
ghost use Rattle.tuple_spaces.specs.Rules.{IsRegular};
ghost use Rattle.tuple_spaces.specs.Voxels.{cubical_of};

use crate::voxels::voxel_space;
use array_values::{ArrayFault, read_bits};
use face_poset::Space;
use gap_text::Nest;
use std::alloc::{AllocError, Global};
use tuple_spaces::cubical_spaces_are_regular;

/// The most bits of an array that is read.
const MOST_BITS: usize = 2_147_483_648;

/// Reads the cubical space of an array of bits of one to three levels, or answers its first fault.
///
/// The bit with index i in a direction, counted from 0, outer indices first, is a voxel with the
/// coordinate 2i + 1 there. The cells are the voxels that are 1 and all their faces, as tuples of
/// coordinates; the dimension of a cell is the number of its odd coordinates, and a facet has an odd
/// coordinate c replaced by c - 1 or c + 1. The cells of one dimension are numbered from 1 in
/// lexicographic order. The faults are those of `read_bits`, in its order, and then `TooManyCells`,
/// exactly where there are more than 60,000 cells. The space is regular.
pub fn cubical(alloc: Global, nest: &Nest) -> Result<Space, ArrayFault>
    ensures space { IfOk result (λ space. cubical_of (view nest.now) ≡ Ok space) }
    ensures regular { IfOk result IsRegular }
    // Want of memory may be answered to any nest.
    ensures fault { IfErr result (λ fault. fault ≢ ArrayFault.Memory → cubical_of (view nest.now) ≡ Err fault) }
{
    cubical_spaces_are_regular();
    let array = read_bits(alloc, nest, 1, 3)?;
    limit_bits(array.bits())?;
    let indices = list_ones(alloc, array.bits())?;
    voxel_space(alloc, array.sizes(), &indices)
}

/// Want of memory, exactly where there are more than 2^31 bits.
fn limit_bits(bits: &[bool]) -> Result<(), ArrayFault>
    ensures few { IfOk result (λ _. length bits.now ≤ 2 ^ 31) }
    ensures many { IfErr result (λ _. 2 ^ 31 < length bits.now) }
    ensures fault { IfErr result (λ fault. fault ≡ ArrayFault.Memory) }
{
    if bits.len() > MOST_BITS {
        Err(ArrayFault::Memory)
    } else {
        Ok(())
    }
}

/// The places of the bits that are 1.
fn list_ones(alloc: Global, bits: &[bool]) -> Result<Vec<usize>, AllocError>
    ensures { IfOk result (λ ones. ones.items ≡ items_where_true bits.now (range_with_len 0 (length bits.now))) }
{
    let mut ones = Vec::new(alloc);
    for (place, bit) in bits.iter().enumerate() {
        if *bit {
            ones.push(place)?;
        }
    }
    Ok(ones)
}
