ghost use Rattle.std.specs.Prelude.{◌≡◌, ◌≢◌, ◌∷◌, ◌≤◌, [], length, drop, IfOk, IfErr, OnOk, Ok, Err};
ghost use Rattle.std.specs.List.{list_any};
ghost use Rattle.gap_text.specs.Nest.{view};
ghost use Rattle.array_values.specs.Bits.{Bits, sizes_of, items_of, bit_of, bits_of, array_of, IsArray, IsAppended};

use crate::fault::ArrayFault;
use gap_text::{Items, Nest};
use std::alloc::Global;
use std::marker::Model;

/// An array of bits: the length of the lists of each level, the outermost first, and the bits in
/// reading order.
#[derive(Drop)]
pub struct BitArray {
    sizes: Vec<u32>,
    bits: Vec<bool>,
}

impl Model for BitArray {
    ghost use Rattle.array_values.specs.Bits.{Bits};

    ghost Value = { Bits };

    ghost view = { λ a. record { sizes = a.sizes.items; bits = a.bits.items } };
}

impl BitArray {
    /// The length of the lists of each level, the outermost first.
    pub fn sizes(&self) -> &[u32]
        ensures { result.now ≡ self.now.sizes }
    {
        &self.sizes
    }

    /// The bits in reading order.
    pub fn bits(&self) -> &[bool]
        ensures { result.now ≡ self.now.bits }
    {
        &self.bits
    }
}

/// Reads the array of bits that a nested list is, where arrays of `least` to `most` levels are
/// allowed, or answers its first fault.
///
/// An array of one level is a list of numbers 0 and 1, and one of more levels a list of arrays of one
/// level less, all of the same shape. The faults are looked for in this order: on the way by first
/// items to a number an empty list (`Ragged`); `BadDimension`; then item by item in reading order, each
/// list before its items, `Ragged` and `NotBit`; and last `Empty`, where no bit is 1.
pub fn read_bits(alloc: Global, nest: &Nest, least: u8, most: u8) -> Result<BitArray, ArrayFault>
    requires { 1 ≤ least }
    ensures array { IfOk result (λ array. array_of least most (view nest.now) ≡ Ok array) }
    ensures shape { IfOk result (IsArray least most) }
    // Want of memory may be answered to any nest.
    ensures fault { IfErr result (λ fault. fault ≢ ArrayFault.Memory
        → array_of least most (view nest.now) ≡ Err fault) }
{
    let sizes = read_sizes(alloc, nest)?;
    if sizes.len() < least as usize || sizes.len() > most as usize {
        return Err(ArrayFault::BadDimension);
    }
    let mut bits = Vec::new(alloc);
    push_bits(&sizes, 0, nest, &mut bits)?;
    if !has_one(&bits) {
        return Err(ArrayFault::Empty);
    }
    Ok(BitArray { sizes, bits })
}

/// Whether a bit is 1.
fn has_one(bits: &[bool]) -> bool
    ensures { result ≡ list_any (λ b. b) bits.now }
{
    bits.iter().any(|bit| *bit)
}

/// The length of the first list of each level.
fn read_sizes(alloc: Global, nest: &Nest) -> Result<Vec<u32>, ArrayFault>
    ensures ok { IfOk result (λ sizes. sizes_of (view nest.now) ≡ Ok sizes.items) }
    ensures err { IfErr result (λ fault. fault ≢ ArrayFault.Memory → sizes_of (view nest.now) ≡ Err fault) }
{
    let mut sizes = Vec::new(alloc);
    let mut first = nest;
    while let Nest::List { place, items } = first {
        if items.len() == 0 {
            return Err(ArrayFault::Ragged(*place));
        }
        sizes.push(items.len())?;
        first = items.get(0);
    }
    Ok(sizes)
}

/// Puts the bits of an array last that has the sizes from a level on, counted from 0.
fn push_bits(
    sizes: &[u32],
    level: usize,
    nest: &Nest,
    bits: &mut Vec<bool>,
) -> Result<(), ArrayFault>
    requires { level ≤ length sizes.now }
    ensures ok { OnOk result
        (IsAppended (bits_of (drop level sizes.now) (view nest.now)) bits.old.items bits.new.items) }
    ensures err { IfErr result (λ fault. fault ≢ ArrayFault.Memory
        → bits_of (drop level sizes.now) (view nest.now) ≡ Err fault) }
{
    if level == sizes.len() {
        bits.push(read_bit(nest)?)?;
        return Ok(());
    }
    let items = list_of(sizes[level], nest)?;
    for index in 0..items.len() {
        push_bits(sizes, level + 1, items.get(index), bits)?;
    }
    Ok(())
}

/// The items of a list of this length.
fn list_of(size: u32, nest: &Nest) -> Result<&Items, ArrayFault>
    ensures ok { IfOk result (λ items. items_of size (view nest.now) ≡ Ok items.now) }
    ensures err { IfErr result (λ fault. items_of size (view nest.now) ≡ Err fault) }
{
    match nest {
        Nest::Number { place, .. } => Err(ArrayFault::Ragged(*place)),
        Nest::List { place, items } => {
            if items.len() == size {
                Ok(items)
            } else {
                Err(ArrayFault::Ragged(*place))
            }
        }
    }
}

/// A bit by itself.
fn read_bit(nest: &Nest) -> Result<bool, ArrayFault>
    ensures ok { IfOk result (λ bit. bit_of (view nest.now) ≡ Ok (bit ∷ [])) }
    ensures err { IfErr result (λ fault. bit_of (view nest.now) ≡ Err fault) }
{
    match nest {
        Nest::Number { place, value } => {
            if *value <= 1 {
                Ok(*value == 1)
            } else {
                Err(ArrayFault::NotBit(*place))
            }
        }
        Nest::List { place, .. } => Err(ArrayFault::Ragged(*place)),
    }
}
