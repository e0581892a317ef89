ghost use Rattle.std.specs.Prelude.{◌≡◌, ◌<◌, length, map, slice_get, Some, IfOk, IfErr};

use crate::fault::TextFault;
use std::alloc::Global;
use std::marker::Model;

/// Lists of fewer items are kept in blocks of just their size.
const SHORT: usize = 8;

/// A number or a list, with the place of its first byte in the text, counted from 0. The numbers that
/// a range made have the place of its first number.
#[derive(Debug, Drop)]
#[cycle(nest)]
pub enum Nest {
    Number { place: u32, value: u32 },
    List { place: u32, items: Items },
}

/// The items of a list in order, fewer than 2^32, which contracts see as the list of their values.
#[derive(Debug, Drop)]
#[cycle(nest)]
pub struct Items {
    nests: Vec<Nest>,
}

impl Model for Items {
    ghost use Rattle.std.specs.Prelude.{List, map, length, ◌<◌, ◌^◌};
    ghost use Rattle.std.specs.Coded.{coded_list};
    ghost use Rattle.gap_text.specs.Value.{Value as TextValue};
    ghost use Rattle.gap_text.specs.Code.{value_code};

    ghost Value = { List TextValue };

    ghost coded = { coded_list value_code };

    ghost use Rattle.gap_text.specs.Value.{levels};
    ghost use Rattle.gap_text.specs.Nest.{view as value_of_nest};

    ghost view = { λ a. map value_of_nest a.nests.items };

    ghost invariant = { λ a. length a.nests.items < 2 ^ 32 };

    ghost size = { levels };

    ghost use Rattle.gap_text.specs.Falls.{most_le-levels};

    ghost size_decreases = { λ a h. most_le-levels a.nests.items };
}

impl Items {
    ghost use Rattle.gap_text.specs.Nest.{view};
    ghost use Rattle.gap_text.specs.declared.fault.TextFault.TheVariants.{Memory};

    /// The list of these items. A short list gets a block of just its size.
    pub(crate) fn from_nests(alloc: Global, mut nests: Vec<Nest>) -> Result<Items, TextFault>
        ensures list { IfOk result (λ items. items ≡ map view nests.items) }
        ensures err { IfErr result (λ fault. fault ≡ Memory) }
    {
        if nests.len() > u32::MAX as usize {
            return Err(TextFault::Memory);
        }
        if nests.len() >= SHORT {
            return Ok(Items { nests });
        }
        let mut short = Vec::with_capacity(alloc, nests.len())?;
        short.append(&mut nests)?;
        Ok(Items { nests: short })
    }

    /// The number of items.
    pub fn len(&self) -> u32
        ensures { result ≡ length self.now }
    {
        self.nests.len() as u32
    }

    /// The item with this number, counted from 0.
    pub fn get(&self, index: u32) -> &Nest
        requires { index < length self.now }
        ensures { slice_get self.now index ≡ Some (view result.now) }
    {
        &self.nests[index as usize]
    }
}
