// The search for a chain by its ids.
ghost use Rattle.std.specs.Prelude.{◌≡◌, ◌≢◌, ◌<◌, ◌≤◌, ℕ, length, slice_index_or, [], IfSome, IsNone};
ghost use Rattle.order_complex.specs.Order.{IsOrdered};

use crate::listing::ChainLists;
use std::cmp::Ordering;

/// The place of the ids among the chains of a degree, in lexicographic order, counted from 0, if they are there.
pub fn find_chain(chains: &ChainLists, degree: u8, ids: &[u32]) -> Option<usize>
    requires degree { degree ≤ 3 }
    requires ordered { IsOrdered (slice_index_or chains.now degree []) }
    ensures within { IfSome result (λ place. place < length (slice_index_or chains.now degree [])) }
    ensures found { IfSome result (λ place. slice_index_or (slice_index_or chains.now degree []) place [] ≡ ids.now) }
    ensures none { IsNone result → (place : ℕ) → place < length (slice_index_or chains.now degree [])
        → slice_index_or (slice_index_or chains.now degree []) place [] ≢ ids.now }
{
    let mut low = 0;
    let mut high = chains.len(degree);
    'halves: while low < high {
        let middle = low + (high - low) / 2;
        match chains.get(degree, middle).cmp(ids) {
            Ordering::Less => low = middle + 1,
            Ordering::Equal => return Some(middle),
            Ordering::Greater => high = middle,
        }
    }
    None
}
