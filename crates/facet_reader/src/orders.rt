ghost use Rattle.std.specs.Prelude.{◌≡◌, ◌≤◌, ◌∷◌, ◌++◌, ℕ, [], All, IfOk, IfErr, OnOk, None};
ghost use Rattle.std.specs.List.{flat_map};
ghost use Rattle.gap_text.specs.Nest.{view};
ghost use Rattle.facet_reader.specs.Labels.{first_some, IsFirst, HasFault};
ghost use Rattle.facet_reader.specs.Orders.{pair_shape, two_shape, points_fault, pair_fault, two_fault};
ghost use Rattle.facet_reader.specs.Orders.{pair_in, two_in, order_in, order_of};
ghost use Rattle.facet_reader.specs.Chains.{pairs_of, IsPair, IsOrder, order_by, order_with};

use crate::fault::FacetFault;
use crate::labels::find_list;
use gap_text::{Items, Nest};
use number_lists::Lists;
use std::alloc::Global;

/// A partial order: how many points it has, and its relations as lists of two points, the first smaller
/// than the second.
#[derive(Drop)]
pub(crate) struct Order {
    pub(crate) points: u32,
    pub(crate) pairs: Lists,
}

/// The partial order that a nested list is, or its first fault.
///
/// It is a list of the number of points and a list of relations, each a list of two points, the first
/// smaller than the second. The faults are looked for in this order: `Shape` at the first value that is
/// a number in place of a list or the reverse, or a list that has not two items where two are asked;
/// `Empty` where there is no point; and the first of `BadLabel`, at a number that is no point or a
/// second number smaller than the first, and `Repeated`, at a second number that is the first.
pub(crate) fn read_order(alloc: Global, nest: &Nest) -> Result<Order, FacetFault>
    ensures order { IfOk result (λ order. IsOrder (order_of (view nest.now)) order.points order.pairs) }
    // Want of memory may be answered to any nest.
    ensures fault { IfErr result (HasFault (order_of (view nest.now))) }
{
    match nest {
        Nest::Number { place, .. } => Err(FacetFault::Shape(*place)),
        Nest::List { place, items } => read_items(alloc, *place, items),
    }
}

/// The partial order that the items of a list at this place are.
fn read_items(alloc: Global, place: u32, items: &Items) -> Result<Order, FacetFault>
    ensures order { IfOk result (λ order. IsOrder (order_in place items.now) order.points order.pairs) }
    ensures fault { IfErr result (HasFault (order_in place items.now)) }
{
    if items.len() != 2 {
        return Err(FacetFault::Shape(place));
    }
    match items.get(0) {
        Nest::List { place: inner, .. } => Err(FacetFault::Shape(*inner)),
        Nest::Number { value, .. } => read_second(alloc, *value, items.get(1)),
    }
}

/// The partial order of so many points with the relations that a nested list is.
fn read_second(alloc: Global, points: u32, nest: &Nest) -> Result<Order, FacetFault>
    ensures order { IfOk result (λ order. IsOrder (order_with points (view nest.now)) order.points order.pairs) }
    ensures fault { IfErr result (HasFault (order_with points (view nest.now))) }
{
    match nest {
        Nest::Number { place, .. } => Err(FacetFault::Shape(*place)),
        Nest::List { items, .. } => read_relations(alloc, points, items),
    }
}

/// The partial order of so many points with these relations.
fn read_relations(alloc: Global, points: u32, items: &Items) -> Result<Order, FacetFault>
    ensures order { IfOk result (λ order. IsOrder (order_by points items.now) order.points order.pairs) }
    ensures fault { IfErr result (HasFault (order_by points items.now)) }
{
    if let Some(place) = find_pair_shape(items) {
        return Err(FacetFault::Shape(place));
    }
    if points == 0 {
        return Err(FacetFault::Empty);
    }
    let pairs = list_pairs(alloc, points, items)?;
    Ok(Order { points, pairs })
}

/// The place of the first value of a wrong shape in relations.
fn find_pair_shape(items: &Items) -> Option<u32>
    ensures { result ≡ first_some pair_shape items.now }
{
    for index in 0..items.len() {
        if let Some(place) = pair_shape(items.get(index)) {
            return Some(place);
        }
    }
    None
}

/// The place of the first value of a wrong shape in a relation.
fn pair_shape(nest: &Nest) -> Option<u32>
    ensures { result ≡ pair_shape (view nest.now) }
{
    match nest {
        Nest::Number { place, .. } => Some(*place),
        Nest::List { place, items } => two_shape(*place, items),
    }
}

/// The place of the list where it has not two items, or else of the first of them that is a list.
fn two_shape(place: u32, items: &Items) -> Option<u32>
    ensures { result ≡ two_shape place items.now }
{
    if items.len() != 2 {
        return Some(place);
    }
    find_list(place, items)
}

/// The relations as lists of two points.
fn list_pairs(alloc: Global, points: u32, items: &Items) -> Result<Lists, FacetFault>
    ensures ok { OnOk result (first_some (pair_fault points) items.now ≡ None) }
    ensures pairs { IfOk result (λ pairs. pairs_of pairs ≡ flat_map pair_in items.now) }
    ensures rising { IfOk result (All (IsPair points)) }
    ensures err { IfErr result (IsFirst (first_some (pair_fault points) items.now)) }
{
    let mut pairs = Lists::new(alloc);
    for index in 0..items.len() {
        let Nest::List { items: pair, .. } = items.get(index) else {
            continue;
        };
        push_pair(points, pair, &mut pairs)?;
    }
    Ok(pairs)
}

/// Puts a relation last.
fn push_pair(points: u32, items: &Items, pairs: &mut Lists) -> Result<(), FacetFault>
    requires { All (IsPair points) pairs.old }
    ensures ok { OnOk result (two_fault points items.now ≡ None) }
    ensures pairs { OnOk result (pairs_of pairs.new ≡ pairs_of pairs.old ++ two_in items.now) }
    ensures rising { OnOk result (All (IsPair points) pairs.new) }
    ensures err { IfErr result (IsFirst (two_fault points items.now)) }
{
    if items.len() != 2 {
        return Ok(());
    }
    let Nest::Number {
        place: at,
        value: first,
    } = items.get(0)
    else {
        return Ok(());
    };
    let Nest::Number {
        place,
        value: second,
    } = items.get(1)
    else {
        return Ok(());
    };
    if let Some(fault) = points_fault(points, *at, *place, *first, *second) {
        return Err(fault);
    }
    pairs.push(&[*first, *second])?;
    Ok(())
}

/// The fault of two numbers of a relation, at these places.
fn points_fault(points: u32, at: u32, place: u32, first: u32, second: u32) -> Option<FacetFault>
    ensures { result ≡ points_fault points at place first second }
{
    if first == 0 || first > points {
        return Some(FacetFault::BadLabel(at));
    }
    if second == 0 || second > points || second < first {
        return Some(FacetFault::BadLabel(place));
    }
    if first == second {
        return Some(FacetFault::Repeated(place));
    }
    None
}
