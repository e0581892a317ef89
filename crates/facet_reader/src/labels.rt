ghost use Rattle.std.specs.Prelude.{◌≡◌, IfOk, IfErr, OnOk, Ok, None, []};
ghost use Rattle.gap_text.specs.Nest.{view};
ghost use Rattle.facet_reader.specs.Labels.{row_shape, unless_empty, shape_in, labels_in, labels_fault, first_some};
ghost use Rattle.facet_reader.specs.Labels.{row_fault, rows_in, rows_of, IsFirst, HasFault};

use crate::fault::FacetFault;
use gap_text::{Items, Nest};
use number_lists::Lists;
use std::alloc::Global;
use std::collections::BTreeSet;

/// The lists of labels that a nested list is, or its first fault.
///
/// It is a list of lists of labels, which are numbers from 1, no label twice in one list. The faults are
/// looked for in this order: `Shape` at the first value that is a number in place of a list or the
/// reverse, or an empty list of labels; `Empty`; and the first of `BadLabel`, at a label 0, and
/// `Repeated`, at a label that stands earlier in its list.
pub(crate) fn read_rows(alloc: Global, nest: &Nest) -> Result<Lists, FacetFault>
    ensures rows { IfOk result (λ rows. rows_of (view nest.now) ≡ Ok rows) }
    // Want of memory may be answered to any nest.
    ensures fault { IfErr result (HasFault (rows_of (view nest.now))) }
{
    match nest {
        Nest::Number { place, .. } => Err(FacetFault::Shape(*place)),
        Nest::List { items, .. } => {
            if let Some(place) = find_shape(items) {
                return Err(FacetFault::Shape(place));
            }
            if items.len() == 0 {
                return Err(FacetFault::Empty);
            }
            let rows = list_rows(alloc, items)?;
            Ok(rows)
        }
    }
}

/// The place of the first value of a wrong shape in lists of labels.
fn find_shape(items: &Items) -> Option<u32>
    ensures { result ≡ shape_in items.now }
{
    for index in 0..items.len() {
        if let Some(place) = row_shape(items.get(index)) {
            return Some(place);
        }
    }
    None
}

/// The place of the first value of a wrong shape in a list of labels.
fn row_shape(nest: &Nest) -> Option<u32>
    ensures { result ≡ row_shape (view nest.now) }
{
    match nest {
        Nest::Number { place, .. } => Some(*place),
        Nest::List { place, items } => find_list(*place, items),
    }
}

/// The place of the first of the items that is a list, or that of the list of them where there is none.
pub(crate) fn find_list(place: u32, items: &Items) -> Option<u32>
    ensures { result ≡ unless_empty place items.now }
{
    if items.len() == 0 {
        return Some(place);
    }
    for index in 0..items.len() {
        if let Nest::List { place: inner, .. } = items.get(index) {
            return Some(*inner);
        }
    }
    None
}

/// The lists of labels.
fn list_rows(alloc: Global, items: &Items) -> Result<Lists, FacetFault>
    ensures ok { OnOk result (first_some row_fault items.now ≡ None) }
    ensures rows { IfOk result (λ rows. rows ≡ rows_in items.now) }
    ensures err { IfErr result (IsFirst (first_some row_fault items.now)) }
{
    let mut rows = Lists::new(alloc);
    let mut row = Vec::new(alloc);
    for index in 0..items.len() {
        let Nest::List { items: labels, .. } = items.get(index) else {
            continue;
        };
        read_row(alloc, labels, &mut row)?;
        rows.push(&row)?;
    }
    Ok(rows)
}

/// The labels of a list, in place of those that stood there.
fn read_row(alloc: Global, items: &Items, row: &mut Vec<u32>) -> Result<(), FacetFault>
    ensures ok { OnOk result (labels_fault [] items.now ≡ None) }
    ensures row { OnOk result (row.new.items ≡ labels_in items.now) }
    ensures err { IfErr result (IsFirst (labels_fault [] items.now)) }
{
    row.clear();
    let mut seen = BTreeSet::new(alloc);
    for index in 0..items.len() {
        let Nest::Number { place, value } = items.get(index) else {
            continue;
        };
        if *value == 0 {
            return Err(FacetFault::BadLabel(*place));
        }
        if !seen.insert(*value)? {
            return Err(FacetFault::Repeated(*place));
        }
        row.push(*value)?;
    }
    Ok(())
}
