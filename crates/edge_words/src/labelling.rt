ghost use Rattle.std.specs.Prelude.{◌≡◌, IfOk};
ghost use Rattle.edge_words.specs.Labels.{labelled_by, IsRepresentation};
ghost use Rattle.edge_words.specs.Laws.{IsLabellingAt};

use crate::label_list::Labels;
use crate::laws::{labels_are_the_lift, lifts_are_labellings};
use crate::moves::Moves;
use crate::presentation::Presentation;
use number_lists::Lists;
use sheet_tables::Table;
use std::alloc::{AllocError, Global};

/// Where the words of all edges lead through a table with a column for each generator, in which each
/// relator leads each sheet to itself. Where the presentation is that of a valid field of a regular space,
/// they are a labelling of the space: the walk round each 2-cell ends where it began.
pub fn labels(
    alloc: Global,
    presentation: &Presentation,
    table: &Table,
) -> Result<Labels, AllocError>
    requires { IsRepresentation presentation.now table.now }
    ensures labels { IfOk result (λ labels. labels ≡ labelled_by presentation.now table.now) }
    ensures labelling { IfOk result (IsLabellingAt presentation.now) }
{
    labels_are_the_lift();
    lifts_are_labellings();
    let moves = Moves::new(alloc, table)?;
    let words = presentation.words();
    let mut labels = Lists::new(alloc);
    let mut label = Vec::new(alloc);
    for index in 0..words.len() {
        moves.list_label(words.get(index), &mut label)?;
        labels.push(&label)?;
    }
    Ok(Labels::new(table.sheets(), labels))
}
