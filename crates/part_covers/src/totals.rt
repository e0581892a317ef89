ghost use Rattle.std.specs.Prelude.{◌≡◌, IfOk, true};
ghost use Rattle.sheet_laws.specs.Labellings.{is_labelling};
ghost use Rattle.sheet_laws.specs.Lifts.{columns_of, is_cover, lift};
ghost use Rattle.space_parts.specs.Laws.{IsWhole};
ghost use Rattle.chosen_field.specs.Chosen.{chosen};
ghost use Rattle.edge_words.specs.Words.{presentation_of};
ghost use Rattle.part_covers.specs.Covered.{IsTotal, lift_on};

use chosen_field::chosen_is_good;
use cover_space::{TotalFault, total};
use edge_words::{Labels, Presentation, labels, labels_are_the_lift, lifts_are_labellings};
use face_poset::Space;
use regular_check::{Regular, RegularFault, check};
use sheet_tables::Table;
use space_parts::Part;
use std::alloc::{AllocError, Global};

/// The lift of the table of a cover of a part along the chosen field, which is a labelling.
pub(crate) fn labels_on(
    alloc: Global,
    part: &Part,
    presentation: &Presentation,
    table: &Table,
) -> Result<Labels, AllocError>
    requires presentation { presentation.now ≡ presentation_of part.now.space (chosen part.now.space) }
    requires columns { table.now.columns ≡ columns_of part.now.space (chosen part.now.space) }
    requires cover { is_cover part.now.space (chosen part.now.space) (table.now.sheets, table.now.cells) ≡ true }
    ensures sheets { IfOk result (λ labels. labels.sheets ≡ table.now.sheets) }
    ensures labels { IfOk result (λ labels. labels.labels ≡ lift_on part.now.space table.now.sheets table.now.cells) }
    ensures labelling { IfOk result (λ labels. is_labelling part.now.space labels.sheets labels.labels ≡ true) }
{
    chosen_is_good();
    labels_are_the_lift();
    lifts_are_labellings();
    let _space = part.space();
    labels(alloc, presentation, table)
}

/// The total space of a labelling of a part.
pub(crate) fn total_on(alloc: Global, part: &Part, labels: &Labels) -> Result<Space, TotalFault>
    requires { is_labelling part.now.space labels.now.sheets labels.now.labels ≡ true }
    ensures { IsTotal part.now.space labels.now result }
{
    let regular = regular_part(alloc, part)?;
    total(alloc, &regular, labels)
}

/// The part as a regular space: to check it refuses nothing.
fn regular_part<'a>(alloc: Global, part: &'a Part) -> Result<Regular<'a>, AllocError>
    ensures same { IfOk result (λ regular. regular ≡ part.entry.now.space) }
    ensures whole { IsWhole part.entry.now.space }
{
    match check(alloc, part.space()) {
        Ok(regular) => Ok(regular),
        Err(RegularFault::Memory) => Err(AllocError),
        Err(_) => unreachable!(),
    }
}
