ghost use Rattle.std.specs.Prelude.{◌≡◌, ◌≤◌, None, IfOk, MatchResult};
ghost use Rattle.regular_check.specs.Components.{component_count};
ghost use Rattle.edge_words.specs.Limits.{IsFault};
ghost use Rattle.part_groups.specs.Groups.{presented_in, presented_from, long_in, long_from};

use crate::field::field_of_part;
use chosen_field::chosen_is_good;
use edge_words::{Presentation, WordFault};
use regular_check::Regular;
use space_parts::{Parts, parts_of};
use std::alloc::Global;

/// The presentations of the parts of the components from the first one on, in order, or the cell of the first word
/// that is too long in these parts. A presentation comes without the words of edges, in the numbers of its part.
/// Components are numbered from 1; where there is no such component there is no presentation.
pub fn presentations_from(
    alloc: Global,
    regular: &Regular<'_>,
    first: u32,
) -> Result<Vec<Presentation>, WordFault>
    requires { 1 ≤ first }
    ensures presentations { IfOk result (λ ps. ps.items ≡ presented_from regular.now first) }
    ensures limits { MatchResult result
        (λ _. long_from regular.now first ≡ None)
        (IsFault (long_from regular.now first)) }
{
    let parts = parts_of(alloc, regular)?;
    let mut presentations = Vec::new(alloc);
    for index in first - 1..parts.count() {
        let presentation = presented_in(alloc, &parts, index + 1)?;
        presentations.push(presentation)?;
    }
    Ok(presentations)
}

/// The presentation of the part of a component, or the cell of its first word that is too long. Of a part without
/// edges it is trivial, and nothing is made.
fn presented_in(alloc: Global, parts: &Parts<'_>, component: u32) -> Result<Presentation, WordFault>
    requires first { 1 ≤ component }
    requires last { component ≤ component_count parts.now }
    ensures presentation { IfOk result (λ p. p ≡ presented_in parts.now component) }
    ensures limits { MatchResult result
        (λ _. long_in parts.now component ≡ None)
        (IsFault (long_in parts.now component)) }
{
    chosen_is_good();
    if parts.cells(1, component) == 0 {
        return Ok(Presentation::trivial(alloc));
    }
    presented_by_field(alloc, parts, component)
}

/// The presentation of the part of a component, by its chosen field.
fn presented_by_field(
    alloc: Global,
    parts: &Parts<'_>,
    component: u32,
) -> Result<Presentation, WordFault>
    requires first { 1 ≤ component }
    requires last { component ≤ component_count parts.now }
    ensures presentation { IfOk result (λ p. p ≡ presented_in parts.now component) }
    ensures limits { MatchResult result
        (λ _. long_in parts.now component ≡ None)
        (IsFault (long_in parts.now component)) }
{
    let field = field_of_part(alloc, parts, component)?;
    let group = field.present(alloc)?;
    Ok(group.relators_alone(alloc))
}
