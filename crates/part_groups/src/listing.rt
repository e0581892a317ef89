ghost use Rattle.std.specs.Prelude.{◌≡◌, ◌≤◌, ◌<◌, [], None, length, slice_index_or, IfOk, MatchResult};
ghost use Rattle.face_poset.specs.Poset.{count};
ghost use Rattle.regular_check.specs.Components.{component_count};
ghost use Rattle.space_parts.specs.Parts.{whole_of};
ghost use Rattle.edge_words.specs.Limits.{IsFault};
ghost use Rattle.part_groups.specs.Groups.{group_in, told_of, groups_of, long_in, long_word};

use crate::field::field_of_part;
use crate::part_group::PartGroup;
use chosen_field::{chosen_is_good, tree_field};
use edge_words::{Presentation, WordFault, present};
use face_poset::Graded;
use regular_check::Regular;
use space_parts::{Part, Parts, one_part_is_the_space, one_part_keeps_numbers, parts_of};
use std::alloc::{AllocError, Global};
use std::marker::Model;

/// The generators of the group of a part, by their edges in the whole space, and its relators. The letter
/// g is generator g forward, -g backward; generators are numbered from 1.
#[derive(Drop)]
pub struct Group {
    edges: Vec<u32>,
    presentation: Presentation,
}

impl Model for Group {
    ghost use Rattle.part_groups.specs.Groups.{Generated};

    ghost Value = { Generated };

    ghost view = { λ s. record { edges = s.edges.items; relators = s.presentation.relators } };
}

impl Group {
    /// The edges of the whole space that are the generators: generator g is the g-th of them.
    pub fn edges(&self) -> &[u32]
        ensures { result.now ≡ self.now.edges }
    {
        &self.edges
    }

    /// How many relators there are.
    pub fn relators(&self) -> u32
        ensures { result ≡ length self.now.relators }
    {
        self.presentation.relators()
    }

    /// The relator at an index, counted from 0.
    pub fn relator(&self, index: u32) -> &[i32]
        requires { index < length self.now.relators }
        ensures { result.now ≡ slice_index_or self.now.relators index [] }
    {
        self.presentation.relator(index)
    }
}

/// The groups of all components of a regular space, in order, or the cell of the first word that is too
/// long in the part of a component.
pub fn groups_of(alloc: Global, regular: &Regular<'_>) -> Result<Vec<Group>, WordFault>
    ensures groups { IfOk result (λ groups. groups.items ≡ groups_of regular.now) }
    ensures limits { MatchResult result (λ _. long_word regular.now ≡ None) (IsFault (long_word regular.now)) }
{
    let components = regular.components(alloc)?;
    if components.count() == 1 {
        only_group(alloc, regular)
    } else {
        all_groups(alloc, regular)
    }
}

/// The group of a space with one component, of which no part is made.
fn only_group(alloc: Global, regular: &Regular<'_>) -> Result<Vec<Group>, WordFault>
    requires { component_count regular.now ≡ 1 }
    ensures groups { IfOk result (λ groups. groups.items ≡ groups_of regular.now) }
    ensures limits { MatchResult result (λ _. long_word regular.now ≡ None) (IsFault (long_word regular.now)) }
{
    let group = whole_group(alloc, regular)?;
    let mut groups = Vec::new(alloc);
    groups.push(group)?;
    Ok(groups)
}

/// The group of a space with one component, or the cell of its first word that is too long.
fn whole_group(alloc: Global, regular: &Regular<'_>) -> Result<Group, WordFault>
    requires { component_count regular.now ≡ 1 }
    ensures group { IfOk result (λ group. group ≡ group_in regular.now 1) }
    ensures limits { MatchResult result
        (λ _. long_in regular.now 1 ≡ None)
        (IsFault (long_in regular.now 1)) }
{
    one_part_is_the_space();
    one_part_keeps_numbers();
    let _vertices = regular.space().cells(0);
    let field = tree_field(alloc, regular)?;
    let presentation = present(alloc, regular, &field)?;
    let edges = Vec::from_slice(alloc, presentation.generators())?;
    Ok(Group {
        edges,
        presentation: presentation.without_words(alloc),
    })
}

/// The groups of all components, each by its part.
fn all_groups(alloc: Global, regular: &Regular<'_>) -> Result<Vec<Group>, WordFault>
    ensures groups { IfOk result (λ groups. groups.items ≡ groups_of regular.now) }
    ensures limits { MatchResult result (λ _. long_word regular.now ≡ None) (IsFault (long_word regular.now)) }
{
    let parts = parts_of(alloc, regular)?;
    let mut groups = Vec::new(alloc);
    for index in 0..parts.count() {
        let group = group_in(alloc, &parts, index + 1)?;
        groups.push(group)?;
    }
    Ok(groups)
}

/// The group of the part of a component, or the cell of its first word that is too long. Of a part without
/// edges it is trivial, and nothing is made.
fn group_in(alloc: Global, parts: &Parts<'_>, component: u32) -> Result<Group, WordFault>
    requires first { 1 ≤ component }
    requires last { component ≤ component_count parts.now }
    ensures group { IfOk result (λ group. group ≡ group_in parts.now component) }
    ensures limits { MatchResult result
        (λ _. long_in parts.now component ≡ None)
        (IsFault (long_in parts.now component)) }
{
    chosen_is_good();
    if parts.cells(1, component) == 0 {
        return Ok(Group {
            edges: Vec::new(alloc),
            presentation: Presentation::trivial(alloc),
        });
    }
    group_by_field(alloc, parts, component)
}

/// The group of the part of a component, by its chosen field.
fn group_by_field(alloc: Global, parts: &Parts<'_>, component: u32) -> Result<Group, WordFault>
    requires first { 1 ≤ component }
    requires last { component ≤ component_count parts.now }
    ensures group { IfOk result (λ group. group ≡ group_in parts.now component) }
    ensures limits { MatchResult result
        (λ _. long_in parts.now component ≡ None)
        (IsFault (long_in parts.now component)) }
{
    let field = field_of_part(alloc, parts, component)?;
    let group = field.present(alloc)?;
    Ok(told_of(alloc, group)?)
}

/// What is told of the group of a part.
fn told_of(alloc: Global, group: PartGroup) -> Result<Group, AllocError>
    ensures { IfOk result (λ told. told ≡ told_of group) }
{
    let edges = whole_edges(alloc, &group)?;
    Ok(Group {
        edges,
        presentation: group.relators_alone(alloc),
    })
}

/// The edges of the whole space that are the generators.
fn whole_edges(alloc: Global, group: &PartGroup) -> Result<Vec<u32>, AllocError>
    ensures { IfOk result (λ edges. edges.items ≡ (told_of group.now).edges) }
{
    let mut edges = Vec::new(alloc);
    for edge in group.presentation().generators() {
        edges.push(whole_edge(group.part(), *edge))?;
    }
    Ok(edges)
}

/// The edge of the whole space from which an edge of the part comes.
fn whole_edge(part: &Part, edge: u32) -> u32
    requires first { 1 ≤ edge }
    requires last { edge ≤ count part.now.space 1 }
    ensures { result ≡ whole_of part.now 1 edge }
{
    part.whole(1, edge)
}
