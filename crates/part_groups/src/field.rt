ghost use Rattle.std.specs.Prelude.{◌≡◌, ◌≤◌, None, IfOk, MatchResult};
ghost use Rattle.face_poset.specs.Poset.{count};
ghost use Rattle.regular_check.specs.Components.{component_count};
ghost use Rattle.vector_field.specs.Pairs.{IsFieldOf};
ghost use Rattle.vector_field.specs.Maximal.{IsGood};
ghost use Rattle.space_parts.specs.Laws.{IsWhole};
ghost use Rattle.chosen_field.specs.Chosen.{chosen};
ghost use Rattle.edge_words.specs.Words.{presentation_of};
ghost use Rattle.edge_words.specs.Limits.{IsFault};
ghost use Rattle.part_groups.specs.Groups.{field_in, group_by, whole_cell, long_cell, long_on};

use crate::part_group::PartGroup;
use chosen_field::tree_field;
use edge_words::{Presentation, WordFault, present};
use face_poset::Cell;
use regular_check::{Regular, RegularFault, check};
use space_parts::{Part, Parts};
use std::alloc::{AllocError, Global};
use std::marker::Model;
use vector_field::PairList;

/// A part of a space with a field of pairs on it, which is valid, maximal and has one critical vertex.
#[derive(Drop)]
pub struct PartField {
    part: Part,
    field: PairList,
}

impl Model for PartField {
    ghost use Rattle.vector_field.specs.Pairs.{IsFieldOf};
    ghost use Rattle.vector_field.specs.Maximal.{IsGood};
    ghost use Rattle.part_groups.specs.Groups.{FieldPiece};

    ghost Value = { FieldPiece };

    ghost view = { λ s. record { piece = s.part; field = s.field } };

    ghost invariant = { λ s. IsFieldOf s.part.space s.field × IsGood s.part.space s.field.pairs };
}

/// The part of a component, which is numbered from 1, with its chosen field.
pub fn field_of_part(
    alloc: Global,
    parts: &Parts<'_>,
    component: u32,
) -> Result<PartField, AllocError>
    requires first { 1 ≤ component }
    requires last { component ≤ component_count parts.now }
    ensures { IfOk result (λ field. field ≡ field_in parts.now component) }
{
    let part = parts.part(alloc, component)?;
    let field = tree_field_of(alloc, &part)?;
    Ok(PartField { part, field })
}

impl PartField {
    /// The part.
    pub fn part(&self) -> &Part
        ensures { result.now ≡ self.now.piece }
    {
        &self.part
    }

    /// The field, which is one of the part as a space.
    pub fn field(&self) -> &PairList
        ensures same { result.now ≡ self.now.field }
        ensures field { IsFieldOf self.now.piece.space result.now }
        ensures good { IsGood self.now.piece.space result.now.pairs }
    {
        &self.field
    }

    /// The part with the presentation that its field gives. A word that is too long is told by the number
    /// of its cell in the whole space.
    pub fn present(self, alloc: Global) -> Result<PartGroup, WordFault>
        ensures group { IfOk result (λ group. group ≡ group_by self) }
        ensures limits { MatchResult result (λ _. long_cell self ≡ None) (IsFault (long_cell self)) }
    {
        match present_part(alloc, &self.part, &self.field) {
            Ok(presentation) => Ok(PartGroup::new(self.part, self.field, presentation)),
            Err(fault) => Err(fault),
        }
    }
}

/// The chosen field of a part.
fn tree_field_of(alloc: Global, part: &Part) -> Result<PairList, AllocError>
    ensures field { IfOk result (IsFieldOf part.now.space) }
    ensures good { IfOk result (λ field. IsGood part.now.space field.pairs) }
    ensures chosen { IfOk result (λ field. field.pairs ≡ chosen part.now.space) }
{
    let regular = regular_part(alloc, part)?;
    tree_field(alloc, &regular)
}

/// The presentation of a part, or the cell of the whole space whose word is too long.
fn present_part(alloc: Global, part: &Part, field: &PairList) -> Result<Presentation, WordFault>
    requires { IsFieldOf part.now.space field.now }
    ensures presentation { IfOk result (λ p. p ≡ presentation_of part.now.space field.now.pairs) }
    ensures limits { MatchResult result
        (λ _. long_on part.now field.now ≡ None)
        (IsFault (long_on part.now field.now)) }
{
    let regular = regular_part(alloc, part)?;
    match present(alloc, &regular, field) {
        Ok(presentation) => Ok(presentation),
        Err(WordFault::TooLong(cell)) => Err(WordFault::TooLong(whole_cell(part, cell))),
        Err(WordFault::Memory) => Err(WordFault::Memory),
    }
}

/// The cell of the whole space from which a cell of the part comes.
fn whole_cell(part: &Part, cell: Cell) -> Cell
    requires first { 1 ≤ cell.number }
    requires last { cell.number ≤ count part.now.space cell.dim }
    ensures { result ≡ whole_cell part.now cell }
{
    Cell {
        dim: cell.dim,
        number: part.whole(cell.dim, cell.number),
    }
}

/// The part as a regular space: to check it refuses nothing.
fn regular_part<'a>(alloc: Global, part: &'a Part) -> Result<Regular<'a>, AllocError>
    ensures same { IfOk result (λ regular. regular ≡ part.entry.now.space) }
    ensures whole { IsWhole part.entry.now.space }
{
    match check(alloc, part.space()) {
        Ok(regular) => Ok(regular),
        Err(RegularFault::Memory) => Err(AllocError),
        Err(_) => unreachable!(),
    }
}
