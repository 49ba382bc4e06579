//! What of a past is there still.
ghost use Rattle.std.specs.Prelude.{◌≡◌, ◌+◌, ◌<◌, ◌≤◌, ℕ, false, length, All, Contains, IsTrue};
ghost use Rattle.std.specs.Prelude.{IfOk, IfSome};
ghost use Rattle.prop_numbers.specs.Sets.{set_of, IsPart};
ghost use Rattle.prop_premises.specs.Origins.{believed_in, choices_of};
ghost use Rattle.prop_plans.specs.Held.{attached_of};
ghost use Rattle.prop_lessons.specs.inner.Standing.{Begin, IsThereOrGone, AreSidesOut, IsThere};
ghost use Rattle.prop_lessons.specs.inner.Standing.{AreMeant, IsSamePlace};

use crate::past::Past;
use crate::same::is_same_statement;
use prop_cells::{Cells, Statement};
use prop_facts::Literal;
use prop_premises::{Choice, Premise, Premises, Worldview};
use prop_refuting::Nogood;
use std::alloc::{AllocError, Global};

impl Past {
    /// The believed premises of the user's under which all is there still that was. None where a
    /// cell, an instance or a choice is not, or a statement that was under no premise or a side.
    pub(crate) fn standing(
        &self,
        alloc: Global,
        cells: &Cells,
        premises: &Premises,
    ) -> Result<Option<Worldview>, AllocError>
        ensures believed { IfOk result (λ o. IfSome o (λ standing.
            IsPart (set_of standing) (believed_in premises.now))) }
        ensures there { IfOk result (λ o. IfSome o (λ standing.
            IsThere self.now (attached_of cells.now) (choices_of premises.now)
            (set_of standing))) }
    {
        if !self.has_kinds(cells) || !self.has_instances(cells) || !self.has_choices(premises) {
            return Ok(None);
        }
        let Some(gone) = self.gone(alloc, cells)? else {
            return Ok(None);
        };
        if !self.are_sides_out(&gone) {
            return Ok(None);
        }
        Ok(Some(believed_but(alloc, premises, &gone)?))
    }

    /// Whether the cells are of the kinds that those with their numbers were of.
    fn has_kinds(&self, cells: &Cells) -> bool
        ensures { IsTrue result → Begin self.now.attached.kinds cells.now.kinds }
    {
        for (cell, kind) in self.kinds.iter().enumerate() {
            if cell >= cells.len() || *kind != cells.kind(cell) {
                return false;
            }
        }
        true
    }

    /// Whether the instances are those that had their numbers.
    fn has_instances(&self, cells: &Cells) -> bool
        ensures { IsTrue result → Begin self.now.attached.instances cells.now.instances }
    {
        for (number, instance) in self.instances.iter().enumerate() {
            if number >= cells.instance_count() || !instance.is(cells.instance(number)) {
                return false;
            }
        }
        true
    }

    /// Whether the choices are those that had their numbers.
    fn has_choices(&self, premises: &Premises) -> bool
        ensures { IsTrue result → Begin self.now.choices (choices_of premises.now) }
    {
        let choices = premises.choices();
        for (number, choice) in self.choices.iter().enumerate() {
            if number >= choices.len() || *choice != choices[number] {
                return false;
            }
        }
        true
    }

    /// The premises of the statements that are not there any more. None where one of these was
    /// under no premise.
    fn gone(&self, alloc: Global, cells: &Cells) -> Result<Option<Worldview>, AllocError>
        ensures { IfOk result (λ o. IfSome o (λ gone.
            All (IsThereOrGone cells.now.statements (set_of gone)) self.now.attached.statements)) }
    {
        let mut gone = Worldview::empty(alloc);
        let mut at = 0;
        for statement in &self.statements {
            if stands_at(cells, at, statement) {
                at += 1;
            } else if let Some(premise) = statement.premise {
                gone.believe(premise)?;
            } else {
                return Ok(None);
            }
        }
        Ok(Some(gone))
    }

    /// Whether no side of the choices is in the set.
    fn are_sides_out(&self, gone: &Worldview) -> bool
        ensures { IsTrue result → AreSidesOut self.now.choices (set_of gone.now) }
    {
        for choice in &self.choices {
            if !is_out(choice, gone) {
                return false;
            }
        }
        true
    }

    /// Whether the premises of a nogood are all in the set, and each of its facts is about a place
    /// that is the same where there are so many cells.
    pub(crate) fn leaves(&self, nogood: &Nogood, cells: usize, standing: &Worldview) -> bool
        ensures premises { IsTrue result
            → IsPart (set_of nogood.now.premises) (set_of standing.now) }
        ensures meant { IsTrue result → AreMeant self.now cells nogood.now.literals }
    {
        standing.believes(nogood.premises()) && self.are_meant(cells, nogood.literals())
    }

    /// Whether each fact is about a place that is the same where there are so many cells.
    fn are_meant(&self, cells: usize, literals: &[Literal]) -> bool
        ensures { IsTrue result → AreMeant self.now cells literals.now }
    {
        for literal in literals {
            if !self.is_same_place(cells, literal.place) {
                return false;
            }
        }
        true
    }

    /// Whether a place is the same where there are so many cells: a cell is, and a choice is where
    /// there were as many cells.
    fn is_same_place(&self, cells: usize, place: usize) -> bool
        ensures { IsTrue result → IsSamePlace self.now cells place }
    {
        let count = self.kinds.len();
        place < count || cells == count && place - count < self.choices.len()
    }
}

/// Whether the statement stands at this place.
fn stands_at(cells: &Cells, at: usize, statement: &Statement) -> bool
    ensures within { IsTrue result → at < length cells.now.statements }
    ensures there { IsTrue result → Contains cells.now.statements statement.now }
{
    match cells.statements().get(at) {
        Some(other) => is_same_statement(statement, other),
        None => false,
    }
}

/// Whether no side of the choice is in the set.
fn is_out(choice: &Choice, gone: &Worldview) -> bool
    ensures { IsTrue result → (p : ℕ) → choice.now.first ≤ p
        → p < choice.now.first + choice.now.sides → set_of gone.now p ≡ false }
{
    for side in 0..choice.sides {
        match choice.first.checked_add(Premise::from(side)) {
            Some(premise) if !gone.has(premise) => {}
            _ => return false,
        }
    }
    true
}

/// The believed premises of the user's that are not in the set.
fn believed_but(
    alloc: Global,
    premises: &Premises,
    gone: &Worldview,
) -> Result<Worldview, AllocError>
    ensures believed { IfOk result (λ standing.
        IsPart (set_of standing) (believed_in premises.now)) }
    ensures stay { IfOk result (λ standing. (p : ℕ) → IsTrue (set_of standing p)
        → set_of gone.now p ≡ false) }
{
    let mut standing = Worldview::empty(alloc);
    for number in 0..premises.len() {
        let premise = number as Premise;
        if premises.is_in(premise) && !gone.has(premise) {
            standing.believe(premise)?;
        }
    }
    Ok(standing)
}
