//! Facts that sides of choices say, and facts that every value has.
ghost use Rattle.std.specs.Prelude.{◌≡◌, ◌<◌, ◌+◌, ◌∷◌, ◌++◌, [], List, ℕ, length, true, false, Ok};
ghost use Rattle.std.specs.Prelude.{Some, IfSome, IsTrue, OnErr, slice_get, ◌^◌};
ghost use Rattle.std.specs.Bool.{OnFalse, OnTrue};
ghost use Rattle.prop_procedures.specs.Stored.{Stored};
ghost use Rattle.prop_cells.specs.declared.instance.Statement.{Statement as StatementOf};
ghost use Rattle.prop_facts.specs.declared.fact.Literal.{Literal as LiteralOf};
ghost use Rattle.prop_refuting.specs.Nogoods.{Narrows, Replaces, said_at};
ghost use Rattle.prop_plans.specs.Held.{attached_of};
ghost use Rattle.prop_refuting.specs.Steps.{IsSideAt, IsTaken, SaysBarred};

use crate::nogood::{Nogood, push_said};
use crate::pairs::narrowed;
use crate::places::kind_at_place;
use crate::resolving::denial_says;
use prop_cells::{Cells, Statement};
use prop_facts::{Fact, Literal, widest};
use prop_lattice::Elements;
use prop_premises::{Choice, Premise};
use std::alloc::AllocError;

/// A side of a choice, by the numbers of both, which count from 0.
#[derive(Clone, Copy)]
struct Side {
    choice: usize,
    side: u16,
}

/// The side whose premise this is.
fn side_of(choices: &[Choice], premise: Premise) -> Option<Side>
    ensures { IfSome result (λ s. IsSideAt choices.now premise s.choice s.side) }
{
    for (number, choice) in choices.iter().enumerate() {
        if choice.first <= premise && premise - choice.first < u16::from(choice.sides) {
            return Some(Side {
                choice: number,
                side: premise - choice.first,
            });
        }
    }
    None
}

/// That the side is taken under whose premise a statement about a cell is made, where it is one
/// that can be told apart.
fn taken_side(cells: &Cells, choices: &[Choice], said: Statement) -> Option<Literal>
    ensures cell { IfSome result (λ _. said.cell < length cells.now.kinds) }
    ensures side { IfSome result (λ taken.
        IsTaken (attached_of cells.now) choices.now said.premise taken) }
{
    if said.cell >= cells.len() {
        return None;
    }
    let side = side_of(choices, said.premise?)?;
    Some(Literal {
        place: cells.len().checked_add(side.choice)?,
        fact: Fact::Among(one_element(side.side)?),
    })
}

/// The element with this number alone.
fn one_element(number: u16) -> Option<Elements>
    ensures { IfSome result (λ e. e.bits ≡ 2 ^ number) }
{
    if number < 64 {
        Elements::new(1 << usize::from(number))
    } else {
        None
    }
}

/// A fact that a statement bars.
#[derive(Clone, Copy, Debug, PartialEq, Eq)]
pub struct Barred {
    pub statement: usize,
    pub fact: Fact,
}

impl Nogood {
    /// Where every value of its place has a literal's fact, the literal goes, the last one stands
    /// in its place, and the answer is true. Otherwise nothing changes.
    pub fn by_kind(&mut self, cells: &Cells, choices: &[Choice], at: usize) -> bool
        requires { at < length self.old.literals }
        ensures still { OnFalse result (self.new ≡ self.old) }
        ensures step { OnTrue result (Replaces self.old at [] self.new) }
        ensures narrows { (library : List Stored)
            → Narrows library (attached_of cells.now) choices.now self.old self.new }
    {
        let literal = self.literals()[at];
        let Some(kind) = kind_at_place(cells, choices, literal.place) else {
            return false;
        };
        if !literal.fact.follows_from(widest(kind.kind, kind.size)) {
            return false;
        }
        self.drop_at(at);
        true
    }

    /// Where a statement about a literal's cell is made under the premise of a side, and says the
    /// literal's fact together with the rest: the literal goes, the last one stands in its place,
    /// that the side is taken comes, and the rest, and the answer is true. Otherwise, and where
    /// memory is refused, nothing changes.
    pub fn by_side(
        &mut self,
        cells: &Cells,
        choices: &[Choice],
        at: usize,
        statement: usize,
        rest: Option<Fact>,
    ) -> Result<bool, AllocError>
        requires at { at < length self.old.literals }
        requires statement { statement < length cells.now.statements }
        ensures err { OnErr result (self.new ≡ self.old) }
        ensures still { result ≡ Ok false → self.new ≡ self.old }
        ensures step { result ≡ Ok true → (x : StatementOf)
            → slice_get cells.now.statements statement ≡ Some x
            → (taken : LiteralOf) × IsTaken (attached_of cells.now) choices.now x.premise taken
            × Replaces self.old at (taken ∷ said_at x.cell rest) self.new }
        ensures narrows { (library : List Stored)
            → Narrows library (attached_of cells.now) choices.now self.old self.new }
    {
        let literal = self.literals()[at];
        let said = cells.statements()[statement];
        let Some(taken) = taken_side(cells, choices, said) else {
            return Ok(false);
        };
        if said.cell != literal.place || !literal.fact.follows_from(narrowed(said.info, rest)) {
            return Ok(false);
        }
        let mut more = Vec::new(self.alloc());
        more.push(taken)?;
        push_said(&mut more, literal.place, rest)?;
        self.replace(at, &more)?;
        Ok(true)
    }

    /// Where a statement is made under the premise of a side, a literal is about the choice of that
    /// side, the statement bars a fact about its cell, and that the side isn't taken says the
    /// literal's fact together with the rest: the literal goes, the last one stands in its place,
    /// the barred fact comes, and the rest, and the answer is true. Otherwise, and where memory is
    /// refused, nothing changes.
    pub fn by_barred_side(
        &mut self,
        cells: &Cells,
        choices: &[Choice],
        at: usize,
        barred: Barred,
        rest: Option<Fact>,
    ) -> Result<bool, AllocError>
        requires at { at < length self.old.literals }
        requires statement { barred.statement < length cells.now.statements }
        ensures err { OnErr result (self.new ≡ self.old) }
        ensures still { result ≡ Ok false → self.new ≡ self.old }
        ensures step { result ≡ Ok true → (x : StatementOf) (gone : LiteralOf)
            → slice_get cells.now.statements barred.statement ≡ Some x
            → slice_get self.old.literals at ≡ Some gone
            → Replaces self.old at (said_at x.cell (Some barred.fact) ++ said_at gone.place rest)
            self.new }
        ensures narrows { (library : List Stored)
            → Narrows library (attached_of cells.now) choices.now self.old self.new }
    {
        let literal = self.literals()[at];
        let said = cells.statements()[barred.statement];
        if !barred.fact.is_barred_by(said.info) {
            return Ok(false);
        }
        if !barred_side_says(cells, choices, said, literal, rest) {
            return Ok(false);
        }
        let mut more = Vec::new(self.alloc());
        push_said(&mut more, said.cell, Some(barred.fact))?;
        push_said(&mut more, literal.place, rest)?;
        self.replace(at, &more)?;
        Ok(true)
    }
}

/// Whether a literal is about the choice of the side under whose premise a statement is made, and
/// that this side isn't taken says its fact together with the rest.
fn barred_side_says(
    cells: &Cells,
    choices: &[Choice],
    said: Statement,
    literal: Literal,
    rest: Option<Fact>,
) -> bool
    ensures cell { IsTrue result → said.cell < length cells.now.kinds }
    ensures says { IsTrue result
        → SaysBarred (attached_of cells.now) choices.now said.premise literal rest }
{
    let Some(taken) = taken_side(cells, choices, said) else {
        return false;
    };
    match kind_at_place(cells, choices, literal.place) {
        Some(kind) => denial_says(taken, literal, rest, kind),
        None => false,
    }
}
