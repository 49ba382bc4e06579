//! Nogoods: facts about places, and premises.
ghost use Rattle.std.specs.Prelude.{◌≡◌, ◌<◌, ◌++◌, length, true, false, IsTrue, IfOk, OnOk, OnErr};
ghost use Rattle.std.specs.Prelude.{[], List};
ghost use Rattle.std.specs.Bool.{OnFalse, OnTrue};
ghost use Rattle.prop_premises.specs.declared.choice.Choice.{Choice};
ghost use Rattle.prop_procedures.specs.Stored.{Stored};
ghost use Rattle.prop_cells.specs.Points.{Attached};
ghost use Rattle.prop_refuting.specs.Nogoods.{Narrows, Replaces, ReplacesUnder, said_at};

use prop_facts::{Fact, Literal};
use prop_premises::PremiseSet;
use std::alloc::{AllocError, Global};
use std::marker::Model;

/// Facts about places, and premises. Whether something is excluded by it depends on how it was
/// made.
#[derive(Drop)]
pub struct Nogood {
    literals: Vec<Literal>,
    premises: PremiseSet,
}

impl Model for Nogood {
    ghost use Rattle.prop_refuting.specs.Nogoods.{Nogood};

    ghost Value = { Nogood };

    ghost view = { λ g. record { literals = g.literals.items; premises = g.premises } };
}

impl Nogood {
    /// The nogood of these facts and premises.
    pub fn new(literals: Vec<Literal>, premises: PremiseSet) -> Nogood
        ensures { result ≡ record { literals = literals.items; premises = premises } }
    {
        Nogood { literals, premises }
    }

    /// The facts.
    pub fn literals(&self) -> &[Literal]
        ensures { result.now ≡ self.now.literals }
    {
        &self.literals
    }

    /// The premises.
    pub fn premises(&self) -> &PremiseSet
        ensures { result.now ≡ self.now.premises }
    {
        &self.premises
    }

    /// The same nogood again.
    pub fn copy(&self) -> Result<Nogood, AllocError>
        ensures { IfOk result (λ g. g ≡ self.now) }
    {
        let literals = Vec::from_slice(self.alloc(), &self.literals)?;
        let premises = self.premises.copy()?;
        Ok(Nogood { literals, premises })
    }

    pub(crate) fn alloc(&self) -> Global {
        *self.literals.allocator()
    }

    /// A literal goes, the last one stands in its place, and these come behind. Refused memory
    /// changes nothing.
    pub(crate) fn replace(&mut self, at: usize, more: &[Literal]) -> Result<(), AllocError>
        requires { at < length self.old.literals }
        ensures ok { OnOk result (Replaces self.old at more.now self.new) }
        ensures err { OnErr result (self.new ≡ self.old) }
    {
        self.literals.reserve(more.len())?;
        self.literals.swap_remove(at);
        self.literals.extend_from_slice(more)
    }

    /// A literal goes, and the last one stands in its place.
    pub(crate) fn drop_at(&mut self, at: usize)
        requires { at < length self.old.literals }
        ensures { Replaces self.old at [] self.new }
    {
        self.literals.swap_remove(at);
    }

    /// A literal goes, the last one stands in its place, these come behind, and these premises.
    /// Refused memory changes nothing.
    pub(crate) fn replace_under(
        &mut self,
        at: usize,
        more: &[Literal],
        came: &PremiseSet,
    ) -> Result<(), AllocError>
        requires { at < length self.old.literals }
        ensures ok { OnOk result (ReplacesUnder self.old at more.now came.now self.new) }
        ensures err { OnErr result (self.new ≡ self.old) }
    {
        let premises = self.premises.union(came)?;
        self.replace(at, more)?;
        self.premises = premises;
        Ok(())
    }

    /// A literal that another one of the nogood, about the same place, can be seen to imply goes,
    /// the last one stands in its place, and the answer is true. Otherwise nothing changes.
    pub fn drop_repeated(&mut self, at: usize, other: usize) -> bool
        requires at { at < length self.old.literals }
        requires other { other < length self.old.literals }
        ensures still { OnFalse result (self.new ≡ self.old) }
        ensures step { OnTrue result (Replaces self.old at [] self.new) }
        ensures narrows { (library : List Stored) (n : Attached) (choices : List Choice)
            → Narrows library n choices self.old self.new }
    {
        let literal = self.literals()[at];
        let kept = self.literals()[other];
        if at == other || kept.place != literal.place || !kept.fact.implies(literal.fact) {
            return false;
        }
        self.drop_at(at);
        true
    }
}

/// A fact about the place comes, where there is one. Refused memory changes nothing.
pub(crate) fn push_said(
    literals: &mut Vec<Literal>,
    place: usize,
    fact: Option<Fact>,
) -> Result<(), AllocError>
    ensures ok { OnOk result (literals.new.items ≡ literals.old.items ++ said_at place fact) }
    ensures err { OnErr result (literals.new.items ≡ literals.old.items) }
{
    if let Some(fact) = fact {
        literals.push(Literal { place, fact })?;
    }
    Ok(())
}
