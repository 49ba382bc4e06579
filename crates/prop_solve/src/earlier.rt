//! What a search leaves to later ones, and what a later one takes up of it.

ghost use Rattle.std.specs.Prelude.{◌≡◌, ◌<◌, ◌++◌, IfOk, IfSome, OnOk, List, map};
ghost use Rattle.std.specs.Prelude.{length};
ghost use Rattle.prop_numbers.specs.Sets.{set_of};
ghost use Rattle.prop_premises.specs.Origins.{Origin, believed_in, choices_of};
ghost use Rattle.prop_procedures.specs.Kept.{AllMean, stored_of};
ghost use Rattle.prop_procedures.specs.Stored.{Stored};
ghost use Rattle.prop_cells.specs.Data.{Data};
ghost use Rattle.prop_plans.specs.Held.{attached_of};
ghost use Rattle.prop_lessons.specs.Lessons.{AreTaught};
ghost use Rattle.prop_solve.specs.Leaving.{AreApart, IsOf, IsUnexcused, NarrowsAll, Recalls};
ghost use Rattle.prop_solve.specs.Leaving.{Teaches};
ghost use Rattle.prop_solve.specs.Searches.{IsSearch};
ghost use Rattle.prop_solve.specs.Answers.{AsksTheSame};

use crate::solver::Solver;
use prop_cells::Network;
use prop_facts::Literal;
use prop_guards::Guarded;
use prop_lattice::Info;
use prop_lessons::{Lessons, Past};
use prop_premises::Premises;
use prop_refuting::Nogood;
use std::alloc::{AllocError, Global};
use std::marker::Model;

/// How many literals a nogood has at the most that is left to later searches.
const LONGEST: usize = 40;

/// What was learned, and a value of each cell, which a later search tries first: none where no plan
/// was found.
#[derive(Drop)]
pub struct Earlier {
    lessons: Lessons,
    values: Vec<Info>,
}

impl Model for Earlier {
    ghost use Rattle.prop_lessons.specs.Lessons.{Taught};

    ghost Value = { Taught };

    ghost view = { λ e. e.lessons };
}

/// The nogood with more facts, without those that others imply.
fn with_more(nogood: &Nogood, more: &[Literal], alloc: Global) -> Result<Nogood, AllocError>
    ensures { IfOk result (λ g. NarrowsAll (record {
      literals = nogood.now.literals ++ more.now;
      premises = nogood.now.premises;
    }) g) }
{
    let mut literals = Vec::from_slice(alloc, nogood.literals())?;
    literals.extend_from_slice(more)?;
    let premises = nogood.premises().copy()?;
    Ok(without_implied(Nogood::new(literals, premises)))
}

/// The nogood without facts that others imply.
fn without_implied(nogood: Nogood) -> Nogood
    ensures { NarrowsAll nogood result }
{
    let mut nogood = nogood;
    for _ in 0..nogood.literals().len() {
        let Some((at, other)) = implied(nogood.literals()) else {
            return nogood;
        };
        nogood.drop_repeated(at, other);
    }
    nogood
}

/// The numbers of a fact and of another one that implies it.
fn implied(literals: &[Literal]) -> Option<(usize, usize)>
    ensures { IfSome result (λ p. (p.0 < length literals.now) × (p.1 < length literals.now)) }
{
    for at in 0..literals.len() {
        if let Some(other) = implying(literals, at) {
            return Some((at, other));
        }
    }
    None
}

/// The number of a fact that implies the one with this number.
fn implying(literals: &[Literal], at: usize) -> Option<usize>
    requires { at < length literals.now }
    ensures { IfSome result (λ other. other < length literals.now) }
{
    let Literal { place, fact } = literals[at];
    for other in 0..literals.len() {
        let literal = literals[other];
        if other != at && literal.place == place && literal.fact.implies(fact) {
            return Some(other);
        }
    }
    None
}

/// What isn't so where all of these facts are: the denial of the only one, where there is one.
fn denied(alloc: Global, facts: &[Literal]) -> Result<Option<Vec<Literal>>, AllocError>
    ensures { IfOk result (λ o. IfSome o (λ more. AreApart facts.now more.items)) }
{
    let [only] = facts else {
        return Ok(None);
    };
    let Some(fact) = only.fact.negation(0) else {
        return Ok(None);
    };
    let mut more = Vec::new(alloc);
    more.push(Literal {
        place: only.place,
        fact,
    })?;
    Ok(Some(more))
}

/// Facts that nothing which is excused has: none where nothing is, and where a single fact excuses
/// its denial. None are looked for otherwise.
fn unexcused(alloc: Global, excuses: &[Vec<Literal>]) -> Result<Option<Vec<Literal>>, AllocError>
    ensures { IfOk result (λ o. IfSome o (λ more.
        IsUnexcused (map (λ v. v.items) excuses.now) more.items)) }
{
    match excuses {
        [] => Ok(Some(Vec::new(alloc))),
        [only] => denied(alloc, only),
        _ => Ok(None),
    }
}

impl Solver {
    /// Takes up what an earlier search left, if one did: the nogoods that still hold, and the
    /// values of its plan, which are tried first.
    pub(crate) fn take_up<R: Guarded + Drop>(
        &mut self,
        network: &Network<R>,
        premises: &Premises,
        earlier: Option<&Earlier>,
    ) -> Result<(), AllocError>
        requires search { IsSearch (stored_of R.value_of network.now.library) network.now.cells
            premises.now self.old }
        requires taught { IfSome earlier
            (λ e. AreTaught (stored_of R.value_of network.now.library) e.now) }
        ensures search { OnOk result (IsSearch (stored_of R.value_of network.now.library)
            network.now.cells premises.now self.new) }
        ensures asks { OnOk result (AsksTheSame self.old self.new) }
        ensures excuses { OnOk result (self.new.excuses ≡ self.old.excuses) }
    {
        let Some(earlier) = earlier else {
            return Ok(());
        };
        self.expect(&earlier.values);
        let recalled = earlier.lessons.recall(network.data(), premises)?;
        for nogood in &recalled {
            self.recall(nogood)?;
        }
        Ok(())
    }

    /// These values are tried first.
    fn expect(&mut self, values: &[Info])
        ensures { self.new ≡ self.old }
    {
        self.expects = !values.is_empty();
        self.spread.expect(values);
    }

    /// One nogood more, which was learned before.
    fn recall(&mut self, nogood: &Nogood) -> Result<(), AllocError>
        ensures { OnOk result (Recalls self.old nogood.now self.new) }
    {
        if nogood.literals().is_empty() {
            return self.refute(nogood);
        }
        self.recalled = self.recalled.saturating_add(1);
        self.spread.recall(nogood.copy()?)
    }

    /// What is left to later searches, of the cells and choices as they were.
    pub fn leave(&self, past: Past, values: Vec<Info>) -> Result<Earlier, AllocError>
        ensures { IfOk result (λ e. (library : List Stored) (d : Data) (premises : List Origin)
            → IsOf d premises past → IsSearch library d premises self.now → AreTaught library e) }
    {
        let mut lessons = Lessons::new(self.spread.alloc(), past);
        self.teach(&mut lessons)?;
        Ok(Earlier { lessons, values })
    }

    /// Each nogood that is kept or found comes to the lessons, where it holds of itself with facts
    /// that nothing excused has.
    fn teach(&self, lessons: &mut Lessons) -> Result<(), AllocError>
        ensures { OnOk result (Teaches self.now lessons.old lessons.new) }
    {
        let Some(more) = unexcused(self.spread.alloc(), &self.excuses)? else {
            return Ok(());
        };
        self.teach_all(lessons, &more)
    }

    /// Each nogood that is kept or found comes to the lessons, with these facts more.
    fn teach_all(&self, lessons: &mut Lessons, more: &[Literal]) -> Result<(), AllocError>
        requires unexcused { IsUnexcused self.now.excuses more.now }
        ensures { OnOk result (Teaches self.now lessons.old lessons.new) }
    {
        self.teach_refuted(lessons, more)?;
        for number in 0..self.most_kept() {
            self.teach_one(lessons, more, number)?;
        }
        Ok(())
    }

    /// What is refuted, where it is, comes to the lessons as a nogood with just these facts.
    fn teach_refuted(&self, lessons: &mut Lessons, more: &[Literal]) -> Result<(), AllocError>
        requires unexcused { IsUnexcused self.now.excuses more.now }
        ensures { OnOk result (Teaches self.now lessons.old lessons.new) }
    {
        let Some(premises) = &self.refuted else {
            return Ok(());
        };
        let literals = Vec::from_slice(self.spread.alloc(), more)?;
        lessons.add(Nogood::new(literals, premises.copy()?))
    }

    /// The nogood with this number comes to the lessons, where there is one that is short enough,
    /// with these facts more.
    fn teach_one(
        &self,
        lessons: &mut Lessons,
        more: &[Literal],
        number: usize,
    ) -> Result<(), AllocError>
        requires unexcused { IsUnexcused self.now.excuses more.now }
        ensures { OnOk result (Teaches self.now lessons.old lessons.new) }
    {
        match self.spread.nogood(number) {
            Some(nogood) if nogood.literals().len() <= LONGEST => {
                lessons.add(with_more(nogood, more, self.spread.alloc())?)
            }
            _ => Ok(()),
        }
    }

    /// A number that those of all nogoods are below.
    fn most_kept(&self) -> usize {
        self.recalled.saturating_add(self.tally.learned as usize)
    }
}
