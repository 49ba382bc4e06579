//! How good an answer can still be.

ghost use Rattle.std.specs.Prelude.{◌≡◌, ◌∷◌, [], Contains, IsTrue, IfOk, IfSome};
ghost use Rattle.prop_premises.specs.Origins.{believed_in, choices_of};
ghost use Rattle.prop_procedures.specs.Kept.{AllMean, stored_of};
ghost use Rattle.prop_cells.specs.Data.{IsKept};
ghost use Rattle.prop_plans.specs.Held.{attached_of};
ghost use Rattle.prop_facts.specs.declared.fact.Literal.{Literal as LiteralOf};
ghost use Rattle.prop_deriving.specs.Known.{IsKnown};
ghost use Rattle.prop_solve.specs.Questions.{IsBetter};
ghost use Rattle.prop_solve.specs.Searches.{IsSearch};

use crate::question::Goal;
use crate::solver::Solver;
use prop_cells::Network;
use prop_deriving::{Learning, State};
use prop_facts::{Fact, Literal};
use prop_guards::Guarded;
use prop_lattice::{B, Info};
use prop_learned::weights::Weights;
use prop_premises::{PremiseSet, Premises};
use prop_refuting::Nogood;
use std::alloc::AllocError;

/// A number than which none is better, and the premises on which that rests.
#[derive(Drop)]
pub struct Bound {
    pub end: i64,
    pub by: PremiseSet,
}

/// The end that is asked for of what is believed of a number, where that is no end of all numbers.
fn end_of(goal: Goal, info: Info) -> Option<i64> {
    let Info::Span(span) = info else {
        return None;
    };
    match goal {
        Goal::Least(_) if -B < span.lo() => Some(span.lo()),
        Goal::Greatest(_) if span.hi() < B => Some(span.hi()),
        _ => None,
    }
}

/// That the number is better than an end, where one is asked for.
fn better(goal: Goal, end: i64) -> Option<Literal>
    ensures { IfSome result (IsBetter goal end) }
{
    match goal {
        Goal::Least(place) => {
            let below = end.checked_sub(1)?;
            Some(Literal {
                place,
                fact: Fact::AtMost(below),
            })
        }
        Goal::Greatest(place) => {
            let above = end.checked_add(1)?;
            Some(Literal {
                place,
                fact: Fact::AtLeast(above),
            })
        }
        _ => None,
    }
}

/// Whether two facts are the same end of a number.
fn is_same_end(one: Fact, other: Fact) -> bool
    ensures { IsTrue result → one ≡ other }
{
    match (one, other) {
        (Fact::AtLeast(n), Fact::AtLeast(m)) => n == m,
        (Fact::AtMost(n), Fact::AtMost(m)) => n == m,
        _ => false,
    }
}

/// Whether two facts are the same end of the same number.
fn is_same(one: Literal, other: Literal) -> bool
    ensures { IsTrue result → one ≡ other }
{
    if one.place != other.place {
        return false;
    }
    is_same_end(one.fact, other.fact)
}

/// Whether this end of a number is the only fact of a nogood.
fn is_only(nogood: &Nogood, literal: Literal) -> bool
    ensures { IsTrue result → nogood.now.literals ≡ literal ∷ [] }
{
    match nogood.literals() {
        [only] => is_same(*only, literal),
        _ => false,
    }
}

impl Solver {
    /// How good an answer can still be: an end of the number that is so where nothing is supposed.
    /// None where every number is as good, or that isn't derived by so many steps.
    pub fn bound<R: Guarded + Drop>(
        &self,
        network: &Network<R>,
        premises: &Premises,
        steps: u64,
    ) -> Result<Option<Bound>, AllocError>
        requires means { AllMean R.value_of network.now.library.procedures.items }
        requires kept { IsKept (stored_of R.value_of network.now.library) network.now.cells }
        requires search { IsSearch (stored_of R.value_of network.now.library) network.now.cells
            premises.now self.now }
        ensures { IfOk result (λ o. IfSome o (λ bound. (x : LiteralOf)
            × IsBetter self.now.goal bound.end x
            × IsKnown (stored_of R.value_of network.now.library) (attached_of network.now.cells)
            (choices_of premises.now) (believed_in premises.now) self.now.excuses
            (record { literals = x ∷ []; premises = bound.by }))) }
    {
        let goal = self.question().goal;
        let Some(end) = end_of(goal, self.at_root(goal)) else {
            return Ok(None);
        };
        let Some(beyond) = better(goal, end) else {
            return Ok(None);
        };
        match self.derived(network, premises, beyond, steps)? {
            Some(nogood) if is_only(&nogood, beyond) => {
                let by = nogood.premises().copy()?;
                Ok(Some(Bound { end, by }))
            }
            _ => Ok(None),
        }
    }

    /// A nogood that is derived, by so many steps, from a fact that isn't so where nothing is
    /// supposed.
    fn derived<'x, R: Guarded + Drop>(
        &self,
        network: &'x Network<R>,
        premises: &'x Premises,
        beyond: Literal,
        steps: u64,
    ) -> Result<Option<Nogood>, AllocError>
        requires means { AllMean R.value_of network.now.library.procedures.items }
        requires kept { IsKept (stored_of R.value_of network.now.library) network.now.cells }
        requires search { IsSearch (stored_of R.value_of network.now.library) network.now.cells
            premises.now self.now }
        ensures { IfOk result (λ o. IfSome o (IsKnown (stored_of R.value_of network.now.library)
            (attached_of network.now.cells) (choices_of premises.now) (believed_in premises.now)
            self.now.excuses)) }
    {
        let Some(end) = beyond.fact.negation(0) else {
            return Ok(None);
        };
        let ground = self.spread().ground(network, premises);
        let Some(mut learning) = Learning::of_end(&ground, beyond, end)? else {
            return Ok(None);
        };
        let mut weights = Weights::new(ground.alloc, self.spread().places())?;
        for _ in 0..steps {
            match learning.step(&ground, &mut weights, false)? {
                State::Going if learning.calls() < steps => {}
                State::Learned => return Ok(Some(learning.into_nogood())),
                _ => return Ok(None),
            }
        }
        Ok(None)
    }
}
