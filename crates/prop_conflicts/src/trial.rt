//! Whether points satisfy what some premises say.
ghost use Rattle.std.specs.Prelude.{◌≡◌, IfOk, IfSome, OnOk};
ghost use Rattle.prop_procedures.specs.Kept.{AllMean, stored_of};
ghost use Rattle.prop_cells.specs.Data.{IsKept};
ghost use Rattle.prop_conflicts.specs.Conflicts.{ground_at};
ghost use Rattle.prop_conflicts.specs.inner.Trials.{IsOutcome, IsTrial};

use crate::again::{are_believed, believing};
use prop_cells::Network;
use prop_guards::Guarded;
use prop_premises::{PremiseSet, Premises};
use prop_solve::{Answer, Goal, Question, Solver};
use std::alloc::{AllocError, Global};

/// A search for points that satisfy what some believed premises say.
#[derive(Drop)]
pub(crate) struct Trial {
    /// The premises that are tried.
    pub(crate) kept: PremiseSet,
    /// All premises, of which those alone are believed.
    premises: Premises,
    solver: Solver,
}

/// What a trial comes to.
#[derive(Drop)]
pub(crate) enum Outcome {
    /// Points satisfy what the premises say.
    Fits,
    /// None satisfy what these say, which are among them.
    Refuted(PremiseSet),
    /// That is open.
    Open,
    /// It stays open.
    Lost,
}

impl Trial {
    /// A trial of these premises. None where it can't be made.
    pub(crate) fn new<R: Guarded + Drop>(
        alloc: Global,
        network: &Network<R>,
        premises: &Premises,
        kept: PremiseSet,
    ) -> Result<Option<Trial>, AllocError>
        requires means { AllMean R.value_of network.now.library.procedures.items }
        requires kept { IsKept (stored_of R.value_of network.now.library) network.now.cells }
        ensures trial { IfOk result (λ o. IfSome o (IsTrial
            (ground_at (stored_of R.value_of network.now.library) network.now.cells
            premises.now))) }
        ensures same { IfOk result (λ o. IfSome o (λ t. t.kept ≡ kept)) }
    {
        let Some(believed) = believing(alloc, premises, &kept)? else {
            return Ok(None);
        };
        let question = Question {
            goal: Goal::Any,
            named: Vec::new(alloc),
        };
        let solver = Solver::new(alloc, &*network, &believed, question, None)?;
        Ok(Some(Trial {
            kept,
            premises: believed,
            solver,
        }))
    }

    /// How many steps it took.
    pub(crate) fn steps(&self) -> u64 {
        self.solver.tally().steps
    }

    /// Goes on for so many steps, over the network, of whose premises these are.
    pub(crate) fn advance<R: Guarded + Drop>(
        &mut self,
        network: &Network<R>,
        premises: &Premises,
        steps: u64,
    ) -> Result<Outcome, AllocError>
        requires means { AllMean R.value_of network.now.library.procedures.items }
        requires kept { IsKept (stored_of R.value_of network.now.library) network.now.cells }
        requires trial { IsTrial (ground_at (stored_of R.value_of network.now.library)
            network.now.cells premises.now) self.old }
        ensures trial { OnOk result (IsTrial (ground_at (stored_of R.value_of network.now.library)
            network.now.cells premises.now) self.new) }
        ensures same { OnOk result (self.new.kept ≡ self.old.kept) }
        ensures outcome { IfOk result (IsOutcome
            (ground_at (stored_of R.value_of network.now.library) network.now.cells premises.now)
            self.old.kept) }
    {
        match self.solver.advance(network, &self.premises, steps)? {
            Answer::Found(_) => Ok(Outcome::Fits),
            Answer::Refuted(by) => {
                if are_believed(premises, &by) {
                    return Ok(Outcome::Refuted(by));
                }
                Ok(Outcome::Lost)
            }
            Answer::Unsettled => {
                if self.solver.is_lost() {
                    return Ok(Outcome::Lost);
                }
                Ok(Outcome::Open)
            }
        }
    }
}
