//! Refuted premises that are made fewer.
ghost use Rattle.std.specs.Prelude.{IfOk, List, OnOk, ℕ};
ghost use Rattle.prop_numbers.specs.Sets.{set_of, without, IsPart};
ghost use Rattle.prop_conflicts.specs.Conflicts.{Ground, IsConflict, IsRefuted};
ghost use Rattle.prop_conflicts.specs.inner.Explorers.{IsShrinking};
ghost use Rattle.prop_conflicts.specs.inner.Trials.{IsOutcome};

use crate::trial::Outcome;
use prop_hitting::Conflict;
use prop_premises::{Premise, PremiseSet};
use std::alloc::{AllocError, Global};

/// Premises that are refuted, those of them without which the others fit, and those of which that
/// stays open.
#[derive(Drop)]
pub(crate) struct Shrinking {
    pub(crate) premises: PremiseSet,
    needed: PremiseSet,
    doubtful: PremiseSet,
}

impl Shrinking {
    /// Nothing is known of these premises but that they are refuted.
    pub(crate) fn new(alloc: Global, premises: PremiseSet) -> Shrinking
        ensures { (g : Ground) → IsRefuted g premises → IsShrinking g result }
    {
        Shrinking {
            premises,
            needed: PremiseSet::empty(alloc),
            doubtful: PremiseSet::empty(alloc),
        }
    }

    /// The last premise of which nothing is known yet.
    pub(crate) fn next(&self) -> Option<Premise> {
        let mut next = None;
        for premise in self.premises.iter() {
            if !self.needed.contains(premise) && !self.doubtful.contains(premise) {
                next = Some(premise);
            }
        }
        next
    }

    /// Takes in what came of a trial without the premise.
    pub(crate) fn take_in(
        &mut self,
        alloc: Global,
        premise: Premise,
        outcome: Outcome,
    ) -> Result<(), AllocError>
        ensures { OnOk result ((g : Ground) (kept : List ℕ) → IsShrinking g self.old
            → IsPart (without (set_of self.old.premises) premise) (set_of kept)
            → IsOutcome g kept outcome → IsShrinking g self.new) }
    {
        match outcome {
            Outcome::Fits => self.needed.unite(&PremiseSet::single(alloc, premise)?),
            Outcome::Refuted(by) if by.is_subset(&self.premises) => {
                self.premises = by;
                Ok(())
            }
            _ => self.doubtful.unite(&PremiseSet::single(alloc, premise)?),
        }
    }

    /// What was found: the premises, and whether each of them is needed.
    pub(crate) fn found(&self) -> Result<Conflict, AllocError>
        ensures { IfOk result (λ c. (g : Ground) → IsShrinking g self.now → IsConflict g c) }
    {
        Ok(Conflict {
            premises: self.premises.copy()?,
            is_least: self.premises.is_subset(&self.needed),
        })
    }
}
