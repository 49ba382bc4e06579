//! The search for conflicts and repairs.
ghost use Rattle.std.specs.Prelude.{◌≡◌, ◌≤◌, IfOk, IfSome, IsTrue, OnOk, length};
ghost use Rattle.prop_numbers.specs.Sets.{set_of};
ghost use Rattle.prop_procedures.specs.Kept.{AllMean, stored_of};
ghost use Rattle.prop_cells.specs.Data.{IsKept};
ghost use Rattle.prop_conflicts.specs.Conflicts.{Ground, ground_at, IsRefuted};
ghost use Rattle.prop_conflicts.specs.inner.Explorers.{IsExplored, KnowsOf};
ghost use Rattle.prop_conflicts.specs.inner.Trials.{IsOutcomeIn};
ghost use Rattle.prop_conflicts.specs.Cheapest.{AreCheapestIn, HaveOne};
ghost use Rattle.prop_hitting.specs.Costs.{AreDear};
ghost use Rattle.prop_hitting.specs.Hitting.{HitsAll, IsLean};

use crate::again::left_without;
use crate::shrinking::Shrinking;
use crate::trial::{Outcome, Trial};
use prop_cells::Network;
use prop_guards::Guarded;
use prop_hitting::{Conflict, Frontier, Listed, Step, cheapest, cost};
use prop_premises::{Premise, PremiseSet, Premises};
use std::alloc::{AllocError, Global};

/// What a search is at.
#[derive(Clone, Copy, Debug)]
pub(crate) enum Stage {
    /// It looks for premises to give up.
    Seeking,
    /// It tries what is left without some.
    Giving,
    /// It makes refuted premises fewer.
    Shrinking,
    /// It tries refuted premises without one of them.
    Trying,
    /// It goes on no more.
    Idle,
}

/// A search for conflicts and repairs of the believed premises.
#[derive(Drop)]
pub struct Explorer {
    alloc: Global,
    frontier: Frontier,
    conflicts: Vec<Conflict>,
    repairs: Vec<PremiseSet>,
    stage: Stage,
    /// The premises that are given up.
    out: PremiseSet,
    /// The refuted premises that are made fewer, and the one that is left out.
    shrinking: Shrinking,
    premise: Premise,
    /// The last trial.
    trial: Option<Trial>,
    is_over: bool,
    steps: u64,
}

/// How many conflicts and repairs are looked for; where premises have weights, the cheapest
/// repairs.
#[derive(Clone, Copy)]
pub struct Wanted<'a> {
    pub conflicts: usize,
    pub repairs: usize,
    pub weights: Option<&'a [u32]>,
}

impl Explorer {
    /// A search that begins.
    pub fn new(alloc: Global) -> Result<Explorer, AllocError>
        ensures { IfOk result (λ e. (g : Ground) → IsExplored g e) }
    {
        Ok(Explorer {
            alloc,
            frontier: Frontier::new(alloc)?,
            conflicts: Vec::new(alloc),
            repairs: Vec::new(alloc),
            stage: Stage::Seeking,
            out: PremiseSet::empty(alloc),
            shrinking: Shrinking::new(alloc, PremiseSet::empty(alloc)),
            premise: 0,
            trial: None,
            is_over: false,
            steps: 0,
        })
    }

    /// The conflicts that were found.
    pub fn conflicts(&self) -> &[Conflict]
        ensures { result.now ≡ self.now.conflicts.items }
    {
        &self.conflicts
    }

    /// The repairs that were found.
    pub fn repairs(&self) -> &[PremiseSet]
        ensures { result.now ≡ self.now.repairs.items }
    {
        &self.repairs
    }

    /// Whether there are no others.
    pub fn is_over(&self) -> bool
        ensures { result ≡ self.now.is_over }
    {
        self.is_over
    }

    /// The refuted premises that are made fewer, where some are.
    pub fn shrinking(&self) -> Option<&PremiseSet>
        ensures { IfSome result (λ s. (g : Ground) → IsExplored g self.now → IsRefuted g s.now) }
    {
        match self.stage {
            Stage::Shrinking | Stage::Trying => Some(&self.shrinking.premises),
            _ => None,
        }
    }

    /// Goes on for about so many steps, until as many are found as are wanted, or there are no
    /// others. After want of memory nothing is known of it.
    pub fn advance<R: Guarded + Drop>(
        &mut self,
        network: &Network<R>,
        premises: &Premises,
        wanted: Wanted<'_>,
        steps: u64,
    ) -> Result<(), AllocError>
        requires means { AllMean R.value_of network.now.library.procedures.items }
        requires kept { IsKept (stored_of R.value_of network.now.library) network.now.cells }
        requires explored { IsExplored (ground_at (stored_of R.value_of network.now.library)
            network.now.cells premises.now) self.old }
        ensures { OnOk result (IsExplored (ground_at (stored_of R.value_of network.now.library)
            network.now.cells premises.now) self.new) }
    {
        let until = self.steps.saturating_add(steps);
        for _ in 0..steps.max(1) {
            if self.steps >= until || self.has(wanted) {
                return Ok(());
            }
            self.put_first(wanted)?;
            self.step(network, premises, until)?;
        }
        Ok(())
    }

    /// Whether as many are found as are wanted, or it goes on no more.
    fn has(&self, wanted: Wanted<'_>) -> bool {
        matches!(self.stage, Stage::Idle)
            || self.conflicts.len() >= wanted.conflicts
            || self.known(wanted) >= wanted.repairs
    }

    /// How many repairs are known of which none that is cheaper can be missing.
    fn known(&self, wanted: Wanted<'_>) -> usize {
        let Some(weights) = wanted.weights else {
            return self.repairs.len();
        };
        if !matches!(self.stage, Stage::Seeking) {
            return 0;
        }
        let bound = self.frontier.floor(weights);
        let mut known = 0;
        for repair in &self.repairs {
            if cost(weights, repair) <= bound {
                known += 1;
            }
        }
        known
    }

    /// Where premises have weights, what may be cheapest is looked at next.
    fn put_first(&mut self, wanted: Wanted<'_>) -> Result<(), AllocError>
        ensures { OnOk result ((g : Ground) → IsExplored g self.old → IsExplored g self.new) }
    {
        match wanted.weights {
            Some(weights) => self.frontier.lift(weights),
            None => Ok(()),
        }
    }

    /// The cheapest repairs, so many at the most, and whether there are no others. `AllocError`
    /// where memory is refused.
    pub fn cheapest(&self, weights: &[u32], most: usize) -> Result<Listed, AllocError>
        ensures few { IfOk result (λ l. length l.sets.items ≤ most) }
        ensures repairs { IfOk result (λ l. (g : Ground) → IsExplored g self.now
            → AreCheapestIn g weights.now l.sets.items) }
        ensures all { IfOk result (λ l. IsTrue l.are_all → (g : Ground) → IsExplored g self.now
            → HaveOne g l.sets.items) }
    {
        let listed = cheapest(
            self.alloc,
            &self.repairs,
            weights,
            self.bound(weights),
            most,
        )?;
        let are_all = listed.are_all && self.is_over;
        Ok(Listed {
            sets: listed.sets,
            are_all,
        })
    }

    /// What a repair costs at the least that isn't known.
    fn bound(&self, weights: &[u32]) -> u64
        ensures { (g : Ground) → IsExplored g self.now → AreDear self.now.conflicts.items
            self.now.repairs.items weights.now result }
    {
        if self.is_over {
            return u64::MAX;
        }
        self.frontier.floor(weights)
    }

    /// Goes on with what is under way.
    fn step<R: Guarded + Drop>(
        &mut self,
        network: &Network<R>,
        premises: &Premises,
        until: u64,
    ) -> Result<(), AllocError>
        requires means { AllMean R.value_of network.now.library.procedures.items }
        requires kept { IsKept (stored_of R.value_of network.now.library) network.now.cells }
        requires explored { IsExplored (ground_at (stored_of R.value_of network.now.library)
            network.now.cells premises.now) self.old }
        ensures { OnOk result (IsExplored (ground_at (stored_of R.value_of network.now.library)
            network.now.cells premises.now) self.new) }
    {
        let left = until.saturating_sub(self.steps);
        self.steps = self.steps.saturating_add(1);
        match self.stage {
            Stage::Seeking => self.seek(network, premises),
            Stage::Giving => self.give(network, premises, left),
            Stage::Shrinking => self.shrink(network, premises),
            Stage::Trying => self.go_on(network, premises, left),
            Stage::Idle => Ok(()),
        }
    }

    /// Looks for premises to give up.
    fn seek<R: Guarded + Drop>(
        &mut self,
        network: &Network<R>,
        premises: &Premises,
    ) -> Result<(), AllocError>
        requires means { AllMean R.value_of network.now.library.procedures.items }
        requires kept { IsKept (stored_of R.value_of network.now.library) network.now.cells }
        requires explored { IsExplored (ground_at (stored_of R.value_of network.now.library)
            network.now.cells premises.now) self.old }
        ensures { OnOk result (IsExplored (ground_at (stored_of R.value_of network.now.library)
            network.now.cells premises.now) self.new) }
    {
        match self.frontier.step(&self.conflicts, &self.repairs)? {
            Step::Found(out) => self.try_without(network, premises, out),
            Step::Open => Ok(()),
            Step::Over => {
                self.is_over = true;
                self.stage = Stage::Idle;
                Ok(())
            }
        }
    }

    /// Tries what is left without these premises.
    fn try_without<R: Guarded + Drop>(
        &mut self,
        network: &Network<R>,
        premises: &Premises,
        out: PremiseSet,
    ) -> Result<(), AllocError>
        requires means { AllMean R.value_of network.now.library.procedures.items }
        requires kept { IsKept (stored_of R.value_of network.now.library) network.now.cells }
        requires knows { KnowsOf (ground_at (stored_of R.value_of network.now.library)
            network.now.cells premises.now) self.old }
        requires hits { HitsAll (set_of out) self.old.conflicts.items }
        requires lean { IsLean self.old.conflicts.items out }
        ensures { OnOk result (IsExplored (ground_at (stored_of R.value_of network.now.library)
            network.now.cells premises.now) self.new) }
    {
        let kept = left_without(self.alloc, premises, &out)?;
        self.begin(network, premises, kept)?;
        self.out = out;
        self.stage = Stage::Giving;
        Ok(())
    }

    /// A trial of these premises begins, where it can be made.
    fn begin<R: Guarded + Drop>(
        &mut self,
        network: &Network<R>,
        premises: &Premises,
        kept: PremiseSet,
    ) -> Result<(), AllocError>
        requires means { AllMean R.value_of network.now.library.procedures.items }
        requires kept { IsKept (stored_of R.value_of network.now.library) network.now.cells }
        requires knows { KnowsOf (ground_at (stored_of R.value_of network.now.library)
            network.now.cells premises.now) self.old }
        ensures knows { OnOk result (KnowsOf (ground_at (stored_of R.value_of network.now.library)
            network.now.cells premises.now) self.new) }
        ensures kept { OnOk result (IfSome self.new.trial (λ t. t.kept ≡ kept)) }
        ensures others { OnOk result (self.new ≡ record self.old { trial = self.new.trial }) }
    {
        self.trial = Trial::new(self.alloc, network, premises, kept)?;
        Ok(())
    }

    /// Goes on to try what is left without some premises.
    fn give<R: Guarded + Drop>(
        &mut self,
        network: &Network<R>,
        premises: &Premises,
        left: u64,
    ) -> Result<(), AllocError>
        requires means { AllMean R.value_of network.now.library.procedures.items }
        requires kept { IsKept (stored_of R.value_of network.now.library) network.now.cells }
        requires explored { IsExplored (ground_at (stored_of R.value_of network.now.library)
            network.now.cells premises.now) self.old }
        requires at { self.old.stage ≡ Stage.Giving }
        ensures { OnOk result (IsExplored (ground_at (stored_of R.value_of network.now.library)
            network.now.cells premises.now) self.new) }
    {
        let outcome = self.outcome(network, premises, left)?;
        match outcome {
            Outcome::Fits => self.accept(),
            Outcome::Refuted(by) => {
                self.refuse(by);
                Ok(())
            }
            Outcome::Open => Ok(()),
            Outcome::Lost => {
                self.stage = Stage::Idle;
                Ok(())
            }
        }
    }

    /// What is left without some premises fits: they are a repair.
    fn accept(&mut self) -> Result<(), AllocError>
        requires at { self.old.stage ≡ Stage.Giving }
        ensures { OnOk result ((g : Ground) → IsExplored g self.old
            → IsOutcomeIn g self.old.trial Outcome.Fits → IsExplored g self.new) }
    {
        let out = self.out.copy()?;
        self.repairs.push(out)?;
        self.stage = Stage::Seeking;
        Ok(())
    }

    /// Refuted premises are to be made fewer.
    fn refuse(&mut self, by: PremiseSet)
        ensures { (g : Ground) → IsExplored g self.old → IsRefuted g by → IsExplored g self.new }
    {
        self.shrinking = Shrinking::new(self.alloc, by);
        self.stage = Stage::Shrinking;
    }

    /// What the trial comes to by so many steps.
    fn outcome<R: Guarded + Drop>(
        &mut self,
        network: &Network<R>,
        premises: &Premises,
        left: u64,
    ) -> Result<Outcome, AllocError>
        requires means { AllMean R.value_of network.now.library.procedures.items }
        requires kept { IsKept (stored_of R.value_of network.now.library) network.now.cells }
        requires explored { IsExplored (ground_at (stored_of R.value_of network.now.library)
            network.now.cells premises.now) self.old }
        ensures explored { OnOk result (IsExplored
            (ground_at (stored_of R.value_of network.now.library) network.now.cells premises.now)
            self.new) }
        ensures stage { OnOk result (self.new.stage ≡ self.old.stage) }
        ensures outcome { IfOk result (IsOutcomeIn
            (ground_at (stored_of R.value_of network.now.library) network.now.cells premises.now)
            self.new.trial) }
    {
        let Some(trial) = &mut self.trial else {
            return Ok(Outcome::Lost);
        };
        let before = trial.steps();
        let outcome = trial.advance(network, premises, left)?;
        let steps = trial.steps().saturating_sub(before);
        self.steps = self.steps.saturating_add(steps);
        Ok(outcome)
    }

    /// Makes refuted premises fewer.
    fn shrink<R: Guarded + Drop>(
        &mut self,
        network: &Network<R>,
        premises: &Premises,
    ) -> Result<(), AllocError>
        requires means { AllMean R.value_of network.now.library.procedures.items }
        requires kept { IsKept (stored_of R.value_of network.now.library) network.now.cells }
        requires explored { IsExplored (ground_at (stored_of R.value_of network.now.library)
            network.now.cells premises.now) self.old }
        requires at { self.old.stage ≡ Stage.Shrinking }
        ensures { OnOk result (IsExplored (ground_at (stored_of R.value_of network.now.library)
            network.now.cells premises.now) self.new) }
    {
        match self.shrinking.next() {
            None => self.conclude(),
            Some(premise) => self.leave_out(network, premises, premise),
        }
    }

    /// The refuted premises are a conflict.
    fn conclude(&mut self) -> Result<(), AllocError>
        requires at { self.old.stage ≡ Stage.Shrinking }
        ensures { OnOk result ((g : Ground) → IsExplored g self.old → IsExplored g self.new) }
    {
        let found = self.shrinking.found()?;
        self.conflicts.push(found)?;
        self.stage = Stage::Seeking;
        Ok(())
    }

    /// Tries refuted premises without one of them.
    fn leave_out<R: Guarded + Drop>(
        &mut self,
        network: &Network<R>,
        premises: &Premises,
        premise: Premise,
    ) -> Result<(), AllocError>
        requires means { AllMean R.value_of network.now.library.procedures.items }
        requires kept { IsKept (stored_of R.value_of network.now.library) network.now.cells }
        requires explored { IsExplored (ground_at (stored_of R.value_of network.now.library)
            network.now.cells premises.now) self.old }
        requires at { self.old.stage ≡ Stage.Shrinking }
        ensures { OnOk result (IsExplored (ground_at (stored_of R.value_of network.now.library)
            network.now.cells premises.now) self.new) }
    {
        let kept = self.shrinking.premises.without(premise)?;
        self.begin(network, premises, kept)?;
        self.premise = premise;
        self.stage = Stage::Trying;
        Ok(())
    }

    /// Goes on with a trial of refuted premises without one of them.
    fn go_on<R: Guarded + Drop>(
        &mut self,
        network: &Network<R>,
        premises: &Premises,
        left: u64,
    ) -> Result<(), AllocError>
        requires means { AllMean R.value_of network.now.library.procedures.items }
        requires kept { IsKept (stored_of R.value_of network.now.library) network.now.cells }
        requires explored { IsExplored (ground_at (stored_of R.value_of network.now.library)
            network.now.cells premises.now) self.old }
        requires at { self.old.stage ≡ Stage.Trying }
        ensures { OnOk result (IsExplored (ground_at (stored_of R.value_of network.now.library)
            network.now.cells premises.now) self.new) }
    {
        let outcome = self.outcome(network, premises, left)?;
        if let Outcome::Open = outcome {
            return Ok(());
        }
        self.take_in(outcome)
    }

    /// Takes in what came of the trial without a premise.
    fn take_in(&mut self, outcome: Outcome) -> Result<(), AllocError>
        requires at { self.old.stage ≡ Stage.Trying }
        ensures { OnOk result ((g : Ground) → IsExplored g self.old
            → IsOutcomeIn g self.old.trial outcome → IsExplored g self.new) }
    {
        self.stage = Stage::Shrinking;
        self.shrinking.take_in(self.alloc, self.premise, outcome)
    }
}
