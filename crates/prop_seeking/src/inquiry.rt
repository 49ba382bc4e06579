//! A question under way.

ghost use Rattle.std.specs.Prelude.{◌≡◌, [], map, IfOk, IfSome, OnOk, IsTrue};
ghost use Rattle.std.specs.Prelude.{false, true};
ghost use Rattle.std.specs.Option.{option_map};
ghost use Rattle.prop_procedures.specs.Kept.{AllMean, stored_of};
ghost use Rattle.prop_cells.specs.Data.{IsKept};
ghost use Rattle.prop_solve.specs.Questions.{is_optimum};
ghost use Rattle.prop_seeking.specs.inner.Bounds.{IsBarred};
ghost use Rattle.prop_seeking.specs.inner.Seekers.{IsInquiry, IsEnd, IsSameQuestion, AreFound};
ghost use Rattle.prop_seeking.specs.inner.Seekers.{Ground, IsApt, IsOpen, ground_at, plan_of};
ghost use Rattle.prop_lessons.specs.Lessons.{AreTaught};

use crate::question::Asked;
use crate::striding::Stride;
use prop_cells::Network;
use prop_guards::Guarded;
use prop_lessons::Past;
use prop_premises::{PremiseSet, Premises};
use prop_solve::{Answer, Bound, Earlier, Goal, News, Plan, Question, Solver, Told};
use std::alloc::{AllocError, Global};

/// So many steps a stride takes at the most until something is to be told.
const STRIDE: u64 = 1_000_000;

/// A search for what was asked, the last plan that it found, and whether any was told.
#[derive(Drop)]
pub(crate) struct Inquiry {
    solver: Solver,
    last: Option<Plan>,
    /// How far was told, step by step, what the search does.
    told: Told,
    /// The cells and the choices of the search.
    past: Past,
}

/// How a search ended for now.
#[derive(Drop)]
pub(crate) enum End {
    /// No others fit, by these premises.
    Refuted(PremiseSet),
    /// That is open.
    Open,
}

impl Inquiry {
    /// A search that begins, and takes up what an earlier one left.
    pub(crate) fn new<R: Guarded + Drop>(
        alloc: Global,
        network: &Network<R>,
        premises: &Premises,
        asked: &Asked,
        earlier: Option<&Earlier>,
    ) -> Result<Inquiry, AllocError>
        requires means { AllMean R.value_of network.now.library.procedures.items }
        requires kept { IsKept (stored_of R.value_of network.now.library) network.now.cells }
        requires apt { IsApt network.now.cells.kinds asked.now }
        requires taught { IfSome earlier
            (λ e. AreTaught (stored_of R.value_of network.now.library) e.now) }
        ensures inquiry { IfOk result (IsInquiry
            (ground_at (stored_of R.value_of network.now.library)
            network.now.cells premises.now)) }
        ensures goal { IfOk result (λ i. i.solver.goal ≡ asked.now.goal) }
        ensures named { IfOk result (λ i. i.solver.named ≡ asked.now.named.items) }
        ensures excuses { IfOk result (λ i. i.solver.excuses ≡ []) }
    {
        let question = Question {
            goal: asked.goal,
            named: Vec::from_slice(alloc, &asked.named)?,
        };
        let solver = Solver::new(alloc, network, premises, question, earlier)?;
        let told = solver.all_done();
        Ok(Inquiry {
            solver,
            last: None,
            told,
            past: Past::of(alloc, network.data(), premises.choices())?,
        })
    }

    /// What it leaves to later ones: what was learned, and the values of the last plan.
    pub(crate) fn leave(self, alloc: Global) -> Result<Earlier, AllocError>
        ensures { IfOk result (λ e. (g : Ground) → IsInquiry g self → AreTaught g.library e) }
    {
        let Inquiry {
            solver,
            last,
            past,
            ..
        } = self;
        let values = match last {
            Some(plan) => plan.values,
            None => Vec::new(alloc),
        };
        solver.leave(past, values)
    }

    /// Whether it is for what is asked.
    pub(crate) fn is_for(&self, asked: &Asked) -> bool
        ensures goal { IsTrue result → self.now.solver.goal ≡ asked.now.goal }
        ensures named { IsTrue result → self.now.solver.named ≡ asked.now.named.items }
    {
        let question = self.solver.question();
        question.goal == asked.goal && question.named == asked.named
    }

    /// Its search.
    pub(crate) fn solver(&self) -> &Solver {
        &self.solver
    }

    /// Whether it is open yet, and a plan is no more than looked for.
    pub(crate) fn is_under_way(&self) -> bool
        ensures { IsTrue result → IsOpen self.now }
    {
        match self.solver.question().goal {
            Goal::Any => self.last.is_none() && !self.solver.is_over(),
            Goal::Least(_) | Goal::Greatest(_) => !self.solver.is_over(),
            Goal::Differing => false,
        }
    }

    /// Whether a plan was found.
    pub(crate) fn has_told(&self) -> bool
        ensures { result ≡ false → self.now.solver.excuses ≡ [] }
    {
        self.solver.has_found()
    }

    /// The last plan that was found.
    pub(crate) fn last(&self) -> Option<&Plan>
        ensures { option_map (λ p. p.now) result ≡ self.now.last }
    {
        self.last.as_ref()
    }

    /// Goes on for so many steps, or until some points are found.
    pub(crate) fn find<R: Guarded + Drop>(
        &mut self,
        network: &Network<R>,
        premises: &Premises,
        steps: u64,
    ) -> Result<End, AllocError>
        requires means { AllMean R.value_of network.now.library.procedures.items }
        requires kept { IsKept (stored_of R.value_of network.now.library) network.now.cells }
        requires inquiry { IsInquiry (ground_at (stored_of R.value_of network.now.library)
            network.now.cells premises.now) self.old }
        ensures inquiry { OnOk result (IsInquiry
            (ground_at (stored_of R.value_of network.now.library)
            network.now.cells premises.now) self.new) }
        ensures same { OnOk result (IsSameQuestion self.old self.new) }
        ensures end { IfOk result (IsEnd (ground_at (stored_of R.value_of network.now.library)
            network.now.cells premises.now)
            self.new.solver.excuses) }
    {
        if self.last.is_some() {
            return Ok(End::Open);
        }
        match self.solver.advance(network, premises, steps)? {
            Answer::Found(plan) => {
                self.last = Some(plan);
                Ok(End::Open)
            }
            Answer::Refuted(by) => Ok(End::Refuted(by)),
            Answer::Unsettled => Ok(End::Open),
        }
    }

    /// Goes on for so many steps, or until no better points are left.
    pub(crate) fn improve<R: Guarded + Drop>(
        &mut self,
        network: &Network<R>,
        premises: &Premises,
        steps: u64,
    ) -> Result<End, AllocError>
        requires means { AllMean R.value_of network.now.library.procedures.items }
        requires kept { IsKept (stored_of R.value_of network.now.library) network.now.cells }
        requires inquiry { IsInquiry (ground_at (stored_of R.value_of network.now.library)
            network.now.cells premises.now) self.old }
        requires optimum { is_optimum self.old.solver.goal ≡ true }
        ensures inquiry { OnOk result (IsInquiry
            (ground_at (stored_of R.value_of network.now.library)
            network.now.cells premises.now) self.new) }
        ensures same { OnOk result (IsSameQuestion self.old self.new) }
        ensures end { IfOk result (IsEnd (ground_at (stored_of R.value_of network.now.library)
            network.now.cells premises.now)
            self.new.solver.excuses) }
    {
        let until = self.solver.tally().steps.saturating_add(steps);
        for _ in 0..steps.max(1) {
            let left = until.saturating_sub(self.solver.tally().steps);
            match self.solver.advance(network, premises, left)? {
                Answer::Found(plan) => self.last = Some(plan),
                Answer::Refuted(by) => return Ok(End::Refuted(by)),
                Answer::Unsettled => return Ok(End::Open),
            }
        }
        Ok(End::Open)
    }

    /// What is told next of what the search did, if anything.
    fn news(&mut self) -> Option<News>
        ensures { self.new ≡ record self.old { told = self.new.told } }
    {
        let (news, told) = self.solver.news(self.told);
        self.told = told;
        news
    }

    /// Goes on until something is to be told, or points are found, or no others fit.
    pub(crate) fn stride<R: Guarded + Drop>(
        &mut self,
        network: &Network<R>,
        premises: &Premises,
    ) -> Result<Stride, AllocError>
        requires means { AllMean R.value_of network.now.library.procedures.items }
        requires kept { IsKept (stored_of R.value_of network.now.library) network.now.cells }
        requires inquiry { IsInquiry (ground_at (stored_of R.value_of network.now.library)
            network.now.cells premises.now) self.old }
        requires under_way { IsOpen self.old }
        ensures inquiry { OnOk result (IsInquiry
            (ground_at (stored_of R.value_of network.now.library)
            network.now.cells premises.now) self.new) }
        ensures same { OnOk result (IsSameQuestion self.old self.new) }
    {
        if self.solver.is_ahead(&self.told) {
            self.told = self.solver.all_done();
        }
        for _ in 0..STRIDE {
            if let Some(news) = self.news() {
                return Ok(Stride::Did(news));
            }
            if self.solver.is_over() {
                return Ok(Stride::Over);
            }
            match self.solver.advance(network, premises, 1)? {
                Answer::Found(plan) => {
                    self.last = Some(plan);
                    return Ok(Stride::Found);
                }
                Answer::Refuted(_) => return Ok(Stride::Over),
                Answer::Unsettled => {}
            }
        }
        Ok(Stride::Nothing)
    }

    /// How good points can still be, where that is found out by so many steps.
    pub(crate) fn bound<R: Guarded + Drop>(
        &self,
        network: &Network<R>,
        premises: &Premises,
        steps: u64,
    ) -> Result<Option<Bound>, AllocError>
        requires means { AllMean R.value_of network.now.library.procedures.items }
        requires kept { IsKept (stored_of R.value_of network.now.library) network.now.cells }
        requires inquiry { IsInquiry (ground_at (stored_of R.value_of network.now.library)
            network.now.cells premises.now) self.now }
        ensures { IfOk result (λ o. IfSome o (λ bound. IsBarred
            (ground_at (stored_of R.value_of network.now.library)
            network.now.cells premises.now) self.now.solver bound.end bound.by)) }
    {
        self.solver.bound(network, premises, steps)
    }

    /// Goes on for so many steps, or until so many plans are found or no others are left.
    pub(crate) fn list<R: Guarded + Drop>(
        &mut self,
        network: &Network<R>,
        premises: &Premises,
        steps: u64,
        plans: &mut Plans,
    ) -> Result<End, AllocError>
        requires means { AllMean R.value_of network.now.library.procedures.items }
        requires kept { IsKept (stored_of R.value_of network.now.library) network.now.cells }
        requires inquiry { IsInquiry (ground_at (stored_of R.value_of network.now.library)
            network.now.cells premises.now) self.old }
        requires differing { self.old.solver.goal ≡ Goal.Differing }
        requires empty { plans.old.found.items ≡ [] }
        ensures inquiry { OnOk result (IsInquiry
            (ground_at (stored_of R.value_of network.now.library)
            network.now.cells premises.now) self.new) }
        ensures same { OnOk result (IsSameQuestion self.old self.new) }
        ensures end { IfOk result (IsEnd (ground_at (stored_of R.value_of network.now.library)
            network.now.cells premises.now)
            self.new.solver.excuses) }
        ensures found { OnOk result (AreFound (ground_at (stored_of R.value_of network.now.library)
            network.now.cells premises.now) self.old.solver.named plans.old.most
            self.old.solver.excuses self.new.solver.excuses
            (map plan_of plans.new.found.items)) }
    {
        let until = self.solver.tally().steps.saturating_add(steps);
        for _ in 0..plans.most {
            let left = until.saturating_sub(self.solver.tally().steps);
            let answer = self.solver.advance(network, premises, left)?;
            match answer {
                Answer::Found(plan) => plans.found.push(plan)?,
                Answer::Refuted(by) => return Ok(End::Refuted(by)),
                Answer::Unsettled => return Ok(End::Open),
            }
        }
        Ok(End::Open)
    }
}

/// Plans that were found, and how many are wanted.
#[derive(Drop)]
pub(crate) struct Plans {
    pub(crate) found: Vec<Plan>,
    pub(crate) most: usize,
}
