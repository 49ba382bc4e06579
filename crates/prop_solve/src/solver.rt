//! The search: what is supposed, what follows, what was refuted.

ghost use Rattle.std.specs.Prelude.{◌≡◌, ◌↔◌, ◌⊎◌, [], List, None, Some, IsTrue, IfOk, IfSome};
ghost use Rattle.std.specs.Prelude.{◌∷◌, All, Contains, OnOk, Ok, map, true, false};
ghost use Rattle.prop_numbers.specs.Sets.{set_of, IsPart};
ghost use Rattle.prop_premises.specs.Origins.{believed_in, choices_of};
ghost use Rattle.prop_procedures.specs.Kept.{AllMean, stored_of};
ghost use Rattle.prop_cells.specs.Data.{IsKept};
ghost use Rattle.prop_plans.specs.Held.{attached_of};
ghost use Rattle.prop_plans.specs.Plans.{Satisfy};
ghost use Rattle.prop_deriving.specs.Known.{IsKnown};
ghost use Rattle.prop_lessons.specs.Lessons.{AreTaught};
ghost use Rattle.prop_solve.specs.Questions.{AreExcusing, Grow, Imply, excused_then};
ghost use Rattle.prop_solve.specs.Questions.{is_optimum};
ghost use Rattle.prop_spread.specs.Proposals.{AreSingle, IsProposed};
ghost use Rattle.prop_solve.specs.Searches.{IsSearch, Search, bare};
ghost use Rattle.prop_solve.specs.Answers.{AsksTheSame, IsAnswer, IsFound, IfFound};

use crate::earlier::Earlier;
use crate::pace::Pace;
use crate::question::{Goal, Question};
use prop_cells::Network;
use prop_deriving::learning::{Learning, State};
use prop_facts::{Fact, Literal};
use prop_guards::Guarded;
use prop_lattice::Info;
use prop_learned::weights::Weights;
use prop_plans::Verdict;
use prop_premises::{Premise, PremiseSet, Premises, Worldview};
use prop_refuting::{Nogood, excused};
use prop_spread::{First, Lesson, Proposal, Quiet, Spread};
use std::alloc::{AllocError, Global};
use std::marker::Model;

/// How many literals a nogood of an enumeration has at the most that stays when its level goes.
const LASTING: usize = 3;

/// After so many contradictions the values of an earlier plan are tried first no longer.
const TRIALS: u64 = 100;

/// After so many contradictions what was decided last is tried first again, and no longer what the
/// best plan has, where the best is asked for.
const NEAR: u64 = 500;

/// So many steps are taken before it is looked whether there is room for more.
const AT_ONCE: u64 = 1_000;

/// A value for each cell that leaves a single point, and of each choice the side that is taken,
/// counted from 1.
#[derive(Drop)]
pub struct Plan {
    pub values: Vec<Info>,
    pub sides: Vec<u8>,
}

/// What is known of the answer.
#[derive(Drop)]
pub enum Answer {
    /// Points that satisfy everything.
    Found(Plan),
    /// No points satisfy what these premises say but those that are excused by the plans before.
    Refuted(PremiseSet),
    /// Neither by now.
    Unsettled,
}

/// What a search did so far.
#[derive(Clone, Copy, Debug)]
pub struct Tally {
    /// Steps: an entry that was looked at, a call, something supposed, a resolution.
    pub steps: u64,
    /// How often something was supposed.
    pub supposed: u64,
    /// How many contradictions there were.
    pub contradictions: u64,
    /// How many nogoods were learned.
    pub learned: u64,
}

/// A search under way.
#[derive(Drop)]
pub struct Solver {
    question: Question,
    pub(crate) excuses: Vec<Vec<Literal>>,
    pub(crate) spread: Spread,
    weights: Weights,
    pace: Pace,
    learning: Option<Learning>,
    proposal: Option<Proposal>,
    pub(crate) refuted: Option<PremiseSet>,
    pub(crate) tally: Tally,
    is_lost: bool,
    is_in_doubt: bool,
    /// Whether values of an earlier plan are tried first.
    pub(crate) expects: bool,
    /// How many nogoods were taken up of an earlier search.
    pub(crate) recalled: usize,
}

/// What the believed premises of the user's believe, no side among them.
fn root_of(alloc: Global, premises: &Premises) -> Result<Worldview, AllocError>
    ensures { IfOk result (λ root. IsPart (set_of root) (believed_in premises.now)) }
{
    let mut root = Worldview::empty(alloc);
    for number in 0..premises.len() {
        let premise = number as Premise;
        if premises.is_in(premise) {
            root.believe(premise)?;
        }
    }
    Ok(root)
}

impl Model for Solver {
    ghost use Rattle.std.specs.Prelude.{map};
    ghost use Rattle.prop_solve.specs.Searches.{Search};

    ghost Value = { Search };

    ghost view = { λ s. record {
      goal = s.question.goal;
      named = s.question.named.items;
      excuses = map (λ v. v.items) s.excuses.items;
      spread = s.spread;
      learning = s.learning;
      proposal = s.proposal;
      refuted = s.refuted;
    } };
}

impl Solver {
    /// A search for what is asked, over the network and the believed premises of the user's, which
    /// takes up what an earlier one left.
    pub fn new<'x, R: Guarded + Drop>(
        alloc: Global,
        network: &'x Network<R>,
        premises: &'x Premises,
        question: Question,
        earlier: Option<&Earlier>,
    ) -> Result<Solver, AllocError>
        requires means { AllMean R.value_of network.now.library.procedures.items }
        requires kept { IsKept (stored_of R.value_of network.now.library) network.now.cells }
        requires taught { IfSome earlier
            (λ e. AreTaught (stored_of R.value_of network.now.library) e.now) }
        ensures search { IfOk result (λ s. IsSearch (stored_of R.value_of network.now.library)
            network.now.cells premises.now s) }
        ensures asks { IfOk result (λ s. (s.goal ≡ question.goal)
            × (s.named ≡ question.named.items)) }
        ensures excuses { IfOk result (λ s. s.excuses ≡ []) }
    {
        let root = root_of(alloc, premises)?;
        let spread = Spread::new(alloc, network, premises.choices(), root)?;
        let mut solver = Solver::unbegun(alloc, spread, question)?;
        match solver.start(network, premises, earlier) {
            Ok(()) => Ok(solver),
            Err(error) => {
                // One call in place of the drop of each part, which a proof would go through.
                drop(solver);
                Err(error)
            }
        }
    }

    /// A search of which nothing was found out.
    fn unbegun(alloc: Global, spread: Spread, question: Question) -> Result<Solver, AllocError>
        ensures { IfOk result (λ s. s ≡ record {
          goal = question.goal;
          named = question.named.items;
          spread = spread;
          excuses = [];
          learning = None;
          proposal = None;
          refuted = None;
        }) }
    {
        let weights = match Weights::new(alloc, spread.places()) {
            Ok(weights) => weights,
            Err(error) => {
                drop(spread);
                drop(question);
                return Err(error);
            }
        };
        Ok(Solver {
            excuses: Vec::new(alloc),
            weights,
            pace: Pace::new(),
            learning: None,
            proposal: None,
            refuted: None,
            tally: Tally {
                steps: 0,
                supposed: 0,
                contradictions: 0,
                learned: 0,
            },
            is_lost: false,
            is_in_doubt: false,
            expects: false,
            recalled: 0,
            question,
            spread,
        })
    }

    /// Begins with what an earlier search left, and with a contradiction of the root, where there
    /// is one.
    fn start<R: Guarded + Drop>(
        &mut self,
        network: &Network<R>,
        premises: &Premises,
        earlier: Option<&Earlier>,
    ) -> Result<(), AllocError>
        requires kept { IsKept (stored_of R.value_of network.now.library) network.now.cells }
        requires taught { IfSome earlier
            (λ e. AreTaught (stored_of R.value_of network.now.library) e.now) }
        requires search { IsSearch (stored_of R.value_of network.now.library) network.now.cells
            premises.now self.old }
        ensures search { OnOk result (IsSearch (stored_of R.value_of network.now.library)
            network.now.cells premises.now self.new) }
        ensures asks { OnOk result (AsksTheSame self.old self.new) }
        ensures excuses { OnOk result (self.new.excuses ≡ self.old.excuses) }
    {
        self.take_up(network, premises, earlier)?;
        self.begin_at_root(network, premises)
    }

    /// Begins to find out what a contradiction of the root rests on, where there is one.
    fn begin_at_root<'x, R: Guarded + Drop>(
        &mut self,
        network: &'x Network<R>,
        premises: &'x Premises,
    ) -> Result<(), AllocError>
        requires kept { IsKept (stored_of R.value_of network.now.library) network.now.cells }
        requires search { IsSearch (stored_of R.value_of network.now.library) network.now.cells
            premises.now self.old }
        ensures search { OnOk result (IsSearch (stored_of R.value_of network.now.library)
            network.now.cells premises.now self.new) }
        ensures asks { OnOk result (AsksTheSame self.old self.new) }
        ensures excuses { OnOk result (self.new.excuses ≡ self.old.excuses) }
    {
        let Some(cell) = self.spread.contradiction(network.cells()) else {
            return Ok(());
        };
        let ground = self.spread.ground(network, premises);
        self.learning = Learning::of_belief(&ground, cell)?;
        self.is_lost = self.learning.is_none();
        Ok(())
    }

    /// What is asked.
    pub fn question(&self) -> &Question
        ensures goal { result.now.goal ≡ self.now.goal }
        ensures named { result.now.named.items ≡ self.now.named }
    {
        &self.question
    }

    /// Whether a plan was found.
    pub fn has_found(&self) -> bool
        ensures { result ≡ false → self.now.excuses ≡ [] }
    {
        !self.excuses.is_empty()
    }

    /// What is believed where nothing is supposed of the number of which an end is asked for.
    pub(crate) fn at_root(&self, goal: Goal) -> Info {
        match goal {
            Goal::Least(place) | Goal::Greatest(place) => self.spread.at_root(place),
            _ => Info::Nothing,
        }
    }

    pub(crate) fn spread(&self) -> &Spread
        ensures { result.now ≡ self.now.spread }
    {
        &self.spread
    }

    /// Whether it is known that no others fit, or the question stays unsettled.
    pub fn is_over(&self) -> bool {
        self.is_lost || self.refuted.is_some()
    }

    /// What was done so far.
    pub fn tally(&self) -> Tally {
        self.tally
    }

    /// Whether a test of a step failed, so that the question stays unsettled.
    pub fn is_lost(&self) -> bool {
        self.is_lost
    }

    /// Goes on for about so many steps.
    pub fn advance<R: Guarded + Drop>(
        &mut self,
        network: &Network<R>,
        premises: &Premises,
        steps: u64,
    ) -> Result<Answer, AllocError>
        requires means { AllMean R.value_of network.now.library.procedures.items }
        requires kept { IsKept (stored_of R.value_of network.now.library) network.now.cells }
        requires search { IsSearch (stored_of R.value_of network.now.library) network.now.cells
            premises.now self.old }
        ensures search { OnOk result (IsSearch (stored_of R.value_of network.now.library)
            network.now.cells premises.now self.new) }
        ensures asks { OnOk result (AsksTheSame self.old self.new) }
        ensures answer { IfOk result (λ answer. IsAnswer (stored_of R.value_of network.now.library)
            network.now.cells premises.now self.old answer self.new) }
    {
        let until = self.tally.steps.saturating_add(steps);
        // (what is refuted is told by no step)
        for _ in 0..steps.max(1) {
            if let Some(refuted) = &self.refuted {
                return Ok(Answer::Refuted(refuted.copy()?));
            }
            if self.is_lost || self.tally.steps >= until {
                break;
            }
            let left = until - self.tally.steps;
            if let Some(plan) = self.step(network, premises, left)? {
                return Ok(Answer::Found(plan));
            }
        }
        Ok(Answer::Unsettled)
    }

    /// Takes a step; answers a plan where all of it was looked at.
    fn step<R: Guarded + Drop>(
        &mut self,
        network: &Network<R>,
        premises: &Premises,
        left: u64,
    ) -> Result<Option<Plan>, AllocError>
        requires means { AllMean R.value_of network.now.library.procedures.items }
        requires kept { IsKept (stored_of R.value_of network.now.library) network.now.cells }
        requires search { IsSearch (stored_of R.value_of network.now.library) network.now.cells
            premises.now self.old }
        ensures search { OnOk result (IsSearch (stored_of R.value_of network.now.library)
            network.now.cells premises.now self.new) }
        ensures asks { OnOk result (AsksTheSame self.old self.new) }
        ensures found { IfOk result (λ found. IfFound found (λ plan.
            IsFound (stored_of R.value_of network.now.library) network.now.cells premises.now
            self.old plan.values.items plan.sides.items self.new)
            (self.new.excuses ≡ self.old.excuses)) }
    {
        if self.is_following() {
            self.follow(network, premises, left)?;
            return Ok(None);
        }
        self.tally.steps = self.tally.steps.saturating_add(1);
        if let Some(learning) = self.learning.take() {
            self.learn(network, premises, learning)?;
            return Ok(None);
        }
        if let Some(proposal) = self.proposal.take() {
            return self.check(network, premises, proposal, left);
        }
        Ok(None)
    }

    /// Whether no contradiction and no plan is looked at.
    fn is_following(&self) -> bool {
        self.learning.is_none() && self.proposal.is_none()
    }

    /// Finds out what follows, by so many steps at the most.
    fn follow<R: Guarded + Drop>(
        &mut self,
        network: &Network<R>,
        premises: &Premises,
        left: u64,
    ) -> Result<(), AllocError>
        requires means { AllMean R.value_of network.now.library.procedures.items }
        requires kept { IsKept (stored_of R.value_of network.now.library) network.now.cells }
        requires search { IsSearch (stored_of R.value_of network.now.library) network.now.cells
            premises.now self.old }
        ensures search { OnOk result (IsSearch (stored_of R.value_of network.now.library)
            network.now.cells premises.now self.new) }
        ensures asks { OnOk result (AsksTheSame self.old self.new) }
        ensures excuses { OnOk result (self.new.excuses ≡ self.old.excuses) }
    {
        if self.spread.is_full() {
            self.is_lost = true;
            return Ok(());
        }
        let (quiet, taken) = self.spread.run(network, left.min(AT_ONCE))?;
        self.count_steps(taken);
        match quiet {
            Quiet::Going => Ok(()),
            Quiet::Clashing => self.begin(network, premises),
            Quiet::Still => self.decide(network, premises),
        }
    }

    /// So many steps more.
    fn count_steps(&mut self, steps: u64)
        ensures { self.new ≡ self.old }
    {
        self.tally.steps = self.tally.steps.saturating_add(steps);
    }

    /// One contradiction more.
    fn count_contradiction(&mut self)
        ensures { self.new ≡ self.old }
    {
        self.tally.contradictions = self.tally.contradictions.saturating_add(1);
        self.is_in_doubt = false;
        self.pace.fail();
        self.weights.grow();
    }

    /// Begins to find out what a contradiction rests on.
    fn begin<'x, R: Guarded + Drop>(
        &mut self,
        network: &'x Network<R>,
        premises: &'x Premises,
    ) -> Result<(), AllocError>
        requires means { AllMean R.value_of network.now.library.procedures.items }
        requires kept { IsKept (stored_of R.value_of network.now.library) network.now.cells }
        requires search { IsSearch (stored_of R.value_of network.now.library) network.now.cells
            premises.now self.old }
        ensures search { OnOk result (IsSearch (stored_of R.value_of network.now.library)
            network.now.cells premises.now self.new) }
        ensures asks { OnOk result (AsksTheSame self.old self.new) }
        ensures excuses { OnOk result (self.new.excuses ≡ self.old.excuses) }
    {
        self.count_contradiction();
        let Some(clash) = self.spread.take_clash() else {
            self.is_lost = true;
            return Ok(());
        };
        let ground = self.spread.ground(&*network, &*premises);
        self.learning = Learning::of_clash(&ground, clash, &mut self.weights)?;
        self.is_lost = self.learning.is_none();
        Ok(())
    }

    /// Takes a step of a derivation.
    fn learn<'x, R: Guarded + Drop>(
        &mut self,
        network: &'x Network<R>,
        premises: &'x Premises,
        learning: Learning,
    ) -> Result<(), AllocError>
        requires means { AllMean R.value_of network.now.library.procedures.items }
        requires kept { IsKept (stored_of R.value_of network.now.library) network.now.cells }
        requires search { IsSearch (stored_of R.value_of network.now.library) network.now.cells
            premises.now self.old }
        requires known { IsKnown (stored_of R.value_of network.now.library)
            (attached_of network.now.cells) (choices_of premises.now) (believed_in premises.now)
            self.old.excuses learning }
        ensures search { OnOk result (IsSearch (stored_of R.value_of network.now.library)
            network.now.cells premises.now self.new) }
        ensures asks { OnOk result (AsksTheSame self.old self.new) }
        ensures excuses { OnOk result (self.new.excuses ≡ self.old.excuses) }
    {
        let mut learning = learning;
        let is_whole = self.is_enumeration();
        let ground = self.spread.ground(&*network, &*premises);
        let before = learning.calls();
        let state = learning.step(&ground, &mut self.weights, is_whole)?;
        let calls = learning.calls().saturating_sub(before);
        self.tally.steps = self.tally.steps.saturating_add(calls);
        match state {
            State::Going => self.learning = Some(learning),
            State::Failed => self.is_lost = true,
            State::Learned => self.take_in(network, premises, learning)?,
        }
        Ok(())
    }

    fn is_enumeration(&self) -> bool
        ensures { IsTrue result ↔ (self.now.goal ≡ Goal.Differing) }
    {
        self.question.goal == Goal::Differing
    }

    /// Whether a nogood of so many literals goes with its level.
    fn is_passing(&self, literals: usize) -> bool {
        self.is_enumeration() && literals > LASTING
    }

    /// Takes in what was learned: goes back to where it says something, and says it.
    fn take_in<R: Guarded + Drop>(
        &mut self,
        network: &Network<R>,
        premises: &Premises,
        learning: Learning,
    ) -> Result<(), AllocError>
        requires means { AllMean R.value_of network.now.library.procedures.items }
        requires kept { IsKept (stored_of R.value_of network.now.library) network.now.cells }
        requires search { IsSearch (stored_of R.value_of network.now.library) network.now.cells
            premises.now self.old }
        requires known { IsKnown (stored_of R.value_of network.now.library)
            (attached_of network.now.cells) (choices_of premises.now) (believed_in premises.now)
            self.old.excuses learning }
        ensures search { OnOk result (IsSearch (stored_of R.value_of network.now.library)
            network.now.cells premises.now self.new) }
        ensures asks { OnOk result (AsksTheSame self.old self.new) }
        ensures excuses { OnOk result (self.new.excuses ≡ self.old.excuses) }
    {
        let at = learning.asserting();
        let (second_level, second) = self.spread.second(&learning);
        // (what was told on the way back to there is not to be told again)
        let level = if self.is_enumeration() {
            learning.level().saturating_sub(1)
        } else {
            second_level
        };
        let nogood = learning.into_nogood();
        let count = nogood.literals().len();
        let Some(literal) = nogood.literals().get(at) else {
            return self.refute(&nogood);
        };
        let lesson = Lesson {
            literal: *literal,
            watched: (at, second),
            level,
            passes: self.is_passing(count),
            nogood,
        };
        self.tally.learned = self.tally.learned.saturating_add(1);
        if !self.spread.learn(lesson)? {
            self.begin(network, premises)?;
        }
        Ok(())
    }

    /// A nogood without literals refutes what is left.
    pub(crate) fn refute(&mut self, nogood: &Nogood) -> Result<(), AllocError>
        ensures refuted { OnOk result (IfSome self.new.refuted (λ premises.
            (nogood.now ≡ bare premises) ⊎ (self.old.refuted ≡ Some premises))) }
        ensures others { self.new ≡ record self.old { refuted = self.new.refuted } }
    {
        if nogood.literals().is_empty() {
            self.refuted = Some(nogood.premises().copy()?);
        } else {
            self.is_lost = true;
        }
        Ok(())
    }

    /// Supposes something more, or looks at a plan.
    fn decide<R: Guarded + Drop>(
        &mut self,
        network: &Network<R>,
        premises: &Premises,
    ) -> Result<(), AllocError>
        requires means { AllMean R.value_of network.now.library.procedures.items }
        requires kept { IsKept (stored_of R.value_of network.now.library) network.now.cells }
        requires search { IsSearch (stored_of R.value_of network.now.library) network.now.cells
            premises.now self.old }
        ensures search { OnOk result (IsSearch (stored_of R.value_of network.now.library)
            network.now.cells premises.now self.new) }
        ensures asks { OnOk result (AsksTheSame self.old self.new) }
        ensures excuses { OnOk result (self.new.excuses ≡ self.old.excuses) }
    {
        if self.pace.is_over() && !self.is_enumeration() && self.spread.level() > 0 {
            self.pace.begin();
            return self.spread.restart();
        }
        match self.next_place() {
            Some(place) => {
                let first = self.first(place);
                self.tally.supposed = self.tally.supposed.saturating_add(1);
                self.is_lost = !self.spread.suppose(place, first)?;
            }
            None => {
                self.proposal = self.spread.propose(network, premises)?;
                self.is_lost = self.proposal.is_none();
            }
        }
        Ok(())
    }

    /// The place that is decided next, where one is open. Where points are to differ at the named
    /// cells, these are decided before all others: then two plans in a row can't be the same there.
    fn next_place(&self) -> Option<usize> {
        let first = if self.is_enumeration() {
            self.spread.pick_named(&self.question.named, &self.weights)
        } else {
            None
        };
        match first {
            Some(place) => Some(place),
            None => self.spread.pick(&self.question.named, &self.weights),
        }
    }

    /// What is supposed of a place before anything else: what it had in an earlier plan, until a
    /// plan is found or that failed often. Where the best is asked for, plans near the last one are
    /// looked at first: it is the best so far. Where that failed often each run only begins near
    /// it, and stays near what it tried last (Pipatsrisawat and Darwiche 2007).
    fn first(&self, place: usize) -> First {
        if self.expects && self.excuses.is_empty() && self.tally.contradictions < TRIALS {
            return First::Again;
        }
        match self.question.goal {
            Goal::Greatest(best) if best == place => First::Greatest,
            Goal::Least(_) | Goal::Greatest(_) => self.near_the_best(),
            Goal::Any | Goal::Differing => First::Least,
        }
    }

    /// What is supposed first of an element where the best is asked for: what the last plan has, or
    /// where that failed often what it was decided to be last.
    fn near_the_best(&self) -> First {
        if self.tally.contradictions < NEAR {
            First::Kept
        } else {
            First::Decided
        }
    }

    /// Looks at a plan; it is answered once all of it was looked at.
    fn check<R: Guarded + Drop>(
        &mut self,
        network: &Network<R>,
        premises: &Premises,
        proposal: Proposal,
        left: u64,
    ) -> Result<Option<Plan>, AllocError>
        requires means { AllMean R.value_of network.now.library.procedures.items }
        requires kept { IsKept (stored_of R.value_of network.now.library) network.now.cells }
        requires search { IsSearch (stored_of R.value_of network.now.library) network.now.cells
            premises.now self.old }
        requires proposed { IsProposed (stored_of R.value_of network.now.library) network.now.cells
            premises.now proposal }
        ensures search { OnOk result (IsSearch (stored_of R.value_of network.now.library)
            network.now.cells premises.now self.new) }
        ensures asks { OnOk result (AsksTheSame self.old self.new) }
        ensures found { IfOk result (λ found. IfFound found (λ plan.
            IsFound (stored_of R.value_of network.now.library) network.now.cells premises.now
            self.old plan.values.items plan.sides.items self.new)
            (self.new.excuses ≡ self.old.excuses)) }
    {
        let mut proposal = proposal;
        let progress = proposal.go_on(network, left);
        self.tally.steps = self.tally.steps.saturating_add(progress.calls);
        match progress.verdict {
            Verdict::Cut => {
                self.proposal = Some(proposal);
                Ok(None)
            }
            Verdict::No => {
                self.doubt();
                Ok(None)
            }
            Verdict::Yes => self.tell(network, premises, proposal),
        }
    }

    /// Calls all instances again, of which one was left out that denies a plan. That is done once.
    fn doubt(&mut self)
        ensures { self.new ≡ self.old }
    {
        self.is_lost = self.is_in_doubt;
        self.is_in_doubt = true;
        self.spread.wake_all();
    }

    /// Tells a plan; from now on points are excused that are no better, or no other. Where any
    /// points will do none are.
    fn tell<'x, R: Guarded + Drop>(
        &mut self,
        network: &'x Network<R>,
        premises: &'x Premises,
        proposal: Proposal,
    ) -> Result<Option<Plan>, AllocError>
        requires means { AllMean R.value_of network.now.library.procedures.items }
        requires kept { IsKept (stored_of R.value_of network.now.library) network.now.cells }
        requires search { IsSearch (stored_of R.value_of network.now.library) network.now.cells
            premises.now self.old }
        requires proposed { IsProposed (stored_of R.value_of network.now.library) network.now.cells
            premises.now proposal }
        requires single { AreSingle network.now.cells proposal.check.values }
        requires satisfied { Satisfy (stored_of R.value_of network.now.library) network.now.cells
            (set_of proposal.view) proposal.check.values }
        ensures search { OnOk result (IsSearch (stored_of R.value_of network.now.library)
            network.now.cells premises.now self.new) }
        ensures asks { OnOk result (AsksTheSame self.old self.new) }
        ensures found { IfOk result (λ found. IfFound found (λ plan.
            IsFound (stored_of R.value_of network.now.library) network.now.cells premises.now
            self.old plan.values.items plan.sides.items self.new)
            (self.new.excuses ≡ self.old.excuses)) }
    {
        let values = Vec::from_slice(self.spread.alloc(), proposal.values())?;
        if !self.excuse_values(network, premises, &values)? {
            return Ok(None);
        }
        let sides = proposal.into_sides();
        Ok(Some(Plan { values, sides }))
    }

    /// From now on points are excused that are no better than these, or no other, unless any
    /// points will do. False where they are excused already, or can't be.
    fn excuse_values<'x, R: Guarded + Drop>(
        &mut self,
        network: &'x Network<R>,
        premises: &'x Premises,
        values: &[Info],
    ) -> Result<bool, AllocError>
        requires search { IsSearch (stored_of R.value_of network.now.library) network.now.cells
            premises.now self.old }
        ensures search { OnOk result (IsSearch (stored_of R.value_of network.now.library)
            network.now.cells premises.now self.new) }
        ensures asks { OnOk result (AsksTheSame self.old self.new) }
        ensures excused { result ≡ Ok true → (facts : List Literal)
            × AreExcusing self.old.goal self.old.named values.now facts
            × (self.new.excuses ≡ excused_then self.old.goal self.old.excuses facts) }
        ensures still { result ≡ Ok false → self.new.excuses ≡ self.old.excuses }
    {
        let Some(facts) = self.question.facts(self.spread.alloc(), values)? else {
            self.is_lost = true;
            return Ok(false);
        };
        if let Some(told) = self.told_before(&facts)? {
            self.begin_excused(network, premises, told)?;
            return Ok(false);
        }
        if !self.excuse(&facts)? {
            self.is_lost = true;
            return Ok(false);
        }
        self.begin_told(network, premises, facts)?;
        Ok(true)
    }

    /// Begins a derivation with the facts of a plan, unless any points will do.
    fn begin_told<'x, R: Guarded + Drop>(
        &mut self,
        network: &'x Network<R>,
        premises: &'x Premises,
        facts: Vec<Literal>,
    ) -> Result<(), AllocError>
        requires search { IsSearch (stored_of R.value_of network.now.library) network.now.cells
            premises.now self.old }
        requires excused { (self.old.goal ≡ Goal.Any → ⊥)
            → Contains self.old.excuses facts.items }
        ensures search { OnOk result (IsSearch (stored_of R.value_of network.now.library)
            network.now.cells premises.now self.new) }
        ensures asks { OnOk result (AsksTheSame self.old self.new) }
        ensures excuses { OnOk result (self.new.excuses ≡ self.old.excuses) }
    {
        if self.is_for_any() {
            return Ok(());
        }
        self.begin_excused(network, premises, facts)
    }

    /// Begins a derivation with facts which are excused, and which are so.
    fn begin_excused<'x, R: Guarded + Drop>(
        &mut self,
        network: &'x Network<R>,
        premises: &'x Premises,
        facts: Vec<Literal>,
    ) -> Result<(), AllocError>
        requires search { IsSearch (stored_of R.value_of network.now.library) network.now.cells
            premises.now self.old }
        requires excused { Contains self.old.excuses facts.items }
        ensures search { OnOk result (IsSearch (stored_of R.value_of network.now.library)
            network.now.cells premises.now self.new) }
        ensures asks { OnOk result (AsksTheSame self.old self.new) }
        ensures excuses { OnOk result (self.new.excuses ≡ self.old.excuses) }
    {
        let nogood = excused(self.spread.alloc(), facts);
        let ground = self.spread.ground(network, premises);
        self.learning = Some(Learning::of_nogood(&ground, nogood)?);
        Ok(())
    }

    /// Just these facts, where points with them were told. That can be where one of them is that a
    /// cell is a symbol: what made it so is denied once it is told, and not that it is so.
    fn told_before(&self, facts: &[Literal]) -> Result<Option<Vec<Literal>>, AllocError>
        ensures { IfOk result (λ o. IfSome o (λ told. Contains self.now.excuses told.items)) }
    {
        if !are_undeniable(facts) {
            return Ok(None);
        }
        match find(&self.excuses, facts) {
            Some(at) => copy_at(self.spread.alloc(), &self.excuses, at),
            None => Ok(None),
        }
    }

    /// From now on points are excused that have all of these facts, unless any will do. Where the
    /// least or the greatest is asked for, those that were excused are among them. False where that
    /// isn't so.
    fn excuse(&mut self, facts: &[Literal]) -> Result<bool, AllocError>
        ensures others { self.new ≡ record self.old { excuses = self.new.excuses } }
        ensures excused { result ≡ Ok true
            → self.new.excuses ≡ excused_then self.old.goal self.old.excuses facts.now }
        ensures still { result ≡ Ok false → self.new.excuses ≡ self.old.excuses }
        ensures grows { result ≡ Ok true → Grow self.old.excuses self.new.excuses }
    {
        if self.is_for_any() {
            return Ok(true);
        }
        let more = Vec::from_slice(self.spread.alloc(), facts)?;
        if self.is_optimum() {
            return self.excuse_alone(more);
        }
        self.excuses.push(more)?;
        Ok(true)
    }

    fn is_for_any(&self) -> bool
        ensures { IsTrue result ↔ (self.now.goal ≡ Goal.Any) }
    {
        self.question.goal == Goal::Any
    }

    /// From now on just those points are excused that have all of these facts, where those that
    /// were excused are among them. False where that isn't so.
    fn excuse_alone(&mut self, facts: Vec<Literal>) -> Result<bool, AllocError>
        ensures others { self.new ≡ record self.old { excuses = self.new.excuses } }
        ensures alone { result ≡ Ok true → self.new.excuses ≡ facts.items ∷ [] }
        ensures still { result ≡ Ok false → self.new.excuses ≡ self.old.excuses }
        ensures grows { result ≡ Ok true → Grow self.old.excuses self.new.excuses }
    {
        if !are_better(&self.excuses, &facts) {
            return Ok(false);
        }
        self.excuses.clear();
        self.excuses.push(facts)?;
        Ok(true)
    }

    fn is_optimum(&self) -> bool
        ensures { result ≡ is_optimum self.now.goal }
    {
        matches!(self.question.goal, Goal::Least(_) | Goal::Greatest(_))
    }
}

/// Whether one of the facts is that a place is some symbol, which has no denial.
fn are_undeniable(facts: &[Literal]) -> bool {
    facts
        .iter()
        .any(|literal| matches!(literal.fact, Fact::Same(_)))
}

/// The number of just these facts among those that are excused.
fn find(excuses: &[Vec<Literal>], facts: &[Literal]) -> Option<usize> {
    for (at, told) in excuses.iter().enumerate() {
        if told.as_slice() == facts {
            return Some(at);
        }
    }
    None
}

/// The facts with this number again.
fn copy_at(
    alloc: Global,
    excuses: &[Vec<Literal>],
    at: usize,
) -> Result<Option<Vec<Literal>>, AllocError>
    ensures { IfOk result (λ o. IfSome o (λ facts.
        Contains (map (λ v. v.items) excuses.now) facts.items)) }
{
    let Some(told) = excuses.get(at) else {
        return Ok(None);
    };
    Ok(Some(Vec::from_slice(alloc, told)?))
}

/// Whether the only fact follows from the first of those before, and is another one.
fn is_better(before: &[Literal], facts: &[Literal]) -> bool
    ensures { IsTrue result → Imply before.now facts.now }
{
    if facts.len() != 1 {
        return false;
    }
    let Some(old) = before.first() else {
        return false;
    };
    let new = &facts[0];
    old.place == new.place && old.fact != new.fact && old.fact.implies(new.fact)
}

/// Whether that is so of all that was excused before.
fn are_better(excuses: &[Vec<Literal>], facts: &[Literal]) -> bool
    ensures { IsTrue result → All (λ before. Imply before.items facts.now) excuses.now }
{
    for before in excuses {
        if !is_better(before, facts) {
            return false;
        }
    }
    true
}
