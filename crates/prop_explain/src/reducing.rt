//! The reduction of an explanation: premises are left out, one after the other, as long as what is
//! left entails the value.
ghost use Rattle.std.specs.Prelude.{◌≡◌, ◌≢◌, ◌<◌, ◌≤◌, ◌*◌, true, false, ℕ, List};
ghost use Rattle.std.specs.Prelude.{length, IfOk};
ghost use Rattle.prop_lattice.specs.Order.{Below};
ghost use Rattle.std.specs.List.Sorted.{IsStrictlyIncreasing};
ghost use Rattle.prop_numbers.specs.Sets.{Members, set_of, without, IsPart};
ghost use Rattle.prop_procedures.specs.Kept.{AllMean};
ghost use Rattle.prop_contents.specs.Contents.{beliefs};
ghost use Rattle.prop_cells.specs.Problems.{Entails, IsConsistent};
ghost use Rattle.prop_cells.specs.inner.Problems.{Premises};
ghost use Rattle.prop_cells.specs.Reach.{Explains};
ghost use Rattle.prop_explain.specs.Irreducible.{IsIrreducible, IfLeast, IfNotReduced, OfCore};
ghost use Rattle.prop_explain.specs.inner.Ready.{Called, StaysReady};
ghost use Rattle.prop_explain.specs.Trying.{Tries, TriesOf};
ghost use Rattle.prop_scheduler.specs.Live.{cells_of, line_of, library_of, problem_in};
ghost use Rattle.prop_scheduler.specs.Live.{IsLiveIn, IsReady, OnlyRan};
ghost use Rattle.prop_scheduler.specs.Agendas.{all_alerted, numbers_below};
ghost use Rattle.prop_scheduler.specs.Turns.{IsSettled, Turns};
ghost use Rattle.prop_scheduler.specs.Potential.{most_steps};

use prop_lattice::{Info, Partial};
use prop_premises::{Premise, PremiseSet, Worldview};
use prop_procedures::Rule;
use prop_scheduler::{Ended, Live, Order, Run, alert_shifted, run, wake_all};
use prop_tms::Supported;
use std::alloc::AllocError;

/// A value with premises that entail it.
#[derive(Drop)]
pub enum Core {
    /// None of the premises can be left out.
    Least(Supported<Info>),
    /// The budget was used before each premise was tried.
    NotReduced(Supported<Info>),
}

/// What is left of a support.
#[derive(Drop)]
struct Left {
    support: PremiseSet,
    /// Each premise was tried; else the budget was used before that.
    is_least: bool,
}

/// That a cell holds so much.
#[derive(Clone, Copy)]
struct Claim {
    cell: usize,
    value: Info,
}

/// What is left of a support so far, and the worldview in which the network was run last.
#[derive(Drop)]
struct Trial {
    claim: Claim,
    support: PremiseSet,
    believed: Worldview,
}

/// What came of a set of premises.
#[derive(Clone, Copy, PartialEq, Eq)]
enum Tried {
    /// It entails the value.
    Enough,
    /// It doesn't.
    TooFew,
    /// The budget was used before that was known.
    Spent,
}

/// What is believed of a cell of a network at rest, with premises of which none can be left out.
/// The premises of the explanation are tried in order of number: one is left out where the others
/// are enough. For a try those wait that read or write a cell of which something else is believed
/// than in the try before. Each call of an instance is a step.
///
/// Afterwards every instance waits and every cell is watched, after want of memory too: first those
/// that wait after the last try, and then the others, by number.
pub fn reduce<R: Rule + Drop, O: Order>(
    live: &mut Live<R>,
    order: &mut O,
    worldview: &Worldview,
    cell: usize,
    budget: u64,
) -> Result<Ended<Core>, AllocError>
    requires means { AllMean R.value_of live.old.network.library.procedures.items }
    requires ready { IsReady (library_of R.value_of live.old) (cells_of live.old)
        live.old.agenda }
    requires cell { cell < length (cells_of live.old).kinds }
    requires settled { IsSettled (library_of R.value_of live.old) (set_of worldview.now)
        (cells_of live.old) }
    ensures ran { OnlyRan live.old live.new }
    ensures alive { (s : Premises) → IsLiveIn R.value_of s live.new }
    ensures explains { IfOk result (λ r. OfCore r.end (λ v s.
        (v ≡ beliefs (set_of worldview.now) (cells_of live.old).contents cell)
        × Explains (problem_in R.value_of live.old) (set_of worldview.now) cell v (set_of s))) }
    ensures least { IfOk result (λ r. IfLeast r.end (λ v s.
        IsIrreducible (problem_in R.value_of live.old) (set_of s) cell v)) }
    ensures spent { IfOk result (λ r. IfNotReduced r.end (λ v s. r.steps ≡ budget)) }
    ensures steps { IfOk result (λ r. r.steps ≤ budget) }

    // The steps are those of the tries. The budget was used only where it is less than a try of
    // each premise of some explanation may take.
    ensures tries { IfOk result (λ r. (line : List ℕ)
        × Tries O.picks (library_of R.value_of live.old) (set_of worldview.now) (cells_of live.old)
        (line_of live.old) order.old r.steps (cells_of live.new) line order.new
        × (line_of live.new
        ≡ all_alerted line (numbers_below (length (cells_of live.new).instances)))) }
    ensures earned { IfOk result (λ r.
        IfNotReduced r.end (λ v s. (ps : List ℕ) × IsStrictlyIncreasing ps
        × Explains (problem_in R.value_of live.old) (set_of worldview.now) cell v (set_of ps)
        × (budget < length ps * most_steps (problem_in R.value_of live.old)))) }
{
    let reduced = explained_least(live, order, worldview, cell, budget);
    wake_all(live);
    reduced
}

/// The reduction itself, after which some instances wait, in the worldview that was tried last.
fn explained_least<R: Rule + Drop, O: Order>(
    live: &mut Live<R>,
    order: &mut O,
    worldview: &Worldview,
    cell: usize,
    budget: u64,
) -> Result<Ended<Core>, AllocError>
    requires means { AllMean R.value_of live.old.network.library.procedures.items }
    requires ready { IsReady (library_of R.value_of live.old) (cells_of live.old)
        live.old.agenda }
    requires cell { cell < length (cells_of live.old).kinds }
    requires settled { IsSettled (library_of R.value_of live.old) (set_of worldview.now)
        (cells_of live.old) }
    ensures same { live.new.network.library ≡ live.old.network.library }
    ensures left { StaysReady (library_of R.value_of live.old) (cells_of live.old)
        (cells_of live.new) live.new.agenda }
    ensures explains { IfOk result (λ r. OfCore r.end (λ v s.
        (v ≡ beliefs (set_of worldview.now) (cells_of live.old).contents cell)
        × Explains (problem_in R.value_of live.old) (set_of worldview.now) cell v (set_of s))) }
    ensures least { IfOk result (λ r. IfLeast r.end (λ v s.
        IsIrreducible (problem_in R.value_of live.old) (set_of s) cell v)) }
    ensures spent { IfOk result (λ r. IfNotReduced r.end (λ v s. r.steps ≡ budget)) }
    ensures steps { IfOk result (λ r. r.steps ≤ budget) }
    ensures tries { IfOk result (λ r.
        Tries O.picks (library_of R.value_of live.old) (set_of worldview.now) (cells_of live.old)
        (line_of live.old) order.old r.steps (cells_of live.new) (line_of live.new) order.new) }
    ensures earned { IfOk result (λ r.
        IfNotReduced r.end (λ v s. (ps : List ℕ) × IsStrictlyIncreasing ps
        × Explains (problem_in R.value_of live.old) (set_of worldview.now) cell v (set_of ps)
        × (budget < length ps * most_steps (problem_in R.value_of live.old)))) }
{
    let why = live.network().explanation(cell, worldview)?;
    let alone = Worldview::of(live.alloc(), &why.support)?;
    alert_shifted(live, worldview, &alone);
    drop(alone);
    let Ended { end: left, steps } = left_of(live, order, &why, cell, budget)?;
    let reduced = Supported {
        value: why.value,
        support: left.support,
    };
    if left.is_least {
        let end = Core::Least(reduced);
        return Ok(Ended { end, steps });
    }
    let end = Core::NotReduced(reduced);
    Ok(Ended { end, steps })
}

/// What is left of the support of a value when each of its premises was tried, or the budget was
/// used. The network is under way in that support, and then in the set that was tried last.
fn left_of<R: Rule + Drop, O: Order>(
    live: &mut Live<R>,
    order: &mut O,
    why: &Supported<Info>,
    cell: usize,
    budget: u64,
) -> Result<Ended<Left>, AllocError>
    requires means { AllMean R.value_of live.old.network.library.procedures.items }
    requires alive { IsLiveIn R.value_of (set_of why.now.support) live.old }
    requires cell { cell < length (cells_of live.old).kinds }
    requires entails { Entails (problem_in R.value_of live.old) (set_of why.now.support) cell
        why.now.value }
    requires consistent { IsConsistent (problem_in R.value_of live.old)
        (set_of why.now.support) }
    ensures same { live.new.network.library ≡ live.old.network.library }
    ensures left { StaysReady (library_of R.value_of live.old) (cells_of live.old)
        (cells_of live.new) live.new.agenda }
    ensures part { IfOk result (λ r. IsPart (set_of r.end.support) (set_of why.now.support)) }
    ensures entails { IfOk result (λ r. Entails (problem_in R.value_of live.old)
        (set_of r.end.support) cell why.now.value) }
    ensures least { IfOk result (λ r. r.end.is_least ≡ true
        → IsIrreducible (problem_in R.value_of live.old) (set_of r.end.support) cell
        why.now.value) }
    ensures spent { IfOk result (λ r. r.end.is_least ≡ false → r.steps ≡ budget) }
    ensures steps { IfOk result (λ r. r.steps ≤ budget) }
    ensures earned { IfOk result (λ r. r.end.is_least ≡ false
        → budget < length why.now.support * most_steps (problem_in R.value_of live.old)) }
    ensures in_order { IfOk result (λ r. IsStrictlyIncreasing why.now.support) }
    ensures tries { IfOk result (λ r. (sets : List Members)
        × TriesOf O.picks (library_of R.value_of live.old) (set_of why.now.support)
        (cells_of live.old) (line_of live.old) order.old sets r.steps (cells_of live.new)
        (line_of live.new) order.new) }
{
    let support = why.support.copy()?;
    let believed = Worldview::of(live.alloc(), &support)?;
    let claim = Claim {
        cell,
        value: why.value,
    };
    let mut trial = Trial {
        claim,
        support,
        believed,
    };
    let mut steps: u64 = 0;
    for premise in why.support.iter() {
        let tried = leave_out(live, order, &mut trial, premise, budget - steps)?;
        steps += tried.steps;
        match tried.end {
            Tried::Enough => {}
            Tried::TooFew => {}
            Tried::Spent => return Ok(trial.ended(false, steps)),
        }
    }
    Ok(trial.ended(true, steps))
}

impl Trial {
    /// What is left, after so many steps.
    fn ended(self, is_least: bool, steps: u64) -> Ended<Left>
        ensures support { result.end.support ≡ self.support }
        ensures is_least { result.end.is_least ≡ is_least }
        ensures steps { result.steps ≡ steps }
    {
        let support = self.support;
        let end = Left { support, is_least };
        Ended { end, steps }
    }
}

/// Tries what is left without one of its premises, which is left out where the others are enough.
fn leave_out<R: Rule + Drop, O: Order>(
    live: &mut Live<R>,
    order: &mut O,
    trial: &mut Trial,
    premise: Premise,
    budget: u64,
) -> Result<Ended<Tried>, AllocError>
    requires means { AllMean R.value_of live.old.network.library.procedures.items }
    requires alive { IsLiveIn R.value_of (set_of trial.old.believed) live.old }
    requires cell { trial.old.claim.cell < length (cells_of live.old).kinds }
    requires consistent { IsConsistent (problem_in R.value_of live.old)
        (set_of trial.old.support) }
    ensures same { live.new.network.library ≡ live.old.network.library }
    ensures left { StaysReady (library_of R.value_of live.old) (cells_of live.old)
        (cells_of live.new) live.new.agenda }
    ensures claim { trial.new.claim ≡ trial.old.claim }
    ensures believed { IfOk result (λ _. set_of trial.new.believed
        ≡ without (set_of trial.old.support) premise) }
    ensures alive { IfOk result (λ _. IsLiveIn R.value_of (set_of trial.new.believed) live.new) }
    ensures enough { IfOk result (λ r. r.end ≡ Tried.Enough
        → (set_of trial.new.support ≡ without (set_of trial.old.support) premise)
        × Entails (problem_in R.value_of live.old) (without (set_of trial.old.support) premise)
        trial.old.claim.cell trial.old.claim.value) }
    ensures too_few { IfOk result (λ r. r.end ≡ Tried.TooFew
        → (trial.new.support ≡ trial.old.support)
        × ¬ (Entails (problem_in R.value_of live.old) (without (set_of trial.old.support) premise)
        trial.old.claim.cell trial.old.claim.value)) }
    ensures spent { IfOk result (λ r. r.end ≡ Tried.Spent
        → (trial.new.support ≡ trial.old.support) × (r.steps ≡ budget)
        × (budget < most_steps (problem_in R.value_of live.old))) }
    ensures falls { IfOk result (λ r. r.steps ≤ most_steps (problem_in R.value_of live.old)) }
    ensures steps { IfOk result (λ r. r.steps ≤ budget) }
    ensures called { IfOk result (λ r. Called O.picks (library_of R.value_of live.old)
        (set_of trial.old.believed) (without (set_of trial.old.support) premise)
        (cells_of live.old) (line_of live.old) order.old r.steps (cells_of live.new)
        (line_of live.new) order.new) }
{
    let less = trial.support.without(premise)?;
    let tried = try_in(live, order, trial, &less, budget)?;
    match tried.end {
        Tried::Enough => trial.support = less,
        Tried::TooFew => drop(less),
        Tried::Spent => drop(less),
    }
    Ok(tried)
}

/// Runs the network in the worldview of these premises, and tells whether the claim is believed
/// there.
fn try_in<R: Rule + Drop, O: Order>(
    live: &mut Live<R>,
    order: &mut O,
    trial: &mut Trial,
    less: &PremiseSet,
    budget: u64,
) -> Result<Ended<Tried>, AllocError>
    requires means { AllMean R.value_of live.old.network.library.procedures.items }
    requires alive { IsLiveIn R.value_of (set_of trial.old.believed) live.old }
    requires cell { trial.old.claim.cell < length (cells_of live.old).kinds }
    requires consistent { IsConsistent (problem_in R.value_of live.old) (set_of less.now) }
    ensures same { live.new.network.library ≡ live.old.network.library }
    ensures left { StaysReady (library_of R.value_of live.old) (cells_of live.old)
        (cells_of live.new) live.new.agenda }
    ensures others { trial.new ≡ record trial.old { believed = trial.new.believed } }
    ensures believed { IfOk result (λ _. trial.new.believed ≡ less.now) }
    ensures alive { IfOk result (λ _. IsLiveIn R.value_of (set_of less.now) live.new) }
    ensures enough { IfOk result (λ r. r.end ≡ Tried.Enough
        → Entails (problem_in R.value_of live.old) (set_of less.now) trial.old.claim.cell
        trial.old.claim.value) }
    ensures too_few { IfOk result (λ r. r.end ≡ Tried.TooFew
        → ¬ (Entails (problem_in R.value_of live.old) (set_of less.now) trial.old.claim.cell
        trial.old.claim.value)) }
    ensures spent { IfOk result (λ r. r.end ≡ Tried.Spent → r.steps ≡ budget) }
    ensures earned { IfOk result (λ r. r.end ≡ Tried.Spent
        → budget < most_steps (problem_in R.value_of live.old)) }
    ensures falls { IfOk result (λ r. r.steps ≤ most_steps (problem_in R.value_of live.old)) }
    ensures steps { IfOk result (λ r. r.steps ≤ budget) }
    ensures called { IfOk result (λ r. Called O.picks (library_of R.value_of live.old)
        (set_of trial.old.believed) (set_of less.now) (cells_of live.old) (line_of live.old)
        order.old r.steps (cells_of live.new) (line_of live.new) order.new) }
{
    let next = Worldview::of(live.alloc(), less)?;
    alert_shifted(live, &trial.believed, &next);
    trial.believed = next;
    attempt(live, order, &trial.believed, trial.claim, budget)
}

/// Runs the network in the worldview, and tells whether the claim is believed there.
fn attempt<R: Rule + Drop, O: Order>(
    live: &mut Live<R>,
    order: &mut O,
    worldview: &Worldview,
    claim: Claim,
    budget: u64,
) -> Result<Ended<Tried>, AllocError>
    requires means { AllMean R.value_of live.old.network.library.procedures.items }
    requires alive { IsLiveIn R.value_of (set_of worldview.now) live.old }
    requires cell { claim.cell < length (cells_of live.old).kinds }
    requires consistent { IsConsistent (problem_in R.value_of live.old) (set_of worldview.now) }
    ensures same { live.new.network.library ≡ live.old.network.library }
    ensures left { StaysReady (library_of R.value_of live.old) (cells_of live.old)
        (cells_of live.new) live.new.agenda }
    ensures alive { IsLiveIn R.value_of (set_of worldview.now) live.new }
    ensures enough { IfOk result (λ r. r.end ≡ Tried.Enough
        → Entails (problem_in R.value_of live.old) (set_of worldview.now) claim.cell claim.value) }
    ensures too_few { IfOk result (λ r. r.end ≡ Tried.TooFew
        → ¬ (Entails (problem_in R.value_of live.old) (set_of worldview.now) claim.cell
        claim.value)) }
    ensures falls { IfOk result (λ r. r.steps ≤ most_steps (problem_in R.value_of live.old)) }
    ensures turns { IfOk result (λ r.
        Turns O.picks (library_of R.value_of live.old) (set_of worldview.now) (cells_of live.old)
        (line_of live.old) order.old r.steps (cells_of live.new) (line_of live.new) order.new) }
    ensures spent { IfOk result (λ r. r.end ≡ Tried.Spent → r.steps ≡ budget) }
    ensures earned { IfOk result (λ r. r.end ≡ Tried.Spent
        → budget < most_steps (problem_in R.value_of live.old)) }
    ensures steps { IfOk result (λ r. r.steps ≤ budget) }
{
    let Ended { end, steps } = run(live, worldview, order, budget)?;
    let tried = match end {
        Run::Quiet => enough(live.network().belief(claim.cell, worldview), claim.value),
        Run::Clash(_) => Tried::TooFew,
        Run::Spent => Tried::Spent,
    };
    Ok(Ended { end: tried, steps })
}

/// Whether what is believed says as much as the value.
fn enough(believed: Info, value: Info) -> Tried
    ensures enough { result ≡ Tried.Enough → Below value believed }
    ensures too_few { result ≡ Tried.TooFew → ¬ (Below value believed) }
    ensures known { result ≢ Tried.Spent }
{
    if believed.implies(value) {
        Tried::Enough
    } else {
        Tried::TooFew
    }
}
