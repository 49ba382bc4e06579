//! Settling: the first list of choices that isn't refuted, and the least solution with it.
ghost use Rattle.std.specs.Prelude.{◌≡◌, ◌⊎◌, ℕ, ◌+◌, ◌<◌, ◌≤◌, [], false, IsTrue, length};
ghost use Rattle.std.specs.Prelude.{Ok, Some, None, IfOk, IfSome, OnOk, OnErr};
ghost use Rattle.prop_numbers.specs.Sets.{Members, set_of};
ghost use Rattle.prop_procedures.specs.Kept.{AllMean};
ghost use Rattle.prop_cells.specs.Data.{IsFree};
ghost use Rattle.prop_cells.specs.Problems.{Problem};
ghost use Rattle.prop_scheduler.specs.Ends.{IfClash};
ghost use Rattle.prop_scheduler.specs.Live.{cells_of, line_of, library_of, problem_in};
ghost use Rattle.prop_scheduler.specs.Live.{potential_by, potential_in, IsLiveIn, OnlyRan};
ghost use Rattle.prop_scheduler.specs.Turns.{IsSettled};
ghost use Rattle.prop_scheduler.specs.Potential.{most_steps};
ghost use Rattle.prop_scheduler.specs.Shifts.{AreShifted, AreGrown};
ghost use Rattle.prop_nogoods.specs.Stores.{has_part};
ghost use Rattle.prop_amb.specs.Refuted.{IsRuledOut};
ghost use Rattle.prop_amb.specs.Search.{users_of, choices_in, believed_with, IsStand, IsSearch};
ghost use Rattle.prop_amb.specs.Search.{Moves};
ghost use Rattle.prop_amb.specs.Culprits.{IsBlamed};
ghost use Rattle.prop_amb.specs.Going.{work_on, MayCall, MayPass, Passes, Goes};
ghost use Rattle.prop_amb.specs.Settling.{IfContradiction, IsResting, Learns, HasSettled, HasUsed};
ghost use Rattle.prop_amb.specs.Moving.{deepened};
ghost use Rattle.prop_amb.specs.Resolving.{IsResolved};
ghost use Rattle.prop_amb.specs.inner.Refuting.{IsFound, MayStep, IfStep, IfRuledOut};
ghost use Rattle.prop_amb.specs.inner.Trying.{Attempted};

use crate::outcome::Outcome;
use crate::resolving::Resolved;
use crate::search::Search;
use prop_premises::PremiseSet;
use prop_procedures::Rule;
use prop_scheduler::{Ended, Live, Order, Run, alert_grown, alert_shifted, run};
use std::alloc::AllocError;

/// Looks whether a noted nogood is believed, or would be with the side of one choice more, and else
/// runs the network with the sides that are believed; a clash is noted. Where the list is refuted,
/// the clash is a noted nogood.
fn attempt<R: Rule + Drop, O: Order>(
    live: &mut Live<R>,
    search: &mut Search,
    order: &mut O,
    budget: u64,
) -> Result<Ended<Run>, AllocError>
    requires means { AllMean R.value_of live.old.network.library.procedures.items }
    requires alive { IsLiveIn R.value_of (set_of search.old.worldview) live.old }
    requires search { IsSearch (problem_in R.value_of live.old) search.old }
    ensures ran { OnlyRan live.old live.new }
    ensures alive { IsLiveIn R.value_of (set_of search.old.worldview) live.new }
    ensures only { search.new ≡ record search.old { listed = search.new.listed } }
    ensures listed { (m : Members) → IsTrue (has_part search.old.listed m)
        → IsTrue (has_part search.new.listed m) }
    ensures search { IsSearch (problem_in R.value_of live.old) search.new }
    ensures stand { IsStand search.new }
    ensures gone { IfOk result (λ r. Goes O.picks (library_of R.value_of live.old)
        (work_on search.old live.old order.old) r.steps
        (work_on search.new live.new order.new)) }
    ensures quiet { IfOk result (λ r. r.end ≡ Run.Quiet → IsSettled (library_of R.value_of live.old)
        (set_of search.old.worldview) (cells_of live.new)) }
    ensures rests { IfOk result (λ r. r.end ≡ Run.Quiet → line_of live.new ≡ []) }
    ensures unblocked { IfOk result (λ r. r.end ≡ Run.Quiet
        → has_part search.new.listed (set_of search.old.worldview) ≡ false) }
    ensures refuted { IfOk result (λ r. IfClash r.end (IsFound search.new)) }
    ensures spent { IfOk result (λ r. r.end ≡ Run.Spent → r.steps ≡ budget) }
    ensures left { IfOk result (λ r. r.end ≡ Run.Spent
        → MayCall (work_on search.new live.new order.new)) }
    ensures earned { IfOk result (λ r. r.end ≡ Run.Spent
        → r.steps < most_steps (problem_in R.value_of live.old)) }
    ensures steps { IfOk result (λ r. r.steps ≤ budget) }
    ensures at_rest { IfOk result (λ r. line_of live.old ≡ []
        → search.old.level ≡ length search.old.list
        → IsFree (set_of search.old.worldview) (cells_of live.old)
        → has_part search.old.listed (set_of search.old.worldview) ≡ false
        → (r.end ≡ Run.Quiet) × (r.steps ≡ 0)) }
    ensures falls { IfOk result (λ r.
        potential_by (problem_in R.value_of live.old) (set_of search.old.worldview) live.new
        + r.steps
        ≤ potential_in R.value_of (set_of search.old.worldview) live.old) }
    ensures few { IfOk result (λ r. r.steps ≤ most_steps (problem_in R.value_of live.old)) }
    ensures most { IfOk result (λ r. (r.steps ≡ 0)
        ⊎ (potential_in R.value_of (set_of search.old.worldview) live.old
        ≤ most_steps (problem_in R.value_of live.old))) }
{
    if let Some(nogood) = found(search)? {
        let end = Run::Clash(nogood);
        return Ok(Ended { end, steps: 0 });
    }
    let Ended { end, steps } = run(live, search.worldview(), order, budget)?;
    match end {
        Run::Quiet => {
            let end = Run::Quiet;
            Ok(Ended { end, steps })
        }
        Run::Spent => {
            let end = Run::Spent;
            Ok(Ended { end, steps })
        }
        Run::Clash(support) => {
            search.note(support.copy()?)?;
            let end = Run::Clash(support);
            Ok(Ended { end, steps })
        }
    }
}

/// The side of one choice more is believed, and of the cells of which more is believed then the
/// readers wait. After want of memory nothing has changed.
fn believe_more<R: Rule + Drop>(live: &mut Live<R>, search: &mut Search) -> Result<(), AllocError>
    requires left { search.old.level < length search.old.list }
    requires unblocked { has_part search.old.listed (set_of search.old.worldview) ≡ false }
    requires stand { IsStand search.old }
    requires alive { IsLiveIn R.value_of (set_of search.old.worldview) live.old }
    ensures network { live.new.network ≡ live.old.network }
    ensures alive { IsLiveIn R.value_of (set_of search.new.worldview) live.new }
    ensures ok { OnOk result (search.new
        ≡ record (deepened search.old) { worldview = search.new.worldview }) }
    ensures err { OnErr result (search.new ≡ search.old) }
    ensures search { (problem : Problem) → IsSearch problem search.old
        → IsSearch problem search.new }
    ensures stand { IsStand search.new }
    ensures grown { OnOk result (AreGrown (believed_with search.old) (believed_with search.new)
        (cells_of live.old) (length (cells_of live.old).kinds) (line_of live.old)
        (line_of live.new)) }
    ensures falls { potential_in R.value_of (set_of search.new.worldview) live.new
        ≤ potential_in R.value_of (set_of search.old.worldview) live.old }
{
    let before = search.deepen()?;
    alert_grown(live, &before, search.worldview());
    drop(before);
    Ok(())
}

/// Tries the list on which the choices stand: with the sides that are believed, and where nothing
/// waits then, with that of one choice more, until the list is refuted, a choice may be passed over
/// or the side of each choice is believed.
fn try_list<R: Rule + Drop, O: Order>(
    live: &mut Live<R>,
    search: &mut Search,
    order: &mut O,
    budget: u64,
) -> Result<Ended<Run>, AllocError>
    requires means { AllMean R.value_of live.old.network.library.procedures.items }
    requires alive { IsLiveIn R.value_of (set_of search.old.worldview) live.old }
    requires search { IsSearch (problem_in R.value_of live.old) search.old }
    ensures ran { OnlyRan live.old live.new }
    ensures alive { IsLiveIn R.value_of (set_of search.new.worldview) live.new }
    ensures only { search.new ≡ record search.old {
      level = search.new.level;
      listed = search.new.listed;
      worldview = search.new.worldview;
    } }
    ensures listed { (m : Members) → IsTrue (has_part search.old.listed m)
        → IsTrue (has_part search.new.listed m) }
    ensures search { IsSearch (problem_in R.value_of live.old) search.new }
    ensures stand { IsStand search.new }
    ensures refuted { IfOk result (λ r. IfClash r.end (IsFound search.new)) }
    ensures tried { IfOk result (λ r. Attempted O.picks (library_of R.value_of live.old)
        search.old (cells_of live.old) (line_of live.old) order.old budget r.end r.steps search.new
        (cells_of live.new) (line_of live.new) order.new) }
{
    let mut steps: u64 = 0;
    loop {
        let tried = attempt(live, search, order, budget - steps)?;
        steps += tried.steps;
        match tried.end {
            Run::Quiet => {
                if search.is_whole() {
                    let end = Run::Quiet;
                    return Ok(Ended { end, steps });
                }
                believe_more(live, search)?;
            }
            end => return Ok(Ended { end, steps }),
        }
    }
}

/// A noted nogood that is believed, or where there is none, one that would be with the side of one
/// choice more: none where no choice may go on. It changes nothing of what the search knows.
pub(crate) fn found(search: &mut Search) -> Result<Option<PremiseSet>, AllocError>
    ensures same { search.new ≡ search.old }
    ensures found { IfOk result (λ nogood. IfSome nogood (IsFound search.old)) }
    ensures none { result ≡ Ok None → MayPass search.old → ⊥ }
    ensures unblocked { result ≡ Ok None
        → has_part search.old.listed (set_of search.old.worldview) ≡ false }
    ensures stand { IsStand search.old }
{
    let Some(nogood) = search.blocked() else {
        search.pass_over();
        return search.refuted_next();
    };
    Ok(Some(nogood.copy()?))
}

/// What such a nogood shows: one that is believed is looked at from the last choice whose side it
/// holds, and with one that would be believed with the side of one choice more, that choice leaves
/// its side.
pub(crate) fn shown(search: &Search, nogood: PremiseSet) -> Result<Resolved, AllocError>
    requires { IsFound search.now nogood }
    ensures step { IfOk result (IfStep (MayStep search.now)) }
    ensures blamed { IfOk result (IfRuledOut (λ n. IsBlamed search.now (set_of n))) }
    ensures resolved { IfOk result (λ r. (problem : Problem) → IsSearch problem search.now
        → IsResolved problem search.now r) }
{
    if search.worldview().believes(&nogood) {
        let shown = search.resolve(nogood)?;
        return Ok(shown);
    }
    Ok(Resolved::Against(search.level(), nogood))
}

/// The choices go on to a later list, where a noted nogood is believed and a choice may leave its
/// side, or would be with the side of one choice more. Answers whether they did. After want of
/// memory nothing has changed.
fn go_on(search: &mut Search) -> Result<bool, AllocError>
    ensures premises { search.new.premises ≡ search.old.premises }
    ensures listed { search.new.listed ≡ search.old.listed }
    ensures search { (problem : Problem) → IsSearch problem search.old
        → IsSearch problem search.new }
    ensures stays { result ≡ Ok false → search.new ≡ search.old }
    ensures moves { IfOk result (λ moved. IsTrue moved → Passes search.old 1 search.new) }
{
    let Some(refuting) = found(search)? else {
        return Ok(false);
    };
    match shown(search, refuting)? {
        Resolved::RuledOut(_) => Ok(false),
        Resolved::Against(place, reason) => {
            drop(search.step(place, reason)?);
            Ok(true)
        }
    }
}

/// The choices go on as long as noted nogoods show that they have to, by so many moves at the most.
/// Answers by how many. After want of memory the moves that were made stay.
///
/// A move goes by the nogood that ends earliest, so none that ends before the choice that moves is
/// believed; nor is one after the move, which changes sides of that choice and later ones alone. So
/// the next move looks at nogoods from that choice on.
fn pass(search: &mut Search, most: u64) -> Result<u64, AllocError>
    ensures premises { search.new.premises ≡ search.old.premises }
    ensures listed { search.new.listed ≡ search.old.listed }
    ensures search { (problem : Problem) → IsSearch problem search.old
        → IsSearch problem search.new }
    ensures few { IfOk result (λ n. n ≤ most) }
    ensures moves { IfOk result (λ n. Passes search.old n search.new) }
{
    let mut moves = 0;
    while moves < most {
        if !go_on(search)? {
            return Ok(moves);
        }
        moves += 1;
    }
    Ok(moves)
}

/// What follows where a list was tried: an end, or the choices go on to a later list, and further
/// as far as noted nogoods ask for it, and of the cells that this shifts the readers and writers
/// wait. Each move is a step, and where there is no end at least one was made. Where no move is
/// allowed, that is an end too.
fn decide<R: Rule + Drop>(
    live: &mut Live<R>,
    search: &mut Search,
    tried: Run,
    most: u64,
) -> Result<Ended<Option<Outcome>>, AllocError>
    requires alive { IsLiveIn R.value_of (set_of search.old.worldview) live.old }
    requires search { IsSearch (problem_in R.value_of live.old) search.old }
    requires stand { IsStand search.old }
    requires refuted { IfClash tried (IsFound search.old) }
    ensures network { live.new.network ≡ live.old.network }
    ensures alive { IsLiveIn R.value_of (set_of search.new.worldview) live.new }
    ensures premises { search.new.premises ≡ search.old.premises }
    ensures listed { search.new.listed ≡ search.old.listed }
    ensures search { IsSearch (problem_in R.value_of live.old) search.new }
    ensures stand { IsStand search.new }
    ensures same { IfOk result (λ r. IfSome r.end (λ end. search.new ≡ search.old)) }
    ensures same_line { IfOk result (λ r.
        IfSome r.end (λ end. line_of live.new ≡ line_of live.old)) }
    ensures quiet { tried ≡ Run.Quiet
        → result ≡ Ok (record { end = Some Outcome.Settled; steps = 0 }) }
    ensures settled { IfOk result (λ r. r.end ≡ Some Outcome.Settled → tried ≡ Run.Quiet) }
    ensures contradiction { IfOk result (λ r. IfSome r.end (λ end. IfContradiction end
        (λ n. IsRuledOut (problem_in R.value_of live.old) (users_of search.old)
        (choices_in search.old) search.old.listed (set_of n)))) }
    ensures named { IfOk result (λ r. IfSome r.end (λ end.
        IfContradiction end (λ n. IsBlamed search.old (set_of n)))) }
    ensures unsettled { IfOk result (λ r. r.end ≡ Some Outcome.Unsettled →
        (tried ≡ Run.Spent) ⊎ ((most ≡ 0) × MayPass search.old)) }
    ensures some { IfOk result (λ r. r.end ≡ None → 1 ≤ r.steps) }
    ensures few { IfOk result (λ r. r.steps ≤ most) }
    ensures moves { IfOk result (λ r. r.end ≡ None → Passes search.old r.steps search.new) }
    ensures shifted { IfOk result (λ r. r.end ≡ None → AreShifted (believed_with search.old)
        (believed_with search.new) (cells_of live.old) (length (cells_of live.old).kinds)
        (line_of live.old) (line_of live.new)) }
{
    let nogood = match tried {
        Run::Quiet => {
            let end = Some(Outcome::Settled);
            return Ok(Ended { end, steps: 0 });
        }
        Run::Spent => {
            let end = Some(Outcome::Unsettled);
            return Ok(Ended { end, steps: 0 });
        }
        Run::Clash(nogood) => nogood,
    };
    match shown(search, nogood)? {
        Resolved::RuledOut(premises) => {
            let end = Some(Outcome::Contradiction(premises));
            Ok(Ended { end, steps: 0 })
        }
        Resolved::Against(place, reason) => {
            if most == 0 {
                let end = Some(Outcome::Unsettled);
                return Ok(Ended { end, steps: 0 });
            }
            let before = search.step(place, reason)?;
            let passed = pass(search, most - 1);
            alert_shifted(live, &before, search.worldview());
            drop(before);
            let steps = passed? + 1;
            Ok(Ended { end: None, steps })
        }
    }
}

/// Looks for the first list that isn't refuted, from the one on which the choices stand, and for
/// the least solution with it. The sides of the list are believed one after the other. Each call of
/// an instance is a step, and each move to a later list.
///
/// After want of memory the steps that were taken stay.
pub fn settle<R: Rule + Drop, O: Order>(
    live: &mut Live<R>,
    search: &mut Search,
    order: &mut O,
    budget: u64,
) -> Result<Ended<Outcome>, AllocError>
    requires means { AllMean R.value_of live.old.network.library.procedures.items }
    requires alive { IsLiveIn R.value_of (set_of search.old.worldview) live.old }
    requires search { IsSearch (problem_in R.value_of live.old) search.old }
    ensures ran { OnlyRan live.old live.new }
    ensures alive { IsLiveIn R.value_of (set_of search.new.worldview) live.new }
    ensures learns { Learns (problem_in R.value_of live.old) search.old search.new }
    ensures settled { IfOk result (λ r. r.end ≡ Outcome.Settled
        → HasSettled (library_of R.value_of live.old) (problem_in R.value_of live.old) search.new
        (cells_of live.new) (line_of live.new)) }
    ensures contradiction { IfOk result (λ r. IfContradiction r.end (λ n.
        IsRuledOut (problem_in R.value_of live.old) (users_of search.new) (choices_in search.new)
        search.new.listed (set_of n))) }
    ensures named { IfOk result (λ r.
        IfContradiction r.end (λ n. IsBlamed search.new (set_of n))) }
    ensures unsettled { IfOk result (λ r. r.end ≡ Outcome.Unsettled
        → HasUsed (problem_in R.value_of live.old) budget r.steps
        (work_on search.new live.new order.new)) }
    ensures steps { IfOk result (λ r. r.steps ≤ budget) }
    ensures moves { IfOk result (λ r. Moves (problem_in R.value_of live.old)
        (choices_in search.new) search.old.list search.new.list r.steps) }
    ensures falls { IfOk result (λ r. search.new.list ≡ search.old.list
        → potential_by (problem_in R.value_of live.old) (set_of search.new.worldview) live.new
        + r.steps
        ≤ potential_in R.value_of (set_of search.old.worldview) live.old) }
    ensures at_rest { IfOk result (λ r.
        IsResting search.old (cells_of live.old) (line_of live.old)
        → (r.end ≡ Outcome.Settled) × (r.steps ≡ 0)) }
    ensures gone { IfOk result (λ r. Goes O.picks (library_of R.value_of live.old)
        (work_on search.old live.old order.old) r.steps
        (work_on search.new live.new order.new)) }
{
    let mut steps: u64 = 0;
    loop {
        let Ended {
            end: tried,
            steps: calls,
        } = try_list(live, search, order, budget - steps)?;
        steps += calls;
        let Ended { end, steps: moves } = decide(live, search, tried, budget - steps)?;
        match end {
            Some(end) => return Ok(Ended { end, steps }),
            None => steps += moves,
        }
    }
}
