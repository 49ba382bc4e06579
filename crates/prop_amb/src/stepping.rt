//! One step of settling, told.
ghost use Rattle.std.specs.Prelude.{◌≡◌, IsTrue, IfOk};
ghost use Rattle.prop_numbers.specs.Sets.{Members, set_of};
ghost use Rattle.prop_procedures.specs.Kept.{AllMean};
ghost use Rattle.prop_scheduler.specs.Live.{cells_of, line_of, library_of, problem_in};
ghost use Rattle.prop_scheduler.specs.Live.{IsLiveIn, OnlyRan};
ghost use Rattle.prop_nogoods.specs.Stores.{has_part};
ghost use Rattle.prop_amb.specs.Search.{IsStand, IsSearch};
ghost use Rattle.prop_amb.specs.Going.{work_on, MayGoOn};
ghost use Rattle.prop_amb.specs.Stepping.{IsStepTo, Steps};
ghost use Rattle.prop_amb.specs.inner.Refuting.{IsFound};
ghost use Rattle.prop_amb.specs.inner.Stepping.{IsMove};

use crate::outcome::Outcome;
use crate::resolving::Resolved;
use crate::search::Search;
use crate::settling::{found, settle, shown};
use prop_premises::{Premise, PremiseSet, Worldview};
use prop_procedures::Rule;
use prop_scheduler::{Ended, Live, Order, alert_shifted, call_next};
use std::alloc::AllocError;

/// What a step was.
#[derive(Drop)]
pub enum Step {
    /// The waiting instance of this number was called.
    Called(usize),
    /// A choice moved.
    Moved(Move),
    /// No step is left: the choices stand on the first list that isn't refuted, and no instance
    /// waits.
    Settled,
    /// No step is left: every list is refuted, by these believed premises of the user's.
    Contradiction(PremiseSet),
}

/// A choice went to its next side, and all later ones to their first: for a noted nogood that was
/// believed, or as the first choice of which no side was, for one that would have been with it.
#[derive(Drop)]
pub struct Move {
    /// The choice's place among the choices.
    pub place: usize,
    /// The side that it left. The one that it went to has the next number.
    pub side: Premise,
    /// Why: premises that are refuted, among them the side that it left.
    pub nogood: PremiseSet,
    /// What was believed before.
    pub before: Worldview,
}

/// Takes one step of what `settle` does, and tells which: a call of an instance or a move of a
/// choice, or that none is left. What takes no step is done before it: a clash is noted, and where
/// nothing waits the side of one choice more is believed.
///
/// After want of memory a step was taken or none was.
pub fn step_once<R: Rule + Drop, O: Order>(
    live: &mut Live<R>,
    search: &mut Search,
    order: &mut O,
) -> Result<Step, AllocError>
    requires means { AllMean R.value_of live.old.network.library.procedures.items }
    requires alive { IsLiveIn R.value_of (set_of search.old.worldview) live.old }
    requires search { IsSearch (problem_in R.value_of live.old) search.old }
    ensures ran { OnlyRan live.old live.new }
    ensures alive { IsLiveIn R.value_of (set_of search.new.worldview) live.new }
    ensures premises { search.new.premises ≡ search.old.premises }
    ensures listed { (m : Members) → IsTrue (has_part search.old.listed m)
        → IsTrue (has_part search.new.listed m) }
    ensures search { IsSearch (problem_in R.value_of live.old) search.new }
    ensures stand { IsStand search.new }
    ensures told { IfOk result (λ step. Steps O.picks (library_of R.value_of live.old)
        (problem_in R.value_of live.old) (work_on search.old live.old order.old) step
        (work_on search.new live.new order.new)) }
{
    let Ended { end, steps: _ } = settle(live, search, order, 0)?;
    match end {
        Outcome::Settled => Ok(Step::Settled),
        Outcome::Contradiction(premises) => Ok(Step::Contradiction(premises)),
        Outcome::Unsettled => take_step(live, search, order),
    }
}

/// Takes a step where one may be taken.
fn take_step<R: Rule + Drop, O: Order>(
    live: &mut Live<R>,
    search: &mut Search,
    order: &mut O,
) -> Result<Step, AllocError>
    requires means { AllMean R.value_of live.old.network.library.procedures.items }
    requires alive { IsLiveIn R.value_of (set_of search.old.worldview) live.old }
    requires search { IsSearch (problem_in R.value_of live.old) search.old }
    requires may { MayGoOn (work_on search.old live.old order.old) }
    ensures ran { OnlyRan live.old live.new }
    ensures alive { IsLiveIn R.value_of (set_of search.new.worldview) live.new }
    ensures premises { search.new.premises ≡ search.old.premises }
    ensures listed { search.new.listed ≡ search.old.listed }
    ensures search { IsSearch (problem_in R.value_of live.old) search.new }
    ensures stand { IsStand search.new }
    ensures told { IfOk result (λ step. IsStepTo O.picks (library_of R.value_of live.old)
        (problem_in R.value_of live.old) (work_on search.old live.old order.old) step
        (work_on search.new live.new order.new)) }
{
    match found(search)? {
        Some(nogood) => move_for(live, search, nogood),
        None => Ok(Step::Called(call_next(live, search.worldview(), order)?)),
    }
}

/// What follows from a noted nogood that is believed, or would be with the side of one choice more:
/// a choice goes on, or every list is refuted.
fn move_for<R: Rule + Drop>(
    live: &mut Live<R>,
    search: &mut Search,
    nogood: PremiseSet,
) -> Result<Step, AllocError>
    requires alive { IsLiveIn R.value_of (set_of search.old.worldview) live.old }
    requires search { IsSearch (problem_in R.value_of live.old) search.old }
    requires stand { IsStand search.old }
    requires found { IsFound search.old nogood }
    ensures network { live.new.network ≡ live.old.network }
    ensures alive { IsLiveIn R.value_of (set_of search.new.worldview) live.new }
    ensures premises { search.new.premises ≡ search.old.premises }
    ensures listed { search.new.listed ≡ search.old.listed }
    ensures search { IsSearch (problem_in R.value_of live.old) search.new }
    ensures stand { IsStand search.new }
    ensures told { IfOk result (λ step. IsMove (problem_in R.value_of live.old) search.old
        (cells_of live.old) (line_of live.old) step search.new (line_of live.new)) }
{
    match shown(search, nogood)? {
        Resolved::RuledOut(premises) => Ok(Step::Contradiction(premises)),
        Resolved::Against(place, reason) => {
            let nogood = reason.copy()?;
            let side = search.side_at(place);
            let before = search.step(place, reason)?;
            alert_shifted(live, &before, search.worldview());
            Ok(Step::Moved(Move {
                place,
                side,
                nogood,
                before,
            }))
        }
    }
}
