//! One step of a run: the next call.
ghost use Rattle.std.specs.Prelude.{◌<◌, length, IfOk};
ghost use Rattle.prop_numbers.specs.Sets.{set_of};
ghost use Rattle.prop_procedures.specs.Kept.{AllMean};
ghost use Rattle.prop_cells.specs.Data.{IsFree};
ghost use Rattle.prop_scheduler.specs.Turns.{CallsNext};
ghost use Rattle.prop_scheduler.specs.Live.{cells_of, line_of, library_of, IsLiveIn, OnlyRan};

use crate::live::Live;
use crate::order::Order;
use crate::runs::turn;
use prop_premises::Worldview;
use prop_procedures::Rule;
use std::alloc::AllocError;

/// Calls the waiting instance that the order picks, and answers its number. After want of memory it
/// still waits.
pub fn call_next<R: Rule + Drop, O: Order>(
    live: &mut Live<R>,
    worldview: &Worldview,
    order: &mut O,
) -> Result<usize, AllocError>
    requires waits { 0 < length (line_of live.old) }
    requires means { AllMean R.value_of live.old.network.library.procedures.items }
    requires alive { IsLiveIn R.value_of (set_of worldview.now) live.old }
    requires free { IsFree (set_of worldview.now) (cells_of live.old) }
    ensures ran { OnlyRan live.old live.new }
    ensures alive { IsLiveIn R.value_of (set_of worldview.now) live.new }
    ensures called { IfOk result (λ called. CallsNext O.picks (library_of R.value_of live.old)
        (set_of worldview.now) called (cells_of live.old) (line_of live.old) order.old
        (cells_of live.new) (line_of live.new) order.new) }
{
    live.seen.look(&live.network, worldview)?;
    let place = order.pick(live.agenda.waiting());
    let called = live.agenda.at(place);
    turn(live, worldview, place)?;
    Ok(called)
}
