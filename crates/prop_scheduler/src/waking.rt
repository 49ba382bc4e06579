//! Another worldview for a network under way.
ghost use Rattle.std.specs.Prelude.{◌≡◌, ◌≤◌, length};
ghost use Rattle.prop_numbers.specs.Sets.{set_of, IsPart};
ghost use Rattle.prop_procedures.specs.Kept.{stored_of};
ghost use Rattle.prop_contents.specs.Knowing.{AreBeliefs};
ghost use Rattle.prop_cells.specs.inner.Problems.{Premises};
ghost use Rattle.prop_cells.specs.Forgetting.{forgotten};
ghost use Rattle.prop_scheduler.specs.Agendas.{all_alerted, numbers_below};
ghost use Rattle.prop_scheduler.specs.Turns.{IsUnderWay};
ghost use Rattle.prop_scheduler.specs.Watching.{IsWatched};
ghost use Rattle.prop_scheduler.specs.Shifts.{AreShifted, AreGrown};
ghost use Rattle.prop_scheduler.specs.Live.{cells_of, line_of, library_of, potential_in};
ghost use Rattle.prop_scheduler.specs.Live.{IsLiveIn, IsReady};
ghost use Rattle.prop_scheduler.specs.inner.Potential.{potential_of};

use crate::agenda::Agenda;
use crate::live::Live;
use prop_cells::{Known, Network};
use prop_premises::{Premise, Shift, Worldview};
use prop_procedures::Rule;

/// Every instance waits and every cell is watched, so the network is under way in whatever
/// worldview. It takes no memory.
pub fn wake_all<R: Rule + Drop>(live: &mut Live<R>)
    requires ready { IsReady (library_of R.value_of live.old) (cells_of live.old)
        live.old.agenda }
    ensures network { live.new.network ≡ live.old.network }
    ensures alive { (s : Premises) → IsLiveIn R.value_of s live.new }
    ensures line { line_of live.new
        ≡ all_alerted (line_of live.old) (numbers_below (length (cells_of live.new).instances)) }
{
    live.agenda.alert_first(live.network.instances());
    live.agenda.watch_first(live.network.cells());
}

/// A premise is forgotten: the statements under it go, and the entries that rest on it. Then every
/// instance waits and every cell is watched. It takes no memory.
pub fn purge<R: Rule + Drop>(live: &mut Live<R>, premise: Premise)
    requires ready { IsReady (library_of R.value_of live.old) (cells_of live.old)
        live.old.agenda }
    ensures same { live.new.network.library ≡ live.old.network.library }
    ensures forgotten { cells_of live.new ≡ forgotten premise (cells_of live.old) }
    ensures alive { (s : Premises) → IsLiveIn R.value_of s live.new }
    ensures line { line_of live.new
        ≡ all_alerted (line_of live.old) (numbers_below (length (cells_of live.new).instances)) }
{
    live.network.purge(premise);
    live.seen.known.clear();
    wake_all(live);
}

/// Each cell that shifts is watched, and its readers and writers wait. What is known of the first
/// worldview is known of the second from then on. It takes no memory.
fn alert_along<R: Rule + Drop>(
    network: &Network<R>,
    agenda: &mut Agenda,
    shift: &Shift<'_>,
    known: &mut Known,
)
    requires room { length network.now.cells.instances ≤ agenda.old.room }
    requires cells { length network.now.cells.kinds ≤ agenda.old.cells }
    requires known { AreBeliefs (set_of shift.now.before.now) network.now.cells.contents known.old }
    requires under_way { IsUnderWay (stored_of R.value_of network.now.library)
        (set_of shift.now.before.now) network.now.cells agenda.old.line }
    requires watched { IsWatched (set_of shift.now.before.now) network.now.cells
        agenda.old.watched }
    ensures room { agenda.new.room ≡ agenda.old.room }
    ensures cells { agenda.new.cells ≡ agenda.old.cells }
    ensures known { AreBeliefs (set_of shift.now.after.now) network.now.cells.contents known.new }
    ensures under_way { IsUnderWay (stored_of R.value_of network.now.library)
        (set_of shift.now.after.now) network.now.cells agenda.new.line }
    ensures watched { IsWatched (set_of shift.now.after.now) network.now.cells agenda.new.watched }
    ensures shifted { AreShifted (set_of shift.now.before.now) (set_of shift.now.after.now)
        network.now.cells (length network.now.cells.kinds) agenda.old.line agenda.new.line }
{
    let count = network.cells();
    let mut cell = network.next_shifted(0, shift, known);
    while cell < count {
        agenda.alert_all(network.readers(cell));
        agenda.alert_all(network.writers(cell));
        agenda.watch(cell);
        cell = network.next_shifted(cell + 1, shift, known);
    }
}

/// The same where the second worldview believes all that the first does: the writers need not wait,
/// since what they said is still said. So the potential doesn't rise.
fn alert_grown_along<R: Rule + Drop>(
    network: &Network<R>,
    agenda: &mut Agenda,
    shift: &Shift<'_>,
    known: &mut Known,
)
    requires room { length network.now.cells.instances ≤ agenda.old.room }
    requires cells { length network.now.cells.kinds ≤ agenda.old.cells }
    requires known { AreBeliefs (set_of shift.now.before.now) network.now.cells.contents known.old }
    requires more { IsPart (set_of shift.now.before.now) (set_of shift.now.after.now) }
    requires under_way { IsUnderWay (stored_of R.value_of network.now.library)
        (set_of shift.now.before.now) network.now.cells agenda.old.line }
    requires watched { IsWatched (set_of shift.now.before.now) network.now.cells
        agenda.old.watched }
    ensures room { agenda.new.room ≡ agenda.old.room }
    ensures cells { agenda.new.cells ≡ agenda.old.cells }
    ensures known { AreBeliefs (set_of shift.now.after.now) network.now.cells.contents known.new }
    ensures under_way { IsUnderWay (stored_of R.value_of network.now.library)
        (set_of shift.now.after.now) network.now.cells agenda.new.line }
    ensures watched { IsWatched (set_of shift.now.after.now) network.now.cells agenda.new.watched }
    ensures grown { AreGrown (set_of shift.now.before.now) (set_of shift.now.after.now)
        network.now.cells (length network.now.cells.kinds) agenda.old.line agenda.new.line }
    ensures falls { potential_of (stored_of R.value_of network.now.library)
        (set_of shift.now.after.now) network.now.cells agenda.new.line
        ≤ potential_of (stored_of R.value_of network.now.library) (set_of shift.now.before.now)
        network.now.cells agenda.old.line }
{
    let count = network.cells();
    let mut cell = network.next_shifted(0, shift, known);
    while cell < count {
        agenda.alert_all(network.readers(cell));
        agenda.watch(cell);
        cell = network.next_shifted(cell + 1, shift, known);
    }
}

/// Each cell that the second worldview believes something else of than the first is watched, and
/// its readers and writers wait, so a network that was under way in the first is so in the second.
/// What is known of beliefs in the first is known of the second after it; where memory is refused,
/// nothing is, which costs time alone.
pub fn alert_shifted<R: Rule + Drop>(live: &mut Live<R>, before: &Worldview, after: &Worldview)
    requires alive { IsLiveIn R.value_of (set_of before.now) live.old }
    ensures network { live.new.network ≡ live.old.network }
    ensures alive { IsLiveIn R.value_of (set_of after.now) live.new }
    ensures shifted { AreShifted (set_of before.now) (set_of after.now) (cells_of live.old)
        (length (cells_of live.old).kinds) (line_of live.old) (line_of live.new) }
{
    let mut known = live.seen.take(live.alloc, before);
    let shift = Shift::new(before, after);
    alert_along(&live.network, &mut live.agenda, &shift, &mut known);
    live.seen.keep(after, known);
}

/// The same where the second worldview believes all that the first does: each cell that it believes
/// more of is watched, and its readers wait. Those that write it need not: what they said is still
/// said. So the potential doesn't rise. Memory that is refused costs time alone.
pub fn alert_grown<R: Rule + Drop>(live: &mut Live<R>, before: &Worldview, after: &Worldview)
    requires more { IsPart (set_of before.now) (set_of after.now) }
    requires alive { IsLiveIn R.value_of (set_of before.now) live.old }
    ensures network { live.new.network ≡ live.old.network }
    ensures alive { IsLiveIn R.value_of (set_of after.now) live.new }
    ensures grown { AreGrown (set_of before.now) (set_of after.now) (cells_of live.old)
        (length (cells_of live.old).kinds) (line_of live.old) (line_of live.new) }
    ensures falls { potential_in R.value_of (set_of after.now) live.new
        ≤ potential_in R.value_of (set_of before.now) live.old }
{
    let mut known = live.seen.take(live.alloc, before);
    let shift = Shift::new(before, after);
    alert_grown_along(&live.network, &mut live.agenda, &shift, &mut known);
    live.seen.keep(after, known);
}
