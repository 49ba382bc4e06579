//! The sides of a choice in a network under way.
ghost use Rattle.std.specs.Prelude.{◌≡◌, ◌<◌, ◌≤◌, ◌+◌, ◌^◌, ◌++◌, ◌⊎◌, None, Some, OnOk, OnErr};
ghost use Rattle.std.specs.Prelude.{IfErr, IsTrue, All, length};
ghost use Rattle.prop_numbers.specs.Sets.{set_of};
ghost use Rattle.prop_procedures.specs.Fitting.{kind_at};
ghost use Rattle.prop_cells.specs.Refusing.{sides_refusal, may_be_stated};
ghost use Rattle.prop_cells.specs.Sides.{sides_at, StatesAll, AreUnderBelow};
ghost use Rattle.prop_scheduler.specs.Shifts.{touching, Stirs};
ghost use Rattle.prop_scheduler.specs.Live.{cells_of, line_of, IsLiveIn};

use crate::live::Live;
use prop_lattice::{Info, Partial, Refusal};
use prop_premises::{Premise, Worldview};
use prop_procedures::Rule;

/// Makes a statement for each side of a choice at a cell, under premises with numbers in a row from
/// `first` on, on which no statement rests yet; where what is believed of the cell changes, it is
/// watched, and its readers and writers wait. Refused as by `Network::state_sides`, it changes
/// nothing.
pub fn state_sides<R: Rule + Drop>(
    live: &mut Live<R>,
    worldview: &Worldview,
    first: Premise,
    cell: usize,
    infos: &[Info],
) -> Result<(), Refusal>
    requires cell { cell < length (cells_of live.old).kinds }
    requires alive { IsLiveIn R.value_of (set_of worldview.now) live.old }
    requires may { All (λ info. IsTrue
        (may_be_stated (kind_at (cells_of live.old).kinds cell).kind
        (kind_at (cells_of live.old).kinds cell).size info)) infos.now }
    requires unnamed { AreUnderBelow first (cells_of live.old).statements }
    requires numbers { first + length infos.now ≤ 2 ^ 16 }
    ensures same { live.new.network.library ≡ live.old.network.library }
    ensures alive { IsLiveIn R.value_of (set_of worldview.now) live.new }
    ensures fits { OnOk result (sides_refusal (cells_of live.old) (length infos.now) ≡ None) }
    ensures ok { OnOk result (StatesAll (cells_of live.old) (cells_of live.new)
        (sides_at first cell infos.now)) }
    ensures rest { OnOk result (cells_of live.new
        ≡ record (cells_of live.old) {
          statements = (cells_of live.old).statements ++ sides_at first
              cell infos.now;
          contents = (cells_of live.new).contents;
        }) }
    ensures err { IfErr result (λ e. (sides_refusal (cells_of live.old) (length infos.now) ≡ Some e)
        ⊎ (e ≡ Refusal.Memory)) }
    ensures err_same { OnErr result (cells_of live.new ≡ cells_of live.old) }
    ensures stirred { OnOk result
        (Stirs (touching (cells_of live.new).instances) (set_of worldview.now)
        (set_of worldview.now) (cells_of live.old) (cells_of live.new) (line_of live.old)
        (length (cells_of live.new).kinds) (line_of live.new)) }
    ensures err_line { OnErr result (live.new.agenda ≡ live.old.agenda) }
{
    let before = live.network.belief(cell, worldview);
    live.network.state_sides(first, cell, infos)?;
    live.seen.known.forget(cell);
    let after = live.network.belief(cell, worldview);
    if !before.implies(after) {
        live.agenda.alert_all(live.network.readers(cell));
        live.agenda.alert_all(live.network.writers(cell));
        live.agenda.watch(cell);
    }
    Ok(())
}
