//! Statements in a network under way.
ghost use Rattle.std.specs.Prelude.{◌≡◌, ◌<◌, ◌⊎◌, true, false, None, Some, OnOk, OnErr};
ghost use Rattle.std.specs.Prelude.{IfErr, length};
ghost use Rattle.prop_lattice.specs.Order.{Below};
ghost use Rattle.prop_numbers.specs.Sets.{set_of, is_within};
ghost use Rattle.prop_contents.specs.Contents.{support_of};
ghost use Rattle.prop_cells.specs.Data.{States};
ghost use Rattle.prop_cells.specs.Refusing.{state_refusal};
ghost use Rattle.prop_cells.specs.Instances.{readers_of};
ghost use Rattle.prop_scheduler.specs.Shifts.{Stirs};
ghost use Rattle.prop_scheduler.specs.Live.{cells_of, line_of, IsLiveIn};

use crate::live::Live;
use prop_lattice::{Info, Partial, Refusal};
use prop_premises::{Premise, Worldview};
use prop_procedures::Rule;

/// Whether a statement says more than what was believed of its cell before: it has to be believed,
/// and not to follow from that.
fn says_more(before: Info, premise: Option<Premise>, info: Info, worldview: &Worldview) -> bool
    ensures less { result ≡ false
        → (is_within (set_of worldview.now) (support_of premise) ≡ false) ⊎ Below info before }
    ensures more { result ≡ true → (is_within (set_of worldview.now) (support_of premise) ≡ true)
        × (Below info before → ⊥) }
{
    let is_believed = match premise {
        Some(premise) => worldview.has(premise),
        None => true,
    };
    is_believed && !before.implies(info)
}

/// Makes a statement; where what is believed of its cell changes, the cell's readers wait, and it
/// is watched where it comes to a contradiction. Refused as by `Network::state_under`, it changes
/// nothing.
pub fn state<R: Rule + Drop>(
    live: &mut Live<R>,
    worldview: &Worldview,
    premise: Option<Premise>,
    cell: usize,
    info: Info,
) -> Result<(), Refusal>
    requires cell { cell < length (cells_of live.old).kinds }
    requires alive { IsLiveIn R.value_of (set_of worldview.now) live.old }
    ensures same { live.new.network.library ≡ live.old.network.library }
    ensures alive { IsLiveIn R.value_of (set_of worldview.now) live.new }
    ensures fits { OnOk result (state_refusal (cells_of live.old) cell info ≡ None) }
    ensures ok { OnOk result (States (cells_of live.old) (cells_of live.new)
        (record { premise = premise; cell = cell; info = info })) }
    ensures err { IfErr result (λ e. (state_refusal (cells_of live.old) cell info ≡ Some e)
        ⊎ (e ≡ Refusal.Memory)) }
    ensures err_same { OnErr result (cells_of live.new ≡ cells_of live.old) }
    ensures stirred { OnOk result
        (Stirs (readers_of (cells_of live.new).instances) (set_of worldview.now)
        (set_of worldview.now) (cells_of live.old) (cells_of live.new) (line_of live.old)
        (length (cells_of live.new).kinds) (line_of live.new)) }
    ensures err_line { OnErr result (live.new.agenda ≡ live.old.agenda) }
{
    live.seen.look(&live.network, worldview)?;
    let known = &mut live.seen.known;
    let before = live.network.known_belief(cell, worldview, known);
    live.network.state_under(premise, cell, info)?;
    if says_more(before, premise, info, worldview) {
        let after = before.merge(info);
        known.merge(cell, info);
        live.agenda.alert_all(live.network.readers(cell));
        if after.is_contradiction() {
            live.agenda.watch(cell);
        }
    }
    Ok(())
}
