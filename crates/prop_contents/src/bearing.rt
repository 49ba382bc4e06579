//! Which premises bear on which cells: sets of premises, one for so many cells in a row.
ghost use Rattle.std.specs.Prelude.{◌≡◌, ◌<◌, ℕ, [], length, slice_index_or, IsTrue, OnOk, OnErr};
ghost use Rattle.prop_numbers.specs.Sets.{set_of, is_within};
ghost use Rattle.prop_contents.specs.inner.Bearing.{AreSame, UnitesAt};

use prop_premises::{PremiseSet, Shift};
use std::alloc::AllocError;

/// There is a set at this place, of no premises where there was none. The others stay.
fn reach(sets: &mut Vec<PremiseSet>, place: usize) -> Result<(), AllocError>
    ensures same { AreSame sets.old.items sets.new.items }
    ensures there { OnOk result (place < length sets.new.items) }
{
    let alloc = *sets.allocator();
    while sets.len() <= place {
        sets.push(PremiseSet::empty(alloc))?;
    }
    Ok(())
}

/// Whether the set at this place has these premises.
#[inline]
fn bears(sets: &[PremiseSet], place: usize, support: &PremiseSet) -> bool
    ensures { IsTrue result
        → IsTrue (is_within (set_of (slice_index_or sets.now place [])) support.now) }
{
    match sets.get(place) {
        Some(premises) => support.is_subset(premises),
        None => false,
    }
}

/// The set at this place has these premises from now on. After want of memory each set is as
/// before.
#[inline(never)]
fn widen(sets: &mut Vec<PremiseSet>, place: usize, support: &PremiseSet) -> Result<(), AllocError>
    ensures ok { OnOk result (UnitesAt sets.old.items sets.new.items place support.now) }
    ensures err { OnErr result (AreSame sets.old.items sets.new.items) }
{
    reach(sets, place)?;
    sets[place].unite(support)?;
    Ok(())
}

/// The set at this place has these premises too. After want of memory each set is as before.
#[inline]
pub(crate) fn bear(
    sets: &mut Vec<PremiseSet>,
    place: usize,
    support: &PremiseSet,
) -> Result<(), AllocError>
    ensures ok { OnOk result (UnitesAt sets.old.items sets.new.items place support.now) }
    ensures err { OnErr result (AreSame sets.old.items sets.new.items) }
{
    if bears(sets, place, support) {
        return Ok(());
    }
    widen(sets, place, support)
}

/// Whether two worldviews believe the same of each premise of the set at a place. It takes no
/// memory.
pub(crate) fn agree_at(sets: &[PremiseSet], place: usize, shift: &Shift<'_>) -> bool
    ensures { IsTrue result → (p : ℕ) → IsTrue (set_of (slice_index_or sets.now place []) p)
        → set_of shift.now.before.now p ≡ set_of shift.now.after.now p }
{
    match sets.get(place) {
        Some(premises) => !shift.differs_at(premises),
        None => true,
    }
}
