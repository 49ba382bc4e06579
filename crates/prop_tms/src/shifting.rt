//! Which entries are believed in just one of two worldviews.
ghost use Rattle.std.specs.Prelude.{◌≡◌};
ghost use Rattle.std.specs.List.{list_any};
ghost use Rattle.prop_numbers.specs.Sets.{set_of};
ghost use Rattle.prop_tms.specs.inner.Values.{is_in_one};

use crate::values::Valued;
use prop_lattice::Partial;
use prop_premises::{PremiseSet, Shift};

/// Whether the support is believed in just one of the worldviews. Where it has no premise of which
/// they may differ, neither is asked.
#[inline]
fn splits(shift: &Shift<'_>, support: &PremiseSet) -> bool
    ensures { result ≡ is_in_one (set_of shift.now.before.now) (set_of shift.now.after.now)
        support.now }
{
    support.meets(&shift.change) && shift.before.believes(support) != shift.after.believes(support)
}

/// Whether some of the supports is believed in just one of the worldviews.
fn splits_some(shift: &Shift<'_>, supports: &[PremiseSet]) -> bool
    ensures { result ≡ list_any
        (is_in_one (set_of shift.now.before.now) (set_of shift.now.after.now)) supports.now }
{
    supports.iter().any(
        |support| -> bool
            ensures { result ≡ is_in_one (set_of shift.entry.now.before.now)
                (set_of shift.entry.now.after.now) support.now }
        { splits(shift, support) },
    )
}

/// Whether some entry is believed in just one of the worldviews. No values are merged.
pub(crate) fn may_shift<V: Partial>(values: &[Valued<V>], shift: &Shift<'_>) -> bool
    ensures { result ≡ list_any (λ x.
        list_any (is_in_one (set_of shift.now.before.now) (set_of shift.now.after.now))
        x.supports.items) values.now }
{
    values.iter().any(
        |valued| -> bool
            ensures { result ≡ list_any
                (is_in_one (set_of shift.entry.now.before.now) (set_of shift.entry.now.after.now))
                valued.now.supports.items }
        { splits_some(shift, &valued.supports) },
    )
}
