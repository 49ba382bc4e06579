//! Entries that rest on a premise.
ghost use Rattle.std.specs.Prelude.{◌≡◌, not, filter};
ghost use Rattle.std.specs.List.{list_any};
ghost use Rattle.prop_numbers.specs.Sets.{set_of};
ghost use Rattle.prop_tms.specs.Values.{entries_of};
ghost use Rattle.prop_tms.specs.inner.Values.{values_of};

use crate::values::Valued;
use prop_lattice::Partial;
use prop_premises::{Premise, PremiseSet};
use smallvec::SmallVec;

/// Drops the supports that hold the premise. Tells whether there were any.
fn drop_holding(supports: &mut SmallVec<PremiseSet, 1>, premise: Premise) -> bool
    ensures left { supports.new.items ≡ filter (λ s. not (set_of s premise)) supports.old.items }
    ensures went { result ≡ list_any (λ s. set_of s premise) supports.old.items }
{
    let is_held = supports.iter().any(|support| support.contains(premise));
    supports.retain(|support| !support.contains(premise));
    is_held
}

/// Drops the entries whose support holds the premise. Tells whether there were any. A value may be
/// left with no support.
pub(crate) fn drop_resting<V: Partial>(values: &mut [Valued<V>], premise: Premise) -> bool
    ensures left { entries_of values.new ≡ filter (λ e. not (set_of e.support premise))
        (entries_of values.old) }
    ensures values { values_of values.new ≡ values_of values.old }
    ensures went { result ≡ list_any (λ e. set_of e.support premise) (entries_of values.old) }
{
    let mut went = false;
    for valued in values {
        went |= drop_holding(&mut valued.supports, premise);
    }
    went
}
