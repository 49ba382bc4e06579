//! Entries that a belief can do without.
ghost use Rattle.std.specs.Prelude.{◌≡◌, ◌≢◌, ◌<◌, ◌≤◌, ◌+◌, ◌^◌, IsTrue, false, not, length};
ghost use Rattle.std.specs.Prelude.{filter, get_or};
ghost use Rattle.std.specs.List.{remove};
ghost use Rattle.prop_numbers.specs.Sets.{set_of, is_at_most_one_of};
ghost use Rattle.prop_tms.specs.Beliefs.{belief_of, NoneSubsumed, NoneAlike, Trims, AreNeeded};
ghost use Rattle.prop_tms.specs.Values.{entries_of};
ghost use Rattle.prop_tms.specs.inner.Values.{values_of, place_of, AreKept};
ghost use Rattle.prop_tms.specs.declared.values.Valued.{Valued};

use crate::strongest::{belief, believes_any};
use crate::values::{Valued, Values, drop_bare};
use prop_lattice::Partial;
use prop_premises::{PremiseSet, Worldview};

/// How many of the supports have something else than one told premise.
fn derived_in(supports: &[PremiseSet], told: &PremiseSet) -> usize
    ensures { result ≡ length (filter (λ s. not (is_at_most_one_of (set_of told.now) s))
        supports.now) }
{
    supports
        .iter()
        .filter(|support| !support.is_at_most_one_of(told))
        .count()
}

/// How many entries rest on something else than one told premise.
pub(crate) fn count_derived<V: Partial>(values: &[Valued<V>], told: &PremiseSet) -> usize
    requires { length (entries_of values.now) < 2 ^ 64 }
    ensures { result ≡ length (filter (λ e. not (is_at_most_one_of (set_of told.now) e.support))
        (entries_of values.now)) }
{
    let mut count = 0;
    for valued in values {
        count += derived_in(&valued.supports, told);
    }
    count
}

/// What the entries say together where they are believed, but for the one of a value's support with
/// this place.
fn belief_without<V: Partial>(
    values: &[Valued<V>],
    at: usize,
    place: usize,
    worldview: &Worldview,
) -> V
    requires at { at < length values.now }
    requires place { (d : Valued V) → place < length (get_or values.now at d).supports.items }
    ensures { result ≡ belief_of V.bottom V.join (set_of worldview.now)
        (remove (entries_of values.now) (place_of values.now at place)) }
{
    let before = belief(&values[..at], worldview);
    let others = before.merge(belief(&values[at + 1..], worldview));
    let valued = &values[at];
    if believes_any(worldview, &valued.supports[..place])
        || believes_any(worldview, &valued.supports[place + 1..])
    {
        others.merge(valued.value)
    } else {
        others
    }
}

/// Whether less is believed without an entry than this, which they say together.
fn is_needed<V: Partial>(
    values: &[Valued<V>],
    at: usize,
    place: usize,
    worldview: &Worldview,
    value: V,
) -> bool
    requires at { at < length values.now }
    requires place { (d : Valued V) → place < length (get_or values.now at d).supports.items }
    requires value { value ≡ belief_of V.bottom V.join (set_of worldview.now)
        (entries_of values.now) }
    ensures needed { IsTrue result
        → belief_of V.bottom V.join (set_of worldview.now)
        (remove (entries_of values.now) (place_of values.now at place)) ≢ belief_of V.bottom V.join
        (set_of worldview.now) (entries_of values.now) }
    ensures needless { result ≡ false
        → belief_of V.bottom V.join (set_of worldview.now)
        (remove (entries_of values.now) (place_of values.now at place)) ≡ belief_of V.bottom V.join
        (set_of worldview.now) (entries_of values.now) }
{
    worldview.believes(&values[at].supports[place])
        && !belief_without(values, at, place, worldview).implies(value)
}

/// Drops supports that the worldview does without, from the first on, but for those that are empty
/// or one told premise alone. A value may be left with no support.
fn drop_needless<V: Partial>(values: &mut [Valued<V>], told: &PremiseSet, worldview: &Worldview)
    requires { AreKept V.below values.old }
    ensures trims { Trims V.bottom V.join (set_of told.now) (set_of worldview.now)
        (entries_of values.old) (entries_of values.new) }
    ensures needed { AreNeeded V.bottom V.join (set_of told.now) (set_of worldview.now)
        (entries_of values.new) }
    ensures subsumed { NoneSubsumed V.below (entries_of values.new) }
    ensures alike { NoneAlike (entries_of values.new) }
    ensures values { values_of values.new ≡ values_of values.old }
    ensures counted { length (entries_of values.new) ≤ length (entries_of values.old) }
{
    let value = belief(values, worldview);
    let mut at = 0;
    while at < values.len() {
        let mut place = 0;
        while place < values[at].supports.len() {
            if values[at].supports[place].is_at_most_one_of(told)
                || is_needed(values, at, place, worldview, value)
            {
                place += 1;
            } else {
                drop(values[at].supports.remove(place));
            }
        }
        at += 1;
    }
}

/// Drops entries that the worldview does without, from the first on, but for those that rest on
/// nothing or on one told premise alone.
pub(crate) fn trim<V: Partial>(values: &mut Values<V>, told: &PremiseSet, worldview: &Worldview)
    requires { AreKept V.below values.old.items }
    ensures trims { Trims V.bottom V.join (set_of told.now) (set_of worldview.now)
        (entries_of values.old.items) (entries_of values.new.items) }
    ensures needed { AreNeeded V.bottom V.join (set_of told.now) (set_of worldview.now)
        (entries_of values.new.items) }
    ensures kept { AreKept V.below values.new.items }
{
    drop_needless(values, told, worldview);
    drop_bare(values);
}
