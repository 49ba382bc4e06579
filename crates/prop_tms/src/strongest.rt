//! What the believed entries say together, and few premises that are enough for it.
ghost use Rattle.std.specs.Prelude.{◌≡◌, ◌≤◌, ◌+◌, ◌⊎◌, ℕ, [], length, map, take, false};
ghost use Rattle.std.specs.Prelude.{All, option_to_list};
ghost use Rattle.std.specs.Prelude.{Contains, IsTrue, IsOk, IfOk, IfSome, IsSomeAnd};
ghost use Rattle.std.specs.List.{list_any};
ghost use Rattle.prop_numbers.specs.Sets.{Members, set_of, is_within, union, IsSame};
ghost use Rattle.prop_tms.specs.Beliefs.{belief_of, believed_of, merge_of_all, IsLean, IsShort};
ghost use Rattle.prop_tms.specs.inner.Gains.{AreGains, AreRanked, IsLight};
ghost use Rattle.prop_tms.specs.inner.Gains.{entry_of, gained_of};
ghost use Rattle.prop_tms.specs.Values.{entries_of};
ghost use Rattle.prop_tms.specs.declared.supported.Supported.{Supported};

use crate::few::few;
use crate::gain::{Entry, Gain};
use crate::gains::{count, gains};
use crate::supported::Supported;
use crate::values::Valued;
use prop_lattice::Partial;
use prop_premises::{PremiseSet, Worldview};
use std::alloc::{AllocError, Global};

/// Whether some of the supports is believed.
#[inline]
pub(crate) fn believes_any(worldview: &Worldview, supports: &[PremiseSet]) -> bool
    ensures { result ≡ list_any (λ s. is_within (set_of worldview.now) s) supports.now }
{
    supports.iter().any(|support| worldview.believes(support))
}

/// Whether the value is believed, and says more than what was merged of others. Of one support it
/// is quick to tell whether it is believed, so that comes first.
#[inline(always)]
pub(crate) fn adds<V: Partial>(valued: &Valued<V>, worldview: &Worldview, merged: V) -> bool
    ensures more { IsTrue result
        → IsTrue (list_any (λ s. is_within (set_of worldview.now) s) valued.now.supports.items) }
    ensures none { result ≡ false
        → (list_any (λ s. is_within (set_of worldview.now) s) valued.now.supports.items ≡ false)
        ⊎ V.below valued.now.value merged }
{
    match valued.supports.as_slice() {
        [only] => worldview.believes(only) && !merged.implies(valued.value),
        supports => !merged.implies(valued.value) && believes_any(worldview, supports),
    }
}

/// What the believed entries say together with a value. A value that says nothing new is passed by.
fn said_with<V: Partial>(values: &[Valued<V>], worldview: &Worldview, first: V) -> V
    ensures { result ≡ V.join first
        (belief_of V.bottom V.join (set_of worldview.now) (entries_of values.now)) }
{
    let mut merged = first;
    for valued in values {
        if adds(valued, worldview, merged) {
            merged = merged.merge(valued.value);
        }
    }
    merged
}

/// What the believed entries say together. The value added last is looked at first: it often says
/// more than those before it.
pub(crate) fn belief<V: Partial>(values: &[Valued<V>], worldview: &Worldview) -> V
    ensures { result ≡ belief_of V.bottom V.join (set_of worldview.now) (entries_of values.now) }
{
    let Some((newest, earlier)) = values.split_last() else {
        return V::nothing();
    };
    let first = if believes_any(worldview, &newest.supports) {
        newest.value
    } else {
        V::nothing()
    };
    said_with(earlier, worldview, first)
}

/// What the entries of the row say together: what those before the last say, with what the last
/// says.
fn said_together<V: Partial>(gains: &[Gain<'_, V>]) -> V
    requires { AreGains V.join V.bottom gains.now }
    ensures { result ≡ merge_of_all V.bottom V.join (gained_of gains.now) }
{
    match gains.last() {
        Some(gain) => gain.before.merge(gain.entry.value),
        None => V::nothing(),
    }
}

/// The first entry of the row that alone says as much as the value.
fn alone<'a, V: Partial>(gains: &[Gain<'a, V>], value: V) -> Option<Entry<'a, V>>
    requires { AreRanked (gained_of gains.now) }
    ensures among { IfSome result (λ e. Contains (gained_of gains.now) (entry_of e)) }
    ensures says { IfSome result (λ e. V.below value e.value) }
    ensures few { (x : Supported V) → Contains (gained_of gains.now) x → V.below value x.value
        → IsSomeAnd result (λ e. length e.support.now ≤ length x.support) }
{
    for gain in gains {
        let Entry {
            value: said,
            support,
        } = gain.entry;
        if said.implies(value) {
            return Some(Entry {
                value: said,
                support,
            });
        }
    }
    None
}

/// How many entries from the front of the row are enough for the value, together with another one:
/// with one less they aren't. It looks at few of them, always at the one in the middle of those
/// that it can't tell yet.
fn enough<V: Partial>(gains: &[Gain<'_, V>], other: V, value: V) -> usize
    requires gains { AreGains V.join V.bottom gains.now }
    requires all { V.below value (V.join (merge_of_all V.bottom V.join (gained_of gains.now))
        other) }
    ensures bound { result ≤ length gains.now }
    ensures says { V.below value (V.join
        (merge_of_all V.bottom V.join (gained_of (take result gains.now))) other) }
    ensures needed { (k : ℕ) → k + 1 ≡ result
        → ¬ (V.below value (V.join (merge_of_all V.bottom V.join (gained_of (take k gains.now)))
        other)) }
{
    let mut low = 0;
    let mut high = gains.len();
    while low < high {
        let middle = low + (high - low) / 2;
        if gains[middle].before.merge(other).implies(value) {
            high = middle;
        } else {
            low = middle + 1;
        }
    }
    low
}

/// The premises of both sets. Where the first has none the second is copied.
#[inline]
fn with_support(mut support: PremiseSet, more: &PremiseSet) -> Result<PremiseSet, AllocError>
    ensures { IfOk result (λ s. IsSame (set_of s)
        (union (set_of more.now) (set_of support))) }
{
    if support.is_empty() {
        return more.copy();
    }
    support.unite(more)?;
    Ok(support)
}

/// The premises of entries of the row that say this together, as all of them do, and of which none
/// can be left out, though all of fewer premises join the others. From the last back, an entry goes
/// where those before it and those kept say as much.
fn thinned<V: Partial>(
    alloc: Global,
    mut gains: Vec<Gain<'_, V>>,
    value: V,
) -> Result<PremiseSet, AllocError>
    requires gains { AreGains V.join V.bottom gains.items }
    requires ranked { AreRanked (gained_of gains.items) }
    requires value { value ≡ merge_of_all V.bottom V.join (gained_of gains.items) }
    ensures nothing { gains.entry.items ≡ [] → IsOk result }
    ensures none { gains.entry.items ≡ [] → IfOk result (λ s. s ≡ []) }
    ensures lean { IfOk result (λ s. (w : Members)
        → All (λ e. IsTrue (is_within w e.support)) (gained_of gains.entry.items)
        → IsLight V.bottom V.join (gained_of gains.entry.items) w value s) }
{
    let mut after = V::nothing();
    let mut support = PremiseSet::empty(alloc);
    gains.truncate(enough(&gains, after, value));
    while let Some(gain) = gains.pop() {
        after = gain.entry.value.merge(after);
        support = with_support(support, gain.entry.support)?;
        gains.truncate(enough(&gains, after, value));
    }
    Ok(support)
}

/// The believed entry, if there is any; nothing where there are more than one. It looks at no entry
/// past the second believed one.
#[inline]
fn sole<'a, V: Partial>(
    values: &'a [Valued<V>],
    worldview: &Worldview,
) -> Option<Option<Entry<'a, V>>>
    ensures { IfSome result (λ found.
        map entry_of (option_to_list found) ≡ believed_of (set_of worldview.now)
        (entries_of values.now)) }
{
    let mut found = None;
    for valued in values {
        for support in valued.supports.as_slice() {
            if worldview.believes(support) {
                if found.is_some() {
                    return None;
                }
                let value = valued.value;
                found = Some(Entry { value, support });
            }
        }
    }
    Some(found)
}

/// What the believed entries say together, with the support of entries of which none can be left
/// out. Entries of few premises come first, and no believed entry that says as much alone has fewer
/// premises.
fn ranked<V: Partial>(
    alloc: Global,
    values: &[Valued<V>],
    worldview: &Worldview,
) -> Result<Supported<V>, AllocError>
    ensures nothing { belief_of V.bottom V.join (set_of worldview.now)
        (entries_of values.now) ≡ V.bottom → IsOk result }
    ensures value { IfOk result (λ e.
        e.value ≡ belief_of V.bottom V.join (set_of worldview.now) (entries_of values.now)) }
    ensures lean { IfOk result (λ e.
        IsLean V.bottom V.join (entries_of values.now) (set_of worldview.now) e.value e.support) }
    ensures short { IfOk result (λ e.
        IsShort (entries_of values.now) (set_of worldview.now) e.value e.support) }
{
    let gains = gains(alloc, values, worldview)?;
    let value = said_together(&gains);
    let alone = alone(&gains, value);
    let together = thinned(alloc, gains, value)?;
    let premises = count(&together);
    let support = match alone {
        Some(entry) if count(entry.support) < premises => entry.support.copy()?,
        _ => together,
    };
    Ok(Supported { value, support })
}

/// The support of entries that say this, which is all that is believed, and of which none can be
/// left out. Where few entries do, the others are not put in a row.
pub(crate) fn strongest<V: Partial>(
    alloc: Global,
    values: &[Valued<V>],
    worldview: &Worldview,
    value: V,
) -> Result<Supported<V>, AllocError>
    requires { value ≡ belief_of V.bottom V.join (set_of worldview.now) (entries_of values.now) }
    ensures nothing { belief_of V.bottom V.join (set_of worldview.now)
        (entries_of values.now) ≡ V.bottom → IsOk result }
    ensures value { IfOk result (λ e.
        e.value ≡ belief_of V.bottom V.join (set_of worldview.now) (entries_of values.now)) }
    ensures lean { IfOk result (λ e.
        IsLean V.bottom V.join (entries_of values.now) (set_of worldview.now) e.value e.support) }
    ensures short { IfOk result (λ e.
        IsShort (entries_of values.now) (set_of worldview.now) e.value e.support) }
{
    if let Some(support) = few(values, worldview, value)? {
        return Ok(Supported { value, support });
    }
    ranked(alloc, values, worldview)
}

/// The support of the only believed entry, where there is just one and it says something.
#[inline]
pub(crate) fn sole_support<'a, V: Partial>(
    values: &'a [Valued<V>],
    worldview: &Worldview,
) -> Option<&'a PremiseSet>
    ensures { IfSome result (λ s.
        IsLean V.bottom V.join (entries_of values.now) (set_of worldview.now)
        (belief_of V.bottom V.join (set_of worldview.now) (entries_of values.now)) s.now) }
{
    match sole(values, worldview) {
        Some(Some(entry)) if !V::nothing().implies(entry.value) => Some(entry.support),
        _ => None,
    }
}
