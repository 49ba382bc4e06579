//! One or two entries of few premises that say all that is believed.
ghost use Rattle.std.specs.Prelude.{◌≡◌, ◌<◌, ◌≤◌, [], ◌∷◌, ◌++◌, length, All};
ghost use Rattle.std.specs.Prelude.{Contains, Ok, IsTrue, IfOk, IfSome};
ghost use Rattle.std.specs.List.{list_any};
ghost use Rattle.prop_numbers.specs.Sets.{set_of, is_within};
ghost use Rattle.prop_tms.specs.Beliefs.{belief_of, merge_of_all, lighter_of, IsLean, IsShort};
ghost use Rattle.prop_tms.specs.inner.Gains.{entry_of, nobody};
ghost use Rattle.prop_tms.specs.Values.{entries_of};

use crate::gain::Entry;
use crate::gains::count;
use crate::strongest::adds;
use crate::supported::Supported;
use crate::values::Valued;
use prop_lattice::Partial;
use prop_premises::{PremiseSet, Worldview};
use std::alloc::AllocError;

/// The only support, where there is one alone, which is believed and has one premise at most.
#[inline]
fn only_told<'a>(supports: &'a [PremiseSet], worldview: &Worldview) -> Option<&'a PremiseSet>
    ensures { IfSome result (λ s. (supports.now ≡ s.now ∷ [])
        × IsTrue (is_within (set_of worldview.now) s.now) × (length s.now ≤ 1)) }
{
    match supports {
        [only] if worldview.believes(only) && count(only) <= 1 => Some(only),
        _ => None,
    }
}

/// Whether there are no premises.
#[inline]
fn is_free(support: &PremiseSet) -> bool
    ensures { result ≡ is_within nobody support.now }
{
    support.is_empty()
}

/// Whether some of the supports has no premises.
#[inline]
fn any_free(supports: &[PremiseSet]) -> bool
    ensures { result ≡ list_any (λ s. is_within nobody s) supports.now }
{
    match supports {
        [only] => is_free(only),
        _ => supports.iter().any(
            |support| -> bool
                ensures { result ≡ is_within nobody support.now }
            { is_free(support) },
        ),
    }
}

/// Whether none of the values says as much as this.
fn all_say_less<V: Partial>(values: &[Valued<V>], value: V) -> bool
    ensures { IsTrue result → All (λ x. ¬ (V.below value x.value)) values.now }
{
    for valued in values {
        if valued.value.implies(value) {
            return false;
        }
    }
    true
}

/// Whether none of the values says as much as this, and none rests on no premises.
fn all_say_less_on_premises<V: Partial>(values: &[Valued<V>], value: V) -> bool
    ensures less { IsTrue result → All (λ x. ¬ (V.below value x.value)) values.now }
    ensures freely { IsTrue result
        → belief_of V.bottom V.join nobody (entries_of values.now) ≡ V.bottom }
{
    for valued in values {
        if valued.value.implies(value) || any_free(&valued.supports) {
            return false;
        }
    }
    true
}

/// What is said on no premises.
fn said_freely<V: Partial>(values: &[Valued<V>]) -> V
    ensures { result ≡ belief_of V.bottom V.join nobody (entries_of values.now) }
{
    let mut said = V::nothing();
    for valued in values {
        if any_free(&valued.supports) {
            said = said.merge(valued.value);
        }
    }
    said
}

/// What is said on no premises, where none of the values alone says as much as this. Often nothing
/// is.
fn said_freely_below<V: Partial>(values: &[Valued<V>], value: V) -> Option<V>
    ensures less { IfSome result (λ said. All (λ x. ¬ (V.below value x.value)) values.now) }
    ensures freely { IfSome result (λ said.
        said ≡ belief_of V.bottom V.join nobody (entries_of values.now)) }
{
    if all_say_less_on_premises(values, value) {
        return Some(V::nothing());
    }
    if !all_say_less(values, value) {
        return None;
    }
    Some(said_freely(values))
}

/// The entry on no premises that says this together with another value, where one does.
fn free_partner<'a, V: Partial>(values: &'a [Valued<V>], other: V, value: V) -> Option<Entry<'a, V>>
    ensures among { IfSome result (λ e. Contains (entries_of values.now) (entry_of e)) }
    ensures free { IfSome result (λ e. e.support.now ≡ []) }
    ensures says { IfSome result (λ e. V.below value (V.join e.value other)) }
{
    for valued in values {
        if let [only] = valued.supports.as_slice()
            && only.is_empty()
            && valued.value.merge(other).implies(value)
        {
            return Some(Entry {
                value: valued.value,
                support: only,
            });
        }
    }
    None
}

/// The place of the first value up to which the believed ones say as much as this, together with
/// another one.
fn completing<V: Partial>(
    values: &[Valued<V>],
    worldview: &Worldview,
    other: V,
    value: V,
) -> Option<usize>
    ensures { IfSome result (λ at. at < length values.now) }
{
    let mut merged = other;
    for (at, valued) in values.iter().enumerate() {
        if adds(valued, worldview, merged) {
            merged = merged.merge(valued.value);
            if merged.implies(value) {
                return Some(at);
            }
        }
    }
    None
}

/// The entry up to which the believed ones say this together with another value and with all that
/// is said on no premises, where it does so without them.
fn told_partner<'a, V: Partial>(
    values: &'a [Valued<V>],
    worldview: &Worldview,
    other: V,
    freely: V,
    value: V,
) -> Option<Entry<'a, V>>
    ensures among { IfSome result (λ e. Contains (entries_of values.now) (entry_of e)) }
    ensures believed { IfSome result (λ e.
        IsTrue (is_within (set_of worldview.now) e.support.now)) }
    ensures says { IfSome result (λ e. V.below value (V.join e.value other)) }
    ensures few { IfSome result (λ e. length e.support.now ≤ 1) }
{
    let at = completing(values, worldview, other.merge(freely), value)?;
    let valued = &values[at];
    let said = valued.value;
    if !said.merge(other).implies(value) {
        return None;
    }
    let support = only_told(&valued.supports, worldview)?;
    Some(Entry {
        value: said,
        support,
    })
}

/// The entry that says this together with another value, which does not with what is said on fewer
/// premises. Entries on no premises come first, and then the one up to which it is said.
fn partner<'a, V: Partial>(
    values: &'a [Valued<V>],
    worldview: &Worldview,
    other: V,
    freely: V,
    value: V,
) -> Option<Entry<'a, V>>
    requires other { ¬ (V.below value other) }
    requires freely { freely ≡ belief_of V.bottom V.join nobody (entries_of values.now) }
    ensures among { IfSome result (λ e. Contains (entries_of values.now) (entry_of e)) }
    ensures believed { IfSome result (λ e.
        IsTrue (is_within (set_of worldview.now) e.support.now)) }
    ensures says { IfSome result (λ e. V.below value (V.join e.value other)) }
    ensures light { IfSome result (λ e. ¬ (V.below value (V.join other
        (merge_of_all V.bottom V.join (lighter_of (entries_of values.now) (entry_of e)))))) }
{
    if other.merge(freely).implies(value) {
        return free_partner(values, other, value);
    }
    told_partner(values, worldview, other, freely, value)
}

/// The premises of the last entry, where it says the value, and else of two that do together: the
/// last and one of those before it. None where some before the last says as much as the value, or
/// what is said on no premises does without one of them, or it is not told at once which come first
/// among all.
fn with_last<V: Partial>(
    earlier: &[Valued<V>],
    last: Entry<'_, V>,
    worldview: &Worldview,
    value: V,
) -> Result<Option<PremiseSet>, AllocError>
    requires few { length last.support.now ≤ 1 }
    requires believed { IsTrue (is_within (set_of worldview.now) last.support.now) }
    requires value { value ≡ belief_of V.bottom V.join (set_of worldview.now)
        (entries_of earlier.now ++ entry_of last ∷ []) }
    ensures lean { IfOk result (λ o. IfSome o (λ s. IsLean V.bottom V.join
        (entries_of earlier.now ++ entry_of last.entry ∷ []) (set_of worldview.now) value s)) }
    ensures short { IfOk result (λ o. IfSome o (λ s. IsShort
        (entries_of earlier.now ++ entry_of last.entry ∷ []) (set_of worldview.now) value s)) }
{
    let Some(freely) = said_freely_below(earlier, value) else {
        return Ok(None);
    };
    if last.value.implies(value) {
        if freely.implies(value) {
            return Ok(None);
        }
        let support = last.support.copy()?;
        return Ok(Some(support));
    }
    match partner(earlier, worldview, last.value, freely, value) {
        Some(entry) if !freely.merge(entry.value).implies(value) => {
            let support = last.support.union(entry.support)?;
            Ok(Some(support))
        }
        _ => Ok(None),
    }
}

/// The premises of one or two believed entries that say this, which is all that is believed: the
/// last one, without which it is not said by any alone, and maybe one before it. Each has one
/// premise at most. None where they are not found at once. Where nothing is believed it takes no
/// memory.
pub(crate) fn few<V: Partial>(
    values: &[Valued<V>],
    worldview: &Worldview,
    value: V,
) -> Result<Option<PremiseSet>, AllocError>
    requires { value ≡ belief_of V.bottom V.join (set_of worldview.now) (entries_of values.now) }
    ensures nothing { value ≡ V.bottom → result ≡ Ok None }
    ensures lean { IfOk result (λ o. IfSome o (λ s. IsLean V.bottom V.join
        (entries_of values.now) (set_of worldview.now) value s)) }
    ensures short { IfOk result (λ o. IfSome o (λ s. IsShort
        (entries_of values.now) (set_of worldview.now) value s)) }
{
    let Some((newest, earlier)) = values.split_last() else {
        return Ok(None);
    };
    match only_told(&newest.supports, worldview) {
        Some(support) if !V::nothing().implies(value) => {
            let last = Entry {
                value: newest.value,
                support,
            };
            with_last(earlier, last, worldview, value)
        }
        _ => Ok(None),
    }
}
