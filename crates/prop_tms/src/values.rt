//! Values, each once, with the supports that say so.
ghost use Rattle.std.specs.Prelude.{◌≡◌, ◌≢◌, ◌↔◌, ◌<◌, ◌≤◌, ◌+◌, ◌^◌, ℕ, List, [], ◌∷◌, ◌++◌};
ghost use Rattle.std.specs.Prelude.{All, None, false, not};
ghost use Rattle.std.specs.Prelude.{length, filter, get_or, IsTrue, OnOk, OnErr, IfOk, IfSome};
ghost use Rattle.std.specs.Prelude.{IfNone};
ghost use Rattle.std.specs.List.{list_any};
ghost use Rattle.smallvec.specs.SmallVec.{HasRoomFor};
ghost use Rattle.prop_numbers.specs.Sets.{set_of, is_within, is_alike, is_below};
ghost use Rattle.prop_tms.specs.Beliefs.{Subsumes, IsNeedless, joined_with};
ghost use Rattle.prop_tms.specs.Kept.{IsLeftWithout};
ghost use Rattle.prop_tms.specs.Values.{entries_of, entries_of_one};
ghost use Rattle.prop_tms.specs.inner.Values.{values_of, AreApart, NoneBare, NoneBareBut};
ghost use Rattle.prop_tms.specs.inner.Values.{NoneEmptied, HasRoomOf, StandsAlone};
ghost use Rattle.prop_tms.specs.declared.supported.Supported.{Supported};
ghost use Rattle.prop_tms.specs.declared.values.Valued.{Valued};

use crate::supported::Supported;
use prop_lattice::Partial;
use prop_premises::PremiseSet;
use smallvec::SmallVec;
use std::alloc::{AllocError, Global};
use std::default::MadeWith;

/// A value, and the supports that say so: it is known where all premises of one of them are
/// believed. One support stands in the value itself.
#[derive(Drop)]
pub struct Valued<V: Drop> {
    pub value: V,
    pub supports: SmallVec<PremiseSet, 1>,
}

/// A value that says nothing, with no support, so that the first value of a `Tms` can stand in the
/// `Tms` itself.
impl<V: Partial> MadeWith<Global> for Valued<V> {
    ghost is_made_with = { λ x. x.supports.items ≡ [] };

    fn made_with(alloc: Global) -> Valued<V> {
        Valued {
            value: V::nothing(),
            supports: SmallVec::new(alloc),
        }
    }
}

/// Values, the first of which stands in the row itself.
pub type Values<V> = SmallVec<Valued<V>, 1>;

/// How many supports there are.
pub(crate) fn count<V: Partial>(values: &[Valued<V>]) -> usize
    requires { length (entries_of values.now) < 2 ^ 64 }
    ensures { result ≡ length (entries_of values.now) }
{
    let mut count = 0;
    for valued in values {
        count += valued.supports.len();
    }
    count
}

/// Whether some of the supports is part of this one.
#[inline]
fn has_part(supports: &[PremiseSet], support: &PremiseSet) -> bool
    ensures { result ≡ list_any (λ s. is_within (set_of support.now) s) supports.now }
{
    match supports {
        [only] => only.is_subset(support),
        _ => supports.iter().any(|part| part.is_subset(support)),
    }
}

/// Whether some of the supports has the same premises as this one.
#[inline]
fn has_same(supports: &[PremiseSet], support: &PremiseSet) -> bool
    ensures { result ≡ list_any (λ s. is_alike s support.now) supports.now }
{
    supports.iter().any(|other| other.is_same(support))
}

/// What the entries are to a new one that says something new.
#[derive(Clone, Copy)]
pub(crate) struct Survey<V: Copy> {
    /// How many they are.
    pub count: usize,
    /// The new value, with what the entries on the same premises say.
    pub value: V,
    /// Whether it may say all that one of their values says.
    pub may_cover: bool,
}

/// Whether the value says as much as one of these.
fn covers_any<V: Partial>(values: &[Valued<V>], value: V) -> bool
    ensures { result ≡ false → All (λ x. ¬ (V.below x.value value)) values.now }
{
    for valued in values {
        if value.implies(valued.value) {
            return true;
        }
    }
    false
}

/// What the entries are to this one; nothing where it says nothing new.
pub(crate) fn surveyed<V: Partial>(values: &[Valued<V>], entry: &Supported<V>) -> Option<Survey<V>>
    requires { length (entries_of values.now) < 2 ^ 64 }
    ensures known { result ≡ None → IsNeedless V.below V.bottom (entries_of values.now) entry.now }
    ensures new { IfSome result (λ s.
        ¬ (IsNeedless V.below V.bottom (entries_of values.now) entry.now)) }
    ensures count { IfSome result (λ s. s.count ≡ length (entries_of values.now)) }
    ensures value { IfSome result (λ s. s.value ≡
        (joined_with V.bottom V.join (entries_of values.now) entry.now).value) }
    ensures apart { IfSome result (λ s. s.may_cover ≡ false
        → All (λ x. ¬ (V.below x.value s.value)) values.now) }
{
    if V::nothing().implies(entry.value) {
        return None;
    }
    let mut count = 0;
    let mut said = V::nothing();
    for valued in values {
        let supports = valued.supports.as_slice();
        if has_part(supports, &entry.support) {
            if valued.value.implies(entry.value) {
                return None;
            }
            if has_same(supports, &entry.support) {
                said = said.merge(valued.value);
            }
        }
        count += supports.len();
    }
    let value = entry.value.merge(said);
    Some(Survey {
        count,
        value,
        may_cover: covers_any(values, value),
    })
}

/// Whether there is one entry alone, on the same premises as this support.
#[inline]
pub(crate) fn is_alone<V: Partial>(values: &[Valued<V>], support: &PremiseSet) -> bool
    ensures { IsTrue result → StandsAlone values.now support.now }
{
    match values {
        [only] => match only.supports.as_slice() {
            [own] => own.is_same(support),
            _ => false,
        },
        _ => false,
    }
}

/// Adds an entry with a value of its own, as the last one. After want of memory nothing has
/// changed.
pub(crate) fn push_apart<V: Partial>(
    values: &mut Values<V>,
    entry: Supported<V>,
) -> Result<(), AllocError>
    ensures ok { OnOk result (entries_of values.new.items
        ≡ entries_of values.old.items ++ entry ∷ []) }
    ensures values { OnOk result (values_of values.new.items
        ≡ values_of values.old.items ++ entry.value ∷ []) }
    ensures bare { OnOk result (NoneBare values.old.items → NoneBare values.new.items) }
    ensures err { OnErr result (values.new.items ≡ values.old.items) }
{
    let mut supports = SmallVec::new(*values.allocator());
    supports.push(entry.support)?;
    let value = entry.value;
    values.push(Valued { value, supports })?;
    Ok(())
}

/// Puts an entry in the place of the only one.
#[inline]
pub(crate) fn put_alone<V: Partial>(values: &mut [Valued<V>], entry: Supported<V>)
    requires { (s : List ℕ) × StandsAlone values.old s }
    ensures same { entries_of values.new ≡ entry ∷ [] }
    ensures len { length values.new ≡ length values.old }
    ensures apart { AreApart values.new }
    ensures bare { NoneBare values.new }
{
    let only = &mut values[0];
    only.value = entry.value;
    only.supports[0] = entry.support;
}

/// Whether both are the same value.
#[inline]
pub(crate) fn is_same<V: Partial>(a: V, b: V) -> bool
    ensures { IsTrue result ↔ (a ≡ b) }
{
    a.implies(b) && b.implies(a)
}

/// The place of the value; nothing where it isn't there.
#[inline]
fn find<V: Partial>(values: &[Valued<V>], value: V) -> Option<usize>
    ensures at { IfSome result (λ at. (at < length values.now)
        × ((d : Valued V) → (get_or values.now at d).value ≡ value)) }
    ensures new { IfNone result (All (λ x. x.value ≢ value) values.now) }
{
    values
        .iter()
        .position(|valued| is_same(valued.value, value))
}

/// Makes room for one support more of the value at a place. After want of memory nothing has
/// changed.
#[inline]
fn make_room<V: Partial>(values: &mut [Valued<V>], place: usize) -> Result<(), AllocError>
    requires { place < length values.old }
    ensures values { values_of values.new ≡ values_of values.old }
    ensures same { entries_of values.new ≡ entries_of values.old }
    ensures bare { NoneBare values.old → NoneBare values.new }
    ensures others { NoneBare values.old → NoneBareBut place values.new }
    ensures room { OnOk result ((d : Valued V)
        → HasRoomFor (get_or values.new place d).supports 1) }
{
    values[place].supports.reserve(1)
}

/// The place of the value, with room for one support more. A new value stands last, with no support
/// yet. After want of memory nothing has changed.
pub(crate) fn room_for<V: Partial>(values: &mut Values<V>, value: V) -> Result<usize, AllocError>
    requires apart { AreApart values.old.items }
    ensures same { entries_of values.new.items ≡ entries_of values.old.items }
    ensures apart { AreApart values.new.items }
    ensures place { IfOk result (λ at. (at < length values.new.items)
        × ((d : Valued V) → (get_or values.new.items at d).value ≡ value)) }
    ensures room { IfOk result (λ at. (d : Valued V)
        → HasRoomFor (get_or values.new.items at d).supports 1) }
    ensures others { IfOk result (λ at. NoneBare values.old.items
        → NoneBareBut at values.new.items) }
    ensures err { OnErr result (NoneBare values.old.items → NoneBare values.new.items) }
{
    if let Some(place) = find(values, value) {
        make_room(values, place)?;
        return Ok(place);
    }
    let supports = SmallVec::new(*values.allocator());
    values.push(Valued { value, supports })?;
    Ok(values.len() - 1)
}

/// Drops the supports that this one is part of, and tells whether it dropped all that there were.
fn drop_wider(supports: &mut SmallVec<PremiseSet, 1>, support: &PremiseSet) -> bool
    ensures emptied { result ≡ false → supports.new.items ≡ [] → supports.old.items ≡ [] }
    ensures kept { supports.new.items ≡ filter (λ s. not (is_within (set_of s) support.now))
        supports.old.items }
    ensures capacity { supports.new.capacity ≡ supports.old.capacity }
    ensures len { length supports.new.items ≤ length supports.old.items }
{
    let some = !supports.is_empty();
    supports.retain(|wider| !support.is_subset(wider));
    some && supports.is_empty()
}

/// Drops the entries that this one subsumes, and tells whether it left a value with no support.
pub(crate) fn drop_subsumed<V: Partial>(values: &mut [Valued<V>], entry: &Supported<V>) -> bool
    ensures emptied { result ≡ false → NoneEmptied values.old values.new }
    ensures kept { IsLeftWithout (Subsumes V.below entry.now) (entries_of values.old)
        (entries_of values.new) }
    ensures values { values_of values.new ≡ values_of values.old }
    ensures room { (k : ℕ) (d : Valued V) → k < length values.old
        → HasRoomOf (get_or values.new k d) (get_or values.old k d) }
{
    let mut emptied = false;
    for valued in values {
        if entry.value.implies(valued.value) {
            emptied |= drop_wider(&mut valued.supports, &entry.support);
        }
    }
    emptied
}

/// Whether the value has no support.
#[inline]
fn is_bare<V: Partial>(valued: &Valued<V>) -> bool
    ensures { IsTrue result ↔ (valued.now.supports.items ≡ []) }
{
    valued.supports.is_empty()
}

/// Drops the values with no support.
pub(crate) fn drop_bare<V: Partial>(values: &mut Values<V>)
    requires { AreApart values.old.items }
    ensures same { entries_of values.new.items ≡ entries_of values.old.items }
    ensures apart { AreApart values.new.items }
    ensures bare { NoneBare values.new.items }
{
    values.retain(|valued| !is_bare(valued));
}

/// Drops the values with no support, where some value was left with none.
#[inline]
pub(crate) fn drop_emptied<V: Partial>(values: &mut Values<V>, emptied: bool)
    requires apart { AreApart values.old.items }
    requires bare { emptied ≡ false → NoneBare values.old.items }
    ensures same { entries_of values.new.items ≡ entries_of values.old.items }
    ensures apart { AreApart values.new.items }
    ensures bare { NoneBare values.new.items }
{
    if emptied {
        drop_bare(values);
    }
}

/// Drops the supports with a premise that has a number of `count` or more.
fn drop_wanting(supports: &mut SmallVec<PremiseSet, 1>, count: usize)
    ensures { supports.new.items ≡ filter (λ s. is_below count s) supports.old.items }
{
    supports.retain(|support| support.is_below(count));
}

/// Drops the entries whose support holds a premise with a number of `count` or more. A value may be
/// left with no support.
pub(crate) fn drop_from<V: Partial>(values: &mut [Valued<V>], count: usize)
    ensures left { entries_of values.new ≡ filter (λ e. is_below count e.support)
        (entries_of values.old) }
    ensures values { values_of values.new ≡ values_of values.old }
{
    for valued in values {
        drop_wanting(&mut valued.supports, count);
    }
}
