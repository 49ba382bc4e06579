//! Nogoods that end with the same premise, some of them together.
ghost use Rattle.std.specs.Prelude.{◌≡◌, ◌↔◌, ◌<◌, ◌≤◌, ◌++◌, ◌∷◌, ℕ, [], length, get_or, insert};
ghost use Rattle.std.specs.Prelude.{nat_lt, vec_capacity, false, All, None, Contains, IsTrue, IfOk};
ghost use Rattle.std.specs.Prelude.{IfSome, OnOk, OnErr, map};
ghost use Rattle.std.specs.List.Sorted.{IsPartitionPoint, IsStrictlyIncreasing};
ghost use Rattle.prop_numbers.specs.Sets.{set_of, is_within};
ghost use Rattle.prop_numbers.specs.Signatures.{remainders, AreRemainders};
ghost use Rattle.prop_nogoods.specs.Stores.{has_part, staying, AreBySize, PartsEndBelow};
ghost use Rattle.prop_nogoods.specs.inner.Endings.{Group, EndsSo, AreInOrder, end_of, sets_of};
ghost use Rattle.prop_nogoods.specs.inner.Endings.{HasOneMore, HasRoomFor, HaveAll, AreNoLarger};
ghost use Rattle.prop_nogoods.specs.inner.Endings.{left_of, lacking_of};
ghost use Rattle.prop_nogoods.specs.inner.Stores.{IsPartOfNone};

use crate::listed::{Listed, drop_holding, drop_larger, first_believed, has_larger, place_of};
use prop_premises::{Premise, PremiseSet, Signature, Worldview};
use std::alloc::{AllocError, Global};
use std::marker::Model;

/// As many nogoods as one ending takes.
const MOST: usize = 1_024;

/// Some of the nogoods that end with the same premise: where it, or another premise that each of
/// them has, isn't believed, none of them is.
#[derive(Drop)]
pub(crate) struct Ending {
    /// None where the only nogood is the set of no premises.
    last: Option<Premise>,
    /// Premises that each of the nogoods has.
    common: Listed,
    /// No nogood has more premises than these.
    largest: usize,
    /// The smallest come first.
    nogoods: Vec<Listed>,
}

impl Model for Ending {
    ghost Value = { Group };

    ghost view = { λ e. record {
      last = e.last;
      common = e.common;
      largest = e.largest;
      sets = e.nogoods.items;
      capacity = vec_capacity e.nogoods;
    } };

    ghost invariant = { λ e. All (EndsSo e.last) e.nogoods.items × AreBySize e.nogoods.items
        × HaveAll e.common e.nogoods.items × AreNoLarger e.largest e.nogoods.items };
}

impl Ending {
    /// No nogoods, with room for this one.
    fn with_room(
        alloc: Global,
        last: Option<Premise>,
        nogood: &Listed,
    ) -> Result<Ending, AllocError>
        ensures last { IfOk result (λ e. e.last ≡ last) }
        ensures empty { IfOk result (λ e. e.sets ≡ []) }
        ensures room { IfOk result (HasRoomFor nogood.now) }
    {
        let common = nogood.copy(alloc)?;
        let nogoods = Vec::with_capacity(alloc, 1)?;
        Ok(Ending {
            last,
            common,
            largest: nogood.size(),
            nogoods,
        })
    }

    /// The premise that each of its nogoods has.
    #[inline]
    fn last(&self) -> Option<Premise>
        ensures { result ≡ self.now.last }
    {
        self.last
    }

    /// Whether its last premise comes before this one. None comes before each premise.
    #[inline]
    fn is_before(&self, last: Option<Premise>) -> bool
        ensures { result ≡ nat_lt (end_of self.now.last) (end_of last) }
    {
        self.last < last
    }

    /// Whether it has as many nogoods as it takes.
    #[inline]
    fn is_full(&self) -> bool
        ensures { IsTrue result ↔ (MOST ≤ length self.now.sets) }
    {
        self.nogoods.len() >= MOST
    }

    /// Makes room for this nogood.
    fn make_room(&mut self, nogood: &Listed) -> Result<(), AllocError>
        ensures last { self.new.last ≡ self.old.last }
        ensures same { self.new.sets ≡ self.old.sets }
        ensures room { OnOk result (HasRoomFor nogood.now self.new) }
    {
        self.nogoods.reserve(1)?;
        self.largest = self.largest.max(nogood.size());
        if !self.common.is_part_of(nogood) {
            self.common = self.common.shared(*self.nogoods.allocator(), nogood)?;
        }
        Ok(())
    }

    /// Adds a nogood that ends so, behind those that are no larger.
    fn add(&mut self, nogood: Listed)
        requires ends_so { EndsSo self.old.last nogood }
        requires room { HasRoomFor nogood self.old }
        ensures last { self.new.last ≡ self.old.last }
        ensures sets { HasOneMore self.old.sets self.new.sets nogood }
    {
        let place = place_of(&self.nogoods, &nogood);
        drop(self.nogoods.insert(place, nogood));
    }

    /// Drops the nogoods that this one is part of. It takes no memory.
    fn drop_larger(&mut self, nogood: &Listed)
        ensures { self.new ≡ left_of nogood.now self.old }
    {
        drop_larger(&mut self.nogoods, nogood);
    }

    /// Drops the nogoods that hold the premise. It takes no memory.
    fn purge(&mut self, premise: Premise)
        ensures { self.new ≡ lacking_of premise self.old }
    {
        drop_holding(&mut self.nogoods, premise);
    }

    /// Whether one of its nogoods is part of this set.
    fn has_part(&self, set: &PremiseSet) -> bool
        ensures { result ≡ has_part self.now.sets (set_of set.now) }
    {
        self.common.is_subset(set) && self.nogoods.iter().any(|part| part.is_subset(set))
    }

    /// Whether this set is part of one of its nogoods, where none of them is part of it. It looks
    /// at those that are larger.
    fn has_larger(&self, nogood: &Listed) -> bool
        requires in_order { IsStrictlyIncreasing nogood.now }
        requires no_part { has_part self.now.sets (set_of nogood.now) ≡ false }
        ensures { result ≡ false → IsPartOfNone self.now.sets nogood.now }
    {
        nogood.size() < self.largest && has_larger(&self.nogoods, nogood)
    }

    /// The first nogood of which every premise is believed in the worldview, which has this
    /// signature. Where one that all of them have isn't, or the last premise has a number below
    /// this one, it looks at no nogood.
    #[inline]
    fn first_believed(
        &self,
        worldview: &Worldview,
        signature: Signature,
        from: Premise,
    ) -> Option<&Listed>
        requires { AreRemainders (set_of worldview.now) (remainders signature) }
        ensures listed { IfSome result (λ s. Contains self.now.sets s.now) }
        ensures believed { IfSome result (λ s. IsTrue (is_within (set_of worldview.now) s.now)) }
        ensures none { result ≡ None → PartsEndBelow self.now.sets (set_of worldview.now) from }
    {
        let last = self.last?;
        if last < from || !self.common.is_believed(worldview, signature) {
            return None;
        }
        first_believed(&self.nogoods, worldview, signature)
    }
}

/// The place behind the endings whose last premise comes before this one.
#[inline]
fn place_for(endings: &[Ending], last: Option<Premise>) -> usize
    requires { AreInOrder endings.now }
    ensures bound { result ≤ length endings.now }
    ensures between { IsPartitionPoint (λ g. end_of g.last < end_of last)
        (λ g. end_of last ≤ end_of g.last) endings.now result }
{
    endings.partition_point(|ending| ending.is_before(last))
}

/// Whether one of the nogoods is part of the set. It looks at those endings alone of which what the
/// nogoods have in common is.
pub(crate) fn has_part_among(endings: &[Ending], set: &PremiseSet) -> bool
    ensures { result ≡ has_part (sets_of endings.now) (set_of set.now) }
{
    endings.iter().any(|ending| ending.has_part(set))
}

/// Whether the set is part of one of the nogoods, where none of them is part of it. It looks at
/// those alone that end no earlier and are larger.
pub(crate) fn has_larger_among(endings: &[Ending], nogood: &Listed) -> bool
    requires groups { AreInOrder endings.now }
    requires in_order { IsStrictlyIncreasing nogood.now }
    requires no_part { has_part (sets_of endings.now) (set_of nogood.now) ≡ false }
    ensures { result ≡ false → IsPartOfNone (sets_of endings.now) nogood.now }
{
    let place = place_for(endings, nogood.last());
    let behind = &endings[place..];
    for ending in behind {
        if ending.has_larger(nogood) {
            return true;
        }
    }
    false
}

/// The place of an ending with this last premise, with room for the nogood. Where there is none, or
/// the one added last is full, one is added, in front of those with this last premise.
fn room_for(
    endings: &mut Vec<Ending>,
    last: Option<Premise>,
    nogood: &Listed,
) -> Result<usize, AllocError>
    requires { AreInOrder endings.old.items }
    ensures in_order { AreInOrder endings.new.items }
    ensures same { sets_of endings.new.items ≡ sets_of endings.old.items }
    ensures place { IfOk result (λ at. at < length endings.new.items) }
    ensures last { IfOk result (λ at. (d : Group) → (get_or endings.new.items at d).last ≡ last) }
    ensures room { IfOk result (λ at. (d : Group)
        → HasRoomFor nogood.now (get_or endings.new.items at d)) }
{
    let place = place_for(endings, last);
    if place < endings.len() && endings[place].last() == last && !endings[place].is_full() {
        endings[place].make_room(nogood)?;
    } else {
        let ending = Ending::with_room(*endings.allocator(), last, nogood)?;
        endings.insert(place, ending)?;
    }
    Ok(place)
}

/// Drops the nogoods that this one is part of, at each ending. It takes no memory.
fn drop_larger_everywhere(endings: &mut [Ending], nogood: &Listed)
    ensures { endings.new ≡ map (left_of nogood.now) endings.old }
{
    for ending in endings {
        ending.drop_larger(nogood);
    }
}

/// Drops the nogoods that this one is part of, at each ending, where there may be some. It takes no
/// memory.
fn drop_any_larger_everywhere(endings: &mut [Ending], nogood: &Listed, has_larger: bool)
    requires none { has_larger ≡ false → IsPartOfNone (sets_of endings.old) nogood.now }
    ensures { endings.new ≡ map (left_of nogood.now) endings.old }
{
    if has_larger {
        drop_larger_everywhere(endings, nogood);
    }
}

/// Drops the nogoods that hold the premise, at each ending. It takes no memory.
pub(crate) fn purge_everywhere(endings: &mut [Ending], premise: Premise)
    ensures { endings.new ≡ map (lacking_of premise) endings.old }
{
    for ending in endings {
        ending.purge(premise);
    }
}

/// Adds the set to those that end with its last premise; the nogoods that it is part of go, where
/// there may be some. After want of memory the nogoods are the same.
pub(crate) fn join(
    endings: &mut Vec<Ending>,
    nogood: Listed,
    has_larger: bool,
) -> Result<(), AllocError>
    requires in_order { AreInOrder endings.old.items }
    requires none { has_larger ≡ false → IsPartOfNone (sets_of endings.old.items) nogood }
    ensures in_order { AreInOrder endings.new.items }
    ensures ok { OnOk result ((place : ℕ)
        × (sets_of endings.new.items ≡ insert (staying (sets_of endings.old.items) nogood) place
        nogood)) }
    ensures err { OnErr result (sets_of endings.new.items ≡ sets_of endings.old.items) }
{
    let place = room_for(endings, nogood.last(), &nogood)?;
    drop_any_larger_everywhere(endings, &nogood, has_larger);
    endings[place].add(nogood);
    Ok(())
}

/// A nogood of which every premise is believed, of the first ending that has one. It looks at no
/// ending whose premise has a number below this one, and takes no memory.
pub(crate) fn earliest_believed<'a>(
    endings: &'a [Ending],
    worldview: &Worldview,
    from: Premise,
) -> Option<&'a Listed>
    requires { AreInOrder endings.now }
    ensures listed { IfSome result (λ s. Contains (sets_of endings.now) s.now) }
    ensures believed { IfSome result (λ s. IsTrue (is_within (set_of worldview.now) s.now)) }
    ensures none { result ≡ None → PartsEndBelow (sets_of endings.now) (set_of worldview.now) from }
{
    let signature = worldview.signature();
    let place = place_for(endings, Some(from));
    let behind = &endings[place..];
    for ending in behind {
        if let Some(nogood) = ending.first_believed(worldview, signature, from) {
            return Some(nogood);
        }
    }
    None
}
