//! A nogood beside what is looked at first of it.
ghost use Rattle.std.specs.Prelude.{◌≡◌, ◌<◌, ◌≤◌, ◌&&◌, List, ℕ, length, false, All, None};
ghost use Rattle.std.specs.Prelude.{Contains, IsTrue, IfOk, IfSome, vec_capacity, vec_len};
ghost use Rattle.std.specs.List.Sorted.{IsPartitionPoint, IsStrictlyIncreasing};
ghost use Rattle.prop_numbers.specs.Sets.{set_of, is_within};
ghost use Rattle.prop_numbers.specs.Signatures.{remainders, AreRemainders};
ghost use Rattle.prop_nogoods.specs.Stores.{has_part, staying, lacking, AreBySize};
ghost use Rattle.prop_nogoods.specs.inner.Endings.{EndsSo};
ghost use Rattle.prop_nogoods.specs.inner.Stores.{IsPartOfNone};

use crate::counted::Counted;
use prop_premises::{Premise, PremiseSet, Signature, Worldview};
use std::alloc::{AllocError, Global};
use std::marker::Model;

/// A set of premises that can't all be believed, with how many they are and a signature. Of most
/// sets that aren't believed the signature tells it, and the set itself isn't looked at.
#[derive(Drop)]
pub(crate) struct Listed {
    signature: Signature,
    counted: Counted,
}

impl Model for Listed {
    ghost Value = { List ℕ };

    ghost view = { λ l. l.counted };

    ghost invariant = { λ l. IsStrictlyIncreasing l.counted
        × AreRemainders (set_of l.counted) (remainders l.signature) };
}

impl Listed {
    /// The set, with what is looked at first of it.
    pub(crate) fn new(alloc: Global, premises: PremiseSet) -> Result<Listed, AllocError>
        ensures { IfOk result (λ l. l ≡ premises) }
    {
        let signature = premises.signature();
        let counted = Counted::new(alloc, premises)?;
        Ok(Listed { signature, counted })
    }

    /// The same set once more.
    pub(crate) fn copy(&self, alloc: Global) -> Result<Listed, AllocError>
        ensures { IfOk result (λ l. l ≡ self.now) }
    {
        let premises = self.premises().copy()?;
        Listed::new(alloc, premises)
    }

    /// The premises that are in both sets.
    pub(crate) fn shared(&self, alloc: Global, other: &Listed) -> Result<Listed, AllocError>
        ensures { IfOk result (λ l. (p : ℕ) → set_of l p
            ≡ (set_of self.now p && set_of other.now p)) }
    {
        let mut shared = self.premises().copy()?;
        for premise in self.premises().iter() {
            if !other.holds(premise) {
                shared = shared.without(premise)?;
            }
        }
        Listed::new(alloc, shared)
    }

    /// How many premises the set has.
    #[inline]
    pub(crate) fn size(&self) -> usize
        ensures { result ≡ length self.now }
    {
        self.counted.size()
    }

    /// Its last premise, none where it has no premise.
    pub(crate) fn last(&self) -> Option<Premise>
        ensures { EndsSo result self.now }
    {
        let mut last = None;
        for premise in self.premises().iter() {
            last = Some(premise);
        }
        last
    }

    /// The set with how many premises it has, for one list more.
    pub(crate) fn counted(&self) -> Result<Counted, AllocError>
        ensures { IfOk result (λ c. c ≡ self.now) }
    {
        self.counted.again()
    }

    /// The set itself.
    #[inline]
    pub(crate) fn premises(&self) -> &PremiseSet
        ensures { result.now ≡ self.now }
    {
        self.counted.premises()
    }

    /// Whether each premise of the set is believed in the worldview, which has this signature. It
    /// looks at the signatures first, and takes no memory.
    #[inline]
    pub(crate) fn is_believed(&self, worldview: &Worldview, signature: Signature) -> bool
        requires { AreRemainders (set_of worldview.now) (remainders signature) }
        ensures { result ≡ is_within (set_of worldview.now) self.now }
    {
        self.signature.is_part_of(signature) && worldview.believes(self.premises())
    }

    /// Whether the premise is in the set. It takes no memory.
    #[inline]
    pub(crate) fn holds(&self, premise: Premise) -> bool
        ensures { result ≡ set_of self.now premise }
    {
        self.premises().contains(premise)
    }

    /// Whether each premise of this set is in the other. It takes no memory.
    #[inline]
    pub(crate) fn is_subset(&self, other: &PremiseSet) -> bool
        ensures { result ≡ is_within (set_of other.now) self.now }
    {
        self.premises().is_subset(other)
    }

    /// Whether each premise of this set is in the other. Of most sets that aren't part of it the
    /// signatures tell it. It takes no memory.
    #[inline(always)]
    pub(crate) fn is_part_of(&self, other: &Listed) -> bool
        ensures { result ≡ is_within (set_of other.now) self.now }
    {
        self.signature.is_part_of(other.signature) && self.premises().is_subset(other.premises())
    }
}

/// The place behind the listed sets that are no larger than this one.
pub(crate) fn place_of(listed: &[Listed], nogood: &Listed) -> usize
    requires { AreBySize listed.now }
    ensures bound { result ≤ length listed.now }
    ensures between { IsPartitionPoint (λ line. length line ≤ length nogood.now)
        (λ line. length nogood.now < length line) listed.now result }
{
    listed.partition_point(|other| other.size() <= nogood.size())
}

/// Whether this set is part of a listed one, where none is part of it. It looks at those that are
/// larger.
pub(crate) fn has_larger(listed: &[Listed], nogood: &Listed) -> bool
    requires by_size { AreBySize listed.now }
    requires in_order { IsStrictlyIncreasing nogood.now }
    requires no_part { has_part listed.now (set_of nogood.now) ≡ false }
    ensures { result ≡ false → IsPartOfNone listed.now nogood.now }
{
    let place = place_of(listed, nogood);
    let behind = &listed[place..];
    behind.iter().any(|larger| nogood.is_part_of(larger))
}

/// Drops the listed sets that this one is part of.
pub(crate) fn drop_larger(listed: &mut Vec<Listed>, nogood: &Listed)
    ensures left { listed.new.items ≡ staying listed.old.items nogood.now }
    ensures capacity { vec_capacity listed.new ≡ vec_capacity listed.old }
    ensures len { vec_len listed.new ≤ vec_len listed.old }
{
    listed.retain(|larger| !nogood.is_part_of(larger));
}

/// Drops the listed sets that hold the premise.
pub(crate) fn drop_holding(listed: &mut Vec<Listed>, premise: Premise)
    ensures left { listed.new.items ≡ lacking listed.old.items premise }
    ensures capacity { vec_capacity listed.new ≡ vec_capacity listed.old }
{
    listed.retain(|nogood| !nogood.holds(premise));
}

/// The first listed set of which every premise is believed in the worldview, which has this
/// signature.
#[inline]
pub(crate) fn first_believed<'a>(
    listed: &'a [Listed],
    worldview: &Worldview,
    signature: Signature,
) -> Option<&'a Listed>
    requires { AreRemainders (set_of worldview.now) (remainders signature) }
    ensures listed { IfSome result (λ s. Contains listed.now s.now) }
    ensures believed { IfSome result (λ s. IsTrue (is_within (set_of worldview.now) s.now)) }
    ensures none { result ≡ None → has_part listed.now (set_of worldview.now) ≡ false }
{
    listed.iter().find(
        |nogood| -> bool
            requires { AreRemainders (set_of worldview.now) (remainders signature) }
            ensures { result ≡ is_within (set_of worldview.entry.now) nogood.now.now }
        { nogood.is_believed(worldview, signature) },
    )
}
