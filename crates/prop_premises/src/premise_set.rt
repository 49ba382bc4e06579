//! Sets of premises.
ghost use Rattle.std.specs.Prelude.{◌≡◌, ◌↔◌, ◌≤◌, List, ℕ, [], ◌∷◌, length, IsTrue, IfOk, OnOk};
ghost use Rattle.std.specs.Prelude.{false, OnErr};
ghost use Rattle.std.specs.List.Sorted.{IsStrictlyIncreasing};
ghost use Rattle.prop_numbers.specs.Sets.{set_of, union, without, is_below, is_within, is_alike};
ghost use Rattle.prop_numbers.specs.Sets.{is_at_most_one_of, IsSame};
ghost use Rattle.prop_numbers.specs.Changes.{may_change};
ghost use Rattle.prop_numbers.specs.Signatures.{remainders, AreRemainders};

use prop_numbers::{Change, NumberSet, Numbers, Signature};
use std::alloc::{AllocError, Global};
use std::default::MadeWith;
use std::marker::Model;

/// A premise, by its number. Premises are numbered from 0 on, in the order in which their names
/// first appeared.
pub type Premise = u16;

/// A set of premises. No call takes memory for sets of which all numbers are below 128.
#[derive(Drop)]
pub struct PremiseSet {
    numbers: NumberSet,
}

impl Model for PremiseSet {
    ghost Value = { List ℕ };

    ghost view = { λ s. s.numbers };

    ghost invariant = { λ s. IsStrictlyIncreasing s.numbers };
}

/// The set of no premises, so that a few sets can stand in a value itself.
impl MadeWith<Global> for PremiseSet {
    ghost is_made_with = { λ s. s ≡ [] };

    fn made_with(alloc: Global) -> PremiseSet {
        PremiseSet::empty(alloc)
    }
}

impl PremiseSet {
    /// The set of no premises. It takes no memory.
    pub fn empty(alloc: Global) -> PremiseSet
        ensures { result ≡ [] }
    {
        PremiseSet {
            numbers: NumberSet::empty(alloc),
        }
    }

    /// The set of one premise.
    pub fn single(alloc: Global, premise: Premise) -> Result<PremiseSet, AllocError>
        ensures { IfOk result (λ s. s ≡ premise ∷ []) }
    {
        let numbers = NumberSet::single(alloc, premise);
        Ok(PremiseSet { numbers })
    }

    /// The premises of both sets.
    pub fn union(&self, other: &PremiseSet) -> Result<PremiseSet, AllocError>
        ensures { IfOk result (λ s. IsSame (set_of s)
            (union (set_of self.now) (set_of other.now))) }
    {
        let numbers = self.numbers.union(&other.numbers)?;
        Ok(PremiseSet { numbers })
    }

    /// The premises of another set are in this one too. Where they are already it takes no memory;
    /// after want of memory nothing has changed.
    #[inline]
    pub fn unite(&mut self, other: &PremiseSet) -> Result<(), AllocError>
        ensures ok { OnOk result (IsSame (set_of self.new)
            (union (set_of self.old) (set_of other.now))) }
        ensures err { OnErr result (self.new ≡ self.old) }
    {
        if !other.is_subset(self) {
            self.numbers = self.numbers.union(&other.numbers)?;
        }
        Ok(())
    }

    /// The set, but for one premise.
    pub fn without(&self, premise: Premise) -> Result<PremiseSet, AllocError>
        ensures { IfOk result (λ s. IsSame (set_of s) (without (set_of self.now) premise)) }
    {
        let numbers = self.numbers.without(premise)?;
        Ok(PremiseSet { numbers })
    }

    /// The same set again.
    pub fn copy(&self) -> Result<PremiseSet, AllocError>
        ensures { IfOk result (λ s. s ≡ self.now) }
    {
        let numbers = self.numbers.copy(self.numbers.alloc())?;
        Ok(PremiseSet { numbers })
    }

    /// Whether each premise of this set is in the other. It takes no memory.
    #[inline]
    pub fn is_subset(&self, other: &PremiseSet) -> bool
        ensures { result ≡ is_within (set_of other.now) self.now }
    {
        self.numbers.is_part_of(&other.numbers)
    }

    /// What is looked at first of the set, to tell that it is no part of another. It takes no
    /// memory.
    pub fn signature(&self) -> Signature
        ensures { AreRemainders (set_of self.now) (remainders result) }
    {
        self.numbers.signature()
    }

    /// Whether some premise of the set may be one that changes. It takes no memory.
    #[inline(always)]
    pub fn meets(&self, change: &Change) -> bool
        ensures { result ≡ false → (p : ℕ) → IsTrue (set_of self.now p)
            → may_change change.now p ≡ false }
    {
        self.numbers.meets(change)
    }

    /// Whether the same premises are in both sets. It takes no memory.
    pub fn is_same(&self, other: &PremiseSet) -> bool
        ensures { result ≡ is_alike self.now other.now }
    {
        self.is_subset(other) && other.is_subset(self)
    }

    /// Whether the set has no premise, or a single one that is in the other set. It takes no
    /// memory.
    pub fn is_at_most_one_of(&self, other: &PremiseSet) -> bool
        ensures { result ≡ is_at_most_one_of (set_of other.now) self.now }
    {
        self.numbers.is_at_most_one_of(&other.numbers)
    }

    /// Whether the premise is in the set. It takes no memory.
    #[inline]
    pub fn contains(&self, premise: Premise) -> bool
        ensures { result ≡ set_of self.now premise }
    {
        self.numbers.has(premise)
    }

    /// Whether each premise of the set has a number below the bound. It takes no memory.
    pub fn is_below(&self, bound: usize) -> bool
        ensures { result ≡ is_below bound self.now }
    {
        self.numbers.is_below(bound)
    }

    pub(crate) fn numbers(&self) -> &NumberSet
        ensures { result.now ≡ self.now }
    {
        &self.numbers
    }

    /// Whether the set has no premise. It takes no memory.
    #[inline]
    pub fn is_empty(&self) -> bool
        ensures { IsTrue result ↔ (self.now ≡ []) }
    {
        self.numbers.is_empty()
    }

    /// The premises in order of number.
    pub fn iter(&self) -> Numbers<'_>
        ensures all { result ≡ self.now }
        ensures ordered { IsStrictlyIncreasing self.now }
        ensures few { length self.now ≤ 65_536 }
    {
        self.numbers.iter()
    }
}
