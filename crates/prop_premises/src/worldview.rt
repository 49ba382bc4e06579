//! What is believed.
ghost use Rattle.std.specs.Prelude.{◌≡◌, List, [], ◌∷◌, ◌++◌, ℕ, nat_lt, filter, IsOk, IfOk, OnOk};
ghost use Rattle.std.specs.Prelude.{◌≢◌, false, IsTrue, OnErr};
ghost use Rattle.prop_numbers.specs.Sets.{set_of, union, without, is_within, is_alike, IsSame};
ghost use Rattle.prop_numbers.specs.Sets.{IsBelow};
ghost use Rattle.prop_numbers.specs.Changes.{may_change, CoversChange};
ghost use Rattle.prop_numbers.specs.Signatures.{remainders, AreRemainders};

use crate::premise_set::{Premise, PremiseSet};
use prop_numbers::{Change, NumberSet, Signature};
use std::alloc::{AllocError, Global};
use std::marker::Model;

/// A set of premises that are believed together.
#[derive(Drop)]
pub struct Worldview {
    beliefs: NumberSet,
}

impl Model for Worldview {
    ghost Value = { List ℕ };

    ghost view = { λ w. w.beliefs };
}

impl Worldview {
    /// The worldview that believes nothing. It takes no memory.
    pub fn empty(alloc: Global) -> Worldview
        ensures { result ≡ [] }
    {
        Worldview {
            beliefs: NumberSet::empty(alloc),
        }
    }

    /// The worldview that believes just the premises of the set. It takes no memory where there are
    /// none.
    pub fn of(alloc: Global, premises: &PremiseSet) -> Result<Worldview, AllocError>
        ensures none { premises.now ≡ [] → IsOk result }
        ensures of { IfOk result (λ w. w ≡ premises.now) }
    {
        let beliefs = premises.numbers().copy(alloc)?;
        Ok(Worldview { beliefs })
    }

    /// The worldview that believes just these premises.
    pub(crate) fn of_numbers(beliefs: NumberSet) -> Worldview
        ensures { result ≡ beliefs }
    {
        Worldview { beliefs }
    }

    /// One more premise is believed. After want of memory nothing has changed.
    pub fn believe(&mut self, premise: Premise) -> Result<(), AllocError>
        ensures has { OnOk result (IsSame (set_of self.new)
            (union (set_of self.old) (set_of (premise ∷ [])))) }
        ensures last { OnOk result (IsBelow premise (set_of self.old)
            → self.new ≡ self.old ++ premise ∷ []) }
        ensures err { OnErr result (self.new ≡ self.old) }
    {
        self.beliefs.insert(premise)
    }

    /// The premise is no longer believed. It takes no memory.
    pub fn disbelieve(&mut self, premise: Premise)
        ensures { IsSame (set_of self.new) (without (set_of self.old) premise) }
    {
        self.beliefs.remove(premise);
    }

    /// The same worldview again.
    pub fn copy(&self) -> Result<Worldview, AllocError>
        ensures { IfOk result (λ w. w ≡ self.now) }
    {
        let beliefs = self.beliefs.copy(self.beliefs.alloc())?;
        Ok(Worldview { beliefs })
    }

    /// The worldview believes what the other does from now on. Where both stand in as many words,
    /// it takes no memory; after want of memory nothing has changed.
    pub fn become_as(&mut self, other: &Worldview) -> Result<(), AllocError>
        ensures ok { OnOk result (self.new ≡ other.now) }
        ensures err { OnErr result (self.new ≡ self.old) }
    {
        self.beliefs.become_as(&other.beliefs)
    }

    /// Whether the same premises are believed in both worldviews. It takes no memory.
    #[inline]
    pub fn is_same(&self, other: &Worldview) -> bool
        ensures { result ≡ is_alike self.now other.now }
    {
        self.beliefs.is_same(&other.beliefs)
    }

    /// Only the premises with a number below this one stay believed. It takes no memory.
    pub fn back(&mut self, premise: Premise)
        ensures { self.new ≡ filter (λ p. nat_lt p premise) self.old }
    {
        self.beliefs.keep_below(premise);
    }

    /// Whether the premise is believed. It takes no memory.
    #[inline]
    pub fn has(&self, premise: Premise) -> bool
        ensures { result ≡ set_of self.now premise }
    {
        self.beliefs.has(premise)
    }

    /// Whether some premise of the set is believed in just one of this worldview and another. It
    /// takes no memory.
    #[inline]
    pub fn differs_at(&self, other: &Worldview, premises: &PremiseSet) -> bool
        ensures apart { IsTrue result → (p : ℕ) × IsTrue (set_of premises.now p)
            × (set_of self.now p ≢ set_of other.now p) }
        ensures alike { result ≡ false → (p : ℕ) → IsTrue (set_of premises.now p)
            → set_of self.now p ≡ set_of other.now p }
    {
        premises
            .numbers()
            .tells_apart(&self.beliefs, &other.beliefs)
    }

    /// What is looked at first, to tell that a set of premises isn't believed. It takes no memory.
    #[inline]
    pub fn signature(&self) -> Signature
        ensures { AreRemainders (set_of self.now) (remainders result) }
    {
        self.beliefs.signature()
    }

    /// Which premises may be believed in just one of the worldviews. It takes no memory.
    pub fn change(&self, other: &Worldview) -> Change
        ensures { CoversChange (set_of self.now) (set_of other.now) (may_change result) }
    {
        self.beliefs.change(&other.beliefs)
    }

    /// Whether each premise of the set is believed. It takes no memory.
    #[inline]
    pub fn believes(&self, premises: &PremiseSet) -> bool
        ensures { result ≡ is_within (set_of self.now) premises.now }
    {
        premises.numbers().is_part_of(&self.beliefs)
    }
}
