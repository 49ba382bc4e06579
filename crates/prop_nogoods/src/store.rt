//! A store of nogoods, none of which is part of another.
ghost use Rattle.std.specs.Prelude.{◌≡◌, ◌↔◌, ◌≤◌, ◌<◌, ◌+◌, List, ℕ, [], length, not, false, All};
ghost use Rattle.std.specs.Prelude.{None, Ok, Contains, IsTrue, IfOk, IfSome, OnOk, OnErr};
ghost use Rattle.std.specs.List.Sorted.{IsStrictlyIncreasing, IsPartitionPoint};
ghost use Rattle.prop_numbers.specs.Sets.{set_of, is_within};
ghost use Rattle.prop_nogoods.specs.inner.Endings.{AreInOrder, sets_of};
ghost use Rattle.prop_nogoods.specs.Stores.{has_part, lacking, with_set, AreMinimal, AreBySize};
ghost use Rattle.prop_nogoods.specs.Stores.{NoneEndsBelow, AddsSet};
ghost use Rattle.prop_nogoods.specs.inner.Stores.{HaveSame, IsPartOfNone};

use crate::counted::{Counted, drop_any_larger, drop_holding, first_believed, place_of};
use crate::ending::{
    Ending, earliest_believed, has_larger_among, has_part_among, join, purge_everywhere,
};
use crate::listed::Listed;
use crate::nogoods::Nogoods;
use prop_premises::{Premise, PremiseSet, Worldview};
use std::alloc::{AllocError, Global};
use std::marker::Model;

/// Sets of premises that can't all be believed, none of which is part of another.
///
/// The smallest come first, and those of one size in the order in which they were added.
#[derive(Drop)]
pub struct Store {
    nogoods: Vec<Counted>,
    /// The same nogoods, each with some that end with the same premise; those come first whose last
    /// premise comes early, and of one last premise those that were added late.
    by_last: Vec<Ending>,
}

impl Model for Store {
    ghost Value = { List (List ℕ) };

    ghost view = { λ s. s.nogoods.items };

    ghost invariant = { λ s. AreMinimal s.nogoods.items × All IsStrictlyIncreasing s.nogoods.items
        × AreBySize s.nogoods.items × HaveSame s.nogoods.items (sets_of s.by_last.items)
        × AreInOrder s.by_last.items };
}

impl Store {
    /// No nogoods. It takes no memory.
    pub fn new(alloc: Global) -> Store
        ensures { result ≡ [] }
    {
        Store {
            nogoods: Vec::new(alloc),
            by_last: Vec::new(alloc),
        }
    }

    /// How many nogoods are listed.
    pub fn len(&self) -> usize
        ensures { result ≡ length self.now }
    {
        self.nogoods.len()
    }

    pub fn is_empty(&self) -> bool
        ensures { IsTrue result ↔ (self.now ≡ []) }
    {
        self.nogoods.is_empty()
    }

    /// The nogoods, the smallest first, and those of one size in the order in which they were
    /// added. None is part of another, and the premises of each are in order of number.
    pub fn iter(&self) -> Nogoods<'_>
        ensures all { result ≡ self.now }
        ensures minimal { AreMinimal self.now }
        ensures in_order { All IsStrictlyIncreasing self.now }
        ensures by_size { AreBySize self.now }
    {
        Nogoods::new(&self.nogoods)
    }

    /// Whether this set is part of a listed one, where none is part of it.
    fn has_larger(&self, nogood: &Listed) -> bool
        requires in_order { IsStrictlyIncreasing nogood.now }
        requires no_part { has_part self.now (set_of nogood.now) ≡ false }
        ensures { result ≡ false → IsPartOfNone self.now nogood.now }
    {
        has_larger_among(&self.by_last, nogood)
    }

    /// Adds a nogood behind those that are no larger, and answers whether it says more than those
    /// listed; the listed ones that it is part of go.
    ///
    /// Where a part of it is listed it takes no memory, and nothing changes. After want of memory
    /// nothing has changed.
    pub fn add(&mut self, nogood: PremiseSet) -> Result<bool, AllocError>
        ensures adds { OnOk result (AddsSet self.old self.new nogood) }
        ensures new { IfOk result (λ is_new. is_new ≡ not (has_part self.old (set_of nogood))) }
        ensures joins { IfOk result (λ is_new. IsTrue is_new
            → self.new ≡ with_set self.old nogood) }
        ensures known { IsTrue (has_part self.old (set_of nogood))
            → (result ≡ Ok false) × (self.new ≡ self.old) }
        ensures minimal { AreMinimal self.new }
        ensures in_order { All IsStrictlyIncreasing self.new }
        ensures by_size { AreBySize self.new }
        ensures len { length self.new ≤ length self.old + 1 }
        ensures err { OnErr result (self.new ≡ self.old) }
    {
        if has_part_among(&self.by_last, &nogood) {
            return Ok(false);
        }
        self.add_new(nogood)?;
        Ok(true)
    }

    /// Adds a nogood of which no part is listed, behind those that are no larger; the listed ones
    /// that it is part of go.
    ///
    /// After want of memory nothing has changed.
    pub fn add_new(&mut self, nogood: PremiseSet) -> Result<(), AllocError>
        requires { has_part self.old (set_of nogood) ≡ false }
        ensures adds { OnOk result (AddsSet self.old self.new nogood) }
        ensures joins { OnOk result (self.new ≡ with_set self.old nogood) }
        ensures minimal { AreMinimal self.new }
        ensures in_order { All IsStrictlyIncreasing self.new }
        ensures by_size { AreBySize self.new }
        ensures len { length self.new ≤ length self.old + 1 }
        ensures err { OnErr result (self.new ≡ self.old) }
    {
        let nogood = Listed::new(*self.nogoods.allocator(), nogood)?;
        let has_larger = self.has_larger(&nogood);
        self.nogoods.reserve(1)?;
        let counted = nogood.counted()?;
        join(&mut self.by_last, nogood, has_larger)?;
        drop_any_larger(&mut self.nogoods, &counted, has_larger);
        let place = place_of(&self.nogoods, &counted);
        self.nogoods.insert(place, counted)?;
        Ok(())
    }

    /// A nogood of which every premise is believed, of the smallest size that there is, none where
    /// there is no such nogood. It takes no memory.
    pub fn blocks(&self, worldview: &Worldview) -> Option<&PremiseSet>
        ensures listed { IfSome result (λ s. Contains self.now s.now) }
        ensures believed { IfSome result (λ s. IsTrue (is_within (set_of worldview.now) s.now)) }
        ensures smallest { IfSome result
            (λ s. All (λ line. IsTrue (is_within (set_of worldview.now) line)
            → length s.now ≤ length line) self.now) }
        ensures none { result ≡ None → has_part self.now (set_of worldview.now) ≡ false }
    {
        let nogood = first_believed(&self.nogoods, worldview)?;
        Some(nogood.premises())
    }

    /// A nogood of which every premise is believed, none where there is no such nogood, of a store
    /// in which each that is believed ends with this premise or a later one, or has none. It looks
    /// at no nogood whose last premise isn't believed or comes before this one, and takes no
    /// memory.
    pub fn blocks_from(&self, worldview: &Worldview, from: Premise) -> Option<&PremiseSet>
        requires { NoneEndsBelow self.now (set_of worldview.now) from }
        ensures listed { IfSome result (λ s. Contains self.now s.now) }
        ensures believed { IfSome result (λ s. IsTrue (is_within (set_of worldview.now) s.now)) }
        ensures none { result ≡ None → has_part self.now (set_of worldview.now) ≡ false }
    {
        match self.nogoods.first() {
            // The set of no premises, beside which there is no other.
            Some(first) if first.size() == 0 => Some(first.premises()),
            _ => {
                let nogood = earliest_believed(&self.by_last, worldview, from)?;
                Some(nogood.premises())
            }
        }
    }

    /// Drops the nogoods that hold the premise. It takes no memory.
    pub fn purge(&mut self, premise: Premise)
        ensures { self.new ≡ lacking self.old premise }
    {
        drop_holding(&mut self.nogoods, premise);
        purge_everywhere(&mut self.by_last, premise);
    }
}
