//! The entries of one value.
ghost use Rattle.std.specs.Prelude.{◌≡◌, ◌≢◌, ◌↔◌, ◌≤◌, ◌+◌, false, not, List, [], length, filter};
ghost use Rattle.std.specs.Prelude.{Any, IsTrue, Ok, IsOk, IfOk, IfSome, OnOk, OnErr};
ghost use Rattle.std.specs.List.{list_any};
ghost use Rattle.prop_numbers.specs.Sets.{Members, set_of, is_within, is_below, is_at_most_one_of};
ghost use Rattle.prop_numbers.specs.Sets.{IsBelow};
ghost use Rattle.prop_tms.specs.Beliefs.{belief_of, IsLeastBelief, Subsumes, NoneSubsumed};
ghost use Rattle.prop_tms.specs.Beliefs.{NoneAlike, IsNeedless, Adds, IsLean, IsShort, Trims};
ghost use Rattle.prop_tms.specs.Beliefs.{AreNeeded, joined_with};
ghost use Rattle.prop_tms.specs.Kept.{IsGrownBy};
ghost use Rattle.prop_tms.specs.Values.{entries_of};
ghost use Rattle.prop_tms.specs.inner.Values.{AreKept};
ghost use Rattle.prop_tms.specs.declared.supported.Supported.{Supported};

use crate::purging::drop_resting;
use crate::shifting::may_shift;
use crate::strongest::{belief, sole_support, strongest};
use crate::supported::Supported;
use crate::trimming::{count_derived, trim};
use crate::values::{
    Values, count, drop_bare, drop_emptied, drop_from, drop_subsumed, is_alone, push_apart,
    put_alone, room_for, surveyed,
};
use prop_lattice::Partial;
use prop_premises::{Premise, PremiseSet, Shift, Worldview};
use smallvec::SmallVec;
use std::alloc::{AllocError, Global};
use std::marker::Model;

/// Whether an addition said something new.
#[derive(Clone, Copy, Debug, PartialEq, Eq)]
pub enum Change {
    Same,
    Grown,
}

/// What is known of one thing: entries, each a value with the premises that it rests on. None
/// subsumes another, and no two rest on the same premises. Each value is kept once, with the
/// supports of its entries.
#[derive(Drop)]
pub struct Tms<V: Partial> {
    values: Values<V>,
}

impl<V: Partial> Model for Tms<V> {
    ghost Value = { List (Supported V) };

    ghost view = { λ t. entries_of t.values.items };

    ghost invariant = { λ t. AreKept V.below t.values.items };
}

impl<V: Partial> Tms<V> {
    /// No entries. It takes no memory.
    pub fn new(alloc: Global) -> Tms<V>
        ensures { result ≡ [] }
    {
        Tms {
            values: SmallVec::new(alloc),
        }
    }

    /// How many entries there are.
    pub fn len(&self) -> usize
        ensures { result ≡ length self.now }
    {
        count(&self.values)
    }

    /// Adds a value that is known where the support is believed; it joins what an entry with the
    /// same support says. What says nothing new takes no memory; after want of memory nothing has
    /// changed. More entries than a `usize` counts are want of memory too.
    pub fn add(&mut self, value: V, support: PremiseSet) -> Result<Change, AllocError>
        ensures adds { OnOk result (Adds V.bottom V.join self.old self.new
            (record { value = value; support = support })) }
        ensures same { IfOk result (λ change.
            (change ≡ Change.Same) ↔ IsNeedless V.below V.bottom self.old
            (record { value = value; support = support })) }
        ensures needless { IsNeedless V.below V.bottom self.old
            (record { value = value; support = support }) → result ≡ Ok Change.Same }
        ensures unchanged { IfOk result (λ change. change ≡ Change.Same → self.new ≡ self.old) }
        ensures apart { NoneSubsumed V.below self.new }
        ensures alone { NoneAlike self.new }
        ensures stay { OnOk result (IsGrownBy
            (Subsumes V.below (joined_with V.bottom V.join self.old
            (record { value = value; support = support }))) self.old self.new
            (joined_with V.bottom V.join self.old (record { value = value; support = support }))) }
        ensures len { length self.new ≤ length self.old + 1 }
        ensures err { OnErr result (self.new ≡ self.old) }
    {
        let entry = Supported { value, support };
        let Some(survey) = surveyed(&self.values, &entry) else {
            return Ok(Change::Same);
        };
        if survey.count == usize::MAX {
            return Err(AllocError);
        }
        let value = survey.value;
        let support = entry.support;
        let entry = Supported { value, support };
        if !survey.may_cover {
            push_apart(&mut self.values, entry)?;
            return Ok(Change::Grown);
        }
        if is_alone(&self.values, &entry.support) {
            put_alone(&mut self.values, entry);
            return Ok(Change::Grown);
        }
        let place = room_for(&mut self.values, value)?;
        let emptied = drop_subsumed(&mut self.values, &entry);
        self.values[place].supports.push(entry.support)?;
        drop_emptied(&mut self.values, emptied);
        Ok(Change::Grown)
    }

    /// What the believed entries say together. It takes no memory.
    pub fn believed_value(&self, worldview: &Worldview) -> V
        ensures value { result ≡ belief_of V.bottom V.join (set_of worldview.now) self.now }
        ensures least { IsLeastBelief V.below (set_of worldview.now) self.now result }
    {
        belief(&self.values, worldview)
    }

    /// Whether some entry is believed in just one of two worldviews. Where none is, what the
    /// believed entries say together is the same in both. It takes no memory.
    pub fn may_shift(&self, shift: &Shift<'_>) -> bool
        ensures some { IsTrue result ↔ Any (λ e. is_within (set_of shift.now.before.now) e.support
            ≢ is_within (set_of shift.now.after.now) e.support) self.now }
        ensures stays { result ≡ false
            → belief_of V.bottom V.join (set_of shift.now.before.now) self.now
            ≡ belief_of V.bottom V.join (set_of shift.now.after.now) self.now }
    {
        may_shift(&self.values, shift)
    }

    /// What the believed entries say together, which is this value, with the support of believed
    /// entries that say so, none of which can be left out. It has no more premises than any
    /// believed entry that alone says as much. Where they say nothing it takes no memory.
    pub fn strongest(&self, worldview: &Worldview, value: V) -> Result<Supported<V>, AllocError>
        requires { value ≡ belief_of V.bottom V.join (set_of worldview.now) self.now }
        ensures value { IfOk result (λ e.
            e.value ≡ belief_of V.bottom V.join (set_of worldview.now) self.now) }
        ensures nothing { belief_of V.bottom V.join (set_of worldview.now) self.now ≡ V.bottom
            → IsOk result }
        ensures lean { IfOk result (λ e.
            IsLean V.bottom V.join self.now (set_of worldview.now) e.value e.support) }
        ensures believed { IfOk result (λ e. IsTrue (is_within (set_of worldview.now) e.support)) }
        ensures enough { IfOk result
            (λ e. belief_of V.bottom V.join (set_of e.support) self.now ≡ e.value) }
        ensures short { IfOk result (λ e.
            IsShort self.now (set_of worldview.now) e.value e.support) }
    {
        strongest(*self.values.allocator(), &self.values, worldview, value)
    }

    /// The support of the only believed entry, where there is just one and it says something: with
    /// it alone as much is believed. It takes no memory.
    #[inline]
    pub fn sole_support(&self, worldview: &Worldview) -> Option<&PremiseSet>
        ensures { IfSome result (λ s.
            IsLean V.bottom V.join self.now (set_of worldview.now)
            (belief_of V.bottom V.join (set_of worldview.now) self.now) s.now) }
    {
        sole_support(&self.values, worldview)
    }

    /// How many entries rest on something else than one told premise. It takes no memory.
    pub fn derived(&self, told: &PremiseSet) -> usize
        ensures { result ≡ length (filter (λ e. not (is_at_most_one_of (set_of told.now) e.support))
            self.now) }
    {
        count_derived(&self.values, told)
    }

    /// Drops entries that the worldview does without, but for those that rest on nothing or on one
    /// told premise alone. It takes no memory.
    pub fn trim(&mut self, told: &PremiseSet, worldview: &Worldview)
        ensures trims { Trims V.bottom V.join (set_of told.now) (set_of worldview.now) self.old
            self.new }
        ensures needed { AreNeeded V.bottom V.join (set_of told.now) (set_of worldview.now)
            self.new }
    {
        trim(&mut self.values, told, worldview);
    }

    /// Drops the entries whose support holds a premise with a number of `count` or more. It takes
    /// no memory.
    pub fn back(&mut self, count: usize)
        ensures beliefs { (w : Members) → IsBelow count w
            → belief_of V.bottom V.join w self.new ≡ belief_of V.bottom V.join w self.old }
        ensures left { self.new ≡ filter (λ e. is_below count e.support) self.old }
    {
        drop_from(&mut self.values, count);
        drop_bare(&mut self.values);
    }

    /// Drops the entries whose support holds the premise, and tells whether there were any. No
    /// other entry is lost: what an entry with the premise subsumed held it too. It takes no
    /// memory.
    pub fn purge(&mut self, premise: Premise) -> bool
        ensures left { self.new ≡ filter (λ e. not (set_of e.support premise)) self.old }
        ensures went { result ≡ list_any (λ e. set_of e.support premise) self.old }
        ensures beliefs { (w : Members) → w premise ≡ false
            → belief_of V.bottom V.join w self.new ≡ belief_of V.bottom V.join w self.old }
    {
        let went = drop_resting(&mut self.values, premise);
        drop_bare(&mut self.values);
        went
    }
}
