//! Nogoods that are kept, each by a number.
ghost use Rattle.std.specs.Prelude.{◌≡◌, ◌≢◌, ◌⊎◌, ℕ, None, Some, IfOk, IfSome, MatchOption};
ghost use Rattle.std.specs.Prelude.{Contains, false, slice_get};
ghost use Rattle.prop_refuting.specs.Nogoods.{Nogood as NogoodOf};
ghost use Rattle.prop_trail.specs.declared.entry.Entry.{Entry as EntryOf};
ghost use Rattle.prop_trail.specs.declared.entry.Source.TheVariants.{Nogood as by_nogood};
ghost use Rattle.prop_learned.specs.Stores.{IsDenied, IsKeptIn, IsKeptAt, IsSeen};
ghost use Rattle.prop_learned.specs.inner.Slots.{IfDenies};

use crate::reading::{is_barred, is_so};
use crate::slot::{Slot, Turn, Watched, watched_of};
use prop_facts::{Fact, Literal};
use prop_lattice::Info;
use prop_refuting::Nogood;
use prop_trail::{Source, Trail};
use std::alloc::{AllocError, Global};
use std::marker::Model;

/// How many there are at first, of those that may be forgotten, before one is.
const MOST_AT_FIRST: usize = 4_000;

/// What came of a nogood that was looked at.
#[derive(Clone, Copy, Debug, PartialEq, Eq)]
pub enum Look {
    /// What stood there does so no longer, and the last one stands there now.
    Moved,
    /// It says nothing.
    Silent,
    /// All literals but this one of the nogood with this number are so.
    Denies { literal: Literal, number: usize },
}

/// A nogood that goes with its level.
#[derive(Clone, Copy)]
struct Passing {
    number: usize,
    level: usize,
}

/// A nogood that watches a place, by which of its facts about the place, and another of its
/// literals: while that can't be so, the nogood says nothing.
#[derive(Clone, Copy)]
struct Watcher {
    number: usize,
    fact: Fact,
    other: Literal,
}

/// Nogoods by their numbers.
#[derive(Drop)]
pub struct Store {
    slots: Vec<Slot>,
    /// Slots that are empty.
    free: Vec<usize>,
    /// Those that go with their level, of the first level first.
    passing: Vec<Passing>,
    /// By place, the nogoods that watch it: twice where they watch two literals there. There may be
    /// others too.
    watchers: Vec<Vec<Watcher>>,
    /// Where there are fewer that may be forgotten, none is.
    most: usize,
}

impl Model for Store {
    ghost use Rattle.std.specs.Prelude.{List, Option};
    ghost use Rattle.prop_refuting.specs.Nogoods.{Nogood};
    ghost use Rattle.prop_learned.specs.inner.Slots.{held_in};

    ghost Value = { List (Option Nogood) };

    ghost view = { λ s. held_in s.slots.items };
}

/// No watcher of so many places.
fn no_watchers(alloc: Global, places: usize) -> Result<Vec<Vec<Watcher>>, AllocError> {
    let mut watchers = Vec::with_capacity(alloc, places)?;
    for _ in 0..places {
        watchers.push(Vec::new(alloc))?;
    }
    Ok(watchers)
}

/// The number of the nogood that made an entry is marked, where it is one of these.
fn mark(made: &mut Vec<bool>, by: Source)
    ensures marked { (k : ℕ) → by ≡ by_nogood k → slice_get made.new.items k ≢ Some false }
    ensures less { (k : ℕ) → slice_get made.new.items k ≡ Some false
        → slice_get made.old.items k ≡ Some false }
{
    if let Source::Nogood(number) = by {
        if number < made.len() {
            made[number] = true;
        }
    }
}

/// So many numbers, where those of the nogoods that made an entry of the trail are marked.
fn makers(alloc: Global, trail: &Trail, count: usize) -> Result<Vec<bool>, AllocError>
    ensures { IfOk result (λ made. (k : ℕ) (e : EntryOf) → Contains trail.now.entries e
        → e.by ≡ by_nogood k → slice_get made.items k ≢ Some false) }
{
    let mut made = vec![in alloc; false; count]?;
    for at in 0..trail.len() {
        mark(&mut made, trail.entry(at).by);
    }
    Ok(made)
}

/// Whether the number is marked, or none of them.
fn is_marked(made: &[bool], number: usize) -> bool
    ensures { result ≡ false → slice_get made.now number ≡ Some false }
{
    match made.get(number) {
        Some(is_made) => *is_made,
        None => true,
    }
}

/// Whether a fact is so of a place, of which this is believed.
fn is_fact_so(trail: &Trail, place: usize, info: Info, fact: Fact) -> bool {
    match fact {
        Fact::Other(_) => is_so(trail, Literal { place, fact }),
        fact => fact.follows_from(info),
    }
}

impl Store {
    /// No nogood is kept, and none watches any of so many places.
    pub fn new(alloc: Global, places: usize) -> Result<Store, AllocError>
        ensures { IfOk result (λ s. (g : NogoodOf) → IsKeptIn s g → ⊥) }
    {
        Ok(Store {
            slots: Vec::new(alloc),
            free: Vec::new(alloc),
            passing: Vec::new(alloc),
            watchers: no_watchers(alloc, places)?,
            most: MOST_AT_FIRST,
        })
    }

    /// How many watch the place: none where there is no such place.
    pub fn watching(&self, place: usize) -> usize {
        match self.watchers.get(place) {
            Some(watchers) => watchers.len(),
            None => 0,
        }
    }

    /// Which is the first, from the n-th on, that watches the place by a fact that is so.
    pub fn next(&self, trail: &Trail, place: usize, n: usize) -> Option<usize> {
        if place >= trail.places() {
            return None;
        }
        let info = trail.info(place);
        let watchers = self.watchers.get(place)?;
        for at in n..watchers.len() {
            if is_fact_so(trail, place, info, watchers[at].fact) {
                return Some(at);
            }
        }
        None
    }

    /// Looks at the nogood that watches the place as the n-th, from 0: at none where there are
    /// fewer. Those that are kept stay the same.
    pub fn look(&mut self, trail: &Trail, place: usize, n: usize) -> Result<Look, AllocError>
        ensures same { self.new ≡ self.old }
        ensures seen { IfOk result (IsSeen trail.now self.old) }
    {
        let Some(watcher) = self.watcher(place, n) else {
            return Ok(Look::Silent);
        };
        let Watcher {
            number,
            fact,
            other,
        } = watcher;
        if !is_so(trail, Literal { place, fact }) || is_barred(trail, other) {
            return Ok(Look::Silent);
        }
        match self.turn(trail, place, number) {
            Turn::Leaves => {
                self.unwatch(place, n);
                Ok(Look::Moved)
            }
            Turn::Silent => Ok(Look::Silent),
            Turn::Denies(literal) => Ok(Look::Denies { literal, number }),
            Turn::Moves {
                watched,
                to,
                beside,
            } => {
                self.watch(to, beside, number)?;
                self.unwatch(place, n);
                self.set_watched(number, watched);
                Ok(Look::Moved)
            }
        }
    }

    /// One nogood more is kept, and its number is the answer. It is watched at the literals with
    /// these numbers where it has both and they differ. Where it stays it is never forgotten. Those
    /// that are kept keep their numbers, also after refused memory.
    pub fn add(
        &mut self,
        nogood: Nogood,
        watched: (usize, usize),
        stays: bool,
    ) -> Result<usize, AllocError>
        ensures ok { IfOk result (λ number. IsKeptAt self.new number nogood) }
        ensures from { (g : NogoodOf) → IsKeptIn self.new g → (g ≡ nogood) ⊎ IsKeptIn self.old g }
        ensures kept { (g : NogoodOf) → IsKeptIn self.old g → IsKeptIn self.new g }
        ensures numbers { (k : ℕ) (g : NogoodOf) → IsKeptAt self.old k g → IsKeptAt self.new k g }
    {
        let watched = watched_of(&nogood, watched);
        let number = self.put(nogood, watched, stays)?;
        self.watch_both(number)?;
        Ok(number)
    }

    /// One nogood more is kept until `back` to a level below this one, and its number is the
    /// answer. It is watched nowhere. Those that are kept keep their numbers, also after refused
    /// memory.
    pub fn pass(&mut self, nogood: Nogood, level: usize) -> Result<usize, AllocError>
        ensures ok { IfOk result (λ number. IsKeptAt self.new number nogood) }
        ensures from { (g : NogoodOf) → IsKeptIn self.new g → (g ≡ nogood) ⊎ IsKeptIn self.old g }
        ensures kept { (g : NogoodOf) → IsKeptIn self.old g → IsKeptIn self.new g }
        ensures numbers { (k : ℕ) (g : NogoodOf) → IsKeptAt self.old k g → IsKeptAt self.new k g }
    {
        let number = self.put(nogood, None, true)?;
        self.push_passing(number, level)?;
        Ok(number)
    }

    /// Lets go of the nogoods that were passed at later levels. Those that are kept keep their
    /// numbers.
    pub fn back(&mut self, level: usize) -> Result<(), AllocError>
        ensures kept { (g : NogoodOf) → IsKeptIn self.new g → IsKeptIn self.old g }
        ensures numbers { (k : ℕ) (g : NogoodOf) → IsKeptAt self.new k g → IsKeptAt self.old k g }
    {
        for _ in 0..self.passing.len() {
            let Some(number) = self.passed_after(level) else {
                return Ok(());
            };
            self.let_go(number)?;
            self.drop_passing();
        }
        Ok(())
    }

    /// The nogood with this number.
    pub fn nogood(&self, number: usize) -> Option<&Nogood>
        ensures { MatchOption result ((g : NogoodOf) → IsKeptAt self.now number g → ⊥)
            (λ g. IsKeptAt self.now number g.now) }
    {
        self.slots.get(number)?.nogood.as_ref()
    }

    /// Lets go of what is longer than the mean, where there is too much, at a restart: but not of
    /// what stays, nor of what made an entry of the trail. Those that are kept keep their numbers.
    /// What is too much grows each time by a tenth.
    pub fn forget(&mut self, trail: &Trail) -> Result<(), AllocError>
        ensures kept { (g : NogoodOf) → IsKeptIn self.new g → IsKeptIn self.old g }
        ensures numbers { (k : ℕ) (g : NogoodOf) → IsKeptAt self.new k g → IsKeptAt self.old k g }
        ensures made { (k : ℕ) (e : EntryOf) → Contains trail.now.entries e → e.by ≡ by_nogood k
            → slice_get self.new k ≡ slice_get self.old k }
    {
        let Some(mean) = self.mean() else {
            return Ok(());
        };
        self.raise_most();
        let count = self.slots.len();
        let made = makers(*self.slots.allocator(), trail, count)?;
        for number in 0..count {
            if self.is_longer(number, mean) && !is_marked(&made, number) {
                self.let_go(number)?;
            }
        }
        Ok(())
    }

    /// The number of the n-th that watches the place.
    fn watcher(&self, place: usize, n: usize) -> Option<Watcher> {
        let watchers = self.watchers.get(place)?;
        watchers.get(n).copied()
    }

    /// What comes of the nogood with this number where something was said of the place.
    fn turn(&self, trail: &Trail, place: usize, number: usize) -> Turn
        ensures { IfDenies (λ x. IsDenied trail.now self.now x number) result }
    {
        match self.slots.get(number) {
            Some(slot) => slot.turn(trail, place),
            None => Turn::Leaves,
        }
    }

    /// The nogood with this number watches the first literal's place, where there is such a place.
    fn watch(&mut self, literal: Literal, other: Literal, number: usize) -> Result<(), AllocError>
        ensures { self.new ≡ self.old }
    {
        let Literal { place, fact } = literal;
        if place < self.watchers.len() {
            let watcher = Watcher {
                number,
                fact,
                other,
            };
            self.watchers[place].push(watcher)?;
        }
        Ok(())
    }

    /// The n-th that watches the place does so no longer, and the last one is the n-th.
    fn unwatch(&mut self, place: usize, n: usize)
        ensures { self.new ≡ self.old }
    {
        if place < self.watchers.len() && n < self.watchers[place].len() {
            self.watchers[place].swap_remove(n);
        }
    }

    /// These literals are watched of the nogood with this number.
    fn set_watched(&mut self, number: usize, watched: Watched)
        ensures { self.new ≡ self.old }
    {
        if number < self.slots.len() {
            self.slots[number].watched = Some(watched);
        }
    }

    /// The nogood with this number watches the places of its two literals.
    fn watch_both(&mut self, number: usize) -> Result<(), AllocError>
        ensures { self.new ≡ self.old }
    {
        let Some((first, second)) = self.watched_literals(number) else {
            return Ok(());
        };
        self.watch(first, second, number)?;
        self.watch(second, first, number)
    }

    /// The literals at which the nogood with this number is to be watched.
    fn watched_literals(&self, number: usize) -> Option<(Literal, Literal)> {
        self.slots.get(number)?.watched_literals()
    }

    /// The number of an empty slot, which is counted as free no longer.
    fn take_free(&mut self) -> Option<usize>
        ensures same { self.new ≡ self.old }
        ensures free { IfSome result (λ number. slice_get self.old number ≡ Some None) }
    {
        let number = self.free.pop()?;
        if number < self.slots.len() && self.slots[number].nogood.is_none() {
            Some(number)
        } else {
            None
        }
    }

    /// One nogood more is kept, in a slot that was empty or a new one.
    fn put(
        &mut self,
        nogood: Nogood,
        watched: Option<Watched>,
        stays: bool,
    ) -> Result<usize, AllocError>
        ensures ok { IfOk result (λ number. IsKeptAt self.new number nogood) }
        ensures from { (g : NogoodOf) → IsKeptIn self.new g → (g ≡ nogood) ⊎ IsKeptIn self.old g }
        ensures kept { (g : NogoodOf) → IsKeptIn self.old g → IsKeptIn self.new g }
        ensures numbers { (k : ℕ) (g : NogoodOf) → IsKeptAt self.old k g → IsKeptAt self.new k g }
    {
        let free = self.take_free();
        let slot = Slot {
            nogood: Some(nogood),
            watched,
            stays,
        };
        if let Some(number) = free {
            self.slots[number] = slot;
            return Ok(number);
        }
        let number = self.slots.len();
        self.slots.push(slot)?;
        Ok(number)
    }

    /// The slot with this number is empty.
    fn let_go(&mut self, number: usize) -> Result<(), AllocError>
        ensures numbers { (k : ℕ) (g : NogoodOf) → IsKeptAt self.new k g → IsKeptAt self.old k g }
        ensures others { (k : ℕ) → k ≢ number → slice_get self.new k ≡ slice_get self.old k }
    {
        if number < self.slots.len() && self.slots[number].nogood.is_some() {
            self.free.push(number)?;
            self.slots[number] = Slot::empty();
        }
        Ok(())
    }

    /// The nogood with this number goes with its level.
    fn push_passing(&mut self, number: usize, level: usize) -> Result<(), AllocError>
        ensures { self.new ≡ self.old }
    {
        self.passing.push(Passing { number, level })?;
        Ok(())
    }

    /// The number of the last that goes with its level, where that is later than this one.
    fn passed_after(&self, level: usize) -> Option<usize> {
        let last = self.passing.last()?;
        if last.level > level {
            Some(last.number)
        } else {
            None
        }
    }

    /// The last that went with its level is counted no longer.
    fn drop_passing(&mut self)
        ensures { self.new ≡ self.old }
    {
        let _ = self.passing.pop();
    }

    /// How long those are that may be forgotten, in the mean, where there are too many.
    fn mean(&self) -> Option<usize> {
        let mut count: usize = 0;
        let mut total: usize = 0;
        for slot in &self.slots {
            if let Some(length) = slot.length() {
                count = count.saturating_add(1);
                total = total.saturating_add(length);
            }
        }
        if count == 0 || count < self.most {
            None
        } else {
            Some(total / count)
        }
    }

    /// One in ten more is too much.
    fn raise_most(&mut self)
        ensures { self.new ≡ self.old }
    {
        self.most = self.most.saturating_add(self.most / 10);
    }

    /// Whether the nogood with this number may be forgotten, and is longer than this.
    fn is_longer(&self, number: usize, mean: usize) -> bool {
        match self.slots.get(number) {
            Some(slot) => slot.length().is_some_and(|length| length > mean),
            None => false,
        }
    }
}
