//! What is believed of each place, on a trail of entries that are taken back level by level.

ghost use Rattle.std.specs.Prelude.{◌≡◌, ◌↔◌, ◌⊎◌, ◌<◌, ◌≤◌, ◌+◌, ℕ, List, [], ◌∷◌, ◌++◌, take};
ghost use Rattle.std.specs.Prelude.{length, slice_get, slice_index_or, slice_set, Some, None};
ghost use Rattle.std.specs.Prelude.{IsTrue, ℤ};
ghost use Rattle.std.specs.Prelude.{IfOk, OnOk, OnErr, IfSome, All, map};
ghost use Rattle.prop_lattice.specs.Order.{Below};
ghost use Rattle.prop_lattice.specs.Points.{Point, Number};
ghost use Rattle.prop_trail.specs.Places.{root_of, unmade, values_of};
ghost use Rattle.prop_trail.specs.Sayings.{Said, RuledOut, AreWithout, IsMeant, Says, Bars};
ghost use Rattle.prop_trail.specs.Sayings.{IsMaker};
ghost use Rattle.prop_facts.specs.Facts.{IsHole};
ghost use Rattle.prop_lattice.specs.declared.info.Info.{Info as InfoOf};
ghost use Rattle.prop_trail.specs.Windows.{IsOut};
ghost use Rattle.prop_trail.specs.Trails.{window_at};
ghost use Rattle.prop_trail.specs.Trails.{info_of, newest_of, before_of, entered, start_of};
ghost use Rattle.prop_trail.specs.Trails.{place_at, place_of, after, IsLeft};
ghost use Rattle.prop_trail.specs.inner.Making.{IsMadeOn, AreMade};
ghost use Rattle.prop_trail.specs.declared.place.Place.{Place as PlaceOf};
ghost use Rattle.prop_trail.specs.Trails.{all_after};

use crate::entry::{Entry, Outcome, Source};
use crate::place::Place;
use prop_facts::{Changes, Fact, Literal};
use prop_lattice::{Info, Partial};
use std::alloc::{AllocError, Global};
use std::marker::Model;

/// What is believed of each place, and the entries that made it so.
#[derive(Drop)]
pub struct Trail {
    roots: Vec<Info>,
    places: Vec<Place>,
    entries: Vec<Entry>,
    starts: Vec<usize>,
}

/// The changes as a number went: within the span, or as an end moved.
fn changes_without(was: Info, is: Info) -> Changes
    requires { Below was is }
    ensures { AreWithout was is result }
{
    if was.implies(is) {
        Changes {
            low: false,
            high: false,
            point: false,
            hole: true,
        }
    } else {
        Changes::between(was, is)
    }
}

/// The places of which this is believed at the root.
fn root_places(alloc: Global, beliefs: &[Info]) -> Result<Vec<Place>, AllocError>
    ensures { IfOk result (λ places. places.items ≡ map root_of beliefs.now) }
{
    beliefs.iter().map(|info| Place::new(*info)).collect(alloc)
}

/// The entry with this number is made.
fn make(places: &mut Vec<Place>, entry: &Entry, at: usize)
    requires { entry.now.place < length places.old.items }
    ensures { places.new.items ≡ after places.old.items at entry.now }
{
    let place = &mut places[entry.place];
    place.make(entry, at);
}

/// The newest entry is taken back.
fn take_back(places: &mut Vec<Place>, entry: &Entry)
    requires { entry.now.place < length places.old.items }
    ensures { places.new.items ≡ slice_set places.old.items entry.now.place
        (unmade (place_at places.old.items entry.now.place) entry.now) }
{
    let place = &mut places[entry.place];
    place.take_back(entry);
}

/// Takes back the entries from this number on.
fn cut(places: &mut Vec<Place>, entries: &mut Vec<Entry>, start: usize)
    requires { All (λ e. e.place < length places.old.items) entries.old.items }
    ensures entries { entries.new.items ≡ take start entries.old.items }
    ensures now { (roots : List PlaceOf) → AreMade 0 roots entries.old.items
        → places.old.items ≡ all_after 0 roots entries.old.items
        → places.new.items ≡ all_after 0 roots entries.new.items }
{
    while entries.len() > start {
        if let Some(entry) = entries.pop() {
            take_back(places, &entry);
        }
    }
}

impl Model for Trail {
    ghost use Rattle.prop_trail.specs.Trails.{Trailed};
    ghost use Rattle.prop_trail.specs.inner.Making.{IsTrail};

    ghost Value = { Trailed };

    ghost view = { λ t. record {
      roots = t.roots.items;
      entries = t.entries.items;
      starts = t.starts.items;
    } };

    ghost invariant = { λ t. IsTrail t.roots.items t.places.items t.entries.items t.starts.items };
}

impl Trail {
    /// A trail with no entry, at level 0, where this is believed of each place. Where a place's
    /// span has 256 numbers or fewer, those of them that are ruled out will be kept.
    pub fn new(alloc: Global, beliefs: Vec<Info>) -> Result<Trail, AllocError>
        ensures { IfOk result (λ t. t
            ≡ record { roots = beliefs.items; entries = []; starts = [] }) }
    {
        let places = root_places(alloc, beliefs.as_slice())?;
        Ok(Trail {
            roots: beliefs,
            places,
            entries: Vec::new(alloc),
            starts: Vec::new(alloc),
        })
    }

    /// How many places there are.
    pub fn places(&self) -> usize
        ensures { result ≡ length self.now.roots }
    {
        self.roots.len()
    }

    /// What is believed of a place.
    pub fn info(&self, place: usize) -> Info
        requires { place < length self.now.roots }
        ensures { result ≡ info_of self.now place }
    {
        self.places[place].info
    }

    /// What was believed of a place at the root, before any entry.
    pub fn root(&self, place: usize) -> Info
        requires { place < length self.now.roots }
        ensures { slice_get self.now.roots place ≡ Some result }
    {
        self.roots[place]
    }

    /// Whether the place can't have this number: what is believed leaves it out, or it was ruled
    /// out.
    pub fn is_out(&self, place: usize, number: i64) -> bool
        requires { place < length self.now.roots }
        ensures { IsTrue result ↔ (IsLeft self.now place (Number number) → ⊥) }
    {
        !self.places[place].leaves(number)
    }

    /// Whether the fact is so of all values that are left.
    pub fn holds(&self, literal: Literal) -> bool
        requires { literal.place < length self.now.roots }
        ensures { IsTrue result ↔ Says self.now literal }
    {
        self.places[literal.place].says(literal.fact)
    }

    /// Whether the fact is so of no value that is left.
    pub fn bars(&self, literal: Literal) -> bool
        requires { literal.place < length self.now.roots }
        ensures { IsTrue result ↔ Bars self.now literal }
    {
        self.places[literal.place].bars(literal.fact)
    }

    /// How many values are left of a place: of a set its elements, of a symbol one, and `u64::MAX`
    /// where nothing is known.
    pub fn values(&self, place: usize) -> u64
        requires { place < length self.now.roots }
        ensures { result ≡ values_of (place_of self.now place) }
    {
        self.places[place].values()
    }

    /// How many entries there are.
    pub fn len(&self) -> usize
        ensures { result ≡ length self.now.entries }
    {
        self.entries.len()
    }

    /// Whether there is no entry.
    pub fn is_empty(&self) -> bool
        ensures { IsTrue result ↔ (self.now.entries ≡ []) }
    {
        self.entries.is_empty()
    }

    /// The entry with this number, counted from 0.
    pub fn entry(&self, at: usize) -> &Entry
        requires { at < length self.now.entries }
        ensures entry { slice_get self.now.entries at ≡ Some result.now }
        ensures place { result.now.place < length self.now.roots }
        ensures before { IfSome result.now.before (λ before. before < at) }
    {
        &self.entries[at]
    }

    /// The newest entry of a place.
    pub fn newest(&self, place: usize) -> Option<usize>
        requires { place < length self.now.roots }
        ensures newest { result ≡ newest_of self.now place }
        ensures within { IfSome result (λ entry. entry < length self.now.entries) }
    {
        self.places[place].newest
    }

    /// How many levels were begun and not taken back.
    pub fn level(&self) -> usize
        ensures { result ≡ length self.now.starts }
    {
        self.starts.len()
    }

    /// How many entries there were when the level was begun: the number of its first entry. That of
    /// level 0 is 0.
    pub fn start_of(&self, level: usize) -> usize
        requires { level ≤ length self.now.starts }
        ensures start { result ≡ start_of self.now.starts level }
        ensures within { result ≤ length self.now.entries }
    {
        if level == 0 {
            0
        } else {
            self.starts[level - 1]
        }
    }

    /// Begins a level. Refused memory changes nothing.
    pub fn raise(&mut self) -> Result<(), AllocError>
        ensures ok { OnOk result (self.new ≡ record self.old {
          starts = self.old.starts ++ length self.old.entries ∷ [];
        }) }
        ensures level { OnOk result (length self.new.starts ≡ length self.old.starts + 1) }
        ensures err { OnErr result (self.new ≡ self.old) }
        ensures places { self.new.roots ≡ self.old.roots }
    {
        let start = self.entries.len();
        self.starts.push(start)?;
        Ok(())
    }

    /// Takes back all levels above this one with all their entries, so that all is believed that
    /// was when the next level was begun.
    pub fn back(&mut self, level: usize)
        ensures back { level < length self.old.starts → self.new ≡ record self.old {
          entries = take (slice_index_or self.old.starts level 0) self.old.entries;
          starts = take level self.old.starts;
        } }
        ensures same { length self.old.starts ≤ level → self.new ≡ self.old }
        ensures places { self.new.roots ≡ self.old.roots }
        ensures level { length self.new.starts ≤ level }
    {
        if level >= self.starts.len() {
            return;
        }
        let start = self.starts[level];
        cut(&mut self.places, &mut self.entries, start);
        self.starts.truncate(level);
    }

    /// Says something of a place. What is believed of it then is what it says and what was
    /// believed, without the numbers at its ends that were ruled out. It is a clash where that
    /// leaves no value, and then nothing has changed; nor has after refused memory.
    pub fn say(&mut self, place: usize, said: Info, by: Source) -> Result<Outcome, AllocError>
        requires { place < length self.old.roots }
        ensures ok { IfOk result (Said self.old place said by self.new) }
        ensures err { OnErr result (self.new ≡ self.old) }
        ensures places { self.new.roots ≡ self.old.roots }
        ensures levels { self.new.starts ≡ self.old.starts }
        ensures grows { length self.old.entries ≤ length self.new.entries }
    {
        let now = &self.places[place];
        let (was, before) = (now.info, now.newest);
        if was.implies(said) {
            return Ok(Outcome::Same);
        }
        let is = now.merged(said);
        if is.is_contradiction() {
            return Ok(Outcome::Clash);
        }
        let entry = Entry {
            place,
            before,
            was,
            is,
            said,
            out: None,
            by,
            level: self.starts.len(),
        };
        self.enter(entry)?;
        Ok(Outcome::Changed(Changes::between(was, is)))
    }

    /// Rules a number out of a place. At an end of its span the end moves past it, and past others
    /// that were ruled out. Within the span it is kept where the place had few numbers at the root,
    /// and else nothing changes. It is a clash where it is the only number that is left, and then
    /// nothing has changed; nor has after refused memory.
    pub fn rule_out(&mut self, place: usize, number: i64, by: Source) -> Result<Outcome, AllocError>
        requires { place < length self.old.roots }
        ensures ok { IfOk result (RuledOut self.old place number by self.new) }
        ensures err { OnErr result (self.new ≡ self.old) }
        ensures places { self.new.roots ≡ self.old.roots }
        ensures levels { self.new.starts ≡ self.old.starts }
        ensures grows { length self.old.entries ≤ length self.new.entries }
    {
        let now = &self.places[place];
        let (was, before) = (now.info, now.newest);
        let Info::Span(span) = was else {
            return Ok(Outcome::Same);
        };
        if !now.leaves(number) {
            return Ok(Outcome::Same);
        }
        if span.lo() == span.hi() {
            return Ok(Outcome::Clash);
        }
        let Some(is) = now.window.without(span, number) else {
            return Ok(Outcome::Same);
        };
        let entry = Entry {
            place,
            before,
            was,
            is,
            said: Info::Nothing,
            out: Some(number),
            by,
            level: self.starts.len(),
        };
        self.enter(entry)?;
        Ok(Outcome::Changed(changes_without(was, is)))
    }

    /// Says a fact of its place: `rule_out` where it is that the value is other than a number, and
    /// else `say` of the information that says as much.
    pub fn say_fact(&mut self, literal: Literal, by: Source) -> Result<Outcome, AllocError>
        requires { literal.place < length self.old.roots }
        ensures other { (n : ℤ) → literal.fact ≡ Fact.Other n
            → IfOk result (RuledOut self.old literal.place n by self.new) }
        ensures said { (IsHole literal.fact → ⊥) → IfOk result (λ outcome.
            (said : InfoOf) × IsMeant literal.fact said
            × Said self.old literal.place said by self.new outcome) }
        ensures err { OnErr result (self.new ≡ self.old) }
        ensures places { self.new.roots ≡ self.old.roots }
        ensures levels { self.new.starts ≡ self.old.starts }
        ensures grows { length self.old.entries ≤ length self.new.entries }
    {
        match literal.fact {
            Fact::Other(number) => self.rule_out(literal.place, number, by),
            fact => self.say(literal.place, fact.info(), by),
        }
    }

    /// Puts an entry on the trail. Refused memory changes nothing.
    fn enter(&mut self, entry: Entry) -> Result<(), AllocError>
        requires { IsMadeOn (all_after 0 (map root_of self.old.roots) self.old.entries) entry }
        ensures ok { OnOk result (self.new ≡ entered self.old entry) }
        ensures err { OnErr result (self.new ≡ self.old) }
    {
        let at = self.entries.len();
        self.entries.push(entry)?;
        make(&mut self.places, &entry, at);
        Ok(())
    }

    /// The newest entry of a place below the entry `at`, or of all where that is `len()`.
    pub fn newest_before(&self, place: usize, at: usize) -> Option<usize>
        requires place { place < length self.now.roots }
        requires at { at ≤ length self.now.entries }
        ensures newest { result ≡ newest_of (before_of self.now at) place }
        ensures within { IfSome result (λ entry. entry < at) }
    {
        let mut newest = self.places[place].newest;
        // what was before an entry is below it
        while let Some(entry) = newest {
            if entry < at {
                break;
            }
            newest = self.entries[entry].before;
        }
        newest
    }

    /// What was believed of a place before the entry `at` was made; what is, where that is
    /// `len()`.
    pub fn info_before(&self, place: usize, at: usize) -> Info
        requires place { place < length self.now.roots }
        requires at { at ≤ length self.now.entries }
        ensures { result ≡ info_of (before_of self.now at) place }
    {
        match self.newest_before(place, at) {
            Some(entry) => self.entries[entry].is,
            None => self.roots[place],
        }
    }

    /// The entry below `before` since which the literal holds: it doesn't hold before that entry,
    /// and does since then. `None` where it held at the root, and where it doesn't hold before the
    /// entry `before` was made.
    pub fn maker(&self, literal: Literal, before: usize) -> Option<usize>
        requires place { literal.place < length self.now.roots }
        requires before { before ≤ length self.now.entries }
        ensures within { IfSome result (λ entry. entry < before) }
        ensures some { IfSome result (λ entry. IsMaker self.now literal entry) }
        ensures none { result ≡ None → Says (before_of self.now before) literal
            → Says (before_of self.now 0) literal }
    {
        match literal.fact {
            Fact::Other(number) if self.places[literal.place].window.has(number) => {
                match self.remover(literal.place, number) {
                    Some(entry) if entry < before => Some(entry),
                    _ => None,
                }
            }
            _ => self.first_saying(literal, before),
        }
    }

    /// The entry that ruled the number out.
    fn remover(&self, place: usize, number: i64) -> Option<usize>
        requires { place < length self.now.roots }
        ensures within { IfSome result (λ entry. entry < length self.now.entries) }
        ensures some { IfSome result (λ entry. IfSome (slice_get self.now.entries entry)
            (λ e. (e.place ≡ place) × (e.out ≡ Some number))) }
        ensures none { result ≡ None → IsOut (window_at self.now place) number → ⊥ }
    {
        let mut newest = self.places[place].newest;
        // what was before an entry is below it
        while let Some(at) = newest {
            let entry = &self.entries[at];
            if entry.out == Some(number) {
                return Some(at);
            }
            newest = entry.before;
        }
        None
    }

    /// The same as `maker` for a fact that isn't that the value is another than a number that was
    /// ruled out: since that entry it follows from the information.
    fn first_saying(&self, literal: Literal, before: usize) -> Option<usize>
        requires place { literal.place < length self.now.roots }
        requires before { before ≤ length self.now.entries }
        requires apart { (n : ℤ) → literal.fact ≡ Fact.Other n
            → IsOut (window_at self.now literal.place) n → ⊥ }
        ensures within { IfSome result (λ entry. entry < before) }
        ensures some { IfSome result (λ entry. IsMaker self.now literal entry) }
        ensures none { result ≡ None → Says (before_of self.now before) literal
            → Says (before_of self.now 0) literal }
    {
        let _ = &self.entries;
        let mut at = self.newest_before(literal.place, before)?;
        if !literal.fact.follows_from(self.entries[at].is) {
            return None;
        }
        // what was before an entry is below it
        while literal.fact.follows_from(self.entries[at].was) {
            at = self.entries[at].before?;
        }
        Some(at)
    }
}
