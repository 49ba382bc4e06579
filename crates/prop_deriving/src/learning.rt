//! A derivation, step by step.
ghost use Rattle.std.specs.Prelude.{◌≡◌, IfOk, IfSome};
ghost use Rattle.prop_procedures.specs.Kept.{AllMean, stored_of};
ghost use Rattle.prop_cells.specs.Data.{IsKept};
ghost use Rattle.prop_plans.specs.Held.{attached_of};
ghost use Rattle.prop_deriving.specs.Known.{AlwaysFollows, AlwaysStays, Follows, Stays};

use crate::clash::{Clash, Pair};
use crate::derivation::Derivation;
use crate::ground::Ground;
use crate::reading::{is_decided, is_of_root, level_of, maker_of, since_of};
use crate::reason::Reason;
use prop_facts::{Fact, Literal};
use prop_lattice::Info;
use prop_learned::weights::Weights;
use prop_procedures::Rule;
use prop_refuting::Nogood;
use prop_trail::Trail;
use std::alloc::{AllocError, Global};
use std::marker::Model;

/// How many numbers a span may have of which single ones are kept out.
const FEW: u64 = 256;

/// How a derivation stands.
#[derive(Clone, Copy, Debug, PartialEq, Eq)]
pub enum State {
    /// It goes on.
    Going,
    /// One literal alone is of the last level, or none is left.
    Learned,
    /// A step of it failed its test.
    Failed,
}

/// A nogood under way. For each literal it is told how many entries the trail had once it was so:
/// none where it was so at the root. After refused memory its steps fail, and its nogood is what it
/// was or what a step made of it.
#[derive(Drop)]
pub struct Learning {
    derivation: Derivation,
    since: Vec<usize>,
    level: usize,
    asserting: usize,
}

/// The literal that came to be so last, how many entries there were once it was so, and how many
/// once the last of the others was.
#[derive(Clone, Copy)]
struct Latest {
    at: usize,
    since: usize,
    second: usize,
}

impl Latest {
    /// The same with one literal more, which came to be so later than the second.
    fn beside(self, at: usize, since: usize) -> Latest {
        if self.since < since {
            Latest {
                at,
                since,
                second: self.since,
            }
        } else {
            Latest {
                second: since,
                ..self
            }
        }
    }
}

impl Model for Learning {
    ghost use Rattle.prop_refuting.specs.Nogoods.{Nogood};

    ghost Value = { Nogood };

    ghost view = { λ l. l.derivation };
}

impl Learning {
    /// Begins with a clash, which hasn't changed the trail. None where no facts are seen that can't
    /// both be so, or what was said isn't explained.
    pub fn of_clash<R: Rule + Drop>(
        basis: &Ground<'_, R>,
        clash: Clash,
        weights: &mut Weights,
    ) -> Result<Option<Learning>, AllocError>
        requires means { AllMean R.value_of basis.now.network.now.library.procedures.items }
        requires kept { IsKept (stored_of R.value_of basis.now.network.now.library)
            basis.now.network.now.cells }
        ensures { IfOk result (λ o. IfSome o (λ g.
            Follows (stored_of R.value_of basis.now.network.now.library)
            (attached_of basis.now.network.now.cells) basis.now.choices.now basis.now.root.now
            basis.now.store.now g)) }
    {
        let Some(kind) = basis.kind(clash.place) else {
            return Ok(None);
        };
        let was = info_now(basis.trail, clash.place);
        let Some(pair) = clash.facts(was, kind.size) else {
            return Ok(None);
        };
        let Some(mut derivation) = Derivation::clashing(basis.alloc, clash.place, pair)? else {
            return Ok(None);
        };
        let reason = clash.reason(was, basis.trail.len());
        if !derivation.explain_unsaid(basis, reason, weights)? {
            return Ok(None);
        }
        Ok(Some(Learning::begun(basis, derivation)?))
    }

    /// Begins with a nogood all of which is so.
    pub fn of_nogood<R: Rule + Drop>(
        basis: &Ground<'_, R>,
        nogood: Nogood,
    ) -> Result<Learning, AllocError>
        ensures { IfOk result (λ g. AlwaysStays nogood g) }
    {
        Learning::begun(basis, Derivation::new(nogood))
    }

    /// Begins, and ends, with what is believed of a cell at the root, where that is a
    /// contradiction. None where it isn't.
    pub fn of_belief<R: Rule + Drop>(
        basis: &Ground<'_, R>,
        cell: usize,
    ) -> Result<Option<Learning>, AllocError>
        requires kept { IsKept (stored_of R.value_of basis.now.network.now.library)
            basis.now.network.now.cells }
        ensures { IfOk result (λ o. IfSome o (λ g.
            Follows (stored_of R.value_of basis.now.network.now.library)
            (attached_of basis.now.network.now.cells) basis.now.choices.now basis.now.root.now
            basis.now.store.now g)) }
    {
        let pair = Pair {
            one: Fact::AtLeast(1),
            other: Fact::AtMost(0),
        };
        let Some(mut derivation) = Derivation::clashing(basis.alloc, cell, pair)? else {
            return Ok(None);
        };
        if !derivation.by_root(basis, 0)? {
            return Ok(None);
        }
        if !derivation.by_root(basis, 0)? {
            return Ok(None);
        }
        Ok(Some(Learning::begun(basis, derivation)?))
    }

    /// Begins with two facts about a place that no value has together: one that is no more than
    /// supposed, and stays to the end, and one that is so where nothing is. None where they may be
    /// so together.
    pub fn of_end<R: Rule + Drop>(
        basis: &Ground<'_, R>,
        supposed: Literal,
        end: Fact,
    ) -> Result<Option<Learning>, AllocError>
        ensures { IfOk result (λ o. IfSome o AlwaysFollows) }
    {
        let pair = Pair {
            one: supposed.fact,
            other: end,
        };
        let Some(derivation) = Derivation::clashing(basis.alloc, supposed.place, pair)? else {
            return Ok(None);
        };
        let mut learning = Learning::begun(basis, derivation)?;
        learning.suppose_first(basis.trail);
        Ok(Some(learning))
    }

    /// The nogood as it stands.
    pub fn nogood(&self) -> &Nogood
        ensures { result.now ≡ self.now }
    {
        self.derivation.nogood()
    }

    /// The nogood, at the end.
    pub fn into_nogood(self) -> Nogood
        ensures { result ≡ self }
    {
        self.derivation.into_nogood()
    }

    /// The number of the literal that alone is of the last level, where it is learned and has
    /// literals.
    pub fn asserting(&self) -> usize {
        self.asserting
    }

    /// The last level of which there is a literal.
    pub fn level(&self) -> usize {
        self.level
    }

    /// How many calls of instances its steps made so far.
    pub fn calls(&self) -> u64 {
        self.derivation.calls()
    }

    /// The level of the last of the literals but the asserting one, and that literal's number; 0
    /// and the asserting one's where there is no other.
    pub fn second(&self, trail: &Trail) -> (usize, usize) {
        let mut second = (0, self.asserting);
        for (at, since) in self.since.iter().enumerate() {
            let level = level_of(trail, *since);
            if at != self.asserting && level > second.0 {
                second = (level, at);
            }
        }
        second
    }

    /// Takes one step back from the contradiction, of what came last, and at the end of what was so
    /// where nothing was supposed. `is_whole`: it goes on to what was decided itself.
    pub fn step<R: Rule + Drop>(
        &mut self,
        basis: &Ground<'_, R>,
        weights: &mut Weights,
        is_whole: bool,
    ) -> Result<State, AllocError>
        requires means { AllMean R.value_of basis.now.network.now.library.procedures.items }
        requires kept { IsKept (stored_of R.value_of basis.now.network.now.library)
            basis.now.network.now.cells }
        ensures { Stays (stored_of R.value_of basis.now.network.now.library)
            (attached_of basis.now.network.now.cells) basis.now.choices.now basis.now.root.now
            basis.now.store.now self.old self.new }
    {
        if self.since.len() != self.nogood().literals().len() {
            return Ok(State::Failed);
        }
        let latest = self.latest();
        self.level = level_of(basis.trail, latest.since);
        if self.level > 0 && !self.can_end(basis, latest, is_whole) {
            return self.resolve(basis, latest.at, weights);
        }
        if let Some(at) = self.last_of_root(basis.trail) {
            return self.resolve(basis, at, weights);
        }
        self.asserting = latest.at;
        Ok(State::Learned)
    }

    /// A derivation that begins with a nogood all of which is so.
    fn begun<R: Rule + Drop>(
        basis: &Ground<'_, R>,
        derivation: Derivation,
    ) -> Result<Learning, AllocError>
        ensures { IfOk result (λ g. AlwaysStays derivation g) }
    {
        let mut learning = Learning {
            derivation,
            since: Vec::new(basis.alloc),
            level: 0,
            asserting: 0,
        };
        learning.find_makers(basis, basis.trail.len())?;
        learning.level = learning.last_level(basis.trail);
        Ok(learning)
    }

    /// The first literal counts as supposed next, behind all that is on the trail.
    fn suppose_first(&mut self, trail: &Trail)
        ensures { self.new ≡ self.old }
    {
        if !self.since.is_empty() {
            self.since[0] = trail.len().saturating_add(1);
        }
        self.level = self.last_level(trail);
    }

    /// The level of the last of the literals.
    fn last_level(&self, trail: &Trail) -> usize {
        level_of(trail, self.latest().since)
    }

    /// The literal that came to be so last, beside the last of the others.
    fn latest(&self) -> Latest {
        let mut latest = Latest {
            at: 0,
            since: 0,
            second: 0,
        };
        for (at, since) in self.since.iter().enumerate() {
            if latest.second < *since {
                latest = latest.beside(at, *since);
            }
        }
        latest
    }

    /// Of the literals that were so where nothing was supposed that which came to be so last.
    fn last_of_root(&self, trail: &Trail) -> Option<usize> {
        let mut last = None;
        let mut last_since = 0;
        for (at, since) in self.since.iter().enumerate() {
            if is_of_root(trail, *since) && (last.is_none() || last_since < *since) {
                last = Some(at);
                last_since = *since;
            }
        }
        last
    }

    /// Whether the derivation may end with the literal that came last: no other is of its level, it
    /// can be denied, and was decided, where that is wanted.
    fn can_end<R: Rule + Drop>(
        &self,
        basis: &Ground<'_, R>,
        latest: Latest,
        is_whole: bool,
    ) -> bool {
        level_of(basis.trail, latest.second) < self.level
            && (!is_whole || is_decided(basis.trail, latest.since))
            && self.can_be_denied(basis, latest.at)
    }

    /// Whether a literal has a denial that the trail keeps. A number within a span is kept out of
    /// it where few were left at the root.
    fn can_be_denied<R: Rule + Drop>(&self, basis: &Ground<'_, R>, at: usize) -> bool {
        let Some(literal) = self.derivation.literal(at) else {
            return false;
        };
        match (literal.fact, root_info(basis.trail, literal.place)) {
            (Fact::Is(_), Info::Span(span)) => span.count() <= FEW,
            (fact, _) => match basis.kind(literal.place) {
                Some(kind) => fact.negation(kind.size).is_some(),
                None => false,
            },
        }
    }

    /// The entry that made a literal so.
    fn maker(&self, at: usize) -> Option<usize> {
        maker_of(*self.since.get(at)?)
    }

    /// Puts in place of a literal what it rests on.
    fn resolve<R: Rule + Drop>(
        &mut self,
        basis: &Ground<'_, R>,
        at: usize,
        weights: &mut Weights,
    ) -> Result<State, AllocError>
        requires means { AllMean R.value_of basis.now.network.now.library.procedures.items }
        requires kept { IsKept (stored_of R.value_of basis.now.network.now.library)
            basis.now.network.now.cells }
        ensures { Stays (stored_of R.value_of basis.now.network.now.library)
            (attached_of basis.now.network.now.cells) basis.now.choices.now basis.now.root.now
            basis.now.store.now self.old self.new }
    {
        let Some(before) = self.explain(basis, at, weights)? else {
            return Ok(State::Failed);
        };
        self.drop_given(basis, at);
        self.find_makers(basis, before)?;
        Ok(State::Going)
    }

    /// Puts in place of a literal of the nogood what it rests on, and tells before which entry that
    /// was so; none where that fails.
    fn explain<R: Rule + Drop>(
        &mut self,
        basis: &Ground<'_, R>,
        at: usize,
        weights: &mut Weights,
    ) -> Result<Option<usize>, AllocError>
        requires means { AllMean R.value_of basis.now.network.now.library.procedures.items }
        requires kept { IsKept (stored_of R.value_of basis.now.network.now.library)
            basis.now.network.now.cells }
        ensures { Stays (stored_of R.value_of basis.now.network.now.library)
            (attached_of basis.now.network.now.cells) basis.now.choices.now basis.now.root.now
            basis.now.store.now self.old self.new }
    {
        let Some(literal) = self.derivation.literal(at) else {
            return Ok(None);
        };
        let Some(reason) = self.reason(basis.trail, at) else {
            let is_done = self.derivation.by_root(basis, at)?;
            return Ok(is_done.then_some(basis.trail.len()));
        };
        let is_done = self.derivation.explain(basis, at, reason, weights)?;
        Ok(is_done.then_some(reason.rests_before(literal.fact)))
    }

    /// Why a literal is so; none where it was so at the root.
    fn reason(&self, trail: &Trail, at: usize) -> Option<Reason> {
        Reason::of_entry(trail, self.maker(at)?)
    }

    /// A literal went, and the last one stands in its place. Of those that came for it those go too
    /// that are so by no premise.
    fn drop_given<R: Rule + Drop>(&mut self, basis: &Ground<'_, R>, at: usize)
        requires kept { IsKept (stored_of R.value_of basis.now.network.now.library)
            basis.now.network.now.cells }
        ensures { Stays (stored_of R.value_of basis.now.network.now.library)
            (attached_of basis.now.network.now.cells) basis.now.choices.now basis.now.root.now
            basis.now.store.now self.old self.new }
    {
        self.forget_maker(at);
        self.derivation.drop_given(basis, self.since.len());
    }

    /// A literal went, and the last one stands in its place.
    fn forget_maker(&mut self, at: usize)
        ensures { self.new ≡ self.old }
    {
        if at < self.since.len() {
            self.since.swap_remove(at);
        }
    }

    /// Finds what made the literals so that came last, before an entry, and drops those that others
    /// imply.
    fn find_makers<R: Rule + Drop>(
        &mut self,
        basis: &Ground<'_, R>,
        before: usize,
    ) -> Result<(), AllocError>
        ensures { AlwaysStays self.old self.new }
    {
        let first = self.since.len();
        self.push_makers(basis, before)?;
        self.drop_repeated(first);
        Ok(())
    }

    /// Finds what made the literals so that came last.
    fn push_makers<R: Rule + Drop>(
        &mut self,
        basis: &Ground<'_, R>,
        before: usize,
    ) -> Result<(), AllocError>
        ensures { self.new ≡ self.old }
    {
        let literals = self.derivation.nogood().literals();
        for at in self.since.len()..literals.len() {
            let maker = basis.course.maker(basis.trail, literals[at], before);
            self.since.push(since_of(maker))?;
        }
        Ok(())
    }

    /// Drops what others imply, from a literal on.
    fn drop_repeated(&mut self, first: usize)
        ensures { AlwaysStays self.old self.new }
    {
        let mut at = first;
        for _ in 0..self.since.len() {
            let Some(next) = self.drop_next(at) else {
                return;
            };
            at = next;
        }
    }

    /// Drops the first literal from this one on that another one implies, or another one that it
    /// implies, and tells from where on to look for more.
    fn drop_next(&mut self, from: usize) -> Option<usize>
        ensures { AlwaysStays self.old self.new }
    {
        for at in from..self.since.len() {
            if let Some(gone) = self.drop_beside(at) {
                return Some(at.min(gone));
            }
        }
        None
    }

    /// Drops a literal or one about its place, where the one implies the other, and tells which
    /// one.
    fn drop_beside(&mut self, at: usize) -> Option<usize>
        ensures { AlwaysStays self.old self.new }
    {
        let (gone, beside) = self.derivation.repeated(at)?;
        if gone >= self.since.len() {
            return None;
        }
        if !self.derivation.drop_repeated(gone, beside) {
            return None;
        }
        self.since.swap_remove(gone);
        Some(gone)
    }
}

/// What is believed of a place; nothing where there is no such place.
fn info_now(trail: &Trail, place: usize) -> Info {
    if place < trail.places() {
        trail.info(place)
    } else {
        Info::Nothing
    }
}

/// What was believed of a place at the root; nothing where there is no such place.
fn root_info(trail: &Trail, place: usize) -> Info {
    if place < trail.places() {
        trail.root(place)
    } else {
        Info::Nothing
    }
}
