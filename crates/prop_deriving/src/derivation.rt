//! The nogood of a derivation, and the steps that replace one of its facts by what it rests on.
ghost use Rattle.std.specs.Prelude.{◌≡◌, ◌<◌, IfOk, IfSome, length, slice_get};
ghost use Rattle.prop_procedures.specs.Kept.{AllMean, stored_of};
ghost use Rattle.prop_cells.specs.Data.{IsKept};
ghost use Rattle.prop_plans.specs.Held.{attached_of};
ghost use Rattle.prop_deriving.specs.Known.{AlwaysFollows, AlwaysStays, Stays};

use crate::clash::Pair;
use crate::ground::Ground;
use crate::reason::{Reason, barred_fact};
use prop_facts::{Fact, Literal};
use prop_lattice::Info;
use prop_learned::reading::is_so;
use prop_learned::weights::Weights;
use prop_procedures::Rule;
use prop_refuting::{Barred, Called, Claim, Nogood, clashing, weaken};
use prop_trail::{Source, Trail};
use smallvec::SmallVec;
use std::alloc::{AllocError, Global};
use std::marker::Model;

/// How often what a clash says may be explained by what was just said.
const ROUNDS: usize = 8;

/// As many inputs as most instances have at the most: their arguments take no memory.
const FEW: usize = 4;

/// A nogood under way, and how many calls of instances its steps made.
#[derive(Drop)]
pub(crate) struct Derivation {
    nogood: Nogood,
    calls: u64,
}

impl Model for Derivation {
    ghost use Rattle.prop_refuting.specs.Nogoods.{Nogood};

    ghost Value = { Nogood };

    ghost view = { λ d. d.nogood };
}

/// What else has to be known of a fact's place, and before which entry its reason was read.
#[derive(Clone, Copy)]
struct Asked {
    rest: Option<Fact>,
    before: usize,
}

/// Adds to the weights of the places on which what a source says rests.
fn weigh<R: Rule + Drop>(basis: &Ground<'_, R>, by: Source, weights: &mut Weights) {
    match by {
        Source::Call(instance) if instance < basis.network.instances() => {
            for cell in basis.network.data().instance(instance).inputs() {
                weights.add(*cell);
            }
        }
        Source::Nogood(number) => {
            if let Some(other) = basis.store.nogood(number) {
                for literal in other.literals() {
                    weights.add(literal.place);
                }
            }
        }
        _ => {}
    }
}

impl Derivation {
    /// A derivation that begins with a nogood.
    pub(crate) fn new(nogood: Nogood) -> Derivation
        ensures { result ≡ nogood }
    {
        Derivation { nogood, calls: 0 }
    }

    /// A derivation that begins with two facts about a place that no value has together; none where
    /// that can't be seen.
    pub(crate) fn clashing(
        alloc: Global,
        place: usize,
        pair: Pair,
    ) -> Result<Option<Derivation>, AllocError>
        ensures { IfOk result (λ o. IfSome o AlwaysFollows) }
    {
        let Some(nogood) = clashing(alloc, place, pair.one, pair.other)? else {
            return Ok(None);
        };
        Ok(Some(Derivation::new(nogood)))
    }

    /// The nogood.
    pub(crate) fn nogood(&self) -> &Nogood
        ensures { result.now ≡ self.now }
    {
        &self.nogood
    }

    /// The nogood, at the end.
    pub(crate) fn into_nogood(self) -> Nogood
        ensures { result ≡ self }
    {
        self.nogood
    }

    /// How many calls of instances its steps made.
    pub(crate) fn calls(&self) -> u64 {
        self.calls
    }

    /// The literal with this number.
    pub(crate) fn literal(&self, at: usize) -> Option<Literal>
        ensures literal { result ≡ slice_get self.now.literals at }
        ensures within { IfSome result (λ _. at < length self.now.literals) }
    {
        self.nogood.literals().get(at).copied()
    }

    /// Of a literal and another one about its place that which the other implies, first.
    pub(crate) fn repeated(&self, at: usize) -> Option<(usize, usize)>
        ensures { IfSome result (λ pair. (pair.0 < length self.now.literals)
            × (pair.1 < length self.now.literals)) }
    {
        let literal = self.literal(at)?;
        for (other, beside) in self.nogood.literals().iter().enumerate() {
            if other != at && beside.place == literal.place {
                if beside.fact.implies(literal.fact) {
                    return Some((at, other));
                }
                if literal.fact.implies(beside.fact) {
                    return Some((other, at));
                }
            }
        }
        None
    }

    /// Drops a literal that another one implies, and tells whether it did.
    pub(crate) fn drop_repeated(&mut self, at: usize, other: usize) -> bool
        requires at { at < length self.old.literals }
        requires other { other < length self.old.literals }
        ensures { AlwaysStays self.old self.new }
    {
        self.nogood.drop_repeated(at, other)
    }

    /// Explains what the trail doesn't say by what was said just now. False where that fails.
    pub(crate) fn explain_unsaid<R: Rule + Drop>(
        &mut self,
        basis: &Ground<'_, R>,
        reason: Reason,
        weights: &mut Weights,
    ) -> Result<bool, AllocError>
        requires means { AllMean R.value_of basis.now.network.now.library.procedures.items }
        requires kept { IsKept (stored_of R.value_of basis.now.network.now.library)
            basis.now.network.now.cells }
        ensures { Stays (stored_of R.value_of basis.now.network.now.library)
            (attached_of basis.now.network.now.cells) basis.now.choices.now basis.now.root.now
            basis.now.store.now self.old self.new }
    {
        for _ in 0..ROUNDS {
            let Some(at) = self.first_unsaid(basis.trail) else {
                return Ok(true);
            };
            if !self.explain(basis, at, reason, weights)? {
                return Ok(false);
            }
        }
        Ok(self.first_unsaid(basis.trail).is_none())
    }

    /// The first literal that the trail doesn't say.
    fn first_unsaid(&self, trail: &Trail) -> Option<usize> {
        for (at, literal) in self.nogood.literals().iter().enumerate() {
            if !is_so(trail, *literal) {
                return Some(at);
            }
        }
        None
    }

    /// Puts in place of a literal what it rests on, by the reason for it. False where that fails.
    pub(crate) fn explain<R: Rule + Drop>(
        &mut self,
        basis: &Ground<'_, R>,
        at: usize,
        reason: Reason,
        weights: &mut Weights,
    ) -> Result<bool, AllocError>
        requires means { AllMean R.value_of basis.now.network.now.library.procedures.items }
        requires kept { IsKept (stored_of R.value_of basis.now.network.now.library)
            basis.now.network.now.cells }
        ensures { Stays (stored_of R.value_of basis.now.network.now.library)
            (attached_of basis.now.network.now.cells) basis.now.choices.now basis.now.root.now
            basis.now.store.now self.old self.new }
    {
        let Some(literal) = self.literal(at) else {
            return Ok(false);
        };
        if let Fact::Is(_) = literal.fact {
            return self.by_ends(at);
        }
        if let Some(number) = reason.out {
            if literal.fact != Fact::Other(number) {
                return self.by_holes(at, reason.was);
            }
            weigh(basis, reason.by, weights);
            return self.explain_hole(basis, at, reason);
        }
        let told = reason.told();
        if !literal.fact.follows_from(told) {
            return self.by_holes(at, told);
        }
        weights.add(literal.place);
        weigh(basis, reason.by, weights);
        self.explain_said(basis, at, reason)
    }

    /// That a number was ruled out, by who did.
    fn explain_hole<R: Rule + Drop>(
        &mut self,
        basis: &Ground<'_, R>,
        at: usize,
        reason: Reason,
    ) -> Result<bool, AllocError>
        requires means { AllMean R.value_of basis.now.network.now.library.procedures.items }
        requires kept { IsKept (stored_of R.value_of basis.now.network.now.library)
            basis.now.network.now.cells }
        ensures { Stays (stored_of R.value_of basis.now.network.now.library)
            (attached_of basis.now.network.now.cells) basis.now.choices.now basis.now.root.now
            basis.now.store.now self.old self.new }
    {
        match reason.by {
            Source::Call(instance) => self.by_narrowed_call(basis, at, instance, reason.before),
            Source::Nogood(number) => self.by_nogood(basis, at, number, reason),
            _ => Ok(false),
        }
    }

    /// That something was said, by who said it.
    fn explain_said<R: Rule + Drop>(
        &mut self,
        basis: &Ground<'_, R>,
        at: usize,
        reason: Reason,
    ) -> Result<bool, AllocError>
        requires means { AllMean R.value_of basis.now.network.now.library.procedures.items }
        requires kept { IsKept (stored_of R.value_of basis.now.network.now.library)
            basis.now.network.now.cells }
        ensures { Stays (stored_of R.value_of basis.now.network.now.library)
            (attached_of basis.now.network.now.cells) basis.now.choices.now basis.now.root.now
            basis.now.store.now self.old self.new }
    {
        let Some(rest) = self.rest(basis, at, reason) else {
            return Ok(false);
        };
        let asked = Asked {
            rest,
            before: reason.before,
        };
        match reason.by {
            Source::Decision => self.by_decision(basis, at, reason),
            Source::Call(instance) => self.by_call(basis, at, instance, asked),
            Source::Nogood(number) => self.by_nogood(basis, at, number, reason),
            Source::Side(number) => self.by_side(basis, at, number, asked),
        }
    }

    /// What a decision said, by the fact that was decided. False where that is the literal's own.
    fn by_decision<R: Rule + Drop>(
        &mut self,
        basis: &Ground<'_, R>,
        at: usize,
        reason: Reason,
    ) -> Result<bool, AllocError>
        ensures { Stays (stored_of R.value_of basis.now.network.now.library)
            (attached_of basis.now.network.now.cells) basis.now.choices.now basis.now.root.now
            basis.now.store.now self.old self.new }
    {
        let Some(literal) = self.literal(at) else {
            return Ok(false);
        };
        let Some(kind) = basis.kind(literal.place) else {
            return Ok(false);
        };
        let Some(pair) = reason.decided_against(literal.fact, kind.size) else {
            return Ok(false);
        };
        let Some(other) = clashing(basis.alloc, literal.place, pair.one, pair.other)? else {
            return Ok(false);
        };
        self.nogood.by_nogood(at, &other, 1, None, kind)
    }

    /// What has to be known of a literal's place besides, so that what was said of it says its
    /// fact, if anything has; none where there is no such place.
    fn rest<R: Rule + Drop>(
        &self,
        basis: &Ground<'_, R>,
        at: usize,
        reason: Reason,
    ) -> Option<Option<Fact>> {
        let literal = self.literal(at)?;
        let kind = basis.kind(literal.place)?;
        Some(reason.rest(literal.fact, kind.size))
    }

    /// Counts a call of an instance, and as many as it takes to make so many arguments say less.
    fn count_calls(&mut self, args: usize)
        ensures { self.new ≡ self.old }
    {
        let weakening = (args as u64).saturating_mul(2);
        self.calls = self.calls.saturating_add(weakening).saturating_add(1);
    }

    /// A number, by its two ends.
    fn by_ends(&mut self, at: usize) -> Result<bool, AllocError>
        requires at { at < length self.old.literals }
        ensures { AlwaysStays self.old self.new }
    {
        self.nogood.by_ends(at)
    }

    /// An end that moved past numbers that are out, by where it stood.
    fn by_holes(&mut self, at: usize, from: Info) -> Result<bool, AllocError>
        requires at { at < length self.old.literals }
        ensures { AlwaysStays self.old self.new }
    {
        let Some(literal) = self.literal(at) else {
            return Ok(false);
        };
        match (literal.fact, from) {
            (Fact::AtLeast(_), Info::Span(span)) => self.nogood.by_holes(at, span.lo()),
            (Fact::AtMost(_), Info::Span(span)) => self.nogood.by_holes(at, span.hi()),
            _ => Ok(false),
        }
    }

    /// What an instance answered, by what was believed of its inputs, as little of it as says so.
    fn by_call<R: Rule + Drop>(
        &mut self,
        basis: &Ground<'_, R>,
        at: usize,
        instance: usize,
        asked: Asked,
    ) -> Result<bool, AllocError>
        requires means { AllMean R.value_of basis.now.network.now.library.procedures.items }
        requires kept { IsKept (stored_of R.value_of basis.now.network.now.library)
            basis.now.network.now.cells }
        ensures { Stays (stored_of R.value_of basis.now.network.now.library)
            (attached_of basis.now.network.now.cells) basis.now.choices.now basis.now.root.now
            basis.now.store.now self.old self.new }
    {
        if instance >= basis.network.instances() {
            return Ok(false);
        }
        let Some(literal) = self.literal(at) else {
            return Ok(false);
        };
        let inputs = basis.network.data().instance(instance).inputs();
        let mut args = arguments(basis, inputs, asked.before)?;
        let widest = widest_arguments(basis, inputs)?;
        self.count_calls(inputs.len());
        let claim = Claim {
            instance,
            rest: asked.rest,
            fact: literal.fact,
        };
        weaken(basis.network, claim, &mut args, &widest);
        let call = Called {
            instance,
            args: &args,
        };
        self.nogood.by_call(basis.network, at, call, asked.rest)
    }

    /// That an instance ruled a number out of its output, by what was believed of its other inputs.
    fn by_narrowed_call<R: Rule + Drop>(
        &mut self,
        basis: &Ground<'_, R>,
        at: usize,
        instance: usize,
        before: usize,
    ) -> Result<bool, AllocError>
        requires means { AllMean R.value_of basis.now.network.now.library.procedures.items }
        requires kept { IsKept (stored_of R.value_of basis.now.network.now.library)
            basis.now.network.now.cells }
        ensures { Stays (stored_of R.value_of basis.now.network.now.library)
            (attached_of basis.now.network.now.cells) basis.now.choices.now basis.now.root.now
            basis.now.store.now self.old self.new }
    {
        if instance >= basis.network.instances() {
            return Ok(false);
        }
        let Some(literal) = self.literal(at) else {
            return Ok(false);
        };
        let x = basis.network.data().instance(instance);
        let mut args = arguments(basis, x.inputs(), before)?;
        let Some(place) = set_output(&mut args, x.inputs(), literal) else {
            return Ok(false);
        };
        self.count_calls(0);
        let call = Called {
            instance,
            args: &args,
        };
        self.nogood.by_narrowed_call(basis.network, at, call, place)
    }

    /// What a nogood that is kept said, by the rest of it: all that was so but the literal that it
    /// denied.
    fn by_nogood<R: Rule + Drop>(
        &mut self,
        basis: &Ground<'_, R>,
        at: usize,
        number: usize,
        reason: Reason,
    ) -> Result<bool, AllocError>
        ensures { Stays (stored_of R.value_of basis.now.network.now.library)
            (attached_of basis.now.network.now.cells) basis.now.choices.now basis.now.root.now
            basis.now.store.now self.old self.new }
    {
        let Some(other) = basis.store.nogood(number) else {
            return Ok(false);
        };
        let Some(literal) = self.literal(at) else {
            return Ok(false);
        };
        let Some(kind) = basis.kind(literal.place) else {
            return Ok(false);
        };
        let rest = reason.rest(literal.fact, kind.size);
        let Some(which) = reason.denied_in(other.literals(), literal.place, kind.size) else {
            return Ok(false);
        };
        self.nogood.by_nogood(at, other, which, rest, kind)
    }

    /// What a statement under a side said: of its cell, by the side; of its choice, by what was
    /// believed of its cell.
    fn by_side<R: Rule + Drop>(
        &mut self,
        basis: &Ground<'_, R>,
        at: usize,
        number: usize,
        asked: Asked,
    ) -> Result<bool, AllocError>
        ensures { Stays (stored_of R.value_of basis.now.network.now.library)
            (attached_of basis.now.network.now.cells) basis.now.choices.now basis.now.root.now
            basis.now.store.now self.old self.new }
    {
        let cells = basis.network.data();
        let Some(sided) = basis.sides.get(number) else {
            return Ok(false);
        };
        let Some(literal) = self.literal(at) else {
            return Ok(false);
        };
        let statement = sided.statement;
        if statement >= cells.statement_count() {
            return Ok(false);
        }
        if literal.place == sided.cell {
            return self
                .nogood
                .by_side(cells, basis.choices, at, statement, asked.rest);
        }
        let was = basis
            .course
            .info_before(basis.trail, sided.cell, asked.before);
        let Some(fact) = barred_fact(was, sided.info) else {
            return Ok(false);
        };
        let barred = Barred { statement, fact };
        self.nogood
            .by_barred_side(cells, basis.choices, at, barred, asked.rest)
    }

    /// Drops those literals from one on that are so by no premise.
    pub(crate) fn drop_given<R: Rule + Drop>(&mut self, basis: &Ground<'_, R>, from: usize)
        requires kept { IsKept (stored_of R.value_of basis.now.network.now.library)
            basis.now.network.now.cells }
        ensures { Stays (stored_of R.value_of basis.now.network.now.library)
            (attached_of basis.now.network.now.cells) basis.now.choices.now basis.now.root.now
            basis.now.store.now self.old self.new }
    {
        let mut at = from;
        for _ in from..self.nogood.literals().len() {
            if !self.drop_one_given(basis, at) {
                at = at.saturating_add(1);
            }
        }
    }

    /// Drops a literal that is so by no premise, and tells whether it did.
    fn drop_one_given<R: Rule + Drop>(&mut self, basis: &Ground<'_, R>, at: usize) -> bool
        requires kept { IsKept (stored_of R.value_of basis.now.network.now.library)
            basis.now.network.now.cells }
        ensures { Stays (stored_of R.value_of basis.now.network.now.library)
            (attached_of basis.now.network.now.cells) basis.now.choices.now basis.now.root.now
            basis.now.store.now self.old self.new }
    {
        let Some(literal) = self.literal(at) else {
            return false;
        };
        // (what is kept of that is quicker to look at)
        if !literal.fact.follows_from(basis.course.given(literal.place)) {
            return false;
        }
        self.nogood.by_given(basis.network, at)
    }

    /// What was so at the root: of every value, or by premises that are believed there.
    pub(crate) fn by_root<R: Rule + Drop>(
        &mut self,
        basis: &Ground<'_, R>,
        at: usize,
    ) -> Result<bool, AllocError>
        requires { IsKept (stored_of R.value_of basis.now.network.now.library)
            basis.now.network.now.cells }
        ensures { Stays (stored_of R.value_of basis.now.network.now.library)
            (attached_of basis.now.network.now.cells) basis.now.choices.now basis.now.root.now
            basis.now.store.now self.old self.new }
    {
        let Some(_) = self.literal(at) else {
            return Ok(false);
        };
        if self.nogood.by_kind(basis.network.data(), basis.choices, at) {
            return Ok(true);
        }
        self.nogood.by_belief(basis.network, basis.root, at)
    }
}

/// What was believed of these cells before an entry.
fn arguments<R: Rule + Drop>(
    basis: &Ground<'_, R>,
    cells: &[usize],
    before: usize,
) -> Result<SmallVec<Info, FEW>, AllocError>
    ensures { IfOk result (λ infos. length infos.items ≡ length cells.now) }
{
    cells
        .iter()
        .map(|cell| basis.course.info_before(basis.trail, *cell, before))
        .collect(basis.alloc)
}

/// What every value of these cells has by no premise.
fn widest_arguments<R: Rule + Drop>(
    basis: &Ground<'_, R>,
    cells: &[usize],
) -> Result<SmallVec<Info, FEW>, AllocError>
    ensures { IfOk result (λ infos. length infos.items ≡ length cells.now) }
{
    cells
        .iter()
        .map(|cell| basis.course.given(*cell))
        .collect(basis.alloc)
}

/// Where a literal says which number its value isn't, and its cell is among the inputs, puts that
/// number in the place of the first such argument, and tells which one that is.
fn set_output(args: &mut [Info], inputs: &[usize], literal: Literal) -> Option<usize> {
    let Fact::Other(number) = literal.fact else {
        return None;
    };
    let place = inputs.iter().position(|cell| *cell == literal.place)?;
    let arg = args.get_mut(place)?;
    *arg = Info::between(number, number);
    Some(place)
}
