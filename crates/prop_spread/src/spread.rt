//! What follows from what is supposed, one step at a time.

ghost use Rattle.std.specs.Prelude.{◌≡◌, ◌⊎◌, ◌<◌, List, OnOk, IfOk, IfSome, MatchOption, length};
ghost use Rattle.prop_premises.specs.Origins.{choices_of};
ghost use Rattle.prop_procedures.specs.Stored.{Stored};
ghost use Rattle.prop_procedures.specs.Kept.{AllMean, stored_of};
ghost use Rattle.prop_cells.specs.Data.{Data, IsKept};
ghost use Rattle.prop_refuting.specs.Nogoods.{Nogood as NogoodOf};
ghost use Rattle.prop_learned.specs.Stores.{IsKeptAt, IsKeptIn};
ghost use Rattle.prop_spread.specs.Proposals.{IsProposed};

use crate::choosing::{First, first_try, pick, pick_named};
use crate::present::Present;
use crate::proposal::Proposal;
use crate::wiring::Wiring;
use prop_cells::{Instance, Network};
use prop_deriving::clash::Clash;
use prop_deriving::ground::Ground;
use prop_deriving::learning::Learning;
use prop_deriving::sides::{Sided, Sides};
use prop_facts::{Changes, Fact, Literal};
use prop_guards::Guarded;
use prop_lattice::{Info, Partial};
use prop_learned::store::{Look, Store};
use prop_learned::weights::Weights;
use prop_premises::{Premises, Worldview};
use prop_refuting::Nogood;
use prop_refuting::calls::answer;
use prop_trail::{Outcome, Source, Trail, Waiting};
use std::alloc::{AllocError, Global};
use std::marker::Model;

/// As many inputs as most instances have at the most.
const FEW: usize = 4;

/// As many inputs as an instance has at the most whose arguments take no memory.
const SEVERAL: usize = 16;

/// How far it is.
#[derive(Clone, Copy, Debug, PartialEq, Eq)]
pub enum Quiet {
    /// A step was taken, and more may follow.
    Going,
    /// Nothing more follows.
    Still,
    /// Something was said that can't be.
    Clashing,
}

/// How many entries there may be for each place, or in all where that is more.
const MANY: usize = 32;

const MOST_ENTRIES: usize = 1_000_000;

/// How many literals a nogood has at the most that is never forgotten.
pub(crate) const SHORT: usize = 2;

/// A nogood that was learned, with what is done with it.
#[derive(Drop)]
pub struct Lesson {
    /// What can't be.
    pub nogood: Nogood,
    /// The literal that it denies once those before it are so.
    pub literal: Literal,
    /// The numbers of the two literals at which it is watched: of that one, and of the last other.
    pub watched: (usize, usize),
    /// The level to go back to.
    pub level: usize,
    /// Whether it goes with that level.
    pub passes: bool,
}

/// A literal that a nogood denies by itself, and the number of that nogood.
#[derive(Clone, Copy, Debug)]
pub(crate) struct Unit {
    pub(crate) literal: Literal,
    pub(crate) number: usize,
}

/// What is believed of each place, and what waits to be looked at.
#[derive(Drop)]
pub struct Spread {
    pub(crate) alloc: Global,
    /// What is believed where no side is.
    pub(crate) root: Worldview,
    pub(crate) sides: Sides,
    pub(crate) trail: Trail,
    pub(crate) present: Present,
    pub(crate) wiring: Wiring,
    pub(crate) waiting: Waiting,
    pub(crate) store: Store,
    /// How many elements each place may have.
    pub(crate) sizes: Vec<u8>,
    pub(crate) clash: Option<Clash>,
    pub(crate) units: Vec<Unit>,
    /// How many entries, and how many units, were looked at.
    pub(crate) seen: usize,
    pub(crate) denied: usize,
}

impl Model for Spread {
    ghost use Rattle.prop_spread.specs.Spreads.{Spread};

    ghost Value = { Spread };

    ghost view = { λ s. record { nogoods = s.store; root = s.root } };
}

/// What is believed of the inputs, in their order, as far as there is room.
fn gather(present: &Present, inputs: &[usize], args: &mut [Info]) {
    for j in 0..inputs.len().min(args.len()) {
        args[j] = present.info(inputs[j]);
    }
}

/// What is believed of these cells, of any count.
fn gathered(alloc: Global, present: &Present, inputs: &[usize]) -> Result<Vec<Info>, AllocError> {
    let mut args = Vec::with_capacity(alloc, inputs.len())?;
    for input in inputs {
        args.push(present.info(*input))?;
    }
    Ok(args)
}

/// The rule of an instance.
fn rule_of<'a, R: Guarded + Drop>(network: &'a Network<R>, x: &Instance) -> Option<&'a R> {
    if x.procedure() >= network.library().len() {
        return None;
    }
    Some(network.library().get(x.procedure()).rule())
}

/// Whether the output of an instance is its input at the rule's own place.
fn narrows_itself<R: Guarded + Drop>(rule: &R, x: &Instance) -> bool {
    match rule.own_place() {
        Some(own) => x.inputs().get(own) == Some(&x.output()),
        None => false,
    }
}

/// Whether a call can tell what was said from what was believed before. A number that is ruled out
/// within a span is none of its ends.
fn is_seen(said: &Clash, changes: Changes) -> bool {
    said.out.is_none() || changes.low || changes.high || changes.point
}

/// Whether a number lies within what is believed, whichever single ones are out.
fn is_within(info: Info, number: i64) -> bool {
    match info {
        Info::Span(span) => span.lo() <= number && number <= span.hi(),
        _ => true,
    }
}

/// The other elements.
fn without_bit(info: Info, bit: u64) -> Info {
    match info {
        Info::Set(elements) => Info::from_bits(elements.bits() & !bit),
        _ => info,
    }
}

/// Puts what was learned into the store, and answers its number.
fn put(store: &mut Store, lesson: Lesson) -> Result<usize, AllocError>
    ensures { (g : NogoodOf) → IsKeptIn store.new g → (g ≡ lesson.nogood) ⊎ IsKeptIn store.old g }
{
    if lesson.passes {
        return store.pass(lesson.nogood, lesson.level);
    }
    let stays = lesson.nogood.literals().len() <= SHORT;
    store.add(lesson.nogood, lesson.watched, stays)
}

impl Spread {
    /// Where its memory comes from.
    pub fn alloc(&self) -> Global {
        self.alloc
    }

    /// What is believed of each place, entry by entry.
    pub fn trail(&self) -> &Trail {
        &self.trail
    }

    /// The statement under a side with this number.
    pub fn sided(&self, number: usize) -> Option<Sided> {
        self.sides.get(number).copied()
    }

    /// The nogood with this number, where it is kept.
    pub fn nogood(&self, number: usize) -> Option<&Nogood>
        ensures { MatchOption result ((g : NogoodOf) → IsKeptAt self.now.nogoods number g → ⊥)
            (λ g. IsKeptAt self.now.nogoods number g.now) }
    {
        self.store.nogood(number)
    }

    /// How many places there are.
    pub fn places(&self) -> usize {
        self.trail.places()
    }

    /// How many suppositions there are.
    pub fn level(&self) -> usize {
        self.trail.level()
    }

    /// The first of so many cells of which a contradiction is believed.
    pub fn contradiction(&self, cells: usize) -> Option<usize> {
        for cell in 0..cells.min(self.trail.places()) {
            if self.trail.info(cell).is_contradiction() {
                return Some(cell);
            }
        }
        None
    }

    /// All instances wait.
    pub fn wake_all(&mut self)
        ensures same { self.new ≡ self.old }
    {
        self.waiting.wake_all();
    }

    /// What is believed of a place where nothing is supposed.
    pub fn at_root(&self, place: usize) -> Info {
        if self.trail.level() > 0 {
            for at in self.trail.start_of(1)..self.trail.len() {
                let entry = self.trail.entry(at);
                if entry.place == place {
                    return entry.was;
                }
            }
        }
        self.present.info(place)
    }

    /// What can't be, once.
    pub fn take_clash(&mut self) -> Option<Clash>
        ensures same { self.new ≡ self.old }
    {
        self.clash.take()
    }

    /// The level of the last literal of what was learned but one, and its number.
    pub fn second(&self, learning: &Learning) -> (usize, usize) {
        learning.second(&self.trail)
    }

    /// Of these places one that is open, which is decided next.
    pub fn pick_named(&self, named: &[usize], weights: &Weights) -> Option<usize> {
        pick_named(&self.trail, &self.present, named, weights)
    }

    /// The same of all places, where of several the first of these ones is taken.
    pub fn pick(&self, named: &[usize], weights: &Weights) -> Option<usize> {
        pick(&self.trail, &self.present, named, weights)
    }

    /// Whether there are more entries than a search needs that comes to an end.
    pub fn is_full(&self) -> bool {
        let most = self.trail.places().saturating_mul(MANY).max(MOST_ENTRIES);
        self.trail.len() > most
    }

    /// What is believed, as a plan; none where a choice has several sides left.
    pub fn propose<R: Guarded + Drop>(
        &self,
        network: &Network<R>,
        premises: &Premises,
    ) -> Result<Option<Proposal>, AllocError>
        ensures { IfOk result (λ o. IfSome o (λ p. (library : List Stored) (d : Data)
            → IsProposed library d premises.now p)) }
    {
        Proposal::new(self.alloc, network, premises, &self.trail)
    }

    /// Supposes something of a place that is open; false where nothing can be.
    pub fn suppose(&mut self, place: usize, first: First) -> Result<bool, AllocError>
        ensures same { self.new ≡ self.old }
    {
        if place >= self.trail.places() {
            return Ok(false);
        }
        let info = self.trail.info(place);
        let earlier = match first {
            First::Decided => self.present.decided(place),
            _ => self.present.kept(place),
        };
        let Some(fact) = first_try(info, earlier, first) else {
            return Ok(false);
        };
        self.trail.raise()?;
        self.say_fact(Literal { place, fact }, Source::Decision)
    }

    /// Goes back to where what was learned says something, keeps it, and says it; false where that
    /// can't be.
    pub fn learn(&mut self, lesson: Lesson) -> Result<bool, AllocError>
        ensures root { self.new.root ≡ self.old.root }
        ensures kept { OnOk result ((g : NogoodOf) → IsKeptIn self.new.nogoods g
            → IsKeptIn self.old.nogoods g ⊎ (g ≡ lesson.nogood)) }
    {
        self.back(lesson.level)?;
        let unit = self.keep(lesson)?;
        self.deny(unit)
    }

    /// Keeps what was learned.
    fn keep(&mut self, lesson: Lesson) -> Result<Unit, AllocError>
        ensures root { self.new.root ≡ self.old.root }
        ensures kept { OnOk result ((g : NogoodOf) → IsKeptIn self.new.nogoods g
            → IsKeptIn self.old.nogoods g ⊎ (g ≡ lesson.nogood)) }
    {
        let literal = lesson.literal;
        let is_alone = lesson.nogood.literals().len() == 1;
        let number = put(&mut self.store, lesson)?;
        let unit = Unit { literal, number };
        if is_alone {
            self.units.push(unit)?;
        }
        Ok(unit)
    }

    /// Begins again where nothing is supposed, and forgets some of what was learned.
    pub fn restart(&mut self) -> Result<(), AllocError>
        ensures root { self.new.root ≡ self.old.root }
        ensures kept { OnOk result ((g : NogoodOf) → IsKeptIn self.new.nogoods g
            → IsKeptIn self.old.nogoods g) }
    {
        self.back(0)?;
        self.present.forget_decided();
        self.store.forget(&self.trail)
    }

    /// What derivations read.
    pub fn ground<'a, R>(&'a self, network: &'a Network<R>, premises: &'a Premises) -> Ground<'a, R>
        ensures network { result.network.now ≡ network.now }
        ensures choices { result.choices.now ≡ choices_of premises.now }
        ensures root { result.root.now ≡ self.now.root }
        ensures nogoods { result.store.now ≡ self.now.nogoods }
    {
        Ground {
            alloc: self.alloc,
            network,
            choices: premises.choices(),
            sides: &self.sides,
            trail: &self.trail,
            course: self.present.course(),
            store: &self.store,
            root: &self.root,
        }
    }

    /// Says something of a place; false where that can't be.
    fn say(&mut self, place: usize, said: Info, by: Source) -> Result<bool, AllocError>
        ensures same { self.new ≡ self.old }
    {
        if place >= self.trail.places() {
            return Ok(true);
        }
        let outcome = self.trail.say(place, said, by)?;
        let clash = Clash {
            place,
            said,
            out: None,
            by,
        };
        self.take_in(outcome, clash)
    }

    /// Rules a number out of a place; false where that can't be.
    fn rule_out(&mut self, place: usize, number: i64, by: Source) -> Result<bool, AllocError>
        ensures same { self.new ≡ self.old }
    {
        if place >= self.trail.places() {
            return Ok(true);
        }
        let outcome = self.trail.rule_out(place, number, by)?;
        let clash = Clash {
            place,
            said: Info::Nothing,
            out: Some(number),
            by,
        };
        self.take_in(outcome, clash)
    }

    /// Says a fact; false where that can't be.
    fn say_fact(&mut self, literal: Literal, by: Source) -> Result<bool, AllocError>
        ensures same { self.new ≡ self.old }
    {
        match literal.fact {
            Fact::Other(number) => self.rule_out(literal.place, number, by),
            fact => self.say(literal.place, fact.info(), by),
        }
    }

    /// Takes in what came of something that was said: who reads the place waits, or it clashed.
    fn take_in(&mut self, outcome: Outcome, clash: Clash) -> Result<bool, AllocError>
        ensures same { self.new ≡ self.old }
    {
        match outcome {
            Outcome::Same => Ok(true),
            Outcome::Changed(changes) => {
                self.present.follow(&self.trail)?;
                if is_seen(&clash, changes) {
                    self.wiring
                        .wake(&mut self.waiting, &self.present, clash.place, changes);
                }
                Ok(true)
            }
            Outcome::Clash => {
                self.clash = Some(clash);
                Ok(false)
            }
        }
    }

    /// Says that a literal isn't so, by a nogood; false where that can't be.
    fn deny(&mut self, unit: Unit) -> Result<bool, AllocError>
        ensures same { self.new ≡ self.old }
    {
        let place = unit.literal.place;
        let Some(size) = self.sizes.get(place) else {
            return Ok(true);
        };
        match unit.literal.fact.negation(*size) {
            Some(fact) => {
                let by = Source::Nogood(unit.number);
                self.say_fact(Literal { place, fact }, by)
            }
            None => Ok(true),
        }
    }

    /// Calls an instance, and says what it answers; false where that can't be.
    fn call<R: Guarded + Drop>(
        &mut self,
        network: &Network<R>,
        instance: usize,
    ) -> Result<bool, AllocError>
        requires means { AllMean R.value_of network.now.library.procedures.items }
        requires kept { IsKept (stored_of R.value_of network.now.library) network.now.cells }
        ensures same { self.new ≡ self.old }
    {
        if instance >= network.instances() {
            return Ok(true);
        }
        let x = network.data().instance(instance);
        if x.inputs().len() <= FEW {
            let mut args = [Info::Nothing; FEW];
            gather(&self.present, x.inputs(), &mut args);
            return self.call_on(network, instance, &args[..x.inputs().len()]);
        }
        self.call_of_many(network, instance)
    }

    /// The same of an instance with any count of inputs.
    #[inline(never)]
    fn call_of_many<R: Guarded + Drop>(
        &mut self,
        network: &Network<R>,
        instance: usize,
    ) -> Result<bool, AllocError>
        requires means { AllMean R.value_of network.now.library.procedures.items }
        requires kept { IsKept (stored_of R.value_of network.now.library) network.now.cells }
        requires there { instance < length network.now.cells.instances }
        ensures same { self.new ≡ self.old }
    {
        let x = network.data().instance(instance);
        if x.inputs().len() <= SEVERAL {
            let mut args = [Info::Nothing; SEVERAL];
            gather(&self.present, x.inputs(), &mut args);
            return self.call_on(network, instance, &args[..x.inputs().len()]);
        }
        let args = gathered(self.alloc, &self.present, x.inputs())?;
        self.call_on(network, instance, &args)
    }

    /// Calls an instance on these arguments, and says what it answers; false where that can't be.
    fn call_on<R: Guarded + Drop>(
        &mut self,
        network: &Network<R>,
        instance: usize,
        args: &[Info],
    ) -> Result<bool, AllocError>
        requires means { AllMean R.value_of network.now.library.procedures.items }
        requires kept { IsKept (stored_of R.value_of network.now.library) network.now.cells }
        requires there { instance < length network.now.cells.instances }
        ensures same { self.new ≡ self.old }
    {
        let x = network.data().instance(instance);
        let Some(rule) = rule_of(network, x) else {
            return Ok(true);
        };
        if rule.says_nothing(x.param(), args) {
            return Ok(true);
        }
        let by = Source::Call(instance);
        let is_own = narrows_itself(rule, x);
        if is_own && rule.repeats(x.param(), args) {
            return self.rule_out_by(rule, x, args, by);
        }
        let Some(said) = answer(network, instance, args) else {
            return Ok(true);
        };
        if !self.present.info(x.output()).implies(said) && !self.say(x.output(), said, by)? {
            return Ok(false);
        }
        // (where another cell is the input at the rule's own place, no step could tell why)
        if is_own {
            return self.rule_out_by(rule, x, args, by);
        }
        Ok(true)
    }

    /// Rules out of an instance's output, which is the input at the rule's own place, what its
    /// arguments do, number by number.
    fn rule_out_by<R: Guarded + Drop>(
        &mut self,
        rule: &R,
        x: &Instance,
        args: &[Info],
        by: Source,
    ) -> Result<bool, AllocError>
        ensures same { self.new ≡ self.old }
    {
        for place in 0..args.len() {
            let Some(number) = rule.rules_out(x.param(), args, place) else {
                continue;
            };
            if is_within(self.present.info(x.output()), number)
                && !self.rule_out(x.output(), number, by)?
            {
                return Ok(false);
            }
        }
        Ok(true)
    }

    /// Looks at a statement under a side: what the side says where it is taken, and that it isn't
    /// where that can't be. False where something can't be.
    fn touch(&mut self, number: usize) -> Result<bool, AllocError>
        ensures same { self.new ≡ self.old }
    {
        let Some(sided) = self.sides.get(number) else {
            return Ok(true);
        };
        let sided = *sided;
        let by = Source::Side(number);
        match self.standing(&sided) {
            Standing::Taken => self.say(sided.cell, sided.info, by),
            Standing::Barred(others) => self.say(sided.choice, others, by),
            Standing::Open => Ok(true),
        }
    }

    /// How a side stands.
    fn standing(&self, sided: &Sided) -> Standing {
        let places = self.trail.places();
        if sided.choice >= places || sided.cell >= places || sided.side >= 64 {
            return Standing::Open;
        }
        let Info::Set(left) = self.trail.info(sided.choice) else {
            return Standing::Open;
        };
        let bit = 1u64 << sided.side;
        if left.bits() == bit {
            return Standing::Taken;
        }
        let is_left = left.bits() & bit != 0;
        if is_left
            && self
                .trail
                .info(sided.cell)
                .merge(sided.info)
                .is_contradiction()
        {
            let all = self.trail.root(sided.choice);
            return Standing::Barred(without_bit(all, bit));
        }
        Standing::Open
    }

    /// Looks at all that an entry's place touches; false where something can't be.
    fn look(&mut self, place: usize) -> Result<bool, AllocError>
        ensures same { self.new ≡ self.old }
    {
        for n in 0..self.sides.touching(place).len() {
            let Some(number) = self.sides.touching(place).get(n) else {
                return Ok(true);
            };
            let number = *number;
            if !self.touch(number)? {
                return Ok(false);
            }
        }
        let mut at = 0;
        for _ in 0..self.store.watching(place) {
            let Some(next) = self.store.next(&self.trail, place, at) else {
                return Ok(true);
            };
            at = next;
            match self.store.look(&self.trail, place, at)? {
                Look::Moved => {}
                Look::Silent => at = at.saturating_add(1),
                Look::Denies { literal, number } => {
                    at = at.saturating_add(1);
                    if !self.deny(Unit { literal, number })? {
                        return Ok(false);
                    }
                }
            }
        }
        Ok(true)
    }

    /// Takes so many steps at the most, and tells how many it took.
    pub fn run<R: Guarded + Drop>(
        &mut self,
        network: &Network<R>,
        most: u64,
    ) -> Result<(Quiet, u64), AllocError>
        requires means { AllMean R.value_of network.now.library.procedures.items }
        requires kept { IsKept (stored_of R.value_of network.now.library) network.now.cells }
        ensures same { self.new ≡ self.old }
    {
        let mut taken: u64 = 0;
        for _ in 0..most {
            let quiet = self.step(network)?;
            taken = taken.saturating_add(1);
            if quiet != Quiet::Going {
                return Ok((quiet, taken));
            }
        }
        Ok((Quiet::Going, taken))
    }

    /// Takes one step: looks at an entry, denies what a nogood denies by itself, or calls an
    /// instance.
    fn step<R: Guarded + Drop>(&mut self, network: &Network<R>) -> Result<Quiet, AllocError>
        requires means { AllMean R.value_of network.now.library.procedures.items }
        requires kept { IsKept (stored_of R.value_of network.now.library) network.now.cells }
        ensures same { self.new ≡ self.old }
    {
        let goes_on = if self.seen < self.trail.len() {
            let place = self.trail.entry(self.seen).place;
            self.seen += 1;
            self.look(place)?
        } else if self.denied < self.units.len() {
            let unit = self.units[self.denied];
            self.denied += 1;
            self.deny(unit)?
        } else {
            match self.waiting.next() {
                Some(instance) => self.call(network, instance)?,
                None => {
                    self.present.keep();
                    return Ok(Quiet::Still);
                }
            }
        };
        Ok(if goes_on {
            Quiet::Going
        } else {
            Quiet::Clashing
        })
    }

    /// Goes back to a level; nothing waits any longer but the units.
    fn back(&mut self, level: usize) -> Result<(), AllocError>
        ensures root { self.new.root ≡ self.old.root }
        ensures kept { OnOk result ((g : NogoodOf) → IsKeptIn self.new.nogoods g
            → IsKeptIn self.old.nogoods g) }
    {
        self.present.take_back(&self.trail, level);
        self.trail.back(level);
        self.store.back(level)?;
        self.waiting.clear();
        self.clash = None;
        self.denied = 0;
        self.seen = self.trail.len();
        Ok(())
    }
}

/// How a side of a choice stands.
enum Standing {
    /// It is taken.
    Taken,
    /// Its statement can't be so: these others are left.
    Barred(Info),
    /// It may be taken.
    Open,
}
