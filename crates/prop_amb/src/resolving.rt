//! What a nogood shows of the choices, and the move that follows.
ghost use Rattle.std.specs.Prelude.{◌≡◌, ◌+◌, ◌<◌, ◌≤◌, ℕ, length, false, IsTrue, IfOk, OnOk};
ghost use Rattle.std.specs.Prelude.{OnErr};
ghost use Rattle.prop_numbers.specs.Sets.{set_of, IsPart};
ghost use Rattle.prop_cells.specs.Problems.{Problem};
ghost use Rattle.prop_nogoods.specs.Stores.{has_part};
ghost use Rattle.prop_amb.specs.Refuted.{IsNogood};
ghost use Rattle.prop_amb.specs.Search.{choices_in, IsStand, IsSearch};
ghost use Rattle.prop_amb.specs.Going.{MayBelieve};
ghost use Rattle.prop_amb.specs.Moving.{advanced, reasons_advanced, passed_over};
ghost use Rattle.prop_amb.specs.inner.Refuting.{MayStep, HasStepped};
ghost use Rattle.prop_amb.specs.Resolving.{MayAdvance, IsReason, IsResolved, IfAgainst};
ghost use Rattle.prop_amb.specs.Resolving.{premises_of};
ghost use Rattle.prop_amb.specs.Culprits.{AreCulprits, MayLeave};

use crate::joining::joined;
use crate::levels::leave;
use crate::lists::move_on;
use crate::reasons::advance_reasons;
use crate::search::Search;
use prop_premises::{Premise, PremiseSet, Worldview};
use std::alloc::AllocError;
use std::mem::replace;

/// What a believed nogood shows.
#[derive(Drop)]
pub enum Resolved {
    /// The choice at this place leaves its side, which isn't its last, for the reason given.
    Against(usize, PremiseSet),
    /// Every list is refuted, by these believed premises of the user's.
    RuledOut(PremiseSet),
}

impl Search {
    /// What a believed nogood shows: the last choice whose side it holds leaves the side. Where
    /// that is its last side, the nogood and the reasons against the other sides, without the sides
    /// of the choice, are looked at in its place.
    pub fn resolve(&self, nogood: PremiseSet) -> Result<Resolved, AllocError>
        requires believed { IsPart (set_of nogood) (set_of self.now.worldview) }
        ensures may { IfOk result (λ r. IfAgainst r (MayLeave self.now nogood)) }
        ensures below { IfOk result (λ r. IfAgainst r (λ place. place < self.now.level)) }
        ensures culprits { IfOk result (λ r. AreCulprits self.now nogood (set_of (premises_of r))) }
        ensures resolved { IfOk result
            (λ r. (problem : Problem) → IsSearch problem self.now
            → IsNogood problem (choices_in self.now) (set_of nogood)
            → IsTrue (has_part self.now.listed (set_of nogood)) → IsResolved problem self.now r) }
    {
        let mut set = nogood;
        for place in (0..self.level).rev() {
            let choice = self.premises.choices()[place];
            let side = self.list[place];
            let premise = choice.first + Premise::from(side - 1);
            if set.contains(premise) {
                if side < choice.sides {
                    return Ok(Resolved::Against(place, set));
                }
                let reasons = self.reasons[place].sets();
                set = joined(&set, premise, reasons, choice.first)?;
            }
        }
        Ok(Resolved::RuledOut(set))
    }

    /// The choice at a place goes to its next side, and the reason is kept against the side that it
    /// leaves. All later choices go to their first side, which isn't believed, and no reason is
    /// kept of them. Answers the worldview of before. After want of memory nothing has changed.
    pub fn advance(&mut self, place: usize, reason: PremiseSet) -> Result<Worldview, AllocError>
        requires may { MayAdvance self.old place }
        requires below { place ≤ self.old.level }
        ensures premises { self.new.premises ≡ self.old.premises }
        ensures listed { self.new.listed ≡ self.old.listed }
        ensures before { IfOk result (λ w. w ≡ self.old.worldview) }
        ensures list { OnOk result (self.new.list ≡ advanced self.old.list place) }
        ensures level { OnOk result (self.new.level ≡ place + 1) }
        ensures reasons { OnOk result
            (self.new.reasons ≡ reasons_advanced self.old.reasons place reason) }
        ensures err { OnErr result (self.new ≡ self.old) }
        ensures search { (problem : Problem) → IsReason problem self.old place (set_of reason)
            → IsSearch problem self.old → IsSearch problem self.new }
    {
        let choices = self.premises.choices();
        let next = choices[place].first + Premise::from(self.list[place]);
        let mut worldview = self.worldview.copy()?;
        leave(&mut worldview, choices, &self.list, place, self.level);
        worldview.believe(next)?;
        advance_reasons(&mut self.reasons, place, reason)?;
        move_on(&mut self.list, place);
        self.level = place + 1;
        self.from = self.from.min(choices[place].first);
        self.ahead = None;
        Ok(replace(&mut self.worldview, worldview))
    }

    /// The first choice of which no side is believed goes to its next side, which isn't believed
    /// either, and the reason is kept. After want of memory nothing has changed.
    fn pass_by(&mut self, reason: PremiseSet) -> Result<(), AllocError>
        requires may { MayAdvance self.old self.old.level }
        ensures ok { OnOk result (self.new ≡ passed_over self.old reason) }
        ensures err { OnErr result (self.new ≡ self.old) }
        ensures stand { IsStand self.new }
        ensures search { (problem : Problem)
            → IsReason problem self.old self.old.level (set_of reason)
            → IsSearch problem self.old → IsSearch problem self.new }
    {
        advance_reasons(&mut self.reasons, self.level, reason)?;
        move_on(&mut self.list, self.level);
        self.ahead = None;
        Ok(())
    }

    /// The first choice of which no side is believed goes to its next side, and the reason is kept.
    /// That is believed unless it isn't its last and a noted nogood would be believed with it.
    /// Answers the worldview of before. After want of memory nothing more is believed.
    fn skip(&mut self, reason: PremiseSet) -> Result<Worldview, AllocError>
        requires may { MayAdvance self.old self.old.level }
        requires unblocked { has_part self.old.listed (set_of self.old.worldview) ≡ false }
        ensures premises { self.new.premises ≡ self.old.premises }
        ensures listed { self.new.listed ≡ self.old.listed }
        ensures before { IfOk result (λ w. w ≡ self.old.worldview) }
        ensures ok { OnOk result (MayBelieve (passed_over self.old reason) self.new) }
        ensures err { OnErr result (self.new.worldview ≡ self.old.worldview) }
        ensures stand { OnErr result (IsStand self.new) }
        ensures search { (problem : Problem)
            → IsReason problem self.old self.old.level (set_of reason)
            → IsSearch problem self.old → IsSearch problem self.new }
    {
        self.pass_by(reason)?;
        if self.refuted_next()?.is_none() {
            let before = self.deepen()?;
            return Ok(before);
        }
        let before = self.worldview().copy()?;
        Ok(before)
    }

    /// The choice at a place goes on for a reason, by a move or a skip. Answers the worldview of
    /// before. After want of memory what is believed is the same.
    pub(crate) fn step(&mut self, place: usize, reason: PremiseSet) -> Result<Worldview, AllocError>
        requires { MayStep self.old place reason }
        ensures premises { self.new.premises ≡ self.old.premises }
        ensures listed { self.new.listed ≡ self.old.listed }
        ensures before { IfOk result (λ w. w ≡ self.old.worldview) }
        ensures ok { OnOk result (HasStepped self.old place reason self.new) }
        ensures err { OnErr result (self.new.worldview ≡ self.old.worldview) }
        ensures stand { OnErr result (IsStand self.new) }
        ensures search { (problem : Problem) → IsReason problem self.old place (set_of reason)
            → IsSearch problem self.old → IsSearch problem self.new }
    {
        if place < self.level {
            return self.advance(place, reason);
        }
        self.skip(reason)
    }
}
