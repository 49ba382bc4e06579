//! Names and choices that a search takes up, and those that it takes back.
ghost use Rattle.std.specs.Prelude.{◌≡◌, ◌<◌, ◌≤◌, ◌+◌, ℕ, List, [], ◌∷◌, ◌++◌, length, take};
ghost use Rattle.std.specs.Prelude.{None, false, IsTrue, IfOk, OnOk, OnErr};
ghost use Rattle.prop_refusals.specs.Refusals.{most};
ghost use Rattle.prop_premises.specs.Origins.{is_user_at, premise_number, is_choice};
ghost use Rattle.prop_cells.specs.Problems.{Problem};
ghost use Rattle.prop_amb.specs.Search.{Stand, choices_in, IsStand, IsSearch};
ghost use Rattle.prop_amb.specs.Moving.{interned, declared, IsLastChoice, IsFresh};

use crate::reasons::Reasons;
use crate::search::Search;
use prop_premises::{Choice, Premise};
use prop_refusals::Limit;
use std::alloc::AllocError;

impl Search {
    /// Takes up a premise with a new name, where there is room: it gets the next number, and is
    /// believed. After want of memory nothing has changed.
    pub fn intern(&mut self, name: &str) -> Result<Premise, AllocError>
        requires new { premise_number self.old.premises name.now ≡ None }
        requires free { is_choice self.old.premises name.now ≡ false }
        requires room { length self.old.premises < most Limit.Premises }
        ensures number { IfOk result (λ p. p ≡ length self.old.premises) }
        ensures user { IfOk result (λ p. IsTrue (is_user_at self.new.premises p)) }
        ensures ok { OnOk result (self.new ≡ interned self.old name.now) }
        ensures err { OnErr result (self.new ≡ self.old) }
        ensures search { (problem : Problem) → IsSearch problem self.old
            → IsSearch problem self.new }
    {
        let premise = self.premises.add(name)?;
        match self.worldview.believe(premise) {
            Ok(()) => {
                self.from = 0;
                self.ahead = None;
                Ok(premise)
            }
            Err(error) => {
                self.premises.back(usize::from(premise));
                Err(error)
            }
        }
    }

    /// The last premise goes, one of the user's, with its name. It takes no memory.
    pub fn take_back(&mut self, premise: Premise)
        requires user { IsTrue (is_user_at self.old.premises premise) }
        requires last { length self.old.premises ≡ premise + 1 }
        ensures only { self.new ≡ record self.old {
          premises = take premise self.old.premises;
          worldview = self.new.worldview;
        } }

        // Where it had just been taken up, all is as before.
        ensures undoes { (before : Stand) (name : List ℕ) → IsStand before
            → premise_number before.premises name ≡ None → self.old ≡ interned before name
            → self.new ≡ before }
    {
        self.premises.back(usize::from(premise));
        self.worldview.back(premise);
        self.from = 0;
        self.ahead = None;
    }

    /// Declares a choice with a new name and this many sides, where there is room, which stands on
    /// the first. None of them is believed yet. After want of memory nothing has changed.
    pub fn declare(&mut self, name: &str, sides: u8) -> Result<Choice, AllocError>
        requires new { premise_number self.old.premises name.now ≡ None }
        requires free { is_choice self.old.premises name.now ≡ false }
        requires sides { (2 ≤ sides) × (sides ≤ 8) }
        requires room { length self.old.premises + sides ≤ most Limit.Premises }
        ensures ok { OnOk result (self.new ≡ declared self.old name.now sides) }
        ensures choice { IfOk result
            (λ c. (c.first ≡ length self.old.premises) × (c.sides ≡ sides)) }
        ensures last { IfOk result (λ c. IsLastChoice self.new.premises c) }
        ensures choices { IfOk result (λ c. choices_in self.new ≡ choices_in self.old ++ c ∷ []) }
        ensures err { OnErr result (self.new ≡ self.old) }
        ensures search { IfOk result
            (λ c. (problem : Problem) → IsFresh problem c → IsSearch problem self.old
            → IsSearch problem self.new) }
    {
        let alloc = *self.list.allocator();
        self.list.reserve(1)?;
        self.reasons.reserve(1)?;
        let choice = self.premises.add_choice(name, sides)?;
        self.list.push(1)?;
        self.reasons.push(Reasons::none(alloc))?;
        self.ahead = None;
        Ok(choice)
    }

    /// The last choice goes, with its name, its sides and the reasons against them. It takes no
    /// memory.
    pub fn undeclare(&mut self, choice: Choice)
        requires { IsLastChoice self.old.premises choice }
        ensures premises { self.new.premises ≡ take choice.first self.old.premises }
        ensures listed { self.new.listed ≡ self.old.listed }

        // Where it had just been declared, all is as before.
        ensures undoes { (before : Stand) (name : List ℕ) → IsStand before
            → self.old ≡ declared before name choice.sides → self.new ≡ before }
    {
        let _ = self.list.pop();
        let _ = self.reasons.pop();
        self.level = self.level.min(self.list.len());
        self.premises.back(usize::from(choice.first));
        self.worldview.back(choice.first);
        self.from = 0;
        self.ahead = None;
    }
}
