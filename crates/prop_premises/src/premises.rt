//! The names of premises and choices, and which premises are believed.
ghost use Rattle.std.specs.Prelude.{◌≡◌, ◌≤◌, ◌<◌, ◌+◌, ◌*◌, ◌↔◌, ◌⊎◌, ℕ, List, [], ◌∷◌, ◌++◌};
ghost use Rattle.std.specs.Prelude.{length, take, Some, None, Ok, Err, true, false};
ghost use Rattle.std.specs.Prelude.{slice_get, option_map, IsTrue, IfOk, IfErr, OnOk, OnErr};
ghost use Rattle.std.specs.Prelude.{MatchResult};
ghost use Rattle.prop_refusals.specs.Refusals.{most};
ghost use Rattle.prop_numbers.specs.Sets.{set_of, union, without, IsSame};
ghost use Rattle.prop_numbers.specs.Words.{has_bit};
ghost use Rattle.prop_premises.specs.Origins.{Origin, name_of, is_user_at, premise_number};
ghost use Rattle.prop_premises.specs.Origins.{is_choice, believed_in, with_belief_at, with_name};
ghost use Rattle.prop_premises.specs.Origins.{with_choice, choices_of, side_at, is_start};
ghost use Rattle.prop_premises.specs.ChoiceLists.{hypotheticals_of, is_hypothetical, worldview};
ghost use Rattle.prop_premises.specs.ChoiceLists.{IsChoiceList};

use crate::choice::Choice;
use crate::named::Kind;
use crate::premise_set::Premise;
use crate::table::Table;
use crate::worldview::Worldview;
use prop_numbers::bits::set_bit;
use prop_numbers::words::blank;
use prop_numbers::{NumberSet, Words};
use prop_refusals::{Limit, Refusal};
use std::alloc::{AllocError, Global};
use std::marker::Model;

/// The premises and choices by name, and which premises are believed.
///
/// Premises are numbered in the order in which their names first appeared. A choice has a number
/// for each of its sides, one after the other.
#[derive(Drop)]
pub struct Premises {
    table: Table,
    choices: Vec<Choice>,
}

impl Model for Premises {
    ghost Value = { List Origin };

    ghost view = { λ p. p.table };

    ghost invariant = { λ p. p.choices.items ≡ choices_of p.table };
}

/// Sets the bit of each hypothetical premise that the list of sides takes.
fn set_sides(words: &mut [u64], choices: &[Choice], sides: &[u8])
    requires list { IsChoiceList choices.now sides.now }
    requires bound { length words.old ≤ 1_024 }
    requires room { (p : ℕ) → IsTrue (is_hypothetical choices.now p) → p < 64 * length words.old }
    ensures len { length words.new ≡ length words.old }
    ensures bits { IsSame (has_bit words.new)
        (union (has_bit words.old) (hypotheticals_of choices.now sides.now)) }
{
    for place in 0..choices.len() {
        let side = Premise::from(sides[place]) - 1;
        set_bit(words, choices[place].first + side);
    }
}

impl Premises {
    /// No premises and no choices. It takes no memory.
    pub fn new(alloc: Global) -> Premises
        ensures { result ≡ [] }
    {
        Premises {
            table: Table::new(alloc),
            choices: Vec::new(alloc),
        }
    }

    /// How many numbers there are: one for each premise of the user's, and one for each side of a
    /// choice.
    pub fn len(&self) -> usize
        ensures len { result ≡ length self.now }
        ensures bound { result ≤ most Limit.Premises }
    {
        self.table.len()
    }

    pub fn is_empty(&self) -> bool
        ensures { IsTrue result ↔ (self.now ≡ []) }
    {
        self.table.len() == 0
    }

    /// Adds a premise with a new name, where there is room: it gets the next number, and is
    /// believed. After want of memory nothing has changed.
    pub fn add(&mut self, name: &str) -> Result<Premise, AllocError>
        requires new { premise_number self.old name.now ≡ None }
        requires free { is_choice self.old name.now ≡ false }
        requires room { length self.old < most Limit.Premises }
        ensures number { IfOk result (λ p. p ≡ length self.old) }
        ensures ok { OnOk result (self.new ≡ with_name self.old name.now) }
        ensures user { IfOk result (λ p. IsTrue (is_user_at self.new p)) }
        ensures err { OnErr result (self.new ≡ self.old) }
    {
        let number = self.table.len() as Premise;
        self.table.add(name, Kind::User(true))?;
        Ok(number)
    }

    /// The premise with this name. `IsAChoice` where a choice has it, `NoSuchPremise` where neither
    /// a premise nor a choice has it.
    pub fn find(&self, name: &str) -> Result<Premise, Refusal>
        ensures found { MatchResult result (λ p. premise_number self.now name.now ≡ Some p)
            (λ e. premise_number self.now name.now ≡ None) }
        ensures user { IfOk result (λ p. IsTrue (is_user_at self.now p)) }
        ensures choice { (result ≡ Err Refusal.IsAChoice) ↔ IsTrue (is_choice self.now name.now) }
        ensures none { (result ≡ Err Refusal.NoSuchPremise)
            ↔ ((premise_number self.now name.now ≡ None) × (is_choice self.now name.now ≡ false)) }
        ensures why { IfErr result (λ e. (e ≡ Refusal.IsAChoice) ⊎ (e ≡ Refusal.NoSuchPremise)) }
    {
        match self.table.look_up(name) {
            None => Err(Refusal::NoSuchPremise),
            Some(named) => match named.kind {
                Kind::User(_) => Ok(named.first),
                Kind::Choice(_) => Err(Refusal::IsAChoice),
            },
        }
    }

    /// Adds a choice with a new name, where there is room. Its sides get the next numbers. After
    /// want of memory nothing has changed.
    pub fn add_choice(&mut self, name: &str, sides: u8) -> Result<Choice, AllocError>
        requires new { premise_number self.old name.now ≡ None }
        requires free { is_choice self.old name.now ≡ false }
        requires least { 2 ≤ sides }
        requires most { sides ≤ 8 }
        requires room { length self.old + sides ≤ most Limit.Premises }
        ensures choice { IfOk result (λ c. (c.first ≡ length self.old) × (c.sides ≡ sides)) }
        ensures ok { OnOk result (self.new ≡ with_choice self.old name.now sides) }
        ensures choices { IfOk result (λ c. choices_of self.new ≡ choices_of self.old ++ c ∷ []) }
        ensures err { OnErr result (self.new ≡ self.old) }
    {
        let choice = Choice {
            first: self.table.len() as Premise,
            sides,
        };
        self.choices.push(choice)?;
        match self.table.add(name, Kind::Choice(sides)) {
            Ok(()) => Ok(choice),
            Err(error) => {
                self.choices.pop();
                Err(error)
            },
        }
    }

    /// The choices in order of declaration. It takes no memory.
    pub fn choices(&self) -> &[Choice]
        ensures { result.now ≡ choices_of self.now }
    {
        &self.choices
    }

    /// The premise is no longer believed, and nothing else changes. It takes no memory.
    pub fn kick(&mut self, premise: Premise)
        requires { IsTrue (is_user_at self.old premise) }
        ensures only { self.new ≡ with_belief_at self.old premise false }
        ensures beliefs { IsSame (believed_in self.new) (without (believed_in self.old) premise) }
    {
        self.table.set_belief(premise, false);
    }

    /// The premise is believed from now on, and nothing else changes. It takes no memory.
    pub fn bring(&mut self, premise: Premise)
        requires { IsTrue (is_user_at self.old premise) }
        ensures only { self.new ≡ with_belief_at self.old premise true }
        ensures beliefs { IsSame (believed_in self.new)
            (union (believed_in self.old) (set_of (premise ∷ []))) }
    {
        self.table.set_belief(premise, true);
    }

    /// Whether the premise is one of the user's and believed.
    pub fn is_in(&self, premise: Premise) -> bool
        ensures { result ≡ believed_in self.now premise }
    {
        match self.table.source(premise) {
            Some(source) => source.is_believed(),
            None => false,
        }
    }

    /// The name of a premise, by which `find` finds it. That of a side is its choice's.
    pub fn name(&self, premise: Premise) -> &str
        requires { premise < length self.now }
        ensures name { option_map name_of (slice_get self.now premise) ≡ Some result.now }
        ensures found { IsTrue (is_user_at self.now premise)
            → premise_number self.now result.now ≡ Some premise }
    {
        self.table.name(premise)
    }

    /// Which side of its choice the premise is, counted from 1, `None` where it is one of the
    /// user's.
    pub fn side(&self, premise: Premise) -> Option<u8>
        requires { premise < length self.now }
        ensures { result ≡ side_at self.now premise }
    {
        self.table.source(premise)?.side()
    }

    /// The worldview that believes just the believed premises and, of each choice, the side that
    /// the list takes.
    pub fn worldview(&self, sides: &[u8]) -> Result<Worldview, AllocError>
        requires { IsChoiceList (choices_of self.now) sides.now }
        ensures { IfOk result (λ w. IsSame (set_of w)
            (worldview (believed_in self.now) (choices_of self.now) sides.now)) }
    {
        let mut words = blank(self.table.alloc(), self.table.len())?;
        self.table.set_believed(&mut words);
        set_sides(&mut words, &self.choices, sides);
        let words = Words::of(words);
        Ok(Worldview::of_numbers(NumberSet::of_words(words)))
    }

    /// Drops the names from number `count` on, where a name starts. It takes no memory.
    pub fn back(&mut self, count: usize)
        requires { IsTrue (is_start self.old count) }
        ensures { self.new ≡ take count self.old }
    {
        self.table.back(count);
        self.choices
            .retain(|choice| usize::from(choice.first) < count);
    }
}
