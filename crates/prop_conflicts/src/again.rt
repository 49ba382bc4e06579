//! The session's premises again, of which others are believed.
ghost use Rattle.std.specs.Prelude.{◌≡◌, ◌<◌, ℕ, IfOk, IfSome, IsTrue, None, false, length};
ghost use Rattle.prop_numbers.specs.Sets.{set_of, IsPart};
ghost use Rattle.prop_premises.specs.Origins.{believed_in, choices_of, is_choice};
ghost use Rattle.prop_premises.specs.Origins.{premise_number};
ghost use Rattle.prop_lessons.specs.inner.Standing.{Begin};

use prop_premises::{Choice, Premise, PremiseSet, Premises};
use prop_refusals::{Limit, Refusal};
use std::alloc::{AllocError, Global};

/// Whether nothing has the name.
fn is_new(premises: &Premises, name: &str) -> bool
    ensures number { IsTrue result → premise_number premises.now name.now ≡ None }
    ensures choice { IsTrue result → is_choice premises.now name.now ≡ false }
{
    matches!(premises.find(name), Err(Refusal::NoSuchPremise))
}

/// Adds a premise, believed or not. False where the name is taken, or there is no room.
fn add(copy: &mut Premises, name: &str, is_in: bool) -> Result<bool, AllocError> {
    if !is_new(copy, name) {
        return Ok(false);
    }
    if copy.len() >= Limit::Premises.most() {
        return Ok(false);
    }
    let added = copy.add(name)?;
    if !is_in {
        copy.kick(added);
    }
    Ok(true)
}

/// Adds a choice. False where the name is taken, or there is no room.
fn add_choice(copy: &mut Premises, name: &str, sides: u8) -> Result<bool, AllocError> {
    if !is_new(copy, name) {
        return Ok(false);
    }
    if sides < 2 || sides > 8 {
        return Ok(false);
    }
    if copy.len() + usize::from(sides) > Limit::Premises.most() {
        return Ok(false);
    }
    copy.add_choice(name, sides)?;
    Ok(true)
}

/// How many sides the choice has that begins with this number.
fn sides_from(choices: &[Choice], first: Premise) -> u8 {
    for choice in choices {
        if choice.first == first {
            return choice.sides;
        }
    }
    0
}

/// Adds what has this number among the premises.
fn add_again(
    copy: &mut Premises,
    premises: &Premises,
    premise: Premise,
    is_in: bool,
) -> Result<bool, AllocError>
    requires { premise < length premises.now }
{
    let name = premises.name(premise);
    match premises.side(premise) {
        None => add(copy, name, is_in),
        Some(1) => add_choice(copy, name, sides_from(premises.choices(), premise)),
        Some(_) => Ok(true),
    }
}

/// Whether each premise of the set is believed.
pub(crate) fn are_believed(premises: &Premises, set: &PremiseSet) -> bool
    ensures { IsTrue result → IsPart (set_of set.now) (believed_in premises.now) }
{
    for premise in set.iter() {
        if !premises.is_in(premise) {
            return false;
        }
    }
    true
}

/// Whether each of the first choices has its place among the others.
fn begin(one: &[Choice], other: &[Choice]) -> bool
    ensures { IsTrue result → Begin one.now other.now }
{
    for (number, choice) in one.iter().enumerate() {
        if number >= other.len() || *choice != other[number] {
            return false;
        }
    }
    true
}

/// Whether the choices are the same.
fn are_same(one: &[Choice], other: &[Choice]) -> bool
    ensures { IsTrue result → one.now ≡ other.now }
{
    if one.len() != other.len() {
        return false;
    }
    begin(one, other)
}

/// The premises, where they have these choices and those of the set are believed.
fn checked(copy: Premises, choices: &[Choice], set: &PremiseSet) -> Option<Premises>
    ensures { IfSome result (λ p. (choices_of p ≡ choices.now)
        × IsPart (set_of set.now) (believed_in p)) }
{
    if !are_same(copy.choices(), choices) {
        return None;
    }
    if !are_believed(&copy, set) {
        return None;
    }
    Some(copy)
}

/// The same premises and choices, of which those of the set are believed. None where what was made
/// isn't that.
pub(crate) fn believing(
    alloc: Global,
    premises: &Premises,
    set: &PremiseSet,
) -> Result<Option<Premises>, AllocError>
    ensures { IfOk result (λ o. IfSome o (λ p. (choices_of p ≡ choices_of premises.now)
        × IsPart (set_of set.now) (believed_in p))) }
{
    let mut copy = Premises::new(alloc);
    for number in 0..premises.len() {
        let premise = number as Premise;
        if !add_again(&mut copy, premises, premise, set.contains(premise))? {
            return Ok(None);
        }
    }
    Ok(checked(copy, premises.choices(), set))
}

/// The believed premises that are not in the set.
pub(crate) fn left_without(
    alloc: Global,
    premises: &Premises,
    out: &PremiseSet,
) -> Result<PremiseSet, AllocError>
    ensures { IfOk result (λ s. (p : ℕ) → IsTrue (believed_in premises.now p)
        → set_of out.now p ≡ false → IsTrue (set_of s p)) }
{
    let mut left = PremiseSet::empty(alloc);
    for number in 0..premises.len() {
        let premise = number as Premise;
        if premises.is_in(premise) && !out.contains(premise) {
            left.unite(&PremiseSet::single(alloc, premise)?)?;
        }
    }
    Ok(left)
}
