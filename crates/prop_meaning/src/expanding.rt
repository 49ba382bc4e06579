//! The instances and constants of fresh cells.
ghost use Rattle.std.specs.Prelude.{◌≡◌, ◌++◌, ◌+◌, ◌<◌, ◌^◌, cond, nat_lt, OnOk, length};
ghost use Rattle.prop_meaning.specs.inner.Expanding.{act, all_ways, rules, rules_of, alike_acts};
ghost use Rattle.prop_meaning.specs.inner.Expanding.{square_acts, pair_acts, single_acts};
ghost use Rattle.prop_meaning.specs.inner.Expanding.{choice_acts, quotient_acts, left_acts};
ghost use Rattle.prop_meaning.specs.inner.Expanding.{acts_of};
ghost use Rattle.prop_meaning.specs.inner.Expanding.{constant_of, constants_of};

use crate::acts::{Act, Inputs, Rule};
use crate::steps::{Pair, Single, Step};
use prop_arith::Kit;
use prop_lattice::Info;
use prop_wide::Wide;
use std::alloc::AllocError;

/// The instance of the rule.
fn act(rule: Rule, inputs: Inputs, output: usize) -> Act
    ensures { result ≡ act rule inputs output }
{
    Act {
        rule,
        inputs,
        output,
    }
}

/// Writes instances at the end.
fn put(acts: &mut Vec<Act>, more: &[Act]) -> Result<(), AllocError>
    ensures { OnOk result (acts.new.items ≡ acts.old.items ++ more.now) }
{
    acts.extend_from_slice(more)
}

/// The rules from two cells to a third, and back to the first and to the second.
fn rules_of(op: Pair) -> (Rule, Rule, Rule)
    ensures first { rules result.0 result.1 result.2 ≡ rules_of op }
{
    match op {
        Pair::Product => (
            Rule::OfKit(Kit::Mul),
            Rule::OfKit(Kit::Div),
            Rule::OfKit(Kit::Div),
        ),
        Pair::Max => (
            Rule::OfWide(Wide::Max),
            Rule::OfWide(Wide::MaxBack),
            Rule::OfWide(Wide::MaxBack),
        ),
        Pair::Min => (
            Rule::OfWide(Wide::Min),
            Rule::OfWide(Wide::MinBack),
            Rule::OfWide(Wide::MinBack),
        ),
        Pair::Less => (
            Rule::OfKit(Kit::Less),
            Rule::OfKit(Kit::Below),
            Rule::OfKit(Kit::Above),
        ),
        Pair::And => (
            Rule::OfKit(Kit::And),
            Rule::OfKit(Kit::AndBack),
            Rule::OfKit(Kit::AndBack),
        ),
        Pair::Or => (
            Rule::OfKit(Kit::Or),
            Rule::OfKit(Kit::OrBack),
            Rule::OfKit(Kit::OrBack),
        ),
        _ => (
            Rule::OfKit(Kit::Add),
            Rule::OfKit(Kit::Sub),
            Rule::OfKit(Kit::Sub),
        ),
    }
}

/// Writes the instances of rules in all directions.
fn put_all_ways(
    acts: &mut Vec<Act>,
    op: Pair,
    x: usize,
    y: usize,
    z: usize,
) -> Result<(), AllocError>
    ensures { OnOk result (acts.new.items ≡ acts.old.items ++ all_ways (rules_of op) x y z) }
{
    let (forth, first, second) = rules_of(op);
    put(
        acts,
        &[
            act(forth, Inputs::Two(x, y), z),
            act(first, Inputs::Two(z, y), x),
            act(second, Inputs::Two(z, x), y),
        ],
    )
}

/// Writes the instances of whether two cells are the same.
fn put_alike(acts: &mut Vec<Act>, x: usize, y: usize, t: usize) -> Result<(), AllocError>
    ensures { OnOk result (acts.new.items ≡ acts.old.items ++ alike_acts x y t) }
{
    put(
        acts,
        &[
            act(Rule::OfKit(Kit::Alike), Inputs::Two(x, y), t),
            act(Rule::OfKit(Kit::Switch), Inputs::Two(t, x), y),
            act(Rule::OfKit(Kit::Switch), Inputs::Two(t, y), x),
            act(Rule::OfKit(Kit::Apart), Inputs::Three(t, x, y), y),
            act(Rule::OfKit(Kit::Apart), Inputs::Three(t, y, x), x),
        ],
    )
}

/// Writes the instances of a square.
fn put_square(acts: &mut Vec<Act>, x: usize, z: usize) -> Result<(), AllocError>
    ensures { OnOk result (acts.new.items ≡ acts.old.items ++ square_acts x z) }
{
    put(
        acts,
        &[
            act(Rule::OfKit(Kit::Square), Inputs::One(x), z),
            act(Rule::OfKit(Kit::Root), Inputs::Two(z, x), x),
        ],
    )
}

/// Writes the instances of what is made of two.
fn put_pair(acts: &mut Vec<Act>, op: Pair, x: usize, y: usize, z: usize) -> Result<(), AllocError>
    ensures { OnOk result (acts.new.items ≡ acts.old.items ++ pair_acts op x y z) }
{
    match op {
        Pair::Same => put_alike(acts, x, y, z),
        Pair::Difference => put_all_ways(acts, Pair::Sum, y, z, x),
        Pair::Product if x == y => put_square(acts, x, z),
        op => put_all_ways(acts, op, x, y, z),
    }
}

/// Writes the instances of what is made of one.
fn put_single(acts: &mut Vec<Act>, op: Single, x: usize, y: usize) -> Result<(), AllocError>
    ensures { OnOk result (acts.new.items ≡ acts.old.items ++ single_acts op x y) }
{
    match op {
        Single::Not => put(
            acts,
            &[
                act(Rule::OfKit(Kit::Not), Inputs::One(x), y),
                act(Rule::OfKit(Kit::Not), Inputs::One(y), x),
            ],
        ),
        Single::Abs => put(
            acts,
            &[
                act(Rule::OfWide(Wide::Abs), Inputs::One(x), y),
                act(Rule::OfWide(Wide::AbsBack), Inputs::Two(y, x), x),
            ],
        ),
    }
}

/// Writes the instances of a choice.
fn put_choice(acts: &mut Vec<Act>, t: usize, x: usize, y: usize, z: usize) -> Result<(), AllocError>
    ensures { OnOk result (acts.new.items ≡ acts.old.items ++ choice_acts t x y z) }
{
    put(
        acts,
        &[
            act(Rule::OfWide(Wide::Choose), Inputs::Three(t, x, y), z),
            act(Rule::OfWide(Wide::Decide), Inputs::Three(x, y, z), t),
            act(Rule::OfKit(Kit::Switch), Inputs::Two(t, z), x),
            act(Rule::OfWide(Wide::Choose), Inputs::Three(t, y, z), y),
        ],
    )
}

/// Writes the instances of what is left of `x` where `p`, a multiple of `y`, is taken away.
fn put_left(acts: &mut Vec<Act>, x: usize, p: usize, y: usize, z: usize) -> Result<(), AllocError>
    ensures { OnOk result (acts.new.items ≡ acts.old.items ++ left_acts x p y z) }
{
    put(
        acts,
        &[
            act(Rule::OfKit(Kit::Add), Inputs::Two(p, z), x),
            act(Rule::OfKit(Kit::Sub), Inputs::Two(x, z), p),
            act(Rule::OfKit(Kit::Sub), Inputs::Two(x, p), z),
            act(Rule::OfWide(Wide::Remainder), Inputs::One(y), z),
            act(Rule::OfWide(Wide::Divisor), Inputs::Two(z, y), y),
        ],
    )
}

/// Writes the instance of a quotient.
fn put_quotient(acts: &mut Vec<Act>, x: usize, y: usize, z: usize) -> Result<(), AllocError>
    ensures { OnOk result (acts.new.items ≡ acts.old.items ++ quotient_acts x y z) }
{
    put(
        acts,
        &[act(Rule::OfWide(Wide::Quotient), Inputs::Two(x, y), z)],
    )
}

/// Writes the instances that make a step's cell.
pub(crate) fn put_acts(acts: &mut Vec<Act>, step: Step, place: usize) -> Result<(), AllocError>
    ensures { OnOk result (acts.new.items ≡ acts.old.items ++ acts_of step place) }
{
    match step {
        Step::One(op, x) => put_single(acts, op, x, place),
        Step::Two(op, x, y) => put_pair(acts, op, x, y, place),
        Step::Choice(t, x, y) => put_choice(acts, t, x, y, place),
        Step::Quotient(x, y) => put_quotient(acts, x, y, place),
        Step::Left(x, p, y) => put_left(acts, x, p, y, place),
        _ => Ok(()),
    }
}

/// The bits of an element.
pub(crate) fn bit(i: u8) -> u64
    ensures { result ≡ cond (nat_lt i 64) (2 ^ i) 0 }
{
    if i < 64 { 1 << i } else { 0 }
}

/// What a constant's cell is.
fn constant_of(step: Step) -> Option<Info>
    ensures { result ≡ constant_of step }
{
    match step {
        Step::Number(z) => Some(Info::between(z, z)),
        Step::Element(i) => Some(Info::from_bits(bit(i))),
        Step::Symbol(n) => Some(Info::Sym(n)),
        _ => None,
    }
}

/// Writes what a constant's cell is.
pub(crate) fn put_constant(
    constants: &mut Vec<(usize, Info)>,
    step: Step,
    place: usize,
) -> Result<(), AllocError>
    ensures { OnOk result (constants.new.items ≡ constants.old.items ++ constants_of step place) }
{
    match constant_of(step) {
        Some(info) => Ok(constants.push((place, info))?),
        None => Ok(()),
    }
}
