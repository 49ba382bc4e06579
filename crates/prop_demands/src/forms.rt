//! The procedures that have the rules of which expressions are made: their numbers and their forms.

ghost use Rattle.std.specs.Prelude.{◌≡◌};
ghost use Rattle.prop_demands.specs.inner.Palettes.{ins_of, is_taken, kit_number, need_of, out_of};
ghost use Rattle.prop_demands.specs.inner.Palettes.{rule_number, wide_ins, wide_number};

use prop_arith::Kit;
use prop_meaning::{Palette, Rule};
use prop_procedures::{Named, Need, Shape};
use prop_wide::Wide;

/// The procedures of a program that begin with the kit's and then the wider ones.
pub(crate) struct Numbers;

/// The number of a procedure of the kit.
fn kit_number(rule: Kit) -> usize
    ensures { result ≡ kit_number rule }
{
    match rule {
        Kit::Add => 0,
        Kit::Sub => 1,
        Kit::Mul => 2,
        Kit::Div => 3,
        Kit::Square => 4,
        Kit::Root => 5,
        Kit::Less => 6,
        Kit::Below => 7,
        Kit::Above => 8,
        Kit::Copy => 9,
        Kit::Alike => 10,
        Kit::Apart => 11,
        Kit::Switch => 12,
        Kit::Not => 13,
        Kit::And => 14,
        Kit::AndBack => 15,
        Kit::Or => 16,
        Kit::OrBack => 17,
        Kit::Image => 18,
        Kit::Coimage => 19,
    }
}

/// The number of a wider procedure; of those that count, of one truth.
fn wide_number(rule: Wide) -> usize
    ensures { result ≡ wide_number rule }
{
    match rule {
        Wide::Max => 20,
        Wide::MaxBack => 21,
        Wide::Min => 22,
        Wide::MinBack => 23,
        Wide::Abs => 24,
        Wide::AbsBack => 25,
        Wide::Choose => 26,
        Wide::Decide => 27,
        Wide::Count => 28,
        Wide::CountBack => 36,
        Wide::Square => 44,
        Wide::Root => 45,
        Wide::Quotient => 46,
        Wide::Remainder => 47,
        Wide::Divisor => 48,
    }
}

impl Palette for Numbers {
    ghost number_of = { λ _ rule. rule_number rule };

    fn number(&self, rule: Rule) -> usize {
        match rule {
            Rule::OfKit(rule) => kit_number(rule),
            Rule::OfWide(rule) => wide_number(rule),
        }
    }
}

/// The shapes of the inputs and of the output of a procedure, and the parameter that it needs.
#[derive(Clone, Copy)]
pub(crate) struct Form {
    pub(crate) ins: &'static [Shape],
    pub(crate) out: Shape,
    pub(crate) need: Need,
}

/// The shapes of a wider procedure's inputs.
fn wide_ins(rule: Wide) -> &'static [Shape]
    ensures { result.now ≡ wide_ins rule }
{
    match rule {
        Wide::Abs | Wide::Square | Wide::Remainder | Wide::CountBack => &[Shape::Span],
        Wide::Choose => &[Shape::Truth, Shape::Any(0), Shape::Any(0)],
        Wide::Decide => &[Shape::Any(0), Shape::Any(0), Shape::Any(0)],
        Wide::Count => &[Shape::Truth],
        _ => &[Shape::Span, Shape::Span],
    }
}

/// The form of the procedure that has a rule.
pub(crate) fn form_of(rule: Rule) -> Form
    ensures ins { result.ins.now ≡ ins_of rule }
    ensures out { result.out ≡ out_of rule }
    ensures need { result.need ≡ need_of rule }
{
    match rule {
        Rule::OfKit(rule) => Form {
            ins: rule.ins(),
            out: rule.out(),
            need: rule.need(),
        },
        Rule::OfWide(rule) => Form {
            ins: wide_ins(rule),
            out: rule.out(),
            need: rule.need(),
        },
    }
}

/// Whether the procedure takes the parameter that instances of the rule have.
pub(crate) fn is_taken(rule: Rule) -> bool
    ensures { result ≡ is_taken rule }
{
    !matches!(
        rule,
        Rule::OfKit(Kit::Image | Kit::Coimage) | Rule::OfWide(Wide::Square | Wide::Root)
    )
}
