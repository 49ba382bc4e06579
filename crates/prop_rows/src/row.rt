//! The rules: their forms and what they answer.
ghost use Rattle.std.specs.Prelude.{◌≡◌, ◌↔◌, IsTrue, ◌∷◌, []};
ghost use Rattle.std.specs.List.{list_all};
ghost use Rattle.prop_procedures.specs.declared.shape.Shape.TheVariants.{Span, Any};
ghost use Rattle.prop_rows.specs.Row.{FormOf, HasInputs, Related, is_any, is_span, out_of};
ghost use Rattle.prop_wide.specs.Wide.{is_truth};
ghost use Rattle.prop_rows.specs.Row.{value_of};
ghost use Rattle.prop_procedures.specs.declared.shape.Param.{Param};
ghost use Rattle.prop_rows.specs.laws.RowLaws.{row_monotone, row_keeps_kind, row_sound};

use crate::entries::{element, entry, index};
use crate::extremes::{greatest, greatest_back, least, least_back};
use crate::sums::{addend, sum};
use prop_lattice::Info;
use prop_procedures::{Need, Param, Rule, Shape};
use prop_wide::{count_back, counter};

/// The rules over rows. A rule works in one direction: from its inputs to its output.
#[derive(Clone, Copy, Debug, PartialEq, Eq)]
pub enum Row {
    /// From pairs c1 x1, c2 x2 and so on to z, where z is the sum of the products.
    Sum,
    /// From z, c and pairs c1 x1 and so on to x, where z is the sum of c * x and the products.
    Addend,
    /// From i and a row to y, where y is the entry of number i, counted from 1, in any kind.
    Element,
    /// From y, what is known of i already, and a row to i, where y is the entry of number i.
    Index,
    /// From i, j and y to the entry of number j, where y is the entry of number i, in any kind.
    Entry,
    /// From truths to n, which is how many of them are `yes`.
    Count,
    /// From n and other truths to t, where n is how many of all these are `yes`.
    CountBack,
    /// From numbers to z, which is the greatest of them.
    Greatest,
    /// From z and other numbers to x, where z is the greatest of all these.
    GreatestBack,
    /// From numbers to z, which is the least of them.
    Least,
    /// From z and other numbers to x, where z is the least of all these.
    LeastBack,
}

/// Whether a shape is that of numbers.
fn is_span(shape: Shape) -> bool
    ensures { result ≡ is_span shape }
{
    matches!(shape, Shape::Span)
}

/// Whether a shape is that of the values of a row.
fn is_any(shape: Shape) -> bool
    ensures { result ≡ is_any shape }
{
    matches!(shape, Shape::Any(0))
}

/// Whether a shape is that of truths.
fn is_truth(shape: Shape) -> bool
    ensures { result ≡ is_truth shape }
{
    matches!(shape, Shape::Truth)
}

/// Whether each shape is that of numbers.
fn are_spans(shapes: &[Shape]) -> bool
    ensures { result ≡ list_all is_span shapes.now }
{
    shapes.iter().all(|shape| is_span(*shape))
}

/// Whether each shape is that of the values of a row.
fn are_any(shapes: &[Shape]) -> bool
    ensures { result ≡ list_all is_any shapes.now }
{
    shapes.iter().all(|shape| is_any(*shape))
}

/// Whether each shape is that of truths.
fn are_truths(shapes: &[Shape]) -> bool
    ensures { result ≡ list_all is_truth shapes.now }
{
    shapes.iter().all(|shape| is_truth(*shape))
}

impl Row {
    /// Whether the rule may have inputs of these shapes.
    fn takes(self, ins: &[Shape]) -> bool
        ensures { IsTrue result ↔ HasInputs self ins.now }
    {
        match self {
            Row::Sum | Row::Greatest | Row::Least => are_spans(ins),
            Row::GreatestBack | Row::LeastBack => match ins {
                [Shape::Span, others @ ..] => are_spans(others),
                _ => false,
            },
            Row::Count => are_truths(ins),
            Row::CountBack => match ins {
                [Shape::Span, others @ ..] => are_truths(others),
                _ => false,
            },
            Row::Addend => match ins {
                [Shape::Span, Shape::Span, pairs @ ..] => are_spans(pairs),
                _ => false,
            },
            Row::Element => match ins {
                [Shape::Span, row @ ..] => are_any(row),
                _ => false,
            },
            Row::Index => match ins {
                [Shape::Any(0), Shape::Span, row @ ..] => are_any(row),
                _ => false,
            },
            Row::Entry => matches!(ins, [Shape::Span, Shape::Span, Shape::Any(0)]),
        }
    }

    /// The shape of its output.
    pub fn out(self) -> Shape
        ensures { result ≡ out_of self }
    {
        match self {
            Row::Element | Row::Entry => Shape::Any(0),
            Row::CountBack => Shape::Truth,
            _ => Shape::Span,
        }
    }

    /// What the rule answers, `Info::Nothing` where the arguments are none that it takes.
    pub fn run(self, args: &[Info]) -> Info
        ensures { (param : Param) → result ≡ value_of self param args.now }
    {
        match self {
            Row::Sum => {
                if args.len() <= 128 {
                    sum(args)
                } else {
                    Info::Nothing
                }
            }
            Row::Addend => match args {
                [z, c, pairs @ ..] if pairs.len() <= 126 => addend(*z, *c, pairs),
                _ => Info::Nothing,
            },
            Row::Element => match args {
                [number, row @ ..] if row.len() <= 127 => element(*number, row),
                _ => Info::Nothing,
            },
            Row::Index => match args {
                [value, number, row @ ..] if row.len() <= 126 => index(*value, *number, row),
                _ => Info::Nothing,
            },
            Row::Entry => match args {
                [number, this, value] => entry(*number, *this, *value),
                _ => Info::Nothing,
            },
            Row::Count => counter(args),
            Row::CountBack => match args {
                [n, others @ ..] => count_back(*n, others),
                [] => Info::Nothing,
            },
            Row::Greatest => greatest(args),
            Row::GreatestBack => match args {
                [z, others @ ..] => greatest_back(*z, others),
                [] => Info::Nothing,
            },
            Row::Least => least(args),
            Row::LeastBack => match args {
                [z, others @ ..] => least_back(*z, others),
                [] => Info::Nothing,
            },
        }
    }
}

impl Rule for Row {
    ghost form = { FormOf };

    ghost value_of = { value_of };

    ghost related = { Related };

    fn has_form(&self, ins: &[Shape], out: Shape, need: Need) -> bool {
        ins.len() <= 128 && self.takes(ins) && out == self.out() && need == Need::Nothing
    }

    ghost monotone = { row_monotone };

    ghost keeps_kind = { row_keeps_kind };

    ghost sound = { row_sound };
}
