//! The rules: their forms and what they answer.
ghost use Rattle.std.specs.Prelude.{◌≡◌, ◌↔◌, IsTrue, ◌∷◌, []};
ghost use Rattle.std.specs.List.{list_all};
ghost use Rattle.prop_procedures.specs.declared.shape.Shape.TheVariants.{Span};
ghost use Rattle.prop_wide.specs.Wide.{FormOf, HasInputs, is_truth, need_of, out_of};
ghost use Rattle.prop_wide.specs.Points.{Related};
ghost use Rattle.prop_wide.specs.Values.{value_of};
ghost use Rattle.prop_wide.specs.Answers.{EachIsNarrowest};
ghost use Rattle.prop_wide.specs.laws.WideLaws.{wide_monotone, wide_keeps_kind, wide_sound};

use crate::choices::{chooser, decider};
use crate::counts::{count_back, counter};
use crate::distances::{abs_back, absoluter};
use crate::extremes::{max_back, maximizer, min_back, minimizer};
use crate::quotients::{divisor_back, quotienter, remainderer};
use crate::squares::{rooter, squarer};
use prop_lattice::Info;
use prop_procedures::fitting::is_scale;
use prop_procedures::{Need, Param, Rule, Shape};

/// The rules beside the kit's. A rule works in one direction: from its inputs to its output.
#[derive(Clone, Copy, Debug, PartialEq, Eq)]
pub enum Wide {
    /// From x and y to z, where z is the larger of x and y.
    Max,
    /// From z and y to x, where z is the larger of x and y.
    MaxBack,
    /// From x and y to z, where z is the smaller of x and y.
    Min,
    /// From z and y to x, where z is the smaller of x and y.
    MinBack,
    /// From x to y, where y is how far x is from zero.
    Abs,
    /// From y, and what is known of x already, to x, where y is how far x is from zero.
    AbsBack,
    /// From t, a and b to o, which is a where t is `yes` and b where it is `no`, in any kind.
    Choose,
    /// From a, b and o to t, where o is a if t is `yes` and b if it is `no`, in any kind.
    Decide,
    /// From truths to n, which is how many of them are `yes`.
    Count,
    /// From n and other truths to t, where n is how many of all these are `yes`.
    CountBack,
    /// From x to y, where y is x * x in units of one over the scale, rounded up or down.
    Square,
    /// From y, and what is known of x already, to x, where y is x * x in units of one over the
    /// scale, rounded up or down.
    Root,
    /// From x and y to q, where q is x / y rounded down.
    Quotient,
    /// From y to r, which a division by y may leave.
    Remainder,
    /// From r, and what is known of y already, to y, where a division by y may leave r.
    Divisor,
}

/// Whether a shape is that of truths.
fn is_truth(shape: Shape) -> bool
    ensures { result ≡ is_truth shape }
{
    matches!(shape, Shape::Truth)
}

/// Whether each shape is that of truths.
fn are_truths(shapes: &[Shape]) -> bool
    ensures { result ≡ list_all is_truth shapes.now }
{
    shapes.iter().all(|shape| is_truth(*shape))
}

/// Whether the shapes are those of two numbers.
fn is_pair(shapes: &[Shape]) -> bool
    ensures { IsTrue result ↔ (shapes.now ≡ Span ∷ Span ∷ []) }
{
    matches!(shapes, [Shape::Span, Shape::Span])
}

impl Wide {
    /// Whether the rule may have inputs of these shapes.
    fn takes(self, ins: &[Shape]) -> bool
        ensures { IsTrue result ↔ HasInputs self ins.now }
    {
        match self {
            Wide::Max | Wide::MaxBack | Wide::Min | Wide::MinBack => is_pair(ins),
            Wide::AbsBack | Wide::Root | Wide::Quotient | Wide::Divisor => is_pair(ins),
            Wide::Abs | Wide::Square | Wide::Remainder => matches!(ins, [Shape::Span]),
            Wide::Choose => matches!(ins, [Shape::Truth, Shape::Any(0), Shape::Any(0)]),
            Wide::Decide => matches!(ins, [Shape::Any(0), Shape::Any(0), Shape::Any(0)]),
            Wide::Count => are_truths(ins),
            Wide::CountBack => match ins {
                [Shape::Span, others @ ..] => are_truths(others),
                _ => false,
            },
        }
    }

    /// The shape of its output.
    pub fn out(self) -> Shape
        ensures { result ≡ out_of self }
    {
        match self {
            Wide::Choose => Shape::Any(0),
            Wide::Decide | Wide::CountBack => Shape::Truth,
            _ => Shape::Span,
        }
    }

    /// The parameter that it needs.
    pub fn need(self) -> Need
        ensures { result ≡ need_of self }
    {
        match self {
            Wide::Square | Wide::Root => Need::Scale,
            _ => Need::Nothing,
        }
    }

    /// A law: of whatever is known of its inputs, each rule answers the narrowest information that
    /// holds each point that belongs to points of those. A square has to lie in range for that, as
    /// the answer is else cut off there.
    pub fn narrowest()
        ensures { EachIsNarrowest }
    {}

    /// What the rule answers, `Info::Nothing` where the parameter is none that it needs or the
    /// arguments are not as many as its inputs.
    pub fn run(self, param: &Param, args: &[Info]) -> Info
        ensures { result ≡ value_of self param.now args.now }
    {
        match (self, param, args) {
            (Wide::Max, _, [x, y]) => maximizer(*x, *y),
            (Wide::MaxBack, _, [z, y]) => max_back(*z, *y),
            (Wide::Min, _, [x, y]) => minimizer(*x, *y),
            (Wide::MinBack, _, [z, y]) => min_back(*z, *y),
            (Wide::Abs, _, [x]) => absoluter(*x),
            (Wide::AbsBack, _, [y, x]) => abs_back(*y, *x),
            (Wide::Choose, _, [t, a, b]) => chooser(*t, *a, *b),
            (Wide::Decide, _, [a, b, o]) => decider(*a, *b, *o),
            (Wide::Count, _, _) => counter(args),
            (Wide::CountBack, _, [n, others @ ..]) => count_back(*n, others),
            (Wide::Square, Param::Scale(k), [x]) if is_scale(*k) => squarer(*x, *k),
            (Wide::Root, Param::Scale(k), [y, x]) if is_scale(*k) => rooter(*y, *x, *k),
            (Wide::Quotient, _, [x, y]) => quotienter(*x, *y),
            (Wide::Remainder, _, [y]) => remainderer(*y),
            (Wide::Divisor, _, [r, y]) => divisor_back(*r, *y),
            _ => Info::Nothing,
        }
    }
}

impl Rule for Wide {
    ghost form = { FormOf };

    ghost value_of = { value_of };

    ghost related = { Related };

    fn has_form(&self, ins: &[Shape], out: Shape, need: Need) -> bool {
        self.takes(ins) && out == self.out() && need == self.need()
    }

    ghost monotone = { wide_monotone };

    ghost keeps_kind = { wide_keeps_kind };

    ghost sound = { wide_sound };
}
