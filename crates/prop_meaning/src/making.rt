//! Fresh cells made of others.
ghost use Rattle.std.specs.Prelude.{◌≡◌, ◌≤ℤ◌, pos, ⊤, ℕ, ℤ, IsTrue, IfOk, OnOk};
ghost use Rattle.prop_lattice.specs.Points.{Point};
ghost use Rattle.prop_lattice.specs.Points as points;
ghost use Rattle.prop_meaning.specs.Words.{IsWithin};
ghost use Rattle.prop_meaning.specs.inner.Drafts.{Has, IsSound, Grown, Makes, TakesTwo, AreTaken};
ghost use Rattle.prop_meaning.specs.inner.Drafts.{AreAlike};
ghost use Rattle.prop_procedures.specs.declared.shape.Kinded.{Kinded as Kinds};
ghost use Rattle.prop_meaning.specs.inner.Drafts.{known_at};
ghost use Rattle.prop_meaning.specs.inner.Drafts.{number_kind, truth_kind};
ghost use Rattle.prop_meaning.specs.inner.Drafts.{kind_before, kind_between};
ghost use Rattle.prop_meaning.specs.inner.Spans.{Tells};
ghost use Rattle.prop_meaning.specs.inner.Steps.{of_one, of_two, chosen};

use crate::draft::{Made, known_at, placed};
use crate::fault::Why;
use crate::known::Known;
use crate::spans;
use crate::steps::{Pair, Single, Step};
use crate::words::Words;
use prop_lattice::{Kind, Span};
use prop_procedures::Kinded;

/// The kind of numbers.
pub(crate) const NUMBER: Kinded = Kinded {
    kind: Kind::Span,
    size: 0,
};

/// The kind of truths.
pub(crate) const TRUTH: Kinded = Kinded {
    kind: Kind::Set(0),
    size: 2,
};

/// Whether the kinds are the same.
pub(crate) fn is_same_kind(kinded: Kinded, other: Kinded) -> bool
    ensures { IsTrue result → (kinded ≡ other) }
{
    kinded == other
}

/// A number, of which this is known.
pub(crate) fn number_in(span: Option<Span>) -> Result<Known, Why>
    ensures { IfOk result (λ k. (k.kinded ≡ number_kind) × (span ≡ Some k.span)) }
{
    match span {
        Some(span) => Ok(Known {
            kinded: NUMBER,
            span,
        }),
        None => Err(Why::OutOfRange),
    }
}

/// What is known of what is made of two points.
fn bounded_two(op: Pair, x: Known, y: Known) -> Result<Known, Why>
    requires takes { TakesTwo op x.kinded }
    requires same { y.kinded ≡ x.kinded }
    ensures kind { IfOk result (λ k. k.kinded ≡ kind_between op) }
    ensures tells { IfOk result (Tells (of_two op) x y) }
{
    match op {
        Pair::Sum => number_in(spans::sum(x.span, y.span)),
        Pair::Difference => number_in(spans::difference(x.span, y.span)),
        Pair::Product => number_in(spans::product(x.span, y.span)),
        Pair::Max => number_in(spans::larger(x.span, y.span)),
        Pair::Min => number_in(spans::smaller(x.span, y.span)),
        Pair::Less | Pair::Same | Pair::And | Pair::Or => Ok(Known {
            kinded: TRUTH,
            span: x.span,
        }),
    }
}

/// What is known of what is made of one point.
fn bounded_one(op: Single, x: Known) -> Result<Known, Why>
    requires takes { x.kinded ≡ kind_before op }
    ensures kind { IfOk result (λ k. k.kinded ≡ kind_before op) }
    ensures tells { IfOk result (λ k. (p : Point) → IsWithin x p → IsWithin k (of_one op p)) }
{
    match op {
        Single::Abs => number_in(spans::distance(x.span)),
        Single::Not => Ok(Known {
            kinded: TRUTH,
            span: x.span,
        }),
    }
}

/// What is known of the one or the other.
fn bounded_choice(x: Known, y: Known) -> Result<Known, Why>
    requires same { y.kinded ≡ x.kinded }
    ensures kind { IfOk result (λ k. k.kinded ≡ x.kinded) }
    ensures tells { IfOk result (λ k. (t : Point) → Tells (chosen t) x y k) }
{
    match spans::either(x.span, y.span) {
        Some(span) => Ok(Known {
            kinded: x.kinded,
            span,
        }),
        None => Err(Why::OutOfRange),
    }
}

/// The cell that is made of two.
pub(crate) fn two<W: Words>(
    words: &W,
    made: &mut Vec<Made>,
    op: Pair,
    x: usize,
    y: usize,
) -> Result<usize, Why>
    requires sound { IsSound (W.lexicon words.now) made.old.items }
    requires suits { AreTaken (W.lexicon words.now) made.old.items op x y }
    ensures grown { OnOk result (Grown (W.lexicon words.now) made.old.items made.new.items) }
    ensures makes { IfOk result (Makes (W.lexicon words.now) made.new.items (kind_between op)
        (λ a. of_two op (a x) (a y))) }
{
    let (Some(left), Some(right)) = (known_at(words, made, x), known_at(words, made, y)) else {
        unreachable!()
    };
    let known = bounded_two(op, left, right)?;
    let step = Step::Two(op, x, y);
    placed(words, made, Made { step, known })
}

/// The cell that is made of one.
pub(crate) fn one<W: Words>(
    words: &W,
    made: &mut Vec<Made>,
    op: Single,
    x: usize,
) -> Result<usize, Why>
    requires sound { IsSound (W.lexicon words.now) made.old.items }
    requires suits { Has (W.lexicon words.now) made.old.items x (kind_before op) }
    ensures grown { OnOk result (Grown (W.lexicon words.now) made.old.items made.new.items) }
    ensures makes { IfOk result (Makes (W.lexicon words.now) made.new.items (kind_before op)
        (λ a. of_one op (a x))) }
{
    let Some(under) = known_at(words, made, x) else {
        unreachable!()
    };
    let known = bounded_one(op, under)?;
    let step = Step::One(op, x);
    placed(words, made, Made { step, known })
}

/// The cell that is the second where the first is `yes`, and else the third.
pub(crate) fn choice<W: Words>(
    words: &W,
    made: &mut Vec<Made>,
    t: usize,
    x: usize,
    y: usize,
) -> Result<usize, Why>
    requires sound { IsSound (W.lexicon words.now) made.old.items }
    requires truth { Has (W.lexicon words.now) made.old.items t truth_kind }
    requires suits { AreAlike (W.lexicon words.now) made.old.items x y }
    ensures grown { OnOk result (Grown (W.lexicon words.now) made.old.items made.new.items) }
    ensures makes { (kinded : Kinds) → Has (W.lexicon words.now) made.old.items x kinded
        → IfOk result (Makes (W.lexicon words.now) made.new.items kinded
        (λ a. chosen (a t) (a x) (a y))) }
{
    let (Some(left), Some(right)) = (known_at(words, made, x), known_at(words, made, y)) else {
        unreachable!()
    };
    let known = bounded_choice(left, right)?;
    let step = Step::Choice(t, x, y);
    placed(words, made, Made { step, known })
}
