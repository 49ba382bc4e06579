//! Cells of quotients that are rounded down, and of what these leave.
ghost use Rattle.std.specs.Prelude.{ℕ, IfOk, OnOk};
ghost use Rattle.prop_lattice.specs.Points.{Point};
ghost use Rattle.prop_meaning.specs.inner.Drafts.{Has, IsSound, Runs, Grown, Makes, NeverZero};
ghost use Rattle.prop_meaning.specs.inner.Drafts.{LiesAt};
ghost use Rattle.prop_meaning.specs.inner.Drafts.{number_kind};
ghost use Rattle.prop_meaning.specs.inner.Steps.{of_two, quotient_point, remainder_point};
ghost use Rattle.prop_meaning.specs.inner.Steps.{left_point, IsLeft};
ghost use Rattle.prop_meaning.specs.declared.steps.Pair.TheVariants.{Product};

use crate::draft::{Made, known_at, placed};
use crate::fault::Why;
use crate::making::number_in;
use crate::spans;
use crate::steps::{Pair, Step};
use crate::words::Words;
use prop_lattice::Span;

/// The span in which the number of a cell lies.
fn span_at<W: Words>(words: &W, made: &[Made], x: usize) -> Span
    requires sound { IsSound (W.lexicon words.now) made.now }
    requires number { Has (W.lexicon words.now) made.now x number_kind }
    ensures { LiesAt (W.lexicon words.now) made.now x result }
{
    match known_at(words, made, x) {
        Some(known) => known.span,
        None => unreachable!(),
    }
}

/// The cell of a quotient.
fn quotient<W: Words>(words: &W, made: &mut Vec<Made>, x: usize, y: usize) -> Result<usize, Why>
    requires sound { IsSound (W.lexicon words.now) made.old.items }
    requires first { Has (W.lexicon words.now) made.old.items x number_kind }
    requires second { Has (W.lexicon words.now) made.old.items y number_kind }
    requires divides { NeverZero (W.lexicon words.now) made.old.items y }
    ensures grown { OnOk result (Grown (W.lexicon words.now) made.old.items made.new.items) }
    ensures makes { IfOk result (Makes (W.lexicon words.now) made.new.items number_kind
        (λ a. quotient_point (a x) (a y))) }
{
    let span = spans::quotient(span_at(words, made, x), span_at(words, made, y));
    let known = number_in(span)?;
    let step = Step::Quotient(x, y);
    placed(words, made, Made { step, known })
}

/// The cell of a quotient times the divisor.
fn multiple<W: Words>(
    words: &W,
    made: &mut Vec<Made>,
    x: usize,
    y: usize,
    q: usize,
) -> Result<usize, Why>
    requires sound { IsSound (W.lexicon words.now) made.old.items }
    requires first { Has (W.lexicon words.now) made.old.items x number_kind }
    requires second { Has (W.lexicon words.now) made.old.items y number_kind }
    requires quotient { Makes (W.lexicon words.now) made.old.items number_kind
        (λ a. quotient_point (a x) (a y)) q }
    ensures grown { OnOk result (Grown (W.lexicon words.now) made.old.items made.new.items) }
    ensures makes { IfOk result (Makes (W.lexicon words.now) made.new.items number_kind
        (λ a. of_two Product (a q) (a y))) }
{
    let span = spans::multiple(span_at(words, made, x), span_at(words, made, y));
    let known = number_in(span)?;
    let step = Step::Two(Pair::Product, q, y);
    placed(words, made, Made { step, known })
}

/// The cell of what is left where a multiple of the divisor is taken away.
fn left<W: Words>(
    words: &W,
    made: &mut Vec<Made>,
    x: usize,
    p: usize,
    y: usize,
) -> Result<usize, Why>
    requires sound { IsSound (W.lexicon words.now) made.old.items }
    requires first { Has (W.lexicon words.now) made.old.items x number_kind }
    requires multiple { Has (W.lexicon words.now) made.old.items p number_kind }
    requires second { Has (W.lexicon words.now) made.old.items y number_kind }
    requires left { (a : ℕ → Point) → Runs (W.lexicon words.now) made.old.items a
        → IsLeft (a x) (a p) (a y) }
    ensures grown { OnOk result (Grown (W.lexicon words.now) made.old.items made.new.items) }
    ensures makes { IfOk result (Makes (W.lexicon words.now) made.new.items number_kind
        (λ a. left_point (a x) (a p) (a y))) }
{
    let span = spans::left_by(span_at(words, made, y));
    let known = number_in(span)?;
    let step = Step::Left(x, p, y);
    placed(words, made, Made { step, known })
}

/// The cells of a quotient and of what it leaves.
#[derive(Clone, Copy)]
struct Division {
    quotient: usize,
    remainder: usize,
}

/// The cells of a division by a number that is never zero.
fn divided<W: Words>(words: &W, made: &mut Vec<Made>, x: usize, y: usize) -> Result<Division, Why>
    requires sound { IsSound (W.lexicon words.now) made.old.items }
    requires first { Has (W.lexicon words.now) made.old.items x number_kind }
    requires second { Has (W.lexicon words.now) made.old.items y number_kind }
    requires divides { NeverZero (W.lexicon words.now) made.old.items y }
    ensures grown { OnOk result (Grown (W.lexicon words.now) made.old.items made.new.items) }
    ensures quotient { IfOk result (λ d. Makes (W.lexicon words.now) made.new.items number_kind
        (λ a. quotient_point (a x) (a y)) d.quotient) }
    ensures remainder { IfOk result (λ d. Makes (W.lexicon words.now) made.new.items number_kind
        (λ a. remainder_point (a x) (a y)) d.remainder) }
{
    let quotient = quotient(words, made, x, y)?;
    let p = multiple(words, made, x, y, quotient)?;
    let remainder = left(words, made, x, p, y)?;
    Ok(Division {
        quotient,
        remainder,
    })
}

/// The cells of a division by a number that surely isn't zero.
fn divided_surely<W: Words>(
    words: &W,
    made: &mut Vec<Made>,
    x: usize,
    y: usize,
) -> Result<Division, Why>
    requires sound { IsSound (W.lexicon words.now) made.old.items }
    requires first { Has (W.lexicon words.now) made.old.items x number_kind }
    requires second { Has (W.lexicon words.now) made.old.items y number_kind }
    ensures grown { OnOk result (Grown (W.lexicon words.now) made.old.items made.new.items) }
    ensures quotient { IfOk result (λ d. Makes (W.lexicon words.now) made.new.items number_kind
        (λ a. quotient_point (a x) (a y)) d.quotient) }
    ensures remainder { IfOk result (λ d. Makes (W.lexicon words.now) made.new.items number_kind
        (λ a. remainder_point (a x) (a y)) d.remainder) }
{
    if !spans::is_without_zero(span_at(words, made, y)) {
        return Err(Why::MayBeZero);
    }
    divided(words, made, x, y)
}

/// The cell of the quotient of two numbers.
pub(crate) fn quotient_of<W: Words>(
    words: &W,
    made: &mut Vec<Made>,
    x: usize,
    y: usize,
) -> Result<usize, Why>
    requires sound { IsSound (W.lexicon words.now) made.old.items }
    requires first { Has (W.lexicon words.now) made.old.items x number_kind }
    requires second { Has (W.lexicon words.now) made.old.items y number_kind }
    ensures grown { OnOk result (Grown (W.lexicon words.now) made.old.items made.new.items) }
    ensures makes { IfOk result (Makes (W.lexicon words.now) made.new.items number_kind
        (λ a. quotient_point (a x) (a y))) }
{
    let division = divided_surely(words, made, x, y)?;
    Ok(division.quotient)
}

/// The cell of what a division leaves.
pub(crate) fn remainder_of<W: Words>(
    words: &W,
    made: &mut Vec<Made>,
    x: usize,
    y: usize,
) -> Result<usize, Why>
    requires sound { IsSound (W.lexicon words.now) made.old.items }
    requires first { Has (W.lexicon words.now) made.old.items x number_kind }
    requires second { Has (W.lexicon words.now) made.old.items y number_kind }
    ensures grown { OnOk result (Grown (W.lexicon words.now) made.old.items made.new.items) }
    ensures makes { IfOk result (Makes (W.lexicon words.now) made.new.items number_kind
        (λ a. remainder_point (a x) (a y))) }
{
    let division = divided_surely(words, made, x, y)?;
    Ok(division.remainder)
}
