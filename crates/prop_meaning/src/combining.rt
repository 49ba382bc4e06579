//! Cells that are made by operators of expressions.
ghost use Rattle.std.specs.Prelude.{◌≡◌, IfOk, OnOk, IsTrue};
ghost use Rattle.prop_meaning.specs.inner.Drafts.{Has, IsSound, Grown, Makes, AreTaken, truth_kind};
ghost use Rattle.prop_meaning.specs.inner.Drafts.{kind_between, number_kind};
ghost use Rattle.prop_meaning.specs.inner.Formulas.{AreFitting, kind_of, formula};
ghost use Rattle.prop_meaning.specs.inner.Formulas.{kind_before, is_taken, formula_before};
ghost use Rattle.prop_meaning.specs.inner.Steps.{of_one, of_two, negative};
ghost use Rattle.prop_terms.specs.declared.operators.Prefix.TheVariants.{If};
ghost use Rattle.prop_terms.specs.declared.operators.Infix.TheVariants.{Then, Else, In, UpTo};
ghost use Rattle.prop_terms.specs.Terms.{term_of};
ghost use Rattle.prop_meaning.specs.inner.Formulas.{is_list, within};
ghost use Rattle.prop_meaning.specs.declared.steps.Single.TheVariants.{Not};
ghost use Rattle.prop_meaning.specs.declared.steps.Pair.TheVariants.{Or};

use crate::constants::number;
use crate::dividing::{quotient_of, remainder_of};
use crate::draft::Made;
use crate::fault::Why;
use crate::making::{NUMBER, TRUTH, one, two};
use crate::steps::{Pair, Single};
use crate::words::Words;
use prop_procedures::Kinded;
use prop_terms::{Infix, Prefix, Term};

/// The kind of what an operator makes.
pub(crate) fn kind_of(op: Infix) -> Kinded
    ensures { result ≡ kind_of op }
{
    match op {
        Infix::Plus | Infix::Minus | Infix::Times | Infix::Over | Infix::Remainder => NUMBER,
        _ => TRUTH,
    }
}

/// The kind of what an operator makes of one term, and of that term.
pub(crate) fn kind_before(op: Prefix) -> Kinded
    ensures { result ≡ kind_before op }
{
    match op {
        Prefix::Not => TRUTH,
        _ => NUMBER,
    }
}

/// The cell of the opposite of a number.
fn negated<W: Words>(words: &W, made: &mut Vec<Made>, x: usize) -> Result<usize, Why>
    requires sound { IsSound (W.lexicon words.now) made.old.items }
    requires number { Has (W.lexicon words.now) made.old.items x number_kind }
    ensures grown { OnOk result (Grown (W.lexicon words.now) made.old.items made.new.items) }
    ensures makes { IfOk result (Makes (W.lexicon words.now) made.new.items number_kind
        (λ a. negative (a x))) }
{
    let zero = number(words, made, 0)?;
    two(words, made, Pair::Difference, zero, x)
}

/// The cell that an operator makes of one.
pub(crate) fn prefixed<W: Words>(
    words: &W,
    made: &mut Vec<Made>,
    op: Prefix,
    x: usize,
) -> Result<usize, Why>
    requires sound { IsSound (W.lexicon words.now) made.old.items }
    requires takes { IsTrue (is_taken op) }
    requires suits { Has (W.lexicon words.now) made.old.items x (kind_before op) }
    ensures grown { OnOk result (Grown (W.lexicon words.now) made.old.items made.new.items) }
    ensures makes { IfOk result (Makes (W.lexicon words.now) made.new.items (kind_before op)
        (λ a. formula_before op (a x))) }
{
    match op {
        Prefix::Negated => negated(words, made, x),
        Prefix::Abs => one(words, made, Single::Abs, x),
        Prefix::Not => one(words, made, Single::Not, x),
        _ => unreachable!(),
    }
}

/// Whether an operator may be made of one.
pub(crate) fn is_taken(op: Prefix) -> bool
    ensures { result ≡ is_taken op }
{
    matches!(op, Prefix::Negated | Prefix::Abs | Prefix::Not)
}

/// Whether the operators are those of a choice.
pub(crate) fn is_choice(op: Prefix, then: Infix, other: Infix) -> bool
    ensures { IsTrue result → (op ≡ If) × (then ≡ Then) × (other ≡ Else) }
{
    matches!((op, then, other), (Prefix::If, Infix::Then, Infix::Else))
}

/// The cell of the other truth than the pair's.
fn opposite<W: Words>(
    words: &W,
    made: &mut Vec<Made>,
    op: Pair,
    x: usize,
    y: usize,
) -> Result<usize, Why>
    requires sound { IsSound (W.lexicon words.now) made.old.items }
    requires suits { AreTaken (W.lexicon words.now) made.old.items op x y }
    requires truth { kind_between op ≡ truth_kind }
    ensures grown { OnOk result (Grown (W.lexicon words.now) made.old.items made.new.items) }
    ensures makes { IfOk result (Makes (W.lexicon words.now) made.new.items truth_kind
        (λ a. of_one Not (of_two op (a x) (a y)))) }
{
    let z = two(words, made, op, x, y)?;
    one(words, made, Single::Not, z)
}

/// The cell of whether the second truth follows from the first.
fn implied<W: Words>(words: &W, made: &mut Vec<Made>, x: usize, y: usize) -> Result<usize, Why>
    requires sound { IsSound (W.lexicon words.now) made.old.items }
    requires first { Has (W.lexicon words.now) made.old.items x truth_kind }
    requires second { Has (W.lexicon words.now) made.old.items y truth_kind }
    ensures grown { OnOk result (Grown (W.lexicon words.now) made.old.items made.new.items) }
    ensures makes { IfOk result (Makes (W.lexicon words.now) made.new.items truth_kind
        (λ a. of_two Or (of_one Not (a x)) (a y))) }
{
    let z = one(words, made, Single::Not, x)?;
    two(words, made, Pair::Or, z, y)
}

/// The cell that an operator makes of two.
pub(crate) fn combined<W: Words>(
    words: &W,
    made: &mut Vec<Made>,
    op: Infix,
    x: usize,
    y: usize,
) -> Result<usize, Why>
    requires sound { IsSound (W.lexicon words.now) made.old.items }
    requires suits { AreFitting (W.lexicon words.now) made.old.items op x y }
    ensures grown { OnOk result (Grown (W.lexicon words.now) made.old.items made.new.items) }
    ensures makes { IfOk result (Makes (W.lexicon words.now) made.new.items (kind_of op)
        (λ a. formula op (a x) (a y))) }
{
    match op {
        Infix::Plus => two(words, made, Pair::Sum, x, y),
        Infix::Minus => two(words, made, Pair::Difference, x, y),
        Infix::Times => two(words, made, Pair::Product, x, y),
        Infix::Over => quotient_of(words, made, x, y),
        Infix::Remainder => remainder_of(words, made, x, y),
        Infix::Equal | Infix::Iff => two(words, made, Pair::Same, x, y),
        Infix::Less => two(words, made, Pair::Less, x, y),
        Infix::Greater => two(words, made, Pair::Less, y, x),
        Infix::And => two(words, made, Pair::And, x, y),
        Infix::Or => two(words, made, Pair::Or, x, y),
        Infix::Unequal | Infix::Xor => opposite(words, made, Pair::Same, x, y),
        Infix::AtLeast => opposite(words, made, Pair::Less, x, y),
        Infix::AtMost => opposite(words, made, Pair::Less, y, x),
        Infix::Implies => implied(words, made, x, y),
        _ => unreachable!(),
    }
}

/// Whether the operators are those of a range in which something lies.
pub(crate) fn is_range(op: Infix, to: Infix) -> bool
    ensures { IsTrue result → (op ≡ In) × (to ≡ UpTo) }
{
    matches!((op, to), (Infix::In, Infix::UpTo))
}

/// Whether the operator is `in`.
pub(crate) fn is_in(op: Infix) -> bool
    ensures { IsTrue result → (op ≡ In) }
{
    matches!(op, Infix::In)
}

/// Whether the term is several between commas.
pub(crate) fn is_list(term: &Term<'_>) -> bool
    ensures { result ≡ is_list (term_of term.now) }
{
    matches!(term, Term::Two(Infix::Comma, _, _))
}

/// The cell of whether a number lies between two.
pub(crate) fn between<W: Words>(
    words: &W,
    made: &mut Vec<Made>,
    x: usize,
    from: usize,
    end: usize,
) -> Result<usize, Why>
    requires sound { IsSound (W.lexicon words.now) made.old.items }
    requires number { Has (W.lexicon words.now) made.old.items x number_kind }
    requires low { Has (W.lexicon words.now) made.old.items from number_kind }
    requires high { Has (W.lexicon words.now) made.old.items end number_kind }
    ensures grown { OnOk result (Grown (W.lexicon words.now) made.old.items made.new.items) }
    ensures makes { IfOk result (Makes (W.lexicon words.now) made.new.items truth_kind
        (λ a. within (a x) (a from) (a end))) }
{
    let above = opposite(words, made, Pair::Less, x, from)?;
    let below = opposite(words, made, Pair::Less, end, x)?;
    two(words, made, Pair::And, above, below)
}
