//! Cells of what operators make of lists.
ghost use Rattle.std.specs.Prelude.{◌≡◌, IfOk, OnOk, IsTrue};
ghost use Rattle.prop_terms.specs.declared.operators.Prefix.TheVariants.{Different};
ghost use Rattle.prop_meaning.specs.inner.Drafts.{Has, IsSound, Grown, Makes};
ghost use Rattle.prop_meaning.specs.inner.Drafts.{number_kind, truth_kind};
ghost use Rattle.prop_meaning.specs.inner.Lists.{is_gathering, kind_within, pair_of, counted};
ghost use Rattle.prop_meaning.specs.inner.Lists.{alone, gathered};

use crate::constants::number;
use crate::draft::Made;
use crate::fault::Why;
use crate::making::{NUMBER, TRUTH, choice, two};
use crate::steps::Pair;
use crate::words::Words;
use prop_procedures::Kinded;
use prop_terms::Prefix;

/// Whether an operator goes through a list, one term after another.
pub(crate) fn is_gathering(op: Prefix) -> bool
    ensures { result ≡ is_gathering op }
{
    matches!(op, Prefix::Max | Prefix::Min | Prefix::Sum | Prefix::Count)
}

/// Whether an operator says of a list that no two in it are equal.
pub(crate) fn is_different(op: Prefix) -> bool
    ensures { IsTrue result → (op ≡ Different) }
{
    matches!(op, Prefix::Different)
}

/// The kind of what stands in an operator's list.
pub(crate) fn kind_within(op: Prefix) -> Kinded
    ensures { result ≡ kind_within op }
{
    match op {
        Prefix::Count => TRUTH,
        _ => NUMBER,
    }
}

/// What an operator makes of those before and one more.
fn pair_of(op: Prefix) -> Pair
    ensures { result ≡ pair_of op }
{
    match op {
        Prefix::Max => Pair::Max,
        Prefix::Min => Pair::Min,
        _ => Pair::Sum,
    }
}

/// The cell that is one where a truth is `yes`, and else zero.
fn counted<W: Words>(words: &W, made: &mut Vec<Made>, x: usize) -> Result<usize, Why>
    requires sound { IsSound (W.lexicon words.now) made.old.items }
    requires truth { Has (W.lexicon words.now) made.old.items x truth_kind }
    ensures grown { OnOk result (Grown (W.lexicon words.now) made.old.items made.new.items) }
    ensures makes { IfOk result (Makes (W.lexicon words.now) made.new.items number_kind
        (λ a. counted (a x))) }
{
    let one = number(words, made, 1)?;
    let zero = number(words, made, 0)?;
    choice(words, made, x, one, zero)
}

/// The cell of what an operator makes of a list of one.
pub(crate) fn alone<W: Words>(
    words: &W,
    made: &mut Vec<Made>,
    op: Prefix,
    x: usize,
) -> Result<usize, Why>
    requires sound { IsSound (W.lexicon words.now) made.old.items }
    requires suits { Has (W.lexicon words.now) made.old.items x (kind_within op) }
    ensures grown { OnOk result (Grown (W.lexicon words.now) made.old.items made.new.items) }
    ensures makes { IfOk result (Makes (W.lexicon words.now) made.new.items number_kind
        (λ a. alone op (a x))) }
{
    match op {
        Prefix::Count => counted(words, made, x),
        _ => Ok(x),
    }
}

/// The cell of what an operator makes of those before, of which it made the first cell, and of one
/// more.
pub(crate) fn gathered<W: Words>(
    words: &W,
    made: &mut Vec<Made>,
    op: Prefix,
    x: usize,
    y: usize,
) -> Result<usize, Why>
    requires sound { IsSound (W.lexicon words.now) made.old.items }
    requires before { Has (W.lexicon words.now) made.old.items x number_kind }
    requires suits { Has (W.lexicon words.now) made.old.items y (kind_within op) }
    ensures grown { OnOk result (Grown (W.lexicon words.now) made.old.items made.new.items) }
    ensures makes { IfOk result (Makes (W.lexicon words.now) made.new.items number_kind
        (λ a. gathered op (a x) (a y))) }
{
    let z = alone(words, made, op, y)?;
    two(words, made, pair_of(op), x, z)
}
