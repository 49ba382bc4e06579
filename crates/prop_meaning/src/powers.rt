//! Cells of powers.
ghost use Rattle.std.specs.Prelude.{◌≡◌, IfOk, OnOk, IsTrue};
ghost use Rattle.prop_terms.specs.declared.operators.Infix.TheVariants.{Power};
ghost use Rattle.prop_meaning.specs.inner.Drafts.{Has, IsSound, Grown, Makes, number_kind};
ghost use Rattle.prop_meaning.specs.inner.Formulas.{power_point};

use crate::constants::number;
use crate::draft::Made;
use crate::fault::Why;
use crate::making::two;
use crate::steps::Pair;
use crate::words::Words;
use prop_terms::Infix;

/// Whether the operator is `**`.
pub(crate) fn is_power(op: Infix) -> bool
    ensures { IsTrue result → (op ≡ Power) }
{
    matches!(op, Infix::Power)
}

/// The cell of a number to a power, which is out of range beyond the 62nd.
pub(crate) fn power<W: Words>(
    words: &W,
    made: &mut Vec<Made>,
    x: usize,
    n: u64,
) -> Result<usize, Why>
    requires sound { IsSound (W.lexicon words.now) made.old.items }
    requires number { Has (W.lexicon words.now) made.old.items x number_kind }
    ensures grown { OnOk result (Grown (W.lexicon words.now) made.old.items made.new.items) }
    ensures makes { IfOk result (Makes (W.lexicon words.now) made.new.items number_kind
        (λ a. power_point n (a x))) }
{
    if n == 0 {
        return number(words, made, 1);
    }
    if n == 1 {
        return Ok(x);
    }
    if n > 62 {
        return Err(Why::OutOfRange);
    }
    let y = power(words, made, x, n - 1)?;
    two(words, made, Pair::Product, x, y)
}
