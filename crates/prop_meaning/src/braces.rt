//! Cells of words and numbers in braces.
ghost use Rattle.std.specs.Prelude.{◌≡◌, ◌∷◌, [], ◌⊎◌, ◌≤ℤ◌, pos, neg_ℤ, Some, IfOk, IfSome, OnOk};
ghost use Rattle.std.specs.Prelude.{IsTrue};
ghost use Rattle.prop_terms.specs.Terms.{term_of};
ghost use Rattle.prop_terms.specs.Meaning.{Whole, label, labels};
ghost use Rattle.prop_terms.specs.declared.operators.Infix.TheVariants as between;
ghost use Rattle.prop_meaning.specs.inner.Drafts.{Has, IsSound, Grown, Makes, truth_kind};
ghost use Rattle.prop_meaning.specs.inner.Lists.{Labels, is_among};
ghost use Rattle.prop_meaning.specs.inner.Steps.{truth_point};

use crate::constants::{label, number};
use crate::draft::Made;
use crate::fault::{Fault, Why};
use crate::making::{NUMBER, is_same_kind, two};
use crate::steps::Pair;
use crate::words::Words;
use prop_procedures::Kinded;
use prop_terms::{Infix, Prefix, Term};

/// The number that stands in braces, at most 10^18 either way.
pub(crate) fn number_of(term: &Term<'_>) -> Option<i64>
    ensures is { IfSome result (λ z. label (term_of term.now) ≡ Some (Whole z)) }
    ensures low { IfSome result (λ z. neg_ℤ (pos 1_000_000_000_000_000_000) ≤ℤ z) }
    ensures high { IfSome result (λ z. z ≤ℤ pos 1_000_000_000_000_000_000) }
{
    match term {
        Term::Number(n) if *n <= 1_000_000_000_000_000_000 => Some(*n as i64),
        Term::One(Prefix::Negated, under) => match number_of(under) {
            Some(z) => Some(-z),
            None => None,
        },
        _ => None,
    }
}

/// The cell of a word or a number in braces, which is to be of this kind.
fn labelled<W: Words>(
    words: &W,
    made: &mut Vec<Made>,
    term: &Term<'_>,
    kinded: Kinded,
) -> Result<usize, Why>
    requires sound { IsSound (W.lexicon words.now) made.old.items }
    ensures grown { OnOk result (Grown (W.lexicon words.now) made.old.items made.new.items) }
    ensures labels { IfOk result
        (Labels (W.lexicon words.now) made.new.items kinded (term_of term.now)) }
{
    if !is_same_kind(NUMBER, kinded) {
        return match term {
            Term::Name(word) => label(words, made, kinded, word),
            _ => Err(Why::WrongKind),
        };
    }
    match number_of(term) {
        Some(z) => number(words, made, z),
        None => Err(Why::WrongKind),
    }
}

/// The cell of whether a cell is the word or the number.
pub(crate) fn is_labelled<'t, 'a, W: Words>(
    words: &W,
    made: &mut Vec<Made>,
    x: usize,
    kinded: Kinded,
    term: &'t Term<'a>,
) -> Result<usize, Fault<'t, 'a>>
    requires sound { IsSound (W.lexicon words.now) made.old.items }
    requires has { Has (W.lexicon words.now) made.old.items x kinded }
    ensures grown { OnOk result (Grown (W.lexicon words.now) made.old.items made.new.items) }
    ensures makes { IfOk result (Makes (W.lexicon words.now) made.new.items truth_kind
        (λ a. truth_point (is_among (W.lexicon words.now) kinded (a x)
        (labels (term_of term.now))))) }
    ensures alone { IfOk result (Makes (W.lexicon words.now) made.new.items truth_kind
        (λ a. truth_point (is_among (W.lexicon words.now) kinded (a x)
        (label (term_of term.now) ∷ [])))) }
{
    let y = match labelled(words, made, term, kinded) {
        Ok(y) => y,
        Err(why) => return Err(Fault { why, part: term }),
    };
    match two(words, made, Pair::Same, x, y) {
        Ok(place) => Ok(place),
        Err(why) => Err(Fault { why, part: term }),
    }
}

/// Whether an operator stands between words in braces.
fn is_beside(op: Infix) -> bool
    ensures { IsTrue result → (op ≡ between.Beside) ⊎ (op ≡ between.Comma) }
{
    matches!(op, Infix::Beside | Infix::Comma)
}

/// The cell of whether a cell of this kind is one of the words or numbers.
pub(crate) fn among<'t, 'a, W: Words>(
    words: &W,
    made: &mut Vec<Made>,
    x: usize,
    kinded: Kinded,
    list: &'t Term<'a>,
) -> Result<usize, Fault<'t, 'a>>
    requires sound { IsSound (W.lexicon words.now) made.old.items }
    requires has { Has (W.lexicon words.now) made.old.items x kinded }
    ensures grown { OnOk result (Grown (W.lexicon words.now) made.old.items made.new.items) }
    ensures makes { IfOk result (Makes (W.lexicon words.now) made.new.items truth_kind
        (λ a. truth_point (is_among (W.lexicon words.now) kinded (a x)
        (labels (term_of list.now))))) }
{
    let Term::Two(op, others, last) = list else {
        return is_labelled(words, made, x, kinded, list);
    };
    if !is_beside(*op) {
        return is_labelled(words, made, x, kinded, list);
    }
    let t = among(words, made, x, kinded, others)?;
    let u = is_labelled(words, made, x, kinded, last)?;
    match two(words, made, Pair::Or, t, u) {
        Ok(place) => Ok(place),
        Err(why) => Err(Fault { why, part: list }),
    }
}
