//! Of which kind a part of a term is, as far as that shows.
ghost use Rattle.std.specs.Prelude.{◌≡◌, IfOk, IfSome, IsTrue};
ghost use Rattle.prop_terms.specs.Terms.{term_of};
ghost use Rattle.prop_meaning.specs.Kinds.{kind_shown, made_kind};
ghost use Rattle.prop_meaning.specs.inner.Formulas.{Takes};

use crate::fault::Why;
use crate::making::{NUMBER, TRUTH, is_same_kind};
use crate::words::Words;
use prop_procedures::Kinded;
use prop_terms::{Infix, Prefix, Term};

/// The kind of what a term is worth, as far as it shows by itself: a word that names no cell may be
/// of any. What `compute` makes of the term is of no other kind.
pub fn kind_of_term<W: Words>(words: &W, term: &Term<'_>) -> Option<Kinded>
    ensures { result ≡ kind_shown (W.lexicon words.now) (term_of term.now) }
{
    match term {
        Term::Number(_) => Some(NUMBER),
        Term::Name(word) => match words.cell(word) {
            Some(place) => Some(words.known(place).kinded),
            None => None,
        },
        Term::One(Prefix::Not | Prefix::Different, _) => Some(TRUTH),
        Term::One(Prefix::If | Prefix::Element, ways) => kind_of_term(words, ways),
        Term::One(_, _) => Some(NUMBER),
        Term::Two(Infix::Then | Infix::Semicolon | Infix::Colon, _, ways) => {
            kind_of_term(words, ways)
        }
        Term::Two(Infix::Else | Infix::Comma, left, right) => match kind_of_term(words, left) {
            Some(kinded) => Some(kinded),
            None => kind_of_term(words, right),
        },
        Term::Two(op, _, _) => kind_made(*op),
        Term::Braces(_) => None,
    }
}

/// The kind of what an operator makes.
fn kind_made(op: Infix) -> Option<Kinded>
    ensures { result ≡ made_kind op }
{
    match op {
        Infix::Plus | Infix::Minus | Infix::Times | Infix::Over | Infix::Remainder | Infix::Power =>
            Some(NUMBER),
        Infix::Iff
        | Infix::Implies
        | Infix::Xor
        | Infix::Or
        | Infix::And
        | Infix::Equal
        | Infix::Unequal
        | Infix::Less
        | Infix::AtMost
        | Infix::Greater
        | Infix::AtLeast
        | Infix::In => Some(TRUTH),
        _ => None,
    }
}

/// Whether a term may be of a kind: it shows no other.
pub(crate) fn may_be<W: Words>(words: &W, term: &Term<'_>, kinded: Kinded) -> bool
    ensures { IsTrue result
        → IfSome (kind_shown (W.lexicon words.now) (term_of term.now)) (λ k. k ≡ kinded) }
{
    match kind_of_term(words, term) {
        Some(shown) => is_same_kind(shown, kinded),
        None => true,
    }
}

/// The kind of both terms, by the one of which it shows.
fn kind_of_both<W: Words>(words: &W, left: &Term<'_>, right: &Term<'_>) -> Result<Kinded, Why> {
    match kind_of_term(words, left) {
        Some(kinded) => Ok(kinded),
        None => match kind_of_term(words, right) {
            Some(kinded) => Ok(kinded),
            None => Err(Why::NoSuchCell),
        },
    }
}

/// Of which kind both sides of an operator are to be.
pub(crate) fn sides<W: Words>(
    words: &W,
    op: Infix,
    left: &Term<'_>,
    right: &Term<'_>,
) -> Result<Kinded, Why>
    ensures { IfOk result (Takes op) }
{
    match op {
        Infix::Plus
        | Infix::Minus
        | Infix::Times
        | Infix::Over
        | Infix::Remainder
        | Infix::Less
        | Infix::AtMost
        | Infix::Greater
        | Infix::AtLeast => Ok(NUMBER),
        Infix::And | Infix::Or | Infix::Xor | Infix::Iff | Infix::Implies => Ok(TRUTH),
        Infix::Equal | Infix::Unequal => kind_of_both(words, left, right),
        _ => Err(Why::WrongForm),
    }
}
