//! Whether a table has a row for whatever is looked up.
ghost use Rattle.std.specs.Prelude.{◌≡◌, ◌<◌, ◌+ℤ◌, ◌≤ℤ◌, ◌<ℤ◌, pos, true, ℕ, ℤ, Some, IsTrue};
ghost use Rattle.prop_lattice.specs.Points.{Point};
ghost use Rattle.prop_terms.specs.Meaning.{Whole, Text};
ghost use Rattle.prop_terms.specs.Terms.{term_of};
ghost use Rattle.prop_terms.specs.declared.operators.Prefix.TheVariants.{Element};
ghost use Rattle.prop_terms.specs.declared.operators.Infix.TheVariants.{Colon, Semicolon};
ghost use Rattle.prop_meaning.specs.Words.{IsLexicon, IsWithin, value_as};
ghost use Rattle.prop_meaning.specs.inner.Drafts.{Has, IsSound};
ghost use Rattle.prop_meaning.specs.inner.Tables.{is_key, HasAllKeys};

use crate::braces::number_of;
use crate::draft::{Made, known_at};
use crate::known::Known;
use crate::words::Words;
use prop_lattice::Kind;
use prop_procedures::Kinded;
use prop_terms::{Infix, Prefix, Term};

/// What is looked up in a table: the cell, of which kind it is, and of which kind what stands
/// behind the labels is to be.
#[derive(Clone, Copy)]
pub(crate) struct Lookup {
    pub(crate) place: usize,
    pub(crate) keyed: Kinded,
    pub(crate) kinded: Kinded,
}

/// Whether the operators are those of a table.
pub(crate) fn is_lookup(op: Prefix, semicolon: Infix) -> bool
    ensures { IsTrue result → (op ≡ Element) × (semicolon ≡ Semicolon) }
{
    matches!((op, semicolon), (Prefix::Element, Infix::Semicolon))
}

/// Whether the operator is that of a row.
pub(crate) fn is_row(op: Infix) -> bool
    ensures { IsTrue result → (op ≡ Colon) }
{
    matches!(op, Infix::Colon)
}

/// Whether a row's label may be one of the kind.
pub(crate) fn is_label<W: Words>(words: &W, keyed: Kinded, label: &Term<'_>) -> bool {
    match (keyed.kind, label) {
        (Kind::Set(domain), Term::Name(word)) => words.element(domain, word).is_some(),
        (Kind::Span, label) => number_of(label).is_some(),
        _ => false,
    }
}

/// Whether a row is labelled by the number.
fn has_number(rows: &Term<'_>, z: i64) -> bool
    ensures { IsTrue result → (is_key (term_of rows.now) (Some (Whole z)) ≡ true) }
{
    match rows {
        Term::Two(Infix::Comma, others, last) => has_number(others, z) || has_number(last, z),
        Term::Two(Infix::Colon, label, _) => match number_of(label) {
            Some(number) => number == z,
            None => false,
        },
        _ => false,
    }
}

/// Whether there is a row for each of so many numbers, from this one on.
fn has_numbers(rows: &Term<'_>, low: i64, count: u64) -> bool
    requires { (low +ℤ pos count) ≤ℤ pos 4_000_000_000_000_000_000 }
    ensures { IsTrue result → (z : ℤ) → low ≤ℤ z → z <ℤ (low +ℤ pos count)
        → is_key (term_of rows.now) (Some (Whole z)) ≡ true }
{
    if count == 0 {
        return true;
    }
    has_number(rows, low) && has_numbers(rows, low + 1, count - 1)
}

/// Whether a row is labelled by an element of the domain.
fn has_element<W: Words>(words: &W, rows: &Term<'_>, domain: u16, i: u8) -> bool
    ensures { IsTrue result → IsLexicon (W.lexicon words.now) → is_key (term_of rows.now)
        (Some (Text ((W.lexicon words.now).element_word domain i))) ≡ true }
{
    match rows {
        Term::Two(Infix::Comma, others, last) => {
            has_element(words, others, domain, i) || has_element(words, last, domain, i)
        }
        Term::Two(Infix::Colon, label, _) => match &**label {
            Term::Name(word) => is_element(words, domain, word, i),
            _ => false,
        },
        _ => false,
    }
}

/// Whether the word is that of an element of the domain.
fn is_element<W: Words>(words: &W, domain: u16, word: &[u8], i: u8) -> bool
    ensures { IsTrue result → IsLexicon (W.lexicon words.now)
        → (W.lexicon words.now).element_word domain i ≡ word.now }
{
    match words.element(domain, word) {
        Some(number) => number == i,
        None => false,
    }
}

/// Whether there is a row for each of the first so many elements of the domain.
fn has_elements<W: Words>(words: &W, rows: &Term<'_>, domain: u16, count: u8) -> bool
    ensures { IsTrue result → IsLexicon (W.lexicon words.now) → (i : ℕ) → i < count
        → is_key (term_of rows.now)
        (Some (Text ((W.lexicon words.now).element_word domain i))) ≡ true }
{
    if count == 0 {
        return true;
    }
    has_element(words, rows, domain, count - 1) && has_elements(words, rows, domain, count - 1)
}

/// Whether there is a row for each point of which this is known.
fn has_each<W: Words>(words: &W, rows: &Term<'_>, known: Known) -> bool
    ensures { IsTrue result → IsLexicon (W.lexicon words.now) → (p : Point) → IsWithin known p
        → is_key (term_of rows.now) (Some (value_as (W.lexicon words.now) known.kinded p)) ≡ true }
{
    match known.kinded.kind {
        Kind::Set(domain) => has_elements(words, rows, domain, known.kinded.size),
        Kind::Span => has_numbers(rows, known.span.lo(), known.span.count()),
        Kind::Symbol => false,
    }
}

/// Whether there is a row for whatever the cell that is looked up shows.
pub(crate) fn has_all_keys<W: Words>(
    words: &W,
    made: &[Made],
    lookup: Lookup,
    rows: &Term<'_>,
) -> bool
    requires sound { IsSound (W.lexicon words.now) made.now }
    requires has { Has (W.lexicon words.now) made.now lookup.place lookup.keyed }
    ensures { IsTrue result
        → HasAllKeys (W.lexicon words.now) made.now lookup (term_of rows.now) }
{
    match known_at(words, made, lookup.place) {
        Some(known) => has_each(words, rows, known),
        None => false,
    }
}
