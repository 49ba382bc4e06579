//! The text of a term.
ghost use Rattle.std.specs.Prelude.{◌≡◌, IfOk, OnOk, IsTrue};
ghost use Rattle.prop_terms.specs.Terms.{term_of};
ghost use Rattle.prop_terms.specs.Writing.{IsWritten};

use crate::forming::Sort;
use crate::frames::{LEAF, left_at, level_of, right_at, strength_of};
use crate::operators::{Infix, Prefix};
use crate::reading::read;
use crate::term::Term;
use crate::tokens::{Token, token_of};
use prop_refusals::Refusal;
use std::alloc::Global;

/// How an operator before a term is spelled, with a blank behind it where one is needed.
fn spelled_before(op: Prefix) -> &'static [u8] {
    match op {
        Prefix::Negated => b"-",
        Prefix::Not => b"not ",
        Prefix::If => b"if ",
        Prefix::Abs => b"abs",
        Prefix::Max => b"max",
        Prefix::Min => b"min",
        Prefix::Sum => b"sum",
        Prefix::Count => b"count",
        Prefix::Different => b"different",
        Prefix::Element => b"element",
    }
}

/// How an operator between two terms is spelled, with the blanks round it.
fn spelled_between(op: Infix) -> &'static [u8] {
    match op {
        Infix::Semicolon => b"; ",
        Infix::Comma => b", ",
        Infix::Beside => b" ",
        Infix::Colon => b": ",
        Infix::Then => b" then ",
        Infix::Else => b" else ",
        Infix::Iff => b" iff ",
        Infix::Implies => b" implies ",
        Infix::Xor => b" xor ",
        Infix::Or => b" or ",
        Infix::And => b" and ",
        Infix::Equal => b" == ",
        Infix::Unequal => b" != ",
        Infix::Less => b" < ",
        Infix::AtMost => b" <= ",
        Infix::Greater => b" > ",
        Infix::AtLeast => b" >= ",
        Infix::In => b" in ",
        Infix::UpTo => b"..",
        Infix::Plus => b" + ",
        Infix::Minus => b" - ",
        Infix::Times => b" * ",
        Infix::Over => b" // ",
        Infix::Remainder => b" % ",
        Infix::Power => b" ** ",
    }
}

/// Writes bytes at the end.
fn put(text: &mut Vec<u8>, bytes: &[u8]) -> Result<(), Refusal> {
    match text.extend_from_slice(bytes) {
        Ok(()) => Ok(()),
        Err(_) => Err(Refusal::Memory),
    }
}

/// Writes a whole number at the end.
fn put_number(alloc: Global, text: &mut Vec<u8>, number: u64) -> Result<(), Refusal> {
    match format!(in alloc; "{number}") {
        Ok(digits) => put(text, digits.as_bytes()),
        Err(_) => Err(Refusal::Memory),
    }
}

/// Writes a name at the end, in quotes where it would be read as something else.
fn put_name(text: &mut Vec<u8>, name: &[u8]) -> Result<(), Refusal> {
    match token_of(name) {
        Token::Word(word) if word == name => put(text, name),
        _ => {
            put(text, b"'")?;
            put(text, name)?;
            put(text, b"'")
        }
    }
}

/// The level of a term.
fn level_in(term: &Term<'_>) -> u8 {
    match term {
        Term::Number(_) | Term::Name(_) | Term::Braces(_) => LEAF,
        Term::One(op, _) => strength_of(*op),
        Term::Two(op, _, _) => level_of(*op),
    }
}

/// Writes a term at the end, where the least level is this.
fn put_term(alloc: Global, text: &mut Vec<u8>, term: &Term<'_>, least: u8) -> Result<(), Refusal> {
    let is_loose = level_in(term) < least;
    if is_loose {
        put(text, b"(")?;
    }
    match term {
        Term::Number(number) => put_number(alloc, text, *number)?,
        Term::Name(name) => put_name(text, name)?,
        Term::One(op, term) => {
            put(text, spelled_before(*op))?;
            put_term(alloc, text, term, right_at(strength_of(*op)))?;
        }
        Term::Two(op, left, right) => {
            put_term(alloc, text, left, left_at(level_of(*op)))?;
            put(text, spelled_between(*op))?;
            put_term(alloc, text, right, right_at(level_of(*op)))?;
        }
        Term::Braces(words) => {
            put(text, b"{")?;
            put_term(alloc, text, words, 0)?;
            put(text, b"}")?;
        }
    }
    if is_loose { put(text, b")") } else { Ok(()) }
}

/// That the text writes the term, or why it doesn't.
fn check(alloc: Global, text: &[u8], term: &Term<'_>, sort: Sort) -> Result<(), Refusal>
    ensures { OnOk result (IsWritten sort text.now (term_of term.now)) }
{
    let found = match read(alloc, text, sort) {
        Ok(found) => found,
        Err(fault) => return Err(fault.refusal),
    };
    if found.is_same(term) {
        Ok(())
    } else {
        Err(Refusal::WrongForm)
    }
}

/// A text that writes the term, where one of the sort is wanted, with brackets only where an
/// operator's level asks for them.
///
/// It is read again before it is answered. So it is `LineTooLong` if it takes over 4,096 bytes,
/// and `WrongForm` if no text writes the term there. `Memory` is said where there was none.
pub fn print(alloc: Global, term: &Term<'_>, sort: Sort) -> Result<Vec<u8>, Refusal>
    ensures { IfOk result (λ text. IsWritten sort text.items (term_of term.now)) }
{
    let mut text = Vec::new(alloc);
    put_term(alloc, &mut text, term, 0)?;
    check(alloc, &text, term, sort)?;
    Ok(text)
}
