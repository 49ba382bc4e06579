//! Terms, as they are read.
ghost use Rattle.std.specs.Prelude.{◌≡◌, ◌↔◌, IsTrue};

use crate::operators::{Infix, Prefix};

/// A term. Lists, ranges, rows and the parts of an `if` are terms of two others: `max(x, y, z)` is
/// `One(Max, Two(Comma, Two(Comma, x, y), z))`.
#[derive(Drop)]
pub enum Term<'a> {
    /// A whole number, at most 10^18.
    Number(u64),
    /// A name without its quotes: of a cell, an element or a symbol, or behind `in` of a relation.
    Name(&'a [u8]),
    /// An operator before a term.
    One(Prefix, Box<Term<'a>>),
    /// An operator between two terms.
    Two(Infix, Box<Term<'a>>, Box<Term<'a>>),
    /// Words in braces.
    Braces(Box<Term<'a>>),
}

impl Term<'_> {
    ghost use Rattle.prop_terms.specs.Terms.{term_of};

    /// Whether the two terms are the same.
    pub fn is_same(&self, other: &Term<'_>) -> bool
        ensures { IsTrue result ↔ (term_of self.now ≡ term_of other.now) }
    {
        match (self, other) {
            (Term::Number(number), Term::Number(with)) => number == with,
            (Term::Name(name), Term::Name(with)) => name == with,
            (Term::One(op, term), Term::One(with, behind)) => op == with && term.is_same(behind),
            (Term::Two(op, left, right), Term::Two(with, before, behind)) => {
                op == with && left.is_same(before) && right.is_same(behind)
            }
            (Term::Braces(words), Term::Braces(with)) => words.is_same(with),
            _ => false,
        }
    }
}
