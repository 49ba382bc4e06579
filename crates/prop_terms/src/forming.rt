//! Which terms may stand where.
ghost use Rattle.std.specs.Prelude.{◌≡◌};
ghost use Rattle.prop_terms.specs.Forming.{admits, if_admits, operand, below, operands, sides};
ghost use Rattle.prop_terms.specs.Forming.{fits_number, fits_name, is_formed};
ghost use Rattle.prop_terms.specs.Terms.{term_of};

use crate::operators::{Infix, Prefix};
use crate::term::Term;

/// What a term is worth, as far as its form says it.
#[derive(Clone, Copy)]
pub enum Sort {
    /// A whole number.
    Number,
    /// Yes or no.
    Truth,
    /// A number, a truth, an element or a symbol.
    Any,
}

/// What is to stand in a place.
#[derive(Clone, Copy)]
pub enum Place {
    /// One term.
    Single(Sort),
    /// Terms with commas between them, or one.
    List(Sort),
    /// `T then A else B`.
    Choice(Sort),
    /// `A else B`.
    Ways(Sort),
    /// `x; mon: 30, tue: 10`.
    Lookup(Sort),
    /// Rows with commas between them, or one.
    Rows(Sort),
    /// `mon: 30`.
    Row(Sort),
    /// What stands behind `in`: a range, words in braces, or a relation's name.
    Range,
    /// Words or numbers with nothing or commas between them, or one.
    Words,
    /// A word or a number.
    Label,
    /// A number of which the sign is known.
    Exponent,
}

/// Whether a place of the first sort takes what is of the other.
fn admits(sort: Sort, other: Sort) -> bool
    ensures { result ≡ admits sort other }
{
    match (sort, other) {
        (Sort::Any, _) | (Sort::Number, Sort::Number) | (Sort::Truth, Sort::Truth) => true,
        _ => false,
    }
}

/// The place, where one of the sort takes what is worth this.
fn if_admits<T: Copy>(sort: Sort, worth: Sort, place: T) -> Option<T>
    ensures { result ≡ if_admits sort worth place }
{
    if admits(sort, worth) {
        Some(place)
    } else {
        None
    }
}

/// What is to stand behind an operator that is worth this.
fn operand(sort: Sort, op: Prefix) -> Option<Place>
    ensures { result ≡ operand sort op }
{
    match op {
        Prefix::If => Some(Place::Choice(sort)),
        Prefix::Element => Some(Place::Lookup(sort)),
        Prefix::Negated | Prefix::Abs => {
            if_admits(sort, Sort::Number, Place::Single(Sort::Number))
        }
        Prefix::Max | Prefix::Min | Prefix::Sum => {
            if_admits(sort, Sort::Number, Place::List(Sort::Number))
        }
        Prefix::Count => if_admits(sort, Sort::Number, Place::List(Sort::Truth)),
        Prefix::Not => if_admits(sort, Sort::Truth, Place::Single(Sort::Truth)),
        Prefix::Different => if_admits(sort, Sort::Truth, Place::List(Sort::Any)),
    }
}

/// What is to stand behind an operator, where that may stand in the place.
fn below(place: Place, op: Prefix) -> Option<Place>
    ensures { result ≡ below place op }
{
    match (place, op) {
        (Place::Single(sort) | Place::List(sort), op) => operand(sort, op),
        (Place::Words | Place::Label, Prefix::Negated) => Some(Place::Label),
        _ => None,
    }
}

/// What is to stand on both sides of an operator that is worth this.
fn operands(sort: Sort, op: Infix) -> Option<(Place, Place)>
    ensures { result ≡ operands sort op }
{
    let number = Place::Single(Sort::Number);
    let truth = Place::Single(Sort::Truth);
    let any = Place::Single(Sort::Any);
    match op {
        Infix::Plus | Infix::Minus | Infix::Times | Infix::Over | Infix::Remainder => {
            if_admits(sort, Sort::Number, (number, number))
        }
        Infix::Power => if_admits(sort, Sort::Number, (number, Place::Exponent)),
        Infix::Equal | Infix::Unequal => if_admits(sort, Sort::Truth, (any, any)),
        Infix::Less | Infix::AtMost | Infix::Greater | Infix::AtLeast => {
            if_admits(sort, Sort::Truth, (number, number))
        }
        Infix::In => if_admits(sort, Sort::Truth, (Place::List(Sort::Any), Place::Range)),
        Infix::And | Infix::Or | Infix::Xor | Infix::Implies | Infix::Iff => {
            if_admits(sort, Sort::Truth, (truth, truth))
        }
        _ => None,
    }
}

/// What is to stand on both sides of an operator, where that may stand in the place.
fn sides(place: Place, op: Infix) -> Option<(Place, Place)>
    ensures { result ≡ sides place op }
{
    match (place, op) {
        (Place::List(sort), Infix::Comma) => Some((Place::List(sort), Place::Single(sort))),
        (Place::Single(sort) | Place::List(sort), op) => operands(sort, op),
        (Place::Choice(sort), Infix::Then) => {
            Some((Place::Single(Sort::Truth), Place::Ways(sort)))
        }
        (Place::Ways(sort), Infix::Else) => Some((Place::Single(sort), Place::Single(sort))),
        (Place::Lookup(sort), Infix::Semicolon) => {
            Some((Place::Single(Sort::Any), Place::Rows(sort)))
        }
        (Place::Rows(sort), Infix::Comma) => Some((Place::Rows(sort), Place::Row(sort))),
        (Place::Rows(sort) | Place::Row(sort), Infix::Colon) => {
            Some((Place::Label, Place::Single(sort)))
        }
        (Place::Range, Infix::UpTo) => {
            Some((Place::Single(Sort::Number), Place::Single(Sort::Number)))
        }
        (Place::Words, Infix::Beside | Infix::Comma) => Some((Place::Words, Place::Label)),
        _ => None,
    }
}

/// Whether a whole number may stand in the place.
fn fits_number(place: Place) -> bool
    ensures { result ≡ fits_number place }
{
    match place {
        Place::Single(sort) | Place::List(sort) => admits(sort, Sort::Number),
        Place::Words | Place::Label | Place::Exponent => true,
        _ => false,
    }
}

/// Whether a name may stand in the place.
fn fits_name(place: Place) -> bool
    ensures { result ≡ fits_name place }
{
    matches!(
        place,
        Place::Single(_) | Place::List(_) | Place::Range | Place::Words | Place::Label
    )
}

/// Whether the term may stand in the place.
pub fn is_formed(term: &Term<'_>, place: Place) -> bool
    ensures { result ≡ is_formed (term_of term.now) place }
{
    match term {
        Term::Number(_) => fits_number(place),
        Term::Name(_) => fits_name(place),
        Term::One(op, term) => match below(place, *op) {
            Some(place) => is_formed(term, place),
            None => false,
        },
        Term::Two(op, left, right) => match sides(place, *op) {
            Some((before, behind)) => is_formed(left, before) && is_formed(right, behind),
            None => false,
        },
        Term::Braces(words) => match place {
            Place::Range => is_formed(words, Place::Words),
            _ => false,
        },
    }
}
