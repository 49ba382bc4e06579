//! What is asked of a search.

ghost use Rattle.std.specs.Prelude.{◌≡◌, ◌∷◌, [], Some, IfOk, IfSome};
ghost use Rattle.std.specs.Prelude.{slice_get};
ghost use Rattle.std.specs.List.{AllZip};
ghost use Rattle.prop_solve.specs.Questions.{AreExcusing, IsEndOf, IsValueFact, value_fact};

use prop_facts::{Fact, Literal};
use prop_lattice::{Info, Span};
use std::alloc::{AllocError, Global};

/// What is wanted.
#[derive(Clone, Copy, Debug, PartialEq, Eq)]
pub enum Goal {
    /// Some points.
    Any,
    /// The least number that the cell can be.
    Least(usize),
    /// The greatest number that the cell can be.
    Greatest(usize),
    /// Points that differ from those before at a named cell.
    Differing,
}

/// A goal, and the cells that are decided first, in order.
#[derive(Drop)]
pub struct Question {
    pub goal: Goal,
    pub named: Vec<usize>,
}

/// The fact that a value is the only one which an information leaves.
fn value_fact(info: Info) -> Option<Fact>
    ensures { result ≡ value_fact info }
{
    match info {
        Info::Span(span) => {
            if span.lo() == span.hi() {
                Some(Fact::Is(span.lo()))
            } else {
                None
            }
        }
        Info::Set(elements) => Some(Fact::Among(elements)),
        Info::Sym(symbol) => Some(Fact::Same(symbol)),
        _ => None,
    }
}

/// This fact alone.
fn only(alloc: Global, fact: Literal) -> Result<Vec<Literal>, AllocError>
    ensures { IfOk result (λ facts. facts.items ≡ fact ∷ []) }
{
    let mut facts = Vec::new(alloc);
    facts.push(fact)?;
    Ok(facts)
}

/// The span of a cell, where its value is one.
fn span_at(values: &[Info], place: usize) -> Option<Span>
    ensures { IfSome result (λ span. slice_get values.now place ≡ Some (Info.Span span)) }
{
    match *values.get(place)? {
        Info::Span(span) => Some(span),
        _ => None,
    }
}

/// That a number is no less than a span's.
fn no_less(place: usize, span: Span) -> Literal
    ensures { result ≡ record { place = place; fact = Fact.AtLeast span.lo } }
{
    let fact = Fact::AtLeast(span.lo());
    Literal { place, fact }
}

/// That a number is no more than a span's.
fn no_more(place: usize, span: Span) -> Literal
    ensures { result ≡ record { place = place; fact = Fact.AtMost span.hi } }
{
    let fact = Fact::AtMost(span.hi());
    Literal { place, fact }
}

/// That the number of a cell is no less than its value.
fn not_less(
    alloc: Global,
    values: &[Info],
    place: usize,
) -> Result<Option<Vec<Literal>>, AllocError>
    ensures { IfOk result (λ o. IfSome o (λ facts.
        IsEndOf values.now place (λ s. Fact.AtLeast s.lo) facts.items)) }
{
    let Some(span) = span_at(values, place) else {
        return Ok(None);
    };
    Ok(Some(only(alloc, no_less(place, span))?))
}

/// That the number of a cell is no more than its value.
fn not_more(
    alloc: Global,
    values: &[Info],
    place: usize,
) -> Result<Option<Vec<Literal>>, AllocError>
    ensures { IfOk result (λ o. IfSome o (λ facts.
        IsEndOf values.now place (λ s. Fact.AtMost s.hi) facts.items)) }
{
    let Some(span) = span_at(values, place) else {
        return Ok(None);
    };
    Ok(Some(only(alloc, no_more(place, span))?))
}

/// That a cell has its value.
fn the_same(values: &[Info], place: usize) -> Option<Literal>
    ensures { IfSome result (IsValueFact values.now place) }
{
    let info = *values.get(place)?;
    let fact = value_fact(info)?;
    Some(Literal { place, fact })
}

/// That each of these cells has its value.
fn all_the_same(
    alloc: Global,
    values: &[Info],
    named: &[usize],
) -> Result<Option<Vec<Literal>>, AllocError>
    ensures { IfOk result (λ o. IfSome o (λ facts.
        AllZip (IsValueFact values.now) named.now facts.items)) }
{
    let mut facts = Vec::new(alloc);
    for cell in named {
        let Some(fact) = the_same(values, *cell) else {
            return Ok(None);
        };
        facts.push(fact)?;
    }
    Ok(Some(facts))
}

impl Question {
    /// Facts about these values which other points may no longer have: a number no less than the
    /// one that was found, where the least is asked for, and all that the named cells are where
    /// points are to differ. None where there are no such facts.
    pub(crate) fn facts(
        &self,
        alloc: Global,
        values: &[Info],
    ) -> Result<Option<Vec<Literal>>, AllocError>
        ensures { IfOk result (λ o. IfSome o (λ facts.
            AreExcusing self.now.goal self.now.named.items values.now facts.items)) }
    {
        match self.goal {
            Goal::Any => Ok(Some(Vec::new(alloc))),
            Goal::Least(place) => not_less(alloc, values, place),
            Goal::Greatest(place) => not_more(alloc, values, place),
            Goal::Differing => all_the_same(alloc, values, &self.named),
        }
    }
}
