//! Ends of numbers, as nearer ends and numbers that aren't so; and numbers, as two ends.
ghost use Rattle.std.specs.Prelude.{◌≡◌, ◌<◌, ◌≤◌, ◌∷◌, ◌++◌, ◌+ℤ◌, ◌-ℤ◌, ℤ, ℕ, pos, List, length};
ghost use Rattle.std.specs.Prelude.{true, false, Ok, Some, OnErr, OnOk, IfOk, IfSome, FitsSigned};
ghost use Rattle.std.specs.Prelude.{slice_get};
ghost use Rattle.std.specs.Int.{w64};
ghost use Rattle.prop_premises.specs.declared.choice.Choice.{Choice};
ghost use Rattle.prop_procedures.specs.Stored.{Stored};
ghost use Rattle.prop_cells.specs.Points.{Attached};
ghost use Rattle.prop_facts.specs.declared.fact.Literal.{Literal as LiteralOf};
ghost use Rattle.prop_refuting.specs.Nogoods.{Narrows, Replaces};
ghost use Rattle.prop_refuting.specs.Steps.{ByEnds, ByHoles, holes_at};

use crate::nogood::{Nogood, push_said};
use prop_facts::{Fact, Literal};
use std::alloc::AllocError;

/// How many numbers one step may leave out.
const MOST: i64 = 256;

/// How far the second number is above the first, from 1 to 256.
fn gap(low: i64, high: i64) -> Option<usize>
    ensures gap { IfSome result (λ k. high ≡ low +ℤ pos k) }
    ensures some { IfSome result (λ k. 1 ≤ k) }
    ensures most { IfSome result (λ k. k ≤ 256) }
{
    match high.checked_sub(low) {
        Some(gap) if 0 < gap && gap <= MOST => Some(gap as usize),
        _ => None,
    }
}

/// That the value of the place is none of so many numbers in a row.
fn push_holes(
    literals: &mut Vec<Literal>,
    place: usize,
    first: i64,
    count: usize,
) -> Result<(), AllocError>
    requires count { count ≤ 256 }
    requires last { FitsSigned w64 ((first +ℤ pos count) -ℤ pos 1) }
    ensures { OnOk result (literals.new.items ≡ literals.old.items ++ holes_at place first count) }
{
    for i in 0..count {
        let fact = Fact::Other(first + i as i64);
        literals.push(Literal { place, fact })?;
    }
    Ok(())
}

impl Nogood {
    /// Where a literal says that its value is no less than a number, up to 256 above `from`, it
    /// goes, the last one stands in its place, that the value is no less than `from` comes, and
    /// that it isn't `from` nor any further number below; and likewise of a value that is no more
    /// than a number up to 256 below `from`. Then the answer is true. Otherwise, and where memory
    /// is refused, nothing changes.
    pub fn by_holes(&mut self, at: usize, from: i64) -> Result<bool, AllocError>
        requires at { at < length self.old.literals }
        ensures err { OnErr result (self.new ≡ self.old) }
        ensures still { result ≡ Ok false → self.new ≡ self.old }
        ensures step { result ≡ Ok true → (x : LiteralOf) → slice_get self.old.literals at ≡ Some x
            → ByHoles self.old at x from self.new }
        ensures narrows { (library : List Stored) (n : Attached) (choices : List Choice)
            → Narrows library n choices self.old self.new }
    {
        let literal = self.literals()[at];
        match literal.fact {
            Fact::AtLeast(n) => match gap(from, n) {
                Some(count) => self.replace_by_holes(at, Fact::AtLeast(from), from, count),
                None => Ok(false),
            },
            Fact::AtMost(n) => match gap(n, from) {
                Some(count) => self.replace_by_holes(at, Fact::AtMost(from), n + 1, count),
                None => Ok(false),
            },
            _ => Ok(false),
        }
    }

    /// Where a literal says that its value is a number, it goes, the last one stands in its place,
    /// and that the value is no less than the number and that it is no more come. Then the answer
    /// is true. Otherwise, and where memory is refused, nothing changes.
    pub fn by_ends(&mut self, at: usize) -> Result<bool, AllocError>
        requires at { at < length self.old.literals }
        ensures err { OnErr result (self.new ≡ self.old) }
        ensures still { result ≡ Ok false → self.new ≡ self.old }
        ensures step { result ≡ Ok true → (x : LiteralOf) → slice_get self.old.literals at ≡ Some x
            → ByEnds self.old at x self.new }
        ensures narrows { (library : List Stored) (n : Attached) (choices : List Choice)
            → Narrows library n choices self.old self.new }
    {
        let literal = self.literals()[at];
        let Fact::Is(n) = literal.fact else {
            return Ok(false);
        };
        let mut more = Vec::new(self.alloc());
        push_said(&mut more, literal.place, Some(Fact::AtLeast(n)))?;
        push_said(&mut more, literal.place, Some(Fact::AtMost(n)))?;
        self.replace(at, &more)?;
        Ok(true)
    }

    /// A literal goes for a fact about its place and so many numbers in a row that aren't so.
    fn replace_by_holes(
        &mut self,
        at: usize,
        fact: Fact,
        first: i64,
        count: usize,
    ) -> Result<bool, AllocError>
        requires at { at < length self.old.literals }
        requires count { count ≤ 256 }
        requires last { FitsSigned w64 ((first +ℤ pos count) -ℤ pos 1) }
        ensures err { OnErr result (self.new ≡ self.old) }
        ensures ok { IfOk result (λ stepped. stepped ≡ true) }
        ensures step { OnOk result ((x : LiteralOf) → slice_get self.old.literals at ≡ Some x
            → Replaces self.old at
            (record { place = x.place; fact = fact } ∷ holes_at x.place first count) self.new) }
    {
        let place = self.literals()[at].place;
        let mut more = Vec::new(self.alloc());
        more.push(Literal { place, fact })?;
        push_holes(&mut more, place, first, count)?;
        self.replace(at, &more)?;
        Ok(true)
    }
}
