//! Facts that the rest of another nogood says.
ghost use Rattle.std.specs.Prelude.{◌≡◌, ◌<◌, ◌+◌, ◌++◌, List, length, true, false, Ok, Some};
ghost use Rattle.std.specs.Prelude.{OnErr, drop, slice_get, take, ◌⊎◌, IsTrue, IfSome};
ghost use Rattle.prop_lattice.specs.Points.{IsPointOf, Point};
ghost use Rattle.prop_facts.specs.Facts.{IsSo};
ghost use Rattle.prop_premises.specs.declared.choice.Choice.{Choice};
ghost use Rattle.prop_procedures.specs.Stored.{Stored};
ghost use Rattle.prop_cells.specs.Points.{Attached};
ghost use Rattle.prop_facts.specs.declared.fact.Literal.{Literal as LiteralOf};
ghost use Rattle.prop_refuting.specs.Nogoods.{ReplacesUnder, Resolves, said_at};
ghost use Rattle.prop_refuting.specs.Places.{kind_at_place};

use crate::nogood::{Nogood, push_said};
use crate::pairs::say_together;
use prop_facts::{Fact, Literal};
use prop_procedures::Kinded;
use std::alloc::AllocError;

impl Nogood {
    /// Where the literal with the number `which` of another nogood is about the same place, and its
    /// denial says the fact of the literal with the number `at`, together with the rest: that one
    /// goes, the last one stands in its place, the other literals of the other nogood, the rest and
    /// the other's premises come, and the answer is true. `kind` is that of the place. Otherwise,
    /// and where memory is refused, nothing changes.
    pub fn by_nogood(
        &mut self,
        at: usize,
        other: &Nogood,
        which: usize,
        rest: Option<Fact>,
        kind: Kinded,
    ) -> Result<bool, AllocError>
        requires at { at < length self.old.literals }
        requires which { which < length other.now.literals }
        ensures err { OnErr result (self.new ≡ self.old) }
        ensures still { result ≡ Ok false → self.new ≡ self.old }
        ensures step { result ≡ Ok true → (x : LiteralOf) → slice_get self.old.literals at ≡ Some x
            → ReplacesUnder self.old at
            (take which other.now.literals ++ drop (which + 1) other.now.literals
            ++ said_at x.place rest)
            other.now.premises self.new }
        ensures resolves { (library : List Stored) (n : Attached) (choices : List Choice)
            (x : LiteralOf) → slice_get self.old.literals at ≡ Some x
            → kind_at_place n choices x.place ≡ Some kind
            → Resolves library n choices self.old other.now self.new }
    {
        let literal = self.literals()[at];
        if !denial_says(other.literals()[which], literal, rest, kind) {
            return Ok(false);
        }
        let mut more = Vec::from_slice(self.alloc(), &other.literals()[..which])?;
        more.extend_from_slice(&other.literals()[which + 1..])?;
        push_said(&mut more, literal.place, rest)?;
        self.replace_under(at, &more, other.premises())?;
        Ok(true)
    }
}

/// Whether both literals are about the same place, and the denial of the first says the second
/// together with the rest.
pub(crate) fn denial_says(
    denied: Literal,
    literal: Literal,
    rest: Option<Fact>,
    kind: Kinded,
) -> bool
    ensures { IsTrue result → (denied.place ≡ literal.place) × ((p : Point)
        → IsPointOf kind.kind kind.size p → IfSome rest (λ r. IsSo r p)
        → IsSo literal.fact p ⊎ IsSo denied.fact p) }
{
    if denied.place != literal.place || !denied.fact.is_of(kind.kind) {
        return false;
    }
    match denied.fact.negation(kind.size) {
        Some(denial) => say_together(denial, rest, literal.fact),
        None => false,
    }
}
