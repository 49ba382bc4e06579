//! What two facts about one place say together.
ghost use Rattle.std.specs.Prelude.{IsTrue, IfSome};
ghost use Rattle.prop_lattice.specs.Points.{Point, Holds};
ghost use Rattle.prop_facts.specs.Facts.{IsInRange, IsSo};

use prop_facts::Fact;
use prop_lattice::Info;

/// What is left of an information where a fact is so, if one is given.
pub(crate) fn narrowed(info: Info, rest: Option<Fact>) -> Info
    ensures { (p : Point) → IsInRange p → IfSome rest (λ r. IsSo r p) → Holds info p
        → Holds result p }
{
    match rest {
        Some(fact) => fact.narrow(info),
        None => info,
    }
}

/// Whether it can be seen that a fact, and another if one is given, say a third together.
pub(crate) fn say_together(one: Fact, rest: Option<Fact>, fact: Fact) -> bool
    ensures { IsTrue result → (p : Point) → IsInRange p → IsSo one p → IfSome rest (λ r. IsSo r p)
        → IsSo fact p }
{
    one == fact || fact.follows_from(one.narrow(narrowed(one.info(), rest)))
}
