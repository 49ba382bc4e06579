//! What a trail says of a literal for which it may have no place.
ghost use Rattle.std.specs.Prelude.{◌<◌, ◌↔◌, IsTrue, length};
ghost use Rattle.prop_trail.specs.Sayings.{Says, Bars};

use prop_facts::Literal;
use prop_trail::Trail;

/// Whether the trail has its place, and the fact is so of all values that are left.
pub fn is_so(trail: &Trail, literal: Literal) -> bool
    ensures { IsTrue result ↔ ((literal.place < length trail.now.roots) × Says trail.now literal) }
{
    literal.place < trail.places() && trail.holds(literal)
}

/// Whether the trail has its place, and the fact is so of no value that is left.
pub fn is_barred(trail: &Trail, literal: Literal) -> bool
    ensures { IsTrue result ↔ ((literal.place < length trail.now.roots) × Bars trail.now literal) }
{
    literal.place < trail.places() && trail.bars(literal)
}
