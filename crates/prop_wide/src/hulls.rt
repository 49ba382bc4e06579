//! What one or the other of two informations leaves.
ghost use Rattle.std.specs.Prelude.{◌≡◌};
ghost use Rattle.prop_wide.specs.Hulls.{hull_of, narrowed};

use crate::ends::known;
use prop_lattice::Info;

/// The most that can be said of a value of which one of the two informations is true.
pub fn hull(a: Info, b: Info) -> Info
    ensures { result ≡ hull_of a b }
{
    match (a, b) {
        (Info::Contradiction, other) | (other, Info::Contradiction) => other,
        (Info::Span(a), Info::Span(b)) => Info::between(a.lo().min(b.lo()), a.hi().max(b.hi())),
        (Info::Set(a), Info::Set(b)) => Info::from_bits(a.bits() | b.bits()),
        (Info::Sym(a), Info::Sym(b)) if a == b => Info::Sym(a),
        _ => Info::Nothing,
    }
}

/// The same information, nothing where it is a span of all numbers in range.
pub fn narrowed(info: Info) -> Info
    ensures { result ≡ narrowed info }
{
    match info {
        Info::Span(span) => known(i128::from(span.lo()), i128::from(span.hi())),
        _ => info,
    }
}
