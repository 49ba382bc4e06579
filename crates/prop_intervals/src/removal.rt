//! A span without one number.
ghost use Rattle.std.specs.Prelude.{◌≡◌};
ghost use Rattle.prop_intervals.specs.Comparisons.{IsOther, without_of};
ghost use Rattle.prop_intervals.specs.Narrowest.{IsNarrowest};

use prop_lattice::{Info, Span};

/// The narrowest span that holds the numbers of `y` other than `x`, a contradiction where there are
/// none.
pub fn without(y: Span, x: i64) -> Info
    ensures value { result ≡ without_of y x }
    ensures narrowest { IsNarrowest (IsOther y x) result }
{
    if y.lo() == x {
        Info::between(y.lo() + 1, y.hi())
    } else if y.hi() == x {
        Info::between(y.lo(), y.hi() - 1)
    } else {
        Info::Span(y)
    }
}
