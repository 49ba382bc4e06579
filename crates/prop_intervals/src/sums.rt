//! Sums and differences of spans.
ghost use Rattle.std.specs.Prelude.{◌≡◌, ◌+ℤ◌, ◌-ℤ◌};
ghost use Rattle.prop_lattice.specs.Ends.{AreEnds};
ghost use Rattle.prop_intervals.specs.Narrowest.{IsNarrowest};
ghost use Rattle.prop_intervals.specs.Relations.{IsSum, BelongsToTwo};
ghost use Rattle.prop_intervals.specs.Spans.{sum_of, difference_of};

use crate::clipping::clipped;
use prop_lattice::{Info, Span};

/// The sums of a number of `a` and a number of `b`, a contradiction where none is in range.
pub fn add(a: Span, b: Span) -> Info
    ensures value { result ≡ sum_of a b }

    // Where each sum is in range, no narrower information holds them all.
    ensures narrowest { AreEnds (a.lo +ℤ b.lo) (a.hi +ℤ b.hi)
        → IsNarrowest (BelongsToTwo IsSum a b) result }
{
    clipped(i128::from(a.lo() + b.lo()), i128::from(a.hi() + b.hi()))
}

/// The differences of a number of `z` less a number of `x`, a contradiction where none is in range.
pub fn sub(z: Span, x: Span) -> Info
    ensures value { result ≡ difference_of z x }

    // Where each difference is in range, no narrower information holds them all.
    ensures narrowest { AreEnds (z.lo -ℤ x.hi) (z.hi -ℤ x.lo)
        → IsNarrowest (BelongsToTwo (λ sum first second. IsSum first second sum) z x) result }
{
    clipped(i128::from(z.lo() - x.hi()), i128::from(z.hi() - x.lo()))
}
