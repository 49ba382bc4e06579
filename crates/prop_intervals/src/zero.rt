//! Whether zero lies in a span.
ghost use Rattle.std.specs.Prelude.{◌≡◌};
ghost use Rattle.prop_intervals.specs.Spans.{holds_zero};

use prop_lattice::Span;

/// Whether zero is a number of `x`.
pub(crate) fn has_zero(x: Span) -> bool
    ensures { result ≡ holds_zero x }
{
    x.lo() <= 0 && 0 <= x.hi()
}
