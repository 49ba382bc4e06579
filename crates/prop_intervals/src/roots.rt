//! Square roots of spans.
ghost use Rattle.std.specs.Prelude.{◌≡◌, pos, ◌≤ℤ◌};
ghost use Rattle.prop_lattice.specs.declared.span.TheConstants.{B};
ghost use Rattle.prop_intervals.specs.Narrowest.{IsNarrowest};
ghost use Rattle.prop_intervals.specs.Roots.{IsRoot, root_of};
ghost use Rattle.prop_intervals.specs.inner.Roots.{least_root, greatest_root, span_at_distance};
ghost use Rattle.prop_intervals.specs.inner.Roots.{roots_at_distance};

use prop_lattice::span::B;
use prop_lattice::{Info, Span};

/// The narrowest span that holds each number of `x` whose square lies in `y`, of the whole range
/// where there is no `x`; a contradiction where there is no such number.
pub fn root(y: Span, x: Option<Span>) -> Info
    ensures value { result ≡ root_of y x }
    ensures narrowest { IsNarrowest (IsRoot y x) result }
{
    by_distance(y, x)
}

/// The same, by the distances from zero that its numbers have.
fn by_distance(y: Span, x: Option<Span>) -> Info
    ensures { result ≡ roots_at_distance y x }
{
    if y.hi() < 0 {
        return Info::Contradiction;
    }
    let least = smallest_root(y.lo());
    let greatest = largest_root(y.hi());
    match x {
        None => at_distance(least, greatest, -B, B),
        Some(x) => at_distance(least, greatest, x.lo(), x.hi()),
    }
}

/// The least number, not below zero, whose square is at least `m`.
fn smallest_root(m: i64) -> i64
    requires { m ≤ℤ B }
    ensures value { result ≡ pos (least_root m) }
    ensures bound { result ≤ℤ B }
{
    if m <= 0 { 0 } else { (m - 1).isqrt() + 1 }
}

/// The greatest number whose square is at most `m`.
fn largest_root(m: i64) -> i64
    requires least { pos 0 ≤ℤ m }
    requires greatest { m ≤ℤ B }
    ensures value { result ≡ pos (greatest_root m) }
    ensures bound { result ≤ℤ B }
{
    m.isqrt()
}

/// The span of the numbers from `lo` to `hi` at a distance from zero of `least` to `greatest`.
fn at_distance(least: i64, greatest: i64, lo: i64, hi: i64) -> Info
    requires least { pos 0 ≤ℤ least }
    requires greatest { pos 0 ≤ℤ greatest }
    ensures { result ≡ span_at_distance least greatest lo hi }
{
    let (below_first, below_last) = (lo.max(-greatest), hi.min(-least));
    let (above_first, above_last) = (lo.max(least), hi.min(greatest));
    let first = if below_first <= below_last {
        below_first
    } else {
        above_first
    };
    let last = if above_first <= above_last {
        above_last
    } else {
        below_last
    };
    Info::between(first, last)
}
