//! Spans of what is made of numbers of spans, where they are in range.
ghost use Rattle.std.specs.Prelude.{◌≡◌, neg_ℤ, pos, ◌^◌, ◌≤ℤ◌, ◌+ℤ◌, ◌-ℤ◌, ◌*ℤ◌, IfSome};
ghost use Rattle.std.specs.Prelude.{ℤ, IsTrue};
ghost use Rattle.std.specs.Int.{int_max, int_min};
ghost use Rattle.prop_intervals.specs.Spans.{least_product, greatest_product};
ghost use Rattle.prop_lattice.specs.declared.span.TheConstants.{B};
ghost use Rattle.prop_meaning.specs.Words.{Lies};
ghost use Rattle.prop_meaning.specs.inner.Spans.{HoldsOne, HoldsTwo, HoldsQuotients, HoldsLeft};
ghost use Rattle.prop_meaning.specs.inner.Spans.{HoldsMultiples};

use prop_lattice::span::B;
use prop_lattice::{Info, Span};
use prop_wide::quotienter;

/// The span between two numbers, where it is in range.
fn between(lo: i128, hi: i128) -> Option<Span>
    ensures { IfSome result (λ s. (s.lo ≡ lo) × (s.hi ≡ hi)) }
{
    if lo < i128::from(-B) || hi > i128::from(B) {
        return None;
    }
    if lo > hi {
        return None;
    }
    Span::new(lo as i64, hi as i64)
}

pub(crate) fn sum(x: Span, y: Span) -> Option<Span>
    ensures { IfSome result (HoldsTwo (λ u v. u +ℤ v) x y) }
{
    Span::new(x.lo() + y.lo(), x.hi() + y.hi())
}

pub(crate) fn difference(x: Span, y: Span) -> Option<Span>
    ensures { IfSome result (HoldsTwo (λ u v. u -ℤ v) x y) }
{
    Span::new(x.lo() - y.hi(), x.hi() - y.lo())
}

pub(crate) fn larger(x: Span, y: Span) -> Option<Span>
    ensures { IfSome result (HoldsTwo int_max x y) }
{
    Span::new(x.lo().max(y.lo()), x.hi().max(y.hi()))
}

pub(crate) fn smaller(x: Span, y: Span) -> Option<Span>
    ensures { IfSome result (HoldsTwo int_min x y) }
{
    Span::new(x.lo().min(y.lo()), x.hi().min(y.hi()))
}

/// How far the numbers of a span are from zero.
pub(crate) fn distance(x: Span) -> Option<Span>
    ensures { IfSome result (HoldsOne (λ u. int_max u (neg_ℤ u)) x) }
{
    Span::new(x.lo().max(-x.hi()).max(0), x.hi().max(-x.lo()))
}

/// The span of both.
pub(crate) fn either(x: Span, y: Span) -> Option<Span>
    ensures first { IfSome result (HoldsOne (λ u. u) x) }
    ensures second { IfSome result (HoldsOne (λ u. u) y) }
{
    Span::new(x.lo().min(y.lo()), x.hi().max(y.hi()))
}

/// The product of two numbers.
fn multiplied(a: i64, b: i64) -> i128
    ensures { result ≡ a *ℤ b }
{
    i128::from(a) * i128::from(b)
}

/// The least product of an end of `x` and an end of `y`.
fn smallest_product(x: Span, y: Span) -> i128
    ensures { result ≡ least_product x y }
{
    let low = multiplied(x.lo(), y.lo()).min(multiplied(x.lo(), y.hi()));
    let high = multiplied(x.hi(), y.lo()).min(multiplied(x.hi(), y.hi()));
    low.min(high)
}

/// The greatest product of an end of `x` and an end of `y`.
fn largest_product(x: Span, y: Span) -> i128
    ensures { result ≡ greatest_product x y }
{
    let low = multiplied(x.lo(), y.lo()).max(multiplied(x.lo(), y.hi()));
    let high = multiplied(x.hi(), y.lo()).max(multiplied(x.hi(), y.hi()));
    low.max(high)
}

/// What divisions by the numbers of a span may leave.
pub(crate) fn left_by(y: Span) -> Option<Span>
    ensures { IfSome result (HoldsLeft y) }
{
    Span::new((y.lo() + 1).min(0), (y.hi() - 1).max(0))
}

/// What is as far from zero as a number may be.
fn farthest() -> Option<Span>
    ensures { IfSome result (λ s. (s.lo ≡ neg_ℤ B) × (s.hi ≡ B)) }
{
    Span::new(-B, B)
}

/// The quotients of numbers of `x` by those of `y`.
pub(crate) fn quotient(x: Span, y: Span) -> Option<Span>
    ensures { IfSome result (HoldsQuotients x y) }
{
    match quotienter(Info::Span(x), Info::Span(y)) {
        Info::Span(span) => Some(span),
        _ => farthest(),
    }
}

/// What these quotients are times the numbers of `y`.
pub(crate) fn multiple(x: Span, y: Span) -> Option<Span>
    ensures { IfSome result (HoldsMultiples x y) }
{
    match left_by(y) {
        Some(left) => difference(x, left),
        None => None,
    }
}

/// Whether zero is none of the numbers.
pub(crate) fn is_without_zero(y: Span) -> bool
    ensures { IsTrue result → (v : ℤ) → Lies y v → v ≡ pos 0 → ⊥ }
{
    y.hi() < 0 || 0 < y.lo()
}

pub(crate) fn product(x: Span, y: Span) -> Option<Span>
    ensures { IfSome result (HoldsTwo (λ u v. u *ℤ v) x y) }
{
    between(smallest_product(x, y), largest_product(x, y))
}
