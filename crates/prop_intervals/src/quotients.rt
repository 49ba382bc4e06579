//! Quotients of spans.
ghost use Rattle.std.specs.Prelude.{◌≡◌, ◌^◌, pos, neg_ℤ, ◌≤ℤ◌, ◌<ℤ◌};
ghost use Rattle.prop_intervals.specs.inner.Parts.{least_dividend, greatest_dividend, least_factor};
ghost use Rattle.prop_intervals.specs.Spans.{factors_of, quotient_of};
ghost use Rattle.prop_intervals.specs.inner.Parts.{greatest_factor};

use crate::clipping::clipped;
use crate::wide::{div_ceil, div_floor, product};
use crate::zero::has_zero;
use prop_lattice::{Info, Span};

/// What a number of `y` can be multiplied by to give a number of `z`, all in units of `1 / k` and
/// the product rounded to such a unit, up or down; nothing where `y` holds zero.
pub fn div(z: Span, y: Span, k: i64) -> Info
    requires { (pos 1 ≤ℤ k) × (k ≤ℤ pos 1_000_000_000) }
    ensures { result ≡ quotient_of z y k }
{
    if has_zero(y) {
        return Info::Nothing;
    }
    let (least, greatest) = (smallest_dividend(z, k), largest_dividend(z, k));
    if 0 < y.lo() {
        factors(least, greatest, y.lo(), y.hi())
    } else {
        factors(-greatest, -least, -y.hi(), -y.lo())
    }
}

/// The least number above `k` times the number before the least of `z`.
fn smallest_dividend(z: Span, k: i64) -> i128
    requires { (pos 1 ≤ℤ k) × (k ≤ℤ pos 1_000_000_000) }
    ensures value { result ≡ least_dividend z k }
    ensures least { neg_ℤ (pos (2 ^ 120)) ≤ℤ result }
    ensures greatest { result ≤ℤ pos (2 ^ 120) }
{
    product(k, z.lo() - 1) + 1
}

/// The greatest number below `k` times the number after the greatest of `z`.
fn largest_dividend(z: Span, k: i64) -> i128
    requires { (pos 1 ≤ℤ k) × (k ≤ℤ pos 1_000_000_000) }
    ensures value { result ≡ greatest_dividend z k }
    ensures least { neg_ℤ (pos (2 ^ 120)) ≤ℤ result }
    ensures greatest { result ≤ℤ pos (2 ^ 120) }
{
    product(k, z.hi() + 1) - 1
}

/// The numbers that take a number from `lo` to `hi`, all above zero, to one from `a` to `b`.
fn factors(a: i128, b: i128, lo: i64, hi: i64) -> Info
    requires least { neg_ℤ (pos (2 ^ 126)) ≤ℤ a }
    requires greatest { a ≤ℤ pos (2 ^ 126) }
    requires positive { pos 0 <ℤ lo }
    requires ordered { lo ≤ℤ hi }
    ensures { result ≡ factors_of a b lo hi }
{
    clipped(smallest_factor(a, lo, hi), largest_factor(b, lo, hi))
}

/// The least number that times `lo` or `hi` is at least `a`.
fn smallest_factor(a: i128, lo: i64, hi: i64) -> i128
    requires least { neg_ℤ (pos (2 ^ 126)) ≤ℤ a }
    requires greatest { a ≤ℤ pos (2 ^ 126) }
    requires positive { pos 0 <ℤ lo }
    requires ordered { lo ≤ℤ hi }
    ensures { result ≡ least_factor a lo hi }
{
    if 0 < a {
        div_ceil(a, i128::from(hi))
    } else {
        div_ceil(a, i128::from(lo))
    }
}

/// The greatest number that times `lo` or `hi` is at most `b`.
fn largest_factor(b: i128, lo: i64, hi: i64) -> i128
    requires positive { pos 0 <ℤ lo }
    requires ordered { lo ≤ℤ hi }
    ensures { result ≡ greatest_factor b lo hi }
{
    if 0 <= b {
        div_floor(b, i128::from(lo))
    } else {
        div_floor(b, i128::from(hi))
    }
}
