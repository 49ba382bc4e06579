//! Products and squares of spans.
ghost use Rattle.std.specs.Prelude.{◌≡◌, ◌^◌, pos, neg_ℤ, ◌≤ℤ◌};
ghost use Rattle.prop_lattice.specs.Ends.{AreEnds};
ghost use Rattle.prop_intervals.specs.Narrowest.{IsNarrowest};
ghost use Rattle.prop_intervals.specs.Quotients.{int_div_ceil};
ghost use Rattle.prop_intervals.specs.inner.Parts.{int_div_floor};
ghost use Rattle.prop_intervals.specs.Relations.{IsProduct, IsSquare, BelongsToOne, BelongsToTwo};
ghost use Rattle.prop_intervals.specs.Spans.{least_product, greatest_product, product_of};
ghost use Rattle.prop_intervals.specs.inner.Parts.{least_square, greatest_square, square_of};

use crate::clipping::clipped;
use crate::wide::{div_ceil, div_floor, product};
use crate::zero::has_zero;
use prop_lattice::{Info, Span};

/// The products of a number of `x` and a number of `y`, both in units of `1 / k`, rounded outwards
/// to such units; a contradiction where none is in range.
pub fn mul(x: Span, y: Span, k: i64) -> Info
    requires { (pos 1 ≤ℤ k) × (k ≤ℤ pos 1_000_000_000) }
    ensures value { result ≡ product_of x y k }

    // Where each of them is in range, no narrower information holds them all.
    ensures narrowest { AreEnds (int_div_floor (least_product x y) k)
        (int_div_ceil (greatest_product x y) k)
        → IsNarrowest (BelongsToTwo (IsProduct k) x y) result }
{
    let low = div_floor(smallest_product(x, y), i128::from(k));
    let high = div_ceil(largest_product(x, y), i128::from(k));
    clipped(low, high)
}

/// The least product of an end of `x` and an end of `y`.
fn smallest_product(x: Span, y: Span) -> i128
    ensures { result ≡ least_product x y }
{
    let low = product(x.lo(), y.lo()).min(product(x.lo(), y.hi()));
    let high = product(x.hi(), y.lo()).min(product(x.hi(), y.hi()));
    low.min(high)
}

/// The greatest product of an end of `x` and an end of `y`.
fn largest_product(x: Span, y: Span) -> i128
    ensures value { result ≡ greatest_product x y }
    ensures least { neg_ℤ (pos (2 ^ 126)) ≤ℤ result }
    ensures greatest { result ≤ℤ pos (2 ^ 126) }
{
    let low = product(x.lo(), y.lo()).max(product(x.lo(), y.hi()));
    let high = product(x.hi(), y.lo()).max(product(x.hi(), y.hi()));
    low.max(high)
}

/// The squares of the numbers of `x`, as a span; a contradiction where none is in range.
pub fn square(x: Span) -> Info
    ensures value { result ≡ square_of x }

    // Where each square is in range, no narrower information holds them all.
    ensures narrowest { AreEnds (least_square x) (greatest_square x)
        → IsNarrowest (BelongsToOne IsSquare x) result }
{
    let low = product(x.lo(), x.lo());
    let high = product(x.hi(), x.hi());
    clipped(smallest_square(x), low.max(high))
}

/// The least square of a number of `x`.
fn smallest_square(x: Span) -> i128
    ensures { result ≡ least_square x }
{
    if has_zero(x) {
        0
    } else {
        product(x.lo(), x.lo()).min(product(x.hi(), x.hi()))
    }
}
