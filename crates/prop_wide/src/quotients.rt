//! Quotients that are rounded down, what they leave, and back to the divisor.
ghost use Rattle.std.specs.Prelude.{◌≡◌, ◌≤ℤ◌, ◌<ℤ◌, pos, neg_ℤ, ◌^◌};
ghost use Rattle.prop_intervals.specs.inner.Parts.{int_div_floor};
ghost use Rattle.prop_wide.specs.Quotients.{least_quotient, greatest_quotient, quotients_of};
ghost use Rattle.prop_wide.specs.Quotients.{quotient_of, is_zero, remainder_of};
ghost use Rattle.prop_wide.specs.Quotients.{divisors_above};
ghost use Rattle.prop_wide.specs.Quotients.{divisors_below, divisor_of};

use crate::ends::{high_of, known, low_of, part_of};
use crate::hulls::{hull, narrowed};
use prop_intervals::clipped;
use prop_lattice::Info;
use prop_lattice::span::B;

/// The quotient rounded down.
fn floor(a: i128, d: i128) -> i128
    requires { pos 0 <ℤ d }
    ensures { result ≡ int_div_floor a d }
{
    a.div_euclid(d)
}

/// The least quotient of `lo` by a number from `first` to `last`.
fn least_quotient(lo: i128, first: i128, last: i128) -> i128
    requires { (pos 0 <ℤ first) × (first ≤ℤ last) }
    ensures { result ≡ least_quotient lo first last }
{
    if 0 <= lo {
        floor(lo, last)
    } else {
        floor(lo, first)
    }
}

/// The greatest quotient of `hi` by a number from `first` to `last`.
fn greatest_quotient(hi: i128, first: i128, last: i128) -> i128
    requires { (pos 0 <ℤ first) × (first ≤ℤ last) }
    ensures { result ≡ greatest_quotient hi first last }
{
    if 0 <= hi {
        floor(hi, first)
    } else {
        floor(hi, last)
    }
}

/// The quotients of the numbers from `lo` to `hi` by those from `first` to `last`, as a span; a
/// contradiction where there are none.
#[tactic(auto, unfolding(crate::specs::Quotients::quotients_of))]
fn quotients(lo: i128, hi: i128, first: i128, last: i128) -> Info
    requires { pos 0 <ℤ first }
    ensures { result ≡ quotients_of lo hi first last }
{
    if last < first {
        return Info::Contradiction;
    }
    clipped(
        least_quotient(lo, first, last),
        greatest_quotient(hi, first, last),
    )
}

/// What is known of `x / y`, rounded down; a contradiction where `y` is zero.
pub fn quotienter(x: Info, y: Info) -> Info
    ensures { result ≡ quotient_of x y }
{
    let (least, greatest) = (i128::from(low_of(x)), i128::from(high_of(x)));
    let (first, last) = (i128::from(low_of(y)), i128::from(high_of(y)));
    let above = quotients(least, greatest, first.max(1), last);
    let below = quotients(-greatest, -least, (-last).max(1), -first);
    narrowed(hull(above, below))
}

/// Whether a number from `lo` to `hi` is zero.
fn is_zero(lo: i64, hi: i64) -> bool
    ensures { result ≡ is_zero lo hi }
{
    0 <= lo && hi <= 0
}

/// What is known of what a division by `y` leaves; a contradiction where `y` is zero.
pub fn remainderer(y: Info) -> Info
    ensures { result ≡ remainder_of y }
{
    let (low, high) = (low_of(y), high_of(y));
    if is_zero(low, high) {
        return Info::Contradiction;
    }
    known(i128::from((low + 1).min(0)), i128::from((high - 1).max(0)))
}

/// The numbers of `y` above zero that may leave `r`.
fn divisors_above(r: Info, y: Info) -> Info
    ensures { result ≡ divisors_above r y }
{
    if high_of(r) < 0 {
        return Info::Contradiction;
    }
    part_of(y, i128::from(low_of(r).max(0) + 1), i128::from(B))
}

/// The numbers of `y` below zero that may leave `r`.
fn divisors_below(r: Info, y: Info) -> Info
    ensures { result ≡ divisors_below r y }
{
    if 0 < low_of(r) {
        return Info::Contradiction;
    }
    part_of(y, i128::from(-B), i128::from(high_of(r).min(0) - 1))
}

/// What is known of `y`, beside what is known of it already, where a division by it may leave `r`:
/// it isn't zero, and further from zero than `r`.
pub fn divisor_back(r: Info, y: Info) -> Info
    ensures { result ≡ divisor_of r y }
{
    narrowed(hull(divisors_above(r, y), divisors_below(r, y)))
}
