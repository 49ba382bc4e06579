//! Squares and roots by a scale.
ghost use Rattle.std.specs.Prelude.{◌≡◌, ◌≤ℤ◌, ◌<ℤ◌, ◌+ℤ◌, ◌-ℤ◌, ◌*ℤ◌, pos, neg_ℤ, ◌^◌};
ghost use Rattle.prop_intervals.specs.inner.Roots.{least_root, greatest_root};
ghost use Rattle.prop_wide.specs.Squares.{square_of, times_itself, least_square};
ghost use Rattle.prop_wide.specs.Squares.{greatest_square, root_of};

use crate::distances::{absoluter, at_distance};
use crate::ends::{high_of, low_of};
use prop_intervals::mul;
use prop_lattice::Info;

/// What is known of `y` where it is `x * x` in units of `1 / k`, rounded up or down.
pub fn squarer(x: Info, k: i64) -> Info
    requires { (pos 1 ≤ℤ k) × (k ≤ℤ pos 1_000_000_000) }
    ensures { result ≡ square_of k x }
{
    match absoluter(x) {
        Info::Span(distance) => mul(distance, distance, k),
        other => other,
    }
}

/// A number that is one at most out of range, times a scale.
fn scaled(v: i64, k: i64) -> i128
    requires scale { (pos 1 ≤ℤ k) × (k ≤ℤ pos 1_000_000_000) }
    requires least { neg_ℤ (pos 1_000_000_000_000_000_001) ≤ℤ v }
    requires greatest { v ≤ℤ pos 1_000_000_000_000_000_001 }
    ensures value { result ≡ v *ℤ k }
    ensures least { neg_ℤ (pos (2 ^ 90)) ≤ℤ result }
    ensures greatest { result ≤ℤ pos (2 ^ 90) }
{
    i128::from(v) * i128::from(k)
}

/// The least number, not below zero, whose square is at least `m`.
fn smallest_root(m: i128) -> i128
    requires { m ≤ℤ pos (2 ^ 91) }
    ensures value { result ≡ pos (least_root m) }
    ensures bound { result ≤ℤ pos (2 ^ 91) }
{
    if m <= 0 { 0 } else { (m - 1).isqrt() + 1 }
}

/// The greatest number whose square is at most `m`.
fn largest_root(m: i128) -> i128
    requires least { pos 0 ≤ℤ m }
    requires greatest { m ≤ℤ pos (2 ^ 91) }
    ensures value { result ≡ pos (greatest_root m) }
    ensures bound { result ≤ℤ pos (2 ^ 91) }
{
    m.isqrt()
}

/// The least that a square may be which is `y` in units of `1 / k`, rounded up or down.
fn least_square(y: Info, k: i64) -> i128
    requires { (pos 1 ≤ℤ k) × (k ≤ℤ pos 1_000_000_000) }
    ensures value { result ≡ least_square k y }
    ensures least { neg_ℤ (pos (2 ^ 91)) ≤ℤ result }
    ensures greatest { result ≤ℤ pos (2 ^ 91) }
{
    scaled(low_of(y) - 1, k) + 1
}

/// The greatest that a square may be which is `y` in units of `1 / k`, rounded up or down.
fn greatest_square(y: Info, k: i64) -> i128
    requires { (pos 1 ≤ℤ k) × (k ≤ℤ pos 1_000_000_000) }
    ensures value { result ≡ greatest_square k y }
    ensures least { neg_ℤ (pos (2 ^ 91)) ≤ℤ result }
    ensures greatest { result ≤ℤ pos (2 ^ 91) }
{
    scaled(high_of(y) + 1, k) - 1
}

/// What is known of `x` where `y` is `x * x` in units of `1 / k`, rounded up or down, beside what
/// is known of it already.
pub fn rooter(y: Info, x: Info, k: i64) -> Info
    requires { (pos 1 ≤ℤ k) × (k ≤ℤ pos 1_000_000_000) }
    ensures { result ≡ root_of k y x }
{
    let (least, greatest) = (least_square(y, k), greatest_square(y, k));
    if greatest < 0 {
        return Info::Contradiction;
    }
    at_distance(x, smallest_root(least), largest_root(greatest))
}
