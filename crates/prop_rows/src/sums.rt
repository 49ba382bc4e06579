//! Sums of products of pairs, and back to one number.
ghost use Rattle.std.specs.Prelude.{◌≡◌, ◌≤◌, ◌*◌, ◌^◌, ◌*ℤ◌, ◌≤ℤ◌, ◌<ℤ◌, neg_ℤ, pos, length, true};
ghost use Rattle.std.specs.Int.{int_max, int_min};
ghost use Rattle.prop_lattice.specs.declared.span.TheConstants.{B};
ghost use Rattle.prop_intervals.specs.Quotients.{int_div_ceil};
ghost use Rattle.prop_intervals.specs.inner.Parts.{int_div_floor};
ghost use Rattle.prop_rows.specs.Sums.{corner, total, sum_of, addend_of, parts_of, shares_of};

use prop_lattice::Info;
use prop_wide::ends::{high_of, known, low_of};

/// The product of two numbers in range.
fn product(a: i64, b: i64) -> i128
    requires a { (neg_ℤ B ≤ℤ a) × (a ≤ℤ B) }
    requires b { (neg_ℤ B ≤ℤ b) × (b ≤ℤ B) }
    ensures value { result ≡ a *ℤ b }
    ensures least { neg_ℤ (pos (10 ^ 36)) ≤ℤ result }
    ensures greatest { result ≤ℤ pos (10 ^ 36) }
{
    i128::from(a) * i128::from(b)
}

/// The least product of a number of `c` and one of `x`.
fn smallest(c: Info, x: Info) -> i128
    ensures value { result ≡ corner int_min c x }
    ensures least { neg_ℤ (pos (10 ^ 36)) ≤ℤ result }
    ensures greatest { result ≤ℤ pos (10 ^ 36) }
{
    let low = product(low_of(c), low_of(x)).min(product(low_of(c), high_of(x)));
    let high = product(high_of(c), low_of(x)).min(product(high_of(c), high_of(x)));
    low.min(high)
}

/// The greatest product of a number of `c` and one of `x`.
fn largest(c: Info, x: Info) -> i128
    ensures value { result ≡ corner int_max c x }
    ensures least { neg_ℤ (pos (10 ^ 36)) ≤ℤ result }
    ensures greatest { result ≤ℤ pos (10 ^ 36) }
{
    let low = product(low_of(c), low_of(x)).max(product(low_of(c), high_of(x)));
    let high = product(high_of(c), low_of(x)).max(product(high_of(c), high_of(x)));
    low.max(high)
}

/// The least and the greatest that the products of pairs sum to.
fn ends(pairs: &[Info]) -> (i128, i128)
    requires few { length pairs.now ≤ 128 }
    ensures least { result.0 ≡ total int_min pairs.now }
    ensures greatest { result.1 ≡ total int_max pairs.now }
    ensures above { neg_ℤ (pos (length pairs.now * (5 * 10 ^ 35))) ≤ℤ result.0 }
    ensures low { result.0 ≤ℤ pos (length pairs.now * (5 * 10 ^ 35)) }
    ensures high { neg_ℤ (pos (length pairs.now * (5 * 10 ^ 35))) ≤ℤ result.1 }
    ensures below { result.1 ≤ℤ pos (length pairs.now * (5 * 10 ^ 35)) }
{
    match pairs {
        [c, x, rest @ ..] => {
            let (low, high) = ends(rest);
            (low + smallest(*c, *x), high + largest(*c, *x))
        }
        _ => (0, 0),
    }
}

/// What is known of the sum of the products of pairs.
pub fn sum(pairs: &[Info]) -> Info
    requires few { length pairs.now ≤ 128 }
    ensures { result ≡ sum_of pairs.now }
{
    let (least, greatest) = ends(pairs);
    known(least, greatest)
}

/// The numbers that times `c`, which is above zero, lie from `a` to `b`.
#[tactic(auto, unfolding(prop_intervals::specs::Quotients::int_div_ceil))]
fn shares(a: i128, b: i128, c: i128) -> Info
    requires above { pos 0 <ℤ c }
    requires least { neg_ℤ (pos (2 ^ 126)) ≤ℤ a }
    requires greatest { a ≤ℤ pos (2 ^ 126) }
    ensures { result ≡ shares_of a b c }
{
    known(-(-a).div_euclid(c), b.div_euclid(c))
}

/// The same of any `c` in range: each number, or none, where it is zero.
fn parts(a: i128, b: i128, c: i128) -> Info
    requires least { (neg_ℤ (pos (2 ^ 126)) ≤ℤ a) × (neg_ℤ (pos (2 ^ 126)) ≤ℤ b) }
    requires greatest { (a ≤ℤ pos (2 ^ 126)) × (b ≤ℤ pos (2 ^ 126)) }
    requires factor { (neg_ℤ B ≤ℤ c) × (c ≤ℤ B) }
    ensures { result ≡ parts_of a b c }
{
    if 0 < c {
        shares(a, b, c)
    } else if c < 0 {
        shares(-b, -a, -c)
    } else if a <= 0 && 0 <= b {
        Info::Nothing
    } else {
        Info::Contradiction
    }
}

/// What is known of the number that times `c` adds to the products of pairs what `z` lacks; nothing
/// where `c` isn't known.
pub fn addend(z: Info, c: Info, pairs: &[Info]) -> Info
    requires few { length pairs.now ≤ 126 }
    ensures { result ≡ addend_of z c pairs.now }
{
    if low_of(c) == high_of(c) {
        let (least, greatest) = ends(pairs);
        let low = i128::from(low_of(z)) - greatest;
        let high = i128::from(high_of(z)) - least;
        parts(low, high, i128::from(low_of(c)))
    } else {
        Info::Nothing
    }
}
