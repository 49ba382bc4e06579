//! The greatest and the least of some numbers, and back to one of them.
ghost use Rattle.std.specs.Prelude.{◌≡◌};
ghost use Rattle.prop_rows.specs.Extremes.{bottom, greatest_of, greatest_back_of, least_of};
ghost use Rattle.prop_rows.specs.Extremes.{least_back_of, top};
ghost use Rattle.prop_wide.specs.Ends.{high_of, low_of};

use prop_lattice::Info;
use prop_lattice::span::B;
use prop_wide::ends::{high_of, known, low_of};

/// The greatest of the lower ends of some numbers, the least in range where there are none.
fn top_low(numbers: &[Info]) -> i64
    ensures { result ≡ top low_of numbers.now }
{
    match numbers {
        [number, rest @ ..] => {
            let others = top_low(rest);
            low_of(*number).max(others)
        }
        _ => -B,
    }
}

/// The greatest of the upper ends of some numbers, the least in range where there are none.
fn top_high(numbers: &[Info]) -> i64
    ensures { result ≡ top high_of numbers.now }
{
    match numbers {
        [number, rest @ ..] => {
            let others = top_high(rest);
            high_of(*number).max(others)
        }
        _ => -B,
    }
}

/// The least of the lower ends of some numbers, the greatest in range where there are none.
fn bottom_low(numbers: &[Info]) -> i64
    ensures { result ≡ bottom low_of numbers.now }
{
    match numbers {
        [number, rest @ ..] => {
            let others = bottom_low(rest);
            low_of(*number).min(others)
        }
        _ => B,
    }
}

/// The least of the upper ends of some numbers, the greatest in range where there are none.
fn bottom_high(numbers: &[Info]) -> i64
    ensures { result ≡ bottom high_of numbers.now }
{
    match numbers {
        [number, rest @ ..] => {
            let others = bottom_high(rest);
            high_of(*number).min(others)
        }
        _ => B,
    }
}

/// What is known of the greatest of some numbers.
pub fn greatest(numbers: &[Info]) -> Info
    ensures { result ≡ greatest_of numbers.now }
{
    known(i128::from(top_low(numbers)), i128::from(top_high(numbers)))
}

/// What is known of a number where `z` is the greatest of it and the others.
pub fn greatest_back(z: Info, others: &[Info]) -> Info
    ensures { result ≡ greatest_back_of z others.now }
{
    if high_of(z) < top_low(others) {
        return Info::Contradiction;
    }
    let from = if top_high(others) < low_of(z) {
        low_of(z)
    } else {
        -B
    };
    known(i128::from(from), i128::from(high_of(z)))
}

/// What is known of the least of some numbers.
pub fn least(numbers: &[Info]) -> Info
    ensures { result ≡ least_of numbers.now }
{
    known(
        i128::from(bottom_low(numbers)),
        i128::from(bottom_high(numbers)),
    )
}

/// What is known of a number where `z` is the least of it and the others.
pub fn least_back(z: Info, others: &[Info]) -> Info
    ensures { result ≡ least_back_of z others.now }
{
    if bottom_high(others) < low_of(z) {
        return Info::Contradiction;
    }
    let to = if high_of(z) < bottom_low(others) {
        high_of(z)
    } else {
        B
    };
    known(i128::from(low_of(z)), i128::from(to))
}
