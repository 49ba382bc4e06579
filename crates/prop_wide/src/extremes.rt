//! The larger and the smaller of two numbers, and back.
ghost use Rattle.std.specs.Prelude.{◌≡◌};
ghost use Rattle.prop_wide.specs.Extremes.{max_of, max_back_of, min_of, min_back_of};

use crate::ends::{high_of, known, low_of};
use prop_lattice::Info;
use prop_lattice::span::B;

/// What is known of the larger of `x` and `y`.
pub fn maximizer(x: Info, y: Info) -> Info
    ensures { result ≡ max_of x y }
{
    let low = low_of(x).max(low_of(y));
    let high = high_of(x).max(high_of(y));
    known(i128::from(low), i128::from(high))
}

/// What is known of `x` where `z` is the larger of `x` and `y`.
pub fn max_back(z: Info, y: Info) -> Info
    ensures { result ≡ max_back_of z y }
{
    if high_of(z) < low_of(y) {
        return Info::Contradiction;
    }
    let low = if high_of(y) < low_of(z) {
        low_of(z)
    } else {
        -B
    };
    known(i128::from(low), i128::from(high_of(z)))
}

/// What is known of the smaller of `x` and `y`.
pub fn minimizer(x: Info, y: Info) -> Info
    ensures { result ≡ min_of x y }
{
    let low = low_of(x).min(low_of(y));
    let high = high_of(x).min(high_of(y));
    known(i128::from(low), i128::from(high))
}

/// What is known of `x` where `z` is the smaller of `x` and `y`.
pub fn min_back(z: Info, y: Info) -> Info
    ensures { result ≡ min_back_of z y }
{
    if high_of(y) < low_of(z) {
        return Info::Contradiction;
    }
    let high = if high_of(z) < low_of(y) {
        high_of(z)
    } else {
        B
    };
    known(i128::from(low_of(z)), i128::from(high))
}
