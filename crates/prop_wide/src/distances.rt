//! How far a number is from zero, and back.
ghost use Rattle.std.specs.Prelude.{◌≡◌, ◌≤ℤ◌, pos, neg_ℤ, ◌^◌};
ghost use Rattle.prop_wide.specs.Distances.{abs_of, abs_back_of, at_distance};

use crate::ends::{high_of, low_of, part_of};
use crate::hulls::{hull, narrowed};
use prop_lattice::Info;

/// What is known of how far `x` is from zero.
pub fn absoluter(x: Info) -> Info
    ensures { result ≡ abs_of x }
{
    let low = low_of(x).max(-high_of(x)).max(0);
    let high = high_of(x).max(-low_of(x));
    Info::between(low, high)
}

/// The numbers of `x` that are as far from zero as `near` at least and `far` at most, as a span; a
/// contradiction where there are none.
pub(crate) fn at_distance(x: Info, near: i128, far: i128) -> Info
    requires near { (pos 0 ≤ℤ near) × (near ≤ℤ pos (2 ^ 120)) }
    requires far { far ≤ℤ pos (2 ^ 120) }
    requires from { neg_ℤ (pos (2 ^ 120)) ≤ℤ far }
    ensures { result ≡ at_distance x near far }
{
    narrowed(hull(part_of(x, -far, -near), part_of(x, near, far)))
}

/// What is known of `x` where `y` is how far it is from zero, beside what is known of it already.
pub fn abs_back(y: Info, x: Info) -> Info
    ensures { result ≡ abs_back_of y x }
{
    let (near, far) = (low_of(y).max(0), high_of(y));
    at_distance(x, i128::from(near), i128::from(far))
}
