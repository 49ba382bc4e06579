//! Spans cut off at the largest magnitude.
ghost use Rattle.std.specs.Prelude.{◌≡◌};
ghost use Rattle.prop_intervals.specs.Clip.{clip};

use prop_lattice::Info;
use prop_lattice::span::B;

/// The numbers from `lo` to `hi` of magnitude at most `B`, a contradiction where there are none.
pub fn clipped(lo: i128, hi: i128) -> Info
    ensures { result ≡ clip lo hi }
{
    let lo = lo.max(i128::from(-B));
    let hi = hi.min(i128::from(B));
    if lo <= hi {
        Info::between(lo as i64, hi as i64)
    } else {
        Info::Contradiction
    }
}
