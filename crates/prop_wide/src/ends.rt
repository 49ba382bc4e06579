//! The ends of what is known of a number, and what two ends tell.
ghost use Rattle.std.specs.Prelude.{◌≡◌, ◌≤ℤ◌, neg_ℤ};
ghost use Rattle.prop_lattice.specs.declared.span.TheConstants.{B};
ghost use Rattle.prop_wide.specs.Ends.{low_of, high_of, known, part_of};

use prop_intervals::clipped;
use prop_lattice::Info;
use prop_lattice::span::B;

/// The least number that an information leaves, the least in range where it is no span.
pub fn low_of(info: Info) -> i64
    ensures value { result ≡ low_of info }
    ensures least { neg_ℤ B ≤ℤ result }
    ensures greatest { result ≤ℤ B }
{
    match info {
        Info::Span(span) => span.lo(),
        _ => -B,
    }
}

/// The greatest number that an information leaves, the greatest in range where it is no span.
pub fn high_of(info: Info) -> i64
    ensures value { result ≡ high_of info }
    ensures least { neg_ℤ B ≤ℤ result }
    ensures greatest { result ≤ℤ B }
{
    match info {
        Info::Span(span) => span.hi(),
        _ => B,
    }
}

/// The numbers in range from `lo` to `hi`, a contradiction where there are none; nothing where
/// these are all numbers in range.
#[tactic(auto, unfolding(crate::specs::Ends::known))]
pub fn known(lo: i128, hi: i128) -> Info
    ensures { result ≡ known lo hi }
{
    if lo <= i128::from(-B) && i128::from(B) <= hi {
        Info::Nothing
    } else {
        clipped(lo, hi)
    }
}

/// The numbers of `x` from `lo` to `hi`, as a span; a contradiction where there are none.
#[tactic(auto, unfolding(crate::specs::Ends::part_of))]
pub(crate) fn part_of(x: Info, lo: i128, hi: i128) -> Info
    ensures { result ≡ part_of x lo hi }
{
    clipped(
        i128::from(low_of(x)).max(lo),
        i128::from(high_of(x)).min(hi),
    )
}
