//! Comparisons of spans.
ghost use Rattle.std.specs.Prelude.{◌≡◌};
ghost use Rattle.prop_intervals.specs.inner.Parts.{less_of, below_of, above_of};

use prop_lattice::span::B;
use prop_lattice::{Elements, Info, Span};

/// The bits of the truth `yes` alone, which is element 0 of its domain.
pub const YES: u64 = 1;

/// The bits of the truth `no` alone, which is element 1 of its domain.
pub const NO: u64 = 2;

/// Whether a number of `x` is less than one of `y`: a truth, or nothing where that depends on the
/// numbers.
pub fn less(x: Span, y: Span) -> Info
    ensures { result ≡ less_of x y }
{
    if x.hi() < y.lo() {
        Info::from_bits(YES)
    } else if y.hi() <= x.lo() {
        Info::from_bits(NO)
    } else {
        Info::Nothing
    }
}

/// The numbers that are less than a number of `y` where `t` is `yes`, and those that are not less
/// than one where it is `no`; else nothing.
pub fn below(t: Elements, y: Span) -> Info
    ensures { result ≡ below_of t y }
{
    match t.bits() {
        YES => Info::between(-B, y.hi() - 1),
        NO => Info::between(y.lo(), B),
        _ => Info::Nothing,
    }
}

/// The numbers than which a number of `x` is less where `t` is `yes`, and those than which one is
/// not less where it is `no`; else nothing.
pub fn above(t: Elements, x: Span) -> Info
    ensures { result ≡ above_of t x }
{
    match t.bits() {
        YES => Info::between(x.lo() + 1, B),
        NO => Info::between(-B, x.hi()),
        _ => Info::Nothing,
    }
}
