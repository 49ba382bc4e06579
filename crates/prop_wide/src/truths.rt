//! What an information leaves of the truths, and what may be told of one.
ghost use Rattle.std.specs.Prelude.{◌≡◌};
ghost use Rattle.prop_sets.specs.Truth.{leaves};
ghost use Rattle.prop_wide.specs.Truths.{told_of};

use prop_intervals::comparisons::{NO, YES};
use prop_lattice::Info;

/// Whether a truth may be `yes`.
pub fn may_be_yes(info: Info) -> bool
    ensures { result ≡ leaves info 0 }
{
    match info {
        Info::Nothing => true,
        Info::Set(elements) => elements.bits() & 1 == 1,
        _ => false,
    }
}

/// Whether a truth may be `no`.
pub fn may_be_no(info: Info) -> bool
    ensures { result ≡ leaves info 1 }
{
    match info {
        Info::Nothing => true,
        Info::Set(elements) => elements.bits() >> 1 & 1 == 1,
        _ => false,
    }
}

/// A truth that may be `yes` and may be `no` as is said: nothing where it may be both, and a
/// contradiction where it may be neither.
pub fn told(yes: bool, no: bool) -> Info
    ensures { result ≡ told_of yes no }
{
    match (yes, no) {
        (true, true) => Info::Nothing,
        (true, false) => Info::from_bits(YES),
        (false, true) => Info::from_bits(NO),
        (false, false) => Info::Contradiction,
    }
}
