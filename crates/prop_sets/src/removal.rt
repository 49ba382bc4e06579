//! A set without one element.
ghost use Rattle.std.specs.Prelude.{◌≡◌, ◌<◌, ℕ};
ghost use Rattle.prop_sets.specs.Promises.{IsMonotone};
ghost use Rattle.prop_sets.specs.Narrowest.{IsNarrowest};
ghost use Rattle.prop_sets.specs.Others.{IsOther, without_of};

use prop_lattice::{Elements, Info};

/// The elements of `y` other than `x`, a contradiction where there are none. `x` is from 0 to 63.
pub fn without(y: Elements, x: u8) -> Info
    requires { x < 64 }
    ensures value { result ≡ without_of y x }
    ensures narrowest { IsNarrowest (IsOther y x) result }
{
    Info::from_bits(y.bits() & !(1 << x))
}

/// A law: of fewer elements there are fewer others, so who knows more is answered more.
pub fn others_are_monotone()
    ensures { (x : ℕ) → IsMonotone (λ y. without_of y x) }
{}
