//! What the rules of truth compute, a plain function for each.
ghost use Rattle.std.specs.Prelude.{◌≡◌, ◌∷◌, []};
ghost use Rattle.prop_procedures.specs.declared.shape.Param.{Param};
ghost use Rattle.prop_arith.specs.inner.Compared.{is_just};
ghost use Rattle.prop_arith.specs.Values.{value_of};
ghost use Rattle.prop_arith.specs.declared.kit.Kit.TheVariants.{Switch, Not, And, AndBack, Or};
ghost use Rattle.prop_arith.specs.declared.kit.Kit.TheVariants.{OrBack};

use prop_intervals::comparisons::YES;
use prop_lattice::Info;
use prop_sets::{and_back, and3, not2, or_back, or3};

/// Whether an information has just these bits, as `YES` where it is just `yes`.
pub(crate) fn is_just(info: Info, bits: u64) -> bool
    ensures { result ≡ is_just bits info }
{
    match info {
        Info::Set(elements) => elements.bits() == bits,
        _ => false,
    }
}

/// What is known of `y` where it is `x` if `t` is `yes`: nothing while `t` isn't just `yes`.
pub fn passer(t: Info, x: Info) -> Info
    ensures { (param : Param) → result ≡ value_of Switch param (t ∷ x ∷ []) }
{
    if is_just(t, YES) { x } else { Info::Nothing }
}

/// What is known of `not x`.
pub fn inverter(x: Info) -> Info
    ensures { (param : Param) → result ≡ value_of Not param (x ∷ []) }
{
    not2(x)
}

/// What is known of `x and y`.
pub fn conjoiner(x: Info, y: Info) -> Info
    ensures { (param : Param) → result ≡ value_of And param (x ∷ y ∷ []) }
{
    and3(x, y)
}

/// What is known of `x` where `z` is `x and y`.
pub fn conjoin_back(z: Info, y: Info) -> Info
    ensures { (param : Param) → result ≡ value_of AndBack param (z ∷ y ∷ []) }
{
    and_back(z, y)
}

/// What is known of `x or y`.
pub fn disjoiner(x: Info, y: Info) -> Info
    ensures { (param : Param) → result ≡ value_of Or param (x ∷ y ∷ []) }
{
    or3(x, y)
}

/// What is known of `x` where `z` is `x or y`.
pub fn disjoin_back(z: Info, y: Info) -> Info
    ensures { (param : Param) → result ≡ value_of OrBack param (z ∷ y ∷ []) }
{
    or_back(z, y)
}
