//! What the rules of the kit compute, a plain function for each.
ghost use Rattle.std.specs.Prelude.{◌≡◌, ◌∷◌, []};
ghost use Rattle.prop_procedures.specs.declared.shape.Param.{Param};
ghost use Rattle.prop_procedures.specs.declared.shape.Param.TheVariants.{Scale};
ghost use Rattle.prop_arith.specs.Values.{value_of};
ghost use Rattle.prop_arith.specs.declared.kit.Kit.TheVariants.{Add, Sub, Mul, Div, Square, Root};
ghost use Rattle.prop_arith.specs.declared.kit.Kit.TheVariants.{Copy};

use prop_intervals::{add, div, mul, root, square, sub};
use prop_lattice::Info;
use prop_procedures::fitting::is_scale;

/// What is known of `x + y`.
pub fn adder(x: Info, y: Info) -> Info
    ensures { (param : Param) → result ≡ value_of Add param (x ∷ y ∷ []) }
{
    match (x, y) {
        (Info::Span(x), Info::Span(y)) => add(x, y),
        _ => Info::Nothing,
    }
}

/// What is known of `y` where `z` is `x + y`.
pub fn subtracter(z: Info, x: Info) -> Info
    ensures { (param : Param) → result ≡ value_of Sub param (z ∷ x ∷ []) }
{
    match (z, x) {
        (Info::Span(z), Info::Span(x)) => sub(z, x),
        _ => Info::Nothing,
    }
}

/// What is known of `z` where it is `x * y` in units of `1 / k`, rounded up or down; nothing where
/// `k` is no scale.
pub fn multiplier(x: Info, y: Info, k: i64) -> Info
    ensures { result ≡ value_of Mul (Scale k) (x ∷ y ∷ []) }
{
    match (x, y) {
        (Info::Span(x), Info::Span(y)) if is_scale(k) => mul(x, y, k),
        _ => Info::Nothing,
    }
}

/// What is known of `x` where `z` is `x * y` in units of `1 / k`, rounded up or down; nothing where
/// `k` is no scale.
pub fn divider(z: Info, y: Info, k: i64) -> Info
    ensures { result ≡ value_of Div (Scale k) (z ∷ y ∷ []) }
{
    match (z, y) {
        (Info::Span(z), Info::Span(y)) if is_scale(k) => div(z, y, k),
        _ => Info::Nothing,
    }
}

/// What is known of `x * x`.
pub fn squarer(x: Info) -> Info
    ensures { (param : Param) → result ≡ value_of Square param (x ∷ []) }
{
    match x {
        Info::Span(x) => square(x),
        _ => Info::Nothing,
    }
}

/// What is known of `x` where `y` is `x * x`, beside what is known of it already.
pub fn rooter(y: Info, x: Info) -> Info
    ensures { (param : Param) → result ≡ value_of Root param (y ∷ x ∷ []) }
{
    match (y, x) {
        (Info::Span(y), Info::Span(x)) => root(y, Some(x)),
        (Info::Span(y), _) => root(y, None),
        _ => Info::Nothing,
    }
}

/// What is known of `y` where it is `x`.
pub fn copier(x: Info) -> Info
    ensures { (param : Param) → result ≡ value_of Copy param (x ∷ []) }
{
    x
}
