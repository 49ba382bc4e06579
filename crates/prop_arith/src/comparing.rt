//! What the rules that compare compute, a plain function for each.
ghost use Rattle.std.specs.Prelude.{◌≡◌, ◌<◌, ◌∷◌, []};
ghost use Rattle.prop_lattice.specs.Order.{merge_of, is_contradiction};
ghost use Rattle.prop_procedures.specs.declared.shape.Param.{Param};
ghost use Rattle.prop_arith.specs.Comparing.{is_single, others_of};
ghost use Rattle.prop_arith.specs.inner.Compared.{first_element};
ghost use Rattle.prop_arith.specs.Values.{value_of};
ghost use Rattle.prop_arith.specs.declared.kit.Kit.TheVariants.{Less, Below, Above, Alike, Apart};

use crate::logic::is_just;
use prop_intervals::comparisons::{NO, YES};
use prop_intervals::less;
use prop_lattice::{Elements, Info, Partial, Span};

/// What is known of whether `x < y`.
pub fn lesser(x: Info, y: Info) -> Info
    ensures { (param : Param) → result ≡ value_of Less param (x ∷ y ∷ []) }
{
    match (x, y) {
        (Info::Span(x), Info::Span(y)) => less(x, y),
        _ => Info::Nothing,
    }
}

/// What is known of `x` where `t` says whether `x < y`.
pub fn below(t: Info, y: Info) -> Info
    ensures { (param : Param) → result ≡ value_of Below param (t ∷ y ∷ []) }
{
    match (t, y) {
        (Info::Set(t), Info::Span(y)) => prop_intervals::below(t, y),
        _ => Info::Nothing,
    }
}

/// What is known of `y` where `t` says whether `x < y`.
pub fn above(t: Info, x: Info) -> Info
    ensures { (param : Param) → result ≡ value_of Above param (t ∷ x ∷ []) }
{
    match (t, x) {
        (Info::Set(t), Info::Span(x)) => prop_intervals::above(t, x),
        _ => Info::Nothing,
    }
}

/// Whether two informations share no point.
fn are_apart(x: Info, y: Info) -> bool
    ensures { result ≡ is_contradiction (merge_of x y) }
{
    let both = x.merge(y);
    matches!(&both, Info::Contradiction)
}

/// Whether an information leaves one point alone: one number, one element or a symbol.
fn is_single(info: Info) -> bool
    ensures { result ≡ is_single info }
{
    match info {
        Info::Span(span) => span.lo() == span.hi(),
        Info::Set(elements) => elements.bits().count_ones() == 1,
        Info::Sym(_) => true,
        Info::Nothing | Info::Contradiction => false,
    }
}

/// What is known of whether `x` and `y` are the same: `no` where they share no point, `yes` where
/// each leaves one point, which is then the same, and else nothing.
pub fn comparer(x: Info, y: Info) -> Info
    ensures { (param : Param) → result ≡ value_of Alike param (x ∷ y ∷ []) }
{
    if are_apart(x, y) {
        Info::from_bits(NO)
    } else if is_single(x) && is_single(y) {
        Info::from_bits(YES)
    } else {
        Info::Nothing
    }
}

/// The first of some elements.
fn first_element(elements: Elements) -> u8
    ensures value { result ≡ first_element elements }
    ensures element { result < 64 }
{
    elements.bits().trailing_zeros() as u8
}

/// `y` without the number that `x` is, nothing where `x` has several.
fn other_numbers(x: Span, y: Span) -> Info
    ensures { result ≡ others_of (Info.Span x) (Info.Span y) }
{
    if x.lo() == x.hi() {
        prop_intervals::without(y, x.lo())
    } else {
        Info::Nothing
    }
}

/// `y` without the element that `x` is, nothing where `x` has several.
fn other_elements(x: Elements, y: Elements) -> Info
    ensures { result ≡ others_of (Info.Set x) (Info.Set y) }
{
    if x.bits().count_ones() == 1 {
        prop_sets::without(y, first_element(x))
    } else {
        Info::Nothing
    }
}

/// The symbol `y`, a contradiction where it is `x`.
fn other_symbol(x: u32, y: u32) -> Info
    ensures { result ≡ others_of (Info.Sym x) (Info.Sym y) }
{
    if x == y {
        Info::Contradiction
    } else {
        Info::Sym(y)
    }
}

/// What `y` leaves other than `x`, nothing where `x` leaves several points.
fn others(x: Info, y: Info) -> Info
    ensures { result ≡ others_of x y }
{
    match (x, y) {
        (Info::Span(x), Info::Span(y)) => other_numbers(x, y),
        (Info::Set(x), Info::Set(y)) => other_elements(x, y),
        (Info::Sym(x), Info::Sym(y)) => other_symbol(x, y),
        _ => Info::Nothing,
    }
}

/// What is known of `y` where `t` says whether it is `x`: nothing while `t` isn't just `no` or `x`
/// leaves several points, and else what `y` leaves other than `x`.
pub fn parter(t: Info, x: Info, y: Info) -> Info
    ensures { (param : Param) → result ≡ value_of Apart param (t ∷ x ∷ y ∷ []) }
{
    if is_just(t, NO) {
        others(x, y)
    } else {
        Info::Nothing
    }
}
