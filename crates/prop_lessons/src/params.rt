//! Which parameters are the same.
ghost use Rattle.std.specs.Prelude.{◌≡◌, ◌<◌, ◌↔◌, ◌^◌, ℕ, IfSome, IsTrue};
ghost use Rattle.prop_sets.specs.Relation.{HasPair};

use crate::same::is_same_info;
use prop_lattice::Elements;
use prop_procedures::Param;
use prop_sets::{Relation, Side};

/// Whether both parameters are the same.
pub(crate) fn is_same_param(one: &Param, other: &Param) -> bool
    ensures { IsTrue result → one.now ≡ other.now }
{
    match (one, other) {
        (Param::Plain, Param::Plain) => true,
        (Param::Scale(one), Param::Scale(other)) => *one == *other,
        (Param::Rows(one), Param::Rows(other)) => is_same_relation(one, other),
        _ => false,
    }
}

/// Whether both relations are between the same domains and have the same pairs.
fn is_same_relation(one: &Relation, other: &Relation) -> bool
    ensures { IsTrue result → one.now ≡ other.now }
{
    is_same_side(one.from(), other.from())
        && is_same_side(one.to(), other.to())
        && have_same_pairs(one, other)
}

/// Whether both are the same domain.
fn is_same_side(one: Side, other: Side) -> bool
    ensures { IsTrue result → one ≡ other }
{
    one == other
}

/// Whether each element of the first domain of one relation has the same partners in both.
fn have_same_pairs(one: &Relation, other: &Relation) -> bool
    ensures { IsTrue result → (i j : ℕ) → i < one.now.from.size
        → HasPair one.now i j ↔ HasPair other.now i j }
{
    for element in 0..one.from().size {
        if !have_same_partners(one, other, element) {
            return false;
        }
    }
    true
}

/// Whether the element of the first domain has the same partners in both relations.
fn have_same_partners(one: &Relation, other: &Relation, element: u8) -> bool
    ensures { IsTrue result → (j : ℕ) → HasPair one.now element j ↔ HasPair other.now element j }
{
    match one_element(element) {
        Some(single) => is_same_info(one.image(single), other.image(single)),
        None => false,
    }
}

/// The element with this number alone.
fn one_element(number: u8) -> Option<Elements>
    ensures { IfSome result (λ e. e.bits ≡ 2 ^ number) }
{
    if number < 64 {
        Elements::new(1 << number)
    } else {
        None
    }
}
