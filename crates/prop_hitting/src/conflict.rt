//! Conflicts, and what a set has of them.
ghost use Rattle.std.specs.Prelude.{◌≡◌, Contains, IfSome, None, false};
ghost use Rattle.std.specs.List.{list_any};
ghost use Rattle.prop_numbers.specs.Sets.{set_of, is_within};
ghost use Rattle.prop_hitting.specs.Hitting.{HitsAll};

use prop_premises::PremiseSet;

/// Premises that can't all hold, and whether it is known that without any one of them the others
/// can.
#[derive(Drop)]
pub struct Conflict {
    pub premises: PremiseSet,
    pub is_least: bool,
}

/// Whether a set has some premise of another.
pub(crate) fn has_some(set: &PremiseSet, other: &PremiseSet) -> bool
    ensures { result ≡ list_any (set_of set.now) other.now }
{
    for premise in other.iter() {
        if set.contains(premise) {
            return true;
        }
    }
    false
}

/// The first of the conflicts of which the set has no premise.
pub fn missed<'a>(set: &PremiseSet, conflicts: &'a [Conflict]) -> Option<&'a Conflict>
    ensures listed { IfSome result (λ c. Contains conflicts.now c.now) }
    ensures missed { IfSome result (λ c. list_any (set_of set.now) c.now.premises ≡ false) }
    ensures none { result ≡ None → HitsAll (set_of set.now) conflicts.now }
{
    for conflict in conflicts {
        if !has_some(set, &conflict.premises) {
            return Some(conflict);
        }
    }
    None
}

/// Whether the set has all of one of the others.
pub(crate) fn has_all_of_one(set: &PremiseSet, others: &[PremiseSet]) -> bool
    ensures { result ≡ list_any (λ other. is_within (set_of set.now) other) others.now }
{
    for other in others {
        if other.is_subset(set) {
            return true;
        }
    }
    false
}
