//! The reasons against all sides of a choice, joined.
ghost use Rattle.std.specs.Prelude.{◌≡◌, ◌+◌, ◌≤◌, ◌<◌, ◌^◌, length, IfOk};
ghost use Rattle.prop_numbers.specs.Sets.{set_of, union, without, IsSame};
ghost use Rattle.prop_amb.specs.inner.Joined.{others_of};

use prop_premises::{Premise, PremiseSet};
use std::alloc::AllocError;

/// What a set has beside one premise, and each of the reasons beside its own premise, of which the
/// first reason's is given and the others follow.
pub(crate) fn joined(
    set: &PremiseSet,
    premise: Premise,
    reasons: &[PremiseSet],
    own: Premise,
) -> Result<PremiseSet, AllocError>
    requires { own + length reasons.now < 2 ^ 16 }
    ensures { IfOk result (λ s. IsSame (set_of s)
        (union (without (set_of set.now) premise) (others_of own reasons.now))) }
{
    let mut joined = set.without(premise)?;
    let mut own = own;
    for reason in reasons {
        let others = reason.without(own)?;
        joined.unite(&others)?;
        own += 1;
    }
    Ok(joined)
}
