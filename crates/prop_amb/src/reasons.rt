//! The reasons against the sides that choices have left.
ghost use Rattle.std.specs.Prelude.{◌≡◌, ◌<◌, List, ℕ, [], ◌∷◌, ◌++◌, length, OnOk, OnErr};
ghost use Rattle.prop_amb.specs.Moving.{no_reasons, reasons_advanced};

use prop_premises::PremiseSet;
use std::alloc::{AllocError, Global};
use std::marker::Model;

/// A reason against each side that a choice has left, in the order of these sides.
#[derive(Drop)]
pub struct Reasons {
    sets: Vec<PremiseSet>,
}

impl Model for Reasons {
    ghost Value = { List (List ℕ) };

    ghost view = { λ r. r.sets.items };
}

impl Reasons {
    /// No reasons. It takes no memory.
    pub(crate) fn none(alloc: Global) -> Reasons
        ensures { result ≡ [] }
    {
        Reasons {
            sets: Vec::new(alloc),
        }
    }

    /// The reasons, in order.
    pub fn sets(&self) -> &[PremiseSet]
        ensures { result.now ≡ self.now }
    {
        &self.sets
    }

    /// One more reason.
    fn add(&mut self, reason: PremiseSet) -> Result<(), AllocError>
        ensures ok { OnOk result (self.new ≡ self.old ++ reason ∷ []) }
        ensures err { OnErr result (self.new ≡ self.old) }
    {
        self.sets.push(reason)?;
        Ok(())
    }

    /// Drops the reasons. It takes no memory.
    fn clear(&mut self)
        ensures { self.new ≡ [] }
    {
        self.sets.clear();
    }
}

/// Drops the reasons of each choice. It takes no memory.
pub(crate) fn forget(reasons: &mut [Reasons])
    ensures { reasons.new ≡ no_reasons reasons.old }
{
    for each in reasons {
        each.clear();
    }
}

/// Adds a reason at a place, and drops those of all later choices. After want of memory nothing has
/// changed.
pub(crate) fn advance_reasons(
    reasons: &mut [Reasons],
    place: usize,
    reason: PremiseSet,
) -> Result<(), AllocError>
    requires { place < length reasons.old }
    ensures ok { OnOk result (reasons.new ≡ reasons_advanced reasons.old place reason) }
    ensures err { OnErr result (reasons.new ≡ reasons.old) }
{
    reasons[place].add(reason)?;
    forget(&mut reasons[place + 1..]);
    Ok(())
}
