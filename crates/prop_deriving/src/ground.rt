//! What a derivation reads.
ghost use Rattle.std.specs.Prelude.{◌≡◌};
ghost use Rattle.prop_plans.specs.Held.{attached_of};
ghost use Rattle.prop_refuting.specs.Places.{kind_at_place};

use crate::course::Course;
use crate::sides::Sides;
use prop_cells::Network;
use prop_learned::store::Store;
use prop_premises::{Choice, Worldview};
use prop_procedures::{Kinded, Rule};
use prop_refuting::kind_at_place;
use prop_trail::Trail;
use std::alloc::Global;

/// What is read as a nogood is derived: the network with its choices, what is believed on the trail
/// (whose entries are told place by place) and at the root, and the nogoods that are kept.
#[derive(Drop)]
pub struct Ground<'a, R> {
    pub alloc: Global,
    pub network: &'a Network<R>,
    pub choices: &'a [Choice],
    pub sides: &'a Sides,
    pub trail: &'a Trail,
    pub course: &'a Course,
    pub store: &'a Store,
    pub root: &'a Worldview,
}

impl<R: Rule + Drop> Ground<'_, R> {
    /// The kind of the values of a place; none where there is no such place.
    pub(crate) fn kind(&self, place: usize) -> Option<Kinded>
        ensures { result ≡ kind_at_place (attached_of self.now.network.now.cells)
            self.now.choices.now place }
    {
        kind_at_place(self.network.data(), self.choices, place)
    }
}
