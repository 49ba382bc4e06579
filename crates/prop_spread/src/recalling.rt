//! What was found before comes into a spread that begins.

ghost use Rattle.std.specs.Prelude.{◌≡◌, ◌⊎◌, OnOk};
ghost use Rattle.prop_refuting.specs.Nogoods.{Nogood as NogoodOf};
ghost use Rattle.prop_learned.specs.Stores.{IsKeptIn};

use crate::spread::{SHORT, Spread, Unit};
use prop_facts::Literal;
use prop_lattice::Info;
use prop_learned::is_so;
use prop_refuting::Nogood;
use prop_trail::Trail;
use std::alloc::AllocError;

/// The numbers of the first two literals that aren't so.
fn first_open(trail: &Trail, literals: &[Literal]) -> (Option<usize>, Option<usize>) {
    let mut first = None;
    for (at, literal) in literals.iter().enumerate() {
        if !is_so(trail, *literal) {
            if first.is_some() {
                return (first, Some(at));
            }
            first = Some(at);
        }
    }
    (first, None)
}

impl Spread {
    /// These values are tried first.
    pub fn expect(&mut self, values: &[Info])
        ensures same { self.new ≡ self.old }
    {
        self.present.expect(values);
    }

    /// Keeps a nogood that was learned before, where nothing was supposed yet. It is watched at two
    /// literals that aren't so, and denies the only one by itself.
    pub fn recall(&mut self, nogood: Nogood) -> Result<(), AllocError>
        ensures root { self.new.root ≡ self.old.root }
        ensures kept { OnOk result ((g : NogoodOf) → IsKeptIn self.new.nogoods g
            → IsKeptIn self.old.nogoods g ⊎ (g ≡ nogood)) }
    {
        let (first, second) = first_open(&self.trail, nogood.literals());
        let at = first.unwrap_or(0);
        let Some(literal) = nogood.literals().get(at) else {
            return Ok(());
        };
        let literal = *literal;
        let stays = second.is_none() || nogood.literals().len() <= SHORT;
        let number = self.store.add(nogood, (at, second.unwrap_or(at)), stays)?;
        if second.is_none() {
            self.units.push(Unit { literal, number })?;
        }
        Ok(())
    }
}
