//! What a search learned, kept for later ones.
ghost use Rattle.std.specs.Prelude.{◌≡◌, [], ◌∷◌, ◌++◌, List, All, IfOk, OnOk, OnErr, IsTrue};
ghost use Rattle.prop_numbers.specs.Sets.{set_of};
ghost use Rattle.prop_premises.specs.Origins.{believed_in, choices_of};
ghost use Rattle.prop_procedures.specs.Stored.{Stored};
ghost use Rattle.prop_plans.specs.Held.{attached_of};
ghost use Rattle.prop_lessons.specs.Lessons.{AreTaught, Stands};

use crate::past::Past;
use prop_cells::Cells;
use prop_premises::Premises;
use prop_refuting::Nogood;
use std::alloc::{AllocError, Global};
use std::marker::Model;

/// Nogoods, with the network and the choices as they were when they were learned.
#[derive(Drop)]
pub struct Lessons {
    past: Past,
    nogoods: Vec<Nogood>,
}

impl Model for Lessons {
    ghost use Rattle.prop_lessons.specs.Lessons.{Taught};

    ghost Value = { Taught };

    ghost view = { λ t. record {
      attached = t.past.attached;
      choices = t.past.choices;
      nogoods = t.nogoods.items;
    } };
}

impl Lessons {
    /// No nogoods, of a network as it was. It takes no memory.
    pub fn new(alloc: Global, past: Past) -> Lessons
        ensures { result
            ≡ record { attached = past.attached; choices = past.choices; nogoods = [] } }
    {
        Lessons {
            past,
            nogoods: Vec::new(alloc),
        }
    }

    /// One more nogood, behind the others. After want of memory nothing has changed.
    pub fn add(&mut self, nogood: Nogood) -> Result<(), AllocError>
        ensures ok { OnOk result (self.new
            ≡ record self.old { nogoods = self.old.nogoods ++ nogood ∷ [] }) }
        ensures err { OnErr result (self.new ≡ self.old) }
    {
        self.nogoods.push(nogood)?;
        Ok(())
    }

    /// Copies of the nogoods that still hold of what the network and the choices are now, in order:
    /// where nothing met a nogood, nothing meets its copy, and each of its premises is one of the
    /// user's that is believed. It takes time for each cell, statement, instance, premise and
    /// nogood.
    pub fn recall(&self, cells: &Cells, premises: &Premises) -> Result<Vec<Nogood>, AllocError>
        ensures { IfOk result (λ v. (library : List Stored) → AreTaught library self.now
            → All (Stands library (attached_of cells.now) (choices_of premises.now)
            (believed_in premises.now)) v.items) }
    {
        let alloc = *self.nogoods.allocator();
        let mut recalled = Vec::new(alloc);
        let Some(standing) = self.past.standing(alloc, cells, premises)? else {
            return Ok(recalled);
        };
        for nogood in &self.nogoods {
            if self.past.leaves(nogood, cells.len(), &standing) {
                recalled.push(nogood.copy()?)?;
            }
        }
        Ok(recalled)
    }
}
