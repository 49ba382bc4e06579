//! Nogoods to begin with.
ghost use Rattle.std.specs.Prelude.{◌≡◌, ◌∷◌, [], List, All, IfOk, IfSome};
ghost use Rattle.prop_premises.specs.declared.choice.Choice.{Choice};
ghost use Rattle.prop_procedures.specs.Stored.{Stored};
ghost use Rattle.prop_cells.specs.Points.{Attached};
ghost use Rattle.prop_refuting.specs.Nogoods.{Excludes, IsNeverMet};
ghost use Rattle.prop_refuting.specs.Places.{IsSoAt};

use crate::nogood::Nogood;
use prop_facts::{Fact, Literal};
use prop_premises::PremiseSet;
use std::alloc::{AllocError, Global};

/// The nogood of two facts about a place that no value has together; none where that can't be seen.
pub fn clashing(
    alloc: Global,
    place: usize,
    one: Fact,
    other: Fact,
) -> Result<Option<Nogood>, AllocError>
    ensures facts { IfOk result (λ o. IfSome o (λ g. g ≡ record {
      literals = record { place = place; fact = one } ∷ record { place = place; fact = other } ∷ [];
      premises = [];
    })) }
    ensures never { IfOk result (λ o. IfSome o (λ g.
        (library : List Stored) (n : Attached) (choices : List Choice)
        → IsNeverMet library n choices g)) }
{
    if !one.bars(other) {
        return Ok(None);
    }
    let mut literals = Vec::new(alloc);
    literals.push(Literal { place, fact: one })?;
    literals.push(Literal { place, fact: other })?;
    Ok(Some(Nogood::new(literals, PremiseSet::empty(alloc))))
}

/// The nogood of facts whose excuse is that they are so.
pub fn excused(alloc: Global, literals: Vec<Literal>) -> Nogood
    ensures facts { result ≡ record { literals = literals.items; premises = [] } }
    ensures excused { (library : List Stored) (n : Attached) (choices : List Choice)
        → Excludes library n choices (λ points list. All (IsSoAt n points list) literals.items)
        result }
{
    Nogood::new(literals, PremiseSet::empty(alloc))
}
