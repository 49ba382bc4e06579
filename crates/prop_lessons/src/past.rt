//! A network and the choices as they were.
ghost use Rattle.std.specs.Prelude.{◌≡◌, IfOk};
ghost use Rattle.prop_plans.specs.Held.{attached_of};

use crate::instance::PastInstance;
use prop_cells::{Cells, Statement};
use prop_premises::Choice;
use prop_procedures::Kinded;
use std::alloc::{AllocError, Global};
use std::marker::Model;

/// The cells, the statements and the instances of a network, and the choices, as they were.
#[derive(Drop)]
pub struct Past {
    pub(crate) kinds: Vec<Kinded>,
    pub(crate) statements: Vec<Statement>,
    pub(crate) instances: Vec<PastInstance>,
    pub(crate) choices: Vec<Choice>,
}

impl Model for Past {
    ghost use Rattle.prop_lessons.specs.Lessons.{PastOf};

    ghost Value = { PastOf };

    ghost view = { λ p. record {
      attached = record {
        kinds = p.kinds.items;
        statements = p.statements.items;
        instances = p.instances.items;
      };
      choices = p.choices.items;
    } };
}

impl Past {
    /// The network and the choices as they are.
    pub fn of(alloc: Global, cells: &Cells, choices: &[Choice]) -> Result<Past, AllocError>
        ensures { IfOk result (λ p. p
            ≡ record { attached = attached_of cells.now; choices = choices.now }) }
    {
        let kinds = kinds_of(alloc, cells)?;
        let statements = Vec::from_slice(alloc, cells.statements())?;
        let instances = instances_of(alloc, cells)?;
        let choices = Vec::from_slice(alloc, choices)?;
        Ok(Past {
            kinds,
            statements,
            instances,
            choices,
        })
    }
}

/// The kinds of all cells.
fn kinds_of(alloc: Global, cells: &Cells) -> Result<Vec<Kinded>, AllocError>
    ensures { IfOk result (λ kinds. kinds.items ≡ cells.now.kinds) }
{
    let mut kinds = Vec::with_capacity(alloc, cells.len())?;
    for cell in 0..cells.len() {
        kinds.push(cells.kind(cell))?;
    }
    Ok(kinds)
}

/// All instances, as they are.
fn instances_of(alloc: Global, cells: &Cells) -> Result<Vec<PastInstance>, AllocError>
    ensures { IfOk result (λ instances. instances.items ≡ cells.now.instances) }
{
    let mut instances = Vec::with_capacity(alloc, cells.instance_count())?;
    for number in 0..cells.instance_count() {
        instances.push(PastInstance::of(alloc, cells.instance(number))?)?;
    }
    Ok(instances)
}
