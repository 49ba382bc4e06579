//! Shorter steps that make the same cells and instances: a use of what makes nothing is left out,
//! and one of what is itself a single use goes straight on to that.
ghost use Rattle.std.specs.Prelude.{◌≡◌, ◌++◌, [], All, length, OnOk};
ghost use Rattle.std.specs.List.{flat_map};
ghost use Rattle.prop_compound.specs.Kept.{all_bare};
ghost use Rattle.prop_compound.specs.inner.Kept.{AreInScope, IsUseBelow, AreKept};
ghost use Rattle.prop_compound.specs.inner.Shortcuts.{shortened, through};

use crate::definition::{KeptDefinition, NumberedStep, Passing, Places, Used, passed};
use crate::expanding::cells_at;
use std::alloc::{AllocError, Global};

/// A use as a step has it: of what, at which places, and what it passes on as parameter.
#[derive(Clone, Copy)]
struct Chosen<'a> {
    used: Used,
    places: &'a [usize],
    passing: Passing,
}

/// Puts a use of what has this plan last.
fn push_through(
    alloc: Global,
    inner: &[NumberedStep],
    whole: &Chosen<'_>,
    plan: &mut Vec<NumberedStep>,
) -> Result<(), AllocError>
    requires { AreInScope (length whole.now.places.now) inner.now }
    ensures { OnOk result (plan.new.items ≡ plan.old.items ++ through inner.now whole.now.used
        whole.now.places.now whole.now.passing) }
{
    if inner.is_empty() {
        return Ok(());
    }
    if inner.len() == 1
        && let NumberedStep::Use(used, chosen, own) = &inner[0]
    {
        let places = Places::new(cells_at(alloc, whole.places, chosen.as_slice())?);
        plan.push(NumberedStep::Use(*used, places, passed(whole.passing, *own)))?;
        return Ok(());
    }
    let places = Places::new(Vec::from_slice(alloc, whole.places)?);
    plan.push(NumberedStep::Use(whole.used, places, whole.passing))?;
    Ok(())
}

/// Puts what is short for the step last.
fn push_short(
    alloc: Global,
    definitions: &[KeptDefinition],
    step: &NumberedStep,
    plan: &mut Vec<NumberedStep>,
) -> Result<(), AllocError>
    requires kept { AreKept definitions.now }
    requires used { IsUseBelow (all_bare definitions.now) (length definitions.now) step.now }
    ensures { OnOk result (plan.new.items ≡ plan.old.items ++ shortened definitions.now step.now) }
{
    match step {
        NumberedStep::Local(kind) => plan.push(NumberedStep::Local(*kind))?,
        NumberedStep::Like(place) => plan.push(NumberedStep::Like(*place))?,
        NumberedStep::Use(used, places, passing) => {
            if let Used::Definition(number) = *used {
                let inner = &definitions[number].plan;
                let whole = Chosen {
                    used: *used,
                    places: places.as_slice(),
                    passing: *passing,
                };
                return push_through(alloc, inner, &whole, plan);
            }
            let places = Places::new(Vec::from_slice(alloc, places.as_slice())?);
            plan.push(NumberedStep::Use(*used, places, *passing))?;
        }
    }
    Ok(())
}

/// Puts what is short for the steps into a list that is still empty.
pub(crate) fn push_plan(
    alloc: Global,
    definitions: &[KeptDefinition],
    steps: &[NumberedStep],
    plan: &mut Vec<NumberedStep>,
) -> Result<(), AllocError>
    requires empty { plan.old.items ≡ [] }
    requires kept { AreKept definitions.now }
    requires used { All (IsUseBelow (all_bare definitions.now) (length definitions.now)) steps.now }
    ensures { OnOk result (plan.new.items ≡ flat_map (shortened definitions.now) steps.now) }
{
    for step in steps {
        push_short(alloc, definitions, step, plan)?;
    }
    Ok(())
}
